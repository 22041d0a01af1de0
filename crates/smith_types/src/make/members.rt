//! Members of a type from the input: a loop that takes fuel.

ghost use Rattle.std.specs.Prelude.{◌≤◌, ℕ, List, map, string_bytes, IfOk};
ghost use Rattle.smith_format.specs.declared.config.Config.{Config};
ghost use Rattle.smith_input.specs.Names.{ReadsNew};
ghost use Rattle.smith_input.specs.Consumes.{Consumes};
ghost use Rattle.smith_syntax.specs.Entries.{Field, Case};
ghost use Rattle.smith_types.specs.Made.{ReadsVal, ReadsMaybe, ReadsNamed, ReadsMembers};
ghost use Rattle.smith_syntax.specs.Marked.{Marked};
ghost use Rattle.smith_scopes.specs.Scopes.{own_marked};
ghost use Rattle.smith_syntax.specs.Signature.{named};
ghost use Rattle.smith_syntax.specs.declared.types.ComponentValType.{ComponentValType as Val};

use super::making::Making;
use super::values::{read_maybe_value_type, read_value_type};
use smith_format::burn;
use smith_input::{Error, Unstructured, new_kebab_string};
use smith_scopes::Scopes;
use smith_syntax::ComponentValType;

// What a loop reads, one after another. A member that has a name has a new one.
pub(super) trait Member: Drop {
    ghost Shown: { Type 0 };

    ghost shown: { Self → Shown };

    ghost reads_member: { Config → Marked → List Shown → List ℕ → Shown → List ℕ → Type 0 };

    // A member after those so far.
    fn read(
        making: &Making,
        u: &mut Unstructured,
        scopes: &Scopes,
        so_far: &[Self],
    ) -> Result<Self, Error>
        ensures read { IfOk result
            (λ m. reads_member making.now.config.now (own_marked scopes.now) (map shown so_far.now)
            u.old (shown m) u.new) }
        ensures input { Consumes result u.old u.new };
}

// The members of a type: at least `counts.0` if the fuel lasts, and at most `counts.1`.
pub(super) fn read_members<M: Member>(
    making: &Making,
    u: &mut Unstructured,
    scopes: &Scopes,
    fuel: &mut u32,
    counts: (usize, usize),
) -> Result<Vec<M>, Error>
    requires { counts.0 ≤ counts.1 }
    ensures reads { IfOk result (λ v. ReadsMembers making.now.config.now
        (M.reads_member making.now.config.now (own_marked scopes.now)) counts.0 counts.1 u.old fuel.old
        (map M.shown v.items) u.new fuel.new) }
    ensures input { Consumes result u.old u.new }
{
    let mut members = Vec::new(making.alloc);
    for done in 0..counts.1 {
        if !u.more_of(making.config.loop_bits, done, counts.0, counts.1) {
            return Ok(members);
        }
        burn(fuel);
        if *fuel == 0 {
            return Ok(members);
        }
        let member = M::read(making, u, scopes, &members)?;
        members.push(member)?;
    }
    Ok(members)
}

impl Member for ComponentValType {
    ghost Shown = { Val };

    ghost shown = { λ v. v };

    ghost reads_member = { λ config own so_far. ReadsVal own };

    fn read(
        _making: &Making,
        u: &mut Unstructured,
        scopes: &Scopes,
        _so_far: &[ComponentValType],
    ) -> Result<ComponentValType, Error> {
        Ok(read_value_type(u, scopes))
    }
}

impl Member for String {
    ghost Shown = { List ℕ };

    ghost shown = { string_bytes };

    ghost reads_member = { λ config own. ReadsNew config.max_name_length };

    fn read(
        making: &Making,
        u: &mut Unstructured,
        _scopes: &Scopes,
        so_far: &[String],
    ) -> Result<String, Error> {
        new_kebab_string(making.alloc, making.config.max_name_length, &so_far, u)
    }
}

impl Member for (String, ComponentValType) {
    ghost Shown = { Field };

    ghost shown = { λ f. named f };

    ghost reads_member = { λ config own. ReadsNamed config (ReadsVal own) };

    fn read(
        making: &Making,
        u: &mut Unstructured,
        scopes: &Scopes,
        so_far: &[(String, ComponentValType)],
    ) -> Result<(String, ComponentValType), Error> {
        let name = new_kebab_string(making.alloc, making.config.max_name_length, &so_far, u)?;
        Ok((name, read_value_type(u, scopes)))
    }
}

impl Member for (String, Option<ComponentValType>) {
    ghost Shown = { Case };

    ghost shown = { λ c. named c };

    ghost reads_member = { λ config own. ReadsNamed config (ReadsMaybe own) };

    fn read(
        making: &Making,
        u: &mut Unstructured,
        scopes: &Scopes,
        so_far: &[(String, Option<ComponentValType>)],
    ) -> Result<(String, Option<ComponentValType>), Error> {
        let name = new_kebab_string(making.alloc, making.config.max_name_length, &so_far, u)?;
        Ok((name, read_maybe_value_type(u, scopes)))
    }
}
