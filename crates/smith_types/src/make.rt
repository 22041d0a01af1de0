//! Types from the input.

mod declarations;
mod defined;
mod externs;
mod function;
mod items;
mod kinds;
mod making;
mod members;
mod references;
mod scoped;
mod values;

ghost use Rattle.std.specs.Prelude.{◌≡◌, ◌++◌, ℕ, List, true, IfOk};
ghost use Rattle.smith_input.specs.Consumes.{Consumes};
ghost use Rattle.smith_types.specs.MakingTypes.{CanReadTypes, MadeToFit};
ghost use Rattle.smith_types.specs.Sayable.{IsSayable};
ghost use Rattle.smith_tree.specs.TypeScript.{script_type};
ghost use Rattle.smith_scopes.specs.Scopes.{own_marked, outer_marked};
ghost use Rattle.smith_syntax.specs.Entries.{Entry};
ghost use Rattle.smith_syntax.specs.Shown.{full_type, shown_shared};
ghost use Rattle.smith_syntax.specs.Marked.{mark};

pub use externs::{ExternNames, named_extern};
use kinds::read_type;
use making::Making;
pub use references::arbitrary_type_ref;
use smith_format::{Config, ValType};
use smith_input::{Error, Unstructured};
use smith_scopes::Scopes;
use smith_syntax::{DefType, Mark};
use std::alloc::Global;
use std::rc::Rc;

/// A type in these scopes, which takes fuel: one for itself, one for each turn of a loop over its members or
/// declarations, and as much again for each type and core type in it. If fuel is left at first, a choice of four kinds
/// is read: a defined type, or the type of a function, a component or an instance. Otherwise it is a defined type.
///
/// A record, variant, tuple or enum has from 1 to 100 members and flags have from 1 to 32, or it is `bool` if it would
/// have none; a function has at most 16 parameters; types of components and instances have at most 100 declarations.
/// Names within one type are in kebab case and distinct, and so are the names of its imports and the names of its
/// exports. Each outer alias keeps what it names. The type is well formed in the scopes, within the limits, and no
/// larger than the fuel that it took; all that it names was offered. Its own scopes nest one deeper than the last one,
/// or to `max_nesting_depth` if that is more. It fails only when out of memory. The scopes stay as they are, also after
/// a refusal.
pub fn arbitrary_type(
    alloc: Global,
    u: &mut Unstructured,
    config: &Config,
    valtypes: &[ValType],
    scopes: &mut Scopes,
    fuel: &mut u32,
) -> Result<Rc<DefType>, Error>
    requires { CanReadTypes config.now valtypes.now scopes.old }
    ensures made { IfOk result
        (λ t. MadeToFit config.now scopes.old u.old fuel.old (full_type t.value) u.new fuel.new) }
    // The script of a type produces that type.
    ensures script { (e : Entry) (rest : List ℕ)
        → IsSayable config.now (own_marked scopes.old) (outer_marked scopes.old) fuel.old e
        → u.old ≡ script_type e config.now fuel.old (own_marked scopes.old) (outer_marked scopes.old) ++ rest
        → IfOk result (λ t. (shown_shared t ≡ e) × (u.new ≡ rest)) }
    ensures scopes { scopes.new ≡ scopes.old }
    ensures input { Consumes result u.old u.new }
{
    let (made, _) = arbitrary_marked_type(alloc, u, config, valtypes, scopes, fuel)?;
    Ok(made)
}

/// The same, and the mark of the type, which says something if marks are kept.
pub fn arbitrary_marked_type(
    alloc: Global,
    u: &mut Unstructured,
    config: &Config,
    valtypes: &[ValType],
    scopes: &mut Scopes,
    fuel: &mut u32,
) -> Result<(Rc<DefType>, Mark), Error>
    requires { CanReadTypes config.now valtypes.now scopes.old }
    ensures made { IfOk result
        (λ t. MadeToFit config.now scopes.old u.old fuel.old (full_type t.0.value) u.new fuel.new) }
    ensures mark { IfOk result (λ t. (own_marked scopes.old).keeps ≡ true
        → t.1 ≡ mark (shown_shared t.0) (own_marked scopes.old) (outer_marked scopes.old)) }
    // The script of a type produces that type.
    ensures script { (e : Entry) (rest : List ℕ)
        → IsSayable config.now (own_marked scopes.old) (outer_marked scopes.old) fuel.old e
        → u.old ≡ script_type e config.now fuel.old (own_marked scopes.old) (outer_marked scopes.old) ++ rest
        → IfOk result (λ t. (shown_shared t.0 ≡ e) × (u.new ≡ rest)) }
    ensures scopes { scopes.new ≡ scopes.old }
    ensures input { Consumes result u.old u.new }
{
    let making = Making {
        alloc,
        config,
        valtypes,
    };
    let made = read_type(&making, u, scopes, fuel)?;
    Ok(made)
}
