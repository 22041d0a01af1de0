//! A type of each kind, from the input.

ghost use Rattle.std.specs.Prelude.{◌≡◌, ◌≤◌, ◌<◌, length, IfOk};
ghost use Rattle.smith_input.specs.Choices.{ReadsAmong};
ghost use Rattle.smith_input.specs.Consumes.{Consumes};
ghost use Rattle.smith_input.specs.Reading.{IsTail};
ghost use Rattle.smith_syntax.specs.Shown.{full_type};
ghost use Rattle.smith_types.specs.Made.{Made};
ghost use Rattle.smith_types.specs.MakingTypes.{IsMarkOf, MadeKind};
ghost use Rattle.smith_tree.specs.TypeOffers.{type_kinds};
ghost use Rattle.smith_scopes.specs.Scopes.{own_marked, outer_marked};
ghost use Rattle.smith_tree.specs.declared.choices.TypeKind.TheVariants as kind;

use super::defined::read_defined_type;
use super::function::read_function_type;
use super::making::Making;
use super::scoped::read_scoped_type;
use smith_format::burn;
use smith_input::{Error, Unstructured};
use smith_scopes::Scopes;
use smith_syntax::{DefType, Mark};
use smith_tree::{TypeKind, type_kinds};
use std::rc::Rc;

// What kind of type is read: a defined type if no fuel is left, otherwise one of four.
fn read_type_kind(u: &mut Unstructured, fuel: u32) -> TypeKind
    ensures spent { fuel ≡ 0 → (result ≡ kind.Defined) × (u.new ≡ u.old) }
    ensures chosen { 0 < fuel → ReadsAmong type_kinds u.old result u.new }
    ensures tail { IsTail u.new u.old }
{
    if fuel == 0 {
        return TypeKind::Defined;
    }
    *u.choose(type_kinds())
}

// A type of one kind.
#[cycle(making)]
fn read_type_of(
    making: &Making,
    u: &mut Unstructured,
    scopes: &mut Scopes,
    fuel: &mut u32,
    kind: TypeKind,
) -> Result<(DefType, Mark), Error>
    requires shallow { length scopes.old ≤ 1001 }
    ensures made { IfOk result (λ t. MadeKind making.now.config.now (own_marked scopes.old) (outer_marked scopes.old)
        kind u.old fuel.old (full_type t.0) u.new fuel.new) }
    ensures mark { IfOk result (λ t. IsMarkOf scopes.old (full_type t.0) t.1) }
    ensures scopes { scopes.new ≡ scopes.old }
    ensures input { Consumes result u.old u.new }
{
    match kind {
        TypeKind::Defined => {
            let ty = read_defined_type(making, u, scopes, fuel)?;
            let mark = scopes.defined_mark(&ty);
            Ok((DefType::Defined(ty), mark))
        }
        TypeKind::Function => {
            let func = read_function_type(making, u, scopes, fuel)?;
            let mark = scopes.function_mark(&func);
            Ok((DefType::Func(Rc::new(making.alloc, func)?), mark))
        }
        TypeKind::Component => read_scoped_type(making, u, scopes, fuel, true),
        TypeKind::Instance => read_scoped_type(making, u, scopes, fuel, false),
    }
}

// A type, by the rules of `arbitrary_type`, and its mark.
#[cycle(making)]
pub(super) fn read_type(
    making: &Making,
    u: &mut Unstructured,
    scopes: &mut Scopes,
    fuel: &mut u32,
) -> Result<(Rc<DefType>, Mark), Error>
    requires shallow { length scopes.old ≤ 1001 }
    ensures made { IfOk result (λ t. Made making.now.config.now (own_marked scopes.old) (outer_marked scopes.old)
        u.old fuel.old (full_type t.0.value) u.new fuel.new) }
    ensures mark { IfOk result (λ t. IsMarkOf scopes.old (full_type t.0.value) t.1) }
    ensures scopes { scopes.new ≡ scopes.old }
    ensures input { Consumes result u.old u.new }
{
    burn(fuel);
    let kind = read_type_kind(u, *fuel);
    let (made, mark) = read_type_of(making, u, scopes, fuel, kind)?;
    let shared = Rc::new(making.alloc, made)?;
    Ok((shared, mark))
}
