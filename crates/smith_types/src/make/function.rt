//! Function types from the input.

ghost use Rattle.std.specs.Prelude.{IfOk};
ghost use Rattle.smith_input.specs.Consumes.{Consumes};
ghost use Rattle.smith_input.specs.Reading.{IsTail};
ghost use Rattle.smith_types.specs.Made.{MadeFunction, ReadsResult};
ghost use Rattle.smith_scopes.specs.Scopes.{own_marked};

use super::making::Making;
use super::members::read_members;
use super::values::read_value_type;
use smith_format::burn;
use smith_input::{Error, Unstructured};
use smith_scopes::Scopes;
use smith_syntax::{ComponentValType, FuncType};

// The result of a function, or none: a loop of at most one turn.
fn read_result(
    making: &Making,
    u: &mut Unstructured,
    scopes: &Scopes,
    fuel: &mut u32,
) -> Option<ComponentValType>
    ensures reads { ReadsResult making.now.config.now (own_marked scopes.now) u.old fuel.old result u.new fuel.new }
    ensures tail { IsTail u.new u.old }
{
    if !u.more_of(making.config.loop_bits, 0, 0, 1) {
        return None;
    }
    burn(fuel);
    if *fuel == 0 {
        return None;
    }
    Some(read_value_type(u, scopes))
}

// A function type: at most 16 parameters, and then a result or none.
pub(super) fn read_function_type(
    making: &Making,
    u: &mut Unstructured,
    scopes: &Scopes,
    fuel: &mut u32,
) -> Result<FuncType, Error>
    ensures made { IfOk result (λ f. MadeFunction making.now.config.now (own_marked scopes.now) u.old fuel.old f
        u.new fuel.new) }
    ensures input { Consumes result u.old u.new }
{
    let params = read_members(making, u, scopes, fuel, (0, 16))?;
    let result = read_result(making, u, scopes, fuel);
    Ok(FuncType { params, result })
}
