//! Value types from the input.

ghost use Rattle.smith_input.specs.Reading.{IsTail};
ghost use Rattle.smith_input.specs.Choices.{ReadsAmong};
ghost use Rattle.smith_tree.specs.TypeOffers.{primitives};
ghost use Rattle.smith_types.specs.Made.{ReadsVal, ReadsMaybe};
ghost use Rattle.smith_scopes.specs.Scopes.{own_marked};

use smith_input::Unstructured;
use smith_scope::Offer;
use smith_scopes::Scopes;
use smith_syntax::{ComponentValType, PrimitiveValType};
use smith_tree::primitives;

// A primitive value type, by a choice among the thirteen.
pub(super) fn read_primitive(u: &mut Unstructured) -> PrimitiveValType
    ensures reads { ReadsAmong primitives u.old result u.new }
    ensures tail { IsTail u.new u.old }
{
    *u.choose(primitives())
}

// A value type: primitive, or one of the defined types of the last scope that may be used.
#[inline(always)]
pub(super) fn read_value_type(u: &mut Unstructured, scopes: &Scopes) -> ComponentValType
    ensures reads { ReadsVal (own_marked scopes.now) u.old result u.new }
    ensures tail { IsTail u.new u.old }
{
    let usable = scopes.offered_len(Offer::Value);
    if usable > 0 && u.choose_index(2) == 1 {
        let rank = u.choose_index(usable);
        return ComponentValType::Indexed(scopes.offered_at(Offer::Value, rank));
    }
    ComponentValType::Primitive(read_primitive(u))
}

// A boolean, and a value type if it is true.
pub(super) fn read_maybe_value_type(
    u: &mut Unstructured,
    scopes: &Scopes,
) -> Option<ComponentValType>
    ensures reads { ReadsMaybe (own_marked scopes.now) u.old result u.new }
    ensures tail { IsTail u.new u.old }
{
    if u.arbitrary_bool() {
        Some(read_value_type(u, scopes))
    } else {
        None
    }
}
