//! Choices of positions.

ghost use Rattle.std.specs.Prelude.{◌≡◌, min, nat_eq};
ghost use Rattle.std.specs.List.Sorted.{IsStrictlyIncreasing};
ghost use Rattle.smith_input.specs.Script.{pick, rank_of, script_among};
ghost use Rattle.smith_scope.specs.Kept.{offered_places};
ghost use Rattle.smith_scopes.specs.Nodes.{shown_marked};
ghost use Rattle.smith_script_types.specs.Says.{Says};

use crate::choices::say_choice;
use smith_input::Error;
use smith_scope::{NodeScope, Offer};

/// The rank of a position among these, which ascend, or how many there are.
pub(crate) fn rank_of(positions: &[usize], position: usize) -> usize
    requires { IsStrictlyIncreasing positions.now }
    ensures { result ≡ rank_of nat_eq positions.now position }
{
    let count = positions.len();
    positions.binary_search(&position).unwrap_or(count)
}

/// A choice of a position among these, which ascend. Public only for the crate above.
pub fn say_position(out: &mut Vec<u8>, positions: &[usize], position: usize) -> Result<(), Error>
    requires { IsStrictlyIncreasing positions.now }
    ensures { Says result out.old out.new (script_among nat_eq positions.now position) }
{
    say_choice(out, positions.len(), rank_of(positions, position))
}

/// A choice of an index among all of that many.
pub(crate) fn say_index(out: &mut Vec<u8>, count: usize, index: usize) -> Result<(), Error>
    ensures { Says result out.old out.new (pick count (min index count)) }
{
    say_choice(out, count, index.min(count))
}

/// A choice of the type with that index among the ones that may be used for it.
pub(crate) fn say_usable(
    out: &mut Vec<u8>,
    scope: &NodeScope<'_>,
    offer: Offer,
    index: u32,
) -> Result<(), Error>
    ensures { Says result out.old out.new (script_among nat_eq (offered_places offer (shown_marked scope.now)) index) }
{
    match scope.offered(offer) {
        Some(row) => say_position(out, row, index as usize),
        None => say_index(out, scope.types_len(), index as usize),
    }
}
