//! What bytes are to a validator: a component that it accepts, one that it does not, or none that is well formed.

ghost use Rattle.std.specs.Prelude.{◌≤◌, IfOk};
ghost use Rattle.smith_tree.specs.Depths.{scope_depth};
ghost use Rattle.smith_tree.specs.Grammar.{Spells};
ghost use Rattle.smith_read.specs.PartNodes.{shown_tree};
ghost use Rattle.smith_read.specs.Reads.{most_depth};
ghost use Rattle.smith_verdict.specs.Validities.{IsValidity};

use crate::verdict::{Verdict, check_component};
use smith_read::{ComponentTree, ReadError, offset_of, read};
use smith_validate::{Demand, Validity as Judged, validated};
use std::alloc::{AllocError, Global};
use std::fmt;

/// What bytes are to a validator.
///
/// As text: `valid`, or what is wrong and where, such as
/// `an import or an export is of a type that is not named at offset 25`.
#[derive(Debug, PartialEq, Eq, Drop)]
pub enum Validity {
    /// A component that is well formed and meets all demands.
    Valid,
    /// A well formed component that does not: a demand that it does not meet, and the offset of the item from which on
    /// it does not. What precedes that item meets all demands, and what ends with it does not meet this one. The
    /// offset is always there.
    Invalid {
        demand: Demand,
        offset: Option<usize>,
    },
    /// No well formed component: what the bytes are.
    Other(Verdict),
}

impl fmt::Display for Validity {
    fn fmt<W: fmt::Write>(&self, f: &mut fmt::Formatter<W>) -> fmt::Result {
        match self {
            Validity::Valid => f.write_str("valid"),
            Validity::Invalid {
                demand,
                offset: Some(offset),
            } => write!(f, "{demand} at offset {offset}"),
            Validity::Invalid {
                demand,
                offset: None,
            } => write!(f, "{demand}"),
            Validity::Other(verdict) => write!(f, "{verdict}"),
        }
    }
}

fn validity_of(
    alloc: Global,
    bytes: &[u8],
    component: &ComponentTree,
) -> Result<Validity, AllocError>
    requires spelled { Spells (shown_tree component.now) bytes.now }
    requires shallow { scope_depth (shown_tree component.now) ≤ most_depth }
    ensures { IfOk result (IsValidity bytes.now) }
{
    let verdict = check_component(alloc, bytes, component)?;
    if verdict != Verdict::WellFormed {
        return Ok(Validity::Other(verdict));
    }
    match validated(alloc, component)? {
        Judged::Valid => Ok(Validity::Valid),
        Judged::Invalid(shortfall) => {
            let offset = offset_of(alloc, bytes, shortfall.item)?;
            Ok(Validity::Invalid {
                demand: shortfall.demand,
                offset,
            })
        }
    }
}

/// What these bytes are to a validator. `Err` is returned only if an allocation failed, and says nothing about them.
pub fn validate(alloc: Global, bytes: &[u8]) -> Result<Validity, AllocError>
    ensures { IfOk result (IsValidity bytes.now) }
{
    match read(alloc, bytes) {
        Ok(component) => validity_of(alloc, bytes, &component),
        Err(ReadError::OutOfMemory) => Err(AllocError),
        Err(ReadError::Malformed { offset, reason }) => {
            Ok(Validity::Other(Verdict::Unread { reason, offset }))
        }
    }
}
