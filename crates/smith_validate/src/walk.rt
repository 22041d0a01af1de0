//! The judgement of a component.

ghost use Rattle.std.specs.Prelude.{IfOk};
ghost use Rattle.smith_read.specs.PartNodes.{shown_tree};
ghost use Rattle.smith_validate.specs.Outcome.{IsOutcome};

use crate::check::Check;
use crate::error::{Shortfall, Stop, Validity};
use smith_read::{ComponentTree, Steps};
use std::alloc::{AllocError, Global};

/// Judges whether a well formed component meets all that a validator asks beside: `Valid` if it does, or `Invalid` with
/// a demand that it does not meet and the item. An error is returned only if an allocation failed, and says nothing
/// about the component.
///
/// It is proved that what is `Valid` meets all demands, that what is `Invalid` for a bound does not keep that bound,
/// whatever else is asked, and that a well formed component that is `Invalid` for a name does not name all that it has
/// to. The item is the first with which it does not: what precedes the item meets all demands, and what ends with it
/// does not meet that one.
///
/// Each item is looked at once. The stack is bounded by how deep types nest, however deep components do.
pub fn validated(alloc: Global, component: &ComponentTree) -> Result<Validity, AllocError>
    ensures { IfOk result (IsOutcome (shown_tree component.now)) }
{
    let mut steps = Steps::new(alloc, component);
    let mut check = Check::new(alloc);
    let mut item: usize = 0;
    while let Some(step) = steps.next()? {
        match check.step(alloc, step) {
            Ok(()) => {}
            Err(Stop::OutOfMemory) => return Err(AllocError),
            Err(Stop::Invalid(demand)) => return Ok(Validity::Invalid(Shortfall { item, demand })),
        }
        item = item.checked_add(step.items()).ok_or(AllocError)?;
    }
    Ok(Validity::Valid)
}
