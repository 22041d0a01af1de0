//! What bytes are: a component that is well formed, one that is not, or none that is read.

ghost use Rattle.std.specs.Prelude.{◌≡◌, ◌≤◌, IfOk};
ghost use Rattle.smith_tree.specs.Depths.{scope_depth};
ghost use Rattle.smith_tree.specs.Grammar.{Spells};
ghost use Rattle.smith_tree.specs.WellFormed.{WellFormed};
ghost use Rattle.smith_read.specs.PartNodes.{shown_tree};
ghost use Rattle.smith_read.specs.Reads.{most_depth};
ghost use Rattle.smith_verdict.specs.Verdicts.{IsVerdict};

use smith_check::{Judgement, Rule, judged};
use smith_read::{ComponentTree, ReadError, Reason, offset_of, read};
use std::alloc::{AllocError, Global};
use std::fmt;

/// What bytes are.
///
/// As text: `well formed`, or what is wrong and where, as `no type has that index at offset 12`.
#[derive(Debug, PartialEq, Eq, Drop)]
pub enum Verdict {
    /// A component that is well formed.
    WellFormed,
    /// A component that is not: a rule that it breaks, and the offset of the item that breaks it: a custom section, a
    /// core module, a component in it or an entry of a section that is a list. What precedes that item is well formed,
    /// and what ends with it is not. The offset is always there. Which rule it is, no contract says.
    IllFormed { rule: Rule, offset: Option<usize> },
    /// No component of the grammar, or one whose scopes are nested more than `MOST_DEPTH` of `smith_read` deep: why,
    /// and the offset at which that was seen, which is at most the length.
    Unread { reason: Reason, offset: usize },
}

impl fmt::Display for Verdict {
    fn fmt<W: fmt::Write>(&self, f: &mut fmt::Formatter<W>) -> fmt::Result {
        match self {
            Verdict::WellFormed => f.write_str("well formed"),
            Verdict::IllFormed {
                rule,
                offset: Some(offset),
            } => write!(f, "{rule} at offset {offset}"),
            Verdict::IllFormed { rule, offset: None } => write!(f, "{rule}"),
            Verdict::Unread { reason, offset } => write!(f, "{reason} at offset {offset}"),
        }
    }
}

// What the bytes of a component that was read are.
pub(crate) fn check_component(
    alloc: Global,
    bytes: &[u8],
    component: &ComponentTree,
) -> Result<Verdict, AllocError>
    requires spelled { Spells (shown_tree component.now) bytes.now }
    requires shallow { scope_depth (shown_tree component.now) ≤ most_depth }
    ensures verdict { IfOk result (IsVerdict bytes.now) }
    ensures formed { IfOk result (λ v. v ≡ Verdict.WellFormed → WellFormed (shown_tree component.now)) }
{
    match judged(alloc, component)? {
        Judgement::WellFormed => Ok(Verdict::WellFormed),
        Judgement::IllFormed(fault) => {
            let offset = offset_of(alloc, bytes, fault.item)?;
            Ok(Verdict::IllFormed {
                rule: fault.rule,
                offset,
            })
        }
    }
}

/// What these bytes are. `Err` is returned only if an allocation failed, and says nothing about them.
pub fn check(alloc: Global, bytes: &[u8]) -> Result<Verdict, AllocError>
    ensures { IfOk result (IsVerdict bytes.now) }
{
    match read(alloc, bytes) {
        Ok(component) => check_component(alloc, bytes, &component),
        Err(ReadError::OutOfMemory) => Err(AllocError),
        Err(ReadError::Malformed { offset, reason }) => Ok(Verdict::Unread { reason, offset }),
    }
}
