//! The edits of components, from bytes to bytes.

ghost use Rattle.std.specs.Prelude.{◌≡◌, ◌≢◌, Some, None, IfOk, IfErr, IfSome, option_map};
ghost use Rattle.smith_tree.specs.Grammar.{Spells, component_text};
ghost use Rattle.smith_tree.specs.Tree.{Tree};
ghost use Rattle.smith_read.specs.PartNodes.{shown_tree};
ghost use Rattle.smith_reduce.specs.Bytes.{AreJoined, IsJoinRefusal, IsReduceRefusal, IsWithout};
ghost use Rattle.smith_reduce.specs.declared.error.ReduceError.TheVariants.{InconsistentLimits};

use crate::error::{JoinError, ReduceError};
use smith_read::{ComponentTree, ReadError, WriteError, read, write};
use std::alloc::{AllocError, Global};

/// The bytes of a component, if it has an encoding.
pub(crate) fn spelled(
    alloc: Global,
    component: &ComponentTree,
) -> Result<Option<Vec<u8>>, AllocError>
    ensures spelled { IfOk result (λ r. IfSome r (λ b. Spells (shown_tree component.now) b.items)) }
    ensures none { IfOk result (λ r. r ≡ None → component_text (shown_tree component.now) ≡ None) }
{
    match write(alloc, component) {
        Ok(bytes) => Ok(Some(bytes)),
        Err(WriteError::NoEncoding) => Ok(None),
        Err(WriteError::OutOfMemory) => Err(AllocError),
    }
}

/// The component that these bytes are, without its `k`-th item and without all that refers to it, as
/// [`smith_edit::without`] counts and removes them. There is none if there is no `k`-th item.
///
/// It takes time and memory in proportion to the bytes.
pub fn without(alloc: Global, bytes: &[u8], k: usize) -> Result<Option<Vec<u8>>, ReduceError>
    ensures answered { IfOk result
        (λ r. (t : Tree) × Spells t bytes.now × IsWithout k t (option_map (λ b. b.items) r)) }
    ensures refuses { IfErr result (λ e. IsReduceRefusal bytes.now e × (e ≢ InconsistentLimits)) }
{
    let component = read(alloc, bytes)?;
    match smith_edit::without(alloc, &component, k)? {
        Some(less) => {
            // A component that was read has an encoding, and so has one without an item of it.
            let bytes = spelled(alloc, &less)?.ok_or(AllocError)?;
            Ok(Some(bytes))
        }
        None => Ok(None),
    }
}

/// The sections of the first component, and then the second's, as [`smith_edit::joined`] joins them.
///
/// It takes time in proportion to the bytes, times a logarithm for the names.
pub fn joined(alloc: Global, first: &[u8], second: &[u8]) -> Result<Vec<u8>, JoinError>
    ensures answered { IfOk result (λ b. AreJoined first.now second.now (λ t. Spells t b.items)) }
    ensures refuses { IfErr result (IsJoinRefusal first.now second.now) }
{
    let left = match read(alloc, first) {
        Ok(left) => left,
        Err(ReadError::OutOfMemory) => return Err(JoinError::OutOfMemory),
        Err(ReadError::Malformed { offset, reason }) => {
            return Err(JoinError::FirstUnread { reason, offset });
        }
    };
    let right = match read(alloc, second) {
        Ok(right) => right,
        Err(ReadError::OutOfMemory) => return Err(JoinError::OutOfMemory),
        Err(ReadError::Malformed { offset, reason }) => {
            return Err(JoinError::SecondUnread { reason, offset });
        }
    };
    let joined = smith_edit::joined(alloc, left, &right)?;
    spelled(alloc, &joined)?.ok_or(JoinError::TooLong)
}
