//! Why bytes are not read as a component.

ghost use Rattle.std.specs.Prelude.{◌≡◌, length};
ghost use Rattle.smith_read.specs.Reads.{behind, at_offset};

use crate::{Reason, Unread};

/// Why bytes are not read as a component.
#[derive(Debug, PartialEq, Eq, Drop, thiserror::Error)]
pub enum ReadError {
    /// An allocation failed.
    #[error("out of memory")]
    OutOfMemory,
    /// The bytes spell no component whose scopes are at most `MOST_DEPTH` deep. What is wrong was seen at that offset,
    /// which is at most their length.
    #[error("{reason} at offset {offset}")]
    Malformed { offset: usize, reason: Reason },
}

/// What was read of the contents of a section, or why it was not: the bytes that are left include those that follow the
/// section.
pub(crate) fn with_rest<T: Drop>(contents: Result<T, Unread>, rest: &[u8]) -> Result<T, Unread>
    ensures { result ≡ behind (length rest.now) contents }
{
    match contents {
        Err(Unread::Malformed { left, reason }) => {
            let left = left.saturating_add(rest.len());
            Err(Unread::Malformed { left, reason })
        }
        others => others,
    }
}

/// The offset in these bytes at which it was seen.
pub(crate) fn placed(bytes: &[u8], unread: Unread) -> ReadError
    ensures { result ≡ at_offset (length bytes.now) unread }
{
    match unread {
        Unread::OutOfMemory => ReadError::OutOfMemory,
        Unread::Malformed { left, reason } => {
            let offset = bytes.len().saturating_sub(left);
            ReadError::Malformed { offset, reason }
        }
    }
}
