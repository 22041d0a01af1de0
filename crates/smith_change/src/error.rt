//! Why there is no change.

use smith_read::{ReadError, Reason};
use std::alloc::AllocError;

/// Why no changed component is looked for.
#[derive(Debug, PartialEq, Eq, Drop, thiserror::Error)]
pub enum ChangeError {
    /// An allocation failed.
    #[error("out of memory")]
    OutOfMemory,
    /// The bytes are not a component of the grammar, or are one whose scopes are nested too deep: why, and the offset
    /// at which that was seen.
    #[error("{reason} at offset {offset}")]
    Unread { reason: Reason, offset: usize },
}

impl From<AllocError> for ChangeError {
    ghost use Rattle.std.specs.Prelude.{◌≡◌};
    ghost use Rattle.smith_change.specs.declared.error.ChangeError.TheVariants.{OutOfMemory};

    ghost from_gives = { λ _ e. e ≡ OutOfMemory };

    fn from(_error: AllocError) -> ChangeError {
        ChangeError::OutOfMemory
    }
}

impl From<ReadError> for ChangeError {
    ghost use Rattle.std.specs.Prelude.{◌≡◌};
    ghost use Rattle.smith_change.specs.Refusals.{unread};

    ghost from_gives = { λ error e. e ≡ unread error };

    fn from(error: ReadError) -> ChangeError {
        match error {
            ReadError::OutOfMemory => ChangeError::OutOfMemory,
            ReadError::Malformed { offset, reason } => ChangeError::Unread { reason, offset },
        }
    }
}
