//! Why there is no smaller or joined component.

use smith_read::{ReadError, Reason};
use std::alloc::AllocError;

/// Why no smaller component is looked for.
#[derive(Debug, PartialEq, Eq, Drop, thiserror::Error)]
pub enum ReduceError {
    /// An allocation failed.
    #[error("out of memory")]
    OutOfMemory,
    /// The limits of the configuration do not fit together.
    #[error("the limits of the configuration do not fit together")]
    InconsistentLimits,
    /// The bytes are not a component of the grammar, or are one whose scopes are nested too deep: why, and the offset
    /// at which that was seen.
    #[error("{reason} at offset {offset}")]
    Unread { reason: Reason, offset: usize },
}

/// Why two components are not joined.
#[derive(Debug, PartialEq, Eq, Drop, thiserror::Error)]
pub enum JoinError {
    /// An allocation failed.
    #[error("out of memory")]
    OutOfMemory,
    /// A length or a count in the joined component would exceed 4,294,967,295.
    #[error("the joined component has no encoding")]
    TooLong,
    /// The first bytes are not a component of the grammar, or are one whose scopes are nested too deep.
    #[error("the first component: {reason} at offset {offset}")]
    FirstUnread { reason: Reason, offset: usize },
    /// The same for the second bytes.
    #[error("the second component: {reason} at offset {offset}")]
    SecondUnread { reason: Reason, offset: usize },
}

impl From<AllocError> for ReduceError {
    ghost use Rattle.std.specs.Prelude.{◌≡◌};
    ghost use Rattle.smith_reduce.specs.declared.error.ReduceError.TheVariants.{OutOfMemory};

    ghost from_gives = { λ _ e. e ≡ OutOfMemory };

    fn from(_error: AllocError) -> ReduceError {
        ReduceError::OutOfMemory
    }
}

impl From<AllocError> for JoinError {
    ghost use Rattle.std.specs.Prelude.{◌≡◌};
    ghost use Rattle.smith_reduce.specs.declared.error.JoinError.TheVariants.{OutOfMemory};

    ghost from_gives = { λ _ e. e ≡ OutOfMemory };

    fn from(_error: AllocError) -> JoinError {
        JoinError::OutOfMemory
    }
}

impl From<ReadError> for ReduceError {
    ghost use Rattle.std.specs.Prelude.{◌≡◌};
    ghost use Rattle.smith_reduce.specs.Wanted.{unread};

    ghost from_gives = { λ error e. e ≡ unread error };

    fn from(error: ReadError) -> ReduceError {
        match error {
            ReadError::OutOfMemory => ReduceError::OutOfMemory,
            ReadError::Malformed { offset, reason } => ReduceError::Unread { reason, offset },
        }
    }
}
