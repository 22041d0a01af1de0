//! Why a call fails.

use std::alloc::{AllocError, AllocFailed};

/// Why a call fails.
#[derive(Debug, PartialEq, Eq, Drop, thiserror::Error)]
pub enum Error {
    /// The limits of a `Config` do not fit together.
    #[error("the limits of the configuration do not fit together")]
    InconsistentLimits,
    /// A finished component has fewer imports or functions than its minimum.
    #[error("a minimum of the configuration was not met")]
    MinimumNotMet,
    /// The limits on memories leave no module.
    #[error("no module is within the limits of the configuration")]
    ModuleRefused,
    /// A length or a count exceeds 4,294,967,295, so it cannot be written.
    #[error("a length or a count is too long to be written")]
    TooLong,
    /// An allocation failed.
    #[error("out of memory")]
    OutOfMemory,
    /// The parts to make a module of disagree.
    #[error("the parts of a module disagree")]
    PartsDisagree,
}

impl From<AllocError> for Error {
    ghost use Rattle.std.specs.Prelude.{◌≡◌};
    ghost use Rattle.smith_input.specs.declared.error.Error.TheVariants.{OutOfMemory};

    ghost from_gives = { λ _ e. e ≡ OutOfMemory };

    // A call of what is cold shows the compiler that the branch to it is rarely taken.
    #[cold]
    #[inline(never)]
    fn from(_error: AllocError) -> Error {
        Error::OutOfMemory
    }
}

impl<T: Drop> From<AllocFailed<T>> for Error {
    ghost use Rattle.std.specs.Prelude.{◌≡◌};
    ghost use Rattle.smith_input.specs.declared.error.Error.TheVariants.{OutOfMemory};

    ghost from_gives = { λ _ e. e ≡ OutOfMemory };

    fn from(_error: AllocFailed<T>) -> Error {
        Error::OutOfMemory
    }
}
