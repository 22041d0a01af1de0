//! Why a component is not printed.

use std::alloc::AllocError;

/// Why a component is not printed.
#[derive(Debug, PartialEq, Eq, Drop, thiserror::Error)]
pub enum PrintError {
    /// An allocation failed.
    #[error("out of memory")]
    OutOfMemory,
    /// A core module in it has more than function types and memories, so that it has no text here.
    #[error("a core module in it has more than function types and memories")]
    OtherCoreModule,
}

impl From<AllocError> for PrintError {
    ghost use Rattle.std.specs.Prelude.{◌≡◌};
    ghost use Rattle.smith_print.specs.declared.error.PrintError.TheVariants.{OutOfMemory};

    ghost from_gives = { λ _ e. e ≡ OutOfMemory };

    #[cold]
    #[inline(never)]
    fn from(_error: AllocError) -> PrintError {
        PrintError::OutOfMemory
    }
}
