//! Why bytes are not read.

ghost use Rattle.std.specs.Prelude.{◌≡◌, ◌+◌, length, min};

use std::alloc::{AllocError, AllocFailed};

/// What is wrong with bytes that are not read.
#[derive(Clone, Copy, Debug, PartialEq, Eq, thiserror::Error)]
pub enum Reason {
    /// The bytes, or those that a length frames, end too soon.
    #[error("the bytes end too soon")]
    Ends,
    /// There is no number of its sort: it is padded, too great, or negative.
    #[error("a number is padded, too great or negative")]
    Number,
    /// A name is not UTF-8.
    #[error("a name is not UTF-8")]
    Name,
    /// No encoding has this byte here.
    #[error("a byte has no meaning here")]
    Byte,
    /// The eight bytes of the preamble of a component or a core module are missing.
    #[error("a preamble is missing")]
    Preamble,
    /// A section of a component is of a sort that is never generated: core instances, instances, aliases, a start
    /// function, or values (Binary.md, sections 2, 5, 6, 9 and 12).
    #[error("Lupinanon has no such section")]
    Section,
    /// A canonical function has options (Binary.md, canonopt).
    #[error("Lupinanon has no canonical options")]
    Options,
    /// Bytes follow the last entry of a section.
    #[error("bytes are left over")]
    LeftOver,
    /// A scope is nested too deep.
    #[error("scopes are nested too deep")]
    Depth,
}

/// Why a reader of some bytes fails. Public only for the crates above.
#[derive(Debug, Drop)]
pub enum Unread {
    /// An allocation failed.
    OutOfMemory,
    /// No encoding is there, as was seen with that many of the bytes left.
    Malformed { left: usize, reason: Reason },
}

impl From<AllocError> for Unread {
    ghost use Rattle.std.specs.Prelude.{◌≡◌};
    ghost use Rattle.smith_read.specs.declared.unread.Unread.TheVariants.{OutOfMemory};

    ghost from_gives = { λ _ e. e ≡ OutOfMemory };

    fn from(_error: AllocError) -> Unread {
        Unread::OutOfMemory
    }
}

impl<T: Drop> From<AllocFailed<T>> for Unread {
    ghost use Rattle.std.specs.Prelude.{◌≡◌};
    ghost use Rattle.smith_read.specs.declared.unread.Unread.TheVariants.{OutOfMemory};

    ghost from_gives = { λ _ e. e ≡ OutOfMemory };

    fn from(_error: AllocFailed<T>) -> Unread {
        Unread::OutOfMemory
    }
}

/// The error if nothing is read and these bytes are left. Public only for the crates above.
pub fn malformed(bytes: &[u8], reason: Reason) -> Unread
    ensures { result ≡ Unread.Malformed (length bytes.now) reason }
{
    Unread::Malformed {
        left: bytes.len(),
        reason,
    }
}

/// Nothing is read at the byte before these.
pub(crate) fn malformed_before(bytes: &[u8], reason: Reason) -> Unread
    ensures { result ≡ Unread.Malformed (min (length bytes.now + 1) 18446744073709551615) reason }
{
    Unread::Malformed {
        left: bytes.len().saturating_add(1),
        reason,
    }
}
