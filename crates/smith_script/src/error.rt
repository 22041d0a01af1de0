//! Why there is no script.

use smith_check::Fault;
use smith_read::Reason;
use std::alloc::AllocError;
use std::fmt;

/// A limit that a component does not keep, by the name and the value of its field of `Config`.
#[derive(Clone, Copy, Debug, PartialEq, Eq)]
pub enum Unkept {
    /// There is more than that.
    Above { name: &'static str, value: usize },
    /// There is less than that.
    Below { name: &'static str, value: usize },
    /// There is what takes a feature that is off.
    Off { name: &'static str },
    /// There is what a demand excludes that is on.
    On { name: &'static str },
}

impl fmt::Display for Unkept {
    fn fmt<W: fmt::Write>(&self, f: &mut fmt::Formatter<W>) -> fmt::Result {
        match self {
            Unkept::Above { name, value } => write!(f, "more than {name} = {value}"),
            Unkept::Below { name, value } => write!(f, "less than {name} = {value}"),
            Unkept::Off { name } => write!(f, "{name} = false"),
            Unkept::On { name } => write!(f, "{name} = true"),
        }
    }
}

/// Why no script is returned.
#[derive(Debug, PartialEq, Eq, Drop)]
pub enum ScriptError {
    /// An allocation failed.
    OutOfMemory,
    /// The limits of the configuration do not fit together.
    InconsistentLimits,
    /// The bytes are not a component of the grammar, or are one whose scopes are nested too deep: why, and the offset
    /// at which that was seen.
    Unread {
        reason: Reason,
        offset: usize,
    },
    /// The component is not well formed: the first rule that it breaks, and the number of the item that breaks it,
    /// as `judged` of `smith_check` finds them. Which rule it is, no contract says. Items count from 0, in the order of
    /// the bytes: each custom section, each core module, the beginning of each component in this one, and each entry of
    /// a section that is a list.
    IllFormed(Fault),
    /// The component is well formed, but no input produces it within the limits. A limit that it does not keep is
    /// named; otherwise a name is too long, or a core module can't be generated. `offset` is where the component that
    /// its script produces first differs, if it does. Contracts say only that it is in the bytes or at their end, and
    /// nothing of the limit.
    NoScript {
        limit: Option<Unkept>,
        offset: Option<usize>,
    },
}

impl fmt::Display for ScriptError {
    fn fmt<W: fmt::Write>(&self, f: &mut fmt::Formatter<W>) -> fmt::Result {
        match self {
            ScriptError::OutOfMemory => f.write_str("out of memory"),
            ScriptError::InconsistentLimits => {
                f.write_str("the limits of the configuration do not fit together")
            }
            ScriptError::Unread { reason, offset } => write!(f, "{reason} at offset {offset}"),
            ScriptError::IllFormed(fault) => {
                let Fault { item, rule, .. } = *fault;
                write!(f, "{rule} in item {item}")
            }
            ScriptError::NoScript { limit, offset } => {
                f.write_str("it cannot be generated")?;
                if let Some(limit) = limit {
                    write!(f, ": {limit}")?;
                }
                match offset {
                    Some(offset) => write!(
                        f,
                        "; what its script produces differs at offset {offset}"
                    ),
                    None => Ok(()),
                }
            }
        }
    }
}

impl From<AllocError> for ScriptError {
    ghost use Rattle.std.specs.Prelude.{◌≡◌};
    ghost use Rattle.smith_script.specs.declared.error.ScriptError.TheVariants.{OutOfMemory};

    ghost from_gives = { λ _ e. e ≡ OutOfMemory };

    fn from(_error: AllocError) -> ScriptError {
        ScriptError::OutOfMemory
    }
}
