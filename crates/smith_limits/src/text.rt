//! The limits of a run, from a text of TOML.

ghost use Rattle.std.specs.Prelude.{IfOk, IfErr};
ghost use Rattle.smith_limits.specs.Texts.{IsTextFault, SpellsLimits};

use crate::limits::{Fault, limits_of};
use smith_format::Config;
use std::alloc::Global;
use std::fmt;
use toml::de::Error;

/// Why a text spells no limits.
#[derive(Debug, PartialEq, Eq, Drop)]
pub enum TextFault {
    /// The text is not TOML.
    NotToml(Error),
    /// The table that the text spells sets no limits.
    Limits(Fault),
    /// There is not enough memory for the table of the text.
    OutOfMemory,
}

impl fmt::Display for TextFault {
    fn fmt<W: fmt::Write>(&self, f: &mut fmt::Formatter<W>) -> fmt::Result {
        match self {
            TextFault::NotToml(error) => write!(f, "{error}"),
            TextFault::Limits(fault) => write!(f, "{fault}"),
            TextFault::OutOfMemory => f.write_str("out of memory"),
        }
    }
}

/// The limits that a text of TOML spells: each key sets the limit of its name, and the others have their defaults.
pub fn limits_of_text(alloc: Global, text: &str) -> Result<Config, TextFault>
    ensures spelled { IfOk result (SpellsLimits text.now) }
    ensures refused { IfErr result (IsTextFault text.now) }
{
    match toml::table_from_str(alloc, text) {
        Ok(table) => match limits_of(alloc, &table) {
            Ok(config) => Ok(config),
            Err(fault) => Err(TextFault::Limits(fault)),
        },
        Err(error) if error.is_memory() => Err(TextFault::OutOfMemory),
        Err(error) => Err(TextFault::NotToml(error)),
    }
}
