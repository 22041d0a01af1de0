//! What makers of core types go by.

ghost use Rattle.std.specs.Prelude.{◌≡◌};
ghost use Rattle.smith_format.specs.Limits.{configured};

use smith_format::{Config, ValType};
use std::alloc::Global;

// What makers go by: the limits, and the value types that they allow.
#[derive(Drop)]
pub(crate) struct Making<'a> {
    pub(crate) alloc: Global,
    pub(crate) config: &'a Config,
    pub(crate) valtypes: &'a [ValType],
    ghost allowed: { valtypes.now ≡ configured config.now },
}
