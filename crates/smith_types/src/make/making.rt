//! What makers of types go by.

ghost use Rattle.std.specs.Prelude.{◌≡◌};
ghost use Rattle.smith_format.specs.Limits.{configured};
ghost use Rattle.smith_format.specs.Consistency.{IsConsistent};

use smith_format::{Config, ValType};
use std::alloc::Global;

// What makers go by: limits that fit together, and the value types that they allow.
#[derive(Drop)]
pub(super) struct Making<'a> {
    pub(super) alloc: Global,
    pub(super) config: &'a Config,
    pub(super) valtypes: &'a [ValType],
    ghost allowed: { valtypes.now ≡ configured config.now },
    ghost consistent: { IsConsistent config.now },
}
