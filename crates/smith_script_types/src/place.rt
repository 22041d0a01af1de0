//! Where a type is.

ghost use Rattle.std.specs.Prelude.{◌≤◌};

use smith_format::Config;
use smith_scopes::NodeScopes;
use std::alloc::Global;

/// The limits that a script is within. Public only for the crate above.
#[derive(Clone, Copy)]
pub struct Given<'s> {
    pub alloc: Global,
    pub config: &'s Config,
    ghost names: { config.now.max_name_length ≤ 100 },
}

/// Where a type is: the limits, and the scopes of the types before it. Public only for the crate above.
#[derive(Clone, Copy)]
pub struct Place<'s, 'a> {
    pub alloc: Global,
    pub config: &'s Config,
    pub scopes: &'s NodeScopes<'a>,
    ghost names: { config.now.max_name_length ≤ 100 },
}
