//! Places within limits.

ghost use Rattle.std.specs.Prelude.{◌≡◌};
ghost use Rattle.smith_scopes.specs.NodeScopes.{outer_marked_in, own_in, own_marked_in};
ghost use Rattle.smith_script_types.specs.Places.{outer_at, own_at, plain_at};

use crate::place::{Given, Place};
use smith_scopes::NodeScopes;

impl<'s> Given<'s> {
    /// A place in these scopes.
    pub fn place<'a>(self, scopes: &'s NodeScopes<'a>) -> Place<'s, 'a>
        ensures config { result.config.now ≡ self.entry.config.now }
        ensures own { own_at result ≡ own_marked_in scopes.now }
        ensures outer { outer_at result ≡ outer_marked_in scopes.now }
        ensures plain { plain_at result ≡ own_in scopes.now }
    {
        Place {
            alloc: self.alloc,
            config: self.config,
            scopes,
        }
    }
}
