//! Scopes, one in another: of types that are made, and of those that were read.
#![tactic(auto)]

mod declarations;
mod nodes;
mod scopes;

pub use declarations::{Nested, occupied, offered_declarations};
pub use nodes::NodeScopes;
pub use scopes::{CanonicalAbi, Scopes};
