//! One scope: the types in it with their positions by kind, and what is kept of them for a validator.
#![tactic(auto)]

mod entries;
mod kept;
mod kinds;
mod members;
mod module_sizes;
mod nest;
mod nodes;
mod offers;
mod positions;
mod references;
mod scope;
mod typed;

pub use kinds::Kind;
pub use nest::Nest;
pub use nodes::NodeScope;
pub use offers::Offer;
pub use references::{Purpose, function_offer};
pub use scope::Scope;
pub use typed::{CorePart, CoreTree, CoreTyped, ModulePart, ModuleTree, TypeTree, Typed};
