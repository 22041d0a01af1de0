//! Whether a well formed component that was read is one that a validator accepts: what it imports and exports is named,
//! and wasmparser's own bounds are kept.
#![tactic(auto)]

mod body;
mod check;
mod core_modules;
mod core_types;
mod counts;
mod error;
mod exposure;
mod facts;
mod instances;
mod known;
mod numbers;
mod open;
mod references;
mod rows;
mod types;
mod values;
mod walk;

pub use error::{Demand, Shortfall, Validity};
pub use walk::validated;
