//! Whether a component that was read is well formed.
#![tactic(auto)]

mod canons;
mod check;
mod entries;
mod error;
mod modules;
mod names;
mod types;
mod values;

pub use check::judged;
pub use error::{Asker, Fault, Judgement, Rule};
