//! Components as text in the text format (Explainer.md of the component model; core specification, Text Format).
#![tactic(auto, using(crate::proofs::Printing::printing))]

mod core_types;
mod error;
mod externs;
pub mod laws;
mod lines;
mod members;
mod modules;
mod offsets;
mod parts;
mod passing;
mod spaces;
mod types;
mod values;
mod words;

pub use error::PrintError;
pub use parts::{print, print_with_offsets};
pub use spaces::{IndexSpaces, next};
