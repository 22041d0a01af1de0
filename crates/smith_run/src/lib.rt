//! From a reader of a fuzzer's bytes to a writer of a component, for programs.
#![tactic(auto)]

mod filter;
mod pages;
mod running;

pub use filter::{convert_by_default, report};
pub use pages::page;
pub use running::{Form, LONGEST_INPUT, RunError, convert, convert_swarm, run};
