//! Components from the bytes of others: smaller ones, one without an item, and two joined.
#![tactic(auto)]

mod edits;
mod error;
mod fits;
mod generated;
mod steps;

pub use edits::{joined, without};
pub use error::{JoinError, ReduceError};
pub use smith_format::Config;
pub use smith_read::Reason;
pub use steps::{Step, Wanted, next_smaller, smaller};
