//! Components with one token or one list of entries changed: what corpora of invalid components need.
#![tactic(auto)]

mod alternatives;
mod change;
mod copies;
mod core_types;
mod error;
mod externs;
mod kinds;
pub mod laws;
mod members;
mod miswritten;
mod modules;
mod parts;
mod placed;
mod rows;
mod steps;
mod types;
mod values;
mod wording;

pub use error::ChangeError;
pub use kinds::{PlaceKind, place_kind};
pub use miswritten::{Misstep, Miswriting, next_miswritten};
pub use smith_read::Reason;
pub use steps::{ALTERNATIVES, Step, change_count, changed, changed_bytes, changes, next_changed};
pub use wording::Alternative;
