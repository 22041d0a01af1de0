//! Components without one of their items or with a simpler one, and components joined: what reducers and mutators of
//! components need.
#![tactic(auto)]

mod core_types;
mod counts;
mod edits;
mod items;
pub mod laws;
mod maxima;
mod members;
mod names;
mod parts;
mod renumbering;
mod rows;
mod simpler;
mod types;
mod walk;

pub use edits::{joined, without, without_items};
pub use items::item_count;
pub use maxima::keeps_maxima;
pub use simpler::{next_component, simplified};
