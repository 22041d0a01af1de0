//! Scripts of choices, texts and names, and of types: the input from which something wanted is read. What is public
//! here is so only for the crate above.
#![tactic(auto, using(crate::proofs::Saying::saying))]

mod choices;
mod core_types;
mod cuts;
mod declarations;
mod declared;
mod declaring;
mod entities;
mod fronts;
mod fuel;
mod limits;
mod members;
mod module_fronts;
mod modules;
mod names;
mod place;
mod placing;
mod positions;
mod references;
mod tables;
mod types;
mod values;

pub use choices::{say_among, say_choice, say_contents, say_end, say_more, say_offered, say_text};
pub use core_types::say_core;
pub use cuts::{behind, front};
pub use fronts::{after_front, core_size};
pub use fuel::defined_size;
pub use limits::say_limits;
pub use members::{max_results, say_core_values};
pub use names::say_name;
pub use place::{Given, Place};
pub use positions::say_position;
pub use references::{say_extern, say_reference};
pub use smith_input::Error;
pub use smith_scope::Purpose;
pub use tables::one_more;
pub use types::{NONE_COUNTED, Typed, say_type};
