//! The script of a component: the input from which `generate` produces it.
#![tactic(auto, using(smith_script_types::proofs::Saying::saying))]

mod canons;
mod error;
mod functions;
mod limits;
mod needs;
mod parts;
mod preceding;
mod rows;
mod scripting;
mod stand_ins;
mod types;

pub use error::{ScriptError, Unkept};
pub use scripting::{script, script_of};
pub use smith_check::Fault;
pub use smith_format::Config;
pub use smith_read::Reason;
pub use stand_ins::is_stand_in;
