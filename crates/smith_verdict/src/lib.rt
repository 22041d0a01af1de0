//! What bytes are: a component that is well formed, one that is not, or none that is read; and what they are to
//! validators of the standard.
#![tactic(auto)]

mod answers;
mod contained;
mod finding;
pub mod laws;
mod module_walk;
mod modules;
mod validity;
mod verdict;

pub use answers::{Answer, Bound, Broken, Outside};
pub use finding::answer;
pub use smith_check::Rule;
pub use smith_read::Reason;
pub use smith_validate::Demand;
pub use validity::{Validity, validate};
pub use verdict::{Verdict, check};
