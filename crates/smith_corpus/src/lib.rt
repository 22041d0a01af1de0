//! Inputs for the corpus of a fuzzer, drawn at random and read to their end, and near misses of their components.
#![tactic(auto)]

mod breaking;
mod drawing;
mod flat;
mod samples;
mod swarms;

pub use breaking::{Difference, Finding, NearMiss, Taken, miswritten, near_miss, number_below};
pub use flat::{Reached, draw_flat};
pub use rand_pcg::Pcg32;
pub use samples::{Sample, SampleError, draw};
pub use smith_format::Config;
pub use smith_input::Error;
pub use swarms::draw_swarm;
