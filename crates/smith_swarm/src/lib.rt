//! The limits of fuzzers: a profile, and limits from the first bytes of an input, so that one run of a fuzzer tries
//! many of them (swarm testing).
#![tactic(auto)]

mod limits;
mod profile;

pub use limits::{LIMIT_COUNT, SwarmLimits, swarm_limits};
pub use profile::fuzz_limits;
