//! Components from a fuzzer's bytes, for callers in C. `include/lupinanon.h` declares what is exported, and says what
//! such a caller must ensure.
#![tactic(auto)]

pub mod change;
pub mod check;
pub mod features;
pub mod into;
pub mod limits;
pub mod make;
pub mod print;
mod put;
pub mod reduce;
pub mod rules;
pub mod script;
pub mod status;
pub mod swarm;
pub mod validate;
