//! The limits of what is built, by name: from a table of TOML, and the default ones and those of a profile as text.
#![tactic(auto)]

mod keys;
mod limits;
mod profiles;
mod text;

pub use keys::{KEYS, Key, Wrong};
pub use limits::{DEFAULT_LIMITS, Fault, Pair, apart, limits_of};
pub use profiles::{FUZZ_LIMITS, PROFILES, VALID_LIMITS, profile_text};
pub use text::{TextFault, limits_of_text};
