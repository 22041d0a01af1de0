//! Worked examples that take all memory or a deep stack, or that are large, as tests. Only the whole gate runs them.
#![tactic(auto)]

#[cfg(test)]
mod common;
#[cfg(test)]
mod deep;
#[cfg(test)]
mod depths;
#[cfg(test)]
mod equal_types;
#[cfg(test)]
mod hashes;
#[cfg(test)]
mod long_runs;
#[cfg(test)]
mod refused_growth;
#[cfg(test)]
mod refused_writing;
#[cfg(test)]
mod scarcity;
