//! Worked examples of calls, as tests. Their expected values were written by hand from the binary format and the
//! reading rules. Examples that are an input and its component are rows of `smith_rows`.
#![tactic(auto)]

#[cfg(test)]
mod choices;
#[cfg(test)]
mod module_parts;
#[cfg(test)]
mod modules;
#[cfg(test)]
mod runs;
#[cfg(test)]
mod types;
#[cfg(test)]
mod writers;
