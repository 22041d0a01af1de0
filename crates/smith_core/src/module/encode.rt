//! What is in the sections of a core module, in the binary format (core specification, Binary Format, Types and
//! Modules), and the lengths of their encodings.
#![tactic(auto, using(smith_format::proofs::Steps::writing, smith_format::proofs::Sizes::measuring))]

mod code;
mod segments;
mod tables;
mod types;

/// The binary format of modules, as the name of a format.
pub(super) struct ModuleFormat {}

pub(super) use tables::{globals_len, put_globals, put_tables, tables_len};
pub(super) use types::{groups_len, put_groups};
