//! Components from a fuzzer's bytes, and their binary format.
#![tactic(auto)]

mod builder;
mod component;
mod encode;
mod generation;
mod item;
pub mod laws;
mod make;

pub use builder::{Builder, Step};
pub use component::{
    CanonicalSection, Component, CoreTypeSection, ExportSection, ImportSection, Section,
    TypeSection,
};
pub use generation::{Generated, generate};
pub use smith_format::Config;
pub use smith_input::{Error, Unstructured};
pub use smith_tree::{CustomSection, Export, Func, Item};
