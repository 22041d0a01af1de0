//! Components that were read, written again.

mod backwards;
mod core_types;
mod error;
mod externs;
mod lists;
mod parts;
mod types;

pub use error::WriteError;
pub use parts::write;
