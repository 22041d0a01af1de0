//! Why a component is not written.

/// Why a component is not written.
#[derive(Debug, PartialEq, Eq, Drop, thiserror::Error)]
pub enum WriteError {
    /// An allocation failed.
    #[error("out of memory")]
    OutOfMemory,
    /// No bytes spell the component: a length or a count in it exceeds 4,294,967,295, an instance type in it imports
    /// something, or a core module in it does not begin with the core preamble.
    #[error("the component has no encoding")]
    NoEncoding,
}
