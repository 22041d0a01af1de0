//! Which change is made.

use std::alloc::{AllocError, Global};

/// Which alternative is made, and where memory comes from.
#[derive(Clone, Copy)]
pub(crate) struct Change {
    pub(crate) alloc: Global,
    pub(crate) alternative: usize,
}

/// A copy, with the place that is sought changed; none if it has no such alternative.
pub(crate) type Changed<T> = Result<Option<T>, AllocError>;
