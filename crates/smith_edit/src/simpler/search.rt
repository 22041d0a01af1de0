//! Where the item that is made simpler is.

use smith_read::Search;
use std::alloc::{AllocError, Global};

/// A search that copies what it passes.
#[derive(Drop)]
pub(crate) struct Finder {
    pub(crate) alloc: Global,
    pub(crate) search: Search,
}

/// A copy, with what is sought made simpler; none if that has no simpler form.
pub(crate) type Simplified<T> = Result<Option<T>, AllocError>;
