//! An open component without its types.

ghost use Rattle.std.specs.Prelude.{◌≡◌, slice_get};
ghost use Rattle.smith_validate.specs.Parts.{IsNew};

use crate::body::{Body, Role, Sets};
use std::alloc::Global;

/// An open component: its component functions, by the indexes of their types, and the rest.
#[derive(Drop)]
pub(crate) struct Open {
    pub(crate) functions: Vec<u32>,
    pub(crate) body: Body,
}

impl Open {
    /// An empty one.
    pub(crate) fn new(alloc: Global) -> Open
        ensures { IsNew result }
    {
        Open {
            functions: Vec::new(alloc),
            body: Body::new(Role::Names(Sets::new(alloc))),
        }
    }

    /// The index of the type of a component function.
    pub(crate) fn function_at(&self, index: u32) -> Option<u32>
        ensures { result ≡ slice_get self.now.functions.items index }
    {
        self.functions.get(index as usize).copied()
    }
}
