//! Scopes of types that were read.

ghost use Rattle.std.specs.Prelude.{◌≡◌, option_map, slice_get};

use crate::scope::Scope;
use smith_read::{CoreNode, TypeNode};

/// A scope of types that were read.
pub type NodeScope<'a> = Scope<&'a TypeNode, &'a CoreNode>;

impl<'a> NodeScope<'a> {
    /// The type with that index.
    pub fn type_at(&self, index: u32) -> Option<&'a TypeNode>
        ensures { option_map (λ t. t.now) result ≡ slice_get self.now.types index }
    {
        self.types().get(index as usize).copied()
    }

    /// The core type with that index.
    pub fn core_type_at(&self, index: u32) -> Option<&'a CoreNode>
        ensures { option_map (λ t. t.now) result ≡ slice_get self.now.core_types index }
    {
        self.core_types().get(index as usize).copied()
    }
}
