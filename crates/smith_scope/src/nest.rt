//! Scopes, one in another.

ghost use Rattle.std.specs.Prelude.{◌≡◌, ◌+◌, ◌<◌, ◌≤◌, ◌∷◌, ◌++◌, [], length, option_map, slice_get, OnErr, OnOk};
ghost use Rattle.std.specs.Prelude.{Some};
ghost use Rattle.smith_scope.specs.Nest.{inward_of};

use smith_syntax::drop_last_first;
use std::alloc::{AllocError, Global};
use std::mem::replace;

/// The innermost scope, and those around it, outermost first. It is dropped from the innermost to the outermost one,
/// so that the stack that this takes does not grow with the number of types; no clause can say so.
pub struct Nest<S: Drop> {
    pub own: S,
    pub outer: Vec<S>,
}

impl<S: Drop> Drop for Nest<S> {
    fn drop(self) {
        let Nest { own, outer } = self;
        drop(own);
        drop_last_first(outer);
    }
}

impl<S: Drop> Nest<S> {
    /// One scope alone.
    pub fn new(alloc: Global, own: S) -> Nest<S>
        ensures own { result.own ≡ own }
        ensures outer { result.outer.items ≡ [] }
    {
        Nest {
            own,
            outer: Vec::new(alloc),
        }
    }

    /// Enters a scope.
    #[inline]
    pub fn enter(&mut self, inner: S) -> Result<(), AllocError>
        ensures own { OnOk result (self.new.own ≡ inner) }
        ensures outer { OnOk result (self.new.outer.items ≡ self.old.outer.items ++ self.old.own ∷ []) }
        ensures same_own { OnErr result (self.new.own ≡ self.old.own) }
        ensures same_outer { OnErr result (self.new.outer.items ≡ self.old.outer.items) }
    {
        self.outer.reserve(1)?;
        let own = replace(&mut self.own, inner);
        self.outer.push_reserved(own);
        Ok(())
    }

    /// Leaves the innermost scope, which has one around it.
    #[inline]
    pub fn leave(&mut self)
        requires { 0 < length self.old.outer.items }
        ensures { self.old.outer.items ≡ self.new.outer.items ++ self.new.own ∷ [] }
    {
        self.own = self.outer.take_last();
    }

    /// How many scopes there are.
    #[inline]
    pub fn depth(&self) -> usize
        ensures { result ≡ length self.now.outer.items + 1 }
    {
        self.outer.len() + 1
    }

    /// The scope of that count (0 is the innermost).
    #[inline]
    pub fn at(&self, count: usize) -> &S
        requires { count ≤ length self.now.outer.items }
        ensures { slice_get (inward_of self.now) count ≡ Some result.now }
    {
        if count == 0 {
            &self.own
        } else {
            &self.outer[self.outer.len() - count]
        }
    }

    /// The same, if there is one.
    pub fn get(&self, count: u32) -> Option<&S>
        ensures { option_map (λ s. s.now) result ≡ slice_get (inward_of self.now) count }
    {
        if count as usize <= self.outer.len() {
            Some(self.at(count as usize))
        } else {
            None
        }
    }
}
