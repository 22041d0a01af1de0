//! What is known at a place in a component that is edited.

ghost use Rattle.std.specs.Prelude.{◌≡◌, ◌+◌, [], OnOk};
ghost use Rattle.smith_edit.specs.Removal.{inside, past, removes};
ghost use Rattle.smith_edit.specs.Walk.{aliased_core_type, aliased_type, entered, exited, new_scope, shown_walk};
ghost use Rattle.smith_edit.specs.Walk.{skipped, still};

use crate::renumbering::Renumbering;
use smith_scope::Nest;
use std::alloc::{AllocError, Global};

/// What is removed of the items from a place on.
#[derive(Clone, Copy)]
pub(crate) enum Removal {
    Nothing,
    /// The items from the `first` to the `last`, by their numbers from here on.
    Items { first: usize, last: usize },
    Everything,
}

impl Removal {
    /// Whether the item here is removed.
    pub(crate) fn removes(self) -> bool
        ensures { result ≡ removes self }
    {
        match self {
            Removal::Nothing => false,
            Removal::Items { first, .. } => first == 0,
            Removal::Everything => true,
        }
    }

    /// What is removed after that many items.
    fn past(self, count: usize) -> Removal
        ensures { result ≡ past count self }
    {
        match self {
            Removal::Items { first, last } if count <= last => Removal::Items {
                first: first.saturating_sub(count),
                last: last - count,
            },
            Removal::Nothing | Removal::Items { .. } => Removal::Nothing,
            Removal::Everything => Removal::Everything,
        }
    }

    /// What is removed after the item here, if that many are inside it.
    #[tactic(auto, using(crate::proofs::Past::past_step))]
    pub(crate) fn after(self, inside: usize) -> Removal
        ensures { result ≡ past (inside + 1) self }
    {
        self.past(1).past(inside)
    }

    /// What is removed inside the item here: all of it with the item.
    pub(crate) fn inside(self) -> Removal
        ensures { result ≡ inside self }
    {
        if self.removes() {
            Removal::Everything
        } else {
            self.past(1)
        }
    }
}

/// What becomes of the entries of the index spaces of a component, or of a type that declares others.
#[derive(Drop)]
pub(crate) struct Scope {
    pub(crate) types: Renumbering,
    pub(crate) core_types: Renumbering,
    pub(crate) functions: Renumbering,
    pub(crate) core_functions: Renumbering,
}

impl Scope {
    pub(crate) fn new(alloc: Global) -> Scope
        ensures { result ≡ new_scope }
    {
        Scope {
            types: Renumbering::from(alloc, 0),
            core_types: Renumbering::from(alloc, 0),
            functions: Renumbering::from(alloc, 0),
            core_functions: Renumbering::from(alloc, 0),
        }
    }
}

/// What is removed from a place on, and what became of the entries of its scope and of the scopes around it.
#[derive(Drop)]
pub(crate) struct Walk {
    pub(crate) alloc: Global,
    pub(crate) removal: Removal,
    pub(crate) scopes: Nest<Scope>,
}

impl Walk {
    /// A walk from the first item on.
    pub(crate) fn new(alloc: Global, removal: Removal, own: Scope) -> Walk
        ensures { shown_walk result ≡ record { removal = removal; own = own; outer = [] } }
    {
        Walk {
            alloc,
            removal,
            scopes: Nest::new(alloc, own),
        }
    }

    /// A walk that leaves all as it is.
    pub(crate) fn still(alloc: Global) -> Walk
        ensures { shown_walk result ≡ still }
    {
        Walk::new(alloc, Removal::Nothing, Scope::new(alloc))
    }

    /// Moves past an item that has nothing inside, or to the first item inside it. Returns whether it is removed.
    pub(crate) fn step(&mut self) -> bool
        ensures removed { result ≡ removes self.old.removal }
        ensures walk { shown_walk self.new ≡ skipped 1 (shown_walk self.old) }
    {
        let removed = self.removal.removes();
        self.removal = self.removal.past(1);
        removed
    }

    /// Moves past that many items.
    pub(crate) fn pass(&mut self, count: usize)
        ensures { shown_walk self.new ≡ skipped count (shown_walk self.old) }
    {
        self.removal = self.removal.past(count);
    }

    /// Enters an empty scope.
    pub(crate) fn enter(&mut self) -> Result<(), AllocError>
        ensures { OnOk result (shown_walk self.new ≡ entered (shown_walk self.old)) }
    {
        self.scopes.enter(Scope::new(self.alloc))
    }

    /// Leaves the scope, if there is one around it.
    pub(crate) fn leave(&mut self)
        ensures { shown_walk self.new ≡ exited (shown_walk self.old) }
    {
        if self.scopes.depth() > 1 {
            self.scopes.leave();
        }
    }

    /// The new index of the type that an outer alias names. An alias of no scope remains.
    pub(crate) fn aliased_type(&self, count: u32, index: u32) -> Option<u32>
        ensures { result ≡ aliased_type (shown_walk self.now) count index }
    {
        match self.scopes.get(count) {
            Some(scope) => scope.types.new_index(index),
            None => Some(index),
        }
    }

    /// The new index of the core type that an outer alias names. An alias of no scope remains.
    pub(crate) fn aliased_core_type(&self, count: u32, index: u32) -> Option<u32>
        ensures { result ≡ aliased_core_type (shown_walk self.now) count index }
    {
        match self.scopes.get(count) {
            Some(scope) => scope.core_types.new_index(index),
            None => Some(index),
        }
    }
}
