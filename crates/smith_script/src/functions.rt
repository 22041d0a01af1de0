//! The component functions of a component.

ghost use Rattle.std.specs.Prelude.{◌≡◌, ◌++◌, ◌∷◌, [], length, slice_get, if◌then◌else◌, OnOk};
ghost use Rattle.std.specs.List.Sorted.{IsStrictlyIncreasing};

use std::alloc::{AllocError, Global};
use std::marker::Model;

/// Component functions by the indexes of their types, and which of them can be lowered. Contracts see both lists.
#[derive(Drop)]
pub(crate) struct Functions {
    types: Vec<u32>,
    scalars: Vec<usize>,
}

impl Model for Functions {
    ghost use Rattle.std.specs.Prelude.{ℕ, List};
    ghost use Rattle.smith_script.specs.Equals.{AreAmong};

    ghost Value = { List ℕ × List ℕ };

    ghost view = { λ s. (s.types.items, s.scalars.items) };

    ghost invariant = { λ s. AreAmong s.scalars.items s.types.items };
}

impl Functions {
    /// No functions.
    pub(crate) fn new(alloc: Global) -> Functions
        ensures { result ≡ ([], []) }
    {
        Functions {
            types: Vec::new(alloc),
            scalars: Vec::new(alloc),
        }
    }

    /// One more, of the type with that index, which can be lowered or not.
    pub(crate) fn push(&mut self, ty: u32, is_scalar: bool) -> Result<(), AllocError>
        ensures { OnOk result (self.new ≡ (
          self.old.0 ++ ty ∷ [],
          self.old.1 ++ (if is_scalar then length self.old.0 ∷ [] else []),
        )) }
    {
        let index = self.types.len();
        self.types.reserve(1)?;
        if is_scalar {
            self.scalars.push(index)?;
        }
        self.types.push_reserved(ty);
        Ok(())
    }

    /// How many there are.
    pub(crate) fn len(&self) -> usize
        ensures { result ≡ length self.now.0 }
    {
        self.types.len()
    }

    /// The index of the type of the one with that index.
    pub(crate) fn type_of(&self, func: u32) -> Option<u32>
        ensures { result ≡ slice_get self.now.0 func }
    {
        self.types.get(func as usize).copied()
    }

    /// The indexes of the ones that can be lowered.
    pub(crate) fn scalars(&self) -> &[usize]
        ensures scalars { result.now ≡ self.now.1 }
        ensures ascending { IsStrictlyIncreasing result.now }
    {
        &self.scalars
    }
}
