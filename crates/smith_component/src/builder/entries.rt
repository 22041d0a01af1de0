//! The entries of a section of types or of core types.

ghost use Rattle.std.specs.Prelude.{◌≡◌, ℕ, ◌+◌, ◌<◌, ◌≤◌, List, length, IfOk, OnOk};
ghost use Rattle.smith_input.specs.Loops.{Loop, Never};
ghost use Rattle.smith_input.specs.Consumes.{Consumes};
ghost use Rattle.smith_format.specs.Consistency.{max_u32};
ghost use Rattle.smith_format.specs.declared.config.Config.{Config};
ghost use Rattle.smith_scopes.specs.Scopes.{own_marked, outer_marked};
ghost use Rattle.smith_syntax.specs.Marked.{Marked};
ghost use Rattle.smith_component.specs.BuilderView.{IsSound};
ghost use Rattle.smith_types.specs.MakingTypes.{CanReadTypes};
ghost use Rattle.smith_component.specs.SectionsState.{GrowsScope, KeepsAround};
ghost use Rattle.smith_component.specs.SectionValues.{ReadsTypeValue, ReadsCoreTypeValue};

use crate::builder::Progress;
use smith_format::{Config, ValType, valtypes_of};
use smith_input::{Error, Unstructured};
use smith_types::{CoreType, DefType, Scopes, arbitrary_core_type, arbitrary_marked_type};
use std::alloc::Global;
use std::rc::Rc;

// What a section holds. An entry is read with fresh fuel, and is the next of its sort in the last scope.
pub(super) trait SectionEntry: Drop {
    ghost count: { Marked → ℕ };

    ghost reads: { Config → List Marked → Marked → List ℕ → Self → List ℕ → Marked → Type 0 };

    fn read(
        alloc: Global,
        config: &Config,
        valtypes: &[ValType],
        scopes: &mut Scopes,
        u: &mut Unstructured,
    ) -> Result<Self, Error>
        requires room { count (own_marked scopes.old) < max_u32 }
        requires ready { CanReadTypes config.now valtypes.now scopes.old }
        ensures read { IfOk result (λ e. reads config.now (outer_marked scopes.old) (own_marked scopes.old)
            u.old e u.new (own_marked scopes.new)) }
        ensures count { IfOk result (λ _. count (own_marked scopes.new) ≡ count (own_marked scopes.old) + 1) }
        ensures around { OnOk result (KeepsAround scopes.old scopes.new) }
        ensures input { Consumes result u.old u.new };
}

impl Progress {
    // The entries of a section, at least and at most that many.
    pub(super) fn read_entries<E: SectionEntry>(
        &mut self,
        min: usize,
        max: usize,
        u: &mut Unstructured,
    ) -> Result<Vec<E>, Error>
        requires sound { IsSound self.old }
        requires ordered { min ≤ max }
        requires room { E.count (own_marked self.old.scopes) + max ≤ max_u32 }
        ensures entries { IfOk result (λ v. Loop Never (E.reads self.old.config (outer_marked self.old.scopes))
            self.old.config.loop_bits min max 0
            (own_marked self.old.scopes) u.old v.items u.new (own_marked self.new.scopes)) }
        ensures scopes { OnOk result (GrowsScope self.old self.new) }
        ensures input { Consumes result u.old u.new }
    {
        let valtypes = valtypes_of(&self.config);
        let scopes = &mut self.scopes;
        let mut entries = Vec::new(self.alloc);
        for done in 0..max {
            if !u.more_of(self.config.loop_bits, done, min, max) {
                return Ok(entries);
            }
            let entry = E::read(self.alloc, &self.config, valtypes, scopes, u)?;
            entries.push(entry)?;
        }
        Ok(entries)
    }
}

impl SectionEntry for Rc<DefType> {
    ghost count = { λ s. length s.types };

    ghost reads = { ReadsTypeValue };

    fn read(
        alloc: Global,
        config: &Config,
        valtypes: &[ValType],
        scopes: &mut Scopes,
        u: &mut Unstructured,
    ) -> Result<Rc<DefType>, Error> {
        let mut fuel = config.max_type_size;
        let (made, mark) = arbitrary_marked_type(alloc, u, config, valtypes, scopes, &mut fuel)?;
        scopes.push_marked(made.clone()?, mark)?;
        Ok(made)
    }
}

impl SectionEntry for Rc<CoreType> {
    ghost count = { λ s. length s.core_types };

    ghost reads = { λ config outer. ReadsCoreTypeValue config };

    fn read(
        alloc: Global,
        config: &Config,
        valtypes: &[ValType],
        scopes: &mut Scopes,
        u: &mut Unstructured,
    ) -> Result<Rc<CoreType>, Error> {
        let mut fuel = config.max_type_size;
        let made = arbitrary_core_type(alloc, u, config, valtypes, scopes, &mut fuel)?;
        let size = scopes.core_size_of(&*made)?;
        scopes.push_sized(made.clone()?, size)?;
        Ok(made)
    }
}
