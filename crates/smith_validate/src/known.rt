//! What is known before a place.

ghost use Rattle.std.specs.Prelude.{◌≡◌, ◌∷◌, ◌++◌, [], length, option_map, slice_get, IfErr, MatchOption, None, OnOk};
ghost use Rattle.std.specs.Prelude.{Some};
ghost use Rattle.smith_syntax.specs.Scope.{empty_scope, with_core_type, with_type};
ghost use Rattle.smith_validate.specs.Kept.{kept_in, named_at, outer_in, own_in, type_in, types_in};
ghost use Rattle.smith_validate.specs.Steps.{SameBeside};
ghost use Rattle.smith_validate.specs.declared.error.Stop.TheVariants.{OutOfMemory};

use crate::error::Stop;
use crate::facts::{CoreFacts, Facts};
use crate::instances::InstanceType;
use smith_scope::Nest;
use std::alloc::Global;

/// The types and core types of a scope.
#[derive(Drop)]
pub(crate) struct Scope {
    pub(crate) types: Vec<Facts>,
    pub(crate) core_types: Vec<CoreFacts>,
}

impl Scope {
    pub(crate) fn new(alloc: Global) -> Scope
        ensures sizes { kept_in result ≡ empty_scope }
        ensures types { result.types.items ≡ [] }
    {
        Scope {
            types: Vec::new(alloc),
            core_types: Vec::new(alloc),
        }
    }

    /// The type with that index.
    pub(crate) fn type_at(&self, index: u32) -> Option<Facts>
        ensures size { option_map (λ f. f.size) result ≡ slice_get (kept_in self.now).types index }
        ensures facts { result ≡ slice_get self.now.types.items index }
    {
        self.types.get(index as usize).copied()
    }

    /// The core type with that index.
    pub(crate) fn core_type_at(&self, index: u32) -> Option<CoreFacts>
        ensures { result ≡ slice_get (kept_in self.now).core_types index }
    {
        self.core_types.get(index as usize).copied()
    }
}

/// The scopes that are open, and all types of instances that were declared, each after those that it exports.
#[derive(Drop)]
pub(crate) struct Known {
    pub(crate) scopes: Nest<Scope>,
    pub(crate) instances: Vec<InstanceType>,
}

impl Known {
    pub(crate) fn new(alloc: Global) -> Known
        ensures own { own_in result ≡ empty_scope }
        ensures types { result.scopes.own.types.items ≡ [] }
        ensures outer { result.scopes.outer.items ≡ [] }
        ensures instances { result.instances.items ≡ [] }
    {
        Known {
            scopes: Nest::new(alloc, Scope::new(alloc)),
            instances: Vec::new(alloc),
        }
    }

    /// Enters an empty scope.
    pub(crate) fn enter(&mut self, alloc: Global) -> Result<(), Stop>
        ensures own { OnOk result (own_in self.new ≡ empty_scope) }
        ensures types { OnOk result (self.new.scopes.own.types.items ≡ []) }
        ensures outer { OnOk result
            (self.new.scopes.outer.items ≡ self.old.scopes.outer.items ++ self.old.scopes.own ∷ []) }
        ensures instances { self.new.instances.items ≡ self.old.instances.items }
        ensures memory { IfErr result (λ e. e ≡ OutOfMemory) }
    {
        self.scopes.enter(Scope::new(alloc))?;
        Ok(())
    }

    // The scope of that count, innermost first.
    fn scope_at(&self, count: u32) -> Option<&Scope>
        ensures sizes { MatchOption result (slice_get (own_in self.now ∷ outer_in self.now) count ≡ None)
            (λ s. slice_get (own_in self.now ∷ outer_in self.now) count ≡ Some (kept_in s.now)) }
        ensures types { MatchOption result (slice_get (types_in self.now) count ≡ None)
            (λ s. slice_get (types_in self.now) count ≡ Some s.now.types.items) }
    {
        self.scopes.get(count)
    }

    /// The type that an outer alias names.
    pub(crate) fn type_named(&self, count: u32, index: u32) -> Option<Facts>
        ensures size { option_map (λ f. f.size) result
            ≡ named_at (λ s. s.types) (own_in self.now ∷ outer_in self.now) count index }
        ensures facts { result ≡ type_in (types_in self.now) count index }
    {
        self.scope_at(count)?.type_at(index)
    }

    /// The core type that an outer alias names.
    pub(crate) fn core_type_named(&self, count: u32, index: u32) -> Option<CoreFacts>
        ensures { result ≡ named_at (λ s. s.core_types) (own_in self.now ∷ outer_in self.now) count index }
    {
        self.scope_at(count)?.core_type_at(index)
    }

    /// Adds a type to the innermost scope.
    pub(crate) fn add_type(&mut self, facts: Facts) -> Result<(), Stop>
        ensures own { OnOk result (own_in self.new ≡ with_type (own_in self.old) facts.size) }
        ensures types { OnOk result
            (self.new.scopes.own.types.items ≡ self.old.scopes.own.types.items ++ facts ∷ []) }
        ensures beside { SameBeside self.old self.new }
        ensures memory { IfErr result (λ e. e ≡ OutOfMemory) }
    {
        self.scopes.own.types.push(facts)?;
        Ok(())
    }

    /// Adds a core type to the innermost scope.
    pub(crate) fn add_core_type(&mut self, facts: CoreFacts) -> Result<(), Stop>
        ensures own { OnOk result (own_in self.new ≡ with_core_type (own_in self.old) facts) }
        ensures types { self.new.scopes.own.types.items ≡ self.old.scopes.own.types.items }
        ensures beside { SameBeside self.old self.new }
        ensures memory { IfErr result (λ e. e ≡ OutOfMemory) }
    {
        self.scopes.own.core_types.push(facts)?;
        Ok(())
    }

    /// How many scopes there are around the innermost one.
    pub(crate) fn depth(&self) -> usize
        ensures { result ≡ length self.now.scopes.outer.items }
    {
        self.scopes.outer.len()
    }
}
