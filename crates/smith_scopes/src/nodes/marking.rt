//! Types of a scope with what is kept of them.

ghost use Rattle.std.specs.Prelude.{◌≡◌, if◌then◌else◌, true, IfOk, OnOk};
ghost use Rattle.smith_syntax.specs.Marked.{with_export, with_import, with_exported, with_marked, with_sized};
ghost use Rattle.smith_syntax.specs.Marks.{closed_mark};
ghost use Rattle.smith_syntax.specs.Sizes.{capped, module_type_size};
ghost use Rattle.smith_read.specs.Nodes.{shown_core_node};
ghost use Rattle.smith_read.specs.TypeNodes.{shown_type_node};
ghost use Rattle.smith_scopes.specs.Naming.{Exported, Found, FoundCore, after_alias, after_core_alias, with_found};
ghost use Rattle.smith_scopes.specs.Naming.{with_found_core};
ghost use Rattle.smith_scopes.specs.NodeScopes.{outer_marked_in, own_marked_in};

use super::NodeScopes;
use smith_read::{CoreNode, TypeNode};
use smith_syntax::{ComponentTypeRef, Mark, Reach};
use std::alloc::{AllocError, Global};

impl<'a> NodeScopes<'a> {
    /// Adds a type of that mark to the innermost scope.
    pub fn add_marked(&mut self, ty: &'a TypeNode, mark: Mark) -> Result<(), AllocError>
        ensures own { OnOk result (own_marked_in self.new
            ≡ with_marked (own_marked_in self.old) (shown_type_node ty.now) mark) }
        ensures outer { outer_marked_in self.new ≡ outer_marked_in self.old }
    {
        self.nest.own.push_type(self.alloc, ty, mark)
    }

    /// Adds a core type of that size to the innermost scope.
    pub fn add_sized(&mut self, ty: &'a CoreNode, size: u32) -> Result<(), AllocError>
        ensures own { OnOk result (own_marked_in self.new
            ≡ with_sized (own_marked_in self.old) (shown_core_node ty.now) size) }
        ensures outer { outer_marked_in self.new ≡ outer_marked_in self.old }
    {
        self.nest.own.push_core_type(self.alloc, ty, size)
    }

    // The size of a core type in the innermost scope, when a core module is imported or exported; 0 if not kept.
    fn core_size_of(&self, alloc: Global, ty: &CoreNode) -> Result<u32, AllocError>
        ensures { (own_marked_in self.now).keeps ≡ true → IfOk result (λ n. n
            ≡ capped (module_type_size (own_marked_in self.now).core_types (shown_core_node ty.now))) }
    {
        self.nest.own.core_size_of(alloc, ty)
    }

    /// Adds a core type to the innermost scope, with its size.
    pub fn add_core_entry(&mut self, alloc: Global, ty: &'a CoreNode) -> Result<(), AllocError>
        ensures own { OnOk result (own_marked_in self.new ≡ with_sized (own_marked_in self.old) (shown_core_node ty.now)
            (capped (module_type_size (own_marked_in self.old).core_types (shown_core_node ty.now)))) }
        ensures outer { outer_marked_in self.new ≡ outer_marked_in self.old }
    {
        let size = self.core_size_of(alloc, ty)?;
        self.add_sized(ty, size)
    }

    // The type that an outer alias names, and its mark in the scope of the alias.
    fn found(&self, count: u32, index: u32) -> Option<(&'a TypeNode, Mark)>
        ensures { Found (own_marked_in self.now) (outer_marked_in self.now) count index result }
    {
        let scope = self.scope_at(count)?;
        let mark = scope.mark_at(index).aliased(count);
        let ty = scope.type_at(index)?;
        Some((ty, mark))
    }

    // The core type that an outer alias names, and its size.
    fn found_core(&self, count: u32, index: u32) -> Option<(&'a CoreNode, u32)>
        ensures { FoundCore (own_marked_in self.now) (outer_marked_in self.now) count index result }
    {
        let scope = self.scope_at(count)?;
        let size = scope.core_size_at(index);
        let ty = scope.core_type_at(index)?;
        Some((ty, size))
    }

    // Adds a type, if there is one.
    fn add_found(&mut self, found: Option<(&'a TypeNode, Mark)>) -> Result<(), AllocError>
        ensures own { OnOk result (own_marked_in self.new ≡ with_found (own_marked_in self.old) found.entry) }
        ensures outer { outer_marked_in self.new ≡ outer_marked_in self.old }
    {
        match found {
            Some((ty, mark)) => self.add_marked(ty, mark),
            None => Ok(()),
        }
    }

    // Adds a core type, if there is one.
    fn add_found_core(&mut self, found: Option<(&'a CoreNode, u32)>) -> Result<(), AllocError>
        ensures own { OnOk result (own_marked_in self.new ≡ with_found_core (own_marked_in self.old) found.entry) }
        ensures outer { outer_marked_in self.new ≡ outer_marked_in self.old }
    {
        match found {
            Some((ty, size)) => self.add_sized(ty, size),
            None => Ok(()),
        }
    }

    /// Adds what an outer alias of a type adds to the innermost scope.
    pub fn add_alias(&mut self, count: u32, index: u32) -> Result<(), AllocError>
        ensures own { OnOk result (own_marked_in self.new
            ≡ after_alias (outer_marked_in self.old) (own_marked_in self.old) count index) }
        ensures outer { outer_marked_in self.new ≡ outer_marked_in self.old }
    {
        let found = self.found(count, index);
        self.add_found(found)
    }

    /// Adds what an outer alias of a core type adds to the innermost scope.
    pub fn add_core_alias(&mut self, count: u32, index: u32) -> Result<(), AllocError>
        ensures own { OnOk result (own_marked_in self.new
            ≡ after_core_alias (outer_marked_in self.old) (own_marked_in self.old) count index) }
        ensures outer { outer_marked_in self.new ≡ outer_marked_in self.old }
    {
        let found = self.found_core(count, index);
        self.add_found_core(found)
    }

    /// Adds what is imported to the size of the innermost scope, if that is kept.
    pub fn note_import(&mut self, to: ComponentTypeRef)
        ensures own { own_marked_in self.new ≡ with_import (own_marked_in self.old) to }
        ensures outer { outer_marked_in self.new ≡ outer_marked_in self.old }
    {
        self.nest.own.note_import(to)
    }

    /// Adds what is exported to the size of the innermost scope and to what its exports refer to, if these are kept.
    pub fn note_export(&mut self, to: ComponentTypeRef)
        ensures own { own_marked_in self.new ≡ with_export (own_marked_in self.old) to }
        ensures outer { outer_marked_in self.new ≡ outer_marked_in self.old }
    {
        self.nest.own.note_export(to)
    }

    // The type that an export adds, and its mark.
    fn exported(&self, to: ComponentTypeRef) -> Option<(&'a TypeNode, Mark)>
        ensures { Exported (own_marked_in self.now) to result }
    {
        match to {
            ComponentTypeRef::TypeEq(index) => {
                let mark = self.nest.own.mark_at(index).equal();
                let ty = self.nest.own.type_at(index)?;
                Some((ty, mark))
            }
            ComponentTypeRef::Module(_)
            | ComponentTypeRef::Func(_)
            | ComponentTypeRef::Component(_)
            | ComponentTypeRef::Instance(_) => None,
        }
    }

    /// Adds what an export adds to the innermost scope, and notes it.
    pub fn add_export(&mut self, to: ComponentTypeRef) -> Result<(), AllocError>
        ensures own { OnOk result (own_marked_in self.new ≡ with_exported (own_marked_in self.old) to) }
        ensures outer { outer_marked_in self.new ≡ outer_marked_in self.old }
    {
        let found = self.exported(to);
        self.note_export(to);
        self.add_found(found)
    }

    /// The mark of the component type or the instance type that the innermost scope is of.
    pub fn closed_mark(&self, is_instance: bool) -> Mark
        ensures { result ≡ closed_mark (if is_instance then (own_marked_in self.now).exported else Reach.Everywhere)
            (own_marked_in self.now).size }
    {
        self.nest.own.closed_mark(is_instance)
    }
}
