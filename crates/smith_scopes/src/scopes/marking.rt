//! The marks of types, and the sizes of module types, from what is kept of the scopes.

ghost use Rattle.std.specs.Prelude.{◌≡◌, ◌<◌, get_or, if◌then◌else◌, length, map, nat_le, true, IfOk};
ghost use Rattle.smith_syntax.specs.Entries.{defined, function};
ghost use Rattle.smith_syntax.specs.Marked.{mark, with_export, with_import};
ghost use Rattle.smith_syntax.specs.Marks.{aliased_mark, closed_mark, equal_mark, no_mark, room_size};
ghost use Rattle.smith_syntax.specs.Shown.{shown_core, shown_defined};
ghost use Rattle.smith_syntax.specs.Sizes.{capped, module_type_size};
ghost use Rattle.smith_scopes.specs.Scopes.{Changes, last_of, outer_marked, own_marked, scope_at};

use super::Scopes;
use smith_syntax::{ComponentTypeRef, CoreType, DefinedType, FuncType, Mark, Reach};
use std::alloc::AllocError;

impl Scopes {
    /// Adds what is imported to the size of the last scope, if that is kept.
    pub fn note_import(&mut self, to: ComponentTypeRef)
        ensures { Changes (λ d. with_import d to) self.old self.new }
    {
        self.nest.own.note_import(to)
    }

    /// Adds what is exported to the size of the last scope and to what its exports refer to, if these are kept.
    pub fn note_export(&mut self, to: ComponentTypeRef)
        ensures { Changes (λ d. with_export d to) self.old self.new }
    {
        self.nest.own.note_export(to)
    }

    /// Can one more be imported or exported in the last scope?
    pub fn has_room(&self) -> bool
        ensures { result ≡ nat_le (last_of self.now).size room_size }
    {
        self.last().has_room()
    }

    /// The mark of the component type or the instance type that the last scope is of.
    pub fn closed_mark(&self, is_instance: bool) -> Mark
        ensures { result ≡ closed_mark (if is_instance then (last_of self.now).exported else Reach.Everywhere)
            (last_of self.now).size }
    {
        self.last().closed_mark(is_instance)
    }

    /// The mark of an outer alias of the type with the index `i` in the scope of that count (0 is the last).
    pub fn aliased_mark(&self, count: u32, i: u32) -> Mark
        requires { count < length self.now }
        ensures { result ≡ aliased_mark count (get_or (scope_at self.now count).marks i no_mark) }
    {
        self.mark_at(count, i).aliased(count)
    }

    /// The mark of an export that is equal to the type with the index `i` in the last scope.
    pub fn equal_mark(&self, i: u32) -> Mark
        ensures { result ≡ equal_mark (get_or (last_of self.now).marks i no_mark) }
    {
        self.last().mark_at(i).equal()
    }

    /// The mark of a type of values that is declared in the last scope: `Mark::NONE` if none is kept.
    pub fn defined_mark(&self, ty: &DefinedType) -> Mark
        ensures { (last_of self.now).keeps ≡ true
            → result ≡ mark {N = Unit {0}} {K = Unit {0}} (defined (shown_defined ty.now)) (own_marked self.now)
            (outer_marked self.now) }
    {
        self.last().defined_mark(ty)
    }

    /// The mark of a type of functions that is declared in the last scope: `Mark::NONE` if none is kept.
    pub fn function_mark(&self, ty: &FuncType) -> Mark
        ensures { (last_of self.now).keeps ≡ true
            → result ≡ mark {N = Unit {0}} {K = Unit {0}} (function ty.now) (own_marked self.now)
            (outer_marked self.now) }
    {
        self.last().function_mark(ty)
    }

    /// The size of a core type that is declared in the last scope, when a core module is imported or exported: 0 for a
    /// function type, and if none is kept. It fails only when out of memory.
    #[inline(always)]
    pub fn core_size_of(&self, entry: &CoreType) -> Result<u32, AllocError>
        ensures { (last_of self.now).keeps ≡ true
            → IfOk result (λ n. n ≡ capped
            (module_type_size (map shown_core (last_of self.now).core_types) (shown_core entry.now))) }
    {
        self.last().core_size_of(self.alloc, entry)
    }
}
