//! Running totals of the whole tree.

ghost use Rattle.std.specs.Prelude.{◌≡◌, ◌+◌, ◌<◌, ◌^◌, length};
ghost use Rattle.smith_tree.specs.Tree.{module_of, component_of, instance_of};

use smith_types::{ComponentTypeRef, RefTotals};

// How many modules, components below the root and instances there are, with the imported ones.
#[derive(Debug, Clone, Copy)]
pub(super) struct TreeTotals {
    pub(super) modules: usize,
    pub(super) components: usize,
    pub(super) instances: usize,
}

impl TreeTotals {
    // The same beside that many functions of a component.
    pub(super) fn with_functions(self, funcs: usize) -> RefTotals
        ensures modules { result.modules ≡ self.modules }
        ensures funcs { result.funcs ≡ funcs }
        ensures components { result.components ≡ self.components }
        ensures instances { result.instances ≡ self.instances }
    {
        RefTotals {
            modules: self.modules,
            funcs,
            components: self.components,
            instances: self.instances,
        }
    }

    // Counts what an import is of.
    pub(super) fn count(&mut self, to: ComponentTypeRef)
        requires modules { 0 < length (module_of to) → self.old.modules + 1 < 2 ^ 64 }
        requires components { 0 < length (component_of to) → self.old.components + 1 < 2 ^ 64 }
        requires instances { 0 < length (instance_of to) → self.old.instances + 1 < 2 ^ 64 }
        ensures modules { self.new.modules ≡ self.old.modules + length (module_of to) }
        ensures components { self.new.components ≡ self.old.components + length (component_of to) }
        ensures instances { self.new.instances ≡ self.old.instances + length (instance_of to) }
    {
        match to {
            ComponentTypeRef::Module(_) => self.modules += 1,
            ComponentTypeRef::Component(_) => self.components += 1,
            ComponentTypeRef::Instance(_) => self.instances += 1,
            ComponentTypeRef::Func(_) | ComponentTypeRef::TypeEq(_) => {}
        }
    }
}
