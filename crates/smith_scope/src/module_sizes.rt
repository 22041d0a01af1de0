//! The effective sizes of module types.

ghost use Rattle.std.specs.Prelude.{◌≡◌, ◌+◌, ◌++◌, [], List, map, option_map, slice_get, IfOk, OnOk, option_to_list};
ghost use Rattle.smith_format.specs.CoreTypes.{Function};
ghost use Rattle.smith_syntax.specs.Entries.{core_module};
ghost use Rattle.smith_syntax.specs.ModuleTypes.{adds, aliased};
ghost use Rattle.smith_syntax.specs.Sizes.{capped, core_size, entity_size, function_size, module_type_size};
ghost use Rattle.smith_syntax.specs.OwnSizes.{added_size, sizes_in};

use crate::typed::{CorePart, CoreTree, CoreTyped, ModulePart, ModuleTree};
use smith_format::EntityType;
use smith_syntax::{entity_size, function_size, size_sum};
use std::alloc::{AllocError, Global};

// A module type as far as it was read: the sizes of its own function types, and its size.
#[derive(Drop)]
struct ModuleSize {
    own: Vec<u32>,
    size: u32,
}

impl ModuleSize {
    // No declaration.
    fn new(alloc: Global) -> ModuleSize
        ensures own { result.own.items ≡ [] }
        ensures size { result.size ≡ 1 }
    {
        ModuleSize {
            own: Vec::new(alloc),
            size: 1,
        }
    }

    // Adds what is imported or exported.
    fn add_entity(&mut self, entity: EntityType)
        ensures size { (fs : List Function) → self.old.own.items ≡ sizes_in fs
            → self.new.size ≡ capped (self.old.size + entity_size fs entity) }
        ensures own { self.new.own.items ≡ self.old.own.items }
    {
        self.size = size_sum(self.size, entity_size(&self.own, entity));
    }

    // The size of its own function type with that index, which an outer alias names.
    fn own_size(&self, index: u32) -> Option<u32>
        ensures { (fs : List Function) → self.now.own.items ≡ sizes_in fs
            → result ≡ option_map (λ f. capped (function_size f)) (slice_get fs index) }
    {
        self.own.get(index as usize).copied()
    }

    // The size of the function type that an outer alias names, among core types around.
    fn aliased<C: CoreTyped>(&self, around: &[C], count: u32, index: u32) -> Option<u32>
        ensures { (fs : List Function) → self.now.own.items ≡ sizes_in fs
            → result ≡ option_map (λ f. capped (function_size f))
            (aliased (map C.Tree.plain (map C.tree around.now)) fs count index) }
    {
        match count {
            0 => self.own_size(index),
            1 => match around.get(index as usize)?.tree().part() {
                CorePart::Func(ty) => Some(function_size(ty)),
                CorePart::Module(_) => None,
            },
            _ => None,
        }
    }

    // Adds a function type of that size, if there is one.
    fn push(&mut self, size: Option<u32>) -> Result<(), AllocError>
        ensures size { self.new.size ≡ self.old.size }
        ensures own { OnOk result (self.new.own.items ≡ self.old.own.items ++ option_to_list size) }
    {
        if let Some(size) = size {
            self.own.push(size)?;
        }
        Ok(())
    }

    // Adds a declaration, among core types around.
    fn add<C: CoreTyped, D: ModuleTree>(&mut self, around: &[C], decl: &D) -> Result<(), AllocError>
        ensures size { (fs : List Function) → self.old.own.items ≡ sizes_in fs → capped self.old.size ≡ self.old.size
            → OnOk result (self.new.size ≡ capped (self.old.size + added_size fs (D.plain decl.now))) }
        ensures own { (fs : List Function) → self.old.own.items ≡ sizes_in fs → OnOk result (self.new.own.items
            ≡ sizes_in (fs ++ adds (map C.Tree.plain (map C.tree around.now)) fs (D.plain decl.now))) }
    {
        match decl.part() {
            ModulePart::Func(ty) => self.push(Some(function_size(ty))),
            ModulePart::OuterAlias { count, index } => {
                let size = self.aliased(around, count, index);
                self.push(size)
            }
            ModulePart::Entity(entity) => {
                self.add_entity(entity);
                Ok(())
            }
        }
    }
}

// The size of a module type, among core types around.
fn module_size<C: CoreTyped, D: ModuleTree>(
    alloc: Global,
    around: &[C],
    decls: &[D],
) -> Result<u32, AllocError>
    ensures { IfOk result (λ n. n
        ≡ capped (core_size (map C.Tree.plain (map C.tree around.now)) (core_module (map D.plain decls.now)))) }
{
    let mut module = ModuleSize::new(alloc);
    for decl in decls {
        module.add(around, decl)?;
    }
    Ok(module.size)
}

/// The size of a module type, among core types around, when a core module is imported or exported: 0 for a function
/// type.
pub(crate) fn core_size<C: CoreTyped>(
    alloc: Global,
    around: &[C],
    ty: &C::Tree,
) -> Result<u32, AllocError>
    ensures { IfOk result (λ n. n
        ≡ capped (module_type_size (map C.Tree.plain (map C.tree around.now)) (C.Tree.plain ty.now))) }
{
    match ty.part() {
        CorePart::Func(_) => Ok(0),
        CorePart::Module(decls) => module_size(alloc, around, decls),
    }
}
