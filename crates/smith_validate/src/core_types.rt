//! Core types.

ghost use Rattle.std.specs.Prelude.{◌≡◌, ◌+◌, ◌≤◌, ◌<◌, ◌++◌, [], List, map, option_map, IfErr, IfOk, OnOk};
ghost use Rattle.std.specs.Prelude.{option_to_list};
ghost use Rattle.smith_format.specs.CoreTypes.{Function};
ghost use Rattle.smith_format.specs.declared.types.ExportKind.TheVariants as kind;
ghost use Rattle.smith_syntax.specs.Entries.{core_module};
ghost use Rattle.smith_syntax.specs.ModuleTypes.{adds, aliased};
ghost use Rattle.smith_tree.specs.Bodies.{core_facts};
ghost use Rattle.smith_tree.specs.Facts.{FactScope};
ghost use Rattle.smith_tree.specs.Sizes.{ValidCore, core_size, entity_size, function_size};
ghost use Rattle.smith_read.specs.Nodes.{shown_core_node, shown_module_node};
ghost use Rattle.smith_validate.specs.Judges.{IsUnnamed, Judges};
ghost use Rattle.smith_syntax.specs.Sizes.{capped};
ghost use Rattle.smith_syntax.specs.OwnSizes.{added_size, sizes_in};
ghost use Rattle.smith_validate.specs.Kept.{kept_core, kept_in, kept_of};
ghost use Rattle.smith_validate.specs.declared.error.Stop.TheVariants.{Invalid};
ghost use Rattle.smith_validate.specs.Modules.{Fits, Grows, IsSmallModule, entries_in, memories_in, one_of_kind};
ghost use Rattle.smith_validate.specs.Modules.{tables_in};

use crate::error::{Demand, Stop};
use crate::facts::CoreFacts;
use crate::known::Scope;
use smith_format::{EntityType, FuncType};
use smith_read::{CoreNode, ModuleNode};
use smith_syntax::{SIZE_BOUND, entity_size, function_size, size_sum};
use std::alloc::Global;

// How many memories a module type may import, and how many tables.
const MOST_IMPORTED: usize = 100;

// One more, of as many as a module type may import.
fn one_imported(count: usize, demand: Demand) -> Result<usize, Stop>
    requires { IsUnnamed (Invalid demand) }
    ensures bound { IfErr result IsUnnamed }
    ensures judged { OnOk result (count + 1 ≤ 100) }
    ensures passed { IfErr result (λ e. (e ≡ Invalid demand) × (¬ (count + 1 ≤ 100))) }
    ensures value { IfOk result (λ n. n ≡ count + 1) }
{
    if count < MOST_IMPORTED {
        Ok(count + 1)
    } else {
        Err(Stop::Invalid(demand))
    }
}

/// A module type as far as it was judged: the sizes of its own function types, its size, and how many memories and
/// tables it imports.
#[derive(Drop)]
pub(crate) struct Module {
    pub(crate) own: Vec<u32>,
    pub(crate) size: u32,
    pub(crate) memories: usize,
    pub(crate) tables: usize,
}

impl Module {
    fn new(alloc: Global) -> Module
        ensures own { result.own.items ≡ [] }
        ensures size { result.size ≡ 1 }
        ensures memories { result.memories ≡ 0 }
        ensures tables { result.tables ≡ 0 }
    {
        Module {
            own: Vec::new(alloc),
            size: 1,
            memories: 0,
            tables: 0,
        }
    }

    // Adds what is imported or exported.
    fn add_entity(&mut self, entity: EntityType) -> Result<(), Stop>
        ensures bound { IfErr result IsUnnamed }
        ensures judged { (fs : List Function) → self.old.own.items ≡ sizes_in fs → IsSmallModule self.old
            → Judges result (λ d. Fits d self.old (entity_size fs entity) 0 0) }
        ensures grown { (fs : List Function) → self.old.own.items ≡ sizes_in fs
            → OnOk result (Grows self.old self.new (entity_size fs entity) 0 0) }
        ensures own { self.new.own.items ≡ self.old.own.items }
    {
        let size = size_sum(self.size, entity_size(&self.own, entity));
        if size >= SIZE_BOUND {
            return Err(Stop::Invalid(Demand::Size));
        }
        self.size = size;
        Ok(())
    }

    // Adds an import to how many there are.
    fn count_import(&mut self, entity: EntityType) -> Result<(), Stop>
        ensures bound { IfErr result IsUnnamed }
        ensures judged { IsSmallModule self.old → Judges result
            (λ d. Fits d self.old 0 (one_of_kind kind.Memory entity) (one_of_kind kind.Table entity)) }
        ensures grown { OnOk result
            (Grows self.old self.new 0 (one_of_kind kind.Memory entity) (one_of_kind kind.Table entity)) }
        ensures own { self.new.own.items ≡ self.old.own.items }
    {
        match entity {
            EntityType::Memory(_) => {
                self.memories = one_imported(self.memories, Demand::Memories)?;
                Ok(())
            }
            EntityType::Table(_) => {
                self.tables = one_imported(self.tables, Demand::Tables)?;
                Ok(())
            }
            EntityType::Func(_) | EntityType::Global(_) | EntityType::Tag(_) => Ok(()),
        }
    }

    // Adds an import.
    fn add_import(&mut self, entity: EntityType) -> Result<(), Stop>
        ensures bound { IfErr result IsUnnamed }
        ensures judged { (fs : List Function) → self.old.own.items ≡ sizes_in fs → IsSmallModule self.old
            → Judges result (λ d.
            Fits d self.old (entity_size fs entity) (one_of_kind kind.Memory entity) (one_of_kind kind.Table entity)) }
        ensures grown { (fs : List Function) → self.old.own.items ≡ sizes_in fs → OnOk result
            (Grows self.old self.new (entity_size fs entity) (one_of_kind kind.Memory entity)
            (one_of_kind kind.Table entity)) }
        ensures own { self.new.own.items ≡ self.old.own.items }
    {
        self.count_import(entity)?;
        self.add_entity(entity)
    }

    // The size of the function type that an outer alias names, in the scope around.
    #[tactic(auto, using(crate::proofs::ModuleSteps::alias_found, crate::proofs::ModuleSteps::alias_missing))]
    fn aliased(&self, around: &Scope, count: u32, index: u32) -> Option<u32>
        ensures { (own : FactScope) (fs : List Function) → kept_in around.now ≡ kept_of own
            → self.now.own.items ≡ sizes_in fs → result
            ≡ option_map (λ f. capped (function_size f)) (aliased (entries_in own) fs count index) }
    {
        match count {
            0 => self.own.get(index as usize).copied(),
            1 => match around.core_type_at(index)? {
                CoreFacts::Func(size) => Some(size),
                CoreFacts::Module(_) => None,
            },
            _ => None,
        }
    }

    // Adds a function type of that size, if there is one.
    fn push(&mut self, size: Option<u32>) -> Result<(), Stop>
        ensures bound { IfErr result IsUnnamed }
        ensures judged { IsSmallModule self.old → Judges result (λ d. Fits d self.old 0 0 0) }
        ensures grown { OnOk result (Grows self.old self.new 0 0 0) }
        ensures own { OnOk result (self.new.own.items ≡ self.old.own.items ++ option_to_list size) }
    {
        if let Some(size) = size {
            self.own.push(size)?;
        }
        Ok(())
    }

    // Adds a declaration, in the scope around.
    fn add(&mut self, around: &Scope, decl: &ModuleNode) -> Result<(), Stop>
        ensures bound { IfErr result IsUnnamed }
        ensures judged { (fs : List Function) → self.old.own.items ≡ sizes_in fs → IsSmallModule self.old
            → Judges result (λ d.
            Fits d self.old (added_size fs (shown_module_node decl.now)) (memories_in (shown_module_node decl.now))
            (tables_in (shown_module_node decl.now))) }
        ensures grown { (fs : List Function) → self.old.own.items ≡ sizes_in fs → OnOk result
            (Grows self.old self.new (added_size fs (shown_module_node decl.now))
            (memories_in (shown_module_node decl.now)) (tables_in (shown_module_node decl.now))) }
        ensures own { (own : FactScope) (fs : List Function) → kept_in around.now ≡ kept_of own
            → self.old.own.items ≡ sizes_in fs → OnOk result (self.new.own.items
            ≡ sizes_in (fs ++ adds (entries_in own) fs (shown_module_node decl.now))) }
    {
        match decl {
            ModuleNode::Func(ty) => self.push(Some(function_size(ty))),
            ModuleNode::OuterAlias { count, index } => {
                let size = self.aliased(around, *count, *index);
                self.push(size)
            }
            ModuleNode::Import { entity, .. } => self.add_import(*entity),
            ModuleNode::Export { entity, .. } => self.add_entity(*entity),
        }
    }
}

// A module type in that scope.
fn module_of(alloc: Global, around: &Scope, decls: &[ModuleNode]) -> Result<Module, Stop>
    ensures bound { IfErr result IsUnnamed }
    ensures judged { (own : FactScope) → kept_in around.now ≡ kept_of own
        → Judges result (λ d. ValidCore d (entries_in own) (core_module (map shown_module_node decls.now))) }
    ensures size { (own : FactScope) → kept_in around.now ≡ kept_of own → IfOk result
        (λ m. m.size ≡ capped (core_size (entries_in own) (core_module (map shown_module_node decls.now)))) }
{
    let mut module = Module::new(alloc);
    for decl in decls {
        module.add(around, decl)?;
    }
    Ok(module)
}

/// A core type in that scope.
pub(crate) fn core_facts(alloc: Global, around: &Scope, ty: &CoreNode) -> Result<CoreFacts, Stop>
    ensures bound { IfErr result IsUnnamed }
    ensures judged { (own : FactScope) → kept_in around.now ≡ kept_of own
        → Judges result (λ d. ValidCore d (entries_in own) (shown_core_node ty.now)) }
    ensures kept { (own : FactScope) → kept_in around.now ≡ kept_of own
        → IfOk result (λ f. f ≡ kept_core (core_facts (shown_core_node ty.now) own)) }
{
    match ty {
        CoreNode::Func(ty) => Ok(CoreFacts::Func(function_size(ty))),
        CoreNode::Module(decls) => {
            let module = module_of(alloc, around, decls)?;
            Ok(CoreFacts::Module(module.size))
        }
    }
}
