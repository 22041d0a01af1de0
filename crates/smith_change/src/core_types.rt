//! Core types.

ghost use Rattle.std.specs.Prelude.{◌≡◌, ◌∷◌, ◌++◌, [], None, Option, Some, IfOk, IsSome, map, option_map};
ghost use Rattle.smith_format.specs.Shown.{shown_func};
ghost use Rattle.smith_format.specs.declared.types.ValType.{ValType};
ghost use Rattle.smith_syntax.specs.Entries.{CoreEntry, ModuleDecl};
ghost use Rattle.smith_read.specs.Nodes.{shown_core_node, shown_module_node};
ghost use Rattle.smith_change.specs.Alternatives as table;
ghost use Rattle.smith_change.specs.CoreTypes as core;
ghost use Rattle.smith_change.specs.Rows as rows;
ghost use Rattle.smith_read.specs.Search.{past, sought};

use crate::alternatives::{
    core_value_alternative, element_alternative, index_alternative, memory_alternative, only,
    table_alternative,
};
use crate::change::{Change, Changed};
use crate::rows::{Entry, Row, again_name, change_row, copied_all, named};
use smith_format::{
    EntityType, FuncType, GlobalType, MemoryType, RefType, TableType, TagType, ValType,
};
use smith_read::{CoreNode, ModuleNode, Search};
use std::alloc::{AllocError, Global};

impl Entry for ValType {
    ghost Shown = { ValType };

    ghost shown = { λ x. x };

    ghost places = { core.core_value_places };

    ghost changes = { core.core_value_changed };

    ghost again = { rows.unnamed };

    ghost fresh = { λ n. None };

    fn copied(&self, _alloc: Global) -> Result<ValType, AllocError> {
        Ok(*self)
    }

    fn renamed(&self, _alloc: Global) -> Changed<ValType> {
        Ok(None)
    }

    fn fresh(_alloc: Global, _number: usize) -> Changed<ValType> {
        Ok(None)
    }
}

impl Row for ValType {
    fn changed(&self, change: Change, search: &mut Search) -> Changed<ValType> {
        Ok(search.value_or(*self, core_value_alternative(change.alternative, *self)))
    }
}

// The results of a function type with one more, i32.
fn one_more_result(change: Change, results: &[ValType]) -> Changed<Vec<ValType>>
    ensures { IfOk result (λ r. option_map (λ v. v.items) r
        ≡ table.only change.alternative (results.now ++ ValType.I32 ∷ [])) }
{
    let mut results = Vec::from_slice(change.alloc, results)?;
    results.push(ValType::I32)?;
    Ok(only(change.alternative, results))
}

fn change_results(change: Change, search: &mut Search, results: &[ValType]) -> Changed<Vec<ValType>>
    ensures results { IfOk result (λ r. option_map (λ v. v.items) r
        ≡ sought (core.results_places results.now) search.old
        (λ k. core.results_changed change.alternative k results.now) results.now) }
    ensures moved { IfOk result (λ r. IsSome r → search.new ≡ past (core.results_places results.now) search.old) }
{
    if search.step() {
        return one_more_result(change, results);
    }
    change_row(change, search, results)
}

pub(crate) fn change_function(
    change: Change,
    search: &mut Search,
    ty: &FuncType,
) -> Changed<FuncType>
    ensures ty { IfOk result (λ r. option_map shown_func r ≡ sought (core.function_places (shown_func ty.now))
        search.old (λ k. core.function_changed change.alternative k (shown_func ty.now)) (shown_func ty.now)) }
    ensures moved { IfOk result (λ r. IsSome r
        → search.new ≡ past (core.function_places (shown_func ty.now)) search.old) }
{
    let params = change_row(change, search, &ty.params)?;
    let results = change_results(change, search, &ty.results)?;
    let Some((params, results)) = params.zip(results) else {
        return Ok(None);
    };
    Ok(Some(FuncType { params, results }))
}

pub(crate) fn copy_function(alloc: Global, ty: &FuncType) -> Result<FuncType, AllocError>
    ensures { IfOk result (λ f. shown_func f ≡ shown_func ty.now) }
{
    let params = Vec::from_slice(alloc, &ty.params)?;
    let results = Vec::from_slice(alloc, &ty.results)?;
    Ok(FuncType { params, results })
}

fn change_func(change: Change, search: &mut Search, index: u32) -> Option<EntityType>
    ensures ty { let entity = EntityType.Func index in result
        ≡ sought (core.entity_places entity) search.old (λ k. core.entity_changed change.alternative k entity) entity }
    ensures moved { IsSome result → search.new ≡ past (core.entity_places (EntityType.Func index)) search.old }
{
    if search.step() {
        let func_type_idx = index;
        return only(
            change.alternative,
            EntityType::Tag(TagType { func_type_idx }),
        );
    }
    let index = search.value_or(index, index_alternative(change.alternative, index));
    index.map(EntityType::Func)
}

fn memory_of(ty: TableType) -> MemoryType
    ensures { result ≡ table.memory_of ty }
{
    MemoryType {
        minimum: ty.minimum,
        maximum: ty.maximum,
        shared: false,
        memory64: ty.table64,
    }
}

fn table_of(ty: MemoryType) -> TableType
    ensures { result ≡ table.table_of ty }
{
    TableType {
        element_type: RefType::FuncRef,
        table64: ty.memory64,
        minimum: ty.minimum,
        maximum: ty.maximum,
    }
}

fn change_table(change: Change, search: &mut Search, ty: TableType) -> Option<EntityType>
    ensures ty { let entity = EntityType.Table ty in result
        ≡ sought (core.entity_places entity) search.old (λ k. core.entity_changed change.alternative k entity) entity }
    ensures moved { IsSome result → search.new ≡ past (core.entity_places (EntityType.Table ty)) search.old }
{
    if search.step() {
        return only(change.alternative, EntityType::Memory(memory_of(ty)));
    }
    if search.step() {
        return element_alternative(change.alternative, ty).map(EntityType::Table);
    }
    let ty = search.value_or(ty, table_alternative(change.alternative, ty));
    ty.map(EntityType::Table)
}

// A table in place of a memory that is not shared.
fn unshared(alternative: usize, ty: MemoryType) -> Option<EntityType>
    ensures { result ≡ core.unshared alternative ty }
{
    if ty.shared {
        return None;
    }
    only(alternative, EntityType::Table(table_of(ty)))
}

fn change_memory(change: Change, search: &mut Search, ty: MemoryType) -> Option<EntityType>
    ensures ty { let entity = EntityType.Memory ty in result
        ≡ sought (core.entity_places entity) search.old (λ k. core.entity_changed change.alternative k entity) entity }
    ensures moved { IsSome result → search.new ≡ past (core.entity_places (EntityType.Memory ty)) search.old }
{
    if search.step() {
        return unshared(change.alternative, ty);
    }
    let ty = search.value_or(ty, memory_alternative(change.alternative, ty));
    ty.map(EntityType::Memory)
}

fn change_global(change: Change, search: &mut Search, ty: GlobalType) -> Option<EntityType>
    ensures ty { let entity = EntityType.Global ty in result
        ≡ sought (core.entity_places entity) search.old (λ k. core.entity_changed change.alternative k entity) entity }
    ensures moved { IsSome result → search.new ≡ past (core.entity_places (EntityType.Global ty)) search.old }
{
    if search.step() {
        let val_type = core_value_alternative(change.alternative, ty.val_type)?;
        return Some(EntityType::Global(GlobalType { val_type, ..ty }));
    }
    let other = GlobalType {
        mutable: !ty.mutable,
        ..ty
    };
    let ty = search.value_or(ty, only(change.alternative, other));
    ty.map(EntityType::Global)
}

fn change_tag(change: Change, search: &mut Search, ty: TagType) -> Option<EntityType>
    ensures ty { let entity = EntityType.Tag ty in result
        ≡ sought (core.entity_places entity) search.old (λ k. core.entity_changed change.alternative k entity) entity }
    ensures moved { IsSome result → search.new ≡ past (core.entity_places (EntityType.Tag ty)) search.old }
{
    let index = ty.func_type_idx;
    if search.step() {
        return only(change.alternative, EntityType::Func(index));
    }
    let index = search.value_or(index, index_alternative(change.alternative, index));
    index.map(|func_type_idx| EntityType::Tag(TagType { func_type_idx }))
}

fn change_entity(change: Change, search: &mut Search, ty: EntityType) -> Option<EntityType>
    ensures ty { result ≡ sought (core.entity_places ty) search.old
        (λ k. core.entity_changed change.alternative k ty) ty }
    ensures moved { IsSome result → search.new ≡ past (core.entity_places ty) search.old }
{
    match ty {
        EntityType::Func(index) => change_func(change, search, index),
        EntityType::Table(ty) => change_table(change, search, ty),
        EntityType::Memory(ty) => change_memory(change, search, ty),
        EntityType::Global(ty) => change_global(change, search, ty),
        EntityType::Tag(ty) => change_tag(change, search, ty),
    }
}

/// The count and the index of an outer alias.
pub(crate) fn change_outer(
    change: Change,
    search: &mut Search,
    count: u32,
    index: u32,
) -> Option<(u32, u32)>
    ensures outer { result ≡ sought 2 search.old
        (λ k. core.outer_changed change.alternative k (count, index)) (count, index) }
    ensures moved { search.new ≡ past 2 search.old }
{
    let new_count = search.value_or(count, index_alternative(change.alternative, count));
    let new_index = search.value_or(index, index_alternative(change.alternative, index));
    new_count.zip(new_index)
}

impl Entry for ModuleNode {
    ghost Shown = { ModuleDecl };

    ghost shown = { shown_module_node };

    ghost places = { core.module_decl_places };

    ghost changes = { core.module_decl_changed };

    ghost again = { core.module_decl_again };

    ghost fresh = { λ n. None };

    fn copied(&self, alloc: Global) -> Result<ModuleNode, AllocError> {
        match self {
            ModuleNode::Func(ty) => Ok(ModuleNode::Func(copy_function(alloc, ty)?)),
            ModuleNode::Import {
                module,
                name,
                entity,
            } => Ok(ModuleNode::Import {
                module: named(alloc, module.as_str())?,
                name: named(alloc, name.as_str())?,
                entity: *entity,
            }),
            ModuleNode::OuterAlias { count, index } => Ok(ModuleNode::OuterAlias {
                count: *count,
                index: *index,
            }),
            ModuleNode::Export { name, entity } => Ok(ModuleNode::Export {
                name: named(alloc, name.as_str())?,
                entity: *entity,
            }),
        }
    }

    fn renamed(&self, alloc: Global) -> Changed<ModuleNode> {
        match self {
            ModuleNode::Func(_) | ModuleNode::OuterAlias { .. } => Ok(None),
            ModuleNode::Import { module, entity, .. } => {
                let first = named(alloc, module.as_str())?;
                let second = again_name(alloc)?;
                Ok(Some(ModuleNode::Import {
                    module: first,
                    name: second,
                    entity: *entity,
                }))
            }
            ModuleNode::Export { entity, .. } => Ok(Some(ModuleNode::Export {
                name: again_name(alloc)?,
                entity: *entity,
            })),
        }
    }

    fn fresh(_alloc: Global, _number: usize) -> Changed<ModuleNode> {
        Ok(None)
    }
}

impl Row for ModuleNode {
    fn changed(&self, change: Change, search: &mut Search) -> Changed<ModuleNode> {
        match self {
            ModuleNode::Func(ty) => Ok(change_function(change, search, ty)?.map(ModuleNode::Func)),
            ModuleNode::Import {
                module,
                name,
                entity,
            } => {
                let module = named(change.alloc, module.as_str())?;
                let name = named(change.alloc, name.as_str())?;
                let entity = change_entity(change, search, *entity);
                Ok(entity.map(|entity| ModuleNode::Import {
                    module,
                    name,
                    entity,
                }))
            }
            ModuleNode::OuterAlias { count, index } => {
                let outer = change_outer(change, search, *count, *index);
                Ok(outer.map(|(count, index)| ModuleNode::OuterAlias { count, index }))
            }
            ModuleNode::Export { name, entity } => {
                let name = named(change.alloc, name.as_str())?;
                let entity = change_entity(change, search, *entity);
                Ok(entity.map(|entity| ModuleNode::Export { name, entity }))
            }
        }
    }
}

impl Entry for CoreNode {
    ghost Shown = { CoreEntry };

    ghost shown = { shown_core_node };

    ghost places = { core.core_places };

    ghost changes = { core.core_changed };

    ghost again = { rows.unnamed };

    ghost fresh = { λ n. None };

    fn copied(&self, alloc: Global) -> Result<CoreNode, AllocError> {
        match self {
            CoreNode::Func(ty) => Ok(CoreNode::Func(copy_function(alloc, ty)?)),
            CoreNode::Module(nodes) => Ok(CoreNode::Module(copied_all(alloc, nodes)?)),
        }
    }

    fn renamed(&self, _alloc: Global) -> Changed<CoreNode> {
        Ok(None)
    }

    fn fresh(_alloc: Global, _number: usize) -> Changed<CoreNode> {
        Ok(None)
    }
}

impl Row for CoreNode {
    fn changed(&self, change: Change, search: &mut Search) -> Changed<CoreNode> {
        match self {
            CoreNode::Func(ty) => Ok(change_function(change, search, ty)?.map(CoreNode::Func)),
            CoreNode::Module(nodes) => {
                Ok(change_row(change, search, nodes)?.map(CoreNode::Module))
            }
        }
    }
}
