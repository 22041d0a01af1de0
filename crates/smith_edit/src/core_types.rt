//! Core types that a component declares.

ghost use Rattle.std.specs.Prelude.{◌≡◌, IfOk, OnOk};
ghost use Rattle.smith_format.specs.Shown.{shown_func};
ghost use Rattle.smith_syntax.specs.Entries.{ModuleDecl};
ghost use Rattle.smith_read.specs.Nodes.{shown_core_node, shown_module_node};
ghost use Rattle.smith_edit.specs.Edited.{after_module_decl, core_edited, entity_edited, function_edited};
ghost use Rattle.smith_edit.specs.Edited.{module_decl_edited, rows};
ghost use Rattle.smith_edit.specs.Items.{core_items, function_items, module_decl_items};
ghost use Rattle.smith_edit.specs.Walk.{shown_walk, skipped};

use crate::items::function_items;
use crate::members::edit_members;
use crate::renumbering::{Fate, Renumbering};
use crate::rows::{Row, edit_rows};
use crate::walk::{Scope, Walk};
use smith_format::{EntityType, FuncType, TagType};
use smith_read::{CoreNode, ModuleNode};
use std::alloc::AllocError;

fn edit_function(walk: &mut Walk, ty: &FuncType) -> Result<FuncType, AllocError>
    ensures edited { IfOk result (λ f. shown_func f ≡ function_edited walk.old.removal (shown_func ty.now)) }
    ensures walk { OnOk result (shown_walk walk.new
        ≡ skipped (function_items (shown_func ty.now)) (shown_walk walk.old)) }
{
    let params = edit_members(walk, &ty.params)?;
    let results = edit_members(walk, &ty.results)?;
    Ok(FuncType { params, results })
}

fn edit_entity(types: &Renumbering, to: EntityType) -> Option<EntityType>
    ensures { result ≡ entity_edited types.now to }
{
    match to {
        EntityType::Func(index) => types.new_index(index).map(EntityType::Func),
        EntityType::Tag(ty) => {
            let func_type_idx = types.new_index(ty.func_type_idx)?;
            Some(EntityType::Tag(TagType { func_type_idx }))
        }
        EntityType::Table(_) | EntityType::Memory(_) | EntityType::Global(_) => Some(to),
    }
}

impl Row for ModuleNode {
    ghost Shown = { ModuleDecl };

    ghost shown = { shown_module_node };

    ghost items = { module_decl_items };

    ghost edits = { module_decl_edited };

    ghost adds = { after_module_decl };

    fn items_inside(&self) -> Result<usize, AllocError> {
        match self {
            ModuleNode::Func(ty) => function_items(ty),
            _ => Ok(0),
        }
    }

    fn edited(&self, walk: &mut Walk) -> Result<Option<ModuleNode>, AllocError> {
        match self {
            ModuleNode::Func(ty) => Ok(Some(ModuleNode::Func(edit_function(walk, ty)?))),
            ModuleNode::Import {
                module,
                name,
                entity,
            } => {
                let Some(entity) = edit_entity(&walk.scopes.own.core_types, *entity) else {
                    return Ok(None);
                };
                let module = String::from_str(walk.alloc, module.as_str())?;
                let name = String::from_str(walk.alloc, name.as_str())?;
                Ok(Some(ModuleNode::Import {
                    module,
                    name,
                    entity,
                }))
            }
            ModuleNode::OuterAlias { count, index } => {
                let new = walk.aliased_core_type(*count, *index);
                Ok(new.map(|index| ModuleNode::OuterAlias {
                    count: *count,
                    index,
                }))
            }
            ModuleNode::Export { name, entity } => {
                let Some(entity) = edit_entity(&walk.scopes.own.core_types, *entity) else {
                    return Ok(None);
                };
                let name = String::from_str(walk.alloc, name.as_str())?;
                Ok(Some(ModuleNode::Export { name, entity }))
            }
        }
    }

    fn add(&self, new: &Option<ModuleNode>, own: &mut Scope) -> Result<(), AllocError> {
        match self {
            ModuleNode::Func(_) | ModuleNode::OuterAlias { .. } => {
                own.core_types.add(Fate::Kept.remains_if(new.is_some()))
            }
            ModuleNode::Import { .. } | ModuleNode::Export { .. } => Ok(()),
        }
    }
}

/// A core type, which remains.
pub(crate) fn edit_core_type(walk: &mut Walk, node: &CoreNode) -> Result<CoreNode, AllocError>
    ensures edited { IfOk result (λ t. shown_core_node t
        ≡ core_edited (shown_walk walk.old) (shown_core_node node.now)) }
    ensures walk { OnOk result (shown_walk walk.new
        ≡ skipped (core_items (shown_core_node node.now)) (shown_walk walk.old)) }
{
    match node {
        CoreNode::Func(ty) => Ok(CoreNode::Func(edit_function(walk, ty)?)),
        CoreNode::Module(nodes) => {
            walk.enter()?;
            let nodes = edit_rows(walk, nodes)?;
            walk.leave();
            Ok(CoreNode::Module(nodes))
        }
    }
}
