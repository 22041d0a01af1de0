//! The sections of components.

ghost use Rattle.std.specs.Prelude.{◌≡◌, None, Some, map, if◌then◌else◌, IfOk, OnOk, option_map};
ghost use Rattle.smith_syntax.specs.Entries.{CoreEntry, Entry, ImportEntry};
ghost use Rattle.smith_tree.specs.Tree.{Canon, ExportEntry, tree_of};
ghost use Rattle.smith_read.specs.Nodes.{shown_core_node};
ghost use Rattle.smith_read.specs.TypeNodes.{shown_type_node};
ghost use Rattle.smith_read.specs.PartNodes.{shown_import_node, shown_part_node};
ghost use Rattle.smith_tree.specs.Shown.{shown_canon, shown_export};
ghost use Rattle.smith_edit.specs.Edited.{after_canon, after_core, after_export, after_import, after_part};
ghost use Rattle.smith_edit.specs.Edited.{after_section, after_type, canon_edited, core_row, export_edited};
ghost use Rattle.smith_edit.specs.Edited.{import_edited, part_edited, tree_edited, type_row, within};
ghost use Rattle.smith_edit.specs.Items.{core_items, entry_items, function_members, none_inside, tree_items};
ghost use Rattle.smith_edit.specs.Removal.{past, removes};
ghost use Rattle.smith_edit.specs.Walk.{shown_walk};

use crate::core_types::edit_core_type;
use crate::items::{core_items, part_items, type_items};
use crate::members::signature_items;
use crate::renumbering::Fate;
use crate::rows::{Row, edit_rows, push_some};
use crate::types::{edit_named, edit_type};
use crate::walk::{Removal, Scope, Walk};
use smith_read::{CoreNode, CustomSection, Export, Func, ImportNode, PartNode, TypeNode};
use smith_syntax::ComponentTypeRef;
use std::alloc::AllocError;

impl Row for CoreNode {
    ghost Shown = { CoreEntry };

    ghost shown = { shown_core_node };

    ghost items = { core_items };

    ghost edits = { core_row };

    ghost adds = { after_core };

    fn items_inside(&self) -> Result<usize, AllocError> {
        core_items(self)
    }

    fn edited(&self, walk: &mut Walk) -> Result<Option<CoreNode>, AllocError> {
        Ok(Some(edit_core_type(walk, self)?))
    }

    fn add(&self, new: &Option<CoreNode>, own: &mut Scope) -> Result<(), AllocError> {
        own.core_types.add(Fate::Kept.remains_if(new.is_some()))
    }
}

// How many parameters and results a type of functions has.
#[tactic(auto, using(smith_read::proofs::ShownNodes::shown_nodes))]
fn function_members(node: &TypeNode) -> usize
    ensures { result ≡ function_members (shown_type_node node.now) }
{
    match node {
        TypeNode::Func(ty) => signature_items(ty),
        _ => 0,
    }
}

impl Row for TypeNode {
    ghost Shown = { Entry };

    ghost shown = { shown_type_node };

    ghost items = { entry_items };

    ghost edits = { type_row };

    ghost adds = { after_type };

    fn items_inside(&self) -> Result<usize, AllocError> {
        type_items(self)
    }

    fn edited(&self, walk: &mut Walk) -> Result<Option<TypeNode>, AllocError> {
        edit_type(walk, self)
    }

    fn add(&self, new: &Option<TypeNode>, own: &mut Scope) -> Result<(), AllocError> {
        let fate = match new {
            None => Fate::Removed,
            Some(new) if function_members(new) == function_members(self) => Fate::Kept,
            Some(_) => Fate::Changed,
        };
        own.types.add(fate)
    }
}

impl Row for Func {
    ghost Shown = { Canon };

    ghost shown = { shown_canon };

    ghost items = { none_inside };

    ghost edits = { canon_edited };

    ghost adds = { after_canon };

    fn items_inside(&self) -> Result<usize, AllocError> {
        Ok(0)
    }

    fn edited(&self, walk: &mut Walk) -> Result<Option<Func>, AllocError> {
        match self {
            Func::CanonLift {
                func_ty,
                core_func_index,
            } => {
                let core_func = walk.scopes.own.core_functions.kept_index(*core_func_index);
                match (core_func, walk.scopes.own.types.kept_index(*func_ty)) {
                    (Some(core_func_index), Some(func_ty)) => Ok(Some(Func::CanonLift {
                        func_ty,
                        core_func_index,
                    })),
                    _ => Ok(None),
                }
            }
            Func::CanonLower { func_index } => {
                let new = walk.scopes.own.functions.kept_index(*func_index);
                Ok(new.map(|func_index| Func::CanonLower { func_index }))
            }
        }
    }

    fn add(&self, new: &Option<Func>, own: &mut Scope) -> Result<(), AllocError> {
        let fate = Fate::Kept.remains_if(new.is_some());
        match self {
            Func::CanonLift { .. } => own.functions.add(fate),
            Func::CanonLower { .. } => own.core_functions.add(fate),
        }
    }
}

impl Row for ImportNode {
    ghost Shown = { ImportEntry };

    ghost shown = { shown_import_node };

    ghost items = { none_inside };

    ghost edits = { import_edited };

    ghost adds = { after_import };

    fn items_inside(&self) -> Result<usize, AllocError> {
        Ok(0)
    }

    fn edited(&self, walk: &mut Walk) -> Result<Option<ImportNode>, AllocError> {
        let new = edit_named(walk, self.name.as_str(), self.to)?;
        Ok(new.map(|(name, to)| ImportNode { name, to }))
    }

    fn add(&self, new: &Option<ImportNode>, own: &mut Scope) -> Result<(), AllocError> {
        if let ComponentTypeRef::Func(index) = self.to {
            let fate = own.types.entry_at(index).fate;
            own.functions.add(fate.remains_if(new.is_some()))?;
        }
        Ok(())
    }
}

impl Row for Export {
    ghost Shown = { ExportEntry };

    ghost shown = { shown_export };

    ghost items = { none_inside };

    ghost edits = { export_edited };

    ghost adds = { after_export };

    fn items_inside(&self) -> Result<usize, AllocError> {
        Ok(0)
    }

    fn edited(&self, walk: &mut Walk) -> Result<Option<Export>, AllocError> {
        let Some(func_index) = walk.scopes.own.functions.new_index(self.func_index) else {
            return Ok(None);
        };
        let name = String::from_str(walk.alloc, self.name.as_str())?;
        Ok(Some(Export { name, func_index }))
    }

    fn add(&self, new: &Option<Export>, own: &mut Scope) -> Result<(), AllocError> {
        own.functions.add_like(self.func_index, new.is_some())
    }
}

/// A section, with the entries that are left.
#[cycle(parts)]
#[tactic(auto, using(crate::proofs::Past::part_nodes))]
pub(crate) fn edit_part(walk: &mut Walk, node: &PartNode) -> Result<PartNode, AllocError>
    ensures edited { IfOk result (λ p. shown_part_node p
        ≡ part_edited (shown_part_node node.now) (shown_walk walk.old)) }
    ensures walk { OnOk result (shown_walk walk.new ≡ after_part (shown_walk walk.old) (shown_part_node node.now)) }
{
    match node {
        PartNode::Custom(section) => {
            let name = String::from_str(walk.alloc, section.name.as_str())?;
            let bytes = Vec::from_slice(walk.alloc, &section.bytes)?;
            Ok(PartNode::Custom(CustomSection { name, bytes }))
        }
        PartNode::CoreModule(text) => {
            Ok(PartNode::CoreModule(Vec::from_slice(walk.alloc, text)?))
        }
        PartNode::CoreTypes(entries) => Ok(PartNode::CoreTypes(edit_rows(walk, entries)?)),
        PartNode::Component(nodes) => {
            walk.enter()?;
            let nodes = edit_parts(walk, nodes)?;
            walk.leave();
            Ok(PartNode::Component(nodes))
        }
        PartNode::Types(entries) => Ok(PartNode::Types(edit_rows(walk, entries)?)),
        PartNode::Canons(entries) => Ok(PartNode::Canons(edit_rows(walk, entries)?)),
        PartNode::Imports(entries) => Ok(PartNode::Imports(edit_rows(walk, entries)?)),
        PartNode::Exports(entries) => Ok(PartNode::Exports(edit_rows(walk, entries)?)),
    }
}

// A section, if it is not removed; its entries are removed with it.
#[cycle(parts)]
fn edit_one(walk: &mut Walk, node: &PartNode) -> Result<Option<PartNode>, AllocError>
    ensures edited { IfOk result (λ r. option_map shown_part_node r ≡ (if removes walk.old.removal then None
        else Some (part_edited (shown_part_node node.now) (within (shown_walk walk.old))))) }
    ensures walk { OnOk result (shown_walk walk.new
        ≡ after_section (shown_walk walk.old) (shown_part_node node.now)) }
{
    let removal = walk.removal;
    walk.removal = removal.inside();
    let new = edit_part(walk, node)?;
    if removal.removes() {
        walk.removal = removal.after(part_items(node)?);
        return Ok(None);
    }
    Ok(Some(new))
}

/// The sections that are left.
#[cycle(parts)]
pub(crate) fn edit_parts(walk: &mut Walk, nodes: &[PartNode]) -> Result<Vec<PartNode>, AllocError>
    ensures left { IfOk result (λ v. tree_of (map shown_part_node v.items)
        ≡ tree_edited (tree_of (map shown_part_node nodes.now)) (shown_walk walk.old)) }
    ensures removal { OnOk result (walk.new.removal
        ≡ past (tree_items (tree_of (map shown_part_node nodes.now))) walk.old.removal) }
    ensures outer { OnOk result ((shown_walk walk.new).outer ≡ (shown_walk walk.old).outer) }
{
    let mut left = Vec::new(walk.alloc);
    for node in nodes {
        let new = edit_one(walk, node)?;
        push_some(&mut left, new)?;
    }
    Ok(left)
}
