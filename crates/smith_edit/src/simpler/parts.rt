//! The sections of components.

ghost use Rattle.std.specs.Prelude.{◌≡◌, ◌+◌, None, Some, length, map, IfOk, IsSome, option_map};
ghost use Rattle.smith_tree.specs.Tree.{exports_of, imports_of, tree_of};
ghost use Rattle.smith_tree.specs.WellFormed.{export_names, import_names};
ghost use Rattle.smith_read.specs.PartNodes.{shown_import_node, shown_part_node};
ghost use Rattle.smith_tree.specs.Shown.{shown_export};
ghost use Rattle.smith_edit.specs.Edits.{export_renamed, import_renamed};
ghost use Rattle.smith_edit.specs.Items.{part_items, row_items, tree_items};
ghost use Rattle.smith_read.specs.Search.{past, sought};
ghost use Rattle.smith_edit.specs.Simpler.{itself_or, part_simplified, renamed_at, sections_of, simpler_part};

use crate::edits::take_names;
use crate::items::row_items;
use crate::parts::edit_part;
use crate::simpler::copies::{Simplest, copy_all};
use crate::simpler::members::{copy_named, rename_at};
use crate::simpler::search::{Finder, Simplified};
use crate::simpler::types::simplify_types;
use crate::walk::Walk;
use smith_core::CORE_PREAMBLE;
use smith_read::{CustomSection, Export, ImportNode, PartNode};
use std::alloc::Global;

// Entries that have no simpler form; none if what is sought is one of them, or inside one.
fn copy_rows<T: Simplest>(finder: &mut Finder, entries: &[T]) -> Simplified<Vec<T>>
    ensures entries { let all = map T.shown entries.now in IfOk result (λ r. option_map (λ v. map T.shown v.items) r
        ≡ sought (row_items T.items all) finder.old.search (λ k. None) all) }
    ensures moved { IfOk result (λ r. IsSome r → finder.new.search
        ≡ past (row_items T.items (map T.shown entries.now)) finder.old.search) }
{
    if finder.search.pass(row_items(entries)?).is_some() {
        return Ok(None);
    }
    Ok(Some(copy_all(finder.alloc, entries)?))
}

// Imports of a component with these sections, the one that is sought with a new name.
fn simplify_imports(
    finder: &mut Finder,
    scope: &[PartNode],
    entries: &[ImportNode],
) -> Simplified<Vec<ImportNode>>
    ensures imports { let imports = map shown_import_node entries.now in
        let taken = import_names (imports_of (tree_of (map shown_part_node scope.now))) in
        IfOk result (λ r. option_map (λ v. map shown_import_node v.items) r ≡ sought (length imports) finder.old.search
        (λ k. renamed_at (λ i. i.name) import_renamed taken k imports) imports) }
    ensures moved { IfOk result (λ r. IsSome r → finder.new.search
        ≡ past (length (map shown_import_node entries.now)) finder.old.search) }
{
    match finder.search.pass(entries.len()) {
        None => Ok(Some(copy_named(finder.alloc, entries)?)),
        Some(place) => {
            let taken = take_names(finder.alloc, scope)?;
            rename_at(finder.alloc, &taken.imports, entries, place)
        }
    }
}

// Exports of a component with these sections, the one that is sought with a new name.
fn simplify_exports(
    finder: &mut Finder,
    scope: &[PartNode],
    entries: &[Export],
) -> Simplified<Vec<Export>>
    ensures exports { let exports = map shown_export entries.now in
        let taken = export_names (exports_of (tree_of (map shown_part_node scope.now))) in
        IfOk result (λ r. option_map (λ v. map shown_export v.items) r ≡ sought (length exports) finder.old.search
        (λ k. renamed_at (λ e. e.name) export_renamed taken k exports) exports) }
    ensures moved { IfOk result (λ r. IsSome r → finder.new.search
        ≡ past (length (map shown_export entries.now)) finder.old.search) }
{
    match finder.search.pass(entries.len()) {
        None => Ok(Some(copy_named(finder.alloc, entries)?)),
        Some(place) => {
            let taken = take_names(finder.alloc, scope)?;
            rename_at(finder.alloc, &taken.exports, entries, place)
        }
    }
}

// The section itself made simpler.
#[tactic(auto, using(crate::proofs::Past::part_nodes))]
fn simpler_part(alloc: Global, node: &PartNode) -> Simplified<PartNode>
    ensures { IfOk result (λ r. option_map shown_part_node r ≡ simpler_part (shown_part_node node.now)) }
{
    match node {
        PartNode::Custom(section) => {
            if section.bytes.is_empty() {
                return Ok(None);
            }
            let name = String::from_str(alloc, section.name.as_str())?;
            let bytes = Vec::new(alloc);
            Ok(Some(PartNode::Custom(CustomSection { name, bytes })))
        }
        PartNode::CoreModule(text) => {
            if text.as_slice() == CORE_PREAMBLE.as_slice() {
                return Ok(None);
            }
            let empty = Vec::from_slice(alloc, &CORE_PREAMBLE)?;
            Ok(Some(PartNode::CoreModule(empty)))
        }
        _ => Ok(None),
    }
}

// What is sought inside a section made simpler, in a component with these sections.
#[cycle(simplifying_parts)]
#[tactic(auto, using(crate::proofs::Past::part_nodes, crate::proofs::Past::plain_items))]
fn simplify_inside(finder: &mut Finder, node: &PartNode, scope: &[PartNode]) -> Simplified<PartNode>
    ensures part { let tree = tree_of (map shown_part_node scope.now) in let part = shown_part_node node.now in
        IfOk result (λ r. option_map shown_part_node r ≡ sought (part_items part) finder.old.search
        (λ k. part_simplified (import_names (imports_of tree)) (export_names (exports_of tree)) k part) part) }
    ensures moved { IfOk result (λ r. IsSome r → finder.new.search
        ≡ past (part_items (shown_part_node node.now)) finder.old.search) }
{
    match node {
        PartNode::Custom(_) | PartNode::CoreModule(_) => {
            Ok(Some(edit_part(&mut Walk::still(finder.alloc), node)?))
        }
        PartNode::CoreTypes(entries) => Ok(copy_rows(finder, entries)?.map(PartNode::CoreTypes)),
        PartNode::Component(nodes) => Ok(simplify_parts(finder, nodes)?.map(PartNode::Component)),
        PartNode::Types(entries) => Ok(simplify_types(finder, entries)?.map(PartNode::Types)),
        PartNode::Canons(entries) => Ok(copy_rows(finder, entries)?.map(PartNode::Canons)),
        PartNode::Imports(entries) => Ok(simplify_imports(finder, scope, entries)?.map(
            PartNode::Imports,
        )),
        PartNode::Exports(entries) => Ok(simplify_exports(finder, scope, entries)?.map(
            PartNode::Exports,
        )),
    }
}

// A section, with what is sought made simpler, in a component with these sections.
#[cycle(simplifying_parts)]
fn simplify_part(finder: &mut Finder, node: &PartNode, scope: &[PartNode]) -> Simplified<PartNode>
    ensures part { let tree = tree_of (map shown_part_node scope.now) in let part = shown_part_node node.now in
        IfOk result (λ r. option_map shown_part_node r ≡ sought (part_items part + 1) finder.old.search
        (itself_or (simpler_part part)
        (λ k. part_simplified (import_names (imports_of tree)) (export_names (exports_of tree)) k part)) part) }
    ensures moved { IfOk result (λ r. IsSome r → finder.new.search
        ≡ past (part_items (shown_part_node node.now) + 1) finder.old.search) }
{
    if finder.search.step() {
        return simpler_part(finder.alloc, node);
    }
    simplify_inside(finder, node, scope)
}

/// Sections in order, with what is sought made simpler.
#[cycle(simplifying_parts)]
pub(crate) fn simplify_parts(finder: &mut Finder, nodes: &[PartNode]) -> Simplified<Vec<PartNode>>
    ensures parts { let tree = tree_of (map shown_part_node nodes.now) in
        IfOk result (λ r. option_map (λ v. tree_of (map shown_part_node v.items)) r
        ≡ sought (tree_items tree) finder.old.search (λ k. sections_of k tree) tree) }
    ensures moved { IfOk result (λ r. IsSome r → finder.new.search
        ≡ past (tree_items (tree_of (map shown_part_node nodes.now))) finder.old.search) }
{
    let mut parts = Vec::new(finder.alloc);
    for node in nodes {
        let Some(part) = simplify_part(finder, node, nodes)? else {
            return Ok(None);
        };
        parts.push(part)?;
    }
    Ok(Some(parts))
}
