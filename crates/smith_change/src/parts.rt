//! The sections of components.

ghost use Rattle.std.specs.Prelude.{◌≡◌, None, Option, Some, IfOk, IsSome, map, option_map};
ghost use Rattle.smith_tree.specs.Tree.{Part, tree_of};
ghost use Rattle.smith_read.specs.PartNodes.{shown_part_node};
ghost use Rattle.smith_change.specs.Parts as parts;
ghost use Rattle.smith_change.specs.Rows as rows;
ghost use Rattle.smith_read.specs.Search.{past, sought};

use crate::change::{Change, Changed};
use crate::copies::copy_part;
use crate::modules::change_module;
use crate::rows::{Entry, change_entry, change_row};
use smith_read::{PartNode, Search};
use std::alloc::{AllocError, Global};

impl Entry for PartNode {
    ghost Shown = { Part };

    ghost shown = { shown_part_node };

    ghost places = { parts.part_places };

    ghost changes = { parts.part_changed };

    ghost again = { rows.unnamed };

    ghost fresh = { λ n. None };

    fn copied(&self, alloc: Global) -> Result<PartNode, AllocError> {
        copy_part(alloc, self)
    }

    fn renamed(&self, _alloc: Global) -> Changed<PartNode> {
        Ok(None)
    }

    fn fresh(_alloc: Global, _number: usize) -> Changed<PartNode> {
        Ok(None)
    }
}

#[cycle(changing_parts)]
#[tactic(auto, using(crate::proofs::Nodes::part_nodes))]
fn change_part(change: Change, search: &mut Search, node: &PartNode) -> Changed<PartNode>
    ensures part { let part = shown_part_node node.now in IfOk result (λ r. option_map shown_part_node r
        ≡ sought (parts.part_places part) search.old (λ k. parts.part_changed change.alternative k part) part) }
    ensures moved { IfOk result (λ r. IsSome r
        → search.new ≡ past (parts.part_places (shown_part_node node.now)) search.old) }
{
    match node {
        PartNode::Custom(_) => Ok(Some(copy_part(change.alloc, node)?)),
        PartNode::CoreModule(text) => {
            Ok(change_module(change, search, text)?.map(PartNode::CoreModule))
        }
        PartNode::CoreTypes(entries) => {
            Ok(change_row(change, search, entries)?.map(PartNode::CoreTypes))
        }
        PartNode::Component(nodes) => {
            Ok(change_parts(change, search, nodes)?.map(PartNode::Component))
        }
        PartNode::Types(entries) => Ok(change_row(change, search, entries)?.map(PartNode::Types)),
        PartNode::Canons(entries) => Ok(change_row(change, search, entries)?.map(PartNode::Canons)),
        PartNode::Imports(entries) => {
            Ok(change_row(change, search, entries)?.map(PartNode::Imports))
        }
        PartNode::Exports(entries) => {
            Ok(change_row(change, search, entries)?.map(PartNode::Exports))
        }
    }
}

/// Sections in order, with the place that is sought changed.
#[cycle(changing_parts)]
pub(crate) fn change_parts(
    change: Change,
    search: &mut Search,
    nodes: &[PartNode],
) -> Changed<Vec<PartNode>>
    ensures parts { let tree = tree_of (map shown_part_node nodes.now) in
        IfOk result (λ r. option_map (λ v. tree_of (map shown_part_node v.items)) r
        ≡ sought (parts.places tree) search.old (λ k. parts.sections_changed change.alternative k tree) tree) }
    ensures moved { IfOk result (λ r. IsSome r
        → search.new ≡ past (parts.places (tree_of (map shown_part_node nodes.now))) search.old) }
{
    let mut done = Vec::new(change.alloc);
    for (index, node) in nodes.iter().enumerate() {
        if search.step() {
            return change_entry(change, done, &nodes[index..]);
        }
        let Some(part) = change_part(change, search, node)? else {
            return Ok(None);
        };
        done.push(part)?;
    }
    Ok(Some(done))
}
