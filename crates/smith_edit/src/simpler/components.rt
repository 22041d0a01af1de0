//! Where the next component inside a component is.

ghost use Rattle.std.specs.Prelude.{◌+◌, map, IfOk};
ghost use Rattle.smith_tree.specs.Tree.{tree_of};
ghost use Rattle.smith_read.specs.PartNodes.{shown_part_node, shown_tree};
ghost use Rattle.smith_edit.specs.Items.{part_items, tree_items};
ghost use Rattle.smith_edit.specs.Search.{IsFirst};
ghost use Rattle.smith_edit.specs.Simpler.{component_at, component_in};

use crate::counts::sum;
use crate::items::part_items;
use smith_read::{ComponentTree, PartNode};
use std::alloc::AllocError;

// The first component from an item on that is this section or inside it, if the section is the item of that number.
#[cycle(finding_next)]
#[tactic(auto, using(crate::proofs::Past::part_nodes))]
fn first_in(node: &PartNode, number: usize, from: usize) -> Result<Option<usize>, AllocError>
    ensures { let part = shown_part_node node.now in
        IfOk result (IsFirst (part_items part + 1) (λ k. component_in k part) number from) }
{
    let PartNode::Component(nodes) = node else {
        return Ok(None);
    };
    if from <= number {
        return Ok(Some(number));
    }
    first_among(nodes, sum(number, 1)?, from)
}

// The first component from an item on that is one of these sections or inside one, if they begin at the item of that
// number.
#[cycle(finding_next)]
fn first_among(nodes: &[PartNode], number: usize, from: usize) -> Result<Option<usize>, AllocError>
    ensures { let tree = tree_of (map shown_part_node nodes.now) in
        IfOk result (IsFirst (tree_items tree) (λ k. component_at k tree) number from) }
{
    let mut next = number;
    for node in nodes {
        let first = first_in(node, next, from)?;
        if first.is_some() {
            return Ok(first);
        }
        next = sum(next, sum(part_items(node)?, 1)?)?;
    }
    Ok(None)
}

/// The number of the first component inside the component, at any depth, among the items from that number on.
///
/// Items are counted as [`without`](crate::without) counts them. It takes time in proportion to the component, and
/// stack in proportion to its depth. `Err` is returned if there are more items than a `usize` counts.
pub fn next_component(tree: &ComponentTree, from: usize) -> Result<Option<usize>, AllocError>
    ensures { let shown = shown_tree tree.now in
        IfOk result (IsFirst (tree_items shown) (λ k. component_at k shown) 0 from) }
{
    first_among(&tree.parts, 0, from)
}
