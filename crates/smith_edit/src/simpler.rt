//! A component with one of its items made simpler.

mod components;
mod copies;
mod members;
mod parts;
mod search;
mod types;
mod values;

ghost use Rattle.std.specs.Prelude.{◌≡◌, ◌+◌, None, Some, map, IfOk, option_map};
ghost use Rattle.smith_tree.specs.Tree.{tree_of};
ghost use Rattle.smith_read.specs.PartNodes.{shown_part_node, shown_tree};
ghost use Rattle.smith_edit.specs.Items.{part_items, tree_items};
ghost use Rattle.smith_read.specs.Search.{past};
ghost use Rattle.smith_edit.specs.Search.{found};
ghost use Rattle.smith_edit.specs.Simpler.{component_at, component_in, simplified};

pub use self::components::next_component;
use self::parts::simplify_parts;
use self::search::Finder;
use crate::items::part_items;
use smith_read::{ComponentTree, PartNode, Search};
use std::alloc::{AllocError, Global};

// The sections of the component that is sought, if it is this section or inside it.
#[cycle(finding)]
#[tactic(auto, using(crate::proofs::Past::part_nodes))]
fn component_in<'a>(
    search: &mut Search,
    node: &'a PartNode,
) -> Result<Option<&'a [PartNode]>, AllocError>
    ensures component { IfOk result (λ r. option_map (λ ps. tree_of (map shown_part_node ps.now)) r
        ≡ found (part_items (shown_part_node node.now) + 1) search.old
        (λ k. component_in k (shown_part_node node.now))) }
    ensures moved { IfOk result (λ r. r ≡ None → search.new
        ≡ past (part_items (shown_part_node node.now) + 1) search.old) }
{
    let here = search.step();
    let PartNode::Component(nodes) = node else {
        let _inside = search.pass(part_items(node)?);
        return Ok(None);
    };
    if here {
        return Ok(Some(nodes));
    }
    component_at(search, nodes)
}

// The sections of the component that is sought, if it is one of these or inside one.
#[cycle(finding)]
fn component_at<'a>(
    search: &mut Search,
    nodes: &'a [PartNode],
) -> Result<Option<&'a [PartNode]>, AllocError>
    ensures component { IfOk result (λ r. option_map (λ ps. tree_of (map shown_part_node ps.now)) r
        ≡ found (tree_items (tree_of (map shown_part_node nodes.now))) search.old
        (λ k. component_at k (tree_of (map shown_part_node nodes.now)))) }
    ensures moved { IfOk result (λ r. r ≡ None → search.new
        ≡ past (tree_items (tree_of (map shown_part_node nodes.now))) search.old) }
{
    for node in nodes {
        let component = component_in(search, node)?;
        if component.is_some() {
            return Ok(component);
        }
    }
    Ok(None)
}

// A copy of the component.
fn copy_component(alloc: Global, nodes: &[PartNode]) -> Result<Option<ComponentTree>, AllocError>
    ensures { IfOk result (λ r. option_map shown_tree r ≡ Some (tree_of (map shown_part_node nodes.now))) }
{
    let search = Search::Over;
    let parts = simplify_parts(&mut Finder { alloc, search }, nodes)?;
    Ok(parts.map(|parts| ComponentTree { parts }))
}

/// The component with its `k`-th item made simpler; none if there is no `k`-th item, or if it has no simpler form.
///
/// Items are counted as `without` counts them. These have a simpler form:
///
/// - a custom section with contents: without them. Its name stays.
/// - a core module that is not empty: the empty one.
/// - a component inside the component, at any depth: that one, in place of the whole. Its indexes stay, so that an
///   outer alias of what was around it names nothing.
/// - a type of values in a section, or declared by a type of components or instances: `bool`, unless it is that.
/// - an import, an export, a field, a case, a flag, a label of an enum or a parameter of a component function: with the
///   first of the names a, b, .., z, aa, ab, .. that none of its kind beside it has, if that is shorter than its own.
///   Names in types of core modules stay.
///
/// The component that results has no more items and no more bytes, but is not always well formed: when a type becomes
/// `bool`, functions may no longer flatten as before. It takes memory and, except for sorting the names beside the one
/// that changes, time in proportion to the component, and stack in proportion to its depth. `Err` is returned if an
/// allocation fails, or if there are more items than a `usize` counts.
pub fn simplified(
    alloc: Global,
    tree: &ComponentTree,
    k: usize,
) -> Result<Option<ComponentTree>, AllocError>
    ensures { IfOk result (λ r. option_map shown_tree r ≡ simplified k (shown_tree tree.now)) }
{
    let mut search = Search::Ahead(k);
    if let Some(nodes) = component_at(&mut search, &tree.parts)? {
        return copy_component(alloc, nodes);
    }
    let mut finder = Finder {
        alloc,
        search: Search::Ahead(k),
    };
    let Some(parts) = simplify_parts(&mut finder, &tree.parts)? else {
        return Ok(None);
    };
    match finder.search {
        Search::Over => Ok(Some(ComponentTree { parts })),
        Search::Ahead(_) => Ok(None),
    }
}
