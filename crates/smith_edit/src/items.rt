//! How many items there are.

ghost use Rattle.std.specs.Prelude.{◌≡◌, map, IfOk};
ghost use Rattle.smith_format.specs.Shown.{shown_func};
ghost use Rattle.smith_syntax.specs.Entries.{in_order};
ghost use Rattle.smith_tree.specs.Tree.{tree_of};
ghost use Rattle.smith_read.specs.Nodes.{shown_core_node};
ghost use Rattle.smith_read.specs.TypeNodes.{shown_decl_node, shown_type_node};
ghost use Rattle.smith_read.specs.PartNodes.{shown_part_node, shown_tree};
ghost use Rattle.smith_edit.specs.Items.{core_items, decl_items, decls_items, entry_items, function_items, part_items};
ghost use Rattle.smith_edit.specs.Items.{row_items, tree_items};

use crate::counts::sum;
use crate::members::{signature_items, value_items};
use crate::rows::Row;
use smith_format::FuncType;
use smith_read::{ComponentTree, CoreNode, DeclNode, PartNode, TypeNode};
use std::alloc::AllocError;

/// The items of entries in order, each with itself.
pub(crate) fn row_items<T: Row>(items: &[T]) -> Result<usize, AllocError>
    ensures { IfOk result (λ n. n ≡ row_items T.items (map T.shown items.now)) }
{
    let mut count = 0;
    for item in items {
        let inside = sum(item.items_inside()?, 1)?;
        count = sum(count, inside)?;
    }
    Ok(count)
}

pub(crate) fn function_items(ty: &FuncType) -> Result<usize, AllocError>
    ensures { IfOk result (λ n. n ≡ function_items (shown_func ty.now)) }
{
    sum(ty.params.len(), ty.results.len())
}

pub(crate) fn core_items(node: &CoreNode) -> Result<usize, AllocError>
    ensures { IfOk result (λ n. n ≡ core_items (shown_core_node node.now)) }
{
    match node {
        CoreNode::Func(ty) => function_items(ty),
        CoreNode::Module(nodes) => row_items(nodes),
    }
}

#[cycle(counting)]
#[tactic(auto, using(smith_read::proofs::ShownNodes::shown_nodes))]
pub(crate) fn type_items(node: &TypeNode) -> Result<usize, AllocError>
    ensures { IfOk result (λ n. n ≡ entry_items (shown_type_node node.now)) }
{
    match node {
        TypeNode::Defined(ty) => Ok(value_items(ty)),
        TypeNode::Func(ty) => Ok(signature_items(ty)),
        TypeNode::Component(nodes) | TypeNode::Instance(nodes) => declarations_items(nodes),
    }
}

#[cycle(counting)]
#[tactic(auto, using(smith_read::proofs::ShownNodes::shown_nodes))]
pub(crate) fn declaration_items(node: &DeclNode) -> Result<usize, AllocError>
    ensures { IfOk result (λ n. n ≡ decl_items (shown_decl_node node.now)) }
{
    match node {
        DeclNode::Core(ty) => core_items(ty),
        DeclNode::Type(ty) => type_items(ty),
        _ => Ok(0),
    }
}

#[cycle(counting)]
fn declarations_items(nodes: &[DeclNode]) -> Result<usize, AllocError>
    ensures { IfOk result (λ n. n ≡ decls_items (in_order (map shown_decl_node nodes.now))) }
{
    let mut count = 0;
    for node in nodes {
        let inside = sum(declaration_items(node)?, 1)?;
        count = sum(count, inside)?;
    }
    Ok(count)
}

#[cycle(counting_parts)]
#[tactic(auto, using(crate::proofs::Past::part_nodes))]
pub(crate) fn part_items(node: &PartNode) -> Result<usize, AllocError>
    ensures { IfOk result (λ n. n ≡ part_items (shown_part_node node.now)) }
{
    match node {
        PartNode::Custom(_) | PartNode::CoreModule(_) => Ok(0),
        PartNode::CoreTypes(entries) => row_items(entries),
        PartNode::Component(nodes) => parts_items(nodes),
        PartNode::Types(entries) => row_items(entries),
        PartNode::Canons(entries) => Ok(entries.len()),
        PartNode::Imports(entries) => Ok(entries.len()),
        PartNode::Exports(entries) => Ok(entries.len()),
    }
}

#[cycle(counting_parts)]
fn parts_items(nodes: &[PartNode]) -> Result<usize, AllocError>
    ensures { IfOk result (λ n. n ≡ tree_items (tree_of (map shown_part_node nodes.now))) }
{
    let mut count = 0;
    for node in nodes {
        let inside = sum(part_items(node)?, 1)?;
        count = sum(count, inside)?;
    }
    Ok(count)
}

/// How many items a component has: `without` takes each number below this, and no other.
///
/// It takes time in proportion to the component, and stack in proportion to its depth. `Err` is returned if the number
/// would exceed what a `usize` holds.
pub fn item_count(tree: &ComponentTree) -> Result<usize, AllocError>
    ensures { IfOk result (λ n. n ≡ tree_items (shown_tree tree.now)) }
{
    parts_items(&tree.parts)
}
