//! Copies of types and of sections as they are.

ghost use Rattle.std.specs.Prelude.{◌≡◌, IfOk, map};
ghost use Rattle.smith_syntax.specs.Entries.{in_order};
ghost use Rattle.smith_syntax.specs.Shown.{shown_defined};
ghost use Rattle.smith_tree.specs.Tree.{tree_of};
ghost use Rattle.smith_read.specs.PartNodes.{shown_part_node};
ghost use Rattle.smith_read.specs.TypeNodes.{shown_decl_node, shown_type_node};
ghost use Rattle.smith_read.specs.Search.{sought};

use crate::change::Change;
use crate::members::{change_defined, change_signature};
use crate::rows::{Entry, copied_all, named};
use smith_read::{CustomSection, DeclNode, PartNode, Search, TypeNode};
use smith_syntax::{DefinedType, FuncType};
use std::alloc::{AllocError, Global};

// Nothing is sought.
fn copying(alloc: Global) -> Change {
    Change {
        alloc,
        alternative: 0,
    }
}

fn copy_defined(alloc: Global, ty: &DefinedType) -> Result<DefinedType, AllocError>
    ensures { IfOk result (λ t. shown_defined t ≡ shown_defined ty.now) }
{
    change_defined(copying(alloc), &mut Search::Over, ty)?.ok_or(AllocError)
}

fn copy_signature(alloc: Global, ty: &FuncType) -> Result<FuncType, AllocError>
    ensures { IfOk result (λ t. t ≡ ty.now) }
{
    change_signature(copying(alloc), &mut Search::Over, ty)?.ok_or(AllocError)
}

#[cycle(copying)]
#[tactic(auto, using(smith_read::proofs::ShownNodes::shown_nodes))]
pub(crate) fn copy_type(alloc: Global, node: &TypeNode) -> Result<TypeNode, AllocError>
    ensures { IfOk result (λ t. shown_type_node t ≡ shown_type_node node.now) }
{
    match node {
        TypeNode::Defined(ty) => Ok(TypeNode::Defined(copy_defined(alloc, ty)?)),
        TypeNode::Func(ty) => Ok(TypeNode::Func(copy_signature(alloc, ty)?)),
        TypeNode::Component(nodes) => Ok(TypeNode::Component(copy_declarations(alloc, nodes)?)),
        TypeNode::Instance(nodes) => Ok(TypeNode::Instance(copy_declarations(alloc, nodes)?)),
    }
}

#[cycle(copying)]
#[tactic(auto, using(smith_read::proofs::ShownNodes::shown_nodes))]
pub(crate) fn copy_declaration(alloc: Global, node: &DeclNode) -> Result<DeclNode, AllocError>
    ensures { IfOk result (λ d. shown_decl_node d ≡ shown_decl_node node.now) }
{
    match node {
        DeclNode::Core(ty) => Ok(DeclNode::Core(ty.copied(alloc)?)),
        DeclNode::Type(ty) => Ok(DeclNode::Type(copy_type(alloc, ty)?)),
        DeclNode::TypeAlias { count, index } => Ok(DeclNode::TypeAlias {
            count: *count,
            index: *index,
        }),
        DeclNode::CoreTypeAlias { count, index } => Ok(DeclNode::CoreTypeAlias {
            count: *count,
            index: *index,
        }),
        DeclNode::Import { name, to } => Ok(DeclNode::Import {
            name: named(alloc, name.as_str())?,
            to: *to,
        }),
        DeclNode::Export { name, to } => Ok(DeclNode::Export {
            name: named(alloc, name.as_str())?,
            to: *to,
        }),
    }
}

#[cycle(copying)]
pub(crate) fn copy_declarations(
    alloc: Global,
    nodes: &[DeclNode],
) -> Result<Vec<DeclNode>, AllocError>
    ensures { IfOk result (λ v. map shown_decl_node v.items ≡ map shown_decl_node nodes.now) }
{
    let mut copies = Vec::new(alloc);
    for node in nodes {
        copies.push(copy_declaration(alloc, node)?)?;
    }
    Ok(copies)
}

#[cycle(copying_parts)]
#[tactic(auto, using(crate::proofs::Nodes::part_nodes))]
pub(crate) fn copy_part(alloc: Global, node: &PartNode) -> Result<PartNode, AllocError>
    ensures { IfOk result (λ p. shown_part_node p ≡ shown_part_node node.now) }
{
    match node {
        PartNode::Custom(section) => {
            let name = named(alloc, section.name.as_str())?;
            let bytes = Vec::from_slice(alloc, &section.bytes)?;
            Ok(PartNode::Custom(CustomSection { name, bytes }))
        }
        PartNode::CoreModule(text) => Ok(PartNode::CoreModule(Vec::from_slice(alloc, text)?)),
        PartNode::CoreTypes(entries) => Ok(PartNode::CoreTypes(copied_all(alloc, entries)?)),
        PartNode::Component(nodes) => Ok(PartNode::Component(copy_parts(alloc, nodes)?)),
        PartNode::Types(entries) => Ok(PartNode::Types(copied_all(alloc, entries)?)),
        PartNode::Canons(entries) => Ok(PartNode::Canons(copied_all(alloc, entries)?)),
        PartNode::Imports(entries) => Ok(PartNode::Imports(copied_all(alloc, entries)?)),
        PartNode::Exports(entries) => Ok(PartNode::Exports(copied_all(alloc, entries)?)),
    }
}

#[cycle(copying_parts)]
pub(crate) fn copy_parts(alloc: Global, nodes: &[PartNode]) -> Result<Vec<PartNode>, AllocError>
    ensures { IfOk result (λ v. map shown_part_node v.items ≡ map shown_part_node nodes.now) }
{
    let mut copies = Vec::new(alloc);
    for node in nodes {
        copies.push(copy_part(alloc, node)?)?;
    }
    Ok(copies)
}
