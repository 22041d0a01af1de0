//! Types, and what types of components and instances declare.

ghost use Rattle.std.specs.Prelude.{◌≡◌, ◌+◌, None, map, if◌then◌else◌, IfOk, OnOk, option_map};
ghost use Rattle.smith_syntax.specs.Entries.{in_order};
ghost use Rattle.smith_syntax.specs.Signature.{named};
ghost use Rattle.smith_read.specs.TypeNodes.{shown_decl_node, shown_type_node};
ghost use Rattle.smith_edit.specs.Edited.{after_decl, decl_edited, decls_edited, entry_edited, ref_edited};
ghost use Rattle.smith_edit.specs.Items.{decl_items, decls_items, entry_items};
ghost use Rattle.smith_edit.specs.Removal.{past, removes};
ghost use Rattle.smith_edit.specs.Walk.{shown_walk, skipped};

use crate::core_types::edit_core_type;
use crate::items::declaration_items;
use crate::members::{edit_defined, edit_signature};
use crate::renumbering::Fate;
use crate::rows::push_some;
use crate::walk::{Scope, Walk};
use smith_read::{DeclNode, TypeNode};
use smith_syntax::ComponentTypeRef;
use std::alloc::AllocError;

// What an import or an export is of; none if that is removed.
fn edit_reference(own: &Scope, to: ComponentTypeRef) -> Option<ComponentTypeRef>
    ensures { result ≡ ref_edited own.now to }
{
    let types = &own.types;
    match to {
        ComponentTypeRef::Module(at) => own.core_types.new_index(at).map(ComponentTypeRef::Module),
        ComponentTypeRef::Func(at) => types.new_index(at).map(ComponentTypeRef::Func),
        ComponentTypeRef::TypeEq(at) => types.new_index(at).map(ComponentTypeRef::TypeEq),
        ComponentTypeRef::Component(at) => types.new_index(at).map(ComponentTypeRef::Component),
        ComponentTypeRef::Instance(at) => types.new_index(at).map(ComponentTypeRef::Instance),
    }
}

/// A type; none if it refers to what is removed, or has no members left.
#[cycle(editing)]
#[tactic(auto, using(smith_read::proofs::ShownNodes::shown_nodes))]
pub(crate) fn edit_type(walk: &mut Walk, node: &TypeNode) -> Result<Option<TypeNode>, AllocError>
    ensures edited { IfOk result (λ r. option_map shown_type_node r
        ≡ entry_edited (shown_type_node node.now) (shown_walk walk.old)) }
    ensures walk { OnOk result (shown_walk walk.new
        ≡ skipped (entry_items (shown_type_node node.now)) (shown_walk walk.old)) }
{
    match node {
        TypeNode::Defined(ty) => Ok(edit_defined(walk, ty)?.map(TypeNode::Defined)),
        TypeNode::Func(ty) => Ok(Some(TypeNode::Func(edit_signature(walk, ty)?))),
        TypeNode::Component(nodes) => {
            walk.enter()?;
            let nodes = edit_declarations(walk, nodes)?;
            walk.leave();
            Ok(Some(TypeNode::Component(nodes)))
        }
        TypeNode::Instance(nodes) => {
            walk.enter()?;
            let nodes = edit_declarations(walk, nodes)?;
            walk.leave();
            Ok(Some(TypeNode::Instance(nodes)))
        }
    }
}

/// The name and what it is of; none if that is removed.
pub(crate) fn edit_named(
    walk: &Walk,
    name: &str,
    to: ComponentTypeRef,
) -> Result<Option<(String, ComponentTypeRef)>, AllocError>
    ensures { IfOk result (λ r. option_map named r
        ≡ option_map (λ t. (name.now, t)) (ref_edited walk.now.scopes.own to)) }
{
    match edit_reference(&walk.scopes.own, to) {
        Some(to) => Ok(Some((String::from_str(walk.alloc, name)?, to))),
        None => Ok(None),
    }
}

/// A declaration; none if it refers to what is removed.
#[cycle(editing)]
#[tactic(auto, using(smith_read::proofs::ShownNodes::shown_nodes))]
pub(crate) fn edit_declaration(
    walk: &mut Walk,
    node: &DeclNode,
) -> Result<Option<DeclNode>, AllocError>
    ensures edited { IfOk result (λ r. option_map shown_decl_node r
        ≡ decl_edited (shown_decl_node node.now) (shown_walk walk.old)) }
    ensures walk { OnOk result (shown_walk walk.new
        ≡ skipped (decl_items (shown_decl_node node.now)) (shown_walk walk.old)) }
{
    match node {
        DeclNode::Core(ty) => Ok(Some(DeclNode::Core(edit_core_type(walk, ty)?))),
        DeclNode::Type(ty) => Ok(edit_type(walk, ty)?.map(DeclNode::Type)),
        DeclNode::TypeAlias { count, index } => {
            let new = walk.aliased_type(*count, *index);
            Ok(new.map(|index| DeclNode::TypeAlias {
                count: *count,
                index,
            }))
        }
        DeclNode::CoreTypeAlias { count, index } => {
            let new = walk.aliased_core_type(*count, *index);
            Ok(new.map(|index| DeclNode::CoreTypeAlias {
                count: *count,
                index,
            }))
        }
        DeclNode::Import { name, to } => {
            let new = edit_named(walk, name.as_str(), *to)?;
            Ok(new.map(|(name, to)| DeclNode::Import { name, to }))
        }
        DeclNode::Export { name, to } => {
            let new = edit_named(walk, name.as_str(), *to)?;
            Ok(new.map(|(name, to)| DeclNode::Export { name, to }))
        }
    }
}

// Adds a declaration to its index space, after it was edited.
#[tactic(auto, using(smith_read::proofs::ShownNodes::shown_nodes))]
fn add_declaration(
    node: &DeclNode,
    new: &Option<DeclNode>,
    own: &mut Scope,
) -> Result<(), AllocError>
    ensures { OnOk result (own.new
        ≡ after_decl own.old (shown_decl_node node.now) (option_map shown_decl_node new.now)) }
{
    let fate = Fate::Kept.remains_if(new.is_some());
    match node {
        DeclNode::Type(_)
        | DeclNode::TypeAlias { .. }
        | DeclNode::Export {
            to: ComponentTypeRef::TypeEq(_),
            ..
        } => own.types.add(fate),
        DeclNode::Core(_) | DeclNode::CoreTypeAlias { .. } => own.core_types.add(fate),
        DeclNode::Import { .. } | DeclNode::Export { .. } => Ok(()),
    }
}

// The declaration, if it is neither removed nor refers to what is.
#[cycle(editing)]
#[tactic(auto, using(crate::proofs::Past::past_step))]
fn edit_one(walk: &mut Walk, node: &DeclNode) -> Result<Option<DeclNode>, AllocError>
    ensures edited { IfOk result (λ r. option_map shown_decl_node r ≡ (if removes walk.old.removal then None
        else decl_edited (shown_decl_node node.now) (skipped 1 (shown_walk walk.old)))) }
    ensures walk { OnOk result (shown_walk walk.new
        ≡ skipped (decl_items (shown_decl_node node.now) + 1) (shown_walk walk.old)) }
{
    if walk.step() {
        walk.pass(declaration_items(node)?);
        return Ok(None);
    }
    edit_declaration(walk, node)
}

// The declarations that are left.
#[cycle(editing)]
fn edit_declarations(walk: &mut Walk, nodes: &[DeclNode]) -> Result<Vec<DeclNode>, AllocError>
    ensures left { IfOk result (λ v. in_order (map shown_decl_node v.items)
        ≡ decls_edited (in_order (map shown_decl_node nodes.now)) (shown_walk walk.old)) }
    ensures removal { OnOk result (walk.new.removal
        ≡ past (decls_items (in_order (map shown_decl_node nodes.now))) walk.old.removal) }
    ensures outer { OnOk result ((shown_walk walk.new).outer ≡ (shown_walk walk.old).outer) }
{
    let mut left = Vec::new(walk.alloc);
    for node in nodes {
        let new = edit_one(walk, node)?;
        add_declaration(node, &new, &mut walk.scopes.own)?;
        push_some(&mut left, new)?;
    }
    Ok(left)
}
