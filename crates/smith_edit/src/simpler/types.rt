//! Types, and what types of components and instances declare.

ghost use Rattle.std.specs.Prelude.{◌≡◌, ◌+◌, ◌++◌, ℕ, List, map, IfOk, IsSome, OnOk, option_map};
ghost use Rattle.smith_syntax.specs.Entries.{in_order};
ghost use Rattle.smith_syntax.specs.WellFormed.{decl_exports, decl_imports, export_of, import_of, names};
ghost use Rattle.smith_read.specs.Nodes.{shown_core_node};
ghost use Rattle.smith_read.specs.TypeNodes.{shown_decl_node, shown_type_node};
ghost use Rattle.smith_edit.specs.Items.{core_items, decl_items, decls_items, entry_items, row_items};
ghost use Rattle.smith_edit.specs.Names.{KnowsBoth};
ghost use Rattle.smith_read.specs.Search.{past, sought};
ghost use Rattle.smith_edit.specs.Simpler.{decl_simplified, decls_simplified, entry_simplified, itself_or};
ghost use Rattle.smith_edit.specs.Simpler.{simpler_decl, simpler_entry, types_simplified};

use crate::items::core_items;
use crate::names::Taken;
use crate::simpler::copies::Simplest;
use crate::simpler::search::{Finder, Simplified};
use crate::simpler::values::{simpler_value, simplify_defined, simplify_signature};
use crate::types::edit_declaration;
use crate::walk::Walk;
use smith_read::{CoreNode, DeclNode, TypeNode};
use std::alloc::{AllocError, Global};

/// A core type; none if what is sought is inside it.
pub(crate) fn copy_core_type(finder: &mut Finder, node: &CoreNode) -> Simplified<CoreNode>
    ensures ty { IfOk result (λ r. option_map shown_core_node r
        ≡ sought (core_items (shown_core_node node.now)) finder.old.search (λ k. None) (shown_core_node node.now)) }
    ensures moved { IfOk result (λ r. IsSome r → finder.new.search
        ≡ past (core_items (shown_core_node node.now)) finder.old.search) }
{
    if finder.search.pass(core_items(node)?).is_some() {
        return Ok(None);
    }
    Ok(Some(node.copied(finder.alloc)?))
}

// The type itself made simpler.
#[tactic(auto, using(smith_read::proofs::ShownNodes::shown_nodes))]
fn simpler_type(node: &TypeNode) -> Option<TypeNode>
    ensures { option_map shown_type_node result ≡ simpler_entry (shown_type_node node.now) }
{
    match node {
        TypeNode::Defined(ty) => simpler_value(ty).map(TypeNode::Defined),
        TypeNode::Func(_) | TypeNode::Component(_) | TypeNode::Instance(_) => None,
    }
}

// What is sought inside a type made simpler.
#[cycle(simplifying)]
#[tactic(auto, using(smith_read::proofs::ShownNodes::shown_nodes))]
fn simplify_inside(finder: &mut Finder, node: &TypeNode) -> Simplified<TypeNode>
    ensures ty { IfOk result (λ r. option_map shown_type_node r ≡ sought (entry_items (shown_type_node node.now))
        finder.old.search (λ k. entry_simplified k (shown_type_node node.now)) (shown_type_node node.now)) }
    ensures moved { IfOk result (λ r. IsSome r → finder.new.search
        ≡ past (entry_items (shown_type_node node.now)) finder.old.search) }
{
    match node {
        TypeNode::Defined(ty) => Ok(simplify_defined(finder, ty)?.map(TypeNode::Defined)),
        TypeNode::Func(ty) => Ok(simplify_signature(finder, ty)?.map(TypeNode::Func)),
        TypeNode::Component(nodes) => Ok(simplify_declarations(finder, nodes)?.map(
            TypeNode::Component,
        )),
        TypeNode::Instance(nodes) => Ok(simplify_declarations(finder, nodes)?.map(
            TypeNode::Instance,
        )),
    }
}

// A type, with what is sought made simpler.
fn simplify_type(finder: &mut Finder, node: &TypeNode) -> Simplified<TypeNode>
    ensures ty { let entry = shown_type_node node.now in
        IfOk result (λ r. option_map shown_type_node r ≡ sought (entry_items entry + 1) finder.old.search
        (itself_or (simpler_entry entry) (λ k. entry_simplified k entry)) entry) }
    ensures moved { IfOk result (λ r. IsSome r → finder.new.search
        ≡ past (entry_items (shown_type_node node.now) + 1) finder.old.search) }
{
    if finder.search.step() {
        return Ok(simpler_type(node));
    }
    simplify_inside(finder, node)
}

/// Types in order, with what is sought made simpler.
pub(crate) fn simplify_types(finder: &mut Finder, nodes: &[TypeNode]) -> Simplified<Vec<TypeNode>>
    ensures types { let entries = map shown_type_node nodes.now in
        IfOk result (λ r. option_map (λ v. map shown_type_node v.items) r
        ≡ sought (row_items entry_items entries) finder.old.search (λ k. types_simplified k entries) entries) }
    ensures moved { IfOk result (λ r. IsSome r → finder.new.search
        ≡ past (row_items entry_items (map shown_type_node nodes.now)) finder.old.search) }
{
    let mut types = Vec::new(finder.alloc);
    for node in nodes {
        let Some(ty) = simplify_type(finder, node)? else {
            return Ok(None);
        };
        types.push(ty)?;
    }
    Ok(Some(types))
}

// Adds the names that a declaration imports and exports.
#[tactic(auto, using(smith_read::proofs::ShownNodes::shown_nodes))]
fn add_names(taken: &mut Taken, alloc: Global, node: &DeclNode) -> Result<(), AllocError>
    ensures { (is es : List (List ℕ)) → KnowsBoth taken.old is es → OnOk result (KnowsBoth taken.new
        (is ++ names (import_of (shown_decl_node node.now))) (es ++ names (export_of (shown_decl_node node.now)))) }
{
    match node {
        DeclNode::Import { name, .. } => taken.imports.add(alloc, name.as_str()),
        DeclNode::Export { name, .. } => taken.exports.add(alloc, name.as_str()),
        _ => Ok(()),
    }
}

// The names that declarations import and export.
fn take_declared_names(alloc: Global, nodes: &[DeclNode]) -> Result<Taken, AllocError>
    ensures { let decls = in_order (map shown_decl_node nodes.now) in
        IfOk result (λ t. KnowsBoth t (names (decl_imports decls)) (names (decl_exports decls))) }
{
    let mut taken = Taken::new(alloc);
    for node in nodes {
        add_names(&mut taken, alloc, node)?;
    }
    Ok(taken)
}

// The declaration itself made simpler, among these.
#[tactic(auto, using(smith_read::proofs::ShownNodes::shown_nodes))]
fn simpler_declaration(alloc: Global, node: &DeclNode, scope: &[DeclNode]) -> Simplified<DeclNode>
    ensures { let decls = in_order (map shown_decl_node scope.now) in
        IfOk result (λ r. option_map shown_decl_node r
        ≡ simpler_decl (names (decl_imports decls)) (names (decl_exports decls)) (shown_decl_node node.now)) }
{
    match node {
        DeclNode::Type(ty) => Ok(simpler_type(ty).map(DeclNode::Type)),
        DeclNode::Import { name, to } => {
            let known = take_declared_names(alloc, scope)?.imports;
            let name = known.shorter_name(alloc, name.as_str())?;
            Ok(name.map(|name| DeclNode::Import { name, to: *to }))
        }
        DeclNode::Export { name, to } => {
            let known = take_declared_names(alloc, scope)?.exports;
            let name = known.shorter_name(alloc, name.as_str())?;
            Ok(name.map(|name| DeclNode::Export { name, to: *to }))
        }
        DeclNode::Core(_) | DeclNode::TypeAlias { .. } | DeclNode::CoreTypeAlias { .. } => Ok(None),
    }
}

// What is sought inside a declaration made simpler.
#[cycle(simplifying)]
#[tactic(auto, using(smith_read::proofs::ShownNodes::shown_nodes, crate::proofs::Still::decls_still))]
fn simplify_inside_declaration(finder: &mut Finder, node: &DeclNode) -> Simplified<DeclNode>
    ensures declaration { IfOk result (λ r. option_map shown_decl_node r
        ≡ sought (decl_items (shown_decl_node node.now)) finder.old.search
        (λ k. decl_simplified k (shown_decl_node node.now)) (shown_decl_node node.now)) }
    ensures moved { IfOk result (λ r. IsSome r → finder.new.search
        ≡ past (decl_items (shown_decl_node node.now)) finder.old.search) }
{
    match node {
        DeclNode::Core(ty) => Ok(copy_core_type(finder, ty)?.map(DeclNode::Core)),
        DeclNode::Type(ty) => Ok(simplify_inside(finder, ty)?.map(DeclNode::Type)),
        DeclNode::TypeAlias { .. }
        | DeclNode::CoreTypeAlias { .. }
        | DeclNode::Import { .. }
        | DeclNode::Export { .. } => edit_declaration(&mut Walk::still(finder.alloc), node),
    }
}

// A declaration among these, with what is sought made simpler.
#[cycle(simplifying)]
fn simplify_declaration(
    finder: &mut Finder,
    node: &DeclNode,
    scope: &[DeclNode],
) -> Simplified<DeclNode>
    ensures declaration { let decls = in_order (map shown_decl_node scope.now) in
        let decl = shown_decl_node node.now in IfOk result (λ r. option_map shown_decl_node r
        ≡ sought (decl_items decl + 1) finder.old.search (itself_or (simpler_decl (names (decl_imports decls))
        (names (decl_exports decls)) decl) (λ k. decl_simplified k decl)) decl) }
    ensures moved { IfOk result (λ r. IsSome r → finder.new.search
        ≡ past (decl_items (shown_decl_node node.now) + 1) finder.old.search) }
{
    if finder.search.step() {
        return simpler_declaration(finder.alloc, node, scope);
    }
    simplify_inside_declaration(finder, node)
}

// Declarations in order, with what is sought made simpler.
#[cycle(simplifying)]
fn simplify_declarations(finder: &mut Finder, nodes: &[DeclNode]) -> Simplified<Vec<DeclNode>>
    ensures declarations { let decls = in_order (map shown_decl_node nodes.now) in
        IfOk result (λ r. option_map (λ v. in_order (map shown_decl_node v.items)) r
        ≡ sought (decls_items decls) finder.old.search
        (λ k. decls_simplified (names (decl_imports decls)) (names (decl_exports decls)) k decls) decls) }
    ensures moved { IfOk result (λ r. IsSome r → finder.new.search
        ≡ past (decls_items (in_order (map shown_decl_node nodes.now))) finder.old.search) }
{
    let mut declarations = Vec::new(finder.alloc);
    for node in nodes {
        let Some(declaration) = simplify_declaration(finder, node, nodes)? else {
            return Ok(None);
        };
        declarations.push(declaration)?;
    }
    Ok(Some(declarations))
}
