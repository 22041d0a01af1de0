//! Types, and what types of components and instances declare.

ghost use Rattle.std.specs.Prelude.{◌≡◌, ◌==◌, true, None, length, map, IfOk, IsSome, option_map};
ghost use Rattle.smith_syntax.specs.Entries.{Decl, Entry, component_type, core_type_alias, export_decl, import_decl};
ghost use Rattle.smith_syntax.specs.Entries.{in_order, instance_type, type_alias};
ghost use Rattle.smith_syntax.specs.WellFormed.{decl_imports};
ghost use Rattle.smith_read.specs.TypeNodes.{shown_decl_node, shown_type_node};
ghost use Rattle.smith_change.specs.Alternatives as table;
ghost use Rattle.smith_change.specs.Owners.{may_import};
ghost use Rattle.smith_change.specs.Rows as rows;
ghost use Rattle.smith_read.specs.Search.{past, sought};
ghost use Rattle.smith_change.specs.Types as types;

use crate::alternatives::only;
use crate::change::{Change, Changed};
use crate::copies::{copy_declaration, copy_declarations, copy_type};
use crate::core_types::change_outer;
use crate::externs::change_extern;
use crate::members::{change_defined, change_signature};
use crate::rows::{Entry, Row, again_name, change_entry, named};
use smith_read::{DeclNode, Search, TypeNode};
use smith_syntax::ComponentTypeRef;
use std::alloc::{AllocError, Global};

/// Whose declarations they are.
#[derive(Clone, Copy, PartialEq, Eq)]
pub(crate) enum Owner {
    Component,
    Instance,
}

// Is none of these an import?
#[tactic(auto, using(smith_read::proofs::ShownNodes::shown_nodes, crate::proofs::Declared::imports))]
fn import_nothing(nodes: &[DeclNode]) -> bool
    ensures { result ≡ (length (decl_imports (in_order (map shown_decl_node nodes.now))) == 0) }
{
    for node in nodes {
        if let DeclNode::Import { .. } = node {
            return false;
        }
    }
    true
}

impl Entry for DeclNode {
    ghost Shown = { Decl };

    ghost shown = { shown_decl_node };

    ghost places = { types.decl_places };

    ghost changes = { types.decl_changed true };

    ghost again = { types.decl_again };

    ghost fresh = { λ n. None };

    fn copied(&self, alloc: Global) -> Result<DeclNode, AllocError> {
        copy_declaration(alloc, self)
    }

    #[tactic(auto, using(smith_read::proofs::ShownNodes::shown_nodes))]
    fn renamed(&self, alloc: Global) -> Changed<DeclNode> {
        match self {
            DeclNode::Import { to, .. } => Ok(Some(DeclNode::Import {
                name: again_name(alloc)?,
                to: *to,
            })),
            DeclNode::Export { to, .. } => Ok(Some(DeclNode::Export {
                name: again_name(alloc)?,
                to: *to,
            })),
            DeclNode::Core(_)
            | DeclNode::Type(_)
            | DeclNode::TypeAlias { .. }
            | DeclNode::CoreTypeAlias { .. } => Ok(None),
        }
    }

    fn fresh(_alloc: Global, _number: usize) -> Changed<DeclNode> {
        Ok(None)
    }
}

impl Entry for TypeNode {
    ghost Shown = { Entry };

    ghost shown = { shown_type_node };

    ghost places = { types.entry_places };

    ghost changes = { types.entry_changed };

    ghost again = { rows.unnamed };

    ghost fresh = { λ n. None };

    fn copied(&self, alloc: Global) -> Result<TypeNode, AllocError> {
        copy_type(alloc, self)
    }

    fn renamed(&self, _alloc: Global) -> Changed<TypeNode> {
        Ok(None)
    }

    fn fresh(_alloc: Global, _number: usize) -> Changed<TypeNode> {
        Ok(None)
    }
}

impl Row for TypeNode {
    fn changed(&self, change: Change, search: &mut Search) -> Changed<TypeNode> {
        change_type(change, search, self)
    }
}

// The type of an instance with these declarations, in place of a component's.
fn as_instance(change: Change, nodes: &[DeclNode]) -> Changed<TypeNode>
    ensures { let decls = in_order (map shown_decl_node nodes.now) in IfOk result (λ r. option_map shown_type_node r
        ≡ types.without_imports decls (table.only change.alternative (instance_type decls))) }
{
    if !import_nothing(nodes) {
        return Ok(None);
    }
    let nodes = copy_declarations(change.alloc, nodes)?;
    Ok(only(change.alternative, TypeNode::Instance(nodes)))
}

// The type of a component with these declarations, in place of an instance's.
fn as_component(change: Change, nodes: &[DeclNode]) -> Changed<TypeNode>
    ensures { let decls = in_order (map shown_decl_node nodes.now) in IfOk result (λ r. option_map shown_type_node r
        ≡ table.only change.alternative (component_type decls)) }
{
    let nodes = copy_declarations(change.alloc, nodes)?;
    Ok(only(change.alternative, TypeNode::Component(nodes)))
}

#[cycle(changing)]
#[tactic(auto, using(smith_read::proofs::ShownNodes::shown_nodes))]
pub(crate) fn change_type(change: Change, search: &mut Search, node: &TypeNode) -> Changed<TypeNode>
    ensures ty { let entry = shown_type_node node.now in IfOk result (λ r. option_map shown_type_node r
        ≡ sought (types.entry_places entry) search.old (λ k. types.entry_changed change.alternative k entry) entry) }
    ensures moved { IfOk result (λ r. IsSome r
        → search.new ≡ past (types.entry_places (shown_type_node node.now)) search.old) }
{
    match node {
        TypeNode::Defined(ty) => Ok(change_defined(change, search, ty)?.map(TypeNode::Defined)),
        TypeNode::Func(ty) => Ok(change_signature(change, search, ty)?.map(TypeNode::Func)),
        TypeNode::Component(nodes) => {
            if search.step() {
                return as_instance(change, nodes);
            }
            let nodes = change_declarations(change, search, Owner::Component, nodes)?;
            Ok(nodes.map(TypeNode::Component))
        }
        TypeNode::Instance(nodes) => {
            if search.step() {
                return as_component(change, nodes);
            }
            let nodes = change_declarations(change, search, Owner::Instance, nodes)?;
            Ok(nodes.map(TypeNode::Instance))
        }
    }
}

// An outer alias of a core type in place of one of a type, or with another count or index.
fn change_type_alias(
    change: Change,
    search: &mut Search,
    count: u32,
    index: u32,
) -> Option<DeclNode>
    ensures declaration { let decl = type_alias count index tt in option_map shown_decl_node result
        ≡ sought 3 search.old (λ k. types.decl_changed true change.alternative k decl) decl }
    ensures moved { IsSome result → search.new ≡ past 3 search.old }
{
    if search.step() {
        return only(change.alternative, DeclNode::CoreTypeAlias { count, index });
    }
    let (count, index) = change_outer(change, search, count, index)?;
    Some(DeclNode::TypeAlias { count, index })
}

// An outer alias of a type in place of one of a core type, or with another count or index.
fn change_core_alias(
    change: Change,
    search: &mut Search,
    count: u32,
    index: u32,
) -> Option<DeclNode>
    ensures declaration { let decl = core_type_alias count index tt in option_map shown_decl_node result
        ≡ sought 3 search.old (λ k. types.decl_changed true change.alternative k decl) decl }
    ensures moved { IsSome result → search.new ≡ past 3 search.old }
{
    if search.step() {
        return only(change.alternative, DeclNode::TypeAlias { count, index });
    }
    let (count, index) = change_outer(change, search, count, index)?;
    Some(DeclNode::CoreTypeAlias { count, index })
}

// What only a component has.
fn of_component(owner: Owner, alternative: usize, node: DeclNode) -> Option<DeclNode>
    ensures { option_map shown_decl_node result
        ≡ types.importing_alone (may_import owner) (table.only alternative (shown_decl_node node)) }
{
    if owner == Owner::Instance {
        return None;
    }
    only(alternative, node)
}

fn change_import(
    change: Change,
    search: &mut Search,
    owner: Owner,
    name: &str,
    to: ComponentTypeRef,
) -> Changed<DeclNode>
    ensures declaration { let decl = import_decl name.now tt to in IfOk result (λ r. option_map shown_decl_node r
        ≡ sought 4 search.old (λ k. types.decl_changed (may_import owner) change.alternative k decl) decl) }
    ensures moved { IfOk result (λ r. IsSome r → search.new ≡ past 4 search.old) }
{
    if search.step() {
        let name = named(change.alloc, name)?;
        let export = DeclNode::Export { name, to };
        return Ok(of_component(owner, change.alternative, export));
    }
    let entry = change_extern(change, search, name, to)?;
    Ok(entry.map(|(name, to)| DeclNode::Import { name, to }))
}

fn change_export(
    change: Change,
    search: &mut Search,
    owner: Owner,
    name: &str,
    to: ComponentTypeRef,
) -> Changed<DeclNode>
    ensures declaration { let decl = export_decl name.now tt to in IfOk result (λ r. option_map shown_decl_node r
        ≡ sought 4 search.old (λ k. types.decl_changed (may_import owner) change.alternative k decl) decl) }
    ensures moved { IfOk result (λ r. IsSome r → search.new ≡ past 4 search.old) }
{
    if search.step() {
        let name = named(change.alloc, name)?;
        let import = DeclNode::Import { name, to };
        return Ok(of_component(owner, change.alternative, import));
    }
    let entry = change_extern(change, search, name, to)?;
    Ok(entry.map(|(name, to)| DeclNode::Export { name, to }))
}

#[cycle(changing)]
#[tactic(auto, using(smith_read::proofs::ShownNodes::shown_nodes))]
fn change_declaration(
    change: Change,
    search: &mut Search,
    owner: Owner,
    node: &DeclNode,
) -> Changed<DeclNode>
    ensures declaration { let decl = shown_decl_node node.now in IfOk result (λ r. option_map shown_decl_node r
        ≡ sought (types.decl_places decl) search.old
        (λ k. types.decl_changed (may_import owner) change.alternative k decl) decl) }
    ensures moved { IfOk result (λ r. IsSome r
        → search.new ≡ past (types.decl_places (shown_decl_node node.now)) search.old) }
{
    match node {
        DeclNode::Core(ty) => Ok(ty.changed(change, search)?.map(DeclNode::Core)),
        DeclNode::Type(ty) => Ok(change_type(change, search, ty)?.map(DeclNode::Type)),
        DeclNode::TypeAlias { count, index } => {
            Ok(change_type_alias(change, search, *count, *index))
        }
        DeclNode::CoreTypeAlias { count, index } => {
            Ok(change_core_alias(change, search, *count, *index))
        }
        DeclNode::Import { name, to } => change_import(change, search, owner, name.as_str(), *to),
        DeclNode::Export { name, to } => change_export(change, search, owner, name.as_str(), *to),
    }
}

#[cycle(changing)]
fn change_declarations(
    change: Change,
    search: &mut Search,
    owner: Owner,
    nodes: &[DeclNode],
) -> Changed<Vec<DeclNode>>
    ensures declarations { let decls = in_order (map shown_decl_node nodes.now) in
        IfOk result (λ r. option_map (λ v. in_order (map shown_decl_node v.items)) r
        ≡ sought (types.decls_places decls) search.old
        (λ k. types.decls_changed (may_import owner) change.alternative k decls) decls) }
    ensures moved { IfOk result (λ r. IsSome r
        → search.new ≡ past (types.decls_places (in_order (map shown_decl_node nodes.now))) search.old) }
{
    let mut done = Vec::new(change.alloc);
    for (index, node) in nodes.iter().enumerate() {
        if search.step() {
            return change_entry(change, done, &nodes[index..]);
        }
        let Some(declaration) = change_declaration(change, search, owner, node)? else {
            return Ok(None);
        };
        done.push(declaration)?;
    }
    Ok(Some(done))
}
