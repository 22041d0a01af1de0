//! Which types fit limits.
#![tactic(auto, using(crate::proofs::Loops::one_has, crate::proofs::Loops::all_have))]

ghost use Rattle.std.specs.Prelude.{◌≡◌, ◌+◌, ◌≤◌, true, IfOk, length, map};
ghost use Rattle.smith_syntax.specs.Entries.{decl_count, in_order};
ghost use Rattle.smith_syntax.specs.Shown.{shown_defined};
ghost use Rattle.smith_tree.specs.TypeNeeds.{cost, decl_cost, decls_cost, decl_declaring, declaring, decls_declaring};
ghost use Rattle.smith_read.specs.TypeNodes.{shown_decl_node, shown_type_node};
ghost use Rattle.smith_reduce.specs.Fits.{AreShort, FitsDecl, FitsDecls, FitsEntry, labels};

use super::core_types::fits_core;
use smith_format::Config;
use smith_input::Labelled;
use smith_read::{DeclNode, TypeNode};
use smith_script_types::{core_size, defined_size};
use smith_syntax::{DefinedType, FuncType};
use std::alloc::AllocError;

/// Can a name be read as it is?
pub(super) fn is_short(config: &Config, name: &str) -> bool
    ensures { result ≡ true → length name.now ≤ config.now.max_name_length }
{
    name.len() <= config.max_name_length
}

/// Can the names of these be read as they are?
pub(super) fn are_short<T: Labelled>(config: &Config, items: &[T]) -> bool
    ensures { result ≡ true → AreShort config.now (map T.text items.now) }
{
    for item in items {
        if !is_short(config, item.label()) {
            return false;
        }
    }
    true
}

// Can the names within a type of values?
#[tactic(auto, using(crate::proofs::Loops::all_named))]
fn has_short_labels(config: &Config, ty: &DefinedType) -> bool
    ensures { result ≡ true → AreShort config.now (labels (shown_defined ty.now)) }
{
    match ty {
        DefinedType::Record(ty) => are_short(config, &ty.fields),
        DefinedType::Variant(ty) => are_short(config, &ty.cases),
        DefinedType::Flags(ty) => are_short(config, &ty.fields),
        DefinedType::Enum(ty) => are_short(config, &ty.variants),
        DefinedType::Primitive(_)
        | DefinedType::List(_)
        | DefinedType::Tuple(_)
        | DefinedType::Option(_)
        | DefinedType::Result(_) => true,
    }
}

// Can the names of the parameters?
#[tactic(auto, using(crate::proofs::Loops::all_named))]
fn has_short_params(config: &Config, ty: &FuncType) -> bool
    ensures { result ≡ true → AreShort config.now (map (λ p. p.0) ty.now.params) }
{
    are_short(config, &ty.params)
}

/// Does a type fit the limits, and does it declare types at most so deep below the innermost scope?
#[cycle(types)]
#[tactic(auto, using(smith_read::proofs::ShownNodes::shown_nodes))]
pub(super) fn fits_type(config: &Config, ty: &TypeNode, room: usize) -> bool
    ensures fits { result ≡ true → FitsEntry config.now (shown_type_node ty.now) }
    ensures depth { result ≡ true → declaring (shown_type_node ty.now) ≤ room }
{
    match ty {
        TypeNode::Defined(ty) => has_short_labels(config, ty),
        TypeNode::Func(ty) => has_short_params(config, ty),
        TypeNode::Component(decls) | TypeNode::Instance(decls) => {
            fits_decls(config, decls, room)
        }
    }
}

#[cycle(types)]
#[tactic(auto, using(smith_read::proofs::ShownNodes::shown_nodes))]
fn fits_decl(config: &Config, decl: &DeclNode, room: usize) -> bool
    ensures fits { result ≡ true → FitsDecl config.now (shown_decl_node decl.now) }
    ensures depth { result ≡ true → decl_declaring (shown_decl_node decl.now) ≤ room }
{
    match decl {
        DeclNode::Core(ty) => fits_core(config, ty),
        DeclNode::Type(ty) => room >= 2 && fits_type(config, ty, room - 1),
        DeclNode::TypeAlias { .. } | DeclNode::CoreTypeAlias { .. } => true,
        DeclNode::Import { name, .. } | DeclNode::Export { name, .. } => is_short(config, name),
    }
}

#[cycle(types)]
#[tactic(auto, using(crate::proofs::Loops::few_decls))]
fn fits_decls(config: &Config, decls: &[DeclNode], room: usize) -> bool
    ensures few { result ≡ true → decl_count (in_order (map shown_decl_node decls.now)) ≤ 100 }
    ensures fits { result ≡ true → FitsDecls config.now (in_order (map shown_decl_node decls.now)) }
    ensures depth { result ≡ true → decls_declaring (in_order (map shown_decl_node decls.now)) ≤ room }
{
    if decls.len() > 100 {
        return false;
    }
    for decl in decls {
        if !fits_decl(config, decl, room) {
            return false;
        }
    }
    true
}

fn sum(one: usize, other: usize) -> Result<usize, AllocError>
    ensures { IfOk result (λ n. n ≡ one + other) }
{
    one.checked_add(other).ok_or(AllocError)
}

/// How much fuel a type takes.
#[cycle(costs)]
pub(super) fn type_cost(ty: &TypeNode) -> Result<usize, AllocError>
    ensures { IfOk result (λ n. n ≡ cost (shown_type_node ty.now)) }
{
    let inside = match ty {
        TypeNode::Defined(ty) => defined_size(ty),
        TypeNode::Func(ty) => sum(ty.params.len(), usize::from(ty.result.is_some()))?,
        TypeNode::Component(decls) | TypeNode::Instance(decls) => decls_cost(decls)?,
    };
    sum(inside, 1)
}

#[cycle(costs)]
fn decl_cost(decl: &DeclNode) -> Result<usize, AllocError>
    ensures { IfOk result (λ n. n ≡ decl_cost (shown_decl_node decl.now)) }
{
    match decl {
        DeclNode::Core(ty) => sum(core_size(ty), 1),
        DeclNode::Type(ty) => type_cost(ty),
        DeclNode::TypeAlias { .. }
        | DeclNode::CoreTypeAlias { .. }
        | DeclNode::Import { .. }
        | DeclNode::Export { .. } => Ok(0),
    }
}

#[cycle(costs)]
fn decls_cost(decls: &[DeclNode]) -> Result<usize, AllocError>
    ensures { IfOk result (λ n. n ≡ decls_cost (in_order (map shown_decl_node decls.now))) }
{
    let mut cost = 0;
    for decl in decls {
        cost = sum(sum(cost, decl_cost(decl)?)?, 1)?;
    }
    Ok(cost)
}
