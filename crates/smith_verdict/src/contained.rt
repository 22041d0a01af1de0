//! Whether a component that was read has concrete references among its core types, and whether it keeps bounds of
//! wasmparser that no demand speaks of.

ghost use Rattle.std.specs.Prelude.{◌≡◌, IfErr, IfOk, map};
ghost use Rattle.std.specs.List.{AllByRecursion};
ghost use Rattle.smith_format.specs.Shown.{shown_func};
ghost use Rattle.smith_syntax.specs.Entries.{function, in_order};
ghost use Rattle.smith_syntax.specs.Shown.{shown_defined};
ghost use Rattle.smith_read.specs.Nodes.{shown_core_node, shown_module_node};
ghost use Rattle.smith_read.specs.PartNodes.{shown_tree};
ghost use Rattle.smith_read.specs.TypeNodes.{shown_decl_node, shown_type_node};
ghost use Rattle.smith_read.specs.Walk.{items_at, shown_step};
ghost use Rattle.smith_check.specs.Judges.{Decides};
ghost use Rattle.smith_verdict.specs.Contained.{IsPlain, IsPlainContent, IsPlainEntity, IsPlainRef};
ghost use Rattle.smith_verdict.specs.Contained.{IsWithinBounds, OfCore, OfDecl, OfModuleDecl, OfDecls, OfDefined};
ghost use Rattle.smith_verdict.specs.Contained.{OfEntry, OfNames, core_function, entity, module_type, text};
ghost use Rattle.smith_verdict.specs.Shows.{IsContained, OfStep, Shows};

use smith_format::{EntityType, FuncType as CoreFuncType, RefType, ValType};
use smith_input::Labelled;
use smith_read::{ComponentTree, CoreNode, DeclNode, ModuleNode, Step, Steps, TypeNode};
use smith_syntax::{DefinedType, FuncType};
use std::alloc::{AllocError, Global};

/// What a component contains, and the number of the item in which it was found.
#[derive(Clone, Copy)]
pub(crate) enum Contained {
    /// No concrete reference, and nothing beyond a bound.
    Plain,
    /// A concrete reference, in a core type.
    Reference(usize),
    /// Something beyond a bound.
    TooMuch(usize),
}

// What is found: a concrete reference, or something beyond a bound.
#[derive(Clone, Copy)]
enum Found {
    Reference,
    TooMuch,
}

type Checked = Result<(), Found>;

fn check_text(name: &str) -> Checked
    ensures plain { Shows Found.Reference result (IsPlainContent (text name.now)) }
    ensures bounded { Shows Found.TooMuch result (IsWithinBounds (text name.now)) }
{
    if name.len() > 100_000 {
        return Err(Found::TooMuch);
    }
    Ok(())
}

// Checks the names of members, parameters or flags.
fn check_texts<T: Labelled>(items: &[T]) -> Checked
    ensures plain { Shows Found.Reference result (OfNames IsPlainContent (map T.text items.now)) }
    ensures bounded { Shows Found.TooMuch result (OfNames IsWithinBounds (map T.text items.now)) }
{
    for item in items {
        check_text(item.label())?;
    }
    Ok(())
}

fn is_plain_ref(ty: RefType) -> bool
    ensures { Decides result (IsPlainRef ty) }
{
    match ty {
        RefType::FuncRef | RefType::ExternRef => true,
        RefType::Concrete { .. } => false,
    }
}

fn is_plain(ty: ValType) -> bool
    ensures { Decides result (IsPlain ty) }
{
    match ty {
        ValType::Ref(ty) => is_plain_ref(ty),
        ValType::I32 | ValType::I64 | ValType::F32 | ValType::F64 | ValType::V128 => true,
    }
}

pub(crate) fn are_plain(types: &[ValType]) -> bool
    ensures { Decides result (AllByRecursion IsPlain types.now) }
{
    for ty in types {
        if !is_plain(*ty) {
            return false;
        }
    }
    true
}

fn check_core_function(ty: &CoreFuncType) -> Checked
    ensures plain { Shows Found.Reference result (IsPlainContent (core_function (shown_func ty.now))) }
    ensures bounded { Shows Found.TooMuch result (IsWithinBounds (core_function (shown_func ty.now))) }
{
    if ty.params.len() > 1_000 || ty.results.len() > 1_000 {
        return Err(Found::TooMuch);
    }
    if are_plain(&ty.params) && are_plain(&ty.results) {
        return Ok(());
    }
    Err(Found::Reference)
}

fn is_plain_entity(entity: EntityType) -> bool
    ensures { Decides result (IsPlainEntity entity) }
{
    match entity {
        EntityType::Table(table) => is_plain_ref(table.element_type),
        EntityType::Global(global) => is_plain(global.val_type),
        EntityType::Func(_) | EntityType::Memory(_) | EntityType::Tag(_) => true,
    }
}

// Checks what a module type imports or exports.
fn check_entity(ty: EntityType) -> Checked
    ensures plain { Shows Found.Reference result (IsPlainContent (entity ty)) }
    ensures bounded { Shows Found.TooMuch result (IsWithinBounds (entity ty)) }
{
    if is_plain_entity(ty) {
        return Ok(());
    }
    Err(Found::Reference)
}

fn check_module_decl(decl: &ModuleNode) -> Checked
    ensures plain { Shows Found.Reference result (OfModuleDecl IsPlainContent (shown_module_node decl.now)) }
    ensures bounded { Shows Found.TooMuch result (OfModuleDecl IsWithinBounds (shown_module_node decl.now)) }
{
    match decl {
        ModuleNode::Func(ty) => check_core_function(ty),
        ModuleNode::Import {
            module,
            name,
            entity,
        } => {
            check_text(module)?;
            check_text(name)?;
            check_entity(*entity)
        }
        ModuleNode::OuterAlias { .. } => Ok(()),
        ModuleNode::Export { name, entity } => {
            check_text(name)?;
            check_entity(*entity)
        }
    }
}

fn check_module_decls(decls: &[ModuleNode]) -> Checked
    ensures plain { Shows Found.Reference result
        (AllByRecursion (OfModuleDecl IsPlainContent) (map shown_module_node decls.now)) }
    ensures bounded { Shows Found.TooMuch result
        (AllByRecursion (OfModuleDecl IsWithinBounds) (map shown_module_node decls.now)) }
{
    for decl in decls {
        check_module_decl(decl)?;
    }
    Ok(())
}

fn check_module(decls: &[ModuleNode]) -> Checked
    ensures plain { Shows Found.Reference result
        (IsPlainContent (module_type (map shown_module_node decls.now))
        × AllByRecursion (OfModuleDecl IsPlainContent) (map shown_module_node decls.now)) }
    ensures bounded { Shows Found.TooMuch result
        (IsWithinBounds (module_type (map shown_module_node decls.now))
        × AllByRecursion (OfModuleDecl IsWithinBounds) (map shown_module_node decls.now)) }
{
    if decls.len() > 100_000 {
        return Err(Found::TooMuch);
    }
    check_module_decls(decls)
}

fn check_core(ty: &CoreNode) -> Checked
    ensures plain { Shows Found.Reference result (OfCore IsPlainContent (shown_core_node ty.now)) }
    ensures bounded { Shows Found.TooMuch result (OfCore IsWithinBounds (shown_core_node ty.now)) }
{
    match ty {
        CoreNode::Func(ty) => check_core_function(ty),
        CoreNode::Module(decls) => check_module(decls),
    }
}

fn check_defined(ty: &DefinedType) -> Checked
    ensures plain { Shows Found.Reference result (OfDefined IsPlainContent (shown_defined ty.now)) }
    ensures bounded { Shows Found.TooMuch result (OfDefined IsWithinBounds (shown_defined ty.now)) }
{
    match ty {
        DefinedType::Record(ty) => check_texts(&ty.fields),
        DefinedType::Variant(ty) => check_texts(&ty.cases),
        DefinedType::Flags(ty) => check_texts(&ty.fields),
        DefinedType::Enum(ty) => check_texts(&ty.variants),
        DefinedType::Primitive(_) | DefinedType::List(_) | DefinedType::Tuple(_) => Ok(()),
        DefinedType::Option(_) | DefinedType::Result(_) => Ok(()),
    }
}

fn check_function(ty: &FuncType) -> Checked
    ensures plain { Shows Found.Reference result (OfEntry IsPlainContent (function ty.now)) }
    ensures bounded { Shows Found.TooMuch result (OfEntry IsWithinBounds (function ty.now)) }
{
    check_texts(&ty.params)
}

#[cycle(types)]
#[tactic(auto, using(smith_read::proofs::ShownNodes::shown_nodes))]
fn check_type(ty: &TypeNode) -> Checked
    ensures plain { Shows Found.Reference result (OfEntry IsPlainContent (shown_type_node ty.now)) }
    ensures bounded { Shows Found.TooMuch result (OfEntry IsWithinBounds (shown_type_node ty.now)) }
{
    match ty {
        TypeNode::Defined(ty) => check_defined(ty),
        TypeNode::Func(ty) => check_function(ty),
        TypeNode::Component(decls) => check_decls(decls),
        TypeNode::Instance(decls) => check_decls(decls),
    }
}

// Checks a declaration of a component type or an instance type.
#[cycle(types)]
#[tactic(auto, using(smith_read::proofs::ShownNodes::shown_nodes))]
fn check_decl(decl: &DeclNode) -> Checked
    ensures plain { Shows Found.Reference result (OfDecl IsPlainContent (shown_decl_node decl.now)) }
    ensures bounded { Shows Found.TooMuch result (OfDecl IsWithinBounds (shown_decl_node decl.now)) }
{
    match decl {
        DeclNode::Core(ty) => check_core(ty),
        DeclNode::Type(ty) => check_type(ty),
        DeclNode::TypeAlias { .. } => Ok(()),
        DeclNode::CoreTypeAlias { .. } => Ok(()),
        DeclNode::Import { name, .. } => check_text(name),
        DeclNode::Export { name, .. } => check_text(name),
    }
}

#[cycle(types)]
#[tactic(auto, using(smith_read::proofs::ShownNodes::shown_nodes))]
fn check_decls(decls: &[DeclNode]) -> Checked
    ensures plain { Shows Found.Reference result
        (OfDecls IsPlainContent (in_order (map shown_decl_node decls.now))) }
    ensures bounded { Shows Found.TooMuch result
        (OfDecls IsWithinBounds (in_order (map shown_decl_node decls.now))) }
{
    for decl in decls {
        check_decl(decl)?;
    }
    Ok(())
}

fn check_step(step: Step<'_>) -> Checked
    ensures plain { Shows Found.Reference result (OfStep IsPlainContent (shown_step step.entry)) }
    ensures bounded { Shows Found.TooMuch result (OfStep IsWithinBounds (shown_step step.entry)) }
    ensures item { IfErr result (λ _. items_at (shown_step step.entry) ≡ 1) }
{
    match step {
        Step::Custom(section) => check_text(&section.name),
        Step::CoreType(ty) => check_core(ty),
        Step::Type(ty) => check_type(ty),
        Step::Import(import) => check_text(&import.name),
        Step::Export(export) => check_text(&export.name),
        Step::CoreModule(_) | Step::Begin(_) | Step::End(_) | Step::Canon(_) => Ok(()),
    }
}

/// Whether a component has concrete references, and whether it keeps the bounds: `Plain` exactly if it has none and
/// keeps them. If it does neither, either may be found; the component has the item. An error is returned only if an
/// allocation failed, and says nothing about the component.
///
/// Each item is looked at once. The stack is bounded by how deep types nest, however deep components do.
pub(crate) fn check_contents(
    alloc: Global,
    component: &ComponentTree,
) -> Result<Contained, AllocError>
    ensures { IfOk result (IsContained (shown_tree component.now)) }
{
    let mut steps = Steps::new(alloc, component);
    let mut item: usize = 0;
    while let Some(step) = steps.next()? {
        match check_step(step) {
            Ok(()) => {}
            Err(Found::Reference) => return Ok(Contained::Reference(item)),
            Err(Found::TooMuch) => return Ok(Contained::TooMuch(item)),
        }
        // Memory is exhausted before numbers are.
        item = item.checked_add(step.items()).ok_or(AllocError)?;
    }
    Ok(Contained::Plain)
}
