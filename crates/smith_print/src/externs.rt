//! Canonical functions, imports and exports as text.

ghost use Rattle.std.specs.Prelude.{◌≡◌, ◌++◌, IfOk};
ghost use Rattle.smith_print.specs.Externs.{bound_of, canon_text, export_text, import_text, sort_of, type_of};
ghost use Rattle.smith_print.specs.Printing.{Prints};
ghost use Rattle.smith_print.specs.Spaces.{after_canon, after_extern, extern_index};
ghost use Rattle.smith_tree.specs.Shown.{shown_canon};
ghost use Rattle.smith_tree.specs.Tree.{lift, lower};

use crate::spaces::{IndexSpaces, next};
use crate::words::Quoted;
use smith_syntax::ComponentTypeRef;
use smith_tree::Func;
use std::alloc::AllocError;

fn sort_of(to: ComponentTypeRef) -> &'static str
    ensures { result.now ≡ sort_of to }
{
    match to {
        ComponentTypeRef::Module(_) => "core module",
        ComponentTypeRef::Func(_) => "func",
        ComponentTypeRef::TypeEq(_) => "type",
        ComponentTypeRef::Component(_) => "component",
        ComponentTypeRef::Instance(_) => "instance",
    }
}

fn bound_of(to: ComponentTypeRef) -> &'static str
    ensures { result.now ≡ bound_of to }
{
    match to {
        ComponentTypeRef::TypeEq(_) => "eq ",
        _ => "type ",
    }
}

fn type_of(to: ComponentTypeRef) -> u32
    ensures { result ≡ type_of to }
{
    match to {
        ComponentTypeRef::Module(ty)
        | ComponentTypeRef::Func(ty)
        | ComponentTypeRef::TypeEq(ty)
        | ComponentTypeRef::Component(ty)
        | ComponentTypeRef::Instance(ty) => ty,
    }
}

fn next_extern(spaces: &mut IndexSpaces, to: ComponentTypeRef) -> Result<usize, AllocError>
    ensures index { IfOk result (λ n. n ≡ extern_index to spaces.old) }
    ensures indexes { IfOk result (λ _. spaces.new ≡ after_extern to spaces.old) }
{
    match to {
        ComponentTypeRef::Module(_) => next(&mut spaces.modules),
        ComponentTypeRef::Func(_) => next(&mut spaces.functions),
        ComponentTypeRef::TypeEq(_) => next(&mut spaces.types),
        ComponentTypeRef::Component(_) => next(&mut spaces.components),
        ComponentTypeRef::Instance(_) => next(&mut spaces.instances),
    }
}

/// Prints an import.
pub(crate) fn print_import(
    out: &mut String,
    spaces: &mut IndexSpaces,
    name: &str,
    to: ComponentTypeRef,
) -> Result<(), AllocError>
    ensures printed { Prints result out.old out.new (import_text name.now to spaces.old) }
    ensures indexes { IfOk result (λ _. spaces.new ≡ after_extern to spaces.old) }
{
    let index = next_extern(spaces, to)?;
    let name = Quoted(name.as_bytes());
    let (sort, bound, ty) = (sort_of(to), bound_of(to), type_of(to));
    write!(out, "(import {name} ({sort} (;{index};) ({bound}{ty})))")
}

/// Prints an export of a type.
pub(crate) fn print_export(
    out: &mut String,
    spaces: &mut IndexSpaces,
    name: &str,
    to: ComponentTypeRef,
) -> Result<(), AllocError>
    ensures printed { Prints result out.old out.new (export_text name.now to spaces.old) }
    ensures indexes { IfOk result (λ _. spaces.new ≡ after_extern to spaces.old) }
{
    let index = next_extern(spaces, to)?;
    let name = Quoted(name.as_bytes());
    let (sort, bound, ty) = (sort_of(to), bound_of(to), type_of(to));
    write!(out, "(export (;{index};) {name} ({sort} ({bound}{ty})))")
}

fn print_lift(
    out: &mut String,
    spaces: &mut IndexSpaces,
    core_func: u32,
    ty: u32,
) -> Result<(), AllocError>
    ensures printed { Prints result out.old out.new (canon_text (lift core_func ty) spaces.old) }
    ensures indexes { IfOk result (λ _. spaces.new ≡ after_canon (lift core_func ty) spaces.old) }
{
    let index = next(&mut spaces.functions)?;
    write!(
        out,
        "(func (;{index};) (type {ty}) (canon lift (core func {core_func})))"
    )
}

fn print_lower(out: &mut String, spaces: &mut IndexSpaces, func: u32) -> Result<(), AllocError>
    ensures printed { Prints result out.old out.new (canon_text (lower func) spaces.old) }
    ensures indexes { IfOk result (λ _. spaces.new ≡ after_canon (lower func) spaces.old) }
{
    let index = next(&mut spaces.core_functions)?;
    write!(out, "(core func (;{index};) (canon lower (func {func})))")
}

/// Prints a canonical function.
pub(crate) fn print_canon(
    out: &mut String,
    spaces: &mut IndexSpaces,
    canon: &Func,
) -> Result<(), AllocError>
    ensures printed { Prints result out.old out.new (canon_text (shown_canon canon.now) spaces.old) }
    ensures indexes { IfOk result (λ _. spaces.new ≡ after_canon (shown_canon canon.now) spaces.old) }
{
    match canon {
        Func::CanonLift {
            core_func_index,
            func_ty,
        } => print_lift(out, spaces, *core_func_index, *func_ty),
        Func::CanonLower { func_index } => print_lower(out, spaces, *func_index),
    }
}
