//! Core types as a text.

use super::walk::Walk;
use super::{Member, show_list};
use smith_core::{EntityType, FuncType, GlobalType, MemoryType, RefType, TableType, ValType};
use smith_print::next;
use smith_read::{CoreNode, ModuleNode};
use smith_stats::core_val_label;
use std::fmt;

fn show_val<W: fmt::Write>(f: &mut fmt::Formatter<W>, ty: ValType) -> fmt::Result {
    match ty {
        ValType::Ref(RefType::Concrete { nullable, index }) => {
            let null = if nullable { "null " } else { "" };
            write!(f, "ref {null}{index}")
        }
        _ => f.write_str(core_val_label(ty)),
    }
}

impl Member for ValType {
    fn show<W: fmt::Write>(&self, f: &mut fmt::Formatter<W>) -> fmt::Result {
        show_val(f, *self)
    }
}

// A function type, and the line's end.
fn show_function<W: fmt::Write>(f: &mut fmt::Formatter<W>, ty: &FuncType) -> fmt::Result {
    show_list(f, "function (", &ty.params)?;
    show_list(f, ") -> (", &ty.results)?;
    writeln!(f, ")")
}

fn show_limits<W: fmt::Write>(
    f: &mut fmt::Formatter<W>,
    minimum: u64,
    maximum: Option<u64>,
) -> fmt::Result {
    match maximum {
        Some(maximum) => write!(f, ", {minimum} to {maximum}"),
        None => write!(f, ", {minimum} or more"),
    }
}

fn show_table<W: fmt::Write>(f: &mut fmt::Formatter<W>, ty: &TableType) -> fmt::Result {
    f.write_str("table of ")?;
    show_val(f, ValType::Ref(ty.element_type))?;
    show_limits(f, ty.minimum, ty.maximum)?;
    f.write_str(if ty.table64 { ", by 64 bits" } else { "" })
}

fn show_memory<W: fmt::Write>(f: &mut fmt::Formatter<W>, ty: &MemoryType) -> fmt::Result {
    f.write_str("memory of pages")?;
    show_limits(f, ty.minimum, ty.maximum)?;
    f.write_str(if ty.shared { ", shared" } else { "" })?;
    f.write_str(if ty.memory64 { ", by 64 bits" } else { "" })
}

fn show_global<W: fmt::Write>(f: &mut fmt::Formatter<W>, ty: &GlobalType) -> fmt::Result {
    f.write_str("global of ")?;
    show_val(f, ty.val_type)?;
    f.write_str(if ty.mutable { ", mutable" } else { "" })
}

// What a module type imports or exports, and the line's end.
fn show_entity<W: fmt::Write>(f: &mut fmt::Formatter<W>, ty: &EntityType) -> fmt::Result {
    match ty {
        EntityType::Func(index) => write!(f, "function of type {index}")?,
        EntityType::Table(ty) => show_table(f, ty)?,
        EntityType::Memory(ty) => show_memory(f, ty)?,
        EntityType::Global(ty) => show_global(f, ty)?,
        EntityType::Tag(ty) => {
            let index = ty.func_type_idx;
            write!(f, "tag of type {index}")?
        }
    }
    writeln!(f)
}

fn show_decl<W: fmt::Write>(
    f: &mut fmt::Formatter<W>,
    walk: &mut Walk<'_>,
    decl: &ModuleNode,
) -> fmt::Result {
    walk.begin_entry(f)?;
    walk.pass_entry::<ModuleNode>()?;
    match decl {
        ModuleNode::Func(ty) => {
            let index = next(&mut walk.spaces.core_types)?;
            write!(f, "type {index}: ")?;
            show_function(f, ty)
        }
        ModuleNode::OuterAlias { count, index } => {
            let own = next(&mut walk.spaces.core_types)?;
            writeln!(
                f,
                "type {own}: outer alias of core type {index}, count {count}"
            )
        }
        ModuleNode::Import {
            module,
            name,
            entity,
        } => {
            write!(f, "import {module:?} {name:?}: ")?;
            show_entity(f, entity)
        }
        ModuleNode::Export { name, entity } => {
            write!(f, "export {name:?}: ")?;
            show_entity(f, entity)
        }
    }
}

/// A core type, which ends the line, and a line for each of its declarations.
pub(crate) fn show_core_type<W: fmt::Write>(
    f: &mut fmt::Formatter<W>,
    walk: &mut Walk<'_>,
    ty: &CoreNode,
) -> fmt::Result {
    let index = next(&mut walk.spaces.core_types)?;
    write!(f, "core type {index}: ")?;
    match ty {
        CoreNode::Func(ty) => {
            walk.pass_entry::<CoreNode>()?;
            show_function(f, ty)
        }
        CoreNode::Module(decls) => {
            writeln!(f, "module")?;
            walk.pass(1);
            let _count = walk.pass_number()?;
            walk.enter()?;
            for decl in decls {
                show_decl(f, walk, decl)?;
            }
            walk.leave();
            Ok(())
        }
    }
}
