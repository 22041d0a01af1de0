//! Core types as text, and what a module type declares.

ghost use Rattle.std.specs.Prelude.{◌≡◌, Some};
ghost use Rattle.smith_format.specs.Shown.{shown_func};
ghost use Rattle.smith_print.specs.CoreTypes.{core_function_text, core_list_text, core_value_text, entity_text};
ghost use Rattle.smith_print.specs.CoreTypes.{global_text, maximum_text, memory_text, ref_text, shared_text, wide_text};
ghost use Rattle.smith_print.specs.Printing.{Prints};

use crate::members::print_group;
use smith_core::{EntityType, FuncType, GlobalType, MemoryType, RefType, TableType, ValType};
use std::alloc::AllocError;
use std::fmt;

#[derive(Clone, Copy)]
struct Reference(RefType);

impl fmt::Display for Reference {
    ghost output = { λ r. Some (ref_text r.0) };

    fn fmt<W: fmt::Write>(&self, f: &mut fmt::Formatter<W>) -> fmt::Result {
        match self.0 {
            RefType::FuncRef => write!(f, "funcref"),
            RefType::ExternRef => write!(f, "externref"),
            RefType::Concrete { nullable, index } => {
                if nullable {
                    write!(f, "(ref null {index})")
                } else {
                    write!(f, "(ref {index})")
                }
            }
        }
    }
}

/// A core value type.
#[derive(Clone, Copy)]
pub(crate) struct CoreValue(pub(crate) ValType);

impl fmt::Display for CoreValue {
    ghost output = { λ v. Some (core_value_text v.0) };

    fn fmt<W: fmt::Write>(&self, f: &mut fmt::Formatter<W>) -> fmt::Result {
        match self.0 {
            ValType::I32 => write!(f, "i32"),
            ValType::I64 => write!(f, "i64"),
            ValType::F32 => write!(f, "f32"),
            ValType::F64 => write!(f, "f64"),
            ValType::V128 => write!(f, "v128"),
            ValType::Ref(ty) => {
                let reference = Reference(ty);
                write!(f, "{reference}")
            }
        }
    }
}

// Parameters or results, which are left out if there are none.
fn print_list(out: &mut String, head: &str, types: &[ValType]) -> Result<(), AllocError>
    ensures { Prints result out.old out.new (core_list_text head.now types.now) }
{
    if types.is_empty() {
        return Ok(());
    }
    print_group(out, head, " ", types)
}

/// Prints a function type.
pub(crate) fn print_core_function(out: &mut String, ty: &FuncType) -> Result<(), AllocError>
    ensures { Prints result out.old out.new (core_function_text (shown_func ty.now)) }
{
    write!(out, "(func")?;
    print_list(out, " (param", &ty.params)?;
    print_list(out, " (result", &ty.results)?;
    write!(out, ")")
}

fn wide_word(wide: bool) -> &'static str
    ensures { result.now ≡ wide_text wide }
{
    if wide { "i64 " } else { "" }
}

fn shared_word(shared: bool) -> &'static str
    ensures { result.now ≡ shared_text shared }
{
    if shared { " shared" } else { "" }
}

#[derive(Clone, Copy)]
struct Maximum(Option<u64>);

impl fmt::Display for Maximum {
    ghost output = { λ m. Some (maximum_text m.0) };

    fn fmt<W: fmt::Write>(&self, f: &mut fmt::Formatter<W>) -> fmt::Result {
        match self.0 {
            None => Ok(()),
            Some(maximum) => write!(f, " {maximum}"),
        }
    }
}

/// A memory type.
#[derive(Clone, Copy)]
pub(crate) struct Memory(pub(crate) MemoryType);

impl fmt::Display for Memory {
    ghost output = { λ m. Some (memory_text m.0) };

    fn fmt<W: fmt::Write>(&self, f: &mut fmt::Formatter<W>) -> fmt::Result {
        let minimum = self.0.minimum;
        let maximum = Maximum(self.0.maximum);
        let wide = wide_word(self.0.memory64);
        let shared = shared_word(self.0.shared);
        write!(f, "{wide}{minimum}{maximum}{shared}")
    }
}

#[derive(Clone, Copy)]
struct Global(GlobalType);

impl fmt::Display for Global {
    ghost output = { λ g. Some (global_text g.0.mutable g.0.val_type) };

    fn fmt<W: fmt::Write>(&self, f: &mut fmt::Formatter<W>) -> fmt::Result {
        let value = CoreValue(self.0.val_type);
        if self.0.mutable {
            write!(f, "(mut {value})")
        } else {
            write!(f, "{value}")
        }
    }
}

fn print_table(out: &mut String, ty: &TableType) -> Result<(), AllocError>
    ensures { Prints result out.old out.new (entity_text (EntityType.Table ty.now)) }
{
    let minimum = ty.minimum;
    let maximum = Maximum(ty.maximum);
    let wide = wide_word(ty.table64);
    let element = Reference(ty.element_type);
    write!(out, "(table {wide}{minimum}{maximum} {element})")
}

/// Prints what is imported or exported.
pub(crate) fn print_entity(out: &mut String, ty: &EntityType) -> Result<(), AllocError>
    ensures { Prints result out.old out.new (entity_text ty.now) }
{
    match ty {
        EntityType::Func(index) => write!(out, "(func (type {index}))"),
        EntityType::Table(ty) => print_table(out, ty),
        EntityType::Memory(ty) => {
            let memory = Memory(*ty);
            write!(out, "(memory {memory})")
        }
        EntityType::Global(ty) => {
            let global = Global(*ty);
            write!(out, "(global {global})")
        }
        EntityType::Tag(ty) => {
            let index = ty.func_type_idx;
            write!(out, "(tag (type {index}))")
        }
    }
}
