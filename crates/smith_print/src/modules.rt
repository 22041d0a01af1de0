//! Core modules as text (core specification, Text Format, Modules).

ghost use Rattle.std.specs.Prelude.{◌≡◌, IfOk, codes};
ghost use Rattle.smith_format.specs.Shown.{shown_func};
ghost use Rattle.smith_print.specs.Components.{module_text};
ghost use Rattle.smith_print.specs.CoreTypes.{after_core_type, after_memory, after_module_decl, alias_text};
ghost use Rattle.smith_print.specs.CoreTypes.{core_function_line, memory_line, module_decl_line};
ghost use Rattle.smith_print.specs.Lines.{lines};
ghost use Rattle.smith_print.specs.Printing.{Prints};
ghost use Rattle.smith_print.specs.Types.{core_entry_text, core_type_text, nested};
ghost use Rattle.smith_print.specs.Spaces.{nothing};
ghost use Rattle.smith_read.specs.ModuleSections.{shown_sections};
ghost use Rattle.smith_read.specs.Nodes.{shown_core_node, shown_module_node};
ghost use Rattle.smith_syntax.specs.Entries.{exports, imports};

use crate::core_types::{Memory, print_core_function, print_entity};
use crate::lines::{Line, print_end, print_lines};
use crate::spaces::{IndexSpaces, next};
use crate::words::{Quoted, deeper, print_line};
use smith_core::{EntityType, FuncType, MemoryType};
use smith_read::{CoreNode, ModuleNode, ModuleSections};
use std::alloc::AllocError;

impl Line for FuncType {
    ghost text = { λ f _. core_function_line (shown_func f) };

    ghost after = { λ f. after_core_type };

    fn print(
        &self,
        out: &mut String,
        _columns: usize,
        spaces: &mut IndexSpaces,
    ) -> Result<(), AllocError> {
        let index = next(&mut spaces.core_types)?;
        write!(out, "(type (;{index};) ")?;
        print_core_function(out, self)?;
        write!(out, ")")
    }
}

impl Line for MemoryType {
    ghost text = { λ m _. memory_line m };

    ghost after = { λ m. after_memory };

    fn print(
        &self,
        out: &mut String,
        _columns: usize,
        spaces: &mut IndexSpaces,
    ) -> Result<(), AllocError> {
        let index = next(&mut spaces.memories)?;
        let memory = Memory(*self);
        write!(out, "(memory (;{index};) {memory})")
    }
}

// An outer alias of a core type, among the declarations of a module type.
fn print_alias(
    out: &mut String,
    spaces: &mut IndexSpaces,
    count: u32,
    index: u32,
) -> Result<(), AllocError>
    ensures printed { Prints result out.old out.new (alias_text count index spaces.old.core_types) }
    ensures indexes { IfOk result (λ _. spaces.new ≡ after_core_type spaces.old) }
{
    let own = next(&mut spaces.core_types)?;
    write!(out, "(alias outer {count} {index} (type (;{own};)))")
}

fn print_module_import(
    out: &mut String,
    from: &str,
    name: &str,
    ty: &EntityType,
) -> Result<(), AllocError>
    ensures { Prints result out.old out.new (module_decl_line (imports from.now name.now ty.now) nothing) }
{
    let from = Quoted(from.as_bytes());
    let name = Quoted(name.as_bytes());
    write!(out, "(import {from} {name} ")?;
    print_entity(out, ty)?;
    write!(out, ")")
}

fn print_module_export(out: &mut String, name: &str, ty: &EntityType) -> Result<(), AllocError>
    ensures { Prints result out.old out.new (module_decl_line (exports name.now ty.now) nothing) }
{
    let name = Quoted(name.as_bytes());
    write!(out, "(export {name} ")?;
    print_entity(out, ty)?;
    write!(out, ")")
}

impl Line for ModuleNode {
    ghost text = { λ d _. module_decl_line (shown_module_node d) };

    ghost after = { λ d. after_module_decl (shown_module_node d) };

    fn print(
        &self,
        out: &mut String,
        columns: usize,
        spaces: &mut IndexSpaces,
    ) -> Result<(), AllocError> {
        match self {
            ModuleNode::Func(ty) => ty.print(out, columns, spaces),
            ModuleNode::OuterAlias { count, index } => print_alias(out, spaces, *count, *index),
            ModuleNode::Import {
                module,
                name,
                entity,
            } => print_module_import(out, module, name, entity),
            ModuleNode::Export { name, entity } => print_module_export(out, name, entity),
        }
    }
}

// A module type, one level in.
fn print_module_type(
    out: &mut String,
    columns: usize,
    decls: &[ModuleNode],
) -> Result<(), AllocError>
    ensures { Prints result out.old out.new
        (nested (codes "(module") (λ c. lines (λ d _. module_decl_line (shown_module_node d))
        (λ d. after_module_decl (shown_module_node d)) c nothing decls.now) columns) }
{
    let inner = deeper(columns);
    print_line(out, inner)?;
    write!(out, "(module")?;
    let start = out.len();
    let mut spaces = IndexSpaces::new();
    print_lines(out, deeper(inner), &mut spaces, decls)?;
    print_end(out, inner, start)?;
    print_line(out, columns)
}

fn print_core_entry(out: &mut String, columns: usize, ty: &CoreNode) -> Result<(), AllocError>
    ensures { Prints result out.old out.new (core_entry_text (shown_core_node ty.now) columns) }
{
    match ty {
        CoreNode::Func(ty) => {
            write!(out, " ")?;
            print_core_function(out, ty)
        }
        CoreNode::Module(decls) => print_module_type(out, columns, decls),
    }
}

impl Line for CoreNode {
    ghost text = { λ t. core_type_text (shown_core_node t) };

    ghost after = { λ t. after_core_type };

    fn print(
        &self,
        out: &mut String,
        columns: usize,
        spaces: &mut IndexSpaces,
    ) -> Result<(), AllocError> {
        let index = next(&mut spaces.core_types)?;
        write!(out, "(core type (;{index};)")?;
        print_core_entry(out, columns, self)?;
        write!(out, ")")
    }
}

/// Prints the function types and the memories of a core module, and its end.
pub(crate) fn print_module(
    out: &mut String,
    columns: usize,
    sections: &ModuleSections,
) -> Result<(), AllocError>
    ensures { Prints result out.old out.new (module_text (shown_sections sections.now) columns) }
{
    let start = out.len();
    let mut types = IndexSpaces::new();
    print_lines(out, deeper(columns), &mut types, &sections.types)?;
    let mut memories = IndexSpaces::new();
    print_lines(out, deeper(columns), &mut memories, &sections.memories)?;
    print_end(out, columns, start)
}
