//! Types as text, and what types of components and instances declare (Explainer.md, type definitions).

ghost use Rattle.std.specs.Prelude.{◌≡◌, IfOk};
ghost use Rattle.smith_print.specs.Externs.{export_text, import_text};
ghost use Rattle.smith_print.specs.Lines.{lines};
ghost use Rattle.smith_print.specs.Printing.{Prints};
ghost use Rattle.smith_print.specs.Spaces.{nothing};
ghost use Rattle.smith_print.specs.CoreTypes.{after_core_type, alias_text};
ghost use Rattle.smith_print.specs.Types.{after_decl, after_type, core_alias_text, decl_text, entry_text};
ghost use Rattle.smith_print.specs.Types.{nested, type_text};
ghost use Rattle.smith_read.specs.TypeNodes.{shown_decl_node, shown_type_node};

use crate::externs::{print_export, print_import};
use crate::lines::{Line, print_end};
use crate::spaces::{IndexSpaces, next};
use crate::values::{print_defined, print_function};
use crate::words::{deeper, print_line};
use smith_read::{DeclNode, TypeNode};
use std::alloc::AllocError;

// An outer alias of a type, by its count of scopes and its index.
fn print_alias(
    out: &mut String,
    spaces: &mut IndexSpaces,
    count: u32,
    index: u32,
) -> Result<(), AllocError>
    ensures printed { Prints result out.old out.new (alias_text count index spaces.old.types) }
    ensures indexes { IfOk result (λ _. spaces.new ≡ after_type spaces.old) }
{
    let own = next(&mut spaces.types)?;
    write!(out, "(alias outer {count} {index} (type (;{own};)))")
}

// An outer alias of a core type.
fn print_core_alias(
    out: &mut String,
    spaces: &mut IndexSpaces,
    count: u32,
    index: u32,
) -> Result<(), AllocError>
    ensures printed { Prints result out.old out.new (core_alias_text count index spaces.old.core_types) }
    ensures indexes { IfOk result (λ _. spaces.new ≡ after_core_type spaces.old) }
{
    let own = next(&mut spaces.core_types)?;
    write!(out, "(alias outer {count} {index} (core type (;{own};)))")
}

// A declaration.
#[cycle(printing)]
fn print_decl(
    out: &mut String,
    columns: usize,
    spaces: &mut IndexSpaces,
    node: &DeclNode,
) -> Result<(), AllocError>
    ensures printed { Prints result out.old out.new (decl_text (shown_decl_node node.now) columns spaces.old) }
    ensures indexes { IfOk result (λ _. spaces.new ≡ after_decl (shown_decl_node node.now) spaces.old) }
{
    match node {
        DeclNode::Core(ty) => ty.print(out, columns, spaces),
        DeclNode::Type(ty) => print_type(out, columns, spaces, ty),
        DeclNode::TypeAlias { count, index } => print_alias(out, spaces, *count, *index),
        DeclNode::CoreTypeAlias { count, index } => print_core_alias(out, spaces, *count, *index),
        DeclNode::Import { name, to } => print_import(out, spaces, name, *to),
        DeclNode::Export { name, to } => print_export(out, spaces, name, *to),
    }
}

// Declarations in index spaces of their own, one level in from a component type or an instance type.
#[cycle(printing)]
fn print_decls(out: &mut String, columns: usize, decls: &[DeclNode]) -> Result<(), AllocError>
    ensures { Prints result out.old out.new
        (lines (λ d. decl_text (shown_decl_node d)) (λ d. after_decl (shown_decl_node d)) columns nothing decls.now) }
{
    let mut spaces = IndexSpaces::new();
    for decl in decls {
        print_line(out, columns)?;
        print_decl(out, columns, &mut spaces, decl)?;
    }
    Ok(())
}

// A component type or an instance type, one level in.
#[cycle(printing)]
fn print_nested(
    out: &mut String,
    columns: usize,
    word: &str,
    decls: &[DeclNode],
) -> Result<(), AllocError>
    ensures { Prints result out.old out.new (nested word.now (λ c. lines (λ d. decl_text (shown_decl_node d))
        (λ d. after_decl (shown_decl_node d)) c nothing decls.now) columns) }
{
    let inner = deeper(columns);
    print_line(out, inner)?;
    write!(out, "{word}")?;
    let start = out.len();
    print_decls(out, deeper(inner), decls)?;
    print_end(out, inner, start)?;
    print_line(out, columns)
}

#[cycle(printing)]
fn print_entry(out: &mut String, columns: usize, node: &TypeNode) -> Result<(), AllocError>
    ensures { Prints result out.old out.new (entry_text (shown_type_node node.now) columns) }
{
    match node {
        TypeNode::Defined(ty) => {
            write!(out, " ")?;
            print_defined(out, ty)
        }
        TypeNode::Func(ty) => {
            write!(out, " ")?;
            print_function(out, ty)
        }
        TypeNode::Component(decls) => print_nested(out, columns, "(component", decls),
        TypeNode::Instance(decls) => print_nested(out, columns, "(instance", decls),
    }
}

// A type under its index.
#[cycle(printing)]
fn print_type(
    out: &mut String,
    columns: usize,
    spaces: &mut IndexSpaces,
    node: &TypeNode,
) -> Result<(), AllocError>
    ensures printed { Prints result out.old out.new (type_text (shown_type_node node.now) columns spaces.old) }
    ensures indexes { IfOk result (λ _. spaces.new ≡ after_type spaces.old) }
{
    let index = next(&mut spaces.types)?;
    write!(out, "(type (;{index};)")?;
    print_entry(out, columns, node)?;
    write!(out, ")")
}

impl Line for TypeNode {
    ghost text = { λ t. type_text (shown_type_node t) };

    ghost after = { λ t. after_type };

    fn print(
        &self,
        out: &mut String,
        columns: usize,
        spaces: &mut IndexSpaces,
    ) -> Result<(), AllocError> {
        print_type(out, columns, spaces, self)
    }
}
