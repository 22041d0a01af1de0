//! Types of components as a text.

use super::core_types::show_core_type;
use super::walk::Walk;
use super::{Member, show_extern, show_list};
use smith_print::next;
use smith_read::{DeclNode, TypeNode};
use smith_stats::{primitive_label, type_label};
use smith_syntax::{ComponentValType, DefinedType, put_defined, put_function};
use std::alloc::Global;
use std::fmt;

fn show_val<W: fmt::Write>(f: &mut fmt::Formatter<W>, ty: ComponentValType) -> fmt::Result {
    match ty {
        ComponentValType::Primitive(ty) => f.write_str(primitive_label(ty)),
        ComponentValType::Indexed(index) => write!(f, "type {index}"),
    }
}

// A type after a word, if there is one.
fn show_maybe<W: fmt::Write>(
    f: &mut fmt::Formatter<W>,
    word: &str,
    ty: Option<ComponentValType>,
) -> fmt::Result {
    match ty {
        Some(ty) => {
            f.write_str(word)?;
            show_val(f, ty)
        }
        None => Ok(()),
    }
}

impl Member for String {
    fn show<W: fmt::Write>(&self, f: &mut fmt::Formatter<W>) -> fmt::Result {
        write!(f, "{self:?}")
    }
}

impl Member for ComponentValType {
    fn show<W: fmt::Write>(&self, f: &mut fmt::Formatter<W>) -> fmt::Result {
        show_val(f, *self)
    }
}

impl Member for (String, ComponentValType) {
    fn show<W: fmt::Write>(&self, f: &mut fmt::Formatter<W>) -> fmt::Result {
        self.0.show(f)?;
        show_maybe(f, ": ", Some(self.1))
    }
}

impl Member for (String, Option<ComponentValType>) {
    fn show<W: fmt::Write>(&self, f: &mut fmt::Formatter<W>) -> fmt::Result {
        self.0.show(f)?;
        show_maybe(f, ": ", self.1)
    }
}

// What is in a type, after its label.
fn show_members<W: fmt::Write>(f: &mut fmt::Formatter<W>, ty: &DefinedType) -> fmt::Result {
    match ty {
        DefinedType::Primitive(_) => Ok(()),
        DefinedType::Record(ty) => show_list(f, " of ", &ty.fields),
        DefinedType::Variant(ty) => show_list(f, " of ", &ty.cases),
        DefinedType::List(ty) => show_maybe(f, " of ", Some(ty.elem_ty)),
        DefinedType::Tuple(ty) => show_list(f, " of ", &ty.fields),
        DefinedType::Flags(ty) => show_list(f, " of ", &ty.fields),
        DefinedType::Enum(ty) => show_list(f, " of ", &ty.variants),
        DefinedType::Option(ty) => show_maybe(f, " of ", Some(ty.inner_ty)),
        DefinedType::Result(ty) => {
            show_maybe(f, " of ", ty.ok_ty)?;
            show_maybe(f, " or error ", ty.err_ty)
        }
    }
}

// An outer alias of a type or a core type, and the line's end. Its count and its index are passed.
fn show_alias<W: fmt::Write>(
    f: &mut fmt::Formatter<W>,
    walk: &mut Walk<'_>,
    what: &str,
    own: usize,
) -> fmt::Result {
    let count = walk.pass_number()?;
    let index = walk.pass_number()?;
    writeln!(
        f,
        "{what} {own}: outer alias of {what} {index}, count {count}"
    )
}

#[cycle(showing)]
fn show_decl<W: fmt::Write>(
    f: &mut fmt::Formatter<W>,
    walk: &mut Walk<'_>,
    decl: &DeclNode,
    depth: u32,
) -> fmt::Result {
    walk.begin_entry(f)?;
    walk.pass(1);
    match decl {
        DeclNode::Core(ty) => show_core_type(f, walk, ty),
        DeclNode::Type(ty) if depth > 0 => show_type(f, walk, ty, depth - 1),
        // None that was read is deeper than `MOST_DEPTH`.
        DeclNode::Type(_) => Err(fmt::Error),
        DeclNode::TypeAlias { .. } => {
            walk.pass(2);
            let own = next(&mut walk.spaces.types)?;
            show_alias(f, walk, "type", own)
        }
        DeclNode::CoreTypeAlias { .. } => {
            walk.pass(3);
            let own = next(&mut walk.spaces.core_types)?;
            show_alias(f, walk, "core type", own)
        }
        DeclNode::Import { name, to } => show_extern(f, walk, "import", name, *to),
        DeclNode::Export { name, to } => show_extern(f, walk, "export", name, *to),
    }
}

// The end of the line of a component type or an instance type, and a line for each declaration.
#[cycle(showing)]
fn show_decls<W: fmt::Write>(
    f: &mut fmt::Formatter<W>,
    walk: &mut Walk<'_>,
    decls: &[DeclNode],
    depth: u32,
) -> fmt::Result {
    writeln!(f)?;
    let _count = walk.pass_number()?;
    walk.enter()?;
    for decl in decls {
        show_decl(f, walk, decl, depth)?;
    }
    walk.leave();
    Ok(())
}

// How many bytes spell a type. If it has declarations, its first byte alone: they are passed one after another.
fn type_len(alloc: Global, ty: &TypeNode) -> Result<usize, fmt::Error> {
    let mut out = Vec::new(alloc);
    let put = match ty {
        TypeNode::Defined(ty) => put_defined(&mut out, ty),
        TypeNode::Func(ty) => put_function(&mut out, ty),
        TypeNode::Component(_) | TypeNode::Instance(_) => return Ok(1),
    };
    match put {
        Ok(()) => Ok(out.len()),
        Err(_) => Err(fmt::Error),
    }
}

/// A type, which ends the line, and a line for each of its declarations.
#[cycle(showing)]
pub(crate) fn show_type<W: fmt::Write>(
    f: &mut fmt::Formatter<W>,
    walk: &mut Walk<'_>,
    ty: &TypeNode,
    depth: u32,
) -> fmt::Result {
    let index = next(&mut walk.spaces.types)?;
    let label = type_label(ty);
    write!(f, "type {index}: {label}")?;
    walk.pass(type_len(walk.alloc, ty)?);
    match ty {
        TypeNode::Defined(ty) => show_members(f, ty)?,
        TypeNode::Func(ty) => {
            show_list(f, " (", &ty.params)?;
            f.write_str(")")?;
            show_maybe(f, " -> ", ty.result)?;
        }
        TypeNode::Component(decls) | TypeNode::Instance(decls) => {
            return show_decls(f, walk, decls, depth);
        }
    }
    writeln!(f)
}
