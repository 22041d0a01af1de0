//! Types, and what types of components and instances declare (Binary.md, type definitions).
#![tactic(auto, using(smith_format::proofs::Steps::writing))]

ghost use Rattle.smith_format.specs.Piece.{◌⊕◌, byte, many};
ghost use Rattle.smith_format.specs.Writing.{Puts};
ghost use Rattle.smith_syntax.specs.Grammar.{core_entry, decl, entry};
ghost use Rattle.smith_read.specs.Nodes.{shown_core_node};
ghost use Rattle.smith_read.specs.TypeNodes.{shown_decl_node, shown_type_node};

use crate::writing::core_types::put_outer;
use crate::writing::externs::{put_declared_import, put_extern};
use crate::writing::lists::Written;
use crate::{CoreNode, DeclNode, TypeNode};
use smith_format::{write_byte, write_count};
use smith_input::Error;
use smith_syntax::{put_defined, put_function};

fn put_core_decl(out: &mut Vec<u8>, ty: &CoreNode) -> Result<(), Error>
    ensures { Puts result out.old out.new (byte 0x00 ⊕ core_entry (shown_core_node ty.now)) }
{
    write_byte(out, 0x00)?;
    ty.put(out)
}

#[cycle(writing)]
fn put_type(out: &mut Vec<u8>, node: &TypeNode) -> Result<(), Error>
    ensures { Puts result out.old out.new (entry (shown_type_node node.now)) }
{
    match node {
        TypeNode::Defined(ty) => put_defined(out, ty),
        TypeNode::Func(ty) => put_function(out, ty),
        TypeNode::Component(decls) => {
            write_byte(out, 0x41)?;
            put_decls(out, true, decls)
        }
        TypeNode::Instance(decls) => {
            write_byte(out, 0x42)?;
            put_decls(out, false, decls)
        }
    }
}

// A declaration of a component type, which may import, or of an instance type.
#[cycle(writing)]
fn put_decl(out: &mut Vec<u8>, importing: bool, node: &DeclNode) -> Result<(), Error>
    ensures { Puts result out.old out.new (decl importing (shown_decl_node node.now)) }
{
    match node {
        DeclNode::Core(ty) => put_core_decl(out, ty),
        DeclNode::Type(ty) => {
            write_byte(out, 0x01)?;
            put_type(out, ty)
        }
        DeclNode::TypeAlias { count, index } => put_outer(out, &[0x02, 0x03, 0x02], *count, *index),
        DeclNode::CoreTypeAlias { count, index } => {
            put_outer(out, &[0x02, 0x00, 0x10, 0x02], *count, *index)
        }
        DeclNode::Import { name, to } => put_declared_import(out, importing, name, *to),
        DeclNode::Export { name, to } => put_extern(out, 0x04, name, *to),
    }
}

#[cycle(writing)]
fn put_decls(out: &mut Vec<u8>, importing: bool, decls: &[DeclNode]) -> Result<(), Error>
    ensures { Puts result out.old out.new (many (λ d. decl importing (shown_decl_node d)) decls.now) }
{
    write_count(out, decls.len())?;
    for declared in decls {
        put_decl(out, importing, declared)?;
    }
    Ok(())
}

impl Written for TypeNode {
    ghost piece = { λ t. entry (shown_type_node t) };

    fn put(&self, out: &mut Vec<u8>) -> Result<(), Error> {
        put_type(out, self)
    }
}
