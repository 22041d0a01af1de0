//! Core types (Binary.md, core type definitions).
#![tactic(auto, using(smith_format::proofs::Steps::writing))]

ghost use Rattle.smith_format.specs.Entities.{entity};
ghost use Rattle.smith_format.specs.Piece.{◌⊕◌, bytes, text, u};
ghost use Rattle.smith_format.specs.Writing.{Puts};
ghost use Rattle.smith_syntax.specs.Grammar.{core_entry, moduledecl};
ghost use Rattle.smith_read.specs.Nodes.{shown_core_node, shown_module_node};

use crate::writing::lists::{Written, put_list};
use crate::{CoreNode, ModuleNode};
use smith_format::{
    EntityType, write_byte, write_bytes, write_entity, write_func_type, write_text, write_u32,
};
use smith_input::Error;

/// Puts an outer alias, by its count of scopes and its index, after the bytes that say what it is of.
pub(crate) fn put_outer(out: &mut Vec<u8>, head: &[u8], count: u32, index: u32) -> Result<(), Error>
    ensures { Puts result out.old out.new (bytes head.now ⊕ u count ⊕ u index) }
{
    write_bytes(out, head)?;
    write_u32(out, count)?;
    write_u32(out, index)
}

// What is imported or exported, after its name.
fn put_named_entity(out: &mut Vec<u8>, name: &str, ty: &EntityType) -> Result<(), Error>
    ensures { Puts result out.old out.new (text name.now ⊕ entity ty.now) }
{
    write_text(out, name)?;
    write_entity(out, ty)
}

fn put_import(
    out: &mut Vec<u8>,
    module_name: &str,
    name: &str,
    ty: &EntityType,
) -> Result<(), Error>
    ensures { Puts result out.old out.new (text module_name.now ⊕ text name.now ⊕ entity ty.now) }
{
    write_text(out, module_name)?;
    put_named_entity(out, name, ty)
}

impl Written for ModuleNode {
    ghost piece = { λ d. moduledecl (shown_module_node d) };

    fn put(&self, out: &mut Vec<u8>) -> Result<(), Error> {
        match self {
            ModuleNode::Import {
                module,
                name,
                entity,
            } => {
                write_byte(out, 0x00)?;
                put_import(out, module, name, entity)
            }
            ModuleNode::Func(ty) => {
                write_byte(out, 0x01)?;
                write_func_type(out, ty)
            }
            ModuleNode::OuterAlias { count, index } => {
                put_outer(out, &[0x02, 0x10, 0x01], *count, *index)
            }
            ModuleNode::Export { name, entity } => {
                write_byte(out, 0x03)?;
                put_named_entity(out, name, entity)
            }
        }
    }
}

impl Written for CoreNode {
    ghost piece = { λ t. core_entry (shown_core_node t) };

    fn put(&self, out: &mut Vec<u8>) -> Result<(), Error> {
        match self {
            CoreNode::Func(ty) => write_func_type(out, ty),
            CoreNode::Module(decls) => {
                write_byte(out, 0x50)?;
                put_list(out, decls)
            }
        }
    }
}
