//! Core types that a component declares.

ghost use Rattle.smith_syntax.specs.Entries.{ModuleDecl, CoreEntry};
ghost use Rattle.smith_read.specs.CoreTypes.{module_decl_at, core_entry_at};
ghost use Rattle.smith_read.specs.Nodes.{shown_module_node, shown_core_node};

use crate::core_types::{CoreNode, ModuleNode, core_function_of, entity_of};
use crate::lists::{Readable, many_of, read_text, skip};
use crate::numbers::{byte_of, count_of};
use crate::unread::{Reason, Unread, malformed};
use std::alloc::Global;

impl Readable for ModuleNode {
    ghost Shown = { ModuleDecl };

    ghost shown = { shown_module_node };

    ghost reading = { module_decl_at };

    #[tactic(auto, unfolding(crate::specs::CoreTypes::module_decl_at, crate::specs::CoreTypes::module_decl_after))]
    fn read(alloc: Global, bytes: &[u8]) -> Result<(ModuleNode, &[u8]), Unread> {
        let (tag, rest) = byte_of(bytes)?;
        match tag {
            0x00 => {
                let (module, rest) = read_text(alloc, rest)?;
                let (name, rest) = read_text(alloc, rest)?;
                let (entity, rest) = entity_of(rest)?;
                let import = ModuleNode::Import {
                    module,
                    name,
                    entity,
                };
                Ok((import, rest))
            }
            0x01 => {
                let rest = skip(rest, 0x60)?;
                let (ty, rest) = core_function_of(alloc, rest)?;
                Ok((ModuleNode::Func(ty), rest))
            }
            0x02 => {
                let rest = skip(rest, 0x10)?;
                let rest = skip(rest, 0x01)?;
                let (count, rest) = count_of(rest)?;
                let (index, rest) = count_of(rest)?;
                Ok((ModuleNode::OuterAlias { count, index }, rest))
            }
            0x03 => {
                let (name, rest) = read_text(alloc, rest)?;
                let (entity, rest) = entity_of(rest)?;
                Ok((ModuleNode::Export { name, entity }, rest))
            }
            _ => Err(malformed(bytes, Reason::Byte)),
        }
    }
}

impl Readable for CoreNode {
    ghost Shown = { CoreEntry };

    ghost shown = { shown_core_node };

    ghost reading = { core_entry_at };

    #[tactic(auto, unfolding(crate::specs::CoreTypes::core_entry_at, crate::specs::CoreTypes::core_entry_after))]
    fn read(alloc: Global, bytes: &[u8]) -> Result<(CoreNode, &[u8]), Unread> {
        let (tag, rest) = byte_of(bytes)?;
        match tag {
            0x60 => {
                let (ty, rest) = core_function_of(alloc, rest)?;
                Ok((CoreNode::Func(ty), rest))
            }
            0x50 => {
                let (decls, rest) = many_of(alloc, rest)?;
                Ok((CoreNode::Module(decls), rest))
            }
            _ => Err(malformed(bytes, Reason::Byte)),
        }
    }
}
