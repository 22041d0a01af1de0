//! Core types in the binary format (Binary.md, core type definitions).
#![tactic(auto, using(crate::proofs::Encoding::encoding))]

ghost use Rattle.smith_format.specs.Piece.{bytes};
ghost use Rattle.smith_format.specs.Writing.{Puts, Appends, IsLengthOf};
ghost use Rattle.smith_syntax.specs.Grammar.{moduledecl, core_entry};
ghost use Rattle.smith_syntax.specs.Shown.{shown_decl, shown_core, shown_shared_core};

use super::values::ComponentFormat;
use crate::core_types::{CoreType, ModuleTypeDef};
use smith_format::{
    Spelled, core_import_len, entity_len, func_type_len, put_tagged, tagged_len, text_len, u32_len,
    write_byte, write_bytes, write_core_import, write_entity, write_func_type, write_spelled,
    write_text, write_u32,
};
use smith_input::Error;
use std::rc::Rc;

fn put_decl(out: &mut Vec<u8>, decl: &ModuleTypeDef) -> Result<(), Error>
    ensures { Puts result out.old out.new (moduledecl (shown_decl decl.now)) }
{
    match decl {
        ModuleTypeDef::Import(import) => {
            write_byte(out, 0x00)?;
            write_core_import(out, import)
        }
        ModuleTypeDef::FuncDef(ty) => {
            write_byte(out, 0x01)?;
            write_func_type(out, ty)
        }
        ModuleTypeDef::OuterAlias { count, i, ty: _ } => {
            write_bytes(out, &[0x02, 0x10, 0x01])?;
            write_u32(out, *count)?;
            write_u32(out, *i)
        }
        ModuleTypeDef::Export(name, entity) => {
            write_byte(out, 0x03)?;
            write_text(out, name.as_str())?;
            write_entity(out, entity)
        }
    }
}

fn decl_len(decl: &ModuleTypeDef) -> Option<u32>
    ensures { IsLengthOf result (moduledecl (shown_decl decl.now)) }
{
    match decl {
        ModuleTypeDef::Import(import) => core_import_len(import)?.checked_add(1),
        ModuleTypeDef::FuncDef(ty) => func_type_len(ty)?.checked_add(1),
        ModuleTypeDef::OuterAlias { count, i, ty: _ } => Some(3 + (u32_len(*count) + u32_len(*i))),
        ModuleTypeDef::Export(name, entity) => {
            text_len(name.as_str())?
                .checked_add(entity_len(entity)?)?
                .checked_add(1)
        }
    }
}

impl Spelled<ComponentFormat> for ModuleTypeDef {
    ghost piece = { λ d. moduledecl (shown_decl d) };

    fn put(&self, out: &mut Vec<u8>) -> Result<(), Error> {
        put_decl(out, self)
    }

    fn spelled_len(&self) -> Option<u32> {
        decl_len(self)
    }
}

impl Spelled<ComponentFormat> for Rc<CoreType> {
    ghost piece = { λ t. core_entry (shown_shared_core t) };

    fn put(&self, out: &mut Vec<u8>) -> Result<(), Error> {
        write_core_type(out, self)
    }

    fn spelled_len(&self) -> Option<u32> {
        core_type_len(self)
    }
}

fn put_core_type(out: &mut Vec<u8>, ty: &CoreType) -> Result<(), Error>
    ensures { Puts result out.old out.new (core_entry (shown_core ty.now)) }
{
    match ty {
        CoreType::Func(func) => write_func_type(out, func),
        CoreType::Module(module_type) => put_tagged(out, 0x50, &module_type.defs),
    }
}

impl Spelled<ComponentFormat> for CoreType {
    ghost piece = { λ t. core_entry (shown_core t) };

    fn put(&self, out: &mut Vec<u8>) -> Result<(), Error> {
        put_core_type(out, self)
    }

    fn spelled_len(&self) -> Option<u32> {
        core_type_len(self)
    }
}

/// Appends a core type. It is too long if a length or a count in it exceeds 4,294,967,295.
pub fn write_core_type(out: &mut Vec<u8>, ty: &CoreType) -> Result<(), Error>
    ensures { Appends result out.old out.new (core_entry (shown_core ty.now)) }
{
    write_spelled(out, ty)
}

/// The length of a core type's encoding; None exactly if it has none of at most 4,294,967,295 bytes.
pub fn core_type_len(ty: &CoreType) -> Option<u32>
    ensures { IsLengthOf result (core_entry (shown_core ty.now)) }
{
    match ty {
        CoreType::Func(func) => func_type_len(func),
        CoreType::Module(module_type) => tagged_len(&module_type.defs),
    }
}
