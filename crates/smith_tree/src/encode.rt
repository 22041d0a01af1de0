//! How custom sections, canonical functions and exports are encoded (Binary.md).
#![tactic(auto, using(smith_format::proofs::Steps::writing, smith_format::proofs::Sizes::measuring))]

ghost use Rattle.std.specs.Prelude.{string_bytes};
ghost use Rattle.smith_format.specs.Piece.{◌⊕◌, byte, raw, text, u};
ghost use Rattle.smith_format.specs.Writing.{Puts};
ghost use Rattle.smith_tree.specs.Grammar.{canon, export_entry};
ghost use Rattle.smith_tree.specs.Shown.{shown_canon, shown_export};

use crate::entries::{CustomSection, Export, Func};
use smith_format::{
    Spelled, raw_len, text_len, u32_len, write_byte, write_bytes, write_raw, write_text, write_u32,
};
use smith_input::Error;
use smith_syntax::ComponentFormat;

// The contents of the section.
impl Spelled<ComponentFormat> for CustomSection {
    ghost piece = { λ s. text (string_bytes s.name) ⊕ raw s.bytes.items };

    fn put(&self, out: &mut Vec<u8>) -> Result<(), Error> {
        write_text(out, &self.name)?;
        write_raw(out, &self.bytes)
    }

    fn spelled_len(&self) -> Option<u32> {
        let name = text_len(&self.name)?;
        name.checked_add(raw_len(&self.bytes)?)
    }
}

impl Spelled<ComponentFormat> for Func {
    ghost piece = { λ f. canon (shown_canon f) };

    fn put(&self, out: &mut Vec<u8>) -> Result<(), Error> {
        match self {
            Func::CanonLift {
                func_ty,
                core_func_index,
            } => {
                write_bytes(out, &[0x00, 0x00])?;
                write_u32(out, *core_func_index)?;
                write_byte(out, 0x00)?;
                write_u32(out, *func_ty)
            }
            Func::CanonLower { func_index } => {
                write_bytes(out, &[0x01, 0x00])?;
                write_u32(out, *func_index)?;
                write_byte(out, 0x00)
            }
        }
    }

    fn spelled_len(&self) -> Option<u32> {
        let length = match self {
            Func::CanonLift {
                func_ty,
                core_func_index,
            } => 3 + u32_len(*core_func_index) + u32_len(*func_ty),
            Func::CanonLower { func_index } => 3 + u32_len(*func_index),
        };
        Some(length)
    }
}

// The component function that is exported, without a type of its own.
fn put_exported(out: &mut Vec<u8>, func_index: u32) -> Result<(), Error>
    ensures { Puts result out.old out.new (byte 0x01 ⊕ u func_index ⊕ byte 0x00) }
{
    write_byte(out, 0x01)?;
    write_u32(out, func_index)?;
    write_byte(out, 0x00)
}

// A name, and the component function that has it.
fn put_export(out: &mut Vec<u8>, name: &str, func_index: u32) -> Result<(), Error>
    ensures { Puts result out.old out.new (byte 0x00 ⊕ text name.now ⊕ byte 0x01 ⊕ u func_index ⊕ byte 0x00) }
{
    write_byte(out, 0x00)?;
    write_text(out, name)?;
    put_exported(out, func_index)
}

impl Spelled<ComponentFormat> for Export {
    ghost piece = { λ e. export_entry (shown_export e) };

    fn put(&self, out: &mut Vec<u8>) -> Result<(), Error> {
        put_export(out, &self.name, self.func_index)
    }

    fn spelled_len(&self) -> Option<u32> {
        text_len(&self.name)?.checked_add(3 + u32_len(self.func_index))
    }
}
