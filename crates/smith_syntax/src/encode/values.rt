//! Value types in the binary format (Binary.md, type definitions), and lists of them.
#![tactic(auto, using(crate::proofs::Encoding::encoding))]

ghost use Rattle.std.specs.Prelude.{◌≡◌, ◌≤◌};
ghost use Rattle.smith_format.specs.Writing.{Puts, Takes};
ghost use Rattle.smith_syntax.specs.Grammar.{primvaltype, valtype, maybe_valtype};

use crate::types::{ComponentValType, PrimitiveValType};
use smith_format::{Spelled, type_index_len, write_byte, write_type_index};
use smith_input::Error;

/// The binary format of components, as the name of a format. Public only for the crate above.
pub struct ComponentFormat {}

pub(super) fn code(primitive: PrimitiveValType) -> u8
    ensures { result ≡ primvaltype primitive }
{
    match primitive {
        PrimitiveValType::Bool => 0x7f,
        PrimitiveValType::S8 => 0x7e,
        PrimitiveValType::U8 => 0x7d,
        PrimitiveValType::S16 => 0x7c,
        PrimitiveValType::U16 => 0x7b,
        PrimitiveValType::S32 => 0x7a,
        PrimitiveValType::U32 => 0x79,
        PrimitiveValType::S64 => 0x78,
        PrimitiveValType::U64 => 0x77,
        PrimitiveValType::F32 => 0x76,
        PrimitiveValType::F64 => 0x75,
        PrimitiveValType::Char => 0x74,
        PrimitiveValType::String => 0x73,
    }
}

#[inline(always)]
pub(super) fn put_val(out: &mut Vec<u8>, ty: ComponentValType) -> Result<(), Error>
    ensures { Puts result out.old out.new (valtype ty) }
{
    match ty {
        ComponentValType::Primitive(primitive) => write_byte(out, code(primitive)),
        ComponentValType::Indexed(index) => write_type_index(out, index),
    }
}

pub(super) fn val_len(ty: ComponentValType) -> u32
    ensures length { Takes result (valtype ty) }
    ensures most { result ≤ 5 }
{
    match ty {
        ComponentValType::Primitive(_) => 1,
        ComponentValType::Indexed(index) => type_index_len(index),
    }
}

pub(super) fn put_maybe_val(out: &mut Vec<u8>, ty: Option<ComponentValType>) -> Result<(), Error>
    ensures { Puts result out.old out.new (maybe_valtype ty) }
{
    match ty {
        None => write_byte(out, 0x00),
        Some(ty) => {
            write_byte(out, 0x01)?;
            put_val(out, ty)
        }
    }
}

pub(super) fn maybe_val_len(ty: Option<ComponentValType>) -> u32
    ensures length { Takes result (maybe_valtype ty) }
    ensures most { result ≤ 6 }
{
    match ty {
        None => 1,
        Some(ty) => 1 + val_len(ty),
    }
}

impl Spelled<ComponentFormat> for ComponentValType {
    ghost piece = { valtype };

    fn put(&self, out: &mut Vec<u8>) -> Result<(), Error> {
        put_val(out, *self)
    }

    fn spelled_len(&self) -> Option<u32> {
        Some(val_len(*self))
    }
}
