//! Types of values in the binary format (Binary.md, type definitions).
#![tactic(auto, using(crate::proofs::Encoding::encoding))]

ghost use Rattle.smith_format.specs.Writing.{Puts, IsLengthOf};
ghost use Rattle.smith_syntax.specs.Grammar.{labelvaltype, case, defvaltype};
ghost use Rattle.smith_syntax.specs.Shown.{shown_defined};
ghost use Rattle.smith_syntax.specs.Signature.{named};

use super::values::{ComponentFormat, code, maybe_val_len, put_maybe_val, put_val, val_len};
use crate::types::{ComponentValType, DefinedType};
use smith_format::{Spelled, put_tagged, tagged_len, text_len, write_byte, write_text};
use smith_input::Error;

impl Spelled<ComponentFormat> for (String, ComponentValType) {
    ghost piece = { λ f. labelvaltype (named f) };

    fn put(&self, out: &mut Vec<u8>) -> Result<(), Error> {
        write_text(out, &self.0)?;
        put_val(out, self.1)
    }

    fn spelled_len(&self) -> Option<u32> {
        text_len(&self.0)?.checked_add(val_len(self.1))
    }
}

impl Spelled<ComponentFormat> for (String, Option<ComponentValType>) {
    ghost piece = { λ c. case (named c) };

    fn put(&self, out: &mut Vec<u8>) -> Result<(), Error> {
        write_text(out, &self.0)?;
        put_maybe_val(out, self.1)?;
        write_byte(out, 0x00)
    }

    fn spelled_len(&self) -> Option<u32> {
        text_len(&self.0)?.checked_add(maybe_val_len(self.1) + 1)
    }
}

/// Puts a type of values at the end of a buffer. After an error, part of it may be there. Public only for the crates
/// above.
pub fn put_defined(out: &mut Vec<u8>, ty: &DefinedType) -> Result<(), Error>
    ensures { Puts result out.old out.new (defvaltype (shown_defined ty.now)) }
{
    match ty {
        DefinedType::Primitive(primitive) => write_byte(out, code(*primitive)),
        DefinedType::Record(record) => put_tagged(out, 0x72, &record.fields),
        DefinedType::Variant(variant) => put_tagged(out, 0x71, &variant.cases),
        DefinedType::List(list) => {
            write_byte(out, 0x70)?;
            put_val(out, list.elem_ty)
        }
        DefinedType::Tuple(tuple) => put_tagged(out, 0x6f, &tuple.fields),
        DefinedType::Flags(flags) => put_tagged(out, 0x6e, &flags.fields),
        DefinedType::Enum(labels) => put_tagged(out, 0x6d, &labels.variants),
        DefinedType::Option(option) => {
            write_byte(out, 0x6b)?;
            put_val(out, option.inner_ty)
        }
        DefinedType::Result(result) => {
            write_byte(out, 0x6a)?;
            put_maybe_val(out, result.ok_ty)?;
            put_maybe_val(out, result.err_ty)
        }
    }
}

pub(super) fn defined_len(ty: &DefinedType) -> Option<u32>
    ensures { IsLengthOf result (defvaltype (shown_defined ty.now)) }
{
    match ty {
        DefinedType::Primitive(_) => Some(1),
        DefinedType::Record(record) => tagged_len(&record.fields),
        DefinedType::Variant(variant) => tagged_len(&variant.cases),
        DefinedType::List(list) => Some(1 + val_len(list.elem_ty)),
        DefinedType::Tuple(tuple) => tagged_len(&tuple.fields),
        DefinedType::Flags(flags) => tagged_len(&flags.fields),
        DefinedType::Enum(labels) => tagged_len(&labels.variants),
        DefinedType::Option(option) => Some(1 + val_len(option.inner_ty)),
        DefinedType::Result(result) => {
            Some(1 + maybe_val_len(result.ok_ty) + maybe_val_len(result.err_ty))
        }
    }
}
