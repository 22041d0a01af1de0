//! Types of values and of functions.

ghost use Rattle.std.specs.Prelude.{◌≡◌, List, Option};
ghost use Rattle.smith_syntax.specs.Entries.{Field, Case};
ghost use Rattle.smith_syntax.specs.Shown.{shown_defined};
ghost use Rattle.smith_syntax.specs.Signature.{named};
ghost use Rattle.smith_syntax.specs.declared.types.ComponentValType.{ComponentValType};
ghost use Rattle.smith_read.specs.Reading.{Gives};
ghost use Rattle.smith_read.specs.Types.{primitive_of, valtype_at, maybe_valtype_at, field_at, case_at, result_at};
ghost use Rattle.smith_read.specs.Types.{defined_after, function_at};

use crate::lists::{Readable, many_of, read_text, skip};
use crate::numbers::{byte_of, index_of};
use crate::unread::{Reason, Unread, malformed, malformed_before};
use smith_syntax::{
    ComponentValType, DefinedType, EnumType, FlagsType, FuncType, ListType, OptionType,
    PrimitiveValType, RecordType, ResultType, TupleType, VariantType,
};
use std::alloc::Global;

#[tactic(auto, unfolding(crate::specs::Types::primitive_of))]
fn primitive(byte: u8) -> Option<PrimitiveValType>
    ensures { result ≡ primitive_of byte }
{
    match byte {
        0x7f => Some(PrimitiveValType::Bool),
        0x7e => Some(PrimitiveValType::S8),
        0x7d => Some(PrimitiveValType::U8),
        0x7c => Some(PrimitiveValType::S16),
        0x7b => Some(PrimitiveValType::U16),
        0x7a => Some(PrimitiveValType::S32),
        0x79 => Some(PrimitiveValType::U32),
        0x78 => Some(PrimitiveValType::S64),
        0x77 => Some(PrimitiveValType::U64),
        0x76 => Some(PrimitiveValType::F32),
        0x75 => Some(PrimitiveValType::F64),
        0x74 => Some(PrimitiveValType::Char),
        0x73 => Some(PrimitiveValType::String),
        _ => None,
    }
}

/// A value type.
#[tactic(auto, unfolding(crate::specs::Types::valtype_at))]
pub(crate) fn val_of(bytes: &[u8]) -> Result<(ComponentValType, &[u8]), Unread>
    ensures { Gives (λ x. (x.0, x.1.now)) result (valtype_at bytes.now) }
{
    let (first, rest) = byte_of(bytes)?;
    match primitive(first) {
        Some(ty) => Ok((ComponentValType::Primitive(ty), rest)),
        None => {
            let (index, rest) = index_of(bytes)?;
            Ok((ComponentValType::Indexed(index), rest))
        }
    }
}

/// A value type that may be missing.
#[tactic(auto, unfolding(crate::specs::Types::maybe_valtype_at))]
pub(crate) fn maybe_val_of(bytes: &[u8]) -> Result<(Option<ComponentValType>, &[u8]), Unread>
    ensures { Gives (λ x. (x.0, x.1.now)) result (maybe_valtype_at bytes.now) }
{
    let (first, rest) = byte_of(bytes)?;
    match first {
        0x00 => Ok((None, rest)),
        0x01 => {
            let (ty, rest) = val_of(rest)?;
            Ok((Some(ty), rest))
        }
        _ => Err(malformed(bytes, Reason::Byte)),
    }
}

#[tactic(auto, unfolding(crate::specs::Types::result_at))]
fn result_of(bytes: &[u8]) -> Result<(Option<ComponentValType>, &[u8]), Unread>
    ensures { Gives (λ x. (x.0, x.1.now)) result (result_at bytes.now) }
{
    let (first, rest) = byte_of(bytes)?;
    match first {
        0x00 => {
            let (ty, rest) = val_of(rest)?;
            Ok((Some(ty), rest))
        }
        0x01 => {
            let rest = skip(rest, 0x00)?;
            Ok((None, rest))
        }
        _ => Err(malformed(bytes, Reason::Byte)),
    }
}

impl Readable for ComponentValType {
    ghost Shown = { ComponentValType };

    ghost shown = { λ x. x };

    ghost reading = { valtype_at };

    fn read(_alloc: Global, bytes: &[u8]) -> Result<(ComponentValType, &[u8]), Unread> {
        val_of(bytes)
    }
}

impl Readable for (String, ComponentValType) {
    ghost Shown = { Field };

    ghost shown = { named };

    ghost reading = { field_at };

    #[tactic(auto, unfolding(crate::specs::Types::field_at))]
    fn read(alloc: Global, bytes: &[u8]) -> Result<((String, ComponentValType), &[u8]), Unread> {
        let (name, rest) = read_text(alloc, bytes)?;
        let (ty, rest) = val_of(rest)?;
        Ok(((name, ty), rest))
    }
}

impl Readable for (String, Option<ComponentValType>) {
    ghost Shown = { Case };

    ghost shown = { named };

    ghost reading = { case_at };

    #[tactic(auto, unfolding(crate::specs::Types::case_at))]
    fn read(
        alloc: Global,
        bytes: &[u8],
    ) -> Result<((String, Option<ComponentValType>), &[u8]), Unread> {
        let (name, rest) = read_text(alloc, bytes)?;
        let (ty, rest) = maybe_val_of(rest)?;
        let rest = skip(rest, 0x00)?;
        Ok(((name, ty), rest))
    }
}

/// A type of values after its first byte.
#[tactic(auto, unfolding(crate::specs::Types::defined_after))]
pub(crate) fn defined_of(
    alloc: Global,
    tag: u8,
    bytes: &[u8],
) -> Result<(DefinedType, &[u8]), Unread>
    ensures { Gives (λ x. (shown_defined x.0, x.1.now)) result (defined_after tag bytes.now) }
{
    match tag {
        0x72 => {
            let (fields, rest) = many_of(alloc, bytes)?;
            Ok((DefinedType::Record(RecordType { fields }), rest))
        }
        0x71 => {
            let (cases, rest) = many_of(alloc, bytes)?;
            Ok((DefinedType::Variant(VariantType { cases }), rest))
        }
        0x70 => {
            let (elem_ty, rest) = val_of(bytes)?;
            Ok((DefinedType::List(ListType { elem_ty }), rest))
        }
        0x6f => {
            let (fields, rest) = many_of(alloc, bytes)?;
            Ok((DefinedType::Tuple(TupleType { fields }), rest))
        }
        0x6e => {
            let (fields, rest) = many_of(alloc, bytes)?;
            Ok((DefinedType::Flags(FlagsType { fields }), rest))
        }
        0x6d => {
            let (variants, rest) = many_of(alloc, bytes)?;
            Ok((DefinedType::Enum(EnumType { variants }), rest))
        }
        0x6b => {
            let (inner_ty, rest) = val_of(bytes)?;
            Ok((DefinedType::Option(OptionType { inner_ty }), rest))
        }
        0x6a => {
            let (ok_ty, rest) = maybe_val_of(bytes)?;
            let (err_ty, rest) = maybe_val_of(rest)?;
            Ok((DefinedType::Result(ResultType { ok_ty, err_ty }), rest))
        }
        _ => match primitive(tag) {
            Some(ty) => Ok((DefinedType::Primitive(ty), bytes)),
            None => Err(malformed_before(bytes, Reason::Byte)),
        },
    }
}

/// A type of functions after its first byte.
#[tactic(auto, unfolding(crate::specs::Types::function_at))]
pub(crate) fn function_of(alloc: Global, bytes: &[u8]) -> Result<(FuncType, &[u8]), Unread>
    ensures { Gives (λ x. (x.0, x.1.now)) result (function_at bytes.now) }
{
    let (params, rest) = many_of(alloc, bytes)?;
    let (result, rest) = result_of(rest)?;
    Ok((FuncType { params, result }, rest))
}
