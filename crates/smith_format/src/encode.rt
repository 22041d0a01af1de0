//! Value types and function types in the binary format (core specification, Binary Format, Types), and the lengths of
//! their encodings. No writer lowers the capacity of its buffer, and none takes memory if the buffer has room for what
//! it writes.
#![tactic(auto, using(crate::proofs::Steps::writing, crate::proofs::Sizes::measuring))]

ghost use Rattle.std.specs.Prelude.{◌≡◌, ◌≢◌, ◌≤◌};
ghost use Rattle.smith_format.specs.CoreTypes.{core_val, ref_val, core_function};
ghost use Rattle.smith_format.specs.Piece.{byte, many};
ghost use Rattle.smith_format.specs.declared.types.ValType.TheVariants.{Ref};
ghost use Rattle.smith_format.specs.Shown.{shown_func};
ghost use Rattle.smith_format.specs.Writing.{Puts, Appends, Takes, IsLengthOf};

use crate::buffer::{CoreFormat, Spelled, write_byte, write_spelled};
use crate::lists::many_len;
use crate::numbers::{type_index_len, write_count, write_type_index};
use crate::types::{FuncType, RefType, ValType};
use smith_input::Error;

#[inline(always)]
pub(crate) fn put_ref(out: &mut Vec<u8>, ty: RefType) -> Result<(), Error>
    ensures { Puts result out.old out.new (ref_val ty) }
{
    match ty {
        RefType::FuncRef => write_byte(out, 0x70),
        RefType::ExternRef => write_byte(out, 0x6f),
        RefType::Concrete { nullable, index } => {
            let form = if nullable { 0x63 } else { 0x64 };
            write_byte(out, form)?;
            write_type_index(out, index)
        }
    }
}

#[tactic(auto, using(crate::proofs::CoreTypes::takes_concrete))]
pub(crate) fn ref_len(ty: RefType) -> u32
    ensures length { Takes result (ref_val ty) }
    ensures most { result ≤ 6 }
{
    match ty {
        RefType::FuncRef | RefType::ExternRef => 1,
        RefType::Concrete { nullable: _, index } => 1 + type_index_len(index),
    }
}

// The code of a number type or of the vector type. It is not inlined, so that it becomes a table: a jump for each type
// could not be foreseen.
#[inline(never)]
fn number_code(ty: ValType) -> u8
    requires { (r : RefType) → ty ≢ Ref r }
    ensures { core_val ty ≡ byte result }
{
    match ty {
        ValType::I32 => 0x7f,
        ValType::I64 => 0x7e,
        ValType::F32 => 0x7d,
        ValType::F64 => 0x7c,
        ValType::V128 => 0x7b,
        ValType::Ref(_) => unreachable!(),
    }
}

// It is inlined, since lists of value types are written most often.
#[inline(always)]
pub(crate) fn put_core_val(out: &mut Vec<u8>, ty: ValType) -> Result<(), Error>
    ensures { Puts result out.old out.new (core_val ty) }
{
    match ty {
        ValType::Ref(ty) => put_ref(out, ty),
        _ => write_byte(out, number_code(ty)),
    }
}

// Value types after their count.
#[inline(always)]
fn put_values(out: &mut Vec<u8>, types: &[ValType]) -> Result<(), Error>
    ensures { Puts result out.old out.new (many core_val types.now) }
{
    write_count(out, types.len())?;
    for ty in types {
        put_core_val(out, *ty)?;
    }
    Ok(())
}

/// The length of a value type's encoding. Public only for the crates above.
pub fn core_val_len(ty: ValType) -> u32
    ensures length { Takes result (core_val ty) }
    ensures most { result ≤ 6 }
{
    match ty {
        ValType::Ref(ty) => ref_len(ty),
        ValType::I32 | ValType::I64 | ValType::F32 | ValType::F64 | ValType::V128 => 1,
    }
}

impl Spelled<CoreFormat> for ValType {
    ghost piece = { λ t. core_val t };

    fn put(&self, out: &mut Vec<u8>) -> Result<(), Error> {
        put_core_val(out, *self)
    }

    fn spelled_len(&self) -> Option<u32> {
        Some(core_val_len(*self))
    }
}

/// Appends a value type. Public only for the crates above.
pub fn write_core_val(out: &mut Vec<u8>, ty: ValType) -> Result<(), Error>
    ensures { Appends result out.old out.new (core_val ty) }
{
    write_spelled(out, &ty)
}

impl Spelled<CoreFormat> for FuncType {
    ghost piece = { λ t. core_function (shown_func t) };

    fn put(&self, out: &mut Vec<u8>) -> Result<(), Error> {
        write_byte(out, 0x60)?;
        put_values(out, &self.params)?;
        put_values(out, &self.results)
    }

    #[inline(always)]
    fn spelled_len(&self) -> Option<u32> {
        let params = many_len(&self.params)?.checked_add(1)?;
        params.checked_add(many_len(&self.results)?)
    }
}

/// Appends a function type. It is too long if a count in it exceeds 4,294,967,295. Public only for the crates above.
pub fn write_func_type(out: &mut Vec<u8>, ty: &FuncType) -> Result<(), Error>
    ensures { Appends result out.old out.new (core_function (shown_func ty.now)) }
{
    write_spelled(out, ty)
}

/// The length of a function type's encoding; None exactly if it has none of at most 4,294,967,295 bytes. Public only
/// for the crates above.
pub fn func_type_len(ty: &FuncType) -> Option<u32>
    ensures { IsLengthOf result (core_function (shown_func ty.now)) }
{
    ty.spelled_len()
}
