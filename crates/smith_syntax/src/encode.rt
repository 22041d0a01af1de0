//! Types in the binary format (Binary.md, type definitions), and the lengths of their encodings. No writer lowers the
//! capacity of its buffer, and none takes memory if the buffer has room for what it writes.
#![tactic(auto, using(crate::proofs::Encoding::encoding))]

mod core_types;
mod declarations;
mod defined;
mod externs;
mod values;

ghost use Rattle.std.specs.Prelude.{◌≤◌};
ghost use Rattle.smith_format.specs.Piece.{bytes};
ghost use Rattle.smith_format.specs.Writing.{Puts, Appends, Takes, IsLengthOf};
ghost use Rattle.smith_syntax.specs.Grammar.{resultlist, functype, entry};
ghost use Rattle.smith_syntax.specs.Shown.{shown_type, shown_shared};

use crate::deftype::DefType;
use crate::func::FuncType;
use crate::types::ComponentValType;
pub use core_types::{core_type_len, write_core_type};
use declarations::{
    component_decls_len, instance_decls_len, put_component_decls, put_instance_decls,
};
use defined::defined_len;
pub use defined::put_defined;
pub use externs::{import_len, put_named, write_import};
use smith_format::{Spelled, put_tagged, tagged_len, write_byte, write_bytes, write_spelled};
use smith_input::Error;
use std::rc::Rc;
pub use values::ComponentFormat;
use values::{put_val, val_len};

fn put_result(out: &mut Vec<u8>, ty: Option<ComponentValType>) -> Result<(), Error>
    ensures { Puts result out.old out.new (resultlist ty) }
{
    match ty {
        Some(ty) => {
            write_byte(out, 0x00)?;
            put_val(out, ty)
        }
        None => write_bytes(out, &[0x01, 0x00]),
    }
}

fn result_len(ty: Option<ComponentValType>) -> u32
    ensures length { Takes result (resultlist ty) }
    ensures most { result ≤ 6 }
{
    match ty {
        Some(ty) => 1 + val_len(ty),
        None => 2,
    }
}

/// Puts a function type at the end of a buffer. After an error, part of it may be there. Public only for the crates
/// above.
pub fn put_function(out: &mut Vec<u8>, ty: &FuncType) -> Result<(), Error>
    ensures { Puts result out.old out.new (functype ty.now) }
{
    put_tagged(out, 0x40, &ty.params)?;
    put_result(out, ty.result)
}

fn function_len(ty: &FuncType) -> Option<u32>
    ensures { IsLengthOf result (functype ty.now) }
{
    tagged_len(&ty.params)?.checked_add(result_len(ty.result))
}

// A type of any kind. After an error, part of it may be in the buffer.
#[cycle(writers)]
fn put_type(out: &mut Vec<u8>, ty: &DefType) -> Result<(), Error>
    ensures { Puts result out.old out.new (entry (shown_type ty.now)) }
{
    match ty {
        DefType::Defined(ty) => put_defined(out, ty),
        DefType::Func(ty) => put_function(out, ty),
        DefType::Component(ty) => {
            write_byte(out, 0x41)?;
            put_component_decls(out, &ty.defs)
        }
        DefType::Instance(ty) => {
            write_byte(out, 0x42)?;
            put_instance_decls(out, &ty.defs)
        }
    }
}

/// The length of a type's encoding; None exactly if it has none of at most 4,294,967,295 bytes.
#[cycle(lengths)]
pub fn type_len(ty: &DefType) -> Option<u32>
    ensures { IsLengthOf result (entry (shown_type ty.now)) }
{
    match ty {
        DefType::Defined(ty) => defined_len(ty),
        DefType::Func(ty) => function_len(ty),
        DefType::Component(ty) => component_decls_len(&ty.defs)?.checked_add(1),
        DefType::Instance(ty) => instance_decls_len(&ty.defs)?.checked_add(1),
    }
}

impl Spelled<ComponentFormat> for DefType {
    ghost piece = { λ t. entry (shown_type t) };

    fn put(&self, out: &mut Vec<u8>) -> Result<(), Error> {
        put_type(out, self)
    }

    fn spelled_len(&self) -> Option<u32> {
        type_len(self)
    }
}

/// Appends a type. It is too long if a count or the length of a name in it exceeds 4,294,967,295.
pub fn write_type(out: &mut Vec<u8>, ty: &DefType) -> Result<(), Error>
    ensures { Appends result out.old out.new (entry (shown_type ty.now)) }
{
    write_spelled(out, ty)
}

impl Spelled<ComponentFormat> for Rc<DefType> {
    ghost piece = { λ t. entry (shown_shared t) };

    fn put(&self, out: &mut Vec<u8>) -> Result<(), Error> {
        write_type(out, self)
    }

    fn spelled_len(&self) -> Option<u32> {
        type_len(self)
    }
}
