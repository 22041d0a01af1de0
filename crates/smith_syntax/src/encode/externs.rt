//! Imports and exports in the binary format (Binary.md, import and export definitions).
#![tactic(auto, using(crate::proofs::Encoding::encoding))]

ghost use Rattle.std.specs.Prelude.{◌≤◌};
ghost use Rattle.smith_format.specs.Piece.{bytes};
ghost use Rattle.smith_format.specs.Writing.{Puts, Appends, Takes, IsLengthOf};
ghost use Rattle.smith_syntax.specs.Grammar.{externdesc, named_extern, import_entry};
ghost use Rattle.smith_syntax.specs.Shown.{import_shown};

use super::values::ComponentFormat;
use crate::deftype::{ComponentTypeRef, Import};
use smith_format::{
    Spelled, text_len, u32_len, write_byte, write_bytes, write_spelled, write_text, write_u32,
};
use smith_input::Error;

fn put_reference(out: &mut Vec<u8>, to: ComponentTypeRef) -> Result<(), Error>
    ensures { Puts result out.old out.new (externdesc to) }
{
    match to {
        ComponentTypeRef::Module(i) => {
            write_bytes(out, &[0x00, 0x11])?;
            write_u32(out, i)
        }
        ComponentTypeRef::Func(i) => {
            write_byte(out, 0x01)?;
            write_u32(out, i)
        }
        ComponentTypeRef::TypeEq(i) => {
            write_bytes(out, &[0x03, 0x00])?;
            write_u32(out, i)
        }
        ComponentTypeRef::Component(i) => {
            write_byte(out, 0x04)?;
            write_u32(out, i)
        }
        ComponentTypeRef::Instance(i) => {
            write_byte(out, 0x05)?;
            write_u32(out, i)
        }
    }
}

fn reference_len(to: ComponentTypeRef) -> u32
    ensures length { Takes result (externdesc to) }
    ensures most { result ≤ 7 }
{
    match to {
        ComponentTypeRef::Module(i) | ComponentTypeRef::TypeEq(i) => 2 + u32_len(i),
        ComponentTypeRef::Func(i)
        | ComponentTypeRef::Component(i)
        | ComponentTypeRef::Instance(i) => 1 + u32_len(i),
    }
}

/// Puts a name and what it is of at the end of a buffer. After an error, part of it may be there. Public only for the
/// crates above.
pub fn put_named(out: &mut Vec<u8>, name: &str, to: ComponentTypeRef) -> Result<(), Error>
    ensures { Puts result out.old out.new (named_extern name.now to) }
{
    write_byte(out, 0x00)?;
    write_text(out, name)?;
    put_reference(out, to)
}

pub(super) fn named_len(name: &str, to: ComponentTypeRef) -> Option<u32>
    ensures { IsLengthOf result (named_extern name.now to) }
{
    text_len(name)?.checked_add(1 + reference_len(to))
}

impl Spelled<ComponentFormat> for Import {
    ghost piece = { λ i. import_entry (import_shown i) };

    fn put(&self, out: &mut Vec<u8>) -> Result<(), Error> {
        put_named(out, &self.name, self.ty)
    }

    fn spelled_len(&self) -> Option<u32> {
        named_len(&self.name, self.ty)
    }
}

/// Appends an import, without its URL. It is too long if the length of its name exceeds 4,294,967,295.
pub fn write_import(out: &mut Vec<u8>, import: &Import) -> Result<(), Error>
    ensures { Appends result out.old out.new (import_entry (import_shown import.now)) }
{
    write_spelled(out, import)
}

/// The length of an import's encoding; None exactly if it has none of at most 4,294,967,295 bytes.
pub fn import_len(import: &Import) -> Option<u32>
    ensures { IsLengthOf result (import_entry (import_shown import.now)) }
{
    import.spelled_len()
}
