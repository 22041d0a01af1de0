//! Texts, bytes as they are and sections, written at the end of a buffer, and the lengths of what is written.
#![tactic(auto, using(crate::proofs::Steps::writing, crate::proofs::Sizes::measuring))]

ghost use Rattle.std.specs.Prelude.{string_bytes};
ghost use Rattle.smith_format.specs.Piece.{◌⊕◌, byte, bytes, u, raw, text, sized};
ghost use Rattle.smith_format.specs.Writing.{Puts, Appends, IsLengthOf, WantsMemoryFor};

use crate::buffer::{CoreFormat, Spelled, write_byte, write_bytes, write_spelled};
use crate::numbers::{count_len, u32_len, write_count, write_u32};
use smith_input::Error;

const MOST: usize = u32::MAX as usize;

/// Appends bytes that fill the rest of a section. Public only for the crates above.
pub fn write_raw(out: &mut Vec<u8>, rest: &[u8]) -> Result<(), Error>
    ensures written { Appends result out.old out.new (raw rest.now) }
    ensures full { WantsMemoryFor result (raw rest.now) }
{
    write_bytes(out, rest)
}

/// The length of bytes; None exactly if it exceeds 4,294,967,295. Public only for the crates above.
#[tactic(auto, using(crate::proofs::Piece::raw_is, crate::proofs::Sizes::measuring))]
pub fn raw_len(contents: &[u8]) -> Option<u32>
    ensures { IsLengthOf result (raw contents.now) }
{
    u32::try_from(contents.len()).ok()
}

#[inline(always)]
fn put_text(out: &mut Vec<u8>, name: &str) -> Result<(), Error>
    ensures { Puts result out.old out.new (text name.now) }
{
    write_count(out, name.len())?;
    write_bytes(out, name.as_bytes())
}

/// The length of a text after its length; None exactly if it has no encoding of at most 4,294,967,295 bytes.
pub fn text_len(name: &str) -> Option<u32>
    ensures { IsLengthOf result (text name.now) }
{
    let length = u32::try_from(name.len()).ok()?;
    u32_len(length).checked_add(length)
}

impl<'a> Spelled<CoreFormat> for &'a str {
    ghost piece = { λ t. text t.now };

    fn put(&self, out: &mut Vec<u8>) -> Result<(), Error> {
        put_text(out, self)
    }

    fn spelled_len(&self) -> Option<u32> {
        text_len(self)
    }
}

/// Appends a text after its length. It is too long if the length exceeds 4,294,967,295.
pub fn write_text(out: &mut Vec<u8>, name: &str) -> Result<(), Error>
    ensures written { Appends result out.old out.new (text name.now) }
    ensures full { WantsMemoryFor result (text name.now) }
{
    if name.len() > MOST {
        return Err(Error::TooLong);
    }
    write_spelled(out, &name)
}

impl Spelled<CoreFormat> for String {
    ghost piece = { λ t. text (string_bytes t) };

    fn put(&self, out: &mut Vec<u8>) -> Result<(), Error> {
        put_text(out, self)
    }

    fn spelled_len(&self) -> Option<u32> {
        text_len(self)
    }
}

// The head of a section.
#[derive(Drop)]
struct Head {
    id: u8,
    length: u32,
}

impl Spelled<CoreFormat> for Head {
    ghost piece = { λ h. byte h.id ⊕ u h.length };

    fn put(&self, out: &mut Vec<u8>) -> Result<(), Error> {
        write_byte(out, self.id)?;
        write_u32(out, self.length)
    }

    fn spelled_len(&self) -> Option<u32> {
        Some(1 + u32_len(self.length))
    }
}

/// Appends the head of a section: its id and the length of its contents. Public only for the crates above.
pub fn write_head(out: &mut Vec<u8>, id: u8, length: u32) -> Result<(), Error>
    ensures { Appends result out.old out.new (byte id ⊕ u length) }
{
    write_spelled(out, &Head { id, length })
}

// A section of these contents.
#[derive(Drop)]
struct Section<'a> {
    id: u8,
    contents: &'a [u8],
}

impl<'a> Spelled<CoreFormat> for Section<'a> {
    ghost piece = { λ s. sized s.id (bytes s.contents.now) };

    fn put(&self, out: &mut Vec<u8>) -> Result<(), Error> {
        write_byte(out, self.id)?;
        write_count(out, self.contents.len())?;
        write_bytes(out, self.contents)
    }

    fn spelled_len(&self) -> Option<u32> {
        let length = u32::try_from(self.contents.len()).ok()?;
        length.checked_add(1 + u32_len(length))
    }
}

/// Appends a section: its id, the length of its contents, and the contents. It is too long if the length exceeds
/// 4,294,967,295.
pub fn write_section(out: &mut Vec<u8>, id: u8, contents: &[u8]) -> Result<(), Error>
    ensures written { Appends result out.old out.new (sized id (bytes contents.now)) }
    ensures full { WantsMemoryFor result (sized id (bytes contents.now)) }
{
    if contents.len() > MOST {
        return Err(Error::TooLong);
    }
    write_spelled(out, &Section { id, contents })
}
