//! What is put at the end of a buffer. No writer lowers the capacity of the buffer, and none takes memory if the buffer
//! has room for what it writes.
#![tactic(auto, using(crate::proofs::Steps::writing))]

ghost use Rattle.std.specs.Prelude.{◌≡◌, ℕ, vec_len, Vec};
ghost use Rattle.std.specs.declared.alloc.Global.{Global};
ghost use Rattle.smith_format.specs.Piece.{Piece, byte, bytes};
ghost use Rattle.smith_format.specs.Writing.{Puts, Appends, IsLengthOf};

use smith_input::Error;

/// The binary format of the core specification, as the name of a format.
pub struct CoreFormat {}

/// What has an encoding in a format, which a type names. Public only for the crates above.
pub trait Spelled<Format> {
    ghost piece: { Self → Piece };

    /// Puts the encoding at the end of a buffer. After an error, part of it may be there.
    fn put(&self, out: &mut Vec<u8>) -> Result<(), Error>
        ensures { Puts result out.old out.new (piece self.now) };

    /// The length of the encoding; None exactly if it has none of at most 4,294,967,295 bytes.
    fn spelled_len(&self) -> Option<u32>
        ensures { IsLengthOf result (piece self.now) };
}

/// Returns the result of a writer that began at `start`. After an error what it wrote is cut off again. Public only for
/// the crates above.
pub fn settled(out: &mut Vec<u8>, start: usize, given: Result<(), Error>) -> Result<(), Error>
    ensures { (old : Vec ℕ Global) (p : Piece) → Puts given old out.old p → start ≡ vec_len old
        → Appends result old out.new p }
{
    if given.is_err() {
        out.truncate(start);
    }
    given
}

/// Appends an encoding. After an error the buffer has the bytes that it had. Public only for the crates above.
pub fn write_spelled<Format, T: Spelled<Format>>(out: &mut Vec<u8>, item: &T) -> Result<(), Error>
    ensures { Appends result out.old out.new (T.piece item.now) }
{
    let start = out.len();
    let given = item.put(out);
    settled(out, start, given)
}

/// Appends bytes as they are. Public only for the crates above.
pub fn write_bytes(out: &mut Vec<u8>, contents: &[u8]) -> Result<(), Error>
    ensures { Appends result out.old out.new (bytes contents.now) }
{
    out.extend_from_slice(contents)?;
    Ok(())
}

/// Appends a byte. Public only for the crates above.
pub fn write_byte(out: &mut Vec<u8>, value: u8) -> Result<(), Error>
    ensures { Appends result out.old out.new (byte value) }
{
    out.reserve(1)?;
    out.push_reserved(value);
    Ok(())
}
