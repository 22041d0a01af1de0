//! Sections whose contents are written before their length is known.
#![tactic(auto, using(crate::proofs::Steps::writing, crate::proofs::Sizes::measuring))]

ghost use Rattle.std.specs.Prelude.{◌≡◌, ℕ, ◌+◌, ◌≤◌, IfOk, vec_len, Vec};
ghost use Rattle.std.specs.declared.alloc.Global.{Global};
ghost use Rattle.smith_format.specs.Piece.{Piece, ◌⊕◌, byte, sized};
ghost use Rattle.smith_format.specs.Writing.{Puts, Gains};

use crate::buffer::write_byte;
use smith_input::Error;

/// Writes the id of a section and one byte in place of the length of its contents, and returns where that byte is.
/// Public only for the crates above.
pub fn begin_section(out: &mut Vec<u8>, id: u8) -> Result<usize, Error>
    ensures begins { Puts result out.old out.new (byte id ⊕ byte 0) }
    ensures place { IfOk result (λ start. start ≡ vec_len out.old + 1) }
{
    write_byte(out, id)?;
    let start = out.len();
    write_byte(out, 0)?;
    Ok(start)
}

/// Writes the length of the contents of a section, which end the buffer, in place of the byte at `start`. The contents
/// move back if the length takes more than one byte. Public only for the crates above.
pub fn end_section(out: &mut Vec<u8>, start: usize) -> Result<(), Error>
    requires { start + 1 ≤ vec_len out.old }
    ensures { (old : Vec ℕ Global) (id : ℕ) (p : Piece) → vec_len old + 1 ≡ start
        → Gains old out.old ((byte id ⊕ byte 0) ⊕ p) → Puts result old out.new (sized id p) }
{
    let Ok(length) = u32::try_from(out.len() - start - 1) else {
        return Err(Error::TooLong);
    };
    let mut rest = length;
    let mut at = start;
    while rest >= 128 {
        out.insert(at, (rest % 128) as u8 + 128)?;
        rest /= 128;
        at += 1;
    }
    out[at] = rest as u8;
    Ok(())
}
