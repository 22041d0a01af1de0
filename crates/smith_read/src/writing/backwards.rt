//! Texts that are written backwards: a buffer holds the last byte of a text first. So the contents of a section are
//! there before its head, which says how long they are, and no byte is moved again for each section around it.
#![tactic(auto, using(smith_format::proofs::Steps::writing))]

ghost use Rattle.std.specs.Prelude.{◌≡◌, ℕ, ◌≤◌, vec_len, Vec};
ghost use Rattle.std.specs.declared.alloc.Global.{Global};
ghost use Rattle.smith_format.specs.Piece.{Piece, sized};
ghost use Rattle.smith_format.specs.Writing.{Gains};
ghost use Rattle.smith_read.specs.Leads.{Leads, Precedes};

use smith_format::write_head;
use smith_input::Error;

/// Reverses what was put forwards, all from `start` on.
pub(crate) fn reverse_from(out: &mut Vec<u8>, start: usize)
    requires { start ≤ vec_len out.old }
    ensures reversed { (old : Vec ℕ Global) (p : Piece) → start ≡ vec_len old → Gains old out.old p
        → Leads old out.new p }
    ensures len { vec_len out.new ≡ vec_len out.old }
{
    out[start..].reverse();
}

/// Puts the head of a section in front of its contents, which are all from `start` on.
pub(crate) fn put_head(out: &mut Vec<u8>, start: usize, id: u8) -> Result<(), Error>
    requires { start ≤ vec_len out.old }
    ensures { (old : Vec ℕ Global) (p : Piece) → start ≡ vec_len old → Leads old out.old p
        → Precedes result old out.new (sized id p) }
{
    let end = out.len();
    let Ok(length) = u32::try_from(end - start) else {
        return Err(Error::TooLong);
    };
    write_head(out, id, length)?;
    reverse_from(out, end);
    Ok(())
}

/// Makes a section of contents that were put forwards, which are all from `start` on.
pub(crate) fn put_section(out: &mut Vec<u8>, start: usize, id: u8) -> Result<(), Error>
    requires { start ≤ vec_len out.old }
    ensures { (old : Vec ℕ Global) (p : Piece) → start ≡ vec_len old → Gains old out.old p
        → Precedes result old out.new (sized id p) }
{
    reverse_from(out, start);
    put_head(out, start, id)
}
