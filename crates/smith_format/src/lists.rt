//! Lists in the binary format: a count, and then each member.
#![tactic(auto, using(crate::proofs::Steps::writing, crate::proofs::Sizes::measuring))]

ghost use Rattle.std.specs.Prelude.{ℕ};
ghost use Rattle.smith_format.specs.Piece.{◌⊕◌, byte, many};
ghost use Rattle.smith_format.specs.Writing.{Puts, IsLengthOf};

use crate::buffer::{Spelled, write_byte};
use crate::numbers::{count_len, write_count};
use smith_input::Error;

/// Puts a list at the end of a buffer. After an error, part of it may be there. Public only for the crates above.
#[inline(always)]
pub fn put_many<Format, T: Spelled<Format>>(out: &mut Vec<u8>, items: &[T]) -> Result<(), Error>
    ensures { Puts result out.old out.new (many T.piece items.now) }
{
    write_count(out, items.len())?;
    for item in items {
        item.put(out)?;
    }
    Ok(())
}

/// The length of a list's encoding; None exactly if it has none of at most 4,294,967,295 bytes. Public only for the
/// crates above.
pub fn many_len<Format, T: Spelled<Format>>(items: &[T]) -> Option<u32>
    ensures { IsLengthOf result (many T.piece items.now) }
{
    let mut total: u32 = 0;
    for item in items {
        total = total.checked_add(item.spelled_len()?)?;
    }
    count_len(items.len())?.checked_add(total)
}

/// Puts a list after the byte that says what it is. Public only for the crates above.
#[inline(always)]
pub fn put_tagged<Format, T: Spelled<Format>>(
    out: &mut Vec<u8>,
    tag: u8,
    items: &[T],
) -> Result<(), Error>
    ensures { Puts result out.old out.new (byte tag ⊕ many T.piece items.now) }
{
    write_byte(out, tag)?;
    put_many(out, items)
}

/// The length of a list after the byte that says what it is. Public only for the crates above.
pub fn tagged_len<Format, T: Spelled<Format>>(items: &[T]) -> Option<u32>
    ensures { (tag : ℕ) → IsLengthOf result (byte tag ⊕ many T.piece items.now) }
{
    many_len(items)?.checked_add(1)
}
