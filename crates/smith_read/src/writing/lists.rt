//! Lists, and the sections that hold them.
#![tactic(auto, using(smith_format::proofs::Steps::writing))]

ghost use Rattle.smith_format.specs.Piece.{Piece, many, sized};
ghost use Rattle.smith_format.specs.Writing.{Puts};
ghost use Rattle.smith_read.specs.Leads.{Precedes};

use crate::writing::backwards::put_section;
use smith_format::write_count;
use smith_input::Error;

/// What has a piece of its own in a list.
pub(crate) trait Written {
    ghost piece: { Self → Piece };

    /// Puts the piece. After an error, part of it may be there.
    fn put(&self, out: &mut Vec<u8>) -> Result<(), Error>
        ensures { Puts result out.old out.new (piece self.now) };
}

/// Puts a list: its count, and then each member.
pub(crate) fn put_list<T: Written>(out: &mut Vec<u8>, items: &[T]) -> Result<(), Error>
    ensures { Puts result out.old out.new (many T.piece items.now) }
{
    write_count(out, items.len())?;
    for item in items {
        item.put(out)?;
    }
    Ok(())
}

/// Puts a section that holds a list in front of what follows it.
pub(crate) fn put_list_section<T: Written>(
    out: &mut Vec<u8>,
    id: u8,
    items: &[T],
) -> Result<(), Error>
    ensures { Precedes result out.old out.new (sized id (many T.piece items.now)) }
{
    let start = out.len();
    put_list(out, items)?;
    put_section(out, start, id)
}
