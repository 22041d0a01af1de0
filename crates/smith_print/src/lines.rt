//! Entries on lines of their own.

ghost use Rattle.std.specs.Prelude.{◌≡◌, ℕ, List, ◌++◌, drop, length, IfOk, String, string_bytes, string_len};
ghost use Rattle.std.specs.declared.alloc.Global.{Global};
ghost use Rattle.smith_print.specs.Lines.{after_all, closed, entry_lines, lines};
ghost use Rattle.smith_print.specs.declared.spaces.IndexSpaces.{IndexSpaces};
ghost use Rattle.smith_print.specs.Printing.{Prints};
ghost use Rattle.smith_print.specs.Words.{item_line};

use crate::spaces::IndexSpaces;
use crate::words::print_line;
use std::alloc::AllocError;

/// The offsets of the items to come, or none.
#[derive(Drop)]
pub(crate) struct Offsets<'a> {
    pub(crate) left: &'a [usize],
}

/// Begins the line of an item, which stands behind its offset, if there is one.
pub(crate) fn begin_entry(
    out: &mut String,
    columns: usize,
    offsets: &mut Offsets<'_>,
) -> Result<(), AllocError>
    ensures printed { Prints result out.old out.new (item_line columns offsets.old.left.now) }
    ensures passed { IfOk result (λ _. offsets.new.left.now ≡ drop 1 offsets.old.left.now) }
{
    print_line(out, columns)?;
    let Some((offset, left)) = offsets.left.split_first() else {
        return Ok(());
    };
    offsets.left = left;
    write!(out, "(;@{offset};) ")
}

/// What has a line of its own.
pub(crate) trait Line {
    ghost text: { Self → ℕ → IndexSpaces → List ℕ };

    ghost after: { Self → IndexSpaces → IndexSpaces };

    /// Prints it at an indent of so many columns. It takes its index from the index spaces.
    fn print(
        &self,
        out: &mut String,
        columns: usize,
        spaces: &mut IndexSpaces,
    ) -> Result<(), AllocError>
        ensures printed { Prints result out.old out.new (text self.now columns spaces.old) }
        ensures indexes { IfOk result (λ _. spaces.new ≡ after self.now spaces.old) };
}

/// Prints entries, each on a line of its own and behind its offset.
pub(crate) fn print_entries<T: Line>(
    out: &mut String,
    columns: usize,
    spaces: &mut IndexSpaces,
    offsets: &mut Offsets<'_>,
    entries: &[T],
) -> Result<(), AllocError>
    ensures printed { Prints result out.old out.new
        (entry_lines T.text T.after columns spaces.old offsets.old.left.now entries.now) }
    ensures indexes { IfOk result (λ _. spaces.new ≡ after_all T.after spaces.old entries.now) }
    ensures passed { IfOk result (λ _. offsets.new.left.now ≡ drop (length entries.now) offsets.old.left.now) }
{
    for entry in entries {
        begin_entry(out, columns, offsets)?;
        entry.print(out, columns, spaces)?;
    }
    Ok(())
}

/// The same without offsets.
pub(crate) fn print_lines<T: Line>(
    out: &mut String,
    columns: usize,
    spaces: &mut IndexSpaces,
    entries: &[T],
) -> Result<(), AllocError>
    ensures printed { Prints result out.old out.new (lines T.text T.after columns spaces.old entries.now) }
    ensures indexes { IfOk result (λ _. spaces.new ≡ after_all T.after spaces.old entries.now) }
{
    print_entries(out, columns, spaces, &mut Offsets { left: &[] }, entries)
}

/// Prints a closing parenthesis after contents, which are all from `start` on.
pub(crate) fn print_end(out: &mut String, columns: usize, start: usize) -> Result<(), AllocError>
    ensures { (before : String Global) (contents : List ℕ) → start ≡ string_len before
        → string_bytes out.old ≡ string_bytes before ++ contents
        → Prints result before out.new (closed columns contents) }
{
    let is_empty = out.len() == start;
    if !is_empty {
        print_line(out, columns)?;
    }
    write!(out, ")")
}
