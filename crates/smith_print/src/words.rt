//! Words of the text format (core specification, Text Format, Lexical Format and Values).

ghost use Rattle.std.specs.Prelude.{◌≡◌, ◌<◌, ℕ, Some};
ghost use Rattle.std.specs.Fmt.{digits};
ghost use Rattle.smith_print.specs.Printing.{Prints};
ghost use Rattle.smith_print.specs.Words.{character, deeper, line, quoted, stands};

use std::alloc::AllocError;
use std::fmt;

// Deeper contents are indented no further.
const MOST_COLUMNS: usize = 40;

/// The indent of what is in something, in columns.
pub(crate) fn deeper(columns: usize) -> usize
    ensures { result ≡ deeper columns }
{
    if columns < MOST_COLUMNS {
        columns + 2
    } else {
        columns
    }
}

/// Ends the line, and indents the next one.
pub(crate) fn print_line(out: &mut String, columns: usize) -> Result<(), AllocError>
    ensures { Prints result out.old out.new (line columns) }
{
    out.push_str("\n")?;
    for _ in 0..columns {
        out.push_str(" ")?;
    }
    Ok(())
}

fn stands(byte: u8) -> bool
    ensures { result ≡ stands byte }
{
    byte >= 32 && byte < 127 && byte != b'"' && byte != b'\\'
}

/// Bytes as a string (Values, Strings).
#[derive(Clone, Copy)]
pub(crate) struct Quoted<'a>(pub(crate) &'a [u8]);

#[derive(Clone, Copy)]
struct Character(u8);

impl fmt::Display for Character {
    ghost output = { λ c. Some (character c.0) };

    fn fmt<W: fmt::Write>(&self, f: &mut fmt::Formatter<W>) -> fmt::Result {
        if stands(self.0) {
            return f.write_char(char::from(self.0));
        }
        let high = self.0 / 16;
        let low = self.0 % 16;
        write!(f, "\\{high:x}{low:x}")
    }
}

impl<'a> fmt::Display for Quoted<'a> {
    ghost output = { λ q. Some (quoted q.0.now) };

    fn fmt<W: fmt::Write>(&self, f: &mut fmt::Formatter<W>) -> fmt::Result {
        f.write_str("\"")?;
        for byte in self.0 {
            Character(*byte).fmt(f)?;
        }
        f.write_str("\"")
    }
}
