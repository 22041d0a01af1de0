//! How much there is of something, and which bytes come first.

use std::fmt;

// How many bytes are shown of many.
const MOST_BYTES: usize = 16;

/// So many bytes, as `1 byte` and `2 bytes`.
#[derive(Clone, Copy)]
pub(crate) struct Size(pub(crate) usize);

/// So many entries, as `1 entry` and `2 entries`.
#[derive(Clone, Copy)]
pub(crate) struct Entries(pub(crate) u32);

/// The first bytes, in hexadecimal.
#[derive(Clone, Copy)]
pub(crate) struct First<'a>(pub(crate) &'a [u8]);

impl fmt::Display for Size {
    fn fmt<W: fmt::Write>(&self, f: &mut fmt::Formatter<W>) -> fmt::Result {
        match self.0 {
            1 => f.write_str("1 byte"),
            count => write!(f, "{count} bytes"),
        }
    }
}

impl fmt::Display for Entries {
    fn fmt<W: fmt::Write>(&self, f: &mut fmt::Formatter<W>) -> fmt::Result {
        match self.0 {
            1 => f.write_str("1 entry"),
            count => write!(f, "{count} entries"),
        }
    }
}

impl fmt::Display for First<'_> {
    fn fmt<W: fmt::Write>(&self, f: &mut fmt::Formatter<W>) -> fmt::Result {
        let Some((first, rest)) = self.0.split_first() else {
            return Ok(());
        };
        write!(f, ": {first:02x}")?;
        for byte in rest.iter().take(MOST_BYTES - 1) {
            write!(f, " {byte:02x}")?;
        }
        if self.0.len() > MOST_BYTES {
            f.write_str(" ..")?;
        }
        Ok(())
    }
}
