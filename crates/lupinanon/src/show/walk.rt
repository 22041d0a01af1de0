//! The place of a walk over a component's nodes. Nodes have no offsets: their bytes are passed one after another.

use smith_print::{IndexSpaces, next};
use smith_read::{Readable, count_of};
use std::alloc::{AllocError, Global};
use std::fmt;

// Deeper lines are indented as at this level: so a line is at most 64 times as long as its bytes, whatever the depth.
const MOST_LEVELS: usize = 14;

/// Where the bytes are that a line is of.
#[derive(Clone, Copy)]
pub(crate) struct Place {
    /// How many bytes precede them.
    pub(crate) offset: usize,
    /// How many sections, components and types they are in.
    pub(crate) depth: usize,
}

/// The place of a walk.
#[derive(Drop)]
pub(crate) struct Walk<'a> {
    pub(crate) alloc: Global,
    bytes: &'a [u8],
    // What is next.
    rest: &'a [u8],
    // How many sections precede it.
    sections: usize,
    /// The index spaces that precede it.
    pub(crate) spaces: IndexSpaces,
    // The sections and the index spaces of the components and types around it, outermost first.
    outer: Vec<(usize, IndexSpaces)>,
    /// The places of the lines so far, if they are kept. The lines begin without them then.
    pub(crate) places: Option<Vec<Place>>,
}

impl<'a> Walk<'a> {
    /// The beginning of the bytes.
    pub(crate) fn new(alloc: Global, bytes: &'a [u8]) -> Walk<'a> {
        Walk {
            alloc,
            bytes,
            rest: bytes,
            sections: 0,
            spaces: IndexSpaces::new(),
            outer: Vec::new(alloc),
            places: None,
        }
    }

    /// Enters what has index spaces of its own.
    pub(crate) fn enter(&mut self) -> Result<(), AllocError> {
        self.outer.push((self.sections, self.spaces))?;
        self.sections = 0;
        self.spaces = IndexSpaces::new();
        Ok(())
    }

    /// Leaves it again.
    pub(crate) fn leave(&mut self) {
        if let Some((sections, spaces)) = self.outer.pop() {
            self.sections = sections;
            self.spaces = spaces;
        }
    }

    /// Passes that many bytes.
    pub(crate) fn pass(&mut self, count: usize) {
        self.rest = &self.rest[count.min(self.rest.len())..];
    }

    /// Passes a length, a count or an index, and returns it.
    pub(crate) fn pass_number(&mut self) -> Result<usize, fmt::Error> {
        let Ok((number, rest)) = count_of(self.rest) else {
            return Err(fmt::Error);
        };
        self.rest = rest;
        Ok(number as usize)
    }

    /// Passes an entry or a declaration, which is read once more.
    pub(crate) fn pass_entry<T: Readable>(&mut self) -> fmt::Result {
        let Ok((_entry, rest)) = T::read(self.alloc, self.rest) else {
            return Err(fmt::Error);
        };
        self.rest = rest;
        Ok(())
    }

    // Keeps the place of a line, if places are kept. Returns whether they are.
    fn keep_place(&mut self, place: Place) -> Result<bool, AllocError> {
        match &mut self.places {
            Some(places) => places.push(place)?,
            None => return Ok(false),
        }
        Ok(true)
    }

    // The beginning of a line: the offset of what is next, and the indent.
    fn begin_line<W: fmt::Write>(
        &mut self,
        f: &mut fmt::Formatter<W>,
        depth: usize,
    ) -> fmt::Result {
        let offset = self.bytes.len().saturating_sub(self.rest.len());
        if self.keep_place(Place { offset, depth })? {
            return Ok(());
        }
        write!(f, "{offset:>8}  ")?;
        for _ in 0..depth.min(MOST_LEVELS) {
            f.write_str("  ")?;
        }
        Ok(())
    }

    /// Begins the line of a section, and passes its head. Returns how many bytes the contents have.
    pub(crate) fn begin_section<W: fmt::Write>(
        &mut self,
        f: &mut fmt::Formatter<W>,
    ) -> Result<usize, fmt::Error> {
        let depth = self.outer.len();
        self.begin_line(f, depth)?;
        let number = next(&mut self.sections)?;
        write!(f, "section {number}: ")?;
        self.pass(1);
        self.pass_number()
    }

    /// Begins the line of an entry of a list, or of a declaration of a type.
    pub(crate) fn begin_entry<W: fmt::Write>(&mut self, f: &mut fmt::Formatter<W>) -> fmt::Result {
        let depth = self.outer.len().saturating_add(1);
        self.begin_line(f, depth)
    }
}
