//! The sections of a core module, of which ids, lengths and counts are read.

use super::amounts::{Entries, First, Size};
use super::walk::Walk;
use smith_core::CORE_PREAMBLE;
use smith_read::{count_of, frame_of};
use std::fmt;

// What is in the sections of core modules, by their ids (core specification, binary format, sections).
const CONTENTS: [&str; 14] = [
    "custom",
    "types",
    "imports",
    "functions",
    "tables",
    "memories",
    "globals",
    "exports",
    "start",
    "elements",
    "code",
    "data",
    "data count",
    "tags",
];

#[derive(Clone, Copy)]
struct Section<'a> {
    id: u8,
    contents: &'a [u8],
}

// The section in front, and what follows it.
fn section_of(bytes: &[u8]) -> Option<(Section<'_>, &[u8])> {
    let (id, framed) = bytes.split_first()?;
    let (contents, rest) = frame_of(framed).ok()?;
    let section = Section { id: *id, contents };
    Some((section, rest))
}

// The name of a custom section, and what follows it.
fn custom_of(contents: &[u8]) -> Option<(&str, &[u8])> {
    let (name, rest) = frame_of(contents).ok()?;
    Some((str::from_utf8(name).ok()?, rest))
}

impl Section<'_> {
    // How many entries it begins with, if it is a list.
    fn entries(&self) -> Option<Entries> {
        if !matches!(self.id, 1..=7 | 9..=11 | 13) {
            return None;
        }
        let (count, _entries) = count_of(self.contents).ok()?;
        Some(Entries(count))
    }

    fn show_size<W: fmt::Write>(&self, f: &mut fmt::Formatter<W>) -> fmt::Result {
        let size = Size(self.contents.len());
        match CONTENTS.get(usize::from(self.id)) {
            Some(contents) => write!(f, "{contents} of {size}"),
            None => write!(f, "id {} of {size}", self.id),
        }
    }

    // What is in it, and the end of the line.
    fn show<W: fmt::Write>(&self, f: &mut fmt::Formatter<W>) -> fmt::Result {
        if self.id == 0 {
            if let Some((name, bytes)) = custom_of(self.contents) {
                return show_custom(f, name, bytes);
            }
        }
        self.show_size(f)?;
        match self.entries() {
            Some(entries) => writeln!(f, ", {entries}"),
            None => f.write_str("\n"),
        }
    }
}

/// What is in a custom section, and the end of the line.
pub(super) fn show_custom<W: fmt::Write>(
    f: &mut fmt::Formatter<W>,
    name: &str,
    bytes: &[u8],
) -> fmt::Result {
    let size = Size(bytes.len());
    let first = First(bytes);
    writeln!(f, "custom {name:?} of {size}{first}")
}

/// A line for each section of a core module, which is passed, and one for what is left if that is no section.
pub(super) fn show_sections<W: fmt::Write>(
    f: &mut fmt::Formatter<W>,
    walk: &mut Walk<'_>,
    module: &[u8],
) -> fmt::Result {
    walk.enter()?;
    walk.pass(CORE_PREAMBLE.len());
    let mut left = module.get(CORE_PREAMBLE.len()..).unwrap_or_default();
    for _ in 0..module.len() {
        let Some((section, rest)) = section_of(left) else {
            break;
        };
        let len = walk.begin_section(f)?;
        section.show(f)?;
        walk.pass(len);
        left = rest;
    }
    walk.leave();
    if left.is_empty() {
        return Ok(());
    }
    walk.begin_entry(f)?;
    walk.pass(left.len());
    writeln!(f, "rest of {}, not split into sections", Size(left.len()))
}
