//! Why bytes are not read as a component: what stands there, by name.

use smith_core::{COMPONENT_PREAMBLE, CORE_PREAMBLE};
use smith_read::{Reason, frame_of};
use std::fmt;

/// What bytes that begin as a core module does are called.
pub const CORE_MODULE: &str = "a core module, not a component";

// The id of a section that is a component.
const COMPONENT: u8 = 4;

// What is in sections, by their ids (Binary.md, components).
const CONTENTS: [&str; 13] = [
    "custom",
    "core module",
    "core instances",
    "core types",
    "component",
    "instances",
    "aliases",
    "types",
    "canonical functions",
    "start",
    "imports",
    "exports",
    "values",
];

/// Bytes that are not read as a component, with what is wrong, and the offset at which that was seen.
#[derive(Clone, Copy)]
pub struct Unread<'a> {
    bytes: &'a [u8],
    reason: Reason,
    offset: usize,
}

// A section, by its id.
#[derive(Clone, Copy)]
struct Section(u8);

impl fmt::Display for Section {
    fn fmt<W: fmt::Write>(&self, f: &mut fmt::Formatter<W>) -> fmt::Result {
        let id = self.0;
        match CONTENTS.get(usize::from(id)) {
            Some(contents) => write!(f, "section {id} ({contents})"),
            None => write!(f, "section {id}"),
        }
    }
}

// What follows the preamble of the component that begins there.
fn contents_from(bytes: &[u8], start: usize) -> Option<&[u8]> {
    bytes.get(start.saturating_add(COMPONENT_PREAMBLE.len())..)
}

impl<'a> Unread<'a> {
    /// Bytes that are not read, for this reason at that offset.
    pub fn new(bytes: &'a [u8], reason: Reason, offset: usize) -> Unread<'a> {
        Unread {
            bytes,
            reason,
            offset,
        }
    }

    /// Whether they begin as a core module does.
    pub fn is_core_module(&self) -> bool {
        self.bytes.starts_with(&CORE_PREAMBLE)
    }

    // How many bytes precede what is left.
    fn before(&self, rest: &[u8]) -> usize {
        self.bytes.len().saturating_sub(rest.len())
    }

    // The innermost section around the offset. `None` if a section begins there.
    fn section_around(&self) -> Option<Section> {
        let mut rest = contents_from(self.bytes, 0)?;
        for _ in 0..self.bytes.len() {
            if self.offset <= self.before(rest) {
                return None;
            }
            let (id, framed) = rest.split_first()?;
            let (contents, after) = frame_of(framed).ok()?;
            let start = self.before(after).saturating_sub(contents.len());
            if *id == COMPONENT && start < self.offset {
                rest = contents_from(self.bytes, start)?;
            } else if self.offset < self.before(after) {
                return Some(Section(*id));
            } else {
                rest = after;
            }
        }
        None
    }

    // That something which the standard has is not read.
    fn put_part<W: fmt::Write, T: fmt::Display>(
        &self,
        f: &mut fmt::Formatter<W>,
        what: &T,
    ) -> fmt::Result {
        let offset = self.offset;
        write!(
            f,
            "{what} not read at offset {offset}: Lupinanon reads only part of the component model"
        )
    }

    // That no encoding has this byte there.
    fn put_byte<W: fmt::Write>(&self, f: &mut fmt::Formatter<W>, byte: u8) -> fmt::Result {
        match self.section_around() {
            Some(section) => self.put_part(f, &format_args!("byte {byte:#04x} in {section} is")),
            None => write!(f, "no section has the id {byte} at offset {}", self.offset),
        }
    }

    fn put_preamble<W: fmt::Write>(&self, f: &mut fmt::Formatter<W>) -> fmt::Result {
        f.write_str("a preamble is missing")?;
        if let Some(section) = self.section_around() {
            write!(f, " in {section}")?;
        }
        write!(f, " at offset {}", self.offset)
    }
}

impl fmt::Display for Unread<'_> {
    fn fmt<W: fmt::Write>(&self, f: &mut fmt::Formatter<W>) -> fmt::Result {
        if self.is_core_module() {
            return f.write_str(CORE_MODULE);
        }
        let Unread { reason, offset, .. } = *self;
        match (reason, self.bytes.get(offset)) {
            (Reason::Section, Some(id)) => self.put_part(f, &format_args!("{} is", Section(*id))),
            (Reason::Byte, Some(byte)) => self.put_byte(f, *byte),
            (Reason::Options, _) => self.put_part(f, &"canonical options are"),
            (Reason::Preamble, _) => self.put_preamble(f),
            _ => write!(f, "{reason} at offset {offset}"),
        }
    }
}
