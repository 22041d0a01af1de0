//! Bytes that are no component to any reader of the standard, though they are close to one.

ghost use Rattle.std.specs.Prelude.{◌≡◌, ◌≤◌, ◌<◌, ◌⊎◌, ℕ, List, Some, true, false, length, take, option_map, IfOk};
ghost use Rattle.std.specs.Prelude.{IfSome, IsSomeAnd};
ghost use Rattle.smith_format.specs.Piece.{◌⊕◌, byte, u};
ghost use Rattle.smith_read.specs.Framed.{Framed};
ghost use Rattle.smith_change.specs.Miswritten.{AreUnframed, IsMisstep, Miswrites, most_count, with_section};

use crate::change::Changed;
use smith_core::COMPONENT_PREAMBLE;
use smith_format::write_u32;
use smith_read::{Framing, count_of, framed};
use std::alloc::{AllocError, Global};
use std::fmt;

// The section ids of the standard are 0 to 12 (Binary.md, component definitions).
const UNKNOWN_ID: u8 = 13;

// The id of a section that is a component.
const COMPONENT_ID: u8 = 4;

/// What is written wrongly.
///
/// As text: in words, such as `section: longer than it is`.
#[derive(Clone, Copy, Debug, PartialEq, Eq)]
pub enum Miswriting {
    /// The bytes are cut off before their end.
    Cut,
    /// The length of a section is one more.
    Longer,
    /// The length of a section is one less.
    Shorter,
    /// The id of a section is 13, which no section has.
    UnknownSection,
    /// The count of a section that is a list is 4,294,967,295.
    Count,
    /// A byte where the preamble is has its lowest bit turned.
    Preamble,
}

impl Miswriting {
    fn label(self) -> &'static str {
        match self {
            Miswriting::Cut => "bytes: cut off",
            Miswriting::Longer => "section: longer than it is",
            Miswriting::Shorter => "section: shorter than it is",
            Miswriting::UnknownSection => "section: of no known sort",
            Miswriting::Count => "section: of 4294967295 entries",
            Miswriting::Preamble => "preamble: another byte",
        }
    }
}

impl fmt::Display for Miswriting {
    fn fmt<W: fmt::Write>(&self, f: &mut fmt::Formatter<W>) -> fmt::Result {
        f.write_str(self.label())
    }
}

/// Bytes that are written wrongly.
#[derive(Debug, PartialEq, Eq, Drop)]
pub struct Misstep {
    /// Which of the candidates they are, from 0, including those that are not written wrongly.
    pub number: usize,
    pub what: Miswriting,
    pub bytes: Vec<u8>,
}

// The bytes from a section on: its id, its length, and its contents with all that follows them.
#[derive(Clone, Copy)]
struct Section<'a> {
    id: u8,
    length: u32,
    rest: &'a [u8],
}

impl<'a> Section<'a> {
    // Is it a list? Custom sections (0), core modules (1), components (4), start functions (9) and values (12) are not.
    fn is_list(self) -> bool {
        matches!(self.id, 2 | 3 | 5 | 6 | 7 | 8 | 10 | 11)
    }

    // The bytes from the next section on, which may be inside.
    fn next(self) -> &'a [u8] {
        if self.id == COMPONENT_ID && self.rest.starts_with(&COMPONENT_PREAMBLE) {
            return &self.rest[COMPONENT_PREAMBLE.len()..];
        }
        let length = self.rest.len().min(self.length as usize);
        &self.rest[length..]
    }
}

// The section in front, if it has a length and as many bytes.
fn section_of(bytes: &[u8]) -> Option<Section<'_>>
    ensures { IfSome result (λ s. byte s.id ⊕ (u s.length ⊕ Some s.rest.now) ≡ Some bytes.now) }
{
    if bytes.is_empty() {
        return None;
    }
    let Ok((length, rest)) = count_of(&bytes[1..]) else {
        return None;
    };
    if length as usize > rest.len() {
        return None;
    }
    let id = bytes[0];
    Some(Section { id, length, rest })
}

// Where each section begins, at each depth and in order. Each has a byte at least, so there are no more than bytes.
fn sections_of(alloc: Global, bytes: &[u8]) -> Result<Vec<usize>, AllocError> {
    let mut sections = Vec::new(alloc);
    if !bytes.starts_with(&COMPONENT_PREAMBLE) {
        return Ok(sections);
    }
    let mut current = &bytes[COMPONENT_PREAMBLE.len()..];
    for _section in 0..bytes.len() {
        let Some(section) = section_of(current) else {
            break;
        };
        sections.push(bytes.len().saturating_sub(current.len()))?;
        current = section.next();
    }
    Ok(sections)
}

// Appends a number in LEB128.
fn put_number(out: &mut Vec<u8>, number: u32) -> Result<(), AllocError>
    ensures { IfOk result (λ _. Some out.new.items ≡ Some out.old.items ⊕ u number) }
{
    match write_u32(out, number) {
        Ok(()) => Ok(()),
        Err(_) => Err(AllocError),
    }
}

// A section behind other bytes.
fn behind(alloc: Global, front: &[u8], section: Section<'_>) -> Result<Vec<u8>, AllocError>
    ensures { IfOk result (λ b. with_section front.now section.entry.id section.entry.length
        (Some section.entry.rest.now)
        ≡ Some b.items) }
{
    let mut all = Vec::from_slice(alloc, front)?;
    all.push(section.id)?;
    put_number(&mut all, section.length)?;
    all.extend_from_slice(section.rest)?;
    Ok(all)
}

// A list with the greatest count, of whose bytes those are from its count on.
fn with_most_entries(alloc: Global, list: &[u8]) -> Changed<Vec<u8>>
    ensures { IfOk result (λ r. IfSome r (λ b. (n : ℕ) × (rest : List ℕ) × (u n ⊕ Some rest ≡ Some list.now)
        × (u most_count ⊕ Some rest ≡ Some b.items))) }
{
    let Ok((_, entries)) = count_of(list) else {
        return Ok(None);
    };
    let mut most = Vec::new(alloc);
    put_number(&mut most, u32::MAX)?;
    most.extend_from_slice(entries)?;
    Ok(Some(most))
}

// The bytes with that length of the section behind them, if it is one.
fn with_length(
    alloc: Global,
    front: &[u8],
    section: Section<'_>,
    length: Option<u32>,
) -> Changed<Vec<u8>>
    ensures { IfOk result (λ r. IfSome r (λ b. (n : ℕ) × (length ≡ Some n)
        × (with_section front.now section.entry.id n (Some section.entry.rest.now) ≡ Some b.items))) }
{
    let Some(length) = length else {
        return Ok(None);
    };
    Ok(Some(behind(alloc, front, Section { length, ..section })?))
}

// The bytes with the greatest count of the section behind them, if it is a list.
fn with_count(alloc: Global, front: &[u8], section: Section<'_>) -> Changed<Vec<u8>>
    ensures { IfOk result (λ r. IfSome r (λ b. (n : ℕ) × (rest : List ℕ)
        × (u n ⊕ Some rest ≡ Some section.entry.rest.now)
        × (with_section front.now section.entry.id section.entry.length (u most_count ⊕ Some rest) ≡ Some b.items))) }
{
    if !section.is_list() {
        return Ok(None);
    }
    let Some(rest) = with_most_entries(alloc, section.rest)? else {
        return Ok(None);
    };
    let rest = rest.as_slice();
    Ok(Some(behind(alloc, front, Section { rest, ..section })?))
}

// The bytes with the section that begins there written wrongly.
fn with_wrong_section(alloc: Global, bytes: &[u8], at: usize, what: Miswriting) -> Changed<Vec<u8>>
    ensures { IfOk result (λ r. IfSome r (λ b. Miswrites what bytes.now b.items)) }
{
    let (front, last) = bytes.split_at(at.min(bytes.len()));
    let Some(section) = section_of(last) else {
        return Ok(None);
    };
    let length = section.length;
    match what {
        Miswriting::Longer => with_length(alloc, front, section, length.checked_add(1)),
        Miswriting::Shorter => with_length(alloc, front, section, length.checked_sub(1)),
        Miswriting::UnknownSection => {
            let id = UNKNOWN_ID;
            Ok(Some(behind(alloc, front, Section { id, ..section })?))
        }
        Miswriting::Count => with_count(alloc, front, section),
        Miswriting::Cut | Miswriting::Preamble => Ok(None),
    }
}

// The bytes with one where the preamble is turned in its lowest bit.
fn with_wrong_preamble(alloc: Global, bytes: &[u8], at: usize) -> Changed<Vec<u8>>
    ensures { IfOk result (λ r. IfSome r (λ b. Miswrites Miswriting.Preamble bytes.now b.items)) }
{
    if at >= COMPONENT_PREAMBLE.len() || at >= bytes.len() {
        return Ok(None);
    }
    let mut other = Vec::from_slice(alloc, bytes)?;
    other[at] = bytes[at] ^ 1;
    Ok(Some(other))
}

// What is written wrongly in one of the four candidates of a section.
fn miswriting_of(number: usize) -> Miswriting {
    match number {
        0 => Miswriting::Longer,
        1 => Miswriting::Shorter,
        2 => Miswriting::UnknownSection,
        _ => Miswriting::Count,
    }
}

// The candidate of that number among those that are not cut, and what is written wrongly in it: the four of each
// section, and then a byte of the preamble.
fn uncut_candidate(
    alloc: Global,
    bytes: &[u8],
    sections: &[usize],
    number: usize,
) -> Changed<(Miswriting, Vec<u8>)>
    ensures { IfOk result (λ r. IfSome r (λ c. Miswrites c.0 bytes.now c.1.items)) }
{
    if let Some(at) = sections.get(number / 4) {
        let what = miswriting_of(number % 4);
        let other = with_wrong_section(alloc, bytes, *at, what)?;
        return Ok(other.map(|bytes| (what, bytes)));
    }
    let at = number.saturating_sub(sections.len().saturating_mul(4));
    let other = with_wrong_preamble(alloc, bytes, at)?;
    Ok(other.map(|bytes| (Miswriting::Preamble, bytes)))
}

// The candidate of that number, and what is written wrongly in it: cut after that many bytes, or one that is not cut.
fn candidate(
    alloc: Global,
    bytes: &[u8],
    sections: &[usize],
    number: usize,
) -> Changed<(Miswriting, Vec<u8>)>
    ensures made { IfOk result (λ r. IfSome r (λ c. Miswrites c.0 bytes.now c.1.items)) }
    ensures cut { IfOk result (λ r. number < length bytes.now → IsSomeAnd r (λ c. c.1.items ≡ take number bytes.now)) }
{
    if number < bytes.len() {
        let cut = Vec::from_slice(alloc, &bytes[..number])?;
        return Ok(Some((Miswriting::Cut, cut)));
    }
    uncut_candidate(alloc, bytes, sections, number - bytes.len())
}

// Are they other bytes, and not framed?
fn are_unframed(alloc: Global, given: &[u8], bytes: &[u8]) -> Result<bool, AllocError>
    ensures wrong { IfOk result (λ b. b ≡ true → AreUnframed given.now bytes.now) }
    ensures right { IfOk result (λ b. b ≡ false → (bytes.now ≡ given.now) ⊎ Framed bytes.now) }
{
    if bytes == given {
        return Ok(false);
    }
    match framed(alloc, bytes)? {
        Framing::Framed => Ok(false),
        Framing::Unframed { .. } => Ok(true),
    }
}

// How many candidates there are.
fn candidate_count(bytes: &[u8], sections: &[usize]) -> usize
    ensures { length bytes.now ≤ result }
{
    let of_sections = sections.len().saturating_mul(4);
    let count = bytes.len().saturating_add(of_sections);
    count.saturating_add(COMPONENT_PREAMBLE.len())
}

/// The first candidate from that number on that no reader of the standard takes for a component, whatever its grammar:
/// it does not have the frames of one, as `framed` of `smith_read` says, and is not the given bytes. There is none
/// if there is no such candidate from there on. The given bytes need not be a component.
///
/// The candidates are, in this order: cut after each number of bytes; for each section at each depth, a length that is
/// one more and one less, the id 13 and, if it is a list, the count 4,294,967,295; and each byte of the preamble with
/// its lowest bit turned. The lengths around a section stay as they are. No contract says that each of them is tried,
/// but for the cuts. Each candidate from that number up to the one that is returned takes time in proportion to the
/// bytes.
pub fn next_miswritten(
    alloc: Global,
    bytes: &[u8],
    from: usize,
) -> Result<Option<Misstep>, AllocError>
    ensures { IfOk result
        (λ r. IsMisstep bytes.now from (option_map (λ m. (m.number, m.what, m.bytes.items)) r)) }
{
    let sections = sections_of(alloc, bytes)?;
    for number in from..candidate_count(bytes, &sections) {
        let Some((what, other)) = candidate(alloc, bytes, &sections, number)? else {
            continue;
        };
        if are_unframed(alloc, bytes, &other)? {
            let bytes = other;
            return Ok(Some(Misstep {
                number,
                what,
                bytes,
            }));
        }
    }
    Ok(None)
}
