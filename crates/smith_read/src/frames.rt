//! Whether bytes have the frames that a component has for any reader of the standard, whatever its grammar.

ghost use Rattle.std.specs.Prelude.{◌≡◌, ◌+◌, ◌<◌, ◌≤◌, ◌^◌, length, option_map, IfOk, IfSome};
ghost use Rattle.smith_tree.specs.Grammar.{preamble};
ghost use Rattle.smith_read.specs.Framed.{Finds, IsFraming, behind, counted, number_below, section_at, sections_in};

use smith_core::COMPONENT_PREAMBLE;
use std::alloc::{AllocError, Global};

// What a core module begins with.
const MAGIC: [u8; 4] = [0x00, 0x61, 0x73, 0x6d];

// A number of 32 bits is below this one.
const LIMIT: u64 = 4_294_967_296;

// A section of a component has at most this id.
const LAST_ID: u8 = 12;

/// What is wrong with a frame; each says what has to hold (Binary.md, component definitions).
#[derive(Clone, Copy, Debug, PartialEq, Eq)]
pub enum BrokenFrame {
    /// A component begins with its preamble of eight bytes, and a core module with the four bytes `\0asm`.
    Preamble,
    /// The id of a section is at most 12.
    Section,
    /// The length of a section is a number of 32 bits in at most five bytes, and no more than the bytes behind it.
    Frame,
    /// The count of a list is a number of 32 bits in at most five bytes, and no more than the bytes behind it, since
    /// each entry has one at least.
    Count,
}

/// Whether bytes have the frames of a component.
#[derive(Debug, PartialEq, Eq, Drop)]
pub enum Framing {
    /// They have.
    Framed,
    /// They have not: what is wrong, and the offset at which that was seen: a preamble where it is missing, an id where
    /// it is, a length behind it, or at the id before it if it is no number, and a count at the end of its section. It
    /// is at most the length; no contract says more of either.
    Unframed { broken: BrokenFrame, offset: usize },
}

// What is wrong with the section in front, and how many bytes there are from where that is seen.
#[derive(Clone, Copy)]
struct Break {
    broken: BrokenFrame,
    left: usize,
}

// What follows those bytes, if they are in front.
#[tactic(auto, unfolding(crate::specs::Framed::behind))]
fn behind<'a>(front: &[u8], bytes: &'a [u8]) -> Option<&'a [u8]>
    ensures found { option_map (λ x. x.now) result ≡ behind front.now bytes.now }
    ensures length { IfSome result (λ x. length front.now + length x.now ≡ length bytes.now) }
{
    if bytes.starts_with(front) {
        Some(&bytes[front.len()..])
    } else {
        None
    }
}

// A number below a power of two, padded or not, and what follows it.
#[tactic(auto, unfolding(crate::specs::Framed::number_below))]
fn number_below(limit: u64, bytes: &[u8]) -> Option<(u64, &[u8])>
    requires { limit ≤ 2 ^ 32 }
    ensures found { option_map (λ x. (x.0, x.1.now)) result ≡ number_below limit bytes.now }
    ensures below { IfSome result (λ x. x.0 < limit) }
    ensures shorter { IfSome result (λ x. length x.1.now ≤ length bytes.now) }
{
    if bytes.is_empty() {
        return None;
    }
    let first = u64::from(bytes[0]);
    let rest = &bytes[1..];
    if first < 128 {
        return if first < limit {
            Some((first, rest))
        } else {
            None
        };
    }
    if limit <= 128 {
        return None;
    }
    let (high, rest) = number_below(limit / 128, rest)?;
    Some((first - 128 + 128 * high, rest))
}

// As many bytes as the number in front of them says, and what follows them.
#[tactic(auto, unfolding(crate::specs::Framed::counted))]
fn counted(bytes: &[u8]) -> Option<(&[u8], &[u8])>
    ensures { option_map (λ x. (x.0.now, x.1.now)) result ≡ counted bytes.now }
{
    let (count, rest) = number_below(LIMIT, bytes)?;
    let count = count as usize;
    if count > rest.len() {
        return None;
    }
    Some((&rest[..count], &rest[count..]))
}

// The sections inside the contents of a section of that id.
#[tactic(auto, unfolding(crate::specs::Framed::sections_in))]
fn sections_in(id: u8, contents: &[u8]) -> Result<&[u8], BrokenFrame>
    ensures { Finds (λ x. x.now) result (sections_in id contents.now) }
{
    let none = &contents[..0];
    match id {
        0 | 9 | 12 => Ok(none),
        1 => match behind(&MAGIC, contents) {
            Some(_) => Ok(none),
            None => Err(BrokenFrame::Preamble),
        },
        4 => behind(&COMPONENT_PREAMBLE, contents).ok_or(BrokenFrame::Preamble),
        _ => match counted(contents) {
            Some(_) => Ok(none),
            None => Err(BrokenFrame::Count),
        },
    }
}

// Where the section that these bytes follow has no frame: behind its length, or at its id if there is no length.
fn frame_break(bytes: &[u8]) -> Break
    requires { length bytes.now + 1 < 2 ^ 64 }
    ensures { result.left ≤ length bytes.now + 1 }
{
    let broken = BrokenFrame::Frame;
    match number_below(LIMIT, bytes) {
        Some((_, rest)) => Break {
            broken,
            left: rest.len(),
        },
        None => Break {
            broken,
            left: bytes.len() + 1,
        },
    }
}

// Where the contents of a section are broken: a preamble at their beginning, and a count at their end.
fn contents_break(broken: BrokenFrame, contents: &[u8], rest: &[u8]) -> Break {
    let left = match broken {
        BrokenFrame::Preamble => contents.len().saturating_add(rest.len()),
        BrokenFrame::Section | BrokenFrame::Frame | BrokenFrame::Count => rest.len(),
    };
    Break { broken, left }
}

// The sections inside the section in front, and what follows it.
#[tactic(auto, unfolding(crate::specs::Framed::section_at))]
fn section_of(bytes: &[u8]) -> Result<(&[u8], &[u8]), Break>
    requires { 0 < length bytes.now }
    ensures { Finds (λ x. (x.0.now, x.1.now)) result (section_at bytes.now) }
{
    let id = bytes[0];
    if id > LAST_ID {
        return Err(Break {
            broken: BrokenFrame::Section,
            left: bytes.len(),
        });
    }
    let Some((contents, rest)) = counted(&bytes[1..]) else {
        return Err(frame_break(&bytes[1..]));
    };
    match sections_in(id, contents) {
        Ok(inside) => Ok((inside, rest)),
        Err(broken) => Err(contents_break(broken, contents, rest)),
    }
}

/// Whether bytes have the frames that a component has for any reader of the standard, whatever its grammar: the
/// preamble of a component, and sections up to the end, each an id of at most 12, a length and that many bytes. Those
/// of a component section are again the preamble and sections; those of a core module begin with `\0asm`; and a list
/// has at least as many bytes behind its count as entries. Lengths and counts may be padded. Nothing else is looked
/// at, so what is framed need not be a component.
///
/// `Err` is returned only if an allocation failed, and says nothing about the bytes. It takes time and memory in
/// proportion to them, and a bounded stack, however deep components are nested.
pub fn framed(alloc: Global, bytes: &[u8]) -> Result<Framing, AllocError>
    ensures { IfOk result (IsFraming bytes.now) }
{
    let Some(sections) = behind(&COMPONENT_PREAMBLE, bytes) else {
        return Ok(Framing::Unframed {
            broken: BrokenFrame::Preamble,
            offset: 0,
        });
    };
    let mut offset = COMPONENT_PREAMBLE.len();
    let mut rests = Vec::new(alloc);
    rests.push(sections)?;
    while let Some(current) = rests.pop() {
        if current.is_empty() {
            continue;
        }
        match section_of(current) {
            Ok((inside, rest)) => {
                offset += current.len() - inside.len() - rest.len();
                rests.push(rest)?;
                rests.push(inside)?;
            }
            Err(Break { broken, left }) => {
                let offset = offset + current.len().saturating_sub(left);
                return Ok(Framing::Unframed { broken, offset });
            }
        }
    }
    Ok(Framing::Framed)
}
