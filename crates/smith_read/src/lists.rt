//! Texts, and lists after their count.

ghost use Rattle.std.specs.Prelude.{ℕ, List, map, string_bytes};
ghost use Rattle.smith_read.specs.Reading.{Found, Gives, text_at, frame_at, skip_at, times_at, many_at};

use crate::numbers::{byte_of, count_of};
use crate::unread::{Reason, Unread, malformed};
use std::alloc::Global;

/// What is read in one way from the front of some bytes.
pub trait Readable: Drop {
    ghost Shown: { Type 0 };

    ghost shown: { Self → Shown };

    ghost reading: { List ℕ → Found Shown };

    /// Reads a value, and returns the bytes after it.
    fn read(alloc: Global, bytes: &[u8]) -> Result<(Self, &[u8]), Unread>
        ensures { Gives (λ x. (shown x.0, x.1.now)) result (reading bytes.now) };
}

/// What follows that byte.
#[tactic(auto, unfolding(crate::specs::Reading::skip_at))]
pub fn skip(bytes: &[u8], value: u8) -> Result<&[u8], Unread>
    ensures { Gives (λ x. x.now) result (skip_at value bytes.now) }
{
    let (first, rest) = byte_of(bytes)?;
    if first == value {
        Ok(rest)
    } else {
        Err(malformed(bytes, Reason::Byte))
    }
}

/// A text after its length.
#[tactic(auto, unfolding(crate::specs::Reading::text_at))]
pub fn read_text(alloc: Global, bytes: &[u8]) -> Result<(String, &[u8]), Unread>
    ensures { Gives (λ x. (string_bytes x.0, x.1.now)) result (text_at bytes.now) }
{
    let (length, rest) = count_of(bytes)?;
    let length = length as usize;
    if rest.len() < length {
        return Err(malformed(rest, Reason::Ends));
    }
    let (text, after) = rest.split_at(length);
    match str::from_utf8(text) {
        Ok(text) => Ok((String::from_str(alloc, text)?, after)),
        Err(_) => Err(malformed(rest, Reason::Name)),
    }
}

/// What is framed by its length, and what follows it.
#[tactic(auto, unfolding(crate::specs::Reading::frame_at))]
pub fn frame_of(bytes: &[u8]) -> Result<(&[u8], &[u8]), Unread>
    ensures { Gives (λ x. (x.0.now, x.1.now)) result (frame_at bytes.now) }
{
    let (length, rest) = count_of(bytes)?;
    let length = length as usize;
    if rest.len() < length {
        return Err(malformed(rest, Reason::Ends));
    }
    let (contents, after) = rest.split_at(length);
    Ok((contents, after))
}

impl Readable for String {
    ghost Shown = { List ℕ };

    ghost shown = { string_bytes };

    ghost reading = { text_at };

    fn read(alloc: Global, bytes: &[u8]) -> Result<(String, &[u8]), Unread> {
        read_text(alloc, bytes)
    }
}

pub(crate) fn times_of<T: Readable>(
    alloc: Global,
    count: u32,
    bytes: &[u8],
) -> Result<(Vec<T>, &[u8]), Unread>
    ensures { Gives (λ x. (map T.shown x.0.items, x.1.now)) result (times_at T.reading count bytes.now) }
{
    let mut items = Vec::new(alloc);
    let mut rest = bytes;
    for _ in 0..count {
        let (item, after) = T::read(alloc, rest)?;
        items.push(item)?;
        rest = after;
    }
    Ok((items, rest))
}

/// A list after its count.
#[tactic(auto, unfolding(crate::specs::Reading::many_at))]
pub fn many_of<T: Readable>(alloc: Global, bytes: &[u8]) -> Result<(Vec<T>, &[u8]), Unread>
    ensures { Gives (λ x. (map T.shown x.0.items, x.1.now)) result (many_at T.reading bytes.now) }
{
    let (count, rest) = count_of(bytes)?;
    times_of(alloc, count, rest)
}
