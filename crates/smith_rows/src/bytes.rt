//! Bytes as words of a row: two hexadecimal digits, `61*100` for a hundred of them, `( 01 2a )*127` for a group of
//! bytes that repeats, `preamble` for the first eight bytes of a component, and `@nested` for the script of that plan.

use crate::plans::scripts;
use std::alloc::{AllocError, Global};
use std::fmt;

// The first eight bytes of each component.
const PREAMBLE: &[u8] = &[0x00, 0x61, 0x73, 0x6d, 0x0d, 0x00, 0x01, 0x00];

// How many words there are on a line at most.
const LINE: usize = 32;

// The longest run of a byte that is printed byte by byte.
const LONGEST_RUN: usize = 8;

// The proved script of the plan with this name.
fn proved_script(name: &str) -> Option<&'static [u8]> {
    let scripts = scripts();
    match name {
        "second_of_equal_types" => Some(scripts.second_of_equal_types),
        "lower_and_lift" => Some(scripts.lower_and_lift),
        "lower_of_a_lift" => Some(scripts.lower_of_a_lift),
        "lower_of_an_export" => Some(scripts.lower_of_an_export),
        "nested" => Some(scripts.nested),
        "scoped_type" => Some(scripts.scoped_type),
        _ => None,
    }
}

// The bytes of a word that does not repeat. `)` stands for the bytes of its group.
fn word_bytes(alloc: Global, word: &str, group: &[u8]) -> Result<Option<Vec<u8>>, AllocError> {
    let named = match word {
        ")" => Some(group),
        "preamble" => Some(PREAMBLE),
        _ => word.strip_prefix('@').and_then(proved_script),
    };
    match (named, u8::from_str_radix(word, 16)) {
        (Some(bytes), _) => Ok(Some(Vec::from_slice(alloc, bytes)?)),
        (None, Ok(byte)) => Ok(Some(Vec::from_slice(alloc, &[byte])?)),
        (None, Err(_)) => Ok(None),
    }
}

// Appends the bytes of a word, whose group begins at that place of what there is. Returns whether it is a word.
fn push_word(
    alloc: Global,
    bytes: &mut Vec<u8>,
    start: usize,
    word: &str,
) -> Result<bool, AllocError> {
    let (word, times) = word.split_once('*').unwrap_or((word, "1"));
    let group = bytes.get(start..).unwrap_or(&[]);
    let more = word_bytes(alloc, word, group)?;
    let (Ok(times), Some(more)) = (times.parse::<usize>(), more) else {
        return Ok(false);
    };
    // The first of a group is there.
    for _ in usize::from(word == ")")..times {
        bytes.extend_from_slice(&more)?;
    }
    Ok(true)
}

/// Appends the bytes of a line of words. Returns whether all of them are words.
pub fn push_line(alloc: Global, bytes: &mut Vec<u8>, line: &str) -> Result<bool, AllocError> {
    let mut start = bytes.len();
    for word in line.split_ascii_whitespace() {
        if word == "(" {
            start = bytes.len();
        } else if !push_word(alloc, bytes, start, word)? {
            return Ok(false);
        }
    }
    Ok(true)
}

/// Bytes as they are printed under a label, with runs of more than eight bytes as `61*100`.
#[derive(Clone, Copy)]
pub struct Printed<'a>(pub &'a str, pub &'a [u8]);

// How often the first byte is repeated in front.
fn run_len(bytes: &[u8]) -> usize {
    let mut count = 0usize;
    for byte in bytes {
        if bytes.first() != Some(byte) {
            break;
        }
        count = count.saturating_add(1);
    }
    count
}

// The word of that many bytes, on a new line if the last one is full.
fn print_word<W: fmt::Write>(
    f: &mut fmt::Formatter<W>,
    words: usize,
    byte: u8,
    many: usize,
) -> fmt::Result {
    if words > 0 && words % LINE == 0 {
        f.write_str("\n=      ")?;
    }
    if many > 1 {
        return write!(f, " {byte:02x}*{many}");
    }
    write!(f, " {byte:02x}")
}

impl fmt::Display for Printed<'_> {
    fn fmt<W: fmt::Write>(&self, f: &mut fmt::Formatter<W>) -> fmt::Result {
        let Printed(label, bytes) = *self;
        write!(f, "= {label}")?;
        let mut rest = bytes;
        if let Some(after) = bytes.strip_prefix(PREAMBLE) {
            f.write_str(" preamble")?;
            rest = after;
        }
        for words in 0..bytes.len() {
            let Some(byte) = rest.first() else {
                break;
            };
            let run = run_len(rest);
            let many = if run > LONGEST_RUN { run } else { 1 };
            print_word(f, words, *byte, many)?;
            rest = rest.get(many..).unwrap_or(&[]);
        }
        f.write_str("\n")
    }
}
