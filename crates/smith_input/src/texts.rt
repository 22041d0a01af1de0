//! Bytes and texts that are read.

ghost use Rattle.std.specs.Prelude.{string_bytes, IfOk};
ghost use Rattle.smith_input.specs.Consumes.{Consumes};
ghost use Rattle.smith_input.specs.Texts.{ReadsBytes, IsLongestText, ReadsText};

use crate::{Error, Unstructured};
use std::alloc::Global;
use std::str;

/// Bytes of any length: while a boolean is true, one byte follows. The only error is `OutOfMemory`.
pub fn arbitrary_bytes(alloc: Global, u: &mut Unstructured) -> Result<Vec<u8>, Error>
    ensures read { IfOk result (λ bytes. ReadsBytes u.old bytes.items u.new) }
    ensures input { Consumes result u.old u.new }
{
    let mut bytes = Vec::new(alloc);
    while u.arbitrary_bool() {
        bytes.push(u.arbitrary_u8())?;
    }
    Ok(bytes)
}

/// How many bytes of the name of a custom section are read. Public only for the crates above.
pub const MAX_CUSTOM_NAME_LEN: usize = 1000;

// The longest prefix that is UTF-8.
fn longest_text(bytes: &[u8]) -> &str
    ensures { IsLongestText bytes.now result.now }
{
    match str::from_utf8(bytes) {
        Ok(text) => text,
        // It is not tested again.
        Err(error) => unsafe { str::from_utf8_unchecked(&bytes[..error.valid_up_to()]) },
    }
}

/// A text of at most `max` bytes: a length, cut to the number of bytes left, and the longest prefix of that many next
/// bytes that is UTF-8. The rest of them stays unread. The only error is `OutOfMemory`.
#[inline(always)]
pub fn limited_string(alloc: Global, max: usize, u: &mut Unstructured) -> Result<String, Error>
    ensures read { IfOk result (λ text. ReadsText max u.old (string_bytes text) u.new) }
    ensures input { Consumes result u.old u.new }
{
    let count = u.int_in_range(0, max as u64) as usize;
    let left = u.left();
    let text = longest_text(&left[..count.min(left.len())]);
    u.skip(text.len());
    Ok(String::from_str(alloc, text)?)
}
