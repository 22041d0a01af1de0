//! Bytes, and numbers in LEB128.

ghost use Rattle.std.specs.Prelude.{◌≤◌, ◌<◌, length, IfOk};
ghost use Rattle.smith_read.specs.Reading.{Gives, byte_at, number_at, within, u_at, index_at, limit_at};

use crate::unread::{Reason, Unread, malformed};

/// A byte.
pub fn byte_of(bytes: &[u8]) -> Result<(u8, &[u8]), Unread>
    ensures { Gives (λ x. (x.0, x.1.now)) result (byte_at bytes.now) }
{
    if bytes.is_empty() {
        return Err(malformed(bytes, Reason::Ends));
    }
    Ok((bytes[0], &bytes[1..]))
}

// That number, if it is from `least` to `most`.
fn within_of<'a>(
    least: u64,
    most: u64,
    n: u64,
    bytes: &[u8],
    rest: &'a [u8],
) -> Result<(u64, &'a [u8]), Unread>
    ensures read { Gives (λ x. (x.0, x.1.now)) result (within least most n rest.now) }
    ensures most { IfOk result (λ x. x.0 ≤ most) }
{
    if n < least || most < n {
        return Err(malformed(bytes, Reason::Number));
    }
    Ok((n, rest))
}

// A number whose last byte is below `last`, and which is at most `most`.
fn digits_of(bytes: &[u8], last: u8, most: u64) -> Result<(u64, &[u8]), Unread>
    requires last { last ≤ 128 }
    requires some { 0 < last }
    ensures read { Gives (λ x. (x.0, x.1.now)) result (number_at last most bytes.now) }
    ensures most { IfOk result (λ x. x.0 ≤ most) }
{
    let (first, rest) = byte_of(bytes)?;
    if first < last {
        return within_of(0, most, u64::from(first), bytes, rest);
    }
    if first < 128 || most < u64::from(last) {
        return Err(malformed(bytes, Reason::Number));
    }
    let (high, rest) = digits_of(rest, last, most / 128)?;
    within_of(
        u64::from(last),
        most,
        u64::from(first - 128) + 128 * high,
        bytes,
        rest,
    )
}

/// A length, a count or an index.
#[tactic(auto, unfolding(crate::specs::Reading::u_at))]
pub fn count_of(bytes: &[u8]) -> Result<(u32, &[u8]), Unread>
    ensures { Gives (λ x. (x.0, x.1.now)) result (u_at bytes.now) }
{
    let (n, rest) = digits_of(bytes, 128, 4_294_967_295)?;
    Ok((n as u32, rest))
}

/// An index where a value type may appear.
#[tactic(auto, unfolding(crate::specs::Reading::index_at))]
pub(crate) fn index_of(bytes: &[u8]) -> Result<(u32, &[u8]), Unread>
    ensures { Gives (λ x. (x.0, x.1.now)) result (index_at bytes.now) }
{
    let (n, rest) = digits_of(bytes, 64, 4_294_967_295)?;
    Ok((n as u32, rest))
}

/// A bound of limits. It has at most 64 bits.
#[tactic(auto, unfolding(crate::specs::Reading::limit_at))]
pub(crate) fn limit_of(bytes: &[u8]) -> Result<(u64, &[u8]), Unread>
    ensures { Gives (λ x. (x.0, x.1.now)) result (limit_at bytes.now) }
{
    let (n, rest) = digits_of(bytes, 128, u64::MAX)?;
    Ok((n, rest))
}
