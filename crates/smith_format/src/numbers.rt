//! Numbers in LEB128, written at the end of a buffer, and their lengths.
#![tactic(auto, using(crate::proofs::Steps::writing, crate::proofs::Sizes::measuring))]

ghost use Rattle.std.specs.Prelude.{◌≡◌, ◌≤◌, length, pos};
ghost use Rattle.smith_format.specs.Numbers.{unsigned, signed};
ghost use Rattle.smith_format.specs.Piece.{number, s, s_index, u};
ghost use Rattle.smith_format.specs.Writing.{Puts, Appends, IsLengthOf, WantsMemoryFor};

use crate::buffer::{CoreFormat, Spelled, write_byte, write_spelled};
use smith_input::Error;

// A signed number between these is its last byte.
const LEAST: i64 = -64;

const MOST: i64 = 63;

fn put_u64(out: &mut Vec<u8>, n: u64) -> Result<(), Error>
    ensures { Puts result out.old out.new (number n) }
{
    let mut rest = n;
    while rest >= 128 {
        write_byte(out, (rest % 128) as u8 + 128)?;
        rest /= 128;
    }
    write_byte(out, rest as u8)
}

impl Spelled<CoreFormat> for u64 {
    ghost piece = { λ n. number n };

    fn put(&self, out: &mut Vec<u8>) -> Result<(), Error> {
        put_u64(out, *self)
    }

    fn spelled_len(&self) -> Option<u32> {
        Some(u64_len(*self))
    }
}

// Appends a number of several bytes. It is apart so that a number of one byte is written without a call.
#[cold]
#[inline(never)]
fn write_long(out: &mut Vec<u8>, n: u64) -> Result<(), Error>
    ensures { Appends result out.old out.new (number n) }
{
    write_spelled(out, &n)
}

/// Appends an unsigned number.
pub fn write_u64(out: &mut Vec<u8>, n: u64) -> Result<(), Error>
    ensures { Appends result out.old out.new (number n) }
{
    if n < 128 {
        return write_byte(out, n as u8);
    }
    // A number has an encoding. The error is not passed on, so that the results of both ways stay in registers.
    match write_long(out, n) {
        Ok(()) => Ok(()),
        Err(_) => Err(Error::OutOfMemory),
    }
}

/// The length of an unsigned number.
pub fn u64_len(n: u64) -> u32
    ensures length { result ≡ length (unsigned n) }
    ensures most { result ≤ 10 }
{
    let mut left = n;
    let mut length = 1;
    while left >= 128 {
        left /= 128;
        length += 1;
    }
    length
}

/// Appends a length, a count or an index.
pub fn write_u32(out: &mut Vec<u8>, n: u32) -> Result<(), Error>
    ensures written { Appends result out.old out.new (u n) }
    ensures full { WantsMemoryFor result (u n) }
{
    write_u64(out, u64::from(n))
}

impl Spelled<CoreFormat> for u32 {
    ghost piece = { λ n. u n };

    fn put(&self, out: &mut Vec<u8>) -> Result<(), Error> {
        write_u32(out, *self)
    }

    fn spelled_len(&self) -> Option<u32> {
        Some(u32_len(*self))
    }
}

/// The length of a length, a count or an index.
#[tactic(auto, using(crate::proofs::Digits::unsigned_short_32))]
pub fn u32_len(n: u32) -> u32
    ensures length { result ≡ length (unsigned n) }
    ensures most { result ≤ 5 }
{
    u64_len(u64::from(n))
}

fn put_s64(out: &mut Vec<u8>, n: i64) -> Result<(), Error>
    ensures { Puts result out.old out.new (s n) }
{
    let mut rest = n;
    while rest < LEAST || rest > MOST {
        write_byte(out, rest.rem_euclid(128) as u8 + 128)?;
        rest = rest.div_euclid(128);
    }
    write_byte(out, rest.rem_euclid(128) as u8)
}

impl Spelled<CoreFormat> for i64 {
    ghost piece = { λ n. s n };

    fn put(&self, out: &mut Vec<u8>) -> Result<(), Error> {
        put_s64(out, *self)
    }

    fn spelled_len(&self) -> Option<u32> {
        Some(s64_len(*self))
    }
}

/// Appends a signed number.
pub fn write_s64(out: &mut Vec<u8>, n: i64) -> Result<(), Error>
    ensures { Appends result out.old out.new (s n) }
{
    write_spelled(out, &n)
}

/// The length of a signed number.
pub fn s64_len(n: i64) -> u32
    ensures length { result ≡ length (signed n) }
    ensures most { result ≤ 10 }
{
    let mut left = n;
    let mut length = 1;
    while left < LEAST || left > MOST {
        left = left.div_euclid(128);
        length += 1;
    }
    length
}

/// Appends an index where a value type may appear. Public only for the crates above.
#[cold]
#[inline(never)]
pub fn write_type_index(out: &mut Vec<u8>, index: u32) -> Result<(), Error>
    ensures written { Appends result out.old out.new (s_index index) }
    ensures full { WantsMemoryFor result (s_index index) }
{
    write_s64(out, i64::from(index))
}

/// The length of an index where a value type may appear. Public only for the crates above.
pub fn type_index_len(index: u32) -> u32
    ensures length { result ≡ length (signed (pos index)) }
    ensures most { result ≤ 5 }
{
    s64_len(i64::from(index))
}

/// Appends a length or a count. It is too long if it exceeds 4,294,967,295. Public only for the crates above.
pub fn write_count(out: &mut Vec<u8>, count: usize) -> Result<(), Error>
    ensures written { Appends result out.old out.new (u count) }
    ensures full { WantsMemoryFor result (u count) }
{
    if count > u32::MAX as usize {
        return Err(Error::TooLong);
    }
    write_u32(out, count as u32)
}

/// The length of a written length or count; None exactly if that exceeds 4,294,967,295. Public only for the crates
/// above.
pub fn count_len(count: usize) -> Option<u32>
    ensures { IsLengthOf result (u count) }
{
    let count = u32::try_from(count).ok()?;
    Some(u32_len(count))
}
