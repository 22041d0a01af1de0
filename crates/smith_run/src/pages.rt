//! The text that the program writes.

ghost use Rattle.std.specs.Prelude.{◌≡◌, ◌<◌, ◌++◌, slice_index, IfOk, OnOk, map};
ghost use Rattle.std.specs.List.{join_with_byte};
ghost use Rattle.smith_run.specs.Page.{page, two_digits, hexadecimal_digits};

use std::alloc::{AllocError, Global};

const DIGITS: &[u8; 16] = b"0123456789abcdef";

fn digit(value: u8) -> u8
    requires { value < 16 }
    ensures { result ≡ slice_index hexadecimal_digits value }
{
    DIGITS[usize::from(value)]
}

fn push_digits(text: &mut Vec<u8>, byte: u8) -> Result<(), AllocError>
    ensures { OnOk result (text.new.items ≡ text.old.items ++ two_digits byte) }
{
    text.push(digit(byte / 16))?;
    text.push(digit(byte % 16))?;
    Ok(())
}

fn spaced(alloc: Global, bytes: &[u8]) -> Result<Vec<u8>, AllocError>
    ensures { IfOk result (λ text. text.items ≡ join_with_byte 32 (map two_digits bytes.now)) }
{
    let mut text = Vec::new(alloc);
    for (place, byte) in bytes.iter().enumerate() {
        let is_first = place == 0;
        if !is_first {
            text.push(b' ')?;
        }
        push_digits(&mut text, *byte)?;
    }
    Ok(text)
}

/// The bytes as two lower-case hexadecimal digits each, separated by one space, a line feed, `left `, the number of
/// bytes left in decimal, and a line feed.
pub fn page(alloc: Global, bytes: &[u8], left: usize) -> Result<Vec<u8>, AllocError>
    ensures { IfOk result (λ text. text.items ≡ page bytes.now left) }
{
    let mut text = spaced(alloc, bytes)?;
    let last_line = format!(in alloc; "\nleft {left}\n")?;
    text.extend_from_slice(last_line.as_bytes())?;
    Ok(text)
}
