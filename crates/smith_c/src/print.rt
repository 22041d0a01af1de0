//! The text of a component, in memory of the caller's.

ghost use Rattle.std.specs.Prelude.{◌≡◌, ◌≢◌, ℕ, ◌<◌, ◌≤◌, List, Some, length, take, drop, IfOk, IfErr, string_bytes};
ghost use Rattle.smith_c.specs.Makes.{code_of};
ghost use Rattle.smith_c.specs.Prints.{IsTextOf, LacksText};
ghost use Rattle.smith_c.specs.declared.status.Status.{Status};
ghost use Rattle.smith_c.specs.declared.status.Status.TheVariants.{Answered, NoRoom};

use crate::put::put;
use crate::status::Status;
use smith_input::Error;
use smith_print::{PrintError, print};
use smith_read::{ReadError, read};
use std::alloc::Global;

// The text of the component that the bytes are.
fn printed(alloc: Global, bytes: &[u8]) -> Result<String, Status>
    ensures prints { IfOk result (λ text. IsTextOf bytes.now (Some (string_bytes text))) }
    ensures refuses { IfErr result (λ s. LacksText bytes.now s) }
{
    let component = match read(alloc, bytes) {
        Ok(component) => component,
        Err(ReadError::OutOfMemory) => return Err(Status::Refused(Error::OutOfMemory)),
        Err(ReadError::Malformed { .. }) => return Err(Status::Unread),
    };
    match print(alloc, &component) {
        Ok(text) => Ok(text),
        Err(PrintError::OutOfMemory) => Err(Status::Refused(Error::OutOfMemory)),
        Err(PrintError::OtherCoreModule) => Err(Status::NoText),
    }
}

/// Writes the text of the component that the bytes are to the front of the output, as `print` of `smith_print` has it.
///
/// Returns the code of a `Status`: `NoText` if the component has no text, since a core module in it has more than
/// function types and memories. If the output has no room, `text_len` is how long the text is, as when it is written,
/// and otherwise it is 0. The output is unchanged unless the text is written, and always unchanged after it.
#[unsafe(no_mangle)]
pub extern "C" fn lupinanon_proved_print(
    alloc: Global,
    bytes: &[u8],
    output: &mut [u8],
    text_len: &mut usize,
) -> i32
    ensures answered { result ≡ code_of Answered → (text_len.new ≤ length output.old)
        × IsTextOf bytes.now (Some (take text_len.new output.new))
        × (drop text_len.new output.new ≡ drop text_len.new output.old) }
    ensures no_room { result ≡ code_of NoRoom → (length output.old < text_len.new)
        × (text : List ℕ) × (text_len.new ≡ length text) × IsTextOf bytes.now (Some text) }
    ensures stopped { result ≢ code_of Answered → result ≢ code_of NoRoom → (text_len.new ≡ 0)
        × (status : Status) × (result ≡ code_of status) × LacksText bytes.now status }
    ensures kept { result ≢ code_of Answered → output.new ≡ output.old }
{
    *text_len = 0;
    match printed(alloc, bytes) {
        Ok(text) => put(text.as_bytes(), output, text_len),
        Err(status) => status.code(),
    }
}
