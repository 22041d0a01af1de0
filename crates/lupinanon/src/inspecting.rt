//! Looking at a component in a file: what is in it.

use crate::FAULT;
use crate::places::{STANDARD_INPUT, Source, print_fault, source_of, status_of_print};
use crate::scripting::write_bytes;
use crate::show::{Shown, json_of};
use crate::unread::Unread;
use smith_core::COMPONENT_PREAMBLE;
use smith_print::{print as text_of, print_with_offsets};
use smith_read::{ReadError, read};
use smith_run::LONGEST_INPUT;
use std::fmt;
use std::io::{self, Read};
use std::process::ExitCode;

/// What bytes that are not a component end with, and a run that is out of memory; of `check`, a component that is not
/// well formed, or bytes that are invalid if that is asked.
pub const REFUSED: u8 = 1;

/// What `check` and `smaller` end with if the bytes are not in the grammar.
pub const UNREAD: u8 = 3;

// Reads a file, or one byte more than an input may have if it is longer.
fn read_input(rt: &HostRuntime, source: &mut Source) -> io::Result<Vec<u8>> {
    let mut bytes = Vec::new(rt.alloc());
    let mut start = source.by_ref().take(LONGEST_INPUT as u64 + 1);
    start.read_to_end(&mut bytes)?;
    Ok(bytes)
}

// Reads a component, or only as many bytes as its preamble has if they are others.
fn read_component(rt: &HostRuntime, source: &mut Source) -> io::Result<Vec<u8>> {
    let mut bytes = Vec::new(rt.alloc());
    let mut head = source.by_ref().take(COMPONENT_PREAMBLE.len() as u64);
    head.read_to_end(&mut bytes)?;
    if bytes.starts_with(&COMPONENT_PREAMBLE) {
        source.read_to_end(&mut bytes)?;
    }
    Ok(bytes)
}

// What was read of the file, or the status after a message.
fn settled(
    rt: &HostRuntime,
    path: Option<&str>,
    source: &Source,
    done: io::Result<Vec<u8>>,
) -> Result<Vec<u8>, ExitCode> {
    match done {
        Ok(bytes) => Ok(bytes),
        Err(error) => {
            let fault = source.fault().unwrap_or(&error);
            Err(print_fault(rt, path, STANDARD_INPUT, Some(fault)))
        }
    }
}

/// The bytes of the file, or the status after a message. If they are more than an input may have, `refuse_long` refuses
/// what is read of them.
pub fn bytes_in(rt: &HostRuntime, path: Option<&str>) -> Result<Vec<u8>, ExitCode> {
    let mut source = source_of(rt, path)?;
    let done = read_input(rt, &mut source);
    settled(rt, path, &source, done)
}

/// The bytes of the component in the file, or the status after a message. If the file does not begin with the preamble
/// of a component, they are its first eight: what is said of a file then depends on nothing else.
pub fn component_in(rt: &HostRuntime, path: Option<&str>) -> Result<Vec<u8>, ExitCode> {
    let mut source = source_of(rt, path)?;
    let done = read_component(rt, &mut source);
    settled(rt, path, &source, done)
}

/// Prints what is wrong with a file, and returns the status.
pub fn refuse<W: fmt::Display>(
    rt: &HostRuntime,
    path: Option<&str>,
    why: &W,
    status: u8,
) -> ExitCode {
    let path = path.unwrap_or(STANDARD_INPUT);
    let _ = eprintln!(rt; "lupinanon: {path}: {why}");
    ExitCode::from(status)
}

/// Returns the status after a message if bytes of the file are more than an input may have. `what` begins to say so.
pub fn refuse_long(
    rt: &HostRuntime,
    path: Option<&str>,
    what: &str,
    bytes: &[u8],
) -> Result<(), ExitCode> {
    if bytes.len() <= LONGEST_INPUT {
        return Ok(());
    }
    let why = format_args!("{what} more than {LONGEST_INPUT} bytes");
    Err(refuse(rt, path, &why, FAULT))
}

/// Prints why the bytes of a file are not read as a component, and returns the status.
pub fn refuse_unread(
    rt: &HostRuntime,
    path: Option<&str>,
    bytes: &[u8],
    error: &ReadError,
) -> ExitCode {
    match *error {
        ReadError::OutOfMemory => refuse(rt, path, error, REFUSED),
        ReadError::Malformed { reason, offset } => {
            refuse(rt, path, &Unread::new(bytes, reason, offset), REFUSED)
        }
    }
}

// Whether the text broke off, and no write failed. The text of a component breaks off only if memory runs out.
fn is_of_text(error: &io::Error) -> bool {
    error.kind() == io::ErrorKind::Uncategorized && error.raw_os_error().is_none()
}

fn print_lines(
    rt: &HostRuntime,
    path: Option<&str>,
    shown: &Shown<'_>,
) -> Result<ExitCode, ExitCode> {
    match print!(rt; "{shown}") {
        Err(error) if is_of_text(&error) => Err(refuse(rt, path, &"out of memory", REFUSED)),
        printed => status_of_print(rt, printed),
    }
}

fn print_json(
    rt: &HostRuntime,
    path: Option<&str>,
    shown: &Shown<'_>,
) -> Result<ExitCode, ExitCode> {
    match json_of(shown) {
        Ok(lines) => status_of_print(rt, println!(rt; "{lines}")),
        Err(_) => Err(refuse(rt, path, &"out of memory", REFUSED)),
    }
}

/// Prints the component in the file, a line for each section and for each entry, or an array of JSON of these lines.
pub fn show(rt: &HostRuntime, path: Option<&str>, is_json: bool) -> Result<ExitCode, ExitCode> {
    let bytes = component_in(rt, path)?;
    match read(rt.alloc(), &bytes) {
        Ok(component) => {
            let shown = Shown {
                alloc: rt.alloc(),
                component: &component,
                bytes: &bytes,
            };
            if is_json {
                print_json(rt, path, &shown)
            } else {
                print_lines(rt, path, &shown)
            }
        }
        Err(error) => Err(refuse_unread(rt, path, &bytes, &error)),
    }
}

/// Writes the component in the file as text, with offsets or without, to a file, or to standard output if there is
/// none.
pub fn print(
    rt: &HostRuntime,
    path: Option<&str>,
    output: Option<&str>,
    with_offsets: bool,
) -> Result<ExitCode, ExitCode> {
    let bytes = component_in(rt, path)?;
    let component = match read(rt.alloc(), &bytes) {
        Ok(component) => component,
        Err(error) => return Err(refuse_unread(rt, path, &bytes, &error)),
    };
    let text = if with_offsets {
        print_with_offsets(rt.alloc(), &component, &bytes)
    } else {
        text_of(rt.alloc(), &component)
    };
    match text {
        Ok(text) => write_bytes(rt, output, text.as_bytes()),
        Err(error) => Err(refuse(rt, path, &error, REFUSED)),
    }
}
