//! Writing a component that is smaller than the one in a file.

use crate::FAULT;
use crate::inspecting::{REFUSED, UNREAD, component_in, refuse};
use crate::limits_file::{config_of, refuse_both};
use crate::options::{Choice, Options};
use crate::places::refuse_terminal_for_bytes;
use crate::scripting::write_bytes;
use crate::unread::Unread;
use smith_reduce::{ReduceError, Wanted, next_smaller, smaller};
use std::process::ExitCode;

// Prints why no smaller component is looked for, and returns the status.
fn refuse_search(
    rt: &HostRuntime,
    path: Option<&str>,
    bytes: &[u8],
    error: &ReduceError,
) -> ExitCode {
    match *error {
        ReduceError::Unread { reason, offset } => {
            refuse(rt, path, &Unread::new(bytes, reason, offset), UNREAD)
        }
        _ => refuse(rt, path, error, FAULT),
    }
}

// Writes the smaller component of that number.
fn write_numbered(
    rt: &HostRuntime,
    options: &Options<'_>,
    wanted: Wanted<'_>,
    bytes: &[u8],
    number: usize,
) -> Result<ExitCode, ExitCode> {
    match smaller(rt.alloc(), wanted, bytes, number) {
        Ok(Some(smaller)) => write_bytes(rt, options.output, &smaller),
        Ok(None) => {
            let why = "there is no smaller component of that number";
            Err(refuse(rt, options.input, &why, REFUSED))
        }
        Err(error) => Err(refuse_search(rt, options.input, bytes, &error)),
    }
}

// Writes the first smaller component from that step on, and prints the number of its step.
fn write_next(
    rt: &HostRuntime,
    options: &Options<'_>,
    wanted: Wanted<'_>,
    bytes: &[u8],
    from: usize,
) -> Result<ExitCode, ExitCode> {
    match next_smaller(rt.alloc(), wanted, bytes, from) {
        Ok(Some(step)) => {
            let status = write_bytes(rt, options.output, &step.bytes)?;
            let _ = eprintln!(rt; "step {}", step.number);
            Ok(status)
        }
        Ok(None) => {
            let why = "there is no smaller component from that step on";
            Err(refuse(rt, options.input, &why, REFUSED))
        }
        Err(error) => Err(refuse_search(rt, options.input, bytes, &error)),
    }
}

// Writes the chosen one of the wanted components.
fn write_chosen(
    rt: &HostRuntime,
    options: &Options<'_>,
    choice: Choice,
    wanted: Wanted<'_>,
) -> Result<ExitCode, ExitCode> {
    let bytes = component_in(rt, options.input)?;
    match choice {
        Choice::Numbered(number) => write_numbered(rt, options, wanted, &bytes, number),
        Choice::From(step) => write_next(rt, options, wanted, &bytes, step),
    }
}

/// Writes the smaller component that is asked for, or says why there is none.
pub fn reduce(
    rt: &HostRuntime,
    options: &Options<'_>,
    choice: Choice,
) -> Result<ExitCode, ExitCode> {
    refuse_terminal_for_bytes(rt, options.output)?;
    if options.is_any {
        return write_chosen(rt, options, choice, Wanted::WellFormed);
    }
    refuse_both(rt, &options.limits, "the component", options.input)?;
    let config = config_of(rt, &options.limits)?;
    write_chosen(rt, options, choice, Wanted::Generated(&config))
}
