//! Writing the script of a component in a file: the input that produces it.

use crate::FAULT;
use crate::inspecting::{REFUSED, component_in, refuse};
use crate::limits_file::{config_of, refuse_both};
use crate::options::Options;
use crate::places::{Sink, refuse_terminal, status_of_fault};
use crate::unread::Unread;
use smith_component::Config;
use smith_read::offset_of;
use smith_run::{Form, page};
use smith_script::ScriptError;
use smith_verdict::Verdict;
use std::alloc::Global;
use std::io::Write;
use std::process::ExitCode;

/// Prints why there is no script, and where a rule is broken if one is, and returns the status.
pub fn refuse_script(
    rt: &HostRuntime,
    path: Option<&str>,
    bytes: &[u8],
    error: &ScriptError,
) -> ExitCode {
    match error {
        ScriptError::IllFormed(fault) => match offset_of(rt.alloc(), bytes, fault.item) {
            Ok(offset) => {
                let rule = fault.rule;
                refuse(rt, path, &Verdict::IllFormed { rule, offset }, REFUSED)
            }
            Err(_) => refuse(rt, path, &"out of memory", REFUSED),
        },
        ScriptError::InconsistentLimits => refuse(rt, path, error, FAULT),
        ScriptError::Unread { reason, offset } => {
            refuse(rt, path, &Unread::new(bytes, *reason, *offset), REFUSED)
        }
        _ => refuse(rt, path, error, REFUSED),
    }
}

// What is written of the component's script. Nothing of it is left.
fn script_text(
    alloc: Global,
    config: &Config,
    bytes: &[u8],
    form: Form,
) -> Result<Vec<u8>, ScriptError> {
    let input = smith_script::script(alloc, config, bytes)?;
    match form {
        Form::Raw => Ok(input),
        Form::Page => Ok(page(alloc, &input, 0)?),
    }
}

/// Writes bytes to the file, or to standard output if there is none. Returns the status, an error if a write fails.
pub fn write_bytes(
    rt: &HostRuntime,
    path: Option<&str>,
    bytes: &[u8],
) -> Result<ExitCode, ExitCode> {
    let mut sink = Sink::new(rt, path);
    if sink.write_all(bytes).is_err() || sink.flush().is_err() {
        return Err(status_of_fault(rt, path, sink.fault()));
    }
    Ok(ExitCode::SUCCESS)
}

/// Writes the script that is asked for, or says why there is none.
pub fn script(rt: &HostRuntime, options: &Options<'_>) -> Result<ExitCode, ExitCode> {
    let path = options.input;
    refuse_terminal(rt, options.output, options.form)?;
    refuse_both(rt, &options.limits, "the component", path)?;
    let config = config_of(rt, &options.limits)?;
    let bytes = component_in(rt, path)?;
    match script_text(rt.alloc(), &config, &bytes, options.form) {
        Ok(text) => write_bytes(rt, options.output, &text),
        Err(error) => Err(refuse_script(rt, path, &bytes, &error)),
    }
}
