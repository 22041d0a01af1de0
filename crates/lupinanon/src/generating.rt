//! Making a component of a file's bytes: from a table of limits and a reader to a writer.

ghost use Rattle.std.specs.Prelude.{◌≡◌, ◌≢◌, IfOk, IfErr, IsErrOf};
ghost use Rattle.toml.specs.View.{table_view};
ghost use Rattle.smith_run.specs.Running.{GivesTooMuch};
ghost use Rattle.lupinanon.specs.Converting.{IsOfLimits, IsWithinError, WritesWithin};

use crate::inspecting::refuse;
use crate::limits_file::{LimitsTable, config_of, refuse_both, refuse_limits, table_of};
use crate::options::Options;
use crate::places::{
    STANDARD_INPUT, Sink, Source, print_fault, refuse_terminal, source_of, status_of_fault,
};
use smith_limits::{Fault, limits_of};
use smith_run::{Form, LONGEST_INPUT, RunError, convert, convert_swarm};
use std::alloc::Global;
use std::io::{Read, Write};
use std::process::ExitCode;
use toml::Table;

/// Why no component is written within the limits that a table sets.
#[derive(Debug, PartialEq, Eq, Drop)]
pub enum WithinError {
    /// The table sets no limits.
    Limits(Fault),
    /// The run within the limits fails.
    Run(RunError),
}

/// Reads the whole input, makes a component of it within the limits that the table sets, and writes it in the form, as
/// `smith_run::convert` does. Returns how many bytes of the input are left. If the table sets no limits, nothing is
/// read.
pub fn convert_within<R: Read, W: Write>(
    alloc: Global,
    table: &Table,
    reader: &mut R,
    writer: &mut W,
    form: Form,
) -> Result<usize, WithinError>
    ensures written { IfOk result (WritesWithin (table_view table.now) form (R.remaining reader.old)
        (R.remaining reader.new) (W.contents writer.old) (W.contents writer.new)) }
    ensures refused { IfErr result
        (IsWithinError (table_view table.now) (R.remaining reader.old) (R.remaining reader.new)) }
    ensures unread { IfErr result (λ e. IsOfLimits e → reader.new ≡ reader.old) }
    ensures unwritten { IfErr result (λ e. e ≢ WithinError.Run RunError.WriteFault → writer.new ≡ writer.old) }
    ensures too_long { IsErrOf result (WithinError.Run RunError.InputTooLong)
        → GivesTooMuch (R.remaining reader.old) (R.remaining reader.new) }
{
    let config = match limits_of(alloc, table) {
        Ok(config) => config,
        Err(fault) => return Err(WithinError::Limits(fault)),
    };
    match convert(alloc, reader, writer, config, form) {
        Ok(left) => Ok(left),
        Err(error) => Err(WithinError::Run(error)),
    }
}

/// Prints why no component is made of an input, and returns the status. A component that cannot be written is one that
/// there is not enough memory for.
pub fn refuse_input(
    rt: &HostRuntime,
    path: Option<&str>,
    source: &Source,
    error: RunError,
) -> ExitCode {
    let status = error.status();
    match error {
        RunError::ReadFault => print_fault(rt, path, STANDARD_INPUT, source.fault()),
        RunError::WriteFault => refuse(rt, path, &"out of memory", status),
        RunError::InputTooLong => {
            let why = format_args!("the input has more than {LONGEST_INPUT} bytes");
            refuse(rt, path, &why, status)
        }
        RunError::Refused(refusal) => {
            let why = format_args!("{refusal:?}: {refusal}");
            refuse(rt, path, &why, status)
        }
    }
}

// The status that a failed run ends with, after a message that says why it failed, unless nothing reads the output.
fn status_of_run(
    rt: &HostRuntime,
    options: &Options<'_>,
    error: RunError,
    source: &Source,
    sink: &Sink<'_>,
) -> ExitCode {
    match error {
        RunError::WriteFault => status_of_fault(rt, options.output, sink.fault()),
        _ => refuse_input(rt, options.input, source, error),
    }
}

// The status of a run that left that many bytes, which are printed if that is asked for, or failed.
fn status_after(
    rt: &HostRuntime,
    options: &Options<'_>,
    left: Result<usize, RunError>,
    source: &Source,
    sink: &Sink<'_>,
) -> Result<ExitCode, ExitCode> {
    match left {
        Ok(left) => {
            if options.prints_left {
                let _ = eprintln!(rt; "left {left}");
            }
            Ok(ExitCode::SUCCESS)
        }
        Err(error) => Err(status_of_run(rt, options, error, source, sink)),
    }
}

// Makes the component within the limits that are given.
fn generate_within(rt: &HostRuntime, options: &Options<'_>) -> Result<ExitCode, ExitCode> {
    let LimitsTable { in_file, table } = table_of(rt, &options.limits)?;
    let mut source = source_of(rt, options.input)?;
    let mut sink = Sink::new(rt, options.output);
    let left = match convert_within(rt.alloc(), &table, &mut source, &mut sink, options.form) {
        Ok(left) => Ok(left),
        Err(WithinError::Run(error)) => Err(error),
        Err(WithinError::Limits(fault)) => {
            return Err(refuse_limits(rt, &options.limits, &in_file, &fault));
        }
    };
    status_after(rt, options, left, &source, &sink)
}

// Makes the component within the limits that the first bytes of the input encode.
fn generate_swarm(rt: &HostRuntime, options: &Options<'_>) -> Result<ExitCode, ExitCode> {
    let config = config_of(rt, &options.limits)?;
    let mut source = source_of(rt, options.input)?;
    let mut sink = Sink::new(rt, options.output);
    let left = convert_swarm(rt.alloc(), &mut source, &mut sink, config, options.form);
    status_after(rt, options, left, &source, &sink)
}

/// Makes the component that is asked for.
pub fn generate(rt: &HostRuntime, options: &Options<'_>) -> Result<ExitCode, ExitCode> {
    refuse_terminal(rt, options.output, options.form)?;
    refuse_both(rt, &options.limits, "the input", options.input)?;
    if options.is_swarm {
        generate_swarm(rt, options)
    } else {
        generate_within(rt, options)
    }
}
