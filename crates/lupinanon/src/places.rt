//! What bytes are read from and written to. Each keeps the error that it met, for a message.

ghost use Rattle.std.specs.Prelude.{◌≤◌, length, IfOk};

use crate::print_error;
use smith_run::Form;
use std::fs::File;
use std::io::{self, IsTerminal, Read, Stdin, Stdout, Write};
use std::process::ExitCode;

/// What the input is called if it is not a file.
pub const STANDARD_INPUT: &str = "standard input";

/// What the output is called if it is not a file.
pub const STANDARD_OUTPUT: &str = "standard output";

/// Standard input, or a file.
#[derive(Drop)]
enum Opened {
    Standard(Stdin),
    File(File),
}

// Keeps the error, and returns one of its kind.
fn keep(fault: &mut Option<io::Error>, error: io::Error) -> io::Error {
    let kind = error.kind();
    *fault = Some(error);
    io::Error::from(kind)
}

/// What the input is read from.
#[derive(Drop)]
pub struct Source {
    opened: Opened,
    fault: Option<io::Error>,
}

impl Source {
    /// Opens the file, or standard input if there is none.
    pub fn open(rt: &HostRuntime, path: Option<&str>) -> io::Result<Source> {
        let opened = match path {
            None => Opened::Standard(rt.stdin()),
            Some(path) => Opened::File(File::open(rt, path)?),
        };
        Ok(Source {
            opened,
            fault: None,
        })
    }

    /// The last error of a read.
    pub fn fault(&self) -> Option<&io::Error> {
        self.fault.as_ref()
    }
}

impl Read for Source {
    fn read(&mut self, buf: &mut [u8]) -> io::Result<usize> {
        let answer = match &mut self.opened {
            Opened::Standard(stdin) => stdin.read(buf),
            Opened::File(file) => file.read(buf),
        };
        match answer {
            Ok(count) => Ok(count),
            Err(error) => Err(keep(&mut self.fault, error)),
        }
    }
}

/// Standard output, or a file, which is made only when its first byte is written.
#[derive(Drop)]
enum Made<'a> {
    Standard(Stdout),
    Unmade(&'a HostRuntime, &'a str),
    File(File),
}

/// What the component is written to.
#[derive(Drop)]
pub struct Sink<'a> {
    made: Made<'a>,
    fault: Option<io::Error>,
}

impl<'a> Sink<'a> {
    /// The file of this path, which is not made yet, or standard output if there is none.
    pub fn new(rt: &'a HostRuntime, path: Option<&'a str>) -> Sink<'a> {
        let made = match path {
            None => Made::Standard(rt.stdout()),
            Some(path) => Made::Unmade(rt, path),
        };
        Sink { made, fault: None }
    }

    /// The last error of a write or a flush.
    pub fn fault(&self) -> Option<&io::Error> {
        self.fault.as_ref()
    }
}

impl<'a> Made<'a> {
    fn write(&mut self, buf: &[u8]) -> io::Result<usize>
        ensures bound { IfOk result (λ count. count ≤ length buf.now) }
    {
        if let Made::Unmade(rt, path) = self {
            let file = File::create(*rt, *path)?;
            *self = Made::File(file);
        }
        match self {
            Made::Standard(stdout) => stdout.write(buf),
            Made::File(file) => file.write(buf),
            Made::Unmade(_, _) => Ok(0),
        }
    }

    fn flush(&mut self) -> io::Result<()> {
        match self {
            Made::Standard(stdout) => stdout.flush(),
            Made::File(file) => file.flush(),
            Made::Unmade(_, _) => Ok(()),
        }
    }
}

impl Write for Sink<'_> {
    fn write(&mut self, buf: &[u8]) -> io::Result<usize> {
        match self.made.write(buf) {
            Ok(count) => Ok(count),
            Err(error) => Err(keep(&mut self.fault, error)),
        }
    }

    fn flush(&mut self) -> io::Result<()> {
        match self.made.flush() {
            Ok(()) => Ok(()),
            Err(error) => Err(keep(&mut self.fault, error)),
        }
    }
}

/// Prints a file's path, and the error that a read or a write of it met. Returns the status.
pub fn print_fault(
    rt: &HostRuntime,
    path: Option<&str>,
    standard: &str,
    fault: Option<&io::Error>,
) -> ExitCode {
    let path = path.unwrap_or(standard);
    match fault {
        Some(fault) => print_error(rt, format_args!("{path}: {fault}")),
        None => print_error(rt, format_args!("{path}: it cannot be used")),
    }
}

/// Opens the file, or standard input if there is none, or returns the status after a message.
pub fn source_of(rt: &HostRuntime, path: Option<&str>) -> Result<Source, ExitCode> {
    match Source::open(rt, path) {
        Ok(source) => Ok(source),
        Err(error) => Err(print_fault(rt, path, STANDARD_INPUT, Some(&error))),
    }
}

/// The status that a failed write ends with: success if nothing reads the output any more, and otherwise that of a
/// fault, after a message.
pub fn status_of_fault(
    rt: &HostRuntime,
    path: Option<&str>,
    fault: Option<&io::Error>,
) -> ExitCode {
    match fault {
        Some(error) if error.kind() == io::ErrorKind::BrokenPipe => ExitCode::SUCCESS,
        _ => print_fault(rt, path, STANDARD_OUTPUT, fault),
    }
}

/// The status after something was printed, which is an error if it was not.
pub fn status_of_print(rt: &HostRuntime, printed: io::Result<()>) -> Result<ExitCode, ExitCode> {
    match printed {
        Ok(()) => Ok(ExitCode::SUCCESS),
        Err(error) => Err(status_of_fault(rt, None, Some(&error))),
    }
}

// Whether the output is standard output, and that a terminal.
fn is_terminal(rt: &HostRuntime, path: Option<&str>) -> bool {
    path.is_none() && rt.stdout().is_terminal()
}

/// Returns the status after a message if raw bytes would go to a terminal.
pub fn refuse_terminal(rt: &HostRuntime, path: Option<&str>, form: Form) -> Result<(), ExitCode> {
    if is_terminal(rt, path) && form == Form::Raw {
        let how = "standard output is a terminal: use --output or --hex";
        return Err(print_error(rt, how));
    }
    Ok(())
}

/// Returns the status after a message if bytes would go to a terminal, from a command that writes nothing else.
pub fn refuse_terminal_for_bytes(rt: &HostRuntime, path: Option<&str>) -> Result<(), ExitCode> {
    if is_terminal(rt, path) {
        return Err(print_error(rt, "standard output is a terminal: use --output"));
    }
    Ok(())
}
