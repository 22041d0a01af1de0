//! Turns a fuzzer's bytes into a WebAssembly component, from a file to a file, and back; shows the components in files.
#![tactic(auto)]

mod breaking;
mod changing;
mod checking;
mod commands;
mod converting;
mod corpus;
mod folders;
mod generating;
mod inspecting;
mod judged;
mod limits_file;
mod mutating;
mod options;
mod places;
mod progress;
mod reducing;
mod scripting;
mod show;
mod stats;
mod unread;

use options::Task;
use smith_limits::DEFAULT_LIMITS;
use std::env::{Env, FillError};
use std::process::ExitCode;
use std::{fmt, io};

// What a fault and bad arguments end with.
const FAULT: u8 = 2;

// So many bytes are enough for the path of any file.
const LONGEST_PATH: usize = 4096;

// Prints what is wrong, and returns the status.
fn print_error<W: fmt::Display + Drop>(rt: &HostRuntime, what: W) -> ExitCode {
    let _ = eprintln!(rt; "lupinanon: {what}");
    ExitCode::from(FAULT)
}

// The word of that number, from the program's name on.
fn word_at<'a>(
    rt: &HostRuntime,
    number: usize,
    word: &'a mut [u8; LONGEST_PATH],
) -> Result<&'a [u8], FillError> {
    let len = rt.arg(number, word)?;
    Ok(word.get(..len).unwrap_or_default())
}

// Names the first word that is not UTF-8, unless it is longer than a path, and returns the status.
fn refuse_words(rt: &HostRuntime) -> ExitCode {
    let mut room = [0u8; LONGEST_PATH];
    for number in 0..usize::MAX {
        match word_at(rt, number, &mut room) {
            Ok(word) if str::from_utf8(word).is_err() => {
                let word = word.escape_ascii();
                return print_error(rt, format_args!("bad arguments: {word} is not UTF-8"));
            }
            Err(FillError::NotPresent) => break,
            _ => {}
        }
    }
    print_error(rt, "bad arguments: they are not UTF-8")
}

// The words of the command line, or the status after a message.
fn words_of(rt: &HostRuntime) -> Result<Vec<String>, ExitCode> {
    let words: io::Result<Vec<String>> = match std::env::args(rt) {
        Ok(words) => words.collect(rt.alloc()).map_err(io::Error::from),
        Err(error) => Err(error),
    };
    match words {
        Ok(words) => Ok(words),
        Err(error) if error.kind() == io::ErrorKind::OutOfMemory => {
            Err(print_error(rt, "out of memory"))
        }
        Err(_) => Err(refuse_words(rt)),
    }
}

// Does what the words ask for. Returns the status, which is an error after a message or a failed write.
fn run(rt: &HostRuntime) -> Result<ExitCode, ExitCode> {
    let words = words_of(rt)?;
    match options::task_of(rt.alloc(), words.as_slice()) {
        Ok(Task::PrintLimits) => places::status_of_print(rt, print!(rt; "{}", DEFAULT_LIMITS)),
        Ok(Task::Generate(options)) => generating::generate(rt, &options),
        Ok(Task::GenerateEach(batch)) => converting::generate_each(rt, &batch),
        Ok(Task::Check(checked)) => checking::check(rt, &checked),
        Ok(Task::Show { input, is_json }) => inspecting::show(rt, input, is_json),
        Ok(
            Task::Print {
                input,
                output,
                with_offsets,
            },
        ) => inspecting::print(rt, input, output, with_offsets),
        Ok(Task::Script(options)) => scripting::script(rt, &options),
        Ok(Task::Smaller(options, choice)) => reducing::reduce(rt, &options, choice),
        Ok(Task::Change(change)) => changing::change(rt, &change),
        Ok(Task::Mutate(mutation)) => mutating::mutate(rt, &mutation),
        Ok(
            Task::Corpus {
                folder,
                origin,
                limits,
            },
        ) => corpus::corpus(rt, folder, origin, &limits),
        Ok(Task::Stats(counted)) => stats::stats(rt, &counted),
        Err(error) => {
            let printed = error.print(rt);
            if error.use_stderr() {
                return Err(ExitCode::from(FAULT));
            }
            places::status_of_print(rt, printed)
        }
    }
}

fn main(rt: HostRuntime) -> ExitCode {
    match run(&rt) {
        Ok(status) | Err(status) => status,
    }
}
