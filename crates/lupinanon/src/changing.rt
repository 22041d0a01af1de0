//! Writing the component in a file with one token or one list of entries changed, and what it is to validators.

use crate::FAULT;
use crate::inspecting::{REFUSED, UNREAD, component_in, refuse};
use crate::options::{Change, Which};
use crate::places::{refuse_terminal_for_bytes, status_of_print};
use crate::scripting::write_bytes;
use crate::unread::Unread;
use smith_change::{
    ALTERNATIVES, Alternative, ChangeError, Step, changed_bytes, changes, next_changed, place_kind,
};
use smith_read::{ComponentTree, read};
use smith_verdict::{Answer, answer};
use std::alloc::AllocError;
use std::process::ExitCode;

// The value, or the status after a message if memory runs out.
fn settled<T: Drop>(
    rt: &HostRuntime,
    path: Option<&str>,
    done: Result<T, AllocError>,
) -> Result<T, ExitCode> {
    match done {
        Ok(value) => Ok(value),
        Err(_) => Err(refuse(rt, path, &"out of memory", FAULT)),
    }
}

// What a search for changes finds, or the status after a message.
fn found<T: Drop>(
    rt: &HostRuntime,
    path: Option<&str>,
    bytes: &[u8],
    done: Result<T, ChangeError>,
) -> Result<T, ExitCode> {
    match done {
        Ok(value) => Ok(value),
        Err(ChangeError::Unread { reason, offset }) => {
            Err(refuse(rt, path, &Unread::new(bytes, reason, offset), UNREAD))
        }
        Err(error) => Err(refuse(rt, path, &error, FAULT)),
    }
}

// What the changed bytes are to validators.
fn answer_of(rt: &HostRuntime, path: Option<&str>, bytes: &[u8]) -> Result<Answer, ExitCode> {
    settled(rt, path, answer(rt.alloc(), bytes))
}

// Writes what a change leads to, and prints the number of the change and the answer.
fn write_step(rt: &HostRuntime, change: &Change<'_>, step: &Step) -> Result<ExitCode, ExitCode> {
    let answer = answer_of(rt, change.input, &step.bytes)?;
    let status = write_bytes(rt, change.output, &step.bytes)?;
    let number = step.number;
    let _ = eprintln!(rt; "{number}: {answer}");
    Ok(status)
}

// Writes what the change of that number leads to.
fn write_numbered(
    rt: &HostRuntime,
    change: &Change<'_>,
    bytes: &[u8],
    number: usize,
) -> Result<ExitCode, ExitCode> {
    match found(
        rt,
        change.input,
        bytes,
        changed_bytes(rt.alloc(), bytes, number),
    )? {
        Some(bytes) => write_step(rt, change, &Step { number, bytes }),
        None => {
            let why = "the change of that number leads to nothing";
            Err(refuse(rt, change.input, &why, REFUSED))
        }
    }
}

// Writes what the first change from that number on leads to.
fn write_next(
    rt: &HostRuntime,
    change: &Change<'_>,
    bytes: &[u8],
    from: usize,
) -> Result<ExitCode, ExitCode> {
    match found(
        rt,
        change.input,
        bytes,
        next_changed(rt.alloc(), bytes, from),
    )? {
        Some(step) => write_step(rt, change, &step),
        None => {
            let why = "no change from that number on leads to something";
            Err(refuse(rt, change.input, &why, REFUSED))
        }
    }
}

// The component in the file.
fn tree_of(rt: &HostRuntime, path: Option<&str>, bytes: &[u8]) -> Result<ComponentTree, ExitCode> {
    match read(rt.alloc(), bytes) {
        Ok(tree) => Ok(tree),
        Err(error) => found(rt, path, bytes, Err(ChangeError::from(error))),
    }
}

// Prints a change: its number, what it changes, and what the changed bytes are.
fn print_step(
    rt: &HostRuntime,
    path: Option<&str>,
    tree: &ComponentTree,
    step: &Step,
) -> Result<ExitCode, ExitCode> {
    let answer = answer_of(rt, path, &step.bytes)?;
    let number = step.number;
    let Some(place) = settled(rt, path, place_kind(rt.alloc(), tree, number))? else {
        return status_of_print(rt, println!(rt; "{number}: {answer}"));
    };
    let change = Alternative {
        place,
        number: number % ALTERNATIVES,
    };
    status_of_print(rt, println!(rt; "{number}: {change}: {answer}"))
}

// Prints a line for each change that leads to something.
fn print_changes(rt: &HostRuntime, path: Option<&str>, bytes: &[u8]) -> Result<ExitCode, ExitCode> {
    let tree = tree_of(rt, path, bytes)?;
    let most = settled(rt, path, changes(rt.alloc(), &tree))?;
    let mut from: usize = 0;
    for _ in 0..most {
        let Some(step) = found(rt, path, bytes, next_changed(rt.alloc(), bytes, from))? else {
            break;
        };
        print_step(rt, path, &tree, &step)?;
        from = step.number.saturating_add(1);
    }
    Ok(ExitCode::SUCCESS)
}

// Refuses to write bytes to a terminal; what is listed is text.
fn refuse_bytes(rt: &HostRuntime, change: &Change<'_>) -> Result<(), ExitCode> {
    match change.which {
        Which::All => Ok(()),
        Which::Numbered(_) | Which::From(_) => refuse_terminal_for_bytes(rt, change.output),
    }
}

/// Writes the component after the change that is asked for, or says why there is none; or lists the changes.
pub fn change(rt: &HostRuntime, change: &Change<'_>) -> Result<ExitCode, ExitCode> {
    refuse_bytes(rt, change)?;
    let bytes = component_in(rt, change.input)?;
    match change.which {
        Which::Numbered(number) => write_numbered(rt, change, &bytes, number),
        Which::From(from) => write_next(rt, change, &bytes, from),
        Which::All => print_changes(rt, change.input, &bytes),
    }
}
