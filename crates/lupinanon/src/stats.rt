//! What is in components.

use crate::folders::{Wanted, files_at};
use crate::inspecting::{REFUSED, bytes_in, component_in, refuse, refuse_long, refuse_unread};
use crate::limits_file::config_of;
use crate::options::{Counted, Page};
use crate::places::status_of_print;
use crate::print_error;
use crate::progress::Progress;
use serde::Serialize;
use smith_component::{Config, Error, Unstructured, generate};
use smith_read::{ReadError, read};
use smith_stats::{Counts, Listed, Tally, Totals};
use std::alloc::{AllocError, Global};
use std::collections::BTreeMap;
use std::process::ExitCode;

// The counts as an object of JSON.
#[derive(Drop, Serialize)]
struct Line<'a> {
    files: usize,
    unread: usize,
    bytes: usize,
    components: usize,
    depth: usize,
    entries: usize,
    shapes: usize,
    combinations: usize,
    types: &'a Counts,
    within: &'a BTreeMap<&'static str, Counts>,
}

impl<'a> Line<'a> {
    fn new(tally: &'a Tally) -> Line<'a> {
        let Totals {
            files,
            unread,
            bytes,
            components,
            depth,
            entries,
            shapes,
            combinations,
        } = tally.totals();
        Line {
            files,
            unread,
            bytes,
            components,
            depth,
            entries,
            shapes,
            combinations,
            types: tally.types(),
            within: tally.within(),
        }
    }
}

// Settles what may have run out of memory at a file.
fn settled(rt: &HostRuntime, path: &str, added: Result<(), AllocError>) -> Result<(), ExitCode> {
    match added {
        Ok(()) => Ok(()),
        Err(_) => Err(refuse(rt, Some(path), &"out of memory", REFUSED)),
    }
}

// Adds what is in a component, or names what is wrong with it. Returns the status after a message if it stops.
fn add_component(
    rt: &HostRuntime,
    tally: &mut Tally,
    path: &str,
    bytes: &[u8],
) -> Result<(), ExitCode> {
    let added = match read(rt.alloc(), bytes) {
        Ok(component) => tally.add(bytes.len(), &component),
        Err(ReadError::OutOfMemory) => Err(AllocError),
        Err(error) => {
            let _status = refuse_unread(rt, Some(path), bytes, &error);
            tally.add_unread();
            Ok(())
        }
    };
    settled(rt, path, added)
}

// Adds what is in the component of an input, or names why there is none.
fn add_input(
    rt: &HostRuntime,
    tally: &mut Tally,
    config: &Config,
    path: &str,
    input: &[u8],
) -> Result<(), ExitCode> {
    if refuse_long(rt, Some(path), "the input has", input).is_err() {
        tally.add_unread();
        return Ok(());
    }
    match generate(rt.alloc(), *config, &mut Unstructured::new(input)) {
        Ok(generated) => add_component(rt, tally, path, &generated.bytes),
        Err(Error::OutOfMemory) => settled(rt, path, Err(AllocError)),
        Err(error) => {
            let _status = refuse(rt, Some(path), &error, REFUSED);
            tally.add_unread();
            Ok(())
        }
    }
}

// Adds what is in the files.
fn add_files(
    rt: &HostRuntime,
    tally: &mut Tally,
    paths: &[String],
    config: &Config,
    are_inputs: bool,
) -> Result<(), ExitCode> {
    let mut progress = Progress::new(rt, paths.len());
    for path in paths {
        if are_inputs {
            let input = bytes_in(rt, Some(path))?;
            add_input(rt, tally, config, path, &input)?;
        } else {
            let component = component_in(rt, Some(path))?;
            add_component(rt, tally, path, &component)?;
        }
        progress.step();
    }
    progress.end();
    Ok(())
}

fn print_json(rt: &HostRuntime, tally: &Tally) -> Result<ExitCode, ExitCode> {
    match serde_json::to_string(rt.alloc(), &Line::new(tally)) {
        Ok(line) => status_of_print(rt, println!(rt; "{line}")),
        Err(_) => {
            let _status = print_error(rt, "out of memory");
            Err(ExitCode::from(REFUSED))
        }
    }
}

/// Prints how much there is in components, by sort and by place, or the combinations in them.
pub fn stats(rt: &HostRuntime, counted: &Counted<'_>) -> Result<ExitCode, ExitCode> {
    let config = config_of(rt, &counted.limits)?;
    let wanted = if counted.are_inputs {
        Wanted::Inputs
    } else {
        Wanted::Components
    };
    let listed = files_at(rt, &counted.paths, wanted)?;
    let mut tally = Tally::new(rt.alloc());
    add_files(rt, &mut tally, &listed.paths, &config, counted.are_inputs)?;
    let (tally, names) = (&tally, listed.paths.as_slice());
    match counted.page {
        Page::Lines => status_of_print(rt, print!(rt; "{tally}")),
        Page::Json => print_json(rt, tally),
        Page::Combinations => status_of_print(rt, print!(rt; "{}", Listed { tally, names })),
    }
}
