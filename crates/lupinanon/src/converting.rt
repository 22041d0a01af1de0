//! Making a component of each input in a folder, as the files of another folder.

use crate::FAULT;
use crate::folders::{
    COMPONENT_ENDING, Wanted, files_at, make_folder, name_at, path_in, write_new,
};
use crate::generating::refuse_input;
use crate::limits_file::config_of;
use crate::options::Batch;
use crate::places::{Source, source_of, status_of_print};
use crate::progress::Progress;
use smith_component::Config;
use smith_run::{Form, RunError, convert, convert_swarm};
use std::process::ExitCode;

// How many inputs there are with a component and without one.
#[derive(Clone, Copy)]
struct Counts {
    made: usize,
    others: usize,
    // The worst status of an input.
    status: u8,
}

impl Counts {
    // Adds an input without a component.
    fn skip(&mut self, status: u8) {
        self.others = self.others.saturating_add(1);
        self.status = self.status.max(status);
    }
}

// The component of an input within the limits, or within those that its first bytes encode.
fn made_of(
    rt: &HostRuntime,
    config: &Config,
    source: &mut Source,
    is_swarm: bool,
) -> Result<Vec<u8>, RunError> {
    let mut made = Vec::new(rt.alloc());
    if is_swarm {
        convert_swarm(rt.alloc(), source, &mut made, *config, Form::Raw)?;
    } else {
        convert(rt.alloc(), source, &mut made, *config, Form::Raw)?;
    }
    Ok(made)
}

// Makes the component of an input. Returns the status after a message if that cannot be written.
fn make_next(
    rt: &HostRuntime,
    batch: &Batch<'_>,
    config: &Config,
    path: &str,
    counts: &mut Counts,
) -> Result<(), ExitCode> {
    let Ok(mut source) = source_of(rt, Some(path)) else {
        counts.skip(FAULT);
        return Ok(());
    };
    match made_of(rt, config, &mut source, batch.is_swarm) {
        Ok(made) => {
            let to = path_in(rt, batch.folder, name_at(path), COMPONENT_ENDING)?;
            write_new(rt, &to, &made)?;
            counts.made = counts.made.saturating_add(1);
        }
        Err(error) => {
            counts.skip(error.status());
            let _status = refuse_input(rt, Some(path), &source, error);
        }
    }
    Ok(())
}

/// Makes the components of the inputs in a folder, and says how many have none.
pub fn generate_each(rt: &HostRuntime, batch: &Batch<'_>) -> Result<ExitCode, ExitCode> {
    let config = config_of(rt, &batch.limits)?;
    let listed = files_at(rt, &[batch.from], Wanted::Inputs)?;
    make_folder(rt, batch.folder)?;
    let mut counts = Counts {
        made: 0,
        others: listed.skipped,
        status: if listed.skipped == 0 { 0 } else { FAULT },
    };
    let mut progress = Progress::new(rt, listed.paths.len());
    for path in &listed.paths {
        make_next(rt, batch, &config, path, &mut counts)?;
        progress.step();
    }
    progress.end();
    let Counts {
        made,
        others,
        status,
    } = counts;
    status_of_print(
        rt,
        println!(rt; "components {made}, inputs without one {others}"),
    )?;
    Ok(ExitCode::from(status))
}
