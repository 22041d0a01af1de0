//! Writing a corpus: inputs that are read to their end, as the files of a folder.

use crate::breaking::write_broken;
use crate::folders::{
    COMPONENT_ENDING, Wanted, files_at, make_folder, name_at, path_in, write_new,
};
use crate::inspecting::{REFUSED, component_in};
use crate::limits_file::config_of;
use crate::options::{Draw, Limits, Origin};
use crate::places::status_of_print;
use crate::print_error;
use crate::progress::Progress;
use crate::scripting::refuse_script;
use rand_pcg::Pcg32;
use rand_pcg::rand_core::SeedableRng;
use smith_component::Config;
use smith_corpus::{Reached, Sample, draw, draw_flat, draw_swarm};
use smith_script::{ScriptError, script};
use std::fmt;
use std::process::ExitCode;

// The status after a message that says why there is no sample.
fn refuse_draw<W: fmt::Display + Drop>(rt: &HostRuntime, why: W) -> ExitCode {
    let _status = print_error(rt, format_args!("no input is found: {why}"));
    ExitCode::from(REFUSED)
}

/// A sample, or the status after a message.
pub fn drawn(
    rt: &HostRuntime,
    config: &Config,
    random: &mut Pcg32,
    wanted: Draw,
) -> Result<Sample, ExitCode> {
    let sample = if wanted.is_swarm {
        draw_swarm(rt.alloc(), config, random, wanted.len)
    } else {
        draw(rt.alloc(), config, random, wanted.len)
    };
    match sample {
        Ok(sample) => Ok(sample),
        Err(error) => Err(refuse_draw(rt, error)),
    }
}

// A sample whose combinations few of those before have, or the status after a message.
fn drawn_flat(
    rt: &HostRuntime,
    config: &Config,
    random: &mut Pcg32,
    reached: &mut Reached,
) -> Result<Sample, ExitCode> {
    match draw_flat(rt.alloc(), config, random, reached) {
        Ok(Some(sample)) => Ok(sample),
        Ok(None) => Err(refuse_draw(rt, "no component that was drawn has a script")),
        Err(_) => Err(refuse_draw(rt, "out of memory")),
    }
}

// Writes random inputs, and says how many bytes they and their components have.
fn write_random(
    rt: &HostRuntime,
    folder: &str,
    config: &Config,
    draw: Draw,
) -> Result<ExitCode, ExitCode> {
    let mut random = Pcg32::seed_from_u64(draw.seed);
    let mut reached = Reached::new(rt.alloc());
    let mut input_bytes: u64 = 0;
    let mut component_bytes: u64 = 0;
    let mut progress = Progress::new(rt, draw.count);
    for number in 0..draw.count {
        let sample = if draw.is_flat {
            drawn_flat(rt, config, &mut random, &mut reached)?
        } else {
            drawn(rt, config, &mut random, draw)?
        };
        write_new(rt, &path_in(rt, folder, number, "")?, &sample.input)?;
        if draw.with_components {
            let path = path_in(rt, folder, number, COMPONENT_ENDING)?;
            write_new(rt, &path, &sample.component)?;
        }
        input_bytes = input_bytes.saturating_add(sample.input.len() as u64);
        component_bytes = component_bytes.saturating_add(sample.component.len() as u64);
        progress.step();
    }
    progress.end();
    let count = draw.count;
    status_of_print(
        rt,
        println!(rt; "inputs {count}, bytes {input_bytes}, bytes of components {component_bytes}"),
    )
}

// Writes the script of a component into the folder, or says why there is none. Returns how many are written.
fn write_script(
    rt: &HostRuntime,
    folder: &str,
    config: &Config,
    path: &str,
) -> Result<usize, ExitCode> {
    let bytes = component_in(rt, Some(path))?;
    match script(rt.alloc(), config, &bytes) {
        Ok(input) => {
            let name = name_at(path);
            let stem = name.strip_suffix(COMPONENT_ENDING).unwrap_or(name);
            write_new(rt, &path_in(rt, folder, stem, "")?, &input)?;
            Ok(1)
        }
        Err(error) => {
            let status = refuse_script(rt, Some(path), &bytes, &error);
            match error {
                ScriptError::OutOfMemory => Err(status),
                _ => Ok(0),
            }
        }
    }
}

// Writes the scripts of the components in a folder, and says how many have none.
fn write_scripts(
    rt: &HostRuntime,
    folder: &str,
    config: &Config,
    from: &str,
) -> Result<ExitCode, ExitCode> {
    let listed = files_at(rt, &[from], Wanted::Components)?;
    let count = listed.paths.len().saturating_add(listed.skipped);
    let mut written: usize = 0;
    let mut progress = Progress::new(rt, listed.paths.len());
    for path in &listed.paths {
        let more = write_script(rt, folder, config, path)?;
        written = written.saturating_add(more);
        progress.step();
    }
    progress.end();
    let others = count.saturating_sub(written);
    status_of_print(
        rt,
        println!(rt; "inputs {written}, components without one {others}"),
    )
}

/// Writes the inputs of that origin into the folder.
pub fn corpus(
    rt: &HostRuntime,
    folder: &str,
    origin: Origin<'_>,
    limits: &Limits<'_>,
) -> Result<ExitCode, ExitCode> {
    let config = config_of(rt, limits)?;
    make_folder(rt, folder)?;
    match origin {
        Origin::Random(draw) => write_random(rt, folder, &config, draw),
        Origin::Broken(draw) => write_broken(rt, folder, &config, draw),
        Origin::Folder(from) => write_scripts(rt, folder, &config, from),
    }
}
