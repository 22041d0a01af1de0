//! Writing near misses of generated components, with what they are to validators, as the files of a folder.

use crate::corpus::drawn;
use crate::folders::{COMPONENT_ENDING, path_in, write_new};
use crate::inspecting::REFUSED;
use crate::judged::Judged;
use crate::options::Draw;
use crate::places::status_of_print;
use crate::print_error;
use crate::progress::Progress;
use rand_pcg::Pcg32;
use rand_pcg::rand_core::SeedableRng;
use serde::Serialize;
use smith_change::ChangeError;
use smith_component::Config;
use smith_corpus::{NearMiss, Taken, miswritten, near_miss};
use smith_verdict::Answer;
use std::alloc::Global;
use std::process::ExitCode;

// How the names of files end that say what a near miss is.
const ANSWER_ENDING: &str = ".json";

// One in so many is written wrongly.
const MISWRITTEN: usize = 4;

// After so many components in a row of which no change is found, none is looked for any more.
const MOST_MISSES: usize = 1000;

// What changes are drawn from begins apart from what inputs are drawn from.
const APART: u64 = 0x9e37_79b9_7f4a_7c15;

// What a near miss is, as an object of JSON.
#[derive(Drop, Serialize)]
struct Line {
    answer: &'static str,
    rule: Option<String>,
    offset: Option<usize>,
    change: String,
    number: usize,
    input: usize,
}

// How many near misses have each answer.
#[derive(Clone, Copy)]
struct Counts {
    valid: usize,
    invalid: usize,
    bound: usize,
    outside: usize,
}

impl Counts {
    fn add(&mut self, answer: &Answer) {
        let count = match answer {
            Answer::Valid => &mut self.valid,
            Answer::Invalid { .. } => &mut self.invalid,
            Answer::Bound { .. } => &mut self.bound,
            Answer::Outside { .. } => &mut self.outside,
        };
        *count = count.saturating_add(1);
    }
}

// What near misses are drawn from.
#[derive(Drop)]
struct Source {
    inputs: Pcg32,
    changes: Pcg32,
    taken: Taken,
    // The number of the next input.
    input: usize,
}

// The component written wrongly if it is the turn of that, and otherwise with a change.
fn broken(
    alloc: Global,
    source: &mut Source,
    component: &[u8],
    number: usize,
) -> Result<Option<NearMiss>, ChangeError> {
    if number % MISWRITTEN == MISWRITTEN - 1 {
        return Ok(miswritten(alloc, &mut source.changes, component)?);
    }
    near_miss(alloc, &mut source.changes, &mut source.taken, component)
}

// The status after a message that says why there is no near miss.
fn refused(rt: &HostRuntime, error: &ChangeError) -> ExitCode {
    let _status = print_error(rt, error);
    ExitCode::from(REFUSED)
}

// A near miss of the next component, if one is found.
fn next_of(
    rt: &HostRuntime,
    config: &Config,
    draw: Draw,
    source: &mut Source,
    number: usize,
) -> Result<Option<NearMiss>, ExitCode> {
    let sample = drawn(rt, config, &mut source.inputs, draw)?;
    source.input = source.input.saturating_add(1);
    match broken(rt.alloc(), source, &sample.component, number) {
        Ok(found) => Ok(found),
        Err(error) => Err(refused(rt, &error)),
    }
}

// A near miss of one of the next components.
fn found_of(
    rt: &HostRuntime,
    config: &Config,
    draw: Draw,
    source: &mut Source,
    number: usize,
) -> Result<NearMiss, ExitCode> {
    for _ in 0..MOST_MISSES {
        if let Some(found) = next_of(rt, config, draw, source, number)? {
            return Ok(found);
        }
    }
    let _status = print_error(rt, "no change leads to something");
    Err(ExitCode::from(REFUSED))
}

// What a near miss of the component of that input is, as a line of JSON.
fn line_of(alloc: Global, found: NearMiss, input: usize) -> Result<String, serde_json::Error> {
    let NearMiss {
        difference,
        number,
        answer,
        ..
    } = found;
    let judged = Judged::Answer(answer);
    let line = Line {
        answer: judged.word().name(),
        rule: judged.rule(alloc)?,
        offset: judged.offset(),
        change: format!(in alloc; "{difference}")?,
        number,
        input,
    };
    let mut text = serde_json::to_string(alloc, &line)?;
    text.push('\n')?;
    Ok(text)
}

// Writes a near miss, and what it is.
fn write_found(
    rt: &HostRuntime,
    folder: &str,
    number: usize,
    found: NearMiss,
    input: usize,
) -> Result<(), ExitCode> {
    let path = path_in(rt, folder, number, COMPONENT_ENDING)?;
    write_new(rt, &path, &found.bytes)?;
    let Ok(line) = line_of(rt.alloc(), found, input) else {
        return Err(refused(rt, &ChangeError::OutOfMemory));
    };
    let path = path_in(rt, folder, number, ANSWER_ENDING)?;
    write_new(rt, &path, line.as_bytes())
}

/// Writes near misses of components that validate, and says how many of them have each answer.
pub fn write_broken(
    rt: &HostRuntime,
    folder: &str,
    config: &Config,
    draw: Draw,
) -> Result<ExitCode, ExitCode> {
    let config = Config {
        must_validate: true,
        ..*config
    };
    let mut source = Source {
        inputs: Pcg32::seed_from_u64(draw.seed),
        changes: Pcg32::seed_from_u64(draw.seed ^ APART),
        taken: Taken::new(rt.alloc()),
        input: 0,
    };
    let mut counts = Counts {
        valid: 0,
        invalid: 0,
        bound: 0,
        outside: 0,
    };
    let mut progress = Progress::new(rt, draw.count);
    for number in 0..draw.count {
        let found = found_of(rt, &config, draw, &mut source, number)?;
        counts.add(&found.answer);
        write_found(rt, folder, number, found, source.input.saturating_sub(1))?;
        progress.step();
    }
    progress.end();
    let Counts {
        valid,
        invalid,
        bound,
        outside,
    } = counts;
    status_of_print(
        rt,
        println!(rt; "valid {valid}, invalid {invalid}, bound {bound}, outside {outside}"),
    )
}
