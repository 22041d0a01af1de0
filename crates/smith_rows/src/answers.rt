//! The answers to a row.

use crate::components::{doubled, scripted, simpler, smaller, what_is_read};
use crate::generations::{generate_from, held, is_generated, outcome, repeated};
use crate::texts::{defaults, texts, unwritten};
use smith_component::Config;
use smith_verdict::{answer as validator_answer, check, validate};
use std::alloc::{AllocError, Global};

/// What a row asks of its bytes, as the head of the table says.
#[derive(Clone, Copy, PartialEq, Eq)]
pub enum Task {
    Component,
    Prefix,
    Plan,
    Cuts,
    Repeated,
    Held,
    Script,
    Read,
    Fronts,
    Check,
    Validate,
    Answer,
    Smaller,
    Simpler,
    Doubled,
    Texts,
    Defaults,
    Unwritten,
}

/// Each task and its name.
pub const TASKS: &[(&str, Task)] = &[
    ("component", Task::Component),
    ("prefix", Task::Prefix),
    ("plan", Task::Plan),
    ("cuts", Task::Cuts),
    ("repeated", Task::Repeated),
    ("held", Task::Held),
    ("script", Task::Script),
    ("read", Task::Read),
    ("fronts", Task::Fronts),
    ("check", Task::Check),
    ("validate", Task::Validate),
    ("answer", Task::Answer),
    ("smaller", Task::Smaller),
    ("simpler", Task::Simpler),
    ("doubled", Task::Doubled),
    ("texts", Task::Texts),
    ("defaults", Task::Defaults),
    ("unwritten", Task::Unwritten),
];

// The bytes that follow a prefix, one after another, and are left.
const RESTS: [&[u8]; 3] = [b"", b"\xff\x07", b"\x00\x03\x01"];

// What is generated from an input, with other bytes after it too if the task asks that, and whether it is the script.
fn generation(
    alloc: Global,
    limits: &Config,
    task: Task,
    input: &[u8],
) -> Result<String, AllocError> {
    let first = generate_from(alloc, *limits, input)?;
    let mut answers = format!(in alloc; "{first}")?;
    let Ok(bytes) = &first.bytes else {
        return Ok(answers);
    };
    if task == Task::Component {
        return Ok(answers);
    }
    for rest in RESTS {
        if !is_generated(alloc, *limits, input, rest, bytes)? {
            answers.push_str("= something else where more follows\n")?;
        }
    }
    if task == Task::Plan {
        answers.push_str(&scripted(alloc, limits, bytes, Some(input))?)?;
    }
    Ok(answers)
}

// What is read of the bytes, or what becomes of them as an input.
fn of_a_front(
    alloc: Global,
    limits: &Config,
    task: Task,
    front: &[u8],
) -> Result<String, AllocError> {
    match task {
        Task::Cuts => outcome(alloc, *limits, front),
        _ => what_is_read(alloc, front),
    }
}

// The answers for each front, with one line for successive lengths that have the same.
fn fronts(alloc: Global, limits: &Config, task: Task, bytes: &[u8]) -> Result<String, AllocError> {
    let mut answers = String::new(alloc);
    let mut first = 0usize;
    let mut before = of_a_front(alloc, limits, task, b"")?;
    for length in 1..=bytes.len() {
        let found = of_a_front(alloc, limits, task, bytes.get(..length).unwrap_or(bytes))?;
        if found != before {
            let last = length - 1;
            answers.push_str(&format!(in alloc; "= {first} to {last} bytes: {before}\n")?)?;
            first = length;
            before = found;
        }
    }
    let last = bytes.len();
    answers.push_str(&format!(in alloc; "= {first} to {last} bytes: {before}\n")?)?;
    Ok(answers)
}

/// The lines that answer a row, each of which begins with `=`.
pub fn answer(
    alloc: Global,
    limits: &Config,
    task: Task,
    bytes: &[u8],
) -> Result<String, AllocError> {
    match task {
        Task::Component | Task::Prefix | Task::Plan => generation(alloc, limits, task, bytes),
        Task::Script => scripted(alloc, limits, bytes, None),
        Task::Read => format!(in alloc; "= {}\n", what_is_read(alloc, bytes)?.as_str()),
        Task::Fronts | Task::Cuts => fronts(alloc, limits, task, bytes),
        Task::Repeated => repeated(alloc, *limits, bytes),
        Task::Held => held(alloc, *limits, bytes),
        Task::Check => format!(in alloc; "= {}\n", check(alloc, bytes)?),
        Task::Validate => format!(in alloc; "= {}\n", validate(alloc, bytes)?),
        Task::Answer => format!(in alloc; "= {}\n", validator_answer(alloc, bytes)?),
        Task::Smaller => smaller(alloc, bytes),
        Task::Simpler => simpler(alloc, bytes),
        Task::Doubled => doubled(alloc, bytes),
        Task::Texts => texts(alloc),
        Task::Defaults => defaults(alloc),
        Task::Unwritten => unwritten(alloc),
    }
}
