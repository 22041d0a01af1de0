//! Saying of files what they are: components, or what they are to validators.

use crate::FAULT;
use crate::folders::{Listed, Wanted, files_at, is_folder};
use crate::inspecting::{component_in, refuse};
use crate::judged::{Found, Word, worse_of};
use crate::options::{Checked, named};
use crate::places::{STANDARD_INPUT, status_of_print};
use crate::progress::Progress;
use std::alloc::{AllocError, Global};
use std::collections::BTreeMap;
use std::process::ExitCode;

const VERDICTS: [Word; 3] = [Word::WellFormed, Word::IllFormed, Word::Unread];

const ANSWERS: [Word; 4] = [Word::Valid, Word::Invalid, Word::Bound, Word::Outside];

// How many files are found to be what.
#[derive(Drop)]
struct Counts {
    words: BTreeMap<Word, usize>,
    skipped: usize,
    // The worst status of a file.
    status: u8,
}

impl Counts {
    fn new(alloc: Global, skipped: usize) -> Counts {
        let status = if skipped == 0 { 0 } else { FAULT };
        Counts {
            words: BTreeMap::new(alloc),
            skipped,
            status,
        }
    }

    // Adds a file that is found to be that.
    fn add(&mut self, found: &Found<'_>) -> Result<(), AllocError> {
        let count = self.words.entry(found.word())?.or_insert(0);
        *count = count.saturating_add(1);
        self.status = worse_of(self.status, found.status());
        Ok(())
    }

    // Adds a file that is not read.
    fn skip(&mut self) {
        self.skipped = self.skipped.saturating_add(1);
        self.status = worse_of(self.status, FAULT);
    }

    // Prints how many files there are of each word.
    fn print(&self, rt: &HostRuntime, words: &[Word]) -> Result<ExitCode, ExitCode> {
        for word in words {
            let count = self.words.get(word).copied().unwrap_or(0);
            status_of_print(rt, print!(rt; "{} {count}, ", word.name()))?;
        }
        let skipped = self.skipped;
        status_of_print(rt, println!(rt; "skipped {skipped}"))
    }
}

// What the bytes of a file are found to be, or the status after a message.
fn found_in<'a>(
    rt: &HostRuntime,
    path: Option<&str>,
    bytes: &'a [u8],
    validates: bool,
) -> Result<Found<'a>, ExitCode> {
    match Found::of(rt.alloc(), bytes, validates) {
        Ok(found) => Ok(found),
        Err(_) => Err(refuse(rt, path, &"out of memory", FAULT)),
    }
}

// Prints a line that says what a file is found to be, or the same as an object of JSON.
fn print_found(
    rt: &HostRuntime,
    path: Option<&str>,
    found: &Found<'_>,
    is_json: bool,
) -> Result<ExitCode, ExitCode> {
    let file = path.unwrap_or(STANDARD_INPUT);
    if !is_json {
        return status_of_print(rt, println!(rt; "{file}: {found}"));
    }
    match found.to_json(rt.alloc(), file) {
        Ok(line) => status_of_print(rt, println!(rt; "{line}")),
        Err(_) => Err(refuse(rt, path, &"out of memory", FAULT)),
    }
}

// Says what one file is: on standard error if something is wrong with it, unless that is asked for as JSON.
fn check_one(
    rt: &HostRuntime,
    path: Option<&str>,
    checked: &Checked<'_>,
) -> Result<ExitCode, ExitCode> {
    let bytes = component_in(rt, path)?;
    let found = found_in(rt, path, &bytes, checked.validates)?;
    let status = found.status();
    if status != 0 && !checked.is_json {
        return Err(refuse(rt, path, &found, status));
    }
    print_found(rt, path, &found, checked.is_json)?;
    Ok(ExitCode::from(status))
}

// Says what one of several files is, and counts it. Returns the status after a message if nothing can be said.
fn check_next(
    rt: &HostRuntime,
    path: Option<&str>,
    bytes: &[u8],
    checked: &Checked<'_>,
    counts: &mut Counts,
) -> Result<(), ExitCode> {
    let found = found_in(rt, path, bytes, checked.validates)?;
    print_found(rt, path, &found, checked.is_json)?;
    match counts.add(&found) {
        Ok(()) => Ok(()),
        Err(_) => Err(refuse(rt, path, &"out of memory", FAULT)),
    }
}

// Says what each of several files is.
fn check_each(
    rt: &HostRuntime,
    paths: &[String],
    checked: &Checked<'_>,
    counts: &mut Counts,
) -> Result<(), ExitCode> {
    let mut progress = Progress::beside_lines(rt, paths.len());
    for path in paths {
        let path = named(path);
        match component_in(rt, path) {
            Ok(bytes) => check_next(rt, path, &bytes, checked, counts)?,
            Err(_status) => counts.skip(),
        }
        progress.step();
    }
    progress.end();
    Ok(())
}

// Says what each of several files is, and how many there are of each sort.
fn check_all(
    rt: &HostRuntime,
    listed: &Listed,
    checked: &Checked<'_>,
) -> Result<ExitCode, ExitCode> {
    let mut counts = Counts::new(rt.alloc(), listed.skipped);
    check_each(rt, &listed.paths, checked, &mut counts)?;
    if checked.is_json {
        return Ok(ExitCode::from(counts.status));
    }
    if checked.validates {
        counts.print(rt, &ANSWERS)?;
    } else {
        counts.print(rt, &VERDICTS)?;
    }
    Ok(ExitCode::from(counts.status))
}

/// Says what files are: whether they are well-formed components, and otherwise what is wrong with them, and where; or
/// if that is asked, what they are to validators of the standard.
pub fn check(rt: &HostRuntime, checked: &Checked<'_>) -> Result<ExitCode, ExitCode> {
    let paths = checked.paths.as_slice();
    match paths.first() {
        None => check_one(rt, None, checked),
        Some(path) if paths.len() == 1 && !is_folder(rt, path) => {
            check_one(rt, named(path), checked)
        }
        Some(_) => check_all(rt, &files_at(rt, paths, Wanted::Components)?, checked),
    }
}
