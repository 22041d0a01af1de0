//! Limits of profiles, from a file over them, and settings of the command line over both; and why they are refused, in
//! words: of which line of the file, or of which setting.

use crate::inspecting::{bytes_in, refuse, refuse_long};
use crate::options::{Limits, named};
use crate::places::STANDARD_INPUT;
use crate::{FAULT, print_error};
use smith_component::Config;
use smith_limits::{Fault, KEYS, Key, limits_of, profile_text};
use std::alloc::{AllocError, Global};
use std::fmt;
use std::process::ExitCode;
use strsim::jaro;
use toml::Table;
use toml::de::Error;

/// Limits as a table of TOML, and the text of their file.
#[derive(Drop)]
pub struct LimitsTable {
    /// The text of the file, which is empty if there is none.
    pub in_file: String,
    /// The table of the file, over those of the profiles, with the settings over it.
    pub table: Table,
}

// The text of the file of limits, or the status after a message.
fn text_in_file(rt: &HostRuntime, path: Option<&str>) -> Result<String, ExitCode> {
    let Some(path) = path else {
        return Ok(String::new(rt.alloc()));
    };
    let bytes = bytes_in(rt, named(path))?;
    refuse_long(rt, named(path), "the limits have", &bytes)?;
    match String::from_utf8(bytes) {
        Ok(text) => Ok(text),
        Err(_) => Err(refuse(rt, named(path), &"not UTF-8", FAULT)),
    }
}

// Prints why an argument is not TOML, and returns the status.
fn refuse_argument(rt: &HostRuntime, option: &str, value: &str, error: &Error) -> ExitCode {
    let why = error.message();
    print_error(rt, format_args!("{option} {value}: {why}"))
}

// Prints why the text of a file is not TOML, and from which of its lines on, and returns the status.
fn refuse_text(rt: &HostRuntime, name: &str, text: &str, error: &Error) -> ExitCode {
    let start = error.span().map_or(0, |span| span.start);
    let line = text
        .bytes()
        .take(start)
        .filter(|byte| *byte == b'\n')
        .count();
    let line = line.saturating_add(1);
    let why = error.message();
    print_error(rt, format_args!("{name}: line {line}: {why}"))
}

// The table of a profile, or the status after a message.
fn table_of_profile(rt: &HostRuntime, name: &str) -> Result<Table, ExitCode> {
    let Some(text) = profile_text(name) else {
        return Err(print_error(rt, format_args!("--profile {name}: there is none")));
    };
    match toml::table_from_str(rt.alloc(), text) {
        Ok(table) => Ok(table),
        Err(error) => Err(refuse_argument(rt, "--profile", name, &error)),
    }
}

// Puts what one table sets over what the other does.
fn put_over(rt: &HostRuntime, table: &mut Table, over: Table) -> Result<(), ExitCode> {
    let mut over = over;
    match table.append(&mut over) {
        Ok(()) => Ok(()),
        Err(_) => Err(print_error(rt, "out of memory")),
    }
}

// The tables of the profiles, each over the ones before it.
fn table_of_profiles(rt: &HostRuntime, profiles: &[&str]) -> Result<Table, ExitCode> {
    let mut table = Table::new(rt.alloc());
    for name in profiles {
        put_over(rt, &mut table, table_of_profile(rt, name)?)?;
    }
    Ok(table)
}

// The table of a setting, which has one key, or the status after a message.
fn table_of_setting(rt: &HostRuntime, setting: &str) -> Result<Table, ExitCode> {
    match toml::table_from_str(rt.alloc(), setting) {
        Ok(table) if table.len() == 1 => Ok(table),
        Err(error) if setting.contains('=') => {
            Err(refuse_argument(rt, "--limit", setting, &error))
        }
        _ => Err(print_error(rt, format_args!("--limit {setting}: must be KEY=VALUE"))),
    }
}

// The table of a text with the settings' tables over it.
fn table_with_settings(
    rt: &HostRuntime,
    table: Table,
    settings: &[&str],
) -> Result<Table, ExitCode> {
    let mut table = table;
    for setting in settings {
        put_over(rt, &mut table, table_of_setting(rt, setting)?)?;
    }
    Ok(table)
}

// The line of a text, from 1, at which its first expression with a key begins: a line that begins with the key,
// or with a `[` and the key.
fn line_of(text: &str, key: &str) -> Option<usize> {
    let mut number = 0usize;
    for line in text.lines() {
        number = number.saturating_add(1);
        let line = line
            .trim_start()
            .trim_start_matches(|c: char| matches!(c, '[' | '"' | '\''));
        if let Some(rest) = line.strip_prefix(key) {
            if rest.starts_with(|c: char| matches!(c, ' ' | '\t' | '=' | '.' | ']' | '"' | '\'')) {
                return Some(number);
            }
        }
    }
    None
}

// The line of the first of the fault's limits that the text has.
fn line_of_fault(text: &str, fault: &Fault) -> Option<usize> {
    match fault {
        Fault::Unknown(name) => line_of(text, name.as_str()),
        Fault::At(key, _) => line_of(text, key.name()),
        Fault::Apart(pair) => {
            let (lower, upper) = pair.keys();
            line_of(text, lower.name()).or(line_of(text, upper.name()))
        }
        Fault::OutOfMemory => None,
    }
}

// What the limits are called in a message: their file, if there is one.
fn name_of<'a>(limits: &Limits<'a>) -> &'a str {
    match limits.file {
        Some(path) => named(path).unwrap_or(STANDARD_INPUT),
        None => "the limits",
    }
}

// How much alike a word and a name are at least if the one may be meant by the other, as of a command in `clap`.
const LEAST_ALIKE: f64 = 0.7;

// What is meant by the name of no limit, if one is like it.
#[derive(Clone, Copy)]
struct Tip(Option<Key>);

impl fmt::Display for Tip {
    fn fmt<W: fmt::Write>(&self, f: &mut fmt::Formatter<W>) -> fmt::Result {
        match self.0 {
            Some(key) => write!(f, "; did you mean `{}`?", key.name()),
            None => Ok(()),
        }
    }
}

// The limit whose name is most like another one.
fn nearest(alloc: Global, name: &str) -> Result<Option<Key>, AllocError> {
    let mut found = None;
    let mut most = LEAST_ALIKE;
    for key in KEYS {
        let alike = jaro(alloc, name, key.name())?;
        if alike > most {
            found = Some(key);
            most = alike;
        }
    }
    Ok(found)
}

fn tip_of(alloc: Global, fault: &Fault) -> Tip {
    match fault {
        Fault::Unknown(name) => Tip(nearest(alloc, name).unwrap_or(None)),
        _ => Tip(None),
    }
}

/// Prints what is wrong with a limit, and the last setting, or the line of the file's text, that has it, if one is
/// known. Returns the status.
pub fn refuse_limits(rt: &HostRuntime, limits: &Limits<'_>, text: &str, fault: &Fault) -> ExitCode {
    let tip = tip_of(rt.alloc(), fault);
    for setting in limits.settings.iter().rev() {
        if line_of_fault(setting, fault).is_some() {
            return print_error(rt, format_args!("--limit {setting}: {fault}{tip}"));
        }
    }
    let name = name_of(limits);
    match line_of_fault(text, fault) {
        Some(line) => print_error(rt, format_args!("{name}: line {line}: {fault}{tip}")),
        None => print_error(rt, format_args!("{name}: {fault}{tip}")),
    }
}

/// The table of the limits, or the status after a message.
pub fn table_of(rt: &HostRuntime, limits: &Limits<'_>) -> Result<LimitsTable, ExitCode> {
    let in_file = text_in_file(rt, limits.file)?;
    match toml::table_from_str(rt.alloc(), &in_file) {
        Ok(own) => {
            let mut table = table_of_profiles(rt, &limits.profiles)?;
            put_over(rt, &mut table, own)?;
            let table = table_with_settings(rt, table, &limits.settings)?;
            Ok(LimitsTable { in_file, table })
        }
        Err(error) if error.is_memory() => Err(print_error(rt, "out of memory")),
        Err(error) => Err(refuse_text(rt, name_of(limits), &in_file, &error)),
    }
}

/// The limits, or the status after a message.
pub fn config_of(rt: &HostRuntime, limits: &Limits<'_>) -> Result<Config, ExitCode> {
    let set = table_of(rt, limits)?;
    match limits_of(rt.alloc(), &set.table) {
        Ok(config) => Ok(config),
        Err(fault) => Err(refuse_limits(rt, limits, &set.in_file, &fault)),
    }
}

/// Returns the status after a message if both the limits and what is called `other`, which has no path then, are from
/// standard input.
pub fn refuse_both(
    rt: &HostRuntime,
    limits: &Limits<'_>,
    other: &str,
    path: Option<&str>,
) -> Result<(), ExitCode> {
    if path.is_none() && limits.file == Some("-") {
        let why = format_args!("bad arguments: the limits and {other} are both standard input");
        return Err(print_error(rt, why));
    }
    Ok(())
}
