//! Folders, and the files in them.

use crate::places::print_fault;
use crate::print_error;
use std::fmt;
use std::fs::{self, File, Files};
use std::io::{self, BufReader, Read, Write};
use std::process::ExitCode;

/// How the names of components end.
pub const COMPONENT_ENDING: &str = ".wasm";

// How the names of files end that say something of those beside them: limits, and what near misses are.
const ASIDE_ENDINGS: [&str; 2] = [".toml", ".json"];

/// Which files of a folder are taken. None is taken whose name ends with `.toml` or `.json`.
#[derive(Clone, Copy, PartialEq, Eq)]
pub enum Wanted {
    /// Those named `*.wasm`, or all if none is named so.
    Components,
    /// All but those named `*.wasm`.
    Inputs,
}

/// Files.
#[derive(Drop)]
pub struct Listed {
    pub paths: Vec<String>,
    /// How many more have names that are not UTF-8, by which they cannot be opened. Each was named in a message.
    pub skipped: usize,
}

// The value, or the status after a message of a file or a folder.
fn settled<T: Drop>(rt: &HostRuntime, path: &str, done: io::Result<T>) -> Result<T, ExitCode> {
    match done {
        Ok(value) => Ok(value),
        Err(error) => Err(print_fault(rt, None, path, Some(&error))),
    }
}

fn joined<N: fmt::Display + Drop>(
    rt: &HostRuntime,
    folder: &str,
    name: N,
    ending: &str,
) -> io::Result<String> {
    let folder = folder.trim_end_matches('/');
    match format!(in rt.alloc(); "{folder}/{name}{ending}") {
        Ok(path) => Ok(path),
        Err(_) => Err(io::Error::from(io::ErrorKind::OutOfMemory)),
    }
}

// The names of all that is in a folder, each ended by a zero. `fs::read_dir` does not tell those that are not UTF-8.
fn read_names(rt: &HostRuntime, folder: &str) -> io::Result<Vec<u8>> {
    let path = joined(rt, folder, "", "")?;
    let mut opened = BufReader::new(rt.alloc(), rt.open_dir(&path)?)?;
    let mut names = Vec::new(rt.alloc());
    opened.read_to_end(&mut names)?;
    Ok(names)
}

fn is_component(name: &[u8]) -> bool {
    name.ends_with(COMPONENT_ENDING.as_bytes())
}

fn is_aside(name: &[u8]) -> bool {
    ASIDE_ENDINGS
        .iter()
        .any(|ending| name.ends_with(ending.as_bytes()))
}

// The names that are wanted, in order, whether they are of files or of folders.
fn wanted_of<'a>(rt: &HostRuntime, names: &'a [u8], wanted: Wanted) -> io::Result<Vec<&'a [u8]>> {
    let has_components = names.split(|byte| *byte == 0).any(is_component);
    let are_components = wanted == Wanted::Components && has_components;
    let mut found = Vec::new(rt.alloc());
    for name in names.split(|byte| *byte == 0) {
        let is_entry = !matches!(name, b"" | b"." | b"..");
        if is_entry && is_component(name) == are_components && !is_aside(name) {
            found.push(name)?;
        }
    }
    found.sort()?;
    Ok(found)
}

// Whether there is a file at a path, and no folder. If that cannot be told, reading it says why.
fn is_file(rt: &HostRuntime, path: &str) -> bool {
    match fs::metadata(rt, path) {
        Ok(found) => found.is_file(),
        Err(_) => true,
    }
}

// Adds the file of that name in a folder, if there is one, or says why it is skipped.
fn add_named(rt: &HostRuntime, listed: &mut Listed, folder: &str, name: &[u8]) -> io::Result<()> {
    let Ok(name) = std::str::from_utf8(name) else {
        let path = joined(rt, folder, name.escape_ascii(), "")?;
        let _ = eprintln!(rt; "lupinanon: {path}: skipped: the name is not UTF-8");
        listed.skipped = listed.skipped.saturating_add(1);
        return Ok(());
    };
    let path = joined(rt, folder, name, "")?;
    if is_file(rt, &path) {
        listed.paths.push(path)?;
    }
    Ok(())
}

// Adds the file at a path, or the files in the folder at it that are wanted.
fn add_path(rt: &HostRuntime, listed: &mut Listed, path: &str, wanted: Wanted) -> io::Result<()> {
    if !is_folder(rt, path) {
        listed.paths.push(String::from_str(rt.alloc(), path)?)?;
        return Ok(());
    }
    let names = read_names(rt, path)?;
    for name in &wanted_of(rt, &names, wanted)? {
        add_named(rt, listed, path, name)?;
    }
    Ok(())
}

/// Whether there is a folder at a path.
pub fn is_folder(rt: &HostRuntime, path: &str) -> bool {
    fs::metadata(rt, path).is_ok_and(|found| found.is_dir())
}

/// The files at the paths, and the files in the folders at them that are wanted, in the order of their names, or the
/// status after a message. Folders in a folder are left out.
pub fn files_at(rt: &HostRuntime, paths: &[&str], wanted: Wanted) -> Result<Listed, ExitCode> {
    let mut listed = Listed {
        paths: Vec::new(rt.alloc()),
        skipped: 0,
    };
    for path in paths {
        settled(rt, path, add_path(rt, &mut listed, path, wanted))?;
    }
    Ok(listed)
}

/// The name of the file at a path.
pub fn name_at(path: &str) -> &str {
    match path.rsplit_once('/') {
        Some((_, name)) => name,
        None => path,
    }
}

/// Makes a folder if there is none, or returns the status after a message.
pub fn make_folder(rt: &HostRuntime, folder: &str) -> Result<(), ExitCode> {
    settled(rt, folder, fs::create_dir_all(rt, folder))
}

fn create_with(rt: &HostRuntime, path: &str, bytes: &[u8]) -> io::Result<()> {
    let mut file = File::create_new(rt, path)?;
    file.write_all(bytes)
}

/// The path of the file with that name and ending in a folder, or the status after a message.
pub fn path_in<N: fmt::Display + Drop>(
    rt: &HostRuntime,
    folder: &str,
    name: N,
    ending: &str,
) -> Result<String, ExitCode> {
    match joined(rt, folder, name, ending) {
        Ok(path) => Ok(path),
        Err(_) => Err(print_error(rt, "out of memory")),
    }
}

/// Writes a file if there is none, or returns the status after a message.
pub fn write_new(rt: &HostRuntime, path: &str, bytes: &[u8]) -> Result<(), ExitCode> {
    settled(rt, path, create_with(rt, path, bytes))
}
