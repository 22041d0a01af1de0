//! The lines of a component as JSON.

use super::walk::{Place, Walk};
use super::{Shown, show_steps};
use serde::Serialize;
use smith_read::Steps;
use std::alloc::{AllocError, Global};
use std::fmt::Formatter;

// A line, as an object of JSON.
#[derive(Drop, Serialize)]
struct Line<'a> {
    // How many bytes precede what the line is of, and how many do with it.
    offset: usize,
    end: usize,
    depth: usize,
    text: &'a str,
}

// The text of each line, with the line's end, and its place.
fn placed_lines(shown: &Shown<'_>) -> Result<(String, Vec<Place>), AllocError> {
    let mut walk = Walk::new(shown.alloc, shown.bytes);
    walk.places = Some(Vec::new(shown.alloc));
    let mut lines = Formatter::new(String::new(shown.alloc));
    let steps = Steps::new(shown.alloc, shown.component);
    match (show_steps(&mut lines, &mut walk, steps), walk.places) {
        (Ok(()), Some(places)) => Ok((lines.into_inner(), places)),
        _ => Err(AllocError),
    }
}

// The offset of the first of the places that is no deeper. Those that are deeper are removed: they come last.
fn next_outside(places: &mut Vec<Place>, depth: usize) -> Option<usize> {
    for _ in 0..places.len() {
        match places.last() {
            Some(place) if place.depth > depth => places.pop(),
            Some(place) => return Some(place.offset),
            None => return None,
        };
    }
    None
}

// Where the bytes end that each line is of, the last one first: before the next line that is no deeper.
fn ends_of(alloc: Global, places: &[Place], len: usize) -> Result<Vec<usize>, AllocError> {
    let mut ends = Vec::new(alloc);
    let mut following = Vec::new(alloc);
    for place in places.iter().rev() {
        ends.push(next_outside(&mut following, place.depth).unwrap_or(len))?;
        following.push(*place)?;
    }
    Ok(ends)
}

fn lines_of<'a>(
    alloc: Global,
    text: &'a str,
    places: &[Place],
    len: usize,
) -> Result<Vec<Line<'a>>, AllocError> {
    let ends = ends_of(alloc, places, len)?;
    let mut lines = Vec::new(alloc);
    for ((text, place), end) in text.lines().zip(places.iter()).zip(ends.iter().rev()) {
        let Place { offset, depth } = *place;
        lines.push(Line {
            offset,
            end: *end,
            depth,
            text,
        })?;
    }
    Ok(lines)
}

/// The lines of a component as an array of JSON.
pub fn json_of(shown: &Shown<'_>) -> Result<String, serde_json::Error> {
    let (text, places) = placed_lines(shown)?;
    let lines = lines_of(shown.alloc, &text, &places, shown.bytes.len())?;
    serde_json::to_string(shown.alloc, &lines)
}
