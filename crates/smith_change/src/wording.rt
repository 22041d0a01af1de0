//! What a change is, in words.

use crate::kinds::PlaceKind;
use std::fmt;

/// A change: a place, and which of its alternatives is there after it.
///
/// As text: the sort of the place and the alternative, such as `value, an index one more`.
#[derive(Clone, Copy, Debug, PartialEq, Eq)]
pub struct Alternative {
    pub place: PlaceKind,
    /// From 0, below 16.
    pub number: usize,
}

fn entry_label(number: usize) -> &'static str {
    match number {
        0 => "left out",
        1 => "doubled",
        2 => "exchanged with the next",
        _ => "doubled with another name",
    }
}

fn members_label(number: usize) -> &'static str {
    match number {
        0 => "none",
        1 => "as many as the bound",
        _ => "one more than the bound",
    }
}

fn number_label(number: usize) -> &'static str {
    match number {
        0 => "one less",
        1 => "one more",
        2 => "4294967295",
        _ => "0",
    }
}

fn value_label(number: usize) -> &'static str {
    match number {
        0 => "an index one less",
        1 => "an index one more",
        2 => "index 4294967295",
        3 => "index 0",
        4 => "string",
        _ => "u64",
    }
}

fn name_label(number: usize) -> &'static str {
    match number {
        0 => "empty",
        1 => "`-` at the end",
        2 => "`--a` at the end",
        3 => "`_` at the end",
        4 => "`1` in front",
        _ => "`-b1` at the end",
    }
}

fn sort_label(number: usize) -> &'static str {
    match number {
        0 => "core module",
        1 => "function",
        2 => "equal type",
        3 => "component",
        _ => "instance",
    }
}

// Only primitive types have a second alternative.
fn code_label(number: usize) -> &'static str {
    match number {
        0 => "another",
        _ => "u32",
    }
}

fn limits_label(number: usize) -> &'static str {
    match number {
        0 => "a minimum above the maximum",
        1 => "a maximum below the minimum",
        2 => "with or without a maximum",
        3 => "a minimum that is too large",
        4 => "a maximum that is too large",
        5 => "shared or not",
        _ => "of 32 or 64 bits",
    }
}

fn alternative_label(place: PlaceKind, number: usize) -> &'static str {
    match place {
        PlaceKind::Entry => entry_label(number),
        PlaceKind::Members => members_label(number),
        PlaceKind::Index | PlaceKind::Count => number_label(number),
        PlaceKind::Value => value_label(number),
        PlaceKind::Presence => "there or not",
        PlaceKind::Name => name_label(number),
        PlaceKind::Sort => sort_label(number),
        PlaceKind::Code => code_label(number),
        PlaceKind::Results => "one more",
        PlaceKind::Limits => limits_label(number),
        PlaceKind::CoreValue | PlaceKind::Element | PlaceKind::Mutable => "the other",
    }
}

impl fmt::Display for Alternative {
    fn fmt<W: fmt::Write>(&self, f: &mut fmt::Formatter<W>) -> fmt::Result {
        f.write_str(self.place.text())?;
        f.write_str(", ")?;
        f.write_str(alternative_label(self.place, self.number))
    }
}
