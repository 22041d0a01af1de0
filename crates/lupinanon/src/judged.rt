//! What files are found to be, as words, as a line and as JSON.

use crate::FAULT;
use crate::inspecting::{REFUSED, UNREAD};
use crate::unread::{CORE_MODULE, Unread};
use serde::Serialize;
use smith_verdict::{Answer, Outside, Verdict, answer, check};
use std::alloc::{AllocError, Global};
use std::fmt;

// What `check` ends with if it is asked about validators, and one may accept or refuse the bytes, which may be read.
const UNDECIDED: u8 = 4;

// The statuses of a file, from the worst to the best.
const FROM_WORST: [u8; 5] = [FAULT, REFUSED, UNREAD, UNDECIDED, 0];

/// What bytes are, in a word.
#[derive(Clone, Copy, PartialEq, Eq, PartialOrd, Ord)]
pub enum Word {
    WellFormed,
    IllFormed,
    Unread,
    Valid,
    Invalid,
    Bound,
    Outside,
}

/// What bytes are judged to be.
#[derive(Drop)]
pub enum Judged {
    Verdict(Verdict),
    Answer(Answer),
}

/// What the bytes of a file are found to be.
///
/// As text: as `check` prints it.
#[derive(Drop)]
pub struct Found<'a> {
    bytes: &'a [u8],
    judged: Judged,
}

// The same as an object of JSON.
#[derive(Drop, Serialize)]
struct Line<'a> {
    file: &'a str,
    answer: &'static str,
    rule: Option<String>,
    offset: Option<usize>,
}

impl Word {
    /// The word.
    pub fn name(self) -> &'static str {
        match self {
            Word::WellFormed => "well formed",
            Word::IllFormed => "ill formed",
            Word::Unread => "unread",
            Word::Valid => "valid",
            Word::Invalid => "invalid",
            Word::Bound => "bound",
            Word::Outside => "outside",
        }
    }
}

impl Judged {
    /// The same in a word.
    pub fn word(&self) -> Word {
        match self {
            Judged::Verdict(Verdict::WellFormed) => Word::WellFormed,
            Judged::Verdict(Verdict::IllFormed { .. }) => Word::IllFormed,
            Judged::Verdict(Verdict::Unread { .. }) => Word::Unread,
            Judged::Answer(Answer::Valid) => Word::Valid,
            Judged::Answer(Answer::Invalid { .. }) => Word::Invalid,
            Judged::Answer(Answer::Bound { .. }) => Word::Bound,
            Judged::Answer(Answer::Outside { .. }) => Word::Outside,
        }
    }

    /// Where something is wrong, if that is known.
    pub fn offset(&self) -> Option<usize> {
        match self {
            Judged::Verdict(Verdict::WellFormed) | Judged::Answer(Answer::Valid) => None,
            Judged::Verdict(Verdict::IllFormed { offset, .. }) => *offset,
            Judged::Verdict(Verdict::Unread { offset, .. }) => Some(*offset),
            Judged::Answer(Answer::Invalid { offset, .. }) => *offset,
            Judged::Answer(Answer::Bound { offset, .. }) => *offset,
            Judged::Answer(Answer::Outside { offset, .. }) => *offset,
        }
    }

    /// What is wrong, whatever the bytes.
    pub fn rule(&self, alloc: Global) -> Result<Option<String>, AllocError> {
        let rule = match self {
            Judged::Verdict(Verdict::WellFormed) | Judged::Answer(Answer::Valid) => {
                return Ok(None);
            }
            Judged::Verdict(Verdict::IllFormed { rule, .. }) => format!(in alloc; "{rule}")?,
            Judged::Verdict(Verdict::Unread { reason, .. }) => format!(in alloc; "{reason}")?,
            Judged::Answer(Answer::Invalid { rule, .. }) => format!(in alloc; "{rule}")?,
            Judged::Answer(Answer::Bound { demand, .. }) => format!(in alloc; "{demand}")?,
            Judged::Answer(Answer::Outside { why, .. }) => format!(in alloc; "{why}")?,
        };
        Ok(Some(rule))
    }
}

impl<'a> Found<'a> {
    /// What the bytes are: to validators, if that is asked.
    pub fn of(alloc: Global, bytes: &'a [u8], validates: bool) -> Result<Found<'a>, AllocError> {
        let judged = if validates {
            Judged::Answer(answer(alloc, bytes)?)
        } else {
            Judged::Verdict(check(alloc, bytes)?)
        };
        Ok(Found { bytes, judged })
    }

    /// What the bytes are, in a word.
    pub fn word(&self) -> Word {
        self.judged.word()
    }

    /// The status that `check` ends with.
    pub fn status(&self) -> u8 {
        match (self.word(), self.unread()) {
            (Word::WellFormed | Word::Valid, _) => 0,
            (Word::IllFormed | Word::Invalid, _) => REFUSED,
            (Word::Unread, _) | (_, Some(_)) => UNREAD,
            (Word::Bound | Word::Outside, None) => UNDECIDED,
        }
    }

    // Why the bytes are not read as a component, if they are not.
    fn unread(&self) -> Option<Unread<'a>> {
        match self.judged {
            Judged::Verdict(Verdict::Unread { reason, offset }) => {
                Some(Unread::new(self.bytes, reason, offset))
            }
            Judged::Answer(
                Answer::Outside {
                    why: Outside::Unread(reason),
                    offset: Some(offset),
                },
            ) => Some(Unread::new(self.bytes, reason, offset)),
            _ => None,
        }
    }

    // What is wrong.
    fn rule(&self, alloc: Global) -> Result<Option<String>, AllocError> {
        match self.unread() {
            Some(unread) if unread.is_core_module() => {
                Ok(Some(String::from_str(alloc, CORE_MODULE)?))
            }
            _ => self.judged.rule(alloc),
        }
    }

    /// What the file of that name is, as an object of JSON.
    pub fn to_json(&self, alloc: Global, file: &str) -> Result<String, serde_json::Error> {
        let line = Line {
            file,
            answer: self.word().name(),
            rule: self.rule(alloc)?,
            offset: self.judged.offset(),
        };
        serde_json::to_string(alloc, &line)
    }
}

impl fmt::Display for Found<'_> {
    fn fmt<W: fmt::Write>(&self, f: &mut fmt::Formatter<W>) -> fmt::Result {
        match (&self.judged, self.unread()) {
            (Judged::Verdict(_), Some(unread)) => write!(f, "{unread}"),
            (Judged::Answer(_), Some(unread)) => write!(f, "outside: {unread}"),
            (Judged::Verdict(verdict), None) => write!(f, "{verdict}"),
            (Judged::Answer(answer), None) => write!(f, "{answer}"),
        }
    }
}

/// The worse of two statuses of files.
pub fn worse_of(one: u8, other: u8) -> u8 {
    FROM_WORST
        .iter()
        .copied()
        .find(|status| *status == one || *status == other)
        .unwrap_or(one)
}
