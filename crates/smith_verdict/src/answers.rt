//! What bytes are to every validator of the standard: valid, invalid, beyond a bound, or outside of what is judged.

use smith_check::Rule;
use smith_read::Reason;
use std::fmt;

/// What of the standard is broken. No validator may accept the bytes.
#[derive(Clone, Copy, Debug, PartialEq, Eq, thiserror::Error)]
pub enum Broken {
    /// A rule of well-formed components that the standard has too.
    #[error("{0}")]
    Rule(Rule),
    /// What is imported or exported is of records, variants, flags and enums that an import or an export names before
    /// (Explainer.md, import and export definitions, type checking).
    #[error("an import or an export is of a type that is not named")]
    Named,
    /// A memory of a core module has a maximum, if any, that is no less than its minimum; one with addresses of 32 bits
    /// has at most 65,536 pages; and a shared one has a maximum (core specification, memory types).
    #[error("a core module has a memory with limits that are out of range")]
    Module,
    /// A component begins with its preamble, and a core module in it with the four bytes `\0asm`.
    #[error("a preamble is missing")]
    Preamble,
    /// The id of a section is at most 12.
    #[error("no section has that id")]
    Section,
    /// The length of a section is a number of 32 bits, and no more than the bytes behind it.
    #[error("the length of a section is no number, or more than the bytes behind it")]
    Frame,
    /// The count of a list is a number of 32 bits, and no more than the bytes behind it.
    #[error("the count of a list is no number, or more than the bytes behind it")]
    Count,
}

/// Which bound of wasmparser's own is not kept. The standard has none of them, and lets an implementation have any.
#[derive(Clone, Copy, Debug, PartialEq, Eq, thiserror::Error)]
pub enum Bound {
    /// A type, and a component, has an effective size below 1,000,000.
    #[error("the effective size of a type is 1000000 or more")]
    Size,
    /// There are at most 1,000 modules, components and instances each, and 1,000,000 types, functions, imports and
    /// exports each.
    #[error("there are too many entries of one sort")]
    Count,
    /// A core module has at most 100 memories, and a module type imports at most 100.
    #[error("a core module has, or a module type imports, more than 100 memories")]
    Memories,
    /// A module type imports at most 100 tables.
    #[error("a module type imports more than 100 tables")]
    Tables,
    /// A name has at most 100,000 bytes, a core function type at most 1,000 parameters and as many results, and a
    /// module type at most 100,000 declarations.
    #[error("a name, a core function type or a module type is too long")]
    Contents,
    /// A core module has at most 1,000,000 types, each of at most 1,000 parameters and as many results.
    #[error("a core module has too many types, or one that is too long")]
    Module,
}

/// Why bytes are not judged: a validator may accept or refuse them.
#[derive(Clone, Copy, Debug, PartialEq, Eq, thiserror::Error)]
pub enum Outside {
    /// A rule of well-formed components is broken in a way that the standard may allow.
    #[error("{0}")]
    Rule(Rule),
    /// They are no component of the grammar, or one whose scopes are nested too deep, but have the frames of one.
    #[error("{0}")]
    Unread(Reason),
    /// They are a core module by themselves; or a core module in the component has other sections than function types
    /// and memories, concrete references, or memories that are shared or of 64 bits.
    #[error("a core module is not judged")]
    Module,
    /// A core value type is a reference to a type by its index, which the judgement does not look up.
    #[error("a concrete reference is not judged")]
    Reference,
}

/// What bytes are to validators of the standard.
///
/// As text: `valid`, or one of the words `invalid`, `bound` and `outside` with what was found and where, such as
/// `invalid: no type has that index at offset 12`.
#[derive(Debug, PartialEq, Eq, Drop)]
pub enum Answer {
    /// A component that a validator has to accept, if it has all features and no lower bounds than wasmparser.
    Valid,
    /// No validator may accept them: what is broken, and the offset of the item or the section with which it is. The
    /// offset is always there.
    Invalid {
        rule: Broken,
        offset: Option<usize>,
    },
    /// A well formed component beyond a bound: which one, and the offset of an item. The offset is always there. Names
    /// that follow that item may not have been judged.
    Bound {
        demand: Bound,
        offset: Option<usize>,
    },
    /// Nothing is known: why, and the offset at which that was seen. The offset is always there.
    Outside {
        why: Outside,
        offset: Option<usize>,
    },
}

// What was found, in a word, and where.
fn write_found<T: fmt::Display + Drop, W: fmt::Write>(
    f: &mut fmt::Formatter<W>,
    word: &str,
    found: T,
    offset: Option<usize>,
) -> fmt::Result {
    write!(f, "{word}: {found}")?;
    match offset {
        Some(offset) => write!(f, " at offset {offset}"),
        None => Ok(()),
    }
}

impl fmt::Display for Answer {
    fn fmt<W: fmt::Write>(&self, f: &mut fmt::Formatter<W>) -> fmt::Result {
        match self {
            Answer::Valid => f.write_str("valid"),
            Answer::Invalid { rule, offset } => write_found(f, "invalid", *rule, *offset),
            Answer::Bound { demand, offset } => write_found(f, "bound", *demand, *offset),
            Answer::Outside { why, offset } => write_found(f, "outside", *why, *offset),
        }
    }
}
