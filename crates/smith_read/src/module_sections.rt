//! The two sections of core modules that are generated, from their bytes.

ghost use Rattle.std.specs.Prelude.{map};
ghost use Rattle.smith_format.specs.CoreTypes.{Function};
ghost use Rattle.smith_format.specs.Shown.{shown_func};
ghost use Rattle.smith_format.specs.declared.types.MemoryType.{MemoryType};
ghost use Rattle.smith_read.specs.Reading.{Gives};
ghost use Rattle.smith_read.specs.ModuleSections.{core_preamble_at, filled_at, function_at, listed_at, memory_at};
ghost use Rattle.smith_read.specs.ModuleSections.{sections_at, shown_sections, stand_in_at};

use crate::core_types::{core_function_of, limits_of};
use crate::lists::{Readable, frame_of, many_of, skip};
use crate::numbers::byte_of;
use crate::unread::{Reason, Unread, malformed};
use smith_core::CORE_PREAMBLE;
use smith_format::{FuncType, MemoryType};
use std::alloc::Global;

/// The function types and the memories of a core module that has no other sections (core specification, Modules).
#[derive(Debug, Drop)]
pub struct ModuleSections {
    pub types: Vec<FuncType>,
    pub memories: Vec<MemoryType>,
}

impl Readable for FuncType {
    ghost Shown = { Function };

    ghost shown = { shown_func };

    ghost reading = { function_at };

    #[tactic(auto, unfolding(crate::specs::ModuleSections::function_at))]
    fn read(alloc: Global, bytes: &[u8]) -> Result<(FuncType, &[u8]), Unread> {
        let rest = skip(bytes, 0x60)?;
        core_function_of(alloc, rest)
    }
}

impl Readable for MemoryType {
    ghost Shown = { MemoryType };

    ghost shown = { λ m. m };

    ghost reading = { memory_at };

    #[tactic(auto, unfolding(crate::specs::ModuleSections::memory_at))]
    fn read(_alloc: Global, bytes: &[u8]) -> Result<(MemoryType, &[u8]), Unread> {
        let ((shared, memory64, minimum, maximum), rest) = limits_of(bytes)?;
        let ty = MemoryType {
            minimum,
            maximum,
            shared,
            memory64,
        };
        Ok((ty, rest))
    }
}

// A list that fills these bytes and has an entry.
#[tactic(auto, unfolding(crate::specs::ModuleSections::filled_at))]
fn filled_of<T: Readable>(alloc: Global, bytes: &[u8]) -> Result<Vec<T>, Unread>
    ensures { Gives (λ x. map T.shown x.items) result (filled_at T.reading bytes.now) }
{
    let (items, rest) = many_of(alloc, bytes)?;
    if !rest.is_empty() {
        return Err(malformed(rest, Reason::LeftOver));
    }
    if items.is_empty() {
        return Err(malformed(rest, Reason::Section));
    }
    Ok(items)
}

// The list of the section of that id, or none if the section is not there.
#[tactic(auto, unfolding(crate::specs::ModuleSections::listed_at))]
fn listed_of<T: Readable>(alloc: Global, id: u8, bytes: &[u8]) -> Result<(Vec<T>, &[u8]), Unread>
    ensures { Gives (λ x. (map T.shown x.0.items, x.1.now)) result (listed_at id T.reading bytes.now) }
{
    if bytes.is_empty() {
        return Ok((Vec::new(alloc), bytes));
    }
    let (first, rest) = byte_of(bytes)?;
    if first != id {
        return Ok((Vec::new(alloc), bytes));
    }
    let (contents, rest) = frame_of(rest)?;
    let items = filled_of(alloc, contents)?;
    Ok((items, rest))
}

// The sections after the preamble.
#[tactic(auto, unfolding(crate::specs::ModuleSections::sections_at))]
fn sections_of(alloc: Global, bytes: &[u8]) -> Result<ModuleSections, Unread>
    ensures { Gives shown_sections result (sections_at bytes.now) }
{
    let (types, rest) = listed_of(alloc, 1, bytes)?;
    let (memories, rest) = listed_of(alloc, 5, rest)?;
    if !rest.is_empty() {
        return Err(malformed(rest, Reason::LeftOver));
    }
    Ok(ModuleSections { types, memories })
}

/// The sections of the core module that these bytes spell, if it has no others than the two that are generated:
/// function types and memories. It is refused as malformed if it has others, or one without entries.
#[tactic(auto, unfolding(crate::specs::ModuleSections::stand_in_at, crate::specs::ModuleSections::core_preamble_at))]
pub fn module_sections_of(alloc: Global, text: &[u8]) -> Result<ModuleSections, Unread>
    ensures { Gives shown_sections result (stand_in_at text.now) }
{
    if !text.starts_with(&CORE_PREAMBLE) {
        return Err(malformed(text, Reason::Preamble));
    }
    sections_of(alloc, &text[CORE_PREAMBLE.len()..])
}
