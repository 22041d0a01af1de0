//! Core modules, section by section.

ghost use Rattle.std.specs.Prelude.{◌≡◌, ◌↔◌, ◌≤◌, ◌<◌, ◌++◌, length, true, IfErr, IfOk, MatchOption, OnOk};
ghost use Rattle.smith_core.specs.Preamble.{core_preamble};
ghost use Rattle.smith_format.specs.Piece.{◌⊕◌, bytes};
ghost use Rattle.smith_tree.specs.CoreModules.{CountsFew, HasFewMemories, section};
ghost use Rattle.smith_tree.specs.Counts.{ValidCounts, with_module};
ghost use Rattle.smith_tree.specs.Demands.{Keeps};
ghost use Rattle.smith_validate.specs.CoreModules.{HasNoSection, HasPreamble};
ghost use Rattle.smith_validate.specs.Counted.{counted};
ghost use Rattle.smith_validate.specs.Judges.{IsUnnamed, Judges};

use crate::counts::Counts;
use crate::error::{Demand, Stop};
use smith_core::CORE_PREAMBLE;
use smith_read::{Unread, count_of, frame_of};
use std::alloc::AllocError;

// The id of a memory section (core specification, Binary Format, Modules, Sections).
const MEMORY_SECTION: u8 = 5;

// How many memories a core module may have.
const MOST_MEMORIES: u32 = 100;

// What is after the preamble.
fn sections_of(text: &[u8]) -> Option<&[u8]>
    ensures { MatchOption result (¬ HasPreamble text.now) (λ rest. text.now ≡ core_preamble ++ rest.now) }
{
    if !text.starts_with(&CORE_PREAMBLE) {
        return None;
    }
    Some(&text[CORE_PREAMBLE.len()..])
}

// The first section: its id, its contents and what follows it.
fn next_section(sections: &[u8]) -> Result<Option<(u8, &[u8], &[u8])>, AllocError>
    ensures first { IfOk result (λ found. MatchOption found (HasNoSection sections.now)
        (λ s. section (s.0, s.1.now) ⊕ bytes s.2.now ≡ Some sections.now)) }
    ensures less { IfOk result (λ found. MatchOption found (0 ≤ length sections.now)
        (λ s. length s.2.now < length sections.now)) }
{
    let Some((id, rest)) = sections.split_first() else {
        return Ok(None);
    };
    match frame_of(rest) {
        Ok((contents, after)) => Ok(Some((*id, contents, after))),
        Err(Unread::OutOfMemory) => Err(AllocError),
        Err(Unread::Malformed { .. }) => Ok(None),
    }
}

// Whether a section with that id, if it is a memory section, counts few memories.
fn section_is_few(id: u8, contents: &[u8]) -> Result<bool, AllocError>
    ensures { IfOk result (λ few. (few ≡ true) ↔ (id ≡ 5 → CountsFew contents.now)) }
{
    if id != MEMORY_SECTION {
        return Ok(true);
    }
    match count_of(contents) {
        Ok((count, _)) => Ok(count <= MOST_MEMORIES),
        Err(Unread::OutOfMemory) => Err(AllocError),
        Err(Unread::Malformed { .. }) => Ok(true),
    }
}

/// Whether the core module of these bytes has at most 100 memories.
pub(crate) fn has_few_memories(text: &[u8]) -> Result<bool, AllocError>
    ensures { IfOk result (λ few. (few ≡ true) ↔ HasFewMemories text.now) }
{
    let Some(sections) = sections_of(text) else {
        return Ok(true);
    };
    let mut rest = sections;
    while let Some((id, contents, after)) = next_section(rest)? {
        if !section_is_few(id, contents)? {
            return Ok(false);
        }
        rest = after;
    }
    Ok(true)
}

/// Adds the core module of these bytes to how many entries there are.
pub(crate) fn add_module(counts: &mut Counts, text: &[u8]) -> Result<(), Stop>
    ensures bound { IfErr result IsUnnamed }
    ensures judged { ValidCounts (counted counts.old) → Judges result (λ d.
        Keeps d.counts (ValidCounts (with_module (counted counts.old))) × Keeps d.memories (HasFewMemories text.now)) }
    ensures added { OnOk result (counted counts.new ≡ with_module (counted counts.old)) }
{
    counts.add_module()?;
    if has_few_memories(text)? {
        Ok(())
    } else {
        Err(Stop::Invalid(Demand::Memories))
    }
}
