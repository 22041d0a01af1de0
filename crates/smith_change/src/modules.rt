//! Core modules of the two sections that are generated.

ghost use Rattle.std.specs.Prelude.{◌≡◌, None, Option, Some, IfOk, IsSome, map, option_map};
ghost use Rattle.smith_format.specs.CoreTypes.{Function};
ghost use Rattle.smith_format.specs.declared.types.MemoryType.{MemoryType};
ghost use Rattle.smith_format.specs.Shown.{shown_func};
ghost use Rattle.smith_core.specs.StandInText.{stand_in_text};
ghost use Rattle.smith_read.specs.ModuleSections.{shown_sections, stand_in_at};
ghost use Rattle.smith_change.specs.CoreTypes as core;
ghost use Rattle.smith_change.specs.Parts as parts;
ghost use Rattle.smith_change.specs.Rows as rows;
ghost use Rattle.smith_read.specs.Search.{past, sought};

use crate::alternatives::memory_alternative;
use crate::change::{Change, Changed};
use crate::core_types::{change_function, copy_function};
use crate::rows::{Entry, Row, change_row};
use smith_core::put_stand_in;
use smith_format::{FuncType, MemoryType};
use smith_input::Error;
use smith_read::{ModuleSections, Search, Unread, module_sections_of};
use std::alloc::{AllocError, Global};

impl Entry for FuncType {
    ghost Shown = { Function };

    ghost shown = { shown_func };

    ghost places = { core.function_places };

    ghost changes = { core.function_changed };

    ghost again = { rows.unnamed };

    ghost fresh = { λ n. None };

    fn copied(&self, alloc: Global) -> Result<FuncType, AllocError> {
        copy_function(alloc, self)
    }

    fn renamed(&self, _alloc: Global) -> Changed<FuncType> {
        Ok(None)
    }

    fn fresh(_alloc: Global, _number: usize) -> Changed<FuncType> {
        Ok(None)
    }
}

impl Row for FuncType {
    fn changed(&self, change: Change, search: &mut Search) -> Changed<FuncType> {
        change_function(change, search, self)
    }
}

impl Entry for MemoryType {
    ghost Shown = { MemoryType };

    ghost shown = { λ m. m };

    ghost places = { parts.memory_places };

    ghost changes = { parts.memory_changed };

    ghost again = { rows.unnamed };

    ghost fresh = { λ n. None };

    fn copied(&self, _alloc: Global) -> Result<MemoryType, AllocError> {
        Ok(*self)
    }

    fn renamed(&self, _alloc: Global) -> Changed<MemoryType> {
        Ok(None)
    }

    fn fresh(_alloc: Global, _number: usize) -> Changed<MemoryType> {
        Ok(None)
    }
}

impl Row for MemoryType {
    fn changed(&self, change: Change, search: &mut Search) -> Changed<MemoryType> {
        Ok(search.value_or(*self, memory_alternative(change.alternative, *self)))
    }
}

fn change_sections(
    change: Change,
    search: &mut Search,
    sections: &ModuleSections,
) -> Changed<ModuleSections>
    ensures sections { let all = shown_sections sections.now in IfOk result (λ r. option_map shown_sections r
        ≡ sought (parts.stand_in_places all) search.old
        (λ k. parts.stand_in_changed change.alternative k all) all) }
    ensures moved { IfOk result (λ r. IsSome r
        → search.new ≡ past (parts.stand_in_places (shown_sections sections.now)) search.old) }
{
    let types = change_row(change, search, &sections.types)?;
    let memories = change_row(change, search, &sections.memories)?;
    let Some((types, memories)) = types.zip(memories) else {
        return Ok(None);
    };
    Ok(Some(ModuleSections { types, memories }))
}

// The sections of the module that these bytes spell, if it has no others than these two.
fn sections_of(alloc: Global, text: &[u8]) -> Changed<ModuleSections>
    ensures { IfOk result (λ r. option_map shown_sections r ≡ stand_in_at text.now) }
{
    match module_sections_of(alloc, text) {
        Ok(sections) => Ok(Some(sections)),
        Err(Unread::OutOfMemory) => Err(AllocError),
        Err(Unread::Malformed { .. }) => Ok(None),
    }
}

// The bytes of the module with these sections, if it has an encoding.
fn module_text(alloc: Global, sections: &ModuleSections) -> Changed<Vec<u8>>
    ensures { IfOk result (λ r. option_map (λ v. v.items) r ≡ stand_in_text (shown_sections sections.now)) }
{
    let mut out = Vec::new(alloc);
    match put_stand_in(&mut out, &sections.types, &sections.memories) {
        Ok(()) => Ok(Some(out)),
        Err(Error::TooLong) => Ok(None),
        Err(_) => Err(AllocError),
    }
}

/// The bytes of a core module, which are copied unless what is sought is in it.
pub(crate) fn change_module(change: Change, search: &mut Search, text: &[u8]) -> Changed<Vec<u8>>
    ensures text { IfOk result (λ r. option_map (λ v. v.items) r ≡ sought (parts.module_places text.now) search.old
        (λ k. parts.module_changed change.alternative k text.now) text.now) }
    ensures moved { IfOk result (λ r. IsSome r → search.new ≡ past (parts.module_places text.now) search.old) }
{
    if let Search::Over = *search {
        return Ok(Some(Vec::from_slice(change.alloc, text)?));
    }
    let Some(sections) = sections_of(change.alloc, text)? else {
        return Ok(Some(Vec::from_slice(change.alloc, text)?));
    };
    let Some(sections) = change_sections(change, search, &sections)? else {
        return Ok(None);
    };
    match *search {
        Search::Ahead(_) => Ok(Some(Vec::from_slice(change.alloc, text)?)),
        Search::Over => module_text(change.alloc, &sections),
    }
}
