//! What the inside of a core module is to a validator.

ghost use Rattle.std.specs.Prelude.{◌≡◌, ◌↔◌, true, map, IfOk};
ghost use Rattle.std.specs.List.{AllByRecursion};
ghost use Rattle.smith_format.specs.Shown.{shown_func};
ghost use Rattle.smith_syntax.specs.Possible.{PossibleLimits, PossibleMemory};
ghost use Rattle.smith_read.specs.ModuleSections.{shown_sections};
ghost use Rattle.smith_verdict.specs.Modules.{FewValues, IsFew, IsPlainFunction, JudgesModule};
ghost use Rattle.smith_verdict.specs.Modules.{JudgesSections, SoundMemory, SoundModule};

use crate::contained::are_plain;
use smith_format::{FuncType, MemoryType};
use smith_read::{ModuleSections, Unread, module_sections_of};
use std::alloc::{AllocError, Global};

/// What the inside of a core module is to a validator.
#[derive(Clone, Copy)]
pub(crate) enum ModuleJudgement {
    /// Function types and memories that every validator has to accept.
    Sound,
    /// One of its memories is refused by the standard.
    Broken,
    /// It has more memories, types, parameters or results than an implementation has to accept.
    Bounded,
    /// Whether it is valid is not judged: it has other sections, concrete references, or memories that not every
    /// validator has.
    Other,
}

// May the standard have such limits, of which those with addresses of 32 bits are at most `top`?
fn are_possible_limits(top: u64, wide: bool, minimum: u64, maximum: Option<u64>) -> bool
    ensures { (result ≡ true) ↔ PossibleLimits top wide minimum maximum }
{
    match maximum {
        Some(maximum) => minimum <= maximum && (wide || maximum <= top),
        None => wide || minimum <= top,
    }
}

fn is_possible(memory: &MemoryType) -> bool
    ensures { (result ≡ true) ↔ PossibleMemory memory.now }
{
    let MemoryType {
        minimum,
        maximum,
        shared,
        memory64,
    } = *memory;
    are_possible_limits(65_536, memory64, minimum, maximum) && (!shared || maximum.is_some())
}

fn is_sound(memory: &MemoryType) -> bool
    ensures { (result ≡ true) ↔ SoundMemory memory.now }
{
    is_possible(memory) && !memory.shared && !memory.memory64
}

fn are_possible(memories: &[MemoryType]) -> bool
    ensures { (result ≡ true) ↔ AllByRecursion PossibleMemory memories.now }
{
    for memory in memories {
        if !is_possible(memory) {
            return false;
        }
    }
    true
}

fn are_sound(memories: &[MemoryType]) -> bool
    ensures { (result ≡ true) ↔ AllByRecursion SoundMemory memories.now }
{
    for memory in memories {
        if !is_sound(memory) {
            return false;
        }
    }
    true
}

fn is_plain_function(function: &FuncType) -> bool
    ensures { (result ≡ true) ↔ IsPlainFunction (shown_func function.now) }
{
    are_plain(&function.params) && are_plain(&function.results)
}

fn are_plain_functions(types: &[FuncType]) -> bool
    ensures { (result ≡ true) ↔ AllByRecursion IsPlainFunction (map shown_func types.now) }
{
    for function in types {
        if !is_plain_function(function) {
            return false;
        }
    }
    true
}

fn has_few_values(function: &FuncType) -> bool
    ensures { (result ≡ true) ↔ FewValues (shown_func function.now) }
{
    function.params.len() <= 1000 && function.results.len() <= 1000
}

fn have_few_values(types: &[FuncType]) -> bool
    ensures { (result ≡ true) ↔ AllByRecursion FewValues (map shown_func types.now) }
{
    for function in types {
        if !has_few_values(function) {
            return false;
        }
    }
    true
}

fn is_few(sections: &ModuleSections) -> bool
    ensures { (result ≡ true) ↔ IsFew (shown_sections sections.now) }
{
    sections.types.len() <= 1_000_000
        && sections.memories.len() <= 100
        && have_few_values(&sections.types)
}

fn judged_sections(sections: &ModuleSections) -> ModuleJudgement
    ensures { JudgesSections (shown_sections sections.now) result }
{
    if !are_plain_functions(&sections.types) {
        return ModuleJudgement::Other;
    }
    if !are_possible(&sections.memories) {
        return ModuleJudgement::Broken;
    }
    if !is_few(sections) {
        return ModuleJudgement::Bounded;
    }
    if !are_sound(&sections.memories) {
        return ModuleJudgement::Other;
    }
    ModuleJudgement::Sound
}

/// What the core module with these bytes is to a validator. `Err` is returned only if an allocation failed.
pub(crate) fn module_of(alloc: Global, text: &[u8]) -> Result<ModuleJudgement, AllocError>
    // Whatever it is found to be, it is.
    ensures judged { IfOk result (JudgesModule text.now) }
    // A sound module is found to be one.
    ensures sound { IfOk result (λ judgement. SoundModule text.now → judgement ≡ ModuleJudgement.Sound) }
{
    match module_sections_of(alloc, text) {
        Ok(sections) => Ok(judged_sections(&sections)),
        Err(Unread::OutOfMemory) => Err(AllocError),
        Err(Unread::Malformed { .. }) => Ok(ModuleJudgement::Other),
    }
}
