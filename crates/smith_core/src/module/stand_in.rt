//! The core module that stands for a generated one.
#![tactic(auto, using(smith_format::proofs::Steps::writing, smith_format::proofs::Sizes::measuring))]

ghost use Rattle.std.specs.Prelude.{◌≡◌, ℕ, ◌<◌, ◌≤◌, ◌^◌, min, map, length, IfOk, IfErr};
ghost use Rattle.smith_input.specs.Loops.{Loop, Never};
ghost use Rattle.smith_input.specs.Reading.{IsTail};
ghost use Rattle.smith_format.specs.Limits.{configured};
ghost use Rattle.smith_format.specs.Shown.{shown_func};
ghost use Rattle.smith_format.specs.Writing.{Puts, Measures};
ghost use Rattle.smith_core.specs.StandIn.{ReadsFunctionType, ReadsMemoryType, ReadsStandIn, IsStandInRefusal};
ghost use Rattle.smith_core.specs.StandInText.{listed, stand_in, stand_in_text};
ghost use Rattle.smith_core.specs.Kept.{shown};

use crate::module::{Kept, Module};
use crate::preamble::CORE_PREAMBLE;
use smith_format::{
    Config, FuncType, MemoryType, Spelled, ValType, arbitrary_memtype, begin_section,
    configured_func_type, end_section, many_len, put_many, u32_len, valtypes_of, write_bytes,
};
use smith_input::{Error, Unstructured};
use std::alloc::Global;

/// Function types, each in a group by itself, and memories, all defined.
#[derive(Debug, Drop)]
pub(super) struct StandIn {
    types: Vec<FuncType>,
    memories: Vec<MemoryType>,
    bulk_memory_enabled: bool,
}

// A section of a list, if the list has an entry.
fn put_listed<Format, T: Spelled<Format>>(
    out: &mut Vec<u8>,
    id: u8,
    items: &[T],
) -> Result<(), Error>
    ensures { Puts result out.old out.new (listed id T.piece items.now) }
{
    if items.is_empty() {
        return Ok(());
    }
    let start = begin_section(out, id)?;
    put_many(out, items)?;
    end_section(out, start)
}

fn listed_len<Format, T: Spelled<Format>>(items: &[T]) -> Result<u64, Error>
    ensures length { (id : ℕ) → Measures result (listed id T.piece items.now) }
    ensures most { IfOk result (λ n. n < 2 ^ 34) }
{
    if items.is_empty() {
        return Ok(0);
    }
    let Some(length) = many_len(items) else {
        return Err(Error::TooLong);
    };
    Ok(1 + u64::from(u32_len(length)) + u64::from(length))
}

/// Writes the core module that has these function types and memories, and no other sections (core specification, Binary
/// Format, Modules). A list without entries has no section. After an error a part of the module may be there.
pub fn put_stand_in(
    out: &mut Vec<u8>,
    types: &[FuncType],
    memories: &[MemoryType],
) -> Result<(), Error>
    ensures { Puts result out.old out.new (stand_in_text (stand_in (map shown_func types.now) memories.now)) }
{
    write_bytes(out, &CORE_PREAMBLE)?;
    put_listed(out, 1, types)?;
    put_listed(out, 5, memories)
}

impl StandIn {
    // The whole module.
    pub(super) fn put(&self, out: &mut Vec<u8>) -> Result<(), Error>
        ensures { Puts result out.old out.new (stand_in_text (shown self.now)) }
    {
        put_stand_in(out, &self.types, &self.memories)
    }

    // The length of the whole module.
    pub(super) fn measure(&self) -> Result<u64, Error>
        ensures { Measures result (stand_in_text (shown self.now)) }
    {
        let types = listed_len(&self.types)?;
        let memories = listed_len(&self.memories)?;
        Ok(8 + types + memories)
    }
}

// At most that many function types.
fn function_types(
    alloc: Global,
    u: &mut Unstructured,
    config: &Config,
    valtypes: &[ValType],
    most: usize,
) -> Result<Vec<FuncType>, Error>
    requires { valtypes.now ≡ configured config.now }
    ensures reads { IfOk result (λ v. Loop Never
        (ReadsFunctionType config.now) config.now.loop_bits 0 most 0 tt u.old v.items u.new tt) }
    ensures memory { IfErr result (λ e. e ≡ Error.OutOfMemory) }
    ensures tail { IsTail u.new u.old }
{
    let mut types = Vec::new(alloc);
    for done in 0..most {
        if !u.more_of(config.loop_bits, done, 0, most) {
            return Ok(types);
        }
        let func = configured_func_type(alloc, u, config, valtypes)?;
        types.reserve(1)?;
        types.push_reserved(func);
    }
    Ok(types)
}

// As many memories as the limits allow.
fn memories(alloc: Global, u: &mut Unstructured, config: &Config) -> Result<Vec<MemoryType>, Error>
    requires { config.now.min_memories ≤ config.now.max_memories }
    ensures reads { IfOk result (λ v. Loop Never ReadsMemoryType
        config.now.loop_bits config.now.min_memories config.now.max_memories 0 tt u.old v.items u.new tt) }
    ensures memory { IfErr result (λ e. e ≡ Error.OutOfMemory) }
    ensures tail { IsTail u.new u.old }
{
    let mut types = Vec::new(alloc);
    for done in 0..config.max_memories {
        if !u.more_of(
            config.loop_bits,
            done,
            config.min_memories,
            config.max_memories,
        ) {
            return Ok(types);
        }
        let ty = arbitrary_memtype(u, config);
        types.push(ty)?;
    }
    Ok(types)
}

impl Module {
    /// The module that stands for a generated one: at most 20 final function types, each in a group by itself, and as
    /// many memories as the limits allow, all defined. It refuses with `ModuleRefused` exactly if `min_memories`
    /// exceeds `max_memories`, before it reads, and otherwise fails only when out of memory.
    // It is apart, so that its caller's code, which runs for components without modules too, stays small.
    #[inline(never)]
    pub fn new_internal(
        alloc: Global,
        config: Config,
        u: &mut Unstructured,
    ) -> Result<Module, Error>
        ensures reads { IfOk result (λ m. ReadsStandIn config u.old m u.new) }
        ensures accepts { IfOk result (λ _. config.min_memories ≤ config.max_memories) }
        ensures refuses { IfErr result (IsStandInRefusal config) }
        ensures unread { config.max_memories < config.min_memories → u.new ≡ u.old }
        ensures tail { IsTail u.new u.old }
    {
        if config.min_memories > config.max_memories {
            return Err(Error::ModuleRefused);
        }
        let valtypes = valtypes_of(&config);
        let types = function_types(alloc, u, &config, valtypes, config.max_types.min(20))?;
        let memories = memories(alloc, u, &config)?;
        let stand_in = StandIn {
            types,
            memories,
            bulk_memory_enabled: config.bulk_memory_enabled,
        };
        Ok(Module::of(Kept::StandIn(stand_in)))
    }
}
