//! Core types from the input.

ghost use Rattle.std.specs.Prelude.{◌≡◌, ◌<◌, ◌≤◌, ◌^◌, ◌++◌, ℕ, List, length, IfOk};
ghost use Rattle.smith_input.specs.Consumes.{Consumes};
ghost use Rattle.smith_input.specs.Reading.{IsTail};
ghost use Rattle.smith_format.specs.CoreFormed.{FormedMemory, FormedTable, FormedFunction};
ghost use Rattle.smith_format.specs.CoreReading.{ReadsLimits, ReadsMemory, ReadsElement, ReadsTable, ReadsTag};
ghost use Rattle.smith_format.specs.CoreReading.{ReadsValues, ReadsFunction};
ghost use Rattle.smith_format.specs.CoreScript.{script_function};
ghost use Rattle.smith_format.specs.CoreTypes.{Function};
ghost use Rattle.smith_format.specs.Shown.{shown_func};
ghost use Rattle.smith_format.specs.Limits.{configured, max_results};

use crate::config::Config;
use crate::types::{FuncType, MemoryType, RefType, TableType, TagType, ValType};
use smith_input::{Error, Unstructured};
use std::alloc::Global;

static ELEMENT_TYPES: [RefType; 2] = [RefType::FuncRef, RefType::ExternRef];

// A minimum, and a maximum or none.
#[inline(always)]
fn make_limits(u: &mut Unstructured) -> (u64, Option<u64>)
    ensures reads { ReadsLimits u.old result.0 result.1 u.new }
    ensures tail { IsTail u.new u.old }
{
    let minimum = u.int_in_range(0, 10);
    if u.arbitrary_bool() {
        let maximum = u.int_in_range(minimum, 20);
        return (minimum, Some(maximum));
    }
    (minimum, None)
}

/// A memory type: a minimum of at most 10, and a maximum from there to 20 or none. It is not shared, and has addresses
/// of 32 bits.
pub fn arbitrary_memtype(u: &mut Unstructured, _config: &Config) -> MemoryType
    ensures reads { ReadsMemory u.old result u.new }
    ensures formed { FormedMemory result }
    ensures tail { IsTail u.new u.old }
{
    let (minimum, maximum) = make_limits(u);
    MemoryType {
        minimum,
        maximum,
        shared: false,
        memory64: false,
    }
}

// What a table holds: functions, or things from outside if there may be references to those.
fn make_element_type(u: &mut Unstructured, references: bool) -> RefType
    ensures reads { ReadsElement references u.old result u.new }
    ensures tail { IsTail u.new u.old }
{
    if references {
        *u.choose(&ELEMENT_TYPES)
    } else {
        RefType::FuncRef
    }
}

/// A table type: what it holds, and limits like a memory's. It has indexes of 32 bits.
pub fn arbitrary_table_type(u: &mut Unstructured, config: &Config) -> TableType
    ensures reads { ReadsTable config.now.reference_types_enabled u.old result u.new }
    ensures formed { FormedTable config.now.reference_types_enabled result }
    ensures tail { IsTail u.new u.old }
{
    let element_type = make_element_type(u, config.reference_types_enabled);
    let (minimum, maximum) = make_limits(u);
    TableType {
        element_type,
        table64: false,
        minimum,
        maximum,
    }
}

/// A tag type of one of the function types, given by their indexes.
pub fn arbitrary_tag_type(u: &mut Unstructured, candidates: &[u32]) -> TagType
    requires { 0 < length candidates.now }
    ensures reads { ReadsTag candidates.now u.old result u.new }
    ensures tail { IsTail u.new u.old }
{
    let func_type_idx = *u.choose(candidates);
    TagType { func_type_idx }
}

// At most that many value types, by a loop of so many bits.
#[inline(always)]
fn make_values(
    alloc: Global,
    u: &mut Unstructured,
    bits: usize,
    valtypes: &[ValType],
    max: usize,
) -> Result<Vec<ValType>, Error>
    requires { 0 < length valtypes.now }
    ensures reads { IfOk result (λ v. ReadsValues bits valtypes.now max u.old v.items u.new) }
    ensures input { Consumes result u.old u.new }
{
    let mut types = Vec::new(alloc);
    for done in 0..max {
        if !u.more_of(bits, done, 0, max) {
            return Ok(types);
        }
        let ty = *u.choose(valtypes);
        types.push(ty)?;
    }
    Ok(types)
}

// A function type of at most 20 parameters and `max_results` results, by loops of so many bits.
#[inline(always)]
fn make_func_type(
    alloc: Global,
    u: &mut Unstructured,
    bits: usize,
    valtypes: &[ValType],
    max_results: usize,
) -> Result<FuncType, Error>
    requires { 0 < length valtypes.now }
    ensures reads { IfOk result (λ t. ReadsFunction bits valtypes.now max_results u.old (shown_func t) u.new) }
    ensures input { Consumes result u.old u.new }
{
    let params = make_values(alloc, u, bits, valtypes, 20)?;
    let results = make_values(alloc, u, bits, valtypes, max_results)?;
    Ok(FuncType { params, results })
}

/// A function type of at most 20 parameters and `max_results` results, each of one of the value types. Its loops go on
/// by the lowest bit of a byte. It fails only when out of memory.
pub fn arbitrary_func_type(
    alloc: Global,
    u: &mut Unstructured,
    valtypes: &[ValType],
    max_results: usize,
) -> Result<FuncType, Error>
    requires some { 0 < length valtypes.now }
    requires few { max_results ≤ 20 }
    ensures reads { IfOk result (λ t. ReadsFunction 1 valtypes.now max_results u.old (shown_func t) u.new) }
    ensures formed { IfOk result (λ t. FormedFunction valtypes.now max_results (shown_func t)) }
    ensures script { (f : Function) (rest : List ℕ) → FormedFunction valtypes.now max_results f
        → length valtypes.now ≤ 2 ^ 64 → u.old ≡ script_function valtypes.now max_results f ++ rest
        → IfOk result (λ t. (shown_func t ≡ f) × (u.new ≡ rest)) }
    ensures input { Consumes result u.old u.new }
{
    make_func_type(alloc, u, 1, valtypes, max_results)
}

/// A function type of the configured value types, with at most as many results as the limits allow. It fails only when
/// out of memory. Public only for the crates above.
#[inline(always)]
pub fn configured_func_type(
    alloc: Global,
    u: &mut Unstructured,
    config: &Config,
    valtypes: &[ValType],
) -> Result<FuncType, Error>
    requires { valtypes.now ≡ configured config.now }
    ensures reads { IfOk result (λ t. ReadsFunction config.now.loop_bits (configured config.now)
        (max_results config.now) u.old (shown_func t) u.new) }
    ensures input { Consumes result u.old u.new }
{
    let max_results = if config.multi_value_enabled { 20 } else { 1 };
    make_func_type(alloc, u, config.loop_bits, valtypes, max_results)
}
