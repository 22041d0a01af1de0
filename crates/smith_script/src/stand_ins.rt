//! Core modules that stand for generated ones.

ghost use Rattle.std.specs.Prelude.{◌≡◌, ◌≤◌, ◌<◌, [], ◌∷◌, length, map, Decides, IfOk, IfErr, MatchOption, None, Some};
ghost use Rattle.smith_format.specs.CoreScript.{script_function, script_values};
ghost use Rattle.smith_format.specs.Limits.{configured, max_results};
ghost use Rattle.smith_core.specs.Module.{module_text};
ghost use Rattle.smith_core.specs.StandInScript.{all_memories, counted_functions, function_of, functions_from};
ghost use Rattle.smith_core.specs.StandInScript.{memories_of, memory_of, past_number, script_stand_in, stand_in_of};
ghost use Rattle.smith_core.specs.StandInScript.{types_from, value_of, values_of};
ghost use Rattle.smith_input.specs.Script.{AreBytes};
ghost use Rattle.smith_script_types.specs.Says.{Says};
ghost use Rattle.smith_script_types.specs.Fronts.{script_functions, script_memories};
ghost use Rattle.smith_input.specs.declared.error.Error.TheVariants.{OutOfMemory};
ghost use Rattle.smith_script.specs.StandIns.{IsMade, IsStandInText};

use smith_core::Module;
use smith_format::{Config, RefType, ValType};
use smith_input::{Error, Unstructured};
use smith_script_types::{
    behind, front, max_results, say_core_values, say_end, say_limits, say_more,
};
use std::alloc::{AllocError, Global};

// The value type of a byte.
fn value_of(byte: u8) -> ValType
    ensures { result ≡ value_of byte }
{
    match byte {
        0x7f => ValType::I32,
        0x7e => ValType::I64,
        0x7d => ValType::F32,
        0x7c => ValType::F64,
        0x7b => ValType::V128,
        0x70 => ValType::Ref(RefType::FuncRef),
        _ => ValType::Ref(RefType::ExternRef),
    }
}

// The value types of these bytes.
fn values_in(alloc: Global, bytes: &[u8]) -> Result<Vec<ValType>, Error>
    ensures list { IfOk result (λ v. v.items ≡ map value_of bytes.now) }
    ensures memory { IfErr result (λ e. e ≡ OutOfMemory) }
{
    let mut values = Vec::new(alloc);
    for byte in bytes {
        values.push(value_of(*byte))?;
    }
    Ok(values)
}

// What is after a number.
fn past_number(bytes: &[u8]) -> &[u8]
    ensures { result.now ≡ past_number bytes.now }
{
    for place in 0..bytes.len() {
        if bytes[place] < 128 {
            return &bytes[place + 1..];
        }
    }
    &[]
}

// The value types after their count. Returns what is after them.
fn say_values<'b>(
    alloc: Global,
    out: &mut Vec<u8>,
    config: &Config,
    most: usize,
    bytes: &'b [u8],
) -> Result<&'b [u8], Error>
    ensures said { Says result out.old out.new (script_values (configured config.now) most (values_of bytes.now).0) }
    ensures left { IfOk result (λ left. left.now ≡ (values_of bytes.now).1) }
{
    let Some((count, rest)) = bytes.split_first() else {
        say_core_values(out, config, most, &[])?;
        return Ok(bytes);
    };
    let values = values_in(alloc, front(rest, usize::from(*count)))?;
    say_core_values(out, config, most, &values)?;
    Ok(behind(rest, usize::from(*count)))
}

// A function type. Returns what is after it.
fn say_function<'b>(
    alloc: Global,
    out: &mut Vec<u8>,
    config: &Config,
    bytes: &'b [u8],
) -> Result<&'b [u8], Error>
    ensures said { Says result out.old out.new
        (script_function (configured config.now) (max_results config.now) (function_of bytes.now).0) }
    ensures left { IfOk result (λ left. left.now ≡ (function_of bytes.now).1) }
{
    let results = say_values(alloc, out, config, 20, behind(bytes, 1))?;
    say_values(alloc, out, config, max_results(config), results)
}

// That many function types. Returns what is after them.
fn say_functions<'b>(
    alloc: Global,
    out: &mut Vec<u8>,
    config: &Config,
    count: usize,
    bytes: &'b [u8],
) -> Result<&'b [u8], Error>
    ensures said { Says result out.old out.new (script_functions config.now 0 (functions_from count bytes.now).0) }
    ensures left { IfOk result (λ left. left.now ≡ (functions_from count bytes.now).1) }
{
    let mut left = bytes;
    for done in 0..count {
        say_more(out, 0, done)?;
        left = say_function(alloc, out, config, left)?;
    }
    say_end(out, count, config.max_types.min(20))?;
    Ok(left)
}

// How many function types there are, and what is after their count.
fn counted_functions(bytes: &[u8]) -> (usize, &[u8])
    ensures { functions_from result.0 result.1.now ≡ counted_functions bytes.now }
{
    match bytes.split_first() {
        Some((count, rest)) => (usize::from(*count), rest),
        None => (0, bytes),
    }
}

// The same for a type section, if there is one.
fn types_of(bytes: &[u8]) -> (usize, &[u8])
    ensures { functions_from result.0 result.1.now ≡ types_from bytes.now }
{
    match bytes.split_first() {
        Some((1, rest)) => counted_functions(past_number(rest)),
        _ => (0, bytes),
    }
}

// A memory type, by its minimum and its maximum, and what is after it.
fn next_memory(bytes: &[u8]) -> Option<(u64, Option<u64>, &[u8])>
    ensures one { MatchOption result (all_memories bytes.now ≡ [])
        (λ m. all_memories bytes.now ≡ memory_of m.0 m.1 ∷ all_memories m.2.now) }
    ensures less { MatchOption result (0 ≤ length bytes.now) (λ m. length m.2.now < length bytes.now) }
{
    let (flag, rest) = bytes.split_first()?;
    let (minimum, rest) = rest.split_first()?;
    if *flag == 0 {
        return Some((u64::from(*minimum), None, rest));
    }
    let (maximum, rest) = rest.split_first()?;
    Some((u64::from(*minimum), Some(u64::from(*maximum)), rest))
}

// The memory types to the end.
fn say_memories(out: &mut Vec<u8>, config: &Config, bytes: &[u8]) -> Result<(), Error>
    ensures { Says result out.old out.new (script_memories config.now 0 (all_memories bytes.now)) }
{
    let mut done = 0;
    let mut left = bytes;
    while let Some((minimum, maximum, rest)) = next_memory(left) {
        say_more(out, config.min_memories, done)?;
        say_limits(out, minimum, maximum)?;
        left = rest;
        done += 1;
    }
    say_end(out, done, config.max_memories)
}

// The memory types of a memory section, if there is one.
fn memories_of(bytes: &[u8]) -> &[u8]
    ensures { all_memories result.now ≡ memories_of bytes.now }
{
    match bytes.split_first() {
        Some((5, rest)) => past_number(past_number(rest)),
        _ => &[],
    }
}

/// A core module of these bytes, by what it has if it stands for a generated one.
pub fn say_stand_in(
    alloc: Global,
    out: &mut Vec<u8>,
    config: &Config,
    text: &[u8],
) -> Result<(), Error>
    ensures { Says result out.old out.new (script_stand_in config.now (stand_in_of text.now)) }
{
    let (count, types) = types_of(behind(text, 8));
    let left = say_functions(alloc, out, config, count, types)?;
    say_memories(out, config, memories_of(left))
}

// The script of a core module of these bytes, if it stands for a generated one and that is bytes.
fn stand_in_script(
    alloc: Global,
    config: &Config,
    text: &[u8],
) -> Result<Option<Vec<u8>>, AllocError>
    ensures { let script = script_stand_in config.now (stand_in_of text.now) in
        IfOk result (λ r. MatchOption r (¬ AreBytes script) (λ s. s.items ≡ script)) }
{
    let mut script = Vec::new(alloc);
    match say_stand_in(alloc, &mut script, config, text) {
        Ok(()) => Ok(Some(script)),
        Err(Error::OutOfMemory) => Err(AllocError),
        Err(_) => Ok(None),
    }
}

// The bytes of a core module, if it has any.
fn module_bytes(alloc: Global, module: &Module) -> Result<Option<Vec<u8>>, AllocError>
    ensures { IfOk result (λ r. MatchOption r (module_text module.now ≡ None)
        (λ b. module_text module.now ≡ Some b.items)) }
{
    match module.to_bytes(alloc) {
        Ok(bytes) => Ok(Some(bytes)),
        Err(Error::OutOfMemory) => Err(AllocError),
        Err(_) => Ok(None),
    }
}

// The bytes of the core module that is read from an input, if one is read that has any.
#[tactic(auto, using(crate::proofs::StandIns::made_of, crate::proofs::StandIns::none_read))]
fn made(alloc: Global, config: &Config, input: &[u8]) -> Result<Option<Vec<u8>>, AllocError>
    ensures { IfOk result (IsMade config.now input.now) }
{
    let mut input = Unstructured::new(input);
    match Module::new_internal(alloc, *config, &mut input) {
        Ok(module) => module_bytes(alloc, &module),
        Err(Error::OutOfMemory) => Err(AllocError),
        Err(_) => Ok(None),
    }
}

/// Does a core module of these bytes stand for a generated one within the limits: does it have function types and
/// memories that they allow, and nothing else? It takes time in proportion to the bytes.
pub fn is_stand_in(alloc: Global, config: &Config, text: &[u8]) -> Result<bool, AllocError>
    ensures { IfOk result (λ r. Decides r (IsStandInText config.now text.now)) }
{
    let Some(script) = stand_in_script(alloc, config, text)? else {
        return Ok(false);
    };
    match made(alloc, config, &script)? {
        Some(bytes) => Ok(bytes.as_slice() == text),
        None => Ok(false),
    }
}
