//! What the canonical ABI asks of a module type, from the input.

ghost use Rattle.std.specs.Prelude.{◌≡◌, ◌+◌, ◌<◌, ◌≤◌, ◌&&◌, ℕ, length, nat_lt, OnOk, IfOk};
ghost use Rattle.smith_input.specs.Consumes.{Consumes};
ghost use Rattle.smith_format.specs.Shown.{shown_func};
ghost use Rattle.smith_types.specs.MadeCore.{MemoryLine, ReadsFront, ReadsFunctionLine, ReadsLine};
ghost use Rattle.smith_tree.specs.CoreTypeOffers.{allows_function, allows_type};
ghost use Rattle.smith_types.specs.MakingCore.{KeepsDeclared, so_far};
ghost use Rattle.smith_syntax.specs.ModuleTypes.{realloc, free};

use crate::core_types::counted::CountedDefs;
use crate::core_types::declared::{Declared, declare};
use crate::core_types::making::Making;
use smith_format::{Config, EntityType, ExportKind, FuncType, arbitrary_memtype};
use smith_input::{Error, Unstructured};
use smith_scopes::Scopes;
use smith_syntax::ModuleTypeDef;
use std::borrow::CowStr;
use std::rc::Rc;

// The export of a memory, if one is allowed.
fn memory_line(making: &Making, u: &mut Unstructured, declared: &mut Declared) -> Result<(), Error>
    ensures reads { (fuel : ℕ) → OnOk result (ReadsLine (nat_lt 0 making.now.config.now.max_memories)
        MemoryLine (so_far declared.old fuel) u.old (so_far declared.new fuel) u.new) }
    ensures own { OnOk result (declared.new.own.items ≡ declared.old.own.items) }
    ensures kept { (around : _) → KeepsDeclared around declared.old → OnOk result (KeepsDeclared around declared.new) }
    ensures input { Consumes result u.old u.new }
{
    if making.config.max_memories == 0 {
        return Ok(());
    }
    if !u.ratio(99, 100) {
        return Ok(());
    }
    let name = CowStr::Borrowed("memory");
    let memory = EntityType::Memory(arbitrary_memtype(u, making.config));
    declared.counted.push(ModuleTypeDef::Export(name, memory))?;
    Ok(())
}

// Are one more type and one more function below the limits?
#[tactic(auto, using(std::proofs::lemmas::Grind::common_steps))]
fn allows_line(config: &Config, declared: &Declared) -> bool
    ensures { result ≡ (allows_function config.now (so_far declared.now 0)
        && allows_type config.now (so_far declared.now 0)) }
{
    declared.counted.allows(ExportKind::Func, config.max_funcs)
        && declared.own.len() < config.max_types
}

// That function type and the export of a function of it, if both are allowed.
fn function_line(
    making: &Making,
    u: &mut Unstructured,
    declared: &mut Declared,
    name: &'static str,
    ty: Rc<FuncType>,
) -> Result<(), Error>
    requires { length declared.old.own.items < 1000 }
    ensures reads { (fuel : ℕ) → OnOk result (ReadsFunctionLine making.now.config.now name.now
        (shown_func ty.value) (so_far declared.old fuel) u.old (so_far declared.new fuel) u.new) }
    ensures own { OnOk result (length declared.new.own.items ≤ length declared.old.own.items + 1) }
    ensures kept { (around : _) → KeepsDeclared around declared.old → OnOk result (KeepsDeclared around declared.new) }
    ensures input { Consumes result u.old u.new }
{
    if !allows_line(making.config, declared) {
        return Ok(());
    }
    if !u.ratio(99, 100) {
        return Ok(());
    }
    let index = declared.own.len() as u32;
    declare(declared, ty)?;
    let export = ModuleTypeDef::Export(CowStr::Borrowed(name), EntityType::Func(index));
    declared.counted.push(export)?;
    Ok(())
}

// What the canonical ABI asks, in its three lines.
pub(crate) fn read_front(
    making: &Making,
    u: &mut Unstructured,
    scopes: &Scopes,
) -> Result<Declared, Error>
    ensures reads { IfOk result (λ d. (fuel : ℕ) → ReadsFront making.now.config.now u.old fuel (so_far d fuel) u.new) }
    ensures few { IfOk result (λ d. length d.own.items ≤ 2) }
    ensures kept { IfOk result (λ d. (around : _) → KeepsDeclared around d) }
    ensures input { Consumes result u.old u.new }
{
    // The three lines add two function types and five declarations at most. Few module types have many more, and
    // ten declarations would be a block of more than 1,032 bytes, for which `malloc` has no cache.
    let mut declared = Declared {
        own: Vec::with_capacity(making.alloc, 3)?,
        counted: CountedDefs::with_capacity(making.alloc, 9)?,
    };
    memory_line(making, u, &mut declared)?;
    let types = scopes.canonical_abi()?;
    let realloc = types.realloc.clone()?;
    function_line(making, u, &mut declared, "canonical_abi_realloc", realloc)?;
    let free = types.free.clone()?;
    function_line(making, u, &mut declared, "canonical_abi_free", free)?;
    Ok(declared)
}
