//! Core types from the input.

ghost use Rattle.std.specs.Prelude.{◌≡◌, ◌+◌, ◌<◌, ◌≤◌, ◌^◌, ◌++◌, ℕ, List, length, IfOk};
ghost use Rattle.smith_input.specs.Consumes.{Consumes};
ghost use Rattle.smith_format.specs.Limits.{configured};
ghost use Rattle.smith_syntax.specs.CoreLimits.{CoreLimits};
ghost use Rattle.smith_syntax.specs.Entries.{CoreEntry};
ghost use Rattle.smith_tree.specs.CoreTypeScript.{script_core};
ghost use Rattle.smith_types.specs.MadeCore.{MadeCore};
ghost use Rattle.smith_types.specs.MakingCore.{CoreMadeToFit, KeepsAliased};
ghost use Rattle.smith_tree.specs.CoreTypeNeeds.{core_need};
ghost use Rattle.smith_tree.specs.ReadableCoreTypes.{IsReadableCore};
ghost use Rattle.smith_scopes.specs.Scopes.{own_scope};
ghost use Rattle.smith_syntax.specs.Shown.{shown_core, shown_shared_core};
ghost use Rattle.smith_syntax.specs.WellFormed.{FormedCore};

mod aliases;
mod core_functions;
mod counted;
mod declared;
mod entities;
mod front;
mod making;
mod module_names;
mod module_types;

use crate::core_types::core_functions::read_core_function;
use crate::core_types::making::Making;
use crate::core_types::module_types::read_module_type;
use smith_format::{Config, ValType, burn};
use smith_input::{Error, Unstructured};
use smith_scopes::Scopes;
use smith_syntax::{CoreType, ModuleType};
use std::alloc::Global;
use std::rc::Rc;

// A core type, by the rules of `arbitrary_core_type`.
fn make_core_type(
    making: &Making,
    u: &mut Unstructured,
    scopes: &Scopes,
    fuel: &mut u32,
) -> Result<CoreType, Error>
    ensures made { IfOk result (λ t. MadeCore making.now.config.now (own_scope scopes.now) u.old fuel.old
        (shown_core t) u.new fuel.new) }
    ensures kept { IfOk result (λ t. KeepsAliased (own_scope scopes.now).core_types t) }
    ensures input { Consumes result u.old u.new }
{
    burn(fuel);
    if *fuel == 0 {
        let defs = Vec::new(making.alloc);
        return Ok(CoreType::Module(ModuleType { defs }));
    }
    if u.choose_index(2) == 0 {
        return Ok(CoreType::Func(read_core_function(making, u)?));
    }
    let defs = read_module_type(making, u, scopes, fuel)?;
    Ok(CoreType::Module(ModuleType { defs }))
}

/// A core type for these scopes, which takes fuel: one for itself, and one for each declaration of a module type. If
/// none is left at first, it is the empty module type; otherwise a choice of two: a function type, or a module type.
///
/// A function type has at most 20 parameters, and at most 20 results or one. A module type begins with what the
/// canonical ABI asks, each of its three lines with 99 of 100 choices if the limits allow it, and has at most 100 more
/// declarations. It names only the last scope's core function types. Each of its outer aliases keeps the function type
/// that it names. It fails only when out of memory.
pub fn arbitrary_core_type(
    alloc: Global,
    u: &mut Unstructured,
    config: &Config,
    valtypes: &[ValType],
    scopes: &Scopes,
    fuel: &mut u32,
) -> Result<Rc<CoreType>, Error>
    requires { valtypes.now ≡ configured config.now }
    ensures made { IfOk result (λ t. CoreMadeToFit config.now (own_scope scopes.now) u.old fuel.old t.value u.new
        fuel.new) }
    // The script of a core type whose names can be read and for which the fuel lasts produces that type.
    ensures script { (e : CoreEntry) (rest : List ℕ) → FormedCore e (own_scope scopes.now).core_types
        → CoreLimits config.now e → IsReadableCore config.now e → core_need e ≤ fuel.old
        → length (own_scope scopes.now).core_types ≤ 2 ^ 63 → config.now.max_name_length < 2 ^ 64
        → u.old ≡ script_core config.now (own_scope scopes.now) fuel.old e ++ rest
        → IfOk result (λ t. (shown_shared_core t ≡ e) × (u.new ≡ rest)) }
    ensures input { Consumes result u.old u.new }
{
    let making = Making {
        alloc,
        config,
        valtypes,
    };
    let made = make_core_type(&making, u, scopes, fuel)?;
    let shared = Rc::new(alloc, made)?;
    Ok(shared)
}
