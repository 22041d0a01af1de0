//! Outer aliases of a module type, from the input.

ghost use Rattle.std.specs.Prelude.{◌≡◌, ◌+◌, ◌-◌, ◌<◌, ◌≤◌, ℕ, length, slice_get, true, Some, OnOk, IfOk, IfErr};
ghost use Rattle.smith_input.specs.Choices.{ReadsAmong};
ghost use Rattle.smith_input.specs.Consumes.{Consumes};
ghost use Rattle.smith_format.specs.Shown.{shown_func};
ghost use Rattle.smith_tree.specs.CoreTypeOffers.{alias_choices};
ghost use Rattle.smith_types.specs.MakingCore.{AddsDecl, KeepsDeclared, choices_among, shown_funcs, so_far};
ghost use Rattle.smith_syntax.specs.ModuleTypes.{aliased, func_in};
ghost use Rattle.smith_scopes.specs.Scopes.{own_scope, kind_places};
ghost use Rattle.smith_tree.specs.declared.choices.ModuleItem.TheVariants as item;
ghost use Rattle.smith_scope.specs.declared.kinds.Kind.TheVariants as kind;

use crate::core_types::declared::Declared;
use smith_format::FuncType;
use smith_input::{Error, Unstructured};
use smith_scope::Kind;
use smith_scopes::Scopes;
use smith_syntax::{CoreType, ModuleTypeDef};
use std::rc::Rc;

// How many function types an outer alias is among.
pub(crate) fn alias_count(scopes: &Scopes, declared: &Declared) -> usize
    requires { length declared.now.own.items < 1000 }
    ensures { result ≡ length (alias_choices (own_scope scopes.now) (so_far declared.now 0)) }
{
    scopes.kind_len(Kind::CoreFunc) + declared.own.len()
}

// The core function type with that index in the last scope.
fn function_around(scopes: &Scopes, rank: usize) -> Result<(u32, Rc<FuncType>), Error>
    requires { rank < length (kind_places kind.CoreFunc (own_scope scopes.now)) }
    ensures place { IfOk result (λ p. slice_get (kind_places kind.CoreFunc (own_scope scopes.now)) rank ≡ Some p.0) }
    ensures named { IfOk result (λ p.
        func_in (slice_get (own_scope scopes.now).core_types p.0) ≡ Some (shown_func p.1.value)) }
    ensures memory { IfErr result (λ e. e ≡ Error.OutOfMemory) }
{
    let i = scopes.kind_at(Kind::CoreFunc, rank);
    match &**scopes.get_core(0, i) {
        CoreType::Func(func) => Ok((i, func.clone()?)),
        CoreType::Module(_) => unreachable!(),
    }
}

// The count of scopes and the index of what an alias names, and the function type that is there.
fn read_alias(
    u: &mut Unstructured,
    scopes: &Scopes,
    own: &[Rc<FuncType>],
) -> Result<(u32, u32, Rc<FuncType>), Error>
    requires few { length own.now < 1000 }
    requires some { 0 < length (kind_places kind.CoreFunc (own_scope scopes.now)) + length own.now }
    ensures reads { IfOk result (λ a. ReadsAmong (choices_among (own_scope scopes.now) (shown_funcs own.now))
        u.old (a.0, a.1) u.new) }
    ensures named { IfOk result (λ a.
        aliased (own_scope scopes.now).core_types (shown_funcs own.now) a.0 a.1 ≡ Some (shown_func a.2.value)) }
    ensures input { Consumes result u.old u.new }
{
    let around = scopes.kind_len(Kind::CoreFunc);
    let place = u.choose_index(around + own.len());
    if place < around {
        let (i, ty) = function_around(scopes, place)?;
        return Ok((1, i, ty));
    }
    let i = place - around;
    Ok((0, i as u32, own[i].clone()?))
}

// An outer alias, which keeps the function type that it names.
pub(crate) fn add_alias(
    u: &mut Unstructured,
    scopes: &Scopes,
    declared: &mut Declared,
) -> Result<(), Error>
    requires few { length declared.old.own.items < 1000 }
    requires some { 0 < length (alias_choices (own_scope scopes.now) (so_far declared.old 0)) }
    ensures adds { (config : _) (fuel : ℕ) → OnOk result (AddsDecl config (own_scope scopes.now)
        (so_far declared.old fuel) item.Alias u.old true u.new (so_far declared.new (fuel - 1))) }
    ensures kept { KeepsDeclared (own_scope scopes.now).core_types declared.old
        → OnOk result (KeepsDeclared (own_scope scopes.now).core_types declared.new) }
    ensures own { OnOk result (length declared.new.own.items ≤ length declared.old.own.items + 1) }
    ensures input { Consumes result u.old u.new }
{
    let (count, i, ty) = read_alias(u, scopes, &declared.own)?;
    declared.own.push(ty.clone()?)?;
    declared
        .counted
        .push(ModuleTypeDef::OuterAlias { count, i, ty })?;
    Ok(())
}
