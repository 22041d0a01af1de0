//! Types of values and of functions.

ghost use Rattle.std.specs.Prelude.{◌≤◌, false, Option, None, Some, length, map, string_bytes};
ghost use Rattle.std.specs.List.{AllByRecursion};
ghost use Rattle.smith_syntax.specs.Entries.{function};
ghost use Rattle.smith_syntax.specs.Shown.{shown_defined};
ghost use Rattle.smith_syntax.specs.Possible.{PossibleDefined, PossibleEntry, PossibleNames};
ghost use Rattle.smith_syntax.specs.WellFormed.{FormedDefined, FormedEntry, FormedMaybe, FormedVal, Named};
ghost use Rattle.smith_syntax.specs.declared.types.ComponentValType.{ComponentValType};
ghost use Rattle.smith_check.specs.Judges.{Grades, Judges};
ghost use Rattle.smith_scopes.specs.NodeScopes.{outer_in, own_in};

use crate::error::{Checked, Rule, Stop};
use crate::names::check_names;
use smith_input::Labelled;
use smith_read::TypeNode;
use smith_scopes::NodeScopes;
use smith_syntax::{ComponentValType, DefinedType, FuncType, Valued};
use std::alloc::Global;

// Checks a value type in use.
fn check_value(scopes: &NodeScopes<'_>, ty: ComponentValType) -> Checked
    ensures { Judges result (FormedVal (own_in scopes.now) ty) }
{
    match ty {
        ComponentValType::Primitive(_) => Ok(()),
        ComponentValType::Indexed(index) => match scopes.type_at(index) {
            Some(TypeNode::Defined(_)) => Ok(()),
            Some(_) => Err(Stop::IllFormed(Rule::ValueType)),
            None => Err(Stop::IllFormed(Rule::NoType)),
        },
    }
}

// Checks a value type in use, if there is one.
fn check_maybe(scopes: &NodeScopes<'_>, ty: Option<ComponentValType>) -> Checked
    ensures { Judges result (FormedMaybe (own_in scopes.now) ty) }
{
    match ty {
        Some(ty) => check_value(scopes, ty),
        None => Ok(()),
    }
}

// Checks the value types of members.
fn check_values<T: Valued>(scopes: &NodeScopes<'_>, items: &[T]) -> Checked
    ensures { Judges result (AllByRecursion (FormedMaybe (own_in scopes.now)) (map T.value items.now)) }
{
    for item in items {
        check_maybe(scopes, item.value())?;
    }
    Ok(())
}

// Checks that a number of members is from 1 to `most`, of which the standard has only the first.
fn check_count(count: usize, most: usize) -> Checked
    ensures judged { Judges result ((1 ≤ count) × (count ≤ most)) }
    ensures graded { Grades result (1 ≤ count) }
{
    if count == 0 {
        return Err(Stop::IllFormed(Rule::Members));
    }
    if most < count {
        return Err(Stop::Outside(Rule::Members));
    }
    Ok(())
}

// Checks the names of flags or enums, from 1 to `most`.
fn check_labels(alloc: Global, items: &[String], most: usize) -> Checked
    ensures judged { Judges result
        (Named (map string_bytes items.now) × (1 ≤ length items.now) × (length items.now ≤ most)) }
    ensures graded { Grades result (PossibleNames false (map string_bytes items.now) × (1 ≤ length items.now)) }
{
    check_count(items.len(), most)?;
    check_names(alloc, items)
}

// Checks the names of flags, from 1 to 32.
fn check_flags(alloc: Global, items: &[String]) -> Checked
    ensures judged { Judges result
        (Named (map string_bytes items.now) × (1 ≤ length items.now) × (length items.now ≤ 32)) }
    ensures graded { Grades result
        (PossibleNames false (map string_bytes items.now) × (1 ≤ length items.now) × (length items.now ≤ 32)) }
{
    if items.len() > 32 {
        return Err(Stop::IllFormed(Rule::Members));
    }
    check_labels(alloc, items, 32)
}

// Checks members with names and value types, from 1 to 100.
fn check_members<T: Labelled + Valued>(
    alloc: Global,
    scopes: &NodeScopes<'_>,
    items: &[T],
) -> Checked
    ensures judged { Judges result (Named (map T.text items.now)
        × AllByRecursion (FormedMaybe (own_in scopes.now)) (map T.value items.now)
        × (1 ≤ length items.now) × (length items.now ≤ 100)) }
    ensures graded { Grades result (PossibleNames false (map T.text items.now)
        × AllByRecursion (FormedMaybe (own_in scopes.now)) (map T.value items.now) × (1 ≤ length items.now)) }
{
    check_count(items.len(), 100)?;
    check_names(alloc, items)?;
    check_values(scopes, items)
}

// Checks members without names, from 1 to 100.
fn check_tuple(scopes: &NodeScopes<'_>, items: &[ComponentValType]) -> Checked
    ensures judged { Judges result (AllByRecursion (FormedVal (own_in scopes.now)) items.now
        × (1 ≤ length items.now) × (length items.now ≤ 100)) }
    ensures graded { Grades result
        (AllByRecursion (FormedVal (own_in scopes.now)) items.now × (1 ≤ length items.now)) }
{
    check_count(items.len(), 100)?;
    check_values(scopes, items)
}

pub(crate) fn check_defined(alloc: Global, scopes: &NodeScopes<'_>, ty: &DefinedType) -> Checked
    ensures judged { Judges result (FormedDefined (shown_defined ty.now) (own_in scopes.now)) }
    ensures graded { Grades result (PossibleDefined (shown_defined ty.now) (own_in scopes.now)) }
{
    match ty {
        DefinedType::Primitive(_) => Ok(()),
        DefinedType::Record(ty) => check_members(alloc, scopes, &ty.fields),
        DefinedType::Variant(ty) => check_members(alloc, scopes, &ty.cases),
        DefinedType::List(ty) => check_value(scopes, ty.elem_ty),
        DefinedType::Tuple(ty) => check_tuple(scopes, &ty.fields),
        DefinedType::Flags(ty) => check_flags(alloc, &ty.fields),
        DefinedType::Enum(ty) => check_labels(alloc, &ty.variants, 100),
        DefinedType::Option(ty) => check_value(scopes, ty.inner_ty),
        DefinedType::Result(ty) => {
            check_maybe(scopes, ty.ok_ty)?;
            check_maybe(scopes, ty.err_ty)
        }
    }
}

pub(crate) fn check_signature(alloc: Global, scopes: &NodeScopes<'_>, ty: &FuncType) -> Checked
    ensures judged { Judges result (FormedEntry (function ty.now) (own_in scopes.now) (outer_in scopes.now)) }
    ensures graded { Grades result (PossibleEntry (function ty.now) (own_in scopes.now) (outer_in scopes.now)) }
{
    if ty.params.len() > 16 {
        return Err(Stop::Outside(Rule::Parameters));
    }
    check_names(alloc, &ty.params)?;
    check_values(scopes, &ty.params)?;
    check_maybe(scopes, ty.result)
}
