//! Canonical functions.

ghost use Rattle.std.specs.Prelude.{◌≡◌, IfErr, OnOk, slice_get};
ghost use Rattle.std.specs.List.{list_any};
ghost use Rattle.smith_syntax.specs.Entries.{function};
ghost use Rattle.smith_syntax.specs.Flat.{Flat, flat_value};
ghost use Rattle.smith_syntax.specs.Scope.{Scope as PlainScope};
ghost use Rattle.smith_format.specs.declared.types.ValType.{ValType};
ghost use Rattle.smith_tree.specs.Possible.{AreFlat, NeedsMemory, PossibleCanon, SameFlat, needs_memory, values_of};
ghost use Rattle.smith_tree.specs.Spaces.{after_canon};
ghost use Rattle.smith_tree.specs.Tree.{lift, lower};
ghost use Rattle.smith_tree.specs.WellFormed.{FormedCanon, HasSignature};
ghost use Rattle.smith_tree.specs.Shown.{shown_canon};
ghost use Rattle.smith_check.specs.Judges.{Decides, Finds, Grades, Judges};
ghost use Rattle.smith_scopes.specs.NodeScopes.{own_in};
ghost use Rattle.smith_check.specs.Preceding.{spaces_in};
ghost use Rattle.smith_check.specs.declared.error.Stop.TheVariants.{OutOfMemory};

use crate::check::Open;
use crate::error::{Checked, Rule, Stop};
use smith_format::ValType;
use smith_read::{Func, TypeNode};
use smith_scopes::NodeScopes;
use smith_syntax::{ComponentValType, DefinedType, FuncType};
use smith_tree::flat_primitive;

// The core value type of a value type in use: a string and an indexed type have none.
fn flat_value(ty: ComponentValType) -> Option<ValType>
    ensures { result ≡ flat_value ty }
{
    match ty {
        ComponentValType::Primitive(primitive) => flat_primitive(primitive),
        ComponentValType::Indexed(_) => None,
    }
}

// Do both flatten to the same core value type?
fn are_flat(first: ComponentValType, second: ComponentValType) -> bool
    ensures { Decides result ((v : ValType) × (flat_value first ≡ Some v) × (flat_value second ≡ Some v)) }
{
    match flat_value(first) {
        Some(ty) => flat_value(second) == Some(ty),
        None => false,
    }
}

// Do both signatures flatten to the same core function type?
fn flatten_alike(first: &FuncType, second: &FuncType) -> bool
    ensures { Decides result (Flat first.now second.now) }
{
    if first.params.len() != second.params.len() {
        return false;
    }
    for index in 0..first.params.len() {
        if !are_flat(first.params[index].1, second.params[index].1) {
            return false;
        }
    }
    match (first.result, second.result) {
        (Some(first), Some(second)) => are_flat(first, second),
        _ => false,
    }
}

// The function type of that index.
fn signature_at<'a>(scopes: &NodeScopes<'a>, ty: u32) -> Result<&'a FuncType, Stop>
    ensures { Finds (λ f. f.now) result (λ s. slice_get (own_in scopes.now).types ty ≡ Some (function s)) }
{
    match scopes.type_at(ty) {
        Some(TypeNode::Func(ty)) => Ok(ty),
        Some(_) => Err(Stop::IllFormed(Rule::Sort)),
        None => Err(Stop::IllFormed(Rule::NoType)),
    }
}

// The type of the component function with that index.
fn signature_of<'a>(
    scopes: &NodeScopes<'a>,
    here: &Open<'_>,
    func: u32,
) -> Result<&'a FuncType, Stop>
    ensures { Finds (λ f. f.now) result (HasSignature (spaces_in (own_in scopes.now) here.now) func) }
{
    match here.functions.get(func as usize) {
        Some(ty) => signature_at(scopes, *ty),
        None => Err(Stop::IllFormed(Rule::NoFunction)),
    }
}

// Does a value of this type pass by memory?
fn is_in_memory(scopes: &NodeScopes<'_>, ty: ComponentValType) -> bool
    ensures { result ≡ needs_memory (own_in scopes.now).types ty }
{
    match ty {
        ComponentValType::Primitive(primitive) => flat_primitive(primitive).is_none(),
        ComponentValType::Indexed(index) => match scopes.type_at(index) {
            Some(TypeNode::Defined(DefinedType::List(_))) => true,
            Some(TypeNode::Defined(DefinedType::Primitive(primitive))) => {
                flat_primitive(*primitive).is_none()
            }
            _ => false,
        },
    }
}

// Does a parameter or the result pass by memory?
fn needs_memory(scopes: &NodeScopes<'_>, ty: &FuncType) -> bool
    ensures { result ≡ list_any (needs_memory (own_in scopes.now).types) (values_of ty.now) }
{
    for param in &ty.params {
        if is_in_memory(scopes, param.1) {
            return true;
        }
    }
    match ty.result {
        Some(value) => is_in_memory(scopes, value),
        None => false,
    }
}

// Are all values scalars by themselves?
fn is_flat(ty: &FuncType) -> bool
    ensures { Decides result (AreFlat ty.now) }
{
    for param in &ty.params {
        if flat_value(param.1).is_none() {
            return false;
        }
    }
    match ty.result {
        Some(value) => flat_value(value).is_some(),
        None => true,
    }
}

// Have both the same core value types in the same places?
fn have_same_values(first: &FuncType, second: &FuncType) -> bool
    ensures { Decides result (SameFlat first.now second.now) }
{
    if first.params.len() != second.params.len() {
        return false;
    }
    for index in 0..first.params.len() {
        if flat_value(first.params[index].1) != flat_value(second.params[index].1) {
            return false;
        }
    }
    match (first.result, second.result) {
        (Some(first), Some(second)) => flat_value(first) == flat_value(second),
        (None, None) => true,
        _ => false,
    }
}

// What the core function with that index lowers.
fn lowered_at(here: &Open<'_>, core_func: u32) -> Result<u32, Stop>
    ensures { Finds (λ f. f) result (λ f. slice_get here.now.core_functions.items core_func ≡ Some f) }
{
    match here.core_functions.get(core_func as usize) {
        Some(func) => Ok(*func),
        None => Err(Stop::IllFormed(Rule::NoFunction)),
    }
}

fn check_lower(scopes: &NodeScopes<'_>, here: &Open<'_>, func: u32) -> Checked
    ensures judged { Judges result (FormedCanon (spaces_in (own_in scopes.now) here.now) (lower func)) }
    ensures graded { Grades result (PossibleCanon (spaces_in (own_in scopes.now) here.now) (lower func)) }
{
    let lowered = signature_of(scopes, here, func)?;
    if lowered.is_scalar() {
        return Ok(());
    }
    if needs_memory(scopes, lowered) {
        return Err(Stop::IllFormed(Rule::NotScalar));
    }
    Err(Stop::Outside(Rule::NotScalar))
}

// Checks that a type flattens to the core function type of what is lowered.
fn check_flat(scopes: &NodeScopes<'_>, lifted: &FuncType, lowered: &FuncType) -> Checked
    ensures judged { Judges result (Flat lifted.now lowered.now) }
    ensures graded { Grades result ((¬ NeedsMemory (own_in scopes.now).types lifted.now)
        × (AreFlat lifted.now → AreFlat lowered.now → SameFlat lifted.now lowered.now)) }
{
    if flatten_alike(lifted, lowered) {
        return Ok(());
    }
    let are_flat = is_flat(lifted) && is_flat(lowered);
    if needs_memory(scopes, lifted) || (are_flat && !have_same_values(lifted, lowered)) {
        return Err(Stop::IllFormed(Rule::NotFlat));
    }
    Err(Stop::Outside(Rule::NotFlat))
}

fn check_lift(scopes: &NodeScopes<'_>, here: &Open<'_>, core_func: u32, ty: u32) -> Checked
    ensures judged { Judges result (FormedCanon (spaces_in (own_in scopes.now) here.now) (lift core_func ty)) }
    ensures graded { Grades result (PossibleCanon (spaces_in (own_in scopes.now) here.now) (lift core_func ty)) }
{
    let lifted = signature_at(scopes, ty)?;
    let func = lowered_at(here, core_func)?;
    let lowered = signature_of(scopes, here, func)?;
    check_flat(scopes, lifted, lowered)
}

pub(crate) fn check_canon(scopes: &NodeScopes<'_>, here: &Open<'_>, canon: &Func) -> Checked
    ensures judged { Judges result (FormedCanon (spaces_in (own_in scopes.now) here.now) (shown_canon canon.now)) }
    ensures graded { Grades result (PossibleCanon (spaces_in (own_in scopes.now) here.now) (shown_canon canon.now)) }
{
    match *canon {
        Func::CanonLift {
            func_ty,
            core_func_index,
        } => check_lift(scopes, here, core_func_index, func_ty),
        Func::CanonLower { func_index } => check_lower(scopes, here, func_index),
    }
}

impl<'a> Open<'a> {
    /// Adds the function that a canonical function defines.
    pub(crate) fn add_canon(&mut self, canon: &Func) -> Checked
        ensures added { (own : PlainScope) → OnOk result
            (spaces_in own self.new ≡ after_canon (spaces_in own self.old) (shown_canon canon.now)) }
        ensures names { (self.new.imports ≡ self.old.imports) × (self.new.exports ≡ self.old.exports) }
        ensures memory { IfErr result (λ e. e ≡ OutOfMemory) }
    {
        match *canon {
            Func::CanonLift { func_ty, .. } => self.functions.push(func_ty)?,
            Func::CanonLower { func_index } => self.core_functions.push(func_index)?,
        }
        Ok(())
    }
}
