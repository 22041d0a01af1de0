//! Types of values and of functions.

ghost use Rattle.std.specs.Prelude.{◌≤◌, List, ◌++◌, string_bytes, option_to_list};
ghost use Rattle.smith_syntax.specs.Shown.{shown_defined};
ghost use Rattle.smith_syntax.specs.Signature.{named};
ghost use Rattle.smith_tree.specs.TypeScript.{script_case, script_defined, script_either, script_field, script_kind};
ghost use Rattle.smith_tree.specs.TypeScript.{script_label, script_maybe, script_members, script_primitive};
ghost use Rattle.smith_tree.specs.TypeScript.{script_signature, script_val};
ghost use Rattle.smith_scopes.specs.Nodes.{shown_marked};
ghost use Rattle.smith_script_types.specs.Says.{Says};

use crate::choices::{say_among, say_byte, say_choice};
use crate::members::{Scripted, say_members};
use crate::names::say_name;
use crate::positions::say_usable;
use smith_format::Config;
use smith_input::Error;
use smith_scope::{NodeScope, Offer};
use smith_syntax::{ComponentValType, DefinedType, FuncType, PrimitiveValType, ResultType};
use smith_tree::{DefinedKind, defined_kinds, primitives};

// The scope that types of values refer to, and the limits of their names.
#[derive(Clone, Copy)]
struct Own<'a> {
    config: &'a Config,
    scope: &'a NodeScope<'a>,
    ghost names: { config.now.max_name_length ≤ 100 },
}

fn say_primitive(out: &mut Vec<u8>, ty: PrimitiveValType) -> Result<(), Error>
    ensures { Says result out.old out.new (script_primitive ty) }
{
    say_among(out, primitives(), &ty)
}

fn say_kind(out: &mut Vec<u8>, kind: DefinedKind) -> Result<(), Error>
    ensures { Says result out.old out.new (script_kind kind) }
{
    say_among(out, defined_kinds(), &kind)
}

// That a value type is primitive, when it may be an indexed one.
fn say_either(out: &mut Vec<u8>, count: usize) -> Result<(), Error>
    ensures { Says result out.old out.new (script_either count) }
{
    if count == 0 {
        return Ok(());
    }
    say_choice(out, 2, 0)
}

fn say_value(out: &mut Vec<u8>, own: &NodeScope<'_>, ty: ComponentValType) -> Result<(), Error>
    ensures { Says result out.old out.new (script_val (shown_marked own.now) ty) }
{
    match ty {
        ComponentValType::Primitive(primitive) => {
            say_either(out, own.offered_len(Offer::Value))?;
            say_primitive(out, primitive)
        }
        ComponentValType::Indexed(index) => {
            say_choice(out, 2, 1)?;
            say_usable(out, own, Offer::Value, index)
        }
    }
}

fn say_maybe_value(
    out: &mut Vec<u8>,
    own: &NodeScope<'_>,
    ty: Option<ComponentValType>,
) -> Result<(), Error>
    ensures { Says result out.old out.new (script_maybe (shown_marked own.now) ty) }
{
    match ty {
        None => say_byte(out, 0),
        Some(ty) => {
            say_byte(out, 1)?;
            say_value(out, own, ty)
        }
    }
}

// The two types of a result.
fn say_both(out: &mut Vec<u8>, own: &NodeScope<'_>, ty: &ResultType) -> Result<(), Error>
    ensures { Says result out.old out.new
        (script_maybe (shown_marked own.now) ty.now.ok_ty ++ script_maybe (shown_marked own.now) ty.now.err_ty) }
{
    say_maybe_value(out, own, ty.ok_ty)?;
    say_maybe_value(out, own, ty.err_ty)
}

impl<'a> Scripted<Own<'a>> for ComponentValType {
    ghost script = { λ own _ ty. script_val (shown_marked own.scope.now) ty };

    fn say(&self, context: &Own<'a>, _done: usize, out: &mut Vec<u8>) -> Result<(), Error> {
        say_value(out, context.scope, *self)
    }
}

impl<'a> Scripted<Own<'a>> for String {
    ghost script = { λ own count name. script_label own.config.now count (string_bytes name) };

    fn say(&self, context: &Own<'a>, done: usize, out: &mut Vec<u8>) -> Result<(), Error> {
        say_name(out, context.config, done, self)
    }
}

impl<'a> Scripted<Own<'a>> for (String, ComponentValType) {
    ghost script = { λ own count field. script_field own.config.now (shown_marked own.scope.now) count (named field) };

    fn say(&self, context: &Own<'a>, done: usize, out: &mut Vec<u8>) -> Result<(), Error> {
        say_name(out, context.config, done, &self.0)?;
        say_value(out, context.scope, self.1)
    }
}

impl<'a> Scripted<Own<'a>> for (String, Option<ComponentValType>) {
    ghost script = { λ own count case. script_case own.config.now (shown_marked own.scope.now) count (named case) };

    fn say(&self, context: &Own<'a>, done: usize, out: &mut Vec<u8>) -> Result<(), Error> {
        say_name(out, context.config, done, &self.0)?;
        say_maybe_value(out, context.scope, self.1)
    }
}

// A kind of type of values, and then its members, at least one and at most max.
fn say_list<'a, T: Scripted<Own<'a>>>(
    out: &mut Vec<u8>,
    own: &Own<'a>,
    kind: DefinedKind,
    max: usize,
    items: &[T],
) -> Result<(), Error>
    ensures { Says result out.old out.new (script_kind kind ++ script_members (T.script own.now) 1 max items.now) }
{
    say_kind(out, kind)?;
    say_members(out, own, 1, max, items)
}

/// A type of values after what says that it is one.
pub(crate) fn say_defined(
    out: &mut Vec<u8>,
    config: &Config,
    own: &NodeScope<'_>,
    ty: &DefinedType,
) -> Result<(), Error>
    requires { config.now.max_name_length ≤ 100 }
    ensures { Says result out.old out.new (script_defined config.now (shown_marked own.now) (shown_defined ty.now)) }
{
    let members = &Own { config, scope: own };
    match ty {
        DefinedType::Primitive(primitive) => {
            say_kind(out, DefinedKind::Primitive)?;
            say_primitive(out, *primitive)
        }
        DefinedType::Record(ty) => say_list(out, members, DefinedKind::Record, 100, &ty.fields),
        DefinedType::Variant(ty) => say_list(out, members, DefinedKind::Variant, 100, &ty.cases),
        DefinedType::List(list) => {
            say_kind(out, DefinedKind::List)?;
            say_value(out, own, list.elem_ty)
        }
        DefinedType::Tuple(ty) => say_list(out, members, DefinedKind::Tuple, 100, &ty.fields),
        DefinedType::Flags(ty) => say_list(out, members, DefinedKind::Flags, 32, &ty.fields),
        DefinedType::Enum(ty) => say_list(out, members, DefinedKind::Enum, 100, &ty.variants),
        DefinedType::Option(option) => {
            say_kind(out, DefinedKind::Option)?;
            say_value(out, own, option.inner_ty)
        }
        DefinedType::Result(result) => {
            say_kind(out, DefinedKind::Result)?;
            say_both(out, own, result)
        }
    }
}

fn say_result(
    out: &mut Vec<u8>,
    config: &Config,
    own: &NodeScope<'_>,
    ty: Option<ComponentValType>,
) -> Result<(), Error>
    requires { config.now.max_name_length ≤ 100 }
    ensures { Says result out.old out.new
        (script_members (λ count v. script_val (shown_marked own.now) v) 0 1 (option_to_list ty)) }
{
    let members = &Own { config, scope: own };
    match ty {
        None => say_members(out, members, 0, 1, &[] as &[ComponentValType]),
        Some(ty) => say_members(out, members, 0, 1, &[ty]),
    }
}

/// The parameters of a function type, and its result or none.
pub(crate) fn say_signature(
    out: &mut Vec<u8>,
    config: &Config,
    own: &NodeScope<'_>,
    ty: &FuncType,
) -> Result<(), Error>
    requires { config.now.max_name_length ≤ 100 }
    ensures { Says result out.old out.new (script_signature config.now (shown_marked own.now) ty.now) }
{
    say_members(out, &Own { config, scope: own }, 0, 16, &ty.params)?;
    say_result(out, config, own, ty.result)
}
