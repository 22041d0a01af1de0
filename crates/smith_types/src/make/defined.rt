//! Defined types from the input.

ghost use Rattle.std.specs.Prelude.{◌≡◌, ◌-◌, ℕ, List, map, string_bytes, IfOk};
ghost use Rattle.smith_input.specs.Consumes.{Consumes};
ghost use Rattle.smith_input.specs.Reading.{IsTail};
ghost use Rattle.smith_syntax.specs.Entries.{primitive_type, record_type, variant_type, tuple_type, flags_type};
ghost use Rattle.smith_syntax.specs.Entries.{enum_type};
ghost use Rattle.smith_types.specs.Made.{MadeAs, MadeDefined, ReadsMaybe, or_bool};
ghost use Rattle.smith_scopes.specs.Scopes.{own_marked};
ghost use Rattle.smith_syntax.specs.Shown.{shown_defined};
ghost use Rattle.smith_syntax.specs.Signature.{named};
ghost use Rattle.smith_syntax.specs.declared.types.PrimitiveValType.TheVariants as prim;

use super::making::Making;
use super::members::read_members;
use super::values::{read_maybe_value_type, read_primitive, read_value_type};
use smith_input::{Error, Unstructured};
use smith_scopes::Scopes;
use smith_syntax::{
    ComponentValType, DefinedType, EnumType, FlagsType, ListType, OptionType, PrimitiveValType,
    RecordType, ResultType, TupleType, VariantType,
};
use smith_tree::{DefinedKind, defined_kinds};

// What a type that would have no member becomes.
fn bool_type() -> DefinedType
    ensures { shown_defined result ≡ primitive_type prim.Bool }
{
    DefinedType::Primitive(PrimitiveValType::Bool)
}

// A record, or bool if it has no field.
fn record_type(members: Vec<(String, ComponentValType)>) -> DefinedType
    ensures { shown_defined result ≡ or_bool record_type (map named members.items) }
{
    if members.is_empty() {
        return bool_type();
    }
    DefinedType::Record(RecordType { fields: members })
}

// A variant, or bool if it has no case.
fn variant_type(members: Vec<(String, Option<ComponentValType>)>) -> DefinedType
    ensures { shown_defined result ≡ or_bool variant_type (map named members.items) }
{
    if members.is_empty() {
        return bool_type();
    }
    DefinedType::Variant(VariantType { cases: members })
}

// A tuple, or bool if it has no member.
fn tuple_type(members: Vec<ComponentValType>) -> DefinedType
    ensures { shown_defined result ≡ or_bool tuple_type members.items }
{
    if members.is_empty() {
        return bool_type();
    }
    DefinedType::Tuple(TupleType { fields: members })
}

// Flags, or bool if there is none.
fn flags_type(members: Vec<String>) -> DefinedType
    ensures { shown_defined result ≡ or_bool flags_type (map string_bytes members.items) }
{
    if members.is_empty() {
        return bool_type();
    }
    DefinedType::Flags(FlagsType { fields: members })
}

// An enum, or bool if it has no label.
fn enum_type(members: Vec<String>) -> DefinedType
    ensures { shown_defined result ≡ or_bool enum_type (map string_bytes members.items) }
{
    if members.is_empty() {
        return bool_type();
    }
    DefinedType::Enum(EnumType { variants: members })
}

// A result, whose two types are read one after the other.
fn read_result_type(u: &mut Unstructured, scopes: &Scopes) -> ResultType
    ensures reads { (mid : List ℕ) × ReadsMaybe (own_marked scopes.now) u.old result.ok_ty mid
        × ReadsMaybe (own_marked scopes.now) mid result.err_ty u.new }
    ensures tail { IsTail u.new u.old }
{
    let ok_ty = read_maybe_value_type(u, scopes);
    let err_ty = read_maybe_value_type(u, scopes);
    ResultType { ok_ty, err_ty }
}

// A defined type of one kind.
fn read_defined_of(
    making: &Making,
    u: &mut Unstructured,
    scopes: &Scopes,
    fuel: &mut u32,
    kind: DefinedKind,
) -> Result<DefinedType, Error>
    ensures made { IfOk result (λ t.
        MadeAs making.now.config.now (own_marked scopes.now) kind u.old fuel.old (shown_defined t) u.new fuel.new) }
    ensures input { Consumes result u.old u.new }
{
    match kind {
        DefinedKind::Primitive => Ok(DefinedType::Primitive(read_primitive(u))),
        DefinedKind::Record => Ok(record_type(read_members(making, u, scopes, fuel, (1, 100))?)),
        DefinedKind::Variant => Ok(variant_type(read_members(making, u, scopes, fuel, (1, 100))?)),
        DefinedKind::List => Ok(DefinedType::List(ListType {
            elem_ty: read_value_type(u, scopes),
        })),
        DefinedKind::Tuple => Ok(tuple_type(read_members(making, u, scopes, fuel, (1, 100))?)),
        DefinedKind::Flags => Ok(flags_type(read_members(making, u, scopes, fuel, (1, 32))?)),
        DefinedKind::Enum => Ok(enum_type(read_members(making, u, scopes, fuel, (1, 100))?)),
        DefinedKind::Option => Ok(DefinedType::Option(OptionType {
            inner_ty: read_value_type(u, scopes),
        })),
        DefinedKind::Result => Ok(DefinedType::Result(read_result_type(u, scopes))),
    }
}

// A defined type: a choice of nine kinds, and a type of that kind.
pub(super) fn read_defined_type(
    making: &Making,
    u: &mut Unstructured,
    scopes: &Scopes,
    fuel: &mut u32,
) -> Result<DefinedType, Error>
    ensures made { IfOk result (λ t.
        MadeDefined making.now.config.now (own_marked scopes.now) u.old fuel.old (shown_defined t) u.new fuel.new) }
    ensures input { Consumes result u.old u.new }
{
    let kind = *u.choose(defined_kinds());
    read_defined_of(making, u, scopes, fuel, kind)
}
