//! The alternatives of tokens, by their numbers.

ghost use Rattle.std.specs.Prelude.{◌≡◌, ◌++◌, Some, map, IfOk, option_map, string_bytes};
ghost use Rattle.smith_syntax.specs.Entries.{primitive_type};
ghost use Rattle.smith_change.specs.Alternatives as table;

use crate::change::Changed;
use smith_format::{MemoryType, RefType, TableType, ValType};
use smith_syntax::{ComponentTypeRef, ComponentValType, DefinedType, PrimitiveValType};
use std::alloc::{AllocError, Global};

/// The only alternative of a token.
pub(crate) fn only<T: Drop>(alternative: usize, token: T) -> Option<T>
    ensures { result ≡ table.only alternative token }
{
    if alternative == 0 {
        return Some(token);
    }
    None
}

// At most that.
fn one_more(most: u64, number: u64) -> Option<u64>
    ensures { result ≡ table.one_more most number }
{
    if number < most {
        return Some(number + 1);
    }
    None
}

fn one_less(number: u64) -> Option<u64>
    ensures { result ≡ table.one_less number }
{
    if number == 0 {
        return None;
    }
    Some(number - 1)
}

fn index_before(index: u32) -> Option<u32>
    ensures { result ≡ table.one_less index }
{
    if index == 0 {
        return None;
    }
    Some(index - 1)
}

fn index_after(index: u32) -> Option<u32>
    ensures { result ≡ table.one_more table.most_index index }
{
    if index < u32::MAX {
        return Some(index + 1);
    }
    None
}

pub(crate) fn index_alternative(alternative: usize, index: u32) -> Option<u32>
    ensures { result ≡ table.index_alternative alternative index }
{
    match alternative {
        0 => index_before(index),
        1 => index_after(index),
        2 => Some(u32::MAX),
        3 => Some(0),
        _ => None,
    }
}

// An index in place of a value type.
fn indexed_alternative(alternative: usize, ty: ComponentValType) -> Option<u32>
    ensures { result ≡ table.indexed_alternative alternative ty }
{
    match ty {
        ComponentValType::Indexed(index) => index_alternative(alternative, index),
        ComponentValType::Primitive(_) => match alternative {
            2 => Some(u32::MAX),
            3 => Some(0),
            _ => None,
        },
    }
}

pub(crate) fn value_alternative(
    alternative: usize,
    ty: ComponentValType,
) -> Option<ComponentValType>
    ensures { result ≡ table.value_alternative alternative ty }
{
    match alternative {
        4 => Some(ComponentValType::Primitive(PrimitiveValType::String)),
        5 => Some(ComponentValType::Primitive(PrimitiveValType::U64)),
        _ => indexed_alternative(alternative, ty).map(ComponentValType::Indexed),
    }
}

fn other_presence(ty: Option<ComponentValType>) -> Option<ComponentValType>
    ensures { result ≡ table.other_presence ty }
{
    match ty {
        None => Some(ComponentValType::Primitive(PrimitiveValType::U32)),
        Some(_) => None,
    }
}

pub(crate) fn presence_alternative(
    alternative: usize,
    ty: Option<ComponentValType>,
) -> Option<Option<ComponentValType>>
    ensures { result ≡ table.presence_alternative alternative ty }
{
    only(alternative, other_presence(ty))
}

pub(crate) fn primitive_alternative(alternative: usize) -> Option<PrimitiveValType>
    ensures { option_map primitive_type result ≡ table.primitive_alternative alternative }
{
    match alternative {
        0 => Some(PrimitiveValType::String),
        1 => Some(PrimitiveValType::U32),
        _ => None,
    }
}

fn joined(alloc: Global, first: &str, second: &str) -> Changed<String>
    ensures { IfOk result (λ r. option_map string_bytes r ≡ Some (first.now ++ second.now)) }
{
    let mut name = String::from_str(alloc, first)?;
    name.push_str(second)?;
    Ok(Some(name))
}

pub(crate) fn name_alternative(alloc: Global, alternative: usize, name: &str) -> Changed<String>
    ensures { IfOk result (λ r. option_map string_bytes r ≡ table.name_alternative alternative name.now) }
{
    match alternative {
        0 => Ok(Some(String::new(alloc))),
        1 => joined(alloc, name, "-"),
        2 => joined(alloc, name, "--a"),
        3 => joined(alloc, name, "_"),
        4 => joined(alloc, "1", name),
        5 => joined(alloc, name, "-b1"),
        _ => Ok(None),
    }
}

pub(crate) fn ref_index(to: ComponentTypeRef) -> u32
    ensures { result ≡ table.ref_index to }
{
    match to {
        ComponentTypeRef::Module(index)
        | ComponentTypeRef::Func(index)
        | ComponentTypeRef::TypeEq(index)
        | ComponentTypeRef::Component(index)
        | ComponentTypeRef::Instance(index) => index,
    }
}

pub(crate) fn with_index(to: ComponentTypeRef, index: u32) -> ComponentTypeRef
    ensures { result ≡ table.with_index to index }
{
    match to {
        ComponentTypeRef::Module(_) => ComponentTypeRef::Module(index),
        ComponentTypeRef::Func(_) => ComponentTypeRef::Func(index),
        ComponentTypeRef::TypeEq(_) => ComponentTypeRef::TypeEq(index),
        ComponentTypeRef::Component(_) => ComponentTypeRef::Component(index),
        ComponentTypeRef::Instance(_) => ComponentTypeRef::Instance(index),
    }
}

pub(crate) fn sort_alternative(alternative: usize, to: ComponentTypeRef) -> Option<ComponentTypeRef>
    ensures { result ≡ table.sort_alternative alternative to }
{
    let index = ref_index(to);
    match alternative {
        0 => Some(ComponentTypeRef::Module(index)),
        1 => Some(ComponentTypeRef::Func(index)),
        2 => Some(ComponentTypeRef::TypeEq(index)),
        3 => Some(ComponentTypeRef::Component(index)),
        4 => Some(ComponentTypeRef::Instance(index)),
        _ => None,
    }
}

fn other_value(ty: ValType) -> ValType
    ensures { result ≡ table.other_value ty }
{
    match ty {
        ValType::I32 => ValType::I64,
        _ => ValType::I32,
    }
}

pub(crate) fn core_value_alternative(alternative: usize, ty: ValType) -> Option<ValType>
    ensures { result ≡ table.core_value_alternative alternative ty }
{
    only(alternative, other_value(ty))
}

fn other_element(ty: RefType) -> RefType
    ensures { result ≡ table.other_element ty }
{
    match ty {
        RefType::FuncRef => RefType::ExternRef,
        _ => RefType::FuncRef,
    }
}

pub(crate) fn element_alternative(alternative: usize, ty: TableType) -> Option<TableType>
    ensures { result ≡ table.element_alternative alternative ty }
{
    let element_type = other_element(ty.element_type);
    only(alternative, TableType { element_type, ..ty })
}

fn above(maximum: Option<u64>) -> Option<u64>
    ensures { result ≡ table.above maximum }
{
    one_more(u64::MAX, maximum?)
}

fn below(minimum: u64, maximum: Option<u64>) -> Option<u64>
    ensures { result ≡ table.below minimum maximum }
{
    let _maximum = maximum?;
    one_less(minimum)
}

fn other_maximum(minimum: u64, maximum: Option<u64>) -> Option<u64>
    ensures { result ≡ table.other_maximum minimum maximum }
{
    match maximum {
        None => Some(minimum),
        Some(_) => None,
    }
}

// A minimum and a maximum, one of them changed; `past` is past all that 32 bits allow.
fn bounds_alternative(
    past: u64,
    alternative: usize,
    minimum: u64,
    maximum: Option<u64>,
) -> Option<(u64, Option<u64>)>
    ensures { result ≡ table.bounds_alternative past alternative minimum maximum }
{
    match alternative {
        0 => Some((above(maximum)?, maximum)),
        1 => Some((minimum, Some(below(minimum, maximum)?))),
        2 => Some((minimum, other_maximum(minimum, maximum))),
        3 => Some((past, maximum)),
        4 => Some((minimum, Some(past))),
        _ => None,
    }
}

fn memory_bounds(alternative: usize, ty: MemoryType) -> Option<MemoryType>
    ensures { result ≡ option_map (λ b. record ty { minimum = b.0; maximum = b.1 })
        (table.bounds_alternative 65537 alternative ty.minimum ty.maximum) }
{
    let (minimum, maximum) = bounds_alternative(65_537, alternative, ty.minimum, ty.maximum)?;
    Some(MemoryType {
        minimum,
        maximum,
        ..ty
    })
}

pub(crate) fn memory_alternative(alternative: usize, ty: MemoryType) -> Option<MemoryType>
    ensures { result ≡ table.memory_alternative alternative ty }
{
    match alternative {
        5 => Some(MemoryType {
            shared: !ty.shared,
            ..ty
        }),
        6 => Some(MemoryType {
            memory64: !ty.memory64,
            ..ty
        }),
        _ => memory_bounds(alternative, ty),
    }
}

fn table_bounds(alternative: usize, ty: TableType) -> Option<TableType>
    ensures { result ≡ option_map (λ b. record ty { minimum = b.0; maximum = b.1 })
        (table.bounds_alternative 4294967296 alternative ty.minimum ty.maximum) }
{
    let past = 4_294_967_296;
    let (minimum, maximum) = bounds_alternative(past, alternative, ty.minimum, ty.maximum)?;
    Some(TableType {
        minimum,
        maximum,
        ..ty
    })
}

pub(crate) fn table_alternative(alternative: usize, ty: TableType) -> Option<TableType>
    ensures { result ≡ table.table_alternative alternative ty }
{
    match alternative {
        6 => Some(TableType {
            table64: !ty.table64,
            ..ty
        }),
        _ => table_bounds(alternative, ty),
    }
}
