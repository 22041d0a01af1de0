//! Types of values and of functions.

ghost use Rattle.std.specs.Prelude.{◌≡◌, ◌≤◌, ◌++◌, ℕ, map, IfOk, IsSome, option_map, string_bytes};
ghost use Rattle.smith_syntax.specs.Shown.{shown_defined};
ghost use Rattle.smith_syntax.specs.Entries.{enum_type, flags_type, list_type, option_type, record_type};
ghost use Rattle.smith_syntax.specs.Entries.{result_type, tuple_type, variant_type};
ghost use Rattle.smith_syntax.specs.Signature.{named};
ghost use Rattle.smith_change.specs.Members as members;
ghost use Rattle.smith_change.specs.Rows as rows;
ghost use Rattle.smith_read.specs.Search.{past, sought};

use crate::alternatives::{only, primitive_alternative};
use crate::change::{Change, Changed};
use crate::rows::{Entry, Row, change_row, copied_all};
use crate::values::{change_optional, change_value};
use smith_read::Search;
use smith_syntax::{
    ComponentValType, DefinedType, EnumType, FlagsType, FuncType, ListType, OptionType, RecordType,
    ResultType, TupleType, VariantType,
};
use std::alloc::{AllocError, Global};

const MOST_MEMBERS: usize = 100;

const MOST_FLAGS: usize = 32;

const MOST_PARAMS: usize = 16;

// Copies of the members, and new ones up to so many.
fn filled<T: Entry>(alloc: Global, most: usize, items: &[T]) -> Result<Vec<T>, AllocError>
    ensures { (new : ℕ → T.Shown) → rows.AreNew T.fresh new
        → IfOk result (λ v. map T.shown v.items ≡ rows.filled new most (map T.shown items.now)) }
{
    let mut all = copied_all(alloc, items)?;
    for number in 0..most.saturating_sub(items.len()) {
        let Some(new) = T::fresh(alloc, number)? else {
            return Err(AllocError);
        };
        all.push(new)?;
    }
    Ok(all)
}

// No members, as many as the bound allows, or one more.
fn change_all<T: Entry>(change: Change, bound: usize, items: &[T]) -> Changed<Vec<T>>
    requires { bound ≤ 100 }
    ensures { (new : ℕ → T.Shown) → rows.AreNew T.fresh new → IfOk result (λ r. option_map (λ v. map T.shown v.items) r
        ≡ rows.members_alternative bound new change.alternative (map T.shown items.now)) }
{
    match change.alternative {
        0 => Ok(Some(Vec::new(change.alloc))),
        1 => Ok(Some(filled(change.alloc, bound, items)?)),
        2 => Ok(Some(filled(change.alloc, bound + 1, items)?)),
        _ => Ok(None),
    }
}

/// Copies of the members, of which there may be so many, with the place that is sought changed.
pub(crate) fn change_members<T: Row>(
    change: Change,
    search: &mut Search,
    bound: usize,
    items: &[T],
) -> Changed<Vec<T>>
    requires { bound ≤ 100 }
    ensures entries { let all = map T.shown items.now in (new : ℕ → T.Shown) → rows.AreNew T.fresh new
        → IfOk result (λ r. option_map (λ v. map T.shown v.items) r
        ≡ sought (members.members_places T.places all) search.old
        (λ k. members.members_changed T.places T.changes T.again new bound change.alternative k all) all) }
    ensures moved { IfOk result (λ r. IsSome r
        → search.new ≡ past (members.members_places T.places (map T.shown items.now)) search.old) }
{
    if search.step() {
        return change_all(change, bound, items);
    }
    change_row(change, search, items)
}

fn change_list(change: Change, search: &mut Search, ty: &ListType) -> Option<DefinedType>
    ensures ty { let shown = list_type ty.now.elem_ty in option_map shown_defined result
        ≡ sought (members.defined_places shown) search.old
        (λ k. members.defined_changed change.alternative k shown) shown }
    ensures moved { IsSome result → search.new ≡ past (members.defined_places (list_type ty.now.elem_ty)) search.old }
{
    if search.step() {
        let inner_ty = ty.elem_ty;
        return only(
            change.alternative,
            DefinedType::Option(OptionType { inner_ty }),
        );
    }
    let elem_ty = change_value(change, search, ty.elem_ty);
    elem_ty.map(|elem_ty| DefinedType::List(ListType { elem_ty }))
}

fn change_option(change: Change, search: &mut Search, ty: &OptionType) -> Option<DefinedType>
    ensures ty { let shown = option_type ty.now.inner_ty in option_map shown_defined result
        ≡ sought (members.defined_places shown) search.old
        (λ k. members.defined_changed change.alternative k shown) shown }
    ensures moved { IsSome result
        → search.new ≡ past (members.defined_places (option_type ty.now.inner_ty)) search.old }
{
    if search.step() {
        let elem_ty = ty.inner_ty;
        return only(change.alternative, DefinedType::List(ListType { elem_ty }));
    }
    let inner_ty = change_value(change, search, ty.inner_ty);
    inner_ty.map(|inner_ty| DefinedType::Option(OptionType { inner_ty }))
}

fn record_of(fields: Vec<(String, ComponentValType)>) -> DefinedType
    ensures { shown_defined result ≡ record_type (map named fields.items) }
{
    DefinedType::Record(RecordType { fields })
}

fn variant_of(cases: Vec<(String, Option<ComponentValType>)>) -> DefinedType
    ensures { shown_defined result ≡ variant_type (map named cases.items) }
{
    DefinedType::Variant(VariantType { cases })
}

fn tuple_of(fields: Vec<ComponentValType>) -> DefinedType
    ensures { shown_defined result ≡ tuple_type fields.items }
{
    DefinedType::Tuple(TupleType { fields })
}

fn flags_of(fields: Vec<String>) -> DefinedType
    ensures { shown_defined result ≡ flags_type (map string_bytes fields.items) }
{
    DefinedType::Flags(FlagsType { fields })
}

fn enum_of(variants: Vec<String>) -> DefinedType
    ensures { shown_defined result ≡ enum_type (map string_bytes variants.items) }
{
    DefinedType::Enum(EnumType { variants })
}

fn change_flags(change: Change, search: &mut Search, labels: &[String]) -> Changed<DefinedType>
    ensures ty { let shown = flags_type (map string_bytes labels.now) in IfOk result (λ r. option_map shown_defined r
        ≡ sought (members.defined_places shown) search.old
        (λ k. members.defined_changed change.alternative k shown) shown) }
    ensures moved { IfOk result (λ r. IsSome r
        → search.new ≡ past (members.defined_places (flags_type (map string_bytes labels.now))) search.old) }
{
    if search.step() {
        let labels = copied_all(change.alloc, labels)?;
        return Ok(only(change.alternative, enum_of(labels)));
    }
    Ok(change_members(change, search, MOST_FLAGS, labels)?.map(flags_of))
}

fn change_enum(change: Change, search: &mut Search, labels: &[String]) -> Changed<DefinedType>
    ensures ty { let shown = enum_type (map string_bytes labels.now) in IfOk result (λ r. option_map shown_defined r
        ≡ sought (members.defined_places shown) search.old
        (λ k. members.defined_changed change.alternative k shown) shown) }
    ensures moved { IfOk result (λ r. IsSome r
        → search.new ≡ past (members.defined_places (enum_type (map string_bytes labels.now))) search.old) }
{
    if search.step() {
        let labels = copied_all(change.alloc, labels)?;
        return Ok(only(change.alternative, flags_of(labels)));
    }
    Ok(change_members(change, search, MOST_MEMBERS, labels)?.map(enum_of))
}

fn change_result(change: Change, search: &mut Search, ty: &ResultType) -> Option<DefinedType>
    ensures ty { let shown = result_type ty.now.ok_ty ty.now.err_ty in option_map shown_defined result
        ≡ sought (members.defined_places shown) search.old
        (λ k. members.defined_changed change.alternative k shown) shown }
    ensures moved { IsSome result
        → search.new ≡ past (members.defined_places (result_type ty.now.ok_ty ty.now.err_ty)) search.old }
{
    let ok_ty = change_optional(change, search, ty.ok_ty);
    let err_ty = change_optional(change, search, ty.err_ty);
    let (ok_ty, err_ty) = ok_ty.zip(err_ty)?;
    Some(DefinedType::Result(ResultType { ok_ty, err_ty }))
}

/// A type of values.
pub(crate) fn change_defined(
    change: Change,
    search: &mut Search,
    ty: &DefinedType,
) -> Changed<DefinedType>
    ensures ty { let shown = shown_defined ty.now in IfOk result (λ r. option_map shown_defined r
        ≡ sought (members.defined_places shown) search.old
        (λ k. members.defined_changed change.alternative k shown) shown) }
    ensures moved { IfOk result (λ r. IsSome r
        → search.new ≡ past (members.defined_places (shown_defined ty.now)) search.old) }
{
    match ty {
        DefinedType::Primitive(ty) => {
            let ty = search.value_or(*ty, primitive_alternative(change.alternative));
            Ok(ty.map(DefinedType::Primitive))
        }
        DefinedType::Record(ty) => {
            let fields = change_members(change, search, MOST_MEMBERS, &ty.fields)?;
            Ok(fields.map(record_of))
        }
        DefinedType::Variant(ty) => {
            let cases = change_members(change, search, MOST_MEMBERS, &ty.cases)?;
            Ok(cases.map(variant_of))
        }
        DefinedType::Tuple(ty) => {
            let fields = change_members(change, search, MOST_MEMBERS, &ty.fields)?;
            Ok(fields.map(tuple_of))
        }
        DefinedType::List(ty) => Ok(change_list(change, search, ty)),
        DefinedType::Flags(ty) => change_flags(change, search, &ty.fields),
        DefinedType::Enum(ty) => change_enum(change, search, &ty.variants),
        DefinedType::Option(ty) => Ok(change_option(change, search, ty)),
        DefinedType::Result(ty) => Ok(change_result(change, search, ty)),
    }
}

/// A type of functions.
pub(crate) fn change_signature(
    change: Change,
    search: &mut Search,
    ty: &FuncType,
) -> Changed<FuncType>
    ensures ty { IfOk result (λ r. option_map (λ f. f) r ≡ sought (members.signature_places ty.now) search.old
        (λ k. members.signature_changed change.alternative k ty.now) ty.now) }
    ensures moved { IfOk result (λ r. IsSome r → search.new ≡ past (members.signature_places ty.now) search.old) }
{
    let params = change_members(change, search, MOST_PARAMS, &ty.params)?;
    let result = change_optional(change, search, ty.result);
    match params.zip(result) {
        Some((params, result)) => Ok(Some(FuncType { params, result })),
        None => Ok(None),
    }
}
