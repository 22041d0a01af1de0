//! Types of values and of functions, and their members.

ghost use Rattle.std.specs.Prelude.{◌≡◌, ℕ, List, Option, Some, None, length, map, string_bytes, IfOk, OnOk};
ghost use Rattle.std.specs.Prelude.{option_map, option_to_list};
ghost use Rattle.smith_format.specs.declared.types.ValType.{ValType};
ghost use Rattle.smith_syntax.specs.Entries.{Case, Field, enum_type, flags_type, record_type, tuple_type, variant_type};
ghost use Rattle.smith_syntax.specs.Shown.{shown_defined};
ghost use Rattle.smith_syntax.specs.Signature.{named};
ghost use Rattle.smith_syntax.specs.declared.types.ComponentValType.{ComponentValType};
ghost use Rattle.smith_edit.specs.Edited.{case_edited, defined_edited, field_edited, left_of, members, optional_edited};
ghost use Rattle.smith_edit.specs.Edited.{signature_edited, value_edited};
ghost use Rattle.smith_edit.specs.Items.{signature_items, value_items};
ghost use Rattle.smith_edit.specs.Renumbering.{Renumbering as PlainRenumbering};
ghost use Rattle.smith_edit.specs.Walk.{shown_walk, skipped};

use crate::renumbering::Renumbering;
use crate::walk::Walk;
use smith_format::ValType;
use smith_syntax::{
    ComponentValType, DefinedType, EnumType, FlagsType, FuncType, ListType, OptionType, RecordType,
    ResultType, TupleType, VariantType,
};
use std::alloc::{AllocError, Global};

/// What is a member of a type.
pub(crate) trait Member: Drop {
    ghost Shown: { Type 0 };

    ghost shown: { Self → Shown };

    ghost edits: { PlainRenumbering → Shown → Option Shown };

    /// The member with new indexes; none if it refers to what is removed.
    fn edited(&self, alloc: Global, types: &Renumbering) -> Result<Option<Self>, AllocError>
        ensures { IfOk result (λ r. option_map shown r ≡ edits types.now (shown self.now)) };
}

fn edit_value(types: &Renumbering, ty: ComponentValType) -> Option<ComponentValType>
    ensures { result ≡ value_edited types.now ty }
{
    match ty {
        ComponentValType::Primitive(_) => Some(ty),
        ComponentValType::Indexed(index) => types.new_index(index).map(ComponentValType::Indexed),
    }
}

impl Member for ValType {
    ghost Shown = { ValType };

    ghost shown = { λ x. x };

    ghost edits = { λ s x. Some x };

    fn edited(&self, _alloc: Global, _types: &Renumbering) -> Result<Option<ValType>, AllocError> {
        Ok(Some(*self))
    }
}

impl Member for ComponentValType {
    ghost Shown = { ComponentValType };

    ghost shown = { λ x. x };

    ghost edits = { value_edited };

    fn edited(
        &self,
        _alloc: Global,
        types: &Renumbering,
    ) -> Result<Option<ComponentValType>, AllocError> {
        Ok(edit_value(types, *self))
    }
}

impl Member for String {
    ghost Shown = { List ℕ };

    ghost shown = { string_bytes };

    ghost edits = { λ s x. Some x };

    fn edited(&self, alloc: Global, _types: &Renumbering) -> Result<Option<String>, AllocError> {
        Ok(Some(String::from_str(alloc, self.as_str())?))
    }
}

impl Member for (String, ComponentValType) {
    ghost Shown = { Field };

    ghost shown = { named };

    ghost edits = { field_edited };

    fn edited(
        &self,
        alloc: Global,
        types: &Renumbering,
    ) -> Result<Option<(String, ComponentValType)>, AllocError> {
        match edit_value(types, self.1) {
            Some(ty) => Ok(Some((String::from_str(alloc, self.0.as_str())?, ty))),
            None => Ok(None),
        }
    }
}

impl Member for (String, Option<ComponentValType>) {
    ghost Shown = { Case };

    ghost shown = { named };

    ghost edits = { case_edited };

    fn edited(
        &self,
        alloc: Global,
        types: &Renumbering,
    ) -> Result<Option<(String, Option<ComponentValType>)>, AllocError> {
        let Some(ty) = self.1 else {
            return Ok(Some((String::from_str(alloc, self.0.as_str())?, None)));
        };
        match edit_value(types, ty) {
            Some(ty) => Ok(Some((String::from_str(alloc, self.0.as_str())?, Some(ty)))),
            None => Ok(None),
        }
    }
}

/// How many members a type of values has.
pub(crate) fn value_items(ty: &DefinedType) -> usize
    ensures { result ≡ value_items (shown_defined ty.now) }
{
    match ty {
        DefinedType::Record(ty) => ty.fields.len(),
        DefinedType::Variant(ty) => ty.cases.len(),
        DefinedType::Tuple(ty) => ty.fields.len(),
        DefinedType::Flags(ty) => ty.fields.len(),
        DefinedType::Enum(ty) => ty.variants.len(),
        DefinedType::Result(ty) => {
            usize::from(ty.ok_ty.is_some()) + usize::from(ty.err_ty.is_some())
        }
        DefinedType::Primitive(_) | DefinedType::List(_) | DefinedType::Option(_) => 0,
    }
}

/// How many parameters and results a type of functions has.
pub(crate) fn signature_items(ty: &FuncType) -> usize
    ensures { result ≡ signature_items ty.now }
{
    ty.params.len() + usize::from(ty.result.is_some())
}

/// The members that are left.
pub(crate) fn edit_members<T: Member>(walk: &mut Walk, items: &[T]) -> Result<Vec<T>, AllocError>
    ensures left { IfOk result (λ v. map T.shown v.items
        ≡ members (T.edits walk.old.scopes.own.types) walk.old.removal (map T.shown items.now)) }
    ensures walk { OnOk result (shown_walk walk.new ≡ skipped (length items.now) (shown_walk walk.old)) }
{
    let mut left = Vec::new(walk.alloc);
    for item in items {
        if !walk.step() {
            if let Some(item) = item.edited(walk.alloc, &walk.scopes.own.types)? {
                left.push(item)?;
            }
        }
    }
    Ok(left)
}

// The members that are left of a compound type; none if it had some and none is left.
fn edit_compound<T: Member>(walk: &mut Walk, items: &[T]) -> Result<Option<Vec<T>>, AllocError>
    ensures left { IfOk result (λ r. option_map (λ v. map T.shown v.items) r ≡ left_of (map T.shown items.now)
        (members (T.edits walk.old.scopes.own.types) walk.old.removal (map T.shown items.now))) }
    ensures walk { OnOk result (shown_walk walk.new ≡ skipped (length items.now) (shown_walk walk.old)) }
{
    let left = edit_members(walk, items)?;
    if left.is_empty() && !items.is_empty() {
        return Ok(None);
    }
    Ok(Some(left))
}

// A member that need not be there.
fn edit_optional(walk: &mut Walk, ty: Option<ComponentValType>) -> Option<ComponentValType>
    ensures left { result ≡ optional_edited walk.old.scopes.own.types walk.old.removal ty }
    ensures walk { shown_walk walk.new ≡ skipped (length (option_to_list ty)) (shown_walk walk.old) }
{
    let ty = ty?;
    if walk.step() {
        return None;
    }
    edit_value(&walk.scopes.own.types, ty)
}

pub(crate) fn record_of(fields: Vec<(String, ComponentValType)>) -> DefinedType
    ensures { shown_defined result ≡ record_type (map named fields.items) }
{
    DefinedType::Record(RecordType { fields })
}

pub(crate) fn variant_of(cases: Vec<(String, Option<ComponentValType>)>) -> DefinedType
    ensures { shown_defined result ≡ variant_type (map named cases.items) }
{
    DefinedType::Variant(VariantType { cases })
}

pub(crate) fn tuple_of(fields: Vec<ComponentValType>) -> DefinedType
    ensures { shown_defined result ≡ tuple_type fields.items }
{
    DefinedType::Tuple(TupleType { fields })
}

pub(crate) fn flags_of(fields: Vec<String>) -> DefinedType
    ensures { shown_defined result ≡ flags_type (map string_bytes fields.items) }
{
    DefinedType::Flags(FlagsType { fields })
}

pub(crate) fn enum_of(variants: Vec<String>) -> DefinedType
    ensures { shown_defined result ≡ enum_type (map string_bytes variants.items) }
{
    DefinedType::Enum(EnumType { variants })
}

/// A type of values; none if it refers to what is removed, or has no members left.
pub(crate) fn edit_defined(
    walk: &mut Walk,
    ty: &DefinedType,
) -> Result<Option<DefinedType>, AllocError>
    ensures edited { IfOk result (λ r. option_map shown_defined r
        ≡ defined_edited walk.old.scopes.own.types walk.old.removal (shown_defined ty.now)) }
    ensures walk { OnOk result (shown_walk walk.new
        ≡ skipped (value_items (shown_defined ty.now)) (shown_walk walk.old)) }
{
    match ty {
        DefinedType::Primitive(ty) => Ok(Some(DefinedType::Primitive(*ty))),
        DefinedType::Record(ty) => Ok(edit_compound(walk, &ty.fields)?.map(record_of)),
        DefinedType::Variant(ty) => Ok(edit_compound(walk, &ty.cases)?.map(variant_of)),
        DefinedType::List(ty) => {
            let elem_ty = edit_value(&walk.scopes.own.types, ty.elem_ty);
            Ok(elem_ty.map(|elem_ty| DefinedType::List(ListType { elem_ty })))
        }
        DefinedType::Tuple(ty) => Ok(edit_compound(walk, &ty.fields)?.map(tuple_of)),
        DefinedType::Flags(ty) => Ok(edit_compound(walk, &ty.fields)?.map(flags_of)),
        DefinedType::Enum(ty) => Ok(edit_compound(walk, &ty.variants)?.map(enum_of)),
        DefinedType::Option(ty) => {
            let inner_ty = edit_value(&walk.scopes.own.types, ty.inner_ty);
            Ok(inner_ty.map(|inner_ty| DefinedType::Option(OptionType { inner_ty })))
        }
        DefinedType::Result(ty) => {
            let ok_ty = edit_optional(walk, ty.ok_ty);
            let err_ty = edit_optional(walk, ty.err_ty);
            Ok(Some(DefinedType::Result(ResultType { ok_ty, err_ty })))
        }
    }
}

/// A type of functions.
pub(crate) fn edit_signature(walk: &mut Walk, ty: &FuncType) -> Result<FuncType, AllocError>
    ensures edited { IfOk result (λ f. f ≡ signature_edited walk.old.scopes.own.types walk.old.removal ty.now) }
    ensures walk { OnOk result (shown_walk walk.new ≡ skipped (signature_items ty.now) (shown_walk walk.old)) }
{
    let params = edit_members(walk, &ty.params)?;
    let result = edit_optional(walk, ty.result);
    Ok(FuncType { params, result })
}
