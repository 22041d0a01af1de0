//! Types of values and of functions.

ghost use Rattle.std.specs.Prelude.{◌≡◌, None, IfOk, IsSome, option_map};
ghost use Rattle.smith_syntax.specs.Shown.{shown_defined};
ghost use Rattle.smith_edit.specs.Items.{signature_items, value_items};
ghost use Rattle.smith_read.specs.Search.{past, sought};
ghost use Rattle.smith_edit.specs.Simpler.{signature_simplified, simpler_value, value_simplified};

use crate::members::{edit_defined, enum_of, flags_of, record_of, value_items, variant_of};
use crate::simpler::members::simplify_members;
use crate::simpler::search::{Finder, Simplified};
use crate::walk::Walk;
use smith_syntax::{DefinedType, FuncType, PrimitiveValType};

/// `bool`, for a type that is another.
pub(crate) fn simpler_value(ty: &DefinedType) -> Option<DefinedType>
    ensures { option_map shown_defined result ≡ simpler_value (shown_defined ty.now) }
{
    match ty {
        DefinedType::Primitive(PrimitiveValType::Bool) => None,
        _ => Some(DefinedType::Primitive(PrimitiveValType::Bool)),
    }
}

// A type of values whose members have no names; none if what is sought is one of them.
#[tactic(auto, using(crate::proofs::Still::defined_still))]
fn copy_unnamed(finder: &mut Finder, ty: &DefinedType) -> Simplified<DefinedType>
    ensures ty { let shown = shown_defined ty.now in IfOk result (λ r. option_map shown_defined r
        ≡ sought (value_items shown) finder.old.search (λ k. None) shown) }
    ensures moved { finder.new.search ≡ past (value_items (shown_defined ty.now)) finder.old.search }
{
    if finder.search.pass(value_items(ty)).is_some() {
        return Ok(None);
    }
    edit_defined(&mut Walk::still(finder.alloc), ty)
}

/// A type of values, the member that is sought with a new name.
pub(crate) fn simplify_defined(finder: &mut Finder, ty: &DefinedType) -> Simplified<DefinedType>
    ensures ty { let shown = shown_defined ty.now in IfOk result (λ r. option_map shown_defined r
        ≡ sought (value_items shown) finder.old.search (λ k. value_simplified k shown) shown) }
    ensures moved { IfOk result (λ r. IsSome r
        → finder.new.search ≡ past (value_items (shown_defined ty.now)) finder.old.search) }
{
    match ty {
        DefinedType::Record(ty) => Ok(simplify_members(finder, &ty.fields)?.map(record_of)),
        DefinedType::Variant(ty) => Ok(simplify_members(finder, &ty.cases)?.map(variant_of)),
        DefinedType::Flags(ty) => Ok(simplify_members(finder, &ty.fields)?.map(flags_of)),
        DefinedType::Enum(ty) => Ok(simplify_members(finder, &ty.variants)?.map(enum_of)),
        DefinedType::Primitive(_)
        | DefinedType::List(_)
        | DefinedType::Tuple(_)
        | DefinedType::Option(_)
        | DefinedType::Result(_) => copy_unnamed(finder, ty),
    }
}

/// A type of functions, the parameter that is sought with a new name.
pub(crate) fn simplify_signature(finder: &mut Finder, ty: &FuncType) -> Simplified<FuncType>
    ensures ty { IfOk result (λ r. option_map (λ f. f) r
        ≡ sought (signature_items ty.now) finder.old.search (λ k. signature_simplified k ty.now) ty.now) }
    ensures moved { IfOk result (λ r. IsSome r
        → finder.new.search ≡ past (signature_items ty.now) finder.old.search) }
{
    let Some(params) = simplify_members(finder, &ty.params)? else {
        return Ok(None);
    };
    if finder
        .search
        .pass(usize::from(ty.result.is_some()))
        .is_some()
    {
        return Ok(None);
    }
    Ok(Some(FuncType {
        params,
        result: ty.result,
    }))
}
