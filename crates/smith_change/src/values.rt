//! Names and value types, and members made of them.

ghost use Rattle.std.specs.Prelude.{◌≡◌, ℕ, List, Option, Some, map, IfOk, IsSome, option_map, string_bytes};
ghost use Rattle.smith_syntax.specs.Entries.{Case, Field};
ghost use Rattle.smith_syntax.specs.Signature.{named};
ghost use Rattle.smith_syntax.specs.declared.types.ComponentValType.{ComponentValType};
ghost use Rattle.smith_change.specs.Alternatives as table;
ghost use Rattle.smith_change.specs.Members as members;
ghost use Rattle.smith_change.specs.Rows as rows;
ghost use Rattle.smith_read.specs.Search.{past, sought};

use crate::alternatives::{name_alternative, presence_alternative, value_alternative};
use crate::change::{Change, Changed};
use crate::rows::{Entry, Row, again_name};
use smith_read::Search;
use smith_syntax::{ComponentValType, PrimitiveValType};
use std::alloc::{AllocError, Global};

pub(crate) fn change_name(change: Change, search: &mut Search, name: &str) -> Changed<String>
    ensures name { IfOk result (λ r. option_map string_bytes r ≡ sought 1 search.old
        (λ k. table.name_alternative change.alternative name.now) name.now) }
    ensures moved { search.new ≡ past 1 search.old }
{
    if search.step() {
        return name_alternative(change.alloc, change.alternative, name);
    }
    Ok(Some(String::from_str(change.alloc, name)?))
}

pub(crate) fn change_value(
    change: Change,
    search: &mut Search,
    ty: ComponentValType,
) -> Option<ComponentValType>
    ensures value { result ≡ sought 1 search.old (λ k. table.value_alternative change.alternative ty) ty }
    ensures moved { search.new ≡ past 1 search.old }
{
    if search.step() {
        return value_alternative(change.alternative, ty);
    }
    Some(ty)
}

#[tactic(auto, using(crate::proofs::Seeking::seeking))]
pub(crate) fn change_optional(
    change: Change,
    search: &mut Search,
    ty: Option<ComponentValType>,
) -> Option<Option<ComponentValType>>
    ensures value { result ≡ sought (members.optional_places ty) search.old
        (λ k. members.optional_changed change.alternative k ty) ty }
    ensures moved { IsSome result → search.new ≡ past (members.optional_places ty) search.old }
{
    if search.step() {
        return presence_alternative(change.alternative, ty);
    }
    match ty {
        None => Some(None),
        Some(ty) => change_value(change, search, ty).map(Some),
    }
}

// The new name of that number.
fn new_name(alloc: Global, number: usize) -> Result<String, AllocError>
    ensures { IfOk result (λ n. string_bytes n ≡ rows.new_name number) }
{
    format!(in alloc; "x{number}")
}

const U32: ComponentValType = ComponentValType::Primitive(PrimitiveValType::U32);

impl Entry for ComponentValType {
    ghost Shown = { ComponentValType };

    ghost shown = { λ x. x };

    ghost places = { members.value_places };

    ghost changes = { members.value_changed };

    ghost again = { rows.unnamed };

    ghost fresh = { λ n. Some (members.new_value n) };

    fn copied(&self, _alloc: Global) -> Result<ComponentValType, AllocError> {
        Ok(*self)
    }

    fn renamed(&self, _alloc: Global) -> Changed<ComponentValType> {
        Ok(None)
    }

    fn fresh(_alloc: Global, _number: usize) -> Changed<ComponentValType> {
        Ok(Some(U32))
    }
}

impl Row for ComponentValType {
    fn changed(&self, change: Change, search: &mut Search) -> Changed<ComponentValType> {
        Ok(change_value(change, search, *self))
    }
}

impl Entry for String {
    ghost Shown = { List ℕ };

    ghost shown = { string_bytes };

    ghost places = { members.label_places };

    ghost changes = { members.label_changed };

    ghost again = { members.label_again };

    ghost fresh = { λ n. Some (rows.new_name n) };

    fn copied(&self, alloc: Global) -> Result<String, AllocError> {
        String::from_str(alloc, self.as_str())
    }

    fn renamed(&self, alloc: Global) -> Changed<String> {
        Ok(Some(again_name(alloc)?))
    }

    fn fresh(alloc: Global, number: usize) -> Changed<String> {
        Ok(Some(new_name(alloc, number)?))
    }
}

impl Row for String {
    fn changed(&self, change: Change, search: &mut Search) -> Changed<String> {
        change_name(change, search, self.as_str())
    }
}

impl Entry for (String, ComponentValType) {
    ghost Shown = { Field };

    ghost shown = { named };

    ghost places = { members.field_places };

    ghost changes = { members.field_changed };

    ghost again = { members.field_again };

    ghost fresh = { λ n. Some (members.new_field n) };

    fn copied(&self, alloc: Global) -> Result<(String, ComponentValType), AllocError> {
        Ok((String::from_str(alloc, self.0.as_str())?, self.1))
    }

    fn renamed(&self, alloc: Global) -> Changed<(String, ComponentValType)> {
        Ok(Some((again_name(alloc)?, self.1)))
    }

    fn fresh(alloc: Global, number: usize) -> Changed<(String, ComponentValType)> {
        Ok(Some((new_name(alloc, number)?, U32)))
    }
}

impl Row for (String, ComponentValType) {
    fn changed(&self, change: Change, search: &mut Search) -> Changed<(String, ComponentValType)> {
        let name = change_name(change, search, self.0.as_str())?;
        Ok(name.zip(change_value(change, search, self.1)))
    }
}

impl Entry for (String, Option<ComponentValType>) {
    ghost Shown = { Case };

    ghost shown = { named };

    ghost places = { members.case_places };

    ghost changes = { members.case_changed };

    ghost again = { members.case_again };

    ghost fresh = { λ n. Some (members.new_case n) };

    fn copied(&self, alloc: Global) -> Result<(String, Option<ComponentValType>), AllocError> {
        Ok((String::from_str(alloc, self.0.as_str())?, self.1))
    }

    fn renamed(&self, alloc: Global) -> Changed<(String, Option<ComponentValType>)> {
        Ok(Some((again_name(alloc)?, self.1)))
    }

    fn fresh(alloc: Global, number: usize) -> Changed<(String, Option<ComponentValType>)> {
        Ok(Some((new_name(alloc, number)?, Some(U32))))
    }
}

impl Row for (String, Option<ComponentValType>) {
    fn changed(
        &self,
        change: Change,
        search: &mut Search,
    ) -> Changed<(String, Option<ComponentValType>)> {
        let name = change_name(change, search, self.0.as_str())?;
        Ok(name.zip(change_optional(change, search, self.1)))
    }
}
