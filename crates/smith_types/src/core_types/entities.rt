//! What a module type imports and exports, from the input.

ghost use Rattle.std.specs.Prelude.{◌≡◌, ℕ, ◌<◌, ◌&&◌, List, [], map, length, nat_lt, MatchOption, IfSome};
ghost use Rattle.smith_format.specs.CoreReading.{ReadsTag};
ghost use Rattle.smith_input.specs.Choices.{ReadsAmong};
ghost use Rattle.smith_input.specs.Reading.{IsTail, Flips};
ghost use Rattle.smith_format.specs.declared.types.ExportKind.TheVariants as kind;
ghost use Rattle.smith_types.specs.MadeCore.{ReadsEntityOf};
ghost use Rattle.smith_tree.specs.CoreTypeOffers.{entity_kinds, indexes};
ghost use Rattle.smith_types.specs.MakingCore.{HasTypeFor, MaybeEntity, shown_funcs, so_far};
ghost use Rattle.smith_syntax.specs.ModuleTypes.{count_of_kind, is_tag_type};
ghost use Rattle.smith_syntax.specs.Places.{places};
ghost use Rattle.smith_syntax.specs.Shown.{shown_decl};

use crate::core_types::declared::{Declared, has_tag_type, tag_type_at, tag_type_count};
use crate::core_types::making::Making;
use smith_format::{
    Config, EntityType, ExportKind, FuncType, GlobalType, TagType, ValType, arbitrary_memtype,
    arbitrary_table_type,
};
use smith_input::{Unstructured, choose_offered};
use smith_tree::kind_offers;
use std::rc::Rc;

// A global type: one of the value types, and a boolean for whether it may change.
fn read_global_type(u: &mut Unstructured, valtypes: &[ValType]) -> GlobalType
    requires { 0 < length valtypes.now }
    ensures reads { (mid : List ℕ) × ReadsAmong valtypes.now u.old result.val_type mid
        × Flips mid result.mutable u.new }
    ensures tail { IsTail u.new u.old }
{
    let val_type = *u.choose(valtypes);
    let mutable = u.arbitrary_bool();
    GlobalType { val_type, mutable }
}

// One of the own types, by its index.
fn read_own_type(u: &mut Unstructured, own: &[Rc<FuncType>]) -> u32
    requires some { 0 < length own.now }
    requires few { length own.now < 1000 }
    ensures reads { ReadsAmong (indexes (shown_funcs own.now)) u.old result u.new }
    ensures tail { IsTail u.new u.old }
{
    u.choose_index(own.len()) as u32
}

// A tag type of one of the own types without results.
fn read_tag_type(u: &mut Unstructured, own: &[Rc<FuncType>]) -> TagType
    requires some { 0 < length (places is_tag_type 0 (shown_funcs own.now)) }
    requires few { length own.now < 1000 }
    ensures reads { ReadsTag (places is_tag_type 0 (shown_funcs own.now)) u.old result u.new }
    ensures tail { IsTail u.new u.old }
{
    let rank = u.choose_index(tag_type_count(own));
    TagType {
        func_type_idx: tag_type_at(own, rank),
    }
}

// Is a tag allowed: is it below the limit, are there tags, and is there a type for one?
fn allows_tag(config: &Config, declared: &Declared) -> bool
    ensures { result ≡ (nat_lt (count_of_kind kind.Tag (map shown_decl declared.now.counted.defs.items))
        config.now.max_tags && config.now.exceptions_enabled
        && nat_lt 0 (length (places is_tag_type 0 (shown_funcs declared.now.own.items)))) }
{
    declared.counted.allows(ExportKind::Tag, config.max_tags)
        && config.exceptions_enabled
        && has_tag_type(&declared.own)
}

// Is a function allowed: is it below the limit, and is there a type?
fn allows_function(config: &Config, declared: &Declared) -> bool
    ensures { result ≡ (nat_lt 0 (length (shown_funcs declared.now.own.items))
        && nat_lt (count_of_kind kind.Func (map shown_decl declared.now.counted.defs.items)) config.now.max_funcs) }
{
    declared.own.len() > 0 && declared.counted.allows(ExportKind::Func, config.max_funcs)
}

// The kind of an entity: each below its limit, a tag if there is a type for it, a function if there is a type.
fn entity_kind(u: &mut Unstructured, config: &Config, declared: &Declared) -> Option<ExportKind>
    ensures reads { MatchOption result
        ((entity_kinds config.now (so_far declared.now 0) ≡ []) × (u.new ≡ u.old))
        (λ k. ReadsAmong (entity_kinds config.now (so_far declared.now 0)) u.old k u.new) }
    ensures possible { IfSome result (HasTypeFor (shown_funcs declared.now.own.items)) }
{
    let with_global = declared
        .counted
        .allows(ExportKind::Global, config.max_globals);
    let with_table = declared
        .counted
        .allows(ExportKind::Table, config.max_tables);
    let with_memory = declared
        .counted
        .allows(ExportKind::Memory, config.max_memories);
    let with_tag = allows_tag(config, declared);
    let with_func = allows_function(config, declared);
    let offers = kind_offers(with_global, with_table, with_memory, with_tag, with_func);
    choose_offered(u, &offers)
}

// An entity of a kind.
fn read_entity_of(
    making: &Making,
    u: &mut Unstructured,
    declared: &Declared,
    kind: ExportKind,
) -> EntityType
    requires few { length declared.now.own.items < 1000 }
    requires possible { HasTypeFor (shown_funcs declared.now.own.items) kind }
    ensures reads { (fuel : ℕ)
        → ReadsEntityOf making.now.config.now (so_far declared.now fuel) kind u.old result u.new }
    ensures tail { IsTail u.new u.old }
{
    match kind {
        ExportKind::Global => EntityType::Global(read_global_type(u, making.valtypes)),
        ExportKind::Table => EntityType::Table(arbitrary_table_type(u, making.config)),
        ExportKind::Memory => EntityType::Memory(arbitrary_memtype(u, making.config)),
        ExportKind::Tag => EntityType::Tag(read_tag_type(u, &declared.own)),
        ExportKind::Func => EntityType::Func(read_own_type(u, &declared.own)),
    }
}

// An entity, or none if nothing can be imported or exported.
pub(crate) fn read_entity(
    making: &Making,
    u: &mut Unstructured,
    declared: &Declared,
) -> Option<EntityType>
    requires few { length declared.now.own.items < 1000 }
    ensures reads { (fuel : ℕ) → MaybeEntity making.now.config.now (so_far declared.now fuel) u.old result u.new }
    ensures tail { IsTail u.new u.old }
{
    let kind = entity_kind(u, making.config, declared)?;
    Some(read_entity_of(making, u, declared, kind))
}
