//! What a module type imports and exports.

ghost use Rattle.std.specs.Prelude.{◌++◌};
ghost use Rattle.smith_input.specs.Script.{script_among};
ghost use Rattle.smith_format.specs.Equality.{same_val};
ghost use Rattle.smith_format.specs.Limits.{configured};
ghost use Rattle.smith_format.specs.contracts.types.ExportKindPartialEq.TheImpl.{ghosts as kinds};
ghost use Rattle.smith_tree.specs.ModuleScript.{script_bit, script_element, script_entity, script_entity_of};
ghost use Rattle.smith_tree.specs.CoreTypeOffers.{entity_kinds};
ghost use Rattle.smith_script_types.specs.Says.{Says};
ghost use Rattle.smith_script_types.specs.Places.{so_far};

use crate::choices::{say_among, say_byte, say_offered};
use crate::declared::Declared;
use crate::limits::say_limits;
use crate::place::Place;
use crate::positions::{say_index, say_position};
use smith_format::{Config, EntityType, ExportKind, GlobalType, RefType, valtypes_of};
use smith_input::Error;
use smith_tree::kind_offers;

// What a table holds, if there is a choice.
fn say_element(out: &mut Vec<u8>, config: &Config, ty: RefType) -> Result<(), Error>
    ensures { Says result out.old out.new (script_element config.now ty) }
{
    if config.reference_types_enabled {
        return say_among(out, &[RefType::FuncRef, RefType::ExternRef], &ty);
    }
    Ok(())
}

// A global type: one of the value types, and whether it may change.
fn say_global(out: &mut Vec<u8>, config: &Config, ty: GlobalType) -> Result<(), Error>
    ensures { Says result out.old out.new
        (script_among same_val (configured config.now) ty.val_type ++ script_bit ty.mutable) }
{
    say_among(out, valtypes_of(config), &ty.val_type)?;
    say_byte(out, u8::from(ty.mutable))
}

// The kind of an entity: each below its limit, a tag if there is a type for it, a function if there is a type.
fn say_entity_kind(
    out: &mut Vec<u8>,
    place: Place<'_, '_>,
    declared: &Declared<'_>,
    kind: ExportKind,
) -> Result<(), Error>
    ensures { Says result out.old out.new
        (script_among kinds.eq (entity_kinds place.entry.config.now (so_far declared.now)) kind) }
{
    let config = place.config;
    let with_global = declared.allows(ExportKind::Global, config.max_globals);
    let with_table = declared.allows(ExportKind::Table, config.max_tables);
    let with_memory = declared.allows(ExportKind::Memory, config.max_memories);
    let with_tag = declared.allows(ExportKind::Tag, config.max_tags)
        && config.exceptions_enabled
        && declared.tables.tags.len() > 0;
    let with_func = declared.tables.own.len() > 0 && declared.allows_function(config);
    let offers = kind_offers(with_global, with_table, with_memory, with_tag, with_func);
    say_offered(place.alloc, out, &offers, kind)
}

// An entity after its kind.
fn say_entity_of(
    out: &mut Vec<u8>,
    place: Place<'_, '_>,
    declared: &Declared<'_>,
    entity: EntityType,
) -> Result<(), Error>
    ensures { Says result out.old out.new
        (script_entity_of place.entry.config.now (so_far declared.now) entity) }
{
    let tables = &declared.tables;
    match entity {
        EntityType::Func(index) => say_index(out, tables.own.len(), index as usize),
        EntityType::Table(table) => {
            say_element(out, place.config, table.element_type)?;
            say_limits(out, table.minimum, table.maximum)
        }
        EntityType::Memory(memory) => say_limits(out, memory.minimum, memory.maximum),
        EntityType::Global(global) => say_global(out, place.config, global),
        EntityType::Tag(tag) => say_position(out, &tables.tags, tag.func_type_idx as usize),
    }
}

/// What is imported or exported: its kind, and then what it is.
pub(crate) fn say_entity(
    out: &mut Vec<u8>,
    place: Place<'_, '_>,
    declared: &Declared<'_>,
    entity: EntityType,
) -> Result<(), Error>
    ensures { Says result out.old out.new
        (script_entity place.entry.config.now (so_far declared.now) entity) }
{
    say_entity_kind(out, place, declared, entity.kind())?;
    say_entity_of(out, place, declared, entity)
}
