//! Core types.

ghost use Rattle.std.specs.Prelude.{map};
ghost use Rattle.smith_format.specs.Shown.{shown_func};
ghost use Rattle.smith_format.specs.declared.types.ValType.{ValType};
ghost use Rattle.smith_read.specs.Reading.{Gives};
ghost use Rattle.std.specs.Prelude.{ℕ, Bool, Option, string_bytes};
ghost use Rattle.smith_syntax.specs.Entries.{ModuleDecl, CoreEntry, imports, declares, aliases, exports, core_func};
ghost use Rattle.smith_syntax.specs.Entries.{core_module};
ghost use Rattle.smith_read.specs.CoreTypes.{ref_after, core_val_after, core_val_at, core_function_at, bounds_at};
ghost use Rattle.smith_read.specs.CoreTypes.{limits_after, limits_at, table_at, global_at, entity_at};
ghost use Rattle.smith_read.specs.CoreTypes.{module_decl_at, core_entry_at};

use crate::lists::{Readable, many_of, read_text, skip};
use crate::numbers::{byte_of, count_of, index_of, limit_of};
use crate::unread::{Reason, Unread, malformed, malformed_before};
use smith_format::{
    EntityType, FuncType, GlobalType, MemoryType, RefType, TableType, TagType, ValType,
};
use std::alloc::Global;

#[tactic(auto, unfolding(crate::specs::CoreTypes::ref_after))]
fn ref_of(tag: u8, bytes: &[u8]) -> Result<(RefType, &[u8]), Unread>
    ensures { Gives (λ x. (x.0, x.1.now)) result (ref_after tag bytes.now) }
{
    match tag {
        0x70 => Ok((RefType::FuncRef, bytes)),
        0x6f => Ok((RefType::ExternRef, bytes)),
        0x63 => {
            let (index, rest) = index_of(bytes)?;
            let nullable = true;
            Ok((RefType::Concrete { nullable, index }, rest))
        }
        0x64 => {
            let (index, rest) = index_of(bytes)?;
            let nullable = false;
            Ok((RefType::Concrete { nullable, index }, rest))
        }
        _ => Err(malformed_before(bytes, Reason::Byte)),
    }
}

#[tactic(auto, unfolding(crate::specs::CoreTypes::core_val_after))]
fn core_val_of(tag: u8, bytes: &[u8]) -> Result<(ValType, &[u8]), Unread>
    ensures { Gives (λ x. (x.0, x.1.now)) result (core_val_after tag bytes.now) }
{
    match tag {
        0x7f => Ok((ValType::I32, bytes)),
        0x7e => Ok((ValType::I64, bytes)),
        0x7d => Ok((ValType::F32, bytes)),
        0x7c => Ok((ValType::F64, bytes)),
        0x7b => Ok((ValType::V128, bytes)),
        _ => {
            let (ty, rest) = ref_of(tag, bytes)?;
            Ok((ValType::Ref(ty), rest))
        }
    }
}

impl Readable for ValType {
    ghost Shown = { ValType };

    ghost shown = { λ x. x };

    ghost reading = { core_val_at };

    #[tactic(auto, unfolding(crate::specs::CoreTypes::core_val_at))]
    fn read(_alloc: Global, bytes: &[u8]) -> Result<(ValType, &[u8]), Unread> {
        let (tag, rest) = byte_of(bytes)?;
        core_val_of(tag, rest)
    }
}

/// A function type after its first byte.
#[tactic(auto, unfolding(crate::specs::CoreTypes::core_function_at))]
pub(crate) fn core_function_of(alloc: Global, bytes: &[u8]) -> Result<(FuncType, &[u8]), Unread>
    ensures { Gives (λ x. (shown_func x.0, x.1.now)) result (core_function_at bytes.now) }
{
    let (params, rest) = many_of(alloc, bytes)?;
    let (results, rest) = many_of(alloc, rest)?;
    Ok((FuncType { params, results }, rest))
}

#[tactic(auto, unfolding(crate::specs::CoreTypes::bounds_at))]
fn bounds_of(bytes: &[u8]) -> Result<((u64, u64), &[u8]), Unread>
    ensures { Gives (λ x. (x.0, x.1.now)) result (bounds_at bytes.now) }
{
    let (minimum, rest) = limit_of(bytes)?;
    let (maximum, rest) = limit_of(rest)?;
    Ok(((minimum, maximum), rest))
}

/// Limits, with what says whether what has them is shared, and whether it has 64 bits.
#[tactic(auto, unfolding(crate::specs::CoreTypes::limits_at, crate::specs::CoreTypes::limits_after))]
pub(crate) fn limits_of(bytes: &[u8]) -> Result<((bool, bool, u64, Option<u64>), &[u8]), Unread>
    ensures { Gives (λ x. (x.0, x.1.now)) result (limits_at bytes.now) }
{
    let (tag, rest) = byte_of(bytes)?;
    match tag {
        0 => {
            let (minimum, rest) = limit_of(rest)?;
            Ok(((false, false, minimum, None), rest))
        }
        1 => {
            let ((minimum, maximum), rest) = bounds_of(rest)?;
            Ok(((false, false, minimum, Some(maximum)), rest))
        }
        2 => {
            let (minimum, rest) = limit_of(rest)?;
            Ok(((true, false, minimum, None), rest))
        }
        3 => {
            let ((minimum, maximum), rest) = bounds_of(rest)?;
            Ok(((true, false, minimum, Some(maximum)), rest))
        }
        4 => {
            let (minimum, rest) = limit_of(rest)?;
            Ok(((false, true, minimum, None), rest))
        }
        5 => {
            let ((minimum, maximum), rest) = bounds_of(rest)?;
            Ok(((false, true, minimum, Some(maximum)), rest))
        }
        6 => {
            let (minimum, rest) = limit_of(rest)?;
            Ok(((true, true, minimum, None), rest))
        }
        7 => {
            let ((minimum, maximum), rest) = bounds_of(rest)?;
            Ok(((true, true, minimum, Some(maximum)), rest))
        }
        _ => Err(malformed(bytes, Reason::Byte)),
    }
}

#[tactic(auto, unfolding(crate::specs::CoreTypes::table_at, crate::specs::CoreTypes::ref_at))]
fn table_of(bytes: &[u8]) -> Result<(TableType, &[u8]), Unread>
    ensures { Gives (λ x. (x.0, x.1.now)) result (table_at bytes.now) }
{
    let (tag, rest) = byte_of(bytes)?;
    let (element_type, limits) = ref_of(tag, rest)?;
    let ((shared, table64, minimum, maximum), rest) = limits_of(limits)?;
    if shared {
        return Err(malformed(limits, Reason::Byte));
    }
    let table = TableType {
        element_type,
        table64,
        minimum,
        maximum,
    };
    Ok((table, rest))
}

#[tactic(auto, unfolding(crate::specs::CoreTypes::global_at, crate::specs::CoreTypes::core_val_at))]
fn global_of(bytes: &[u8]) -> Result<(GlobalType, &[u8]), Unread>
    ensures { Gives (λ x. (x.0, x.1.now)) result (global_at bytes.now) }
{
    let (tag, rest) = byte_of(bytes)?;
    let (val_type, rest) = core_val_of(tag, rest)?;
    let (kind, rest) = byte_of(rest)?;
    match kind {
        0 => {
            let mutable = false;
            Ok((GlobalType { val_type, mutable }, rest))
        }
        1 => {
            let mutable = true;
            Ok((GlobalType { val_type, mutable }, rest))
        }
        _ => Err(malformed_before(rest, Reason::Byte)),
    }
}

#[tactic(auto, unfolding(crate::specs::CoreTypes::entity_at, crate::specs::CoreTypes::entity_after))]
pub(crate) fn entity_of(bytes: &[u8]) -> Result<(EntityType, &[u8]), Unread>
    ensures { Gives (λ x. (x.0, x.1.now)) result (entity_at bytes.now) }
{
    let (tag, rest) = byte_of(bytes)?;
    match tag {
        0x00 => {
            let (index, rest) = count_of(rest)?;
            Ok((EntityType::Func(index), rest))
        }
        0x01 => {
            let (table, rest) = table_of(rest)?;
            Ok((EntityType::Table(table), rest))
        }
        0x02 => {
            let ((shared, memory64, minimum, maximum), rest) = limits_of(rest)?;
            let memory = MemoryType {
                minimum,
                maximum,
                shared,
                memory64,
            };
            Ok((EntityType::Memory(memory), rest))
        }
        0x03 => {
            let (global, rest) = global_of(rest)?;
            Ok((EntityType::Global(global), rest))
        }
        0x04 => {
            let rest = skip(rest, 0x00)?;
            let (func_type_idx, rest) = count_of(rest)?;
            Ok((EntityType::Tag(TagType { func_type_idx }), rest))
        }
        _ => Err(malformed(bytes, Reason::Byte)),
    }
}

/// A declaration of a module type.
#[derive(Debug, Drop)]
pub enum ModuleNode {
    Func(FuncType),
    Import {
        module: String,
        name: String,
        entity: EntityType,
    },
    OuterAlias {
        count: u32,
        index: u32,
    },
    Export {
        name: String,
        entity: EntityType,
    },
}

/// A core type.
#[derive(Debug, Drop)]
pub enum CoreNode {
    Func(FuncType),
    Module(Vec<ModuleNode>),
}
