//! Imports of a core module and what it imports or exports, in the binary format (core specification, Binary Format,
//! Types and Import Section), and the lengths of their encodings. No writer lowers the capacity of its buffer, and none
//! takes memory if the buffer has room for what it writes.
#![tactic(auto, using(crate::proofs::Steps::writing, crate::proofs::Sizes::measuring))]

ghost use Rattle.std.specs.Prelude.{◌≡◌, ◌≤◌, Bool};
ghost use Rattle.smith_format.specs.Entities.{bit, maximum, limits, table_type, memory_type, global_type, tag_type};
ghost use Rattle.smith_format.specs.Entities.{entity, core_import};
ghost use Rattle.smith_format.specs.Shown.{shown_import};
ghost use Rattle.smith_format.specs.Writing.{Puts, Appends, Takes, IsLengthOf};

use crate::buffer::{CoreFormat, Spelled, write_byte, write_spelled};
use crate::encode::{core_val_len, put_core_val, put_ref, ref_len};
use crate::numbers::{u32_len, u64_len, write_u32, write_u64};
use crate::pieces::{text_len, write_text};
use crate::types::{EntityType, GlobalType, Import, MemoryType, TableType, TagType};
use smith_input::Error;

fn bit_of(set: bool, value: u8) -> u8
    ensures { result ≡ bit set value }
{
    if set { value } else { 0 }
}

fn put_maximum(out: &mut Vec<u8>, most: Option<u64>) -> Result<(), Error>
    ensures { Puts result out.old out.new (maximum most) }
{
    match most {
        None => Ok(()),
        Some(most) => write_u64(out, most),
    }
}

fn maximum_len(most: Option<u64>) -> u32
    ensures length { Takes result (maximum most) }
    ensures most { result ≤ 10 }
{
    match most {
        None => 0,
        Some(most) => u64_len(most),
    }
}

#[inline(always)]
fn put_limits(
    out: &mut Vec<u8>,
    shared: bool,
    wide: bool,
    minimum: u64,
    most: Option<u64>,
) -> Result<(), Error>
    ensures { Puts result out.old out.new (limits shared wide minimum most) }
{
    let limits_flag = bit_of(most.is_some(), 1) + (bit_of(shared, 2) + bit_of(wide, 4));
    write_byte(out, limits_flag)?;
    write_u64(out, minimum)?;
    put_maximum(out, most)
}

fn limits_len(minimum: u64, most: Option<u64>) -> u32
    ensures length { (shared wide : Bool) → Takes result (limits shared wide minimum most) }
    ensures most { result ≤ 21 }
{
    1 + (u64_len(minimum) + maximum_len(most))
}

impl Spelled<CoreFormat> for TableType {
    ghost piece = { λ t. table_type t };

    fn put(&self, out: &mut Vec<u8>) -> Result<(), Error> {
        put_ref(out, self.element_type)?;
        put_limits(out, false, self.table64, self.minimum, self.maximum)
    }

    fn spelled_len(&self) -> Option<u32> {
        Some(ref_len(self.element_type) + limits_len(self.minimum, self.maximum))
    }
}

impl Spelled<CoreFormat> for MemoryType {
    ghost piece = { λ t. memory_type t };

    fn put(&self, out: &mut Vec<u8>) -> Result<(), Error> {
        put_limits(out, self.shared, self.memory64, self.minimum, self.maximum)
    }

    fn spelled_len(&self) -> Option<u32> {
        Some(limits_len(self.minimum, self.maximum))
    }
}

impl Spelled<CoreFormat> for GlobalType {
    ghost piece = { λ t. global_type t };

    #[inline(always)]
    fn put(&self, out: &mut Vec<u8>) -> Result<(), Error> {
        put_core_val(out, self.val_type)?;
        write_byte(out, bit_of(self.mutable, 1))
    }

    fn spelled_len(&self) -> Option<u32> {
        Some(core_val_len(self.val_type) + 1)
    }
}

impl Spelled<CoreFormat> for TagType {
    ghost piece = { λ t. tag_type t };

    fn put(&self, out: &mut Vec<u8>) -> Result<(), Error> {
        write_byte(out, 0x00)?;
        write_u32(out, self.func_type_idx)
    }

    fn spelled_len(&self) -> Option<u32> {
        Some(1 + u32_len(self.func_type_idx))
    }
}

fn put_entity(out: &mut Vec<u8>, ty: &EntityType) -> Result<(), Error>
    ensures { Puts result out.old out.new (entity ty.now) }
{
    match ty {
        EntityType::Func(index) => {
            write_byte(out, 0x00)?;
            write_u32(out, *index)
        }
        EntityType::Table(table) => {
            write_byte(out, 0x01)?;
            table.put(out)
        }
        EntityType::Memory(memory) => {
            write_byte(out, 0x02)?;
            memory.put(out)
        }
        EntityType::Global(global) => {
            write_byte(out, 0x03)?;
            global.put(out)
        }
        EntityType::Tag(tag) => {
            write_byte(out, 0x04)?;
            tag.put(out)
        }
    }
}

fn some_entity_len(ty: &EntityType) -> u32
    ensures length { Takes result (entity ty.now) }
    ensures most { result ≤ 28 }
{
    match ty {
        EntityType::Func(index) => 1 + u32_len(*index),
        EntityType::Table(table) => {
            1 + (ref_len(table.element_type) + limits_len(table.minimum, table.maximum))
        }
        EntityType::Memory(memory) => 1 + limits_len(memory.minimum, memory.maximum),
        EntityType::Global(global) => 1 + (core_val_len(global.val_type) + 1),
        EntityType::Tag(tag) => 1 + (1 + u32_len(tag.func_type_idx)),
    }
}

impl Spelled<CoreFormat> for EntityType {
    ghost piece = { λ t. entity t };

    fn put(&self, out: &mut Vec<u8>) -> Result<(), Error> {
        put_entity(out, self)
    }

    fn spelled_len(&self) -> Option<u32> {
        Some(some_entity_len(self))
    }
}

/// Appends what is imported or exported.
pub fn write_entity(out: &mut Vec<u8>, ty: &EntityType) -> Result<(), Error>
    ensures { Appends result out.old out.new (entity ty.now) }
{
    write_spelled(out, ty)
}

/// The length of its encoding, which always has one of at most 4,294,967,295 bytes.
pub fn entity_len(ty: &EntityType) -> Option<u32>
    ensures { IsLengthOf result (entity ty.now) }
{
    Some(some_entity_len(ty))
}

impl Spelled<CoreFormat> for Import {
    ghost piece = { λ i. core_import (shown_import i) };

    fn put(&self, out: &mut Vec<u8>) -> Result<(), Error> {
        write_text(out, &self.module)?;
        write_text(out, &self.name)?;
        put_entity(out, &self.entity_type)
    }

    fn spelled_len(&self) -> Option<u32> {
        let after = text_len(&self.name)?.checked_add(some_entity_len(&self.entity_type))?;
        text_len(&self.module)?.checked_add(after)
    }
}

/// Appends an import. It is too long if the length of a name exceeds 4,294,967,295. Public only for the crates above.
pub fn write_core_import(out: &mut Vec<u8>, import: &Import) -> Result<(), Error>
    ensures { Appends result out.old out.new (core_import (shown_import import.now)) }
{
    write_spelled(out, import)
}

/// The length of an import's encoding; None exactly if it has none of at most 4,294,967,295 bytes. Public only for the
/// crates above.
pub fn core_import_len(import: &Import) -> Option<u32>
    ensures { IsLengthOf result (core_import (shown_import import.now)) }
{
    import.spelled_len()
}
