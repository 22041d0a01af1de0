//! Types of core modules in the binary format (core specification, Binary Format, Types).
#![tactic(auto, using(smith_format::proofs::Steps::writing, smith_format::proofs::Sizes::measuring))]

ghost use Rattle.std.specs.Prelude.{length, ◌≤◌, slice_range};
ghost use Rattle.smith_format.specs.Piece.{many};
ghost use Rattle.smith_format.specs.Writing.{Puts, Takes, IsLengthOf};
ghost use Rattle.smith_core.specs.Parts.{Tiles};
ghost use Rattle.smith_core.specs.SubTypes.{storage, field, composite, sub_prefix, sub_type, rec_type};

use crate::module::encode::ModuleFormat;
use crate::module::types::{CompositeType, FieldType, StorageType, SubType};
use smith_format::{
    Spelled, core_val_len, count_len, many_len, put_many, put_tagged, tagged_len, u32_len,
    write_byte, write_core_val, write_count, write_u32,
};
use smith_input::Error;

impl Spelled<ModuleFormat> for StorageType {
    ghost piece = { λ t. storage t };

    fn put(&self, out: &mut Vec<u8>) -> Result<(), Error> {
        match self {
            StorageType::I8 => write_byte(out, 0x78),
            StorageType::I16 => write_byte(out, 0x77),
            StorageType::Val(ty) => write_core_val(out, *ty),
        }
    }

    fn spelled_len(&self) -> Option<u32> {
        match self {
            StorageType::I8 | StorageType::I16 => Some(1),
            StorageType::Val(ty) => Some(core_val_len(*ty)),
        }
    }
}

impl Spelled<ModuleFormat> for FieldType {
    ghost piece = { λ t. field t };

    fn put(&self, out: &mut Vec<u8>) -> Result<(), Error> {
        self.element.put(out)?;
        let mutable = if self.mutable { 1 } else { 0 };
        write_byte(out, mutable)
    }

    fn spelled_len(&self) -> Option<u32> {
        self.element.spelled_len()?.checked_add(1)
    }
}

impl Spelled<ModuleFormat> for CompositeType {
    ghost piece = { λ t. composite t };

    fn put(&self, out: &mut Vec<u8>) -> Result<(), Error> {
        match self {
            CompositeType::Func(ty) => ty.put(out),
            CompositeType::Array(ty) => {
                write_byte(out, 0x5e)?;
                ty.put(out)
            }
            CompositeType::Struct(fields) => put_tagged(out, 0x5f, fields),
        }
    }

    fn spelled_len(&self) -> Option<u32> {
        match self {
            CompositeType::Func(ty) => ty.spelled_len(),
            CompositeType::Array(ty) => ty.spelled_len()?.checked_add(1),
            CompositeType::Struct(fields) => tagged_len(fields),
        }
    }
}

// What precedes the composite type of a sub type.
fn put_sub_prefix(out: &mut Vec<u8>, is_final: bool, supertype: Option<u32>) -> Result<(), Error>
    ensures { Puts result out.old out.new (sub_prefix is_final supertype) }
{
    let form = if is_final { 0x4f } else { 0x50 };
    match supertype {
        Some(index) => put_tagged(out, form, &[index]),
        None if is_final => Ok(()),
        None => put_tagged::<_, u32>(out, form, &[]),
    }
}

#[tactic(auto, using(crate::proofs::SubTypes::takes_supertype, crate::proofs::SubTypes::takes_open))]
fn sub_prefix_len(is_final: bool, supertype: Option<u32>) -> u32
    ensures length { Takes result (sub_prefix is_final supertype) }
    ensures most { result ≤ 7 }
{
    match supertype {
        Some(index) => 2 + u32_len(index),
        None if is_final => 0,
        None => 2,
    }
}

impl Spelled<ModuleFormat> for SubType {
    ghost piece = { λ t. sub_type t };

    fn put(&self, out: &mut Vec<u8>) -> Result<(), Error> {
        put_sub_prefix(out, self.is_final, self.supertype)?;
        self.composite_type.put(out)
    }

    fn spelled_len(&self) -> Option<u32> {
        let prefix = sub_prefix_len(self.is_final, self.supertype);
        prefix.checked_add(self.composite_type.spelled_len()?)
    }
}

// A recursion group of these types.
fn put_rec_type(out: &mut Vec<u8>, types: &[SubType]) -> Result<(), Error>
    ensures { Puts result out.old out.new (rec_type types.now) }
{
    match types {
        [ty] => ty.put(out),
        _ => put_tagged(out, 0x4e, types),
    }
}

fn rec_type_len(types: &[SubType]) -> Option<u32>
    ensures { IsLengthOf result (rec_type types.now) }
{
    match types {
        [ty] => ty.spelled_len(),
        _ => tagged_len(types),
    }
}

// The recursion groups of these types.
#[tactic(auto, using(crate::proofs::Tiles::tiles_within, smith_format::proofs::Steps::writing))]
pub(in crate::module) fn put_groups(
    out: &mut Vec<u8>,
    types: &[SubType],
    groups: &[(usize, usize)],
) -> Result<(), Error>
    requires { Tiles groups.now 0 (length types.now) }
    ensures { Puts result out.old out.new (many (λ g. rec_type (slice_range types.now g.0 g.1)) groups.now) }
{
    write_count(out, groups.len())?;
    for (start, end) in groups {
        put_rec_type(out, &types[*start..*end])?;
    }
    Ok(())
}

#[tactic(auto, using(crate::proofs::Tiles::tiles_within, smith_format::proofs::Sizes::measuring))]
pub(in crate::module) fn groups_len(types: &[SubType], groups: &[(usize, usize)]) -> Option<u32>
    requires { Tiles groups.now 0 (length types.now) }
    ensures { IsLengthOf result (many (λ g. rec_type (slice_range types.now g.0 g.1)) groups.now) }
{
    let mut total: u32 = 0;
    for (start, end) in groups {
        total = total.checked_add(rec_type_len(&types[*start..*end])?)?;
    }
    count_len(groups.len())?.checked_add(total)
}
