//! Element segments and data segments of core modules in the binary format (core specification, Binary Format,
//! Modules).
#![tactic(auto, using(smith_format::proofs::Steps::writing, smith_format::proofs::Sizes::measuring))]

ghost use Rattle.smith_format.specs.Piece.{◌⊕◌, byte, s};
ghost use Rattle.smith_format.specs.Writing.{Puts, IsLengthOf};
ghost use Rattle.smith_core.specs.Segments.{data_form, data_segment, element, expressions_front, functions_front};
ghost use Rattle.smith_core.specs.Segments.{offset};

use crate::module::encode::ModuleFormat;
use crate::module::segments::{
    DataSegment, DataSegmentKind, ElementKind, ElementSegment, Elements, Offset,
};
use smith_format::{
    RefType, Spelled, ValType, core_val_len, many_len, put_many, raw_len, s64_len, u32_len,
    write_byte, write_bytes, write_core_val, write_count, write_raw, write_s64, write_u32,
};
use smith_input::Error;

// An instruction that produces a constant, and the end of its expression.
fn put_const(out: &mut Vec<u8>, instruction: u8, value: i64) -> Result<(), Error>
    ensures { Puts result out.old out.new (byte instruction ⊕ s value ⊕ byte 0x0b) }
{
    write_byte(out, instruction)?;
    write_s64(out, value)?;
    write_byte(out, 0x0b)
}

impl Spelled<ModuleFormat> for Offset {
    ghost piece = { λ o. offset o };

    fn put(&self, out: &mut Vec<u8>) -> Result<(), Error> {
        match self {
            Offset::Const32(value) => put_const(out, 0x41, i64::from(*value)),
            Offset::Const64(value) => put_const(out, 0x42, *value),
            Offset::Global(index) => {
                write_byte(out, 0x23)?;
                write_u32(out, *index)?;
                write_byte(out, 0x0b)
            }
        }
    }

    fn spelled_len(&self) -> Option<u32> {
        match self {
            Offset::Const32(value) => Some(2 + s64_len(i64::from(*value))),
            Offset::Const64(value) => Some(2 + s64_len(*value)),
            Offset::Global(index) => Some(2 + u32_len(*index)),
        }
    }
}

// What precedes the functions of an element segment.
fn put_functions_front(out: &mut Vec<u8>, kind: &ElementKind) -> Result<(), Error>
    ensures { Puts result out.old out.new (functions_front kind.now) }
{
    match kind {
        ElementKind::Active {
            table: None,
            offset,
        } => {
            write_byte(out, 0)?;
            offset.put(out)
        }
        ElementKind::Passive => write_bytes(out, &[1, 0x00]),
        ElementKind::Active {
            table: Some(table),
            offset,
        } => {
            write_byte(out, 0x02)?;
            write_u32(out, *table)?;
            offset.put(out)?;
            write_byte(out, 0x00)
        }
        ElementKind::Declared => write_bytes(out, &[3, 0x00]),
    }
}

fn functions_front_len(kind: &ElementKind) -> Option<u32>
    ensures { IsLengthOf result (functions_front kind.now) }
{
    match kind {
        ElementKind::Active {
            table: None,
            offset,
        } => offset.spelled_len()?.checked_add(1),
        ElementKind::Active {
            table: Some(table),
            offset,
        } => offset.spelled_len()?.checked_add(2 + u32_len(*table)),
        ElementKind::Passive | ElementKind::Declared => Some(2),
    }
}

// What precedes the expressions of an element segment.
fn put_expressions_front(out: &mut Vec<u8>, kind: &ElementKind, ty: RefType) -> Result<(), Error>
    ensures { Puts result out.old out.new (expressions_front kind.now ty) }
{
    match kind {
        ElementKind::Active {
            table: None,
            offset,
        } => {
            write_byte(out, 4)?;
            offset.put(out)
        }
        ElementKind::Passive => {
            write_byte(out, 5)?;
            write_core_val(out, ValType::Ref(ty))
        }
        ElementKind::Active {
            table: Some(table),
            offset,
        } => {
            write_byte(out, 6)?;
            write_u32(out, *table)?;
            offset.put(out)?;
            write_core_val(out, ValType::Ref(ty))
        }
        ElementKind::Declared => {
            write_byte(out, 7)?;
            write_core_val(out, ValType::Ref(ty))
        }
    }
}

fn expressions_front_len(kind: &ElementKind, ty: RefType) -> Option<u32>
    ensures { IsLengthOf result (expressions_front kind.now ty) }
{
    let reference = core_val_len(ValType::Ref(ty));
    match kind {
        ElementKind::Active {
            table: None,
            offset,
        } => offset.spelled_len()?.checked_add(1),
        ElementKind::Active {
            table: Some(table),
            offset,
        } => offset
            .spelled_len()?
            .checked_add(1 + u32_len(*table) + reference),
        ElementKind::Passive | ElementKind::Declared => Some(1 + reference),
    }
}

impl Spelled<ModuleFormat> for ElementSegment {
    ghost piece = { λ e. element e };

    fn put(&self, out: &mut Vec<u8>) -> Result<(), Error> {
        match &self.items {
            Elements::Functions(functions) => {
                put_functions_front(out, &self.kind)?;
                put_many(out, functions)
            }
            Elements::Expressions(expressions) => {
                put_expressions_front(out, &self.kind, self.ty)?;
                put_many(out, expressions)
            }
        }
    }

    fn spelled_len(&self) -> Option<u32> {
        match &self.items {
            Elements::Functions(functions) => {
                functions_front_len(&self.kind)?.checked_add(many_len(functions)?)
            }
            Elements::Expressions(expressions) => {
                expressions_front_len(&self.kind, self.ty)?.checked_add(many_len(expressions)?)
            }
        }
    }
}

fn put_data_form(out: &mut Vec<u8>, kind: &DataSegmentKind) -> Result<(), Error>
    ensures { Puts result out.old out.new (data_form kind.now) }
{
    match kind {
        DataSegmentKind::Active {
            memory_index: 0,
            offset,
        } => {
            write_byte(out, 0)?;
            offset.put(out)
        }
        DataSegmentKind::Passive => write_byte(out, 1),
        DataSegmentKind::Active {
            memory_index,
            offset,
        } => {
            write_byte(out, 2)?;
            write_u32(out, *memory_index)?;
            offset.put(out)
        }
    }
}

fn data_form_len(kind: &DataSegmentKind) -> Option<u32>
    ensures { IsLengthOf result (data_form kind.now) }
{
    match kind {
        DataSegmentKind::Active {
            memory_index: 0,
            offset,
        } => offset.spelled_len()?.checked_add(1),
        DataSegmentKind::Passive => Some(1),
        DataSegmentKind::Active {
            memory_index,
            offset,
        } => offset
            .spelled_len()?
            .checked_add(1 + u32_len(*memory_index)),
    }
}

impl Spelled<ModuleFormat> for DataSegment {
    ghost piece = { λ d. data_segment d };

    fn put(&self, out: &mut Vec<u8>) -> Result<(), Error> {
        put_data_form(out, &self.kind)?;
        write_count(out, self.init.len())?;
        write_raw(out, &self.init)
    }

    fn spelled_len(&self) -> Option<u32> {
        let length = raw_len(&self.init)?;
        let framed = u32_len(length).checked_add(length)?;
        data_form_len(&self.kind)?.checked_add(framed)
    }
}
