//! Tables, globals and exports of core modules in the binary format (core specification, Binary Format, Modules), and
//! constant expressions.
#![tactic(auto, using(smith_format::proofs::Steps::writing, smith_format::proofs::Sizes::measuring))]

ghost use Rattle.std.specs.Prelude.{◌≡◌, ◌<◌, length, slice_get, zip};
ghost use Rattle.std.specs.List.{AllByRecursion};
ghost use Rattle.smith_format.specs.Piece.{◌⊕◌, many};
ghost use Rattle.smith_format.specs.Writing.{Puts, IsLengthOf};
ghost use Rattle.smith_core.specs.Segments.{export, expression, named_type, table};
ghost use Rattle.smith_format.specs.Entities.{kind_byte};

use crate::module::encode::ModuleFormat;
use smith_format::{
    ExportKind, GlobalType, Spelled, TableType, count_len, raw_len, text_len, u32_len, write_byte,
    write_bytes, write_count, write_raw, write_text, write_u32,
};
use smith_input::Error;

// A constant expression, given without its end.
impl Spelled<ModuleFormat> for Vec<u8> {
    ghost piece = { λ e. expression e };

    fn put(&self, out: &mut Vec<u8>) -> Result<(), Error> {
        write_raw(out, self)?;
        write_byte(out, 0x0b)
    }

    fn spelled_len(&self) -> Option<u32> {
        raw_len(self)?.checked_add(1)
    }
}

fn put_table(out: &mut Vec<u8>, ty: &TableType, initial: &Option<Vec<u8>>) -> Result<(), Error>
    ensures { Puts result out.old out.new (table (ty.now, initial.now)) }
{
    match initial {
        None => ty.put(out),
        Some(value) => {
            write_bytes(out, &[0x40, 0x00])?;
            ty.put(out)?;
            value.put(out)
        }
    }
}

fn table_len(ty: &TableType, initial: &Option<Vec<u8>>) -> Option<u32>
    ensures { IsLengthOf result (table (ty.now, initial.now)) }
{
    match initial {
        None => ty.spelled_len(),
        Some(value) => {
            let front = ty.spelled_len()?.checked_add(2)?;
            front.checked_add(value.spelled_len()?)
        }
    }
}

// Defined tables: their types, and their initial values.
pub(in crate::module) fn put_tables(
    out: &mut Vec<u8>,
    types: &[TableType],
    initials: &[Option<Vec<u8>>],
) -> Result<(), Error>
    requires { length types.now ≡ length initials.now }
    ensures { Puts result out.old out.new (many table (zip types.now initials.now)) }
{
    write_count(out, initials.len())?;
    for at in 0..initials.len() {
        put_table(out, &types[at], &initials[at])?;
    }
    Ok(())
}

pub(in crate::module) fn tables_len(
    types: &[TableType],
    initials: &[Option<Vec<u8>>],
) -> Option<u32>
    requires { length types.now ≡ length initials.now }
    ensures { IsLengthOf result (many table (zip types.now initials.now)) }
{
    let mut total: u32 = 0;
    for at in 0..initials.len() {
        total = total.checked_add(table_len(&types[at], &initials[at])?)?;
    }
    count_len(initials.len())?.checked_add(total)
}

// Defined globals: their indexes among these types, and their initial values.
pub(in crate::module) fn put_globals(
    out: &mut Vec<u8>,
    types: &[GlobalType],
    defined: &[(u32, Vec<u8>)],
) -> Result<(), Error>
    requires { AllByRecursion (λ g. g.0 < length types.now) defined.now }
    ensures { Puts result out.old out.new
        (many (λ g. named_type (slice_get types.now g.0) ⊕ expression g.1) defined.now) }
{
    write_count(out, defined.len())?;
    for (index, value) in defined {
        types[*index as usize].put(out)?;
        value.put(out)?;
    }
    Ok(())
}

pub(in crate::module) fn globals_len(
    types: &[GlobalType],
    defined: &[(u32, Vec<u8>)],
) -> Option<u32>
    requires { AllByRecursion (λ g. g.0 < length types.now) defined.now }
    ensures { IsLengthOf result
        (many (λ g. named_type (slice_get types.now g.0) ⊕ expression g.1) defined.now) }
{
    let mut total: u32 = 0;
    for (index, value) in defined {
        let ty = types[*index as usize].spelled_len()?;
        total = total.checked_add(ty.checked_add(value.spelled_len()?)?)?;
    }
    count_len(defined.len())?.checked_add(total)
}

fn kind_of_export(kind: ExportKind) -> u8
    ensures { result ≡ kind_byte kind }
{
    match kind {
        ExportKind::Func => 0x00,
        ExportKind::Table => 0x01,
        ExportKind::Memory => 0x02,
        ExportKind::Global => 0x03,
        ExportKind::Tag => 0x04,
    }
}

impl Spelled<ModuleFormat> for (String, ExportKind, u32) {
    ghost piece = { λ e. export e };

    fn put(&self, out: &mut Vec<u8>) -> Result<(), Error> {
        write_text(out, &self.0)?;
        write_byte(out, kind_of_export(self.1))?;
        write_u32(out, self.2)
    }

    fn spelled_len(&self) -> Option<u32> {
        text_len(&self.0)?.checked_add(1 + u32_len(self.2))
    }
}
