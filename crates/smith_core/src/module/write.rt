//! Core modules in the binary format (core specification, Binary Format, Modules). The sections are written in order.
//! The length of each is put before its contents once they are written.
#![tactic(auto, using(smith_format::proofs::Steps::writing, smith_format::proofs::Sizes::measuring))]

ghost use Rattle.std.specs.Prelude.{◌≡◌, ◌≤◌, ◌<◌, ◌^◌, length, IfOk};
ghost use Rattle.smith_format.specs.Writing.{Puts, IsLengthOf, Measures};
ghost use Rattle.smith_core.specs.Module.{contents, is_written, section, module_text, last, start};
ghost use Rattle.smith_core.specs.Parts.{Agree};

use crate::module::encode::{
    globals_len, groups_len, put_globals, put_groups, put_tables, tables_len,
};
use crate::module::parts::ModuleParts;
use crate::module::sections::{BINARY_ORDER, SectionKind};
use crate::preamble::CORE_PREAMBLE;
use smith_format::{
    begin_section, count_len, end_section, many_len, put_many, u32_len, write_bytes, write_count,
    write_u32,
};
use smith_input::Error;

// That many items from the end.
fn last_of<T>(items: &[T], count: usize) -> &[T]
    requires { count ≤ length items.now }
    ensures { result.now ≡ last count items.now }
{
    &items[items.len() - count..]
}

fn put_start(out: &mut Vec<u8>, function: Option<u32>) -> Result<(), Error>
    ensures { Puts result out.old out.new (start function) }
{
    match function {
        None => Ok(()),
        Some(index) => write_u32(out, index),
    }
}

fn start_len(function: Option<u32>) -> Option<u32>
    ensures { IsLengthOf result (start function) }
{
    match function {
        None => Some(0),
        Some(index) => Some(u32_len(index)),
    }
}

impl ModuleParts {
    // What a section holds.
    fn put_contents(&self, out: &mut Vec<u8>, kind: SectionKind) -> Result<(), Error>
        requires { Agree self.now }
        ensures { Puts result out.old out.new (contents self.now kind) }
    {
        match kind {
            SectionKind::Types => put_groups(out, &self.types, &self.rec_groups),
            SectionKind::Imports => put_many(out, &self.imports),
            SectionKind::Functions => put_many(out, last_of(&self.funcs, self.num_defined_funcs)),
            SectionKind::Tables => {
                let types = last_of(&self.tables, self.defined_tables.len());
                put_tables(out, types, &self.defined_tables)
            }
            SectionKind::Memories => {
                put_many(out, last_of(&self.memories, self.num_defined_memories))
            }
            SectionKind::Tags => put_many(out, last_of(&self.tags, self.num_defined_tags)),
            SectionKind::Globals => put_globals(out, &self.globals, &self.defined_globals),
            SectionKind::Exports => put_many(out, &self.exports),
            SectionKind::Start => put_start(out, self.start),
            SectionKind::Elements => put_many(out, &self.elems),
            SectionKind::DataCount => write_count(out, self.data_segments.len()),
            SectionKind::Code => put_many(out, &self.code),
            SectionKind::Data => put_many(out, &self.data_segments),
        }
    }

    // The length of what a section holds.
    fn contents_len(&self, kind: SectionKind) -> Option<u32>
        requires { Agree self.now }
        ensures { IsLengthOf result (contents self.now kind) }
    {
        match kind {
            SectionKind::Types => groups_len(&self.types, &self.rec_groups),
            SectionKind::Imports => many_len(&self.imports),
            SectionKind::Functions => many_len(last_of(&self.funcs, self.num_defined_funcs)),
            SectionKind::Tables => {
                let types = last_of(&self.tables, self.defined_tables.len());
                tables_len(types, &self.defined_tables)
            }
            SectionKind::Memories => many_len(last_of(&self.memories, self.num_defined_memories)),
            SectionKind::Tags => many_len(last_of(&self.tags, self.num_defined_tags)),
            SectionKind::Globals => globals_len(&self.globals, &self.defined_globals),
            SectionKind::Exports => many_len(&self.exports),
            SectionKind::Start => start_len(self.start),
            SectionKind::Elements => many_len(&self.elems),
            SectionKind::DataCount => count_len(self.data_segments.len()),
            SectionKind::Code => many_len(&self.code),
            SectionKind::Data => many_len(&self.data_segments),
        }
    }

    // A section, if it is written.
    fn put_section(&self, out: &mut Vec<u8>, kind: SectionKind, written: bool) -> Result<(), Error>
        requires agree { Agree self.now }
        requires written { written ≡ is_written self.now kind }
        ensures { Puts result out.old out.new (section self.now kind) }
    {
        if !written {
            return Ok(());
        }
        let start = begin_section(out, kind.id())?;
        self.put_contents(out, kind)?;
        end_section(out, start)
    }

    fn section_len(&self, kind: SectionKind, written: bool) -> Result<u64, Error>
        requires agree { Agree self.now }
        requires written { written ≡ is_written self.now kind }
        ensures length { Measures result (section self.now kind) }
        ensures most { IfOk result (λ n. n < 2 ^ 34) }
    {
        if !written {
            return Ok(0);
        }
        let Some(length) = self.contents_len(kind) else {
            return Err(Error::TooLong);
        };
        Ok(1 + u64::from(u32_len(length)) + u64::from(length))
    }

    // The whole module.
    pub(super) fn put(&self, out: &mut Vec<u8>) -> Result<(), Error>
        requires { Agree self.now }
        ensures { Puts result out.old out.new (module_text self.now) }
    {
        write_bytes(out, &CORE_PREAMBLE)?;
        let written = self.written();
        for kind in &BINARY_ORDER {
            self.put_section(out, *kind, written[*kind as usize])?;
        }
        Ok(())
    }

    // The length of the whole module.
    pub(super) fn measure(&self) -> Result<u64, Error>
        requires { Agree self.now }
        ensures { Measures result (module_text self.now) }
    {
        let mut total = 8;
        let written = self.written();
        for kind in &BINARY_ORDER {
            total += self.section_len(*kind, written[*kind as usize])?;
        }
        Ok(total)
    }
}
