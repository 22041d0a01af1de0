//! The parts of a core module.

ghost use Rattle.std.specs.Prelude.{false, None};

use crate::module::segments::{Code, DataSegment, ElementSegment};
use crate::module::types::SubType;
use smith_format::{ExportKind, GlobalType, Import, MemoryType, TableType, TagType};
use std::alloc::Global;

/// The parts of a core module (core specification, Modules). In each list of functions, tables, memories, tags and
/// globals what is imported is first. Constant expressions are given without their end.
#[derive(Debug, Drop)]
pub struct ModuleParts {
    /// Whether the type section is written.
    pub should_encode_types: bool,
    /// Whether the import section is written.
    pub should_encode_imports: bool,
    /// Whether data segments are counted in a section.
    pub bulk_memory_enabled: bool,
    pub types: Vec<SubType>,
    /// The recursion groups: each from the index of its first type to the index after its last.
    pub rec_groups: Vec<(usize, usize)>,
    pub imports: Vec<Import>,
    /// The indexes of the functions' types.
    pub funcs: Vec<u32>,
    /// How many functions are defined; they are the last ones.
    pub num_defined_funcs: usize,
    pub tables: Vec<TableType>,
    /// The initial values of the defined tables, which are the last ones.
    pub defined_tables: Vec<Option<Vec<u8>>>,
    pub memories: Vec<MemoryType>,
    /// How many memories are defined; they are the last ones.
    pub num_defined_memories: usize,
    pub tags: Vec<TagType>,
    /// How many tags are defined; they are the last ones.
    pub num_defined_tags: usize,
    pub globals: Vec<GlobalType>,
    /// The defined globals: their indexes and their initial values.
    pub defined_globals: Vec<(u32, Vec<u8>)>,
    /// Names, and what is exported, by its index.
    pub exports: Vec<(String, ExportKind, u32)>,
    /// The function that a module starts with.
    pub start: Option<u32>,
    pub elems: Vec<ElementSegment>,
    pub code: Vec<Code>,
    pub data_segments: Vec<DataSegment>,
}

impl ModuleParts {
    ghost use Rattle.smith_core.specs.Parts.{IsEmpty};

    /// The parts of a module without sections.
    pub fn empty(alloc: Global) -> ModuleParts
        ensures { IsEmpty result }
    {
        ModuleParts {
            should_encode_types: false,
            should_encode_imports: false,
            bulk_memory_enabled: false,
            types: Vec::new(alloc),
            rec_groups: Vec::new(alloc),
            imports: Vec::new(alloc),
            funcs: Vec::new(alloc),
            num_defined_funcs: 0,
            tables: Vec::new(alloc),
            defined_tables: Vec::new(alloc),
            memories: Vec::new(alloc),
            num_defined_memories: 0,
            tags: Vec::new(alloc),
            num_defined_tags: 0,
            globals: Vec::new(alloc),
            defined_globals: Vec::new(alloc),
            exports: Vec::new(alloc),
            start: None,
            elems: Vec::new(alloc),
            code: Vec::new(alloc),
            data_segments: Vec::new(alloc),
        }
    }
}
