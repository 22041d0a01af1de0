//! The limits of what is built, core types, core modules and their bytes.
#![tactic(auto)]

pub mod laws;
mod module;
mod preamble;

pub use module::{
    Code, CompositeType, DataSegment, DataSegmentKind, ElementKind, ElementSegment, Elements,
    FieldType, Instructions, Module, ModuleParts, Offset, StorageType, SubType, put_stand_in,
};
pub use preamble::{COMPONENT_PREAMBLE, CORE_PREAMBLE};
pub use smith_format::{
    Config, EntityType, ExportKind, FuncType, GlobalType, Import, MemoryType, RefType, TableType,
    TagType, ValType, arbitrary_func_type, arbitrary_memtype, arbitrary_table_type,
    arbitrary_tag_type, configured_valtypes, entity_len, s64_len, text_len, u32_len, u64_len,
    write_entity, write_s64, write_section, write_text, write_u32, write_u64,
};
