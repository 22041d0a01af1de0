//! The limits of what is built, core types, and the bytes of numbers, texts, lists and sections.
#![tactic(auto)]

mod buffer;
mod config;
mod encode;
mod entity;
mod fuel;
pub mod laws;
mod lists;
mod make;
mod numbers;
mod pieces;
mod sections;
mod types;

pub use buffer::{CoreFormat, Spelled, settled, write_byte, write_bytes, write_spelled};
pub use config::{Config, MOST_LOOP_BITS};
pub use encode::{core_val_len, func_type_len, write_core_val, write_func_type};
pub use entity::{core_import_len, entity_len, write_core_import, write_entity};
pub use fuel::burn;
pub use lists::{many_len, put_many, put_tagged, tagged_len};
pub use make::{
    arbitrary_func_type, arbitrary_memtype, arbitrary_table_type, arbitrary_tag_type,
    configured_func_type,
};
pub use numbers::{
    count_len, s64_len, type_index_len, u32_len, u64_len, write_count, write_s64, write_type_index,
    write_u32, write_u64,
};
pub use pieces::{raw_len, text_len, write_head, write_raw, write_section, write_text};
pub use sections::{begin_section, end_section};
pub use types::{
    EntityType, ExportKind, FuncType, GlobalType, Import, MemoryType, RefType, TableType, TagType,
    ValType, configured_valtypes, valtypes_of,
};
