//! Parts of core modules.

use smith_core::{
    Code, CompositeType, DataSegment, DataSegmentKind, ElementKind, ElementSegment, Elements,
    EntityType, ExportKind, FieldType, FuncType, GlobalType, Import, Instructions, MemoryType,
    ModuleParts, Offset, RefType, StorageType, SubType, TableType, TagType, ValType,
};
use std::alloc::Global;
use std::test::Fail;

// One memory page, and no maximum.
const PAGE: MemoryType = MemoryType {
    minimum: 1,
    maximum: None,
    shared: false,
    memory64: false,
};

pub const NUMBER: GlobalType = GlobalType {
    val_type: ValType::I32,
    mutable: false,
};

pub const IN_FRONT: DataSegmentKind = DataSegmentKind::Active {
    memory_index: 0,
    offset: Offset::Const32(0),
};

fn type_of(is_final: bool, supertype: Option<u32>, composite_type: CompositeType) -> SubType {
    SubType {
        is_final,
        supertype,
        composite_type,
    }
}

// A function of these parameters and no result.
pub fn function(alloc: Global, params: &[ValType]) -> Result<SubType, Fail> {
    let func = FuncType {
        params: Vec::from_slice(alloc, params)?,
        results: Vec::new(alloc),
    };
    Ok(type_of(true, None, CompositeType::Func(func)))
}

pub fn add_import(
    alloc: Global,
    parts: &mut ModuleParts,
    name: &str,
    entity_type: EntityType,
) -> Result<(), Fail> {
    parts.should_encode_imports = true;
    parts.imports.push(Import {
        module: String::from_str(alloc, "m")?,
        name: String::from_str(alloc, name)?,
        entity_type,
    })?;
    Ok(())
}

pub fn add_code(
    alloc: Global,
    parts: &mut ModuleParts,
    locals: &[ValType],
    instructions: Instructions,
) -> Result<(), Fail> {
    parts.funcs.push(0)?;
    parts.code.push(Code {
        locals: Vec::from_slice(alloc, locals)?,
        instructions,
    })?;
    parts.num_defined_funcs = parts.code.len();
    Ok(())
}

pub fn add_data(
    alloc: Global,
    parts: &mut ModuleParts,
    kind: DataSegmentKind,
    bytes: &[u8],
) -> Result<(), Fail> {
    let init = Vec::from_slice(alloc, bytes)?;
    parts.data_segments.push(DataSegment { kind, init })?;
    Ok(())
}

pub fn add_page(parts: &mut ModuleParts) -> Result<(), Fail> {
    parts.memories.push(PAGE)?;
    parts.num_defined_memories = 1;
    parts.bulk_memory_enabled = true;
    Ok(())
}

pub fn at(table: Option<u32>, offset: Offset) -> ElementKind {
    ElementKind::Active { table, offset }
}

pub fn add_functions(
    alloc: Global,
    parts: &mut ModuleParts,
    kind: ElementKind,
    ty: RefType,
    indexes: &[u32],
) -> Result<(), Fail> {
    let items = Elements::Functions(Vec::from_slice(alloc, indexes)?);
    parts.elems.push(ElementSegment { kind, ty, items })?;
    Ok(())
}

pub fn add_expressions(
    alloc: Global,
    parts: &mut ModuleParts,
    kind: ElementKind,
    ty: RefType,
    texts: &[&[u8]],
) -> Result<(), Fail> {
    let mut items = Vec::new(alloc);
    for text in texts {
        items.push(Vec::from_slice(alloc, text)?)?;
    }
    let items = Elements::Expressions(items);
    parts.elems.push(ElementSegment { kind, ty, items })?;
    Ok(())
}

/// Function types of nothing, in one group.
pub fn group_of(alloc: Global, many: usize) -> Result<ModuleParts, Fail> {
    let mut parts = ModuleParts::empty(alloc);
    for _ in 0..many {
        parts.types.push(function(alloc, &[])?)?;
    }
    parts.rec_groups.push((0, many))?;
    parts.should_encode_types = true;
    Ok(parts)
}

const FUNCTIONS: TableType = TableType {
    element_type: RefType::FuncRef,
    table64: false,
    minimum: 1,
    maximum: None,
};

fn field(element: StorageType, mutable: bool) -> FieldType {
    FieldType { element, mutable }
}

// Types of all three sorts, in groups of one, of two, of one and of none.
fn add_types(alloc: Global, parts: &mut ModuleParts) -> Result<(), Fail> {
    let bytes = field(StorageType::I8, true);
    let number = field(StorageType::Val(ValType::I32), false);
    let reference = field(StorageType::Val(ValType::Ref(RefType::FuncRef)), false);
    let two = CompositeType::Struct(Vec::from_slice(alloc, &[bytes, number])?);
    let three = CompositeType::Struct(Vec::from_slice(alloc, &[bytes, number, reference])?);
    let halves = CompositeType::Array(field(StorageType::I16, true));
    parts.types.push(function(alloc, &[ValType::I32])?)?;
    parts.types.push(type_of(false, None, two))?;
    parts.types.push(type_of(true, Some(1), three))?;
    parts.types.push(type_of(true, None, halves))?;
    let groups = [(0, 1), (1, 3), (3, 4), (4, 4)];
    parts.rec_groups.extend_from_slice(&groups)?;
    parts.should_encode_types = true;
    Ok(())
}

// One import of each sort.
fn add_imports(alloc: Global, parts: &mut ModuleParts) -> Result<(), Fail> {
    let memory = MemoryType {
        minimum: 0,
        maximum: Some(2),
        shared: false,
        memory64: false,
    };
    let tag = TagType { func_type_idx: 0 };
    add_import(alloc, parts, "f", EntityType::Func(0))?;
    add_import(alloc, parts, "t", EntityType::Table(FUNCTIONS))?;
    add_import(alloc, parts, "y", EntityType::Memory(memory))?;
    add_import(alloc, parts, "g", EntityType::Global(NUMBER))?;
    add_import(alloc, parts, "e", EntityType::Tag(tag))?;
    parts.funcs.push(0)?;
    parts.tables.push(FUNCTIONS)?;
    parts.memories.push(memory)?;
    parts.globals.push(NUMBER)?;
    parts.tags.push(tag)?;
    Ok(())
}

// Two tables, a memory, a tag and a global are defined.
fn add_defined(alloc: Global, parts: &mut ModuleParts) -> Result<(), Fail> {
    parts.tables.push(TableType {
        element_type: RefType::ExternRef,
        table64: true,
        minimum: 2,
        maximum: Some(5),
    })?;
    parts.tables.push(FUNCTIONS)?;
    let reference = Vec::from_slice(alloc, b"\xd2\x00")?;
    parts.defined_tables.push(None)?;
    parts.defined_tables.push(Some(reference))?;
    add_page(parts)?;
    parts.tags.push(TagType { func_type_idx: 0 })?;
    parts.num_defined_tags = 1;
    parts.globals.push(GlobalType {
        val_type: ValType::I64,
        mutable: true,
    })?;
    let number = Vec::from_slice(alloc, b"\x42\x2a")?;
    parts.defined_globals.push((1, number))?;
    Ok(())
}

fn add_exports(alloc: Global, parts: &mut ModuleParts) -> Result<(), Fail> {
    let entries = [
        ("a", ExportKind::Func, 1),
        ("b", ExportKind::Table, 0),
        ("c", ExportKind::Memory, 1),
        ("d", ExportKind::Global, 1),
        ("e", ExportKind::Tag, 1),
    ];
    for (name, kind, index) in entries {
        let name = String::from_str(alloc, name)?;
        parts.exports.push((name, kind, index))?;
    }
    parts.start = Some(1);
    Ok(())
}

const FUNC: RefType = RefType::FuncRef;

// Element segments of all eight forms, some of them twice.
fn add_elements(alloc: Global, parts: &mut ModuleParts) -> Result<(), Fail> {
    let first: &[u8] = b"\xd2\x00";
    let second: &[u8] = b"\xd2\x01";
    let null: &[u8] = b"\xd0\x70";
    add_functions(alloc, parts, at(None, Offset::Const32(0)), FUNC, &[0, 1])?;
    add_functions(alloc, parts, at(None, Offset::Const32(-1)), FUNC, &[0])?;
    add_functions(alloc, parts, ElementKind::Passive, FUNC, &[1])?;
    add_functions(alloc, parts, ElementKind::Passive, FUNC, &[0])?;
    add_functions(alloc, parts, at(Some(1), Offset::Const64(-1)), FUNC, &[])?;
    add_functions(alloc, parts, at(Some(0), Offset::Const32(0)), FUNC, &[])?;
    add_functions(alloc, parts, ElementKind::Declared, FUNC, &[0])?;
    let by_global = at(None, Offset::Global(0));
    add_expressions(alloc, parts, by_global, FUNC, &[second])?;
    add_expressions(alloc, parts, ElementKind::Passive, RefType::ExternRef, &[])?;
    add_expressions(alloc, parts, ElementKind::Passive, FUNC, &[first])?;
    let named = at(Some(0), Offset::Const32(64));
    add_expressions(alloc, parts, named, FUNC, &[null])?;
    add_expressions(alloc, parts, ElementKind::Declared, FUNC, &[first, second])
}

// The code of two functions, and data segments of all three forms, which are counted.
fn add_code_and_data(alloc: Global, parts: &mut ModuleParts) -> Result<(), Fail> {
    let locals = [ValType::I32, ValType::Ref(RefType::FuncRef)];
    let generated = Instructions::Generated(Vec::from_slice(alloc, b"\x01")?);
    let arbitrary = Instructions::Arbitrary(Vec::from_slice(alloc, b"\x0b")?);
    add_code(alloc, parts, &locals, generated)?;
    add_code(alloc, parts, &[], arbitrary)?;
    let second = DataSegmentKind::Active {
        memory_index: 1,
        offset: Offset::Const32(-64),
    };
    add_data(alloc, parts, IN_FRONT, b"h")?;
    add_data(alloc, parts, DataSegmentKind::Passive, b"i")?;
    add_data(alloc, parts, second, b"")
}

/// A module with all thirteen sections.
pub fn of_all_sections(alloc: Global) -> Result<ModuleParts, Fail> {
    let mut parts = ModuleParts::empty(alloc);
    add_types(alloc, &mut parts)?;
    add_imports(alloc, &mut parts)?;
    add_defined(alloc, &mut parts)?;
    add_exports(alloc, &mut parts)?;
    add_elements(alloc, &mut parts)?;
    add_code_and_data(alloc, &mut parts)?;
    Ok(parts)
}
