//! What writers write, and its length. The bytes are from the core specification's and DWARF's examples, or worked out
//! by hand from the binary formats.

use smith_format::{
    EntityType, FuncType, GlobalType, MemoryType, RefType, TableType, TagType, ValType,
    core_import_len, core_val_len, entity_len, func_type_len, s64_len, text_len, type_index_len,
    u32_len, u64_len, write_core_import, write_core_val, write_entity, write_func_type, write_s64,
    write_text, write_type_index, write_u32, write_u64,
};
use smith_input::Error;
use smith_syntax::{ComponentTypeRef as Ref, Import, import_len, write_import};
use std::process::Abort;
use std::test::Fail;

// What can be written and measured.
#[derive(Drop)]
enum Written {
    Unsigned32(u32),
    Unsigned64(u64),
    Signed64(i64),
    TypeIndex(u32),
    Text(String),
    CoreValue(ValType),
    CoreFunction(FuncType),
    CoreImport(smith_format::Import),
    Entity(EntityType),
    Import(Import),
}

impl Written {
    // Writes it, and measures it.
    fn write(&self, out: &mut Vec<u8>) -> (Result<(), Error>, Option<u32>) {
        match self {
            Written::Unsigned32(n) => (write_u32(out, *n), Some(u32_len(*n))),
            Written::Unsigned64(n) => (write_u64(out, *n), Some(u64_len(*n))),
            Written::Signed64(n) => (write_s64(out, *n), Some(s64_len(*n))),
            Written::TypeIndex(i) => (write_type_index(out, *i), Some(type_index_len(*i))),
            Written::Text(text) => (write_text(out, text), text_len(text)),
            Written::CoreValue(ty) => (write_core_val(out, *ty), Some(core_val_len(*ty))),
            Written::CoreFunction(ty) => (write_func_type(out, ty), func_type_len(ty)),
            Written::CoreImport(import) => (
                write_core_import(out, import),
                core_import_len(import),
            ),
            Written::Entity(entity) => (write_entity(out, entity), entity_len(entity)),
            Written::Import(import) => (write_import(out, import), import_len(import)),
        }
    }
}

// These bytes are appended to what was there, and their length is the one that is measured.
fn is_written<R: Abort + AllocGlobal>(
    rt: &R,
    name: &str,
    written: &Written,
    expected: &[u8],
) -> Result<(), Fail> {
    let mut out = Vec::from_slice(rt.alloc(), b"\x0a")?;
    let (answer, length) = written.write(&mut out);
    answer?;
    assert_eq!(rt; out.strip_prefix(b"\x0a"), Some(expected), "{name}");
    assert_eq!(rt; length.map(|n| n as usize), Some(expected.len()), "{name}");
    Ok(())
}

// The numbers of 64 bits that take ten bytes.
const MOST_UNSIGNED: &[u8] = b"\xff\xff\xff\xff\xff\xff\xff\xff\xff\x01";

const MOST_SIGNED: &[u8] = b"\xff\xff\xff\xff\xff\xff\xff\xff\xff\x00";

const LEAST_SIGNED: &[u8] = b"\x80\x80\x80\x80\x80\x80\x80\x80\x80\x7f";

#[test]
fn numbers_and_texts(rt: HostRuntime) -> Result<(), Fail> {
    let accented = String::from_str(rt.alloc(), "a\u{e9}")?;
    let rows: [(Written, &[u8]); 23] = [
        (Written::Unsigned32(0), b"\x00"),
        (Written::Unsigned32(64), b"\x40"),
        (Written::Unsigned32(127), b"\x7f"),
        (Written::Unsigned32(128), b"\x80\x01"),
        (Written::Unsigned32(16_383), b"\xff\x7f"),
        (Written::Unsigned32(624_485), b"\xe5\x8e\x26"),
        (Written::Unsigned32(u32::MAX), b"\xff\xff\xff\xff\x0f"),
        (Written::Unsigned64(0), b"\x00"),
        (Written::Unsigned64(127), b"\x7f"),
        (Written::Unsigned64(128), b"\x80\x01"),
        (Written::Unsigned64(1 << 35), b"\x80\x80\x80\x80\x80\x01"),
        (Written::Unsigned64(u64::MAX), MOST_UNSIGNED),
        (Written::Signed64(0), b"\x00"),
        (Written::Signed64(63), b"\x3f"),
        (Written::Signed64(64), b"\xc0\x00"),
        (Written::Signed64(-1), b"\x7f"),
        (Written::Signed64(-64), b"\x40"),
        (Written::Signed64(-65), b"\xbf\x7f"),
        (Written::Signed64(i64::MAX), MOST_SIGNED),
        (Written::Signed64(i64::MIN), LEAST_SIGNED),
        (Written::TypeIndex(63), b"\x3f"),
        (Written::Text(accented), b"\x03a\xc3\xa9"),
        (Written::Text(String::new(rt.alloc())), b"\x00"),
    ];
    for (written, expected) in &rows {
        is_written(&rt, "a number or a text", written, expected)?;
    }
    Ok(())
}

fn concrete(nullable: bool, index: u32) -> ValType {
    ValType::Ref(RefType::Concrete { nullable, index })
}

fn memory(minimum: u64, maximum: Option<u64>, is_shared_and_wide: bool) -> EntityType {
    EntityType::Memory(MemoryType {
        minimum,
        maximum,
        shared: is_shared_and_wide,
        memory64: is_shared_and_wide,
    })
}

fn global(val_type: ValType, mutable: bool) -> EntityType {
    EntityType::Global(GlobalType { val_type, mutable })
}

#[test]
fn entities(rt: HostRuntime) -> Result<(), Fail> {
    let table = EntityType::Table(TableType {
        element_type: RefType::FuncRef,
        table64: false,
        minimum: 1,
        maximum: Some(2),
    });
    let tag = EntityType::Tag(TagType { func_type_idx: 3 });
    let rows: [(EntityType, &[u8]); 7] = [
        (memory(0, None, false), b"\x02\x00\x00"),
        (memory(1, Some(128), true), b"\x02\x07\x01\x80\x01"),
        (table, b"\x01\x70\x01\x01\x02"),
        (global(ValType::I32, false), b"\x03\x7f\x00"),
        (global(concrete(true, 64), true), b"\x03\x63\xc0\x00\x01"),
        (tag, b"\x04\x00\x03"),
        (EntityType::Func(128), b"\x00\x80\x01"),
    ];
    for (entity, expected) in rows {
        is_written(&rt, "an entity", &Written::Entity(entity), expected)?;
    }
    Ok(())
}

// The references of the binary format: a module, a function, an equal type, a component and an instance. An index past
// 127 takes two bytes, and a URL is not written.
const IMPORTS: &[(&str, &str, Ref, &[u8])] = &[
    ("a", "", Ref::Module(3), b"\x00\x01a\x00\x11\x03"),
    ("ab", "", Ref::Func(0), b"\x00\x02ab\x01\x00"),
    ("a-b", "", Ref::TypeEq(127), b"\x00\x03a-b\x03\x00\x7f"),
    ("", "", Ref::Component(128), b"\x00\x00\x04\x80\x01"),
    ("\u{e9}", "", Ref::Instance(1), b"\x00\x02\xc3\xa9\x05\x01"),
    ("a", "https:", Ref::Func(1), b"\x00\x01a\x01\x01"),
];

#[test]
fn imports(rt: HostRuntime) -> Result<(), Fail> {
    let alloc = rt.alloc();
    for (name, url, ty, expected) in IMPORTS {
        let mut import = Import {
            name: String::from_str(alloc, *name)?,
            url: None,
            ty: *ty,
        };
        if !url.is_empty() {
            import.url = Some(String::from_str(alloc, *url)?);
        }
        is_written(&rt, name, &Written::Import(import), expected)?;
    }
    Ok(())
}

#[test]
fn core_values_functions_and_imports(rt: HostRuntime) -> Result<(), Fail> {
    let rows: [(ValType, &[u8]); 6] = [
        (ValType::I64, b"\x7e"),
        (ValType::F32, b"\x7d"),
        (ValType::F64, b"\x7c"),
        (ValType::V128, b"\x7b"),
        (ValType::Ref(RefType::ExternRef), b"\x6f"),
        (concrete(false, 63), b"\x64\x3f"),
    ];
    for (ty, expected) in rows {
        is_written(&rt, "a value type", &Written::CoreValue(ty), expected)?;
    }
    let realloc = Written::CoreFunction(FuncType {
        params: Vec::from_elem(rt.alloc(), ValType::I32, 4)?,
        results: Vec::from_elem(rt.alloc(), ValType::I32, 1)?,
    });
    let expected = b"\x60\x04\x7f\x7f\x7f\x7f\x01\x7f";
    is_written(&rt, "a function type", &realloc, expected)?;
    let import = Written::CoreImport(smith_format::Import {
        module: String::from_str(rt.alloc(), "m")?,
        name: String::new(rt.alloc()),
        entity_type: EntityType::Func(0),
    });
    is_written(&rt, "an import", &import, b"\x01m\x00\x00\x00")
}
