//! Core modules of given parts, and their bytes, worked out by hand from the core specification's binary format.

use crate::module_parts::{
    IN_FRONT, NUMBER, add_code, add_data, add_expressions, add_functions, add_import, add_page, at,
    function, group_of, of_all_sections,
};
use smith_core::{
    DataSegmentKind, ElementKind, EntityType, Instructions, Module, ModuleParts, Offset, RefType,
    ValType,
};
use smith_input::Error;
use std::alloc::Global;
use std::process::Abort;
use std::test::Fail;

// What each module begins with.
const PREAMBLE: &[u8] = &[0x00, 0x61, 0x73, 0x6d, 0x01, 0x00, 0x00, 0x00];

// A module of these parts has these bytes after the preamble, of the length that is measured, and appends them.
fn check<R: Abort + AllocGlobal>(
    rt: &R,
    name: &str,
    parts: ModuleParts,
    gives: &[u8],
) -> Result<(), Fail> {
    let mut expected = Vec::from_slice(rt.alloc(), PREAMBLE)?;
    expected.extend_from_slice(gives)?;
    let Ok(module) = Module::from_unboxed(rt.alloc(), parts) else {
        panic!(rt; "{name}: the parts disagree");
    };
    let bytes = module.to_bytes(rt.alloc())?;
    assert_eq!(rt; bytes.as_slice(), expected.as_slice(), "{name}");
    assert_eq!(rt; module.measure()?, expected.len() as u64, "{name}");
    let mut out = Vec::from_slice(rt.alloc(), b"\x2a")?;
    module.write(&mut out)?;
    let appended = out.strip_prefix(b"\x2a");
    assert_eq!(rt; appended, Some(expected.as_slice()), "{name}");
    Ok(())
}

const COUNTED_DATA: &[u8] = b"\x05\x03\x01\x00\x01\x0c\x01\x01\x0b\x08\x01\x00\x41\x00\x0b\x02hi";

const CODE: &[u8] = &[
    1, 4, 1, 0x60, 0, 0, 3, 2, 1, 0, 10, 8, 1, 6, 2, 1, 0x7f, 1, 0x7f, 0x0b,
];

#[test]
fn modules_of_some_sections(rt: HostRuntime) -> Result<(), Fail> {
    let alloc = rt.alloc();
    check(&rt, "nothing", ModuleParts::empty(alloc), b"")?;
    let mut parts = ModuleParts::empty(alloc);
    parts.should_encode_types = true;
    parts.should_encode_imports = true;
    check(&rt, "empty lists", parts, b"\x01\x01\x00\x02\x01\x00")?;
    let two = b"\x01\x09\x01\x4e\x02\x60\x00\x00\x60\x00\x00";
    check(&rt, "a group of two", group_of(alloc, 2)?, two)?;
    let mut parts = ModuleParts::empty(alloc);
    add_import(alloc, &mut parts, "g", EntityType::Global(NUMBER))?;
    parts.globals.push(NUMBER)?;
    let globals = b"\x02\x08\x01\x01m\x01g\x03\x7f\x00\x06\x01\x00";
    check(&rt, "imported globals alone", parts, globals)?;
    let mut parts = ModuleParts::empty(alloc);
    add_page(&mut parts)?;
    add_data(alloc, &mut parts, IN_FRONT, b"hi")?;
    check(&rt, "data with a count", parts, COUNTED_DATA)?;
    let mut parts = ModuleParts::empty(alloc);
    add_data(alloc, &mut parts, DataSegmentKind::Passive, b"hi")?;
    check(&rt, "data uncounted", parts, b"\x0b\x05\x01\x01\x02hi")?;
    let mut parts = group_of(alloc, 1)?;
    let nothing = Instructions::Generated(Vec::new(alloc));
    add_code(alloc, &mut parts, &[ValType::I32, ValType::I32], nothing)?;
    check(&rt, "a function", parts, CODE)
}

// The thirteen sections of the module of all these parts, one a line.
const ALL_SECTIONS: [&[u8]; 13] = [
    b"\x01\x1f\x04\x60\x01\x7f\x00\x4e\x02\x50\x00\x5f\x02\x78\x01\x7f\x00\x4f\x01\x01\x5f\x03\x78\
        \x01\x7f\x00\x70\x00\x5e\x77\x01\x4e\x00",
    b"\x02\x25\x05\x01m\x01f\x00\x00\x01m\x01t\x01\x70\x00\x01\x01m\x01y\x02\x01\x00\x02\x01m\x01g\
        \x03\x7f\x00\x01m\x01e\x04\x00\x00",
    b"\x03\x03\x02\x00\x00",
    b"\x04\x0d\x02\x6f\x05\x02\x05\x40\x00\x70\x00\x01\xd2\x00\x0b",
    b"\x05\x03\x01\x00\x01",
    b"\x0d\x03\x01\x00\x00",
    b"\x06\x06\x01\x7e\x01\x42\x2a\x0b",
    b"\x07\x15\x05\x01a\x00\x01\x01b\x01\x00\x01c\x02\x01\x01d\x03\x01\x01e\x04\x01",
    b"\x08\x01\x01",
    b"\x09\x4d\x0c\x00\x41\x00\x0b\x02\x00\x01\x00\x41\x7f\x0b\x01\x00\x01\x00\x01\x01\x01\x00\x01\
        \x00\x02\x01\x42\x7f\x0b\x00\x00\x02\x00\x41\x00\x0b\x00\x00\x03\x00\x01\x00\x04\x23\x00\x0b\
        \x01\xd2\x01\x0b\x05\x6f\x00\x05\x70\x01\xd2\x00\x0b\x06\x00\x41\xc0\x00\x0b\x70\x01\xd0\x70\
        \x0b\x07\x70\x02\xd2\x00\x0b\xd2\x01\x0b",
    b"\x0c\x01\x03",
    b"\x0a\x0c\x02\x07\x02\x01\x7f\x01\x70\x01\x0b\x02\x00\x0b",
    b"\x0b\x10\x03\x00\x41\x00\x0b\x01h\x01\x01i\x02\x01\x41\x40\x0b\x00",
];

#[test]
fn a_module_of_all_sections(rt: HostRuntime) -> Result<(), Fail> {
    let sections = ALL_SECTIONS.concat(rt.alloc())?;
    check(&rt, "all sections", of_all_sections(rt.alloc())?, &sections)
}

// Each takes one condition away from parts that agree.
const DISAGREEMENTS: [&str; 10] = [
    "functions",
    "tables",
    "memories",
    "tags",
    "a type without a group",
    "a gap between groups",
    "a group that ends before",
    "a global that is not there",
    "functions of externref",
    "a first table of externref",
];

// Parts that disagree so.
fn disagreeing(alloc: Global, disagreement: &str) -> Result<ModuleParts, Fail> {
    let mut parts = ModuleParts::empty(alloc);
    match disagreement {
        "functions" => parts.num_defined_funcs = 1,
        "tables" => parts.defined_tables.push(None)?,
        "memories" => parts.num_defined_memories = 1,
        "tags" => parts.num_defined_tags = 1,
        "a type without a group" => parts.types.push(function(alloc, &[])?)?,
        "a gap between groups" => parts.rec_groups.push((1, 1))?,
        "a group that ends before" => {
            parts.types.push(function(alloc, &[])?)?;
            parts.rec_groups.extend_from_slice(&[(0, 2), (2, 1)])?;
        }
        "a global that is not there" => parts.defined_globals.push((0, Vec::new(alloc)))?,
        "functions of externref" => {
            let passive = ElementKind::Passive;
            add_functions(alloc, &mut parts, passive, RefType::ExternRef, &[])?;
        }
        "a first table of externref" => {
            let first = at(None, Offset::Const32(0));
            add_expressions(alloc, &mut parts, first, RefType::ExternRef, &[])?;
        }
        _ => {}
    }
    parts.start = Some(7);
    Ok(parts)
}

// The parts were returned as they were given, since they disagree.
fn check_refused<R: Abort + AllocGlobal>(
    rt: &R,
    name: &str,
    error: Error,
    parts: &ModuleParts,
) -> Result<(), Fail> {
    let given = disagreeing(rt.alloc(), name)?;
    let given = format!(in rt.alloc(); "{given:?}")?;
    let returned = format!(in rt.alloc(); "{parts:?}")?;
    assert_eq!(rt; error, Error::PartsDisagree, "{name}");
    assert_eq!(rt; returned.as_str(), given.as_str(), "{name}");
    Ok(())
}

#[test]
fn parts_that_disagree_come_back(rt: HostRuntime) -> Result<(), Fail> {
    for name in DISAGREEMENTS {
        let parts = Box::new(rt.alloc(), disagreeing(rt.alloc(), name)?)?;
        let Err((error, parts)) = Module::from_parts(parts) else {
            panic!(rt; "{name}: the parts agree");
        };
        check_refused(&rt, name, error, &parts)?;
        let Err((error, parts)) = Module::from_unboxed(rt.alloc(), Box::into_inner(parts)) else {
            panic!(rt; "{name}: the parts agree");
        };
        check_refused(&rt, name, error, &parts)?;
    }
    Ok(())
}
