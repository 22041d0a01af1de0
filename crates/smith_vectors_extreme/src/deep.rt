//! Large components within a bounded stack, and in time that grows only with the input.

use crate::common::PREAMBLE;
use smith_component::{Config, Unstructured, generate};
use smith_types::{
    Alias, DefType, DefinedType, InstanceType, InstanceTypeDecl, OuterAliasKind, PrimitiveValType,
    Scopes,
};
use std::alloc::{AllocError, Global};
use std::process::Abort;
use std::rc::Rc;
use std::test::Fail;

// From the input, which is used up, so many sections and bytes are generated, if that is known, and these are the last.
fn check_large<R: Abort + AllocGlobal>(
    rt: &R,
    limits: Config,
    input: &[u8],
    size: Option<(usize, usize)>,
    end: &[u8],
) -> Result<(), Fail> {
    let mut u = Unstructured::new(input);
    let generated = generate(rt.alloc(), limits, &mut u)?;
    assert!(rt; u.is_empty());
    let length = generated.bytes.len();
    let found = (generated.component.sections().len(), length);
    assert_eq!(rt; found, size.unwrap_or(found));
    assert_eq!(rt; generated.component.measure()?, length as u128);
    assert!(rt; generated.bytes.ends_with(end));
    Ok(())
}

// Some bytes, and then others that many times.
fn repeated(alloc: Global, first: &[u8], each: &[u8], times: u32) -> Result<Vec<u8>, AllocError> {
    let mut input = Vec::from_slice(alloc, first)?;
    for _ in 0..times {
        input.extend_from_slice(each)?;
    }
    Ok(input)
}

// The place, below that many, as a choice among that many reads it.
fn push_place(input: &mut Vec<u8>, place: u32, count: u32) -> Result<(), AllocError> {
    let [_, high, middle, low] = place.to_be_bytes();
    match count {
        0..=1 => Ok(()),
        2..=256 => input.extend_from_slice(&[low]),
        257..=65_536 => input.extend_from_slice(&[middle, low]),
        _ => input.extend_from_slice(&[high, middle, low]),
    }
}

// 99,999 types after the first, each of which names the one before.
fn naming(mut input: Vec<u8>, front: &[u8], back: &[u8]) -> Result<Vec<u8>, AllocError> {
    for last in 0..99_999u32 {
        input.extend_from_slice(front)?;
        push_place(&mut input, last, last + 1)?;
        input.extend_from_slice(back)?;
    }
    Ok(input)
}

// A million import sections, in which there may be no import, and a million types of one section.
#[test]
fn long_lists_are_written_and_dropped(rt: HostRuntime) -> Result<(), Fail> {
    let mut limits = Config::default();
    limits.max_imports = 0;
    let sections = repeated(rt.alloc(), b"", b"\x04", 1_000_000)?;
    let size = Some((1_000_000, 8 + 1_000_000 * 3));
    check_large(&rt, limits, &sections, size, b"\x0a\x01\x00")?;
    limits.max_types = 1_000_000;
    let types = repeated(rt.alloc(), b"\x03", b"\x01\x00\x00\x00", 1_000_000)?;
    let size = Some((1, 8 + 1 + 3 + 3 + 1_000_000));
    check_large(&rt, limits, &types, size, b"\x7f")
}

// 999 components, each in the one before: it has the eight bytes of the preamble and a section, whose length takes one
// byte for the first twelve, up to 118 bytes, and then two. And modules and components, at each depth. Modules that may
// have neither types nor memories read nothing. A component in which others nest deep is measured once, when it is
// finished, and not again at each level of nesting: a measure at each depth would make this take some 300 times as
// long. 1 MiB of such input took 42 times longer at a depth of 1000 than at a depth of 2.
#[test]
fn nested_components_are_written_in_linear_time_and_dropped(rt: HostRuntime) -> Result<(), Fail> {
    let deep = Config {
        max_components: 999,
        max_nesting_depth: 1000,
        ..Config::default()
    };
    let components = repeated(rt.alloc(), b"", b"\x07", 999)?;
    let size = Some((1, 8 + 12 * 10 + 987 * 11));
    check_large(&rt, deep, &components, size, PREAMBLE)?;
    let wide = Config {
        max_modules: 60_000,
        max_components: 60_000,
        max_types: 0,
        max_memories: 0,
        ..deep
    };
    let depths = repeated(rt.alloc(), b"", b"\x06\x07", 60_000)?;
    check_large(&rt, wide, &depths, None, b"")
}

// The bytes of the types that name the one before.
const TYPES: usize = 2 + 99_999 * 6 + 128 + 16_256 * 2 + 83_615 * 3;

// A component type without declarations is read from 01 02 00: more, component, no declaration. Each further one is
// more, component, more, alias (0 of alias, core type) among the types of the one scope that has some, the last of
// them, no more. The first is written in 2 bytes, each other in 41 01, 02 03 02 01 and the index, which takes one byte
// up to 127, two up to 16,383, and then three. The section is full and asks for no more. The same types, each in a
// section of its own: 03 before it, 00 after it if the types are not full. Each section is of 3 bytes and the type.
#[test]
fn types_that_name_the_one_before_are_written_and_dropped(rt: HostRuntime) -> Result<(), Fail> {
    assert_eq!(rt; TYPES + 3, 883_484);
    let mut limits = Config::default();
    limits.max_types = 100_000;
    let first = Vec::from_slice(rt.alloc(), b"\x03\x01\x02\x00")?;
    let types = naming(first, b"\x01\x02\x01\x00", b"\x00")?;
    let size = Some((1, 8 + 1 + 3 + 3 + TYPES));
    let end = b"\x41\x01\x02\x03\x02\x01\x9d\x8d\x06\x41\x01\x02\x03\x02\x01\x9e\x8d\x06";
    check_large(&rt, limits, &types, size, end)?;
    let first = Vec::from_slice(rt.alloc(), b"\x03\x01\x02\x00\x00")?;
    let sections = naming(first, b"\x03\x01\x02\x01\x00", b"\x00\x00")?;
    let size = Some((100_000, 8 + 100_000 * 3 + TYPES));
    let end = b"\x07\x0a\x01\x41\x01\x02\x03\x02\x01\x9e\x8d\x06";
    check_large(&rt, limits, &sections, size, end)
}

// A stack of scopes holds the types, each of which names the one before, and nothing else holds any but the last.
#[test]
fn scopes_of_a_hundred_thousand_types_are_dropped(rt: HostRuntime) -> Result<(), Fail> {
    let alloc = rt.alloc();
    let mut scopes = Scopes::new(alloc);
    let first = DefType::Defined(DefinedType::Primitive(PrimitiveValType::Bool));
    let mut before = Rc::new(alloc, first)?;
    scopes.push_type(Rc::clone(&before)?)?;
    for last in 0..99_999u32 {
        let mut defs = Vec::new(alloc);
        defs.push(InstanceTypeDecl::Alias(Alias {
            count: 1,
            i: last,
            kind: OuterAliasKind::OfType(before),
        }))?;
        before = Rc::new(alloc, DefType::Instance(InstanceType { defs }))?;
        assert_eq!(rt; scopes.depth(), 1);
        assert!(rt; scopes.len(0) < 100_000);
        scopes.push_type(Rc::clone(&before)?)?;
    }
    assert_eq!(rt; scopes.own_len(), 100_000);
    Ok(())
}

// Bool (01 00 00 00), and 999 types in one another: the first by 01 and its choice, each other by more, type (2 of
// alias, core type, type) and the choice. Only alias and core type are offered to the last, which is in the thousandth
// scope. It has an alias of the one entry of the component, 999 scopes out, spelled e7 07.
fn check_thousand_scopes<R: Abort + AllocGlobal>(
    rt: &R,
    choice: u8,
    spelled: u8,
) -> Result<(), Fail> {
    let config = Config {
        max_nesting_depth: 1000,
        max_type_size: 10_000,
        ..Config::default()
    };
    let first = [3, 1, 0, 0, 0, 1, choice];
    let mut input = repeated(rt.alloc(), &first, &[1, 2, choice], 998)?;
    input.extend_from_slice(b"\x01\x02")?;
    input.extend_from_slice(&[0; 1000])?;
    let mut front = Vec::from_slice(rt.alloc(), PREAMBLE)?;
    front.extend_from_slice(b"\x07\xbc\x17\x02\x7f")?;
    let mut bytes = repeated(rt.alloc(), &front, &[spelled, 1, 1], 998)?;
    bytes.extend_from_slice(&[spelled, 1, 2, 3, 2, 0xe7, 0x07, 0])?;
    let mut u = Unstructured::new(&input);
    let generated = generate(rt.alloc(), config, &mut u)?;
    assert!(rt; u.is_empty());
    assert_eq!(rt; generated.bytes.as_slice(), bytes.as_slice());
    Ok(())
}

#[test]
fn types_in_a_thousand_scopes(rt: HostRuntime) -> Result<(), Fail> {
    check_thousand_scopes(&rt, 2, 0x41)?;
    check_thousand_scopes(&rt, 3, 0x42)
}
