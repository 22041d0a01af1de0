//! Allocations that fail while something is generated: each call returns `OutOfMemory` and leaves what it should, until
//! there is enough memory, and then it returns what it always returns.

use crate::common::{check_component, small_limits};
use crate::scarcity::while_memory_runs_out;
use smith_component::{Config, Error, Unstructured, generate};
use smith_core::configured_valtypes;
use smith_input::{unique_kebab_string, unique_url};
use smith_run::{RunError, run};
use smith_types::{DefType, FuncType, Scopes, arbitrary_type, write_type};
use std::alloc::Global;
use std::collections::BTreeSet;
use std::process::Abort;
use std::rc::Rc;
use std::test::Fail;

/// A name, an input that is used up, and the bytes of the component that is generated from it, after the preamble.
pub type Row<'a> = (&'a str, &'a [u8], &'a [u8]);

/// These inputs are read choice by choice in the rows of `smith_rows`.
pub const ROWS: &[Row<'static>] = &[
    (
        "a lift to a type that stands",
        b"\x03\x01\x01\x01\x01\x00\x06\x00\x01\x00\x00\x04\x01\x01\x01\x00\x00\
            \x05\x01\x01\x01\x01\x00\x07\x01\x00\x00",
        b"\x07\x08\x01\x40\x01\x01a\x79\x00\x7f\x0a\x06\x01\x00\x01b\x01\x00\
            \x08\x0a\x02\x01\x00\x00\x00\x00\x00\x00\x00\x00",
    ),
    (
        "a lift to a new type",
        b"\x03\x01\x01\x01\x01\x00\x06\x00\x01\x00\x00\x04\x01\x01\x01\x00\x00\
            \x05\x01\x01\x01\x01\x01\x00\x00\x00\x00",
        b"\x07\x08\x01\x40\x01\x01a\x79\x00\x7f\x0a\x06\x01\x00\x01b\x01\x00\
            \x08\x05\x01\x01\x00\x00\x00\x07\x08\x01\x40\x01\x01b\x74\x00\x74\
            \x08\x06\x01\x00\x00\x00\x00\x01",
    ),
    (
        "an outer alias",
        b"\x03\x01\x00\x00\x00\x01\x03\x01\x00\x00\x00\x00",
        b"\x07\x09\x02\x7f\x42\x01\x02\x03\x02\x01\x00",
    ),
    (
        "what the canonical ABI asks for",
        b"\x02\x01\x01",
        b"\x03\x4d\x01\x50\x05\x03\x06memory\x02\x00\x00\x01\x60\x04\x7f\x7f\x7f\x7f\x01\x7f\
            \x03\x15canonical_abi_realloc\x00\x00\x01\x60\x03\x7f\x7f\x7f\x00\
            \x03\x12canonical_abi_free\x00\x01",
    ),
    (
        "an alias, an import and an export in a component type",
        b"\x03\x01\x01\x00\x00\x01\x02\x01\x00\x01\x00\x01\x01\x00\x01\x01\x00\x00\
            \x01\x02\x00\x00\x00\x00",
        b"\x07\x19\x02\x40\x00\x01\x00\x41\x03\x02\x03\x02\x01\x00\x03\x00\x01b\x01\x00\
            \x04\x00\x01c\x03\x00\x00",
    ),
    (
        "an embedded module",
        b"\x06\x01\x00\x00\x00\x01\x01\x00\x00",
        b"\x01\x13\x00asm\x01\x00\x00\x00\x01\x04\x01\x60\x00\x00\x05\x03\x01\x00\x01",
    ),
];

// Custom (1), an empty text (0, 0), then 127 times more (1) and the byte 2a, no more (0), and no section after it
// (0); and the section that is generated from that.
fn section_of_127_bytes(alloc: Global) -> Result<(Vec<u8>, Vec<u8>), Fail> {
    let mut input = Vec::from_slice(alloc, b"\x01\x00\x00")?;
    let mut section = Vec::from_slice(alloc, b"\x00\x80\x01\x00")?;
    for _ in 0..127 {
        input.extend_from_slice(b"\x01\x2a")?;
        section.push(0x2a)?;
    }
    input.extend_from_slice(b"\x00\x00")?;
    Ok((input, section))
}

// The row's component is generated after refusals that leave a tail of its input.
fn check_refusals<R: Abort + AllocGlobal>(rt: &R, row: Row<'_>) -> Result<(), Fail> {
    let (name, input, bytes) = row;
    let (generated, _) = while_memory_runs_out(rt, name, || {
        let mut u = Unstructured::new(input);
        let answer = generate(rt.alloc(), small_limits(), &mut u);
        let is_left = answer.is_err() && input.ends_with(u.left());
        assert!(rt; is_left || u.is_empty(), "{name}");
        answer
    })?;
    check_component(rt, name, &generated.bytes, bytes);
    Ok(())
}

#[test]
fn components_while_memory_runs_out(rt: HostRuntime) -> Result<(), Fail> {
    for row in ROWS {
        check_refusals(&rt, *row)?;
    }
    let (input, bytes) = section_of_127_bytes(rt.alloc())?;
    check_refusals(&rt, ("a custom section of 127 bytes", &input, &bytes))
}

// The names are made of the same input, after refusals that leave the set as it was.
fn check_names<R: Abort + AllocGlobal>(
    rt: &R,
    expected: &[&str],
    is_url: bool,
) -> Result<(), Fail> {
    let alloc = rt.alloc();
    let mut names = BTreeSet::new(alloc);
    for (before, expected) in expected.iter().enumerate() {
        let (name, _) = while_memory_runs_out(rt, expected, || {
            let mut u = Unstructured::new(b"\x01\x00");
            let answer = if is_url {
                unique_url(alloc, 100, &mut names, &mut u)
            } else {
                unique_kebab_string(alloc, 100, &mut names, &mut u)
            };
            assert!(rt; answer.is_ok() || names.len() == before, "{expected}");
            answer
        })?;
        assert_eq!(rt; name.as_str(), *expected);
    }
    Ok(())
}

#[test]
fn names_and_urls_while_memory_runs_out(rt: HostRuntime) -> Result<(), Fail> {
    check_names(&rt, &["a", "a1"], false)?;
    let urls = ["https://example.com/a", "https://example.com/a1"];
    check_names(&rt, &urls, true)
}

// A component type (2) with an alias, an import and an export, in the scope of a function type of nothing.
const COMPONENT_TYPE: &[u8] = b"\x02\x01\x00\x01\x00\x01\x01\x00\x01\x01\x00\x00\x01\x02\x00\x00";

fn component_type<R: Abort + AllocGlobal>(
    rt: &R,
    scopes: &mut Scopes,
) -> Result<Rc<DefType>, Error> {
    let config = small_limits();
    config.check()?;
    let valtypes = configured_valtypes(rt.alloc(), &config)?;
    let depth = scopes.depth();
    assert!(rt; depth == 1);
    let mut fuel = 10;
    let mut u = Unstructured::new(COMPONENT_TYPE);
    arbitrary_type(rt.alloc(), &mut u, &config, &valtypes, scopes, &mut fuel)
}

#[test]
fn a_type_while_memory_runs_out(rt: HostRuntime) -> Result<(), Fail> {
    let mut scopes = Scopes::new(rt.alloc());
    let func = FuncType {
        params: Vec::new(rt.alloc()),
        result: None,
    };
    let func = DefType::Func(Rc::new(rt.alloc(), func)?);
    scopes.push_type(Rc::new(rt.alloc(), func)?)?;
    let (ty, _) = while_memory_runs_out(&rt, "a component type", || {
        let answer = component_type(&rt, &mut scopes);
        assert_eq!(rt; (scopes.depth(), scopes.own_len()), (1, 1));
        answer
    })?;
    let mut out = Vec::new(rt.alloc());
    write_type(&mut out, &ty)?;
    let expected = b"\x41\x03\x02\x03\x02\x01\x00\x03\x00\x01b\x01\x00\x04\x00\x01c\x03\x00\x00";
    assert_eq!(rt; out.as_slice(), expected.as_slice());
    Ok(())
}

const PAGE: &[u8] = b"00 61 73 6d 0d 00 01 00 07 02 01 79\nleft 1\n";

// The page is written to room that was there before.
#[test]
fn nothing_is_written_while_memory_runs_out(rt: HostRuntime) -> Result<(), Fail> {
    let alloc = rt.alloc();
    let mut text = Vec::with_capacity(alloc, 100)?;
    while_memory_runs_out(&rt, "a page", || {
        let mut reader: &[u8] = &[3, 1, 0, 0, 6, 0, 0, 255];
        match run(alloc, &mut reader, &mut text, Config::default()) {
            Ok(()) => Ok(()),
            Err(error) => {
                assert_eq!(rt; error, RunError::Refused(Error::OutOfMemory));
                assert!(rt; text.is_empty());
                Err(Error::OutOfMemory)
            }
        }
    })?;
    assert_eq!(rt; text.as_slice(), PAGE);
    Ok(())
}
