//! Components read back whose scopes nest as deep as they may, within the default stack.

use crate::common::PREAMBLE;
use smith_core::write_section;
use smith_read::{MOST_DEPTH, ReadError, Reason, read};
use std::alloc::Global;
use std::test::Fail;

// Components in one another, types with that tag in one another in the innermost of them, and how far before the end
// they are too deep. The innermost component is of the eight bytes of its preamble if there are no types, and the
// innermost type is of two. The component itself is the first scope.
const ROWS: &[(&str, u32, u8, u32, Option<usize>)] = &[
    ("components", MOST_DEPTH, 0, 0, None),
    ("components, one more", MOST_DEPTH + 1, 0, 0, Some(8)),
    ("component types", 1, 0x41, MOST_DEPTH - 1, None),
    ("component types, one more", 1, 0x41, MOST_DEPTH, Some(2)),
    ("instance types", 1, 0x42, MOST_DEPTH - 1, None),
    ("instance types, one more", 1, 0x42, MOST_DEPTH, Some(2)),
    ("both", 500, 0x42, MOST_DEPTH - 500, None),
    ("both, one more", 500, 0x42, MOST_DEPTH - 499, Some(2)),
];

// A component with one section.
fn with_section(alloc: Global, id: u8, contents: &[u8]) -> Result<Vec<u8>, Fail> {
    let mut component = Vec::from_slice(alloc, PREAMBLE)?;
    write_section(&mut component, id, contents)?;
    Ok(component)
}

// A component of one type, with types nested that deep, or of nothing.
fn innermost(alloc: Global, tag: u8, types: u32) -> Result<Vec<u8>, Fail> {
    if types == 0 {
        return Ok(Vec::from_slice(alloc, PREAMBLE)?);
    }
    let mut contents = Vec::from_slice(alloc, &[1])?;
    for _ in 1..types {
        contents.extend_from_slice(&[tag, 1, 1])?;
    }
    contents.extend_from_slice(&[tag, 0])?;
    with_section(alloc, 7, &contents)
}

fn nested(alloc: Global, components: u32, tag: u8, types: u32) -> Result<Vec<u8>, Fail> {
    let mut bytes = innermost(alloc, tag, types)?;
    for _ in 1..components {
        bytes = with_section(alloc, 4, &bytes)?;
    }
    Ok(bytes)
}

// How many parts are read, or what is wrong.
fn parts_of(alloc: Global, bytes: &[u8]) -> Result<usize, ReadError> {
    Ok(read(alloc, bytes)?.parts.len())
}

#[test]
fn components_and_types_at_the_greatest_depth(rt: HostRuntime) -> Result<(), Fail> {
    for (name, components, tag, types, fault) in ROWS {
        let bytes = nested(rt.alloc(), *components, *tag, *types)?;
        let expected = match fault {
            Some(before) => Err(ReadError::Malformed {
                offset: bytes.len().saturating_sub(*before),
                reason: Reason::Depth,
            }),
            None => Ok(1),
        };
        assert_eq!(rt; parts_of(rt.alloc(), &bytes), expected, "{name}");
    }
    Ok(())
}
