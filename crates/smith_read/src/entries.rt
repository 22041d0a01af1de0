//! Types that hold types.

ghost use Rattle.std.specs.Prelude.{map};
ghost use Rattle.smith_read.specs.Reading.{Gives, seen, times_at};
ghost use Rattle.smith_read.specs.Levels.{outer_at, outer_decl, import_after, leaf_after, decl_at, entry_after};
ghost use Rattle.smith_read.specs.Levels.{entry_at, types_at};
ghost use Rattle.smith_read.specs.TypeNodes.{shown_type_node, shown_decl_node};

use crate::core_types::CoreNode;
use crate::externs::named_of;
use crate::lists::{Readable, skip};
use crate::numbers::{byte_of, count_of};
use crate::type_nodes::{DeclNode, TypeNode};
use crate::types::{defined_of, function_of};
use crate::unread::{Reason, Unread, malformed, malformed_before};
use std::alloc::Global;

// An outer alias after the byte that says that it is one.
#[tactic(auto, unfolding(crate::specs::Levels::outer_at, crate::specs::Levels::outer_after))]
fn outer_of(bytes: &[u8]) -> Result<(DeclNode, &[u8]), Unread>
    ensures { Gives (λ x. (shown_decl_node x.0, x.1.now)) result (seen outer_decl (outer_at bytes.now)) }
{
    let (tag, rest) = byte_of(bytes)?;
    match tag {
        0x03 => {
            let rest = skip(rest, 0x02)?;
            let (count, rest) = count_of(rest)?;
            let (index, rest) = count_of(rest)?;
            Ok((DeclNode::TypeAlias { count, index }, rest))
        }
        0x00 => {
            let rest = skip(rest, 0x10)?;
            let rest = skip(rest, 0x02)?;
            let (count, rest) = count_of(rest)?;
            let (index, rest) = count_of(rest)?;
            Ok((DeclNode::CoreTypeAlias { count, index }, rest))
        }
        _ => Err(malformed(bytes, Reason::Byte)),
    }
}

// A type that holds no types, after its first byte.
#[tactic(auto, unfolding(crate::specs::Levels::leaf_after))]
fn leaf_of(alloc: Global, tag: u8, bytes: &[u8]) -> Result<(TypeNode, &[u8]), Unread>
    ensures { Gives (λ x. (shown_type_node x.0, x.1.now)) result (leaf_after tag bytes.now) }
{
    if tag == 0x40 {
        let (ty, rest) = function_of(alloc, bytes)?;
        return Ok((TypeNode::Func(ty), rest));
    }
    let (ty, rest) = defined_of(alloc, tag, bytes)?;
    Ok((TypeNode::Defined(ty), rest))
}

// The same if no type may hold types.
#[tactic(auto, unfolding(crate::specs::Levels::leaf_after, crate::specs::Types::defined_after, crate::specs::Types::primitive_of))]
fn last_of(alloc: Global, tag: u8, bytes: &[u8]) -> Result<(TypeNode, &[u8]), Unread>
    ensures { Gives (λ x. (shown_type_node x.0, x.1.now)) result (leaf_after tag bytes.now) }
{
    match tag {
        0x41 | 0x42 => Err(malformed_before(bytes, Reason::Depth)),
        _ => leaf_of(alloc, tag, bytes),
    }
}

// An import, which instance types do not have, after its first byte.
#[tactic(auto, unfolding(crate::specs::Levels::import_after))]
fn import_of(alloc: Global, importing: bool, bytes: &[u8]) -> Result<(DeclNode, &[u8]), Unread>
    ensures { Gives (λ x. (shown_decl_node x.0, x.1.now)) result (import_after importing bytes.now) }
{
    if !importing {
        return Err(malformed_before(bytes, Reason::Byte));
    }
    let ((name, to), rest) = named_of(alloc, bytes)?;
    Ok((DeclNode::Import { name, to }, rest))
}

#[cycle(reading)]
#[tactic(auto, unfolding(crate::specs::Levels::decl_at, crate::specs::Levels::decl_after))]
fn decl_of(
    alloc: Global,
    levels: u32,
    importing: bool,
    bytes: &[u8],
) -> Result<(DeclNode, &[u8]), Unread>
    ensures { Gives (λ x. (shown_decl_node x.0, x.1.now)) result (decl_at (entry_after levels) importing bytes.now) }
{
    let (tag, rest) = byte_of(bytes)?;
    match tag {
        0x00 => {
            let (ty, rest) = CoreNode::read(alloc, rest)?;
            Ok((DeclNode::Core(ty), rest))
        }
        0x01 => {
            let (tag, rest) = byte_of(rest)?;
            let (ty, rest) = entry_of(alloc, levels, tag, rest)?;
            Ok((DeclNode::Type(ty), rest))
        }
        0x02 => outer_of(rest),
        0x03 => import_of(alloc, importing, rest),
        0x04 => {
            let ((name, to), rest) = named_of(alloc, rest)?;
            Ok((DeclNode::Export { name, to }, rest))
        }
        _ => Err(malformed(bytes, Reason::Byte)),
    }
}

#[cycle(reading)]
fn decls_of(
    alloc: Global,
    levels: u32,
    importing: bool,
    count: u32,
    bytes: &[u8],
) -> Result<(Vec<DeclNode>, &[u8]), Unread>
    ensures { Gives (λ x. (map shown_decl_node x.0.items, x.1.now))
        result (times_at (decl_at (entry_after levels) importing) count bytes.now) }
{
    let mut decls = Vec::new(alloc);
    let mut rest = bytes;
    for _ in 0..count {
        let (decl, after) = decl_of(alloc, levels, importing, rest)?;
        decls.push(decl)?;
        rest = after;
    }
    Ok((decls, rest))
}

// A type after its first byte, with at most that many levels of types that hold types.
#[cycle(reading)]
#[tactic(auto, unfolding(crate::specs::Levels::around_after, crate::specs::Reading::many_at), using(crate::proofs::Levels::levels_none, crate::proofs::Levels::levels_some))]
fn entry_of(alloc: Global, levels: u32, tag: u8, bytes: &[u8]) -> Result<(TypeNode, &[u8]), Unread>
    ensures { Gives (λ x. (shown_type_node x.0, x.1.now)) result (entry_after levels tag bytes.now) }
{
    if levels == 0 {
        return last_of(alloc, tag, bytes);
    }
    match tag {
        0x41 => {
            let (count, rest) = count_of(bytes)?;
            let (decls, rest) = decls_of(alloc, levels - 1, true, count, rest)?;
            Ok((TypeNode::Component(decls), rest))
        }
        0x42 => {
            let (count, rest) = count_of(bytes)?;
            let (decls, rest) = decls_of(alloc, levels - 1, false, count, rest)?;
            Ok((TypeNode::Instance(decls), rest))
        }
        _ => leaf_of(alloc, tag, bytes),
    }
}

// A type with at most that many levels of types that hold types.
#[tactic(auto, unfolding(crate::specs::Levels::entry_at))]
fn type_of(alloc: Global, levels: u32, bytes: &[u8]) -> Result<(TypeNode, &[u8]), Unread>
    ensures { Gives (λ x. (shown_type_node x.0, x.1.now)) result (entry_at levels bytes.now) }
{
    let (tag, rest) = byte_of(bytes)?;
    entry_of(alloc, levels, tag, rest)
}

pub(crate) fn types_of(
    alloc: Global,
    levels: u32,
    count: u32,
    bytes: &[u8],
) -> Result<(Vec<TypeNode>, &[u8]), Unread>
    ensures { Gives (λ x. (map shown_type_node x.0.items, x.1.now))
        result (times_at (entry_at levels) count bytes.now) }
{
    let mut types = Vec::new(alloc);
    let mut rest = bytes;
    for _ in 0..count {
        let (ty, after) = type_of(alloc, levels, rest)?;
        types.push(ty)?;
        rest = after;
    }
    Ok((types, rest))
}

/// The contents of a type section.
#[tactic(auto, unfolding(crate::specs::Levels::types_at, crate::specs::Reading::many_at))]
pub fn contents_of(alloc: Global, levels: u32, bytes: &[u8]) -> Result<Vec<TypeNode>, Unread>
    ensures { Gives (λ x. map shown_type_node x.items) result (types_at levels bytes.now) }
{
    let (count, rest) = count_of(bytes)?;
    let (types, rest) = types_of(alloc, levels, count, rest)?;
    if !rest.is_empty() {
        return Err(malformed(rest, Reason::LeftOver));
    }
    Ok(types)
}
