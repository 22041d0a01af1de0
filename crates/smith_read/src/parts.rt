//! Sections of components.

ghost use Rattle.std.specs.Prelude.{length, map, string_bytes, IfErr};
ghost use Rattle.smith_format.specs.Piece.{raw};
ghost use Rattle.smith_syntax.specs.Entries.{ImportEntry};
ghost use Rattle.smith_tree.specs.Grammar.{embedded};
ghost use Rattle.smith_tree.specs.Tree.{tree_of};
ghost use Rattle.smith_read.specs.Reading.{Gives};
ghost use Rattle.smith_read.specs.Parts.{component_at, custom_all, list_all_at, part_at, import_at, parts_at};
ghost use Rattle.smith_read.specs.Parts.{preamble_at, section_at};
ghost use Rattle.smith_read.specs.PartNodes.{shown_import_node, shown_part_node};
ghost use Rattle.smith_read.specs.Reads.{IsWithin, Reads};

use crate::error::{ReadError, placed, with_rest};
use crate::nodes::{ComponentTree, ImportNode, PartNode};
use crate::{
    Readable, Reason, Unread, byte_of, contents_of, frame_of, malformed, many_of, named_of,
    read_text,
};
use smith_core::{COMPONENT_PREAMBLE, CORE_PREAMBLE};
use smith_tree::CustomSection;
use std::alloc::Global;

/// How deep scopes may be: one deeper than the nesting of components that a `Config` may allow, which is how deep
/// component types and instance types in the deepest component may be.
pub const MOST_DEPTH: u32 = 1001;

impl Readable for ImportNode {
    ghost Shown = { ImportEntry };

    ghost shown = { shown_import_node };

    ghost reading = { import_at };

    #[tactic(auto, unfolding(crate::specs::Parts::import_at))]
    fn read(alloc: Global, bytes: &[u8]) -> Result<(ImportNode, &[u8]), Unread> {
        let ((name, to), rest) = named_of(alloc, bytes)?;
        Ok((ImportNode { name, to }, rest))
    }
}

// Bytes as they are.
#[tactic(auto, using(smith_format::proofs::Piece::raw_is))]
fn raw_of(alloc: Global, bytes: &[u8]) -> Result<Vec<u8>, Unread>
    ensures { Gives (λ x. x.items) result (raw bytes.now) }
{
    Ok(Vec::from_slice(alloc, bytes)?)
}

// A core module: any bytes that begin with the core preamble.
#[tactic(auto, unfolding(smith_tree::specs::Grammar::embedded))]
fn embedded_of(alloc: Global, bytes: &[u8]) -> Result<Vec<u8>, Unread>
    ensures { Gives (λ x. x.items) result (embedded bytes.now) }
{
    if !bytes.starts_with(&CORE_PREAMBLE) {
        return Err(malformed(bytes, Reason::Preamble));
    }
    raw_of(alloc, bytes)
}

// The contents of a custom section.
#[tactic(auto, unfolding(crate::specs::Parts::custom_all))]
fn custom_of(alloc: Global, bytes: &[u8]) -> Result<CustomSection, Unread>
    ensures { Gives (λ s. (string_bytes s.name, s.bytes.items)) result (custom_all bytes.now) }
{
    let (name, rest) = read_text(alloc, bytes)?;
    let bytes = raw_of(alloc, rest)?;
    Ok(CustomSection { name, bytes })
}

// The contents of a section that is a list.
#[tactic(auto, unfolding(crate::specs::Parts::list_all_at))]
fn list_of<T: Readable>(alloc: Global, bytes: &[u8]) -> Result<Vec<T>, Unread>
    ensures { Gives (λ x. map T.shown x.items) result (list_all_at T.reading bytes.now) }
{
    let (items, rest) = many_of(alloc, bytes)?;
    if !rest.is_empty() {
        return Err(malformed(rest, Reason::LeftOver));
    }
    Ok(items)
}

// What follows the preamble.
#[tactic(auto, unfolding(crate::specs::Parts::preamble_at))]
pub(crate) fn preamble_of(bytes: &[u8]) -> Result<&[u8], Unread>
    ensures { Gives (λ x. x.now) result (preamble_at bytes.now) }
{
    if !bytes.starts_with(&COMPONENT_PREAMBLE) {
        return Err(malformed(bytes, Reason::Preamble));
    }
    Ok(&bytes[COMPONENT_PREAMBLE.len()..])
}

// The section of that id that these bytes fill.
#[cycle(reading)]
#[tactic(auto, unfolding(crate::specs::Parts::section_at))]
fn section_of(alloc: Global, depth: u32, id: u8, bytes: &[u8]) -> Result<PartNode, Unread>
    ensures { Gives (λ x. shown_part_node x) result (section_at depth (component_at depth) id bytes.now) }
{
    match id {
        0 => Ok(PartNode::Custom(custom_of(alloc, bytes)?)),
        1 => Ok(PartNode::CoreModule(embedded_of(alloc, bytes)?)),
        3 => Ok(PartNode::CoreTypes(list_of(alloc, bytes)?)),
        4 => Ok(PartNode::Component(sections_of(alloc, depth, bytes)?)),
        7 => Ok(PartNode::Types(contents_of(alloc, depth, bytes)?)),
        8 => Ok(PartNode::Canons(list_of(alloc, bytes)?)),
        10 => Ok(PartNode::Imports(list_of(alloc, bytes)?)),
        11 => Ok(PartNode::Exports(list_of(alloc, bytes)?)),
        _ => Err(malformed(bytes, Reason::Byte)),
    }
}

#[cycle(reading)]
#[tactic(auto, unfolding(crate::specs::Parts::part_at, crate::specs::Parts::section_at))]
fn part_of(alloc: Global, depth: u32, bytes: &[u8]) -> Result<(PartNode, &[u8]), Unread>
    ensures { Gives (λ x. (shown_part_node x.0, x.1.now)) result (part_at depth (component_at depth) bytes.now) }
{
    let (id, rest) = byte_of(bytes)?;
    match id {
        0 | 1 | 3 | 4 | 7 | 8 | 10 | 11 => {
            let (inside, rest) = frame_of(rest)?;
            let part = with_rest(section_of(alloc, depth, id, inside), rest)?;
            Ok((part, rest))
        }
        2 | 5 | 6 | 9 | 12 => Err(malformed(bytes, Reason::Section)),
        _ => Err(malformed(bytes, Reason::Byte)),
    }
}

#[cycle(reading)]
fn parts_of(alloc: Global, depth: u32, bytes: &[u8]) -> Result<Vec<PartNode>, Unread>
    ensures { Gives (λ v. map shown_part_node v.items)
        result (parts_at depth (component_at depth) (length bytes.now) bytes.now) }
{
    let mut parts = Vec::new(alloc);
    let mut rest = bytes;
    for _ in 0..bytes.len() {
        if rest.is_empty() {
            break;
        }
        let (part, after) = part_of(alloc, depth, rest)?;
        parts.push(part)?;
        rest = after;
    }
    if !rest.is_empty() {
        return Err(malformed(rest, Reason::LeftOver));
    }
    Ok(parts)
}

#[cycle(reading)]
#[tactic(auto, unfolding(crate::specs::Parts::contents_at), using(crate::proofs::Depth::depths))]
fn sections_of(alloc: Global, depth: u32, bytes: &[u8]) -> Result<Vec<PartNode>, Unread>
    ensures { Gives (λ v. tree_of (map shown_part_node v.items)) result (component_at depth bytes.now) }
{
    if depth == 0 {
        return Err(malformed(bytes, Reason::Depth));
    }
    let rest = preamble_of(bytes)?;
    let parts = parts_of(alloc, depth - 1, rest)?;
    Ok(parts)
}

/// The component that the bytes spell, if its scopes are at most `MOST_DEPTH` deep: components in one another, and
/// component types and instance types in them.
///
/// It reads each byte once, and takes stack only in proportion to the depth. Bytes that spell no such component are
/// refused with `Malformed`; otherwise it fails only when out of memory.
pub fn read(alloc: Global, bytes: &[u8]) -> Result<ComponentTree, ReadError>
    // What is read is spelled so and is at most `MOST_DEPTH` deep, and what is spelled so is read.
    ensures reads { Reads result bytes.now }
    // What is wrong was seen in the bytes, or at their end.
    ensures offset { IfErr result (IsWithin (length bytes.now)) }
{
    match sections_of(alloc, MOST_DEPTH, bytes) {
        Ok(parts) => Ok(ComponentTree { parts }),
        Err(unread) => Err(placed(bytes, unread)),
    }
}
