//! The offsets of the items of a component in the bytes that spell it.

ghost use Rattle.std.specs.Prelude.{◌≡◌, ◌≤◌, ℕ, List, ◌∷◌, [], ◌++◌, ◌+◌, ◌-◌, Some, length, map, IfOk};
ghost use Rattle.smith_format.specs.Piece.{◌⊕◌, many};
ghost use Rattle.smith_tree.specs.Grammar.{Spells, component_text, part, preamble};
ghost use Rattle.smith_tree.specs.Tree.{tree_of};
ghost use Rattle.smith_read.specs.PartNodes.{shown_part_node, shown_tree};
ghost use Rattle.smith_print.specs.Offsets.{contents_at, head_length, many_at, offsets_of, parts_at};
ghost use Rattle.smith_print.specs.Passing.{Places};

use crate::passing::{Passed, pass_bytes};
use smith_core::COMPONENT_PREAMBLE;
use smith_read::{ComponentTree, PartNode, Unread, byte_of, count_of};
use std::alloc::{AllocError, Global};

// Adds the offset of what is next, if these bytes are from there to the end.
fn place(offsets: &mut Vec<usize>, total: usize, bytes: &[u8]) -> Result<(), AllocError>
    ensures { IfOk result (λ _. offsets.new.items ≡ offsets.old.items ++ (total - length bytes.now) ∷ []) }
{
    offsets.push(total.saturating_sub(bytes.len()))?;
    Ok(())
}

// Adds that of so many bytes, and returns what follows them.
fn place_one<'a>(
    offsets: &mut Vec<usize>,
    total: usize,
    size: usize,
    bytes: &'a [u8],
) -> Result<&'a [u8], Unread>
    ensures { (rest contents : List ℕ) → size ≡ length contents → Some contents ⊕ Some rest ≡ Some bytes.now
        → Places result rest offsets.old.items offsets.new.items ((total - length bytes.now) ∷ []) }
{
    place(offsets, total, bytes)?;
    pass_bytes(bytes, size)
}

// Adds those of the entries of a list, which is behind its count, and returns what follows it.
fn place_list<'a, T: Passed>(
    offsets: &mut Vec<usize>,
    total: usize,
    entries: &[T],
    bytes: &'a [u8],
) -> Result<&'a [u8], Unread>
    ensures { (rest : List ℕ) → many T.piece entries.now ⊕ Some rest ≡ Some bytes.now → length bytes.now ≤ total
        → Places result rest offsets.old.items offsets.new.items
        (many_at T.piece (total - length bytes.now) entries.now) }
{
    let (_count, first) = count_of(bytes)?;
    let mut rest = first;
    for entry in entries {
        place(offsets, total, rest)?;
        rest = entry.pass(*offsets.allocator(), rest)?;
    }
    Ok(rest)
}

// Adds those of a section, and returns what follows it.
#[cycle(placing)]
fn place_part<'a>(
    offsets: &mut Vec<usize>,
    total: usize,
    node: &PartNode,
    bytes: &'a [u8],
) -> Result<&'a [u8], Unread>
    ensures { (rest : List ℕ) → part (shown_part_node node.now) ⊕ Some rest ≡ Some bytes.now
        → length bytes.now ≤ total → Places result rest offsets.old.items offsets.new.items
        (contents_at (total - length bytes.now + head_length (shown_part_node node.now)) (shown_part_node node.now)) }
{
    let (_id, framed) = byte_of(bytes)?;
    let (size, contents) = count_of(framed)?;
    match node {
        PartNode::Custom(_) => place_one(offsets, total, size as usize, contents),
        PartNode::CoreModule(_) => place_one(offsets, total, size as usize, contents),
        PartNode::CoreTypes(types) => place_list(offsets, total, types, contents),
        PartNode::Component(nodes) => {
            place(offsets, total, contents)?;
            place_parts(offsets, total, nodes, contents)
        }
        PartNode::Types(types) => place_list(offsets, total, types, contents),
        PartNode::Canons(canons) => place_list(offsets, total, canons, contents),
        PartNode::Imports(imports) => place_list(offsets, total, imports, contents),
        PartNode::Exports(exports) => place_list(offsets, total, exports, contents),
    }
}

// Adds those of the sections of a component, and returns what follows it.
#[cycle(placing)]
fn place_parts<'a>(
    offsets: &mut Vec<usize>,
    total: usize,
    nodes: &[PartNode],
    bytes: &'a [u8],
) -> Result<&'a [u8], Unread>
    ensures { (rest : List ℕ) → component_text (tree_of (map shown_part_node nodes.now)) ⊕ Some rest ≡ Some bytes.now
        → length bytes.now ≤ total → Places result rest offsets.old.items offsets.new.items
        (parts_at (total - length bytes.now + length preamble) (tree_of (map shown_part_node nodes.now))) }
{
    let first = pass_bytes(bytes, COMPONENT_PREAMBLE.len())?;
    let mut rest = first;
    for node in nodes {
        rest = place_part(offsets, total, node, rest)?;
    }
    Ok(rest)
}

/// The offsets of the items of a component in the bytes that spell it, in order.
pub(crate) fn offsets_of(
    alloc: Global,
    component: &ComponentTree,
    bytes: &[u8],
) -> Result<Vec<usize>, Unread>
    ensures { Spells (shown_tree component.now) bytes.now
        → IfOk result (λ found. found.items ≡ offsets_of (shown_tree component.now)) }
{
    let mut offsets = Vec::new(alloc);
    place_parts(&mut offsets, bytes.len(), &component.parts, bytes)?;
    Ok(offsets)
}
