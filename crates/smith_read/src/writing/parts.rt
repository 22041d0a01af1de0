//! Components (Binary.md, component definitions). Everything is written into one buffer, backwards: sections from the
//! last to the first, and the head of each in front of its contents.
#![tactic(auto, using(smith_format::proofs::Steps::writing))]

ghost use Rattle.std.specs.Prelude.{◌≡◌, None, IfErr, IfOk, map, string_bytes};
ghost use Rattle.smith_format.specs.Piece.{◌⊕◌, bytes, raw, sized, text};
ghost use Rattle.smith_tree.specs.Grammar.{Spells, canon, component_text, embedded, export_entry, part, preamble};
ghost use Rattle.smith_tree.specs.Tree.{tree_of};
ghost use Rattle.smith_read.specs.PartNodes.{shown_part_node, shown_tree};
ghost use Rattle.smith_tree.specs.Shown.{shown_canon, shown_export};
ghost use Rattle.smith_read.specs.Leads.{Precedes};
ghost use Rattle.smith_read.specs.declared.writing.error.WriteError.TheVariants.{NoEncoding};

use crate::writing::backwards::{put_head, put_section, reverse_from};
use crate::writing::error::WriteError;
use crate::writing::lists::{Written, put_list_section};
use crate::{ComponentTree, CustomSection, Export, Func, PartNode};
use smith_core::{COMPONENT_PREAMBLE, CORE_PREAMBLE};
use smith_format::{write_bytes, write_spelled};
use smith_input::Error;
use std::alloc::Global;

impl Written for Func {
    ghost piece = { λ f. canon (shown_canon f) };

    fn put(&self, out: &mut Vec<u8>) -> Result<(), Error> {
        write_spelled(out, self)
    }
}

impl Written for Export {
    ghost piece = { λ e. export_entry (shown_export e) };

    fn put(&self, out: &mut Vec<u8>) -> Result<(), Error> {
        write_spelled(out, self)
    }
}

fn put_custom(out: &mut Vec<u8>, section: &CustomSection) -> Result<(), Error>
    ensures { Precedes result out.old out.new
        (sized 0 (text (string_bytes section.now.name) ⊕ raw section.now.bytes.items)) }
{
    let start = out.len();
    write_spelled(out, section)?;
    put_section(out, start, 0)
}

fn put_core_module(out: &mut Vec<u8>, contents: &[u8]) -> Result<(), Error>
    ensures { Precedes result out.old out.new (sized 1 (embedded contents.now)) }
{
    if !contents.starts_with(&CORE_PREAMBLE) {
        return Err(Error::TooLong);
    }
    let start = out.len();
    write_bytes(out, contents)?;
    put_section(out, start, 1)
}

fn put_preamble(out: &mut Vec<u8>) -> Result<(), Error>
    ensures { Precedes result out.old out.new (bytes preamble) }
{
    let start = out.len();
    write_bytes(out, &COMPONENT_PREAMBLE)?;
    reverse_from(out, start);
    Ok(())
}

// Puts a section in front of what follows it.
#[cycle(writing)]
fn put_part(out: &mut Vec<u8>, node: &PartNode) -> Result<(), Error>
    ensures { Precedes result out.old out.new (part (shown_part_node node.now)) }
{
    match node {
        PartNode::Custom(section) => put_custom(out, section),
        PartNode::CoreModule(contents) => put_core_module(out, contents),
        PartNode::CoreTypes(types) => put_list_section(out, 3, types),
        PartNode::Component(nodes) => {
            let start = out.len();
            put_component(out, nodes)?;
            put_head(out, start, 4)
        }
        PartNode::Types(types) => put_list_section(out, 7, types),
        PartNode::Canons(canons) => put_list_section(out, 8, canons),
        PartNode::Imports(imports) => put_list_section(out, 10, imports),
        PartNode::Exports(exports) => put_list_section(out, 11, exports),
    }
}

// Puts a component of these sections in front of what follows it.
#[cycle(writing)]
fn put_component(out: &mut Vec<u8>, nodes: &[PartNode]) -> Result<(), Error>
    ensures { Precedes result out.old out.new (component_text (tree_of (map shown_part_node nodes.now))) }
{
    for index in (0..nodes.len()).rev() {
        put_part(out, &nodes[index])?;
    }
    put_preamble(out)
}

/// The bytes that spell the component.
///
/// It takes time in proportion to them, however deep sections are in one another, and stack in proportion to the depth
/// of the tree. A component that no bytes spell is refused with `NoEncoding`; otherwise it fails only when out of
/// memory.
pub fn write(alloc: Global, tree: &ComponentTree) -> Result<Vec<u8>, WriteError>
    ensures written { IfOk result (λ b. Spells (shown_tree tree.now) b.items) }
    ensures refuses { IfErr result (λ e. e ≡ NoEncoding → component_text (shown_tree tree.now) ≡ None) }
{
    let mut out = Vec::new(alloc);
    match put_component(&mut out, &tree.parts) {
        Ok(()) => {
            out.reverse();
            Ok(out)
        }
        Err(Error::TooLong) => Err(WriteError::NoEncoding),
        Err(_) => Err(WriteError::OutOfMemory),
    }
}
