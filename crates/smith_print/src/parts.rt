//! Components as text (Explainer.md, component definitions).

ghost use Rattle.std.specs.Prelude.{◌≡◌, Some, None, IfErr, IfOk, drop, length, map, string_bytes};
ghost use Rattle.smith_print.specs.Components.{after_component, after_function, after_module, after_part, closing};
ghost use Rattle.smith_print.specs.Components.{core_module_text, custom_text, export_entry_text, head_text};
ghost use Rattle.smith_print.specs.Components.{module_head_text, part_text};
ghost use Rattle.smith_print.specs.Components.{parts_text, text_of, text_with};
ghost use Rattle.smith_print.specs.Externs.{canon_text, import_text};
ghost use Rattle.smith_print.specs.Lines.{after_all, entry_lines};
ghost use Rattle.smith_print.specs.Offsets.{offsets_of};
ghost use Rattle.smith_print.specs.Printing.{Prints, PrintsPiece};
ghost use Rattle.smith_format.specs.Piece.{bytes};
ghost use Rattle.smith_print.specs.Spaces.{after_canon, after_extern, nothing};
ghost use Rattle.smith_print.specs.Words.{deeper};
ghost use Rattle.smith_print.specs.declared.error.PrintError.TheVariants.{OtherCoreModule};
ghost use Rattle.smith_read.specs.Items.{items, items_in};
ghost use Rattle.smith_read.specs.ModuleSections.{stand_in_at};
ghost use Rattle.smith_read.specs.PartNodes.{shown_import_node, shown_part_node, shown_tree};
ghost use Rattle.smith_tree.specs.Grammar.{Spells};
ghost use Rattle.smith_tree.specs.Shown.{shown_canon, shown_export};
ghost use Rattle.smith_tree.specs.Tree.{tree_of};

use crate::error::PrintError;
use crate::externs::{print_canon, print_import};
use crate::lines::{Line, Offsets, begin_entry, print_end, print_entries};
use crate::modules::print_module;
use crate::offsets::offsets_of;
use crate::spaces::{IndexSpaces, next};
use crate::words::{Quoted, deeper};
use smith_read::{
    ComponentTree, CustomSection, Export, Func, ImportNode, PartNode, Unread, module_sections_of,
};
use std::alloc::{AllocError, Global};

impl Line for Func {
    ghost text = { λ f _. canon_text (shown_canon f) };

    ghost after = { λ f. after_canon (shown_canon f) };

    fn print(
        &self,
        out: &mut String,
        _columns: usize,
        spaces: &mut IndexSpaces,
    ) -> Result<(), AllocError> {
        print_canon(out, spaces, self)
    }
}

impl Line for ImportNode {
    ghost text = { λ i _. import_text (string_bytes i.name) i.to };

    ghost after = { λ i. after_extern i.to };

    fn print(
        &self,
        out: &mut String,
        _columns: usize,
        spaces: &mut IndexSpaces,
    ) -> Result<(), AllocError> {
        print_import(out, spaces, &self.name, self.to)
    }
}

impl Line for Export {
    ghost text = { λ e _. export_entry_text (shown_export e) };

    ghost after = { λ e. after_function };

    fn print(
        &self,
        out: &mut String,
        _columns: usize,
        spaces: &mut IndexSpaces,
    ) -> Result<(), AllocError> {
        let index = next(&mut spaces.functions)?;
        let name = Quoted(self.name.as_bytes());
        let func = self.func_index;
        write!(out, "(export (;{index};) {name} (func {func}))")
    }
}

fn print_custom(
    out: &mut String,
    columns: usize,
    offsets: &mut Offsets<'_>,
    section: &CustomSection,
) -> Result<(), AllocError>
    ensures printed { Prints result out.old out.new
        (custom_text (string_bytes section.now.name) section.now.bytes.items columns offsets.old.left.now) }
    ensures passed { IfOk result (λ _. offsets.new.left.now ≡ drop 1 offsets.old.left.now) }
{
    begin_entry(out, columns, offsets)?;
    let name = Quoted(section.name.as_bytes());
    let contents = Quoted(&section.bytes);
    write!(out, "(@custom {name} {contents})")
}

// The head of a core module under its index.
fn print_module_head(
    out: &mut String,
    columns: usize,
    spaces: &mut IndexSpaces,
    offsets: &mut Offsets<'_>,
) -> Result<(), AllocError>
    ensures printed { Prints result out.old out.new (module_head_text columns spaces.old offsets.old.left.now) }
    ensures indexes { IfOk result (λ _. spaces.new ≡ after_module spaces.old) }
    ensures passed { IfOk result (λ _. offsets.new.left.now ≡ drop 1 offsets.old.left.now) }
{
    begin_entry(out, columns, offsets)?;
    let index = next(&mut spaces.modules)?;
    write!(out, "(core module (;{index};)")
}

// A core module under its index.
fn print_core_module(
    out: &mut String,
    columns: usize,
    spaces: &mut IndexSpaces,
    offsets: &mut Offsets<'_>,
    bytes: &[u8],
) -> Result<(), PrintError>
    ensures printed { PrintsPiece result out.old out.new
        (core_module_text (stand_in_at bytes.now) columns spaces.old offsets.old.left.now) }
    ensures indexes { IfOk result (λ _. spaces.new ≡ after_module spaces.old) }
    ensures passed { IfOk result (λ _. offsets.new.left.now ≡ drop 1 offsets.old.left.now) }
{
    let sections = match module_sections_of(*out.allocator(), bytes) {
        Ok(sections) => sections,
        Err(Unread::OutOfMemory) => return Err(PrintError::OutOfMemory),
        Err(Unread::Malformed { .. }) => return Err(PrintError::OtherCoreModule),
    };
    print_module_head(out, columns, spaces, offsets)?;
    print_module(out, columns, &sections)?;
    Ok(())
}

fn print_list<T: Line>(
    out: &mut String,
    columns: usize,
    spaces: &mut IndexSpaces,
    offsets: &mut Offsets<'_>,
    entries: &[T],
) -> Result<(), PrintError>
    ensures printed { PrintsPiece result out.old out.new
        (bytes (entry_lines T.text T.after columns spaces.old offsets.old.left.now entries.now)) }
    ensures indexes { IfOk result (λ _. spaces.new ≡ after_all T.after spaces.old entries.now) }
    ensures passed { IfOk result (λ _. offsets.new.left.now ≡ drop (length entries.now) offsets.old.left.now) }
{
    print_entries(out, columns, spaces, offsets, entries)?;
    Ok(())
}

// The head of a component under its index.
fn print_head(
    out: &mut String,
    columns: usize,
    spaces: &mut IndexSpaces,
    offsets: &mut Offsets<'_>,
) -> Result<(), AllocError>
    ensures printed { Prints result out.old out.new (head_text columns spaces.old offsets.old.left.now) }
    ensures indexes { IfOk result (λ _. spaces.new ≡ after_component spaces.old) }
    ensures passed { IfOk result (λ _. offsets.new.left.now ≡ drop 1 offsets.old.left.now) }
{
    begin_entry(out, columns, offsets)?;
    let index = next(&mut spaces.components)?;
    write!(out, "(component (;{index};)")
}

#[cycle(printing)]
fn print_part(
    out: &mut String,
    columns: usize,
    spaces: &mut IndexSpaces,
    offsets: &mut Offsets<'_>,
    node: &PartNode,
) -> Result<(), PrintError>
    ensures printed { PrintsPiece result out.old out.new
        (part_text (shown_part_node node.now) columns spaces.old offsets.old.left.now) }
    ensures indexes { IfOk result (λ _. spaces.new ≡ after_part (shown_part_node node.now) spaces.old) }
    ensures passed { IfOk result (λ _.
        offsets.new.left.now ≡ drop (items_in (shown_part_node node.now)) offsets.old.left.now) }
{
    match node {
        PartNode::Custom(section) => {
            print_custom(out, columns, offsets, section)?;
            Ok(())
        }
        PartNode::CoreModule(bytes) => print_core_module(out, columns, spaces, offsets, bytes),
        PartNode::CoreTypes(types) => print_list(out, columns, spaces, offsets, types),
        PartNode::Component(nodes) => {
            print_head(out, columns, spaces, offsets)?;
            print_component(out, columns, offsets, nodes)
        }
        PartNode::Types(types) => print_list(out, columns, spaces, offsets, types),
        PartNode::Canons(canons) => print_list(out, columns, spaces, offsets, canons),
        PartNode::Imports(imports) => print_list(out, columns, spaces, offsets, imports),
        PartNode::Exports(exports) => print_list(out, columns, spaces, offsets, exports),
    }
}

// The sections of a component, and its end.
#[cycle(printing)]
fn print_component(
    out: &mut String,
    columns: usize,
    offsets: &mut Offsets<'_>,
    nodes: &[PartNode],
) -> Result<(), PrintError>
    ensures printed { PrintsPiece result out.old out.new (closing columns (parts_text
        (tree_of (map shown_part_node nodes.now)) (deeper columns) nothing offsets.old.left.now)) }
    ensures passed { IfOk result (λ _.
        offsets.new.left.now ≡ drop (items (tree_of (map shown_part_node nodes.now))) offsets.old.left.now) }
{
    let start = out.len();
    let mut spaces = IndexSpaces::new();
    for node in nodes {
        print_part(out, deeper(columns), &mut spaces, offsets, node)?;
    }
    print_end(out, columns, start)?;
    Ok(())
}

/// The text of a component, well formed or not, which ends in a line feed.
///
/// It takes time and memory in proportion to the text, and stack in proportion to the depth of the tree. A component
/// with a core module that has more than function types and memories is refused; otherwise it fails only when out of
/// memory.
pub fn print(alloc: Global, component: &ComponentTree) -> Result<String, PrintError>
    ensures printed { IfOk result (λ text. text_of (shown_tree component.now) ≡ Some (string_bytes text)) }
    ensures refused { IfErr result (λ e. e ≡ OtherCoreModule → text_of (shown_tree component.now) ≡ None) }
{
    print_with(alloc, component, &[])
}

// The same with these offsets, each as a comment before the item of that number, as `offset_of` of `smith_read` counts
// items. Those that are missing are left out.
fn print_with(
    alloc: Global,
    component: &ComponentTree,
    offsets: &[usize],
) -> Result<String, PrintError>
    ensures printed { IfOk result (λ text.
        text_with offsets.now (shown_tree component.now) ≡ Some (string_bytes text)) }
    ensures refused { IfErr result (λ e. e ≡ OtherCoreModule
        → text_with offsets.now (shown_tree component.now) ≡ None) }
{
    let mut out = String::new(alloc);
    write!(out, "(component")?;
    let mut offsets = Offsets { left: offsets };
    print_component(&mut out, 0, &mut offsets, &component.parts)?;
    write!(out, "\n")?;
    Ok(out)
}

/// The same with the offset of each item, as a comment before it: that of `offset_of` of `smith_read` in the bytes that
/// the component was read from. It takes time and memory in proportion to these and the text.
pub fn print_with_offsets(
    alloc: Global,
    component: &ComponentTree,
    bytes: &[u8],
) -> Result<String, PrintError>
    ensures printed { Spells (shown_tree component.now) bytes.now → IfOk result (λ text.
        text_with (offsets_of (shown_tree component.now)) (shown_tree component.now) ≡ Some (string_bytes text)) }
    ensures refused { Spells (shown_tree component.now) bytes.now → IfErr result (λ e. e ≡ OtherCoreModule
        → text_with (offsets_of (shown_tree component.now)) (shown_tree component.now) ≡ None) }
{
    match offsets_of(alloc, component, bytes) {
        Ok(offsets) => print_with(alloc, component, &offsets),
        Err(_) => Err(PrintError::OutOfMemory),
    }
}
