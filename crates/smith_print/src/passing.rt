//! Entries of sections in the bytes of a component, passed one after another: their nodes have no offsets.

ghost use Rattle.std.specs.Prelude.{◌≡◌, ℕ, Bool, List, Some, length};
ghost use Rattle.smith_format.specs.Piece.{Piece, ◌⊕◌, byte, many, u};
ghost use Rattle.smith_format.specs.Writing.{piece_length};
ghost use Rattle.smith_syntax.specs.Grammar.{core_entry, decl, defvaltype, entry, functype, import_entry};
ghost use Rattle.smith_syntax.specs.Shown.{shown_defined};
ghost use Rattle.smith_tree.specs.Grammar.{canon, export_entry};
ghost use Rattle.smith_tree.specs.Shown.{shown_canon, shown_export};
ghost use Rattle.smith_read.specs.Nodes.{shown_core_node};
ghost use Rattle.smith_read.specs.PartNodes.{shown_import_node};
ghost use Rattle.smith_read.specs.Tells.{Tells};
ghost use Rattle.smith_read.specs.TypeNodes.{shown_decl_node, shown_type_node};
ghost use Rattle.smith_print.specs.Passing.{Passes};

use smith_read::{
    CoreNode, DeclNode, Export, Func, ImportNode, Readable, Reason, TypeNode, Unread, count_of,
    malformed,
};
use smith_syntax::{DefinedType, FuncType, put_defined, put_function};
use std::alloc::Global;

/// What follows so many bytes.
pub(crate) fn pass_bytes(bytes: &[u8], count: usize) -> Result<&[u8], Unread>
    ensures { (p : Piece) → count ≡ piece_length p → Passes result bytes.now p }
{
    if bytes.len() < count {
        return Err(malformed(bytes, Reason::Ends));
    }
    let (_front, rest) = bytes.split_at(count);
    Ok(rest)
}

// What follows something that is read in one way.
fn pass_read<T: Readable>(alloc: Global, bytes: &[u8]) -> Result<&[u8], Unread>
    ensures { (piece : T.Shown → Piece) (x : T.Shown) → Tells piece T.reading → Passes result bytes.now (piece x) }
{
    let (_value, rest) = T::read(alloc, bytes)?;
    Ok(rest)
}

fn pass_defined<'a>(alloc: Global, ty: &DefinedType, bytes: &'a [u8]) -> Result<&'a [u8], Unread>
    ensures { Passes result bytes.now (defvaltype (shown_defined ty.now)) }
{
    let mut written = Vec::new(alloc);
    match put_defined(&mut written, ty) {
        Ok(()) => pass_bytes(bytes, written.len()),
        Err(_) => Err(Unread::OutOfMemory),
    }
}

fn pass_function<'a>(alloc: Global, ty: &FuncType, bytes: &'a [u8]) -> Result<&'a [u8], Unread>
    ensures { Passes result bytes.now (functype ty.now) }
{
    let mut written = Vec::new(alloc);
    match put_function(&mut written, ty) {
        Ok(()) => pass_bytes(bytes, written.len()),
        Err(_) => Err(Unread::OutOfMemory),
    }
}

// What follows an outer alias, which begins with so many bytes that say what it is of.
fn pass_outer(bytes: &[u8], head: usize) -> Result<&[u8], Unread>
    ensures { (front : List ℕ) (count index : ℕ) → head ≡ length front
        → Passes result bytes.now (Some front ⊕ u count ⊕ u index) }
{
    let rest = pass_bytes(bytes, head)?;
    let (_count, rest) = count_of(rest)?;
    let (_index, rest) = count_of(rest)?;
    Ok(rest)
}

// What follows a byte, and then something that is read in one way.
fn pass_behind<T: Readable>(alloc: Global, bytes: &[u8]) -> Result<&[u8], Unread>
    ensures { (tag : ℕ) (piece : T.Shown → Piece) (x : T.Shown) → Tells piece T.reading
        → Passes result bytes.now (byte tag ⊕ piece x) }
{
    let rest = pass_bytes(bytes, 1)?;
    pass_read::<T>(alloc, rest)
}

#[cycle(passing)]
fn pass_decl<'a>(alloc: Global, node: &DeclNode, bytes: &'a [u8]) -> Result<&'a [u8], Unread>
    ensures { (importing : Bool) → Passes result bytes.now (decl importing (shown_decl_node node.now)) }
{
    match node {
        DeclNode::Core(_) => pass_behind::<CoreNode>(alloc, bytes),
        DeclNode::Type(ty) => {
            let rest = pass_bytes(bytes, 1)?;
            pass_type(alloc, ty, rest)
        }
        DeclNode::TypeAlias { .. } => pass_outer(bytes, 3),
        DeclNode::CoreTypeAlias { .. } => pass_outer(bytes, 4),
        DeclNode::Import { .. } => pass_behind::<ImportNode>(alloc, bytes),
        DeclNode::Export { .. } => pass_behind::<ImportNode>(alloc, bytes),
    }
}

// What follows a component type or an instance type.
#[cycle(passing)]
fn pass_decls<'a>(alloc: Global, nodes: &[DeclNode], bytes: &'a [u8]) -> Result<&'a [u8], Unread>
    ensures { (tag : ℕ) (importing : Bool) → Passes result bytes.now
        (byte tag ⊕ many (λ d. decl importing (shown_decl_node d)) nodes.now) }
{
    let counted = pass_bytes(bytes, 1)?;
    let (_count, first) = count_of(counted)?;
    let mut rest = first;
    for node in nodes {
        rest = pass_decl(alloc, node, rest)?;
    }
    Ok(rest)
}

#[cycle(passing)]
fn pass_type<'a>(alloc: Global, node: &TypeNode, bytes: &'a [u8]) -> Result<&'a [u8], Unread>
    ensures { Passes result bytes.now (entry (shown_type_node node.now)) }
{
    match node {
        TypeNode::Defined(ty) => pass_defined(alloc, ty, bytes),
        TypeNode::Func(ty) => pass_function(alloc, ty, bytes),
        TypeNode::Component(decls) => pass_decls(alloc, decls, bytes),
        TypeNode::Instance(decls) => pass_decls(alloc, decls, bytes),
    }
}

/// An entry of a section.
pub(crate) trait Passed {
    ghost piece: { Self → Piece };

    /// What follows it in these bytes, which it begins.
    fn pass<'a>(&self, alloc: Global, bytes: &'a [u8]) -> Result<&'a [u8], Unread>
        ensures { Passes result bytes.now (piece self.now) };
}

impl Passed for CoreNode {
    ghost piece = { λ t. core_entry (shown_core_node t) };

    fn pass<'a>(&self, alloc: Global, bytes: &'a [u8]) -> Result<&'a [u8], Unread> {
        pass_read::<CoreNode>(alloc, bytes)
    }
}

impl Passed for TypeNode {
    ghost piece = { λ t. entry (shown_type_node t) };

    fn pass<'a>(&self, alloc: Global, bytes: &'a [u8]) -> Result<&'a [u8], Unread> {
        pass_type(alloc, self, bytes)
    }
}

impl Passed for Func {
    ghost piece = { λ f. canon (shown_canon f) };

    fn pass<'a>(&self, alloc: Global, bytes: &'a [u8]) -> Result<&'a [u8], Unread> {
        pass_read::<Func>(alloc, bytes)
    }
}

impl Passed for ImportNode {
    ghost piece = { λ i. import_entry (shown_import_node i) };

    fn pass<'a>(&self, alloc: Global, bytes: &'a [u8]) -> Result<&'a [u8], Unread> {
        pass_read::<ImportNode>(alloc, bytes)
    }
}

impl Passed for Export {
    ghost piece = { λ e. export_entry (shown_export e) };

    fn pass<'a>(&self, alloc: Global, bytes: &'a [u8]) -> Result<&'a [u8], Unread> {
        pass_read::<Export>(alloc, bytes)
    }
}
