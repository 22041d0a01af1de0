//! Components that are read, as trees of their own.

use crate::{CoreNode, TypeNode};
use smith_syntax::ComponentTypeRef;
use smith_tree::{CustomSection, Export, Func};

/// A component that is read: its sections in order, each with its own entries (Explainer.md, component definitions).
#[derive(Debug, Drop)]
pub struct ComponentTree {
    pub parts: Vec<PartNode>,
}

/// An import: its name, and what it is of (Explainer.md, import definitions). It has no URL, since bytes have none.
#[derive(Debug, Drop)]
pub struct ImportNode {
    pub name: String,
    pub to: ComponentTypeRef,
}

/// A section of a component.
#[derive(Debug, Drop)]
pub enum PartNode {
    Custom(CustomSection),
    /// A core module: any bytes after the core preamble, which they begin with.
    CoreModule(Vec<u8>),
    CoreTypes(Vec<CoreNode>),
    /// The sections of a component in this one.
    Component(Vec<PartNode>),
    Types(Vec<TypeNode>),
    Canons(Vec<Func>),
    Imports(Vec<ImportNode>),
    Exports(Vec<Export>),
}
