//! Types that are read, as trees of their own.

use crate::core_types::CoreNode;
use smith_syntax::{ComponentTypeRef, DefinedType, FuncType};

/// A type that a component declares.
#[cycle(nodes)]
#[derive(Debug, Drop)]
pub enum TypeNode {
    Defined(DefinedType),
    Func(FuncType),
    Component(Vec<DeclNode>),
    Instance(Vec<DeclNode>),
}

/// A declaration of a component type or an instance type.
#[cycle(nodes)]
#[derive(Debug, Drop)]
pub enum DeclNode {
    Core(CoreNode),
    Type(TypeNode),
    TypeAlias { count: u32, index: u32 },
    CoreTypeAlias { count: u32, index: u32 },
    Import { name: String, to: ComponentTypeRef },
    Export { name: String, to: ComponentTypeRef },
}
