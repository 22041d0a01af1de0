//! Types that a component declares (Explainer.md, type definitions).

use crate::core_types::CoreType;
use crate::drops::drop_last_first;
use crate::func::FuncType;
use crate::types::DefinedType;
use std::rc::Rc;

/// A type that a component declares.
#[cycle(types)]
#[derive(Debug, Drop)]
pub enum DefType {
    Defined(DefinedType),
    Func(Rc<FuncType>),
    Component(ComponentType),
    Instance(InstanceType),
}

/// The type of a component: what it declares, in order. Its types and core types are in a scope of their own.
///
/// It is dropped from its last declaration to its first, and so is the type of an instance: an alias holds the type
/// that it names, so that the stack that dropping takes does not grow with chains of aliases. No clause can say so.
#[cycle(types)]
#[derive(Debug)]
pub struct ComponentType {
    pub defs: Vec<ComponentTypeDef>,
}

/// The type of an instance: what it declares, in order. Its types and core types are in a scope of their own.
#[cycle(types)]
#[derive(Debug)]
pub struct InstanceType {
    pub defs: Vec<InstanceTypeDecl>,
}

/// A declaration of a component type.
#[cycle(types)]
#[derive(Debug, Drop)]
pub enum ComponentTypeDef {
    CoreTypeDecl(Rc<CoreType>),
    TypeDecl(Rc<DefType>),
    Alias(Alias),
    Export {
        name: String,
        url: Option<String>,
        ty: ComponentTypeRef,
    },
    Import(Import),
}

/// A declaration of an instance type.
#[cycle(types)]
#[derive(Debug, Drop)]
pub enum InstanceTypeDecl {
    CoreTypeDecl(Rc<CoreType>),
    TypeDecl(Rc<DefType>),
    Alias(Alias),
    Export {
        name: String,
        url: Option<String>,
        ty: ComponentTypeRef,
    },
}

/// Another name for the type or core type `i` of a scope. Count 0 is the scope in which the alias is, 1 the scope
/// around it, and so on.
#[cycle(types)]
#[derive(Debug, Drop)]
pub struct Alias {
    pub count: u32,
    pub i: u32,
    pub kind: OuterAliasKind,
}

/// What an outer alias names, which it keeps.
#[cycle(types)]
#[derive(Debug, Drop)]
pub enum OuterAliasKind {
    OfType(Rc<DefType>),
    OfCoreType(Rc<CoreType>),
}

/// What an import or an export is of: the index of a core module type among the core types of the scope, or the index
/// of a type among its types.
#[derive(Debug, Clone, Copy, PartialEq, Eq, Hash)]
pub enum ComponentTypeRef {
    Module(u32),
    Func(u32),
    /// A type that is equal to that one.
    TypeEq(u32),
    Component(u32),
    Instance(u32),
}

/// An import: its name, a URL that the binary format leaves out, and what is imported.
#[derive(Debug, Drop)]
pub struct Import {
    pub name: String,
    pub url: Option<String>,
    pub ty: ComponentTypeRef,
}

impl Drop for ComponentType {
    #[cycle(drop_types)]
    fn drop(self) {
        let ComponentType { defs } = self;
        drop_last_first(defs);
    }
}

impl Drop for InstanceType {
    #[cycle(drop_types)]
    fn drop(self) {
        let InstanceType { defs } = self;
        drop_last_first(defs);
    }
}

impl From<InstanceTypeDecl> for ComponentTypeDef {
    ghost use Rattle.std.specs.Prelude.{◌≡◌};
    ghost use Rattle.smith_syntax.specs.SameDecl.{SameDecl};
    ghost use Rattle.smith_syntax.specs.ShownDecls.{full_component_decl, full_instance_decl};

    /// The same declaration in a component type.
    fn from(decl: InstanceTypeDecl) -> ComponentTypeDef
        ensures values { SameDecl decl result }
        ensures shown { full_component_decl result ≡ full_instance_decl decl }
    {
        match decl {
            InstanceTypeDecl::CoreTypeDecl(ty) => ComponentTypeDef::CoreTypeDecl(ty),
            InstanceTypeDecl::TypeDecl(ty) => ComponentTypeDef::TypeDecl(ty),
            InstanceTypeDecl::Alias(alias) => ComponentTypeDef::Alias(alias),
            InstanceTypeDecl::Export { name, url, ty } => ComponentTypeDef::Export {
                name,
                url,
                ty,
            },
        }
    }
}
