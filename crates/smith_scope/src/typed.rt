//! What stands in a scope: types and core types, whether they are made or were read.

ghost use Rattle.std.specs.Prelude.{◌≡◌};
ghost use Rattle.smith_syntax.specs.Entries.{CoreEntry, Entry, ModuleDecl};
ghost use Rattle.smith_scope.specs.Parts.{IsCorePart, IsModulePart};
ghost use Rattle.smith_scope.specs.Positions.{kind_of};

use crate::kinds::Kind;
use smith_format::{EntityType, FuncType};
use smith_read::{CoreNode, ModuleNode, TypeNode};
use smith_syntax::{CoreType, DefType, ModuleTypeDef};
use std::rc::Rc;

/// What a declaration of a module type is made of.
pub enum ModulePart<'a> {
    /// A function type of its own.
    Func(&'a FuncType),
    /// An outer alias of a function type.
    OuterAlias { count: u32, index: u32 },
    /// What is imported or exported.
    Entity(EntityType),
}

/// What a core type is made of.
pub enum CorePart<'a, D> {
    /// A function type.
    Func(&'a FuncType),
    /// The declarations of a module type.
    Module(&'a [D]),
}

/// A declaration of a module type.
pub trait ModuleTree {
    ghost plain: { Self → ModuleDecl };

    /// What it is made of.
    fn part(&self) -> ModulePart<'_>
        ensures { IsModulePart (plain self.now) result };
}

/// A core type.
pub trait CoreTree {
    type Decl: ModuleTree;

    ghost plain: { Self → CoreEntry };

    /// What it is made of.
    fn part(&self) -> CorePart<'_, Self::Decl>
        ensures { IsCorePart Self.Decl.plain (plain self.now) result };
}

/// A type.
pub trait TypeTree {
    ghost plain: { Self → Entry };

    /// Its kind.
    fn kind(&self) -> Kind
        ensures { result ≡ kind_of (plain self.now) };
}

/// A type as a scope has it.
pub trait Typed: Drop {
    type Tree: TypeTree;

    ghost tree: { Self → Self.Tree };

    /// The type by itself.
    fn tree(&self) -> &Self::Tree
        ensures { result.now ≡ tree self.now };
}

/// A core type as a scope has it.
pub trait CoreTyped: Drop {
    type Tree: CoreTree;

    ghost tree: { Self → Self.Tree };

    /// The core type by itself.
    fn tree(&self) -> &Self::Tree
        ensures { result.now ≡ tree self.now };
}

impl<X: TypeTree + Drop> Typed for Rc<X> {
    type Tree = X;

    ghost tree = { λ t. t.value };

    #[inline(always)]
    fn tree(&self) -> &X {
        &**self
    }
}

impl<X: CoreTree + Drop> CoreTyped for Rc<X> {
    type Tree = X;

    ghost tree = { λ t. t.value };

    #[inline(always)]
    fn tree(&self) -> &X {
        &**self
    }
}

impl<'a, X: TypeTree> Typed for &'a X {
    type Tree = X;

    ghost tree = { λ t. t.now };

    #[inline(always)]
    fn tree(&self) -> &X {
        *self
    }
}

impl<'a, X: CoreTree> CoreTyped for &'a X {
    type Tree = X;

    ghost tree = { λ t. t.now };

    #[inline(always)]
    fn tree(&self) -> &X {
        *self
    }
}

impl ModuleTree for ModuleTypeDef {
    ghost use Rattle.smith_syntax.specs.Shown.{shown_decl};

    ghost plain = { shown_decl };

    #[inline(always)]
    fn part(&self) -> ModulePart<'_> {
        match self {
            ModuleTypeDef::FuncDef(ty) => ModulePart::Func(&**ty),
            ModuleTypeDef::OuterAlias { count, i, .. } => ModulePart::OuterAlias {
                count: *count,
                index: *i,
            },
            ModuleTypeDef::Import(import) => ModulePart::Entity(import.entity_type),
            ModuleTypeDef::Export(_, entity) => ModulePart::Entity(*entity),
        }
    }
}

impl ModuleTree for ModuleNode {
    ghost use Rattle.smith_read.specs.Nodes.{shown_module_node};

    ghost plain = { shown_module_node };

    #[inline(always)]
    fn part(&self) -> ModulePart<'_> {
        match self {
            ModuleNode::Func(ty) => ModulePart::Func(ty),
            ModuleNode::OuterAlias { count, index } => ModulePart::OuterAlias {
                count: *count,
                index: *index,
            },
            ModuleNode::Import { entity, .. } | ModuleNode::Export { entity, .. } => {
                ModulePart::Entity(*entity)
            }
        }
    }
}

impl CoreTree for CoreType {
    type Decl = ModuleTypeDef;

    ghost use Rattle.smith_syntax.specs.Shown.{shown_core};

    ghost plain = { shown_core };

    #[inline(always)]
    fn part(&self) -> CorePart<'_, ModuleTypeDef> {
        match self {
            CoreType::Func(ty) => CorePart::Func(&**ty),
            CoreType::Module(ty) => CorePart::Module(&ty.defs),
        }
    }
}

impl CoreTree for CoreNode {
    type Decl = ModuleNode;

    ghost use Rattle.smith_read.specs.Nodes.{shown_core_node};

    ghost plain = { shown_core_node };

    #[inline(always)]
    fn part(&self) -> CorePart<'_, ModuleNode> {
        match self {
            CoreNode::Func(ty) => CorePart::Func(ty),
            CoreNode::Module(decls) => CorePart::Module(decls),
        }
    }
}

impl TypeTree for DefType {
    ghost use Rattle.smith_syntax.specs.Shown.{shown_type};

    ghost plain = { shown_type };

    #[inline(always)]
    #[tactic(auto, using(crate::proofs::ByKind::made_kinds))]
    fn kind(&self) -> Kind {
        match self {
            DefType::Defined(_) => Kind::Defined,
            DefType::Func(_) => Kind::Func,
            DefType::Component(_) => Kind::Component,
            DefType::Instance(_) => Kind::Instance,
        }
    }
}

impl TypeTree for TypeNode {
    ghost use Rattle.smith_read.specs.TypeNodes.{shown_type_node};

    ghost plain = { shown_type_node };

    #[inline(always)]
    #[tactic(auto, using(smith_read::proofs::ShownNodes::shown_nodes))]
    fn kind(&self) -> Kind {
        match self {
            TypeNode::Defined(_) => Kind::Defined,
            TypeNode::Func(_) => Kind::Func,
            TypeNode::Component(_) => Kind::Component,
            TypeNode::Instance(_) => Kind::Instance,
        }
    }
}
