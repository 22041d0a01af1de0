//! Core types that a component declares (Explainer.md, core type definitions).

use smith_format::{EntityType, FuncType, Import};
use std::borrow::CowStr;
use std::rc::Rc;

/// A core type.
#[derive(Debug, Drop)]
pub enum CoreType {
    Func(Rc<FuncType>),
    Module(ModuleType),
}

/// The type of a core module: what it declares, in order.
#[derive(Debug, Drop)]
pub struct ModuleType {
    pub defs: Vec<ModuleTypeDef>,
}

/// A declaration of a module type. Its function types and its aliases are its own types, which it names by their index.
#[derive(Debug, Drop)]
pub enum ModuleTypeDef {
    FuncDef(Rc<FuncType>),
    Import(Import),
    /// Another name for a function type: with count 0 one of the module type's own, with count 1 a core type of the
    /// scope around it, by its index there.
    OuterAlias {
        count: u32,
        i: u32,
        ty: Rc<FuncType>,
    },
    /// An export. Names that the canonical ABI asks for are not allocated.
    Export(CowStr<'static>, EntityType),
}

impl ModuleTypeDef {
    ghost use Rattle.std.specs.Prelude.{◌≡◌};
    ghost use Rattle.std.specs.declared.borrow.CowStr.TheVariants.{Owned};
    ghost use Rattle.smith_syntax.specs.declared.core_types.ModuleTypeDef.TheVariants.{Export};

    /// An export of that name.
    pub fn export(name: String, ty: EntityType) -> ModuleTypeDef
        ensures { result ≡ Export (Owned name) ty }
    {
        ModuleTypeDef::Export(CowStr::Owned(name), ty)
    }
}
