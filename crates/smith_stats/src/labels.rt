//! What things are called in a tally.

use smith_core::{EntityType, RefType, ValType};
use smith_read::{Contents, Func, TypeNode};
use smith_syntax::{ComponentTypeRef, ComponentValType, DefinedType, PrimitiveValType};

/// A component, or a section that is a list.
pub(crate) fn contents_label(contents: Contents<'_>) -> &'static str {
    match contents {
        Contents::Parts(_) => "component",
        Contents::CoreTypes(_) => "section of core types",
        Contents::Types(_) => "section of types",
        Contents::Canons(_) => "section of canonical functions",
        Contents::Imports(_) => "section of imports",
        Contents::Exports(_) => "section of exports",
    }
}

/// A type.
pub fn type_label(ty: &TypeNode) -> &'static str {
    match ty {
        TypeNode::Defined(ty) => defined_label(ty),
        TypeNode::Func(_) => "function",
        TypeNode::Component(_) => "component",
        TypeNode::Instance(_) => "instance",
    }
}

fn defined_label(ty: &DefinedType) -> &'static str {
    match ty {
        DefinedType::Primitive(ty) => primitive_label(*ty),
        DefinedType::Record(_) => "record",
        DefinedType::Variant(_) => "variant",
        DefinedType::List(_) => "list",
        DefinedType::Tuple(_) => "tuple",
        DefinedType::Flags(_) => "flags",
        DefinedType::Enum(_) => "enum",
        DefinedType::Option(_) => "option",
        DefinedType::Result(_) => "result",
    }
}

/// A value type that is used, if there is one.
pub(crate) fn val_label(ty: Option<ComponentValType>) -> &'static str {
    match ty {
        Some(ComponentValType::Primitive(ty)) => primitive_label(ty),
        Some(ComponentValType::Indexed(_)) => "type by index",
        None => "nothing",
    }
}

/// What an import or an export is of.
pub fn ref_label(to: ComponentTypeRef) -> &'static str {
    match to {
        ComponentTypeRef::Module(_) => "core module",
        ComponentTypeRef::Func(_) => "function",
        ComponentTypeRef::TypeEq(_) => "type",
        ComponentTypeRef::Component(_) => "component",
        ComponentTypeRef::Instance(_) => "instance",
    }
}

/// A canonical function.
pub(crate) fn canon_label(canon: &Func) -> &'static str {
    match canon {
        Func::CanonLift { .. } => "lift",
        Func::CanonLower { .. } => "lower",
    }
}

/// A core value type.
pub fn core_val_label(ty: ValType) -> &'static str {
    match ty {
        ValType::I32 => "i32",
        ValType::I64 => "i64",
        ValType::F32 => "f32",
        ValType::F64 => "f64",
        ValType::V128 => "v128",
        ValType::Ref(RefType::FuncRef) => "funcref",
        ValType::Ref(RefType::ExternRef) => "externref",
        ValType::Ref(RefType::Concrete { .. }) => "reference by index",
    }
}

/// What an import or an export of a core module is of.
pub(crate) fn entity_label(entity: &EntityType) -> &'static str {
    match entity {
        EntityType::Func(_) => "function",
        EntityType::Table(_) => "table",
        EntityType::Memory(_) => "memory",
        EntityType::Global(_) => "global",
        EntityType::Tag(_) => "tag",
    }
}

/// A primitive value type, as in the text format.
pub fn primitive_label(ty: PrimitiveValType) -> &'static str {
    match ty {
        PrimitiveValType::Bool => "bool",
        PrimitiveValType::S8 => "s8",
        PrimitiveValType::U8 => "u8",
        PrimitiveValType::S16 => "s16",
        PrimitiveValType::U16 => "u16",
        PrimitiveValType::S32 => "s32",
        PrimitiveValType::U32 => "u32",
        PrimitiveValType::S64 => "s64",
        PrimitiveValType::U64 => "u64",
        PrimitiveValType::F32 => "f32",
        PrimitiveValType::F64 => "f64",
        PrimitiveValType::Char => "char",
        PrimitiveValType::String => "string",
    }
}
