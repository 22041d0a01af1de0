//! The types that a core module has (core specification, Types).

use smith_format::{FuncType, ValType};

/// What a field holds (core specification, Types, Aggregate Types).
#[derive(Debug, Clone, Copy, PartialEq, Eq, Hash)]
pub enum StorageType {
    I8,
    I16,
    Val(ValType),
}

/// A field of a structure, or of each element of an array.
#[derive(Debug, Clone, Copy, PartialEq, Eq, Hash)]
pub struct FieldType {
    pub element: StorageType,
    pub mutable: bool,
}

/// A composite type (core specification, Types, Composite Types).
#[derive(Debug, Drop)]
pub enum CompositeType {
    Func(FuncType),
    Array(FieldType),
    Struct(Vec<FieldType>),
}

/// A sub type (core specification, Types, Recursive Types).
#[derive(Debug, Drop)]
pub struct SubType {
    /// Whether it can have no sub types.
    pub is_final: bool,
    /// The index of the type that it is a sub type of.
    pub supertype: Option<u32>,
    pub composite_type: CompositeType,
}
