//! Code and segments of a core module (core specification, Modules).

use smith_format::{RefType, ValType};

/// Where an active segment begins: a constant, or the value of a global by its index.
#[derive(Debug, Clone, Copy, PartialEq, Eq, Hash)]
pub enum Offset {
    Const32(i32),
    Const64(i64),
    Global(u32),
}

/// What becomes of an element segment (core specification, Modules, Element Segments).
#[derive(Debug, Drop)]
pub enum ElementKind {
    /// It fills the table with that index; without one, the first table.
    Active { table: Option<u32>, offset: Offset },
    Passive,
    Declared,
}

/// The elements of a segment: functions by their indexes, or constant expressions without their end.
#[derive(Debug, Drop)]
pub enum Elements {
    Functions(Vec<u32>),
    Expressions(Vec<Vec<u8>>),
}

/// An element segment (core specification, Modules, Element Segments).
#[derive(Debug, Drop)]
pub struct ElementSegment {
    pub kind: ElementKind,
    pub ty: RefType,
    pub items: Elements,
}

/// What becomes of a data segment (core specification, Modules, Data Segments).
#[derive(Debug, Drop)]
pub enum DataSegmentKind {
    /// It fills the memory with that index.
    Active { memory_index: u32, offset: Offset },
    Passive,
}

/// A data segment (core specification, Modules, Data Segments).
#[derive(Debug, Drop)]
pub struct DataSegment {
    pub kind: DataSegmentKind,
    pub init: Vec<u8>,
}

/// The instructions of a function, as bytes.
#[derive(Debug, Drop)]
pub enum Instructions {
    /// Without their end, which the writer appends.
    Generated(Vec<u8>),
    /// Written as they are.
    Arbitrary(Vec<u8>),
}

/// The code of a function (core specification, Modules, Functions): the types of its local variables, and its
/// instructions.
#[derive(Debug, Drop)]
pub struct Code {
    pub locals: Vec<ValType>,
    pub instructions: Instructions,
}
