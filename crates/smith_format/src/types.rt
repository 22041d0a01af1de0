//! Core value types (core specification, Types).

ghost use Rattle.std.specs.Prelude.{◌≡◌, IfErr, IfOk};
ghost use Rattle.smith_format.specs.Limits.{configured};

use crate::config::Config;
use smith_input::Error;
use std::alloc::Global;

/// A reference type (core specification, Types, Reference Types).
#[derive(Debug, Clone, Copy, PartialEq, Eq, Hash)]
pub enum RefType {
    FuncRef,
    ExternRef,
    /// A reference to a type, by its index.
    Concrete { nullable: bool, index: u32 },
}

/// A value type (core specification, Types, Value Types).
#[derive(Debug, Clone, Copy, PartialEq, Eq, Hash)]
pub enum ValType {
    I32,
    I64,
    F32,
    F64,
    V128,
    Ref(RefType),
}

// The value types in the order in which they are listed. Each table ends with the references.
static ALL_TYPES: [ValType; 7] = [
    ValType::I32,
    ValType::I64,
    ValType::F32,
    ValType::F64,
    ValType::V128,
    ValType::Ref(RefType::FuncRef),
    ValType::Ref(RefType::ExternRef),
];

static WITHOUT_VECTORS: [ValType; 6] = [
    ValType::I32,
    ValType::I64,
    ValType::F32,
    ValType::F64,
    ValType::Ref(RefType::FuncRef),
    ValType::Ref(RefType::ExternRef),
];

static WITHOUT_FLOATS: [ValType; 5] = [
    ValType::I32,
    ValType::I64,
    ValType::V128,
    ValType::Ref(RefType::FuncRef),
    ValType::Ref(RefType::ExternRef),
];

static INTEGERS_AND_REFERENCES: [ValType; 4] = [
    ValType::I32,
    ValType::I64,
    ValType::Ref(RefType::FuncRef),
    ValType::Ref(RefType::ExternRef),
];

/// The value types that the limits allow, at least i32 and i64: then f32 and f64, v128, and the references to functions
/// and to things from outside, each if it is enabled. It fails only when out of memory.
pub fn configured_valtypes(alloc: Global, config: &Config) -> Result<Vec<ValType>, Error>
    ensures value { IfOk result (λ types. types.items ≡ configured config.now) }
    ensures memory { IfErr result (λ e. e ≡ Error.OutOfMemory) }
{
    let mut types = Vec::new(alloc);
    types.extend_from_slice(valtypes_of(config))?;
    Ok(types)
}

/// The same types, of a table. It takes no memory.
pub fn valtypes_of(config: &Config) -> &'static [ValType]
    ensures { result.now ≡ configured config.now }
{
    let references = config.reference_types_enabled;
    match (config.allow_floats, config.simd_enabled, references) {
        (true, true, true) => &ALL_TYPES,
        (true, true, false) => &ALL_TYPES[..5],
        (true, false, true) => &WITHOUT_VECTORS,
        (true, false, false) => &WITHOUT_VECTORS[..4],
        (false, true, true) => &WITHOUT_FLOATS,
        (false, true, false) => &WITHOUT_FLOATS[..3],
        (false, false, true) => &INTEGERS_AND_REFERENCES,
        (false, false, false) => &INTEGERS_AND_REFERENCES[..2],
    }
}

/// A function type: the types of its parameters and of its results (core specification, Types, Composite Types).
#[derive(Debug, Drop)]
pub struct FuncType {
    pub params: Vec<ValType>,
    pub results: Vec<ValType>,
}

/// A global type (core specification, Types, Global Types).
#[derive(Debug, Clone, Copy, PartialEq, Eq, Hash)]
pub struct GlobalType {
    pub val_type: ValType,
    pub mutable: bool,
}

/// A table type (core specification, Types, Table Types).
#[derive(Debug, Clone, Copy, PartialEq, Eq, Hash)]
pub struct TableType {
    pub element_type: RefType,
    /// Whether its indexes have 64 bits.
    pub table64: bool,
    pub minimum: u64,
    pub maximum: Option<u64>,
}

/// A memory type (core specification, Types, Memory Types).
#[derive(Debug, Clone, Copy, PartialEq, Eq, Hash)]
pub struct MemoryType {
    /// In pages, as the maximum is.
    pub minimum: u64,
    pub maximum: Option<u64>,
    pub shared: bool,
    /// Whether its addresses have 64 bits.
    pub memory64: bool,
}

/// A tag type: the index of a function type (core specification, Types, Tag Types).
#[derive(Debug, Clone, Copy, PartialEq, Eq, Hash)]
pub struct TagType {
    pub func_type_idx: u32,
}

/// The type of what a module imports or exports (core specification, Types, External Types). A function has the index
/// of its type.
#[derive(Debug, Clone, Copy, PartialEq, Eq, Hash)]
pub enum EntityType {
    Func(u32),
    Table(TableType),
    Memory(MemoryType),
    Global(GlobalType),
    Tag(TagType),
}

/// What sort of thing an import or an export is (core specification, Modules, imports and exports).
#[derive(Debug, Clone, Copy, PartialEq, Eq, Hash)]
pub enum ExportKind {
    Func,
    Table,
    Memory,
    Global,
    Tag,
}

impl EntityType {
    ghost use Rattle.std.specs.Prelude.{◌≡◌, IfErr, IfOk};
    ghost use Rattle.smith_format.specs.Entities.{kind_of};

    /// What sort of thing it is.
    pub fn kind(&self) -> ExportKind
        ensures { result ≡ kind_of self.now }
    {
        match self {
            EntityType::Func(_) => ExportKind::Func,
            EntityType::Table(_) => ExportKind::Table,
            EntityType::Memory(_) => ExportKind::Memory,
            EntityType::Global(_) => ExportKind::Global,
            EntityType::Tag(_) => ExportKind::Tag,
        }
    }
}

/// An import of a core module (core specification, Modules, Imports): the names of the module and of the item, and what
/// the item is.
#[derive(Debug, Drop)]
pub struct Import {
    pub module: String,
    pub name: String,
    pub entity_type: EntityType,
}
