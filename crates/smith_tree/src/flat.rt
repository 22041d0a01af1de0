//! How primitive value types flatten to core value types (CanonicalABI.md, flattening), and which flatten to one.

ghost use Rattle.std.specs.Prelude.{◌≡◌};
ghost use Rattle.smith_syntax.specs.Flat.{flat_primitive};
ghost use Rattle.smith_tree.specs.TypeOffers.{lifted};

use smith_format::ValType;
use smith_syntax::PrimitiveValType;

static LIFTED_I32: [PrimitiveValType; 8] = [
    PrimitiveValType::Char,
    PrimitiveValType::Bool,
    PrimitiveValType::S8,
    PrimitiveValType::U8,
    PrimitiveValType::S16,
    PrimitiveValType::U16,
    PrimitiveValType::S32,
    PrimitiveValType::U32,
];

static LIFTED_I64: [PrimitiveValType; 2] = [PrimitiveValType::S64, PrimitiveValType::U64];

static LIFTED_F32: [PrimitiveValType; 1] = [PrimitiveValType::F32];

static LIFTED_F64: [PrimitiveValType; 1] = [PrimitiveValType::F64];

/// The core value type that a primitive flattens to. A string flattens to none.
pub fn flat_primitive(ty: PrimitiveValType) -> Option<ValType>
    ensures { result ≡ flat_primitive ty }
{
    match ty {
        PrimitiveValType::Bool
        | PrimitiveValType::S8
        | PrimitiveValType::U8
        | PrimitiveValType::S16
        | PrimitiveValType::U16
        | PrimitiveValType::S32
        | PrimitiveValType::U32
        | PrimitiveValType::Char => Some(ValType::I32),
        PrimitiveValType::S64 | PrimitiveValType::U64 => Some(ValType::I64),
        PrimitiveValType::F32 => Some(ValType::F32),
        PrimitiveValType::F64 => Some(ValType::F64),
        PrimitiveValType::String => None,
    }
}

/// The primitives that flatten to a core value type, in the order of their choice (CanonicalABI.md, flattening). None
/// flattens to a vector or a reference.
pub fn lifted(ty: ValType) -> &'static [PrimitiveValType]
    ensures { result.now ≡ lifted ty }
{
    match ty {
        ValType::I32 => &LIFTED_I32,
        ValType::I64 => &LIFTED_I64,
        ValType::F32 => &LIFTED_F32,
        ValType::F64 => &LIFTED_F64,
        ValType::V128 | ValType::Ref(_) => &[],
    }
}
