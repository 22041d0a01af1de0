//! Types of a component (Explainer.md, type definitions).

/// A primitive value type.
#[derive(Debug, Clone, Copy, PartialEq, Eq, Hash)]
pub enum PrimitiveValType {
    Bool,
    S8,
    U8,
    S16,
    U16,
    S32,
    U32,
    S64,
    U64,
    F32,
    F64,
    Char,
    String,
}

/// A value type in use.
#[derive(Debug, Clone, Copy, PartialEq, Eq, Hash)]
pub enum ComponentValType {
    Primitive(PrimitiveValType),
    /// A defined type, by its index among the types of the scope.
    Indexed(u32),
}

/// Any number of values of one type.
#[derive(Debug, Drop)]
pub struct ListType {
    pub elem_ty: ComponentValType,
}

/// Values in a row, from 1 to 100.
#[derive(Debug, Drop)]
pub struct TupleType {
    pub fields: Vec<ComponentValType>,
}

/// A value or none.
#[derive(Debug, Drop)]
pub struct OptionType {
    pub inner_ty: ComponentValType,
}

/// Success or failure, each with or without a value.
#[derive(Debug, Drop)]
pub struct ResultType {
    pub ok_ty: Option<ComponentValType>,
    pub err_ty: Option<ComponentValType>,
}

/// Named values, from 1 to 100 fields.
#[derive(Debug, Drop)]
pub struct RecordType {
    pub fields: Vec<(String, ComponentValType)>,
}

/// One of several named cases, from 1 to 100, each with or without a value.
#[derive(Debug, Drop)]
pub struct VariantType {
    pub cases: Vec<(String, Option<ComponentValType>)>,
}

/// Named booleans, from 1 to 32.
#[derive(Debug, Drop)]
pub struct FlagsType {
    pub fields: Vec<String>,
}

/// One of several names, from 1 to 100.
#[derive(Debug, Drop)]
pub struct EnumType {
    pub variants: Vec<String>,
}

/// A type of values.
#[derive(Debug, Drop)]
pub enum DefinedType {
    Primitive(PrimitiveValType),
    Record(RecordType),
    Variant(VariantType),
    List(ListType),
    Tuple(TupleType),
    Flags(FlagsType),
    Enum(EnumType),
    Option(OptionType),
    Result(ResultType),
}
