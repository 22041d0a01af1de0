//! Combinations: what a thing is, what it is in, what it refers to, and how that came there.

use smith_core::{RefType, ValType};
use smith_syntax::PrimitiveValType;

/// What a thing is in: the innermost component or type around it.
#[derive(Debug, Clone, Copy, PartialEq, Eq, PartialOrd, Ord)]
pub enum Within {
    Root,
    Nested,
    ComponentType,
    InstanceType,
    ModuleType,
}

/// What is around the component or type that a thing is in.
#[derive(Debug, Clone, Copy, PartialEq, Eq, PartialOrd, Ord)]
pub enum Around {
    /// A component, or nothing.
    Component,
    ComponentType,
    InstanceType,
}

/// A section that is one thing, an entry or a declaration, a reference of one, or a member of a type.
#[derive(Debug, Clone, Copy, PartialEq, Eq, PartialOrd, Ord)]
pub enum Part {
    CustomSection,
    CoreModule,
    Component,
    CoreType,
    Type,
    /// An outer alias, by the number of scopes out.
    Alias0,
    Alias1,
    Alias2,
    Alias3,
    Import,
    /// An import of a type that is equal to another.
    ImportEqual,
    Export,
    /// An export of a type that is equal to another.
    ExportEqual,
    /// A lift, by its core function.
    Lift,
    /// A lift, by its function type.
    LiftType,
    Lower,
    Field,
    Case,
    Element,
    Member,
    Content,
    Success,
    Failure,
    Parameter,
    Result,
    CoreParameter,
    CoreResult,
}

/// The sort of what a thing refers to; of a type that is declared, of itself.
#[derive(Debug, Clone, Copy, PartialEq, Eq, PartialOrd, Ord)]
pub enum Sort {
    Nothing,
    /// What is in no scope.
    Unknown,
    Bool,
    S8,
    U8,
    S16,
    U16,
    S32,
    U32,
    S64,
    U64,
    F32,
    F64,
    Char,
    String,
    Record,
    Variant,
    List,
    Tuple,
    Flags,
    Enum,
    Option,
    Result,
    Function,
    Component,
    Instance,
    CoreFunction,
    CoreModule,
    Table,
    Memory,
    Global,
    Tag,
    I32,
    I64,
    CoreF32,
    CoreF64,
    V128,
    FuncRef,
    ExternRef,
    IndexRef,
}

/// How what a thing refers to came there.
#[derive(Debug, Clone, Copy, PartialEq, Eq, PartialOrd, Ord)]
pub enum Origin {
    /// It is there without an index.
    Plain,
    /// By a declaration; a function, by a lift.
    Declared,
    Imported,
    /// By an import of a type that is equal to another.
    Equal,
    Exported,
    /// By an outer alias, from that many scopes out; 3 stands for more too.
    Alias0,
    Alias1,
    Alias2,
    Alias3,
}

/// How many types refer to one another in a row, at most, from the type on that a thing refers to.
#[derive(Debug, Clone, Copy, PartialEq, Eq, PartialOrd, Ord)]
pub enum Chain {
    None,
    One,
    Two,
    Three,
    More,
}

/// What a thing is, what it is in, what is around that, and what it refers to.
#[derive(Debug, Clone, Copy, PartialEq, Eq, PartialOrd, Ord)]
pub struct Combination {
    pub within: Within,
    pub around: Around,
    pub part: Part,
    pub sort: Sort,
    pub origin: Origin,
    pub chain: Chain,
}

impl Within {
    /// What is around a component or type in this.
    pub(crate) fn around(self) -> Around {
        match self {
            Within::ComponentType => Around::ComponentType,
            Within::InstanceType => Around::InstanceType,
            Within::Root | Within::Nested | Within::ModuleType => Around::Component,
        }
    }
}

impl Chain {
    /// The chain that is longer by a type.
    pub(crate) fn next(self) -> Chain {
        match self {
            Chain::None => Chain::One,
            Chain::One => Chain::Two,
            Chain::Two => Chain::Three,
            Chain::Three | Chain::More => Chain::More,
        }
    }

    /// The longer of two chains.
    pub(crate) fn longer(self, other: Chain) -> Chain {
        if self < other { other } else { self }
    }
}

/// The part that is an alias of what is that many scopes out.
pub(crate) fn alias_part(count: u32) -> Part {
    match count {
        0 => Part::Alias0,
        1 => Part::Alias1,
        2 => Part::Alias2,
        _ => Part::Alias3,
    }
}

/// The origin of what an alias brings there from that many scopes out.
pub(crate) fn alias_origin(count: u32) -> Origin {
    match count {
        0 => Origin::Alias0,
        1 => Origin::Alias1,
        2 => Origin::Alias2,
        _ => Origin::Alias3,
    }
}

/// The sort of a primitive value type.
pub(crate) fn primitive_sort(ty: PrimitiveValType) -> Sort {
    match ty {
        PrimitiveValType::Bool => Sort::Bool,
        PrimitiveValType::S8 => Sort::S8,
        PrimitiveValType::U8 => Sort::U8,
        PrimitiveValType::S16 => Sort::S16,
        PrimitiveValType::U16 => Sort::U16,
        PrimitiveValType::S32 => Sort::S32,
        PrimitiveValType::U32 => Sort::U32,
        PrimitiveValType::S64 => Sort::S64,
        PrimitiveValType::U64 => Sort::U64,
        PrimitiveValType::F32 => Sort::F32,
        PrimitiveValType::F64 => Sort::F64,
        PrimitiveValType::Char => Sort::Char,
        PrimitiveValType::String => Sort::String,
    }
}

/// The sort of a core value type.
pub(crate) fn core_sort(ty: ValType) -> Sort {
    match ty {
        ValType::I32 => Sort::I32,
        ValType::I64 => Sort::I64,
        ValType::F32 => Sort::CoreF32,
        ValType::F64 => Sort::CoreF64,
        ValType::V128 => Sort::V128,
        ValType::Ref(RefType::FuncRef) => Sort::FuncRef,
        ValType::Ref(RefType::ExternRef) => Sort::ExternRef,
        ValType::Ref(RefType::Concrete { .. }) => Sort::IndexRef,
    }
}

// Puts a digit of that base after a number.
fn with_digit(number: u32, base: u32, digit: u8) -> u32 {
    number.wrapping_mul(base).wrapping_add(u32::from(digit))
}

impl Combination {
    /// A number that no other combination has, below 2^30.
    pub fn number(self) -> u32 {
        let number = u32::from(self.around as u8);
        let number = with_digit(number, 8, self.within as u8);
        let number = with_digit(number, 64, self.part as u8);
        let number = with_digit(number, 64, self.sort as u8);
        let number = with_digit(number, 64, self.origin as u8);
        with_digit(number, 64, self.chain as u8)
    }

    /// A place among that many, from 0, or none if there are none. Combinations are spread over all of them.
    pub fn place(self, count: usize) -> Option<usize> {
        let spread = u64::from(self.number()).wrapping_mul(0x9e37_79b9_7f4a_7c15) >> 32;
        (spread as usize).checked_rem(count)
    }
}
