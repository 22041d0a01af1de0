//! The types of components: what they are, and how they are written.
#![tactic(auto)]

mod core_types;
mod deftype;
mod drops;
mod encode;
mod func;
pub mod laws;
mod marks;
mod sizes;
mod types;
mod valued;

pub use core_types::{CoreType, ModuleType, ModuleTypeDef};
pub use deftype::{
    Alias, ComponentType, ComponentTypeDef, ComponentTypeRef, DefType, Import, InstanceType,
    InstanceTypeDecl, OuterAliasKind,
};
pub use drops::drop_last_first;
pub use encode::{
    ComponentFormat, core_type_len, import_len, put_defined, put_function, put_named, type_len,
    write_core_type, write_import, write_type,
};
pub use func::FuncType;
pub use marks::{Mark, Reach};
pub use sizes::{SIZE_BOUND, entity_size, function_size, size_sum};
pub use types::{
    ComponentValType, DefinedType, EnumType, FlagsType, ListType, OptionType, PrimitiveValType,
    RecordType, ResultType, TupleType, VariantType,
};
pub use valued::Valued;
