//! The types of components: what they are, how they are read and how they are written.
#![tactic(auto)]

mod canonical;
mod core_types;
pub mod laws;
mod make;

pub use canonical::{canonical_abi_for, inverse_scalar_canonical_abi_for, lifted_func_type};
pub use core_types::arbitrary_core_type;
pub use make::{
    ExternNames, arbitrary_marked_type, arbitrary_type, arbitrary_type_ref, named_extern,
};
pub use smith_scope::Kind;
pub use smith_scopes::Scopes;
pub use smith_syntax::{
    Alias, ComponentFormat, ComponentType, ComponentTypeDef, ComponentTypeRef, ComponentValType,
    CoreType, DefType, DefinedType, EnumType, FlagsType, FuncType, Import, InstanceType,
    InstanceTypeDecl, ListType, Mark, ModuleType, ModuleTypeDef, OptionType, OuterAliasKind,
    PrimitiveValType, Reach, RecordType, ResultType, TupleType, VariantType, core_type_len,
    drop_last_first, import_len, type_len, write_core_type, write_import, write_type,
};
pub use smith_tree::{DeclarationItem, DefinedKind, ModuleItem, RefKind, RefTotals, TypeKind};
