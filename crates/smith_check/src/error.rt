//! Why a component is not well formed, and why a check stops.

ghost use Rattle.std.specs.Prelude.{◌≡◌};
ghost use Rattle.smith_check.specs.declared.error.Stop.TheVariants.{OutOfMemory};

use std::alloc::{AllocError, AllocFailed};

/// A rule that a component breaks; each says what has to hold. Sections are from the component model's Explainer.md,
/// Binary.md and CanonicalABI.md.
#[derive(Clone, Copy, Debug, PartialEq, Eq, thiserror::Error)]
pub enum Rule {
    /// An index of a type or a core type is less than the number of those before it in its index space
    /// (Explainer.md, index spaces).
    #[error("no type has that index")]
    NoType,
    /// An index of a component function or a core function is less than the number of those before it in its index
    /// space (Explainer.md, index spaces).
    #[error("no function has that index")]
    NoFunction,
    /// An import or an export of a module, a function, a component or an instance has a type of that sort, and what
    /// is lifted has a function type (Explainer.md, import and export definitions; CanonicalABI.md, canon lift).
    #[error("the type is of another sort")]
    Sort,
    /// A value type that is an index names a type of values (Explainer.md, defvaltype).
    #[error("the type of a value is no type of values")]
    ValueType,
    /// An outer alias names a scope around it, and a type or a core type that precedes it there. Within a module
    /// type it names a core function type, at a count of 0 or 1 (Explainer.md, alias definitions).
    #[error("an outer alias names nothing")]
    OuterAlias,
    /// An import is of no type that is equal to another. Explainer.md, import and export definitions, allows it
    /// (`eq`); here only an export is of such a type.
    #[error("an import is of a type that is equal to another")]
    EqualType,
    /// An instance type has no imports (Explainer.md, instancedecl).
    #[error("an instance type has imports")]
    InstanceImport,
    /// Records, variants, tuples, flags and enums have at least one member, and flags at most 32 (Binary.md,
    /// defvaltype). The others have at most 100 here.
    #[error("there are no members, or too many")]
    Members,
    /// A function type has at most 16 parameters here, as many as are passed as values of their own
    /// (CanonicalABI.md, flattening, MAX_FLAT_PARAMS).
    #[error("a function has more than 16 parameters")]
    Parameters,
    /// A name of a member, a parameter, an import or an export is in kebab case: words of small letters and digits,
    /// each with a letter first, joined by single hyphens (Explainer.md, import and export definitions, label).
    #[error("a name is not in kebab case")]
    Kebab,
    /// No two members of a type, no two imports and no two exports have the same name (Explainer.md, name
    /// uniqueness); nor have two imports of a module type the same two names, or two of its exports the same name.
    #[error("a name is used twice")]
    NameTwice,
    /// The function type of a tag has no results (core specification, tag types).
    #[error("a tag has results")]
    TagResults,
    /// A memory of a module type has a maximum, if any, that is no less than its minimum (core specification,
    /// memory types). Here it is also not shared, has addresses of 32 bits, a minimum of at most 10 and a maximum
    /// of at most 20.
    #[error("a memory is shared, of 64 bits or out of bounds")]
    Memory,
    /// A table of a module type has a maximum, if any, that is no less than its minimum (core specification, table
    /// types). Here it is also of `funcref` or `externref`, has indexes of 32 bits, a minimum of at most 10 and a
    /// maximum of at most 20.
    #[error("a table is of another type, of 64 bits or out of bounds")]
    Table,
    /// A function that is lowered has a type that flattens: all parameters are scalars, and there is a result,
    /// which is one (CanonicalABI.md, canon lower, flattening).
    #[error("a function that does not flatten is lowered")]
    NotScalar,
    /// A core function is lifted to a type that flattens to the same core function type as the type of the
    /// component function that it lowers (CanonicalABI.md, canon lift, flattening).
    #[error("a lift does not flatten to the type of what it lifts")]
    NotFlat,
}

/// Who asks a rule. What breaks a rule of the standard is invalid for every validator.
#[derive(Clone, Copy, Debug, PartialEq, Eq)]
pub enum Asker {
    /// The component model's standard.
    Standard,
    /// Lupinanon alone: the standard, or a validator, may have what breaks it.
    Lupinanon,
}

/// Why a component is not well formed: the first rule that it breaks, who asks it, and the number of the item that
/// breaks it. Which rule it is, no contract says.
///
/// Items count from 0, in the order of the bytes: each custom section, each core module, the beginning of each
/// component in this one, and each entry of a section that is a list.
#[derive(Clone, Copy, Debug, PartialEq, Eq)]
pub struct Fault {
    pub item: usize,
    pub rule: Rule,
    pub asked_by: Asker,
}

/// Whether a component is well formed.
#[derive(Clone, Copy, Debug, PartialEq, Eq)]
pub enum Judgement {
    WellFormed,
    IllFormed(Fault),
}

/// Why a check stops.
#[derive(Clone, Copy, Debug)]
pub(crate) enum Stop {
    /// An allocation failed.
    OutOfMemory,
    /// A rule of the standard is broken.
    IllFormed(Rule),
    /// A rule is broken that the standard does not have, or not in this case.
    Outside(Rule),
}

impl From<AllocError> for Stop {
    ghost use Rattle.std.specs.Prelude.{◌≡◌};
    ghost use Rattle.smith_check.specs.declared.error.Stop.TheVariants.{OutOfMemory};

    ghost from_gives = { λ _ e. e ≡ OutOfMemory };

    fn from(_error: AllocError) -> Stop {
        Stop::OutOfMemory
    }
}

impl<T: Drop> From<AllocFailed<T>> for Stop {
    ghost use Rattle.std.specs.Prelude.{◌≡◌};
    ghost use Rattle.smith_check.specs.declared.error.Stop.TheVariants.{OutOfMemory};

    ghost from_gives = { λ _ e. e ≡ OutOfMemory };

    fn from(_error: AllocFailed<T>) -> Stop {
        Stop::OutOfMemory
    }
}

/// What a check returns.
pub(crate) type Checked = Result<(), Stop>;
