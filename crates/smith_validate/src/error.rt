//! What a validator asks beyond well-formedness, and why a judgement stops.

use std::alloc::{AllocError, AllocFailed};

/// What a validator asks of a well formed component.
#[derive(Clone, Copy, Debug, PartialEq, Eq, thiserror::Error)]
pub enum Demand {
    /// What is imported or exported is of records, variants, flags and enums that an import or an export names before
    /// (Explainer.md, import and export definitions, type checking).
    #[error("an import or an export is of a type that is not named")]
    Named,
    /// A type, and a component, has an effective size below 1,000,000, the size of each type that it is made of
    /// counted again wherever it is named. A bound of wasmparser's own.
    #[error("the effective size of a type is 1000000 or more")]
    Size,
    /// There are at most 1,000 modules, components and instances each, and 1,000,000 types, functions, imports and
    /// exports each. A bound of wasmparser's own.
    #[error("there are too many entries of one sort")]
    Count,
    /// A core module has at most 100 memories, and a module type imports at most 100. A bound of wasmparser's own.
    #[error("a core module has, or a module type imports, more than 100 memories")]
    Memories,
    /// A module type imports at most 100 tables. A bound of wasmparser's own.
    #[error("a module type imports more than 100 tables")]
    Tables,
}

/// Why a well formed component is not accepted: a demand that it does not meet, and the number of the first item with
/// which it does not meet all demands.
///
/// Items count from 0, in the order of the bytes: each custom section, each core module, the beginning of each
/// component in this one, and each entry of a section that is a list.
#[derive(Clone, Copy, Debug, PartialEq, Eq)]
pub struct Shortfall {
    pub item: usize,
    pub demand: Demand,
}

/// Whether a well formed component meets all demands.
#[derive(Clone, Copy, Debug, PartialEq, Eq)]
pub enum Validity {
    Valid,
    Invalid(Shortfall),
}

/// Why a judgement stops.
#[derive(Clone, Copy, Debug)]
pub(crate) enum Stop {
    /// An allocation failed.
    OutOfMemory,
    /// A demand is not met.
    Invalid(Demand),
}

impl From<AllocError> for Stop {
    ghost use Rattle.std.specs.Prelude.{◌≡◌};
    ghost use Rattle.smith_validate.specs.declared.error.Stop.TheVariants.{OutOfMemory};

    ghost from_gives = { λ _ e. e ≡ OutOfMemory };

    fn from(_error: AllocError) -> Stop {
        Stop::OutOfMemory
    }
}

impl<T: Drop> From<AllocFailed<T>> for Stop {
    ghost use Rattle.std.specs.Prelude.{◌≡◌};
    ghost use Rattle.smith_validate.specs.declared.error.Stop.TheVariants.{OutOfMemory};

    ghost from_gives = { λ _ e. e ≡ OutOfMemory };

    fn from(_error: AllocFailed<T>) -> Stop {
        Stop::OutOfMemory
    }
}
