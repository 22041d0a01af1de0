//! The types of the functions that the canonical ABI asks of a module type.

ghost use Rattle.std.specs.Prelude.{◌≡◌, IfOk, IfErr};
ghost use Rattle.smith_format.specs.Shown.{shown_func};
ghost use Rattle.smith_syntax.specs.ModuleTypes as abi;

use smith_format::{FuncType, ValType};
use smith_input::Error;
use std::alloc::Global;
use std::rc::Rc;

static FOUR: [ValType; 4] = [ValType::I32, ValType::I32, ValType::I32, ValType::I32];

static THREE: [ValType; 3] = [ValType::I32, ValType::I32, ValType::I32];

static ONE: [ValType; 1] = [ValType::I32];

static NONE: [ValType; 0] = [];

/// The types of the functions that the canonical ABI asks of a module type. Module types share them.
#[derive(Drop)]
pub struct CanonicalAbi {
    /// The type of `canonical_abi_realloc`.
    pub realloc: Rc<FuncType>,
    /// The type of `canonical_abi_free`.
    pub free: Rc<FuncType>,
    ghost reallocates: { shown_func realloc.value ≡ abi.realloc },
    ghost frees: { shown_func free.value ≡ abi.free },
}

// A function type of these parameters and results.
#[inline(always)]
fn function_of(
    alloc: Global,
    params: &[ValType],
    results: &[ValType],
) -> Result<Rc<FuncType>, Error>
    ensures made { IfOk result (λ t. shown_func t.value ≡ (params.now, results.now)) }
    ensures memory { IfErr result (λ e. e ≡ Error.OutOfMemory) }
{
    let mut ty = FuncType {
        params: Vec::with_capacity(alloc, params.len())?,
        results: Vec::with_capacity(alloc, results.len())?,
    };
    ty.params.extend_from_slice(params)?;
    ty.results.extend_from_slice(results)?;
    Ok(Rc::new(alloc, ty)?)
}

impl CanonicalAbi {
    // It is apart, so that those who ask for the types do not have its variables.
    #[inline(never)]
    pub(super) fn new(alloc: Global) -> Result<CanonicalAbi, Error>
        ensures { IfErr result (λ e. e ≡ Error.OutOfMemory) }
    {
        Ok(CanonicalAbi {
            realloc: function_of(alloc, &FOUR, &ONE)?,
            free: function_of(alloc, &THREE, &NONE)?,
        })
    }
}
