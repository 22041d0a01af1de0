//! Core function types from the input.

ghost use Rattle.std.specs.Prelude.{IfOk};
ghost use Rattle.smith_input.specs.Consumes.{Consumes};
ghost use Rattle.smith_format.specs.CoreReading.{ReadsFunction};
ghost use Rattle.smith_format.specs.Limits.{configured, max_results};
ghost use Rattle.smith_format.specs.Shown.{shown_func};

use crate::core_types::making::Making;
use smith_format::{FuncType, configured_func_type};
use smith_input::{Error, Unstructured};
use std::rc::Rc;

// A core function type of the configured value types.
#[inline(always)]
pub(crate) fn read_core_function(
    making: &Making,
    u: &mut Unstructured,
) -> Result<Rc<FuncType>, Error>
    ensures reads { IfOk result (λ t. ReadsFunction making.now.config.now.loop_bits (configured making.now.config.now)
        (max_results making.now.config.now) u.old (shown_func t.value) u.new) }
    ensures input { Consumes result u.old u.new }
{
    let func = configured_func_type(making.alloc, u, making.config, making.valtypes)?;
    let shared = Rc::new(making.alloc, func)?;
    Ok(shared)
}
