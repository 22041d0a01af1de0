//! Whether a component can be generated.

ghost use Rattle.std.specs.Prelude.{◌≡◌, true, Decides, IfOk};
ghost use Rattle.smith_tree.specs.Grammar.{Spells};
ghost use Rattle.smith_read.specs.PartNodes.{shown_tree};
ghost use Rattle.smith_reduce.specs.Allowed.{HasNoDemands, IsAllowed};
ghost use Rattle.smith_reduce.specs.Smaller.{HasScript};

use crate::fits::fits;
use smith_check::{Judgement, judged};
use smith_edit::keeps_maxima;
use smith_format::Config;
use smith_read::ComponentTree;
use smith_script::script_of;
use std::alloc::{AllocError, Global};

// Do limits demand nothing of a component that fits them?
fn has_no_demands(config: &Config) -> bool
    ensures { result ≡ true → HasNoDemands config.now }
{
    !config.must_validate
        && config.min_types == 0
        && config.min_imports == 0
        && config.min_funcs == 0
        && config.check().is_ok()
}

// Is a component allowed, so that it can be generated if it is well formed?
fn is_allowed(alloc: Global, config: &Config, component: &ComponentTree) -> Result<bool, AllocError>
    ensures { IfOk result (λ r. r ≡ true → IsAllowed config.now (shown_tree component.now)) }
{
    Ok(
        has_no_demands(config)
            && keeps_maxima(component, config)?
            && fits(alloc, config, component)?,
    )
}

/// Does the component with these bytes have a script within the limits?
///
/// If its counts, names and types are allowed, it has one exactly if it is well formed. Otherwise the script is spelled
/// and tried, which takes more than twice as long.
pub(crate) fn has_script(
    alloc: Global,
    config: &Config,
    component: &ComponentTree,
    bytes: &[u8],
) -> Result<bool, AllocError>
    requires { Spells (shown_tree component.now) bytes.now }
    ensures { IfOk result (λ r. Decides r (HasScript config.now (shown_tree component.now))) }
{
    if is_allowed(alloc, config, component)? {
        return match judged(alloc, component)? {
            Judgement::WellFormed => Ok(true),
            Judgement::IllFormed(_) => Ok(false),
        };
    }
    match script_of(alloc, config, component, bytes)? {
        Some(_script) => Ok(true),
        None => Ok(false),
    }
}
