//! What a turn of the builder may do: the builder chooses among it, and scripts spell that choice.

ghost use Rattle.std.specs.Prelude.{◌≡◌};
ghost use Rattle.smith_tree.specs.Turns.{turn_items};

use crate::choices::{Item, item_choices};
use crate::totals::RefTotals;
use smith_format::Config;

/// Where a turn is: within that many components, and after that many sections of the inner one.
#[derive(Clone, Copy)]
pub struct Turn {
    pub depth: usize,
    pub sections: usize,
}

/// What a turn may do if input is left, in the order of its choice.
pub fn turn_items(config: &Config, turn: Turn, totals: RefTotals) -> &'static [Item]
    ensures { result.now ≡ turn_items config.now turn.depth turn.sections totals }
{
    let finish = turn.sections >= config.finish_after;
    let modules = totals.modules < config.max_modules;
    let components = turn.depth < config.max_nesting_depth.saturating_sub(1)
        && totals.components < config.max_components;
    let exports = config.max_exports > 0;
    item_choices(finish, modules, components, exports)
}
