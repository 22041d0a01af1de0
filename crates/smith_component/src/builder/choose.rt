//! The choice that begins a turn.

ghost use Rattle.std.specs.Prelude.{◌≡◌};
ghost use Rattle.smith_input.specs.Reading.{IsTail};
ghost use Rattle.smith_component.specs.BuilderView.{stack_of, IsSound};
ghost use Rattle.smith_tree.specs.Open.{items, items_with_input};
ghost use Rattle.smith_input.specs.Choices.{ReadsAmong};

use crate::builder::Progress;
use smith_input::Unstructured;
use smith_tree::{Item, Turn, turn_items};

impl Progress {
    // What a turn may do if input is left.
    fn items_with_input(&self) -> &'static [Item]
        requires { IsSound self.now }
        ensures { result.now ≡ items_with_input self.now.config (stack_of self.now) }
    {
        let turn = Turn {
            depth: self.outer.len(),
            sections: self.inner.sections.len(),
        };
        let totals = self.totals.with_functions(self.inner.tables.counted);
        turn_items(&self.config, turn, totals)
    }

    // The choice that begins a turn: if no input is left, the inner component is finished.
    pub(crate) fn choose_item(&self, u: &mut Unstructured) -> Item
        requires sound { IsSound self.now }
        ensures chooses { ReadsAmong (items self.now.config (stack_of self.now) u.old) u.old result u.new }
        ensures tail { IsTail u.new u.old }
    {
        if u.is_empty() {
            return Item::Finish;
        }
        *u.choose(self.items_with_input())
    }
}
