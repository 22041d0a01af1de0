//! Components are finished, when they have what they must have.

ghost use Rattle.std.specs.Prelude.{◌≡◌, [], IfOk, IfErr, OnOk};
ghost use Rattle.smith_input.specs.Reading.{IsTail};
ghost use Rattle.smith_component.specs.BuilderView.{stack_of, IsSound};
ghost use Rattle.smith_tree.specs.Limits.{Minima};
ghost use Rattle.smith_component.specs.Refusals.{IsAnswered, IsFillRefusal};
ghost use Rattle.smith_component.specs.Steps.{DoesItem, FillsMinima};
ghost use Rattle.smith_tree.specs.declared.choices.Item.TheVariants.{Finish};

use crate::builder::Progress;
use crate::component::Component;
use crate::item::Counted;
use smith_input::{Error, Unstructured};

impl Progress {
    // Adds what is missing of the minima: types, then imports, then functions.
    fn fill(&mut self, u: &mut Unstructured) -> Result<(), Error>
        requires sound { IsSound self.old }
        ensures fills { OnOk result (FillsMinima self.old u.old self.new u.new) }
        ensures refuses { IfErr result (λ e. IsFillRefusal self.old.config (stack_of self.old) u.old e u.new) }
        ensures nothing { Minima self.old.config (stack_of self.old).inner → IsAnswered result }
        ensures tail { IsTail u.new u.old }
    {
        self.fill_one(Counted::Types, u)?;
        self.fill_one(Counted::Imports, u)?;
        self.check_minimum(Counted::Imports)?;
        self.fill_one(Counted::Functions, u)?;
        self.check_minimum(Counted::Functions)?;
        Ok(())
    }

    // What is missing is added, and then the inner component is finished.
    pub(crate) fn finish(&mut self, u: &mut Unstructured) -> Result<Option<Component>, Error>
        requires sound { IsSound self.old }
        ensures does { IfOk result (λ c. DoesItem Finish self.old u.old self.new c u.new) }
        ensures refuses { IfErr result (λ e. IsFillRefusal self.old.config (stack_of self.old) u.old e u.new) }
        ensures alone { (stack_of self.old).outer ≡ [] → Minima self.old.config (stack_of self.old).inner
            → IsAnswered result }
        ensures tail { IsTail u.new u.old }
    {
        self.fill(u)?;
        Ok(self.close()?)
    }
}
