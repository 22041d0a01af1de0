//! What a component has a minimum of: how many there are, and how what is missing is added.

ghost use Rattle.std.specs.Prelude.{◌≡◌, ◌≤◌, OnOk};
ghost use Rattle.smith_input.specs.Consumes.{Consumes};
ghost use Rattle.smith_component.specs.BuilderView.{stack_of, IsSound};
ghost use Rattle.smith_component.specs.Fills.{count_of, minimum_of, Fills};
ghost use Rattle.smith_component.specs.Filling.{IsMinimum};
ghost use Rattle.smith_component.specs.Refusals.{IsAnswered};
ghost use Rattle.smith_component.specs.Steps.{Grows};

use crate::builder::Progress;
use crate::item::Counted;
use smith_input::{Error, Unstructured};

impl Progress {
    // How many the inner component has.
    fn count(&self, what: Counted) -> usize
        requires { IsSound self.now }
        ensures { result ≡ count_of what (stack_of self.now).inner }
    {
        match what {
            Counted::Types => self.scopes.own_len(),
            Counted::Imports => self.inner.tables.imports.len(),
            Counted::Functions => self.inner.tables.counted,
        }
    }

    // How many it must have. The limits fit together.
    fn minimum(&self, what: Counted) -> usize
        ensures { result ≡ minimum_of what self.now.config }
    {
        match what {
            Counted::Types => self.config.min_types,
            Counted::Imports => self.config.min_imports,
            Counted::Functions => self.config.min_funcs,
        }
    }

    // Is that minimum met?
    pub(super) fn check_minimum(&self, what: Counted) -> Result<(), Error>
        requires { IsSound self.now }
        ensures { IsMinimum result (minimum_of what self.now.config) (count_of what (stack_of self.now).inner) }
    {
        if self.count(what) < self.minimum(what) {
            return Err(Error::MinimumNotMet);
        }
        Ok(())
    }

    // Adds what is missing of a minimum, as far as it can be added.
    pub(super) fn fill_one(&mut self, what: Counted, u: &mut Unstructured) -> Result<(), Error>
        requires sound { IsSound self.old }
        ensures filled { OnOk result
            (Fills what self.old.config (stack_of self.old) u.old (stack_of self.new).inner u.new) }
        ensures grows { OnOk result (Grows self.old self.new) }
        ensures nothing { minimum_of what self.old.config ≤ count_of what (stack_of self.old).inner
            → IsAnswered result }
        ensures input { Consumes result u.old u.new }
    {
        let count = self.count(what);
        let minimum = self.minimum(what);
        if minimum <= count {
            return Ok(());
        }
        let missing = minimum - count;
        match what {
            Counted::Types => self.add_types(missing, u),
            Counted::Imports => self.add_imports(missing, u),
            Counted::Functions => self.add_canonicals(missing, u),
        }
    }
}
