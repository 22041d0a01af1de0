//! The builder, turn by turn.

ghost use Rattle.std.specs.Prelude.{◌≡◌, ℕ, ◌+◌, List, [], length, true, IfOk, IfErr};
ghost use Rattle.smith_input.specs.Reading.{IsTail};
ghost use Rattle.smith_format.specs.Consistency.{IsConsistent};
ghost use Rattle.smith_component.specs.Building.{open_of};
ghost use Rattle.smith_component.specs.BuilderView.{building_of, stack_of, IsSound};
ghost use Rattle.smith_tree.specs.Limits.{Minima};
ghost use Rattle.smith_component.specs.Refusals.{IsAnswered, IsChosen, IsNewRefusal, IsRefusal, IsStepRefusal};
ghost use Rattle.smith_component.specs.Steps.{next_of, step_of, DoesItem, IsOffered, IsReady, IsStep, IsTurn};
ghost use Rattle.smith_component.specs.Steps.{RefusesStep, SoundUnlessDone, ValidatesIfDone};
ghost use Rattle.smith_component.specs.Runs.{Falls, RunsTo};
ghost use Rattle.smith_tree.specs.Open.{root};
ghost use Rattle.smith_tree.specs.declared.choices.Item.TheVariants.{Finish, Module};

mod canonicals;
mod choose;
mod counted;
mod entries;
mod exports;
mod finish;
mod imports;
mod nest;
mod open;
mod sections;
mod tables;
mod totals;

use crate::component::Component;
use open::OpenComponent;
use smith_format::Config;
use smith_input::{Error, Unstructured};
use smith_tree::Item;
use smith_types::Scopes;
use std::alloc::Global;
use std::marker::Model;
use totals::TreeTotals;

/// A component under construction. Contracts see its limits, and the open components, outermost first, each as
/// its sections so far. At every moment what is built so far is well formed and within the limits, can be read, and
/// uses only what was offered.
#[derive(Drop)]
pub struct Builder {
    progress: Progress,
}

/// What a builder holds, changed in place. If a turn is refused, nothing is known of it, and it is dropped.
#[derive(Drop)]
pub(crate) struct Progress {
    alloc: Global,
    config: Config,
    scopes: Scopes,
    outer: Vec<OpenComponent>,
    inner: OpenComponent,
    totals: TreeTotals,
}

impl Model for Builder {
    ghost use Rattle.std.specs.Coded.{codes};
    ghost use Rattle.smith_component.specs.Building.{Building};
    ghost use Rattle.smith_component.specs.contracts.component.Section as section;

    ghost Value = { Building };

    ghost coded = { Prim.hlevel (codes, section.the_row.coded) };

    ghost use Rattle.smith_component.specs.BuilderView.{building_of, IsBuilt};

    ghost view = { λ b. building_of b.progress };

    ghost invariant = { λ b. IsBuilt b.progress };
}

/// What a turn leads to.
#[derive(Drop)]
pub enum Step {
    StillBuilding(Builder),
    Finished(Component),
}

impl Progress {
    // One open component, empty, within limits that fit together. It is made where it stays: in a result it would be
    // copied twice.
    pub(crate) fn new(alloc: Global, config: Config) -> Progress
        requires { IsConsistent config }
        ensures made { (result.config ≡ config) × (stack_of result ≡ root) }
        ensures sound { IsSound result }
    {
        Progress {
            alloc,
            config,
            scopes: Scopes::with_marks(alloc, config.must_validate),
            outer: Vec::new(alloc),
            inner: OpenComponent::new(alloc, 0),
            totals: TreeTotals {
                modules: 0,
                components: 0,
                instances: 0,
            },
        }
    }

    // Turn by turn, from one empty open component to a finished one. Here nothing is dropped, so that the code for that
    // is at one place of the caller's.
    pub(crate) fn run(&mut self, u: &mut Unstructured) -> Result<Component, Error>
        requires sound { IsSound self.old }
        requires empty { stack_of self.old ≡ root }
        ensures run { IfOk result (λ c. RunsTo self.old.config u.old c u.new) }
        ensures refuses { IfErr result (λ e. IsRefusal self.old.config u.old e u.new) }
        ensures tail { IsTail u.new u.old }
    {
        loop {
            let done = self.turn(u)?;
            match done {
                None => {}
                Some(component) => return Ok(component),
            }
        }
    }

    // One turn. It returns the component, if that is finished.
    pub(crate) fn turn(&mut self, u: &mut Unstructured) -> Result<Option<Component>, Error>
        requires sound { IsSound self.old }
        ensures steps { IfOk result (λ c. IsTurn (building_of self.old) u.old (step_of self.new c) u.new) }
        ensures sound { IfOk result (λ c. SoundUnlessDone self.new c) }
        ensures refuses { IfErr result (λ e. IsStepRefusal self.old.config (stack_of self.old) u.old e u.new) }
        ensures alone { IsReady self.old.config (stack_of self.old) u.old → IsAnswered result }
        ensures tail { IsTail u.new u.old }
    {
        let item = self.choose_item(u);
        self.do_item(item, u)
    }

    // What was chosen is done. It returns the component, if that is finished.
    fn do_item(&mut self, item: Item, u: &mut Unstructured) -> Result<Option<Component>, Error>
        requires sound { IsSound self.old }
        requires offered { IsOffered self.old.config (stack_of self.old) item }
        ensures does { IfOk result (λ c. DoesItem item self.old u.old self.new c u.new) }
        ensures refuses { (left : List ℕ) → IsChosen self.old.config (stack_of self.old) left item u.old
            → IfErr result (λ e. IsStepRefusal self.old.config (stack_of self.old) left e u.new) }
        ensures alone { item ≡ Finish → (stack_of self.old).outer ≡ []
            → Minima self.old.config (stack_of self.old).inner → IsAnswered result }
        ensures tail { IsTail u.new u.old }
    {
        match item {
            Item::Finish => return self.finish(u),
            Item::Custom => self.add_custom(u)?,
            Item::CoreTypes => self.add_core_types(u)?,
            Item::Types => self.add_types(0, u)?,
            Item::Imports => self.add_imports(0, u)?,
            Item::Canonical => self.add_canonicals(0, u)?,
            Item::Module => self.add_module(u)?,
            Item::Component => self.open_component()?,
            Item::Exports => self.add_exports(u)?,
        }
        Ok(None)
    }
}

impl Builder {
    /// A builder with one open component, empty. Limits that do not fit together are refused with `InconsistentLimits`,
    /// and otherwise it fails only when out of memory.
    pub fn new(alloc: Global, config: Config) -> Result<Builder, Error>
        ensures made { IfOk result (λ b. (b.config ≡ config) × (open_of b ≡ root)) }
        ensures accepted { IfOk result (λ _. IsConsistent config) }
        ensures refuses { IfErr result (IsNewRefusal config) }
    {
        config.check()?;
        let progress = Progress::new(alloc, config);
        Ok(Builder { progress })
    }

    /// One turn: a choice among what may be done, which is then done. If the choice is to finish a component, what it
    /// is missing of the minima is added first: types, then imports, then functions. If imports or functions are
    /// missing after that, no component is finished, and `MinimumNotMet` is returned only then. If the choice is a core
    /// module, and the limits on memories leave none, it is `ModuleRefused`. Otherwise it fails only when out of
    /// memory.
    pub fn step(self, u: &mut Unstructured) -> Result<Step, Error>
        ensures steps { IfOk result (λ s. IsStep self u.old s u.new) }
        ensures falls { IfOk result (λ s. Falls self.config u.old (open_of self) u.new (next_of s)) }
        // If components must validate, one that is finished does.
        ensures validates { self.config.must_validate ≡ true → IfOk result ValidatesIfDone }
        ensures accepted { IsConsistent self.config }
        // A refusal leaves what is decided too, allocation failure aside. No memory is needed to finish the root if no
        // input is left and nothing is missing.
        ensures refusals { RefusesStep self.config (open_of self) u.old result u.new }
        ensures tail { IsTail u.new u.old }
    {
        let mut progress = self.progress;
        let done = progress.turn(u)?;
        match done {
            None => Ok(Step::StillBuilding(Builder { progress })),
            Some(component) => Ok(Step::Finished(component)),
        }
    }

    /// How many components are open, the root included.
    pub fn depth(&self) -> usize
        ensures { result ≡ length (open_of self.now).outer + 1 }
    {
        self.progress.outer.len() + 1
    }

    /// What a turn over this input does: the choice that begins it, and no more, is read.
    pub fn next_item(&self, u: &mut Unstructured) -> Item
        ensures chooses { IsChosen self.now.config (open_of self.now) u.old result u.new }
        ensures tail { IsTail u.new u.old }
    {
        self.progress.choose_item(u)
    }
}
