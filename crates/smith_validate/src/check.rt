//! A component step by step.

ghost use Rattle.std.specs.Prelude.{Ok};
ghost use Rattle.smith_read.specs.Walk.{closes, opens, shown_step};
ghost use Rattle.smith_validate.specs.Stepping.{Goes, IsEven, Stands, StandsExactly, State, next, root};

use crate::core_modules::add_module;
use crate::error::Stop;
use crate::known::Known;
use crate::open::Open;
use crate::rows::{add_canon_row, add_core_row, add_export_row, add_import_row, add_type_row};
use smith_read::{Contents, Step};
use smith_scope::Nest;
use std::alloc::Global;

/// What is known between two steps: the types in scope, and the rest of each open component.
#[derive(Drop)]
pub(crate) struct Check {
    pub(crate) known: Known,
    pub(crate) opens: Nest<Open>,
}

impl Check {
    /// Before the first step.
    pub(crate) fn new(alloc: Global) -> Check
        ensures { StandsExactly result root }
    {
        Check {
            known: Known::new(alloc),
            opens: Nest::new(alloc, Open::new(alloc)),
        }
    }

    fn enter(&mut self, alloc: Global) -> Result<(), Stop>
        ensures { Goes result self.old self.new opens }
    {
        self.opens.own.body.counts.add_component()?;
        self.known.enter(alloc)?;
        self.opens.enter(Open::new(alloc))?;
        Ok(())
    }

    fn leave(&mut self)
        requires { IsEven self.old }
        ensures stands { (at : State) → Stands self.old at → Stands self.new (next closes at) }
        ensures exact { (at : State) → StandsExactly self.old at → StandsExactly self.new (next closes at) }
    {
        if self.opens.depth() > 1 {
            self.known.scopes.leave();
            self.opens.leave();
        }
    }

    /// Judges a step.
    pub(crate) fn step(&mut self, alloc: Global, step: Step<'_>) -> Result<(), Stop>
        requires { IsEven self.old }
        ensures { Goes result self.old self.new (shown_step step.entry) }
    {
        match step {
            Step::Begin(Contents::Parts(_)) => self.enter(alloc),
            Step::End(Contents::Parts(_)) => {
                self.leave();
                Ok(())
            }
            Step::Custom(_) | Step::Begin(_) | Step::End(_) => Ok(()),
            Step::CoreModule(text) => add_module(&mut self.opens.own.body.counts, text),
            Step::CoreType(ty) => add_core_row(alloc, &mut self.known, &mut self.opens.own, ty),
            Step::Type(ty) => add_type_row(alloc, &mut self.known, &mut self.opens.own, ty),
            Step::Canon(canon) => add_canon_row(&mut self.opens.own, canon),
            Step::Import(row) => add_import_row(alloc, &mut self.known, &mut self.opens.own, row),
            Step::Export(row) => add_export_row(alloc, &mut self.known, &mut self.opens.own, row),
        }
    }
}
