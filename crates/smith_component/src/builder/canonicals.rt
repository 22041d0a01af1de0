//! Canonical functions: component functions are lowered, and core functions lifted.

ghost use Rattle.std.specs.Prelude.{◌≡◌, ◌-◌, ◌<◌, ◌≤◌, List, [], length, IfOk, OnOk, IfErr, MatchOption};
ghost use Rattle.smith_input.specs.Choices.{ReadsAmong};
ghost use Rattle.smith_input.specs.Loops.{Loop};
ghost use Rattle.smith_input.specs.Consumes.{Consumes};
ghost use Rattle.smith_input.specs.Reading.{IsTail};
ghost use Rattle.smith_format.specs.Consistency.{max_u32};
ghost use Rattle.smith_scopes.specs.Scopes.{own_scope};
ghost use Rattle.smith_component.specs.AddedSections.{AddsCanons};
ghost use Rattle.smith_component.specs.BuilderView.{stack_of, IsSound};
ghost use Rattle.smith_component.specs.Canonicals.{CanonTurn, NoCanon, ReadsLift, ReadsLower, with_defined};
ghost use Rattle.smith_component.specs.CanonicalsState.{DraftsOn, IsDraft, IsDrafted, IsLowered, ReadsLiftedTypeOf};
ghost use Rattle.smith_component.specs.CanonicalsState.{SameLoans, canon_items_of, draft_of};
ghost use Rattle.smith_component.specs.Steps.{Grows};
ghost use Rattle.smith_tree.specs.Tree.{function_count};
ghost use Rattle.smith_tree.specs.declared.choices.CanonItem.{CanonItem};

use crate::builder::Progress;
use crate::builder::open::OpenComponent;
use crate::component::{CanonicalSection, Section, TypeSection};
use smith_format::Config;
use smith_input::{Error, Unstructured, choose_offered};
use smith_tree::{CanonItem, Func, canon_offers};
use smith_types::{DefType, FuncType, Scopes, canonical_abi_for, lifted_func_type};
use std::alloc::{AllocError, Global};
use std::mem;
use std::rc::Rc;

// Canonical sections at the end of a component, the last of which still grows: its functions are kept separately. It
// owns nothing, so that what it changes stays its lender's.
#[derive(Drop)]
pub(super) struct CanonicalDraft<'a> {
    alloc: Global,
    config: &'a Config,
    scopes: &'a mut Scopes,
    component: &'a mut OpenComponent,
    funcs: &'a mut Vec<Func>,
}

impl<'a> CanonicalDraft<'a> {
    // What a turn is, by a choice; none if no function can be lowered or lifted.
    fn choose_item(&self, u: &mut Unstructured) -> Option<CanonItem>
        ensures { MatchOption result
            ((canon_items_of self.now.component.now.tables ≡ []) × (u.new ≡ u.old))
            (λ item. ReadsAmong (canon_items_of self.now.component.now.tables) u.old item u.new) }
    {
        let tables = &self.component.tables;
        let with_lower = !tables.scalars.is_empty();
        let with_lift = !tables.core_functions.is_empty();
        choose_offered(u, &canon_offers(with_lower, with_lift))
    }

    // Lowers a function that can be lowered, by a choice.
    fn lower(&mut self, u: &mut Unstructured) -> Result<(), AllocError>
        requires draft { IsDraft 1 self.old }
        requires some { 0 < length self.old.component.now.tables.scalars.items }
        ensures loans { SameLoans self.old self.new }
        ensures reads { OnOk result (ReadsLower (draft_of self.old) u.old u.new (draft_of self.new)) }
        ensures drafts { OnOk result (DraftsOn self.old self.new) }
        ensures tail { IsTail u.new u.old }
    {
        let func_index = *u.choose(&self.component.tables.scalars);
        self.funcs.push(Func::CanonLower { func_index })?;
        self.component.tables.add_core_function(func_index)
    }

    // A type that flattens as the type of the component function which the core function lowers.
    fn lifted_type(&self, core_func_index: u32, u: &mut Unstructured) -> Result<FuncType, Error>
        requires known { IsLowered (own_scope self.now.scopes.now) self.now.component.now.tables core_func_index }
        ensures reads { IfOk result (λ f. ReadsLiftedTypeOf self.now.config.now
            (own_scope self.now.scopes.now) self.now.component.now.tables core_func_index u.old f u.new) }
        ensures input { Consumes result u.old u.new }
    {
        let tables = &self.component.tables;
        let func_index = tables.core_functions[core_func_index as usize];
        let ty = tables.functions[func_index as usize];
        let lowered = match &**self.scopes.get(0, ty) {
            DefType::Func(func) => func,
            DefType::Defined(_) | DefType::Component(_) | DefType::Instance(_) => unreachable!(),
        };
        let core = canonical_abi_for(self.alloc, lowered)?;
        lifted_func_type(self.alloc, u, self.config.max_name_length, &core)
    }

    // Ends the canonical section, defines the type in a section of its own, and begins another with the lift.
    fn define(&mut self, core_func_index: u32, ty: Rc<FuncType>) -> Result<(), Error>
        requires draft { IsDraft 1 self.old }
        requires types { length (own_scope self.old.scopes.now).types < max_u32 }
        ensures loans { SameLoans self.old self.new }
        ensures defines { OnOk result (draft_of self.new ≡ with_defined (draft_of self.old) core_func_index ty.value) }
        ensures drafts { OnOk result (DraftsOn self.old self.new) }
        ensures memory { IfErr result (λ e. e ≡ Error.OutOfMemory) }
    {
        let mark = self.scopes.function_mark(&*ty);
        let shared = Rc::new(self.alloc, DefType::Func(ty))?;
        let func_ty = self.scopes.push_marked(shared.clone()?, mark)?;
        let mut types = Vec::new(self.alloc);
        types.push(shared)?;
        let ended = mem::replace(self.funcs, Vec::new(self.alloc));
        self.component
            .push(Section::Canonical(CanonicalSection { funcs: ended }))?;
        self.component.push(Section::Types(TypeSection { types }))?;
        self.component.tables.add_function(self.scopes, func_ty)?;
        self.funcs.push(Func::CanonLift {
            func_ty,
            core_func_index,
        })?;
        Ok(())
    }

    // Lifts a core function, by a choice, to a type that is equal to the one that is read, or to one that it defines if
    // there is none. It is abandoned if the component may have no more types.
    fn lift(&mut self, u: &mut Unstructured) -> Result<(), Error>
        requires draft { IsDraft 1 self.old }
        requires some { 0 < length self.old.component.now.tables.core_functions.items }
        ensures loans { SameLoans self.old self.new }
        ensures reads { OnOk result
            (ReadsLift self.old.config.now (draft_of self.old) u.old u.new (draft_of self.new)) }
        ensures drafts { OnOk result (DraftsOn self.old self.new) }
        ensures input { Consumes result u.old u.new }
    {
        let core_func_index = u.choose_index(self.component.tables.core_functions.len()) as u32;
        let signature = self.lifted_type(core_func_index, u)?;
        let ty = Rc::new(self.alloc, signature)?;
        if let Some(func_ty) = self.scopes.choose_equal(&ty, u)? {
            self.component.tables.add_function(self.scopes, func_ty)?;
            self.funcs.push(Func::CanonLift {
                func_ty,
                core_func_index,
            })?;
            return Ok(());
        }
        if self.scopes.own_len() < self.config.max_types {
            return self.define(core_func_index, ty);
        }
        Ok(())
    }

    // A turn, or false if no function can be lowered or lifted.
    fn turn(&mut self, u: &mut Unstructured) -> Result<bool, Error>
        requires draft { IsDraft 1 self.old }
        ensures loans { SameLoans self.old self.new }
        ensures reads { IfOk result (λ made.
            IsDrafted self.old.config.now (draft_of self.old) u.old made u.new (draft_of self.new)) }
        ensures drafts { OnOk result (DraftsOn self.old self.new) }
        ensures input { Consumes result u.old u.new }
    {
        let Some(item) = self.choose_item(u) else {
            return Ok(false);
        };
        match item {
            CanonItem::Lower => self.lower(u)?,
            CanonItem::Lift => self.lift(u)?,
        }
        Ok(true)
    }

    // Turns, at least and at most that many, unless no function can be lowered or lifted.
    fn turns(&mut self, min: usize, max: usize, u: &mut Unstructured) -> Result<(), Error>
        requires ordered { min ≤ max }
        requires draft { IsDraft max self.old }
        ensures loans { SameLoans self.old self.new }
        ensures reads { OnOk result ((turns : List CanonItem) × Loop NoCanon (CanonTurn self.old.config.now)
            self.old.config.now.loop_bits min max 0 (draft_of self.old) u.old turns u.new (draft_of self.new)) }
        ensures drafts { OnOk result (DraftsOn self.old self.new) }
        ensures input { Consumes result u.old u.new }
    {
        for done in 0..max {
            if !u.more_of(self.config.loop_bits, done, min, max) {
                return Ok(());
            }
            if !self.turn(u)? {
                return Ok(());
            }
        }
        Ok(())
    }
}

impl Progress {
    // Canonical sections of at least that many turns, unless no function can be lowered or lifted, and of at most as
    // many as the component may still have functions.
    pub(super) fn add_canonicals(&mut self, min: usize, u: &mut Unstructured) -> Result<(), Error>
        requires sound { IsSound self.old }
        requires room { min ≤ self.old.config.max_funcs - function_count (stack_of self.old).inner }
        ensures added { OnOk result
            (AddsCanons self.old.config min (stack_of self.old) u.old (stack_of self.new).inner u.new) }
        ensures grows { OnOk result (Grows self.old self.new) }
        ensures input { Consumes result u.old u.new }
    {
        let room = self.config.max_funcs - self.inner.tables.counted;
        let mut funcs = Vec::new(self.alloc);
        let mut draft = CanonicalDraft {
            alloc: self.alloc,
            config: &self.config,
            scopes: &mut self.scopes,
            component: &mut self.inner,
            funcs: &mut funcs,
        };
        draft.turns(min, room, u)?;
        self.inner
            .push(Section::Canonical(CanonicalSection { funcs }))?;
        Ok(())
    }
}
