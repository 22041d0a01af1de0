//! Components that are smaller by a step.

ghost use Rattle.std.specs.Prelude.{◌≡◌, ◌↔◌, ◌+◌, ◌≤◌, ◌<◌, true, false, Decides, IfOk, IfErr, option_map};
ghost use Rattle.smith_tree.specs.Grammar.{Spells};
ghost use Rattle.smith_tree.specs.Tree.{Tree};
ghost use Rattle.smith_read.specs.PartNodes.{shown_tree};
ghost use Rattle.smith_reduce.specs.Bytes.{IsReduceRefusal};
ghost use Rattle.smith_reduce.specs.Smaller.{IsKth, IsNext, stepped, steps};
ghost use Rattle.smith_reduce.specs.Wanted.{AreConsistent, AreCountsAllowed, ArePassed, IsFound, IsLead, IsWanted};
ghost use Rattle.smith_reduce.specs.Wanted.{IsWhole};
ghost use Rattle.smith_reduce.specs.declared.error.ReduceError.TheVariants.{InconsistentLimits};

use crate::edits::spelled;
use crate::error::ReduceError;
use crate::generated::has_script;
use smith_check::{Judgement, judged};
use smith_edit::{item_count, keeps_maxima, next_component, simplified, without, without_items};
use smith_format::Config;
use smith_read::{ComponentTree, read};
use std::alloc::{AllocError, Global};

/// Which components are wanted.
#[derive(Clone, Copy)]
pub enum Wanted<'a> {
    /// The ones that have a script within the limits, so that an input produces them.
    Generated(&'a Config),
    /// The well-formed ones.
    WellFormed,
}

/// A step, and the component to which it leads.
#[derive(Debug, PartialEq, Eq, Drop)]
pub struct Step {
    /// Its number, from 0 over all steps, including the ones that lead to no wanted component.
    pub number: usize,
    /// The component's bytes.
    pub bytes: Vec<u8>,
}

// What is found at a step.
#[derive(Drop)]
enum Found {
    // The bytes of the wanted component to which it leads.
    Wanted(Vec<u8>),
    // It leads to none, nor do the steps after it: that many in a row.
    Nothing(usize),
}

// A component that is made smaller by steps.
#[derive(Clone, Copy)]
struct Whole<'a> {
    component: &'a ComponentTree,
    // How many items it has.
    items: usize,
    wanted: Wanted<'a>,
    // Its counts alone say that it is not wanted itself.
    is_over: bool,
}

impl Wanted<'_> {
    // Do limits fit together, if there are any?
    fn are_consistent(&self) -> bool
        ensures { (result ≡ true) ↔ AreConsistent self.now }
    {
        match self {
            Wanted::Generated(config) => config.check().is_ok(),
            Wanted::WellFormed => true,
        }
    }

    // Do its counts allow that the component is wanted?
    fn allows(&self, component: &ComponentTree) -> Result<bool, AllocError>
        ensures { IfOk result (λ r. Decides r (AreCountsAllowed self.now (shown_tree component.now))) }
    {
        match self {
            Wanted::Generated(config) => keeps_maxima(component, config),
            Wanted::WellFormed => Ok(true),
        }
    }

    // Is the component with these bytes wanted?
    fn has(
        &self,
        alloc: Global,
        component: &ComponentTree,
        bytes: &[u8],
    ) -> Result<bool, AllocError>
        requires { Spells (shown_tree component.now) bytes.now }
        ensures { IfOk result (λ r. Decides r (IsWanted self.now (shown_tree component.now))) }
    {
        match self {
            Wanted::Generated(config) => has_script(alloc, config, component, bytes),
            Wanted::WellFormed => match judged(alloc, component)? {
                Judgement::WellFormed => Ok(true),
                Judgement::IllFormed(_) => Ok(false),
            },
        }
    }
}

impl<'a> Whole<'a> {
    fn new(wanted: Wanted<'a>, component: &'a ComponentTree) -> Result<Whole<'a>, AllocError>
        ensures { IfOk result
            (λ w. IsWhole w × (w.component ≡ component.entry) × (w.wanted ≡ wanted.entry)) }
    {
        Ok(Whole {
            component,
            items: item_count(component)?,
            wanted,
            is_over: !wanted.allows(component)?,
        })
    }

    // How many steps there are: as many as there are items remove one each, and as many make one simpler.
    fn step_count(&self) -> Result<usize, AllocError>
        requires { IsWhole self.now }
        ensures { IfOk result (λ n. n ≡ steps (shown_tree self.now.component.now)) }
    {
        self.items.checked_add(self.items).ok_or(AllocError)
    }

    // The component after a step: the first ones remove an item each, and the ones after them make one simpler.
    fn stepped(&self, alloc: Global, step: usize) -> Result<Option<ComponentTree>, AllocError>
        requires { IsWhole self.now }
        ensures { IfOk result (λ r. option_map shown_tree r ≡ stepped step (shown_tree self.now.component.now)) }
    {
        if step < self.items {
            return without(alloc, self.component, step);
        }
        simplified(alloc, self.component, step - self.items)
    }

    // The bytes of the wanted component to which a step leads.
    fn led_to(&self, alloc: Global, step: usize) -> Result<Option<Vec<u8>>, AllocError>
        requires { IsWhole self.now }
        ensures { IfOk result
            (λ r. IsLead self.now.wanted (shown_tree self.now.component.now) step (option_map (λ b. b.items) r)) }
    {
        let Some(smaller) = self.stepped(alloc, step)? else {
            return Ok(None);
        };
        let Some(bytes) = spelled(alloc, &smaller)? else {
            return Ok(None);
        };
        if self.wanted.has(alloc, &smaller, &bytes)? {
            return Ok(Some(bytes));
        }
        Ok(None)
    }

    // Do counts allow that a step which removes one of that many items, from the first on, leads to a wanted component?
    // None does if the component without all of them still has too many entries.
    fn may_remove(&self, alloc: Global, first: usize, count: usize) -> Result<bool, AllocError>
        requires whole { IsWhole self.now }
        requires within { first + count ≤ self.now.items }
        requires some { 0 < count }
        ensures { IfOk result
            (λ r. r ≡ false → ArePassed self.now.wanted (shown_tree self.now.component.now) first (first + count)) }
    {
        let less = without_items(alloc, self.component, first, first + (count - 1))?;
        self.wanted.allows(&less)
    }

    // How many steps, from that one on, lead to no wanted component because of counts, if each removes an item and the
    // first leads to none. It looks at the next three steps, at seven, and so on.
    fn run_passed(&self, alloc: Global, step: usize) -> Result<usize, AllocError>
        requires whole { IsWhole self.now }
        requires within { step < self.now.items }
        requires first { ArePassed self.now.wanted (shown_tree self.now.component.now) step (step + 1) }
        ensures { IfOk result
            (λ n. ArePassed self.now.wanted (shown_tree self.now.component.now) step (step + n)) }
    {
        let rest = self.items - step;
        let mut passed: usize = 1;
        for _turn in 0..usize::BITS {
            let count = passed.saturating_mul(2).saturating_add(1).min(rest);
            if count == passed || self.may_remove(alloc, step, count)? {
                return Ok(passed);
            }
            passed = count;
        }
        Ok(passed)
    }

    // How many steps, from that one on, lead to no wanted component because of counts, if each removes an item. Most
    // often the first may lead to one, or none of them does, or none of half of them.
    fn removals_passed(&self, alloc: Global, step: usize) -> Result<usize, AllocError>
        requires whole { IsWhole self.now }
        requires within { step < self.now.items }
        ensures { IfOk result
            (λ n. ArePassed self.now.wanted (shown_tree self.now.component.now) step (step + n)) }
    {
        if self.may_remove(alloc, step, 1)? {
            return Ok(0);
        }
        let rest = self.items - step;
        if !self.may_remove(alloc, step, rest)? {
            return Ok(rest);
        }
        let half = rest.div_ceil(2);
        if !self.may_remove(alloc, step, half)? {
            return Ok(half);
        }
        self.run_passed(alloc, step)
    }

    // How many steps, from that one on among those that make an item simpler, lead to no wanted component, if counts
    // say that the component is not wanted itself. Only a component in the place of the whole changes counts.
    fn simpler_passed(&self, at: usize) -> Result<usize, AllocError>
        requires whole { IsWhole self.now }
        requires over { self.now.is_over ≡ true }
        ensures { let first = self.now.items + at in IfOk result
            (λ n. ArePassed self.now.wanted (shown_tree self.now.component.now) first (first + n)) }
    {
        match next_component(self.component, at)? {
            Some(next) => Ok(next - at),
            None => Ok(self.items.saturating_sub(at)),
        }
    }

    // How many steps, from that one on, lead to no wanted component because of counts.
    fn passed(&self, alloc: Global, step: usize) -> Result<usize, AllocError>
        requires { IsWhole self.now }
        ensures { IfOk result
            (λ n. ArePassed self.now.wanted (shown_tree self.now.component.now) step (step + n)) }
    {
        if !self.is_over {
            return Ok(0);
        }
        if step < self.items {
            return self.removals_passed(alloc, step);
        }
        self.simpler_passed(step - self.items)
    }

    // What is found at a step.
    fn look_at(&self, alloc: Global, step: usize) -> Result<Found, AllocError>
        requires { IsWhole self.now }
        ensures { IfOk result (IsFound self.now.wanted (shown_tree self.now.component.now) step) }
    {
        let passed = self.passed(alloc, step)?;
        if passed > 0 {
            return Ok(Found::Nothing(passed));
        }
        match self.led_to(alloc, step)? {
            Some(bytes) => Ok(Found::Wanted(bytes)),
            None => Ok(Found::Nothing(1)),
        }
    }

    // The first step from that number on that leads to a wanted component.
    fn next(&self, alloc: Global, from: usize) -> Result<Option<Step>, AllocError>
        requires { IsWhole self.now }
        ensures { IfOk result (λ r. IsNext (IsWanted self.now.wanted) (shown_tree self.now.component.now) from
            (option_map (λ s. (s.number, s.bytes.items)) r)) }
    {
        let steps = self.step_count()?;
        let mut number = from;
        while number < steps {
            match self.look_at(alloc, number)? {
                Found::Wanted(bytes) => return Ok(Some(Step { number, bytes })),
                Found::Nothing(count) => number = number.saturating_add(count),
            }
        }
        Ok(None)
    }

    // The bytes of the wanted component to which a step leads that has that many before it that lead to one.
    fn kth(&self, alloc: Global, k: usize) -> Result<Option<Vec<u8>>, AllocError>
        requires { IsWhole self.now }
        ensures { IfOk result (λ r. IsKth (IsWanted self.now.wanted) (shown_tree self.now.component.now) k
            (option_map (λ b. b.items) r)) }
    {
        let mut from: usize = 0;
        for _found in 0..k {
            let Some(step) = self.next(alloc, from)? else {
                return Ok(None);
            };
            from = step.number.checked_add(1).ok_or(AllocError)?;
        }
        match self.next(alloc, from)? {
            Some(step) => Ok(Some(step.bytes)),
            None => Ok(None),
        }
    }
}

// The component of the bytes, if limits fit together.
fn component_of(
    alloc: Global,
    wanted: Wanted<'_>,
    bytes: &[u8],
) -> Result<ComponentTree, ReduceError>
    ensures spelled { IfOk result (λ c. Spells (shown_tree c) bytes.now) }
    ensures refuses { IfErr result (IsReduceRefusal bytes.now) }
    ensures limits { IfErr result (λ e. (e ≡ InconsistentLimits) ↔ (¬ AreConsistent wanted.entry)) }
    ensures accepts { IfOk result (λ _. AreConsistent wanted.entry) }
{
    if !wanted.are_consistent() {
        return Err(ReduceError::InconsistentLimits);
    }
    Ok(read(alloc, bytes)?)
}

/// The `k`-th, from 0, of the components that are wanted and smaller than the one that these bytes are by a step. There
/// is none if no more than `k` steps lead to a wanted component.
///
/// The steps are, in this order: without each item, as [`smith_edit::without`] defines, and with each item made
/// simpler, as [`smith_edit::simplified`] defines. Each takes the time of a judgement, and that of a script if counts,
/// names and types do not say that there is one; steps in a row that leave too many types, functions or other entries
/// for the limits take that of a few edits.
pub fn smaller(
    alloc: Global,
    wanted: Wanted<'_>,
    bytes: &[u8],
    k: usize,
) -> Result<Option<Vec<u8>>, ReduceError>
    ensures answered { IfOk result
        (λ r. (t : Tree) × Spells t bytes.now × IsKth (IsWanted wanted.entry) t k (option_map (λ b. b.items) r)) }
    ensures refuses { IfErr result (IsReduceRefusal bytes.now) }
    // Exactly if limits do not fit together, that is the refusal.
    ensures limits { IfErr result (λ e. (e ≡ InconsistentLimits) ↔ (¬ AreConsistent wanted.entry)) }
    ensures accepts { IfOk result (λ _. AreConsistent wanted.entry) }
{
    let component = component_of(alloc, wanted, bytes)?;
    let whole = Whole::new(wanted, &component)?;
    Ok(whole.kth(alloc, k)?)
}

/// The first step from that number on that leads to a component that is wanted and smaller than the one that these
/// bytes are. There is none if no step from there on leads to one.
///
/// The steps and their order are as in [`smaller`], which counts only the ones that lead to a wanted component. Each
/// from that number up to the one that is returned takes the time that it takes there.
pub fn next_smaller(
    alloc: Global,
    wanted: Wanted<'_>,
    bytes: &[u8],
    from: usize,
) -> Result<Option<Step>, ReduceError>
    ensures answered { IfOk result (λ r. (t : Tree) × Spells t bytes.now
        × IsNext (IsWanted wanted.entry) t from (option_map (λ s. (s.number, s.bytes.items)) r)) }
    ensures refuses { IfErr result (IsReduceRefusal bytes.now) }
    // Exactly if limits do not fit together, that is the refusal.
    ensures limits { IfErr result (λ e. (e ≡ InconsistentLimits) ↔ (¬ AreConsistent wanted.entry)) }
    ensures accepts { IfOk result (λ _. AreConsistent wanted.entry) }
{
    let component = component_of(alloc, wanted, bytes)?;
    let whole = Whole::new(wanted, &component)?;
    Ok(whole.next(alloc, from)?)
}
