//! What the core modules of a component are to a validator.

ghost use Rattle.std.specs.Prelude.{◌+◌, ◌++◌, ◌∷◌, ℕ, List, [], IfOk};
ghost use Rattle.smith_tree.specs.Tree.{modules};
ghost use Rattle.smith_read.specs.Items.{items};
ghost use Rattle.smith_read.specs.PartNodes.{shown_tree};
ghost use Rattle.smith_read.specs.Walk.{items_at, shown_step};
ghost use Rattle.smith_verdict.specs.ModuleWalk.{AreModules, texts_in};
ghost use Rattle.smith_verdict.specs.Modules.{JudgesModule};

use crate::modules::{ModuleJudgement, module_of};
use smith_read::{ComponentTree, Step, Steps};
use std::alloc::{AllocError, Global};

/// What the core modules of a component are to a validator, and the number of the item of one that says so.
#[derive(Clone, Copy)]
pub(crate) enum Modules {
    /// Every validator has to accept each of them.
    Sound,
    /// The standard refuses one.
    Broken(usize),
    /// One is beyond a bound.
    Bounded(usize),
    /// One is not judged.
    Other(usize),
}

impl Modules {
    // What they are with the next module, which is that item. What is broken comes first, and then what is beyond a
    // bound.
    #[tactic(auto, using(crate::proofs::ModuleWalk::and_lemmas))]
    fn and(self, judgement: ModuleJudgement, item: usize) -> Modules
        ensures { (text : List ℕ) (texts : List (List ℕ)) → JudgesModule text judgement → AreModules item texts self
            → AreModules (item + 1) (texts ++ text ∷ []) result }
    {
        match judgement {
            ModuleJudgement::Sound => self,
            ModuleJudgement::Broken => match self {
                Modules::Broken(first) => Modules::Broken(first),
                Modules::Sound | Modules::Bounded(_) | Modules::Other(_) => Modules::Broken(item),
            },
            ModuleJudgement::Bounded => match self {
                Modules::Sound | Modules::Other(_) => Modules::Bounded(item),
                Modules::Broken(_) | Modules::Bounded(_) => self,
            },
            ModuleJudgement::Other => match self {
                Modules::Sound => Modules::Other(item),
                Modules::Broken(_) | Modules::Bounded(_) | Modules::Other(_) => self,
            },
        }
    }

    // What they are with the modules of the next step.
    fn after(self, alloc: Global, step: Step<'_>, item: usize) -> Result<Modules, AllocError>
        ensures { IfOk result (λ found. (texts : List (List ℕ)) → AreModules item texts self
            → AreModules (item + items_at (shown_step step.entry)) (texts ++ texts_in (shown_step step.entry)) found) }
    {
        match step {
            Step::CoreModule(text) => {
                let judgement = module_of(alloc, text)?;
                Ok(self.and(judgement, item))
            }
            _ => Ok(self),
        }
    }
}

/// What the core modules of a component are, at every depth. An error is returned only if an allocation failed, and
/// says nothing about them.
pub(crate) fn check_modules(alloc: Global, component: &ComponentTree) -> Result<Modules, AllocError>
    ensures { IfOk result
        (AreModules (items (shown_tree component.now)) (modules (shown_tree component.now))) }
{
    let mut steps = Steps::new(alloc, component);
    let mut found = Modules::Sound;
    let mut item: usize = 0;
    while let Some(step) = steps.next()? {
        found = found.after(alloc, step, item)?;
        // Memory is exhausted before numbers are.
        item = item.checked_add(step.items()).ok_or(AllocError)?;
    }
    Ok(found)
}
