//! The steps of a walk through a component that was read.

ghost use Rattle.std.specs.Prelude.{◌≡◌, ◌∷◌, ◌++◌, [], IfOk, MatchOption};
ghost use Rattle.smith_read.specs.PartNodes.{shown_part_node, shown_tree};
ghost use Rattle.smith_read.specs.Walk.{closes, ended, inner_steps, items_at, left_steps, shown_step, steps_in};
ghost use Rattle.smith_read.specs.Walk.{steps_of, to_come};

use crate::{ComponentTree, CoreNode, ImportNode, PartNode, TypeNode};
use smith_tree::{CustomSection, Export, Func};
use std::alloc::{AllocError, Global};

/// The sections of a component, or the entries of a section that is a list.
#[derive(Clone, Copy)]
pub enum Contents<'a> {
    Parts(&'a [PartNode]),
    CoreTypes(&'a [CoreNode]),
    Types(&'a [TypeNode]),
    Canons(&'a [Func]),
    Imports(&'a [ImportNode]),
    Exports(&'a [Export]),
}

/// A step of a walk through a component.
#[derive(Clone, Copy)]
pub enum Step<'a> {
    Custom(&'a CustomSection),
    CoreModule(&'a [u8]),
    /// A component begins, or a section that is a list.
    Begin(Contents<'a>),
    /// It ends: none of its contents are left. The root ends too.
    End(Contents<'a>),
    CoreType(&'a CoreNode),
    Type(&'a TypeNode),
    Canon(&'a Func),
    Import(&'a ImportNode),
    Export(&'a Export),
}

impl<'a> Step<'a> {
    /// How many items begin, one or none: an item is a custom section, a core module, a component or an entry of a
    /// list.
    pub fn items(self) -> usize
        ensures { result ≡ items_at (shown_step self.entry) }
    {
        match self {
            Step::Begin(Contents::Parts(_)) => 1,
            Step::Begin(_) | Step::End(_) => 0,
            _ => 1,
        }
    }
}

// The step at which a section begins.
fn step_of(part: &PartNode) -> Step<'_>
    ensures { steps_in (shown_part_node part.now) ≡ shown_step result ∷ inner_steps result }
{
    match part {
        PartNode::Custom(section) => Step::Custom(section),
        PartNode::CoreModule(text) => Step::CoreModule(text),
        PartNode::CoreTypes(types) => Step::Begin(Contents::CoreTypes(types)),
        PartNode::Component(parts) => Step::Begin(Contents::Parts(parts)),
        PartNode::Types(types) => Step::Begin(Contents::Types(types)),
        PartNode::Canons(canons) => Step::Begin(Contents::Canons(canons)),
        PartNode::Imports(imports) => Step::Begin(Contents::Imports(imports)),
        PartNode::Exports(exports) => Step::Begin(Contents::Exports(exports)),
    }
}

impl<'a> Contents<'a> {
    // The first step in them, and what is left after it.
    fn split_first(self) -> Option<(Step<'a>, Contents<'a>)>
        ensures { MatchOption result (left_steps self.entry ≡ ended self.entry ∷ [])
            (λ x. left_steps self.entry ≡ shown_step x.0 ∷ (inner_steps x.0 ++ left_steps x.1)) }
    {
        Some(match self {
            Contents::Parts(parts) => {
                let (part, rest) = parts.split_first()?;
                (step_of(part), Contents::Parts(rest))
            }
            Contents::CoreTypes(types) => {
                let (ty, rest) = types.split_first()?;
                (Step::CoreType(ty), Contents::CoreTypes(rest))
            }
            Contents::Types(types) => {
                let (ty, rest) = types.split_first()?;
                (Step::Type(ty), Contents::Types(rest))
            }
            Contents::Canons(canons) => {
                let (canon, rest) = canons.split_first()?;
                (Step::Canon(canon), Contents::Canons(rest))
            }
            Contents::Imports(imports) => {
                let (import, rest) = imports.split_first()?;
                (Step::Import(import), Contents::Imports(rest))
            }
            Contents::Exports(exports) => {
                let (export, rest) = exports.split_first()?;
                (Step::Export(export), Contents::Exports(rest))
            }
        })
    }
}

/// The steps of a component that are to come, in order.
#[derive(Drop)]
pub struct Steps<'a> {
    // What is left of the component or list that is open innermost. `None` after the last step.
    innermost: Option<Contents<'a>>,
    // What is left of each component around it, the root first.
    around: Vec<Contents<'a>>,
}

impl<'a> Steps<'a> {
    /// All steps of a component, the last of which ends it.
    pub fn new(alloc: Global, component: &'a ComponentTree) -> Steps<'a>
        ensures { to_come result ≡ steps_of (shown_tree component.now) ++ closes ∷ [] }
    {
        Steps {
            innermost: Some(Contents::Parts(&component.parts)),
            around: Vec::new(alloc),
        }
    }

    /// The next step. `None` if there is none.
    pub fn next(&mut self) -> Result<Option<Step<'a>>, AllocError>
        ensures { IfOk result (λ step. MatchOption step (to_come self.old ≡ [])
            (λ s. to_come self.old ≡ shown_step s ∷ to_come self.new)) }
    {
        let Some(contents) = self.innermost else {
            return Ok(None);
        };
        let Some((step, rest)) = contents.split_first() else {
            self.innermost = self.around.pop();
            return Ok(Some(Step::End(contents)));
        };
        if let Step::Begin(inner) = step {
            self.around.push(rest)?;
            self.innermost = Some(inner);
        } else {
            self.innermost = Some(rest);
        }
        Ok(Some(step))
    }
}
