//! The judgement of a component, step by step.

ghost use Rattle.std.specs.Prelude.{◌≡◌, ◌+◌, ◌<◌, ◌∷◌, [], IfOk, OnOk};
ghost use Rattle.smith_read.specs.Nodes.{shown_core_node};
ghost use Rattle.smith_read.specs.PartNodes.{shown_import_node, shown_tree};
ghost use Rattle.smith_read.specs.TypeNodes.{shown_type_node};
ghost use Rattle.smith_read.specs.Walk.{closes, items_at, one, opens, shown_step};
ghost use Rattle.smith_tree.specs.Shown.{shown_canon, shown_export};
ghost use Rattle.smith_tree.specs.Tree.{canons, core_types, exports, imports, types};
ghost use Rattle.smith_check.specs.Judgement.{Agrees};
ghost use Rattle.smith_check.specs.Judges.{Grades, Judges};
ghost use Rattle.smith_check.specs.Preceding.{IsAt, empty_scene};
ghost use Rattle.smith_check.specs.Stepping.{Fits, IsEven, MayFit, Stands, State, next};

use crate::canons::check_canon;
use crate::entries::{check_export, check_import};
use crate::error::{Asker, Checked, Fault, Judgement, Stop};
use crate::modules::check_core;
use crate::names::Names;
use crate::types::check_type;
use smith_read::{
    ComponentTree, Contents, CoreNode, Export, Func, ImportNode, Step, Steps, TypeNode,
};
use smith_scope::Nest;
use smith_scopes::NodeScopes;
use std::alloc::{AllocError, Global};

/// An open component without its types: its component functions by the indexes of their types, its core functions by
/// what they lower, and the names of its imports and exports.
#[derive(Drop)]
pub(crate) struct Open<'a> {
    pub(crate) functions: Vec<u32>,
    pub(crate) core_functions: Vec<u32>,
    pub(crate) imports: Names<'a>,
    pub(crate) exports: Names<'a>,
}

impl<'a> Open<'a> {
    pub(crate) fn new(alloc: Global) -> Open<'a>
        ensures { IsAt result empty_scene }
    {
        Open {
            functions: Vec::new(alloc),
            core_functions: Vec::new(alloc),
            imports: Names::new(alloc),
            exports: Names::new(alloc),
        }
    }
}

/// What a check knows between two steps: the types in scope, and the rest of each open component.
#[derive(Drop)]
pub(crate) struct Check<'a> {
    pub(crate) scopes: NodeScopes<'a>,
    pub(crate) opens: Nest<Open<'a>>,
}

impl<'a> Check<'a> {
    /// Before the first step.
    pub(crate) fn new(alloc: Global) -> Check<'a>
        ensures { Stands result (record { here = empty_scene; around = [] }) }
    {
        Check {
            scopes: NodeScopes::new(alloc),
            opens: Nest::new(alloc, Open::new(alloc)),
        }
    }

    fn enter(&mut self, alloc: Global) -> Checked
        ensures judged { (at : State) → Stands self.old at → Judges result (Fits opens at) }
        ensures passed { (at : State) → Stands self.old at → OnOk result (Stands self.new (next opens at)) }
    {
        self.scopes.enter(alloc)?;
        self.opens.enter(Open::new(alloc))?;
        Ok(())
    }

    fn leave(&mut self)
        requires { IsEven self.old }
        ensures { (at : State) → Stands self.old at → Stands self.new (next closes at) }
    {
        if self.opens.depth() > 1 {
            self.scopes.leave();
            self.opens.leave();
        }
    }

    fn check_core_type(&mut self, alloc: Global, ty: &'a CoreNode) -> Checked
        ensures judged { (at : State) → Stands self.old at
            → Judges result (Fits (one (core_types (shown_core_node ty.now ∷ []))) at) }
        ensures graded { (at : State) → Stands self.old at
            → Grades result (MayFit (one (core_types (shown_core_node ty.now ∷ []))) at) }
        ensures passed { (at : State) → Stands self.old at
            → OnOk result (Stands self.new (next (one (core_types (shown_core_node ty.now ∷ []))) at)) }
    {
        check_core(alloc, &self.scopes, ty)?;
        self.scopes.add_core_type(ty)?;
        Ok(())
    }

    fn check_type(&mut self, alloc: Global, ty: &'a TypeNode) -> Checked
        ensures judged { (at : State) → Stands self.old at
            → Judges result (Fits (one (types (shown_type_node ty.now ∷ []))) at) }
        ensures graded { (at : State) → Stands self.old at
            → Grades result (MayFit (one (types (shown_type_node ty.now ∷ []))) at) }
        ensures passed { (at : State) → Stands self.old at
            → OnOk result (Stands self.new (next (one (types (shown_type_node ty.now ∷ []))) at)) }
    {
        check_type(alloc, &mut self.scopes, ty)?;
        self.scopes.add_type(ty)?;
        Ok(())
    }

    fn check_canon(&mut self, canon: &Func) -> Checked
        ensures judged { (at : State) → Stands self.old at
            → Judges result (Fits (one (canons (shown_canon canon.now ∷ []))) at) }
        ensures graded { (at : State) → Stands self.old at
            → Grades result (MayFit (one (canons (shown_canon canon.now ∷ []))) at) }
        ensures passed { (at : State) → Stands self.old at
            → OnOk result (Stands self.new (next (one (canons (shown_canon canon.now ∷ []))) at)) }
    {
        check_canon(&self.scopes, &self.opens.own, canon)?;
        self.opens.own.add_canon(canon)
    }

    fn check_import(&mut self, import: &'a ImportNode) -> Checked
        ensures judged { (at : State) → Stands self.old at
            → Judges result (Fits (one (imports (shown_import_node import.now ∷ []))) at) }
        ensures graded { (at : State) → Stands self.old at
            → Grades result (MayFit (one (imports (shown_import_node import.now ∷ []))) at) }
        ensures passed { (at : State) → Stands self.old at
            → OnOk result (Stands self.new (next (one (imports (shown_import_node import.now ∷ []))) at)) }
    {
        check_import(&self.scopes, &mut self.opens.own, import)
    }

    fn check_export(&mut self, export: &'a Export) -> Checked
        ensures judged { (at : State) → Stands self.old at
            → Judges result (Fits (one (exports (shown_export export.now ∷ []))) at) }
        ensures graded { (at : State) → Stands self.old at
            → Grades result (MayFit (one (exports (shown_export export.now ∷ []))) at) }
        ensures passed { (at : State) → Stands self.old at
            → OnOk result (Stands self.new (next (one (exports (shown_export export.now ∷ []))) at)) }
    {
        check_export(&mut self.opens.own, export)
    }

    pub(crate) fn step(&mut self, alloc: Global, step: Step<'a>) -> Checked
        requires { IsEven self.old }
        ensures judged { (at : State) → Stands self.old at → Judges result (Fits (shown_step step.entry) at) }
        ensures graded { (at : State) → Stands self.old at
            → Grades result (MayFit (shown_step step.entry) at) }
        ensures passed { (at : State) → Stands self.old at
            → OnOk result (Stands self.new (next (shown_step step.entry) at)) }
    {
        match step {
            Step::Begin(Contents::Parts(_)) => self.enter(alloc),
            Step::End(Contents::Parts(_)) => {
                self.leave();
                Ok(())
            }
            Step::Custom(_) | Step::CoreModule(_) | Step::Begin(_) | Step::End(_) => Ok(()),
            Step::CoreType(ty) => self.check_core_type(alloc, ty),
            Step::Type(ty) => self.check_type(alloc, ty),
            Step::Canon(canon) => self.check_canon(canon),
            Step::Import(import) => self.check_import(import),
            Step::Export(export) => self.check_export(export),
        }
    }
}

// The number of the item after a step. Memory is exhausted before numbers are.
fn item_after(item: usize, step: Step<'_>) -> Result<usize, AllocError>
    ensures { IfOk result (λ n. n ≡ item + items_at (shown_step step.entry)) }
{
    item.checked_add(step.items()).ok_or(AllocError)
}

/// Judges whether a component is well formed: `WellFormed` exactly if it is, and `IllFormed` exactly if it is not, with
/// the first rule that it breaks and the number of the item that breaks it: what precedes that item is well formed, and
/// what ends with it is not. No contract says which rule it is. If the standard asks it, no validator may accept the
/// component. An error is returned only if an allocation failed, and
/// says nothing about the component.
///
/// Each item is looked at once. The stack is bounded by how deep types nest, however deep components do.
pub fn judged(alloc: Global, component: &ComponentTree) -> Result<Judgement, AllocError>
    ensures { IfOk result (Agrees (shown_tree component.now)) }
{
    let mut steps = Steps::new(alloc, component);
    let mut check = Check::new(alloc);
    let mut item: usize = 0;
    while let Some(step) = steps.next()? {
        match check.step(alloc, step) {
            Ok(()) => {}
            Err(Stop::OutOfMemory) => return Err(AllocError),
            Err(Stop::IllFormed(rule)) => {
                let asked_by = Asker::Standard;
                return Ok(Judgement::IllFormed(Fault {
                    item,
                    rule,
                    asked_by,
                }));
            }
            Err(Stop::Outside(rule)) => {
                let asked_by = Asker::Lupinanon;
                return Ok(Judgement::IllFormed(Fault {
                    item,
                    rule,
                    asked_by,
                }));
            }
        }
        item = item_after(item, step)?;
    }
    Ok(Judgement::WellFormed)
}
