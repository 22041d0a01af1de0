//! Components are opened and closed.

ghost use Rattle.std.specs.Prelude.{◌≡◌, ℕ, List, [], IfErr, IfOk, IsTrue, None, OnOk};
ghost use Rattle.smith_component.specs.BuilderView.{stack_of, IsSound};
ghost use Rattle.smith_tree.specs.Limits.{Minima};
ghost use Rattle.smith_tree.specs.Open.{is_component_offered};
ghost use Rattle.smith_component.specs.Refusals.{IsAnswered};
ghost use Rattle.smith_component.specs.Steps.{ClosesInner, DoesItem};
ghost use Rattle.smith_tree.specs.declared.choices.Item.TheVariants as item;

use crate::builder::Progress;
use crate::builder::open::OpenComponent;
use crate::component::{Component, Section};
use smith_input::Error;
use std::alloc::AllocError;
use std::mem;

impl Progress {
    // An empty component is opened.
    pub(crate) fn open_component(&mut self) -> Result<(), Error>
        requires sound { IsSound self.old }
        requires offered { IsTrue (is_component_offered self.old.config (stack_of self.old)) }
        ensures does { OnOk result ((b : List ℕ) → DoesItem item.Component self.old b self.new None b) }
        ensures memory { IfErr result (λ e. e ≡ Error.OutOfMemory) }
    {
        self.outer.reserve(1)?;
        self.scopes.open_scope()?;
        let opened = OpenComponent::new(self.alloc, self.totals.components);
        let around = mem::replace(&mut self.inner, opened);
        self.outer.push_reserved(around);
        self.totals.components += 1;
        Ok(())
    }

    // The inner component becomes a section of the one around it, and the root is returned.
    pub(super) fn close(&mut self) -> Result<Option<Component>, AllocError>
        requires sound { IsSound self.old }
        requires minima { Minima self.old.config (stack_of self.old).inner }
        ensures closes { IfOk result (λ c. ClosesInner self.old self.new c) }
        ensures alone { (stack_of self.old).outer ≡ [] → IsAnswered result }
    {
        match self.outer.pop() {
            None => {
                let root = mem::replace(&mut self.inner.sections, Vec::new(self.alloc));
                Ok(Some(Component::of(root, self.inner.height)))
            }
            Some(parent) => {
                let height = self.inner.height;
                let finished = mem::replace(&mut self.inner, parent);
                let component = Component::of(finished.sections, height);
                self.inner.push(Section::Component(component))?;
                self.scopes.close_scope();
                Ok(None)
            }
        }
    }
}
