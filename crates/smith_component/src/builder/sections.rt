//! Sections that are added to the inner component.

ghost use Rattle.std.specs.Prelude.{◌≡◌, ◌-◌, ◌≤◌, length, IfErr, IsTrue, None, OnOk};
ghost use Rattle.smith_input.specs.Consumes.{Consumes};
ghost use Rattle.smith_input.specs.Reading.{IsTail};
ghost use Rattle.smith_core.specs.StandIn.{IsStandInRefusal};
ghost use Rattle.smith_component.specs.Sound.{IsAddable, IsQuiet};
ghost use Rattle.smith_component.specs.BuilderView.{building_of, stack_of, IsSound};
ghost use Rattle.smith_component.specs.Shown.{shown_section};
ghost use Rattle.smith_component.specs.Steps.{DoesItem, Grows, GrowsBy};
ghost use Rattle.smith_component.specs.SectionValues.{AddsImportSection, AddsTypeSection};
ghost use Rattle.smith_tree.specs.Spaces.{types_of};
ghost use Rattle.smith_tree.specs.Tree.{imports_of};
ghost use Rattle.smith_tree.specs.Open.{is_module_offered};
ghost use Rattle.smith_tree.specs.declared.choices.Item.TheVariants as item;

use crate::builder::Progress;
use crate::builder::exports::read_exports;
use crate::component::{CoreTypeSection, ExportSection, ImportSection, Section, TypeSection};
use smith_core::Module;
use smith_input::{Error, Unstructured};
use smith_tree::CustomSection;
use smith_types::{CoreType, DefType};
use std::alloc::AllocError;
use std::rc::Rc;

impl Progress {
    // A section without types, functions and imports is added to the inner component. It is inlined, so that the
    // section is made where it stays.
    #[inline(always)]
    fn add_section(&mut self, section: Section) -> Result<(), AllocError>
        requires sound { IsSound self.old }
        requires quiet { IsQuiet (shown_section section) }
        requires addable { IsAddable self.old.config (stack_of self.old) (shown_section section) }
        ensures { OnOk result (GrowsBy section self.old self.new) }
    {
        let modules = section.module_count();
        self.inner.push(section)?;
        self.totals.modules += modules;
        Ok(())
    }

    // A custom section that is read. It is inlined, so that the section is made where it stays.
    #[inline(always)]
    pub(crate) fn add_custom(&mut self, u: &mut Unstructured) -> Result<(), Error>
        requires sound { IsSound self.old }
        ensures does { OnOk result (DoesItem item.Custom self.old u.old self.new None u.new) }
        ensures input { Consumes result u.old u.new }
    {
        let section = CustomSection::arbitrary(self.alloc, u)?;
        self.add_section(Section::Custom(section))?;
        Ok(())
    }

    // A core module that stands for a generated one.
    pub(crate) fn add_module(&mut self, u: &mut Unstructured) -> Result<(), Error>
        requires sound { IsSound self.old }
        requires offered { IsTrue (is_module_offered self.old.config (stack_of self.old)) }
        ensures does { OnOk result (DoesItem item.Module self.old u.old self.new None u.new) }
        ensures refuses { IfErr result (IsStandInRefusal self.old.config) }
        ensures unread { IfErr result (λ e. e ≡ Error.ModuleRefused → u.new ≡ u.old) }
        ensures tail { IsTail u.new u.old }
    {
        let module = Module::new_internal(self.alloc, self.config, u)?;
        let embedded = Box::new(self.alloc, module)?;
        self.add_section(Section::CoreModule(embedded))?;
        Ok(())
    }

    // A core type section, with as many core types as the component may still have.
    pub(crate) fn add_core_types(&mut self, u: &mut Unstructured) -> Result<(), Error>
        requires sound { IsSound self.old }
        ensures does { OnOk result (DoesItem item.CoreTypes self.old u.old self.new None u.new) }
        ensures input { Consumes result u.old u.new }
    {
        let room = self.config.max_types - self.scopes.len_core(0);
        let types = self.read_entries::<Rc<CoreType>>(0, room, u)?;
        self.inner
            .push(Section::CoreTypes(CoreTypeSection { types }))?;
        Ok(())
    }

    // An export section, with as many exports as the component may still have.
    pub(crate) fn add_exports(&mut self, u: &mut Unstructured) -> Result<(), Error>
        requires sound { IsSound self.old }
        ensures does { OnOk result (DoesItem item.Exports self.old u.old self.new None u.new) }
        ensures input { Consumes result u.old u.new }
    {
        let room = self.config.max_exports - self.inner.tables.exports.len();
        let exports = read_exports(
            &self.config,
            &mut self.scopes,
            &mut self.inner.tables,
            room,
            u,
        )?;
        self.inner
            .push(Section::Exports(ExportSection { exports }))?;
        Ok(())
    }

    // A type section of at least that many types, and of at most as many as the component may still have.
    pub(super) fn add_types(&mut self, min: usize, u: &mut Unstructured) -> Result<(), Error>
        requires sound { IsSound self.old }
        requires room { min ≤ self.old.config.max_types - length (types_of (stack_of self.old).inner) }
        ensures added { OnOk result
            (AddsTypeSection self.old.config min (building_of self.old) u.old (building_of self.new) u.new) }
        ensures grows { OnOk result (Grows self.old self.new) }
        ensures input { Consumes result u.old u.new }
    {
        let room = self.config.max_types - self.scopes.own_len();
        let types = self.read_entries::<Rc<DefType>>(min, room, u)?;
        self.inner.push(Section::Types(TypeSection { types }))?;
        Ok(())
    }

    // An import section of at least that many imports, unless nothing can be imported, and of at most as many as the
    // component may still have.
    pub(super) fn add_imports(&mut self, min: usize, u: &mut Unstructured) -> Result<(), Error>
        requires sound { IsSound self.old }
        requires room { min ≤ self.old.config.max_imports - length (imports_of (stack_of self.old).inner) }
        ensures added { OnOk result
            (AddsImportSection self.old.config min (building_of self.old) u.old (building_of self.new) u.new) }
        ensures grows { OnOk result (Grows self.old self.new) }
        ensures input { Consumes result u.old u.new }
    {
        let room = self.config.max_imports - self.inner.tables.imports.len();
        let imports = self.read_imports(min, room, u)?;
        self.inner
            .push(Section::Imports(ImportSection { imports }))?;
        Ok(())
    }
}
