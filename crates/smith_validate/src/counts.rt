//! How many entries there are, by their sort.

ghost use Rattle.std.specs.Prelude.{◌≡◌, ◌+◌, ◌≤◌, IfErr, IfOk};
ghost use Rattle.smith_tree.specs.Counts.{no_counts, with_component, with_export, with_function, with_import};
ghost use Rattle.smith_tree.specs.Counts.{with_module, with_reference, with_type_count};
ghost use Rattle.smith_tree.specs.Demands.{Keeps};
ghost use Rattle.smith_validate.specs.Counted.{IsCounted, counted};
ghost use Rattle.smith_validate.specs.Judges.{IsUnnamed, Judges};

use crate::error::{Demand, Stop};
use smith_syntax::ComponentTypeRef;

// How many modules, components and instances there may be, each.
const FEW: usize = 1_000;

// How many types, functions, imports and exports there may be, each.
const MANY: usize = 1_000_000;

/// How many entries there are in a component, a component type or an instance type, of each sort: types and core types,
/// component and core functions, modules, components, instances, imports and exports.
#[derive(Clone, Copy, Debug)]
pub(crate) struct Counts {
    pub(crate) types: usize,
    pub(crate) functions: usize,
    pub(crate) modules: usize,
    pub(crate) components: usize,
    pub(crate) instances: usize,
    pub(crate) imports: usize,
    pub(crate) exports: usize,
}

// One more, of at most that many.
fn one_more(count: usize, most: usize) -> Result<usize, Stop>
    ensures bound { IfErr result IsUnnamed }
    ensures judged { Judges result (λ d. Keeps d.counts (count + 1 ≤ most)) }
    ensures value { IfOk result (λ n. n ≡ count + 1) }
{
    if count < most {
        Ok(count + 1)
    } else {
        Err(Stop::Invalid(Demand::Count))
    }
}

impl Counts {
    pub(crate) fn new() -> Counts
        ensures { counted result ≡ no_counts }
    {
        Counts {
            types: 0,
            functions: 0,
            modules: 0,
            components: 0,
            instances: 0,
            imports: 0,
            exports: 0,
        }
    }

    pub(crate) fn add_type(&mut self) -> Result<(), Stop>
        ensures { IsCounted result self.old self.new (λ c. with_type_count c 1) }
    {
        self.types = one_more(self.types, MANY)?;
        Ok(())
    }

    pub(crate) fn add_function(&mut self) -> Result<(), Stop>
        ensures { IsCounted result self.old self.new with_function }
    {
        self.functions = one_more(self.functions, MANY)?;
        Ok(())
    }

    pub(crate) fn add_module(&mut self) -> Result<(), Stop>
        ensures { IsCounted result self.old self.new with_module }
    {
        self.modules = one_more(self.modules, FEW)?;
        Ok(())
    }

    pub(crate) fn add_component(&mut self) -> Result<(), Stop>
        ensures { IsCounted result self.old self.new with_component }
    {
        self.components = one_more(self.components, FEW)?;
        Ok(())
    }

    // Adds what is imported or exported.
    fn add(&mut self, to: ComponentTypeRef) -> Result<(), Stop>
        ensures { IsCounted result self.old self.new (λ c. with_reference c to) }
    {
        match to {
            ComponentTypeRef::Module(_) => self.add_module(),
            ComponentTypeRef::Func(_) => self.add_function(),
            ComponentTypeRef::TypeEq(_) => Ok(()),
            ComponentTypeRef::Component(_) => self.add_component(),
            ComponentTypeRef::Instance(_) => {
                self.instances = one_more(self.instances, FEW)?;
                Ok(())
            }
        }
    }

    /// Adds an import.
    pub(crate) fn add_import(&mut self, to: ComponentTypeRef) -> Result<(), Stop>
        ensures { IsCounted result self.old self.new (λ c. with_import c to) }
    {
        self.imports = one_more(self.imports, MANY)?;
        self.add(to)
    }

    /// Adds an export. An export of a type also adds the type.
    pub(crate) fn add_export(&mut self, to: ComponentTypeRef) -> Result<(), Stop>
        ensures { IsCounted result self.old self.new (λ c. with_export c to) }
    {
        self.exports = one_more(self.exports, MANY)?;
        self.add(to)
    }
}
