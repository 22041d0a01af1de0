//! What is kept of a component beside its sections, so that no turn searches them.

ghost use Rattle.std.specs.Prelude.{◌≡◌, ◌+◌, ◌<◌, [], length, OnOk};
ghost use Rattle.smith_format.specs.Consistency.{max_u32};
ghost use Rattle.smith_types.specs.MakingTypes.{HoldsExterns};
ghost use Rattle.smith_scopes.specs.Scopes.{own_scope};
ghost use Rattle.smith_tree.specs.Offers.{is_scalar_type};
ghost use Rattle.smith_component.specs.Tables.{Tabled, AddsFunction, AddsCoreFunction};
ghost use Rattle.smith_tree.specs.Tree.{ends};

use smith_types::{DefType, ExternNames, Scopes};
use std::alloc::{AllocError, Global};
use std::collections::BTreeSet;

// The component functions by the indexes of their types, the core functions by the indexes of the component functions
// that they lower, the component functions that can be lowered, how many functions are imported, lifted and lowered,
// and the names of the imports and of the exports.
#[derive(Drop)]
pub(super) struct Tables {
    pub(super) alloc: Global,
    pub(super) functions: Vec<u32>,
    pub(super) core_functions: Vec<u32>,
    pub(super) scalars: Vec<u32>,
    pub(super) counted: usize,
    pub(super) imports: ExternNames,
    pub(super) exports: BTreeSet<String>,
}

// Is the type of the last scope with that index a function type that flattens?
fn is_scalar_type(scopes: &Scopes, ty: u32) -> bool
    requires { ty < length (own_scope scopes.now).types }
    ensures { result ≡ is_scalar_type (own_scope scopes.now).types ty }
{
    match &**scopes.get(0, ty) {
        DefType::Func(func) => func.is_scalar(),
        DefType::Defined(_) | DefType::Component(_) | DefType::Instance(_) => false,
    }
}

impl Tables {
    pub(super) fn new(alloc: Global) -> Tables
        ensures tabled { Tabled result ends }
        ensures imports { HoldsExterns result.imports [] }
    {
        Tables {
            alloc,
            functions: Vec::new(alloc),
            core_functions: Vec::new(alloc),
            scalars: Vec::new(alloc),
            counted: 0,
            imports: ExternNames::new(alloc),
            exports: BTreeSet::new(alloc),
        }
    }

    // Adds a component function of the type with that index, one that is imported or lifted.
    pub(super) fn add_function(&mut self, scopes: &Scopes, ty: u32) -> Result<(), AllocError>
        requires known { ty < length (own_scope scopes.now).types }
        requires room { length self.old.functions.items < max_u32 }
        requires few { self.old.counted < max_u32 }
        ensures ok { OnOk result (AddsFunction (own_scope scopes.now) 1 self.old ty self.new) }
    {
        self.add_exported(scopes, ty)?;
        self.counted += 1;
        Ok(())
    }

    // Adds one that is exported. It counts against no maximum of functions.
    pub(super) fn add_exported(&mut self, scopes: &Scopes, ty: u32) -> Result<(), AllocError>
        requires known { ty < length (own_scope scopes.now).types }
        requires room { length self.old.functions.items < max_u32 }
        ensures ok { OnOk result (AddsFunction (own_scope scopes.now) 0 self.old ty self.new) }
    {
        if is_scalar_type(scopes, ty) {
            self.scalars.push(self.functions.len() as u32)?;
        }
        self.functions.push(ty)?;
        Ok(())
    }

    // Adds a core function that lowers the component function with that index.
    pub(super) fn add_core_function(&mut self, func_index: u32) -> Result<(), AllocError>
        requires few { self.old.counted < max_u32 }
        ensures ok { OnOk result (AddsCoreFunction self.old func_index self.new) }
    {
        self.core_functions.push(func_index)?;
        self.counted += 1;
        Ok(())
    }
}
