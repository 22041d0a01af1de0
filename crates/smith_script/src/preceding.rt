//! What there is before a place in an open component.

ghost use Rattle.std.specs.Prelude.{◌≡◌, Bool, List, ◌+◌, ◌∷◌, [], map, IfOk, IfErr, OnOk};
ghost use Rattle.std.specs.Option.{option_to_list};
ghost use Rattle.smith_read.specs.TypeNodes.{shown_type_node};
ghost use Rattle.smith_read.specs.PartNodes.{shown_import_node};
ghost use Rattle.smith_tree.specs.Shown.{shown_export};
ghost use Rattle.smith_syntax.specs.Marked.{Marked, empty_marked};
ghost use Rattle.smith_tree.specs.Marking.{exported_reference, with_exports_entry, with_import_entry, with_type_entry};
ghost use Rattle.smith_tree.specs.Offers.{is_scalar_entry, is_scalar_type};
ghost use Rattle.smith_tree.specs.Tree.{function_of, lift, lower};
ghost use Rattle.smith_input.specs.declared.error.Error.TheVariants.{OutOfMemory};
ghost use Rattle.smith_script.specs.Preceding.{after_canon, after_export, after_import, after_module};
ghost use Rattle.smith_script.specs.Preceding.{after_type, empty_in, preceding, with_functions, with_import};

use crate::functions::Functions;
use crate::types::Types;
use smith_read::{Export, ImportNode, TypeNode};
use smith_script_types::{Error, one_more};
use smith_syntax::ComponentTypeRef;
use smith_tree::RefTotals;
use std::alloc::Global;

/// What there is before a place in an open component beside its scope: its types, its component functions, its core
/// functions by what they lower, how many imports and exports it has, and how many functions; and how many modules,
/// components and instances the whole tree has.
#[derive(Drop)]
pub(crate) struct Open<'a> {
    pub(crate) types: Types<'a>,
    pub(crate) functions: Functions,
    pub(crate) core_functions: Vec<u32>,
    pub(crate) imports: usize,
    pub(crate) exports: usize,
    pub(crate) totals: RefTotals,
}

// What is counted when that is imported.
fn with_import(totals: RefTotals, to: ComponentTypeRef) -> Result<RefTotals, Error>
    ensures totals { IfOk result (λ t. t ≡ with_import totals to) }
    ensures memory { IfErr result (λ e. e ≡ OutOfMemory) }
{
    match to {
        ComponentTypeRef::Module(_) => Ok(RefTotals {
            modules: one_more(totals.modules)?,
            ..totals
        }),
        ComponentTypeRef::Func(_) => Ok(RefTotals {
            funcs: one_more(totals.funcs)?,
            ..totals
        }),
        ComponentTypeRef::TypeEq(_) => Ok(totals),
        ComponentTypeRef::Component(_) => Ok(RefTotals {
            components: one_more(totals.components)?,
            ..totals
        }),
        ComponentTypeRef::Instance(_) => Ok(RefTotals {
            instances: one_more(totals.instances)?,
            ..totals
        }),
    }
}

// The type of the function that an import adds.
fn function_of(to: ComponentTypeRef) -> Option<u32>
    ensures { option_to_list result ≡ function_of to }
{
    match to {
        ComponentTypeRef::Func(ty) => Some(ty),
        _ => None,
    }
}

// Is it a function type that flattens?
fn is_scalar(ty: &TypeNode) -> bool
    ensures { result ≡ is_scalar_entry (shown_type_node ty.now) }
{
    match ty {
        TypeNode::Func(signature) => signature.is_scalar(),
        TypeNode::Defined(_) | TypeNode::Component(_) | TypeNode::Instance(_) => false,
    }
}

impl<'a> Types<'a> {
    // Is the type of that index a function type that flattens?
    fn is_scalar(&self, ty: u32) -> bool
        ensures { result ≡ is_scalar_type (map shown_type_node self.now) ty }
    {
        match self.get(ty) {
            Some(ty) => is_scalar(ty),
            None => false,
        }
    }
}

impl<'a> Open<'a> {
    /// An empty component.
    pub(crate) fn new(alloc: Global, totals: RefTotals) -> Open<'a>
        ensures { (keeps : Bool) → preceding (empty_marked keeps) result ≡ empty_in keeps totals }
    {
        Open {
            types: Types::new(alloc),
            functions: Functions::new(alloc),
            core_functions: Vec::new(alloc),
            imports: 0,
            exports: 0,
            totals,
        }
    }

    // One more component function, of the type with that index.
    fn add_function(&mut self, ty: u32) -> Result<(), Error>
        ensures added { (own : Marked) → OnOk result
            (preceding own self.new ≡ with_functions (preceding own self.old) (ty ∷ [])) }
        ensures memory { IfErr result (λ e. e ≡ OutOfMemory) }
    {
        let is_scalar = self.types.is_scalar(ty);
        self.functions.push(ty, is_scalar)?;
        Ok(())
    }

    // The same if there is a type.
    fn add_function_of(&mut self, ty: Option<u32>) -> Result<(), Error>
        ensures added { (own : Marked) → OnOk result
            (preceding own self.new ≡ with_functions (preceding own self.old) (option_to_list ty)) }
        ensures memory { IfErr result (λ e. e ≡ OutOfMemory) }
    {
        match ty {
            Some(ty) => self.add_function(ty),
            None => Ok(()),
        }
    }

    pub(crate) fn add_module(&mut self) -> Result<(), Error>
        ensures added { (own : Marked) → OnOk result (preceding own self.new ≡ after_module (preceding own self.old)) }
        ensures memory { IfErr result (λ e. e ≡ OutOfMemory) }
    {
        self.totals.modules = one_more(self.totals.modules)?;
        Ok(())
    }

    pub(crate) fn add_type(&mut self, ty: &'a TypeNode) -> Result<(), Error>
        ensures added { (own : Marked) (outer : List Marked) → OnOk result
            (preceding (with_type_entry outer own (shown_type_node ty.now)) self.new
            ≡ after_type outer (preceding own self.old) (shown_type_node ty.now)) }
        ensures memory { IfErr result (λ e. e ≡ OutOfMemory) }
    {
        self.types.push(ty)?;
        Ok(())
    }

    pub(crate) fn add_lift(&mut self, core_func: u32, ty: u32) -> Result<(), Error>
        ensures added { (own : Marked) (outer : List Marked) → OnOk result
            (preceding own self.new ≡ after_canon outer (preceding own self.old) (lift core_func ty)) }
        ensures memory { IfErr result (λ e. e ≡ OutOfMemory) }
    {
        self.add_function(ty)?;
        self.totals.funcs = one_more(self.totals.funcs)?;
        Ok(())
    }

    pub(crate) fn add_lower(&mut self, func: u32) -> Result<(), Error>
        ensures added { (own : Marked) (outer : List Marked) → OnOk result
            (preceding own self.new ≡ after_canon outer (preceding own self.old) (lower func)) }
        ensures memory { IfErr result (λ e. e ≡ OutOfMemory) }
    {
        self.core_functions.push(func)?;
        self.totals.funcs = one_more(self.totals.funcs)?;
        Ok(())
    }

    pub(crate) fn add_import(&mut self, import: &ImportNode) -> Result<(), Error>
        ensures added { (own : Marked) (outer : List Marked) → OnOk result
            (preceding (with_import_entry own (shown_import_node import.now)) self.new
            ≡ after_import outer (preceding own self.old) (shown_import_node import.now)) }
        ensures memory { IfErr result (λ e. e ≡ OutOfMemory) }
    {
        self.add_function_of(function_of(import.to))?;
        self.imports = one_more(self.imports)?;
        self.totals = with_import(self.totals, import.to)?;
        Ok(())
    }

    pub(crate) fn add_export(&mut self, export: &Export) -> Result<(), Error>
        ensures added { (own : Marked) (outer : List Marked) → OnOk result
            (preceding (with_exports_entry own
            (exported_reference (preceding own self.old).functions (shown_export export.now))) self.new
            ≡ after_export outer (preceding own self.old) (shown_export export.now)) }
        ensures memory { IfErr result (λ e. e ≡ OutOfMemory) }
    {
        let ty = self.functions.type_of(export.func_index);
        self.add_function_of(ty)?;
        self.exports = one_more(self.exports)?;
        Ok(())
    }
}
