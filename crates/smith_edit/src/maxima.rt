//! Whether a component keeps the maxima of what it has.

ghost use Rattle.std.specs.Prelude.{◌≡◌, ◌+◌, ◌∷◌, Decides, IfOk, OnOk, length, map};
ghost use Rattle.std.specs.List.{AllByRecursion};
ghost use Rattle.smith_tree.specs.Tree.{anywhere_in, canons_in, component_count, component_of, components_in};
ghost use Rattle.smith_tree.specs.Tree.{exports_in, exports_of};
ghost use Rattle.smith_tree.specs.Tree.{function_count, imported_components_in, imported_functions_in};
ghost use Rattle.smith_tree.specs.Tree.{imported_instances_in, imported_modules_in, imports, imports_in, imports_of};
ghost use Rattle.smith_tree.specs.Tree.{inside, instance_count, instance_of, module_count, module_of, tree_of};
ghost use Rattle.smith_read.specs.PartNodes.{shown_import_node, shown_part_node, shown_tree};
ghost use Rattle.smith_edit.specs.Counts.{KeepsMaxima, KeepsOwnMaxima, components_within, instances_within};
ghost use Rattle.smith_edit.specs.Counts.{modules_within};

use crate::counts::sum;
use crate::edits::count_entries;
use smith_format::Config;
use smith_read::{ComponentTree, ImportNode, PartNode};
use smith_syntax::ComponentTypeRef;
use std::alloc::AllocError;

// What a component has that is in no space of types: its imports, the functions that it imports, lifts and lowers, and
// its exports.
#[derive(Clone, Copy)]
struct Externs {
    imports: usize,
    functions: usize,
    exports: usize,
}

// How many of the imports are functions.
fn function_imports(entries: &[ImportNode]) -> Result<usize, AllocError>
    ensures { IfOk result (λ n. n ≡ length (imported_functions_in (imports (map shown_import_node entries.now)))) }
{
    let mut count = 0;
    for entry in entries {
        if let ComponentTypeRef::Func(_) = entry.to {
            count = sum(count, 1)?;
        }
    }
    Ok(count)
}

impl Externs {
    // The ones of one more section.
    #[tactic(auto, using(crate::proofs::Past::part_nodes))]
    fn add(&mut self, part: &PartNode) -> Result<(), AllocError>
        ensures { let added = shown_part_node part.now in OnOk result (self.new ≡ record {
          imports = self.old.imports + length (imports_in added);
          functions = self.old.functions + length (imported_functions_in added) + length (canons_in added);
          exports = self.old.exports + length (exports_in added);
        }) }
    {
        match part {
            PartNode::Imports(entries) => {
                self.imports = sum(self.imports, entries.len())?;
                self.functions = sum(self.functions, function_imports(entries)?)?;
            }
            PartNode::Canons(entries) => self.functions = sum(self.functions, entries.len())?,
            PartNode::Exports(entries) => self.exports = sum(self.exports, entries.len())?,
            PartNode::Custom(_)
            | PartNode::CoreModule(_)
            | PartNode::CoreTypes(_)
            | PartNode::Component(_)
            | PartNode::Types(_) => {}
        }
        Ok(())
    }
}

// The ones of a component with these sections.
fn count_externs(parts: &[PartNode]) -> Result<Externs, AllocError>
    ensures { let tree = tree_of (map shown_part_node parts.now) in IfOk result (λ e. e ≡ record {
      imports = length (imports_of tree);
      functions = function_count tree;
      exports = length (exports_of tree);
    }) }
{
    let mut externs = Externs {
        imports: 0,
        functions: 0,
        exports: 0,
    };
    for part in parts {
        externs.add(part)?;
    }
    Ok(externs)
}

// Does the component with these sections keep its own maxima?
fn keeps_own_maxima(parts: &[PartNode], config: &Config) -> Result<bool, AllocError>
    ensures { let tree = tree_of (map shown_part_node parts.now) in
        IfOk result (λ r. Decides r (KeepsOwnMaxima config.now tree)) }
{
    let spaces = count_entries(parts)?;
    let externs = count_externs(parts)?;
    Ok(
        spaces.types <= config.max_types
            && spaces.core_types <= config.max_types
            && externs.imports <= config.max_imports
            && externs.functions <= config.max_funcs
            && externs.exports <= config.max_exports,
    )
}

// Does each component in a section, at any depth?
#[cycle(keeping)]
#[tactic(auto, using(crate::proofs::Past::part_nodes))]
fn keeps_maxima_inside(part: &PartNode, config: &Config) -> Result<bool, AllocError>
    ensures { let shown = shown_part_node part.now in
        IfOk result (λ r. Decides r (AllByRecursion (KeepsOwnMaxima config.now) (anywhere_in components_in shown))) }
{
    match part {
        PartNode::Component(nodes) => each_keeps_maxima(nodes, config),
        _ => Ok(true),
    }
}

// Does the component with these sections, and each component inside it?
#[cycle(keeping)]
fn each_keeps_maxima(parts: &[PartNode], config: &Config) -> Result<bool, AllocError>
    ensures { let tree = tree_of (map shown_part_node parts.now) in
        IfOk result (λ r. Decides r (AllByRecursion (KeepsOwnMaxima config.now) (tree ∷ inside tree))) }
{
    if !keeps_own_maxima(parts, config)? {
        return Ok(false);
    }
    for part in parts {
        if !keeps_maxima_inside(part, config)? {
            return Ok(false);
        }
    }
    Ok(true)
}

// The core modules, components and instances of a component, at any depth and imported.
#[derive(Clone, Copy)]
struct Totals {
    modules: usize,
    components: usize,
    instances: usize,
}

impl Totals {
    // One more import.
    fn add_import(&mut self, entry: &ImportNode) -> Result<(), AllocError>
        ensures { let added = shown_import_node entry.now in OnOk result (self.new ≡ record {
          modules = self.old.modules + length (module_of added.to);
          components = self.old.components + length (component_of added.to);
          instances = self.old.instances + length (instance_of added.to);
        }) }
    {
        match entry.to {
            ComponentTypeRef::Module(_) => self.modules = sum(self.modules, 1)?,
            ComponentTypeRef::Component(_) => self.components = sum(self.components, 1)?,
            ComponentTypeRef::Instance(_) => self.instances = sum(self.instances, 1)?,
            ComponentTypeRef::Func(_) | ComponentTypeRef::TypeEq(_) => {}
        }
        Ok(())
    }

    fn add_imports(&mut self, entries: &[ImportNode]) -> Result<(), AllocError>
        ensures { let added = imports (map shown_import_node entries.now) in OnOk result (self.new ≡ record {
          modules = self.old.modules + length (imported_modules_in added);
          components = self.old.components + length (imported_components_in added);
          instances = self.old.instances + length (imported_instances_in added);
        }) }
    {
        for entry in entries {
            self.add_import(entry)?;
        }
        Ok(())
    }

    // The ones of a section, and of what is inside it.
    #[cycle(totals)]
    #[tactic(auto, using(crate::proofs::Past::part_nodes))]
    fn add_part(&mut self, part: &PartNode) -> Result<(), AllocError>
        ensures { let added = shown_part_node part.now in OnOk result (self.new ≡ record {
          modules = self.old.modules + modules_within added;
          components = self.old.components + components_within added;
          instances = self.old.instances + instances_within added;
        }) }
    {
        match part {
            PartNode::CoreModule(_) => self.modules = sum(self.modules, 1)?,
            PartNode::Component(nodes) => {
                self.components = sum(self.components, 1)?;
                self.add_parts(nodes)?;
            }
            PartNode::Imports(entries) => self.add_imports(entries)?,
            PartNode::Custom(_)
            | PartNode::CoreTypes(_)
            | PartNode::Types(_)
            | PartNode::Canons(_)
            | PartNode::Exports(_) => {}
        }
        Ok(())
    }

    #[cycle(totals)]
    fn add_parts(&mut self, parts: &[PartNode]) -> Result<(), AllocError>
        ensures { let tree = tree_of (map shown_part_node parts.now) in OnOk result (self.new ≡ record {
          modules = self.old.modules + module_count tree;
          components = self.old.components + component_count tree;
          instances = self.old.instances + instance_count tree;
        }) }
    {
        for part in parts {
            self.add_part(part)?;
        }
        Ok(())
    }
}

/// Whether a component keeps these maxima of the limits: of core modules, components and instances in the whole, and of
/// types, core types, imports, functions and exports in itself and in each component inside it.
///
/// If it breaks one without several of its items, it does without any one of these too, by the law
/// [`counts_are_no_more_without_more`](crate::laws::counts_are_no_more_without_more). It takes time in proportion to
/// its sections and imports, and stack in proportion to its depth. `Err` is returned if a count would exceed what a
/// `usize` holds.
pub fn keeps_maxima(tree: &ComponentTree, config: &Config) -> Result<bool, AllocError>
    ensures { IfOk result (λ r. Decides r (KeepsMaxima config.now (shown_tree tree.now))) }
{
    let mut totals = Totals {
        modules: 0,
        components: 0,
        instances: 0,
    };
    totals.add_parts(&tree.parts)?;
    Ok(
        totals.modules <= config.max_modules
            && totals.components <= config.max_components
            && totals.instances <= config.max_instances
            && each_keeps_maxima(&tree.parts, config)?,
    )
}
