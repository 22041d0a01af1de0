//! How many entries there are in each index space of a component.

ghost use Rattle.std.specs.Prelude.{◌≡◌, ◌+◌, fold, map, IfOk, OnOk};
ghost use Rattle.smith_syntax.specs.Entries.{ImportEntry};
ghost use Rattle.smith_tree.specs.Tree.{Canon, ExportEntry};
ghost use Rattle.smith_tree.specs.Spaces.{Spaces, after_canon, after_export, after_import, after_part, no_spaces};
ghost use Rattle.smith_read.specs.PartNodes.{shown_import_node, shown_part_node};
ghost use Rattle.smith_tree.specs.Shown.{shown_canon, shown_export};
ghost use Rattle.smith_edit.specs.Counts.{counts_of};
ghost use Rattle.smith_edit.specs.Edits.{following};

use crate::renumbering::Renumbering;
use crate::walk::Scope;
use smith_read::{Export, Func, ImportNode, PartNode};
use smith_syntax::ComponentTypeRef;
use std::alloc::{AllocError, Global};

/// How many entries there are in each index space of a component.
#[derive(Clone, Copy)]
pub(crate) struct Counts {
    pub(crate) types: usize,
    pub(crate) core_types: usize,
    pub(crate) functions: usize,
    pub(crate) core_functions: usize,
}

/// The sum. Memory is exhausted before numbers are.
pub(crate) fn sum(count: usize, more: usize) -> Result<usize, AllocError>
    ensures { IfOk result (λ n. n ≡ count + more) }
{
    count.checked_add(more).ok_or(AllocError)
}

fn index(count: usize) -> Result<u32, AllocError>
    ensures { IfOk result (λ n. n ≡ count) }
{
    u32::try_from(count).map_err(|_| AllocError)
}

/// What may add an entry to an index space.
trait Counted: Drop {
    ghost Shown: { Type 0 };

    ghost shown: { Self → Shown };

    ghost after: { Spaces → Shown → Spaces };

    fn count(&self, counts: &mut Counts) -> Result<(), AllocError>
        ensures { (s : Spaces) → counts.old ≡ counts_of s
            → OnOk result (counts.new ≡ counts_of (after s (shown self.now))) };
}

impl Counted for Func {
    ghost Shown = { Canon };

    ghost shown = { shown_canon };

    ghost after = { after_canon };

    fn count(&self, counts: &mut Counts) -> Result<(), AllocError> {
        match self {
            Func::CanonLift { .. } => counts.functions = sum(counts.functions, 1)?,
            Func::CanonLower { .. } => counts.core_functions = sum(counts.core_functions, 1)?,
        }
        Ok(())
    }
}

impl Counted for ImportNode {
    ghost Shown = { ImportEntry };

    ghost shown = { shown_import_node };

    ghost after = { after_import };

    fn count(&self, counts: &mut Counts) -> Result<(), AllocError> {
        if let ComponentTypeRef::Func(_) = self.to {
            counts.functions = sum(counts.functions, 1)?;
        }
        Ok(())
    }
}

impl Counted for Export {
    ghost Shown = { ExportEntry };

    ghost shown = { shown_export };

    ghost after = { after_export };

    // An export of nothing is none.
    fn count(&self, counts: &mut Counts) -> Result<(), AllocError> {
        if (self.func_index as usize) < counts.functions {
            counts.functions = sum(counts.functions, 1)?;
        }
        Ok(())
    }
}

impl Counts {
    pub(crate) fn new() -> Counts
        ensures { result ≡ counts_of no_spaces }
    {
        Counts {
            types: 0,
            core_types: 0,
            functions: 0,
            core_functions: 0,
        }
    }

    fn add_all<T: Counted>(&mut self, items: &[T]) -> Result<(), AllocError>
        ensures { (s : Spaces) → self.old ≡ counts_of s
            → OnOk result (self.new ≡ counts_of (fold T.after s (map T.shown items.now))) }
    {
        for item in items {
            item.count(self)?;
        }
        Ok(())
    }

    /// Adds the entries of a section.
    #[tactic(auto, using(crate::proofs::Past::part_nodes))]
    pub(crate) fn add(&mut self, part: &PartNode) -> Result<(), AllocError>
        ensures { (s : Spaces) → self.old ≡ counts_of s
            → OnOk result (self.new ≡ counts_of (after_part s (shown_part_node part.now))) }
    {
        match part {
            PartNode::CoreTypes(types) => self.core_types = sum(self.core_types, types.len())?,
            PartNode::Types(types) => self.types = sum(self.types, types.len())?,
            PartNode::Canons(canons) => self.add_all(canons)?,
            PartNode::Imports(imports) => self.add_all(imports)?,
            PartNode::Exports(exports) => self.add_all(exports)?,
            PartNode::Custom(_) | PartNode::CoreModule(_) | PartNode::Component(_) => {}
        }
        Ok(())
    }

    /// A scope the indexes of which follow these.
    pub(crate) fn following(self, alloc: Global) -> Result<Scope, AllocError>
        ensures { (s : Spaces) → self ≡ counts_of s → IfOk result (λ scope. scope ≡ following s) }
    {
        Ok(Scope {
            types: Renumbering::from(alloc, index(self.types)?),
            core_types: Renumbering::from(alloc, index(self.core_types)?),
            functions: Renumbering::from(alloc, index(self.functions)?),
            core_functions: Renumbering::from(alloc, index(self.core_functions)?),
        })
    }
}
