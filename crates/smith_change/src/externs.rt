//! Imports and exports, and canonical functions.

ghost use Rattle.std.specs.Prelude.{◌≡◌, None, Option, Some, IfOk, IsSome, map, option_map};
ghost use Rattle.smith_syntax.specs.Entries.{ImportEntry};
ghost use Rattle.smith_syntax.specs.Signature.{named};
ghost use Rattle.smith_tree.specs.Tree.{Canon, ExportEntry};
ghost use Rattle.smith_tree.specs.Shown.{shown_canon, shown_export};
ghost use Rattle.smith_read.specs.PartNodes.{shown_import_node};
ghost use Rattle.smith_change.specs.Alternatives.{index_alternative};
ghost use Rattle.smith_change.specs.Parts as parts;
ghost use Rattle.smith_change.specs.Rows as rows;
ghost use Rattle.smith_read.specs.Search.{past, sought};
ghost use Rattle.smith_change.specs.Types as types;

use crate::alternatives::{index_alternative, ref_index, sort_alternative, with_index};
use crate::change::{Change, Changed};
use crate::rows::{Entry, Row, again_name, named};
use crate::values::change_name;
use smith_read::{Export, Func, ImportNode, Search};
use smith_syntax::ComponentTypeRef;
use std::alloc::{AllocError, Global};

fn change_index(change: Change, search: &mut Search, index: u32) -> Option<u32>
    ensures index { result ≡ sought 1 search.old (λ k. index_alternative change.alternative index) index }
    ensures moved { search.new ≡ past 1 search.old }
{
    search.value_or(index, index_alternative(change.alternative, index))
}

fn change_ref(change: Change, search: &mut Search, to: ComponentTypeRef) -> Option<ComponentTypeRef>
    ensures to { result ≡ sought 2 search.old (λ k. types.ref_changed change.alternative k to) to }
    ensures moved { IsSome result → search.new ≡ past 2 search.old }
{
    if search.step() {
        return sort_alternative(change.alternative, to);
    }
    let index = change_index(change, search, ref_index(to))?;
    Some(with_index(to, index))
}

/// A name, and what the import or export of that name is of.
pub(crate) fn change_extern(
    change: Change,
    search: &mut Search,
    name: &str,
    to: ComponentTypeRef,
) -> Changed<(String, ComponentTypeRef)>
    ensures entry { IfOk result (λ r. option_map named r ≡ sought 3 search.old
        (λ k. types.extern_changed change.alternative k (name.now, to)) (name.now, to)) }
    ensures moved { IfOk result (λ r. IsSome r → search.new ≡ past 3 search.old) }
{
    let name = change_name(change, search, name)?;
    Ok(name.zip(change_ref(change, search, to)))
}

impl Entry for Func {
    ghost Shown = { Canon };

    ghost shown = { shown_canon };

    ghost places = { parts.canon_places };

    ghost changes = { parts.canon_changed };

    ghost again = { rows.unnamed };

    ghost fresh = { λ n. None };

    fn copied(&self, _alloc: Global) -> Result<Func, AllocError> {
        match self {
            Func::CanonLift {
                func_ty,
                core_func_index,
            } => Ok(Func::CanonLift {
                func_ty: *func_ty,
                core_func_index: *core_func_index,
            }),
            Func::CanonLower { func_index } => Ok(Func::CanonLower {
                func_index: *func_index,
            }),
        }
    }

    fn renamed(&self, _alloc: Global) -> Changed<Func> {
        Ok(None)
    }

    fn fresh(_alloc: Global, _number: usize) -> Changed<Func> {
        Ok(None)
    }
}

impl Row for Func {
    fn changed(&self, change: Change, search: &mut Search) -> Changed<Func> {
        match self {
            Func::CanonLift {
                func_ty,
                core_func_index,
            } => {
                let core_func_index = change_index(change, search, *core_func_index);
                let func_ty = change_index(change, search, *func_ty);
                let indexes = core_func_index.zip(func_ty);
                Ok(indexes.map(|(core_func_index, func_ty)| Func::CanonLift {
                    func_ty,
                    core_func_index,
                }))
            }
            Func::CanonLower { func_index } => {
                let func_index = change_index(change, search, *func_index);
                Ok(func_index.map(|func_index| Func::CanonLower { func_index }))
            }
        }
    }
}

impl Entry for ImportNode {
    ghost Shown = { ImportEntry };

    ghost shown = { shown_import_node };

    ghost places = { parts.import_places };

    ghost changes = { parts.import_changed };

    ghost again = { parts.import_again };

    ghost fresh = { λ n. None };

    fn copied(&self, alloc: Global) -> Result<ImportNode, AllocError> {
        let name = named(alloc, self.name.as_str())?;
        Ok(ImportNode { name, to: self.to })
    }

    fn renamed(&self, alloc: Global) -> Changed<ImportNode> {
        let name = again_name(alloc)?;
        Ok(Some(ImportNode { name, to: self.to }))
    }

    fn fresh(_alloc: Global, _number: usize) -> Changed<ImportNode> {
        Ok(None)
    }
}

impl Row for ImportNode {
    fn changed(&self, change: Change, search: &mut Search) -> Changed<ImportNode> {
        let entry = change_extern(change, search, self.name.as_str(), self.to)?;
        Ok(entry.map(|(name, to)| ImportNode { name, to }))
    }
}

impl Entry for Export {
    ghost Shown = { ExportEntry };

    ghost shown = { shown_export };

    ghost places = { parts.export_places };

    ghost changes = { parts.export_changed };

    ghost again = { parts.export_again };

    ghost fresh = { λ n. None };

    fn copied(&self, alloc: Global) -> Result<Export, AllocError> {
        Ok(Export {
            name: named(alloc, self.name.as_str())?,
            func_index: self.func_index,
        })
    }

    fn renamed(&self, alloc: Global) -> Changed<Export> {
        Ok(Some(Export {
            name: again_name(alloc)?,
            func_index: self.func_index,
        }))
    }

    fn fresh(_alloc: Global, _number: usize) -> Changed<Export> {
        Ok(None)
    }
}

impl Row for Export {
    fn changed(&self, change: Change, search: &mut Search) -> Changed<Export> {
        let name = change_name(change, search, self.name.as_str())?;
        let func_index = change_index(change, search, self.func_index);
        Ok(
            name.zip(func_index)
                .map(|(name, func_index)| Export { name, func_index }),
        )
    }
}
