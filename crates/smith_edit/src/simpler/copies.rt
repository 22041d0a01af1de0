//! Copies of what has no simpler form: core types and canonical functions.

ghost use Rattle.std.specs.Prelude.{◌≡◌, map, IfOk};
ghost use Rattle.smith_format.specs.Shown.{shown_func};

use crate::rows::Row;
use crate::walk::Walk;
use smith_format::FuncType;
use smith_read::{CoreNode, Func, ModuleNode};
use std::alloc::{AllocError, Global};

/// What has no simpler form.
pub(crate) trait Simplest: Row {
    fn copied(&self, alloc: Global) -> Result<Self, AllocError>
        ensures { IfOk result (λ x. Self.shown x ≡ Self.shown self.now) };
}

impl Simplest for ModuleNode {
    #[tactic(auto, using(crate::proofs::Still::module_still))]
    fn copied(&self, alloc: Global) -> Result<ModuleNode, AllocError> {
        self.edited(&mut Walk::still(alloc))?.ok_or(AllocError)
    }
}

fn copy_function(alloc: Global, ty: &FuncType) -> Result<FuncType, AllocError>
    ensures { IfOk result (λ f. shown_func f ≡ shown_func ty.now) }
{
    let params = Vec::from_slice(alloc, &ty.params)?;
    let results = Vec::from_slice(alloc, &ty.results)?;
    Ok(FuncType { params, results })
}

impl Simplest for CoreNode {
    fn copied(&self, alloc: Global) -> Result<CoreNode, AllocError> {
        match self {
            CoreNode::Func(ty) => Ok(CoreNode::Func(copy_function(alloc, ty)?)),
            CoreNode::Module(nodes) => Ok(CoreNode::Module(copy_all(alloc, nodes)?)),
        }
    }
}

impl Simplest for Func {
    #[tactic(auto, using(crate::proofs::Still::canon_still))]
    fn copied(&self, alloc: Global) -> Result<Func, AllocError> {
        self.edited(&mut Walk::still(alloc))?.ok_or(AllocError)
    }
}

pub(crate) fn copy_all<T: Simplest>(alloc: Global, items: &[T]) -> Result<Vec<T>, AllocError>
    ensures { IfOk result (λ v. map T.shown v.items ≡ map T.shown items.now) }
{
    let mut copies = Vec::new(alloc);
    for item in items {
        copies.push(item.copied(alloc)?)?;
    }
    Ok(copies)
}
