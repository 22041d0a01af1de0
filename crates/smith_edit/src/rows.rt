//! Entries in order, each edited by what became of the ones before it.

ghost use Rattle.std.specs.Prelude.{◌≡◌, ◌+◌, ◌++◌, ℕ, Option, map, IfOk, OnOk, option_map, option_to_list};
ghost use Rattle.smith_edit.specs.Edited.{after_rows, one, rows};
ghost use Rattle.smith_edit.specs.Walk.{Walk as PlainWalk, shown_walk, skipped};
ghost use Rattle.smith_edit.specs.declared.walk.Scope.{Scope as PlainScope};

use crate::walk::{Scope, Walk};
use std::alloc::AllocError;

/// What is an entry of a section, or a declaration of a module type.
pub(crate) trait Row: Drop {
    ghost Shown: { Type 0 };

    ghost shown: { Self → Shown };

    ghost items: { Shown → ℕ };

    ghost edits: { PlainWalk → Shown → Option Shown };

    ghost adds: { PlainScope → Shown → Option Shown → PlainScope };

    /// How many items are inside.
    fn items_inside(&self) -> Result<usize, AllocError>
        ensures { IfOk result (λ n. n ≡ items (shown self.now)) };

    /// The entry with new indexes; none if it refers to what is removed.
    fn edited(&self, walk: &mut Walk) -> Result<Option<Self>, AllocError>
        ensures edited { IfOk result (λ r. option_map shown r ≡ edits (shown_walk walk.old) (shown self.now)) }
        ensures walk { OnOk result (shown_walk walk.new ≡ skipped (items (shown self.now)) (shown_walk walk.old)) };

    /// Adds it to its index space, after it was edited.
    fn add(&self, new: &Option<Self>, own: &mut Scope) -> Result<(), AllocError>
        ensures { OnOk result (own.new ≡ adds own.old (shown self.now) (option_map shown new.now)) };
}

/// Appends what there is.
pub(crate) fn push_some<T: Drop>(items: &mut Vec<T>, new: Option<T>) -> Result<(), AllocError>
    ensures { OnOk result (items.new.items ≡ items.old.items ++ option_to_list new) }
{
    if let Some(new) = new {
        items.push(new)?;
    }
    Ok(())
}

// The entry, if it is neither removed nor refers to what is.
#[tactic(auto, using(crate::proofs::Past::past_step))]
fn edit_one<T: Row>(walk: &mut Walk, row: &T) -> Result<Option<T>, AllocError>
    ensures edited { IfOk result (λ r. option_map T.shown r
        ≡ one T.items T.edits T.adds (shown_walk walk.old) (T.shown row.now)) }
    ensures walk { OnOk result (shown_walk walk.new ≡ skipped (T.items (T.shown row.now) + 1) (shown_walk walk.old)) }
{
    if walk.step() {
        walk.pass(row.items_inside()?);
        return Ok(None);
    }
    row.edited(walk)
}

/// The entries that are left.
pub(crate) fn edit_rows<T: Row>(walk: &mut Walk, items: &[T]) -> Result<Vec<T>, AllocError>
    ensures left { IfOk result (λ v. map T.shown v.items
        ≡ rows T.items T.edits T.adds (shown_walk walk.old) (map T.shown items.now)) }
    ensures walk { OnOk result (shown_walk walk.new
        ≡ after_rows T.items T.edits T.adds (shown_walk walk.old) (map T.shown items.now)) }
{
    let mut left = Vec::new(walk.alloc);
    for item in items {
        let new = edit_one(walk, item)?;
        item.add(&new, &mut walk.scopes.own)?;
        push_some(&mut left, new)?;
    }
    Ok(left)
}
