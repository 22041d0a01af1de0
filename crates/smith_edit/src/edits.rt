//! The two edits: a component without one of its items, and two components joined.

ghost use Rattle.std.specs.Prelude.{◌≡◌, IfOk, map, option_map};
ghost use Rattle.smith_tree.specs.Spaces.{spaces_of};
ghost use Rattle.smith_tree.specs.Tree.{exports_of, imports_of, tree_of};
ghost use Rattle.smith_tree.specs.WellFormed.{export_names, import_names};
ghost use Rattle.smith_read.specs.PartNodes.{shown_part_node, shown_tree};
ghost use Rattle.smith_edit.specs.Counts.{counts_of};
ghost use Rattle.smith_edit.specs.Edits.{joined, without, without_items};
ghost use Rattle.smith_edit.specs.Names.{KnowsBoth};

use crate::counts::Counts;
use crate::names::Taken;
use crate::parts::{edit_part, edit_parts};
use crate::walk::{Removal, Scope, Walk};
use smith_read::{ComponentTree, PartNode};
use std::alloc::{AllocError, Global};

/// The component without its `k`-th item, and without all that refers to what is removed; every other index is
/// renumbered. There is none if there is no `k`-th item.
///
/// Items are counted from 0 in the order of the component's bytes: each section, each entry of a section, each
/// declaration of a type, and each member of a type of values, of functions and of core functions. A section is removed
/// with its entries, and a compound type with its last member. If the type of a function loses a parameter or its
/// result, its lowers and its lifts are removed. An index that refers to nothing remains as it is.
///
/// Nothing else is removed, and the rest keeps its order. So a component that is well formed remains so, and has no
/// more bytes. It takes time and memory in proportion to the component, and stack in proportion to its depth. `Err` is
/// returned if an allocation fails, or if an index would exceed 4,294,967,295.
pub fn without(
    alloc: Global,
    tree: &ComponentTree,
    k: usize,
) -> Result<Option<ComponentTree>, AllocError>
    ensures { IfOk result (λ r. option_map shown_tree r ≡ without k (shown_tree tree.now)) }
{
    let mut walk = Walk::new(
        alloc,
        Removal::Items { first: k, last: k },
        Scope::new(alloc),
    );
    let parts = edit_parts(&mut walk, &tree.parts)?;
    match walk.removal {
        Removal::Nothing => Ok(Some(ComponentTree { parts })),
        Removal::Items { .. } | Removal::Everything => Ok(None),
    }
}

/// The component without its items from the `first` number on up to the `last`, and without all that refers to what is
/// removed, as [`without`] counts and removes one. Numbers from the number of items on remove nothing.
///
/// It takes time and memory in proportion to the component, and stack in proportion to its depth. `Err` is returned if
/// an allocation fails, or if an index would exceed 4,294,967,295.
pub fn without_items(
    alloc: Global,
    tree: &ComponentTree,
    first: usize,
    last: usize,
) -> Result<ComponentTree, AllocError>
    ensures { IfOk result (λ t. shown_tree t ≡ without_items first last (shown_tree tree.now)) }
{
    let mut walk = Walk::new(alloc, Removal::Items { first, last }, Scope::new(alloc));
    let parts = edit_parts(&mut walk, &tree.parts)?;
    Ok(ComponentTree { parts })
}

/// How many entries there are in each index space.
#[tactic(auto, using(smith_input::proofs::Lists::map_dropped, crate::proofs::Joining::parts_same))]
pub(crate) fn count_entries(parts: &[PartNode]) -> Result<Counts, AllocError>
    ensures { IfOk result (λ c. c ≡ counts_of (spaces_of (tree_of (map shown_part_node parts.now)))) }
{
    let mut counts = Counts::new();
    for part in parts {
        counts.add(part)?;
    }
    Ok(counts)
}

/// The names of imports and exports.
pub(crate) fn take_names(alloc: Global, parts: &[PartNode]) -> Result<Taken, AllocError>
    ensures { let tree = tree_of (map shown_part_node parts.now) in
        IfOk result (λ t. KnowsBoth t (import_names (imports_of tree)) (export_names (exports_of tree))) }
{
    let mut taken = Taken::new(alloc);
    for part in parts {
        taken.add(alloc, part)?;
    }
    Ok(taken)
}

/// The sections of the first component, and then the second's: its indexes follow the first's, and a name of an import
/// or an export that is taken already is made new, with digits at its end. An index that refers to nothing remains as
/// it is.
///
/// So two components that are well formed are joined to one that is. It uses stack in proportion to the depth of the
/// second. `Err` is returned if an allocation fails, or if an index would exceed 4,294,967,295.
pub fn joined(
    alloc: Global,
    left: ComponentTree,
    right: &ComponentTree,
) -> Result<ComponentTree, AllocError>
    ensures { IfOk result (λ t. shown_tree t ≡ joined (shown_tree left) (shown_tree right.now)) }
{
    let own = count_entries(&left.parts)?.following(alloc)?;
    let mut walk = Walk::new(alloc, Removal::Nothing, own);
    let mut taken = take_names(alloc, &left.parts)?;
    let mut parts = left.parts;
    for node in &right.parts {
        let moved = edit_part(&mut walk, node)?;
        parts.push(taken.renamed(alloc, moved)?)?;
    }
    Ok(ComponentTree { parts })
}
