//! Components after a change.

ghost use Rattle.std.specs.Prelude.{◌≡◌, ◌/◌, ◌%◌, map, IfOk, IfErr, option_map};
ghost use Rattle.smith_tree.specs.Grammar.{Spells, component_text};
ghost use Rattle.smith_tree.specs.Tree.{Tree};
ghost use Rattle.smith_read.specs.PartNodes.{shown_tree};
ghost use Rattle.smith_change.specs.Changes as spec;
ghost use Rattle.smith_change.specs.Parts.{places, sections_changed};
ghost use Rattle.smith_change.specs.Refusals.{IsRefusal};

use crate::change::{Change, Changed};
use crate::error::ChangeError;
use crate::parts::change_parts;
use smith_read::{ComponentTree, Search, WriteError, read, write};
use std::alloc::{AllocError, Global};

/// How many alternatives a place may have: the number of a change is this times that of its place, and the number of
/// the alternative.
pub const ALTERNATIVES: usize = 16;

/// A change, and the component to which it leads.
#[derive(Debug, PartialEq, Eq, Drop)]
pub struct Step {
    /// Its number, from 0 over all changes, including the ones that lead to nothing.
    pub number: usize,
    /// The component's bytes.
    pub bytes: Vec<u8>,
}

// How many places there are.
fn place_count(alloc: Global, tree: &ComponentTree) -> Result<usize, AllocError>
    ensures { IfOk result (λ n. n ≡ places (shown_tree tree.now)) }
{
    let mut search = Search::Ahead(usize::MAX);
    let change = Change {
        alloc,
        alternative: 0,
    };
    let Some(_copy) = change_parts(change, &mut search, &tree.parts)? else {
        return Err(AllocError);
    };
    match search {
        Search::Ahead(left) => Ok(usize::MAX - left),
        Search::Over => Err(AllocError),
    }
}

/// How many changes a component has: from this number on none leads to anything, and below it not all do.
///
/// It takes time and memory in proportion to the component.
pub fn changes(alloc: Global, tree: &ComponentTree) -> Result<usize, AllocError>
    ensures { IfOk result (λ n. n ≡ spec.changes (shown_tree tree.now)) }
{
    let places = place_count(alloc, tree)?;
    places.checked_mul(ALTERNATIVES).ok_or(AllocError)
}

// The component with one place changed, which may be as it was.
fn change_place(alloc: Global, tree: &ComponentTree, number: usize) -> Changed<ComponentTree>
    ensures { IfOk result (λ r. option_map shown_tree r
        ≡ sections_changed (number % spec.alternatives) (number / spec.alternatives) (shown_tree tree.now)) }
{
    let change = Change {
        alloc,
        alternative: number % ALTERNATIVES,
    };
    let mut search = Search::Ahead(number / ALTERNATIVES);
    let Some(parts) = change_parts(change, &mut search, &tree.parts)? else {
        return Ok(None);
    };
    match search {
        Search::Over => Ok(Some(ComponentTree { parts })),
        Search::Ahead(_) => Ok(None),
    }
}

// The bytes of a component, if it has an encoding.
fn spelled(alloc: Global, tree: &ComponentTree) -> Changed<Vec<u8>>
    ensures { IfOk result (λ r. option_map (λ v. v.items) r ≡ component_text (shown_tree tree.now)) }
{
    match write(alloc, tree) {
        Ok(bytes) => Ok(Some(bytes)),
        Err(WriteError::NoEncoding) => Ok(None),
        Err(WriteError::OutOfMemory) => Err(AllocError),
    }
}

// Are they the same bytes, or both none?
fn is_same(first: &Option<Vec<u8>>, second: &Option<Vec<u8>>) -> bool
    ensures { result ≡ spec.same_piece (option_map (λ v. v.items) first.now) (option_map (λ v. v.items) second.now) }
{
    match (first, second) {
        (None, None) => true,
        (Some(first), Some(second)) => first.as_slice() == second.as_slice(),
        _ => false,
    }
}

/// The component after the change of that number; none if that leads to nothing.
///
/// The number is 16 times that of a place, in the order of the bytes, from 0, and the number of one of its
/// alternatives. A change leads to nothing if there is no such place or alternative, or if that is what stands there.
/// Nothing else changes: no index is renumbered. These are places, with their alternatives:
///
/// - a section, an entry of one, a declaration, a member, a parameter, a core parameter or result: 0 left out,
///   1 doubled, 2 exchanged with the next, 3 doubled with the name `again`, the second of a module import's two.
/// - all members of a type, or all parameters of a function: 0 none, 1 filled up with `x0`, `x1`, .. of `u32` to as
///   many as may be (100, of flags 32, of parameters 16), 2 to one more.
/// - an index, or a count of scopes: 0 one less, 1 one more, 2 4,294,967,295, 3 zero.
/// - a value type: 0 to 3 its index as that, where a primitive type has only 2 and 3; 4 `string`, 5 `u64`.
/// - whether there is a value type: 0 none, or `u32`.
/// - a name, but in types of core modules: 0 empty, with `-` (1), `--a` (2), `_` (3) or `-b1` (5) at its end, or with
///   `1` in front (4).
/// - what an import or an export is of: 0 module, 1 function, 2 equal type, 3 component, 4 instance.
/// - a code: 0 the other of list and option, flags and enum, component type and instance type, import and export,
///   alias of a type and of a core type, function and tag, memory and table of functions. An instance type that would
///   import is none, nor is a table of a shared memory. Of a primitive type 0 `string`, 1 `u32`.
/// - a core value type: 0 `i32`, or `i64` of it. All core results: 0 `i32` after them.
/// - limits: 0 the minimum one above the maximum, 1 the maximum one below the minimum, if there is a maximum; 2 no
///   maximum, or the minimum as one; 3 the minimum, 4 the maximum past all that 32 bits allow (65,537 pages, or
///   4,294,967,296 elements); 5 shared or not, of a memory; 6 of 64 bits or not.
/// - the elements of a table, and whether a global is mutable: 0 the other.
///
/// The place of an entry is before the places inside it, a code before what follows it, whether there is a value type
/// before that, and of an import or export the name, the sort and the index follow one another. Custom sections have no
/// places inside, and a core module has some only if it has no sections but the two that are generated: its function
/// types and its memories are entries, and the sections themselves are not.
///
/// It takes time and memory in proportion to the component, and stack in proportion to its depth.
pub fn changed(alloc: Global, tree: &ComponentTree, number: usize) -> Changed<ComponentTree>
    ensures { IfOk result (λ r. option_map shown_tree r ≡ spec.changed number (shown_tree tree.now)) }
{
    let Some(other) = change_place(alloc, tree, number)? else {
        return Ok(None);
    };
    let text = spelled(alloc, tree)?;
    if is_same(&text, &spelled(alloc, &other)?) {
        return Ok(None);
    }
    Ok(Some(other))
}

// The bytes to which a change of the component with these bytes leads.
fn led_to(alloc: Global, tree: &ComponentTree, bytes: &[u8], number: usize) -> Changed<Vec<u8>>
    requires { Spells (shown_tree tree.now) bytes.now }
    ensures { IfOk result (λ r. spec.IsLead (shown_tree tree.now) number (option_map (λ b. b.items) r)) }
{
    let Some(other) = change_place(alloc, tree, number)? else {
        return Ok(None);
    };
    let Some(text) = spelled(alloc, &other)? else {
        return Ok(None);
    };
    if text.as_slice() == bytes {
        return Ok(None);
    }
    Ok(Some(text))
}

// The first change from that number on that leads to something.
#[tactic(auto, using(crate::proofs::Passing::passing))]
fn next_of(
    alloc: Global,
    tree: &ComponentTree,
    bytes: &[u8],
    from: usize,
) -> Result<Option<Step>, AllocError>
    requires { Spells (shown_tree tree.now) bytes.now }
    ensures { IfOk result
        (λ r. spec.IsNext (shown_tree tree.now) from (option_map (λ s. (s.number, s.bytes.items)) r)) }
{
    let changes = changes(alloc, tree)?;
    for number in from..changes {
        if let Some(bytes) = led_to(alloc, tree, bytes, number)? {
            return Ok(Some(Step { number, bytes }));
        }
    }
    Ok(None)
}

/// How many changes the component that these bytes are has, including the ones that lead to nothing.
///
/// It takes time and memory in proportion to the bytes.
pub fn change_count(alloc: Global, bytes: &[u8]) -> Result<usize, ChangeError>
    ensures answered { IfOk result (λ n. (t : Tree) × Spells t bytes.now × (n ≡ spec.changes t)) }
    ensures refuses { IfErr result (IsRefusal bytes.now) }
{
    let tree = read(alloc, bytes)?;
    Ok(changes(alloc, &tree)?)
}

/// The bytes of the component to which that change leads; none if it leads to nothing.
///
/// It takes time and memory in proportion to the bytes.
pub fn changed_bytes(
    alloc: Global,
    bytes: &[u8],
    number: usize,
) -> Result<Option<Vec<u8>>, ChangeError>
    ensures answered { IfOk result (λ r. (t : Tree) × Spells t bytes.now
        × spec.IsLead t number (option_map (λ b. b.items) r)) }
    ensures refuses { IfErr result (IsRefusal bytes.now) }
{
    let tree = read(alloc, bytes)?;
    Ok(led_to(alloc, &tree, bytes, number)?)
}

/// The first change from that number on that leads to a component other than the one that these bytes are, and its
/// bytes. There is none if no change from there on leads to one. Changes are numbered as [`changed`] numbers them.
///
/// Each change from that number up to the one that is returned takes time in proportion to the bytes.
pub fn next_changed(alloc: Global, bytes: &[u8], from: usize) -> Result<Option<Step>, ChangeError>
    ensures answered { IfOk result (λ r. (t : Tree) × Spells t bytes.now
        × spec.IsNext t from (option_map (λ s. (s.number, s.bytes.items)) r)) }
    ensures refuses { IfErr result (IsRefusal bytes.now) }
{
    let tree = read(alloc, bytes)?;
    Ok(next_of(alloc, &tree, bytes, from)?)
}
