//! Where in the bytes of a component an item of it is.

ghost use Rattle.std.specs.Prelude.{◌≡◌, ◌≤◌, Some, length, IfOk, IfSome};
ghost use Rattle.smith_tree.specs.Depths.{scope_depth};
ghost use Rattle.smith_tree.specs.Grammar.{Spells};
ghost use Rattle.smith_tree.specs.Tree.{Tree};
ghost use Rattle.smith_read.specs.Finding.{found_at, into_at, items_of, listed_at, pass_at, past_at, shown_passing};
ghost use Rattle.smith_read.specs.Finding.{sole_at, walk_at, within_at};
ghost use Rattle.smith_read.specs.Levels.{entry_at};
ghost use Rattle.smith_read.specs.Places.{offset_in};
ghost use Rattle.smith_read.specs.Reading.{Gives};
ghost use Rattle.smith_read.specs.Reads.{most_depth};

use crate::entries::types_of;
use crate::lists::times_of;
use crate::parts::preamble_of;
use crate::{
    CoreNode, ImportNode, MOST_DEPTH, Readable, Reason, Unread, byte_of, count_of, frame_of,
    malformed,
};
use smith_tree::{Export, Func};
use std::alloc::{AllocError, Global};

// The id of a section that holds a component.
const COMPONENT_ID: u8 = 4;

// An item that is sought from some bytes on.
#[derive(Clone, Copy)]
enum Passing<'a> {
    // It is found: that many bytes are left from its beginning on.
    Found(usize),
    // It is that one of the items in these bytes.
    Passed(usize, &'a [u8]),
}

// How many of the contents of what counts as one entry precede an entry: none, and there is no other than the first.
fn within_one(bytes: &[u8], entry: usize) -> Result<usize, Unread>
    ensures { Gives (λ n. n) result (sole_at entry) }
{
    if entry == 0 {
        Ok(0)
    } else {
        Err(malformed(bytes, Reason::Ends))
    }
}

// How many of the bytes of a list precede an entry of it.
#[tactic(auto, unfolding(crate::specs::Finding::listed_at))]
fn within_list<T: Readable>(alloc: Global, bytes: &[u8], entry: usize) -> Result<usize, Unread>
    ensures { Gives (λ n. n) result (listed_at T.reading entry bytes.now) }
{
    let (count, rest) = count_of(bytes)?;
    if entry >= count as usize {
        return Err(malformed(rest, Reason::Ends));
    }
    let (_before, after) = times_of::<T>(alloc, entry as u32, rest)?;
    Ok(bytes.len().saturating_sub(after.len()))
}

// The same of a list of types.
#[tactic(auto, unfolding(crate::specs::Finding::listed_at))]
fn within_types(alloc: Global, bytes: &[u8], entry: usize) -> Result<usize, Unread>
    ensures { Gives (λ n. n) result (listed_at (entry_at most_depth) entry bytes.now) }
{
    let (count, rest) = count_of(bytes)?;
    if entry >= count as usize {
        return Err(malformed(rest, Reason::Ends));
    }
    let (_before, after) = types_of(alloc, MOST_DEPTH, entry as u32, rest)?;
    Ok(bytes.len().saturating_sub(after.len()))
}

// How many of the contents of a section precede an entry of it.
#[tactic(auto, unfolding(crate::specs::Finding::within_at))]
fn within_section(alloc: Global, id: u8, bytes: &[u8], entry: usize) -> Result<usize, Unread>
    ensures { Gives (λ n. n) result (within_at entry id bytes.now) }
{
    match id {
        0 | 1 => within_one(bytes, entry),
        3 => within_list::<CoreNode>(alloc, bytes, entry),
        7 => within_types(alloc, bytes, entry),
        8 => within_list::<Func>(alloc, bytes, entry),
        10 => within_list::<ImportNode>(alloc, bytes, entry),
        11 => within_list::<Export>(alloc, bytes, entry),
        _ => Err(malformed(bytes, Reason::Byte)),
    }
}

// How many items there are in a section that holds no component.
#[tactic(auto, unfolding(crate::specs::Finding::items_of))]
fn items_of(id: u8, bytes: &[u8]) -> Result<usize, Unread>
    ensures { Gives (λ n. n) result (items_of id bytes.now) }
{
    match id {
        0 | 1 => Ok(1),
        3 | 7 | 8 | 10 | 11 => {
            let (count, _entries) = count_of(bytes)?;
            Ok(count as usize)
        }
        _ => Err(malformed(bytes, Reason::Byte)),
    }
}

// Seeks an item past the header of a component, which begins the bytes but for its id.
#[tactic(auto, unfolding(crate::specs::Finding::into_at))]
fn pass_into(bytes: &[u8], item: usize) -> Result<Passing<'_>, Unread>
    ensures { Gives shown_passing result (into_at item bytes.now) }
{
    let (_size, inner) = count_of(bytes)?;
    if item == 0 {
        return Ok(Passing::Found(inner.len()));
    }
    let rest = preamble_of(inner)?;
    Ok(Passing::Passed(item - 1, rest))
}

// Seeks an item in another section, which begins the bytes but for its id, or past it.
#[tactic(auto, unfolding(crate::specs::Finding::past_at))]
fn pass_section(alloc: Global, id: u8, bytes: &[u8], item: usize) -> Result<Passing<'_>, Unread>
    ensures { Gives shown_passing result (past_at item id bytes.now) }
{
    let (contents, rest) = frame_of(bytes)?;
    let count = items_of(id, contents)?;
    if item >= count {
        return Ok(Passing::Passed(item - count, rest));
    }
    let before = within_section(alloc, id, contents, item)?;
    let left = contents.len().saturating_sub(before);
    Ok(Passing::Found(left.saturating_add(rest.len())))
}

// Seeks an item in the section that begins the bytes, or past it.
#[tactic(auto, unfolding(crate::specs::Finding::pass_at))]
fn pass(alloc: Global, bytes: &[u8], item: usize) -> Result<Passing<'_>, Unread>
    ensures { Gives shown_passing result (pass_at item bytes.now) }
{
    let (id, rest) = byte_of(bytes)?;
    if id == COMPONENT_ID {
        pass_into(rest, item)
    } else {
        pass_section(alloc, id, rest, item)
    }
}

// How many of the bytes of some sections there are from an item on. Each section and each header takes a byte at least.
fn left_from(alloc: Global, bytes: &[u8], item: usize) -> Result<usize, Unread>
    ensures { Gives (λ n. n) result (walk_at (length bytes.now) item bytes.now) }
{
    let mut rest = bytes;
    let mut left = item;
    for _ in 0..bytes.len() {
        match pass(alloc, rest, left)? {
            Passing::Found(count) => return Ok(count),
            Passing::Passed(item, after) => {
                left = item;
                rest = after;
            }
        }
    }
    Err(malformed(rest, Reason::Ends))
}

// How many of a component's bytes precede an item.
#[tactic(auto, unfolding(crate::specs::Finding::found_at))]
fn place_of(alloc: Global, bytes: &[u8], item: usize) -> Result<usize, Unread>
    ensures { Gives (λ n. n) result (found_at item bytes.now) }
{
    let rest = preamble_of(bytes)?;
    let left = left_from(alloc, rest, item)?;
    Ok(bytes.len().saturating_sub(left))
}

/// How many of the bytes that spell a component precede an item in it: the offset of that item. Items count from 0 in
/// the order of the bytes: each custom section, each core module, the beginning of each component in it, and each entry
/// of a section that is a list. `None` if there is no such item.
///
/// It takes time and memory in proportion to the bytes, and its stack is bounded by how deep types nest.
pub fn offset_of(alloc: Global, bytes: &[u8], item: usize) -> Result<Option<usize>, AllocError>
    // The offset that is returned is right.
    ensures right { (component : Tree) → Spells component bytes.now
        → IfOk result (λ offset. IfSome offset (λ n. offset_in item component ≡ Some n)) }
    // One is returned if there is such an item, and scopes are at most `MOST_DEPTH` of `smith_read` deep.
    ensures found { (component : Tree) → scope_depth component ≤ most_depth → Spells component bytes.now
        → IfOk result (λ offset. offset ≡ offset_in item component) }
{
    match place_of(alloc, bytes, item) {
        Ok(offset) => Ok(Some(offset)),
        Err(Unread::OutOfMemory) => Err(AllocError),
        Err(Unread::Malformed { .. }) => Ok(None),
    }
}
