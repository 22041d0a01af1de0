//! Entries in a row, one of which is changed.

ghost use Rattle.std.specs.Prelude.{◌≡◌, ◌++◌, ◌∷◌, ℕ, [], Option, Some, map, IfOk, IsSome, option_map, string_bytes};
ghost use Rattle.smith_change.specs.Rows as rows;
ghost use Rattle.smith_read.specs.Search.{past, sought};

use crate::change::{Change, Changed};
use smith_read::Search;
use std::alloc::{AllocError, Global};

/// What stands in a row with others.
pub(crate) trait Entry: Drop {
    ghost Shown: { Type 0 };

    ghost shown: { Self → Shown };

    ghost places: { Shown → ℕ };

    ghost changes: { ℕ → ℕ → Shown → Option Shown };

    ghost again: { Shown → Option Shown };

    ghost fresh: { ℕ → Option Shown };

    /// A copy.
    fn copied(&self, alloc: Global) -> Result<Self, AllocError>
        ensures { IfOk result (λ x. shown x ≡ shown self.now) };

    /// A copy with the name `again`; none if it has no name.
    fn renamed(&self, alloc: Global) -> Changed<Self>
        ensures { IfOk result (λ r. option_map shown r ≡ again (shown self.now)) };

    /// The new member of that number; none if it is no member.
    fn fresh(alloc: Global, number: usize) -> Changed<Self>
        ensures { IfOk result (λ r. option_map shown r ≡ fresh number) };
}

/// An entry of which a place inside can be changed.
pub(crate) trait Row: Entry {
    /// A copy, with the place that is sought changed.
    fn changed(&self, change: Change, search: &mut Search) -> Changed<Self>
        ensures entry { IfOk result (λ r. option_map Self.shown r
            ≡ sought (Self.places (Self.shown self.now)) search.old
            (λ k. Self.changes change.alternative k (Self.shown self.now)) (Self.shown self.now)) }
        ensures moved { IfOk result (λ r. IsSome r
            → search.new ≡ past (Self.places (Self.shown self.now)) search.old) };
}

/// A name in memory of its own.
pub(crate) fn named(alloc: Global, name: &str) -> Result<String, AllocError>
    ensures { IfOk result (λ n. string_bytes n ≡ name.now) }
{
    String::from_str(alloc, name)
}

/// The name of a doubled entry.
pub(crate) fn again_name(alloc: Global) -> Result<String, AllocError>
    ensures { IfOk result (λ n. string_bytes n ≡ rows.again_name) }
{
    String::from_str(alloc, "again")
}

/// These, and then copies of the entries.
pub(crate) fn copied_after<T: Entry>(
    alloc: Global,
    done: Vec<T>,
    entries: &[T],
) -> Result<Vec<T>, AllocError>
    ensures { IfOk result (λ v. map T.shown v.items ≡ map T.shown done.items ++ map T.shown entries.now) }
{
    let mut all = done;
    for entry in entries {
        all.push(entry.copied(alloc)?)?;
    }
    Ok(all)
}

// These, and then a copy of the entry.
fn copied_behind<T: Entry>(alloc: Global, done: Vec<T>, entry: &T) -> Result<Vec<T>, AllocError>
    ensures { IfOk result (λ v. map T.shown v.items ≡ map T.shown done.items ++ T.shown entry.now ∷ []) }
{
    let mut all = done;
    all.push(entry.copied(alloc)?)?;
    Ok(all)
}

/// Copies of the entries.
pub(crate) fn copied_all<T: Entry>(alloc: Global, entries: &[T]) -> Result<Vec<T>, AllocError>
    ensures { IfOk result (λ v. map T.shown v.items ≡ map T.shown entries.now) }
{
    copied_after(alloc, Vec::new(alloc), entries)
}

// These, and then the first two entries exchanged, and the rest.
fn exchanged_after<T: Entry>(alloc: Global, done: Vec<T>, entries: &[T]) -> Changed<Vec<T>>
    ensures { IfOk result (λ r. option_map (λ v. map T.shown v.items) r
        ≡ option_map (λ ys. map T.shown done.items ++ ys) (rows.exchanged (map T.shown entries.now))) }
{
    if entries.len() < 2 {
        return Ok(None);
    }
    let done = copied_behind(alloc, done, &entries[1])?;
    let done = copied_behind(alloc, done, &entries[0])?;
    Ok(Some(copied_after(alloc, done, &entries[2..])?))
}

// These, and then the first entry, one like it with another name, and the rest.
fn followed_after<T: Entry>(alloc: Global, done: Vec<T>, entries: &[T]) -> Changed<Vec<T>>
    ensures { IfOk result (λ r. option_map (λ v. map T.shown v.items) r
        ≡ option_map (λ ys. map T.shown done.items ++ ys)
        (rows.entry_alternative T.again 3 (map T.shown entries.now))) }
{
    if entries.is_empty() {
        return Ok(None);
    }
    let Some(again) = entries[0].renamed(alloc)? else {
        return Ok(None);
    };
    let mut done = copied_behind(alloc, done, &entries[0])?;
    done.push(again)?;
    Ok(Some(copied_after(alloc, done, &entries[1..])?))
}

/// These, and then the entries with the first of them left out, doubled, exchanged with the next, or doubled with
/// another name.
pub(crate) fn change_entry<T: Entry>(change: Change, done: Vec<T>, entries: &[T]) -> Changed<Vec<T>>
    ensures { IfOk result (λ r. option_map (λ v. map T.shown v.items) r
        ≡ option_map (λ ys. map T.shown done.items ++ ys)
        (rows.entry_alternative T.again change.alternative (map T.shown entries.now))) }
{
    if entries.is_empty() {
        return Ok(None);
    }
    let alloc = change.alloc;
    match change.alternative {
        0 => Ok(Some(copied_after(alloc, done, &entries[1..])?)),
        1 => {
            let done = copied_behind(alloc, done, &entries[0])?;
            Ok(Some(copied_after(alloc, done, entries)?))
        }
        2 => exchanged_after(alloc, done, entries),
        3 => followed_after(alloc, done, entries),
        _ => Ok(None),
    }
}

/// Copies of the entries, with the place that is sought changed.
pub(crate) fn change_row<T: Row>(
    change: Change,
    search: &mut Search,
    entries: &[T],
) -> Changed<Vec<T>>
    ensures entries { let all = map T.shown entries.now in IfOk result (λ r. option_map (λ v. map T.shown v.items) r
        ≡ sought (rows.row_places T.places all) search.old
        (λ k. rows.row_changed T.places T.changes T.again change.alternative k all) all) }
    ensures moved { IfOk result (λ r. IsSome r
        → search.new ≡ past (rows.row_places T.places (map T.shown entries.now)) search.old) }
{
    let mut done = Vec::new(change.alloc);
    for (index, entry) in entries.iter().enumerate() {
        if search.step() {
            return change_entry(change, done, &entries[index..]);
        }
        let Some(entry) = entry.changed(change, search)? else {
            return Ok(None);
        };
        done.push(entry)?;
    }
    Ok(Some(done))
}
