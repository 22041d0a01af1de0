//! What becomes of the entries of an index space.

ghost use Rattle.std.specs.Prelude.{◌≡◌, slice_get, OnOk};
ghost use Rattle.smith_edit.specs.Renumbering.{entry_at, fate_if, from, kept_index, new_index, with_entry, with_like};

use std::alloc::{AllocError, Global};
use std::marker::Model;

/// What becomes of an entry of an index space.
#[derive(Clone, Copy)]
pub(crate) enum Fate {
    Kept,
    /// It is a function type with fewer parameters or without its result, or a function of such a type.
    Changed,
    Removed,
}

impl Fate {
    /// The fate of what remains or is removed.
    pub(crate) fn remains_if(self, remains: bool) -> Fate
        ensures { result ≡ fate_if remains self }
    {
        if remains { self } else { Fate::Removed }
    }
}

/// The new index of an entry that is not removed, and what becomes of it.
#[derive(Clone, Copy)]
pub(crate) struct Renumbered {
    pub(crate) index: u32,
    pub(crate) fate: Fate,
}

/// What became of each entry of an index space so far, and the new index of the next one that is not removed.
#[derive(Drop)]
pub(crate) struct Renumbering {
    next: u32,
    entries: Vec<Renumbered>,
}

impl Model for Renumbering {
    ghost use Rattle.smith_edit.specs.Renumbering.{Renumbering};

    ghost Value = { Renumbering };

    ghost view = { λ s. record { next = s.next; entries = s.entries.items } };
}

impl Renumbering {
    /// No entries yet.
    pub(crate) fn from(alloc: Global, next: u32) -> Renumbering
        ensures { result ≡ from next }
    {
        Renumbering {
            next,
            entries: Vec::new(alloc),
        }
    }

    /// Adds an entry. Memory is exhausted before the indexes are.
    pub(crate) fn add(&mut self, fate: Fate) -> Result<(), AllocError>
        ensures { OnOk result (self.new ≡ with_entry self.old fate) }
    {
        let index = self.next;
        let next = match fate {
            Fate::Kept | Fate::Changed => index.checked_add(1).ok_or(AllocError)?,
            Fate::Removed => index,
        };
        self.entries.push(Renumbered { index, fate })?;
        self.next = next;
        Ok(())
    }

    /// Adds an entry with the fate of another, if there is one with that old index.
    pub(crate) fn add_like(&mut self, index: u32, remains: bool) -> Result<(), AllocError>
        ensures { OnOk result (self.new ≡ with_like self.old index remains) }
    {
        match self.get(index) {
            Some(entry) => self.add(entry.fate.remains_if(remains)),
            None => Ok(()),
        }
    }

    // The entry with that old index, if there is one.
    fn get(&self, index: u32) -> Option<Renumbered>
        ensures { result ≡ slice_get self.now.entries index }
    {
        self.entries.get(index as usize).copied()
    }

    /// The entry with that old index. An index of nothing remains.
    pub(crate) fn entry_at(&self, index: u32) -> Renumbered
        ensures { result ≡ entry_at self.now index }
    {
        self.get(index).unwrap_or(Renumbered {
            index,
            fate: Fate::Kept,
        })
    }

    /// The new index, if the entry is not removed.
    pub(crate) fn new_index(&self, index: u32) -> Option<u32>
        ensures { result ≡ new_index self.now index }
    {
        let entry = self.entry_at(index);
        match entry.fate {
            Fate::Kept | Fate::Changed => Some(entry.index),
            Fate::Removed => None,
        }
    }

    /// The new index, if the entry is neither removed nor changed.
    pub(crate) fn kept_index(&self, index: u32) -> Option<u32>
        ensures { result ≡ kept_index self.now index }
    {
        let entry = self.entry_at(index);
        match entry.fate {
            Fate::Kept => Some(entry.index),
            Fate::Changed | Fate::Removed => None,
        }
    }
}
