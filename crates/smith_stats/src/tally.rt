//! The counts.

use crate::combination::{Around, Combination};
use crate::combining::combinations;
use smith_read::{ComponentTree, Steps};
use std::alloc::{AllocError, Global};
use std::collections::BTreeMap;
use std::fmt;

/// How many things there are of each sort, by its name.
pub type Counts = BTreeMap<&'static str, usize>;

// Where a combination is.
#[derive(Clone, Copy)]
struct Reached {
    // How many files have it.
    files: usize,
    // The number of the first one, from 0.
    first: usize,
}

/// How much there is in the components of files.
#[derive(Drop)]
pub struct Tally {
    alloc: Global,
    files: usize,
    unread: usize,
    bytes: usize,
    pub(crate) components: usize,
    pub(crate) depth: usize,
    pub(crate) entries: usize,
    pub(crate) types: Counts,
    // The things, by what they are in.
    within: BTreeMap<&'static str, Counts>,
    reached: BTreeMap<Combination, Reached>,
}

/// The counts that are not by sort.
#[derive(Clone, Copy)]
pub struct Totals {
    pub files: usize,
    pub unread: usize,
    pub bytes: usize,
    pub components: usize,
    pub depth: usize,
    pub entries: usize,
    pub shapes: usize,
    pub combinations: usize,
}

pub(crate) fn increase(count: &mut usize, by: usize) {
    *count = count.saturating_add(by);
}

impl Tally {
    /// Nothing so far.
    pub fn new(alloc: Global) -> Tally {
        Tally {
            alloc,
            files: 0,
            unread: 0,
            bytes: 0,
            components: 0,
            depth: 0,
            entries: 0,
            types: BTreeMap::new(alloc),
            within: BTreeMap::new(alloc),
            reached: BTreeMap::new(alloc),
        }
    }

    /// Adds a file that is not a component.
    pub fn add_unread(&mut self) {
        increase(&mut self.unread, 1);
    }

    /// Adds a file of that many bytes, and all that is in its component.
    pub fn add(&mut self, bytes: usize, component: &ComponentTree) -> Result<(), AllocError> {
        self.add_combinations(component)?;
        increase(&mut self.files, 1);
        increase(&mut self.bytes, bytes);
        self.add_steps(Steps::new(self.alloc, component))
    }

    // Adds the combinations of the file whose number is that of the files so far.
    fn add_combinations(&mut self, component: &ComponentTree) -> Result<(), AllocError> {
        let first = self.files.saturating_add(self.unread);
        for combination in &combinations(self.alloc, component)? {
            let none = Reached { files: 0, first };
            let reached = self.reached.entry(*combination)?.or_insert(none);
            increase(&mut reached.files, 1);
        }
        Ok(())
    }

    /// Adds that many things of that sort.
    pub(crate) fn add_many(
        &mut self,
        within: &'static str,
        sort: &'static str,
        count: usize,
    ) -> Result<(), AllocError> {
        let none = BTreeMap::new(self.alloc);
        let counts = self.within.entry(within)?.or_insert(none);
        increase(counts.entry(sort)?.or_insert(0), count);
        Ok(())
    }

    /// Adds one thing of that sort.
    pub(crate) fn add_one(
        &mut self,
        within: &'static str,
        sort: &'static str,
    ) -> Result<(), AllocError> {
        self.add_many(within, sort, 1)
    }

    // How many sorts there are, each in one thing.
    fn shapes(&self) -> usize {
        let mut shapes = 0;
        for counts in self.within.values() {
            increase(&mut shapes, counts.len());
        }
        shapes
    }

    /// The counts that are not by sort.
    pub fn totals(&self) -> Totals {
        Totals {
            files: self.files,
            unread: self.unread,
            bytes: self.bytes,
            components: self.components,
            depth: self.depth,
            entries: self.entries,
            shapes: self.shapes(),
            combinations: self.reached.len(),
        }
    }

    /// How many types there are of each sort.
    pub fn types(&self) -> &Counts {
        &self.types
    }

    /// How many things there are of each sort, by what they are in.
    pub fn within(&self) -> &BTreeMap<&'static str, Counts> {
        &self.within
    }
}

impl Totals {
    // The counts with their names.
    fn named(&self) -> [(&'static str, usize); 8] {
        [
            ("files", self.files),
            ("unread", self.unread),
            ("bytes", self.bytes),
            ("components", self.components),
            ("depth", self.depth),
            ("entries", self.entries),
            ("shapes", self.shapes),
            ("combinations", self.combinations),
        ]
    }
}

// A line for each count.
fn show_counts<W: fmt::Write>(f: &mut fmt::Formatter<W>, counts: &Counts) -> fmt::Result {
    for (sort, count) in counts {
        writeln!(f, "{count:>10}  {sort}")?;
    }
    Ok(())
}

impl fmt::Display for Tally {
    fn fmt<W: fmt::Write>(&self, f: &mut fmt::Formatter<W>) -> fmt::Result {
        for (name, count) in self.totals().named() {
            writeln!(f, "{count:>10}  {name}")?;
        }
        writeln!(f, "types")?;
        show_counts(f, &self.types)?;
        for (within, counts) in &self.within {
            writeln!(f, "in {within}")?;
            show_counts(f, counts)?;
        }
        Ok(())
    }
}

// What precedes what a thing is in, if that is in a type.
fn path_to(around: Around) -> &'static str {
    match around {
        Around::Component => "",
        Around::ComponentType => "ComponentType/",
        Around::InstanceType => "InstanceType/",
    }
}

/// The combinations, each with the number of files that have it and the name of the first of them.
#[derive(Clone, Copy)]
pub struct Listed<'a> {
    pub tally: &'a Tally,
    /// The names of the files, in the order in which they were added.
    pub names: &'a [String],
}

impl fmt::Display for Listed<'_> {
    fn fmt<W: fmt::Write>(&self, f: &mut fmt::Formatter<W>) -> fmt::Result {
        for (combination, reached) in &self.tally.reached {
            let Combination {
                within,
                around,
                part,
                sort,
                origin,
                chain,
            } = *combination;
            let files = reached.files;
            let path = path_to(around);
            let name = self
                .names
                .get(reached.first)
                .map_or("", |name| name.as_str());
            writeln!(
                f,
                "{files:>10}  {path}{within:?} {part:?} {sort:?} {origin:?} {chain:?}  {name}"
            )?;
        }
        Ok(())
    }
}
