//! Whether the parts of a core module agree with one another.

ghost use Rattle.std.specs.Prelude.{◌<◌, ◌≤◌, ◌↔◌, length, IsTrue};
ghost use Rattle.std.specs.List.{AllByRecursion};
ghost use Rattle.smith_core.specs.Parts.{Agree, AgreesWith, NamesTable, Tiles};

use crate::module::parts::ModuleParts;
use crate::module::segments::{ElementKind, ElementSegment, Elements};
use smith_format::RefType;

// Whether the groups hold that many types, each once and in order.
fn groups_tile(groups: &[(usize, usize)], count: usize) -> bool
    ensures { IsTrue result ↔ Tiles groups.now 0 count }
{
    let mut next = 0;
    for (start, end) in groups {
        if *start != next || end < start {
            return false;
        }
        next = *end;
    }
    next == count
}

// Whether each global that is defined is one of that many.
fn globals_are_there(defined: &[(u32, Vec<u8>)], count: usize) -> bool
    ensures { IsTrue result ↔ AllByRecursion (λ g. g.0 < count) defined.now }
{
    for (index, _) in defined {
        if *index as usize >= count {
            return false;
        }
    }
    true
}

impl ElementSegment {
    // A segment of functions, and one that names no table, is of function references.
    fn agrees(&self) -> bool
        ensures { IsTrue result ↔ (AgreesWith self.now.items self.now.ty × NamesTable self.now.kind self.now.ty) }
    {
        let of_functions = matches!(self.items, Elements::Functions(_));
        let unnamed = matches!(self.kind, ElementKind::Active { table: None, .. });
        self.ty == RefType::FuncRef || !(of_functions || unnamed)
    }
}

fn elements_agree(segments: &[ElementSegment]) -> bool
    ensures { IsTrue result ↔ (AllByRecursion (λ e. AgreesWith e.items e.ty) segments.now
        × AllByRecursion (λ e. NamesTable e.kind e.ty) segments.now) }
{
    for segment in segments {
        if !segment.agrees() {
            return false;
        }
    }
    true
}

impl ModuleParts {
    // Whether no more functions, tables, memories and tags are defined than there are.
    fn defines_what_is_there(&self) -> bool
        ensures { IsTrue result
            ↔ ((self.now.num_defined_funcs ≤ length self.now.funcs.items)
            × (length self.now.defined_tables.items ≤ length self.now.tables.items)
            × (self.now.num_defined_memories ≤ length self.now.memories.items)
            × (self.now.num_defined_tags ≤ length self.now.tags.items)) }
    {
        self.num_defined_funcs <= self.funcs.len()
            && self.defined_tables.len() <= self.tables.len()
            && self.num_defined_memories <= self.memories.len()
            && self.num_defined_tags <= self.tags.len()
    }

    // Whether the parts agree with one another.
    pub(super) fn agree(&self) -> bool
        ensures { IsTrue result ↔ Agree self.now }
    {
        self.defines_what_is_there()
            && groups_tile(&self.rec_groups, self.types.len())
            && globals_are_there(&self.defined_globals, self.globals.len())
            && elements_agree(&self.elems)
    }
}
