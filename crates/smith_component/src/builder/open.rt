//! A component that is not finished yet.

ghost use Rattle.std.specs.Prelude.{◌≡◌, ◌≤◌, ◌∷◌, ◌++◌, [], OnOk};
ghost use Rattle.smith_component.specs.Shown.{shown_section, shown_sections};
ghost use Rattle.smith_component.specs.Tables.{IsTabled};
ghost use Rattle.smith_tree.specs.Tree.{add};

use crate::builder::tables::Tables;
use crate::component::Section;
use std::alloc::{AllocError, Global};

// How many sections there is room for at first, in 952 bytes: few components have more, a list that grows is copied,
// and when a block is to have more than 1,000 bytes, `malloc` may merge all that are free.
const FIRST_SECTIONS: usize = 17;

// The same in a component after many others, in 224 bytes: a mebibyte of input has room for half a million components.
const FEW_SECTIONS: usize = 4;

// How many components are not many.
const EARLY_COMPONENTS: usize = 1000;

/// A component that is not finished yet, with how deep components nest in it, and what is kept beside its sections.
#[derive(Drop)]
pub(crate) struct OpenComponent {
    pub(crate) sections: Vec<Section>,
    pub(super) height: u32,
    pub(super) is_early: bool,
    pub(super) tables: Tables,
}

impl OpenComponent {
    // An empty one, after that many other components of the tree.
    pub(crate) fn new(alloc: Global, earlier: usize) -> OpenComponent
        ensures items { result.sections.items ≡ [] }
        ensures tabled { IsTabled result }
    {
        OpenComponent {
            sections: Vec::new(alloc),
            height: 0,
            is_early: earlier < EARLY_COMPONENTS,
            tables: Tables::new(alloc),
        }
    }

    // For how many more sections to make room.
    fn more_room(&self) -> usize
        ensures { 1 ≤ result }
    {
        if !self.sections.is_empty() {
            1
        } else if self.is_early {
            FIRST_SECTIONS
        } else {
            FEW_SECTIONS
        }
    }

    // Adds a section at the end. It is inlined, so that the section is made where it stays.
    #[inline(always)]
    #[tactic(auto, using(crate::proofs::SectionValues::shown_push))]
    pub(crate) fn push(&mut self, section: Section) -> Result<(), AllocError>
        ensures items { OnOk result (self.new.sections.items ≡ self.old.sections.items ++ section ∷ []) }
        ensures ok { OnOk result (shown_sections self.new.sections.items
            ≡ add (shown_sections self.old.sections.items) (shown_section section)) }
        ensures tables { self.new.tables ≡ self.old.tables }
    {
        let more = self.more_room();
        self.sections.reserve(more)?;
        self.height = self.height.max(section.height());
        self.sections.push_reserved(section);
        Ok(())
    }
}
