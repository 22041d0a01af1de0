//! The sections of a core module (core specification, Binary Format, Modules).

ghost use Rattle.std.specs.Prelude.{◌≡◌, Some, slice_get};
ghost use Rattle.smith_core.specs.Module.{section_id, is_written};
ghost use Rattle.smith_core.specs.SectionPlaces.{section_place};
ghost use Rattle.smith_core.specs.declared.module.sections.SectionKind.{SectionKind};

use crate::module::parts::ModuleParts;

/// What a section of a module holds.
#[derive(Debug, Clone, Copy, PartialEq, Eq)]
pub enum SectionKind {
    Types,
    Imports,
    Functions,
    Tables,
    Memories,
    Tags,
    Globals,
    Exports,
    Start,
    Elements,
    DataCount,
    Code,
    Data,
}

// The sections in the order in which a module has them.
pub(super) static BINARY_ORDER: [SectionKind; 13] = [
    SectionKind::Types,
    SectionKind::Imports,
    SectionKind::Functions,
    SectionKind::Tables,
    SectionKind::Memories,
    SectionKind::Tags,
    SectionKind::Globals,
    SectionKind::Exports,
    SectionKind::Start,
    SectionKind::Elements,
    SectionKind::DataCount,
    SectionKind::Code,
    SectionKind::Data,
];

impl SectionKind {
    // The byte that a section begins with.
    pub(super) fn id(self) -> u8
        ensures { result ≡ section_id self }
    {
        match self {
            SectionKind::Types => 1,
            SectionKind::Imports => 2,
            SectionKind::Functions => 3,
            SectionKind::Tables => 4,
            SectionKind::Memories => 5,
            SectionKind::Tags => 13,
            SectionKind::Globals => 6,
            SectionKind::Exports => 7,
            SectionKind::Start => 8,
            SectionKind::Elements => 9,
            SectionKind::DataCount => 12,
            SectionKind::Code => 10,
            SectionKind::Data => 11,
        }
    }
}

impl ModuleParts {
    // Whether a section is written. It is inlined, so that a known kind costs no choice.
    #[inline(always)]
    fn has_section(&self, kind: SectionKind) -> bool
        ensures { result ≡ is_written self.now kind }
    {
        match kind {
            SectionKind::Types => self.should_encode_types,
            SectionKind::Imports => self.should_encode_imports,
            SectionKind::Functions => self.num_defined_funcs > 0,
            SectionKind::Tables => !self.defined_tables.is_empty(),
            SectionKind::Memories => self.num_defined_memories > 0,
            SectionKind::Tags => self.num_defined_tags > 0,
            SectionKind::Globals => !self.globals.is_empty(),
            SectionKind::Exports => !self.exports.is_empty(),
            SectionKind::Start => self.start.is_some(),
            SectionKind::Elements => !self.elems.is_empty(),
            SectionKind::DataCount => self.bulk_memory_enabled && !self.data_segments.is_empty(),
            SectionKind::Code => !self.code.is_empty(),
            SectionKind::Data => !self.data_segments.is_empty(),
        }
    }

    // Whether each section is written, in the order in which a module has them.
    pub(super) fn written(&self) -> [bool; 13]
        ensures { (kind : SectionKind) → slice_get result (section_place kind) ≡ Some (is_written self.now kind) }
    {
        [
            self.has_section(SectionKind::Types),
            self.has_section(SectionKind::Imports),
            self.has_section(SectionKind::Functions),
            self.has_section(SectionKind::Tables),
            self.has_section(SectionKind::Memories),
            self.has_section(SectionKind::Tags),
            self.has_section(SectionKind::Globals),
            self.has_section(SectionKind::Exports),
            self.has_section(SectionKind::Start),
            self.has_section(SectionKind::Elements),
            self.has_section(SectionKind::DataCount),
            self.has_section(SectionKind::Code),
            self.has_section(SectionKind::Data),
        ]
    }
}
