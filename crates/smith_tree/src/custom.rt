//! How custom sections are read from an input.

ghost use Rattle.std.specs.Prelude.{◌≡◌, ◌≤◌, ◌++◌, ℕ, List, length, IfOk, IfErr, string_bytes, IsUtf8};
ghost use Rattle.smith_input.specs.Reading.{IsTail};
ghost use Rattle.smith_input.specs.Script.{script_bytes, script_text};
ghost use Rattle.smith_tree.specs.ReadsCustom.{ReadsCustom};

use crate::entries::CustomSection;
use smith_input::{Error, Unstructured, arbitrary_bytes, limited_string};
use std::alloc::Global;

impl CustomSection {
    /// A text of at most 1000 bytes as the name, and then any bytes. It fails only when out of memory.
    #[inline(always)]
    pub fn arbitrary(alloc: Global, u: &mut Unstructured) -> Result<CustomSection, Error>
        ensures read { IfOk result (λ s. ReadsCustom u.old (string_bytes s.name) s.bytes.items u.new) }
        // The script of a custom section produces that section.
        ensures script { (name bytes rest : List ℕ) → IsUtf8 name → length name ≤ 1000
            → u.old ≡ (script_text 1000 name ++ script_bytes bytes) ++ rest
            → IfOk result (λ s. (string_bytes s.name ≡ name) × (s.bytes.items ≡ bytes) × (u.new ≡ rest)) }
        ensures memory { IfErr result (λ e. e ≡ Error.OutOfMemory) }
        ensures tail { IsTail u.new u.old }
    {
        let name = limited_string(alloc, 1000, u)?;
        let bytes = arbitrary_bytes(alloc, u)?;
        Ok(CustomSection { name, bytes })
    }
}
