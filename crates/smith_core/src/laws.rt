//! Laws of core modules, and laws of numbers, texts, lists and core types. Each function does nothing: its contract is
//! the law.

ghost use Rattle.std.specs.Prelude.{◌≡◌, ◌↔◌, ◌++◌, ℕ, ◌<◌, List, map, Some, None};
ghost use Rattle.smith_format.specs.declared.config.Config.{Config};
ghost use Rattle.std.specs.List.{AllByRecursion};
ghost use Rattle.smith_input.specs.Script.{AreBytes};
ghost use Rattle.smith_core.specs.Module.{module_text};
ghost use Rattle.smith_core.specs.Preamble.{core_preamble};
ghost use Rattle.smith_core.specs.Parts.{Agree};
ghost use Rattle.smith_core.specs.StandIn.{ReadsStandIn};
ghost use Rattle.smith_core.specs.StandInText.{StandIn, stand_in_text};
ghost use Rattle.smith_core.specs.StandInScript.{IsStandIn, script_stand_in, stand_in_of};
ghost use Rattle.smith_core.specs.Split.{CoreSection, Splits, sections_of, present_section};
ghost use Rattle.smith_core.specs.TooLong.{ModuleTooLong};
ghost use Rattle.smith_core.specs.declared.module.parts.ModuleParts.{ModuleParts};

pub use smith_format::laws::{
    bytes_have_an_encoding, contents_are_exact, core_scripts_are_read, core_type_scripts_are_bytes,
    core_types_are_clear, core_types_are_decided, lists_are_clear,
    long_core_types_have_no_encoding, long_lists_have_no_encoding, numbers_are_clear,
    sections_are_clear, signed_numbers, texts_are_clear, too_long_has_no_encoding,
    unsigned_numbers,
};

/// The bytes of a module are split into sections in one way: the written ones, in binary order.
#[tactic(auto, using(crate::proofs::Split::split_law))]
pub fn modules_are_split_in_one_way()
    ensures { (m : ModuleParts) (b : List ℕ) → module_text m ≡ Some b → (xs : List CoreSection)
        → Splits b xs ↔ (map present_section xs ≡ sections_of m) }
{}

/// The bytes of a module are bytes, and begin with the core preamble.
#[tactic(auto, using(crate::proofs::Bytes::module_bytes, crate::proofs::Bytes::module_begins))]
pub fn modules_are_bytes()
    ensures bytes { (m : ModuleParts) (b : List ℕ) → module_text m ≡ Some b → AllByRecursion (λ n. n < 256) b }
    ensures preamble { (m : ModuleParts) (b : List ℕ) → module_text m ≡ Some b
        → (rest : List ℕ) × (b ≡ core_preamble ++ rest) }
{}

/// A module whose parts agree has no bytes exactly if a count, an index or the length of a name, of a body, of data or
/// of a section in it exceeds 4,294,967,295. As in the program, its names are UTF-8, its bytes are bytes, and its
/// bounds of limits are numbers of 64 bits.
#[tactic(auto, using(crate::proofs::TooLong::module_none))]
pub fn long_modules_have_no_encoding()
    ensures { (m : ModuleParts) → Agree m → (module_text m ≡ None) ↔ ModuleTooLong m }
{}

/// The limits and the bytes alone decide the bytes of the module that stands for a generated one, and the rest.
pub fn stand_ins_are_decided()
    ensures { (config : Config) (b : List ℕ) (m n : ModuleParts) (r q : List ℕ) → ReadsStandIn config b m r
        → ReadsStandIn config b n q → (module_text m ≡ module_text n) × (r ≡ q) }
{}

/// The bytes of a module that stands for a generated one are the bytes of function types and memories within the
/// limits.
pub fn stand_ins_are_made()
    ensures { (config : Config) (b : List ℕ) (m : ModuleParts) (rest : List ℕ) → ReadsStandIn config b m rest
        → (s : StandIn) × IsStandIn config s × (module_text m ≡ stand_in_text s) }
{}

/// From the script of function types and memories within the limits, which have bytes, a module of these bytes is read,
/// and it leaves what follows.
#[tactic(auto, using(crate::proofs::StandInRead::text_read))]
pub fn stand_ins_are_read()
    ensures { (config : Config) (s : StandIn) (b : List ℕ) → IsStandIn config s → stand_in_text s ≡ Some b
        → (rest : List ℕ)
        → (m : ModuleParts) × ReadsStandIn config (script_stand_in config s ++ rest) m rest × (module_text m ≡ Some b) }
{}

/// The script of function types and memories within the limits is bytes.
#[tactic(auto, using(crate::proofs::StandInMade::small_stand_in))]
pub fn stand_in_scripts_are_bytes()
    ensures { (config : Config) (s : StandIn) → IsStandIn config s → AreBytes (script_stand_in config s) }
{}

/// Bytes are a module that stands for a generated one, on some input, exactly if they are of function types and
/// memories within the limits.
pub fn stand_ins_are_exact()
    ensures { (config : Config) (b : List ℕ)
        → ((input rest : List ℕ) × AreBytes input × (m : ModuleParts) × ReadsStandIn config input m rest
        × (module_text m ≡ Some b))
        ↔ ((s : StandIn) × IsStandIn config s × (stand_in_text s ≡ Some b)) }
{}

/// The function types and memories that stand for a generated module are found again from their bytes.
pub fn stand_ins_are_told()
    ensures { (config : Config) (s : StandIn) (b : List ℕ) → IsStandIn config s → stand_in_text s ≡ Some b
        → stand_in_of b ≡ s }
{}
