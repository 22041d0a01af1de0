//! Laws of types. Each function does nothing: its contract is the law.

ghost use Rattle.std.specs.Prelude.{◌≡◌, ◌↔◌, ℕ, true, List, None};
ghost use Rattle.smith_format.specs.Clear.{IsClear};
ghost use Rattle.smith_syntax.specs.Entries.{Signature, Entry, function, CoreEntry};
ghost use Rattle.smith_syntax.specs.Grammar.{valtype, maybe_valtype, entry, core_entry, named_extern};
ghost use Rattle.smith_syntax.specs.Shown.{shown_type};
ghost use Rattle.smith_syntax.specs.HasSignature.{has_signature};
ghost use Rattle.smith_syntax.specs.SameSignature.{same_signature};
ghost use Rattle.smith_syntax.specs.TooLong.{EntryTooLong, CoreEntryTooLong, ExternTooLong};
ghost use Rattle.smith_syntax.specs.declared.deftype.ComponentTypeRef.{ComponentTypeRef};
ghost use Rattle.smith_syntax.specs.declared.deftype.DefType.{DefType};

/// Two function types compare as equal exactly if their signatures are the same, and a type has a signature exactly if
/// it is shown as the function of it.
pub fn signatures_are_told()
    ensures equal { (a b : Signature) → (same_signature a b ≡ true) ↔ (a ≡ b) }
    ensures shown { (s : Signature) (t : DefType) → (has_signature s t ≡ true) ↔ (shown_type t ≡ function s) }
{}

/// No encoding of a type is a prefix of another, and two readings are one, whatever follows them. The same holds for
/// value types, core types, and imports.
pub fn types_are_clear()
    ensures types { IsClear entry }
    ensures value_types { IsClear valtype }
    ensures missing { IsClear maybe_valtype }
    ensures core_types { IsClear core_entry }
    ensures imports { IsClear (λ (i : List ℕ × ComponentTypeRef). named_extern i.0 i.1) }
{}

/// A type whose names are UTF-8 has no encoding exactly if a count, the length of a name or an index in it exceeds
/// 4,294,967,295. The same holds for core types, whose bounds of limits are numbers of 64 bits, and for imports.
pub fn long_types_have_no_encoding()
    ensures types { (e : Entry) → (entry e ≡ None) ↔ EntryTooLong e }
    ensures core_types { (e : CoreEntry) → (core_entry e ≡ None) ↔ CoreEntryTooLong e }
    ensures imports { (name : List ℕ) (r : ComponentTypeRef) → (named_extern name r ≡ None) ↔ ExternTooLong name r }
{}
