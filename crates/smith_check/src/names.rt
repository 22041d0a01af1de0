//! Names: their form, and that no two of them are the same.

ghost use Rattle.std.specs.Prelude.{◌≡◌, ◌⊎◌, ℕ, true, false, List, [], ◌∷◌, ◌++◌, map, bytes_eq, MatchOption, OnOk};
ghost use Rattle.std.specs.List.{IsDistinct, list_any};
ghost use Rattle.smith_input.specs.Kebab.{IsDigit, IsLetter, Kebab};
ghost use Rattle.smith_syntax.specs.Labels.{IsCapital, IsLabel};
ghost use Rattle.smith_syntax.specs.Possible.{PossibleName, PossibleNames, is_mark};
ghost use Rattle.smith_syntax.specs.WellFormed.{Named};
ghost use Rattle.smith_check.specs.Fragments.{Goes};
ghost use Rattle.smith_check.specs.Judges.{Decides, Grades, Judges};
ghost use Rattle.smith_check.specs.declared.names.Fragment.TheVariants.{Capital, Next, Small};
ghost use Rattle.smith_check.specs.Taken.{Holds, Knows};

use crate::error::{Checked, Rule, Stop};
use smith_input::Labelled;
use std::alloc::Global;
use std::collections::BTreeSet;

fn is_letter(byte: u8) -> bool
    ensures { Decides result (IsLetter byte) }
{
    b'a' <= byte && byte <= b'z'
}

fn is_capital(byte: u8) -> bool
    ensures { Decides result (IsCapital byte) }
{
    b'A' <= byte && byte <= b'Z'
}

fn is_digit(byte: u8) -> bool
    ensures { Decides result (IsDigit byte) }
{
    b'0' <= byte && byte <= b'9'
}

// May it be in a word?
fn is_of_word(byte: u8) -> bool
    ensures { Decides result (IsLetter byte ⊎ IsDigit byte) }
{
    is_letter(byte) || is_digit(byte)
}

// May it be in an acronym?
fn is_of_acronym(byte: u8) -> bool
    ensures { Decides result (IsCapital byte ⊎ IsDigit byte) }
{
    is_capital(byte) || is_digit(byte)
}

// Is it a letter, a digit or a hyphen?
fn is_inside(byte: u8) -> bool
    ensures { Decides result ((IsLetter byte ⊎ IsDigit byte) ⊎ (byte ≡ 45)) }
{
    is_of_word(byte) || byte == b'-'
}

// May that byte be next, at the beginning of a word or within it?
fn fits(begins: bool, byte: u8) -> bool
    ensures begun { begins ≡ true → Decides result (IsLetter byte) }
    ensures inside { begins ≡ false → Decides result ((IsLetter byte ⊎ IsDigit byte) ⊎ (byte ≡ 45)) }
{
    if begins {
        is_letter(byte)
    } else {
        is_inside(byte)
    }
}

// Is it in kebab case?
fn is_kebab(name: &str) -> bool
    ensures { Decides result (Kebab name.now) }
{
    let mut begins = true;
    for byte in name.as_bytes() {
        if !fits(begins, *byte) {
            return false;
        }
        begins = *byte == b'-';
    }
    !begins
}

/// Where in a label a byte is.
#[derive(Clone, Copy)]
pub(crate) enum Fragment {
    /// At the beginning.
    First,
    /// At the beginning of another fragment.
    Next,
    /// After digits, which both cases may follow.
    Digits,
    /// In small letters.
    Small,
    /// In capitals.
    Capital,
}

// Where the next byte is after a letter that begins the letters of a fragment.
fn after_letter(byte: u8) -> Option<Fragment>
    ensures { (cs : List ℕ) → (IsLetter byte × Goes Small cs) ⊎ (IsCapital byte × Goes Capital cs)
        → MatchOption result ⊥ (λ next. Goes next cs) }
{
    if is_letter(byte) {
        Some(Fragment::Small)
    } else if is_capital(byte) {
        Some(Fragment::Capital)
    } else {
        None
    }
}

// Where the next byte is after a hyphen.
fn after_hyphen(byte: u8) -> Option<Fragment>
    ensures { (cs : List ℕ) → (byte ≡ 45) × Goes Next cs → MatchOption result ⊥ (λ next. Goes next cs) }
{
    if byte == b'-' {
        Some(Fragment::Next)
    } else {
        None
    }
}

// Where the next byte of a label is, if this one may be here.
fn after(at: Fragment, byte: u8) -> Option<Fragment>
    ensures { (cs : List ℕ) → Goes at (byte ∷ cs) → MatchOption result ⊥ (λ next. Goes next cs) }
{
    match at {
        Fragment::First => after_letter(byte),
        Fragment::Next => if is_digit(byte) {
            Some(Fragment::Digits)
        } else {
            after_letter(byte)
        },
        Fragment::Digits => if is_digit(byte) {
            Some(Fragment::Digits)
        } else if byte == b'-' {
            Some(Fragment::Next)
        } else {
            after_letter(byte)
        },
        Fragment::Small => if is_of_word(byte) {
            Some(Fragment::Small)
        } else {
            after_hyphen(byte)
        },
        Fragment::Capital => if is_of_acronym(byte) {
            Some(Fragment::Capital)
        } else {
            after_hyphen(byte)
        },
    }
}

// May it be a label of either case? What is refused is none.
fn is_label(name: &str) -> bool
    ensures { result ≡ false → ¬ IsLabel name.now }
{
    let mut at = Fragment::First;
    for byte in name.as_bytes() {
        let Some(next) = after(at, *byte) else {
            return false;
        };
        at = next;
    }
    !matches!(at, Fragment::First | Fragment::Next)
}

// Has it a byte that names of interfaces, URLs and hashes have, but no label?
fn has_mark(name: &str) -> bool
    ensures { result ≡ list_any is_mark name.now }
{
    for byte in name.as_bytes() {
        if matches!(*byte, b':' | b'[' | b'=' | b'/') {
            return true;
        }
    }
    false
}

// Checks the form of a name, which is one of an import or an export if `is_extern`.
fn check_name(name: &str, is_extern: bool) -> Checked
    ensures judged { Judges result (Kebab name.now) }
    ensures graded { Grades result (PossibleName is_extern name.now) }
{
    if is_kebab(name) {
        return Ok(());
    }
    if is_label(name) || (is_extern && has_mark(name)) {
        return Err(Stop::Outside(Rule::Kebab));
    }
    Err(Stop::IllFormed(Rule::Kebab))
}

/// The names before a place.
#[derive(Drop)]
pub(crate) struct Names<'a> {
    pub(crate) set: BTreeSet<&'a str>,
}

impl<'a> Names<'a> {
    pub(crate) fn new(alloc: Global) -> Names<'a>
        ensures { Knows result [] }
    {
        Names {
            set: BTreeSet::new(alloc),
        }
    }

    /// Adds a name, which has to be new.
    pub(crate) fn add_new(&mut self, name: &'a str) -> Checked
        ensures judged { (before : List (List ℕ)) → Holds self.old before → IsDistinct bytes_eq before
            → Judges result (IsDistinct bytes_eq (before ++ name.now ∷ [])) }
        ensures added { (before : List (List ℕ)) → Holds self.old before
            → OnOk result (Holds self.new (before ++ name.now ∷ [])) }
    {
        if self.set.insert(name)? {
            Ok(())
        } else {
            Err(Stop::IllFormed(Rule::NameTwice))
        }
    }

    /// Adds a name, which has to be in kebab case and new. It is one of an import or an export if `is_extern`.
    pub(crate) fn add(&mut self, name: &'a str, is_extern: bool) -> Checked
        ensures judged { (before : List (List ℕ)) → Knows self.old before
            → Judges result (Named (before ++ name.now ∷ [])) }
        ensures graded { (before : List (List ℕ)) → Knows self.old before
            → Grades result (PossibleNames is_extern (before ++ name.now ∷ [])) }
        ensures added { (before : List (List ℕ)) → Knows self.old before
            → OnOk result (Knows self.new (before ++ name.now ∷ [])) }
    {
        check_name(name, is_extern)?;
        self.add_new(name)
    }
}

/// Checks the names of the members of one type.
pub(crate) fn check_names<T: Labelled>(alloc: Global, items: &[T]) -> Checked
    ensures judged { Judges result (Named (map T.text items.now)) }
    ensures graded { Grades result (PossibleNames false (map T.text items.now)) }
{
    let mut names = Names::new(alloc);
    for item in items {
        names.add(item.label(), false)?;
    }
    Ok(())
}
