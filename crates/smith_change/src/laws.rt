//! Laws of the changes. Each function does nothing: its contract is the law.

ghost use Rattle.std.specs.Prelude.{◌≡◌, ◌≤◌, ◌⊎◌, ℕ, List, None, Some};
ghost use Rattle.std.specs.Str.{IsUtf8};
ghost use Rattle.smith_format.specs.TooLong.{IsTooLarge, MemoryTypeTooLong, TableTypeTooLong};
ghost use Rattle.smith_format.specs.declared.types.MemoryType.{MemoryType};
ghost use Rattle.smith_format.specs.declared.types.TableType.{TableType};
ghost use Rattle.smith_syntax.specs.TooLong.{ComponentValTooLong};
ghost use Rattle.smith_syntax.specs.declared.types.ComponentValType.{ComponentValType};
ghost use Rattle.smith_tree.specs.Grammar.{Spells};
ghost use Rattle.smith_tree.specs.TooLong.{TreeTooLong};
ghost use Rattle.smith_tree.specs.Tree.{Tree};
ghost use Rattle.smith_change.specs.Alternatives.{index_alternative, memory_alternative, name_alternative};
ghost use Rattle.smith_change.specs.Alternatives.{table_alternative, value_alternative};
ghost use Rattle.smith_change.specs.Changes.{changed, changes};
ghost use Rattle.smith_change.specs.Differs.{DiffersInOneList, DiffersInOneToken, IsModuleChange};
ghost use Rattle.smith_change.specs.Parts.{module_changed};

/// From the number of changes on, no number leads to anything.
#[tactic(auto, using(crate::proofs::Beyond::changed_beyond))]
pub fn numbers_beyond_lead_to_nothing()
    ensures { (k : ℕ) (t : Tree) → changes t ≤ k → changed k t ≡ None }
{}

/// What a change leads to is another component.
#[tactic(auto, using(crate::proofs::Others::leads_to_other))]
pub fn changes_lead_to_others()
    ensures { (k : ℕ) (t r : Tree) → changed k t ≡ Some r → ¬ (t ≡ r) }
{}

/// It differs in one token, or by one edit of one list.
#[tactic(auto, using(crate::proofs::Others::one_or_list))]
pub fn changes_are_of_one_token_or_list()
    ensures { (k : ℕ) (t r : Tree) → changed k t ≡ Some r → DiffersInOneToken t r ⊎ DiffersInOneList t r }
{}

/// It has an encoding, unless a count, the length of a name or of a section, or an index in it is too great for one.
#[tactic(auto, using(crate::proofs::Others::spelled_or_too_long))]
pub fn changes_are_spelled_or_too_long()
    ensures { (k : ℕ) (t r : Tree) (b : List ℕ) → changed k t ≡ Some r → Spells t b
        → ((c : List ℕ) × Spells r c) ⊎ TreeTooLong r }
{}

/// The alternatives of an index, a value type, limits or a name that has an encoding have one too: a number is too
/// great only if it was before, and a name is UTF-8. So what a change leads to is too long only by its counts and
/// lengths.
#[tactic(auto, using(crate::proofs::Grammatical::alternatives))]
pub fn alternatives_are_of_the_grammar()
    ensures indexes { (a i j : ℕ) → index_alternative a i ≡ Some j → IsTooLarge j → IsTooLarge i }
    ensures values { (a : ℕ) (v w : ComponentValType) → value_alternative a v ≡ Some w
        → ComponentValTooLong w → ComponentValTooLong v }
    ensures memories { (a : ℕ) (m n : MemoryType) → memory_alternative a m ≡ Some n
        → MemoryTypeTooLong n → MemoryTypeTooLong m }
    ensures tables { (a : ℕ) (t u : TableType) → table_alternative a t ≡ Some u
        → TableTypeTooLong u → TableTypeTooLong t }
    ensures names { (a : ℕ) (n m : List ℕ) → name_alternative a n ≡ Some m → IsUtf8 n → IsUtf8 m }
{}

/// A core module with one of its places changed differs in one token, or by one edit of one list, of its two sections.
#[tactic(auto, using(crate::proofs::Others::modules_differ))]
pub fn changes_of_modules_are_of_one_token_or_list()
    ensures { (a k : ℕ) (text new : List ℕ) → module_changed a k text ≡ Some new → IsModuleChange text new }
{}
