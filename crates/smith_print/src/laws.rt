//! Laws of what is printed. Each function does nothing: its contract is the law.

ghost use Rattle.std.specs.Prelude.{◌≡◌, ◌<◌, ℕ, List, Some, ◌++◌, get_or, length};
ghost use Rattle.std.specs.List.{AllByRecursion};
ghost use Rattle.smith_syntax.specs.declared.types.PrimitiveValType.{PrimitiveValType};
ghost use Rattle.smith_tree.specs.Grammar.{Spells};
ghost use Rattle.smith_tree.specs.Tree.{Tree};
ghost use Rattle.smith_read.specs.Items.{items};
ghost use Rattle.smith_read.specs.Places.{offset_in};
ghost use Rattle.smith_print.specs.Alone.{alone};
ghost use Rattle.smith_print.specs.Components.{text_of};
ghost use Rattle.smith_print.specs.Offsets.{offsets_of};
ghost use Rattle.smith_print.specs.Values.{primitive_text};
ghost use Rattle.smith_print.specs.Words.{quoted};

/// The offsets are one for each item, each the one that `smith_read` finds.
#[tactic(auto, using(crate::proofs::Offsetting::offsets_are))]
pub fn offsets_are_those_of_items()
    ensures { (component : Tree) (bytes : List ℕ) → Spells component bytes
        → (length (offsets_of component) ≡ items component)
        × ((item : ℕ) → item < items component
        → offset_in item component ≡ Some (get_or (offsets_of component) item 0)) }
{}

/// Texts that begin with a string begin with no other, and go on with the same.
#[tactic(auto, using(crate::proofs::Apart::strings_apart))]
pub fn strings_are_told_apart()
    ensures { (a b x y : List ℕ) → AllByRecursion (λ c. c < 256) a → AllByRecursion (λ c. c < 256) b
        → quoted a ++ x ≡ quoted b ++ y → (a ≡ b) × (x ≡ y) }
{}

/// No two primitive types have one word.
#[tactic(auto, using(crate::proofs::Apart::primitives_apart))]
pub fn primitive_types_are_told_apart()
    ensures { (a b : PrimitiveValType) → primitive_text a ≡ primitive_text b → a ≡ b }
{}

/// Components with one text are equal, but for where their sections begin and end: with each entry in a section of its
/// own. That is in no text.
#[tactic(auto, using(crate::proofs::ToldParts::components_apart, crate::proofs::Boundaries::boundaries_unsaid))]
pub fn components_are_told_apart()
    ensures told { (a b : Tree) (x y text : List ℕ) → Spells a x → Spells b y
        → text_of a ≡ Some text → text_of b ≡ Some text → alone a ≡ alone b }
    ensures boundaries { (component : Tree) → text_of (alone component) ≡ text_of component }
{}
