//! Laws of trees. Each function does nothing: its contract is the law.

ghost use Rattle.std.specs.Prelude.{◌≡◌, ◌+◌, ◌≤◌, ◌↔◌, ℕ, List, None};
ghost use Rattle.smith_format.specs.declared.config.Config.{Config};
ghost use Rattle.smith_syntax.specs.Entries.{CoreEntry, Entry};
ghost use Rattle.smith_syntax.specs.WellFormed.{core_size, size};
ghost use Rattle.smith_tree.specs.CoreTypeNeeds.{core_need};
ghost use Rattle.smith_tree.specs.Depths.{scope_depth};
ghost use Rattle.smith_tree.specs.Grammar.{Spells, component_text};
ghost use Rattle.smith_tree.specs.Limits.{Maxima, max_depth};
ghost use Rattle.smith_tree.specs.Possible.{Possible};
ghost use Rattle.smith_tree.specs.TooLong.{TreeTooLong};
ghost use Rattle.smith_tree.specs.Tree.{Tree};
ghost use Rattle.smith_tree.specs.WellFormed.{WellFormed};
ghost use Rattle.smith_tree.specs.TypeNeeds.{need};

pub mod offers;
pub mod validity;

/// What is well formed is possible: the standard asks no more.
#[tactic(auto, using(crate::proofs::Possible::formed_possible))]
pub fn formed_components_are_possible()
    ensures { (t : Tree) → WellFormed t → Possible t }
{}

/// No bytes have two readings.
#[tactic(auto, using(crate::proofs::Clear::spells_law))]
pub fn one_reading()
    ensures { (t r : Tree) (b : List ℕ) → Spells t b → Spells r b → t ≡ r }
{}

/// A component has no bytes exactly if a count, the length of a name or of a section, or an index in it is greater than
/// 4,294,967,295, or a module in it has no bytes itself. As in the program, its names are UTF-8, its bytes are bytes,
/// and its bounds of limits are numbers of 64 bits.
#[tactic(auto, using(crate::proofs::TooLong::component_none))]
pub fn long_components_have_no_encoding()
    ensures { (t : Tree) → (component_text t ≡ None) ↔ TreeTooLong t }
{}

/// The scopes of component types and instance types are at most one deeper than components may be.
#[tactic(auto, using(crate::proofs::Depths::scopes_within))]
pub fn scopes_are_within()
    ensures { (config : Config) (tree : Tree) → Maxima config tree → scope_depth tree ≤ max_depth config + 1 }
{}

/// No type is larger than the fuel that it needs.
#[tactic(auto, using(crate::proofs::TypeNeeds::core_sizes, crate::proofs::TypeNeeds::type_sizes))]
pub fn sizes_are_needed()
    ensures types { (e : Entry) → size e ≤ need e }
    ensures core_types { (t : CoreEntry) → core_size t ≤ core_need t }
{}
