//! Laws of the edits. Each function does nothing: its contract is the law.

ghost use Rattle.std.specs.Prelude.{◌≡◌, ◌<◌, ◌≤◌, ◌⊎◌, ℕ, List, None, Some, length, true};
ghost use Rattle.smith_format.specs.declared.config.Config.{Config};
ghost use Rattle.smith_syntax.specs.Entries.{Case, CoreEntry, Decl, Entry, Field, ImportEntry, ModuleDecl};
ghost use Rattle.smith_syntax.specs.declared.types.ComponentValType.{ComponentValType};
ghost use Rattle.smith_tree.specs.Grammar.{Spells};
ghost use Rattle.smith_tree.specs.Tree.{Canon, ExportEntry, Tree, ends};
ghost use Rattle.smith_tree.specs.WellFormed.{WellFormed};
ghost use Rattle.smith_edit.specs.Edited.{after_canon, after_core, after_decl, after_export, after_import};
ghost use Rattle.smith_edit.specs.Edited.{after_module_decl, after_type, canon_edited, case_edited, core_row};
ghost use Rattle.smith_edit.specs.Edited.{decl_edited, entry_edited, export_edited, field_edited, import_edited};
ghost use Rattle.smith_edit.specs.Edited.{module_decl_edited, optional_edited, value_edited};
ghost use Rattle.smith_edit.specs.Counts.{KeepsMaxima};
ghost use Rattle.smith_edit.specs.Edits.{joined, without, without_items};
ghost use Rattle.smith_edit.specs.Goes.{CanonGoes, DeclGoes, EntryGoes, IsCaseGone, IsGone, IsRefGone, IsValueGone};
ghost use Rattle.smith_edit.specs.Goes.{ModuleDeclGoes};
ghost use Rattle.smith_edit.specs.Items.{tree_items};
ghost use Rattle.smith_edit.specs.Remains.{IsLeftWithout};
ghost use Rattle.smith_edit.specs.Removal.{inside, past, removes};
ghost use Rattle.smith_edit.specs.Renumbering.{Renumbering, entry_at, with_entry};
ghost use Rattle.smith_edit.specs.Simpler.{component_at, simplified};
ghost use Rattle.smith_edit.specs.Walk.{Walk};
ghost use Rattle.smith_edit.specs.declared.walk.Removal.{Removal};
ghost use Rattle.smith_edit.specs.declared.walk.Removal.TheVariants.{Everything, Items};
ghost use Rattle.smith_edit.specs.declared.renumbering.Fate.{Fate};
ghost use Rattle.smith_edit.specs.declared.walk.Scope.{Scope};

/// A component without an item has fewer items.
#[tactic(auto, using(crate::proofs::EditedSize::without_fewer))]
pub fn items_are_fewer()
    ensures { (k : ℕ) (tree less : Tree) → without k tree ≡ Some less → tree_items less < tree_items tree }
{}

/// A component without an item has the other items, in their order, each as it was but for its indexes and for what is
/// inside it. One that is not left is removed with the item, or goes with what it refers to, or with its last member.
#[tactic(auto, using(crate::proofs::Remains::other_items_left))]
pub fn other_items_remain()
    ensures { (k : ℕ) (tree less : Tree) → without k tree ≡ Some less → IsLeftWithout k tree less }
{}

/// Of the items from the first on, the k-th alone is removed, and all that is inside it: what is inside an item, or
/// after it, is all removed only if the item is, or all that it is inside.
#[tactic(auto, using(crate::proofs::Past::removed))]
pub fn one_item_is_removed()
    ensures one { (k n : ℕ) → removes (past n (Items k k)) ≡ true → k ≡ n }
    ensures inside { (r : Removal) → inside r ≡ Everything → removes r ≡ true }
    ensures after { (n : ℕ) (r : Removal) → past n r ≡ Everything → r ≡ Everything }
{}

/// An entry of a section that is not removed goes only with what it refers to, or, if it is a type of values, with its
/// last member. A core type never goes so.
#[tactic(auto, using(crate::proofs::Remains::goes))]
pub fn entries_go_with_what_they_refer_to()
    ensures core_types { (w : Walk) (t : CoreEntry) → ¬ (core_row w t ≡ None) }
    ensures types { (e : Entry) (w : Walk) → entry_edited e w ≡ None → EntryGoes w e }
    ensures imports { (w : Walk) (i : ImportEntry) → import_edited w i ≡ None → IsRefGone w.own i.to }
    ensures exports { (w : Walk) (e : ExportEntry) → export_edited w e ≡ None → IsGone w.own.functions e.func }
    ensures canons { (w : Walk) (f : Canon) → canon_edited w f ≡ None → CanonGoes w f }
{}

/// So does a declaration.
#[tactic(auto, using(crate::proofs::Remains::goes))]
pub fn declarations_go_with_what_they_refer_to()
    ensures declarations { (d : Decl) (w : Walk) → decl_edited d w ≡ None → DeclGoes w d }
    ensures module_declarations { (d : ModuleDecl) (w : Walk) → module_decl_edited w d ≡ None → ModuleDeclGoes w d }
{}

/// A member that is not removed goes only with its type.
pub fn members_go_with_their_types()
    ensures values { (s : Renumbering) (v : ComponentValType) → value_edited s v ≡ None → IsValueGone s v }
    ensures fields { (s : Renumbering) (f : Field) → field_edited s f ≡ None → IsValueGone s f.1 }
    ensures cases { (s : Renumbering) (c : Case) → case_edited s c ≡ None → IsCaseGone s c }
    ensures results { (s : Renumbering) (r : Removal) (v : ComponentValType) → optional_edited s r (Some v) ≡ None
        → (removes r ≡ true) ⊎ IsValueGone s v }
{}

/// An entry of a section that is left is not gone for what refers to it, and stays so.
#[tactic(auto, using(crate::proofs::Told::told))]
pub fn what_is_left_is_not_gone()
    ensures types { (s : Scope) (e new : Entry)
        → ¬ IsGone (after_type s e (Some new)).types (length s.types.entries) }
    ensures core_types { (s : Scope) (t new : CoreEntry)
        → ¬ IsGone (after_core s t (Some new)).core_types (length s.core_types.entries) }
    ensures imports { (w : Walk) (i new : ImportEntry) → import_edited w i ≡ Some new
        → ¬ IsGone (after_import w.own i (Some new)).functions (length w.own.functions.entries) }
    ensures exports { (w : Walk) (e new : ExportEntry) → export_edited w e ≡ Some new
        → ¬ IsGone (after_export w.own e (Some new)).functions (length w.own.functions.entries) }
    ensures canons { (s : Scope) (f new : Canon) → let after = after_canon s f (Some new) in
        (¬ IsGone after.functions (length s.functions.entries))
        × (¬ IsGone after.core_functions (length s.core_functions.entries)) }
    ensures before { (s : Renumbering) (f : Fate) (i : ℕ) → i < length s.entries
        → entry_at (with_entry s f) i ≡ entry_at s i }
{}

/// Nor is a declaration that is left.
#[tactic(auto, using(crate::proofs::Told::told))]
pub fn declarations_left_are_not_gone()
    ensures declarations { (s : Scope) (d new : Decl) → let after = after_decl s d (Some new) in
        (¬ IsGone after.types (length s.types.entries))
        × (¬ IsGone after.core_types (length s.core_types.entries)) }
    ensures module_declarations { (s : Scope) (d new : ModuleDecl)
        → ¬ IsGone (after_module_decl s d (Some new)).core_types (length s.core_types.entries) }
{}

/// A component without an item has no more bytes, if the component has an encoding.
#[tactic(auto, using(crate::proofs::EditedSize::without_shorter))]
pub fn bytes_are_no_more()
    ensures { (k : ℕ) (tree less : Tree) (bytes : List ℕ) → without k tree ≡ Some less → Spells tree bytes
        → (fewer : List ℕ) × Spells less fewer × (length fewer ≤ length bytes) }
{}

/// If a component keeps its maxima without one item, it keeps them without several, that one among them.
pub fn counts_are_no_more_without_more()
    ensures { (config : Config) (low k high : ℕ) (tree less : Tree) → low ≤ k → k ≤ high → without k tree ≡ Some less
        → KeepsMaxima config less → KeepsMaxima config (without_items low high tree) }
{}

/// A component keeps its maxima if it keeps them with an item made simpler that is not a component.
pub fn counts_stay_with_simpler_items()
    ensures { (config : Config) (k : ℕ) (tree simpler : Tree) → component_at k tree ≡ None
        → simplified k tree ≡ Some simpler → KeepsMaxima config simpler → KeepsMaxima config tree }
{}

/// A component with an item made simpler has no more items.
#[tactic(auto, using(crate::proofs::SimplerSize::simplified_fewer))]
pub fn items_are_no_more()
    ensures { (k : ℕ) (tree simpler : Tree) → simplified k tree ≡ Some simpler → tree_items simpler ≤ tree_items tree }
{}

/// A component with an item made simpler has no more bytes, if the component has an encoding.
#[tactic(auto, using(crate::proofs::SimplerSize::simplified_shorter))]
pub fn simpler_bytes_are_no_more()
    ensures { (k : ℕ) (tree simpler : Tree) (bytes : List ℕ) → simplified k tree ≡ Some simpler → Spells tree bytes
        → (fewer : List ℕ) × Spells simpler fewer × (length fewer ≤ length bytes) }
{}

/// A component joined with one that has no sections is itself.
#[tactic(auto, using(crate::proofs::Joining::joined_alone))]
pub fn nothing_is_added()
    ensures { (tree : Tree) → joined tree ends ≡ tree }
{}

/// A component without an item is well formed, if the component is.
#[tactic(auto, using(crate::proofs::FormedTrees::without_formed))]
pub fn components_stay_well_formed()
    ensures { (k : ℕ) (tree less : Tree) → without k tree ≡ Some less → WellFormed tree → WellFormed less }
{}

/// Two components that are well formed are joined to one that is.
#[tactic(auto, using(crate::proofs::Joining::joined_formed))]
pub fn joined_components_are_well_formed()
    ensures { (left right : Tree) → WellFormed left → WellFormed right → WellFormed (joined left right) }
{}
