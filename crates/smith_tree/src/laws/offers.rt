//! Laws of what is offered. Each function does nothing: its contract is the law.

ghost use Rattle.std.specs.Prelude.{◌≡◌, ◌≤◌, Bool, List, false, true};
ghost use Rattle.smith_format.specs.Consistency.{IsConsistent};
ghost use Rattle.smith_format.specs.declared.config.Config.{Config};
ghost use Rattle.smith_syntax.specs.CoreLimits.{CoreLimits};
ghost use Rattle.smith_syntax.specs.Entries.{CoreEntry, Decl};
ghost use Rattle.smith_syntax.specs.Marks.{small_size};
ghost use Rattle.smith_syntax.specs.Sizes.{module_type_size};
ghost use Rattle.smith_tree.specs.Offered.{IsOffered};
ghost use Rattle.smith_tree.specs.Tree.{Tree};
ghost use Rattle.smith_tree.specs.Unmarked.{KeepsNothing};
ghost use Rattle.smith_syntax.specs.Marked.{Marked, empty_marked, marked_after, scope_in, scopes_in_marked};
ghost use Rattle.smith_syntax.specs.Places.{places};
ghost use Rattle.smith_syntax.specs.Scope.{after_decl, is_component, is_defined, is_func, is_instance};
ghost use Rattle.smith_syntax.specs.Usable.{value_places};
ghost use Rattle.smith_tree.specs.Marking.{marked_inner};
ghost use Rattle.smith_tree.specs.Open.{is_finish_offered};
ghost use Rattle.smith_tree.specs.Readable.{AreFinishable, CanBeGenerated};
ghost use Rattle.smith_tree.specs.TypeOffers.{has_room, ref_places};
ghost use Rattle.smith_tree.specs.WellFormed.{scope_of};
ghost use Rattle.smith_tree.specs.declared.choices.RefKind.TheVariants.{Component as RefComponent, Func as RefFunc};
ghost use Rattle.smith_tree.specs.declared.choices.RefKind.TheVariants.{Instance as RefInstance, TypeEq as RefTypeEq};
ghost use Rattle.smith_tree.specs.Demands.{everything};
ghost use Rattle.smith_tree.specs.Examples.{imports_function_of_enum, has_function_of_enum};
ghost use Rattle.smith_tree.specs.Examples.{exports_function_of_named_enum, imports_function_of_named_enum};
ghost use Rattle.smith_tree.specs.Examples.{exports_function_of_aliased_enum, names_record_of_enum, names_enum};
ghost use Rattle.smith_tree.specs.Examples.{imports_instance, exports_instance, names_instance_type};
ghost use Rattle.smith_tree.specs.Examples.{names_type_of_exported_instance};
ghost use Rattle.smith_tree.specs.Sizes.{ValidCore};
ghost use Rattle.smith_tree.specs.Validates.{Validates};
ghost use Rattle.std.specs.List.{AllByRecursion};

/// If components must validate, every component that can be generated does: each type, import and export of it was
/// offered.
#[tactic(auto, using(crate::proofs::Components::valid_tree))]
pub fn offered_components_validate()
    ensures { (config : Config) (tree : Tree) → config.must_validate ≡ true
        → IsConsistent config → CanBeGenerated config tree → Validates tree }
{}

/// A core type within the limits is valid if those before it are within them, and every module type is small.
#[tactic(auto, using(crate::proofs::OfferedCores::small_core, crate::proofs::OfferedCores::valid_core))]
pub fn core_types_are_offered()
    ensures valid { (config : Config) (around : List CoreEntry) (e : CoreEntry)
        → AllByRecursion (CoreLimits config) around
        → CoreLimits config e → ValidCore everything around e }
    ensures small { (config : Config) (around : List CoreEntry) (e : CoreEntry)
        → AllByRecursion (CoreLimits config) around
        → CoreLimits config e → module_type_size around e ≤ small_size }
{}

/// A function of an enum without a name may be declared, and is not offered for an import.
pub fn functions_of_unnamed_enums_are_not_offered()
    ensures imported { (config : Config) → config.must_validate ≡ true → ¬ IsOffered config imports_function_of_enum }
    ensures declared { (config : Config) → config.must_validate ≡ true → IsOffered config has_function_of_enum }
{}

/// A function of an enum that an export names is offered for an export, and not for an import.
pub fn functions_of_named_enums_are_offered_for_exports()
    ensures exported { (config : Config) → config.must_validate ≡ true
        → IsOffered config exports_function_of_named_enum }
    ensures imported { (config : Config) → config.must_validate ≡ true
        → ¬ IsOffered config imports_function_of_named_enum }
{}

/// What is named in a component type is not named in a component type within it.
pub fn marks_do_not_reach_inwards()
    ensures { (config : Config) → config.must_validate ≡ true → ¬ IsOffered config exports_function_of_aliased_enum }
{}

/// A record of an enum without a name is not offered for a name of its own; the enum is.
pub fn records_of_unnamed_enums_are_not_offered()
    ensures record { (config : Config) → config.must_validate ≡ true → ¬ IsOffered config names_record_of_enum }
    ensures labels { (config : Config) → config.must_validate ≡ true → IsOffered config names_enum }
{}

/// Instances that name their own enum are offered for imports and exports. Their type is not offered for a name, not
/// even if it would be valid because an instance of it was exported.
pub fn instances_that_name_their_own_are_offered()
    ensures imported { (config : Config) → config.must_validate ≡ true → IsOffered config imports_instance }
    ensures exported { (config : Config) → config.must_validate ≡ true → IsOffered config exports_instance }
    ensures equal { (config : Config) → config.must_validate ≡ true → ¬ IsOffered config names_instance_type }
    ensures equal_after { (config : Config) → config.must_validate ≡ true
        → ¬ IsOffered config names_type_of_exported_instance }
{}

/// If components need not validate, everything is offered.
#[tactic(auto, using(crate::proofs::Everything::everything_offered))]
pub fn everything_is_offered()
    ensures { (config : Config) (tree : Tree) → config.must_validate ≡ false → IsOffered config tree }
{}

/// Nothing is kept for a validator of components that need not validate, nor of types within them.
pub fn nothing_is_kept()
    ensures components { (config : Config) (outer : List Tree) (inner : Tree) → config.must_validate ≡ false
        → KeepsNothing (marked_inner config outer inner) }
    ensures opened { (own : Marked) → KeepsNothing own → KeepsNothing (empty_marked own.keeps) }
    ensures declared { (d : Decl) (outer : List Marked) (own : Marked) → KeepsNothing own
        → KeepsNothing (marked_after d outer own) }
{}

/// Whatever is kept, a scope has the same types and core types as without it.
#[tactic(auto, using(crate::proofs::Marking::scope_marked, crate::proofs::Unmarked::scope_after))]
pub fn scopes_are_kept_whole()
    ensures components { (config : Config) (outer : List Tree) (inner : Tree)
        → scope_in (marked_inner config outer inner) ≡ scope_of inner }
    ensures declared { (d : Decl) (outer : List Marked) (own : Marked)
        → scope_in (marked_after d outer own) ≡ after_decl (scopes_in_marked outer) (scope_in own) d }
{}

/// If nothing is kept for a validator, a choice is among all types of a kind, and there is always room for an import or
/// an export.
pub fn all_of_a_kind_are_offered()
    ensures values { (own : Marked) → KeepsNothing own → value_places own ≡ places is_defined 0 own.types }
    ensures functions { (own : Marked) (for_import : Bool) → KeepsNothing own
        → ref_places own for_import RefFunc ≡ places is_func 0 own.types }
    ensures types { (own : Marked) (for_import : Bool) → KeepsNothing own
        → ref_places own for_import RefTypeEq ≡ places (λ t. true) 0 own.types }
    ensures components { (own : Marked) (for_import : Bool) → KeepsNothing own
        → ref_places own for_import RefComponent ≡ places is_component 0 own.types }
    ensures instances { (own : Marked) (for_import : Bool) → KeepsNothing own
        → ref_places own for_import RefInstance ≡ places is_instance 0 own.types }
    ensures room { (own : Marked) (for_type_def : Bool) → KeepsNothing own → has_room own for_type_def ≡ true }
{}

/// If no number of sections is asked of finished components, any component may be finished.
#[tactic(auto, using(crate::proofs::Everything::components_finishable, crate::proofs::Everything::finish_offered))]
pub fn any_component_may_be_finished()
    ensures finishable { (config : Config) (tree : Tree) → config.finish_after ≡ 0 → AreFinishable config tree }
    ensures offered { (config : Config) (tree : Tree) → config.finish_after ≡ 0
        → is_finish_offered config tree ≡ true }
{}
