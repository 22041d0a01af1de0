//! Laws of validity, each about components that differ as little as possible. Each function does nothing: its contract
//! is the law.

ghost use Rattle.std.specs.Prelude.{◌≡◌, ◌↔◌, ◌≤◌, ℕ, List, Some};
ghost use Rattle.smith_tree.specs.Examples.{imports_function_of_enum, has_function_of_enum, imports_function_of_tuple};
ghost use Rattle.smith_tree.specs.Examples.{imports_function_of_named_enum, exports_function_of_named_enum};
ghost use Rattle.smith_tree.specs.Examples.{exports_function_of_unnamed_enum, exports_function_of_aliased_enum};
ghost use Rattle.smith_tree.specs.Examples.{imports_instance, names_instance_type, names_type_of_exported_instance};
ghost use Rattle.smith_tree.specs.Examples.{exports_instance, names_record_of_enum, names_enum};
ghost use Rattle.smith_core.specs.Preamble.{core_preamble};
ghost use Rattle.smith_format.specs.Piece.{◌⊕◌, bytes, sized, u};
ghost use Rattle.smith_tree.specs.Tree.{Tree};
ghost use Rattle.smith_tree.specs.CoreModules.{HasFewMemories};
ghost use Rattle.smith_tree.specs.Demands.{Demands};
ghost use Rattle.smith_tree.specs.Validates.{ValidTree, Validates};

/// What validates meets the demands that are asked, whichever they are.
#[tactic(auto, using(crate::proofs::Weaker::weaker_tree))]
pub fn any_demands_are_met()
    ensures { (demands : Demands) (tree : Tree) → Validates tree → ValidTree demands tree }
{}

/// A core module of a memory section alone has few memories exactly if it counts at most 100.
#[tactic(auto, using(crate::proofs::CoreModules::memories_counted))]
pub fn memories_of_core_modules_are_counted()
    ensures { (count : ℕ) (memories text : List ℕ)
        → bytes core_preamble ⊕ sized 5 (u count ⊕ bytes memories) ≡ Some text
        → HasFewMemories text ↔ (count ≤ 100) }
{}

/// A function of an enum without a name may be declared, and not imported.
pub fn functions_of_unnamed_enums_are_not_imported()
    ensures imported { ¬ Validates imports_function_of_enum }
    ensures declared { Validates has_function_of_enum }
{}

/// Lists and tuples have no names of their own: what they are made of has to be named.
pub fn tuples_need_what_they_are_made_of()
    ensures { ¬ Validates imports_function_of_tuple }
{}

/// A type that is exported is named for exports, only under its new index.
pub fn exports_name_the_new_type()
    ensures named { Validates exports_function_of_named_enum }
    ensures declared { ¬ Validates exports_function_of_unnamed_enum }
{}

/// What an export names is not named for imports.
pub fn imports_need_what_imports_name()
    ensures { ¬ Validates imports_function_of_named_enum }
{}

/// What is named in a component type is not named in a component type within it.
pub fn names_do_not_reach_inwards()
    ensures { ¬ Validates exports_function_of_aliased_enum }
{}

/// An instance names for itself what its type exports.
pub fn instances_name_their_own_types()
    ensures imported { Validates imports_instance }
    ensures exported { Validates exports_instance }
{}

/// The type of an instance names nothing: what it refers to has to be named before it is exported, as an instance does.
pub fn types_of_instances_name_nothing()
    ensures before { ¬ Validates names_instance_type }
    ensures after { Validates names_type_of_exported_instance }
{}

/// A record is exported only if what it is made of is named; an enum is made of nothing.
pub fn records_need_their_fields()
    ensures record { ¬ Validates names_record_of_enum }
    ensures labels { Validates names_enum }
{}
