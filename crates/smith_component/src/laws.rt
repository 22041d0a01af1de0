//! Laws of components. Each function does nothing: its contract is the law.

ghost use Rattle.std.specs.Prelude.{◌≡◌, ◌≤◌, ◌↔◌, ◌⊎◌, ◌++◌, ℕ, List, [], true};
ghost use Rattle.smith_core.specs.Module.{module_text};
ghost use Rattle.smith_core.specs.Parts.{Agree};
ghost use Rattle.smith_core.specs.TooLong.{ModuleTooLong};
ghost use Rattle.smith_core.specs.declared.module.parts.ModuleParts.{ModuleParts};
ghost use Rattle.smith_format.specs.Consistency.{IsConsistent};
ghost use Rattle.smith_format.specs.TooLong.{ContentsTooLong};
ghost use Rattle.smith_format.specs.declared.config.Config.{Config};
ghost use Rattle.smith_input.specs.Reading.{IsDecided, IsReadAs, IsTail};
ghost use Rattle.smith_input.specs.Script.{AreBytes};
ghost use Rattle.smith_input.specs.declared.error.Error.{Error};
ghost use Rattle.smith_input.specs.declared.error.Error.TheVariants.{OutOfMemory};
ghost use Rattle.smith_tree.specs.Grammar.{Spells};
ghost use Rattle.smith_component.specs.Refusals.{IsGenerateRefusal};
ghost use Rattle.smith_tree.specs.Limits.{Minima};
ghost use Rattle.smith_tree.specs.Open.{Open, is_component_offered};
ghost use Rattle.smith_tree.specs.Script.{Continues, Within, item_of, script, script_item, script_part};
ghost use Rattle.smith_component.specs.Shown.{shown_module};
ghost use Rattle.smith_tree.specs.TooLong.{PartTooLong};
ghost use Rattle.smith_tree.specs.Tree.{Part, Tree, core_module};
ghost use Rattle.smith_component.specs.Turn.{Closes, Next, Turn, with_open, with_part};
ghost use Rattle.smith_component.specs.Wider.{AreWider};
ghost use Rattle.smith_tree.specs.Readable.{AreFinishable, CanBeGenerated, IsFinishable};
ghost use Rattle.smith_component.specs.ButLast.{AreFinishableButLast};
ghost use Rattle.smith_component.specs.Ended.{AreFinishedOrOpen};
ghost use Rattle.smith_component.specs.Runs.{IsFollowed, RunsTo};
ghost use Rattle.smith_tree.specs.declared.choices.Item.TheVariants.{Component as ItemComponent, Finish};

/// A section with a core module whose parts agree has no bytes exactly if the module has none, or has more than
/// 4,294,967,295.
pub fn long_modules_make_long_sections()
    ensures { (m : ModuleParts) → Agree m
        → PartTooLong (core_module (shown_module m)) ↔ (ModuleTooLong m ⊎ ContentsTooLong (module_text m)) }
{}

/// The limits and the input alone decide which component a run leads to, and what is left.
pub fn runs_are_decided()
    ensures { (config : Config) → IsDecided (RunsTo config) }
{}

/// A run over any input leads to a component that is well formed, within the limits and within what its types may need,
/// that can be read, and all of whose types, imports and exports were offered.
pub fn runs_are_sound()
    ensures { (config : Config) (input : List ℕ) (tree : Tree) (left : List ℕ) → IsConsistent config
        → RunsTo config input tree left → CanBeGenerated config tree }
{}

/// If a run leaves input, or no number of sections is asked of components that are finished, each component of what it
/// leads to has that number.
pub fn followed_runs_finish_components()
    ensures { (config : Config) (input : List ℕ) (tree : Tree) (left : List ℕ) → IsFollowed config left
        → RunsTo config input tree left → AreFinishable config tree }
{}

/// Whatever a run leaves, each component of what it leads to has that number but for the ones that may be open when the
/// input ends: the root, the last component in it, the last component in that, and so on.
pub fn runs_finish_all_but_the_last_components()
    ensures { (config : Config) (input : List ℕ) (tree : Tree) (left : List ℕ) → RunsTo config input tree left
        → AreFinishableButLast config tree }
{}

/// The script of a plan, followed by any bytes, leads to that plan, and leaves those bytes.
#[tactic(auto, using(crate::proofs::Plans::script_runs))]
pub fn plans_are_read()
    ensures { (config : Config) (plan : Tree) → IsConsistent config → Within config plan
        → IsReadAs (RunsTo config) (script config plan) plan }
{}

/// The script of a plan is bytes.
#[tactic(auto, using(crate::proofs::ScriptBytes::plan_bytes))]
pub fn scripts_are_bytes()
    ensures { (config : Config) (plan : Tree) → IsConsistent config → Within config plan
        → AreBytes (script config plan) }
{}

/// A component that has bytes is produced by some input that is followed by more, or by any input if no number of
/// sections is asked of components that are finished, exactly if it is well formed, within the limits, readable and of
/// that number of sections, and all its types, imports and exports are offered.
pub fn components_are_exact()
    ensures { (config : Config) (tree : Tree) (b : List ℕ) → IsConsistent config → Spells tree b
        → ((input left : List ℕ) × AreBytes input × IsFollowed config left × RunsTo config input tree left)
        ↔ (CanBeGenerated config tree × AreFinishable config tree) }
{}

/// When no minimum is asked, a component that has bytes is produced by some input of which nothing is left exactly if
/// it can be generated and only components of it that may have been open when the input ended have fewer sections than
/// are asked of finished ones: the root, the component that is its last section, the component that is the last section
/// of that, and so on. Whatever the minima, each of these is produced so, and each component of it has as many sections
/// as are asked but for the root, the last component in it, the last in that, and so on.
pub fn components_of_inputs_that_end_are_exact()
    ensures exact { (config : Config) (tree : Tree) (b : List ℕ) → IsConsistent config → config.min_types ≡ 0
        → config.min_imports ≡ 0 → config.min_funcs ≡ 0 → Spells tree b
        → ((input : List ℕ) × AreBytes input × RunsTo config input tree [])
        ↔ (CanBeGenerated config tree × AreFinishedOrOpen config tree) }
    ensures generated { (config : Config) (tree : Tree) (b : List ℕ) → IsConsistent config → Spells tree b
        → CanBeGenerated config tree → AreFinishedOrOpen config tree
        → (input : List ℕ) × AreBytes input × RunsTo config input tree [] }
    ensures but_last { (config : Config) (tree : Tree) → AreFinishedOrOpen config tree
        → AreFinishableButLast config tree }
{}

/// Wider limits generate no less: what can be generated within some limits can be within wider ones; and if no more
/// sections are asked of components that are finished, it also has as many as are asked then, and a plan is a plan.
pub fn wider_limits_generate_no_less()
    ensures generated { (wide narrow : Config) (tree : Tree) → AreWider wide narrow → CanBeGenerated narrow tree
        → CanBeGenerated wide tree }
    ensures finished { (wide narrow : Config) (tree : Tree) → wide.finish_after ≤ narrow.finish_after
        → AreFinishable narrow tree → AreFinishable wide tree }
    ensures plans { (wide narrow : Config) (plan : Tree) → AreWider wide narrow
        → wide.finish_after ≤ narrow.finish_after → Within narrow plan → Within wide plan }
{}

/// If a run leads to a component that has bytes, nothing is refused, except when out of memory.
pub fn answers_are_not_refused()
    ensures { (config : Config) (input : List ℕ) (tree : Tree) (left b : List ℕ) → IsConsistent config
        → RunsTo config input tree left → Spells tree b
        → (e : Error) (rest : List ℕ) → IsGenerateRefusal config input e rest → e ≡ OutOfMemory }
{}

/// The limits and the input alone decide what is refused, and what is left then, allocation failure aside.
#[tactic(auto, using(crate::proofs::Reproducible::refusal_same))]
pub fn refusals_are_decided()
    ensures { (config : Config) (input : List ℕ) (d e : Error) (left rest : List ℕ)
        → IsGenerateRefusal config input d left → IsGenerateRefusal config input e rest
        → ¬ (d ≡ OutOfMemory) → ¬ (e ≡ OutOfMemory) → (d ≡ e) × (left ≡ rest) }
{}

/// The limits, what is open and the bytes alone decide what a turn leads to, and what it leaves.
pub fn turns_are_decided()
    ensures { (config : Config) (stack : Open) → IsDecided (Turn config stack) }
{}

/// A turn leaves the last ones of the bytes after its choice.
#[tactic(auto, using(crate::proofs::Turn::does_tail))]
pub fn turns_leave_a_tail()
    ensures { (config : Config) (stack : Open) (left : List ℕ) (next : Next) (rest : List ℕ)
        → (turn : Turn config stack left next rest) → IsTail rest turn.after }
{}

/// The script of a part of a plan, other than a component, is a turn that adds this part, for callers who build turn by
/// turn.
pub fn scripted_parts_are_added()
    ensures { (config : Config) (stack : Open) (p : Part) → IsConsistent config → ¬ (item_of p ≡ ItemComponent)
        → Continues config stack p
        → IsReadAs (Turn config stack)
        (script_item config stack.outer stack.inner (item_of p) ++ script_part p config stack.outer stack.inner)
        (with_part stack p) }
{}

/// If a component may be opened, the script of that choice is a turn that opens it.
#[tactic(auto, using(crate::proofs::Script::opening_turn))]
pub fn scripted_components_are_opened()
    ensures { (config : Config) (stack : Open) → is_component_offered config stack ≡ true
        → IsReadAs (Turn config stack) (script_item config stack.outer stack.inner ItemComponent) (with_open stack) }
{}

/// If the inner component meets the minima and may be finished, the script of the choice to finish is a turn that
/// closes it as it is.
#[tactic(auto, using(crate::proofs::Script::closing_turn))]
pub fn scripted_ends_are_closed()
    ensures { (config : Config) (stack : Open) (next : Next) → Minima config stack.inner
        → IsFinishable config stack.inner → Closes stack next
        → IsReadAs (Turn config stack) (script_item config stack.outer stack.inner Finish) next }
{}
