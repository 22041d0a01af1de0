//! Laws of verdicts. Each function does nothing: its contract is the law.

ghost use Rattle.std.specs.Prelude.{◌≡◌, ◌≤◌, ℕ, List, true};
ghost use Rattle.smith_format.specs.Consistency.{IsConsistent};
ghost use Rattle.smith_format.specs.declared.config.Config.{Config};
ghost use Rattle.smith_tree.specs.Depths.{scope_depth};
ghost use Rattle.smith_tree.specs.Grammar.{Spells};
ghost use Rattle.smith_tree.specs.Readable.{CanBeGenerated};
ghost use Rattle.smith_tree.specs.Tree.{Tree};
ghost use Rattle.smith_read.specs.Reads.{most_depth};
ghost use Rattle.smith_verdict.specs.Answers.{IsAnswer, IsSound};
ghost use Rattle.smith_verdict.specs.Validities.{IsValidity};
ghost use Rattle.smith_verdict.specs.Verdicts.{IsVerdict};

use crate::answers::Answer;
use crate::validity::Validity;
use crate::verdict::Verdict;

/// The bytes of a component that can be generated, such as `generate` returns, are found well formed.
#[tactic(auto, using(crate::proofs::WellFormed::found_formed))]
pub fn generated_components_are_well_formed()
    ensures { (config : Config) (tree : Tree) (bytes : List ℕ) (found : Verdict) → IsConsistent config
        → CanBeGenerated config tree → Spells tree bytes → IsVerdict bytes found → found ≡ Verdict.WellFormed }
{}

/// If components must validate, the bytes of one that can be generated, such as `generate` returns, are found valid.
#[tactic(auto, using(crate::proofs::WellFormed::found_valid))]
pub fn generated_components_are_valid()
    ensures { (config : Config) (tree : Tree) (bytes : List ℕ) (found : Validity) → config.must_validate ≡ true
        → IsConsistent config → CanBeGenerated config tree → Spells tree bytes → IsValidity bytes found
        → found ≡ Validity.Valid }
{}

/// If components must validate, the bytes of one that can be generated, such as `generate` returns, are answered to be
/// valid.
#[tactic(auto, using(crate::proofs::Generated::found_answered))]
pub fn generated_components_are_answered_valid()
    ensures { (config : Config) (tree : Tree) (bytes : List ℕ) (found : Answer) → config.must_validate ≡ true
        → IsConsistent config → CanBeGenerated config tree → Spells tree bytes → IsAnswer bytes found
        → found ≡ Answer.Valid }
{}

/// The bytes of a sound component are answered to be valid: no other answer holds of them, if scopes are at most
/// `MOST_DEPTH` of `smith_read` deep.
#[tactic(auto, using(crate::proofs::Answered::sound_law))]
pub fn sound_components_are_valid()
    ensures { (tree : Tree) (bytes : List ℕ) (found : Answer) → Spells tree bytes → scope_depth tree ≤ most_depth
        → IsSound tree → IsAnswer bytes found → found ≡ Answer.Valid }
{}
