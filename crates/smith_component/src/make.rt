//! Components from input.

ghost use Rattle.std.specs.Prelude.{◌≡◌, ℕ, List, ◌+◌, ◌≤◌, ◌++◌, true, IfOk, IfErr};
ghost use Rattle.smith_input.specs.Consumes.{Consumes};
ghost use Rattle.smith_format.specs.Consistency.{IsConsistent, IsDefault};
ghost use Rattle.smith_component.specs.Runs.{IsMade, RunsTo};
ghost use Rattle.smith_tree.specs.Limits.{Limits, Sized};
ghost use Rattle.smith_component.specs.Refusals.{ConsumesWithin, IsRefusal};
ghost use Rattle.smith_tree.specs.Script.{Within, script};
ghost use Rattle.smith_tree.specs.Tree.{Tree};
ghost use Rattle.smith_tree.specs.WellFormed.{WellFormed};
ghost use Rattle.smith_tree.specs.Validates.{Validates};
ghost use Rattle.smith_format.specs.declared.config.Config.{Config};

use crate::builder::Progress;
use crate::component::Component;
use smith_format::Config;
use smith_input::{Error, Unstructured};
use std::alloc::Global;

impl Component {
    /// The component that the input produces, turn by turn: a run of turns from one empty open component, of at most as
    /// many as the input has bytes and components may nest. Limits that do not fit together are refused with
    /// `InconsistentLimits` before a byte is read, and a component that is to be finished and is missing imports or
    /// functions of a minimum with `MinimumNotMet`. If a core module is chosen, and the limits on memories leave none,
    /// that is `ModuleRefused`. Otherwise it fails only when out of memory.
    pub fn new(alloc: Global, config: Config, u: &mut Unstructured) -> Result<Component, Error>
        ensures made { IfOk result (λ c. IsMade config u.old c u.new) }
        ensures reach { (plan : Tree) (rest : List ℕ) → Within config plan → u.old ≡ script config plan ++ rest
            → IfOk result (λ c. (c ≡ plan) × (u.new ≡ rest)) }
        // It is returned, unless memory runs out.
        ensures answers { (plan : Tree) (rest : List ℕ) → IsConsistent config → Within config plan
            → u.old ≡ script config plan ++ rest → IfErr result (λ e. e ≡ Error.OutOfMemory) }
        // If components must validate, it does.
        ensures validates { config.must_validate ≡ true → IfOk result (λ c. Validates c) }
        // If no import and no function is required, and the limits on memories do not cross, it fails only when out of
        // memory.
        ensures acceptance { IsConsistent config → config.min_imports ≡ 0 → config.min_funcs ≡ 0
            → config.min_memories ≤ config.max_memories → IfErr result (λ e. e ≡ Error.OutOfMemory) }
        // Only limits that fit together are accepted, and with others nothing is read.
        ensures input { ConsumesWithin config IsRefusal result u.old u.new }
    {
        config.check()?;
        let mut progress = Progress::new(alloc, config);
        progress.run(u)
    }

    /// The component that the input produces within the default limits. It fails only when out of memory.
    pub fn arbitrary(alloc: Global, u: &mut Unstructured) -> Result<Component, Error>
        ensures limits { IfOk result (λ c. (config : Config) → IsDefault config → Limits config c) }
        ensures formed { IfOk result (λ c. WellFormed c) }
        ensures sizes { IfOk result (λ c. (config : Config) → IsDefault config → Sized config c) }
        ensures run { IfOk result (λ c. (config : Config) → IsDefault config → RunsTo config u.old c u.new) }
        ensures reach { (config : Config) (plan : Tree) (rest : List ℕ) → IsDefault config → Within config plan
            → u.old ≡ script config plan ++ rest → IfOk result (λ c. (c ≡ plan) × (u.new ≡ rest)) }
        ensures input { Consumes result u.old u.new }
    {
        Component::new(alloc, Config::default(), u)
    }
}
