//! Components and their bytes from input.

ghost use Rattle.std.specs.Prelude.{◌≡◌, ℕ, List, ◌++◌, true, IfOk, IfErr};
ghost use Rattle.smith_format.specs.Consistency.{IsConsistent};
ghost use Rattle.smith_tree.specs.Generates.{Generates};
ghost use Rattle.smith_component.specs.Runs.{IsMade};
ghost use Rattle.smith_component.specs.Refusals.{ConsumesWithin, IsGenerateRefusal};
ghost use Rattle.smith_tree.specs.Grammar.{Spells};
ghost use Rattle.smith_tree.specs.Script.{Within, script};
ghost use Rattle.smith_tree.specs.Tree.{Tree};
ghost use Rattle.smith_tree.specs.Validates.{Validates};

use crate::component::Component;
use smith_format::Config;
use smith_input::{Error, Unstructured};
use std::alloc::Global;

/// A component, and its bytes in the binary format.
#[derive(Debug, Drop)]
pub struct Generated {
    pub component: Component,
    pub bytes: Vec<u8>,
}

/// The component that the input produces, and its bytes.
///
/// Limits that do not fit together are refused with `InconsistentLimits` before a byte is read. A component that is to
/// be finished and is missing imports or functions of a minimum, though what can be filled is, is refused with
/// `MinimumNotMet`; one that is to have a core module when the limits on memories leave none, with `ModuleRefused`; one
/// with a written length or count that exceeds 4,294,967,295, with `TooLong`. Otherwise it fails only when out of
/// memory.
pub fn generate(alloc: Global, config: Config, u: &mut Unstructured) -> Result<Generated, Error>
    // The bytes have one reading, the component, which is well formed and within the limits.
    ensures generated { IfOk result (λ g. Generates config g.component g.bytes.items) }

    // A run of turns over the input leads to the component and leaves the rest, and it can be generated. By `reach` and
    // `answers`, exactly the ones that have bytes are generated. Each component of it has at least `finish_after`
    // sections, but for the ones that may be open when the input ends.
    ensures made { IfOk result (λ g. IsMade config u.old g.component u.new) }

    // An input that begins with the script of a plan produces the plan's bytes, and leaves what is after it.
    ensures reach { (plan : Tree) (rest : List ℕ) → Within config plan → u.old ≡ script config plan ++ rest
        → IfOk result (λ g. (g.component ≡ plan) × Spells plan g.bytes.items × (u.new ≡ rest)) }

    // It is returned, unless memory runs out.
    ensures answers { (plan : Tree) (rest : List ℕ) → IsConsistent config → Within config plan
        → u.old ≡ script config plan ++ rest → IfErr result (λ e. e ≡ Error.OutOfMemory) }

    // If components must validate, it does.
    ensures validates { config.must_validate ≡ true → IfOk result (λ g. Validates g.component) }

    // Only limits that fit together are accepted, and with others nothing is read. A refusal leaves a tail of the input
    // too, and is decided, allocation failure aside.
    ensures input { ConsumesWithin config IsGenerateRefusal result u.old u.new }
{
    let component = Component::new(alloc, config, u)?;
    let bytes = component.written(alloc)?;
    Ok(Generated { component, bytes })
}
