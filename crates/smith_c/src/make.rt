//! A component's bytes, and how many bytes of the input are left.

ghost use Rattle.std.specs.Prelude.{◌≡◌, ℕ, ◌++◌, List, length, IfOk, IfErr};
ghost use Rattle.smith_format.specs.Consistency.{IsConsistent};
ghost use Rattle.smith_format.specs.declared.config.Config.{Config};
ghost use Rattle.smith_tree.specs.Grammar.{Spells};
ghost use Rattle.smith_tree.specs.Script.{Within, script};
ghost use Rattle.smith_tree.specs.Tree.{Tree};
ghost use Rattle.smith_c.specs.Limits.{limits_of};
ghost use Rattle.smith_c.specs.Makes.{Makes, Stops};
ghost use Rattle.smith_input.specs.declared.error.Error.TheVariants.{OutOfMemory};
ghost use Rattle.smith_c.specs.declared.status.Status.TheVariants.{Refused};

use crate::limits::Limits;
use crate::status::Status;
use smith_component::{Unstructured, generate};
use std::alloc::Global;

/// A component's bytes, and how many bytes of the input are left.
#[derive(Drop)]
pub struct Made {
    pub bytes: Vec<u8>,
    pub left: usize,
}

/// What `generate` returns for the input within the limits. It fails as `generate` does, and if a byte is not a flag.
pub fn make(alloc: Global, limits: &Limits, input: &[u8]) -> Result<Made, Status>
    ensures made { IfOk result (λ m. Makes limits.now input.now m.bytes.items m.left) }
    ensures stops { IfErr result (Stops limits.now input.now) }
    ensures reach { (config : Config) (plan : Tree) (rest : List ℕ) → limits.now ≡ limits_of config
        → Within config plan → input.now ≡ script config plan ++ rest
        → IfOk result (λ m. Spells plan m.bytes.items × (m.left ≡ length rest)) }
    ensures answers { (config : Config) (plan : Tree) (rest : List ℕ) → limits.now ≡ limits_of config
        → IsConsistent config → Within config plan → input.now ≡ script config plan ++ rest
        → IfErr result (λ s. s ≡ Refused OutOfMemory) }
{
    let Some(config) = limits.config() else {
        return Err(Status::BadFlag);
    };
    let mut u = Unstructured::new(input);
    let generated = generate(alloc, config, &mut u)?;
    Ok(Made {
        bytes: generated.bytes,
        left: u.left().len(),
    })
}
