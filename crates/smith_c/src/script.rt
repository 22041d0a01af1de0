//! The script of a component, in memory of the caller's.

ghost use Rattle.std.specs.Prelude.{◌≡◌, ◌≢◌, ℕ, ◌<◌, ◌≤◌, ◌⊎◌, List, length, take, drop, IfOk, IfErr};
ghost use Rattle.smith_format.specs.Consistency.{IsConsistent};
ghost use Rattle.smith_format.specs.declared.config.Config.{Config};
ghost use Rattle.smith_tree.specs.Grammar.{Spells};
ghost use Rattle.smith_tree.specs.Script.{Within};
ghost use Rattle.smith_tree.specs.Tree.{Tree};
ghost use Rattle.smith_c.specs.Limits.{limits_of};
ghost use Rattle.smith_c.specs.Scripts.{Scripts, Withholds, offset_of, status_of};
ghost use Rattle.smith_c.specs.Makes.{code_of, no_offset};
ghost use Rattle.smith_c.specs.declared.status.Status.{Status};
ghost use Rattle.smith_c.specs.declared.status.Status.TheVariants.{Answered, NoRoom, NoScript, Refused, Unread};
ghost use Rattle.smith_input.specs.declared.error.Error.TheVariants.{InconsistentLimits, OutOfMemory};

use crate::limits::Limits;
use crate::status::Status;
use smith_input::Error;
use smith_script::{ScriptError, script};
use std::alloc::Global;

// Why there is no script, and the offset that is written then.
#[derive(Drop)]
struct Refusal {
    status: Status,
    offset: usize,
}

// A refusal of `script`, as C sees it.
fn refusal_of(error: &ScriptError) -> Refusal
    ensures status { result.status ≡ status_of error.now }
    ensures offset { result.offset ≡ offset_of error.now }
{
    let (status, offset) = match error {
        ScriptError::OutOfMemory => (Status::Refused(Error::OutOfMemory), None),
        ScriptError::InconsistentLimits => (Status::Refused(Error::InconsistentLimits), None),
        ScriptError::Unread { offset, .. } => (Status::Unread, Some(*offset)),
        ScriptError::IllFormed(_) => (Status::IllFormed, None),
        ScriptError::NoScript { offset, .. } => (Status::NoScript, *offset),
    };
    Refusal {
        status,
        offset: offset.unwrap_or(usize::MAX),
    }
}

// The script of the component that the bytes are, within the limits.
fn scripted(alloc: Global, limits: &Limits, bytes: &[u8]) -> Result<Vec<u8>, Refusal>
    ensures scripts { IfOk result (λ b. Scripts limits.now bytes.now b.items) }
    ensures withholds { IfErr result (λ r. Withholds limits.now bytes.now r.status r.offset) }
    ensures offset { IfErr result (λ r. r.status ≢ Unread → r.status ≢ NoScript → r.offset ≡ no_offset) }
    ensures limits { (config : Config) → limits.now ≡ limits_of config → ¬ IsConsistent config
        → IfOk result (λ _. ⊥) × IfErr result (λ r. r.status ≡ Refused InconsistentLimits) }
    ensures plans { (config : Config) (plan : Tree) → limits.now ≡ limits_of config → IsConsistent config
        → Within config plan → Spells plan bytes.now → IfErr result (λ r. r.status ≡ Refused OutOfMemory) }
{
    let Some(config) = limits.config() else {
        return Err(Refusal {
            status: Status::BadFlag,
            offset: usize::MAX,
        });
    };
    match script(alloc, &config, bytes) {
        Ok(script) => Ok(script),
        Err(error) => Err(refusal_of(&error)),
    }
}

/// Writes the script, within the limits, of the component that the bytes are to the front of the output: the input from
/// which `generate` produces these bytes, with nothing left.
///
/// Returns the code of a `Status`. If the output has no room, `script_len` is how long the script is, as when it is
/// written, and otherwise it is 0. The output is unchanged unless the script is written, and always unchanged after it.
/// `offset` is where the bytes were found not to be a component, or where what their script produces first differs, if
/// it does, and otherwise 2^64 - 1.
#[unsafe(no_mangle)]
pub extern "C" fn lupinanon_proved_script_into(
    alloc: Global,
    limits: &Limits,
    bytes: &[u8],
    output: &mut [u8],
    script_len: &mut usize,
    offset: &mut usize,
) -> i32
    ensures answered { result ≡ code_of Answered → (script_len.new ≤ length output.old)
        × Scripts limits.now bytes.now (take script_len.new output.new)
        × (drop script_len.new output.new ≡ drop script_len.new output.old) }
    ensures no_room { result ≡ code_of NoRoom → (length output.old < script_len.new)
        × (script : List ℕ) × (script_len.new ≡ length script) × Scripts limits.now bytes.now script }
    ensures stopped { result ≢ code_of Answered → result ≢ code_of NoRoom → (script_len.new ≡ 0)
        × (status : Status) × (result ≡ code_of status) × Withholds limits.now bytes.now status offset.new }
    ensures kept { result ≢ code_of Answered → output.new ≡ output.old }
    ensures offset { result ≢ code_of Unread → result ≢ code_of NoScript → offset.new ≡ no_offset }

    // Limits that do not fit together are refused as such, and no others: `Withholds` has that.
    ensures limits { (config : Config) → limits.now ≡ limits_of config → ¬ IsConsistent config
        → result ≡ code_of (Refused InconsistentLimits) }

    // A plan's bytes have a script, unless memory or room runs out.
    ensures plans { (config : Config) (plan : Tree) → limits.now ≡ limits_of config → IsConsistent config
        → Within config plan → Spells plan bytes.now
        → (result ≡ code_of Answered) ⊎ (result ≡ code_of NoRoom) ⊎ (result ≡ code_of (Refused OutOfMemory)) }
{
    *offset = usize::MAX;
    match scripted(alloc, limits, bytes) {
        Ok(script) => {
            let count = script.len();
            *script_len = count;
            if output.len() < count {
                return Status::NoRoom.code();
            }
            output[..count].copy_from_slice(&script);
            Status::Answered.code()
        }
        Err(refusal) => {
            *script_len = 0;
            *offset = refusal.offset;
            refusal.status.code()
        }
    }
}
