//! A component's bytes in memory of the caller's.

ghost use Rattle.std.specs.Prelude.{◌≡◌, ◌≢◌, ℕ, ◌<◌, ◌≤◌, ◌++◌, ◌⊎◌, List, length, take, drop};
ghost use Rattle.smith_format.specs.Consistency.{IsConsistent};
ghost use Rattle.smith_format.specs.declared.config.Config.{Config};
ghost use Rattle.smith_tree.specs.Grammar.{Spells};
ghost use Rattle.smith_tree.specs.Script.{Within, script};
ghost use Rattle.smith_tree.specs.Tree.{Tree};
ghost use Rattle.smith_c.specs.Limits.{limits_of};
ghost use Rattle.smith_c.specs.Makes.{Makes, Stops, code_of};
ghost use Rattle.smith_c.specs.declared.status.Status.{Status};
ghost use Rattle.smith_c.specs.declared.status.Status.TheVariants.{Answered, NoRoom, Refused};
ghost use Rattle.smith_input.specs.declared.error.Error.TheVariants.{OutOfMemory};

use crate::limits::Limits;
use crate::make::make;
use crate::status::Status;
use std::alloc::Global;

/// Makes a component of the input within the limits, as `generate` does, and writes its bytes to the front of the
/// output.
///
/// Returns the code of a `Status`. If the output has no room, `bytes_len` is how long the bytes are, and `left` how
/// many bytes of the input are not used, as when the bytes are written. Otherwise both are 0. The output is unchanged
/// unless the bytes are written, and always unchanged after them.
#[unsafe(no_mangle)]
pub extern "C" fn lupinanon_proved_generate_into(
    alloc: Global,
    limits: &Limits,
    input: &[u8],
    output: &mut [u8],
    bytes_len: &mut usize,
    left: &mut usize,
) -> i32
    ensures answered { result ≡ code_of Answered → (bytes_len.new ≤ length output.old)
        × Makes limits.now input.now (take bytes_len.new output.new) left.new
        × (drop bytes_len.new output.new ≡ drop bytes_len.new output.old) }
    ensures no_room { result ≡ code_of NoRoom → (length output.old < bytes_len.new)
        × (bytes : List ℕ) × (bytes_len.new ≡ length bytes) × Makes limits.now input.now bytes left.new }
    ensures stopped { result ≢ code_of Answered → result ≢ code_of NoRoom → (bytes_len.new ≡ 0) × (left.new ≡ 0)
        × (status : Status) × (result ≡ code_of status) × Stops limits.now input.now status }
    ensures kept { result ≢ code_of Answered → output.new ≡ output.old }

    // An input that begins with the script of a plan produces the plan's bytes, and leaves what is after it.
    ensures reach { (config : Config) (plan : Tree) (rest : List ℕ) → limits.now ≡ limits_of config
        → Within config plan → input.now ≡ script config plan ++ rest
        → result ≡ code_of Answered → Spells plan (take bytes_len.new output.new) × (left.new ≡ length rest) }

    // It is returned, unless memory or room runs out.
    ensures answers { (config : Config) (plan : Tree) (rest : List ℕ) → limits.now ≡ limits_of config
        → IsConsistent config → Within config plan → input.now ≡ script config plan ++ rest
        → (result ≡ code_of Answered) ⊎ (result ≡ code_of NoRoom) ⊎ (result ≡ code_of (Refused OutOfMemory)) }
{
    match make(alloc, limits, input) {
        Ok(made) => {
            let count = made.bytes.len();
            *bytes_len = count;
            *left = made.left;
            if output.len() < count {
                return Status::NoRoom.code();
            }
            output[..count].copy_from_slice(&made.bytes);
            Status::Answered.code()
        }
        Err(status) => {
            *bytes_len = 0;
            *left = 0;
            status.code()
        }
    }
}
