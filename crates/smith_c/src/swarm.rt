//! Limits from the first bytes of an input, over the ones in memory of the caller's.

ghost use Rattle.std.specs.Prelude.{◌≡◌, ◌≢◌};
ghost use Rattle.smith_format.specs.declared.config.Config.{Config};
ghost use Rattle.smith_swarm.specs.Swarm.{front_len, swarmed};
ghost use Rattle.smith_c.specs.Limits.{limits_of};
ghost use Rattle.smith_c.specs.Makes.{code_of};
ghost use Rattle.smith_c.specs.declared.status.Status.TheVariants.{Answered, BadFlag};

use crate::limits::Limits;
use crate::status::Status;
use smith_swarm::swarm_limits;

/// Replaces the limits that the first bytes of the input encode, as `swarm_limits` of `smith_swarm` does.
///
/// Returns the code of a `Status`. `taken` is how many bytes of the input encode limits. If a byte of the limits is not
/// a flag they are left as they were, and `taken` is 0.
#[unsafe(no_mangle)]
pub extern "C" fn lupinanon_proved_swarm_limits(
    limits: &mut Limits,
    input: &[u8],
    taken: &mut usize,
) -> i32
    ensures answered { result ≡ code_of Answered → (config : Config) × (limits.old ≡ limits_of config)
        × (limits.new ≡ limits_of (swarmed config input.now)) × (taken.new ≡ front_len input.now) }
    ensures refused { result ≢ code_of Answered → (result ≡ code_of BadFlag)
        × ((config : Config) → limits.old ≢ limits_of config) × (limits.new ≡ limits.old) × (taken.new ≡ 0) }
{
    let Some(config) = limits.config() else {
        *taken = 0;
        return Status::BadFlag.code();
    };
    let swarm = swarm_limits(&config, input);
    *limits = Limits::of(&swarm.config);
    *taken = swarm.taken;
    Status::Answered.code()
}
