//! Inputs that begin with the bytes of their own limits.

ghost use Rattle.std.specs.Prelude.{◌≡◌, ◌++◌, min, vec_len, IfOk, IfErr};
ghost use Rattle.smith_corpus.specs.Samples.{IsSwarmError, IsSwarmSample};
ghost use Rattle.smith_input.specs.declared.error.Error.TheVariants.{OutOfMemory};
ghost use Rattle.smith_swarm.specs.Swarm.{limit_count};

use crate::samples::{Sample, SampleError, draw};
use rand_core::Rng;
use rand_pcg::Pcg32;
use smith_format::Config;
use smith_input::Error;
use smith_swarm::{LIMIT_COUNT, swarm_limits};
use std::alloc::Global;

/// How many inputs have their limits tried.
const TRIES: u32 = 16;

// Random bytes that encode limits, at most that many.
fn front(alloc: Global, random: &mut Pcg32, most: usize) -> Result<Vec<u8>, Error>
    ensures long { IfOk result (λ bytes. vec_len bytes ≡ min limit_count most) }
    ensures refuses { IfErr result (λ e. e ≡ OutOfMemory) }
{
    let mut bytes = vec![in alloc; 0u8; most.min(LIMIT_COUNT)]?;
    random.fill_bytes(&mut bytes);
    Ok(bytes)
}

// The bytes of the limits with what follows them.
fn joined(front: Vec<u8>, rest: &[u8]) -> Result<Vec<u8>, Error>
    ensures joined { IfOk result (λ bytes. bytes.items ≡ front.items ++ rest.now) }
    ensures refuses { IfErr result (λ e. e ≡ OutOfMemory) }
{
    let mut bytes = front;
    bytes.extend_from_slice(rest)?;
    Ok(bytes)
}

// One try.
fn tried(
    alloc: Global,
    config: &Config,
    random: &mut Pcg32,
    len: usize,
) -> Result<Sample, SampleError>
    ensures made { IfOk result (IsSwarmSample config.now) }
    ensures long { IfOk result (λ s. vec_len s.input ≡ len) }
    ensures refuses { IfErr result (IsSwarmError config.now len) }
{
    let front = front(alloc, random, len)?;
    let swarm = swarm_limits(config, &front);
    let rest = draw(alloc, &swarm.config, random, len - front.len())?;
    let input = joined(front, &rest.input)?;
    Ok(Sample {
        input,
        component: rest.component,
    })
}

/// A random input of that many bytes, of which the first encode limits that override the given ones, as `swarm_limits`
/// defines, and the component that is made, within these, of the bytes after them. Nothing of them is left.
///
/// If limits are such that `draw` finds nothing, as when they do not fit together, others are tried, sixteen in all.
/// Generators that are equal give equal samples.
pub fn draw_swarm(
    alloc: Global,
    config: &Config,
    random: &mut Pcg32,
    len: usize,
) -> Result<Sample, SampleError>
    ensures made { IfOk result (IsSwarmSample config.now) }
    ensures long { IfOk result (λ s. vec_len s.input ≡ len) }
    ensures refuses { IfErr result (IsSwarmError config.now len) }
{
    for _ in 1..TRIES {
        match tried(alloc, config, random, len) {
            Err(error) if error.depends_on_limits() => {}
            answer => return answer,
        }
    }
    tried(alloc, config, random, len)
}
