//! Writing another input, for a fuzzer that asks a command for it.

use crate::inspecting::{REFUSED, bytes_in, refuse, refuse_long};
use crate::limits_file::{config_of, refuse_both};
use crate::options::Mutation;
use crate::places::{print_fault, refuse_terminal_for_bytes};
use crate::scripting::write_bytes;
use rand_core::Rng;
use rand_pcg::Pcg32;
use rand_pcg::rand_core::SeedableRng;
use smith_component::{Config, Unstructured, generate};
use smith_corpus::{draw, number_below};
use smith_reduce::{joined, without};
use smith_script::script;
use std::alloc::{AllocError, Global};
use std::io;
use std::process::ExitCode;
use std::time::{SystemTime, UNIX_EPOCH};

// How many bytes an input has that is drawn.
const LEN: usize = 256;

// How many bytes of an input are changed at most.
const MOST_CHANGED: usize = 4;

// The component without an item and all that refers to it. How many items there are is not known: the number is drawn
// below a bound, which is halved as long as there is none.
fn without_item(alloc: Global, random: &mut Pcg32, component: &[u8]) -> Option<Vec<u8>> {
    let mut bound = component.len();
    for _ in 0..usize::BITS {
        let item = number_below(random, bound);
        if let Some(less) = without(alloc, component, item).ok()? {
            return Some(less);
        }
        bound /= 2;
    }
    None
}

// An input of the input's component with an item less, or with another component's sections after its own.
fn edited(alloc: Global, config: &Config, random: &mut Pcg32, input: &[u8]) -> Option<Vec<u8>> {
    let generated = generate(alloc, *config, &mut Unstructured::new(input)).ok()?;
    let edited = if number_below(random, 2) == 0 {
        without_item(alloc, random, &generated.bytes)?
    } else {
        let other = draw(alloc, config, random, LEN).ok()?;
        joined(alloc, &generated.bytes, &other.component).ok()?
    };
    script(alloc, config, &edited).ok()
}

// The input with some of its bytes changed.
fn with_changes(alloc: Global, random: &mut Pcg32, input: &[u8]) -> Result<Vec<u8>, AllocError> {
    let mut bytes = Vec::from_slice(alloc, input)?;
    for _ in 0..=number_below(random, MOST_CHANGED) {
        let place = number_below(random, bytes.len());
        if let Some(byte) = bytes.get_mut(place) {
            *byte ^= (random.next_u32() % 255) as u8 + 1;
        }
    }
    Ok(bytes)
}

// Another input: a random one if this one has no bytes, and otherwise each second time that of an edited component.
fn mutated(
    alloc: Global,
    config: &Config,
    random: &mut Pcg32,
    input: &[u8],
) -> Result<Vec<u8>, AllocError> {
    if input.is_empty() {
        if let Ok(sample) = draw(alloc, config, random, LEN) {
            return Ok(sample.input);
        }
    }
    if number_below(random, 2) == 0 {
        if let Some(edited) = edited(alloc, config, random, input) {
            return Ok(edited);
        }
    }
    with_changes(alloc, random, input)
}

fn clock_seed(rt: &HostRuntime) -> io::Result<u64> {
    let now = SystemTime::now(rt)?;
    let since = now.duration_since(UNIX_EPOCH).unwrap_or_default();
    let nanos = u64::from(since.subsec_nanos());
    Ok(since.as_secs().rotate_left(32) ^ nanos)
}

// The seed that is given, or one of the clock, or the status after a message.
fn seed_of(rt: &HostRuntime, seed: Option<u64>) -> Result<u64, ExitCode> {
    if let Some(seed) = seed {
        return Ok(seed);
    }
    match clock_seed(rt) {
        Ok(seed) => Ok(seed),
        Err(error) => Err(print_fault(rt, None, "the clock", Some(&error))),
    }
}

/// Writes another input.
pub fn mutate(rt: &HostRuntime, mutation: &Mutation<'_>) -> Result<ExitCode, ExitCode> {
    refuse_terminal_for_bytes(rt, mutation.output)?;
    refuse_both(rt, &mutation.limits, "the input", mutation.input)?;
    let config = config_of(rt, &mutation.limits)?;
    let input = bytes_in(rt, mutation.input)?;
    refuse_long(rt, mutation.input, "the input has", &input)?;
    let mut random = Pcg32::seed_from_u64(seed_of(rt, mutation.seed)?);
    match mutated(rt.alloc(), &config, &mut random, &input) {
        Ok(other) => write_bytes(rt, mutation.output, &other),
        Err(_) => Err(refuse(rt, mutation.input, &"out of memory", REFUSED)),
    }
}
