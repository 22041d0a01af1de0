//! Short inputs, of components that are drawn so that each combination is in about as many.

ghost use Rattle.std.specs.Prelude.{IfOk, IfSome};
ghost use Rattle.smith_corpus.specs.Samples.{IsSample};

mod counts;
mod growing;

use crate::samples::{Sample, SampleError, sample_of};
pub use counts::Reached;
use counts::combinations_of;
use growing::{component_of, grown};
use rand_pcg::Pcg32;
use smith_format::Config;
use smith_input::Error;
use smith_script::{ScriptError, script};
use std::alloc::{AllocError, Global};

/// How many components are drawn until one has a script.
const TRIES: u32 = 16;

/// How many sections a component has at least, so that a random choice does not end it at once.
const SECTIONS: usize = 8;

// Limits within which inputs are drawn: names are short, and lists are long. What they produce has a script within the
// limits that are given.
fn narrowed(config: &Config) -> Config {
    Config {
        max_name_length: config.max_name_length.min(1),
        loop_bits: 3,
        finish_after: config.finish_after.max(SECTIONS),
        ..*config
    }
}

// The script of the component of these bytes, if it has one within the limits.
fn script_if_any(
    alloc: Global,
    config: &Config,
    bytes: &[u8],
) -> Result<Option<Vec<u8>>, AllocError> {
    match script(alloc, config, bytes) {
        Ok(input) => Ok(Some(input)),
        Err(ScriptError::OutOfMemory) => Err(AllocError),
        Err(_) => Ok(None),
    }
}

// The script of a component that is drawn, if it has one.
fn drawn_script(
    alloc: Global,
    config: &Config,
    random: &mut Pcg32,
    reached: &Reached,
) -> Result<Option<Vec<u8>>, AllocError> {
    let narrow = narrowed(config);
    let Some(input) = grown(alloc, &narrow, random, reached)? else {
        return Ok(None);
    };
    match component_of(alloc, &narrow, &input)? {
        Some(bytes) => script_if_any(alloc, config, &bytes),
        None => Ok(None),
    }
}

// One try.
fn tried(
    alloc: Global,
    config: &Config,
    random: &mut Pcg32,
    reached: &Reached,
) -> Result<Option<Sample>, AllocError>
    ensures { IfOk result (λ r. IfSome r (IsSample config.now)) }
{
    let Some(input) = drawn_script(alloc, config, random, reached)? else {
        return Ok(None);
    };
    match sample_of(alloc, config, input) {
        Ok(sample) => Ok(Some(sample)),
        Err(SampleError::Refused(Error::OutOfMemory)) => Err(AllocError),
        Err(_) => Ok(None),
    }
}

/// A component and its script. It is drawn so that it has many combinations that few of the components before have, and
/// is counted with them. Every second one begins with a lift and an export of it.
///
/// There is none only if none of sixteen that are drawn has a script within the limits. Generators and counts that are
/// equal give equal samples.
pub fn draw_flat(
    alloc: Global,
    config: &Config,
    random: &mut Pcg32,
    reached: &mut Reached,
) -> Result<Option<Sample>, AllocError>
    ensures { IfOk result (λ r. IfSome r (IsSample config.now)) }
{
    for _ in 0..TRIES {
        if let Some(sample) = tried(alloc, config, random, reached)? {
            reached.add(&combinations_of(alloc, &sample.component)?)?;
            return Ok(Some(sample));
        }
    }
    Ok(None)
}
