//! Inputs with the components that are made of the whole of them.

ghost use Rattle.std.specs.Prelude.{◌≡◌, vec_len, IfOk, IfErr};
ghost use Rattle.smith_corpus.specs.Samples.{IsSample, IsSampleError};

use crate::drawing::drawn;
use rand_pcg::Pcg32;
use smith_component::generate;
use smith_format::Config;
use smith_input::{Error, Unstructured};
use std::alloc::Global;

/// How many inputs are tried.
const TRIES: u32 = 16;

/// An input, and the component that is made of the whole of it.
#[derive(Debug, Drop)]
pub struct Sample {
    pub input: Vec<u8>,
    pub component: Vec<u8>,
}

/// Why there is no sample.
#[derive(Debug, PartialEq, Eq, Drop, thiserror::Error)]
pub enum SampleError {
    /// The last input that was tried is refused with this.
    #[error("{0}")]
    Refused(Error),
    /// Bytes of the last input that was tried are left.
    #[error("each input that was tried has bytes that are not read")]
    BytesLeft,
}

impl From<Error> for SampleError {
    ghost use Rattle.std.specs.Prelude.{◌≡◌};
    ghost use Rattle.smith_corpus.specs.declared.samples.SampleError.TheVariants.{Refused};

    ghost from_gives = { λ error e. e ≡ Refused error };

    fn from(error: Error) -> SampleError {
        SampleError::Refused(error)
    }
}

impl SampleError {
    // May another input have a sample?
    fn depends_on_input(&self) -> bool {
        !matches!(
            self,
            SampleError::Refused(Error::OutOfMemory | Error::InconsistentLimits)
        )
    }

    // May an input within other limits have one?
    pub(crate) fn depends_on_limits(&self) -> bool {
        !matches!(self, SampleError::Refused(Error::OutOfMemory))
    }
}

/// The sample of an input, if nothing of it is left.
pub(crate) fn sample_of(
    alloc: Global,
    config: &Config,
    input: Vec<u8>,
) -> Result<Sample, SampleError>
    ensures made { IfOk result (λ s. IsSample config.now s × (s.input.items ≡ input.items)) }
    ensures refuses { IfErr result (IsSampleError config.now (vec_len input)) }
{
    let mut left = Unstructured::new(&input);
    let generated = generate(alloc, *config, &mut left)?;
    if !left.is_empty() {
        return Err(SampleError::BytesLeft);
    }
    Ok(Sample {
        input,
        component: generated.bytes,
    })
}

// One try.
#[tactic(auto, using(crate::proofs::OwnLimits::new_is_refused))]
fn tried(
    alloc: Global,
    config: &Config,
    random: &mut Pcg32,
    len: usize,
) -> Result<Sample, SampleError>
    ensures made { IfOk result (IsSample config.now) }
    ensures long { IfOk result (λ s. vec_len s.input ≡ len) }
    ensures refuses { IfErr result (IsSampleError config.now len) }
{
    let input = drawn(alloc, config, random, len)?;
    sample_of(alloc, config, input)
}

/// A random input of that many bytes, and the component that is made of it. Nothing of it is left.
///
/// A byte whose choice would finish the root is changed to another one, so that the input is read further. If an input
/// is refused, as one may be that leads to a component without what the limits ask for, others are tried, sixteen in
/// all. The time is linear in the bytes, times a logarithm, and generators that are equal give equal samples.
pub fn draw(
    alloc: Global,
    config: &Config,
    random: &mut Pcg32,
    len: usize,
) -> Result<Sample, SampleError>
    ensures made { IfOk result (IsSample config.now) }
    ensures long { IfOk result (λ s. vec_len s.input ≡ len) }
    ensures refuses { IfErr result (IsSampleError config.now len) }
{
    for _ in 1..TRIES {
        match tried(alloc, config, random, len) {
            Err(error) if error.depends_on_input() => {}
            answer => return answer,
        }
    }
    tried(alloc, config, random, len)
}
