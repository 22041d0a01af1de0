//! The combinations in the component of an input, counted in memory of the caller's.

ghost use Rattle.std.specs.Prelude.{◌≡◌, ◌≢◌, ◌⊎◌, IfErr, length};
ghost use Rattle.smith_c.specs.Makes.{Stops, code_of};
ghost use Rattle.smith_c.specs.declared.status.Status.{Status};
ghost use Rattle.smith_c.specs.declared.status.Status.TheVariants.{Answered, Refused, Unread};
ghost use Rattle.smith_input.specs.declared.error.Error.TheVariants.{OutOfMemory};

use crate::limits::Limits;
use crate::make::make;
use crate::status::Status;
use smith_input::Error;
use smith_read::{ReadError, read};
use smith_stats::{Combination, combinations};
use std::alloc::Global;
use std::collections::BTreeSet;

// The combinations in the component of the input within the limits.
fn found(alloc: Global, limits: &Limits, input: &[u8]) -> Result<BTreeSet<Combination>, Status>
    ensures { IfErr result (λ s. (s ≡ Refused OutOfMemory) ⊎ (s ≡ Unread) ⊎ Stops limits.now input.now s) }
{
    let made = make(alloc, limits, input)?;
    let component = match read(alloc, &made.bytes) {
        Ok(component) => component,
        Err(ReadError::OutOfMemory) => return Err(Status::Refused(Error::OutOfMemory)),
        Err(ReadError::Malformed { .. }) => return Err(Status::Unread),
    };
    match combinations(alloc, &component) {
        Ok(combinations) => Ok(combinations),
        Err(_) => Err(Status::Refused(Error::OutOfMemory)),
    }
}

// Counts a combination, if there is a counter.
fn count(counters: &mut [u8], combination: Combination)
    ensures { length counters.new ≡ length counters.old }
{
    let Some(place) = combination.place(counters.len()) else {
        return;
    };
    if let Some(counter) = counters.get_mut(place) {
        *counter = counter.saturating_add(1);
    }
}

/// Adds 1 to a counter for each combination in the component that `generate` makes of the input within the limits, as
/// `combinations` of `smith_stats` finds it. Which counter that is depends on the combination and on how many there
/// are, and on nothing else. A counter stays at 255.
///
/// Returns the code of a `Status`. Unless it is `Answered`, the counters are as they were.
#[unsafe(no_mangle)]
pub extern "C" fn lupinanon_proved_features(
    alloc: Global,
    limits: &Limits,
    input: &[u8],
    counters: &mut [u8],
) -> i32
    ensures kept { result ≢ code_of Answered → counters.new ≡ counters.old }
    ensures stopped { result ≢ code_of Answered → (status : Status) × (result ≡ code_of status)
        × ((status ≡ Refused OutOfMemory) ⊎ (status ≡ Unread) ⊎ Stops limits.now input.now status) }
{
    match found(alloc, limits, input) {
        Ok(combinations) => {
            for combination in &combinations {
                count(counters, *combination);
            }
            Status::Answered.code()
        }
        Err(status) => status.code(),
    }
}
