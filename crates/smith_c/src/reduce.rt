//! Smaller and joined components, in memory of the caller's.

ghost use Rattle.std.specs.Prelude.{◌≡◌, ◌≢◌, ℕ, ◌<◌, ◌≤◌, List, Some, None, length, take, drop, IfOk, IfErr};
ghost use Rattle.smith_tree.specs.Grammar.{Spells};
ghost use Rattle.smith_tree.specs.WellFormed.{WellFormed};
ghost use Rattle.smith_reduce.specs.Bytes.{AreJoined};
ghost use Rattle.smith_c.specs.Reduces.{AreUnjoined, IsNextSmaller, IsSmaller, Lacks, LacksWithin, Reduces};
ghost use Rattle.smith_c.specs.Reduces.{ReducesNext, Removes, Unreduced, found, status_of, status_of_join};
ghost use Rattle.smith_c.specs.Makes.{code_of};
ghost use Rattle.smith_c.specs.declared.status.Status.{Status};
ghost use Rattle.smith_c.specs.declared.status.Status.TheVariants.{Answered, NoRoom};

use crate::limits::Limits;
use crate::put::put;
use crate::status::Status;
use smith_input::Error;
use smith_reduce::{JoinError, ReduceError, Step, Wanted, joined, next_smaller, smaller, without};
use std::alloc::Global;

// A refusal to reduce, as C sees it.
fn status_of(error: &ReduceError) -> Status
    ensures { result ≡ status_of error.now }
{
    match error {
        ReduceError::OutOfMemory => Status::Refused(Error::OutOfMemory),
        ReduceError::InconsistentLimits => Status::Refused(Error::InconsistentLimits),
        ReduceError::Unread { .. } => Status::Unread,
    }
}

// What is found, or the status if there is none.
fn found<T>(made: Result<Option<T>, ReduceError>) -> Result<T, Status>
    ensures { result ≡ found made }
{
    match made {
        Ok(Some(it)) => Ok(it),
        Ok(None) => Err(Status::NoSmaller),
        Err(error) => Err(status_of(&error)),
    }
}

// The k-th smaller component within the limits.
fn reduced(alloc: Global, limits: &Limits, bytes: &[u8], k: usize) -> Result<Vec<u8>, Status>
    ensures reduces { IfOk result (λ b. Reduces limits.now bytes.now k (Some b.items)) }
    ensures refuses { IfErr result (λ s. Unreduced limits.now bytes.now k s) }
{
    let Some(config) = limits.config() else {
        return Err(Status::BadFlag);
    };
    found(smaller(alloc, Wanted::Generated(&config), bytes, k))
}

// The k-th smaller component that is well formed.
fn reduced_formed(alloc: Global, bytes: &[u8], k: usize) -> Result<Vec<u8>, Status>
    ensures reduces { IfOk result (λ b. IsSmaller WellFormed bytes.now k (Some b.items)) }
    ensures refuses { IfErr result (λ s. Lacks (IsSmaller WellFormed bytes.now k None) bytes.now s) }
{
    found(smaller(alloc, Wanted::WellFormed, bytes, k))
}

// The first step from that one on that leads to a smaller component within the limits.
fn next_reduced(alloc: Global, limits: &Limits, bytes: &[u8], from: usize) -> Result<Step, Status>
    ensures reduces { IfOk result (λ s. ReducesNext limits.now bytes.now from (Some (s.number, s.bytes.items))) }
    ensures refuses { IfErr result
        (λ s. LacksWithin (ReducesNext limits.now bytes.now from None) limits.now bytes.now s) }
{
    let Some(config) = limits.config() else {
        return Err(Status::BadFlag);
    };
    found(next_smaller(alloc, Wanted::Generated(&config), bytes, from))
}

// The first step from that one on that leads to a smaller component that is well formed.
fn next_reduced_formed(alloc: Global, bytes: &[u8], from: usize) -> Result<Step, Status>
    ensures reduces { IfOk result (λ s. IsNextSmaller WellFormed bytes.now from (Some (s.number, s.bytes.items))) }
    ensures refuses { IfErr result (λ s. Lacks (IsNextSmaller WellFormed bytes.now from None) bytes.now s) }
{
    found(next_smaller(alloc, Wanted::WellFormed, bytes, from))
}

// The component without its k-th item.
fn removed(alloc: Global, bytes: &[u8], k: usize) -> Result<Vec<u8>, Status>
    ensures removes { IfOk result (λ b. Removes bytes.now k (Some b.items)) }
    ensures refuses { IfErr result (λ s. Lacks (Removes bytes.now k None) bytes.now s) }
{
    found(without(alloc, bytes, k))
}

/// Writes the `k`-th, from 0, of the components that are smaller by a step and can be generated within the limits to
/// the front of the output, as `smaller` of `smith_reduce` counts them.
///
/// Returns the code of a `Status`: `NoSmaller` if there is no `k`-th. If the output has no room, `smaller_len` is how
/// long the component is, as when it is written, and otherwise it is 0. The output is unchanged unless the component is
/// written, and always unchanged after it.
#[unsafe(no_mangle)]
pub extern "C" fn lupinanon_proved_smaller(
    alloc: Global,
    limits: &Limits,
    bytes: &[u8],
    k: usize,
    output: &mut [u8],
    smaller_len: &mut usize,
) -> i32
    ensures answered { result ≡ code_of Answered → (smaller_len.new ≤ length output.old)
        × Reduces limits.now bytes.now k (Some (take smaller_len.new output.new))
        × (drop smaller_len.new output.new ≡ drop smaller_len.new output.old) }
    ensures no_room { result ≡ code_of NoRoom → (length output.old < smaller_len.new)
        × (smaller : List ℕ) × (smaller_len.new ≡ length smaller) × Reduces limits.now bytes.now k (Some smaller) }
    ensures stopped { result ≢ code_of Answered → result ≢ code_of NoRoom → (smaller_len.new ≡ 0)
        × (status : Status) × (result ≡ code_of status) × Unreduced limits.now bytes.now k status }
    ensures kept { result ≢ code_of Answered → output.new ≡ output.old }
{
    *smaller_len = 0;
    match reduced(alloc, limits, bytes, k) {
        Ok(smaller) => put(&smaller, output, smaller_len),
        Err(status) => status.code(),
    }
}

/// Writes the `k`-th, from 0, of the components that are smaller by a step and well formed to the front of the output,
/// as `smaller` of `smith_reduce` counts them.
///
/// The result, `smaller_len` and the output are as for `lupinanon_proved_smaller`.
#[unsafe(no_mangle)]
pub extern "C" fn lupinanon_proved_smaller_formed(
    alloc: Global,
    bytes: &[u8],
    k: usize,
    output: &mut [u8],
    smaller_len: &mut usize,
) -> i32
    ensures answered { result ≡ code_of Answered → (smaller_len.new ≤ length output.old)
        × IsSmaller WellFormed bytes.now k (Some (take smaller_len.new output.new))
        × (drop smaller_len.new output.new ≡ drop smaller_len.new output.old) }
    ensures no_room { result ≡ code_of NoRoom → (length output.old < smaller_len.new)
        × (smaller : List ℕ) × (smaller_len.new ≡ length smaller) × IsSmaller WellFormed bytes.now k (Some smaller) }
    ensures stopped { result ≢ code_of Answered → result ≢ code_of NoRoom → (smaller_len.new ≡ 0) × (status : Status)
        × (result ≡ code_of status) × Lacks (IsSmaller WellFormed bytes.now k None) bytes.now status }
    ensures kept { result ≢ code_of Answered → output.new ≡ output.old }
{
    *smaller_len = 0;
    match reduced_formed(alloc, bytes, k) {
        Ok(smaller) => put(&smaller, output, smaller_len),
        Err(status) => status.code(),
    }
}

/// Finds the first step, from number `step` on, that leads to a component that can be generated within the limits, as
/// `next_smaller` of `smith_reduce` does. It writes that component to the front of the output, and the step's number.
///
/// Returns the code of a `Status`: `NoSmaller` if there is no such step. If the output has no room, `smaller_len` is
/// how long the component is and `step` the number of its step, as when it is written. Otherwise `smaller_len` is 0,
/// and `step` is as it was. The output is unchanged unless the component is written, and always unchanged after it.
#[unsafe(no_mangle)]
pub extern "C" fn lupinanon_proved_next_smaller(
    alloc: Global,
    limits: &Limits,
    bytes: &[u8],
    step: &mut usize,
    output: &mut [u8],
    smaller_len: &mut usize,
) -> i32
    ensures answered { result ≡ code_of Answered → (smaller_len.new ≤ length output.old)
        × ReducesNext limits.now bytes.now step.old (Some (step.new, take smaller_len.new output.new))
        × (drop smaller_len.new output.new ≡ drop smaller_len.new output.old) }
    ensures no_room { result ≡ code_of NoRoom → (length output.old < smaller_len.new) × (smaller : List ℕ)
        × (smaller_len.new ≡ length smaller) × ReducesNext limits.now bytes.now step.old (Some (step.new, smaller)) }
    ensures stopped { result ≢ code_of Answered → result ≢ code_of NoRoom → (smaller_len.new ≡ 0)
        × (step.new ≡ step.old) × (status : Status) × (result ≡ code_of status)
        × LacksWithin (ReducesNext limits.now bytes.now step.old None) limits.now bytes.now status }
    ensures kept { result ≢ code_of Answered → output.new ≡ output.old }
{
    *smaller_len = 0;
    match next_reduced(alloc, limits, bytes, *step) {
        Ok(next) => {
            *step = next.number;
            put(&next.bytes, output, smaller_len)
        }
        Err(status) => status.code(),
    }
}

/// Finds the first step, from number `step` on, that leads to a component that is well formed, as `next_smaller` of
/// `smith_reduce` does. It writes that component to the front of the output, and the step's number.
///
/// The result, `smaller_len`, `step` and the output are as for `lupinanon_proved_next_smaller`.
#[unsafe(no_mangle)]
pub extern "C" fn lupinanon_proved_next_smaller_formed(
    alloc: Global,
    bytes: &[u8],
    step: &mut usize,
    output: &mut [u8],
    smaller_len: &mut usize,
) -> i32
    ensures answered { result ≡ code_of Answered → (smaller_len.new ≤ length output.old)
        × IsNextSmaller WellFormed bytes.now step.old (Some (step.new, take smaller_len.new output.new))
        × (drop smaller_len.new output.new ≡ drop smaller_len.new output.old) }
    ensures no_room { result ≡ code_of NoRoom → (length output.old < smaller_len.new) × (smaller : List ℕ)
        × (smaller_len.new ≡ length smaller) × IsNextSmaller WellFormed bytes.now step.old (Some (step.new, smaller)) }
    ensures stopped { result ≢ code_of Answered → result ≢ code_of NoRoom → (smaller_len.new ≡ 0)
        × (step.new ≡ step.old) × (status : Status) × (result ≡ code_of status)
        × Lacks (IsNextSmaller WellFormed bytes.now step.old None) bytes.now status }
    ensures kept { result ≢ code_of Answered → output.new ≡ output.old }
{
    *smaller_len = 0;
    match next_reduced_formed(alloc, bytes, *step) {
        Ok(formed) => {
            *step = formed.number;
            put(&formed.bytes, output, smaller_len)
        }
        Err(status) => status.code(),
    }
}

/// Writes the component without its `k`-th item, from 0, and without all that refers to it, to the front of the output,
/// as `without` of `smith_edit` defines.
///
/// Returns the code of a `Status`: `NoSmaller` if there is no `k`-th item. If the output has no room, `less_len` is how
/// long the component is, as when it is written, and otherwise it is 0. The output is unchanged unless the component is
/// written, and always unchanged after it.
#[unsafe(no_mangle)]
pub extern "C" fn lupinanon_proved_without(
    alloc: Global,
    bytes: &[u8],
    k: usize,
    output: &mut [u8],
    less_len: &mut usize,
) -> i32
    ensures answered { result ≡ code_of Answered → (less_len.new ≤ length output.old)
        × Removes bytes.now k (Some (take less_len.new output.new))
        × (drop less_len.new output.new ≡ drop less_len.new output.old) }
    ensures no_room { result ≡ code_of NoRoom → (length output.old < less_len.new)
        × (less : List ℕ) × (less_len.new ≡ length less) × Removes bytes.now k (Some less) }
    ensures stopped { result ≢ code_of Answered → result ≢ code_of NoRoom → (less_len.new ≡ 0)
        × (status : Status) × (result ≡ code_of status) × Lacks (Removes bytes.now k None) bytes.now status }
    ensures kept { result ≢ code_of Answered → output.new ≡ output.old }
{
    *less_len = 0;
    match removed(alloc, bytes, k) {
        Ok(less) => put(&less, output, less_len),
        Err(status) => status.code(),
    }
}

// A refusal to join, as C sees it.
fn status_of_join(error: &JoinError) -> Status
    ensures { result ≡ status_of_join error.now }
{
    match error {
        JoinError::OutOfMemory => Status::Refused(Error::OutOfMemory),
        JoinError::TooLong => Status::Refused(Error::TooLong),
        JoinError::FirstUnread { .. } | JoinError::SecondUnread { .. } => Status::Unread,
    }
}

/// Writes the two components, joined as `joined` of `smith_edit` does, to the front of the output.
///
/// Returns the code of a `Status`. If the output has no room, `joined_len` is how long the component is, as when it is
/// written, and otherwise it is 0. The output is unchanged unless the component is written, and always unchanged after
/// it.
#[unsafe(no_mangle)]
pub extern "C" fn lupinanon_proved_join(
    alloc: Global,
    first: &[u8],
    second: &[u8],
    output: &mut [u8],
    joined_len: &mut usize,
) -> i32
    ensures answered { result ≡ code_of Answered → (joined_len.new ≤ length output.old)
        × AreJoined first.now second.now (λ t. Spells t (take joined_len.new output.new))
        × (drop joined_len.new output.new ≡ drop joined_len.new output.old) }
    ensures no_room { result ≡ code_of NoRoom → (length output.old < joined_len.new)
        × (bytes : List ℕ) × (joined_len.new ≡ length bytes) × AreJoined first.now second.now (λ t. Spells t bytes) }
    ensures stopped { result ≢ code_of Answered → result ≢ code_of NoRoom → (joined_len.new ≡ 0)
        × (status : Status) × (result ≡ code_of status) × AreUnjoined first.now second.now status }
    ensures kept { result ≢ code_of Answered → output.new ≡ output.old }
{
    *joined_len = 0;
    match joined(alloc, first, second) {
        Ok(bytes) => put(&bytes, output, joined_len),
        Err(error) => status_of_join(&error).code(),
    }
}
