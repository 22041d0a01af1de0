//! Changed components, and bytes that are written wrongly, in memory of the caller's.

ghost use Rattle.std.specs.Prelude.{◌≡◌, ◌≢◌, ◌⊎◌, ℕ, ◌<◌, ◌≤◌, List, Some, None, length, take, drop, IfOk, IfErr};
ghost use Rattle.smith_change.specs.Miswritten.{IsMisstep};
ghost use Rattle.smith_c.specs.Changes.{Changes, ChangesNext, Counts, LacksChange, WrongNext, found, status_of};
ghost use Rattle.smith_c.specs.Makes.{code_of};
ghost use Rattle.smith_c.specs.declared.status.Status.{Status};
ghost use Rattle.smith_c.specs.declared.status.Status.TheVariants as status;
ghost use Rattle.smith_c.specs.declared.status.Status.TheVariants.{Answered, NoRoom};
ghost use Rattle.smith_input.specs.declared.error.Error.TheVariants.{OutOfMemory};

use crate::put::put;
use crate::status::Status;
use smith_change::{
    ChangeError, Misstep, Step, change_count, changed_bytes, next_changed, next_miswritten,
};
use smith_input::Error;
use std::alloc::Global;

// A refusal to change, as C sees it.
fn status_of(error: &ChangeError) -> Status
    ensures { result ≡ status_of error.now }
{
    match error {
        ChangeError::OutOfMemory => Status::Refused(Error::OutOfMemory),
        ChangeError::Unread { .. } => Status::Unread,
    }
}

// What is found, or the status if there is none.
fn found<T>(made: Result<Option<T>, ChangeError>) -> Result<T, Status>
    ensures { result ≡ found made }
{
    match made {
        Ok(Some(it)) => Ok(it),
        Ok(None) => Err(Status::NoChange),
        Err(error) => Err(status_of(&error)),
    }
}

// The component to which the change of that number leads.
fn changed(alloc: Global, bytes: &[u8], number: usize) -> Result<Vec<u8>, Status>
    ensures changes { IfOk result (λ b. Changes bytes.now number (Some b.items)) }
    ensures refuses { IfErr result (λ s. LacksChange (Changes bytes.now number None) bytes.now s) }
{
    found(changed_bytes(alloc, bytes, number))
}

// The first change from that number on that leads to a component.
fn next(alloc: Global, bytes: &[u8], from: usize) -> Result<Step, Status>
    ensures changes { IfOk result (λ s. ChangesNext bytes.now from (Some (s.number, s.bytes.items))) }
    ensures refuses { IfErr result (λ s. LacksChange (ChangesNext bytes.now from None) bytes.now s) }
{
    found(next_changed(alloc, bytes, from))
}

// The first bytes from that candidate on that are written wrongly.
fn next_wrong(alloc: Global, bytes: &[u8], from: usize) -> Result<Misstep, Status>
    ensures written { IfOk result (λ s. IsMisstep bytes.now from (Some (s.number, s.what, s.bytes.items))) }
    ensures refuses { IfErr result (λ s. ((s ≡ status.NoChange) × IsMisstep bytes.now from None)
        ⊎ (s ≡ status.Refused OutOfMemory)) }
{
    match next_miswritten(alloc, bytes, from) {
        Ok(Some(found)) => Ok(found),
        Ok(None) => Err(Status::NoChange),
        Err(_) => Err(Status::Refused(Error::OutOfMemory)),
    }
}

/// Counts the changes of a component, as `change_count` of `smith_change` does.
///
/// Returns the code of a `Status`. The count is 0 unless it is `Answered`.
#[unsafe(no_mangle)]
pub extern "C" fn lupinanon_proved_change_count(
    alloc: Global,
    bytes: &[u8],
    count: &mut usize,
) -> i32
    ensures answered { result ≡ code_of Answered → Counts bytes.now count.new }
    ensures stopped { result ≢ code_of Answered → (count.new ≡ 0) × (status : Status)
        × (result ≡ code_of status) × LacksChange (Unit {0}) bytes.now status }
{
    *count = 0;
    match change_count(alloc, bytes) {
        Ok(changes) => {
            *count = changes;
            Status::Answered.code()
        }
        Err(error) => status_of(&error).code(),
    }
}

/// Writes the component to which the change of that number leads to the front of the output, as `changed_bytes` of
/// `smith_change` has it.
///
/// Returns the code of a `Status`: `NoChange` if the change leads to nothing. If the output has no room, `changed_len`
/// is how long the component is, as when it is written, and otherwise it is 0. The output is unchanged unless the
/// component is written, and always unchanged after it.
#[unsafe(no_mangle)]
pub extern "C" fn lupinanon_proved_changed(
    alloc: Global,
    bytes: &[u8],
    number: usize,
    output: &mut [u8],
    changed_len: &mut usize,
) -> i32
    ensures answered { result ≡ code_of Answered → (changed_len.new ≤ length output.old)
        × Changes bytes.now number (Some (take changed_len.new output.new))
        × (drop changed_len.new output.new ≡ drop changed_len.new output.old) }
    ensures no_room { result ≡ code_of NoRoom → (length output.old < changed_len.new)
        × (changed : List ℕ) × (changed_len.new ≡ length changed) × Changes bytes.now number (Some changed) }
    ensures stopped { result ≢ code_of Answered → result ≢ code_of NoRoom → (changed_len.new ≡ 0)
        × (status : Status) × (result ≡ code_of status)
        × LacksChange (Changes bytes.now number None) bytes.now status }
    ensures kept { result ≢ code_of Answered → output.new ≡ output.old }
{
    *changed_len = 0;
    match changed(alloc, bytes, number) {
        Ok(changed) => put(&changed, output, changed_len),
        Err(status) => status.code(),
    }
}

/// Finds the first change, from that number on, that leads to a component, as `next_changed` of `smith_change` does. It
/// writes that component to the front of the output, and the number of the change.
///
/// Returns the code of a `Status`: `NoChange` if there is no such change. If the output has no room, `changed_len` is
/// how long the component is and `number` that of its change, as when it is written. Otherwise `changed_len` is 0, and
/// `number` is as it was. The output is unchanged unless the component is written, and always unchanged after it.
#[unsafe(no_mangle)]
pub extern "C" fn lupinanon_proved_next_changed(
    alloc: Global,
    bytes: &[u8],
    number: &mut usize,
    output: &mut [u8],
    changed_len: &mut usize,
) -> i32
    ensures answered { result ≡ code_of Answered → (changed_len.new ≤ length output.old)
        × ChangesNext bytes.now number.old (Some (number.new, take changed_len.new output.new))
        × (drop changed_len.new output.new ≡ drop changed_len.new output.old) }
    ensures no_room { result ≡ code_of NoRoom → (length output.old < changed_len.new) × (changed : List ℕ)
        × (changed_len.new ≡ length changed) × ChangesNext bytes.now number.old (Some (number.new, changed)) }
    ensures stopped { result ≢ code_of Answered → result ≢ code_of NoRoom → (changed_len.new ≡ 0)
        × (number.new ≡ number.old) × (status : Status) × (result ≡ code_of status)
        × LacksChange (ChangesNext bytes.now number.old None) bytes.now status }
    ensures kept { result ≢ code_of Answered → output.new ≡ output.old }
{
    *changed_len = 0;
    match next(alloc, bytes, *number) {
        Ok(step) => {
            *number = step.number;
            put(&step.bytes, output, changed_len)
        }
        Err(status) => status.code(),
    }
}

/// Finds the first candidate, from that number on, that no reader of the standard takes for a component, as
/// `next_miswritten` of `smith_change` does. It writes it to the front of the output, and its number.
///
/// The result, `miswritten_len`, `number` and the output are as for `lupinanon_proved_next_changed`.
#[unsafe(no_mangle)]
pub extern "C" fn lupinanon_proved_next_miswritten(
    alloc: Global,
    bytes: &[u8],
    number: &mut usize,
    output: &mut [u8],
    miswritten_len: &mut usize,
) -> i32
    ensures answered { result ≡ code_of Answered → (miswritten_len.new ≤ length output.old)
        × WrongNext bytes.now number.old (Some (number.new, take miswritten_len.new output.new))
        × (drop miswritten_len.new output.new ≡ drop miswritten_len.new output.old) }
    ensures no_room { result ≡ code_of NoRoom → (length output.old < miswritten_len.new) × (wrong : List ℕ)
        × (miswritten_len.new ≡ length wrong) × WrongNext bytes.now number.old (Some (number.new, wrong)) }
    ensures stopped { result ≢ code_of Answered → result ≢ code_of NoRoom
        → (miswritten_len.new ≡ 0) × (number.new ≡ number.old)
        × (((result ≡ code_of status.NoChange) × WrongNext bytes.now number.old None)
        ⊎ (result ≡ code_of (status.Refused OutOfMemory))) }
    ensures kept { result ≢ code_of Answered → output.new ≡ output.old }
{
    *miswritten_len = 0;
    match next_wrong(alloc, bytes, *number) {
        Ok(found) => {
            *number = found.number;
            put(&found.bytes, output, miswritten_len)
        }
        Err(status) => status.code(),
    }
}
