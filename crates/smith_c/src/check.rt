//! Whether bytes in memory of the caller's are a well-formed component.

ghost use Rattle.std.specs.Prelude.{◌≡◌, ◌≤◌, ◌⊎◌};
ghost use Rattle.smith_tree.specs.Depths.{scope_depth};
ghost use Rattle.smith_tree.specs.Grammar.{Spells};
ghost use Rattle.smith_tree.specs.Tree.{Tree};
ghost use Rattle.smith_tree.specs.WellFormed.{WellFormed};
ghost use Rattle.smith_read.specs.Reads.{AreUnread, most_depth};
ghost use Rattle.smith_verdict.specs.Verdicts.{IsBrokenAt};
ghost use Rattle.smith_c.specs.Makes.{code_of, no_offset};
ghost use Rattle.smith_c.specs.declared.status.Status.TheVariants.{Answered, Refused, IllFormed, Unread};
ghost use Rattle.smith_input.specs.declared.error.Error.TheVariants.{OutOfMemory};

use crate::status::Status;
use smith_input::Error;
use smith_verdict::{Verdict, check};
use std::alloc::Global;

/// Whether the bytes are a component that is well formed, as `check` of `smith_verdict` says.
///
/// Returns the code of a `Status`: `Answered`, `IllFormed`, `Unread` or `OutOfMemory`. `offset` is where the entry that
/// breaks a rule begins, or where the bytes were found not to be a component, which is always known. Otherwise it is
/// 2^64 - 1.
#[unsafe(no_mangle)]
pub extern "C" fn lupinanon_proved_check(alloc: Global, bytes: &[u8], offset: &mut usize) -> i32
    ensures well_formed { result ≡ code_of Answered
        → ((component : Tree) × Spells component bytes.now × WellFormed component) × (offset.new ≡ no_offset) }
    ensures ill_formed { result ≡ code_of IllFormed → (component : Tree) × Spells component bytes.now
        × (¬ WellFormed component) × IsBrokenAt component offset.new }
    ensures unread { result ≡ code_of Unread → AreUnread bytes.now offset.new }
    ensures out_of_memory { result ≡ code_of (Refused OutOfMemory) → offset.new ≡ no_offset }
    ensures statuses { (result ≡ code_of Answered) ⊎ (result ≡ code_of IllFormed) ⊎ (result ≡ code_of Unread)
        ⊎ (result ≡ code_of (Refused OutOfMemory)) }
    // A well-formed component is found to be one, allocation failure aside.
    ensures answers { (component : Tree) → Spells component bytes.now → WellFormed component
        → scope_depth component ≤ most_depth → (result ≡ code_of Answered) ⊎ (result ≡ code_of (Refused OutOfMemory)) }
{
    *offset = usize::MAX;
    match check(alloc, bytes) {
        Ok(Verdict::WellFormed) => Status::Answered.code(),
        Ok(Verdict::IllFormed { offset: entry, .. }) => {
            *offset = entry.unwrap_or(usize::MAX);
            Status::IllFormed.code()
        }
        Ok(Verdict::Unread { offset: place, .. }) => {
            *offset = place;
            Status::Unread.code()
        }
        Err(_) => Status::Refused(Error::OutOfMemory).code(),
    }
}
