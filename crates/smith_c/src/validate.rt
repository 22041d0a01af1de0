//! What bytes in memory of the caller's are to validators of the standard.

ghost use Rattle.std.specs.Prelude.{◌≡◌, ◌≤◌, ◌⊎◌, Some};
ghost use Rattle.smith_tree.specs.Depths.{scope_depth};
ghost use Rattle.smith_tree.specs.Grammar.{Spells};
ghost use Rattle.smith_tree.specs.Tree.{Tree};
ghost use Rattle.smith_read.specs.Reads.{most_depth};
ghost use Rattle.smith_verdict.specs.Answers.{AreBeyond, AreOutside, IsAnswer, IsSound};
ghost use Rattle.smith_c.specs.Makes.{code_of, no_offset};
ghost use Rattle.smith_c.specs.Rules.{bound_number, broken_number, no_rule, outside_number};
ghost use Rattle.smith_c.specs.declared.status.Status.TheVariants as status;
ghost use Rattle.smith_input.specs.declared.error.Error.TheVariants.{OutOfMemory};

use crate::rules::{bound_number, broken_number, outside_number};
use crate::status::Status;
use smith_input::Error;
use smith_verdict::{Answer, Bound, Broken, Outside, answer};
use std::alloc::Global;

/// What the bytes are to validators of the standard, as `answer` of `smith_verdict` says.
///
/// Returns the code of a `Status`: `Answered`, which is valid, `Invalid`, `Bound`, `Outside` or `OutOfMemory`. `rule`
/// is the number of what is broken, of the bound, or of why nothing is known, and `offset` is where that was found,
/// which is always known. If the bytes are valid or memory runs out, both are 2^64 - 1.
#[unsafe(no_mangle)]
pub extern "C" fn lupinanon_proved_validate(
    alloc: Global,
    bytes: &[u8],
    rule: &mut usize,
    offset: &mut usize,
) -> i32
    ensures valid { result ≡ code_of status.Answered
        → ((component : Tree) × Spells component bytes.now × IsSound component)
        × (rule.new ≡ no_rule) × (offset.new ≡ no_offset) }
    // They spell a component that is broken, `AreBroken`, or have not the frames of one, `AreUnframed`.
    ensures invalid { result ≡ code_of status.Invalid → (broken : Broken) × (rule.new ≡ broken_number broken)
        × IsAnswer bytes.now (Answer.Invalid broken (Some offset.new)) }
    ensures bound { result ≡ code_of status.Bound
        → ((bound : Bound) × (rule.new ≡ bound_number bound)) × AreBeyond bytes.now offset.new }
    ensures outside { result ≡ code_of status.Outside
        → ((why : Outside) × (rule.new ≡ outside_number why)) × AreOutside bytes.now }
    ensures statuses { (result ≡ code_of status.Answered) ⊎ (result ≡ code_of status.Invalid)
        ⊎ (result ≡ code_of status.Bound) ⊎ (result ≡ code_of status.Outside)
        ⊎ ((result ≡ code_of (status.Refused OutOfMemory)) × (rule.new ≡ no_rule) × (offset.new ≡ no_offset)) }
    // A sound component is found to be valid, allocation failure aside.
    ensures answers { (component : Tree) → Spells component bytes.now → scope_depth component ≤ most_depth
        → IsSound component → (result ≡ code_of status.Answered) ⊎ (result ≡ code_of (status.Refused OutOfMemory)) }
{
    let (status, number, place) = match answer(alloc, bytes) {
        Ok(Answer::Valid) => (Status::Answered, usize::MAX, None),
        Ok(Answer::Invalid { rule, offset }) => (Status::Invalid, broken_number(rule), offset),
        Ok(Answer::Bound { demand, offset }) => (Status::Bound, bound_number(demand), offset),
        Ok(Answer::Outside { why, offset }) => (Status::Outside, outside_number(why), offset),
        Err(_) => (Status::Refused(Error::OutOfMemory), usize::MAX, None),
    };
    *rule = number;
    *offset = place.unwrap_or(usize::MAX);
    status.code()
}
