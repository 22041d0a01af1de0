//! How it is found what bytes are to every validator of the standard.

ghost use Rattle.std.specs.Prelude.{◌≤◌, ℕ, List, IfOk, Some};
ghost use Rattle.smith_tree.specs.Depths.{scope_depth};
ghost use Rattle.smith_tree.specs.Grammar.{Spells};
ghost use Rattle.smith_tree.specs.Tree.{Tree, modules as module_texts};
ghost use Rattle.smith_tree.specs.Validates.{Validates};
ghost use Rattle.smith_tree.specs.WellFormed.{WellFormed};
ghost use Rattle.smith_read.specs.Items.{items};
ghost use Rattle.smith_read.specs.PartNodes.{shown_tree};
ghost use Rattle.smith_read.specs.Reads.{AreUnread, most_depth};
ghost use Rattle.smith_check.specs.Judgement.{Agrees};
ghost use Rattle.smith_validate.specs.Outcome.{FallsShort};
ghost use Rattle.smith_verdict.specs.Answers.{AreUnframed, IsAnswer};
ghost use Rattle.smith_verdict.specs.Findings.{IsFound};
ghost use Rattle.smith_verdict.specs.ModuleWalk.{AreModules};
ghost use Rattle.smith_verdict.specs.Shows.{IsContained};

use crate::answers::{Answer, Bound, Broken, Outside};
use crate::contained::{Contained, check_contents};
use crate::module_walk::{Modules, check_modules};
use smith_check::{Asker, Fault, Judgement, judged};
use smith_core::CORE_PREAMBLE;
use smith_read::{BrokenFrame, ComponentTree, Framing, ReadError, Reason, framed, offset_of, read};
use smith_validate::{Demand, Shortfall, Validity, validated};
use std::alloc::{AllocError, Global};

fn frame_reason(frame: BrokenFrame) -> Broken
    ensures { (bytes : List ℕ) (offset : ℕ) → AreUnframed bytes offset
        → IsAnswer bytes (Answer.Invalid result (Some offset)) }
{
    match frame {
        BrokenFrame::Preamble => Broken::Preamble,
        BrokenFrame::Section => Broken::Section,
        BrokenFrame::Frame => Broken::Frame,
        BrokenFrame::Count => Broken::Count,
    }
}

/// What a component is that was read, and the number of the item with which that was found.
#[derive(Clone, Copy)]
pub(crate) enum Finding {
    Valid,
    Invalid(Broken, usize),
    Bound(Bound, usize),
    Outside(Outside, usize),
}

#[tactic(auto, using(crate::proofs::Answering::fault_outside, crate::proofs::Answering::fault_broken))]
fn found_fault(fault: Fault) -> Finding
    ensures { (t : Tree) → Agrees t (Judgement.IllFormed fault) → IsFound t result }
{
    match fault.asked_by {
        Asker::Standard => Finding::Invalid(Broken::Rule(fault.rule), fault.item),
        Asker::Lupinanon => Finding::Outside(Outside::Rule(fault.rule), fault.item),
    }
}

#[tactic(auto, using(crate::proofs::Answering::unnamed, crate::proofs::Answering::beyond))]
fn found_shortfall(shortfall: Shortfall) -> Finding
    ensures { (t : Tree) → WellFormed t → FallsShort shortfall.demand shortfall.item t → IsFound t result }
{
    match shortfall.demand {
        Demand::Named => Finding::Invalid(Broken::Named, shortfall.item),
        Demand::Size => Finding::Bound(Bound::Size, shortfall.item),
        Demand::Count => Finding::Bound(Bound::Count, shortfall.item),
        Demand::Memories => Finding::Bound(Bound::Memories, shortfall.item),
        Demand::Tables => Finding::Bound(Bound::Tables, shortfall.item),
    }
}

// What is found of a component that is well formed and meets all demands.
fn found_within(contents: Contained, modules: Modules) -> Finding
    ensures { (t : Tree) → WellFormed t → Validates t → IsContained t contents
        → AreModules (items t) (module_texts t) modules → IsFound t result }
{
    match contents {
        Contained::Reference(item) => Finding::Outside(Outside::Reference, item),
        Contained::TooMuch(item) => Finding::Bound(Bound::Contents, item),
        Contained::Plain => match modules {
            Modules::Sound => Finding::Valid,
            Modules::Broken(item) => Finding::Invalid(Broken::Module, item),
            Modules::Bounded(item) => Finding::Bound(Bound::Module, item),
            Modules::Other(item) => Finding::Outside(Outside::Module, item),
        },
    }
}

// What is broken comes before what is beyond a bound, and that before what is not judged.
fn found_formed(alloc: Global, component: &ComponentTree) -> Result<Finding, AllocError>
    requires { WellFormed (shown_tree component.now) }
    ensures { IfOk result (IsFound (shown_tree component.now)) }
{
    let modules = check_modules(alloc, component)?;
    if let Modules::Broken(item) = modules {
        return Ok(Finding::Invalid(Broken::Module, item));
    }
    match validated(alloc, component)? {
        Validity::Invalid(shortfall) => Ok(found_shortfall(shortfall)),
        Validity::Valid => {
            let contents = check_contents(alloc, component)?;
            Ok(found_within(contents, modules))
        }
    }
}

fn found_in(alloc: Global, component: &ComponentTree) -> Result<Finding, AllocError>
    ensures { IfOk result (IsFound (shown_tree component.now)) }
{
    match judged(alloc, component)? {
        Judgement::WellFormed => found_formed(alloc, component),
        Judgement::IllFormed(fault) => Ok(found_fault(fault)),
    }
}

// What the bytes of a component are that was read.
fn component_answer(
    alloc: Global,
    bytes: &[u8],
    component: &ComponentTree,
) -> Result<Answer, AllocError>
    requires spelled { Spells (shown_tree component.now) bytes.now }
    requires shallow { scope_depth (shown_tree component.now) ≤ most_depth }
    ensures { IfOk result (IsAnswer bytes.now) }
{
    match found_in(alloc, component)? {
        Finding::Valid => Ok(Answer::Valid),
        Finding::Invalid(rule, item) => {
            let offset = offset_of(alloc, bytes, item)?;
            Ok(Answer::Invalid { rule, offset })
        }
        Finding::Bound(demand, item) => {
            let offset = offset_of(alloc, bytes, item)?;
            Ok(Answer::Bound { demand, offset })
        }
        Finding::Outside(why, item) => {
            let offset = offset_of(alloc, bytes, item)?;
            Ok(Answer::Outside { why, offset })
        }
    }
}

// What bytes are that no component was read from.
fn unread_answer(
    alloc: Global,
    bytes: &[u8],
    reason: Reason,
    offset: usize,
) -> Result<Answer, AllocError>
    requires { AreUnread bytes.now offset }
    ensures { IfOk result (IsAnswer bytes.now) }
{
    if bytes.starts_with(&CORE_PREAMBLE) {
        let why = Outside::Module;
        let offset = Some(0);
        return Ok(Answer::Outside { why, offset });
    }
    match framed(alloc, bytes)? {
        Framing::Framed => {
            let why = Outside::Unread(reason);
            let offset = Some(offset);
            Ok(Answer::Outside { why, offset })
        }
        Framing::Unframed { broken, offset } => {
            let rule = frame_reason(broken);
            let offset = Some(offset);
            Ok(Answer::Invalid { rule, offset })
        }
    }
}

/// What these bytes are to validators of the standard. `Err` is returned only if an allocation failed, and says nothing
/// about them.
///
/// `Valid` and `Invalid` are proved: a validator that accepts what is `Invalid`, or refuses what is `Valid` although it
/// has all features and bounds no lower than wasmparser's, has a fault. A component is `Valid` exactly if it is sound:
/// well formed, with all names and within all bounds, without concrete references, and with core modules that every
/// validator has to accept.
///
/// It takes time in proportion to the bytes times a logarithm, except for long chains of instance types, each of which
/// exports an instance of the one before. Its stack is bounded by how deep types nest.
pub fn answer(alloc: Global, bytes: &[u8]) -> Result<Answer, AllocError>
    ensures { IfOk result (IsAnswer bytes.now) }
{
    match read(alloc, bytes) {
        Ok(component) => component_answer(alloc, bytes, &component),
        Err(ReadError::OutOfMemory) => Err(AllocError),
        Err(ReadError::Malformed { offset, reason }) => {
            unread_answer(alloc, bytes, reason, offset)
        }
    }
}
