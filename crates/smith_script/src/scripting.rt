//! The script of a component.

ghost use Rattle.std.specs.Prelude.{◌≡◌, ◌≤◌, ◌↔◌, ℕ, List, IfOk, IfErr};
ghost use Rattle.smith_format.specs.Consistency.{IsConsistent};
ghost use Rattle.smith_input.specs.Script.{AreBytes};
ghost use Rattle.smith_tree.specs.Grammar.{Spells};
ghost use Rattle.smith_tree.specs.Script.{Within, script};
ghost use Rattle.smith_tree.specs.Tree.{Tree};
ghost use Rattle.smith_tree.specs.WellFormed.{WellFormed};
ghost use Rattle.smith_read.specs.PartNodes.{shown_tree};
ghost use Rattle.smith_script.specs.IsScript.{CannotBeGenerated, IsGiven, IsScript, IsScriptIfAny, IsDraft};
ghost use Rattle.smith_script.specs.Refusals.{AreReadAs, DiffersWithin, IsScriptRefusal, common_length};
ghost use Rattle.smith_script.specs.declared.error.ScriptError.TheVariants.{InconsistentLimits, OutOfMemory};
ghost use Rattle.smith_script.specs.declared.scripting.Trial.TheVariants as trial;

use crate::error::{ScriptError, Unkept};
use crate::limits::unkept;
use crate::parts::say_tree;
use smith_check::{Judgement, judged};
use smith_component::generate;
use smith_format::Config;
use smith_input::{Error, Unstructured};
use smith_read::{ComponentTree, ReadError, read};
use smith_script_types::Given;
use std::alloc::{AllocError, Global};

// What an input produces, when these bytes are expected.
#[derive(Clone, Copy)]
enum Trial {
    // These bytes, and nothing of the input is left.
    These,
    // Others, or something is left. Both begin with that many bytes.
    Others(usize),
    // No component.
    Nothing,
}

// The script of a component, as it is defined.
#[derive(Drop)]
enum Draft {
    // The whole script.
    Whole(Vec<u8>),
    // What precedes a choice that no bytes say.
    Part(Vec<u8>),
}

// How many bytes both begin with.
fn common_length(one: &[u8], other: &[u8]) -> usize
    ensures { result ≡ common_length one.now other.now }
{
    let most = one.len().min(other.len());
    for index in 0..most {
        if one[index] != other[index] {
            return index;
        }
    }
    most
}

// Out of memory aside, a refusal says that an input produces no component.
fn refused(error: Error) -> Result<Trial, AllocError>
    ensures { IfOk result (λ t. (t ≡ trial.Nothing) × ¬ (error ≡ Error.OutOfMemory)) }
{
    match error {
        Error::OutOfMemory => Err(AllocError),
        _ => Ok(Trial::Nothing),
    }
}

// Does the input produce a component of these bytes, and is nothing left?
fn tried(alloc: Global, config: &Config, input: &[u8], bytes: &[u8]) -> Result<Trial, AllocError>
    ensures answered { IfOk result
        (λ x. x ≡ trial.These → (t : Tree) → Spells t bytes.now → IsGiven config.now t input.now) }
    ensures refuses { IfOk result
        (λ x. ¬ (x ≡ trial.These) → (t : Tree) → Spells t bytes.now → ¬ IsGiven config.now t input.now) }
    ensures offset { IfOk result (DiffersWithin bytes.now) }
    ensures bytes { AreBytes input.now }
{
    let mut left = Unstructured::new(input);
    match generate(alloc, *config, &mut left) {
        Ok(generated) => {
            if left.is_empty() && generated.bytes.as_slice() == bytes {
                return Ok(Trial::These);
            }
            Ok(Trial::Others(common_length(&generated.bytes, bytes)))
        }
        Err(error) => refused(error),
    }
}

// The script of a component that is well formed, as it is defined.
fn drafted(alloc: Global, config: &Config, tree: &ComponentTree) -> Result<Draft, AllocError>
    requires formed { WellFormed (shown_tree tree.now) }
    requires names { config.now.max_name_length ≤ 100 }
    ensures { IfOk result (IsDraft (script config.now (shown_tree tree.now))) }
{
    let mut input = Vec::new(alloc);
    match say_tree(&mut input, Given { alloc, config }, tree) {
        Ok(()) => Ok(Draft::Whole(input)),
        Err(Error::OutOfMemory) => Err(AllocError),
        Err(_) => Ok(Draft::Part(input)),
    }
}

// Does a script produce the component if components need not validate?
fn would_be_given(given: Given<'_>, bytes: &[u8], tree: &ComponentTree) -> Result<bool, AllocError>
    requires { WellFormed (shown_tree tree.now) }
{
    let config = Config {
        must_validate: false,
        ..*given.config
    };
    let Draft::Whole(input) = drafted(given.alloc, &config, tree)? else {
        return Ok(false);
    };
    let trial = tried(given.alloc, &config, &input, bytes)?;
    Ok(matches!(trial, Trial::These))
}

// The limit that the component does not keep, if one is found.
fn limit_of(
    given: Given<'_>,
    bytes: &[u8],
    tree: &ComponentTree,
) -> Result<Option<Unkept>, AllocError>
    requires { WellFormed (shown_tree tree.now) }
{
    let limit = unkept(given, tree)?;
    let demands = limit.is_none() && given.config.must_validate;
    if demands && would_be_given(given, bytes, tree)? {
        return Ok(Some(Unkept::On {
            name: "must_validate",
        }));
    }
    Ok(limit)
}

// That no input produces the component, when its script was tried, or as much of it as there is.
fn no_script(
    given: Given<'_>,
    bytes: &[u8],
    tree: &ComponentTree,
    tried: Trial,
) -> Result<ScriptError, AllocError>
    requires read { AreReadAs bytes.now (shown_tree tree.now) }
    requires offset { DiffersWithin bytes.now tried }
    ensures why { IfOk result (IsScriptRefusal bytes.now) }
    ensures limits { IfOk result (λ e. ¬ (e ≡ InconsistentLimits)) }
{
    let offset = match tried {
        Trial::Others(common) => Some(common),
        _ => None,
    };
    let limit = limit_of(given, bytes, tree)?;
    Ok(ScriptError::NoScript { limit, offset })
}

// The script of a component that is well formed: written as it is defined, and tried.
fn written(
    alloc: Global,
    config: &Config,
    bytes: &[u8],
    tree: &ComponentTree,
) -> Result<Vec<u8>, ScriptError>
    requires consistent { IsConsistent config.now }
    requires read { AreReadAs bytes.now (shown_tree tree.now) }
    ensures answered { IfOk result (λ b. IsScript config.now (shown_tree tree.now) b.items) }
    ensures refuses { IfErr result
        (λ e. ¬ (e ≡ OutOfMemory) → (b : List ℕ) → ¬ IsScript config.now (shown_tree tree.now) b) }
    ensures why { IfErr result (IsScriptRefusal bytes.now) }
    ensures limits { IfErr result (λ e. ¬ (e ≡ InconsistentLimits)) }
{
    let given = Given { alloc, config };
    let input = match drafted(alloc, config, tree)? {
        Draft::Whole(input) => input,
        Draft::Part(input) => {
            let part = tried(alloc, config, &input, bytes)?;
            return Err(no_script(given, bytes, tree, part)?);
        }
    };
    match tried(alloc, config, &input, bytes)? {
        Trial::These => Ok(input),
        other => Err(no_script(given, bytes, tree, other)?),
    }
}

// The same, without a reason.
fn written_if_any(
    alloc: Global,
    config: &Config,
    tree: &ComponentTree,
    bytes: &[u8],
) -> Result<Option<Vec<u8>>, AllocError>
    requires consistent { IsConsistent config.now }
    requires spelled { Spells (shown_tree tree.now) bytes.now }
    requires formed { WellFormed (shown_tree tree.now) }
    ensures { IfOk result (IsScriptIfAny config.now (shown_tree tree.now)) }
{
    let Draft::Whole(input) = drafted(alloc, config, tree)? else {
        return Ok(None);
    };
    match tried(alloc, config, &input, bytes)? {
        Trial::These => Ok(Some(input)),
        _ => Ok(None),
    }
}

/// The script of a component, which these bytes spell, or none if it has no script within the limits.
///
/// It is what [`script`] returns for the bytes, which are not read: the component is judged, and its script is written
/// and tried. No reason for a refusal is looked for. `Err` is returned only if an allocation failed.
pub fn script_of(
    alloc: Global,
    config: &Config,
    tree: &ComponentTree,
    bytes: &[u8],
) -> Result<Option<Vec<u8>>, AllocError>
    requires { Spells (shown_tree tree.now) bytes.now }
    ensures { IfOk result (IsScriptIfAny config.now (shown_tree tree.now)) }
{
    if config.check().is_err() {
        return Ok(None);
    }
    match judged(alloc, tree)? {
        Judgement::WellFormed => written_if_any(alloc, config, tree, bytes),
        Judgement::IllFormed(_fault) => Ok(None),
    }
}

// The script of the component that these bytes are, if the limits fit together: read, judged, written and tried.
fn consistent_script(alloc: Global, config: &Config, bytes: &[u8]) -> Result<Vec<u8>, ScriptError>
    requires { IsConsistent config.now }
    ensures answered { IfOk result (λ b. (t : Tree) × Spells t bytes.now × IsScript config.now t b.items) }
    ensures refuses { IfErr result (λ e. ¬ (e ≡ OutOfMemory)
        → (t : Tree) → Spells t bytes.now → (b : List ℕ) → ¬ IsScript config.now t b) }
    ensures why { IfErr result (IsScriptRefusal bytes.now) }
    ensures limits { IfErr result (λ e. ¬ (e ≡ InconsistentLimits)) }
{
    let tree = match read(alloc, bytes) {
        Ok(tree) => tree,
        Err(ReadError::OutOfMemory) => return Err(ScriptError::OutOfMemory),
        Err(ReadError::Malformed { offset, reason }) => {
            return Err(ScriptError::Unread { reason, offset });
        }
    };
    match judged(alloc, &tree)? {
        Judgement::WellFormed => written(alloc, config, bytes, &tree),
        Judgement::IllFormed(fault) => Err(ScriptError::IllFormed(fault)),
    }
}

/// The script of the component that these bytes are: the input from which `generate` produces them, with nothing left.
///
/// The bytes are read and judged, the script is written as it is defined, and tried: it is returned exactly if
/// `generate` produces the bytes from it. The time is linear in the bytes and the script, times a logarithm.
pub fn script(alloc: Global, config: &Config, bytes: &[u8]) -> Result<Vec<u8>, ScriptError>
    ensures answered { IfOk result
        (λ b. (t : Tree) × Spells t bytes.now × IsScript config.now t b.items) }
    ensures refuses { IfErr result (λ e. ¬ (e ≡ OutOfMemory)
        → (t : Tree) → Spells t bytes.now → (b : List ℕ) → ¬ IsScript config.now t b) }
    // `Unread` says that the bytes are not read, `IllFormed` that what is read is not well formed, and `NoScript` that
    // it is. An offset is in the bytes or at their end.
    ensures why { IfErr result (IsScriptRefusal bytes.now) }
    // Exactly if the limits do not fit together, that is the refusal.
    ensures limits { IfErr result (λ e. (e ≡ InconsistentLimits) ↔ (¬ IsConsistent config.now)) }
    // A plan is refused only if memory runs out.
    ensures plans { (t : Tree) → Spells t bytes.now → IsConsistent config.now → Within config.now t
        → IfErr result (λ e. e ≡ OutOfMemory) }
    // No input produces what is refused for another reason.
    ensures no_input { IsConsistent config.now → IfErr result (λ e. ¬ (e ≡ OutOfMemory)
        → (t : Tree) → Spells t bytes.now → CannotBeGenerated config.now t) }
{
    if config.check().is_err() {
        return Err(ScriptError::InconsistentLimits);
    }
    consistent_script(alloc, config, bytes)
}
