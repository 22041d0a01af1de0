//! Answers to rows about components: what is read of their bytes, their scripts, and what edits make of them.

use crate::bytes::Printed;
use crate::generations::is_generated;
use smith_component::Config;
use smith_edit::{item_count, joined, simplified, without};
use smith_read::{ComponentTree, ReadError, read, write};
use smith_script::{ScriptError, script};
use std::alloc::{AllocError, Global};

/// How many sections a component has, or what is wrong with the bytes, and where.
pub fn what_is_read(alloc: Global, bytes: &[u8]) -> Result<String, AllocError> {
    match read(alloc, bytes) {
        Ok(tree) => format!(in alloc; "sections: {}", tree.parts.len()),
        Err(ReadError::Malformed { offset, reason }) => {
            format!(in alloc; "{reason:?} at {offset}")
        }
        Err(error) => format!(in alloc; "{error:?}"),
    }
}

// Why there is no script: the limit that is not kept, or what else is wrong.
fn no_script(alloc: Global, error: &ScriptError) -> Result<String, AllocError> {
    match error {
        ScriptError::NoScript { limit: None, .. } => String::from_str(alloc, "= no script\n"),
        ScriptError::NoScript {
            limit: Some(limit),
            ..
        } => format!(in alloc; "= no script: {limit}\n"),
        why => format!(in alloc; "= no script: {why}\n"),
    }
}

/// Whether the component in these bytes has that input as its script, or is generated from its script if no input is
/// given; otherwise what its script is, or why it has none.
pub fn scripted(
    alloc: Global,
    limits: &Config,
    bytes: &[u8],
    input: Option<&[u8]>,
) -> Result<String, AllocError> {
    let script = match script(alloc, limits, bytes) {
        Ok(script) => script,
        Err(error) => return no_script(alloc, &error),
    };
    let (is_right, answer) = match input {
        Some(input) => (script.as_slice() == input, "= its script\n"),
        None => (
            is_generated(alloc, *limits, &script, b"", bytes)?,
            "= generated from its script\n",
        ),
    };
    if is_right {
        return String::from_str(alloc, answer);
    }
    format!(in alloc; "{}", Printed("script", &script))
}

fn written(alloc: Global, name: &'static str, tree: &ComponentTree) -> Result<String, AllocError> {
    match write(alloc, tree) {
        Ok(bytes) => format!(in alloc; "{}", Printed(name, &bytes)),
        Err(error) => format!(in alloc; "= not written: {error:?}\n"),
    }
}

/// The component in these bytes without each of its items, in their order.
pub fn smaller(alloc: Global, bytes: &[u8]) -> Result<String, AllocError> {
    let mut answers = String::new(alloc);
    let Ok(tree) = read(alloc, bytes) else {
        return String::from_str(alloc, "= no component\n");
    };
    // A component has fewer items than bytes.
    for item in 0..bytes.len() {
        let Some(less) = without(alloc, &tree, item)? else {
            return Ok(answers);
        };
        answers.push_str(&written(alloc, "without", &less)?)?;
    }
    Ok(answers)
}

/// The component in these bytes with each of its items made simpler, in their order.
pub fn simpler(alloc: Global, bytes: &[u8]) -> Result<String, AllocError> {
    let mut answers = String::new(alloc);
    let Ok(tree) = read(alloc, bytes) else {
        return String::from_str(alloc, "= no component\n");
    };
    for item in 0..item_count(&tree)? {
        let answer = match simplified(alloc, &tree, item)? {
            Some(simpler) => written(alloc, "simpler", &simpler)?,
            None => String::from_str(alloc, "= simplest\n")?,
        };
        answers.push_str(&answer)?;
    }
    Ok(answers)
}

/// The component in these bytes joined with itself.
pub fn doubled(alloc: Global, bytes: &[u8]) -> Result<String, AllocError> {
    let (Ok(left), Ok(right)) = (read(alloc, bytes), read(alloc, bytes)) else {
        return String::from_str(alloc, "= no component\n");
    };
    let both = joined(alloc, left, &right)?;
    written(alloc, "joined", &both)
}
