//! Answers to rows without bytes: the texts of errors, the default limits, and a component that is not written.

use smith_component::{Config, Error};
use smith_limits::{DEFAULT_LIMITS, FUZZ_LIMITS, KEYS, limits_of, limits_of_text};
use smith_read::{ComponentTree, PartNode, write};
use smith_script::{Reason, ScriptError, Unkept};
use smith_swarm::fuzz_limits;
use std::alloc::{AllocError, Global};

const ERRORS: [Error; 6] = [
    Error::InconsistentLimits,
    Error::MinimumNotMet,
    Error::ModuleRefused,
    Error::TooLong,
    Error::OutOfMemory,
    Error::PartsDisagree,
];

// Limits that are not kept, and where that is seen.
const UNKEPT: [(Option<Unkept>, Option<usize>); 5] = [
    (None, None),
    (None, Some(12)),
    (
        Some(Unkept::Above {
            name: "max_types",
            value: 2,
        }),
        Some(8),
    ),
    (
        Some(Unkept::Off {
            name: "simd_enabled",
        }),
        None,
    ),
    (
        Some(Unkept::On {
            name: "must_validate",
        }),
        Some(24),
    ),
];

/// The texts of the errors of `generate` and of `script`.
pub fn texts(alloc: Global) -> Result<String, AllocError> {
    let mut answers = String::new(alloc);
    for error in ERRORS.iter() {
        answers.push_str(&format!(in alloc; "= {error:?}: {error}\n")?)?;
    }
    for (limit, offset) in UNKEPT {
        let error = ScriptError::NoScript { limit, offset };
        answers.push_str(&format!(in alloc; "= no script: {error}\n")?)?;
    }
    let unread = ScriptError::Unread {
        reason: Reason::Preamble,
        offset: 0,
    };
    for error in [
        ScriptError::OutOfMemory,
        ScriptError::InconsistentLimits,
        unread,
    ] {
        answers.push_str(&format!(in alloc; "= no script: {error:?}: {error}\n")?)?;
    }
    Ok(answers)
}

/// Whether the text of the default limits sets each limit, and all of them are the defaults; and whether the text of
/// the profile sets its limits.
pub fn defaults(alloc: Global) -> Result<String, AllocError> {
    let Ok(table) = toml::table_from_str(alloc, DEFAULT_LIMITS) else {
        return String::from_str(alloc, "= no limits\n");
    };
    // Every key of a table that sets limits is a limit, so that as many keys as limits are each of them.
    let sets_each = table.len() == KEYS.len();
    let are_defaults = limits_of(alloc, &table) == Ok(Config::default());
    let are_fuzz = limits_of_text(alloc, FUZZ_LIMITS) == Ok(fuzz_limits());
    format!(in alloc;
        "= sets each limit: {sets_each}, all of them the defaults: {are_defaults}\n\
        = sets those of the profile: {are_fuzz}\n"
    )
}

/// What is returned for writing a component of one core module that has no bytes, and so no preamble.
pub fn unwritten(alloc: Global) -> Result<String, AllocError> {
    let mut parts = Vec::new(alloc);
    parts.push(PartNode::CoreModule(Vec::new(alloc)))?;
    match write(alloc, &ComponentTree { parts }) {
        Ok(_) => String::from_str(alloc, "= bytes\n"),
        Err(error) => format!(in alloc; "= not written: {error:?}: {error}\n"),
    }
}
