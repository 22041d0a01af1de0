//! Which limit a component does not keep. No contract depends on it.

use crate::error::Unkept;
use crate::needs::Needs;
use smith_input::MOST_NAME_LEN;
use smith_read::ComponentTree;
use smith_script_types::Given;
use std::alloc::AllocError;

// That there is more than a limit has.
fn above(name: &'static str, value: usize, count: usize) -> Option<Unkept> {
    (count > value).then_some(Unkept::Above { name, value })
}

// That there is less.
fn below(name: &'static str, value: usize, count: usize) -> Option<Unkept> {
    (count < value).then_some(Unkept::Below { name, value })
}

// That there is what takes a feature that is off.
fn off(name: &'static str, is_on: bool, is_needed: bool) -> Option<Unkept> {
    (is_needed && !is_on).then_some(Unkept::Off { name })
}

/// A limit that a component does not keep, if one is found.
pub(crate) fn unkept(given: Given<'_>, tree: &ComponentTree) -> Result<Option<Unkept>, AllocError> {
    let config = given.config;
    let needs = Needs::of(given.alloc, tree)?;
    let [module_funcs, tables, memories, globals, tags] = needs.kinds;
    let funcs = needs.funcs.max(module_funcs);
    let depth = config.max_nesting_depth.max(1);
    let size = config.max_type_size as usize;
    let references = config.reference_types_enabled;
    let exceptions = config.exceptions_enabled;
    let multi_value = config.multi_value_enabled;
    let limits = [
        above("max_nesting_depth", depth, needs.depth),
        above("max_types", config.max_types, needs.types),
        above("max_imports", config.max_imports, needs.imports),
        above("max_exports", config.max_exports, needs.exports),
        above("max_funcs", config.max_funcs, funcs),
        above("max_modules", config.max_modules, needs.modules),
        above("max_components", config.max_components, needs.components),
        above("max_instances", config.max_instances, needs.instances),
        above("max_tables", config.max_tables, tables),
        above("max_memories", config.max_memories, memories),
        above("max_globals", config.max_globals, globals),
        above("max_tags", config.max_tags, tags),
        above("max_type_size", size, needs.type_size),
        above("max_name_length", config.max_name_length, needs.name).filter(
            |_| config.max_name_length < MOST_NAME_LEN,
        ),
        off("allow_floats", config.allow_floats, needs.floats),
        off("simd_enabled", config.simd_enabled, needs.simd),
        off("reference_types_enabled", references, needs.references),
        off("exceptions_enabled", exceptions, needs.exceptions),
        off("multi_value_enabled", multi_value, needs.multi_value),
        below("min_types", config.min_types, needs.least_types),
        below("min_imports", config.min_imports, needs.least_imports),
        below("min_funcs", config.min_funcs, needs.least_funcs),
        below("finish_after", config.finish_after, needs.least_sections),
    ];
    Ok(limits.into_iter().flatten().next())
}
