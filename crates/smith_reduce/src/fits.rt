//! Which components fit limits.
#![tactic(auto, using(crate::proofs::Loops::one_has, crate::proofs::Loops::all_have))]

ghost use Rattle.std.specs.Prelude.{◌≡◌, ◌≤◌, true, IfOk, length, map};
ghost use Rattle.std.specs.List.{AllByRecursion};
ghost use Rattle.std.specs.Str.{IsUtf8};
ghost use Rattle.smith_tree.specs.Limits.{max_depth};
ghost use Rattle.smith_tree.specs.Readable.{IsFinishable, StandsForModule};
ghost use Rattle.smith_tree.specs.Shown.{shown_export};
ghost use Rattle.smith_tree.specs.Tree.{declared_depth, depth_by_in, most, tree_of};
ghost use Rattle.smith_tree.specs.TypeNeeds.{declaring};
ghost use Rattle.smith_tree.specs.WellFormed.{export_names, import_names};
ghost use Rattle.smith_read.specs.Nodes.{shown_core_node};
ghost use Rattle.smith_read.specs.PartNodes.{shown_import_node, shown_part_node, shown_tree};
ghost use Rattle.smith_read.specs.TypeNodes.{shown_type_node};
ghost use Rattle.smith_reduce.specs.Fits.{AreShort, Fits, FitsCoreType, FitsPart, FitsType};

mod core_types;
mod types;

use core_types::fits_core;
use smith_format::Config;
use smith_read::{ComponentTree, CoreNode, ImportNode, PartNode, TypeNode};
use smith_script::is_stand_in;
use smith_script_types::core_size;
use smith_tree::Export;
use std::alloc::{AllocError, Global};
use types::{fits_type, is_short, type_cost};

// Does a core type of a component fit the limits, with as much fuel as they allow?
#[tactic(auto, using(crate::proofs::Needed::core_needed))]
fn fits_own_core_type(config: &Config, ty: &CoreNode) -> bool
    ensures { result ≡ true → FitsCoreType config.now (shown_core_node ty.now) }
{
    core_size(ty).saturating_add(2) <= config.max_type_size as usize && fits_core(config, ty)
}

fn fits_core_types(config: &Config, types: &[CoreNode]) -> bool
    ensures { result ≡ true → AllByRecursion (FitsCoreType config.now) (map shown_core_node types.now) }
{
    for ty in types {
        if !fits_own_core_type(config, ty) {
            return false;
        }
    }
    true
}

// Does a type of a component, if it may declare types at most so deep below the component?
#[tactic(auto, using(crate::proofs::Needed::needed))]
fn fits_own_type(config: &Config, ty: &TypeNode, room: usize) -> Result<bool, AllocError>
    ensures { IfOk result (λ r. r ≡ true
        → FitsType config.now (shown_type_node ty.now) × (declaring (shown_type_node ty.now) ≤ room)) }
{
    let need = type_cost(ty)?.saturating_add(2);
    Ok(need <= config.max_type_size as usize && fits_type(config, ty, room))
}

fn fits_types(config: &Config, types: &[TypeNode], room: usize) -> Result<bool, AllocError>
    ensures { let all = map shown_type_node types.now in IfOk result (λ r. r ≡ true
        → AllByRecursion (FitsType config.now) all × (most declaring all ≤ room)) }
{
    for ty in types {
        if !fits_own_type(config, ty, room)? {
            return Ok(false);
        }
    }
    Ok(true)
}

fn has_short_imports(config: &Config, imports: &[ImportNode]) -> bool
    ensures { result ≡ true → AreShort config.now (import_names (map shown_import_node imports.now)) }
{
    for import in imports {
        if !is_short(config, &import.name) {
            return false;
        }
    }
    true
}

fn has_short_exports(config: &Config, exports: &[Export]) -> bool
    ensures { result ≡ true → AreShort config.now (export_names (map shown_export exports.now)) }
{
    for export in exports {
        if !is_short(config, &export.name) {
            return false;
        }
    }
    true
}

// Can the name of a custom section be read?
fn is_section_name(name: &str) -> bool
    ensures { result ≡ true → IsUtf8 name.now × (length name.now ≤ 1000) }
{
    name.len() <= 1000
}

// Does a core module stand for a generated one?
#[tactic(auto, using(crate::proofs::ModuleFits::stands_for_module))]
fn stands_in(alloc: Global, config: &Config, text: &[u8]) -> Result<bool, AllocError>
    ensures { IfOk result (λ r. r ≡ true → StandsForModule config.now text.now) }
{
    is_stand_in(alloc, config, text)
}

// Does a section fit the limits, if components and types are at most so deep in it, its component at 1?
#[cycle(parts)]
#[tactic(auto, using(smith_read::proofs::ShownNodes::shown_nodes))]
fn fits_part(
    alloc: Global,
    config: &Config,
    part: &PartNode,
    room: usize,
) -> Result<bool, AllocError>
    requires { 1 ≤ room }
    ensures { let shown = shown_part_node part.now in IfOk result (λ r. r ≡ true
        → FitsPart config.now shown × (depth_by_in (most declaring) shown ≤ room)) }
{
    match part {
        PartNode::Custom(section) => Ok(is_section_name(&section.name)),
        PartNode::CoreModule(text) => stands_in(alloc, config, text),
        PartNode::CoreTypes(types) => Ok(fits_core_types(config, types)),
        PartNode::Component(parts) => fits_parts(alloc, config, parts, room - 1),
        PartNode::Types(types) => fits_types(config, types, room - 1),
        PartNode::Canons(_) => Ok(true),
        PartNode::Imports(imports) => Ok(has_short_imports(config, imports)),
        PartNode::Exports(exports) => {
            Ok(config.max_exports > 0 && has_short_exports(config, exports))
        }
    }
}

#[cycle(parts)]
fn fits_parts(
    alloc: Global,
    config: &Config,
    parts: &[PartNode],
    room: usize,
) -> Result<bool, AllocError>
    ensures finishable { let tree = tree_of (map shown_part_node parts.now) in
        IfOk result (λ r. r ≡ true → IsFinishable config.now tree) }
    ensures fits { IfOk result (λ r. r ≡ true → Fits config.now (tree_of (map shown_part_node parts.now))) }
    ensures depth { IfOk result (λ r. r ≡ true → declared_depth (tree_of (map shown_part_node parts.now)) ≤ room) }
{
    if room == 0 || parts.len() < config.finish_after {
        return Ok(false);
    }
    for part in parts {
        if !fits_part(alloc, config, part, room)? {
            return Ok(false);
        }
    }
    Ok(true)
}

/// Does a component fit the limits, by its sections, names, types and depth? Its counts of entries are not looked at,
/// and `false` says nothing.
pub(crate) fn fits(
    alloc: Global,
    config: &Config,
    component: &ComponentTree,
) -> Result<bool, AllocError>
    ensures finishable { IfOk result (λ r. r ≡ true → IsFinishable config.now (shown_tree component.now)) }
    ensures fits { IfOk result (λ r. r ≡ true → Fits config.now (shown_tree component.now)) }
    ensures depth { IfOk result (λ r. r ≡ true
        → declared_depth (shown_tree component.now) ≤ max_depth config.now) }
{
    fits_parts(
        alloc,
        config,
        &component.parts,
        config.max_nesting_depth.max(1),
    )
}
