//! Which core types fit limits.
#![tactic(auto, using(crate::proofs::Loops::one_has, crate::proofs::Loops::all_have))]

ghost use Rattle.std.specs.Prelude.{◌≡◌, true, map};
ghost use Rattle.std.specs.List.{AllByRecursion, Contains};
ghost use Rattle.smith_format.specs.CoreFormed.{FormedFunction};
ghost use Rattle.smith_format.specs.Limits.{configured, max_results};
ghost use Rattle.smith_format.specs.Shown.{shown_func};
ghost use Rattle.smith_syntax.specs.CoreLimits.{EntityLimits};
ghost use Rattle.smith_syntax.specs.Entries.{core_module};
ghost use Rattle.smith_syntax.specs.ModuleTypes.{count_of_kind, type_count};
ghost use Rattle.smith_tree.specs.ReadableCoreTypes.{IsReadableText};
ghost use Rattle.smith_read.specs.Nodes.{shown_core_node, shown_module_node};
ghost use Rattle.smith_reduce.specs.Fits.{AllowsDecl, KeepsCounts, FitsCore, HasReadableTexts};

use smith_format::{Config, EntityType, ExportKind, FuncType, RefType, ValType, valtypes_of};
use smith_read::{CoreNode, ModuleNode};
use smith_script_types::{after_front, max_results};

// Do the limits allow a value type?
#[tactic(auto, using(crate::proofs::ModuleFits::is_contained))]
fn allows_value(config: &Config, value: ValType) -> bool
    ensures { result ≡ true → Contains (configured config.now) value }
{
    valtypes_of(config).contains(&value)
}

// Do they allow each of these?
fn allows_values(config: &Config, values: &[ValType]) -> bool
    ensures { result ≡ true → AllByRecursion (Contains (configured config.now)) values.now }
{
    for value in values {
        if !allows_value(config, *value) {
            return false;
        }
    }
    true
}

// Do the limits allow a function type?
fn allows_function(config: &Config, ty: &FuncType) -> bool
    ensures { result ≡ true → FormedFunction (configured config.now) (max_results config.now) (shown_func ty.now) }
{
    ty.params.len() <= 20
        && ty.results.len() <= max_results(config)
        && allows_values(config, &ty.params)
        && allows_values(config, &ty.results)
}

// Do the limits allow what is imported or exported?
fn allows_entity(config: &Config, entity: &EntityType) -> bool
    ensures { result ≡ true → EntityLimits config.now entity.now }
{
    match entity {
        EntityType::Func(_) | EntityType::Memory(_) => true,
        EntityType::Table(table) => {
            table.element_type == RefType::FuncRef || config.reference_types_enabled
        }
        EntityType::Global(global) => allows_value(config, global.val_type),
        EntityType::Tag(_) => config.exceptions_enabled,
    }
}

// Do the limits allow the function type that a declaration is, or what it imports or exports?
fn allows_decl(config: &Config, decl: &ModuleNode) -> bool
    ensures { result ≡ true → AllowsDecl config.now (shown_module_node decl.now) }
{
    match decl {
        ModuleNode::Func(ty) => allows_function(config, ty),
        ModuleNode::Import { entity, .. } | ModuleNode::Export { entity, .. } => {
            allows_entity(config, entity)
        }
        ModuleNode::OuterAlias { .. } => true,
    }
}

// Do they for each of these declarations?
fn allows_decls(config: &Config, decls: &[ModuleNode]) -> bool
    ensures { result ≡ true → AllByRecursion (AllowsDecl config.now) (map shown_module_node decls.now) }
{
    for decl in decls {
        if !allows_decl(config, decl) {
            return false;
        }
    }
    true
}

// How many function types and outer aliases there are.
fn type_count(decls: &[ModuleNode]) -> usize
    ensures { result ≡ type_count (map shown_module_node decls.now) }
{
    let mut count = 0;
    for decl in decls {
        if let ModuleNode::Func(_) | ModuleNode::OuterAlias { .. } = decl {
            count += 1;
        }
    }
    count
}

// How many imports and exports are of a kind.
fn count_of_kind(decls: &[ModuleNode], kind: ExportKind) -> usize
    ensures { result ≡ count_of_kind kind (map shown_module_node decls.now) }
{
    let mut count = 0;
    for decl in decls {
        if let ModuleNode::Import { entity, .. } | ModuleNode::Export { entity, .. } = decl {
            if entity.kind() == kind {
                count += 1;
            }
        }
    }
    count
}

// Can a text be read as it is?
fn is_readable(config: &Config, text: &str) -> bool
    ensures { result ≡ true → IsReadableText config.now text.now }
{
    text.len() <= config.max_name_length
}

// Can the names of a declaration?
fn has_readable_texts(config: &Config, decl: &ModuleNode) -> bool
    ensures { result ≡ true → HasReadableTexts config.now (shown_module_node decl.now) }
{
    match decl {
        ModuleNode::Import { module, name, .. } => {
            is_readable(config, module) && is_readable(config, name)
        }
        ModuleNode::Export { name, .. } => is_readable(config, name),
        ModuleNode::Func(_) | ModuleNode::OuterAlias { .. } => true,
    }
}

// Can the names of these declarations?
fn have_readable_texts(config: &Config, decls: &[ModuleNode]) -> bool
    ensures { result ≡ true → AllByRecursion (HasReadableTexts config.now) (map shown_module_node decls.now) }
{
    for decl in decls {
        if !has_readable_texts(config, decl) {
            return false;
        }
    }
    true
}

// Are there no more of each kind in a module type than the limits allow?
fn keeps_counts(config: &Config, decls: &[ModuleNode]) -> bool
    ensures { result ≡ true → KeepsCounts config.now (map shown_module_node decls.now) }
{
    type_count(decls) <= config.max_types
        && count_of_kind(decls, ExportKind::Global) <= config.max_globals
        && count_of_kind(decls, ExportKind::Table) <= config.max_tables
        && count_of_kind(decls, ExportKind::Memory) <= config.max_memories
        && count_of_kind(decls, ExportKind::Tag) <= config.max_tags
        && count_of_kind(decls, ExportKind::Func) <= config.max_funcs
}

// Does a module type fit the limits?
#[tactic(auto, using(crate::proofs::ModuleFits::module_fits))]
fn fits_module(config: &Config, decls: &[ModuleNode]) -> bool
    ensures { result ≡ true → FitsCore config.now (core_module (map shown_module_node decls.now)) }
{
    let behind = after_front(decls);
    behind.len() <= 100
        && keeps_counts(config, decls)
        && allows_decls(config, decls)
        && have_readable_texts(config, behind)
}

/// Does a core type fit the limits?
pub(super) fn fits_core(config: &Config, ty: &CoreNode) -> bool
    ensures { result ≡ true → FitsCore config.now (shown_core_node ty.now) }
{
    match ty {
        CoreNode::Func(ty) => allows_function(config, ty),
        CoreNode::Module(decls) => fits_module(config, decls),
    }
}
