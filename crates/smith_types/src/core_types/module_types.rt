//! Module types from the input.

ghost use Rattle.std.specs.Prelude.{◌≡◌, ◌+◌, ◌-◌, ◌<◌, ◌≤◌, ◌&&◌, ℕ, List, [], map, length, nat_lt, OnOk, IfOk};
ghost use Rattle.smith_input.specs.Choices.{ReadsAmong};
ghost use Rattle.smith_input.specs.Loops.{Loop};
ghost use Rattle.smith_input.specs.Consumes.{Consumes};
ghost use Rattle.smith_syntax.specs.Entries.{ModuleDecl};
ghost use Rattle.smith_types.specs.MadeCore.{MadeModule, EndsModuleType, ReadsDecl};
ghost use Rattle.smith_tree.specs.CoreTypeOffers.{allows_type, alias_choices, module_items};
ghost use Rattle.smith_types.specs.MakingCore.{AddsDecl, HasChoiceFor, KeepEach, KeepsDeclared, DeclTurn, so_far};
ghost use Rattle.smith_scopes.specs.Scopes.{own_scope};
ghost use Rattle.smith_syntax.specs.Shown.{shown_decl};
ghost use Rattle.smith_tree.specs.declared.choices.ModuleItem.TheVariants as item;

use crate::core_types::aliases::{add_alias, alias_count};
use crate::core_types::core_functions::read_core_function;
use crate::core_types::counted::CountedDefs;
use crate::core_types::declared::{Declared, declare};
use crate::core_types::entities::read_entity;
use crate::core_types::front::read_front;
use crate::core_types::making::Making;
use crate::core_types::module_names::{read_export_name, read_import_names};
use smith_format::{Config, Import, burn};
use smith_input::{Error, Unstructured, choose_offered};
use smith_scopes::Scopes;
use smith_syntax::ModuleTypeDef;
use smith_tree::{ModuleItem, module_item_offers};
use std::borrow::CowStr;

// Is one more type below the limit?
fn allows_type(config: &Config, declared: &Declared) -> bool
    ensures { result ≡ allows_type config.now (so_far declared.now 0) }
{
    declared.own.len() < config.max_types
}

// Is an alias allowed: a type below the limit, and something to name?
fn allows_alias(config: &Config, scopes: &Scopes, declared: &Declared) -> bool
    requires { length declared.now.own.items < 1000 }
    ensures { result ≡ (allows_type config.now (so_far declared.now 0)
        && nat_lt 0 (length (alias_choices (own_scope scopes.now) (so_far declared.now 0)))) }
{
    allows_type(config, declared) && alias_count(scopes, declared) > 0
}

// What sort of declaration is read: a type below the limit, and an alias if there is something to name.
fn module_item(
    u: &mut Unstructured,
    config: &Config,
    scopes: &Scopes,
    declared: &Declared,
) -> ModuleItem
    requires { length declared.now.own.items < 1000 }
    ensures reads { ReadsAmong (module_items config.now (own_scope scopes.now) (so_far declared.now 0))
        u.old result u.new }
    ensures possible { HasChoiceFor (own_scope scopes.now) (so_far declared.now 0) result }
{
    let with_type = allows_type(config, declared);
    let with_alias = allows_alias(config, scopes, declared);
    choose_offered(u, &module_item_offers(with_type, with_alias)).unwrap_or(ModuleItem::Import)
}

// An import, or false if nothing can be imported.
fn read_import(
    making: &Making,
    u: &mut Unstructured,
    declared: &mut Declared,
) -> Result<bool, Error>
    requires few { length declared.old.own.items < 1000 }
    ensures adds { (around : _) (fuel : ℕ) → IfOk result (λ b.
        AddsDecl making.now.config.now around (so_far declared.old fuel) item.Import u.old b u.new
        (so_far declared.new (fuel - 1))) }
    ensures own { OnOk result (length declared.new.own.items ≤ length declared.old.own.items + 1) }
    ensures kept { (around : _) → KeepsDeclared around declared.old → OnOk result (KeepsDeclared around declared.new) }
    ensures input { Consumes result u.old u.new }
{
    let (module, name) = read_import_names(making, u, &declared.counted.defs)?;
    match read_entity(making, u, declared) {
        None => Ok(false),
        Some(entity_type) => {
            let import = Import {
                module,
                name,
                entity_type,
            };
            declared.counted.push(ModuleTypeDef::Import(import))?;
            Ok(true)
        }
    }
}

// An export, or false if nothing can be exported.
fn read_export(
    making: &Making,
    u: &mut Unstructured,
    declared: &mut Declared,
) -> Result<bool, Error>
    requires few { length declared.old.own.items < 1000 }
    ensures adds { (around : _) (fuel : ℕ) → IfOk result (λ b.
        AddsDecl making.now.config.now around (so_far declared.old fuel) item.Export u.old b u.new
        (so_far declared.new (fuel - 1))) }
    ensures own { OnOk result (length declared.new.own.items ≤ length declared.old.own.items + 1) }
    ensures kept { (around : _) → KeepsDeclared around declared.old → OnOk result (KeepsDeclared around declared.new) }
    ensures input { Consumes result u.old u.new }
{
    let name = read_export_name(making, u, &declared.counted.defs)?;
    match read_entity(making, u, declared) {
        None => Ok(false),
        Some(entity) => {
            let export = ModuleTypeDef::Export(CowStr::Owned(name), entity);
            declared.counted.push(export)?;
            Ok(true)
        }
    }
}

// A declaration of a sort, or false if nothing can be imported or exported.
fn add_of(
    making: &Making,
    u: &mut Unstructured,
    scopes: &Scopes,
    declared: &mut Declared,
    item: ModuleItem,
) -> Result<bool, Error>
    requires few { length declared.old.own.items < 1000 }
    requires possible { HasChoiceFor (own_scope scopes.now) (so_far declared.old 0) item }
    ensures adds { (fuel : ℕ) → IfOk result (λ b. AddsDecl making.now.config.now (own_scope scopes.now)
        (so_far declared.old fuel) item u.old b u.new (so_far declared.new (fuel - 1))) }
    ensures own { OnOk result (length declared.new.own.items ≤ length declared.old.own.items + 1) }
    ensures kept { KeepsDeclared (own_scope scopes.now).core_types declared.old
        → OnOk result (KeepsDeclared (own_scope scopes.now).core_types declared.new) }
    ensures input { Consumes result u.old u.new }
{
    match item {
        ModuleItem::Import => read_import(making, u, declared),
        ModuleItem::Export => read_export(making, u, declared),
        ModuleItem::Type => {
            declare(declared, read_core_function(making, u)?)?;
            Ok(true)
        }
        ModuleItem::Alias => {
            add_alias(u, scopes, declared)?;
            Ok(true)
        }
    }
}

// A turn of the loop over the declarations, after its fuel is taken: a declaration, or false if it ends the loop.
fn read_declaration(
    making: &Making,
    u: &mut Unstructured,
    scopes: &Scopes,
    declared: &mut Declared,
) -> Result<bool, Error>
    requires few { length declared.old.own.items < 1000 }
    ensures turns { (fuel : ℕ) → 0 < fuel - 1 → IfOk result (λ b. DeclTurn making.now.config.now
        (own_scope scopes.now) (so_far declared.old fuel) u.old b u.new (so_far declared.new (fuel - 1))) }
    ensures own { OnOk result (length declared.new.own.items ≤ length declared.old.own.items + 1) }
    ensures kept { KeepsDeclared (own_scope scopes.now).core_types declared.old
        → OnOk result (KeepsDeclared (own_scope scopes.now).core_types declared.new) }
    ensures input { Consumes result u.old u.new }
{
    let item = module_item(u, making.config, scopes, declared);
    add_of(making, u, scopes, declared, item)
}

// The declarations after what the canonical ABI asks.
fn read_declarations(
    making: &Making,
    u: &mut Unstructured,
    scopes: &Scopes,
    fuel: &mut u32,
    declared: &mut Declared,
) -> Result<(), Error>
    requires few { length declared.old.own.items ≤ 2 }
    ensures reads { OnOk result ((more : List ModuleDecl) ×
        Loop (EndsModuleType making.now.config.now (own_scope scopes.now))
        (ReadsDecl making.now.config.now (own_scope scopes.now)) making.now.config.now.loop_bits 0 100 0
        (so_far declared.old fuel.old) u.old more u.new (so_far declared.new fuel.new)) }
    ensures kept { KeepsDeclared (own_scope scopes.now).core_types declared.old
        → OnOk result (KeepsDeclared (own_scope scopes.now).core_types declared.new) }
    ensures input { Consumes result u.old u.new }
{
    for done in 0..100 {
        if !u.more_of(making.config.loop_bits, done, 0, 100) {
            return Ok(());
        }
        burn(fuel);
        if *fuel == 0 {
            return Ok(());
        }
        if !read_declaration(making, u, scopes, declared)? {
            return Ok(());
        }
    }
    Ok(())
}

// The declarations of a module type: what the canonical ABI asks, and then at most 100 that take fuel.
pub(crate) fn read_module_type(
    making: &Making,
    u: &mut Unstructured,
    scopes: &Scopes,
    fuel: &mut u32,
) -> Result<Vec<ModuleTypeDef>, Error>
    ensures made { IfOk result (λ defs. MadeModule making.now.config.now (own_scope scopes.now) u.old fuel.old
        (map shown_decl defs.items) u.new fuel.new) }
    ensures kept { IfOk result (λ defs. KeepEach (own_scope scopes.now).core_types [] defs.items) }
    ensures input { Consumes result u.old u.new }
{
    let mut declared = read_front(making, u, scopes)?;
    read_declarations(making, u, scopes, fuel, &mut declared)?;
    let Declared { own: _, counted } = declared;
    let CountedDefs { defs, .. } = counted;
    Ok(defs)
}
