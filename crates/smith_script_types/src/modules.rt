//! Module types.

ghost use Rattle.std.specs.Prelude.{◌≡◌, ℕ, length, map};
ghost use Rattle.smith_read.specs.Nodes.{shown_module_node};
ghost use Rattle.smith_tree.specs.ModuleScript.{alias_place, script_decl, script_item, script_module};
ghost use Rattle.smith_tree.specs.CoreTypeOffers.{alias_choices};
ghost use Rattle.smith_script_types.specs.Says.{Says};
ghost use Rattle.smith_script_types.specs.Places.{so_far, plain_at};

use crate::choices::{say_choice, say_end, say_more, say_offered};
use crate::declared::Declared;
use crate::entities::say_entity;
use crate::fronts::after_front;
use crate::members::say_core_function;
use crate::module_fronts::say_front;
use crate::names::{say_core_name, say_new_core_name};
use crate::place::Place;
use crate::positions::rank_of;
use smith_input::Error;
use smith_read::ModuleNode;
use smith_scope::Kind;
use smith_tree::{ModuleItem, module_item_offers};

// How many function types an outer alias is among.
fn alias_count(place: Place<'_, '_>, declared: &Declared<'_>) -> usize
    ensures { result ≡ length (alias_choices (plain_at place.entry) (so_far declared.now)) }
{
    place.scopes.nest.own.places(Kind::CoreFunc).len() + declared.tables.own.len()
}

// What sort of declaration it is: a type below the limit, and an alias if there is one to name.
fn say_item(
    out: &mut Vec<u8>,
    place: Place<'_, '_>,
    declared: &Declared<'_>,
    item: ModuleItem,
) -> Result<(), Error>
    ensures { Says result out.old out.new
        (script_item place.entry.config.now (plain_at place.entry) (so_far declared.now) item) }
{
    let with_type = declared.allows_type(place.config);
    let with_alias = with_type && alias_count(place, declared) > 0;
    let offers = module_item_offers(with_type, with_alias);
    say_offered(place.alloc, out, &offers, item)
}

// The place of an outer alias among the function types of the scope around, and then the module type's own.
fn alias_place(place: Place<'_, '_>, count: u32, index: u32) -> usize
    ensures { result ≡ alias_place (plain_at place.entry) count index }
{
    let around = place.scopes.nest.own.places(Kind::CoreFunc);
    if count == 0 {
        return around.len() + index as usize;
    }
    rank_of(around, index as usize)
}

// A declaration after these.
fn say_decl(
    out: &mut Vec<u8>,
    place: Place<'_, '_>,
    declared: &Declared<'_>,
    decl: &ModuleNode,
) -> Result<(), Error>
    ensures { Says result out.old out.new
        (script_decl place.entry.config.now (plain_at place.entry) (so_far declared.now)
        (shown_module_node decl.now)) }
{
    match decl {
        ModuleNode::Import {
            module,
            name,
            entity,
        } => {
            say_item(out, place, declared, ModuleItem::Import)?;
            say_core_name(out, place.config, module)?;
            say_new_core_name(out, place.config, declared.imports_from(module), name)?;
            say_entity(out, place, declared, *entity)
        }
        ModuleNode::Export { name, entity } => {
            say_item(out, place, declared, ModuleItem::Export)?;
            say_new_core_name(out, place.config, declared.exports(), name)?;
            say_entity(out, place, declared, *entity)
        }
        ModuleNode::Func(ty) => {
            say_item(out, place, declared, ModuleItem::Type)?;
            say_core_function(out, place.config, ty)
        }
        ModuleNode::OuterAlias { count, index } => {
            say_item(out, place, declared, ModuleItem::Alias)?;
            let choices = alias_count(place, declared);
            say_choice(out, choices, alias_place(place, *count, *index))
        }
    }
}

/// A module type after what says that it is one, whatever its fuel: what the canonical ABI asks, and the declarations
/// after it.
pub(crate) fn say_module<'a>(
    out: &mut Vec<u8>,
    place: Place<'_, 'a>,
    decls: &'a [ModuleNode],
) -> Result<(), Error>
    ensures { (fuel : ℕ) → Says result out.old out.new
        (script_module place.entry.config.now (plain_at place.entry) fuel (map shown_module_node decls.now)) }
{
    say_front(out, place, decls)?;
    let front = decls.len() - after_front(decls).len();
    let mut declared = Declared::in_front(place.alloc, &decls[..front])?;
    for index in front..decls.len() {
        let decl = &decls[index];
        say_more(out, 0, index - front)?;
        say_decl(out, place, &declared, decl)?;
        declared = declared.with(place.scopes, decl, &decls[..index + 1])?;
    }
    say_end(out, decls.len() - front, 100)
}
