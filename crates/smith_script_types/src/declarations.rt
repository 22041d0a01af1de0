//! What a declaration says before what it declares, and outer aliases.

ghost use Rattle.std.specs.Prelude.{◌≡◌, ◌∷◌, ◌+◌, ℕ, if◌then◌else◌, length, nat_eq};
ghost use Rattle.smith_input.specs.Script.{script_among};
ghost use Rattle.smith_scopes.specs.NodeScopes.{shown_marked};
ghost use Rattle.smith_tree.specs.TypeOffers.{aliases_of, occupied};
ghost use Rattle.smith_tree.specs.TypeScript.{script_alias, script_declares, script_no_import};
ghost use Rattle.smith_script_types.specs.Says.{Says};
ghost use Rattle.smith_script_types.specs.Places.{outer_at, own_at};

use crate::choices::{say_choice, say_offered};
use crate::declaring::Declaring;
use crate::place::Place;
use crate::positions::say_position;
use smith_input::Error;
use smith_scope::NodeScope;
use smith_scopes::{occupied, offered_declarations};
use smith_tree::DeclarationItem;

// That no import is declared, when one might be.
fn say_no_import(out: &mut Vec<u8>, place: Place<'_, '_>, importing: bool) -> Result<(), Error>
    ensures { Says result out.old out.new (script_no_import importing (own_at place.entry)) }
{
    if importing && place.scopes.nest.own.has_reference() {
        return say_choice(out, 4, 1);
    }
    Ok(())
}

/// What precedes that which is declared.
pub(crate) fn say_declares(
    out: &mut Vec<u8>,
    place: Place<'_, '_>,
    here: Declaring,
    item: DeclarationItem,
) -> Result<(), Error>
    ensures { Says result out.old out.new
        (script_declares place.entry.config.now here.importing (own_at place.entry) (outer_at place.entry) item) }
{
    say_no_import(out, place, here.importing)?;
    let offers = offered_declarations(place.scopes, place.config);
    say_offered(place.alloc, out, &offers, item)
}

// The choice of the scope of an outer alias.
fn say_scope(out: &mut Vec<u8>, place: Place<'_, '_>, count: u32) -> Result<(), Error>
    ensures { Says result out.old out.new
        (script_among nat_eq (occupied (own_at place.entry ∷ outer_at place.entry)) count) }
{
    let counts = occupied(place.alloc, place.scopes)?;
    say_position(out, &counts, count as usize)
}

// How many entries a scope has, or no less than memory has bytes.
fn entries_in(scope: &NodeScope<'_>) -> usize
    ensures { (count : ℕ) → result ≡ length (aliases_of count (shown_marked scope.now)) }
{
    scope.types_len() + scope.core_types_len()
}

/// An outer alias: the scope, and its entry. The core types are after the types.
pub(crate) fn say_alias(
    out: &mut Vec<u8>,
    place: Place<'_, '_>,
    count: u32,
    index: u32,
    is_core: bool,
) -> Result<(), Error>
    ensures { Says result out.old out.new (script_alias (own_at place.entry ∷ outer_at place.entry) count
        (λ s. if is_core then length s.types + index else index)) }
{
    say_scope(out, place, count)?;
    let Some(scope) = place.scopes.scope_at(count) else {
        return Ok(());
    };
    let entry = if is_core {
        scope.types_len() + index as usize
    } else {
        index as usize
    };
    say_choice(out, entries_in(scope), entry)
}
