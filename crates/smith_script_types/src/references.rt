//! What imports and exports are of, and their names.

ghost use Rattle.std.specs.Prelude.{◌≡◌, ◌≤◌, nat_eq};
ghost use Rattle.smith_input.specs.Script.{script_among};
ghost use Rattle.smith_scopes.specs.NodeScopes.{shown_marked};
ghost use Rattle.smith_tree.specs.TypeOffers.{ref_kinds, ref_places};
ghost use Rattle.smith_tree.specs.TypeScript.{index_in, kind_in, script_extern, script_ref};
ghost use Rattle.smith_tree.specs.contracts.choices.RefKindPartialEq.TheImpl.{ghosts as refs};
ghost use Rattle.smith_script_types.specs.Says.{Says};
ghost use Rattle.smith_script_types.specs.Places.{own_at};

use crate::choices::{say_byte, say_offered};
use crate::names::say_name;
use crate::place::Place;
use crate::positions::{say_position, say_usable};
use smith_format::Config;
use smith_input::Error;
use smith_scope::{Kind, NodeScope, Offer, Purpose, function_offer};
use smith_syntax::ComponentTypeRef;
use smith_tree::RefKind;

fn kind_in(to: ComponentTypeRef) -> RefKind
    ensures { result ≡ kind_in to }
{
    match to {
        ComponentTypeRef::Module(_) => RefKind::Module,
        ComponentTypeRef::TypeEq(_) => RefKind::TypeEq,
        ComponentTypeRef::Func(_) => RefKind::Func,
        ComponentTypeRef::Component(_) => RefKind::Component,
        ComponentTypeRef::Instance(_) => RefKind::Instance,
    }
}

// The kind of what an import or an export is of.
fn say_ref_kind(
    out: &mut Vec<u8>,
    place: Place<'_, '_>,
    purpose: Purpose,
    kind: RefKind,
) -> Result<(), Error>
    ensures { Says result out.old out.new (script_among refs.eq
        (ref_kinds place.entry.config.now (own_at place.entry) purpose.totals
        purpose.for_import purpose.for_type_def) kind) }
{
    let own = &place.scopes.nest.own;
    let offers = own.reference_offers(place.config, purpose);
    say_offered(place.alloc, out, &offers, kind)
}

// An entry of its kind.
fn say_entry(
    out: &mut Vec<u8>,
    scope: &NodeScope<'_>,
    for_import: bool,
    to: ComponentTypeRef,
) -> Result<(), Error>
    ensures { Says result out.old out.new
        (script_among nat_eq (ref_places (shown_marked scope.now) for_import (kind_in to)) (index_in to)) }
{
    match to {
        ComponentTypeRef::Module(index) => {
            say_position(out, scope.places(Kind::CoreModule), index as usize)
        }
        ComponentTypeRef::TypeEq(index) => say_usable(out, scope, Offer::Equal, index),
        ComponentTypeRef::Func(index) => say_usable(out, scope, function_offer(for_import), index),
        ComponentTypeRef::Component(index) => say_usable(out, scope, Offer::Component, index),
        ComponentTypeRef::Instance(index) => say_usable(out, scope, Offer::Instance, index),
    }
}

/// What an import or an export is of: a kind, and an entry of it.
pub fn say_reference(
    out: &mut Vec<u8>,
    place: Place<'_, '_>,
    purpose: Purpose,
    to: ComponentTypeRef,
) -> Result<(), Error>
    ensures { Says result out.old out.new (script_ref place.entry.config.now (own_at place.entry)
        purpose.totals purpose.for_import purpose.for_type_def to) }
{
    say_ref_kind(out, place, purpose, kind_in(to))?;
    say_entry(out, &place.scopes.nest.own, purpose.for_import, to)
}

/// The name of an import or an export after that many, and that it has no URL.
pub fn say_extern(out: &mut Vec<u8>, config: &Config, count: usize, name: &str) -> Result<(), Error>
    requires { config.now.max_name_length ≤ 100 }
    ensures { Says result out.old out.new (script_extern config.now count name.now) }
{
    say_name(out, config, count, name)?;
    say_byte(out, 0)
}
