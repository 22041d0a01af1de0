//! What imports and exports are of, from the input.

ghost use Rattle.std.specs.Prelude.{◌≡◌, ◌<◌, ◌≤◌, ◌++◌, ℕ, List, [], true, length, slice_get, Some, MatchOption};
ghost use Rattle.smith_input.specs.Choices.{ReadsAmong};
ghost use Rattle.smith_input.specs.Reading.{IsTail};
ghost use Rattle.smith_format.specs.Consistency.{max_u32};
ghost use Rattle.smith_syntax.specs.Marked.{scope_in};
ghost use Rattle.smith_syntax.specs.Usable.{OfferedRef};
ghost use Rattle.smith_syntax.specs.WellFormed.{FormedRef};
ghost use Rattle.smith_tree.specs.TypeOffers.{IsAllowed, has_room, ref_kinds, ref_places};
ghost use Rattle.smith_types.specs.References.{MaybeRef, offer_of, ref_to};
ghost use Rattle.smith_tree.specs.TypeScript.{script_ref};
ghost use Rattle.smith_scopes.specs.Scopes.{own_marked};

use smith_format::Config;
use smith_input::{Unstructured, choose_offered};
use smith_scope::{Kind, Offer, Purpose};
use smith_scopes::Scopes;
use smith_syntax::ComponentTypeRef;
use smith_tree::{RefKind, RefTotals};

// What types have to be offered for, to be imported or exported as a kind: none as a module, which is not a type.
fn offer_of(kind: RefKind, for_import: bool) -> Option<Offer>
    ensures { result ≡ offer_of kind for_import }
{
    match kind {
        RefKind::Module => None,
        RefKind::TypeEq => Some(Offer::Equal),
        RefKind::Func if for_import => Some(Offer::Import),
        RefKind::Func => Some(Offer::Export),
        RefKind::Component => Some(Offer::Component),
        RefKind::Instance => Some(Offer::Instance),
    }
}

// How many entries of a kind may be imported or exported.
#[tactic(auto, using(smith_scopes::proofs::Stack::own_scope_is, crate::proofs::References::places_of_modules))]
fn place_count(scopes: &Scopes, kind: RefKind, for_import: bool) -> usize
    ensures count { result ≡ length (ref_places (own_marked scopes.now) for_import kind) }
    ensures few { result ≤ max_u32 }
{
    match offer_of(kind, for_import) {
        Some(offer) => scopes.offered_len(offer),
        None => scopes.kind_len(Kind::CoreModule),
    }
}

// The index of the entry of a kind that has that many earlier ones.
fn place_at(scopes: &Scopes, kind: RefKind, for_import: bool, rank: usize) -> u32
    requires { rank < length (ref_places (own_marked scopes.now) for_import kind) }
    ensures { slice_get (ref_places (own_marked scopes.now) for_import kind) rank ≡ Some result }
{
    match offer_of(kind, for_import) {
        Some(offer) => scopes.offered_at(offer, rank),
        None => scopes.kind_at(Kind::CoreModule, rank),
    }
}

// The reference of a kind to an index.
fn reference(kind: RefKind, i: u32) -> ComponentTypeRef
    ensures { result ≡ ref_to kind i }
{
    match kind {
        RefKind::Module => ComponentTypeRef::Module(i),
        RefKind::TypeEq => ComponentTypeRef::TypeEq(i),
        RefKind::Func => ComponentTypeRef::Func(i),
        RefKind::Component => ComponentTypeRef::Component(i),
        RefKind::Instance => ComponentTypeRef::Instance(i),
    }
}

// Which kind, among the kinds that have an entry that may be named, if there is room for one more.
fn read_ref_kind(
    u: &mut Unstructured,
    config: &Config,
    scopes: &Scopes,
    purpose: Purpose,
) -> Option<RefKind>
    ensures { MatchOption result
        ((ref_kinds config.now (own_marked scopes.now) purpose.totals purpose.for_import purpose.for_type_def ≡ [])
        × (u.new ≡ u.old))
        (λ k. ReadsAmong (ref_kinds config.now (own_marked scopes.now) purpose.totals purpose.for_import
        purpose.for_type_def) u.old k u.new) }
{
    let offers = scopes.last().reference_offers(config, purpose);
    choose_offered(u, &offers)
}

/// What an import or an export is of, among what the last scope has: a choice of a kind and then of an entry of it. It
/// is None exactly if there is no kind to choose, and then nothing is read.
///
/// An import is never of a type that is equal to one, and an export may be if `for_type_def` is true or the scope has
/// fewer types than `max_types`. An import of a component, for which `for_type_def` is false, needs its total to be
/// below its limit: the totals are those so far. If marks are kept, a type has to be small, what it is made of has to
/// be named as far as is asked, and a component needs room for one more. It takes no memory.
#[inline(always)]
pub fn arbitrary_type_ref(
    u: &mut Unstructured,
    config: &Config,
    scopes: &Scopes,
    totals: RefTotals,
    for_import: bool,
    for_type_def: bool,
) -> Option<ComponentTypeRef>
    ensures reads { MaybeRef config.now (own_marked scopes.now) totals for_import for_type_def u.old result u.new }
    // The script of an allowed reference produces that reference.
    ensures script { (r : ComponentTypeRef) (rest : List ℕ) → FormedRef (scope_in (own_marked scopes.now)) r
        → OfferedRef (own_marked scopes.now) for_import r
        → has_room (own_marked scopes.now) for_type_def ≡ true
        → IsAllowed config.now (own_marked scopes.now) totals for_import for_type_def r
        → u.old ≡ script_ref config.now (own_marked scopes.now) totals for_import for_type_def r ++ rest
        → (result ≡ Some r) × (u.new ≡ rest) }
    ensures tail { IsTail u.new u.old }
{
    let purpose = Purpose {
        totals,
        for_import,
        for_type_def,
    };
    let kind = read_ref_kind(u, config, scopes, purpose)?;
    let rank = u.choose_index(place_count(scopes, kind, for_import));
    Some(reference(kind, place_at(scopes, kind, for_import, rank)))
}
