//! What imports and exports may be of: makers choose among it, and scripts spell that choice.

ghost use Rattle.std.specs.Prelude.{◌≡◌, ◌&&◌, length};
ghost use Rattle.smith_input.specs.Offers.{offers_of};
ghost use Rattle.smith_syntax.specs.Marked.{Marked};
ghost use Rattle.smith_tree.specs.TypeOffers.{allows_equal, allows_one, has_export, has_place, has_reference, has_room};
ghost use Rattle.smith_tree.specs.TypeOffers.{is_occupied, kinds_offered, ref_kinds, ref_places};
ghost use Rattle.smith_scope.specs.Kept.{offered_places};
ghost use Rattle.smith_scope.specs.Positions.{plain_marked};

use crate::kinds::Kind;
use crate::offers::Offer;
use crate::scope::Scope;
use crate::typed::{CoreTyped, Typed};
use smith_format::Config;
use smith_tree::{RefKind, RefTotals, ref_offers};

/// What a reference is for: whether it is imported, whether within a type, and what is counted before it. Public only
/// for the crates above.
#[derive(Clone, Copy)]
pub struct Purpose {
    pub totals: RefTotals,
    pub for_import: bool,
    pub for_type_def: bool,
}

/// What a function type is used for. Public only for the crates above.
pub fn function_offer(for_import: bool) -> Offer
    ensures { (own : Marked) → offered_places result own ≡ ref_places own for_import RefKind.Func }
{
    if for_import {
        Offer::Import
    } else {
        Offer::Export
    }
}

impl Purpose {
    // May one more be imported? Inside a type nothing is counted, nor is an export.
    fn allows_one(self, count: usize, max: usize) -> bool
        ensures { result ≡ allows_one self.for_import self.for_type_def count max }
    {
        !self.for_import || self.for_type_def || count < max
    }
}

impl<T: Typed, C: CoreTyped> Scope<T, C> {
    /// How many types may be used for it: all that can be, if no marks are kept.
    pub fn offered_len(&self, offer: Offer) -> usize
        ensures { result ≡ length (offered_places offer (plain_marked T.Tree.plain C.Tree.plain self.now)) }
    {
        match self.offered(offer) {
            Some(row) => row.len(),
            None => self.types_len(),
        }
    }

    /// How many entries of a kind an import or an export may be of.
    pub fn reference_count(&self, for_import: bool, kind: RefKind) -> usize
        ensures { result ≡ length (ref_places (plain_marked T.Tree.plain C.Tree.plain self.now) for_import kind) }
    {
        match kind {
            RefKind::Module => self.places(Kind::CoreModule).len(),
            RefKind::TypeEq => self.offered_len(Offer::Equal),
            RefKind::Func => self.offered_len(function_offer(for_import)),
            RefKind::Component => self.offered_len(Offer::Component),
            RefKind::Instance => self.offered_len(Offer::Instance),
        }
    }

    /// Does it have an entry?
    pub fn is_occupied(&self) -> bool
        ensures { result ≡ is_occupied (plain_marked T.Tree.plain C.Tree.plain self.now) }
    {
        self.types_len() + self.core_types_len() > 0
    }

    /// Does it have a type, or the type of a core module?
    pub fn has_reference(&self) -> bool
        ensures { result ≡ has_reference (plain_marked T.Tree.plain C.Tree.plain self.now) }
    {
        self.types_len() > 0 || !self.places(Kind::CoreModule).is_empty()
    }

    /// Is there an entry of a kind that an import or an export may be of?
    pub fn has_place(&self, for_import: bool, kind: RefKind) -> bool
        ensures { result ≡ has_place (plain_marked T.Tree.plain C.Tree.plain self.now) for_import kind }
    {
        self.reference_count(for_import, kind) > 0
    }

    /// Is there something that an export may be of?
    pub fn has_export(&self) -> bool
        ensures { result ≡ has_export (plain_marked T.Tree.plain C.Tree.plain self.now) }
    {
        self.has_place(false, RefKind::Module)
            || self.has_place(false, RefKind::TypeEq)
            || self.has_place(false, RefKind::Component)
            || self.has_place(false, RefKind::Instance)
    }

    /// May one more be imported or exported by its size? Inside a type it always may.
    pub fn has_room_for(&self, for_type_def: bool) -> bool
        ensures { result ≡ has_room (plain_marked T.Tree.plain C.Tree.plain self.now) for_type_def }
    {
        for_type_def || self.has_room()
    }

    // May it be of a type that is equal to one?
    fn allows_equal(&self, config: &Config, purpose: Purpose) -> bool
        ensures { result ≡ allows_equal config.now (plain_marked T.Tree.plain C.Tree.plain self.now)
            purpose.for_import purpose.for_type_def }
    {
        !purpose.for_import && (purpose.for_type_def || self.types_len() < config.max_types)
    }

    // Is a kind offered: is there an entry of it, and is one more allowed?
    fn is_offered(&self, for_import: bool, kind: RefKind, allowed: bool) -> bool
        ensures { result ≡ (has_place (plain_marked T.Tree.plain C.Tree.plain self.now) for_import kind && allowed) }
    {
        self.has_place(for_import, kind) && allowed
    }

    // The kinds of which there is an entry.
    fn kinds_offered(&self, config: &Config, purpose: Purpose) -> [(bool, RefKind); 5]
        ensures { offers_of result ≡ kinds_offered config.now (plain_marked T.Tree.plain C.Tree.plain self.now)
            purpose.totals purpose.for_import purpose.for_type_def }
    {
        let totals = purpose.totals;
        let import = purpose.for_import;
        let modules = purpose.allows_one(totals.modules, config.max_modules);
        let types = self.allows_equal(config, purpose);
        let funcs = purpose.allows_one(totals.funcs, config.max_funcs);
        let components = purpose.allows_one(totals.components, config.max_components);
        let instances = purpose.allows_one(totals.instances, config.max_instances);
        ref_offers(
            self.is_offered(import, RefKind::Module, modules),
            self.is_offered(import, RefKind::TypeEq, types),
            self.is_offered(import, RefKind::Func, funcs),
            self.is_offered(import, RefKind::Component, components),
            self.is_offered(import, RefKind::Instance, instances),
        )
    }

    /// The kinds that an import or an export may be of: none if there is no room.
    pub fn reference_offers(&self, config: &Config, purpose: Purpose) -> [(bool, RefKind); 5]
        ensures { offers_of result ≡ ref_kinds config.now (plain_marked T.Tree.plain C.Tree.plain self.now)
            purpose.totals purpose.for_import purpose.for_type_def }
    {
        if self.has_room_for(purpose.for_type_def) {
            self.kinds_offered(config, purpose)
        } else {
            ref_offers(false, false, false, false, false)
        }
    }
}
