//! What declarations may be: makers choose among it, and scripts spell that choice.

ghost use Rattle.std.specs.Prelude.{◌≡◌, ◌<◌, ◌≤◌, List, drop, length, nat_lt, option_map, slice_get, Some, IfOk};
ghost use Rattle.std.specs.List.Sorted.{IsStrictlyIncreasing};
ghost use Rattle.smith_syntax.specs.Marked.{Marked, first_marked};
ghost use Rattle.smith_tree.specs.TypeOffers.{declaration_offers, has_export, is_occupied, occupied};

use crate::nodes::NodeScopes;
use crate::scopes::Scopes;
use smith_format::Config;
use smith_tree::{DeclarationItem, declaration_offers};
use std::alloc::{AllocError, Global};

/// Scopes, one in another, whether their types are made or were read. Public only for the crates above.
pub trait Nested {
    // innermost first
    ghost inward: { Self → List Marked };

    /// How many scopes there are.
    fn depth(&self) -> usize
        ensures count { result ≡ length (inward self.now) }
        ensures some { 1 ≤ result };

    /// Does the scope of that count have an entry (0 is the innermost)?
    fn is_occupied(&self, count: usize) -> bool
        requires { count < length (inward self.now) }
        ensures { option_map is_occupied (slice_get (inward self.now) count) ≡ Some result };

    /// Does the innermost scope have something that an export may be of?
    fn has_export(&self) -> bool
        ensures { result ≡ has_export (first_marked (inward self.now)) };
}

impl Nested for Scopes {
    ghost use Rattle.smith_scopes.specs.Scopes.{inward_marked};

    ghost inward = { inward_marked };

    fn depth(&self) -> usize {
        Scopes::depth(self)
    }

    fn is_occupied(&self, count: usize) -> bool {
        self.scope(count).is_occupied()
    }

    fn has_export(&self) -> bool {
        self.last().has_export()
    }
}

impl<'a> Nested for NodeScopes<'a> {
    ghost use Rattle.std.specs.Prelude.{◌∷◌};
    ghost use Rattle.smith_scopes.specs.NodeScopes.{outer_marked_in, own_marked_in};

    ghost inward = { λ s. own_marked_in s ∷ outer_marked_in s };

    fn depth(&self) -> usize {
        self.nest.depth()
    }

    fn is_occupied(&self, count: usize) -> bool {
        self.nest.at(count).is_occupied()
    }

    fn has_export(&self) -> bool {
        self.nest.own.has_export()
    }
}

/// The counts of the scopes that have an entry, innermost first.
pub fn occupied<S: Nested>(alloc: Global, scopes: &S) -> Result<Vec<usize>, AllocError>
    ensures counts { IfOk result (λ v. v.items ≡ occupied (S.inward scopes.now)) }
    ensures ascending { IfOk result (λ v. IsStrictlyIncreasing v.items) }
{
    let mut counts = Vec::with_capacity(alloc, scopes.depth())?;
    for count in 0..scopes.depth() {
        if scopes.is_occupied(count) {
            counts.push(count)?;
        }
    }
    Ok(counts)
}

// Does one of the scopes have an entry?
fn has_entry<S: Nested>(scopes: &S) -> bool
    ensures { result ≡ nat_lt 0 (length (occupied (S.inward scopes.now))) }
{
    for count in 0..scopes.depth() {
        if scopes.is_occupied(count) {
            return true;
        }
    }
    false
}

/// What a declaration may be, in the order of its choice, each with whether it is offered: a type if one more scope may
/// nest.
pub fn offered_declarations<S: Nested>(scopes: &S, config: &Config) -> [(bool, DeclarationItem); 4]
    ensures { result
        ≡ declaration_offers config.now (drop 1 (S.inward scopes.now)) (first_marked (S.inward scopes.now)) }
{
    let with_type = scopes.depth() < config.max_nesting_depth;
    let with_export = scopes.has_export();
    let with_alias = has_entry(scopes);
    declaration_offers(with_export, with_alias, with_type)
}
