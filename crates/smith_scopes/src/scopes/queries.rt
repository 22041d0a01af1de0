//! What is in scopes: how much, and at which index.

ghost use Rattle.std.specs.Prelude.{◌≡◌, ◌<◌, ◌≤◌, get_or, length, true, Some, slice_get};
ghost use Rattle.smith_format.specs.Consistency.{max_u32};
ghost use Rattle.smith_scope.specs.Kept.{offered_places};
ghost use Rattle.smith_syntax.specs.Marks.{no_mark};
ghost use Rattle.smith_scopes.specs.Scopes.{own_marked, own_scope, kind_places, last_of, scope_at, equal_places};
ghost use Rattle.smith_scopes.specs.Scopes.{lists_at, lists_in, shown_marked, shown_scope, shown_types};
ghost use Rattle.smith_syntax.specs.Marked.{scope_in};

use super::Scopes;
use smith_scope::{Kind, Offer, Scope};
use smith_syntax::{CoreType, DefType, FuncType, Mark};
use std::rc::Rc;

impl Scopes {
    /// How many scopes there are.
    pub fn depth(&self) -> usize
        ensures count { result ≡ length self.now }
        ensures lists { result ≡ length (lists_in self.now) }
        ensures some { 1 ≤ result }
    {
        self.nest.depth()
    }

    // The scope of that count (0 is the last).
    #[inline(always)]
    pub(crate) fn scope(&self, count: usize) -> &Scope<Rc<DefType>, Rc<CoreType>>
        requires { count < length self.now }
        ensures scope { result.now ≡ scope_at self.now count }
        ensures few { length result.now.types ≤ max_u32 }
        ensures few_core { length result.now.core_types ≤ max_u32 }
    {
        self.nest.at(count).scope()
    }

    /// The last scope. Public only for the crates above.
    #[inline(always)]
    pub fn last(&self) -> &Scope<Rc<DefType>, Rc<CoreType>>
        ensures scope { result.now ≡ last_of self.now }
        ensures own { shown_scope result.now ≡ own_scope self.now }
        ensures marked { shown_marked result.now ≡ own_marked self.now }
        ensures lists { scope_in result.now ≡ lists_at self.now 0 }
        ensures few { length result.now.types ≤ max_u32 }
        ensures few_core { length result.now.core_types ≤ max_u32 }
    {
        self.nest.own.scope()
    }

    /// How many types the scope of that count has (0 is the last).
    pub fn len(&self, count: u32) -> usize
        requires { count < length self.now }
        ensures count { result ≡ length (scope_at self.now count).types }
        ensures lists { result ≡ length (lists_at self.now count).types }
        ensures few { result ≤ max_u32 }
    {
        self.scope(count as usize).types_len()
    }

    /// How many core types the scope of that count has (0 is the last).
    pub fn len_core(&self, count: u32) -> usize
        requires { count < length self.now }
        ensures count { result ≡ length (scope_at self.now count).core_types }
        ensures lists { result ≡ length (lists_at self.now count).core_types }
        ensures few { result ≤ max_u32 }
    {
        self.scope(count as usize).core_types_len()
    }

    /// The type with the index `i` in the scope of that count (0 is the last).
    pub fn get(&self, count: u32, i: u32) -> &Rc<DefType>
        requires scope { count < length self.now }
        requires entry { i < length (scope_at self.now count).types }
        ensures value { slice_get (scope_at self.now count).types i ≡ Some result.now.value }
        ensures lists { slice_get (lists_at self.now count).types i ≡ Some result.now.value }
    {
        &self.scope(count as usize).types()[i as usize]
    }

    /// The core type with the index `i` in the scope of that count (0 is the last).
    pub fn get_core(&self, count: u32, i: u32) -> &Rc<CoreType>
        requires scope { count < length self.now }
        requires entry { i < length (scope_at self.now count).core_types }
        ensures value { slice_get (scope_at self.now count).core_types i ≡ Some result.now.value }
        ensures lists { slice_get (lists_at self.now count).core_types i ≡ Some result.now.value }
    {
        &self.scope(count as usize).core_types()[i as usize]
    }

    /// How many types the last scope has.
    pub fn own_len(&self) -> usize
        ensures count { result ≡ length (own_scope self.now).types }
        ensures few { result ≤ max_u32 }
    {
        self.last().types_len()
    }

    /// How many entries of the last scope are of that kind.
    pub fn kind_len(&self, kind: Kind) -> usize
        ensures count { result ≡ length (kind_places kind (own_scope self.now)) }
        ensures lists { result ≡ length (kind_places kind (shown_types (lists_at self.now 0))) }
        ensures few { result ≤ max_u32 }
        ensures small { result < 9223372036854775808 }
    {
        self.last().places(kind).len()
    }

    /// The index of the entry of the last scope that has `k` earlier ones of its kind.
    pub fn kind_at(&self, kind: Kind, k: usize) -> u32
        requires { k < length (kind_places kind (own_scope self.now)) }
        ensures value { slice_get (kind_places kind (own_scope self.now)) k ≡ Some result }
        ensures lists { slice_get (kind_places kind (shown_types (lists_at self.now 0))) k ≡ Some result }
    {
        self.last().places(kind)[k] as u32
    }

    /// How many types of the last scope are function types equal to that one. Of the types that were added since a lift
    /// last asked, each is compared.
    pub fn equal_len(&self, func: &FuncType) -> usize
        ensures count { result ≡ length (equal_places func.now (lists_at self.now 0)) }
        ensures few { result ≤ max_u32 }
    {
        self.nest.own.equal_len(func)
    }

    /// The index of the function type of the last scope that equals that one and has `k` earlier such ones.
    pub fn equal_at(&self, func: &FuncType, k: usize) -> u32
        requires { k < length (equal_places func.now (lists_at self.now 0)) }
        ensures { slice_get (equal_places func.now (lists_at self.now 0)) k ≡ Some result }
    {
        self.nest.own.equal_at(func, k)
    }

    /// Are marks kept?
    pub fn keeps(&self) -> bool
        ensures { result ≡ (last_of self.now).keeps }
    {
        self.last().keeps()
    }

    /// The mark of the type with the index `i` in the scope of that count (0 is the last): `Mark::NONE` if none is
    /// kept.
    pub fn mark_at(&self, count: u32, i: u32) -> Mark
        requires { count < length self.now }
        ensures value { result ≡ get_or (scope_at self.now count).marks i no_mark }
        ensures known { (scope_at self.now count).keeps ≡ true → i < length (scope_at self.now count).types
            → slice_get (scope_at self.now count).marks i ≡ Some result }
    {
        self.scope(count as usize).mark_at(i)
    }

    /// The size of the core type with the index `i` in the scope of that count (0 is the last): 0 if none is kept.
    pub fn core_size_at(&self, count: u32, i: u32) -> u32
        requires { count < length self.now }
        ensures value { result ≡ get_or (scope_at self.now count).core_sizes i 0 }
        ensures known { (scope_at self.now count).keeps ≡ true → i < length (scope_at self.now count).core_types
            → slice_get (scope_at self.now count).core_sizes i ≡ Some result }
    {
        self.scope(count as usize).core_size_at(i)
    }

    /// How many types of the last scope may be used for it: all that can be, if no marks are kept.
    pub fn offered_len(&self, offer: Offer) -> usize
        ensures count { result ≡ length (offered_places offer (own_marked self.now)) }
        ensures few { result ≤ max_u32 }
    {
        self.last().offered_len(offer)
    }

    /// The index of the type of the last scope that may be used for it and has `k` earlier such ones.
    pub fn offered_at(&self, offer: Offer, k: usize) -> u32
        requires { k < length (offered_places offer (own_marked self.now)) }
        ensures { slice_get (offered_places offer (own_marked self.now)) k ≡ Some result }
    {
        match self.last().offered(offer) {
            Some(row) => row[k] as u32,
            None => k as u32,
        }
    }
}
