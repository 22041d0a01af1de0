//! The types and core types of a scope, with their positions by kind.

ghost use Rattle.std.specs.Prelude.{◌≡◌, ◌<◌, length, map, OnErr, OnOk};
ghost use Rattle.std.specs.List.Sorted.{IsStrictlyIncreasing};
ghost use Rattle.smith_syntax.specs.Scope.{empty_scope, with_core_type, with_type};
ghost use Rattle.smith_scope.specs.Positions.{core_kind_of, kind_places, plain_scope};

use crate::kinds::Kind;
use crate::positions::Positions;
use crate::typed::{CorePart, CoreTree, CoreTyped, TypeTree, Typed};
use smith_syntax::drop_last_first;
use std::alloc::{AllocError, Global};
use std::marker::Model;

// How many types, and how many core types, a scope has room for once it has one: few have more, and a list that grows
// is copied.
const FIRST_TYPES: usize = 8;

/// The types and core types of one scope, and their positions by kind. Contracts see types and core types. It drops its
/// types from the last to the first, since each may hold those before it; no clause can say so.
pub(crate) struct Entries<T: Typed, C: CoreTyped> {
    types: Vec<T>,
    core_types: Vec<C>,
    positions: Positions,
}

impl<T: Typed, C: CoreTyped> Model for Entries<T, C> {
    ghost use Rattle.std.specs.Prelude.{◌≡◌, map};
    ghost use Rattle.smith_syntax.specs.Scope.{ScopeOf};
    ghost use Rattle.smith_scope.specs.Positions.{by_kind};

    ghost Value = { ScopeOf T.Tree C.Tree };

    ghost view = { λ s. record { types = map T.tree s.types.items; core_types = map C.tree s.core_types.items } };

    ghost invariant = { λ s. s.positions ≡ by_kind (record {
      types = map T.Tree.plain (map T.tree s.types.items);
      core_types = map C.Tree.plain (map C.tree s.core_types.items);
    }) };
}

impl<T: Typed, C: CoreTyped> Drop for Entries<T, C> {
    #[inline(always)]
    fn drop(self) {
        let Entries {
            types,
            core_types,
            positions: _,
        } = self;
        drop_last_first(types);
        drop_last_first(core_types);
    }
}

// The kind of a core type.
#[inline(always)]
fn core_kind<C: CoreTree>(ty: &C) -> Kind
    ensures { result ≡ core_kind_of (C.plain ty.now) }
{
    match ty.part() {
        CorePart::Func(_) => Kind::CoreFunc,
        CorePart::Module(_) => Kind::CoreModule,
    }
}

impl<T: Typed, C: CoreTyped> Entries<T, C> {
    /// An empty scope.
    pub(crate) fn new(alloc: Global) -> Entries<T, C>
        ensures { result ≡ empty_scope }
    {
        Entries {
            types: Vec::new(alloc),
            core_types: Vec::new(alloc),
            positions: Positions::new(alloc),
        }
    }

    /// Adds a type at the end. Each list has room before one of them grows.
    #[inline(always)]
    pub(crate) fn push_type(&mut self, ty: T) -> Result<(), AllocError>
        ensures ok { OnOk result (self.new ≡ with_type self.old (T.tree ty)) }
        ensures err { OnErr result (self.new ≡ self.old) }
    {
        let index = self.types.len();
        let more = FIRST_TYPES.saturating_sub(index).max(1);
        self.types.reserve(more)?;
        self.positions.push(ty.tree().kind(), index)?;
        self.types.push_reserved(ty);
        Ok(())
    }

    /// Adds a core type at the end. Each list has room before one of them grows.
    #[inline(always)]
    pub(crate) fn push_core_type(&mut self, ty: C) -> Result<(), AllocError>
        ensures ok { OnOk result (self.new ≡ with_core_type self.old (C.tree ty)) }
        ensures err { OnErr result (self.new ≡ self.old) }
    {
        let index = self.core_types.len();
        let more = FIRST_TYPES.saturating_sub(index).max(1);
        self.core_types.reserve(more)?;
        self.positions.push(core_kind(ty.tree()), index)?;
        self.core_types.push_reserved(ty);
        Ok(())
    }

    /// The positions of the entries of that kind, ascending.
    #[inline(always)]
    pub(crate) fn places(&self, kind: Kind) -> &[usize]
        ensures places { result.now ≡ kind_places kind (plain_scope T.Tree.plain C.Tree.plain self.now) }
        ensures ascending { IsStrictlyIncreasing result.now }
    {
        self.positions.row(kind)
    }

    /// The types.
    #[inline(always)]
    pub(crate) fn types(&self) -> &[T]
        ensures { map T.tree result.now ≡ self.now.types }
    {
        &self.types
    }

    /// The core types.
    #[inline(always)]
    pub(crate) fn core_types(&self) -> &[C]
        ensures { map C.tree result.now ≡ self.now.core_types }
    {
        &self.core_types
    }

    /// How many types there are.
    #[inline(always)]
    pub(crate) fn types_len(&self) -> usize
        ensures count { result ≡ length self.now.types }
        ensures small { result < 9223372036854775808 }
    {
        self.types.len()
    }

    /// How many core types there are.
    #[inline(always)]
    pub(crate) fn core_types_len(&self) -> usize
        ensures count { result ≡ length self.now.core_types }
        ensures small { result < 9223372036854775808 }
    {
        self.core_types.len()
    }
}
