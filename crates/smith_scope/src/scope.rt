//! A scope: which types are in it (Explainer.md, index spaces), and what is kept of them for a validator.

ghost use Rattle.std.specs.Prelude.{◌≡◌, ◌<◌, get_or, if◌then◌else◌, length, map, nat_le, option_map, slice_get, true};
ghost use Rattle.std.specs.Prelude.{OnOk, OnErr, IfOk, IfSome, Some};
ghost use Rattle.std.specs.List.Sorted.{IsStrictlyIncreasing};
ghost use Rattle.smith_syntax.specs.Marked.{empty_marked, scope_in, with_marked, with_sized, reference_reach};
ghost use Rattle.smith_syntax.specs.Marked.{reference_size, with_export, with_import};
ghost use Rattle.smith_syntax.specs.Marks.{closed_mark, no_mark, room_size};
ghost use Rattle.smith_syntax.specs.Sizes.{capped, module_type_size};
ghost use Rattle.smith_scope.specs.Kept.{AreOffered, offered_places};
ghost use Rattle.smith_scope.specs.Positions.{kind_places, plain_marked, plain_scope};

use crate::entries::Entries;
use crate::kept::{Kept, take_kept};
use crate::kinds::Kind;
use crate::module_sizes::core_size;
use crate::offers::Offer;
use crate::typed::{CoreTree, CoreTyped, TypeTree, Typed};
use smith_syntax::{ComponentTypeRef, Mark, Reach, size_sum};
use std::alloc::{AllocError, Global};
use std::marker::Model;

// The size that a component may have when one more is imported or exported.
const ROOM_SIZE: u32 = 990_000;

/// The types and core types of one scope before a place, and their positions by kind. A type that is named again, by an
/// outer alias or an export, is there once more. If anything is kept, there are the mark of each type, the positions of
/// those that may be used for each, the size of each core type, what exports refer to, and the size so far. Contracts
/// see types and core types, and what is kept except for positions.
#[derive(Drop)]
pub struct Scope<T: Typed, C: CoreTyped> {
    entries: Entries<T, C>,
    // made for the first type or core type
    kept: Option<Box<Kept>>,
    keeps: bool,
    exported: Reach,
    size: u32,
}

impl<T: Typed, C: CoreTyped> Model for Scope<T, C> {
    ghost use Rattle.smith_syntax.specs.Marked.{MarkedOf};
    ghost use Rattle.smith_scope.specs.Kept.{IsKept, core_sizes_in, marks_in};

    ghost Value = { MarkedOf T.Tree C.Tree };

    ghost view = { λ s. record {
      types = s.entries.types;
      core_types = s.entries.core_types;
      keeps = s.keeps;
      marks = marks_in s.kept;
      core_sizes = core_sizes_in s.kept;
      exported = s.exported;
      size = s.size;
    } };

    ghost invariant = { λ s. IsKept T.Tree.plain s.entries s.keeps s.kept };
}

impl<T: Typed, C: CoreTyped> Scope<T, C> {
    /// An empty scope, in which marks are kept if `keeps` says so.
    pub fn new(alloc: Global, keeps: bool) -> Scope<T, C>
        ensures { result ≡ empty_marked keeps }
    {
        Scope {
            entries: Entries::new(alloc),
            kept: None,
            keeps,
            exported: Reach::Everywhere,
            size: 1,
        }
    }

    /// Are marks kept?
    #[inline(always)]
    pub fn keeps(&self) -> bool
        ensures { result ≡ self.now.keeps }
    {
        self.keeps
    }

    /// The types.
    #[inline(always)]
    pub fn types(&self) -> &[T]
        ensures { map T.tree result.now ≡ self.now.types }
    {
        self.entries.types()
    }

    /// The core types.
    #[inline(always)]
    pub fn core_types(&self) -> &[C]
        ensures { map C.tree result.now ≡ self.now.core_types }
    {
        self.entries.core_types()
    }

    /// How many types there are.
    #[inline(always)]
    pub fn types_len(&self) -> usize
        ensures count { result ≡ length (plain_scope T.Tree.plain C.Tree.plain (scope_in self.now)).types }
        ensures many { result ≡ length self.now.types }
        ensures small { result < 9223372036854775808 }
    {
        self.entries.types_len()
    }

    /// How many core types there are.
    #[inline(always)]
    pub fn core_types_len(&self) -> usize
        ensures count { result ≡ length (plain_scope T.Tree.plain C.Tree.plain (scope_in self.now)).core_types }
        ensures many { result ≡ length self.now.core_types }
        ensures small { result < 9223372036854775808 }
    {
        self.entries.core_types_len()
    }

    /// The positions of the entries of that kind, ascending.
    #[inline(always)]
    pub fn places(&self, kind: Kind) -> &[usize]
        ensures places { result.now ≡ kind_places kind (plain_scope T.Tree.plain C.Tree.plain (scope_in self.now)) }
        ensures ascending { IsStrictlyIncreasing result.now }
    {
        self.entries.places(kind)
    }

    /// The marks of the types: none if none is kept.
    pub fn marks(&self) -> &[Mark]
        ensures marks { result.now ≡ self.now.marks }
        ensures known { self.now.keeps ≡ true → length result.now ≡ length self.now.types }
    {
        match &self.kept {
            Some(kept) => &kept.marks,
            None => &[],
        }
    }

    // The sizes of the core types: none if none is kept.
    fn core_sizes(&self) -> &[u32]
        ensures sizes { result.now ≡ self.now.core_sizes }
        ensures known { self.now.keeps ≡ true → length result.now ≡ length self.now.core_types }
    {
        match &self.kept {
            Some(kept) => &kept.core_sizes,
            None => &[],
        }
    }

    // The positions of the types that may be used for it, if marks are kept.
    fn row(&self, offer: Offer) -> &[usize]
        requires { self.now.keeps ≡ true }
        ensures { result.now ≡ offered_places offer (plain_marked T.Tree.plain C.Tree.plain self.now) }
    {
        match &self.kept {
            Some(kept) => kept.offers.row(offer),
            None => &[],
        }
    }

    /// The positions of the types that may be used for it, ascending, or none if all types may be.
    pub fn offered(&self, offer: Offer) -> Option<&[usize]>
        ensures places { AreOffered offer (plain_marked T.Tree.plain C.Tree.plain self.now)
            (option_map (λ r. r.now) result) }
        ensures ascending { IfSome result (λ r. IsStrictlyIncreasing r.now) }
    {
        if self.keeps {
            return Some(self.row(offer));
        }
        let kind = offer.kind()?;
        Some(self.entries.places(kind))
    }

    /// The mark of the type with that index.
    pub fn mark_at(&self, i: u32) -> Mark
        ensures value { result ≡ get_or self.now.marks i no_mark }
        ensures known { self.now.keeps ≡ true → i < length self.now.types → slice_get self.now.marks i ≡ Some result }
        ensures many { self.now.keeps ≡ true → length self.now.marks ≡ length self.now.types }
    {
        self.marks().get(i as usize).copied().unwrap_or(Mark::NONE)
    }

    /// The size of the core type with that index.
    pub fn core_size_at(&self, i: u32) -> u32
        ensures value { result ≡ get_or self.now.core_sizes i 0 }
        ensures known { self.now.keeps ≡ true → i < length self.now.core_types
            → slice_get self.now.core_sizes i ≡ Some result }
        ensures many { self.now.keeps ≡ true → length self.now.core_sizes ≡ length self.now.core_types }
    {
        self.core_sizes().get(i as usize).copied().unwrap_or(0)
    }

    /// Adds a type of that mark at the end.
    pub fn push_type(&mut self, alloc: Global, ty: T, mark: Mark) -> Result<(), AllocError>
        ensures ok { OnOk result (self.new ≡ with_marked self.old (T.tree ty) mark) }
        ensures err { OnErr result (self.new ≡ self.old) }
        ensures keeps { self.new.keeps ≡ self.old.keeps }
    {
        if !self.keeps {
            return self.entries.push_type(ty);
        }
        let mut kept = take_kept(&mut self.kept, alloc)?;
        let pushed = kept.push_type(&mut self.entries, ty, mark);
        self.kept = Some(kept);
        pushed
    }

    /// Adds a core type of that size at the end.
    pub fn push_core_type(&mut self, alloc: Global, ty: C, size: u32) -> Result<(), AllocError>
        ensures ok { OnOk result (self.new ≡ with_sized self.old (C.tree ty) size) }
        ensures err { OnErr result (self.new ≡ self.old) }
        ensures keeps { self.new.keeps ≡ self.old.keeps }
    {
        if !self.keeps {
            return self.entries.push_core_type(ty);
        }
        let mut kept = take_kept(&mut self.kept, alloc)?;
        let pushed = kept.push_core_type(&mut self.entries, ty, size);
        self.kept = Some(kept);
        pushed
    }

    // The size of what is imported or exported.
    fn reference_size(&self, to: ComponentTypeRef) -> u32
        ensures { result ≡ reference_size self.now to }
    {
        match to {
            ComponentTypeRef::Module(i) => self.core_size_at(i),
            ComponentTypeRef::Func(i)
            | ComponentTypeRef::TypeEq(i)
            | ComponentTypeRef::Component(i)
            | ComponentTypeRef::Instance(i) => self.mark_at(i).size,
        }
    }

    // Where all that it refers to is named.
    #[tactic(auto, using(crate::proofs::Parts::reach_at))]
    fn reference_reach(&self, to: ComponentTypeRef) -> Reach
        ensures { result ≡ reference_reach self.now to }
    {
        match to {
            ComponentTypeRef::Module(_) | ComponentTypeRef::Component(_) => Reach::Everywhere,
            ComponentTypeRef::Func(i)
            | ComponentTypeRef::TypeEq(i)
            | ComponentTypeRef::Instance(i) => self.mark_at(i).parts,
        }
    }

    /// Adds what is imported to the size, if that is kept.
    pub fn note_import(&mut self, to: ComponentTypeRef)
        ensures { self.new ≡ with_import self.old to }
    {
        if self.keeps {
            self.size = size_sum(self.size, self.reference_size(to));
        }
    }

    /// Adds what is exported to the size and to what exports refer to, if these are kept.
    pub fn note_export(&mut self, to: ComponentTypeRef)
        ensures { self.new ≡ with_export self.old to }
    {
        if self.keeps {
            let reach = self.reference_reach(to);
            let size = self.reference_size(to);
            self.exported = self.exported.narrower(reach);
            self.size = size_sum(self.size, size);
        }
    }

    /// Can one more be imported or exported?
    pub fn has_room(&self) -> bool
        ensures { result ≡ nat_le self.now.size room_size }
    {
        self.size <= ROOM_SIZE
    }

    /// The mark of the component type or the instance type that the scope is of.
    pub fn closed_mark(&self, is_instance: bool) -> Mark
        ensures { result ≡ closed_mark (if is_instance then self.now.exported else Reach.Everywhere) self.now.size }
    {
        let exported = if is_instance {
            self.exported
        } else {
            Reach::Everywhere
        };
        Mark::closed(exported, self.size)
    }

    /// The size of a core type when a core module is imported or exported: 0 for a function type, and if none is kept.
    #[inline(always)]
    pub fn core_size_of(&self, alloc: Global, ty: &C::Tree) -> Result<u32, AllocError>
        ensures { self.now.keeps ≡ true → IfOk result (λ n. n
            ≡ capped (module_type_size (map C.Tree.plain self.now.core_types) (C.Tree.plain ty.now))) }
    {
        if !self.keeps {
            return Ok(0);
        }
        core_size(alloc, self.core_types(), ty)
    }
}
