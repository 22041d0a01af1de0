//! A scope of types that are made.

ghost use Rattle.std.specs.Prelude.{◌≡◌, ◌<◌, ◌≤◌, length, slice_get, OnOk, IfOk, OnErr, IfErr, Some};
ghost use Rattle.smith_format.specs.Consistency.{max_u32};
ghost use Rattle.smith_input.specs.Reading.{IsTail};
ghost use Rattle.smith_syntax.specs.Marked.{empty_marked, scope_in, with_export, with_import, with_marked, with_sized};
ghost use Rattle.smith_scopes.specs.Rows.{IsChosenEqual};
ghost use Rattle.smith_scopes.specs.Scopes.{equal_places};

use super::equals::{Equals, later_at, later_len};
use smith_input::{Error, Unstructured};
use smith_scope::Scope;
use smith_syntax::{ComponentTypeRef, CoreType, DefType, FuncType, Mark};
use std::alloc::Global;
use std::marker::Model;
use std::rc::Rc;

// A scope whose indexes have 32 bits, and which function types in it are equal.
#[derive(Drop)]
pub(super) struct MadeScope {
    scope: Scope<Rc<DefType>, Rc<CoreType>>,
    equals: Option<Box<Equals>>,
}

impl Model for MadeScope {
    ghost use Rattle.smith_scopes.specs.Scopes.{Contents, IsMade};

    ghost Value = { Contents };

    ghost use Rattle.smith_syntax.specs.contracts.deftype.DefType as kind;
    ghost use Rattle.std.specs.Coded.{codes};

    ghost coded = { Prim.hlevel (codes, kind.the_row.coded) };

    ghost view = { λ s. s.scope };

    ghost invariant = { λ s. IsMade s.scope s.equals };
}

impl MadeScope {
    pub(super) fn new(alloc: Global, keeps: bool) -> MadeScope
        ensures { result ≡ empty_marked keeps }
    {
        MadeScope {
            scope: Scope::new(alloc, keeps),
            equals: None,
        }
    }

    // The scope by itself.
    #[inline(always)]
    pub(super) fn scope(&self) -> &Scope<Rc<DefType>, Rc<CoreType>>
        ensures scope { result.now ≡ self.now }
        ensures few { length result.now.types ≤ max_u32 }
        ensures few_core { length result.now.core_types ≤ max_u32 }
    {
        &self.scope
    }

    // Adds a type at the end.
    pub(super) fn push_type(
        &mut self,
        alloc: Global,
        entry: Rc<DefType>,
        mark: Mark,
    ) -> Result<u32, Error>
        requires { length self.old.types < max_u32 }
        ensures ok { OnOk result (self.new ≡ with_marked self.old entry.value mark) }
        ensures index { IfOk result (λ i. i ≡ length self.old.types) }
        ensures err { OnErr result (self.new ≡ self.old) }
        ensures memory { IfErr result (λ e. e ≡ Error.OutOfMemory) }
    {
        let index = self.scope.types_len() as u32;
        self.scope.push_type(alloc, entry, mark)?;
        Ok(index)
    }

    // Adds a core type at the end.
    pub(super) fn push_core_type(
        &mut self,
        alloc: Global,
        entry: Rc<CoreType>,
        size: u32,
    ) -> Result<u32, Error>
        requires { length self.old.core_types < max_u32 }
        ensures ok { OnOk result (self.new ≡ with_sized self.old entry.value size) }
        ensures index { IfOk result (λ i. i ≡ length self.old.core_types) }
        ensures err { OnErr result (self.new ≡ self.old) }
        ensures memory { IfErr result (λ e. e ≡ Error.OutOfMemory) }
    {
        let index = self.scope.core_types_len() as u32;
        self.scope.push_core_type(alloc, entry, size)?;
        Ok(index)
    }

    // Adds what is imported to the size, if that is kept.
    pub(super) fn note_import(&mut self, to: ComponentTypeRef)
        ensures { self.new ≡ with_import self.old to }
    {
        self.scope.note_import(to)
    }

    // Adds what is exported to the size and to what exports refer to, if these are kept.
    pub(super) fn note_export(&mut self, to: ComponentTypeRef)
        ensures { self.new ≡ with_export self.old to }
    {
        self.scope.note_export(to)
    }

    // How many types are equal to that function type.
    pub(super) fn equal_len(&self, func: &FuncType) -> usize
        ensures count { result ≡ length (equal_places func.now (scope_in self.now)) }
        ensures few { result ≤ max_u32 }
    {
        let types = self.scope.types();
        match &self.equals {
            Some(equals) => equals.row(func).len() + later_len(types, equals.noted(), func),
            None => later_len(types, 0, func),
        }
    }

    // The index of the type that is equal to that function type and has `k` earlier such ones.
    pub(super) fn equal_at(&self, func: &FuncType, k: usize) -> u32
        requires { k < length (equal_places func.now (scope_in self.now)) }
        ensures { slice_get (equal_places func.now (scope_in self.now)) k ≡ Some result }
    {
        let types = self.scope.types();
        let Some(equals) = &self.equals else {
            return later_at(types, 0, func, k);
        };
        let row = equals.row(func);
        if k < row.len() {
            row[k]
        } else {
            later_at(types, equals.noted(), func, k - row.len())
        }
    }

    // The index of a type that is equal to that function type, by a choice; none if there is none. If it fails, no type
    // is noted.
    pub(super) fn choose_equal(
        &mut self,
        alloc: Global,
        func: &Rc<FuncType>,
        u: &mut Unstructured,
    ) -> Result<Option<u32>, Error>
        ensures chosen { IfOk result (λ found. IsChosenEqual self.old.types func.now.value u.old found u.new) }
        ensures same { self.new ≡ self.old }
        ensures memory { IfErr result (λ e. e ≡ Error.OutOfMemory) }
        ensures tail { IsTail u.new u.old }
    {
        let mut equals = match self.equals.take() {
            Some(equals) => equals,
            None => Box::new(alloc, Equals::new(alloc))?,
        };
        equals.note_rest(alloc, self.scope.types())?;
        let found = equals.choose(&**func, u);
        self.equals = Some(equals);
        Ok(found)
    }
}
