//! Scopes of types that are made.

ghost use Rattle.std.specs.Prelude.{◌≡◌, false, ◌+◌, ◌<◌, ◌≤◌, [], ◌∷◌, ◌++◌, length, Some, OnOk, IfOk, OnErr, IfErr};
ghost use Rattle.smith_format.specs.Consistency.{max_u32};
ghost use Rattle.smith_syntax.specs.Marked.{empty_marked};
ghost use Rattle.smith_syntax.specs.Scope.{empty_scope, with_type, with_core_type};
ghost use Rattle.smith_input.specs.Reading.{IsTail};
ghost use Rattle.smith_scopes.specs.Rows.{IsChosenEqual};
ghost use Rattle.smith_scopes.specs.Scopes.{last_of, lists_at, lists_in, AddsType, AddsMarked, AddsCoreType, AddsSized};
ghost use Rattle.smith_scopes.specs.Scopes.{Changes};

mod abi;
mod equals;
mod made;
mod marking;
mod queries;

pub use abi::CanonicalAbi;
use made::MadeScope;
use smith_input::{Error, Unstructured};
use smith_scope::Nest;
use smith_syntax::{CoreType, DefType, FuncType, Mark};
use std::alloc::Global;
use std::cell::OnceCell;
use std::marker::Model;
use std::rc::Rc;

/// A stack of scopes, never empty. Contracts see the list, outermost first, of the types and core types in each, and of
/// what is kept of them. It is dropped from the last scope to the first, and each scope from its last type to its
/// first, so that the stack that this takes does not grow with the number of types; no clause can say so.
#[derive(Drop)]
pub struct Scopes {
    alloc: Global,
    nest: Nest<MadeScope>,
    abi: OnceCell<CanonicalAbi>,
}

impl Model for Scopes {
    ghost use Rattle.std.specs.Prelude.{List, [], ◌∷◌, ◌++◌};
    ghost use Rattle.smith_scopes.specs.Scopes.{Contents};

    ghost Value = { List Contents };

    ghost use Rattle.smith_syntax.specs.contracts.deftype.DefType as kind;
    ghost use Rattle.std.specs.Coded.{codes};

    ghost coded = { Prim.hlevel (codes, kind.the_row.coded) };

    ghost view = { λ s. s.nest.outer.items ++ s.nest.own ∷ [] };
}

impl Scopes {
    /// One scope, empty, in which nothing is kept of the types.
    pub fn new(alloc: Global) -> Scopes
        ensures value { result ≡ empty_marked false ∷ [] }
        ensures lists { lists_in result ≡ empty_scope ∷ [] }
    {
        Scopes::with_marks(alloc, false)
    }

    /// One scope, empty. Here and in the scopes that are opened marks are kept if `keeps` says so.
    pub fn with_marks(alloc: Global, keeps: bool) -> Scopes
        ensures { result ≡ empty_marked keeps ∷ [] }
    {
        Scopes {
            alloc,
            nest: Nest::new(alloc, MadeScope::new(alloc, keeps)),
            abi: OnceCell::new(),
        }
    }

    /// The types of the functions that the canonical ABI asks of a module type. They are made when they are first asked
    /// for. It fails only when out of memory.
    pub fn canonical_abi(&self) -> Result<&CanonicalAbi, Error>
        ensures { IfErr result (λ e. e ≡ Error.OutOfMemory) }
    {
        if let Some(types) = self.abi.get() {
            return Ok(types);
        }
        let _ = self.abi.set(CanonicalAbi::new(self.alloc)?);
        self.abi.get().ok_or(Error::OutOfMemory)
    }

    /// Adds an empty scope. It fails only when out of memory, and all is then as it was.
    pub fn open_scope(&mut self) -> Result<(), Error>
        ensures ok { OnOk result (self.new ≡ self.old ++ empty_marked (last_of self.old).keeps ∷ []) }
        ensures lists { OnOk result (lists_in self.new ≡ lists_in self.old ++ empty_scope ∷ []) }
        ensures deep { OnOk result (2 ≤ length self.new) }
        ensures err { OnErr result (self.new ≡ self.old) }
        ensures memory { IfErr result (λ e. e ≡ Error.OutOfMemory) }
    {
        let empty = MadeScope::new(self.alloc, self.last().keeps());
        self.nest.enter(empty)?;
        Ok(())
    }

    /// Takes the last scope away.
    pub fn close_scope(&mut self)
        requires { 2 ≤ length self.old }
        ensures value { self.old ≡ self.new ++ last_of self.old ∷ [] }
        ensures lists { lists_in self.old ≡ lists_in self.new ++ lists_at self.old 0 ∷ [] }
    {
        self.nest.leave();
    }

    /// Adds a type to the last scope, and returns its index there. It fails only when out of memory, and all is then as
    /// it was.
    pub fn push_type(&mut self, entry: Rc<DefType>) -> Result<u32, Error>
        requires { length (last_of self.old).types < max_u32 }
        ensures ok { OnOk result (AddsType self.old entry.value self.new) }
        ensures lists { OnOk result (Changes (λ d. with_type d entry.value) (lists_in self.old) (lists_in self.new)) }
        ensures index { IfOk result (λ i. i ≡ length (last_of self.old).types) }
        ensures err { OnErr result (self.new ≡ self.old) }
        ensures memory { IfErr result (λ e. e ≡ Error.OutOfMemory) }
    {
        self.push_marked(entry, Mark::NONE)
    }

    /// Adds a type of that mark to the last scope, and returns its index there. It fails only when out of memory, and
    /// all is then as it was.
    pub fn push_marked(&mut self, entry: Rc<DefType>, mark: Mark) -> Result<u32, Error>
        requires { length (last_of self.old).types < max_u32 }
        ensures ok { OnOk result (AddsMarked self.old entry.value mark self.new) }
        ensures index { IfOk result (λ i. i ≡ length (last_of self.old).types) }
        ensures err { OnErr result (self.new ≡ self.old) }
        ensures memory { IfErr result (λ e. e ≡ Error.OutOfMemory) }
    {
        self.nest.own.push_type(self.alloc, entry, mark)
    }

    /// The index of a function type of the last scope that equals that one, by a choice; none if there is none. It
    /// fails only when out of memory.
    pub fn choose_equal(
        &mut self,
        func: &Rc<FuncType>,
        u: &mut Unstructured,
    ) -> Result<Option<u32>, Error>
        ensures chosen { IfOk result
            (λ found. IsChosenEqual (last_of self.old).types func.now.value u.old found u.new) }
        ensures same { self.new ≡ self.old }
        ensures memory { IfErr result (λ e. e ≡ Error.OutOfMemory) }
        ensures tail { IsTail u.new u.old }
    {
        self.nest.own.choose_equal(self.alloc, func, u)
    }

    /// Adds a core type to the last scope, and returns its index there. It fails only when out of memory, and all is
    /// then as it was.
    pub fn push_core_type(&mut self, entry: Rc<CoreType>) -> Result<u32, Error>
        requires { length (last_of self.old).core_types < max_u32 }
        ensures ok { OnOk result (AddsCoreType self.old entry.value self.new) }
        ensures lists { OnOk result
            (Changes (λ d. with_core_type d entry.value) (lists_in self.old) (lists_in self.new)) }
        ensures index { IfOk result (λ i. i ≡ length (last_of self.old).core_types) }
        ensures err { OnErr result (self.new ≡ self.old) }
        ensures memory { IfErr result (λ e. e ≡ Error.OutOfMemory) }
    {
        self.push_sized(entry, 0)
    }

    /// Adds a core type of that size to the last scope, and returns its index there. It fails only when out of memory,
    /// and all is then as it was.
    pub fn push_sized(&mut self, entry: Rc<CoreType>, size: u32) -> Result<u32, Error>
        requires { length (last_of self.old).core_types < max_u32 }
        ensures ok { OnOk result (AddsSized self.old entry.value size self.new) }
        ensures index { IfOk result (λ i. i ≡ length (last_of self.old).core_types) }
        ensures err { OnErr result (self.new ≡ self.old) }
        ensures memory { IfErr result (λ e. e ≡ Error.OutOfMemory) }
    {
        self.nest.own.push_core_type(self.alloc, entry, size)
    }
}
