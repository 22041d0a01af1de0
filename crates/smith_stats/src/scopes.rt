//! The types and functions of the scopes that are open, as what refers to one of them tells it.

use crate::combination::{Around, Chain, Origin, Sort, Within};
use std::alloc::{AllocError, Global};

/// A type or a function.
#[derive(Clone, Copy)]
pub(crate) struct Known {
    pub(crate) sort: Sort,
    pub(crate) origin: Origin,
    pub(crate) chain: Chain,
}

impl Known {
    /// What is there without an index.
    pub(crate) fn plain(sort: Sort) -> Known {
        Known {
            sort,
            origin: Origin::Plain,
            chain: Chain::None,
        }
    }

    /// A type that is declared, and that refers to types of that chain.
    pub(crate) fn declared(sort: Sort, chain: Chain) -> Known {
        Known {
            sort,
            origin: Origin::Declared,
            chain: chain.next(),
        }
    }

    /// The same by another way.
    pub(crate) fn from(self, origin: Origin) -> Known {
        Known { origin, ..self }
    }
}

/// A component, or a type that declares others.
#[derive(Drop)]
struct Scope {
    within: Within,
    around: Around,
    types: Vec<Known>,
    core_types: Vec<Known>,
    functions: Vec<Known>,
    core_functions: Vec<Known>,
    // The longest chain of its types.
    chain: Chain,
}

/// The scopes that are open, the root first.
#[derive(Drop)]
pub(crate) struct Scopes {
    alloc: Global,
    open: Vec<Scope>,
}

// The one of that index, from 0.
fn known_at(known: &[Known], index: u32) -> Known {
    match known.get(index as usize) {
        Some(known) => *known,
        None => Known::plain(Sort::Unknown),
    }
}

impl Scopes {
    /// None.
    pub(crate) fn new(alloc: Global) -> Scopes {
        Scopes {
            alloc,
            open: Vec::new(alloc),
        }
    }

    /// Opens a scope.
    pub(crate) fn begin(&mut self, within: Within) -> Result<(), AllocError> {
        let alloc = self.alloc;
        let around = self.within().around();
        self.open.push(Scope {
            within,
            around,
            types: Vec::new(alloc),
            core_types: Vec::new(alloc),
            functions: Vec::new(alloc),
            core_functions: Vec::new(alloc),
            chain: Chain::None,
        })?;
        Ok(())
    }

    /// Closes the innermost scope. Returns the longest chain of its types.
    pub(crate) fn end(&mut self) -> Chain {
        match self.open.pop() {
            Some(scope) => scope.chain,
            None => Chain::None,
        }
    }

    /// What the innermost scope is.
    pub(crate) fn within(&self) -> Within {
        match self.open.last() {
            Some(scope) => scope.within,
            None => Within::Root,
        }
    }

    /// What is around the innermost scope.
    pub(crate) fn around(&self) -> Around {
        match self.open.last() {
            Some(scope) => scope.around,
            None => Around::Component,
        }
    }

    // The scope that is that many scopes out.
    fn out(&self, count: u32) -> Option<&Scope> {
        let last = self.open.len().checked_sub(1)?;
        self.open.get(last.checked_sub(count as usize)?)
    }

    /// A type of the scope that is that many scopes out.
    pub(crate) fn type_at(&self, count: u32, index: u32) -> Known {
        match self.out(count) {
            Some(scope) => known_at(&scope.types, index),
            None => Known::plain(Sort::Unknown),
        }
    }

    /// A core type of the scope that is that many scopes out.
    pub(crate) fn core_type_at(&self, count: u32, index: u32) -> Known {
        match self.out(count) {
            Some(scope) => known_at(&scope.core_types, index),
            None => Known::plain(Sort::Unknown),
        }
    }

    /// A function of the innermost scope.
    pub(crate) fn function_at(&self, index: u32) -> Known {
        match self.open.last() {
            Some(scope) => known_at(&scope.functions, index),
            None => Known::plain(Sort::Unknown),
        }
    }

    /// A core function of the innermost scope.
    pub(crate) fn core_function_at(&self, index: u32) -> Known {
        match self.open.last() {
            Some(scope) => known_at(&scope.core_functions, index),
            None => Known::plain(Sort::Unknown),
        }
    }

    /// Adds a type to the innermost scope.
    pub(crate) fn add_type(&mut self, known: Known) -> Result<(), AllocError> {
        if let Some(scope) = self.open.last_mut() {
            scope.chain = scope.chain.longer(known.chain);
            scope.types.push(known)?;
        }
        Ok(())
    }

    /// Adds a core type to the innermost scope.
    pub(crate) fn add_core_type(&mut self, known: Known) -> Result<(), AllocError> {
        if let Some(scope) = self.open.last_mut() {
            scope.chain = scope.chain.longer(known.chain);
            scope.core_types.push(known)?;
        }
        Ok(())
    }

    /// Adds a function to the innermost scope.
    pub(crate) fn add_function(&mut self, known: Known) -> Result<(), AllocError> {
        if let Some(scope) = self.open.last_mut() {
            scope.functions.push(known)?;
        }
        Ok(())
    }

    /// Adds a core function to the innermost scope.
    pub(crate) fn add_core_function(&mut self, known: Known) -> Result<(), AllocError> {
        if let Some(scope) = self.open.last_mut() {
            scope.core_functions.push(known)?;
        }
        Ok(())
    }
}
