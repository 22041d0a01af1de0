//! The positions of the entries of each kind.

ghost use Rattle.std.specs.Prelude.{◌≡◌, OnErr, OnOk};
ghost use Rattle.smith_scope.specs.Positions.{none_by_kind, of_kind, with_place};

use crate::kinds::Kind;
use std::alloc::{AllocError, Global};
use std::marker::Model;

/// The positions of the entries of each kind, ascending.
#[derive(Drop)]
pub(crate) struct Positions {
    defined: Vec<usize>,
    funcs: Vec<usize>,
    components: Vec<usize>,
    instances: Vec<usize>,
    core_funcs: Vec<usize>,
    core_modules: Vec<usize>,
}

impl Model for Positions {
    ghost use Rattle.smith_scope.specs.Positions.{ByKind};

    ghost Value = { ByKind };

    ghost view = { λ p. record {
      defined = p.defined.items;
      funcs = p.funcs.items;
      components = p.components.items;
      instances = p.instances.items;
      core_funcs = p.core_funcs.items;
      core_modules = p.core_modules.items;
    } };
}

impl Positions {
    /// None.
    pub(crate) fn new(alloc: Global) -> Positions
        ensures { result ≡ none_by_kind }
    {
        Positions {
            defined: Vec::new(alloc),
            funcs: Vec::new(alloc),
            components: Vec::new(alloc),
            instances: Vec::new(alloc),
            core_funcs: Vec::new(alloc),
            core_modules: Vec::new(alloc),
        }
    }

    /// Adds the position of an entry of that kind.
    #[inline(always)]
    pub(crate) fn push(&mut self, kind: Kind, index: usize) -> Result<(), AllocError>
        ensures ok { OnOk result (self.new ≡ with_place self.old kind index) }
        ensures err { OnErr result (self.new ≡ self.old) }
    {
        match kind {
            Kind::Defined => self.defined.push(index)?,
            Kind::Func => self.funcs.push(index)?,
            Kind::Component => self.components.push(index)?,
            Kind::Instance => self.instances.push(index)?,
            Kind::CoreFunc => self.core_funcs.push(index)?,
            Kind::CoreModule => self.core_modules.push(index)?,
        }
        Ok(())
    }

    /// The positions of the entries of that kind.
    #[inline(always)]
    pub(crate) fn row(&self, kind: Kind) -> &[usize]
        ensures { result.now ≡ of_kind kind self.now }
    {
        match kind {
            Kind::Defined => &self.defined,
            Kind::Func => &self.funcs,
            Kind::Component => &self.components,
            Kind::Instance => &self.instances,
            Kind::CoreFunc => &self.core_funcs,
            Kind::CoreModule => &self.core_modules,
        }
    }
}
