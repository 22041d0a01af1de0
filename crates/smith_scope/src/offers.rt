//! What the types of a scope may be used for, if marks are kept.

ghost use Rattle.std.specs.Prelude.{◌≡◌, ◌&&◌, false, OnOk};
ghost use Rattle.smith_syntax.specs.Entries.{Decls, DefValType, Entry, Signature, component_type, defined, function};
ghost use Rattle.smith_syntax.specs.Entries.{instance_type};
ghost use Rattle.smith_syntax.specs.Marks.{is_small, is_somewhere};
ghost use Rattle.smith_scope.specs.Positions.{kind_of};
ghost use Rattle.smith_scope.specs.Kept.{AreEmpty, AreUses, HasRoom, HaveRoom, Notes, SameOffers, kind_for, noted};
ghost use Rattle.smith_scope.specs.Kept.{row_for};

use crate::kinds::Kind;
use smith_syntax::Mark;
use std::alloc::{AllocError, Global};

/// What a type of a scope may be used for.
#[derive(Debug, Clone, Copy, PartialEq, Eq)]
pub enum Offer {
    /// For a value type.
    Value,
    /// For an import of a function.
    Import,
    /// For an export of a function.
    Export,
    /// For an export of a type that is equal to it.
    Equal,
    /// For an import or export of a component.
    Component,
    /// For an import or export of an instance.
    Instance,
}

impl Offer {
    /// The kind of those types, if it is one alone.
    pub fn kind(self) -> Option<Kind>
        ensures { result ≡ kind_for self }
    {
        match self {
            Offer::Value => Some(Kind::Defined),
            Offer::Import | Offer::Export => Some(Kind::Func),
            Offer::Equal => None,
            Offer::Component => Some(Kind::Component),
            Offer::Instance => Some(Kind::Instance),
        }
    }
}

/// Whether a type may be used for each.
#[derive(Clone, Copy)]
pub(crate) struct Uses {
    value: bool,
    import: bool,
    export: bool,
    equal: bool,
    component: bool,
    instance: bool,
}

impl Uses {
    // The uses of any type with that mark.
    fn any(mark: Mark) -> Uses
        ensures { result ≡ record {
          value = false;
          import = false;
          export = false;
          equal = is_small mark && is_somewhere mark;
          component = false;
          instance = false;
        } }
    {
        Uses {
            value: false,
            import: false,
            export: false,
            equal: mark.is_small() && mark.is_somewhere(),
            component: false,
            instance: false,
        }
    }

    // The uses of a type of values with that mark.
    fn defined(mark: Mark) -> Uses
        ensures { (t : DefValType) → AreUses result (defined t) mark }
    {
        Uses {
            value: mark.is_small(),
            ..Uses::any(mark)
        }
    }

    // The uses of a function type with that mark.
    fn function(mark: Mark) -> Uses
        ensures { (s : Signature) → AreUses result (function s) mark }
    {
        let any = Uses::any(mark);
        Uses {
            import: mark.is_small() && mark.is_everywhere(),
            export: any.equal,
            ..any
        }
    }

    // The uses of a component type with that mark.
    fn component(mark: Mark) -> Uses
        ensures { (ds : Decls) → AreUses result (component_type ds) mark }
    {
        Uses {
            component: mark.is_small(),
            ..Uses::any(mark)
        }
    }

    // The uses of an instance type with that mark.
    fn instance(mark: Mark) -> Uses
        ensures { (ds : Decls) → AreUses result (instance_type ds) mark }
    {
        Uses {
            instance: mark.is_small(),
            ..Uses::any(mark)
        }
    }

    /// The uses of a type with that kind and mark.
    pub(crate) fn new(kind: Kind, mark: Mark) -> Uses
        ensures { (e : Entry) → kind_of e ≡ kind → AreUses result e mark }
    {
        match kind {
            Kind::Defined => Uses::defined(mark),
            Kind::Func => Uses::function(mark),
            Kind::Component => Uses::component(mark),
            Kind::Instance => Uses::instance(mark),
            Kind::CoreFunc | Kind::CoreModule => Uses::any(mark),
        }
    }
}

/// The indexes of the types that may be used for each.
#[derive(Drop)]
pub(crate) struct Offers {
    values: Vec<usize>,
    imports: Vec<usize>,
    exports: Vec<usize>,
    equals: Vec<usize>,
    components: Vec<usize>,
    instances: Vec<usize>,
}

// Puts the index at the end of a row, if it belongs there.
fn put(row: &mut Vec<usize>, holds: bool, index: usize)
    requires { HasRoom row.old }
    ensures { row.new.items ≡ noted row.old.items holds index }
{
    if holds {
        row.push_reserved(index);
    }
}

impl Offers {
    /// No index in any.
    pub(crate) fn new(alloc: Global) -> Offers
        ensures { AreEmpty result }
    {
        Offers {
            values: Vec::new(alloc),
            imports: Vec::new(alloc),
            exports: Vec::new(alloc),
            equals: Vec::new(alloc),
            components: Vec::new(alloc),
            instances: Vec::new(alloc),
        }
    }

    /// Makes room for one more index in each row.
    pub(crate) fn reserve(&mut self) -> Result<(), AllocError>
        ensures rows { SameOffers self.old self.new }
        ensures room { OnOk result (HaveRoom self.new) }
    {
        self.values.reserve(1)?;
        self.imports.reserve(1)?;
        self.exports.reserve(1)?;
        self.equals.reserve(1)?;
        self.components.reserve(1)?;
        self.instances.reserve(1)
    }

    /// Puts the index of a type at the end of the rows of what it may be used for.
    pub(crate) fn add(&mut self, index: usize, uses: Uses)
        requires { HaveRoom self.old }
        ensures { Notes self.old self.new uses index }
    {
        put(&mut self.values, uses.value, index);
        put(&mut self.imports, uses.import, index);
        put(&mut self.exports, uses.export, index);
        put(&mut self.equals, uses.equal, index);
        put(&mut self.components, uses.component, index);
        put(&mut self.instances, uses.instance, index);
    }

    /// The indexes of the types that may be used for it.
    pub(crate) fn row(&self, offer: Offer) -> &[usize]
        ensures { result.now ≡ row_for offer self.now }
    {
        match offer {
            Offer::Value => &self.values,
            Offer::Import => &self.imports,
            Offer::Export => &self.exports,
            Offer::Equal => &self.equals,
            Offer::Component => &self.components,
            Offer::Instance => &self.instances,
        }
    }
}
