//! Where a type of a component or an instance is in its declarations.

ghost use Rattle.std.specs.Prelude.{◌≡◌, ◌≤◌, ◌+◌, ◌<◌};
ghost use Rattle.smith_tree.specs.TypeScript.{after_taken, none_taken};
ghost use Rattle.smith_read.specs.TypeNodes.{shown_decl_node};
ghost use Rattle.smith_script_types.specs.Declaring.{taken_in};

use smith_read::DeclNode;

/// Where a type of a component or an instance is in its declarations: whether it may import, how much fuel is left, and
/// how many imports and exports are before.
#[derive(Clone, Copy)]
pub(crate) struct Declaring {
    pub(crate) importing: bool,
    pub(crate) fuel: u32,
    pub(crate) imports: usize,
    pub(crate) exports: usize,
}

impl Declaring {
    /// Before the first declaration.
    pub(crate) fn new(importing: bool, fuel: u32) -> Declaring
        ensures importing { result.importing ≡ importing }
        ensures fuel { result.fuel ≡ fuel }
        ensures none { taken_in result ≡ none_taken }
    {
        Declaring {
            importing,
            fuel,
            imports: 0,
            exports: 0,
        }
    }

    /// The same with that much fuel.
    pub(crate) fn with_fuel(self, fuel: u32) -> Declaring
        ensures importing { result.importing ≡ self.importing }
        ensures fuel { result.fuel ≡ fuel }
        ensures taken { taken_in result ≡ taken_in self }
    {
        Declaring { fuel, ..self }
    }

    /// After a declaration, which leaves that much fuel.
    #[tactic(auto, using(crate::proofs::TableSteps::nodes))]
    pub(crate) fn after(self, decl: &DeclNode, fuel: u32) -> Declaring
        requires { (self.imports < 18446744073709551615) × (self.exports < 18446744073709551615) }
        ensures importing { result.importing ≡ self.importing }
        ensures fuel { result.fuel ≡ fuel }
        ensures taken { taken_in result ≡ after_taken (taken_in self) (shown_decl_node decl.now) }
        ensures few { (result.imports ≤ self.imports + 1) × (result.exports ≤ self.exports + 1) }
    {
        let next = self.with_fuel(fuel);
        match decl {
            DeclNode::Import { .. } => Declaring {
                imports: self.imports + 1,
                ..next
            },
            DeclNode::Export { .. } => Declaring {
                exports: self.exports + 1,
                ..next
            },
            DeclNode::Core(_)
            | DeclNode::Type(_)
            | DeclNode::TypeAlias { .. }
            | DeclNode::CoreTypeAlias { .. } => next,
        }
    }
}
