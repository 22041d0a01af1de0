//! Scopes of types that were read.

ghost use Rattle.smith_scopes.specs.Nodes.{AreAlike};

mod marking;

use smith_read::{CoreNode, DeclNode, TypeNode};
use smith_scope::{Nest, NodeScope, Scope};
use smith_syntax::{ComponentTypeRef, Mark};
use std::alloc::{AllocError, Global};

/// Scopes of types that were read, one in another. In each of them marks are kept, or in none.
#[derive(Drop)]
pub struct NodeScopes<'a> {
    alloc: Global,
    pub nest: Nest<NodeScope<'a>>,
    ghost alike: { AreAlike nest.own.keeps nest.outer.items },
}

impl<'a> NodeScopes<'a> {
    ghost use Rattle.std.specs.Prelude.{◌≡◌, ◌<◌, ◌∷◌, [], length, option_map, slice_get, None, Some, false};
    ghost use Rattle.std.specs.Prelude.{MatchOption, IfSome, OnOk, option_to_list};
    ghost use Rattle.smith_syntax.specs.Marked.{empty_marked};
    ghost use Rattle.smith_syntax.specs.Scope.{after_decl, core_type_named, empty_scope, type_named, with_core_type};
    ghost use Rattle.smith_syntax.specs.Scope.{with_core_types, with_type, with_types};
    ghost use Rattle.smith_read.specs.Nodes.{shown_core_node};
    ghost use Rattle.smith_read.specs.TypeNodes.{shown_decl_node, shown_type_node};
    ghost use Rattle.smith_scopes.specs.NodeScopes.{outer_in, own_in, outer_marked_in, own_marked_in, shown_marked};
    ghost use Rattle.smith_scopes.specs.NodeScopes.{shown_scope};

    /// One empty scope, in which nothing is kept of the types.
    pub fn new(alloc: Global) -> NodeScopes<'a>
        ensures own { own_in result ≡ empty_scope }
        ensures outer { outer_in result ≡ [] }
    {
        NodeScopes::with_marks(alloc, false)
    }

    /// One empty scope. Here and in the scopes that are entered marks are kept if `keeps` says so.
    pub fn with_marks(alloc: Global, keeps: bool) -> NodeScopes<'a>
        ensures own { own_marked_in result ≡ empty_marked keeps }
        ensures outer { outer_marked_in result ≡ [] }
        ensures plain { outer_in result ≡ [] }
    {
        NodeScopes {
            alloc,
            nest: Nest::new(alloc, Scope::new(alloc, keeps)),
        }
    }

    /// Enters an empty scope.
    pub fn enter(&mut self, alloc: Global) -> Result<(), AllocError>
        ensures own { OnOk result (own_in self.new ≡ empty_scope) }
        ensures outer { OnOk result (outer_in self.new ≡ own_in self.old ∷ outer_in self.old) }
        ensures fresh { OnOk result (own_marked_in self.new ≡ empty_marked (own_marked_in self.old).keeps) }
        ensures around { OnOk result (outer_marked_in self.new ≡ own_marked_in self.old ∷ outer_marked_in self.old) }
    {
        let empty = Scope::new(alloc, self.nest.own.keeps());
        self.nest.enter(empty)?;
        Ok(())
    }

    /// Leaves the innermost scope, which has one around it.
    pub fn leave(&mut self)
        requires { 0 < length (outer_in self.old) }
        ensures plain { outer_in self.old ≡ own_in self.new ∷ outer_in self.new }
        ensures marked { outer_marked_in self.old ≡ own_marked_in self.new ∷ outer_marked_in self.new }
    {
        self.nest.leave();
    }

    /// The scope of that count, innermost first.
    pub fn scope_at(&self, count: u32) -> Option<&NodeScope<'a>>
        ensures plain { MatchOption result
            (slice_get (own_in self.now ∷ outer_in self.now) count ≡ None)
            (λ s. slice_get (own_in self.now ∷ outer_in self.now) count ≡ Some (shown_scope s.now)) }
        ensures marked { MatchOption result
            (slice_get (own_marked_in self.now ∷ outer_marked_in self.now) count ≡ None)
            (λ s. slice_get (own_marked_in self.now ∷ outer_marked_in self.now) count ≡ Some (shown_marked s.now)) }
        ensures alike { IfSome result (λ s. s.now.keeps ≡ (own_marked_in self.now).keeps) }
    {
        self.nest.get(count)
    }

    /// The type that an outer alias names.
    pub fn type_named(&self, count: u32, index: u32) -> Option<&'a TypeNode>
        ensures { option_map (λ t. shown_type_node t.now) result
            ≡ type_named (own_in self.now ∷ outer_in self.now) count index }
    {
        self.scope_at(count)?.type_at(index)
    }

    /// The core type that an outer alias names.
    pub fn core_type_named(&self, count: u32, index: u32) -> Option<&'a CoreNode>
        ensures { option_map (λ t. shown_core_node t.now) result
            ≡ core_type_named (own_in self.now ∷ outer_in self.now) count index }
    {
        self.scope_at(count)?.core_type_at(index)
    }

    /// The type with that index in the innermost scope.
    pub fn type_at(&self, index: u32) -> Option<&'a TypeNode>
        ensures { option_map (λ t. shown_type_node t.now) result ≡ slice_get (own_in self.now).types index }
    {
        self.nest.own.type_at(index)
    }

    /// The core type with that index in the innermost scope.
    pub fn core_type_at(&self, index: u32) -> Option<&'a CoreNode>
        ensures { option_map (λ t. shown_core_node t.now) result ≡ slice_get (own_in self.now).core_types index }
    {
        self.nest.own.core_type_at(index)
    }

    /// Adds a type to the innermost scope, of which nothing is known.
    pub fn add_type(&mut self, ty: &'a TypeNode) -> Result<(), AllocError>
        ensures own { OnOk result (own_in self.new ≡ with_type (own_in self.old) (shown_type_node ty.now)) }
        ensures outer { outer_in self.new ≡ outer_in self.old }
    {
        self.nest.own.push_type(self.alloc, ty, Mark::NONE)
    }

    /// Adds a core type to the innermost scope, of which nothing is known.
    pub fn add_core_type(&mut self, ty: &'a CoreNode) -> Result<(), AllocError>
        ensures own { OnOk result (own_in self.new ≡ with_core_type (own_in self.old) (shown_core_node ty.now)) }
        ensures outer { outer_in self.new ≡ outer_in self.old }
    {
        self.nest.own.push_core_type(self.alloc, ty, 0)
    }

    // Adds a type, if there is one.
    fn add_named(&mut self, ty: Option<&'a TypeNode>) -> Result<(), AllocError>
        ensures own { OnOk result (own_in self.new
            ≡ with_types (own_in self.old) (option_to_list (option_map (λ t. shown_type_node t.now) ty.entry))) }
        ensures outer { outer_in self.new ≡ outer_in self.old }
    {
        match ty {
            Some(ty) => self.add_type(ty),
            None => Ok(()),
        }
    }

    // Adds a core type, if there is one.
    fn add_core_named(&mut self, ty: Option<&'a CoreNode>) -> Result<(), AllocError>
        ensures own { OnOk result (own_in self.new
            ≡ with_core_types (own_in self.old) (option_to_list (option_map (λ t. shown_core_node t.now) ty.entry))) }
        ensures outer { outer_in self.new ≡ outer_in self.old }
    {
        match ty {
            Some(ty) => self.add_core_type(ty),
            None => Ok(()),
        }
    }

    /// Adds to the innermost scope what a declaration adds to it.
    #[tactic(auto, using(smith_read::proofs::ShownNodes::shown_nodes))]
    pub fn add_decl(&mut self, decl: &'a DeclNode) -> Result<(), AllocError>
        ensures own { OnOk result (own_in self.new
            ≡ after_decl (outer_in self.old) (own_in self.old) (shown_decl_node decl.now)) }
        ensures outer { outer_in self.new ≡ outer_in self.old }
    {
        match decl {
            DeclNode::Core(ty) => self.add_core_type(ty),
            DeclNode::Type(ty) => self.add_type(ty),
            DeclNode::TypeAlias { count, index } => {
                let ty = self.type_named(*count, *index);
                self.add_named(ty)
            }
            DeclNode::CoreTypeAlias { count, index } => {
                let ty = self.core_type_named(*count, *index);
                self.add_core_named(ty)
            }
            DeclNode::Export {
                to: ComponentTypeRef::TypeEq(index),
                ..
            } => {
                let ty = self.type_at(*index);
                self.add_named(ty)
            }
            DeclNode::Import { .. } | DeclNode::Export { .. } => Ok(()),
        }
    }
}
