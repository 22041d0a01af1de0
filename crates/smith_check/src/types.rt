//! Types of all sorts, component and instance types among them.

ghost use Rattle.std.specs.Prelude.{◌≡◌, ◌<◌, length, ◌∷◌, ◌++◌, [], List, map, OnOk};
ghost use Rattle.smith_syntax.specs.Entries.{in_order};
ghost use Rattle.smith_syntax.specs.Scope.{empty_scope};
ghost use Rattle.smith_syntax.specs.Possible.{PossibleDeclaration, PossibleDeclarations, PossibleEntry};
ghost use Rattle.smith_syntax.specs.WellFormed.{FormedDeclaration, FormedDeclarations, FormedEntry, decl_imports};
ghost use Rattle.smith_syntax.specs.WellFormed.{import_of};
ghost use Rattle.smith_read.specs.declared.type_nodes.DeclNode.{DeclNode};
ghost use Rattle.smith_read.specs.TypeNodes.{shown_decl_node, shown_type_node};
ghost use Rattle.smith_check.specs.Judges.{Decides, Grades, Judges};
ghost use Rattle.smith_scopes.specs.NodeScopes.{outer_in, own_in};
ghost use Rattle.smith_check.specs.Taken.{KnowsDeclared, NamedDeclared, NamedPossibly};

use crate::entries::{check_imported, check_reference};
use crate::error::{Checked, Rule, Stop};
use crate::modules::check_core;
use crate::names::Names;
use crate::values::{check_defined, check_signature};
use smith_read::{DeclNode, TypeNode};
use smith_scopes::NodeScopes;
use std::alloc::Global;

// The names that a component type or an instance type imports, and those that it exports.
#[derive(Drop)]
struct DeclaredNames<'a> {
    imports: Names<'a>,
    exports: Names<'a>,
}

impl<'a> DeclaredNames<'a> {
    fn new(alloc: Global) -> DeclaredNames<'a>
        ensures { KnowsDeclared result [] }
    {
        DeclaredNames {
            imports: Names::new(alloc),
            exports: Names::new(alloc),
        }
    }

    // Adds the name of a declaration, if it has one, which has to be in kebab case and new.
    #[tactic(auto, using(smith_read::proofs::ShownNodes::shown_nodes))]
    fn add(&mut self, decl: &'a DeclNode) -> Checked
        ensures judged { (before : List DeclNode) → KnowsDeclared self.old before
            → Judges result (NamedDeclared (before ++ decl.now ∷ [])) }
        ensures graded { (before : List DeclNode) → KnowsDeclared self.old before
            → Grades result (NamedPossibly (before ++ decl.now ∷ [])) }
        ensures added { (before : List DeclNode) → KnowsDeclared self.old before
            → OnOk result (KnowsDeclared self.new (before ++ decl.now ∷ [])) }
    {
        match decl {
            DeclNode::Import { name, .. } => self.imports.add(name, true),
            DeclNode::Export { name, .. } => self.exports.add(name, true),
            DeclNode::Core(_) => Ok(()),
            DeclNode::Type(_) => Ok(()),
            DeclNode::TypeAlias { .. } => Ok(()),
            DeclNode::CoreTypeAlias { .. } => Ok(()),
        }
    }
}

// Does it import something?
#[tactic(auto, using(smith_read::proofs::ShownNodes::shown_nodes))]
fn is_import(decl: &DeclNode) -> bool
    ensures { Decides result (0 < length (import_of (shown_decl_node decl.now))) }
{
    matches!(decl, DeclNode::Import { .. })
}

// Checks that the declarations of an instance type import nothing.
fn check_no_imports(decls: &[DeclNode]) -> Checked
    ensures { Judges result (decl_imports (in_order (map shown_decl_node decls.now)) ≡ []) }
{
    for decl in decls {
        if is_import(decl) {
            return Err(Stop::IllFormed(Rule::InstanceImport));
        }
    }
    Ok(())
}

#[cycle(types)]
#[tactic(auto, using(smith_read::proofs::ShownNodes::shown_nodes))]
pub(crate) fn check_type<'a>(
    alloc: Global,
    scopes: &mut NodeScopes<'a>,
    ty: &'a TypeNode,
) -> Checked
    ensures judged { Judges result (FormedEntry (shown_type_node ty.now) (own_in scopes.old) (outer_in scopes.old)) }
    ensures graded { Grades result
        (PossibleEntry (shown_type_node ty.now) (own_in scopes.old) (outer_in scopes.old)) }
    ensures own { OnOk result (own_in scopes.new ≡ own_in scopes.old) }
    ensures outer { OnOk result (outer_in scopes.new ≡ outer_in scopes.old) }
{
    match ty {
        TypeNode::Defined(ty) => check_defined(alloc, scopes, ty),
        TypeNode::Func(ty) => check_signature(alloc, scopes, ty),
        TypeNode::Component(decls) => check_decls(alloc, scopes, decls),
        TypeNode::Instance(decls) => {
            check_no_imports(decls)?;
            check_decls(alloc, scopes, decls)
        }
    }
}

// Checks a declaration of a component type or an instance type.
#[cycle(types)]
#[tactic(auto, using(smith_read::proofs::ShownNodes::shown_nodes))]
fn check_decl<'a>(alloc: Global, scopes: &mut NodeScopes<'a>, decl: &'a DeclNode) -> Checked
    ensures judged { Judges result
        (FormedDeclaration (shown_decl_node decl.now) (own_in scopes.old) (outer_in scopes.old)) }
    ensures graded { Grades result
        (PossibleDeclaration (shown_decl_node decl.now) (own_in scopes.old) (outer_in scopes.old)) }
    ensures own { OnOk result (own_in scopes.new ≡ own_in scopes.old) }
    ensures outer { OnOk result (outer_in scopes.new ≡ outer_in scopes.old) }
{
    match decl {
        DeclNode::Core(ty) => check_core(alloc, scopes, ty),
        DeclNode::Type(ty) => check_type(alloc, scopes, ty),
        DeclNode::TypeAlias { count, index } => match scopes.type_named(*count, *index) {
            Some(_) => Ok(()),
            None => Err(Stop::IllFormed(Rule::OuterAlias)),
        },
        DeclNode::CoreTypeAlias { count, index } => match scopes.core_type_named(*count, *index) {
            Some(_) => Ok(()),
            None => Err(Stop::IllFormed(Rule::OuterAlias)),
        },
        DeclNode::Import { to, .. } => check_imported(scopes, *to),
        DeclNode::Export { to, .. } => check_reference(scopes, *to),
    }
}

// Checks the declarations of a component type or an instance type, in a scope of their own.
#[cycle(types)]
#[tactic(auto, using(smith_read::proofs::ShownNodes::shown_nodes))]
fn check_decls<'a>(alloc: Global, scopes: &mut NodeScopes<'a>, decls: &'a [DeclNode]) -> Checked
    ensures judged { Judges result
        (FormedDeclarations (in_order (map shown_decl_node decls.now)) empty_scope
        (own_in scopes.old ∷ outer_in scopes.old) × NamedDeclared decls.now) }
    ensures graded { Grades result
        (PossibleDeclarations (in_order (map shown_decl_node decls.now)) empty_scope
        (own_in scopes.old ∷ outer_in scopes.old) × NamedPossibly decls.now) }
    ensures own { OnOk result (own_in scopes.new ≡ own_in scopes.old) }
    ensures outer { OnOk result (outer_in scopes.new ≡ outer_in scopes.old) }
{
    scopes.enter(alloc)?;
    let mut names = DeclaredNames::new(alloc);
    for decl in decls {
        check_decl(alloc, scopes, decl)?;
        names.add(decl)?;
        scopes.add_decl(decl)?;
    }
    scopes.leave();
    Ok(())
}
