//! Types of all sorts, with types of components and of instances.

ghost use Rattle.std.specs.Prelude.{◌≡◌, ◌<◌, ◌∷◌, ◌++◌, [], Bool, false, List, Option, length, map, option_map, IfErr};
ghost use Rattle.std.specs.Prelude.{IfOk, OnOk, option_to_list};
ghost use Rattle.smith_syntax.specs.Entries.{in_order};
ghost use Rattle.smith_tree.specs.Bodies.{Body as PlainBody, IsSmall, after_decl, after_decls, empty_body, facts};
ghost use Rattle.smith_tree.specs.Bodies.{with_core_facts, with_facts};
ghost use Rattle.smith_tree.specs.Facts.{CoreFacts as PlainCoreFacts, FactScope, Facts as PlainFacts, Id, id_at};
ghost use Rattle.smith_tree.specs.Validates.{ValidDecl, ValidDecls, ValidEntry, names_of};
ghost use Rattle.smith_read.specs.TypeNodes.{shown_decl_node, shown_type_node};
ghost use Rattle.smith_validate.specs.Bodies.{IsBody, IsEmpty, IsFresh, IsOther, IsRole};
ghost use Rattle.smith_validate.specs.Exact.{IsBodyExactlyNow, IsDeclaredExactly, IsJudgedExactly};
ghost use Rattle.smith_validate.specs.Nested.{IsDeclared, IsJudged, instance_plain};
ghost use Rattle.smith_validate.specs.Instances.{AreKept, Surface, IsKept, IsTable};
ghost use Rattle.smith_validate.specs.Judges.{IsNamed, IsUnnamed, Judges};
ghost use Rattle.smith_syntax.specs.Sizes.{capped};
ghost use Rattle.smith_validate.specs.Kept.{kept_core};
ghost use Rattle.smith_validate.specs.Outcome.{asking};
ghost use Rattle.smith_validate.specs.Steps.{Later, Leaves, SameScopes};
ghost use Rattle.smith_validate.specs.Usual.{AreUsualDecls, IsUsualDecl, IsUsualEntry};
ghost use Rattle.smith_validate.specs.declared.error.Demand.TheVariants.{Named};
ghost use Rattle.smith_validate.specs.Preceding.{InBody, InBodyExactly, InScopes, InScopesExactly};

use crate::body::{Body, Exported, Role, Sets};
use crate::core_types::core_facts;
use crate::error::Stop;
use crate::facts::{CoreFacts, Facts, Needs};
use crate::known::Known;
use crate::references::{add_export, add_import};
use crate::values::{defined_facts, function_facts};
use smith_read::{DeclNode, TypeNode};
use std::alloc::Global;

/// Adds a type.
pub(crate) fn add_type(known: &mut Known, body: &mut Body, ty: Facts) -> Result<(), Stop>
    ensures leaves { Leaves known.old known.new body.old body.new }
    ensures types { OnOk result (known.new.scopes.own.types.items ≡ known.old.scopes.own.types.items ++ ty ∷ []) }
    ensures bound { IfErr result IsUnnamed }
    ensures judged { InBody known.old body.old (λ asks b outer names table. (f : PlainFacts)
        → Judges result (λ d. IsSmall d (with_facts b (f ∷ [])))) }
    ensures added { InBody known.old body.old (λ asks b outer names table. (f : PlainFacts)
        → ty.size ≡ capped f.size → IsKept table (names_of b.exports ∷ names) ty f
        → OnOk result (IsBody asks known.new body.new (with_facts b (f ∷ [])) outer names table)) }
{
    body.counts.add_type()?;
    known.add_type(ty)
}

/// Adds a core type.
pub(crate) fn add_core_type(known: &mut Known, body: &mut Body, ty: CoreFacts) -> Result<(), Stop>
    ensures leaves { Leaves known.old known.new body.old body.new }
    ensures types { OnOk result (known.new.scopes.own.types.items ≡ known.old.scopes.own.types.items) }
    ensures bound { IfErr result IsUnnamed }
    ensures judged { InBody known.old body.old (λ asks b outer names table. (f : PlainCoreFacts)
        → Judges result (λ d. IsSmall d (with_core_facts b (f ∷ [])))) }
    ensures added { InBody known.old body.old (λ asks b outer names table. (f : PlainCoreFacts) → ty ≡ kept_core f
        → OnOk result (IsBody asks known.new body.new (with_core_facts b (f ∷ [])) outer names table)) }
{
    body.counts.add_type()?;
    known.add_core_type(ty)
}

// Adds a type, if there is one.
fn add_named(known: &mut Known, body: &mut Body, ty: Option<Facts>) -> Result<(), Stop>
    ensures leaves { Leaves known.old known.new body.old body.new }
    ensures types { OnOk result
        (known.new.scopes.own.types.items ≡ known.old.scopes.own.types.items ++ option_to_list ty) }
    ensures bound { IfErr result IsUnnamed }
    ensures judged { InBody known.old body.old (λ asks b outer names table. (f : Option PlainFacts)
        → option_map (λ t. t.size) ty ≡ option_map (λ t. capped t.size) f
        → Judges result (λ d. IsSmall d (with_facts b (option_to_list f)))) }
    ensures added { InBody known.old body.old (λ asks b outer names table. (f : Option PlainFacts)
        → option_map (λ t. t.size) ty ≡ option_map (λ t. capped t.size) f
        → AreKept table (names_of b.exports ∷ names) (option_to_list ty) (option_to_list f)
        → OnOk result (IsBody asks known.new body.new (with_facts b (option_to_list f)) outer names table)) }
{
    match ty {
        Some(ty) => add_type(known, body, ty),
        None => Ok(()),
    }
}

// Adds a core type, if there is one.
fn add_core_named(known: &mut Known, body: &mut Body, ty: Option<CoreFacts>) -> Result<(), Stop>
    ensures leaves { Leaves known.old known.new body.old body.new }
    ensures types { OnOk result (known.new.scopes.own.types.items ≡ known.old.scopes.own.types.items) }
    ensures bound { IfErr result IsUnnamed }
    ensures judged { InBody known.old body.old (λ asks b outer names table. (f : Option PlainCoreFacts)
        → ty ≡ option_map kept_core f → Judges result (λ d. IsSmall d (with_core_facts b (option_to_list f)))) }
    ensures added { InBody known.old body.old (λ asks b outer names table. (f : Option PlainCoreFacts)
        → ty ≡ option_map kept_core f
        → OnOk result (IsBody asks known.new body.new (with_core_facts b (option_to_list f)) outer names table)) }
{
    match ty {
        Some(ty) => add_core_type(known, body, ty),
        None => Ok(()),
    }
}

// A type of instances that was declared, if nothing asks for names.
fn instance_type(known: &mut Known, body: Body) -> Result<Facts, Stop>
    ensures bound { IfErr result IsUnnamed }
    ensures size { IfOk result (λ f. f.size ≡ body.size) }
    ensures other { IfErr result IsOther }
    ensures scopes { SameScopes known.old known.new }
    ensures kept { (id : Id) (b : PlainBody) (here : List Id) (names : List (List Id)) (table : List Surface)
        → IsTable known.old.instances.items table → length names ≡ length known.old.scopes.outer.items
        → IsRole table (here ∷ names) false body.role b → IfOk result (λ f.
        IsDeclared table (here ∷ names) known.new f (instance_plain id b)) }
    ensures exact { (b : PlainBody) (own : FactScope) (outer : List FactScope) (named : List Id)
        (table : List Surface) → IsJudgedExactly false known.old body b (own ∷ outer) named table
        → length outer ≡ length known.old.scopes.outer.items → IfOk result (λ f.
        IsDeclaredExactly own outer named table known.new f (instance_plain (id_at (own ∷ outer)) b)) }
{
    let Body { size, role, .. } = body;
    let Role::Exporting(exported) = role else {
        return Ok(Facts::new(Needs::nothing(), size));
    };
    if !exported.any {
        return Ok(Facts::new(Needs::nothing(), size));
    }
    let (refers, ty) = exported.close(known.depth());
    let number = known.instances.len();
    known.instances.push(ty)?;
    Ok(Facts::instance(refers, size, number))
}

/// A type, when it is declared.
#[cycle(types)]
#[tactic(auto, using(smith_read::proofs::ShownNodes::shown_nodes))]
pub(crate) fn type_facts(alloc: Global, known: &mut Known, ty: &TypeNode) -> Result<Facts, Stop>
    ensures judged { InScopes known.old (λ own outer here names table.
        Judges result (λ d. ValidEntry d (shown_type_node ty.now) own outer)) }
    ensures size { InScopes known.old (λ own outer here names table.
        IfOk result (λ f. f.size ≡ capped (facts (shown_type_node ty.now) own outer).size)) }
    ensures kept { InScopes known.old (λ own outer here names table.
        IfOk result (λ f. IsDeclared table (here ∷ names) known.new f (facts (shown_type_node ty.now) own outer))) }
    ensures exact { InScopesExactly known.old (λ own outer named table. IsUsualEntry (shown_type_node ty.now) own outer
        → IfOk result (λ f. IsDeclaredExactly own outer named table known.new f
        (facts (shown_type_node ty.now) own outer))) }
    ensures refused { InScopesExactly known.old (λ own outer named table.
        IsUsualEntry (shown_type_node ty.now) own outer
        → IfErr result (λ e. IsNamed e → ¬ (ValidEntry (asking Named) (shown_type_node ty.now) own outer))) }
    ensures scopes { OnOk result (SameScopes known.old known.new) }
{
    match ty {
        TypeNode::Defined(ty) => defined_facts(&known.scopes.own, ty),
        TypeNode::Func(ty) => function_facts(&known.scopes.own, ty),
        TypeNode::Component(decls) => {
            let mut body = Body::new(Role::Names(Sets::new(alloc)));
            add_decls(alloc, known, &mut body, decls)?;
            Ok(Facts::new(Needs::nothing(), body.size))
        }
        TypeNode::Instance(decls) => {
            let mut body = Body::new(Role::Exporting(Exported::new(alloc)));
            add_decls(alloc, known, &mut body, decls)?;
            instance_type(known, body)
        }
    }
}

// A declaration of a component type or an instance type.
#[cycle(types)]
#[tactic(auto, using(smith_read::proofs::ShownNodes::shown_nodes))]
fn add_decl(alloc: Global, known: &mut Known, body: &mut Body, decl: &DeclNode) -> Result<(), Stop>
    ensures judged { InBody known.old body.old (λ asks b outer names table. Judges result (λ d.
        ValidDecl d asks (shown_decl_node decl.now) outer b
        × IsSmall d (after_decl (shown_decl_node decl.now) outer b))) }
    ensures added { InBody known.old body.old (λ asks b outer names table. OnOk result
        (Later (IsBody asks known.new body.new) (after_decl (shown_decl_node decl.now) outer b) outer names table)) }
    ensures exact { InBodyExactly known.old body.old.role (λ asks b outer named table.
        IsUsualDecl asks (shown_decl_node decl.now) outer b → OnOk result (IsBodyExactlyNow asks known.new body.new
        (after_decl (shown_decl_node decl.now) outer b) outer named (id_at (b.own ∷ outer)) table)) }
    ensures refused { InBodyExactly known.old body.old.role (λ asks b outer named table.
        IsUsualDecl asks (shown_decl_node decl.now) outer b
        → IfErr result (λ e. IsNamed e → ¬ (ValidDecl (asking Named) asks (shown_decl_node decl.now) outer b))) }
    ensures outer { OnOk result (known.new.scopes.outer.items ≡ known.old.scopes.outer.items) }
{
    match decl {
        DeclNode::Core(ty) => {
            let facts = core_facts(alloc, &known.scopes.own, ty)?;
            add_core_type(known, body, facts)
        }
        DeclNode::Type(ty) => {
            let facts = type_facts(alloc, known, ty)?;
            add_type(known, body, facts)
        }
        DeclNode::TypeAlias { count, index } => {
            let facts = known.type_named(*count, *index);
            add_named(known, body, facts)
        }
        DeclNode::CoreTypeAlias { count, index } => {
            let facts = known.core_type_named(*count, *index);
            add_core_named(known, body, facts)
        }
        DeclNode::Import { to, .. } => add_import(alloc, known, body, *to),
        DeclNode::Export { to, .. } => add_export(alloc, known, body, *to),
    }
}

// The declarations of a component type or an instance type, in a scope of their own.
#[cycle(types)]
#[tactic(auto, using(smith_read::proofs::ShownNodes::shown_nodes))]
fn add_decls(
    alloc: Global,
    known: &mut Known,
    body: &mut Body,
    decls: &[DeclNode],
) -> Result<(), Stop>
    ensures judged { (asks : Bool) → InScopes known.old (λ own outer here names table.
        IsEmpty body.old → IsFresh asks body.old.role → Judges result
        (λ d. ValidDecls d asks (in_order (map shown_decl_node decls.now)) (own ∷ outer) empty_body)) }
    ensures added { (asks : Bool) → InScopes known.old (λ own outer here names table.
        IsEmpty body.old → IsFresh asks body.old.role → OnOk result (IsJudged asks known.new body.new
        (after_decls (in_order (map shown_decl_node decls.now)) (own ∷ outer) empty_body) (here ∷ names) table)) }
    ensures exact { (asks : Bool) → InScopesExactly known.old (λ own outer named table. IsFresh asks body.old.role
        → AreUsualDecls asks (in_order (map shown_decl_node decls.now)) (own ∷ outer) empty_body
        → OnOk result (IsJudgedExactly asks known.new body.new
        (after_decls (in_order (map shown_decl_node decls.now)) (own ∷ outer) empty_body) (own ∷ outer) named table)) }
    ensures refused { (asks : Bool) → InScopesExactly known.old (λ own outer named table. IsFresh asks body.old.role
        → AreUsualDecls asks (in_order (map shown_decl_node decls.now)) (own ∷ outer) empty_body
        → IfErr result (λ e. IsNamed e
        → ¬ (ValidDecls (asking Named) asks (in_order (map shown_decl_node decls.now)) (own ∷ outer) empty_body))) }
    ensures scopes { OnOk result (SameScopes known.old known.new) }
{
    known.enter(alloc)?;
    for decl in decls {
        add_decl(alloc, known, body, decl)?;
    }
    known.scopes.leave();
    Ok(())
}
