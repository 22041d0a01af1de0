//! Types.

ghost use Rattle.std.specs.Prelude.{◌≡◌, ◌∷◌, ◌-◌, [], map, nat_le, true, if◌then◌else◌, IfOk, OnOk};
ghost use Rattle.smith_syntax.specs.Entries.{in_order};
ghost use Rattle.smith_syntax.specs.Marked.{empty_marked, mark, marked_after};
ghost use Rattle.smith_scopes.specs.NodeScopes.{outer_marked_in, own_marked_in};
ghost use Rattle.smith_read.specs.TypeNodes.{shown_decl_node, shown_type_node};
ghost use Rattle.smith_tree.specs.TypeNeeds.{cost, decl_cost, decls_cost};
ghost use Rattle.smith_tree.specs.TypeScript.{none_taken, script_decl, script_decls, script_type, script_type_kind};
ghost use Rattle.smith_tree.specs.declared.choices.TypeKind.TheVariants.{Defined};
ghost use Rattle.smith_script_types.specs.Says.{Says};
ghost use Rattle.smith_script_types.specs.Declaring.{closed_in, taken_in};

use crate::choices::{say_among, say_byte, say_choice, say_end};
use crate::core_types::say_core;
use crate::declarations::{say_alias, say_declares};
use crate::declaring::Declaring;
use crate::fuel::{after_core, after_defined, after_function};
use crate::place::Given;
use crate::references::{say_extern, say_reference};
use crate::values::{say_defined, say_signature};
use smith_input::Error;
use smith_read::{DeclNode, TypeNode};
use smith_scope::Purpose;
use smith_scopes::NodeScopes;
use smith_syntax::Mark;
use smith_tree::{DeclarationItem, RefTotals, TypeKind, type_kinds};

/// None of each, as is counted within types. Public only for the crate above.
pub const NONE_COUNTED: RefTotals = RefTotals {
    modules: 0,
    funcs: 0,
    components: 0,
    instances: 0,
};

const IMPORT: Purpose = Purpose {
    totals: NONE_COUNTED,
    for_import: true,
    for_type_def: true,
};

const EXPORT: Purpose = Purpose {
    totals: NONE_COUNTED,
    for_import: false,
    for_type_def: true,
};

fn say_type_kind(out: &mut Vec<u8>, kind: TypeKind) -> Result<(), Error>
    ensures { Says result out.old out.new (script_type_kind kind) }
{
    say_among(out, type_kinds(), &kind)
}

// That a type is one of values, when the fuel lasts for others.
fn say_defined_kind(out: &mut Vec<u8>, fuel: u32) -> Result<(), Error>
    ensures { Says result out.old out.new (if nat_le 2 fuel then script_type_kind Defined else []) }
{
    if fuel < 2 {
        return Ok(());
    }
    say_type_kind(out, TypeKind::Defined)
}

/// What was said of a type: how much fuel it leaves, and its mark. Public only for the crate above.
#[derive(Clone, Copy, Debug)]
pub struct Typed {
    pub left: u32,
    pub mark: Mark,
}

/// A type with that much fuel, how much it leaves of it, and its mark, if marks are kept.
#[cycle(types)]
#[tactic(auto, using(crate::proofs::TableSteps::nodes))]
pub fn say_type<'a>(
    out: &mut Vec<u8>,
    given: Given<'_>,
    scopes: &mut NodeScopes<'a>,
    fuel: u32,
    ty: &'a TypeNode,
) -> Result<Typed, Error>
    ensures said { Says result out.old out.new (script_type (shown_type_node ty.now) given.entry.config.now fuel
        (own_marked_in scopes.old) (outer_marked_in scopes.old)) }
    ensures left { IfOk result (λ t. t.left ≡ fuel - cost (shown_type_node ty.now)) }
    ensures mark { IfOk result (λ t. (own_marked_in scopes.old).keeps ≡ true
        → t.mark ≡ mark (shown_type_node ty.now) (own_marked_in scopes.old) (outer_marked_in scopes.old)) }
    ensures own { OnOk result (own_marked_in scopes.new ≡ own_marked_in scopes.old) }
    ensures outer { OnOk result (outer_marked_in scopes.new ≡ outer_marked_in scopes.old) }
{
    match ty {
        TypeNode::Defined(ty) => {
            say_defined_kind(out, fuel)?;
            say_defined(out, given.config, &scopes.nest.own, ty)?;
            Ok(Typed {
                left: after_defined(fuel, ty),
                mark: scopes.nest.own.defined_mark(ty),
            })
        }
        TypeNode::Func(ty) => {
            say_type_kind(out, TypeKind::Function)?;
            say_signature(out, given.config, &scopes.nest.own, ty)?;
            Ok(Typed {
                left: after_function(fuel, ty),
                mark: scopes.nest.own.function_mark(ty),
            })
        }
        TypeNode::Component(decls) => {
            say_type_kind(out, TypeKind::Component)?;
            let start = Declaring::new(true, fuel.saturating_sub(1));
            say_decls(out, given, scopes, start, decls)
        }
        TypeNode::Instance(decls) => {
            say_type_kind(out, TypeKind::Instance)?;
            let start = Declaring::new(false, fuel.saturating_sub(1));
            say_decls(out, given, scopes, start, decls)
        }
    }
}

// A declaration, which is added to the scope, and how much fuel it leaves.
#[cycle(types)]
#[tactic(auto, using(crate::proofs::TableSteps::nodes))]
fn say_decl<'a>(
    out: &mut Vec<u8>,
    given: Given<'_>,
    scopes: &mut NodeScopes<'a>,
    here: Declaring,
    decl: &'a DeclNode,
) -> Result<u32, Error>
    ensures said { Says result out.old out.new (script_decl (shown_decl_node decl.now) given.entry.config.now
        here.importing here.fuel (taken_in here) (own_marked_in scopes.old) (outer_marked_in scopes.old)) }
    ensures left { IfOk result (λ left. left ≡ here.fuel - decl_cost (shown_decl_node decl.now)) }
    ensures own { OnOk result (own_marked_in scopes.new
        ≡ marked_after (shown_decl_node decl.now) (outer_marked_in scopes.old) (own_marked_in scopes.old)) }
    ensures outer { OnOk result (outer_marked_in scopes.new ≡ outer_marked_in scopes.old) }
{
    match decl {
        DeclNode::Core(ty) => {
            say_declares(out, given.place(scopes), here, DeclarationItem::CoreType)?;
            say_core(out, given.place(scopes), here.fuel, ty)?;
            scopes.add_core_entry(given.alloc, ty)?;
            return Ok(after_core(here.fuel, ty));
        }
        DeclNode::Type(ty) => {
            say_declares(out, given.place(scopes), here, DeclarationItem::Type)?;
            let typed = say_type(out, given, scopes, here.fuel, ty)?;
            scopes.add_marked(ty, typed.mark)?;
            return Ok(typed.left);
        }
        DeclNode::TypeAlias { count, index } => {
            say_declares(out, given.place(scopes), here, DeclarationItem::Alias)?;
            say_alias(out, given.place(scopes), *count, *index, false)?;
            scopes.add_alias(*count, *index)?;
        }
        DeclNode::CoreTypeAlias { count, index } => {
            say_declares(out, given.place(scopes), here, DeclarationItem::Alias)?;
            say_alias(out, given.place(scopes), *count, *index, true)?;
            scopes.add_core_alias(*count, *index)?;
        }
        DeclNode::Import { name, to } => {
            say_choice(out, 4, 0)?;
            say_reference(out, given.place(scopes), IMPORT, *to)?;
            say_extern(out, given.config, here.imports, name)?;
            scopes.note_import(*to);
        }
        DeclNode::Export { name, to } => {
            say_declares(out, given.place(scopes), here, DeclarationItem::Export)?;
            say_reference(out, given.place(scopes), EXPORT, *to)?;
            say_extern(out, given.config, here.exports, name)?;
            scopes.add_export(*to)?;
        }
    }
    Ok(here.fuel)
}

// What a type declares, in a scope of its own, how much fuel it leaves, and the mark of the type: what a component type
// exports does not matter.
#[cycle(types)]
#[tactic(auto, using(crate::proofs::TableSteps::nodes))]
fn say_decls<'a>(
    out: &mut Vec<u8>,
    given: Given<'_>,
    scopes: &mut NodeScopes<'a>,
    start: Declaring,
    decls: &'a [DeclNode],
) -> Result<Typed, Error>
    requires { taken_in start ≡ none_taken }
    ensures said { Says result out.old out.new (script_decls (in_order (map shown_decl_node decls.now))
        given.entry.config.now start.importing start.fuel 0 none_taken (empty_marked (own_marked_in scopes.old).keeps)
        (own_marked_in scopes.old ∷ outer_marked_in scopes.old)) }
    ensures left { IfOk result (λ t. t.left ≡ start.fuel - decls_cost (in_order (map shown_decl_node decls.now))) }
    ensures mark { IfOk result (λ t. t.mark ≡ closed_in start.importing (in_order (map shown_decl_node decls.now))
        (own_marked_in scopes.old) (outer_marked_in scopes.old)) }
    ensures own { OnOk result (own_marked_in scopes.new ≡ own_marked_in scopes.old) }
    ensures outer { OnOk result (outer_marked_in scopes.new ≡ outer_marked_in scopes.old) }
{
    scopes.enter(given.alloc)?;
    let mut here = start;
    for decl in decls {
        say_byte(out, 1)?;
        let turn = here.with_fuel(here.fuel.saturating_sub(1));
        let left = say_decl(out, given, scopes, turn, decl)?;
        here = turn.after(decl, left);
    }
    let mark = scopes.closed_mark(!start.importing);
    scopes.leave();
    say_end(out, decls.len(), 100)?;
    Ok(Typed {
        left: here.fuel,
        mark,
    })
}
