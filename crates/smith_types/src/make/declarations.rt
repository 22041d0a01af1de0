//! Declarations of component types and instance types, from the input, except for the types in them.

ghost use Rattle.std.specs.Prelude.{◌≡◌, ◌<◌, ◌≤◌, List, ◌∷◌, ◌++◌, true, length, IfOk, OnOk, IfErr};
ghost use Rattle.smith_input.specs.Choices.{ReadsAmong};
ghost use Rattle.smith_input.specs.Consumes.{Consumes};
ghost use Rattle.smith_syntax.specs.ShownDecls.{full_alias, full_instance_decl};
ghost use Rattle.smith_syntax.specs.WellFormed.{FormedRef};
ghost use Rattle.smith_types.specs.Declarations.{NamedExtern, ReadsAlias, ReadsExportDecl};
ghost use Rattle.smith_tree.specs.TypeOffers.{declaration_items, has_export, occupied};
ghost use Rattle.smith_types.specs.MakingTypes.{DeclaresInLast, ExportsOnly, HasAtMost, HasRoom, HasTarget};
ghost use Rattle.smith_types.specs.MakingTypes.{HoldsExterns, IsNameless, MadeCoreTypeDecl, MaybeImport, SameOuter};
ghost use Rattle.smith_types.specs.MakingTypes.{IsAliased, imported_by, shown_import_decl};
ghost use Rattle.smith_syntax.specs.Marked.{scope_in, with_exported};
ghost use Rattle.smith_scopes.specs.Scopes.{inward_marked, own_marked, outer_marked};

use super::externs::{ExternNames, named_extern};
use super::making::Making;
use super::references::arbitrary_type_ref;
use crate::core_types::arbitrary_core_type;
use smith_format::Config;
use smith_input::{Error, Unstructured, choose_offered};
use smith_scopes::{Scopes, occupied, offered_declarations};
use smith_syntax::{Alias, ComponentTypeRef, Import, InstanceTypeDecl, OuterAliasKind};
use smith_tree::{DeclarationItem, RefTotals};
use std::alloc::Global;

// Nothing is counted within types.
const UNCOUNTED: RefTotals = RefTotals {
    modules: 0,
    funcs: 0,
    components: 0,
    instances: 0,
};

// What sort of declaration is read.
#[inline(always)]
pub(super) fn read_declaration_item(
    u: &mut Unstructured,
    config: &Config,
    scopes: &Scopes,
) -> DeclarationItem
    ensures reads { ReadsAmong (declaration_items config.now (outer_marked scopes.now) (own_marked scopes.now))
        u.old result u.new }
    ensures possible { HasTarget config.now (own_marked scopes.now) (outer_marked scopes.now) result }
{
    let offers = offered_declarations(scopes, config);
    choose_offered(u, &offers).unwrap_or(DeclarationItem::CoreType)
}

// An import, or none if it is not asked for or nothing can be imported.
pub(super) fn read_import(
    making: &Making,
    u: &mut Unstructured,
    scopes: &Scopes,
    imports: &mut ExternNames,
) -> Result<Option<Import>, Error>
    ensures reads { (so_far : List NamedExtern) → HoldsExterns imports.old so_far
        → IfOk result (λ i. MaybeImport making.now.config.now (own_marked scopes.now) so_far u.old
        (shown_import_decl i) u.new) }
    ensures names { (so_far : List NamedExtern) → HoldsExterns imports.old so_far
        → IfOk result (λ i. HoldsExterns imports.new (so_far ++ imported_by (shown_import_decl i))) }
    ensures input { Consumes result u.old u.new }
{
    if !scopes.last().has_reference() || u.int_in_range(0, 3) != 0 {
        return Ok(None);
    }
    let Some(ty) = arbitrary_type_ref(u, making.config, scopes, UNCOUNTED, true, true) else {
        return Ok(None);
    };
    let (name, url) = named_extern(making.alloc, making.config, u, imports)?;
    Ok(Some(Import { name, url, ty }))
}

// What an export adds to the last scope: the type that it is equal to is there once more.
#[inline(always)]
fn add_exported(scopes: &mut Scopes, ty: ComponentTypeRef) -> Result<(), Error>
    requires formed { FormedRef (scope_in (own_marked scopes.old)) ty }
    requires room { length (own_marked scopes.old).types ≤ 100 }
    ensures own { OnOk result (own_marked scopes.new ≡ with_exported (own_marked scopes.old) ty) }
    ensures around { OnOk result (outer_marked scopes.new ≡ outer_marked scopes.old) }
    ensures outer { SameOuter scopes.old scopes.new }
    ensures memory { IfErr result (λ e. e ≡ Error.OutOfMemory) }
{
    scopes.note_export(ty);
    if let ComponentTypeRef::TypeEq(i) = ty {
        let mark = scopes.equal_mark(i);
        let entry = scopes.get(0, i).clone()?;
        scopes.push_marked(entry, mark)?;
    }
    Ok(())
}

// An export. A type that it is equal to is added to the scope before the name is read.
pub(super) fn read_export(
    making: &Making,
    u: &mut Unstructured,
    scopes: &mut Scopes,
    exports: &mut ExternNames,
) -> Result<InstanceTypeDecl, Error>
    requires possible { has_export (own_marked scopes.old) ≡ true }
    requires room { length (own_marked scopes.old).types ≤ 100 }
    ensures reads { (so_far : List NamedExtern) → HoldsExterns exports.old so_far
        → IfOk result (λ d. ReadsExportDecl making.now.config.now (own_marked scopes.old) so_far u.old
        (full_instance_decl d) u.new) }
    ensures names { IfOk result (λ d. ExportsOnly exports.old exports.new (full_instance_decl d)) }
    ensures scopes { DeclaresInLast result full_instance_decl scopes.old scopes.new }
    ensures input { Consumes result u.old u.new }
{
    let Some(ty) = arbitrary_type_ref(u, making.config, scopes, UNCOUNTED, false, true) else {
        unreachable!();
    };
    add_exported(scopes, ty)?;
    let (name, url) = named_extern(making.alloc, making.config, u, exports)?;
    Ok(InstanceTypeDecl::Export { name, url, ty })
}

// An outer alias of an entry of one of these scopes.
fn read_alias_choice(
    u: &mut Unstructured,
    scopes: &Scopes,
    counts: &[usize],
) -> Result<Alias, Error>
    requires few { length scopes.now ≤ 1002 }
    requires places { counts.now ≡ occupied (inward_marked scopes.now) }
    requires some { 0 < length counts.now }
    ensures reads { IfOk result (λ a. ReadsAlias (inward_marked scopes.now) u.old (full_alias a) u.new) }
    ensures scope { IfOk result (λ a. a.count < length scopes.now) }
    ensures input { Consumes result u.old u.new }
{
    let count = *u.choose(counts) as u32;
    let types = scopes.len(count);
    let place = u.choose_index(types + scopes.len_core(count));
    if place < types {
        let i = place as u32;
        let kind = OuterAliasKind::OfType(scopes.get(count, i).clone()?);
        return Ok(Alias { count, i, kind });
    }
    let i = (place - types) as u32;
    let kind = OuterAliasKind::OfCoreType(scopes.get_core(count, i).clone()?);
    Ok(Alias { count, i, kind })
}

// What an alias names is in the last scope too.
fn add_aliased(scopes: &mut Scopes, alias: &Alias) -> Result<(), Error>
    requires few { HasAtMost 100 (own_marked scopes.old) }
    requires scope { alias.now.count < length scopes.old }
    requires named { IsAliased (inward_marked scopes.old) (full_alias alias.now) }
    ensures scopes { DeclaresInLast result (λ _. full_alias alias.now) scopes.old scopes.new }
    ensures memory { IfErr result (λ e. e ≡ Error.OutOfMemory) }
{
    match &alias.kind {
        OuterAliasKind::OfType(ty) => {
            let entry = ty.clone()?;
            let mark = scopes.aliased_mark(alias.count, alias.i);
            scopes.push_marked(entry, mark)?;
        }
        OuterAliasKind::OfCoreType(ty) => {
            let entry = ty.clone()?;
            let size = scopes.core_size_at(alias.count, alias.i);
            scopes.push_sized(entry, size)?;
        }
    }
    Ok(())
}

// An outer alias, which keeps what it names.
#[tactic(auto, using(crate::proofs::ReadsDeclarations::alias_kept))]
pub(super) fn read_outer_alias(
    alloc: Global,
    u: &mut Unstructured,
    scopes: &mut Scopes,
) -> Result<InstanceTypeDecl, Error>
    requires room { HasRoom scopes.old }
    requires some { 0 < length (occupied (own_marked scopes.old ∷ outer_marked scopes.old)) }
    ensures reads { IfOk result (λ d. ReadsAlias (inward_marked scopes.old) u.old (full_instance_decl d) u.new) }
    ensures nameless { IfOk result (λ d. IsNameless (full_instance_decl d)) }
    ensures scopes { DeclaresInLast result full_instance_decl scopes.old scopes.new }
    ensures input { Consumes result u.old u.new }
{
    let counts = occupied(alloc, scopes)?;
    let alias = read_alias_choice(u, scopes, &counts)?;
    add_aliased(scopes, &alias)?;
    Ok(InstanceTypeDecl::Alias(alias))
}

// A core type, with the rest of the fuel.
pub(super) fn read_core_type(
    making: &Making,
    u: &mut Unstructured,
    scopes: &mut Scopes,
    fuel: &mut u32,
) -> Result<InstanceTypeDecl, Error>
    requires room { length (own_marked scopes.old).core_types ≤ 100 }
    ensures made { IfOk result (λ d. MadeCoreTypeDecl making.now.config.now (own_marked scopes.old) u.old fuel.old
        (full_instance_decl d) u.new fuel.new) }
    ensures nameless { IfOk result (λ d. IsNameless (full_instance_decl d)) }
    ensures scopes { DeclaresInLast result full_instance_decl scopes.old scopes.new }
    ensures input { Consumes result u.old u.new }
{
    let ty = arbitrary_core_type(
        making.alloc,
        u,
        making.config,
        making.valtypes,
        scopes,
        fuel,
    )?;
    let size = scopes.core_size_of(&*ty)?;
    let entry = ty.clone()?;
    scopes.push_sized(entry, size)?;
    Ok(InstanceTypeDecl::CoreTypeDecl(ty))
}
