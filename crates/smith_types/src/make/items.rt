//! Declarations of each sort, types among them, from the input.

ghost use Rattle.std.specs.Prelude.{◌≤◌, ◌<◌, List, ◌++◌, true, length, IfOk};
ghost use Rattle.smith_input.specs.Consumes.{Consumes};
ghost use Rattle.smith_syntax.specs.ShownDecls.{full_component_decl, full_instance_decl};
ghost use Rattle.smith_syntax.specs.WellFormed.{export_of, import_of};
ghost use Rattle.smith_types.specs.Declarations.{NamedExtern, NoImportDecl};
ghost use Rattle.smith_types.specs.Made.{MadeDeclaration};
ghost use Rattle.smith_types.specs.MakingTypes.{DeclaresInLast, ExportsOnly, HasRoom, HoldsExterns, IsNameless};
ghost use Rattle.smith_types.specs.MakingTypes.{MadeTypeDecl};
ghost use Rattle.smith_scopes.specs.Scopes.{own_marked, outer_marked};

use super::declarations::{
    read_core_type, read_declaration_item, read_export, read_import, read_outer_alias,
};
use super::externs::{ComponentNames, ExternNames};
use super::kinds::read_type;
use super::making::Making;
use smith_input::{Error, Unstructured};
use smith_scopes::Scopes;
use smith_syntax::{ComponentTypeDef, InstanceTypeDecl};
use smith_tree::DeclarationItem;

// A type, with the rest of the fuel.
#[cycle(making)]
fn read_type_decl(
    making: &Making,
    u: &mut Unstructured,
    scopes: &mut Scopes,
    fuel: &mut u32,
) -> Result<InstanceTypeDecl, Error>
    requires shallow { length scopes.old < making.now.config.now.max_nesting_depth }
    requires room { length (own_marked scopes.old).types ≤ 100 }
    ensures made { IfOk result (λ d. MadeTypeDecl making.now.config.now (own_marked scopes.old)
        (outer_marked scopes.old) u.old fuel.old (full_instance_decl d) u.new fuel.new) }
    ensures nameless { IfOk result (λ d. IsNameless (full_instance_decl d)) }
    ensures scopes { DeclaresInLast result full_instance_decl scopes.old scopes.new }
    ensures input { Consumes result u.old u.new }
{
    let (ty, mark) = read_type(making, u, scopes, fuel)?;
    let entry = ty.clone()?;
    scopes.push_marked(entry, mark)?;
    Ok(InstanceTypeDecl::TypeDecl(ty))
}

// A declaration that is not an import: a choice of its sort, and one of that sort.
#[cycle(making)]
pub(super) fn read_declaration(
    making: &Making,
    u: &mut Unstructured,
    scopes: &mut Scopes,
    fuel: &mut u32,
    exports: &mut ExternNames,
) -> Result<InstanceTypeDecl, Error>
    requires room { HasRoom scopes.old }
    ensures made { (importing : _) (so_far imports : List NamedExtern) (start : List _)
        → HoldsExterns exports.old so_far
        → NoImportDecl making.now.config.now importing (own_marked scopes.old) start u.old
        → IfOk result (λ d. MadeDeclaration making.now.config.now importing (outer_marked scopes.old)
        (record { own = own_marked scopes.old; imports = imports; exports = so_far }) start fuel.old
        (full_instance_decl d) u.new fuel.new) }
    ensures names { IfOk result (λ d. ExportsOnly exports.old exports.new (full_instance_decl d)) }
    ensures scopes { DeclaresInLast result full_instance_decl scopes.old scopes.new }
    ensures input { Consumes result u.old u.new }
{
    match read_declaration_item(u, making.config, scopes) {
        DeclarationItem::Export => read_export(making, u, scopes, exports),
        DeclarationItem::Alias => read_outer_alias(making.alloc, u, scopes),
        DeclarationItem::CoreType => read_core_type(making, u, scopes, fuel),
        DeclarationItem::Type => read_type_decl(making, u, scopes, fuel),
    }
}

// A declaration of a component type: an import if it is asked for and possible, otherwise one as in an instance type.
#[cycle(making)]
pub(super) fn read_component_declaration(
    making: &Making,
    u: &mut Unstructured,
    scopes: &mut Scopes,
    fuel: &mut u32,
    names: &mut ComponentNames,
) -> Result<ComponentTypeDef, Error>
    requires room { HasRoom scopes.old }
    ensures made { (imported exported : List NamedExtern) → HoldsExterns names.old.imports imported
        → HoldsExterns names.old.exports exported → IfOk result (λ d. MadeDeclaration making.now.config.now true
        (outer_marked scopes.old) (record { own = own_marked scopes.old; imports = imported; exports = exported })
        u.old fuel.old (full_component_decl d) u.new fuel.new) }
    ensures imports { (imported : List NamedExtern) → HoldsExterns names.old.imports imported
        → IfOk result (λ d. HoldsExterns names.new.imports (imported ++ import_of (full_component_decl d))) }
    ensures exports { (exported : List NamedExtern) → HoldsExterns names.old.exports exported
        → IfOk result (λ d. HoldsExterns names.new.exports (exported ++ export_of (full_component_decl d))) }
    ensures scopes { DeclaresInLast result full_component_decl scopes.old scopes.new }
    ensures input { Consumes result u.old u.new }
{
    if let Some(import) = read_import(making, u, scopes, &mut names.imports)? {
        scopes.note_import(import.ty);
        return Ok(ComponentTypeDef::Import(import));
    }
    let decl = read_declaration(making, u, scopes, fuel, &mut names.exports)?;
    Ok(ComponentTypeDef::from(decl))
}
