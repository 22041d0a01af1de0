//! The entries of sections that are lists.

ghost use Rattle.std.specs.Prelude.{◌≡◌, ◌∷◌, [], OnOk};
ghost use Rattle.smith_read.specs.Nodes.{shown_core_node};
ghost use Rattle.smith_read.specs.PartNodes.{shown_import_node};
ghost use Rattle.smith_read.specs.TypeNodes.{shown_type_node};
ghost use Rattle.smith_tree.specs.Shown.{shown_canon, shown_export};
ghost use Rattle.smith_tree.specs.Tree.{canons, core_types, exports, imports, types};
ghost use Rattle.smith_validate.specs.Parts.{StepsPart, StepsPartExactly};
ghost use Rattle.smith_validate.specs.declared.known.Known.{Known};

use crate::core_types::core_facts;
use crate::error::Stop;
use crate::known::Known;
use crate::open::Open;
use crate::references::{add_export, add_import};
use crate::types::{add_core_type, add_type, type_facts};
use smith_read::{CoreNode, Export, Func, ImportNode, TypeNode};
use smith_syntax::ComponentTypeRef;
use std::alloc::Global;

/// Judges a core type, and adds it to what is known.
pub(crate) fn add_core_row(
    alloc: Global,
    known: &mut Known,
    here: &mut Open,
    ty: &CoreNode,
) -> Result<(), Stop>
    ensures steps { StepsPart result known.old here.old known.new here.new (core_types (shown_core_node ty.now ∷ [])) }
    ensures exactly { StepsPartExactly result known.old here.old known.new here.new
        (core_types (shown_core_node ty.now ∷ [])) }
    ensures outer { OnOk result (known.new.scopes.outer.items ≡ known.old.scopes.outer.items) }
{
    let facts = core_facts(alloc, &known.scopes.own, ty)?;
    add_core_type(known, &mut here.body, facts)
}

/// Judges a type, and adds it to what is known.
pub(crate) fn add_type_row(
    alloc: Global,
    known: &mut Known,
    here: &mut Open,
    ty: &TypeNode,
) -> Result<(), Stop>
    ensures steps { StepsPart result known.old here.old known.new here.new (types (shown_type_node ty.now ∷ [])) }
    ensures exactly { StepsPartExactly result known.old here.old known.new here.new
        (types (shown_type_node ty.now ∷ [])) }
    ensures outer { OnOk result (known.new.scopes.outer.items ≡ known.old.scopes.outer.items) }
{
    let facts = type_facts(alloc, known, ty)?;
    add_type(known, &mut here.body, facts)
}

/// Adds a canonical function to what is known.
pub(crate) fn add_canon_row(here: &mut Open, canon: &Func) -> Result<(), Stop>
    ensures steps { (k : Known) → StepsPart result k here.old k here.new (canons (shown_canon canon.now ∷ [])) }
    ensures exactly { (k : Known) → StepsPartExactly result k here.old k here.new
        (canons (shown_canon canon.now ∷ [])) }
{
    here.body.counts.add_function()?;
    match canon {
        Func::CanonLift { func_ty, .. } => here.functions.push(*func_ty)?,
        Func::CanonLower { .. } => {}
    }
    Ok(())
}

/// Judges an import, and adds it to what is known.
pub(crate) fn add_import_row(
    alloc: Global,
    known: &mut Known,
    here: &mut Open,
    import: &ImportNode,
) -> Result<(), Stop>
    ensures steps { StepsPart result known.old here.old known.new here.new
        (imports (shown_import_node import.now ∷ [])) }
    ensures exactly { StepsPartExactly result known.old here.old known.new here.new
        (imports (shown_import_node import.now ∷ [])) }
    ensures outer { OnOk result (known.new.scopes.outer.items ≡ known.old.scopes.outer.items) }
{
    add_import(alloc, known, &mut here.body, import.to)?;
    match import.to {
        ComponentTypeRef::Func(ty) => here.functions.push(ty)?,
        ComponentTypeRef::Module(_)
        | ComponentTypeRef::TypeEq(_)
        | ComponentTypeRef::Component(_)
        | ComponentTypeRef::Instance(_) => {}
    }
    Ok(())
}

/// Judges an export, and adds it to what is known. An export of nothing adds nothing.
pub(crate) fn add_export_row(
    alloc: Global,
    known: &mut Known,
    here: &mut Open,
    export: &Export,
) -> Result<(), Stop>
    ensures steps { StepsPart result known.old here.old known.new here.new (exports (shown_export export.now ∷ [])) }
    ensures exactly { StepsPartExactly result known.old here.old known.new here.new
        (exports (shown_export export.now ∷ [])) }
    ensures outer { OnOk result (known.new.scopes.outer.items ≡ known.old.scopes.outer.items) }
{
    let Some(ty) = here.function_at(export.func_index) else {
        return Ok(());
    };
    add_export(alloc, known, &mut here.body, ComponentTypeRef::Func(ty))?;
    here.functions.push(ty)?;
    Ok(())
}
