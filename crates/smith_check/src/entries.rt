//! Imports and exports, and what they are of.

ghost use Rattle.std.specs.Prelude.{◌≡◌, ◌<◌, ◌++◌, ◌∷◌, [], ℕ, List, true, false, length, string_bytes, OnOk};
ghost use Rattle.smith_syntax.specs.Scope.{Scope as PlainScope};
ghost use Rattle.smith_syntax.specs.Possible.{PossibleNames};
ghost use Rattle.smith_syntax.specs.WellFormed.{FormedRef, Named, is_type_eq};
ghost use Rattle.smith_read.specs.PartNodes.{shown_import_node};
ghost use Rattle.smith_tree.specs.Shown.{shown_export};
ghost use Rattle.smith_tree.specs.Spaces.{after_export, after_import};
ghost use Rattle.smith_tree.specs.WellFormed.{FormedImport};
ghost use Rattle.smith_check.specs.Judges.{Grades, Judges};
ghost use Rattle.smith_scopes.specs.NodeScopes.{own_in};
ghost use Rattle.smith_check.specs.Preceding.{spaces_in};
ghost use Rattle.smith_check.specs.Taken.{Knows};

use crate::check::Open;
use crate::error::{Checked, Rule, Stop};
use smith_read::{CoreNode, Export, ImportNode, TypeNode};
use smith_scopes::NodeScopes;
use smith_syntax::ComponentTypeRef;

/// Checks what an import or an export is of.
pub(crate) fn check_reference(scopes: &NodeScopes<'_>, to: ComponentTypeRef) -> Checked
    ensures { Judges result (FormedRef (own_in scopes.now) to) }
{
    match to {
        ComponentTypeRef::Module(index) => match scopes.core_type_at(index) {
            Some(CoreNode::Module(_)) => Ok(()),
            Some(_) => Err(Stop::IllFormed(Rule::Sort)),
            None => Err(Stop::IllFormed(Rule::NoType)),
        },
        ComponentTypeRef::Func(index) => match scopes.type_at(index) {
            Some(TypeNode::Func(_)) => Ok(()),
            Some(_) => Err(Stop::IllFormed(Rule::Sort)),
            None => Err(Stop::IllFormed(Rule::NoType)),
        },
        ComponentTypeRef::TypeEq(index) => match scopes.type_at(index) {
            Some(_) => Ok(()),
            None => Err(Stop::IllFormed(Rule::NoType)),
        },
        ComponentTypeRef::Component(index) => match scopes.type_at(index) {
            Some(TypeNode::Component(_)) => Ok(()),
            Some(_) => Err(Stop::IllFormed(Rule::Sort)),
            None => Err(Stop::IllFormed(Rule::NoType)),
        },
        ComponentTypeRef::Instance(index) => match scopes.type_at(index) {
            Some(TypeNode::Instance(_)) => Ok(()),
            Some(_) => Err(Stop::IllFormed(Rule::Sort)),
            None => Err(Stop::IllFormed(Rule::NoType)),
        },
    }
}

// Checks what an import is of, which is not a type that is equal to another.
pub(crate) fn check_imported(scopes: &NodeScopes<'_>, to: ComponentTypeRef) -> Checked
    ensures judged { Judges result (FormedRef (own_in scopes.now) to × (is_type_eq to ≡ false)) }
    ensures graded { Grades result (FormedRef (own_in scopes.now) to) }
{
    check_reference(scopes, to)?;
    match to {
        ComponentTypeRef::TypeEq(_) => Err(Stop::Outside(Rule::EqualType)),
        _ => Ok(()),
    }
}

/// Checks an import, and adds it.
pub(crate) fn check_import<'a>(
    scopes: &NodeScopes<'_>,
    here: &mut Open<'a>,
    import: &'a ImportNode,
) -> Checked
    ensures judged { (before : List (List ℕ)) → Knows here.old.imports before → Judges result
        (FormedImport (own_in scopes.now) (shown_import_node import.now)
        × Named (before ++ string_bytes import.now.name ∷ [])) }
    ensures graded { (before : List (List ℕ)) → Knows here.old.imports before → Grades result
        (FormedRef (own_in scopes.now) import.now.to
        × PossibleNames true (before ++ string_bytes import.now.name ∷ [])) }
    ensures known { (before : List (List ℕ)) → Knows here.old.imports before
        → OnOk result (Knows here.new.imports (before ++ string_bytes import.now.name ∷ [])) }
    ensures added { OnOk result (spaces_in (own_in scopes.now) here.new
        ≡ after_import (spaces_in (own_in scopes.now) here.old) (shown_import_node import.now)) }
    ensures exports { here.new.exports ≡ here.old.exports }
{
    check_imported(scopes, import.to)?;
    here.imports.add(&import.name, true)?;
    if let ComponentTypeRef::Func(ty) = import.to {
        here.functions.push(ty)?;
    }
    Ok(())
}

/// Checks an export, and adds it.
pub(crate) fn check_export<'a>(here: &mut Open<'a>, export: &'a Export) -> Checked
    ensures judged { (before : List (List ℕ)) → Knows here.old.exports before → Judges result
        ((export.now.func_index < length here.old.functions.items)
        × Named (before ++ string_bytes export.now.name ∷ [])) }
    ensures graded { (before : List (List ℕ)) → Knows here.old.exports before → Grades result
        ((export.now.func_index < length here.old.functions.items)
        × PossibleNames true (before ++ string_bytes export.now.name ∷ [])) }
    ensures known { (before : List (List ℕ)) → Knows here.old.exports before
        → OnOk result (Knows here.new.exports (before ++ string_bytes export.now.name ∷ [])) }
    ensures added { (own : PlainScope) → OnOk result
        (spaces_in own here.new ≡ after_export (spaces_in own here.old) (shown_export export.now)) }
    ensures imports { here.new.imports ≡ here.old.imports }
{
    let Some(ty) = here.functions.get(export.func_index as usize).copied() else {
        return Err(Stop::IllFormed(Rule::NoFunction));
    };
    here.exports.add(&export.name, true)?;
    here.functions.push(ty)?;
    Ok(())
}
