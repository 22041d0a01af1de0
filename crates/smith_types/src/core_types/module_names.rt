//! The names of what a module type imports and exports.

ghost use Rattle.std.specs.Prelude.{◌≡◌, ◌∷◌, ℕ, List, [], map, length, string_bytes, IfOk, MatchOption};
ghost use Rattle.smith_input.specs.NewNames.{is_among};
ghost use Rattle.smith_input.specs.Consumes.{Consumes};
ghost use Rattle.smith_input.specs.Texts.{ReadsNewText, ReadsText};
ghost use Rattle.smith_types.specs.MakingCore.{names_taken};
ghost use Rattle.smith_syntax.specs.ModuleTypes.{module_export_names, names_from};
ghost use Rattle.smith_syntax.specs.Shown.{shown_decl};

use crate::core_types::making::Making;
use smith_input::{Error, TakenNames, Unstructured, limited_string, new_string};
use smith_syntax::ModuleTypeDef;

// The name of an import from that module.
fn imported_name<'a>(def: &'a ModuleTypeDef, from: &str) -> Option<&'a str>
    ensures { MatchOption result
        (names_from from.now (shown_decl def.now ∷ []) ≡ [])
        (λ name. names_from from.now (shown_decl def.now ∷ []) ≡ name.now ∷ []) }
{
    match def {
        ModuleTypeDef::Import(import) => {
            if import.module.as_str() == from {
                return Some(import.name.as_str());
            }
            None
        }
        ModuleTypeDef::Export(_, _)
        | ModuleTypeDef::FuncDef(_)
        | ModuleTypeDef::OuterAlias { .. } => None,
    }
}

// The name of an export.
fn exported_name(def: &ModuleTypeDef) -> Option<&str>
    ensures { MatchOption result
        (module_export_names (shown_decl def.now ∷ []) ≡ [])
        (λ name. module_export_names (shown_decl def.now ∷ []) ≡ name.now ∷ []) }
{
    match def {
        ModuleTypeDef::Export(name, _) => Some(name.as_str()),
        ModuleTypeDef::Import(_) | ModuleTypeDef::FuncDef(_) | ModuleTypeDef::OuterAlias { .. } =>
            None,
    }
}

// The name of an import from that module, or the name of an export.
#[inline(always)]
fn taken_name<'a>(def: &'a ModuleTypeDef, imported: bool, from: &str) -> Option<&'a str>
    ensures { MatchOption result
        (names_taken imported from.now (shown_decl def.now ∷ []) ≡ [])
        (λ name. names_taken imported from.now (shown_decl def.now ∷ []) ≡ name.now ∷ []) }
{
    if imported {
        imported_name(def, from)
    } else {
        exported_name(def)
    }
}

// Is it that name?
fn is_taken_name(def: &ModuleTypeDef, imported: bool, from: &str, name: &str) -> bool
    ensures { result ≡ is_among (names_taken imported from.now (shown_decl def.now ∷ [])) name.now }
{
    match taken_name(def, imported, from) {
        Some(taken) => taken == name,
        None => false,
    }
}

// Is it one of those names?
fn is_taken(defs: &[ModuleTypeDef], imported: bool, from: &str, name: &str) -> bool
    ensures { result ≡ is_among (names_taken imported from.now (map shown_decl defs.now)) name.now }
{
    for def in defs {
        if is_taken_name(def, imported, from, name) {
            return true;
        }
    }
    false
}

// How many of those names there are.
fn count_taken(defs: &[ModuleTypeDef], imported: bool, from: &str) -> usize
    ensures { result ≡ length (names_taken imported from.now (map shown_decl defs.now)) }
{
    let mut count = 0;
    for def in defs {
        if taken_name(def, imported, from).is_some() {
            count += 1;
        }
    }
    count
}

// The names that are imported from a module, or the exported names.
#[derive(Drop)]
struct Taken<'a> {
    defs: &'a [ModuleTypeDef],
    imported: bool,
    from: &'a str,
}

impl<'a> TakenNames for Taken<'a> {
    ghost texts = { λ n. names_taken n.imported n.from.now (map shown_decl n.defs.now) };

    fn has_name(&self, name: &str) -> bool {
        is_taken(self.defs, self.imported, self.from, name)
    }

    fn name_count(&self) -> usize {
        count_taken(self.defs, self.imported, self.from)
    }
}

// The two names of an import: the module's, and one that is imported from it for the first time.
#[tactic(auto, using(std::proofs::lemmas::Grind::common_steps))]
pub(crate) fn read_import_names(
    making: &Making,
    u: &mut Unstructured,
    defs: &[ModuleTypeDef],
) -> Result<(String, String), Error>
    ensures reads { IfOk result (λ n. (mid : List ℕ)
        × ReadsText making.now.config.now.max_name_length u.old (string_bytes n.0) mid
        × ReadsNewText making.now.config.now.max_name_length
        (names_from (string_bytes n.0) (map shown_decl defs.now)) mid (string_bytes n.1) u.new) }
    ensures input { Consumes result u.old u.new }
{
    let from = limited_string(making.alloc, making.config.max_name_length, u)?;
    let taken = Taken {
        defs,
        imported: true,
        from: from.as_str(),
    };
    let name = new_string(making.alloc, making.config.max_name_length, &taken, u)?;
    Ok((from, name))
}

// The name of an export, which is exported for the first time.
pub(crate) fn read_export_name(
    making: &Making,
    u: &mut Unstructured,
    defs: &[ModuleTypeDef],
) -> Result<String, Error>
    ensures reads { IfOk result (λ n.
        ReadsNewText making.now.config.now.max_name_length (module_export_names (map shown_decl defs.now)) u.old
        (string_bytes n) u.new) }
    ensures input { Consumes result u.old u.new }
{
    let taken = Taken {
        defs,
        imported: false,
        from: "",
    };
    new_string(making.alloc, making.config.max_name_length, &taken, u)
}
