//! The exports of a section.

ghost use Rattle.std.specs.Prelude.{◌≡◌, ◌+◌, ◌<◌, ◌≤◌, [], List, length, map, IfOk, OnOk};
ghost use Rattle.smith_input.specs.Consumes.{Consumes};
ghost use Rattle.smith_format.specs.Consistency.{max_u32};
ghost use Rattle.smith_scopes.specs.Scopes.{own_marked, own_scope};
ghost use Rattle.smith_component.specs.SectionsState.{ExportsAll, ExportsOne, ExportsState, GrowsTables, KeepsAround};
ghost use Rattle.smith_tree.specs.Shown.{shown_export};
ghost use Rattle.smith_component.specs.Tables.{IsKnown};
ghost use Rattle.smith_tree.specs.Tree.{ExportEntry, Tree};

use crate::builder::tables::Tables;
use smith_format::Config;
use smith_input::{Error, Unstructured, unique_kebab_string};
use smith_tree::Export;
use smith_types::{ComponentTypeRef, Scopes};

// An export, or none if there is no component function or no room for one more. It is one itself then.
fn read_export(
    config: &Config,
    scopes: &mut Scopes,
    tables: &mut Tables,
    u: &mut Unstructured,
) -> Result<Option<Export>, Error>
    requires known { IsKnown (own_scope scopes.old) tables.old }
    requires room { length tables.old.functions.items < max_u32 }
    ensures around { KeepsAround scopes.old scopes.new }
    ensures tables { OnOk result (GrowsTables (own_scope scopes.new) tables.old tables.new) }
    ensures exports { (outer : List Tree) (t : Tree) (es : List ExportEntry)
        → ExportsState config.now outer t es (own_marked scopes.old) tables.old
        → IfOk result (λ e. ExportsOne config.now outer t es (own_marked scopes.new) tables.new u.old e u.new) }
    ensures input { Consumes result u.old u.new }
{
    if tables.functions.is_empty() {
        return Ok(None);
    }
    if !scopes.has_room() {
        return Ok(None);
    }
    let func_index = u.choose_index(tables.functions.len()) as u32;
    let name = unique_kebab_string(tables.alloc, config.max_name_length, &mut tables.exports, u)?;
    let ty = tables.functions[func_index as usize];
    tables.add_exported(scopes, ty)?;
    scopes.note_export(ComponentTypeRef::Func(ty));
    Ok(Some(Export { name, func_index }))
}

// The exports of a section, at most that many, until there is no component function or no room for one more.
pub(super) fn read_exports(
    config: &Config,
    scopes: &mut Scopes,
    tables: &mut Tables,
    max: usize,
    u: &mut Unstructured,
) -> Result<Vec<Export>, Error>
    requires known { IsKnown (own_scope scopes.old) tables.old }
    requires room { length tables.old.functions.items + max ≤ max_u32 }
    ensures reads { (outer : List Tree) (t : Tree)
        → ExportsState config.now outer t [] (own_marked scopes.old) tables.old
        → IfOk result (λ v. ExportsAll config.now outer t max (own_marked scopes.new) tables.new u.old
        (map shown_export v.items) u.new) }
    ensures around { KeepsAround scopes.old scopes.new }
    ensures imports { OnOk result (tables.new.imports ≡ tables.old.imports) }
    ensures input { Consumes result u.old u.new }
{
    let mut exports = Vec::new(tables.alloc);
    for done in 0..max {
        if !u.more_of(config.loop_bits, done, 0, max) {
            return Ok(exports);
        }
        let Some(export) = read_export(config, scopes, tables, u)? else {
            return Ok(exports);
        };
        exports.push(export)?;
    }
    Ok(exports)
}
