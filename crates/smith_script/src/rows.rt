//! Sections that are lists.

ghost use Rattle.std.specs.Prelude.{◌≡◌, ℕ, List, fold, map, slice_get, OnOk, option_to_list};
ghost use Rattle.smith_format.specs.declared.config.Config.{Config};
ghost use Rattle.smith_syntax.specs.Entries.{CoreEntry, Entry, ImportEntry};
ghost use Rattle.smith_syntax.specs.Marked.{Marked};
ghost use Rattle.smith_read.specs.Nodes.{shown_core_node};
ghost use Rattle.smith_read.specs.TypeNodes.{shown_type_node};
ghost use Rattle.smith_read.specs.PartNodes.{shown_import_node};
ghost use Rattle.smith_tree.specs.Shown.{shown_canon, shown_export};
ghost use Rattle.smith_scopes.specs.NodeScopes.{outer_marked_in, own_marked_in};
ghost use Rattle.smith_tree.specs.Marking.{with_exports_entry};
ghost use Rattle.smith_tree.specs.Tree.{Canon, ExportEntry};
ghost use Rattle.smith_script_types.specs.Says.{Says};
ghost use Rattle.smith_script.specs.Saying.{canon_row_says, core_type_says, export_says, import_says, rows_say};
ghost use Rattle.smith_script.specs.Saying.{type_says};
ghost use Rattle.smith_script.specs.Preceding.{Preceding, after_canon, after_core_type, after_export, after_import};
ghost use Rattle.smith_script.specs.Preceding.{after_type, preceding};

use crate::canons::say_canon;
use crate::preceding::Open;
use smith_read::{CoreNode, Export, Func, ImportNode, TypeNode};
use smith_scopes::NodeScopes;
use smith_script_types::{
    Error, Given, Purpose, say_choice, say_core, say_end, say_extern, say_more, say_name,
    say_reference, say_type,
};
use smith_syntax::ComponentTypeRef;

/// An entry of a section.
pub(crate) trait Row {
    ghost Shown: { Type 0 };

    ghost shown: { Self → Shown };

    ghost says: { Config → List Marked → Preceding → Shown → List ℕ };

    ghost after: { List Marked → Preceding → Shown → Preceding };

    /// Puts the script of the entry, and adds it to what is before the next.
    fn say<'a>(
        &'a self,
        given: Given<'_>,
        out: &mut Vec<u8>,
        scopes: &mut NodeScopes<'a>,
        here: &mut Open<'a>,
    ) -> Result<(), Error>
        ensures said { Says result out.old out.new (says given.entry.config.now (outer_marked_in scopes.old)
            (preceding (own_marked_in scopes.old) here.old) (shown self.now)) }
        ensures added { OnOk result (preceding (own_marked_in scopes.new) here.new
            ≡ after (outer_marked_in scopes.old) (preceding (own_marked_in scopes.old) here.old) (shown self.now)) }
        ensures outer { OnOk result (outer_marked_in scopes.new ≡ outer_marked_in scopes.old) };
}

/// The entries of a section, and how many there may be at most.
#[derive(Clone, Copy)]
pub(crate) struct Rows<'a, T> {
    pub(crate) max: usize,
    pub(crate) rows: &'a [T],
}

/// A section with these entries.
pub(crate) fn say_rows<'a, T: Row>(
    given: Given<'_>,
    out: &mut Vec<u8>,
    scopes: &mut NodeScopes<'a>,
    here: &mut Open<'a>,
    section: Rows<'a, T>,
) -> Result<(), Error>
    ensures said { Says result out.old out.new (rows_say
        (T.says given.entry.config.now (outer_marked_in scopes.old)) (T.after (outer_marked_in scopes.old))
        section.entry.max (preceding (own_marked_in scopes.old) here.old) (map T.shown section.entry.rows.now)) }
    ensures added { OnOk result (preceding (own_marked_in scopes.new) here.new
        ≡ fold (T.after (outer_marked_in scopes.old)) (preceding (own_marked_in scopes.old) here.old)
        (map T.shown section.entry.rows.now)) }
    ensures outer { OnOk result (outer_marked_in scopes.new ≡ outer_marked_in scopes.old) }
{
    let mut done = 0;
    for row in section.rows {
        say_more(out, 0, done)?;
        row.say(given, out, scopes, here)?;
        done += 1;
    }
    say_end(out, done, section.max)
}

impl Row for CoreNode {
    ghost Shown = { CoreEntry };

    ghost shown = { shown_core_node };

    ghost says = { core_type_says };

    ghost after = { after_core_type };

    fn say<'a>(
        &'a self,
        given: Given<'_>,
        out: &mut Vec<u8>,
        scopes: &mut NodeScopes<'a>,
        _here: &mut Open<'a>,
    ) -> Result<(), Error> {
        say_core(out, given.place(scopes), given.config.max_type_size, self)?;
        scopes.add_core_entry(given.alloc, self)?;
        Ok(())
    }
}

impl Row for TypeNode {
    ghost Shown = { Entry };

    ghost shown = { shown_type_node };

    ghost says = { type_says };

    ghost after = { after_type };

    fn say<'a>(
        &'a self,
        given: Given<'_>,
        out: &mut Vec<u8>,
        scopes: &mut NodeScopes<'a>,
        here: &mut Open<'a>,
    ) -> Result<(), Error> {
        let typed = say_type(out, given, scopes, given.config.max_type_size, self)?;
        scopes.add_marked(self, typed.mark)?;
        here.add_type(self)
    }
}

impl Row for Func {
    ghost Shown = { Canon };

    ghost shown = { shown_canon };

    ghost says = { canon_row_says };

    ghost after = { after_canon };

    fn say<'a>(
        &'a self,
        given: Given<'_>,
        out: &mut Vec<u8>,
        _scopes: &mut NodeScopes<'a>,
        here: &mut Open<'a>,
    ) -> Result<(), Error> {
        say_canon(given, out, here, self)?;
        match *self {
            Func::CanonLift {
                func_ty,
                core_func_index,
            } => here.add_lift(core_func_index, func_ty),
            Func::CanonLower { func_index } => here.add_lower(func_index),
        }
    }
}

impl Row for ImportNode {
    ghost Shown = { ImportEntry };

    ghost shown = { shown_import_node };

    ghost says = { import_says };

    ghost after = { after_import };

    fn say<'a>(
        &'a self,
        given: Given<'_>,
        out: &mut Vec<u8>,
        scopes: &mut NodeScopes<'a>,
        here: &mut Open<'a>,
    ) -> Result<(), Error> {
        let purpose = Purpose {
            totals: here.totals,
            for_import: true,
            for_type_def: false,
        };
        say_reference(out, given.place(scopes), purpose, self.to)?;
        say_extern(out, given.config, here.imports, &self.name)?;
        scopes.note_import(self.to);
        here.add_import(self)
    }
}

// Notes the export of a function, of the type of the function that it names.
fn note_export(scopes: &mut NodeScopes<'_>, here: &Open<'_>, func: u32)
    ensures own { own_marked_in scopes.new ≡ with_exports_entry (own_marked_in scopes.old)
        (map (λ t. ComponentTypeRef.Func t)
        (option_to_list (slice_get (preceding (own_marked_in scopes.old) here.now).functions func))) }
    ensures outer { outer_marked_in scopes.new ≡ outer_marked_in scopes.old }
{
    if let Some(ty) = here.functions.type_of(func) {
        scopes.note_export(ComponentTypeRef::Func(ty));
    }
}

impl Row for Export {
    ghost Shown = { ExportEntry };

    ghost shown = { shown_export };

    ghost says = { export_says };

    ghost after = { after_export };

    fn say<'a>(
        &'a self,
        given: Given<'_>,
        out: &mut Vec<u8>,
        scopes: &mut NodeScopes<'a>,
        here: &mut Open<'a>,
    ) -> Result<(), Error> {
        say_choice(out, here.functions.len(), self.func_index as usize)?;
        say_name(out, given.config, here.exports, &self.name)?;
        note_export(scopes, here, self.func_index);
        here.add_export(self)
    }
}
