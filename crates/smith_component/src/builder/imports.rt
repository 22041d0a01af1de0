//! The imports of a section.

ghost use Rattle.std.specs.Prelude.{◌+◌, ◌≤◌, [], List, length, IfOk, OnOk};
ghost use Rattle.smith_input.specs.Consumes.{Consumes};
ghost use Rattle.smith_input.specs.Loops.{Loop};
ghost use Rattle.smith_format.specs.Consistency.{IsConsistent};
ghost use Rattle.smith_types.specs.Declarations.{NamedExtern};
ghost use Rattle.smith_scopes.specs.Scopes.{own_marked};
ghost use Rattle.smith_component.specs.BuilderView.{stack_of, IsSound};
ghost use Rattle.smith_component.specs.SectionsState.{Imported, ImportsOne, ImportsState, KeepsAround};
ghost use Rattle.smith_component.specs.SectionValues.{NoImportValue, ReadsImportValue, externs_of};
ghost use Rattle.smith_tree.specs.Open.{Open};

use crate::builder::Progress;
use crate::builder::tables::Tables;
use crate::builder::totals::TreeTotals;
use smith_format::Config;
use smith_input::{Error, Unstructured};
use smith_types::{ComponentTypeRef, Import, Scopes, arbitrary_type_ref, named_extern};

// An import, or none if nothing can be imported. It is counted.
fn read_import(
    config: &Config,
    scopes: &mut Scopes,
    totals: &mut TreeTotals,
    tables: &mut Tables,
    u: &mut Unstructured,
) -> Result<Option<Import>, Error>
    requires consistent { IsConsistent config.now }
    requires within { length tables.old.functions.items ≤ tables.old.counted + config.now.max_exports }
    ensures within { OnOk result (length tables.new.functions.items ≤ tables.new.counted + config.now.max_exports) }
    ensures imports { (stack : Open) (before : List NamedExtern) (is : List _)
        → ImportsState config.now stack before is (own_marked scopes.old) totals.old tables.old
        → IfOk result (λ i.
        ImportsOne config.now stack before is (own_marked scopes.new) totals.new tables.new u.old i u.new) }
    ensures around { KeepsAround scopes.old scopes.new }
    ensures input { Consumes result u.old u.new }
{
    let counts = totals.with_functions(tables.counted);
    let Some(ty) = arbitrary_type_ref(u, config, scopes, counts, true, false) else {
        return Ok(None);
    };
    let (name, url) = named_extern(tables.alloc, config, u, &mut tables.imports)?;
    totals.count(ty);
    scopes.note_import(ty);
    if let ComponentTypeRef::Func(i) = ty {
        tables.add_function(scopes, i)?;
    }
    Ok(Some(Import { name, url, ty }))
}

impl Progress {
    // The imports of a section, at least and at most that many, unless nothing can be imported.
    pub(super) fn read_imports(
        &mut self,
        min: usize,
        max: usize,
        u: &mut Unstructured,
    ) -> Result<Vec<Import>, Error>
        requires sound { IsSound self.old }
        requires ordered { min ≤ max }
        ensures reads { IfOk result (λ v. Loop (NoImportValue self.old.config (stack_of self.old))
            (ReadsImportValue self.old.config (stack_of self.old) (externs_of self.old.inner.sections.items))
            self.old.config.loop_bits min max 0 [] u.old v.items u.new v.items) }
        ensures counts { IfOk result (λ v. Imported self.old v.items self.new) }
        ensures input { Consumes result u.old u.new }
    {
        let scopes = &mut self.scopes;
        let totals = &mut self.totals;
        let tables = &mut self.inner.tables;
        let mut imports = Vec::new(self.alloc);
        for done in 0..max {
            if !u.more_of(self.config.loop_bits, done, min, max) {
                return Ok(imports);
            }
            let Some(import) = read_import(&self.config, scopes, totals, tables, u)? else {
                return Ok(imports);
            };
            imports.push(import)?;
        }
        Ok(imports)
    }
}
