//! The declarations of a module type, of which none is counted again.

ghost use Rattle.std.specs.Prelude.{◌≡◌, ◌+◌, ◌-◌, ◌^◌, ◌<◌, ◌∷◌, ◌++◌, [], map, slice_index, nat_eq, nat_lt, OnOk};
ghost use Rattle.std.specs.Prelude.{IfOk, IfErr, if◌then◌else◌};
ghost use Rattle.smith_format.specs.Entities.{kind_byte};
ghost use Rattle.smith_format.specs.declared.types.ExportKind.{ExportKind};
ghost use Rattle.smith_types.specs.Counts.{AreCounts};
ghost use Rattle.smith_syntax.specs.ModuleTypes.{count_of_kind};
ghost use Rattle.smith_syntax.specs.Shown.{shown_decl};

use smith_format::ExportKind;
use smith_input::Error;
use smith_syntax::ModuleTypeDef;
use std::alloc::Global;

// Declarations, and how many of their imports and exports are of each kind.
#[derive(Drop)]
pub(crate) struct CountedDefs {
    pub(crate) defs: Vec<ModuleTypeDef>,
    kinds: [usize; 5],
    ghost counted: { AreCounts kinds (map shown_decl defs.items) },
}

// Counts one more of a kind.
#[inline(always)]
fn count_kind(kinds: &mut [usize; 5], kind: ExportKind)
    requires { slice_index kinds.old (kind_byte kind) < 2 ^ 64 - 1 }
    ensures { (k : ExportKind) → slice_index kinds.new (kind_byte k)
        ≡ slice_index kinds.old (kind_byte k) + (if nat_eq (kind_byte kind) (kind_byte k) then 1 else 0) }
{
    kinds[kind as usize] += 1;
}

// Counts what a declaration imports or exports.
#[inline(always)]
fn count(kinds: &mut [usize; 5], def: &ModuleTypeDef)
    requires { (k : ExportKind) → slice_index kinds.old (kind_byte k) < 2 ^ 64 - 1 }
    ensures { (k : ExportKind) → slice_index kinds.new (kind_byte k)
        ≡ slice_index kinds.old (kind_byte k) + count_of_kind k (shown_decl def.now ∷ []) }
{
    match def {
        ModuleTypeDef::Import(import) => count_kind(kinds, import.entity_type.kind()),
        ModuleTypeDef::Export(_, entity) => count_kind(kinds, entity.kind()),
        ModuleTypeDef::FuncDef(_) | ModuleTypeDef::OuterAlias { .. } => {}
    }
}

impl CountedDefs {
    // No declarations, with room for some.
    pub(crate) fn with_capacity(alloc: Global, capacity: usize) -> Result<CountedDefs, Error>
        ensures none { IfOk result (λ d. d.defs.items ≡ []) }
        ensures memory { IfErr result (λ e. e ≡ Error.OutOfMemory) }
    {
        let defs = Vec::with_capacity(alloc, capacity)?;
        Ok(CountedDefs {
            defs,
            kinds: [0; 5],
        })
    }

    // Is one more of a kind below the limit?
    pub(crate) fn allows(&self, kind: ExportKind, max: usize) -> bool
        ensures { result ≡ nat_lt (count_of_kind kind (map shown_decl self.now.defs.items)) max }
    {
        self.kinds[kind as usize] < max
    }

    // Adds a declaration at the end. It is inlined, so that a declaration is made where it stays.
    #[inline(always)]
    pub(crate) fn push(&mut self, def: ModuleTypeDef) -> Result<(), Error>
        ensures items { OnOk result (self.new.defs.items ≡ self.old.defs.items ++ def ∷ []) }
        ensures memory { IfErr result (λ e. e ≡ Error.OutOfMemory) }
    {
        self.defs.reserve(1)?;
        count(&mut self.kinds, &def);
        self.defs.push_reserved(def);
        Ok(())
    }
}
