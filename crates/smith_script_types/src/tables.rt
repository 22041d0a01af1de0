//! What is kept of the declarations of a module type, so that none of them is counted again.

ghost use Rattle.std.specs.Prelude.{◌≡◌, ◌+◌, ◌∷◌, ◌++◌, [], ℕ, List, bytes_eq, slice_index, IfOk, IfErr, OnOk};
ghost use Rattle.std.specs.Prelude.{if◌then◌else◌};
ghost use Rattle.smith_format.specs.CoreTypes.{Function};
ghost use Rattle.smith_format.specs.Entities.{kind_byte};
ghost use Rattle.smith_format.specs.declared.types.ExportKind.{ExportKind};
ghost use Rattle.smith_syntax.specs.Entries.{ModuleDecl};
ghost use Rattle.smith_syntax.specs.ModuleTypes.{func_of, is_of_kind};
ghost use Rattle.smith_read.specs.Nodes.{shown_module_node};
ghost use Rattle.smith_input.specs.declared.error.Error.TheVariants.{OutOfMemory};
ghost use Rattle.smith_script_types.specs.Tables.{Keeps, count_from, function_in};

use smith_format::{EntityType, ExportKind, FuncType};
use smith_input::Error;
use smith_read::ModuleNode;
use std::alloc::Global;
use std::collections::BTreeMap;

/// The module type's own types, the indexes of the ones that a tag may be of, and how many imports and exports there
/// are of each kind, how many exports, and how many imports from each module.
#[derive(Drop)]
pub(crate) struct Tables<'a> {
    pub(crate) own: Vec<&'a FuncType>,
    pub(crate) tags: Vec<usize>,
    pub(crate) kinds: [usize; 5],
    pub(crate) exports: usize,
    pub(crate) imports: BTreeMap<&'a str, usize>,
}

/// The function type that a declaration declares.
pub(crate) fn declared_type(decl: &ModuleNode) -> Option<&FuncType>
    ensures { function_in result ≡ func_of (shown_module_node decl.now) }
{
    match decl {
        ModuleNode::Func(ty) => Some(ty),
        ModuleNode::Import { .. } | ModuleNode::Export { .. } | ModuleNode::OuterAlias { .. } =>
            None,
    }
}

/// How many imports there are from that module.
pub(crate) fn count_from(imports: &BTreeMap<&str, usize>, from: &str) -> usize
    ensures { result ≡ count_from imports.now from.now }
{
    imports.get(from).copied().unwrap_or(0)
}

/// One more. A count that no number holds exceeds what there is memory for. Public only for the crate above.
pub fn one_more(count: usize) -> Result<usize, Error>
    ensures more { IfOk result (λ n. n ≡ count + 1) }
    ensures memory { IfErr result (λ e. e ≡ OutOfMemory) }
{
    count.checked_add(1).ok_or(Error::OutOfMemory)
}

// Counts an import or an export by its kind.
fn add_kind(kinds: &mut [usize; 5], entity: EntityType) -> Result<(), Error>
    ensures added { OnOk result ((k : ExportKind) → slice_index kinds.new (kind_byte k)
        ≡ slice_index kinds.old (kind_byte k) + (if is_of_kind k entity then 1 else 0)) }
    ensures memory { IfErr result (λ e. e ≡ OutOfMemory) }
{
    let kind = entity.kind() as usize;
    kinds[kind] = one_more(kinds[kind])?;
    Ok(())
}

// Counts an import from that module.
#[tactic(auto, using(std::proofs::lemmas::Map::Text::text_keys))]
fn add_import<'a>(imports: &mut BTreeMap<&'a str, usize>, name: &'a str) -> Result<(), Error>
    ensures added { OnOk result ((from : List ℕ) → count_from imports.new from
        ≡ count_from imports.old from + (if bytes_eq name.now from then 1 else 0)) }
    ensures memory { IfErr result (λ e. e ≡ OutOfMemory) }
{
    let count = one_more(count_from(imports, name))?;
    imports.insert(name, count)?;
    Ok(())
}

impl<'a> Tables<'a> {
    /// The tables of no declarations.
    pub(crate) fn new(alloc: Global) -> Tables<'a>
        ensures { Keeps result [] [] }
    {
        Tables {
            own: Vec::new(alloc),
            tags: Vec::new(alloc),
            kinds: [0; 5],
            exports: 0,
            imports: BTreeMap::new(alloc),
        }
    }

    // Adds a type to the own types, if there is one.
    fn add_type(&mut self, ty: Option<&'a FuncType>) -> Result<(), Error>
        ensures added { (own : List Function) (decls : List ModuleDecl) → Keeps self.old own decls
            → OnOk result (Keeps self.new (own ++ function_in ty.entry) decls) }
        ensures memory { IfErr result (λ e. e ≡ OutOfMemory) }
    {
        let Some(ty) = ty else {
            return Ok(());
        };
        let index = self.own.len();
        self.own.push(ty)?;
        if ty.results.is_empty() {
            self.tags.push(index)?;
        }
        Ok(())
    }

    /// Adds a declaration, and the type that it adds to the own types, if any.
    pub(crate) fn add(
        &mut self,
        ty: Option<&'a FuncType>,
        decl: &'a ModuleNode,
    ) -> Result<(), Error>
        ensures added { (own : List Function) (decls : List ModuleDecl) → Keeps self.old own decls
            → OnOk result (Keeps self.new (own ++ function_in ty.entry)
            (decls ++ shown_module_node decl.now ∷ [])) }
        ensures memory { IfErr result (λ e. e ≡ OutOfMemory) }
    {
        self.add_type(ty)?;
        match decl {
            ModuleNode::Func(_) | ModuleNode::OuterAlias { .. } => Ok(()),
            ModuleNode::Import { module, entity, .. } => {
                add_kind(&mut self.kinds, *entity)?;
                add_import(&mut self.imports, module)?;
                Ok(())
            }
            ModuleNode::Export { entity, .. } => {
                self.exports = one_more(self.exports)?;
                add_kind(&mut self.kinds, *entity)
            }
        }
    }
}
