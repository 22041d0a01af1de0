//! Names of imports and exports, made new, or as short as can be.

ghost use Rattle.std.specs.Prelude.{◌≡◌, ◌+◌, ◌%◌, ◌∷◌, ◌++◌, [], ℕ, List, map, refl, string_bytes, IfOk, OnOk};
ghost use Rattle.std.specs.Prelude.{option_map};
ghost use Rattle.smith_syntax.specs.Entries.{ImportEntry};
ghost use Rattle.smith_tree.specs.Tree.{ExportEntry, exports_in, imports_in};
ghost use Rattle.smith_tree.specs.WellFormed.{export_names, import_names};
ghost use Rattle.smith_read.specs.PartNodes.{shown_import_node, shown_part_node};
ghost use Rattle.smith_tree.specs.Shown.{shown_export};
ghost use Rattle.smith_edit.specs.Edits.{all_renamed, export_renamed, import_renamed, new_name, part_renamed};
ghost use Rattle.smith_edit.specs.Names.{Knows, KnowsBoth};
ghost use Rattle.smith_edit.specs.ShortNames.{short_name, shorter_name, shortest_new};

use crate::counts::sum;
use smith_read::{Export, ImportNode, PartNode};
use std::alloc::{AllocError, Global};
use std::collections::BTreeSet;

/// What has a name.
pub(crate) trait Named: Drop {
    ghost Shown: { Type 0 };

    ghost shown: { Self → Shown };

    ghost name: { Shown → List ℕ };

    ghost rename: { Shown → List ℕ → Shown };

    ghost is_renamed: { (x : Shown) (text : List ℕ) → name (rename x text) ≡ text };

    ghost is_same: { (x : Shown) → rename x (name x) ≡ x };

    fn label(&self) -> &str
        ensures { result.now ≡ name (shown self.now) };

    /// The same with another name.
    fn renamed(&self, label: String) -> Self
        ensures { shown result ≡ rename (shown self.now) (string_bytes label) };
}

impl Named for ImportNode {
    ghost Shown = { ImportEntry };

    ghost shown = { shown_import_node };

    ghost name = { λ i. i.name };

    ghost rename = { import_renamed };

    ghost is_renamed = { λ x text. refl };

    ghost is_same = { λ x. refl };

    fn label(&self) -> &str {
        self.name.as_str()
    }

    fn renamed(&self, label: String) -> ImportNode {
        ImportNode {
            name: label,
            to: self.to,
        }
    }
}

impl Named for Export {
    ghost Shown = { ExportEntry };

    ghost shown = { shown_export };

    ghost name = { λ e. e.name };

    ghost rename = { export_renamed };

    ghost is_renamed = { λ x text. refl };

    ghost is_same = { λ x. refl };

    fn label(&self) -> &str {
        self.name.as_str()
    }

    fn renamed(&self, label: String) -> Export {
        Export {
            name: label,
            func_index: self.func_index,
        }
    }
}

// Appends a letter from a to z.
fn push_letter(name: &mut String, count: usize) -> Result<(), AllocError>
    ensures { OnOk result (string_bytes name.new ≡ string_bytes name.old ++ (0x61 + count % 26) ∷ []) }
{
    let letter = b'a' + (count % 26) as u8;
    name.push(char::from(letter))
}

// Appends that one of the names a, b, .., z, aa, ab, ..
#[tactic(auto, using(crate::proofs::NewNames::pushed_few, crate::proofs::NewNames::pushed_many))]
fn push_short(name: &mut String, count: usize) -> Result<(), AllocError>
    ensures { OnOk result (string_bytes name.new ≡ string_bytes name.old ++ short_name count) }
{
    if count >= 26 {
        push_short(name, count / 26 - 1)?;
        push_letter(name, count)?;
        return Ok(());
    }
    push_letter(name, count)?;
    Ok(())
}

// That one of the names a, b, .., z, aa, ab, ..
fn short_name(alloc: Global, count: usize) -> Result<String, AllocError>
    ensures { IfOk result (λ name. string_bytes name ≡ short_name count) }
{
    let mut name = String::new(alloc);
    push_short(&mut name, count)?;
    Ok(name)
}

/// Names, and how many there are.
#[derive(Drop)]
pub(crate) struct Names {
    pub(crate) set: BTreeSet<String>,
    pub(crate) count: usize,
}

impl Names {
    pub(crate) fn new(alloc: Global) -> Names
        ensures { Knows result [] }
    {
        Names {
            set: BTreeSet::new(alloc),
            count: 0,
        }
    }

    pub(crate) fn add(&mut self, alloc: Global, name: &str) -> Result<(), AllocError>
        ensures { (names : List (List ℕ)) → Knows self.old names
            → OnOk result (Knows self.new (names ++ name.now ∷ [])) }
    {
        let count = sum(self.count, 1)?;
        self.set.insert(String::from_str(alloc, name)?)?;
        self.count = count;
        Ok(())
    }

    // The name, with the digits of how many names there are at its end until it is none of them.
    fn made_new(&self, alloc: Global, name: &str) -> Result<String, AllocError>
        ensures { (names : List (List ℕ)) → Knows self.now names
            → IfOk result (λ new. string_bytes new ≡ new_name names name.now) }
    {
        let mut new = String::from_str(alloc, name)?;
        let digits = self.count.to_string(alloc)?;
        for _time in 0..self.count {
            if !self.set.contains(new.as_str()) {
                return Ok(new);
            }
            new.push_str(digits.as_str())?;
        }
        Ok(new)
    }

    pub(crate) fn add_all<T: Named>(&mut self, alloc: Global, items: &[T]) -> Result<(), AllocError>
        ensures { (names : List (List ℕ)) → Knows self.old names
            → OnOk result (Knows self.new (names ++ map T.name (map T.shown items.now))) }
    {
        for item in items {
            self.add(alloc, item.label())?;
        }
        Ok(())
    }

    // All items with new names, which are added.
    fn all_renamed<T: Named>(&mut self, alloc: Global, items: &[T]) -> Result<Vec<T>, AllocError>
        ensures items { (names : List (List ℕ)) → Knows self.old names → IfOk result (λ v.
            map T.shown v.items ≡ all_renamed T.name T.rename names (map T.shown items.now)) }
        ensures knows { (names : List (List ℕ)) → Knows self.old names → IfOk result (λ v.
            Knows self.new (names ++ map T.name (map T.shown v.items))) }
    {
        let mut renamed = Vec::new(alloc);
        for item in items {
            let name = self.made_new(alloc, item.label())?;
            self.add(alloc, name.as_str())?;
            renamed.push(item.renamed(name))?;
        }
        Ok(renamed)
    }

    // The first of them that is none of the names.
    fn shortest_new(&self, alloc: Global) -> Result<String, AllocError>
        ensures { (names : List (List ℕ)) → Knows self.now names
            → IfOk result (λ new. string_bytes new ≡ shortest_new names) }
    {
        for count in 0..self.count {
            let name = short_name(alloc, count)?;
            if !self.set.contains(name.as_str()) {
                return Ok(name);
            }
        }
        short_name(alloc, self.count)
    }

    /// The first of a, b, .., z, aa, ab, .. that is none of the names, if it is shorter than this one.
    pub(crate) fn shorter_name(
        &self,
        alloc: Global,
        name: &str,
    ) -> Result<Option<String>, AllocError>
        ensures { (names : List (List ℕ)) → Knows self.now names
            → IfOk result (λ r. option_map string_bytes r ≡ shorter_name names name.now) }
    {
        let new = self.shortest_new(alloc)?;
        if new.len() < name.len() {
            return Ok(Some(new));
        }
        Ok(None)
    }
}

/// The names of imports and of exports.
#[derive(Drop)]
pub(crate) struct Taken {
    pub(crate) imports: Names,
    pub(crate) exports: Names,
}

impl Taken {
    pub(crate) fn new(alloc: Global) -> Taken
        ensures { KnowsBoth result [] [] }
    {
        Taken {
            imports: Names::new(alloc),
            exports: Names::new(alloc),
        }
    }

    /// Adds the names of a section.
    #[tactic(auto, using(crate::proofs::Past::part_nodes))]
    pub(crate) fn add(&mut self, alloc: Global, part: &PartNode) -> Result<(), AllocError>
        ensures { (is es : List (List ℕ)) → KnowsBoth self.old is es → OnOk result (KnowsBoth self.new
            (is ++ import_names (imports_in (shown_part_node part.now)))
            (es ++ export_names (exports_in (shown_part_node part.now)))) }
    {
        match part {
            PartNode::Imports(imports) => self.imports.add_all(alloc, imports),
            PartNode::Exports(exports) => self.exports.add_all(alloc, exports),
            _ => Ok(()),
        }
    }

    /// The section with its names made new, which are added.
    #[tactic(auto, using(crate::proofs::Past::part_nodes))]
    pub(crate) fn renamed(&mut self, alloc: Global, part: PartNode) -> Result<PartNode, AllocError>
        ensures part { (is es : List (List ℕ)) → KnowsBoth self.old is es
            → IfOk result (λ p. shown_part_node p ≡ part_renamed is es (shown_part_node part)) }
        ensures knows { (is es : List (List ℕ)) → KnowsBoth self.old is es → IfOk result (λ p.
            KnowsBoth self.new (is ++ import_names (imports_in (shown_part_node p)))
            (es ++ export_names (exports_in (shown_part_node p)))) }
    {
        match part {
            PartNode::Imports(imports) => {
                let imports = self.imports.all_renamed(alloc, &imports)?;
                Ok(PartNode::Imports(imports))
            }
            PartNode::Exports(exports) => {
                let exports = self.exports.all_renamed(alloc, &exports)?;
                Ok(PartNode::Exports(exports))
            }
            other => Ok(other),
        }
    }
}
