//! What sorts of places are in types and in entries of sections.

ghost use Rattle.std.specs.Prelude.{◌≡◌, ◌+◌, ◌<◌, ℕ, List, Option, is_some, map, string_bytes};
ghost use Rattle.smith_format.specs.CoreTypes.{Function};
ghost use Rattle.smith_format.specs.Shown.{shown_func};
ghost use Rattle.smith_format.specs.declared.types.EntityType.{EntityType as PlainEntity};
ghost use Rattle.smith_format.specs.declared.types.MemoryType.{MemoryType};
ghost use Rattle.smith_format.specs.declared.types.ValType.{ValType as PlainVal};
ghost use Rattle.smith_syntax.specs.Entries.{Case, CoreEntry, DefValType, Field, ImportEntry, ModuleDecl};
ghost use Rattle.smith_syntax.specs.Shown.{shown_defined};
ghost use Rattle.smith_syntax.specs.Signature.{named};
ghost use Rattle.smith_syntax.specs.declared.types.ComponentValType.{ComponentValType as PlainValue};
ghost use Rattle.smith_tree.specs.Shown.{shown_canon, shown_export};
ghost use Rattle.smith_tree.specs.Tree.{Canon, ExportEntry};
ghost use Rattle.smith_read.specs.Nodes.{shown_core_node, shown_module_node};
ghost use Rattle.smith_read.specs.PartNodes.{shown_import_node};
ghost use Rattle.smith_change.specs.CoreTypes as core;
ghost use Rattle.smith_change.specs.Members as members;
ghost use Rattle.smith_change.specs.Parts as parts;
ghost use Rattle.smith_read.specs.Search.{among, past};

use crate::kinds::{PlaceKind, Places, kind_among, kind_in_row};
use smith_format::{EntityType, FuncType as CoreFunc, MemoryType, ValType};
use smith_read::{CoreNode, Export, Func, ImportNode, ModuleNode, Search};
use smith_syntax::{ComponentValType, DefinedType, FuncType};

#[tactic(auto, using(crate::proofs::KindFound::kinds))]
fn kind_in_members<T: Places>(search: &mut Search, items: &[T]) -> Option<PlaceKind>
    ensures found { is_some result
        ≡ is_some (among (members.members_places T.places (map T.shown items.now)) search.old) }
    ensures moved { search.new ≡ past (members.members_places T.places (map T.shown items.now)) search.old }
{
    if search.step() {
        return Some(PlaceKind::Members);
    }
    kind_in_row(search, items)
}

impl Places for ComponentValType {
    ghost Shown = { PlainValue };

    ghost shown = { λ x. x };

    ghost places = { members.value_places };

    #[tactic(auto, using(crate::proofs::KindFound::kinds))]
    fn kind_at(&self, search: &mut Search) -> Option<PlaceKind> {
        kind_among(search, &[PlaceKind::Value])
    }
}

impl Places for Option<ComponentValType> {
    ghost Shown = { Option PlainValue };

    ghost shown = { λ x. x };

    ghost places = { members.optional_places };

    #[tactic(auto, using(crate::proofs::KindFound::kinds))]
    fn kind_at(&self, search: &mut Search) -> Option<PlaceKind> {
        match self {
            None => kind_among(search, &[PlaceKind::Presence]),
            Some(_) => kind_among(search, &[PlaceKind::Presence, PlaceKind::Value]),
        }
    }
}

impl Places for String {
    ghost Shown = { List ℕ };

    ghost shown = { string_bytes };

    ghost places = { members.label_places };

    #[tactic(auto, using(crate::proofs::KindFound::kinds))]
    fn kind_at(&self, search: &mut Search) -> Option<PlaceKind> {
        kind_among(search, &[PlaceKind::Name])
    }
}

impl Places for (String, ComponentValType) {
    ghost Shown = { Field };

    ghost shown = { named };

    ghost places = { members.field_places };

    #[tactic(auto, using(crate::proofs::KindFound::kinds))]
    fn kind_at(&self, search: &mut Search) -> Option<PlaceKind> {
        kind_among(search, &[PlaceKind::Name, PlaceKind::Value])
    }
}

impl Places for (String, Option<ComponentValType>) {
    ghost Shown = { Case };

    ghost shown = { named };

    ghost places = { members.case_places };

    #[tactic(auto, using(crate::proofs::KindFound::kinds))]
    fn kind_at(&self, search: &mut Search) -> Option<PlaceKind> {
        if search.step() {
            return Some(PlaceKind::Name);
        }
        self.1.kind_at(search)
    }
}

impl Places for DefinedType {
    ghost Shown = { DefValType };

    ghost shown = { shown_defined };

    ghost places = { members.defined_places };

    #[tactic(auto, using(crate::proofs::KindFound::kinds))]
    fn kind_at(&self, search: &mut Search) -> Option<PlaceKind> {
        match self {
            DefinedType::Primitive(_) => kind_among(search, &[PlaceKind::Code]),
            DefinedType::Record(ty) => kind_in_members(search, &ty.fields),
            DefinedType::Variant(ty) => kind_in_members(search, &ty.cases),
            DefinedType::Tuple(ty) => kind_in_members(search, &ty.fields),
            DefinedType::List(_) | DefinedType::Option(_) => {
                kind_among(search, &[PlaceKind::Code, PlaceKind::Value])
            }
            DefinedType::Flags(ty) => kind_in_labels(search, &ty.fields),
            DefinedType::Enum(ty) => kind_in_labels(search, &ty.variants),
            DefinedType::Result(ty) => match ty.ok_ty.kind_at(search) {
                Some(kind) => Some(kind),
                None => ty.err_ty.kind_at(search),
            },
        }
    }
}

#[tactic(auto, using(crate::proofs::KindFound::kinds))]
fn kind_in_labels(search: &mut Search, labels: &[String]) -> Option<PlaceKind>
    ensures found { is_some result
        ≡ is_some (among (1 + members.labels_places (map string_bytes labels.now)) search.old) }
    ensures moved { search.new ≡ past (1 + members.labels_places (map string_bytes labels.now)) search.old }
{
    if search.step() {
        return Some(PlaceKind::Code);
    }
    kind_in_members(search, labels)
}

/// In a type of functions.
#[tactic(auto, using(crate::proofs::KindFound::kinds))]
pub(crate) fn kind_in_signature(search: &mut Search, ty: &FuncType) -> Option<PlaceKind>
    ensures found { is_some result ≡ is_some (among (members.signature_places ty.now) search.old) }
    ensures moved { search.new ≡ past (members.signature_places ty.now) search.old }
{
    match kind_in_members(search, &ty.params) {
        Some(kind) => Some(kind),
        None => ty.result.kind_at(search),
    }
}

impl Places for ValType {
    ghost Shown = { PlainVal };

    ghost shown = { λ x. x };

    ghost places = { core.core_value_places };

    #[tactic(auto, using(crate::proofs::KindFound::kinds))]
    fn kind_at(&self, search: &mut Search) -> Option<PlaceKind> {
        kind_among(search, &[PlaceKind::CoreValue])
    }
}

impl Places for CoreFunc {
    ghost Shown = { Function };

    ghost shown = { shown_func };

    ghost places = { core.function_places };

    #[tactic(auto, using(crate::proofs::KindFound::kinds))]
    fn kind_at(&self, search: &mut Search) -> Option<PlaceKind> {
        let kind = kind_in_row(search, &self.params);
        if kind.is_some() {
            return kind;
        }
        if search.step() {
            return Some(PlaceKind::Results);
        }
        kind_in_row(search, &self.results)
    }
}

impl Places for EntityType {
    ghost Shown = { PlainEntity };

    ghost shown = { λ x. x };

    ghost places = { core.entity_places };

    #[tactic(auto, using(crate::proofs::KindFound::kinds))]
    fn kind_at(&self, search: &mut Search) -> Option<PlaceKind> {
        match self {
            EntityType::Func(_) | EntityType::Tag(_) => {
                kind_among(search, &[PlaceKind::Code, PlaceKind::Index])
            }
            EntityType::Table(_) => kind_among(
                search,
                &[PlaceKind::Code, PlaceKind::Element, PlaceKind::Limits],
            ),
            EntityType::Memory(_) => kind_among(search, &[PlaceKind::Code, PlaceKind::Limits]),
            EntityType::Global(_) => {
                kind_among(search, &[PlaceKind::CoreValue, PlaceKind::Mutable])
            }
        }
    }
}

impl Places for ModuleNode {
    ghost Shown = { ModuleDecl };

    ghost shown = { shown_module_node };

    ghost places = { core.module_decl_places };

    #[tactic(auto, using(crate::proofs::KindFound::kinds))]
    fn kind_at(&self, search: &mut Search) -> Option<PlaceKind> {
        match self {
            ModuleNode::Func(ty) => ty.kind_at(search),
            ModuleNode::Import { entity, .. } | ModuleNode::Export { entity, .. } => {
                entity.kind_at(search)
            }
            ModuleNode::OuterAlias { .. } => {
                kind_among(search, &[PlaceKind::Count, PlaceKind::Index])
            }
        }
    }
}

impl Places for CoreNode {
    ghost Shown = { CoreEntry };

    ghost shown = { shown_core_node };

    ghost places = { core.core_places };

    #[tactic(auto, using(crate::proofs::KindFound::kinds))]
    fn kind_at(&self, search: &mut Search) -> Option<PlaceKind> {
        match self {
            CoreNode::Func(ty) => ty.kind_at(search),
            CoreNode::Module(nodes) => kind_in_row(search, nodes),
        }
    }
}

impl Places for Func {
    ghost Shown = { Canon };

    ghost shown = { shown_canon };

    ghost places = { parts.canon_places };

    #[tactic(auto, using(crate::proofs::KindFound::kinds))]
    fn kind_at(&self, search: &mut Search) -> Option<PlaceKind> {
        match self {
            Func::CanonLift { .. } => kind_among(search, &[PlaceKind::Index, PlaceKind::Index]),
            Func::CanonLower { .. } => kind_among(search, &[PlaceKind::Index]),
        }
    }
}

impl Places for ImportNode {
    ghost Shown = { ImportEntry };

    ghost shown = { shown_import_node };

    ghost places = { parts.import_places };

    #[tactic(auto, using(crate::proofs::KindFound::kinds))]
    fn kind_at(&self, search: &mut Search) -> Option<PlaceKind> {
        kind_among(
            search,
            &[PlaceKind::Name, PlaceKind::Sort, PlaceKind::Index],
        )
    }
}

impl Places for Export {
    ghost Shown = { ExportEntry };

    ghost shown = { shown_export };

    ghost places = { parts.export_places };

    #[tactic(auto, using(crate::proofs::KindFound::kinds))]
    fn kind_at(&self, search: &mut Search) -> Option<PlaceKind> {
        kind_among(search, &[PlaceKind::Name, PlaceKind::Index])
    }
}

impl Places for MemoryType {
    ghost Shown = { MemoryType };

    ghost shown = { λ m. m };

    ghost places = { parts.memory_places };

    #[tactic(auto, using(crate::proofs::KindFound::kinds))]
    fn kind_at(&self, search: &mut Search) -> Option<PlaceKind> {
        kind_among(search, &[PlaceKind::Limits])
    }
}
