//! What sorts of places there are.

ghost use Rattle.std.specs.Prelude.{◌≡◌, ◌<◌, ◌↔◌, ℕ, Option, is_some, length, map, IfOk, IsSome};
ghost use Rattle.smith_syntax.specs.Entries.{Entry, in_order};
ghost use Rattle.smith_tree.specs.Tree.{tree_of};
ghost use Rattle.smith_read.specs.PartNodes.{shown_part_node, shown_tree};
ghost use Rattle.smith_read.specs.TypeNodes.{shown_decl_node, shown_type_node};
ghost use Rattle.smith_change.specs.Changes as spec;
ghost use Rattle.smith_change.specs.Parts as parts;
ghost use Rattle.smith_change.specs.Rows.{row_places};
ghost use Rattle.smith_read.specs.Search.{among, past};
ghost use Rattle.smith_change.specs.Types as types;

use crate::placed::kind_in_signature;
use smith_read::{ComponentTree, DeclNode, PartNode, Search, TypeNode, Unread, module_sections_of};
use std::alloc::{AllocError, Global};

/// What sort of place a change is at.
#[derive(Debug, Clone, Copy, PartialEq, Eq)]
pub enum PlaceKind {
    /// A section, an entry of one, a declaration, a member, a parameter, or a core parameter or result.
    Entry,
    /// All members of a type, or all parameters of a function type.
    Members,
    /// The index of a type, of a function or of a core function.
    Index,
    /// The count of scopes of an outer alias.
    Count,
    /// A value type.
    Value,
    /// Whether there is a value type.
    Presence,
    Name,
    /// What an import or an export is of.
    Sort,
    /// A byte that says what follows.
    Code,
    /// A core value type.
    CoreValue,
    /// All results of a core function type.
    Results,
    Limits,
    /// What is in a table.
    Element,
    /// Whether a global is mutable.
    Mutable,
}

impl PlaceKind {
    /// The sort of place in a word or two.
    pub fn text(self) -> &'static str {
        match self {
            PlaceKind::Entry => "entry",
            PlaceKind::Members => "members",
            PlaceKind::Index => "index",
            PlaceKind::Count => "count",
            PlaceKind::Value => "value",
            PlaceKind::Presence => "presence",
            PlaceKind::Name => "name",
            PlaceKind::Sort => "sort",
            PlaceKind::Code => "code",
            PlaceKind::CoreValue => "core value",
            PlaceKind::Results => "result",
            PlaceKind::Limits => "limits",
            PlaceKind::Element => "element",
            PlaceKind::Mutable => "mutable",
        }
    }
}

/// What has places inside.
pub(crate) trait Places {
    ghost Shown: { Type 0 };

    ghost shown: { Self → Shown };

    ghost places: { Shown → ℕ };

    /// The sort of the place that is sought, if it is inside. Moves past all that are.
    fn kind_at(&self, search: &mut Search) -> Option<PlaceKind>
        ensures found { is_some result ≡ is_some (among (places (shown self.now)) search.old) }
        ensures moved { search.new ≡ past (places (shown self.now)) search.old };
}

/// The first of these places that is sought, if one of them is. They have nothing inside.
#[tactic(auto, using(crate::proofs::KindFound::kinds))]
pub(crate) fn kind_among(search: &mut Search, kinds: &[PlaceKind]) -> Option<PlaceKind>
    ensures found { is_some result ≡ is_some (among (length kinds.now) search.old) }
    ensures moved { search.new ≡ past (length kinds.now) search.old }
{
    for kind in kinds {
        if search.step() {
            return Some(*kind);
        }
    }
    None
}

/// Among entries in a row.
#[tactic(auto, using(crate::proofs::KindFound::kinds))]
pub(crate) fn kind_in_row<T: Places>(search: &mut Search, entries: &[T]) -> Option<PlaceKind>
    ensures found { is_some result ≡ is_some (among (row_places T.places (map T.shown entries.now)) search.old) }
    ensures moved { search.new ≡ past (row_places T.places (map T.shown entries.now)) search.old }
{
    for entry in entries {
        if search.step() {
            return Some(PlaceKind::Entry);
        }
        let kind = entry.kind_at(search);
        if kind.is_some() {
            return kind;
        }
    }
    None
}

#[cycle(kinds)]
#[tactic(auto, using(crate::proofs::KindFound::kinds, smith_read::proofs::ShownNodes::shown_nodes))]
fn kind_in_type(search: &mut Search, node: &TypeNode) -> Option<PlaceKind>
    ensures found { is_some result ≡ is_some (among (types.entry_places (shown_type_node node.now)) search.old) }
    ensures moved { search.new ≡ past (types.entry_places (shown_type_node node.now)) search.old }
{
    match node {
        TypeNode::Defined(ty) => ty.kind_at(search),
        TypeNode::Func(ty) => kind_in_signature(search, ty),
        TypeNode::Component(nodes) | TypeNode::Instance(nodes) => {
            if search.step() {
                return Some(PlaceKind::Code);
            }
            kind_in_declarations(search, nodes)
        }
    }
}

#[cycle(kinds)]
#[tactic(auto, using(crate::proofs::KindFound::kinds, smith_read::proofs::ShownNodes::shown_nodes))]
fn kind_in_declaration(search: &mut Search, node: &DeclNode) -> Option<PlaceKind>
    ensures found { is_some result ≡ is_some (among (types.decl_places (shown_decl_node node.now)) search.old) }
    ensures moved { search.new ≡ past (types.decl_places (shown_decl_node node.now)) search.old }
{
    match node {
        DeclNode::Core(ty) => ty.kind_at(search),
        DeclNode::Type(ty) => kind_in_type(search, ty),
        DeclNode::TypeAlias { .. } | DeclNode::CoreTypeAlias { .. } => kind_among(
            search,
            &[PlaceKind::Code, PlaceKind::Count, PlaceKind::Index],
        ),
        DeclNode::Import { .. } | DeclNode::Export { .. } => kind_among(
            search,
            &[
                PlaceKind::Code,
                PlaceKind::Name,
                PlaceKind::Sort,
                PlaceKind::Index,
            ],
        ),
    }
}

#[cycle(kinds)]
#[tactic(auto, using(crate::proofs::KindFound::kinds))]
fn kind_in_declarations(search: &mut Search, nodes: &[DeclNode]) -> Option<PlaceKind>
    ensures found { is_some result
        ≡ is_some (among (types.decls_places (in_order (map shown_decl_node nodes.now))) search.old) }
    ensures moved { search.new ≡ past (types.decls_places (in_order (map shown_decl_node nodes.now))) search.old }
{
    for node in nodes {
        if search.step() {
            return Some(PlaceKind::Entry);
        }
        let kind = kind_in_declaration(search, node);
        if kind.is_some() {
            return kind;
        }
    }
    None
}

impl Places for TypeNode {
    ghost Shown = { Entry };

    ghost shown = { shown_type_node };

    ghost places = { types.entry_places };

    #[tactic(auto, using(crate::proofs::KindFound::kinds))]
    fn kind_at(&self, search: &mut Search) -> Option<PlaceKind> {
        kind_in_type(search, self)
    }
}

// The sort of the place that is sought, or none if it is not inside.
type Found = Result<Option<PlaceKind>, AllocError>;

#[tactic(auto, using(crate::proofs::KindFound::kinds))]
fn kind_in_module(alloc: Global, search: &mut Search, text: &[u8]) -> Found
    ensures found { IfOk result (λ r. is_some r ≡ is_some (among (parts.module_places text.now) search.old)) }
    ensures moved { IfOk result (λ r. search.new ≡ past (parts.module_places text.now) search.old) }
{
    match module_sections_of(alloc, text) {
        Ok(sections) => {
            let kind = kind_in_row(search, &sections.types);
            if kind.is_some() {
                return Ok(kind);
            }
            Ok(kind_in_row(search, &sections.memories))
        }
        Err(Unread::OutOfMemory) => Err(AllocError),
        Err(Unread::Malformed { .. }) => Ok(None),
    }
}

#[cycle(kinds_of_parts)]
#[tactic(auto, using(crate::proofs::KindFound::kinds, crate::proofs::Nodes::part_nodes))]
fn kind_in_part(alloc: Global, search: &mut Search, node: &PartNode) -> Found
    ensures found { IfOk result (λ r. is_some r
        ≡ is_some (among (parts.part_places (shown_part_node node.now)) search.old)) }
    ensures moved { IfOk result (λ r. search.new ≡ past (parts.part_places (shown_part_node node.now)) search.old) }
{
    match node {
        PartNode::Custom(_) => Ok(None),
        PartNode::CoreModule(text) => kind_in_module(alloc, search, text),
        PartNode::CoreTypes(entries) => Ok(kind_in_row(search, entries)),
        PartNode::Component(nodes) => kind_in_parts(alloc, search, nodes),
        PartNode::Types(entries) => Ok(kind_in_row(search, entries)),
        PartNode::Canons(entries) => Ok(kind_in_row(search, entries)),
        PartNode::Imports(entries) => Ok(kind_in_row(search, entries)),
        PartNode::Exports(entries) => Ok(kind_in_row(search, entries)),
    }
}

#[cycle(kinds_of_parts)]
#[tactic(auto, using(crate::proofs::KindFound::kinds))]
fn kind_in_parts(alloc: Global, search: &mut Search, nodes: &[PartNode]) -> Found
    ensures found { let tree = tree_of (map shown_part_node nodes.now) in
        IfOk result (λ r. is_some r ≡ is_some (among (parts.places tree) search.old)) }
    ensures moved { let tree = tree_of (map shown_part_node nodes.now) in
        IfOk result (λ r. search.new ≡ past (parts.places tree) search.old) }
{
    for node in nodes {
        if search.step() {
            return Ok(Some(PlaceKind::Entry));
        }
        let kind = kind_in_part(alloc, search, node)?;
        if kind.is_some() {
            return Ok(kind);
        }
    }
    Ok(None)
}

/// The sort of the place that the change of that number is at; none if there is no such place.
pub fn place_kind(alloc: Global, tree: &ComponentTree, number: usize) -> Found
    // There is one exactly for each change.
    ensures { IfOk result (λ r. IsSome r ↔ (number < spec.changes (shown_tree tree.now))) }
{
    let mut search = Search::Ahead(number / 16);
    kind_in_parts(alloc, &mut search, &tree.parts)
}
