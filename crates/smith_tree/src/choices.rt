//! What choices are made among, and the tables that are the same everywhere. A choice is an index into its table.

ghost use Rattle.std.specs.Prelude.{◌≡◌};
ghost use Rattle.smith_tree.specs.CoreTypeOffers.{item_table, kind_table};
ghost use Rattle.smith_tree.specs.Offers.{canon_table};
ghost use Rattle.smith_tree.specs.Open.{more_items};
ghost use Rattle.smith_tree.specs.TypeOffers.{declaration_table, defined_kinds, primitives, ref_table, type_kinds};

use smith_format::ExportKind;
use smith_syntax::PrimitiveValType;

/// What a turn of the builder does.
#[derive(Debug, Clone, Copy, PartialEq, Eq)]
pub enum Item {
    Finish,
    Custom,
    CoreTypes,
    Types,
    Imports,
    Canonical,
    Module,
    Component,
    Exports,
}

/// What a turn of a canonical section is.
#[derive(Debug, Clone, Copy, PartialEq, Eq)]
pub enum CanonItem {
    Lower,
    Lift,
}

/// The kinds of types.
#[derive(Debug, Clone, Copy, PartialEq, Eq)]
pub enum TypeKind {
    Defined,
    Function,
    Component,
    Instance,
}

/// The kinds of defined types.
#[derive(Debug, Clone, Copy, PartialEq, Eq)]
pub enum DefinedKind {
    Primitive,
    Record,
    Variant,
    List,
    Tuple,
    Flags,
    Enum,
    Option,
    Result,
}

/// What a declaration of a component type or of an instance type is.
#[derive(Debug, Clone, Copy, PartialEq, Eq)]
pub enum DeclarationItem {
    Export,
    Alias,
    CoreType,
    Type,
}

/// What a declaration of a module type is.
#[derive(Debug, Clone, Copy, PartialEq, Eq)]
pub enum ModuleItem {
    Import,
    Export,
    Type,
    Alias,
}

/// What an import or an export is of.
#[derive(Debug, Clone, Copy, PartialEq, Eq)]
pub enum RefKind {
    Module,
    TypeEq,
    Func,
    Component,
    Instance,
}

// What a turn may do, in the order of its choice. Each table begins with the finish and ends with the exports.
static ALL_ITEMS: [Item; 9] = [
    Item::Finish,
    Item::Custom,
    Item::CoreTypes,
    Item::Types,
    Item::Imports,
    Item::Canonical,
    Item::Module,
    Item::Component,
    Item::Exports,
];

static WITHOUT_COMPONENTS: [Item; 8] = [
    Item::Finish,
    Item::Custom,
    Item::CoreTypes,
    Item::Types,
    Item::Imports,
    Item::Canonical,
    Item::Module,
    Item::Exports,
];

static WITHOUT_MODULES: [Item; 8] = [
    Item::Finish,
    Item::Custom,
    Item::CoreTypes,
    Item::Types,
    Item::Imports,
    Item::Canonical,
    Item::Component,
    Item::Exports,
];

static WITHOUT_EITHER: [Item; 7] = [
    Item::Finish,
    Item::Custom,
    Item::CoreTypes,
    Item::Types,
    Item::Imports,
    Item::Canonical,
    Item::Exports,
];

static TYPE_KINDS: [TypeKind; 4] = [
    TypeKind::Defined,
    TypeKind::Function,
    TypeKind::Component,
    TypeKind::Instance,
];

static DEFINED_KINDS: [DefinedKind; 9] = [
    DefinedKind::Primitive,
    DefinedKind::Record,
    DefinedKind::Variant,
    DefinedKind::List,
    DefinedKind::Tuple,
    DefinedKind::Flags,
    DefinedKind::Enum,
    DefinedKind::Option,
    DefinedKind::Result,
];

static PRIMITIVES: [PrimitiveValType; 13] = [
    PrimitiveValType::Bool,
    PrimitiveValType::S8,
    PrimitiveValType::U8,
    PrimitiveValType::S16,
    PrimitiveValType::U16,
    PrimitiveValType::S32,
    PrimitiveValType::U32,
    PrimitiveValType::S64,
    PrimitiveValType::U64,
    PrimitiveValType::F32,
    PrimitiveValType::F64,
    PrimitiveValType::Char,
    PrimitiveValType::String,
];

/// The kinds of types, in the order of their choice.
pub fn type_kinds() -> &'static [TypeKind]
    ensures { result.now ≡ type_kinds }
{
    &TYPE_KINDS
}

/// The kinds of defined types, in the order of their choice.
pub fn defined_kinds() -> &'static [DefinedKind]
    ensures { result.now ≡ defined_kinds }
{
    &DEFINED_KINDS
}

/// What a turn of the builder may do if input is left, in the order of its choice.
pub(crate) fn item_choices(
    with_finish: bool,
    with_module: bool,
    with_component: bool,
    with_exports: bool,
) -> &'static [Item]
    ensures { result.now ≡ more_items with_finish with_module with_component with_exports }
{
    let items: &'static [Item] = match (with_module, with_component) {
        (true, true) => &ALL_ITEMS,
        (true, false) => &WITHOUT_COMPONENTS,
        (false, true) => &WITHOUT_MODULES,
        (false, false) => &WITHOUT_EITHER,
    };
    let first = if with_finish { 0 } else { 1 };
    let end = if with_exports {
        items.len()
    } else {
        items.len() - 1
    };
    &items[first..end]
}

/// What a turn of a canonical section may be, in the order of its choice, each with whether it is offered.
pub fn canon_offers(with_lower: bool, with_lift: bool) -> [(bool, CanonItem); 2]
    ensures { result ≡ canon_table with_lower with_lift }
{
    [(with_lower, CanonItem::Lower), (with_lift, CanonItem::Lift)]
}

/// What a declaration of a component type or of an instance type may be, in the order of its choice, each with whether
/// it is offered.
pub fn declaration_offers(
    with_export: bool,
    with_alias: bool,
    with_type: bool,
) -> [(bool, DeclarationItem); 4]
    ensures { result ≡ declaration_table with_export with_alias with_type }
{
    [
        (with_export, DeclarationItem::Export),
        (with_alias, DeclarationItem::Alias),
        (true, DeclarationItem::CoreType),
        (with_type, DeclarationItem::Type),
    ]
}

/// What a declaration of a module type may be, in the order of its choice, each with whether it is offered.
pub fn module_item_offers(with_type: bool, with_alias: bool) -> [(bool, ModuleItem); 4]
    ensures { result ≡ item_table with_type with_alias }
{
    [
        (true, ModuleItem::Import),
        (true, ModuleItem::Export),
        (with_type, ModuleItem::Type),
        (with_alias, ModuleItem::Alias),
    ]
}

/// What kind of entity a module type may import or export, in the order of its choice, each with whether it is offered.
pub fn kind_offers(
    globals: bool,
    tables: bool,
    memories: bool,
    tags: bool,
    funcs: bool,
) -> [(bool, ExportKind); 5]
    ensures { result ≡ kind_table globals tables memories tags funcs }
{
    [
        (globals, ExportKind::Global),
        (tables, ExportKind::Table),
        (memories, ExportKind::Memory),
        (tags, ExportKind::Tag),
        (funcs, ExportKind::Func),
    ]
}

/// What an import or an export may be of, in the order of its choice, each with whether it is offered.
pub fn ref_offers(
    modules: bool,
    types: bool,
    funcs: bool,
    components: bool,
    instances: bool,
) -> [(bool, RefKind); 5]
    ensures { result ≡ ref_table modules types funcs components instances }
{
    [
        (modules, RefKind::Module),
        (types, RefKind::TypeEq),
        (funcs, RefKind::Func),
        (components, RefKind::Component),
        (instances, RefKind::Instance),
    ]
}

/// The primitive value types, in the order of their choice.
pub fn primitives() -> &'static [PrimitiveValType]
    ensures { result.now ≡ primitives }
{
    &PRIMITIVES
}
