//! Components as plain trees: what they are, how they are encoded, which are well formed and within limits, what
//! choices their scripts are made of; and what their sections hold beside types. It knows no builder and no maker of
//! types: those promise what is defined here.
#![tactic(auto)]

mod choices;
mod custom;
mod encode;
mod entries;
mod flat;
pub mod laws;
mod totals;
mod turns;

pub use choices::{
    CanonItem, DeclarationItem, DefinedKind, Item, ModuleItem, RefKind, TypeKind, canon_offers,
    declaration_offers, defined_kinds, kind_offers, module_item_offers, primitives, ref_offers,
    type_kinds,
};
pub use entries::{CustomSection, Export, Func};
pub use flat::{flat_primitive, lifted};
pub use totals::RefTotals;
pub use turns::{Turn, turn_items};
