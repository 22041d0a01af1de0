//! How much fuel is left after a type.

ghost use Rattle.std.specs.Prelude.{◌≡◌, ◌-◌};
ghost use Rattle.smith_syntax.specs.Entries.{defined, function};
ghost use Rattle.smith_syntax.specs.Shown.{shown_defined};
ghost use Rattle.smith_syntax.specs.WellFormed.{defined_size};
ghost use Rattle.smith_read.specs.Nodes.{shown_core_node};
ghost use Rattle.smith_tree.specs.CoreTypeNeeds.{core_cost};
ghost use Rattle.smith_tree.specs.TypeNeeds.{cost};

use crate::fronts::core_size;
use smith_read::CoreNode;
use smith_syntax::{DefinedType, FuncType};

// The fuel left after that many turns.
fn burned(fuel: u32, turns: usize) -> u32
    ensures { result ≡ fuel - turns }
{
    match u32::try_from(turns) {
        Ok(turns) => fuel.saturating_sub(turns),
        Err(_) => 0,
    }
}

/// How many members a type of values has. Public only for the crate above.
pub fn defined_size(ty: &DefinedType) -> usize
    ensures { result ≡ defined_size (shown_defined ty.now) }
{
    match ty {
        DefinedType::Record(record) => record.fields.len(),
        DefinedType::Variant(variant) => variant.cases.len(),
        DefinedType::Tuple(tuple) => tuple.fields.len(),
        DefinedType::Flags(flags) => flags.fields.len(),
        DefinedType::Enum(labels) => labels.variants.len(),
        DefinedType::Primitive(_)
        | DefinedType::List(_)
        | DefinedType::Option(_)
        | DefinedType::Result(_) => 0,
    }
}

/// The fuel left after a type of values.
pub(crate) fn after_defined(fuel: u32, ty: &DefinedType) -> u32
    ensures { result ≡ fuel - cost (defined (shown_defined ty.now)) }
{
    burned(burned(fuel, defined_size(ty)), 1)
}

/// The fuel left after a function type.
pub(crate) fn after_function(fuel: u32, ty: &FuncType) -> u32
    ensures { result ≡ fuel - cost (function ty.now) }
{
    let results = if ty.result.is_some() { 1 } else { 0 };
    burned(burned(burned(fuel, ty.params.len()), results), 1)
}

/// The fuel left after a core type.
pub(crate) fn after_core(fuel: u32, ty: &CoreNode) -> u32
    ensures { result ≡ fuel - core_cost (shown_core_node ty.now) }
{
    burned(burned(fuel, core_size(ty)), 1)
}
