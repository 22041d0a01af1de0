//! Effective sizes as they are kept.

ghost use Rattle.std.specs.Prelude.{◌≡◌, ◌+◌, List};
ghost use Rattle.smith_format.specs.CoreTypes.{Function};
ghost use Rattle.smith_format.specs.Shown.{shown_func};
ghost use Rattle.smith_syntax.specs.Sizes.{capped, entity_size, function_size, function_size_at};
ghost use Rattle.smith_syntax.specs.OwnSizes.{sizes_in};

use smith_format::{EntityType, FuncType};

/// Effective sizes are below it. A greater one is kept as it. Public only for the crates above.
pub const SIZE_BOUND: u32 = 1_000_000;

/// The sum of two sizes, as it is kept. Public only for the crates above.
pub fn size_sum(one: u32, other: u32) -> u32
    ensures { result ≡ capped (one + other) }
{
    one.saturating_add(other).min(SIZE_BOUND)
}

// A number as a size is kept.
fn kept_size(count: usize) -> u32
    ensures { result ≡ capped count }
{
    count.min(SIZE_BOUND as usize) as u32
}

/// The size of a core function type: 2, and how many parameters and results there are. Public only for the crates
/// above.
pub fn function_size(ty: &FuncType) -> u32
    ensures { result ≡ capped (function_size (shown_func ty.now)) }
{
    let values = size_sum(kept_size(ty.params.len()), kept_size(ty.results.len()));
    size_sum(values, 2)
}

// The size of the function type with that index, among own function types of these sizes.
fn function_size_at(own: &[u32], index: u32) -> u32
    ensures { (fs : List Function) → own.now ≡ sizes_in fs → result ≡ capped (function_size_at fs index) }
{
    match own.get(index as usize) {
        Some(size) => *size,
        None => 1,
    }
}

/// The size of what a module type imports or exports, whose own function types have these sizes. Public only for the
/// crates above.
pub fn entity_size(own: &[u32], entity: EntityType) -> u32
    ensures { (fs : List Function) → own.now ≡ sizes_in fs → result ≡ capped (entity_size fs entity) }
{
    match entity {
        EntityType::Func(index) => function_size_at(own, index),
        EntityType::Tag(tag) => function_size_at(own, tag.func_type_idx),
        EntityType::Table(_) | EntityType::Memory(_) | EntityType::Global(_) => 1,
    }
}
