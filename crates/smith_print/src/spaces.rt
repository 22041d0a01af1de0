//! The index spaces of a component.

ghost use Rattle.std.specs.Prelude.{◌≡◌, ◌+◌, IfOk};
ghost use Rattle.smith_print.specs.Spaces.{nothing};

use std::alloc::AllocError;

/// How many entries each index space has (Explainer.md, index spaces).
#[derive(Clone, Copy)]
pub struct IndexSpaces {
    pub core_types: usize,
    pub core_functions: usize,
    pub memories: usize,
    pub modules: usize,
    pub types: usize,
    pub functions: usize,
    pub components: usize,
    pub instances: usize,
}

impl IndexSpaces {
    /// Spaces without entries.
    pub fn new() -> IndexSpaces
        ensures { result ≡ nothing }
    {
        IndexSpaces {
            core_types: 0,
            core_functions: 0,
            memories: 0,
            modules: 0,
            types: 0,
            functions: 0,
            components: 0,
            instances: 0,
        }
    }
}

/// The index of the next entry of a space, which is then one longer.
pub fn next(space: &mut usize) -> Result<usize, AllocError>
    ensures index { IfOk result (λ n. n ≡ space.old) }
    ensures longer { IfOk result (λ _. space.new ≡ space.old + 1) }
{
    let index = *space;
    // As many entries as this need more memory than there is.
    let Some(longer) = index.checked_add(1) else {
        return Err(AllocError);
    };
    *space = longer;
    Ok(index)
}
