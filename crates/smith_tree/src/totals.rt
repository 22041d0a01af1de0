//! Totals that limits of imports and exports are compared with.

/// How many there are so far: of modules, components and instances in the whole tree, and of functions in one
/// component, its component functions and its core functions together.
#[derive(Debug, Clone, Copy, PartialEq, Eq, Hash)]
pub struct RefTotals {
    pub modules: usize,
    pub funcs: usize,
    pub components: usize,
    pub instances: usize,
}
