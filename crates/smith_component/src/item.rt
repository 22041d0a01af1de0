//! What a component has a minimum of.

/// What a component has a minimum of. Public because contracts refer to it.
#[derive(Debug, Clone, Copy)]
pub enum Counted {
    Types,
    Imports,
    Functions,
}
