//! The kinds of entries of a scope.

/// The kinds of entries that are counted and named by their rank.
#[derive(Debug, Clone, Copy, PartialEq, Eq, Hash)]
pub enum Kind {
    /// A defined type, as opposed to a function, component or instance type.
    Defined,
    /// The type of a function.
    Func,
    /// The type of a component.
    Component,
    /// The type of an instance.
    Instance,
    /// A core function type.
    CoreFunc,
    /// The type of a core module.
    CoreModule,
}
