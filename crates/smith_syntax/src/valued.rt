//! Members, each with a value type or none.

ghost use Rattle.std.specs.Prelude.{◌≡◌, Option, Some};
ghost use Rattle.smith_syntax.specs.declared.types.ComponentValType.{ComponentValType};

use crate::types::ComponentValType;

/// A member, which has a value type or none.
pub trait Valued {
    ghost value: { Self → Option ComponentValType };

    /// Its value type.
    fn value(&self) -> Option<ComponentValType>
        ensures { result ≡ value self.now };
}

impl Valued for ComponentValType {
    ghost value = { λ v. Some v };

    fn value(&self) -> Option<ComponentValType> {
        Some(*self)
    }
}

impl Valued for (String, ComponentValType) {
    ghost value = { λ p. Some p.1 };

    fn value(&self) -> Option<ComponentValType> {
        Some(self.1)
    }
}

impl Valued for (String, Option<ComponentValType>) {
    ghost value = { λ p. p.1 };

    fn value(&self) -> Option<ComponentValType> {
        self.1
    }
}
