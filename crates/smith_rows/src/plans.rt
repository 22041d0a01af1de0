//! The scripts of six plans, as the definitions give them, so the rows that are generated from them test the
//! definitions too.

ghost use Rattle.std.specs.Prelude.{◌≡◌};
ghost use Rattle.smith_tree.specs.Script.{script};
ghost use Rattle.smith_rows.specs.Plans.{lower_and_lift, lower_of_a_lift, nested, scoped_type};
ghost use Rattle.smith_rows.specs.Plans.{limits_with_exports, lower_of_an_export, second_of_equal_types};
ghost use Rattle.smith_rows.specs.Plans.{small_limits};

/// The scripts, by the names of their plans.
#[derive(Clone, Copy)]
pub struct PlanScripts {
    /// Two types `() to string`, and an import of the second.
    pub second_of_equal_types: &'static [u8],
    /// A type `(a: u32) to bool`, an import of it, its lower, and a lift to the same type.
    pub lower_and_lift: &'static [u8],
    /// The same, and a lower of the lift.
    pub lower_of_a_lift: &'static [u8],
    /// A type `(a: u32) to bool`, an import of it, an export of that, and a lower of the export.
    pub lower_of_an_export: &'static [u8],
    /// A component within one, with a type, an import, a lower and a lift each.
    pub nested: &'static [u8],
    /// A component type with two outer aliases of what is around it, an import, an export, and an alias of its own.
    pub scoped_type: &'static [u8],
}

/// All six scripts.
pub fn scripts() -> PlanScripts
    ensures second { result.second_of_equal_types.now ≡ script small_limits second_of_equal_types }
    ensures lift { result.lower_and_lift.now ≡ script small_limits lower_and_lift }
    ensures lower { result.lower_of_a_lift.now ≡ script small_limits lower_of_a_lift }
    ensures exported { result.lower_of_an_export.now ≡ script limits_with_exports lower_of_an_export }
    ensures nested { result.nested.now ≡ script small_limits nested }
    ensures scoped { result.scoped_type.now ≡ script small_limits scoped_type }
{
    PlanScripts {
        second_of_equal_types: b"\x03\x01\x01\x00\x01\x0c\x01\x01\x00\x01\x0c\x00\
            \x04\x01\x01\x01\x00\x00\x00\
            \x00",
        lower_and_lift: b"\x03\x01\x01\x01\x01\x00\x06\x00\x01\x00\x00\
            \x04\x01\x01\x01\x00\x00\
            \x05\x01\x01\x01\x01\x00\x07\x01\x00\
            \x00",
        lower_of_a_lift: b"\x03\x01\x01\x01\x01\x00\x06\x00\x01\x00\x00\
            \x04\x01\x01\x01\x00\x00\
            \x05\x01\x01\x01\x01\x00\x07\x01\x01\x00\x01\x00\
            \x00",
        lower_of_an_export: b"\x03\x01\x01\x01\x01\x00\x06\x00\x01\x00\x00\
            \x04\x01\x01\x01\x00\x00\
            \x08\x01\x01\x02\x00\
            \x05\x01\x01\x00\
            \x00",
        nested: b"\x03\x01\x01\x01\x01\x00\x06\x00\x01\x00\x00\
            \x07\
            \x03\x01\x01\x01\x01\x00\x06\x00\x01\x00\x00\
            \x04\x01\x01\x01\x00\x00\
            \x05\x01\x01\x01\x01\x00\x07\x01\x00\
            \x00\
            \x04\x01\x01\x02\x00\x00\
            \x00",
        scoped_type: b"\x03\x01\x01\x00\x00\
            \x01\x00\x00\x06\
            \x01\x02\
            \x01\x00\x00\
            \x01\x01\x01\x01\x01\
            \x01\x00\x01\x03\x00\
            \x01\x01\x00\x00\x01\x02\x04\x1a\x00\
            \x01\x01\x01\x00\x02\
            \x00\x00\
            \x00",
    }
}
