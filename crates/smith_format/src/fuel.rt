//! Fuel, which bounds how large a type made from the input becomes.

ghost use Rattle.std.specs.Prelude.{◌≡◌, ◌-◌};

/// Takes one from the fuel, unless none is left. Public only for the crates above.
pub fn burn(fuel: &mut u32)
    ensures { fuel.new ≡ fuel.old - 1 }
{
    *fuel = fuel.saturating_sub(1);
}
