//! Limits as a script spells them.

ghost use Rattle.std.specs.Prelude.{◌≤◌};
ghost use Rattle.smith_format.specs.CoreScript.{script_between, script_limits, script_maximum};
ghost use Rattle.smith_script_types.specs.Says.{Says};

use crate::choices::{say_byte, say_choice};
use smith_input::Error;

// A number from low to high.
fn say_between(out: &mut Vec<u8>, low: u64, high: u64, n: u64) -> Result<(), Error>
    requires { high ≤ 20 }
    ensures { Says result out.old out.new (script_between low high n) }
{
    say_choice(
        out,
        high.saturating_sub(low) as usize + 1,
        n.saturating_sub(low) as usize,
    )
}

fn say_maximum(out: &mut Vec<u8>, minimum: u64, maximum: Option<u64>) -> Result<(), Error>
    ensures { Says result out.old out.new (script_maximum minimum maximum) }
{
    match maximum {
        None => say_byte(out, 0),
        Some(maximum) => {
            say_byte(out, 1)?;
            say_between(out, minimum, 20, maximum)
        }
    }
}

/// Limits: the minimum, and the maximum or none.
pub fn say_limits(out: &mut Vec<u8>, minimum: u64, maximum: Option<u64>) -> Result<(), Error>
    ensures { Says result out.old out.new (script_limits minimum maximum) }
{
    say_between(out, 0, 10, minimum)?;
    say_maximum(out, minimum, maximum)
}
