//! Loops over members that have a script each, and core function types.

ghost use Rattle.std.specs.Prelude.{◌≡◌, ℕ, List};
ghost use Rattle.smith_input.specs.Script.{script_among};
ghost use Rattle.smith_format.specs.Equality.{same_val};
ghost use Rattle.smith_format.specs.CoreScript.{script_function, script_values};
ghost use Rattle.smith_format.specs.Limits.{configured, max_results};
ghost use Rattle.smith_format.specs.Shown.{shown_func};
ghost use Rattle.smith_tree.specs.TypeScript.{script_members};
ghost use Rattle.smith_script_types.specs.Says.{Says};

use crate::choices::{say_among, say_end, say_more};
use smith_format::{Config, FuncType, ValType, valtypes_of};
use smith_input::Error;

/// What has a script in a context, after that many.
pub trait Scripted<Context> {
    ghost script: { Context → ℕ → Self → List ℕ };

    fn say(&self, context: &Context, done: usize, out: &mut Vec<u8>) -> Result<(), Error>
        ensures { Says result out.old out.new (script context.now done self.now) };
}

/// A loop that makes these, at least min and at most max.
pub fn say_members<Context, T: Scripted<Context>>(
    out: &mut Vec<u8>,
    context: &Context,
    min: usize,
    max: usize,
    items: &[T],
) -> Result<(), Error>
    ensures { Says result out.old out.new (script_members (T.script context.now) min max items.now) }
{
    for done in 0..items.len() {
        say_more(out, min, done)?;
        items[done].say(context, done, out)?;
    }
    say_end(out, items.len(), max)
}

impl Scripted<Config> for ValType {
    ghost script = { λ config _ x. script_among same_val (configured config) x };

    fn say(&self, context: &Config, _done: usize, out: &mut Vec<u8>) -> Result<(), Error> {
        say_among(out, valtypes_of(context), self)
    }
}

/// At most max core value types, each one that the limits allow.
pub fn say_core_values(
    out: &mut Vec<u8>,
    config: &Config,
    max: usize,
    items: &[ValType],
) -> Result<(), Error>
    ensures { Says result out.old out.new (script_values (configured config.now) max items.now) }
{
    say_members(out, config, 0, max, items)
}

/// The most results of a core function type.
pub fn max_results(config: &Config) -> usize
    ensures { result ≡ max_results config.now }
{
    if config.multi_value_enabled { 20 } else { 1 }
}

/// A core function type after what says that it is one: its parameters, and then its results.
pub fn say_core_function(out: &mut Vec<u8>, config: &Config, ty: &FuncType) -> Result<(), Error>
    ensures { Says result out.old out.new
        (script_function (configured config.now) (max_results config.now) (shown_func ty.now)) }
{
    say_core_values(out, config, 20, &ty.params)?;
    say_core_values(out, config, max_results(config), &ty.results)
}
