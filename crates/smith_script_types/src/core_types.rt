//! Core types.

ghost use Rattle.smith_read.specs.Nodes.{shown_core_node};
ghost use Rattle.smith_tree.specs.CoreTypeScript.{script_core};
ghost use Rattle.smith_script_types.specs.Says.{Says};
ghost use Rattle.smith_script_types.specs.Places.{plain_at};

use crate::choices::say_choice;
use crate::members::say_core_function;
use crate::modules::say_module;
use crate::place::Place;
use smith_input::Error;
use smith_read::CoreNode;

/// A core type with that much fuel: which of two it is, and then its parameters and its results, or what it declares.
/// If the fuel does not last the type is the empty module type, which takes no bytes.
pub fn say_core<'a>(
    out: &mut Vec<u8>,
    place: Place<'_, 'a>,
    fuel: u32,
    ty: &'a CoreNode,
) -> Result<(), Error>
    ensures { Says result out.old out.new
        (script_core place.entry.config.now (plain_at place.entry) fuel (shown_core_node ty.now)) }
{
    match ty {
        CoreNode::Func(ty) => {
            say_choice(out, 2, 0)?;
            say_core_function(out, place.config, ty)
        }
        CoreNode::Module(_) if fuel < 2 => Ok(()),
        CoreNode::Module(decls) => {
            say_choice(out, 2, 1)?;
            say_module(out, place, decls)
        }
    }
}
