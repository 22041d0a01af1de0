//! Canonical functions, and the types of lifts.

ghost use Rattle.std.specs.Prelude.{◌≡◌, ◌≤◌, Some, map, slice_get};
ghost use Rattle.smith_syntax.specs.Marked.{Marked};
ghost use Rattle.smith_syntax.specs.Signature.{named};
ghost use Rattle.smith_read.specs.TypeNodes.{shown_type_node};
ghost use Rattle.smith_tree.specs.TypeScript.{script_lifted, script_params, script_scalar};
ghost use Rattle.smith_tree.specs.CanonScript.{script_lift};
ghost use Rattle.smith_tree.specs.Shown.{shown_canon};
ghost use Rattle.smith_script_types.specs.Says.{Says};
ghost use Rattle.smith_script.specs.Saying.{canon_item_says, canon_rest_says, canon_says, flat_like};
ghost use Rattle.smith_script.specs.Preceding.{preceding, spaces_in};

use crate::preceding::Open;
use smith_format::Config;
use smith_read::{Func, TypeNode};
use smith_script_types::{
    Error, Given, say_among, say_choice, say_name, say_offered, say_position,
};
use smith_syntax::{ComponentValType, FuncType, PrimitiveValType};
use smith_tree::{CanonItem, canon_offers, flat_primitive, lifted};
use std::alloc::Global;

// Which sort of canonical function it is.
fn say_canon_item(
    alloc: Global,
    out: &mut Vec<u8>,
    here: &Open<'_>,
    canon: &Func,
) -> Result<(), Error>
    ensures { (own : Marked) → Says result out.old out.new
        (canon_item_says (preceding own here.now) (shown_canon canon.now)) }
{
    let item = match canon {
        Func::CanonLift { .. } => CanonItem::Lift,
        Func::CanonLower { .. } => CanonItem::Lower,
    };
    let offers = canon_offers(
        here.functions.scalars().len() > 0,
        here.core_functions.len() > 0,
    );
    say_offered(alloc, out, &offers, item)
}

// The primitives that flatten as it does. A string does not.
fn flat_like(ty: PrimitiveValType) -> &'static [PrimitiveValType]
    ensures { result.now ≡ flat_like ty }
{
    match flat_primitive(ty) {
        Some(core) => lifted(core),
        None => &[],
    }
}

// A primitive among the ones that flatten as it does.
fn say_scalar(out: &mut Vec<u8>, ty: ComponentValType) -> Result<(), Error>
    ensures { Says result out.old out.new (script_scalar ty) }
{
    match ty {
        ComponentValType::Primitive(primitive) => say_among(out, flat_like(primitive), &primitive),
        ComponentValType::Indexed(_) => Ok(()),
    }
}

fn say_params(
    out: &mut Vec<u8>,
    config: &Config,
    params: &[(String, ComponentValType)],
) -> Result<(), Error>
    requires { config.now.max_name_length ≤ 100 }
    ensures { Says result out.old out.new (script_params config.now 0 (map named params.now)) }
{
    for done in 0..params.len() {
        let param = &params[done];
        say_name(out, config, done, &param.0)?;
        say_scalar(out, param.1)?;
    }
    Ok(())
}

// The signature of a lift.
fn say_signature(out: &mut Vec<u8>, config: &Config, signature: &FuncType) -> Result<(), Error>
    requires { config.now.max_name_length ≤ 100 }
    ensures { Says result out.old out.new (script_lifted config.now signature.now) }
{
    say_params(out, config, &signature.params)?;
    match signature.result {
        None => Ok(()),
        Some(ty) => say_scalar(out, ty),
    }
}

// What follows the choice of the core function of a lift to the type of that index, which is this one: its signature,
// and a choice among the types that are equal to it.
fn say_lift_to(
    out: &mut Vec<u8>,
    config: &Config,
    here: &Open<'_>,
    ty: u32,
    entry: &TypeNode,
) -> Result<(), Error>
    requires names { config.now.max_name_length ≤ 100 }
    requires at { slice_get (map shown_type_node here.now.types) ty ≡ Some (shown_type_node entry.now) }
    ensures { (own : Marked) → Says result out.old out.new
        (script_lift config.now (spaces_in (preceding own here.now)) ty (Some (shown_type_node entry.now))) }
{
    match entry {
        TypeNode::Func(signature) => {
            say_signature(out, config, signature)?;
            say_position(out, here.types.equals(ty), ty as usize)
        }
        TypeNode::Defined(_) | TypeNode::Component(_) | TypeNode::Instance(_) => Ok(()),
    }
}

// What follows the choice of the core function of a lift to the type of that index.
fn say_lifted(out: &mut Vec<u8>, config: &Config, here: &Open<'_>, ty: u32) -> Result<(), Error>
    requires { config.now.max_name_length ≤ 100 }
    ensures { (own : Marked) → Says result out.old out.new (script_lift config.now
        (spaces_in (preceding own here.now)) ty (slice_get (preceding own here.now).types ty)) }
{
    match here.types.get(ty) {
        Some(entry) => say_lift_to(out, config, here, ty, entry),
        None => Ok(()),
    }
}

// What follows the choice of the item.
fn say_canon_rest(
    out: &mut Vec<u8>,
    config: &Config,
    here: &Open<'_>,
    canon: &Func,
) -> Result<(), Error>
    requires { config.now.max_name_length ≤ 100 }
    ensures { (own : Marked) → Says result out.old out.new
        (canon_rest_says config.now (preceding own here.now) (shown_canon canon.now)) }
{
    match *canon {
        Func::CanonLift {
            func_ty,
            core_func_index,
        } => {
            say_choice(out, here.core_functions.len(), core_func_index as usize)?;
            say_lifted(out, config, here, func_ty)
        }
        Func::CanonLower { func_index } => {
            say_position(out, here.functions.scalars(), func_index as usize)
        }
    }
}

/// A canonical function.
pub(crate) fn say_canon(
    given: Given<'_>,
    out: &mut Vec<u8>,
    here: &Open<'_>,
    canon: &Func,
) -> Result<(), Error>
    ensures { (own : Marked) → Says result out.old out.new
        (canon_says given.entry.config.now (preceding own here.now) (shown_canon canon.now)) }
{
    say_canon_item(given.alloc, out, here, canon)?;
    say_canon_rest(out, given.config, here, canon)
}
