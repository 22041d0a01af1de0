//! What the canonical ABI asks of a module type, as its script begins with it.

ghost use Rattle.std.specs.Prelude.{◌≡◌, ◌∷◌, [], ℕ, map, IfOk, IfErr, flat_map};
ghost use Rattle.smith_syntax.specs.ModuleTypes.{after_front, after_memory, after_realloc, entities_of};
ghost use Rattle.smith_read.specs.Nodes.{shown_module_node};
ghost use Rattle.smith_tree.specs.ModuleScript.{front_before, in_front, may_declare, script_asked, script_front};
ghost use Rattle.smith_tree.specs.ModuleScript.{script_line};
ghost use Rattle.smith_script_types.specs.Says.{Says};
ghost use Rattle.smith_input.specs.declared.error.Error.TheVariants.{OutOfMemory};

use crate::choices::say_choice;
use crate::declared::Declared;
use crate::fronts::{after_front, after_memory, after_realloc};
use crate::limits::say_limits;
use crate::place::Place;
use smith_format::EntityType;
use smith_input::Error;
use smith_read::ModuleNode;

// The declarations in front of these.
fn in_front<'a>(decls: &'a [ModuleNode], after: &[ModuleNode]) -> &'a [ModuleNode]
    ensures { map shown_module_node result.now
        ≡ in_front (map shown_module_node decls.now) (map shown_module_node after.now) }
{
    &decls[..decls.len().saturating_sub(after.len())]
}

// What a declaration leaves open: the limits of a memory.
fn say_asked(out: &mut Vec<u8>, decl: &ModuleNode) -> Result<(), Error>
    ensures { Says result out.old out.new (flat_map script_asked (entities_of (shown_module_node decl.now ∷ []))) }
{
    match decl {
        ModuleNode::Import { entity, .. } | ModuleNode::Export { entity, .. } => match entity {
            EntityType::Memory(memory) => say_limits(out, memory.minimum, memory.maximum),
            _ => Ok(()),
        },
        ModuleNode::Func(_) | ModuleNode::OuterAlias { .. } => Ok(()),
    }
}

fn say_all_asked(out: &mut Vec<u8>, decls: &[ModuleNode]) -> Result<(), Error>
    ensures { Says result out.old out.new (flat_map script_asked (entities_of (map shown_module_node decls.now))) }
{
    for decl in decls {
        say_asked(out, decl)?;
    }
    Ok(())
}

// A line of what the canonical ABI asks, which is allowed or not, and after which these declarations follow.
fn say_line(
    out: &mut Vec<u8>,
    may: bool,
    decls: &[ModuleNode],
    after: &[ModuleNode],
) -> Result<(), Error>
    ensures { Says result out.old out.new
        (script_line may (map shown_module_node decls.now) (map shown_module_node after.now)) }
{
    if after.len() < decls.len() {
        say_choice(out, 100, 0)?;
        return say_all_asked(out, in_front(decls, after));
    }
    if may {
        return say_choice(out, 100, 99);
    }
    Ok(())
}

// Is a function of a type of its own still allowed when these declarations are left?
fn may_declare(
    place: Place<'_, '_>,
    decls: &[ModuleNode],
    after: &[ModuleNode],
) -> Result<bool, Error>
    ensures may { (fuel : ℕ) → IfOk result (λ b. b ≡ may_declare place.entry.config.now
        (front_before fuel (map shown_module_node decls.now) (map shown_module_node after.now))) }
    ensures memory { IfErr result (λ e. e ≡ OutOfMemory) }
{
    let declared = Declared::in_front(place.alloc, in_front(decls, after))?;
    Ok(declared.allows_function(place.config) && declared.allows_type(place.config))
}

/// What the canonical ABI asks, in its three lines, whatever the fuel.
pub(crate) fn say_front(
    out: &mut Vec<u8>,
    place: Place<'_, '_>,
    decls: &[ModuleNode],
) -> Result<(), Error>
    ensures { (fuel : ℕ) → Says result out.old out.new (script_front place.entry.config.now fuel
        (map shown_module_node decls.now) (after_memory (map shown_module_node decls.now))
        (after_realloc (after_memory (map shown_module_node decls.now)))
        (after_front (map shown_module_node decls.now))) }
{
    let no_memory = after_memory(decls);
    let no_realloc = after_realloc(no_memory);
    let no_free = after_front(decls);
    say_line(out, 0 < place.config.max_memories, decls, no_memory)?;
    let may_realloc = may_declare(place, decls, no_memory)?;
    say_line(out, may_realloc, no_memory, no_realloc)?;
    let may_free = may_declare(place, decls, no_realloc)?;
    say_line(out, may_free, no_realloc, no_free)
}
