//! The sections of components.

ghost use Rattle.std.specs.Prelude.{◌≡◌, ◌++◌, ◌-◌, List, IfOk, IfErr, OnOk, length, map};
ghost use Rattle.smith_input.specs.Script.{script_bytes, script_text};
ghost use Rattle.smith_syntax.specs.Marked.{Marked, empty_marked};
ghost use Rattle.smith_tree.specs.Open.{scopes_in};
ghost use Rattle.smith_tree.specs.Tree.{Tree, add, ends, tree_of};
ghost use Rattle.smith_tree.specs.WellFormed.{Formed, FormedPart, WellFormed};
ghost use Rattle.smith_tree.specs.Script.{item_of, script, script_from, script_part};
ghost use Rattle.smith_read.specs.PartNodes.{shown_part_node, shown_tree};
ghost use Rattle.smith_scopes.specs.NodeScopes.{outer_marked_in, own_marked_in};
ghost use Rattle.smith_script_types.specs.Says.{Says};
ghost use Rattle.smith_input.specs.declared.error.Error.TheVariants.{OutOfMemory};
ghost use Rattle.smith_script.specs.Saying.{item_says, section_says};
ghost use Rattle.smith_script.specs.Preceding.{IsAfter, after_section, empty_in, opened, preceding, totals_in};

use crate::preceding::Open;
use crate::rows::{Rows, say_rows};
use crate::stand_ins::say_stand_in;
use smith_read::{ComponentTree, PartNode};
use smith_scopes::NodeScopes;
use smith_script_types::{Error, Given, NONE_COUNTED, one_more, say_among, say_contents, say_text};
use smith_tree::{Item, RefTotals, Turn, turn_items};

// The totals when a component is opened.
fn opened(totals: RefTotals) -> Result<RefTotals, Error>
    ensures totals { IfOk result (λ t. t ≡ opened totals) }
    ensures memory { IfErr result (λ e. e ≡ OutOfMemory) }
{
    let components = one_more(totals.components)?;
    Ok(RefTotals {
        components,
        funcs: 0,
        ..totals
    })
}

// A custom section.
fn say_custom(out: &mut Vec<u8>, name: &str, contents: &[u8]) -> Result<(), Error>
    ensures { Says result out.old out.new (script_text 1000 name.now ++ script_bytes contents.now) }
{
    say_text(out, name)?;
    say_contents(out, contents)
}

// What follows the choice of the item of a section, which is added to what is before the next. A component in it is
// none.
fn say_section<'a>(
    given: Given<'_>,
    out: &mut Vec<u8>,
    scopes: &mut NodeScopes<'a>,
    here: &mut Open<'a>,
    part: &'a PartNode,
) -> Result<(), Error>
    ensures said { Says result out.old out.new (section_says (shown_part_node part.now) given.entry.config.now
        (outer_marked_in scopes.old) (preceding (own_marked_in scopes.old) here.old)) }
    ensures added { OnOk result (preceding (own_marked_in scopes.new) here.new
        ≡ after_section (outer_marked_in scopes.old) (shown_part_node part.now)
        (preceding (own_marked_in scopes.old) here.old)) }
    ensures outer { OnOk result (outer_marked_in scopes.new ≡ outer_marked_in scopes.old) }
{
    let config = given.config;
    match part {
        PartNode::Custom(section) => say_custom(out, &section.name, &section.bytes),
        PartNode::CoreModule(text) => {
            say_stand_in(given.alloc, out, config, text)?;
            here.add_module()
        }
        PartNode::CoreTypes(rows) => {
            let before = scopes.nest.own.core_types_len();
            let max = config.max_types.saturating_sub(before);
            say_rows(given, out, scopes, here, Rows { max, rows })
        }
        PartNode::Component(_) => Ok(()),
        PartNode::Types(rows) => {
            let max = config.max_types.saturating_sub(scopes.nest.own.types_len());
            say_rows(given, out, scopes, here, Rows { max, rows })
        }
        PartNode::Canons(rows) => {
            let max = config.max_funcs.saturating_sub(here.totals.funcs);
            say_rows(given, out, scopes, here, Rows { max, rows })
        }
        PartNode::Imports(rows) => {
            let max = config.max_imports.saturating_sub(here.imports);
            say_rows(given, out, scopes, here, Rows { max, rows })
        }
        PartNode::Exports(rows) => {
            let max = config.max_exports.saturating_sub(here.exports);
            say_rows(given, out, scopes, here, Rows { max, rows })
        }
    }
}

// The item of a part.
fn item_of(part: &PartNode) -> Item
    ensures { result ≡ item_of (shown_part_node part.now) }
{
    match part {
        PartNode::Custom { .. } => Item::Custom,
        PartNode::CoreModule(_) => Item::Module,
        PartNode::CoreTypes(_) => Item::CoreTypes,
        PartNode::Component(_) => Item::Component,
        PartNode::Types(_) => Item::Types,
        PartNode::Canons(_) => Item::Canonical,
        PartNode::Imports(_) => Item::Imports,
        PartNode::Exports(_) => Item::Exports,
    }
}

// The choice of an item.
fn say_item(
    out: &mut Vec<u8>,
    given: Given<'_>,
    turn: Turn,
    here: &Open<'_>,
    item: Item,
) -> Result<(), Error>
    ensures { (own : Marked) (outer : List Marked) → length outer ≡ turn.depth → Says result out.old out.new
        (item_says given.entry.config.now outer turn.sections (preceding own here.now) item) }
{
    say_among(out, turn_items(given.config, turn, here.totals), &item)
}

// What follows the choice of the item of a part, which is added to what is before the next.
#[cycle(parts)]
fn say_part<'a>(
    given: Given<'_>,
    out: &mut Vec<u8>,
    scopes: &mut NodeScopes<'a>,
    here: &mut Open<'a>,
    part: &'a PartNode,
) -> Result<(), Error>
    requires { (own_marked_in scopes.old).keeps ≡ given.config.now.must_validate }
    ensures said { (outer : List Tree) (before : Tree)
        → IsAfter given.entry.config.now outer before (outer_marked_in scopes.old)
        (preceding (own_marked_in scopes.old) here.old)
        → FormedPart (shown_part_node part.now) (scopes_in outer) before → Says result out.old out.new
        (script_part (shown_part_node part.now) given.entry.config.now outer before) }
    ensures added { (outer : List Tree) (before : Tree)
        → IsAfter given.entry.config.now outer before (outer_marked_in scopes.old)
        (preceding (own_marked_in scopes.old) here.old)
        → FormedPart (shown_part_node part.now) (scopes_in outer) before → OnOk result
        (IsAfter given.entry.config.now outer (add before (shown_part_node part.now)) (outer_marked_in scopes.old)
        (preceding (own_marked_in scopes.new) here.new)) }
    ensures keeps { OnOk result ((own_marked_in scopes.new).keeps ≡ (own_marked_in scopes.old).keeps) }
    ensures outer { OnOk result (outer_marked_in scopes.new ≡ outer_marked_in scopes.old) }
{
    match part {
        PartNode::Component(parts) => {
            let totals = opened(here.totals)?;
            scopes.enter(given.alloc)?;
            let inner = say_parts(given, out, scopes, totals, parts)?;
            scopes.leave();
            here.totals = RefTotals {
                funcs: here.totals.funcs,
                ..inner
            };
            Ok(())
        }
        PartNode::Custom(_)
        | PartNode::CoreModule(_)
        | PartNode::CoreTypes(_)
        | PartNode::Types(_)
        | PartNode::Canons(_)
        | PartNode::Imports(_)
        | PartNode::Exports(_) => say_section(given, out, scopes, here, part),
    }
}

// The sections of a component that is opened with these totals, in an empty scope. Returns the totals at its end.
#[cycle(parts)]
fn say_parts<'a>(
    given: Given<'_>,
    out: &mut Vec<u8>,
    scopes: &mut NodeScopes<'a>,
    totals: RefTotals,
    parts: &'a [PartNode],
) -> Result<RefTotals, Error>
    requires { own_marked_in scopes.old ≡ empty_marked given.config.now.must_validate }
    ensures said { (outer : List Tree) → IsAfter given.entry.config.now outer ends (outer_marked_in scopes.old)
        (empty_in given.entry.config.now.must_validate totals)
        → Formed (tree_of (map shown_part_node parts.now)) (scopes_in outer) ends → Says result out.old out.new
        (script_from (tree_of (map shown_part_node parts.now)) given.entry.config.now outer ends) }
    ensures totals { (outer : List Tree) → IsAfter given.entry.config.now outer ends (outer_marked_in scopes.old)
        (empty_in given.entry.config.now.must_validate totals)
        → Formed (tree_of (map shown_part_node parts.now)) (scopes_in outer) ends
        → IfOk result (λ t. t ≡ totals_in outer (tree_of (map shown_part_node parts.now))) }
    ensures outer { OnOk result (outer_marked_in scopes.new ≡ outer_marked_in scopes.old) }
{
    let mut here = Open::new(given.alloc, totals);
    let mut turn = Turn {
        depth: scopes.nest.outer.len(),
        sections: 0,
    };
    for part in parts {
        say_item(out, given, turn, &here, item_of(part))?;
        say_part(given, out, scopes, &mut here, part)?;
        turn.sections = one_more(turn.sections)?;
    }
    say_item(out, given, turn, &here, Item::Finish)?;
    Ok(here.totals)
}

/// The script of a component, as it is defined of one that is well formed.
pub(crate) fn say_tree(
    out: &mut Vec<u8>,
    given: Given<'_>,
    tree: &ComponentTree,
) -> Result<(), Error>
    ensures { WellFormed (shown_tree tree.now)
        → Says result out.old out.new (script given.entry.config.now (shown_tree tree.now)) }
{
    let mut scopes = NodeScopes::with_marks(given.alloc, given.config.must_validate);
    say_parts(given, out, &mut scopes, NONE_COUNTED, &tree.parts)?;
    Ok(())
}
