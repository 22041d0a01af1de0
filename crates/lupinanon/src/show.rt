//! A component as a text for people: a line for each section and for each entry, with its offset, and with its index in
//! its index space if it has one.

mod amounts;
mod core_modules;
mod core_types;
mod lines;
mod types;
mod walk;

use amounts::Size;
use core_modules::{show_custom, show_sections};
use core_types::show_core_type;
pub use lines::json_of;
use smith_core::COMPONENT_PREAMBLE;
use smith_print::next;
use smith_read::{ComponentTree, Contents, Export, Func, ImportNode, MOST_DEPTH, Step, Steps};
use smith_stats::ref_label;
use smith_syntax::ComponentTypeRef;
use std::alloc::Global;
use std::fmt;
use types::show_type;
use walk::Walk;

/// A component, and the bytes that it was read from.
#[derive(Clone, Copy)]
pub struct Shown<'a> {
    pub alloc: Global,
    pub component: &'a ComponentTree,
    pub bytes: &'a [u8],
}

// A member of a type, on a line with the others.
trait Member {
    fn show<W: fmt::Write>(&self, f: &mut fmt::Formatter<W>) -> fmt::Result;
}

// The members after a word, with commas between them.
fn show_list<W: fmt::Write, T: Member>(
    f: &mut fmt::Formatter<W>,
    word: &str,
    members: &[T],
) -> fmt::Result {
    f.write_str(word)?;
    let mut separator = "";
    for member in members {
        f.write_str(separator)?;
        member.show(f)?;
        separator = ", ";
    }
    Ok(())
}

// What is imported or exported under that name, and the end of the line.
fn show_extern<W: fmt::Write>(
    f: &mut fmt::Formatter<W>,
    walk: &mut Walk<'_>,
    word: &str,
    name: &str,
    to: ComponentTypeRef,
) -> fmt::Result {
    walk.pass_entry::<ImportNode>()?;
    let spaces = &mut walk.spaces;
    let (index, relation, ty) = match to {
        ComponentTypeRef::Module(ty) => (next(&mut spaces.modules)?, "of core type", ty),
        ComponentTypeRef::Func(ty) => (next(&mut spaces.functions)?, "of type", ty),
        ComponentTypeRef::TypeEq(ty) => (next(&mut spaces.types)?, "equal to type", ty),
        ComponentTypeRef::Component(ty) => (next(&mut spaces.components)?, "of type", ty),
        ComponentTypeRef::Instance(ty) => (next(&mut spaces.instances)?, "of type", ty),
    };
    let what = ref_label(to);
    writeln!(f, "{word} {name:?}: {what} {index} {relation} {ty}")
}

fn show_export<W: fmt::Write>(
    f: &mut fmt::Formatter<W>,
    walk: &mut Walk<'_>,
    export: &Export,
) -> fmt::Result {
    walk.pass_entry::<Export>()?;
    let index = next(&mut walk.spaces.functions)?;
    let name = export.name.as_str();
    let func = export.func_index;
    writeln!(
        f,
        "export {name:?}: function {index}, which is function {func}"
    )
}

fn show_canon<W: fmt::Write>(
    f: &mut fmt::Formatter<W>,
    walk: &mut Walk<'_>,
    canon: &Func,
) -> fmt::Result {
    walk.pass_entry::<Func>()?;
    match canon {
        Func::CanonLift {
            func_ty,
            core_func_index,
        } => {
            let index = next(&mut walk.spaces.functions)?;
            writeln!(
                f,
                "function {index}: lift of core function {core_func_index} to type {func_ty}"
            )
        }
        Func::CanonLower { func_index } => {
            let index = next(&mut walk.spaces.core_functions)?;
            writeln!(f, "core function {index}: lower of function {func_index}")
        }
    }
}

// What begins: a component, or a section that is a list, whose count is passed.
fn show_contents<W: fmt::Write>(
    f: &mut fmt::Formatter<W>,
    walk: &mut Walk<'_>,
    contents: Contents<'_>,
) -> fmt::Result {
    let what = match contents {
        Contents::Parts(_) => {
            let index = next(&mut walk.spaces.components)?;
            walk.enter()?;
            walk.pass(COMPONENT_PREAMBLE.len());
            return writeln!(f, "component {index}");
        }
        Contents::CoreTypes(_) => "core types",
        Contents::Types(_) => "types",
        Contents::Canons(_) => "canonical functions",
        Contents::Imports(_) => "imports",
        Contents::Exports(_) => "exports",
    };
    let _count = walk.pass_number()?;
    writeln!(f, "{what}")
}

// The beginning of a line, if the step has one. Returns how many bytes the contents of a section have.
fn begin_line<W: fmt::Write>(
    f: &mut fmt::Formatter<W>,
    walk: &mut Walk<'_>,
    step: Step<'_>,
) -> Result<usize, fmt::Error> {
    match step {
        Step::Custom(_) | Step::CoreModule(_) | Step::Begin(_) => walk.begin_section(f),
        Step::End(_) => Ok(0),
        _ => {
            walk.begin_entry(f)?;
            Ok(0)
        }
    }
}

fn show_step<W: fmt::Write>(
    f: &mut fmt::Formatter<W>,
    walk: &mut Walk<'_>,
    step: Step<'_>,
) -> fmt::Result {
    let len = begin_line(f, walk, step)?;
    match step {
        Step::Custom(section) => {
            walk.pass(len);
            show_custom(f, &section.name, &section.bytes)
        }
        Step::CoreModule(module) => {
            let index = next(&mut walk.spaces.modules)?;
            writeln!(f, "core module {index} of {}", Size(len))?;
            show_sections(f, walk, module)
        }
        Step::Begin(contents) => show_contents(f, walk, contents),
        Step::End(Contents::Parts(_)) => {
            walk.leave();
            Ok(())
        }
        Step::End(_) => Ok(()),
        Step::CoreType(ty) => show_core_type(f, walk, ty),
        Step::Type(ty) => show_type(f, walk, ty, MOST_DEPTH),
        Step::Canon(canon) => show_canon(f, walk, canon),
        Step::Import(import) => show_extern(f, walk, "import", &import.name, import.to),
        Step::Export(export) => show_export(f, walk, export),
    }
}

// The lines of all steps.
fn show_steps<W: fmt::Write>(
    f: &mut fmt::Formatter<W>,
    walk: &mut Walk<'_>,
    mut steps: Steps<'_>,
) -> fmt::Result {
    walk.pass(COMPONENT_PREAMBLE.len());
    while let Some(step) = steps.next()? {
        show_step(f, walk, step)?;
    }
    Ok(())
}

impl fmt::Display for Shown<'_> {
    fn fmt<W: fmt::Write>(&self, f: &mut fmt::Formatter<W>) -> fmt::Result {
        let mut walk = Walk::new(self.alloc, self.bytes);
        show_steps(f, &mut walk, Steps::new(self.alloc, self.component))
    }
}
