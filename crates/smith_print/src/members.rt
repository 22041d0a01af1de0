//! Members of types as text, one after another.

ghost use Rattle.std.specs.Prelude.{ℕ, List, string_bytes};
ghost use Rattle.std.specs.List.{flat_map};
ghost use Rattle.smith_print.specs.CoreTypes.{core_element_text};
ghost use Rattle.smith_print.specs.Printing.{Prints};
ghost use Rattle.smith_print.specs.Values.{case_text, element_text, field_text, group, label_text};
ghost use Rattle.smith_syntax.specs.Signature.{named};

use crate::core_types::CoreValue;
use crate::values::{Maybe, Value};
use crate::words::Quoted;
use smith_core::ValType;
use smith_syntax::ComponentValType;
use std::alloc::AllocError;

/// A member of a type.
pub(crate) trait Member {
    ghost text: { List ℕ → Self → List ℕ };

    /// Prints it after these words.
    fn print(&self, out: &mut String, front: &str) -> Result<(), AllocError>
        ensures { Prints result out.old out.new (text front.now self.now) };
}

impl Member for (String, ComponentValType) {
    ghost text = { λ front m. field_text front (named m) };

    fn print(&self, out: &mut String, front: &str) -> Result<(), AllocError> {
        let name = Quoted(self.0.as_bytes());
        let value = Value(self.1);
        write!(out, "{front}{name} {value})")
    }
}

impl Member for (String, Option<ComponentValType>) {
    ghost text = { λ front m. case_text front (named m) };

    fn print(&self, out: &mut String, front: &str) -> Result<(), AllocError> {
        let name = Quoted(self.0.as_bytes());
        let value = Maybe {
            front: " ",
            ty: self.1,
            behind: "",
        };
        write!(out, "{front}{name}{value})")
    }
}

impl Member for String {
    ghost text = { λ front m. label_text front (string_bytes m) };

    fn print(&self, out: &mut String, front: &str) -> Result<(), AllocError> {
        let name = Quoted(self.as_bytes());
        write!(out, "{front}{name}")
    }
}

impl Member for ComponentValType {
    ghost text = { λ front m. element_text front m };

    fn print(&self, out: &mut String, front: &str) -> Result<(), AllocError> {
        let value = Value(*self);
        write!(out, "{front}{value}")
    }
}

impl Member for ValType {
    ghost text = { λ front m. core_element_text front m };

    fn print(&self, out: &mut String, front: &str) -> Result<(), AllocError> {
        let value = CoreValue(*self);
        write!(out, "{front}{value}")
    }
}

/// Prints members, each after these words.
pub(crate) fn print_members<T: Member>(
    out: &mut String,
    front: &str,
    members: &[T],
) -> Result<(), AllocError>
    ensures { Prints result out.old out.new (flat_map (T.text front.now) members.now) }
{
    for member in members {
        member.print(out, front)?;
    }
    Ok(())
}

/// Prints members between a head and a closing parenthesis.
pub(crate) fn print_group<T: Member>(
    out: &mut String,
    head: &str,
    front: &str,
    members: &[T],
) -> Result<(), AllocError>
    ensures { Prints result out.old out.new (group head.now (T.text front.now) members.now) }
{
    write!(out, "{head}")?;
    print_members(out, front, members)?;
    write!(out, ")")
}
