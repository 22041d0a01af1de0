//! Types of values and of functions as text.

ghost use Rattle.std.specs.Prelude.{◌≡◌, ◌++◌, Some, codes};
ghost use Rattle.smith_print.specs.Printing.{Prints};
ghost use Rattle.smith_print.specs.Values.{defined_text, function_text, maybe_text, primitive_text, value_text};
ghost use Rattle.smith_syntax.specs.Shown.{shown_defined};
ghost use Rattle.smith_syntax.specs.Signature.{signature};

use crate::members::{print_group, print_members};
use smith_syntax::{ComponentValType, DefinedType, FuncType, PrimitiveValType};
use std::alloc::AllocError;
use std::fmt;

fn primitive_word(ty: PrimitiveValType) -> &'static str
    ensures { result.now ≡ primitive_text ty }
{
    match ty {
        PrimitiveValType::Bool => "bool",
        PrimitiveValType::S8 => "s8",
        PrimitiveValType::U8 => "u8",
        PrimitiveValType::S16 => "s16",
        PrimitiveValType::U16 => "u16",
        PrimitiveValType::S32 => "s32",
        PrimitiveValType::U32 => "u32",
        PrimitiveValType::S64 => "s64",
        PrimitiveValType::U64 => "u64",
        PrimitiveValType::F32 => "f32",
        PrimitiveValType::F64 => "f64",
        PrimitiveValType::Char => "char",
        PrimitiveValType::String => "string",
    }
}

/// A value type.
#[derive(Clone, Copy)]
pub(crate) struct Value(pub(crate) ComponentValType);

impl fmt::Display for Value {
    ghost output = { λ v. Some (value_text v.0) };

    fn fmt<W: fmt::Write>(&self, f: &mut fmt::Formatter<W>) -> fmt::Result {
        match self.0 {
            ComponentValType::Primitive(ty) => f.write_str(primitive_word(ty)),
            ComponentValType::Indexed(index) => write!(f, "{index}"),
        }
    }
}

/// A value type that may be missing, between words that are missing with it.
#[derive(Clone, Copy)]
pub(crate) struct Maybe<'a> {
    pub(crate) front: &'a str,
    pub(crate) ty: Option<ComponentValType>,
    pub(crate) behind: &'a str,
}

impl<'a> fmt::Display for Maybe<'a> {
    ghost output = { λ m. Some (maybe_text m.front.now m.ty m.behind.now) };

    fn fmt<W: fmt::Write>(&self, f: &mut fmt::Formatter<W>) -> fmt::Result {
        let Some(ty) = self.ty else {
            return Ok(());
        };
        let (front, behind) = (self.front, self.behind);
        let value = Value(ty);
        write!(f, "{front}{value}{behind}")
    }
}

fn print_result(
    out: &mut String,
    ok: Option<ComponentValType>,
    err: Option<ComponentValType>,
) -> Result<(), AllocError>
    ensures { Prints result out.old out.new
        (codes "(result" ++ maybe_text (codes " ") ok (codes "") ++ maybe_text (codes " (error ") err (codes ")")
        ++ codes ")") }
{
    let ok = Maybe {
        front: " ",
        ty: ok,
        behind: "",
    };
    let err = Maybe {
        front: " (error ",
        ty: err,
        behind: ")",
    };
    write!(out, "(result{ok}{err})")
}

/// Prints a type of values.
pub(crate) fn print_defined(out: &mut String, ty: &DefinedType) -> Result<(), AllocError>
    ensures { Prints result out.old out.new (defined_text (shown_defined ty.now)) }
{
    match ty {
        DefinedType::Primitive(ty) => {
            let word = primitive_word(*ty);
            write!(out, "{word}")
        }
        DefinedType::Record(ty) => print_group(out, "(record", " (field ", &ty.fields),
        DefinedType::Variant(ty) => print_group(out, "(variant", " (case ", &ty.cases),
        DefinedType::List(ty) => {
            let value = Value(ty.elem_ty);
            write!(out, "(list {value})")
        }
        DefinedType::Tuple(ty) => print_group(out, "(tuple", " ", &ty.fields),
        DefinedType::Flags(ty) => print_group(out, "(flags", " ", &ty.fields),
        DefinedType::Enum(ty) => print_group(out, "(enum", " ", &ty.variants),
        DefinedType::Option(ty) => {
            let value = Value(ty.inner_ty);
            write!(out, "(option {value})")
        }
        DefinedType::Result(ty) => print_result(out, ty.ok_ty, ty.err_ty),
    }
}

// The parameters of a function, its result and the end.
fn print_signature(
    out: &mut String,
    params: &[(String, ComponentValType)],
    ty: Option<ComponentValType>,
) -> Result<(), AllocError>
    ensures { Prints result out.old out.new (function_text (signature params.now ty)) }
{
    write!(out, "(func")?;
    print_members(out, " (param ", params)?;
    let result = Maybe {
        front: " (result ",
        ty,
        behind: ")",
    };
    write!(out, "{result})")
}

/// Prints a type of functions.
pub(crate) fn print_function(out: &mut String, ty: &FuncType) -> Result<(), AllocError>
    ensures { Prints result out.old out.new (function_text ty.now) }
{
    print_signature(out, &ty.params, ty.result)
}
