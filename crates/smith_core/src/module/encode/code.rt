//! The code of functions of core modules in the binary format (core specification, Binary Format, Code Section).
#![tactic(auto, using(smith_format::proofs::Steps::writing, smith_format::proofs::Sizes::measuring))]

ghost use Rattle.smith_format.specs.Piece.{◌⊕◌, many};
ghost use Rattle.smith_format.specs.Writing.{Puts, IsLengthOf};
ghost use Rattle.smith_core.specs.Segments.{code_text, instructions, local};

use crate::module::encode::ModuleFormat;
use crate::module::segments::{Code, Instructions};
use smith_format::{
    Spelled, ValType, core_val_len, many_len, put_many, raw_len, u32_len, write_byte,
    write_core_val, write_raw, write_u32,
};
use smith_input::Error;

// The binary format of local variables, as the name of a format.
pub(in crate::module) struct LocalFormat {}

impl Spelled<LocalFormat> for ValType {
    ghost piece = { λ t. local t };

    fn put(&self, out: &mut Vec<u8>) -> Result<(), Error> {
        write_byte(out, 0x01)?;
        write_core_val(out, *self)
    }

    fn spelled_len(&self) -> Option<u32> {
        Some(1 + core_val_len(*self))
    }
}

impl Spelled<ModuleFormat> for Instructions {
    ghost piece = { λ i. instructions i };

    fn put(&self, out: &mut Vec<u8>) -> Result<(), Error> {
        match self {
            Instructions::Generated(expression) => expression.put(out),
            Instructions::Arbitrary(bytes) => write_raw(out, bytes),
        }
    }

    fn spelled_len(&self) -> Option<u32> {
        match self {
            Instructions::Generated(expression) => expression.spelled_len(),
            Instructions::Arbitrary(bytes) => raw_len(bytes),
        }
    }
}

impl Code {
    // The local variables, and then the instructions.
    fn put_body(&self, out: &mut Vec<u8>) -> Result<(), Error>
        ensures { Puts result out.old out.new
            (many local self.now.locals.items ⊕ instructions self.now.instructions) }
    {
        put_many::<LocalFormat, ValType>(out, &self.locals)?;
        self.instructions.put(out)
    }

    fn body_len(&self) -> Option<u32>
        ensures { IsLengthOf result (many local self.now.locals.items ⊕ instructions self.now.instructions) }
    {
        let locals = many_len::<LocalFormat, ValType>(&self.locals)?;
        locals.checked_add(self.instructions.spelled_len()?)
    }
}

impl Spelled<ModuleFormat> for Code {
    ghost piece = { λ c. code_text c };

    fn put(&self, out: &mut Vec<u8>) -> Result<(), Error> {
        let Some(length) = self.body_len() else {
            return Err(Error::TooLong);
        };
        write_u32(out, length)?;
        self.put_body(out)
    }

    fn spelled_len(&self) -> Option<u32> {
        let length = self.body_len()?;
        u32_len(length).checked_add(length)
    }
}
