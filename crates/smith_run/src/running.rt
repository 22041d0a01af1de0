//! From a reader of a fuzzer's bytes to a component that is written.

ghost use Rattle.std.specs.Prelude.{◌≡◌, ◌≢◌, ℕ, ◌+◌, ◌<◌, ◌≤◌, ◌⊎◌, List, Option, length, IfOk, OnOk, IfErr, IsErrOf};
ghost use Rattle.std.specs.Prelude.{vec_len};
ghost use Rattle.std.specs.Io.KnownBytes.{Appends, Consumes};
ghost use Rattle.smith_input.specs.declared.error.Error.TheVariants.{OutOfMemory};
ghost use Rattle.smith_format.specs.Consistency.{IsConsistent};
ghost use Rattle.smith_run.specs.Running.{ComesAfterReading, GivesAll, GivesTooMuch, IsRefusedOn, TakesSome, Writes};
ghost use Rattle.smith_run.specs.Running.{longest_input, status_of, written_text};
ghost use Rattle.smith_run.specs.declared.running.Form.TheVariants.{Page};
ghost use Rattle.smith_swarm.specs.Swarm.{after_front, swarmed};

use crate::pages;
use smith_component::{Config, Error, Unstructured, generate};
use smith_swarm::swarm_limits;
use std::alloc::{AllocError, Global};
use std::io::{Read, Write};

/// How many bytes an input may have.
pub const LONGEST_INPUT: usize = 1_048_576;

/// How many bytes a read asks for at most.
const CHUNK: usize = 8192;

/// Why a run fails.
#[derive(Debug, PartialEq, Eq, Drop, thiserror::Error)]
pub enum RunError {
    /// No component is made of the input, or there is not enough memory for it.
    #[error("{0:?}")]
    Refused(Error),
    /// A read failed.
    #[error("ReadFault")]
    ReadFault,
    /// The input has more than `LONGEST_INPUT` bytes.
    #[error("InputTooLong")]
    InputTooLong,
    /// A write failed.
    #[error("WriteFault")]
    WriteFault,
}

impl RunError {
    /// The status that the program ends with: 1 for a refusal, 2 for a fault.
    pub fn status(&self) -> u8
        ensures { result ≡ status_of self.now }
    {
        match self {
            RunError::Refused(_) => 1,
            RunError::ReadFault | RunError::InputTooLong | RunError::WriteFault => 2,
        }
    }
}

impl From<Error> for RunError {
    ghost use Rattle.std.specs.Prelude.{◌≡◌};
    ghost use Rattle.smith_run.specs.declared.running.RunError.TheVariants.{Refused};

    ghost from_gives = { λ error e. e ≡ Refused error };

    fn from(error: Error) -> RunError {
        RunError::Refused(error)
    }
}

impl From<AllocError> for RunError {
    ghost use Rattle.std.specs.Prelude.{◌≡◌};
    ghost use Rattle.smith_run.specs.declared.running.RunError.TheVariants.{Refused};
    ghost use Rattle.smith_input.specs.declared.error.Error.TheVariants.{OutOfMemory};

    ghost from_gives = { λ _ e. e ≡ Refused OutOfMemory };

    fn from(_error: AllocError) -> RunError {
        RunError::Refused(Error::OutOfMemory)
    }
}

// One read, which goes after the input. At most one byte too many is taken.
fn read_some<R: Read>(
    reader: &mut R,
    chunk: &mut [u8],
    input: &mut Vec<u8>,
) -> Result<usize, RunError>
    requires room { 0 < length chunk.old }
    requires within { vec_len input.old ≤ longest_input }
    ensures given { OnOk result ((before : Option (List ℕ))
        → Consumes before (R.remaining reader.old) input.old.items
        → Consumes before (R.remaining reader.new) input.new.items) }
    ensures takes { IfOk result (TakesSome input.old input.new (R.remaining reader.new)) }
    ensures bound { OnOk result (vec_len input.new ≤ longest_input + 1) }
    ensures fault { IfErr result (λ e. (e ≡ RunError.Refused OutOfMemory) ⊎ (e ≡ RunError.ReadFault)) }
{
    let room = chunk.len().min(LONGEST_INPUT + 1 - input.len());
    match reader.read(&mut chunk[..room]) {
        Ok(count) => {
            input.extend_from_slice(&chunk[..count])?;
            Ok(count)
        }
        Err(_) => Err(RunError::ReadFault),
    }
}

// All that the reader returns. Each read but the last returns a byte, so there are at most `LONGEST_INPUT + 1`.
fn read_input<R: Read>(alloc: Global, reader: &mut R) -> Result<Vec<u8>, RunError>
    ensures all { IfOk result (λ input. GivesAll (R.remaining reader.old) (R.remaining reader.new) input.items) }
    ensures fault { IfErr result (λ e.
        (e ≡ RunError.Refused OutOfMemory) ⊎ (e ≡ RunError.ReadFault) ⊎ (e ≡ RunError.InputTooLong)) }
    ensures too_long { IsErrOf result RunError.InputTooLong
        → GivesTooMuch (R.remaining reader.old) (R.remaining reader.new) }
{
    let mut chunk = [0u8; CHUNK];
    let mut input = Vec::new(alloc);
    'reads: while input.len() <= LONGEST_INPUT {
        if read_some(reader, &mut chunk, &mut input)? == 0 {
            return Ok(input);
        }
    }
    Err(RunError::InputTooLong)
}

// The text, and a flush, so that a writer that keeps bytes back reports its errors here.
fn write_text<W: Write>(writer: &mut W, text: &[u8]) -> Result<(), RunError>
    ensures written { OnOk result (Appends (W.contents writer.old) (W.contents writer.new) text.now) }
    ensures fault { IfErr result (λ e. e ≡ RunError.WriteFault) }
{
    if writer.write_all(text).is_err() || writer.flush().is_err() {
        return Err(RunError::WriteFault);
    }
    Ok(())
}

/// What is written of a component.
#[derive(Debug, Clone, Copy, PartialEq, Eq)]
pub enum Form {
    /// Its bytes.
    Raw,
    /// The page of its bytes as hexadecimal digits, and of how many bytes of the input are left.
    Page,
}

// What is written of a component's bytes.
fn formatted(alloc: Global, form: Form, bytes: Vec<u8>, left: usize) -> Result<Vec<u8>, AllocError>
    ensures { IfOk result (λ text. text.items ≡ written_text form bytes.items left) }
{
    match form {
        Form::Raw => Ok(bytes),
        Form::Page => pages::page(alloc, &bytes, left),
    }
}

// Makes a component of the bytes within the limits, and writes it in the form. Returns how many of the bytes are left.
fn write_made<W: Write>(
    alloc: Global,
    bytes: &[u8],
    writer: &mut W,
    config: Config,
    form: Form,
) -> Result<usize, RunError>
    ensures written { IfOk result (λ count. (left : List ℕ) × (count ≡ length left)
        × Writes config form bytes.now left (W.contents writer.old) (W.contents writer.new)) }
    ensures accepts { OnOk result (IsConsistent config) }
    ensures refused { IfErr result (λ e. ComesAfterReading e → IsRefusedOn config bytes.now e) }
    ensures faults { IfErr result (λ e. e ≢ RunError.InputTooLong) }
    ensures unwritten { IfErr result (λ e. e ≢ RunError.WriteFault → writer.new ≡ writer.old) }
{
    let mut unstructured = Unstructured::new(bytes);
    let generated = generate(alloc, config, &mut unstructured)?;
    let left = unstructured.left().len();
    let text = formatted(alloc, form, generated.bytes, left)?;
    write_text(writer, &text)?;
    Ok(left)
}

/// Reads the whole input, in at most `LONGEST_INPUT + 1` reads, makes a component of it within the limits, and writes
/// it in the form. Returns how many bytes of the input are left.
///
/// Any error of a read is `ReadFault`, a byte past `LONGEST_INPUT` is `InputTooLong`, and any error of a write or of
/// the flush after it is `WriteFault`. What `generate` refuses with, or being out of memory, is `Refused`. The text is
/// complete before its first byte is written, so any part of it may be out only after `WriteFault`.
pub fn convert<R: Read, W: Write>(
    alloc: Global,
    reader: &mut R,
    writer: &mut W,
    config: Config,
    form: Form,
) -> Result<usize, RunError>
    ensures written { IfOk result (λ count. (input left : List ℕ) × (count ≡ length left)
        × GivesAll (R.remaining reader.old) (R.remaining reader.new) input
        × Writes config form input left (W.contents writer.old) (W.contents writer.new)) }
    ensures accepts { OnOk result (IsConsistent config) }
    ensures whole { IfErr result (λ e. ComesAfterReading e → (input : List ℕ)
        × GivesAll (R.remaining reader.old) (R.remaining reader.new) input
        × IsRefusedOn config input e) }
    ensures unwritten { IfErr result (λ e. e ≢ RunError.WriteFault → writer.new ≡ writer.old) }
    ensures too_long { IsErrOf result RunError.InputTooLong
        → GivesTooMuch (R.remaining reader.old) (R.remaining reader.new) }
{
    let input = read_input(alloc, reader)?;
    write_made(alloc, &input, writer, config, form)
}

/// The same in the form `Page`, for a program that prints the page alone.
pub fn run<R: Read, W: Write>(
    alloc: Global,
    reader: &mut R,
    writer: &mut W,
    config: Config,
) -> Result<(), RunError>
    ensures written { OnOk result ((input left : List ℕ)
        × GivesAll (R.remaining reader.old) (R.remaining reader.new) input
        × Writes config Page input left (W.contents writer.old) (W.contents writer.new)) }
    ensures accepts { OnOk result (IsConsistent config) }
    ensures whole { IfErr result (λ e. ComesAfterReading e → (input : List ℕ)
        × GivesAll (R.remaining reader.old) (R.remaining reader.new) input
        × IsRefusedOn config input e) }
    ensures unwritten { IfErr result (λ e. e ≢ RunError.WriteFault → writer.new ≡ writer.old) }
    ensures too_long { IsErrOf result RunError.InputTooLong
        → GivesTooMuch (R.remaining reader.old) (R.remaining reader.new) }
{
    convert(alloc, reader, writer, config, Form::Page)?;
    Ok(())
}

/// As `convert`, within the limits given as overridden by the first bytes of the input, as `smith_swarm::swarm_limits`
/// defines. The component is made of the bytes after them.
pub fn convert_swarm<R: Read, W: Write>(
    alloc: Global,
    reader: &mut R,
    writer: &mut W,
    config: Config,
    form: Form,
) -> Result<usize, RunError>
    ensures written { IfOk result (λ count. (input left : List ℕ) × (count ≡ length left)
        × GivesAll (R.remaining reader.old) (R.remaining reader.new) input × IsConsistent (swarmed config input)
        × Writes (swarmed config input) form (after_front input) left (W.contents writer.old) (W.contents writer.new)) }
    ensures whole { IfErr result (λ e. ComesAfterReading e → (input : List ℕ)
        × GivesAll (R.remaining reader.old) (R.remaining reader.new) input
        × IsRefusedOn (swarmed config input) (after_front input) e) }
    ensures unwritten { IfErr result (λ e. e ≢ RunError.WriteFault → writer.new ≡ writer.old) }
    ensures too_long { IsErrOf result RunError.InputTooLong
        → GivesTooMuch (R.remaining reader.old) (R.remaining reader.new) }
{
    let input = read_input(alloc, reader)?;
    let swarm = swarm_limits(&config, &input);
    write_made(alloc, &input[swarm.taken..], writer, swarm.config, form)
}
