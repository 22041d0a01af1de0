//! The run of a filter: within the default limits, in the form of a page.

ghost use Rattle.std.specs.Prelude.{◌≡◌, ◌⊎◌, ℕ, List};
ghost use Rattle.smith_format.specs.Consistency.{IsDefault};
ghost use Rattle.smith_run.specs.Running.{GivesAll, Writes, status_of_answer};
ghost use Rattle.smith_run.specs.declared.running.Form.TheVariants.{Page};

use crate::running::{RunError, run};
use smith_component::Config;
use std::alloc::Global;
use std::io::{Read, Write};

/// Reports how a run ended: if it failed, the name of the refusal or the fault is a line of `errors`. Returns the
/// status that the program ends with, 0 if the component is written. A failed write of the name is ignored, since the
/// status says enough.
pub fn report<E: Write>(errors: &mut E, answer: Result<(), RunError>) -> u8
    ensures { result ≡ status_of_answer answer }
{
    match answer {
        Ok(()) => 0,
        Err(error) => {
            let _ = writeln!(errors, "{error}");
            error.status()
        }
    }
}

/// A run within the default limits, in the form `Page`, whose end is reported to `errors`.
///
/// Returns the status that the program ends with: 0 if the page is written, 1 for a refusal, after which the writer is
/// as it was, and 2 for a fault.
pub fn convert_by_default<R: Read, W: Write, E: Write>(
    alloc: Global,
    reader: &mut R,
    writer: &mut W,
    errors: &mut E,
) -> u8
    ensures written { result ≡ 0 → (config : Config) × IsDefault config × ((input left : List ℕ)
        × GivesAll (R.remaining reader.old) (R.remaining reader.new) input
        × Writes config Page input left (W.contents writer.old) (W.contents writer.new)) }
    ensures unwritten { result ≡ 1 → writer.new ≡ writer.old }
    ensures statuses { (result ≡ 0) ⊎ (result ≡ 1) ⊎ (result ≡ 2) }
{
    let answer = run(alloc, reader, writer, Config::default());
    report(errors, answer)
}
