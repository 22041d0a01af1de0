//! Answers to rows about inputs: what is generated from them, in each way that there is, and what is left of them.

use crate::bytes::Printed;
use smith_component::{
    Builder, Component, Config, Error, Generated as Made, Step, Unstructured, generate,
};
use smith_read::read;
use smith_verdict::{Validity, Verdict, check, validate};
use std::alloc::{AllocError, Global};
use std::fmt;

/// What was generated from an input, and the rest of the input.
#[derive(Drop)]
pub struct Generated {
    pub bytes: Result<Vec<u8>, Error>,
    left: Vec<u8>,
    // Whether all that is known of the component agrees.
    agrees: bool,
}

impl Generated {
    fn is(&self, bytes: &Result<Vec<u8>, Error>, left: &[u8]) -> bool {
        self.bytes == *bytes && self.left.as_slice() == left
    }
}

// Is it measured and read back as what was generated, and found well formed, and valid if it has to be?
fn is_right(alloc: Global, limits: &Config, made: &Made) -> Result<bool, AllocError> {
    let sections = made.component.sections().len();
    let is_read = matches!(&read(alloc, &made.bytes), Ok(tree) if tree.parts.len() == sections);
    let is_measured = made.component.measure() == Ok(made.bytes.len() as u128);
    let is_judged = if limits.must_validate {
        validate(alloc, &made.bytes)? == Validity::Valid
    } else {
        check(alloc, &made.bytes)? == Verdict::WellFormed
    };
    Ok(is_read && is_measured && is_judged)
}

fn generate_once(alloc: Global, limits: Config, input: &[u8]) -> Result<Generated, AllocError> {
    let mut u = Unstructured::new(input);
    let answer = generate(alloc, limits, &mut u);
    let left = Vec::from_slice(alloc, u.left())?;
    let agrees = match &answer {
        Ok(made) => is_right(alloc, &limits, made)?,
        Err(_) => true,
    };
    let bytes = match answer {
        Ok(made) => Ok(made.bytes),
        Err(error) => Err(error),
    };
    Ok(Generated {
        bytes,
        left,
        agrees,
    })
}

// A component that is written by itself.
fn written(alloc: Global, limits: Config, u: &mut Unstructured) -> Result<Vec<u8>, Error> {
    let component = if limits == Config::default() {
        Component::arbitrary(alloc, u)?
    } else {
        Component::new(alloc, limits, u)?
    };
    component.to_bytes(alloc)
}

// What a builder makes in at most as many turns as there are bytes and components may nest. A builder that needs more
// makes nothing.
fn built(alloc: Global, limits: Config, u: &mut Unstructured) -> Result<Vec<u8>, Error> {
    let depth = limits.max_nesting_depth.max(1);
    let most = u.left().len().saturating_add(depth);
    let mut builder = Builder::new(alloc, limits)?;
    for _ in 0..most {
        match builder.step(u)? {
            Step::StillBuilding(next) => builder = next,
            Step::Finished(component) => return component.to_bytes(alloc),
        }
    }
    Ok(Vec::new(alloc))
}

/// What is generated from an input. It has to be the same again, as a component that is written, and turn by turn.
pub fn generate_from(alloc: Global, limits: Config, input: &[u8]) -> Result<Generated, AllocError> {
    let mut generated = generate_once(alloc, limits, input)?;
    let again = generate_once(alloc, limits, input)?;
    let mut u = Unstructured::new(input);
    let written = written(alloc, limits, &mut u);
    let mut fresh = Unstructured::new(input);
    let built = built(alloc, limits, &mut fresh);
    let is_same = generated.is(&again.bytes, &again.left)
        && generated.is(&written, u.left())
        && generated.is(&built, fresh.left());
    generated.agrees = generated.agrees && is_same;
    Ok(generated)
}

impl fmt::Display for Generated {
    fn fmt<W: fmt::Write>(&self, f: &mut fmt::Formatter<W>) -> fmt::Result {
        match &self.bytes {
            Ok(bytes) => write!(f, "{}", Printed("bytes", bytes))?,
            Err(error) => writeln!(f, "= refused {error:?}")?,
        }
        write!(f, "{}", Printed("left", &self.left))?;
        if !self.agrees {
            f.write_str(
                "= not the same again, or measured or read back as something else, or not well formed\n",
            )?;
        }
        Ok(())
    }
}

/// Whether these bytes are generated, and what follows the input is left.
pub fn is_generated(
    alloc: Global,
    limits: Config,
    input: &[u8],
    rest: &[u8],
    bytes: &[u8],
) -> Result<bool, AllocError> {
    let mut whole = Vec::from_slice(alloc, input)?;
    whole.extend_from_slice(rest)?;
    let again = generate_from(alloc, limits, &whole)?;
    let is_same = matches!(&again.bytes, Ok(found) if found.as_slice() == bytes);
    Ok(is_same && again.agrees && again.left.as_slice() == rest)
}

/// What becomes of an input: how much of it is left, or whether a refusal leaves all of it.
pub fn outcome(alloc: Global, limits: Config, input: &[u8]) -> Result<String, AllocError> {
    let generated = generate_from(alloc, limits, input)?;
    let left = generated.left.len();
    match &generated.bytes {
        _ if !generated.agrees => format!(in alloc; "not the same again"),
        Ok(_) => format!(in alloc; "left {left}"),
        Err(error) if left == input.len() => format!(in alloc; "refused {error:?}, unread"),
        Err(error) => format!(in alloc; "refused {error:?}, left {left}"),
    }
}

// Whether a component is generated from that byte, each of these times.
fn is_repeated(alloc: Global, limits: Config, byte: u8, times: &[u8]) -> Result<bool, AllocError> {
    for many in times {
        let input = Vec::from_elem(alloc, byte, usize::from(*many))?;
        let generated = generate_from(alloc, limits, &input)?;
        if !generated.agrees || generated.bytes.is_err() {
            return Ok(false);
        }
    }
    Ok(true)
}

/// From how many of the 256 bytes a component is generated, each of these times.
pub fn repeated(alloc: Global, limits: Config, times: &[u8]) -> Result<String, AllocError> {
    let mut count = 0usize;
    for byte in 0..=255u8 {
        if is_repeated(alloc, limits, byte, times)? {
            count = count.saturating_add(1);
        }
    }
    format!(in alloc; "= {count} bytes\n")
}

/// What the component that is generated from an input holds.
pub fn held(alloc: Global, limits: Config, input: &[u8]) -> Result<String, AllocError> {
    match Component::new(alloc, limits, &mut Unstructured::new(input)) {
        Ok(component) => format!(in alloc; "= {component:?}\n"),
        Err(error) => format!(in alloc; "= refused {error:?}\n"),
    }
}
