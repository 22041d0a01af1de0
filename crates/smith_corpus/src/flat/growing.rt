//! An input that grows by random bytes, as long as what it produces has enough that is rare.

use crate::breaking::number_below;
use crate::flat::counts::{Reached, WORTH_OF_NEW, combinations_of};
use rand_core::Rng;
use rand_pcg::Pcg32;
use smith_component::{Builder, Item, Step, generate};
use smith_format::Config;
use smith_input::{Error, Unstructured};
use smith_script_types::{NONE_COUNTED, say_among};
use smith_tree::{Turn, turn_items};
use std::alloc::{AllocError, Global};

/// How often an input is tried with more bytes.
const TRIES: u32 = 64;

/// How many bytes are added at most.
const MOST_ADDED: usize = 64;

/// What a byte costs: a new combination is worth so many.
const COST: usize = WORTH_OF_NEW / 64;

/// How many primitive types, from the first one on, flatten to i32.
const I32_TYPES: u8 = 7;

/// How many turns are made at most.
const MOST_TURNS: u32 = 10_000;

// What there is, unless it is refused. A refusal for want of memory stays one.
fn if_any<T: Drop>(outcome: Result<T, Error>) -> Result<Option<T>, AllocError> {
    match outcome {
        Ok(value) => Ok(Some(value)),
        Err(Error::OutOfMemory) => Err(AllocError),
        Err(_) => Ok(None),
    }
}

// A turn of the root after so many sections, in which it has that item and makes these choices.
fn say_turn(
    input: &mut Vec<u8>,
    config: &Config,
    sections: usize,
    item: Item,
    choices: &[u8],
) -> Result<(), Error> {
    let turn = Turn { depth: 0, sections };
    say_among(input, turn_items(config, turn, NONE_COUNTED), &item)?;
    input.extend_from_slice(choices)?;
    Ok(())
}

// Turns with a function type of a parameter and a result, an import of a function of it, a lower of that, a lift of the
// lower, to another type most often, and an export of the lift. If other limits allow less, other choices are made.
fn say_lift(input: &mut Vec<u8>, config: &Config, random: &mut Pcg32) -> Result<(), Error> {
    let mut types = [0; 4];
    random.fill_bytes(&mut types);
    let [parameter, outcome, lifted_parameter, lifted_outcome] = types;
    let parameter = parameter % I32_TYPES;
    let outcome = outcome % I32_TYPES;
    let types = [1, 1, 1, 0, parameter, 0, 1, outcome, 0];
    let canonicals = [1, 1, 1, 0, lifted_parameter, lifted_outcome, 0];
    say_turn(input, config, 0, Item::Types, &types)?;
    say_turn(input, config, 1, Item::Imports, &[1, 0, 0, 0])?;
    say_turn(input, config, 2, Item::Canonical, &canonicals)?;
    if config.max_exports == 0 {
        return Ok(());
    }
    say_turn(input, config, 5, Item::Exports, &[1, 1, 0, 0])
}

// An input that has nothing, or a lift.
fn begun(alloc: Global, config: &Config, random: &mut Pcg32) -> Result<Vec<u8>, Error> {
    let mut input = Vec::new(alloc);
    if number_below(random, 2) == 0 {
        say_lift(&mut input, config, random)?;
    }
    Ok(input)
}

// Adds random bytes to an input.
fn add_bytes(input: &mut Vec<u8>, random: &mut Pcg32) -> Result<(), AllocError> {
    let mut bytes = [0; MOST_ADDED];
    random.fill_bytes(&mut bytes);
    let count = number_below(random, MOST_ADDED).saturating_add(1);
    input.extend_from_slice(&bytes[..count.min(MOST_ADDED)])?;
    Ok(())
}

// What the component is worth that an input produces.
fn worth_of(
    alloc: Global,
    config: &Config,
    input: &[u8],
    reached: &Reached,
) -> Result<usize, AllocError> {
    let made = generate(alloc, *config, &mut Unstructured::new(input));
    match if_any(made)? {
        Some(generated) => Ok(reached.worth(&combinations_of(alloc, &generated.bytes)?)),
        None => Ok(0),
    }
}

/// An input to which random bytes are added if that is worth what they cost.
pub(crate) fn grown(
    alloc: Global,
    config: &Config,
    random: &mut Pcg32,
    reached: &Reached,
) -> Result<Option<Vec<u8>>, AllocError> {
    let Some(mut input) = if_any(begun(alloc, config, random))? else {
        return Ok(None);
    };
    let mut worth = worth_of(alloc, config, &input, reached)?;
    for _ in 0..TRIES {
        let len = input.len();
        add_bytes(&mut input, random)?;
        let cost = input.len().saturating_sub(len).saturating_mul(COST);
        let more = worth_of(alloc, config, &input, reached)?;
        if more > worth.saturating_add(cost) {
            worth = more;
        } else {
            input.truncate(len);
        }
    }
    Ok(Some(input))
}

// A turn over the input. After its end, the inner component is finished if it may be, and otherwise has a section
// without types.
fn turn(builder: Builder, left: &mut Unstructured) -> Result<Step, Error> {
    if !left.is_empty() {
        return builder.step(left);
    }
    let first = builder.next_item(&mut Unstructured::new(&[0]));
    if first == Item::Finish {
        return builder.step(&mut Unstructured::new(&[0]));
    }
    builder.step(&mut Unstructured::new(&[2, 0]))
}

// The same, up to the end of the root.
fn turns(alloc: Global, config: &Config, input: &[u8]) -> Result<Option<Vec<u8>>, Error> {
    let mut builder = Builder::new(alloc, *config)?;
    let mut left = Unstructured::new(input);
    for _ in 0..MOST_TURNS {
        match turn(builder, &mut left)? {
            Step::StillBuilding(next) => builder = next,
            Step::Finished(component) => return Ok(Some(component.to_bytes(alloc)?)),
        }
    }
    Ok(None)
}

/// The bytes of the component that an input begins, in which each component has the sections that it must have.
pub(crate) fn component_of(
    alloc: Global,
    config: &Config,
    input: &[u8],
) -> Result<Option<Vec<u8>>, AllocError> {
    Ok(if_any(turns(alloc, config, input))?.flatten())
}
