//! Choices, loops and texts as a script spells them.

ghost use Rattle.std.specs.Prelude.{◌≡◌, ◌≤◌, ◌∷◌, [], ◌+◌, IfErr, IfOk};
ghost use Rattle.smith_input.specs.Script.{big_endian, code, pick, rank_of, script_among, script_bytes};
ghost use Rattle.smith_input.specs.Script.{script_characters, script_end, script_more, script_text, width_within};
ghost use Rattle.smith_input.specs.Offers.{offers_of};
ghost use Rattle.smith_input.specs.declared.error.Error.TheVariants.{OutOfMemory};
ghost use Rattle.smith_script_types.specs.Says.{Says};

use smith_input::{Error, MAX_CUSTOM_NAME_LEN};
use std::alloc::Global;

pub fn say_byte(out: &mut Vec<u8>, value: u8) -> Result<(), Error>
    ensures { Says result out.old out.new (value ∷ []) }
{
    out.push(value)?;
    Ok(())
}

pub fn say_raw(out: &mut Vec<u8>, contents: &[u8]) -> Result<(), Error>
    ensures { Says result out.old out.new contents.now }
{
    out.extend_from_slice(contents)?;
    Ok(())
}

// How many bytes distinguish n things, at most that many.
fn width_within(most: u32, n: u64) -> u32
    ensures width { result ≡ width_within most n }
    ensures few { result ≤ most }
{
    if most == 0 || n <= 1 {
        return 0;
    }
    width_within(most - 1, n.div_ceil(256)) + 1
}

// A number in that many bytes, the most significant first.
fn say_big_endian(out: &mut Vec<u8>, width: u32, k: u64) -> Result<(), Error>
    requires { width ≤ 8 }
    ensures { Says result out.old out.new (big_endian width k) }
{
    if width == 0 {
        return Ok(());
    }
    let unit = 256u64.pow(width - 1);
    let Ok(first) = u8::try_from(k / unit) else {
        return Err(Error::TooLong);
    };
    say_byte(out, first)?;
    say_big_endian(out, width - 1, k % unit)
}

// A number in one byte.
fn say_one_byte(out: &mut Vec<u8>, k: u64) -> Result<(), Error>
    ensures { Says result out.old out.new (big_endian 1 k) }
{
    let Ok(only) = u8::try_from(k) else {
        return Err(Error::TooLong);
    };
    say_byte(out, only)
}

/// A choice of k among n.
#[tactic(auto, using(crate::proofs::Saying::saying, crate::proofs::Picking::pick_is))]
pub fn say_choice(out: &mut Vec<u8>, n: usize, k: usize) -> Result<(), Error>
    ensures { Says result out.old out.new (pick n k) }
{
    let width = width_within(8, n as u64);
    // (nearly all choices are among at most 256)
    if width == 1 {
        return say_one_byte(out, k as u64);
    }
    say_big_endian(out, width, k as u64)
}

// The place of the first item that is equal to that one, or how many there are.
fn place_of<T: PartialEq>(items: &[T], item: &T) -> usize
    ensures { result ≡ rank_of T.eq items.now item.now }
{
    for place in 0..items.len() {
        if items[place] == *item {
            return place;
        }
    }
    items.len()
}

/// A choice of an item among these.
pub fn say_among<T: PartialEq>(out: &mut Vec<u8>, items: &[T], item: &T) -> Result<(), Error>
    ensures { Says result out.old out.new (script_among T.eq items.now item.now) }
{
    say_choice(out, items.len(), place_of(items, item))
}

// The items that are offered.
fn offered<T: Copy>(alloc: Global, offers: &[(bool, T)]) -> Result<Vec<T>, Error>
    ensures list { IfOk result (λ v. v.items ≡ offers_of offers.now) }
    ensures memory { IfErr result (λ e. e ≡ OutOfMemory) }
{
    let mut items = Vec::new(alloc);
    for offer in offers {
        if offer.0 {
            items.push(offer.1)?;
        }
    }
    Ok(items)
}

/// A choice of an item among the offered ones.
pub fn say_offered<T: Copy + PartialEq>(
    alloc: Global,
    out: &mut Vec<u8>,
    offers: &[(bool, T)],
    item: T,
) -> Result<(), Error>
    ensures { Says result out.old out.new (script_among T.eq (offers_of offers.now) item) }
{
    let items = offered(alloc, offers)?;
    say_among(out, &items, &item)
}

/// That a loop makes another turn, when it might end.
pub fn say_more(out: &mut Vec<u8>, min: usize, done: usize) -> Result<(), Error>
    ensures { Says result out.old out.new (script_more min done) }
{
    if done < min {
        return Ok(());
    }
    say_byte(out, 1)
}

/// That a loop ends, when it might make another turn.
pub fn say_end(out: &mut Vec<u8>, done: usize, max: usize) -> Result<(), Error>
    ensures { Says result out.old out.new (script_end done max) }
{
    if done < max {
        return say_byte(out, 0);
    }
    Ok(())
}

// The choice that produces a character of a name.
fn code(character: u8) -> usize
    ensures { result ≡ code character }
{
    match character {
        97.. => usize::from(character) - 97,
        48.. => usize::from(character) - 48 + 26,
        _ => 36,
    }
}

/// The characters of a name in kebab case.
#[tactic(auto, using(crate::proofs::Saying::saying, crate::proofs::Picking::characters_at))]
pub(crate) fn say_characters(out: &mut Vec<u8>, name: &[u8]) -> Result<(), Error>
    ensures { Says result out.old out.new (script_characters name.now) }
{
    for character in name {
        say_choice(out, 37, code(*character))?;
    }
    Ok(())
}

/// A text of at most that many bytes, as the reader reads it.
pub(crate) fn say_text_within(out: &mut Vec<u8>, most: usize, text: &[u8]) -> Result<(), Error>
    requires { most ≤ 1000 }
    ensures { Says result out.old out.new (script_text most text.now) }
{
    say_choice(out, most + 1, text.len())?;
    say_raw(out, text)
}

/// The name of a custom section.
pub fn say_text(out: &mut Vec<u8>, name: &str) -> Result<(), Error>
    ensures { Says result out.old out.new (script_text 1000 name.now) }
{
    say_text_within(out, MAX_CUSTOM_NAME_LEN, name.as_bytes())
}

/// The contents of a custom section.
pub fn say_contents(out: &mut Vec<u8>, contents: &[u8]) -> Result<(), Error>
    ensures { Says result out.old out.new (script_bytes contents.now) }
{
    for byte in contents {
        say_raw(out, &[1, *byte])?;
    }
    say_byte(out, 0)
}
