//! Random bytes over which no turn but the last ones finishes the root.

ghost use Rattle.std.specs.Prelude.{◌≡◌, ◌≤◌, ◌<◌, length, vec_len, IfOk, IfErr};
ghost use Rattle.smith_component.specs.Refusals.{IsNewRefusal};

use rand_core::Rng;
use rand_pcg::Pcg32;
use smith_component::{Builder, Item, Step};
use smith_format::Config;
use smith_input::{Error, Unstructured};
use std::alloc::Global;

/// How often a byte is changed at most. One in six bytes, or fewer, finishes a component.
const CHANGES: u32 = 64;

// Does a turn over these bytes finish the root?
fn finishes_root(builder: &Builder, bytes: &[u8]) -> bool {
    builder.depth() == 1 && builder.next_item(&mut Unstructured::new(bytes)) == Item::Finish
}

// Changes the first of the bytes while a turn over them would finish the root.
fn keep_open(builder: &Builder, random: &mut Pcg32, bytes: &mut [u8])
    requires { 0 < length bytes.old }
{
    for _ in 0..CHANGES {
        if !finishes_root(builder, bytes) {
            return;
        }
        random.fill_bytes(&mut bytes[..1]);
    }
}

// A turn that does not finish the root, and how many of the bytes it leaves. The first byte may be changed for that.
fn turn(builder: Builder, random: &mut Pcg32, bytes: &mut [u8]) -> Result<(Step, usize), Error>
    requires { 0 < length bytes.old }
    ensures { IfOk result (λ r. r.1 ≤ length bytes.old) }
{
    keep_open(&builder, random, bytes);
    let mut left = Unstructured::new(bytes);
    let step = builder.step(&mut left)?;
    Ok((step, left.left().len()))
}

// Changes bytes so that the root is not finished before their end, up to a turn that is refused.
fn keep_all_open(mut builder: Builder, random: &mut Pcg32, bytes: &mut [u8]) {
    let len = bytes.len();
    let mut left = len;
    for _ in 0..len {
        if left == 0 {
            return;
        }
        let Ok((step, less)) = turn(builder, random, &mut bytes[len - left..]) else {
            return;
        };
        left = less;
        match step {
            Step::StillBuilding(next) => builder = next,
            Step::Finished(_) => return,
        }
    }
}

/// That many random bytes, changed so that a run over them keeps the root open.
pub(crate) fn drawn(
    alloc: Global,
    config: &Config,
    random: &mut Pcg32,
    len: usize,
) -> Result<Vec<u8>, Error>
    ensures long { IfOk result (λ bytes. vec_len bytes ≡ len) }
    ensures refuses { IfErr result (IsNewRefusal config.now) }
{
    let builder = Builder::new(alloc, *config)?;
    let mut bytes = vec![in alloc; 0u8; len]?;
    random.fill_bytes(&mut bytes);
    keep_all_open(builder, random, &mut bytes);
    Ok(bytes)
}
