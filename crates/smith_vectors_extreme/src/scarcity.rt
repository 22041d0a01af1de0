//! Memory that runs out.
//!
//! A test takes all the memory that its process may have, and lends a little more of it to each try of a call, so that
//! its first allocation fails, then a later one, until there is enough. What the allocator keeps between its own blocks
//! is lent at each try and can't be taken away.

use smith_input::Error;
use std::alloc::{AllocError, Global};
use std::process::Abort;
use std::test::Fail;

// How many loans there are: the last is of all but 16 bytes of a block.
const LOANS: usize = 1024;

// What a loan is cut from, in bytes: more than any of the calls takes.
const BLOCK: usize = 16_384;

// What a loan has more than the one before, in bytes.
const STEP: usize = 16;

// How many blocks are taken at most.
const MOST: usize = 1_000_000;

// All memory except what is lent.
#[derive(Drop)]
struct Scarcity {
    alloc: Global,
    taken: Vec<Vec<u8>>,
    kept: Vec<Vec<u8>>,
    room: usize,
}

// A block for each loan.
fn blocks(alloc: Global) -> Result<Vec<Vec<u8>>, AllocError> {
    let mut kept = Vec::with_capacity(alloc, LOANS)?;
    for _ in 0..LOANS {
        kept.push(Vec::with_capacity(alloc, BLOCK)?)?;
    }
    Ok(kept)
}

impl Scarcity {
    // Takes all memory. The first loan is of nothing.
    fn new(alloc: Global) -> Result<Scarcity, AllocError> {
        let mut memory = Scarcity {
            alloc,
            kept: blocks(alloc)?,
            taken: Vec::with_capacity(alloc, MOST)?,
            room: 0,
        };
        for exponent in 0..33u32 {
            memory.take(1usize << (46 - exponent), MOST);
        }
        memory.take_small();
        Ok(memory)
    }

    // Takes blocks of this size until there are that many or one is refused.
    fn take(&mut self, size: usize, many: usize) {
        for _ in 0..many {
            let Ok(block) = Vec::with_capacity(self.alloc, size) else {
                return;
            };
            if self.taken.push(block).is_err() {
                return;
            }
        }
    }

    // Takes the small blocks that are free, of each size.
    fn take_small(&mut self) {
        self.take(8192, MOST);
        self.take(4096, MOST);
        self.take(2048, MOST);
        for steps in 0..128usize {
            self.take(2048 - STEP * steps, MOST);
        }
    }

    // Takes back what is free, and lends 16 bytes more than before, including the bytes with which the allocator keeps
    // account of a block.
    fn lend(&mut self) {
        self.take_small();
        drop(self.kept.pop());
        self.take(BLOCK.saturating_sub(self.room), 1);
        self.room = self.room.saturating_add(STEP);
    }
}

/// What the call returns when there is memory for it, and how many tries before were refused with `OutOfMemory`, one at
/// least. The call has to check what a refusal leaves.
pub fn while_memory_runs_out<R: Abort + AllocGlobal, T, F: FnMut() -> Result<T, Error>>(
    rt: &R,
    name: &str,
    mut call: F,
) -> Result<(T, usize), Fail>
    requires { F.IsAlwaysCallable call }
{
    let mut memory = Scarcity::new(rt.alloc())?;
    for refused in 0..LOANS {
        memory.lend();
        match call() {
            Ok(answer) => {
                assert!(rt; 0 < refused, "{name}");
                return Ok((answer, refused));
            }
            Err(error) => assert_eq!(rt; error, Error::OutOfMemory, "{name}"),
        }
    }
    panic!(rt; "{name}: there is never enough memory")
}
