//! Worked examples as a table: reads rows on standard input, and prints them with what is generated, read or written
//! from their bytes. What is printed is compared with expected values that were written by hand.
#![tactic(auto)]

mod answers;
mod bytes;
mod components;
mod generations;
mod plans;
mod rows;
mod texts;

use std::io;

fn main(rt: HostRuntime) -> io::Result<()> {
    let table = io::read_to_string(rt.alloc(), rt.stdin())?;
    let answered = rows::answered(rt.alloc(), &table)?;
    print!(rt; "{}", answered.as_str())
}
