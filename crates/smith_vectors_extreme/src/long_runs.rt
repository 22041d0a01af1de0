//! Runs over inputs as long as they may be, and longer ones.

use smith_component::Config;
use smith_run::{LONGEST_INPUT, RunError, run};
use std::io;
use std::io::Read;
use std::test::Fail;

// Returns its bytes, at most that many a read, and counts its reads.
#[derive(Drop)]
struct Pieces<'a> {
    bytes: &'a [u8],
    most: usize,
    reads: usize,
}

impl Read for Pieces<'_> {
    fn read(&mut self, buf: &mut [u8]) -> io::Result<usize> {
        self.reads = self.reads.saturating_add(1);
        let room = self.most.min(buf.len());
        self.bytes.read(&mut buf[..room])
    }
}

// Returns one byte a read, never ends, and counts its reads.
#[derive(Drop)]
struct Endless {
    reads: usize,
}

impl Read for Endless {
    fn read(&mut self, buf: &mut [u8]) -> io::Result<usize> {
        self.reads = self.reads.saturating_add(1);
        Ok(buf.len().min(1))
    }
}

#[test]
fn the_longest_input_is_read_and_one_byte_more_is_too_long(rt: HostRuntime) -> Result<(), Fail> {
    let page = b"00 61 73 6d 0d 00 01 00\nleft 1048575\n".as_slice();
    let rows = [
        (LONGEST_INPUT, Ok(()), page),
        (1_048_577, Err(RunError::InputTooLong), b"".as_slice()),
    ];
    for (length, expected, written) in rows {
        let input = vec![in rt.alloc(); 0u8; length]?;
        for most in [usize::MAX, 1] {
            let mut reader = Pieces {
                bytes: &input,
                most,
                reads: 0,
            };
            let mut text = Vec::new(rt.alloc());
            let answer = run(rt.alloc(), &mut reader, &mut text, Config::default());
            assert_eq!(rt; answer, expected, "{most} bytes a read");
            assert_eq!(rt; text.as_slice(), written);
            assert!(rt; reader.reads <= 1_048_577);
        }
    }
    Ok(())
}

#[test]
fn an_endless_input_is_too_long(rt: HostRuntime) -> Result<(), Fail> {
    let mut reader = Endless { reads: 0 };
    let mut text = Vec::new(rt.alloc());
    let answer = run(rt.alloc(), &mut reader, &mut text, Config::default());
    assert_eq!(rt; answer, Err(RunError::InputTooLong));
    assert_eq!(rt; text.len(), 0);
    assert_eq!(rt; reader.reads, 1_048_577);
    Ok(())
}
