//! Runs of a filter: what no clause says of their results, their messages, and faults of readers and writers.

use smith_component::{Config, Error};
use smith_run::RunError::{InputTooLong, ReadFault, Refused, WriteFault};
use smith_run::{convert_by_default, report, run};
use std::alloc::Global;
use std::io;
use std::io::{ErrorKind, Read, Write};
use std::test::Fail;

// Counts a call, which fails from number `fails_at` on. The first is number 1.
fn count(calls: &mut usize, fails_at: usize) -> io::Result<()> {
    *calls = calls.saturating_add(1);
    if *calls >= fails_at {
        return Err(io::Error::from(ErrorKind::Other));
    }
    Ok(())
}

// Returns its bytes, at most three a read, and fails from read number `fails_at` on.
#[derive(Drop)]
struct Pieces<'a> {
    bytes: &'a [u8],
    fails_at: usize,
    reads: usize,
}

impl Read for Pieces<'_> {
    fn read(&mut self, buf: &mut [u8]) -> io::Result<usize> {
        count(&mut self.reads, self.fails_at)?;
        let room = buf.len().min(3);
        self.bytes.read(&mut buf[..room])
    }
}

// Takes at most four bytes a write, and fails from call number `fails_at` on, a flush being a call too.
#[derive(Drop)]
struct Sheet {
    text: Vec<u8>,
    fails_at: usize,
    calls: usize,
}

impl Sheet {
    fn new(alloc: Global, fails_at: usize) -> Sheet {
        Sheet {
            fails_at,
            calls: 0,
            text: Vec::new(alloc),
        }
    }
}

impl Write for Sheet {
    fn write(&mut self, buf: &[u8]) -> io::Result<usize> {
        count(&mut self.calls, self.fails_at)?;
        let room = buf.len().min(4);
        self.text.extend_from_slice(&buf[..room])?;
        Ok(room)
    }

    fn flush(&mut self) -> io::Result<()> {
        count(&mut self.calls, self.fails_at)
    }
}

const DEFINED_TYPE: &[u8] = &[3, 1, 0, 0, 6, 0, 0, 255];

// The page is what is after a `*` that the writer held before. Within limits that do not fit together there is none.
#[test]
fn a_page_is_written(rt: HostRuntime) -> Result<(), Fail> {
    let unfit = Config {
        min_types: 11,
        max_types: 10,
        ..Config::default()
    };
    let empty: &[u8] = b"*00 61 73 6d 0d 00 01 00\nleft 0\n";
    let page: &[u8] = b"*00 61 73 6d 0d 00 01 00 07 02 01 79\nleft 1\n";
    let rows: [(&[u8], Config, Option<&[u8]>); 4] = [
        (b"", Config::default(), Some(empty)),
        (DEFINED_TYPE, Config::default(), Some(page)),
        (b"", unfit, None),
        (DEFINED_TYPE, unfit, None),
    ];
    for (input, config, page) in rows {
        let mut reader = input;
        let mut text = Vec::from_slice(rt.alloc(), b"*")?;
        let answer = run(rt.alloc(), &mut reader, &mut text, config);
        let expected = match page {
            Some(_) => Ok(()),
            None => Err(Refused(Error::InconsistentLimits)),
        };
        assert_eq!(rt; answer, expected);
        assert_eq!(rt; text.as_slice(), page.unwrap_or(b"*"));
    }
    Ok(())
}

#[test]
fn a_failed_read_is_a_read_fault(rt: HostRuntime) -> Result<(), Fail> {
    for fails_at in [1, 2, 3] {
        let mut reader = Pieces {
            bytes: DEFINED_TYPE,
            fails_at,
            reads: 0,
        };
        let mut text = Vec::from_slice(rt.alloc(), b"*")?;
        let answer = run(rt.alloc(), &mut reader, &mut text, Config::default());
        assert_eq!(rt; answer, Err(ReadFault), "at read {fails_at}");
        assert_eq!(rt; text.as_slice(), b"*".as_slice());
        assert_eq!(rt; reader.reads, fails_at);
    }
    Ok(())
}

#[test]
fn a_failed_write_is_a_write_fault(rt: HostRuntime) -> Result<(), Fail> {
    let mut whole = Sheet::new(rt.alloc(), usize::MAX);
    let mut reader = DEFINED_TYPE;
    let answer = run(rt.alloc(), &mut reader, &mut whole, Config::default());
    assert_eq!(rt; answer, Ok(()));
    assert!(rt; whole.calls > 4);
    for done in 0..whole.calls {
        let fails_at = done + 1;
        let mut sheet = Sheet::new(rt.alloc(), fails_at);
        let mut reader = DEFINED_TYPE;
        let answer = run(rt.alloc(), &mut reader, &mut sheet, Config::default());
        assert_eq!(rt; answer, Err(WriteFault), "at call {fails_at}");
        assert!(rt; whole.text.starts_with(&sheet.text));
    }
    Ok(())
}

#[test]
fn each_fault_has_its_line_and_its_status(rt: HostRuntime) -> Result<(), Fail> {
    let unfit = Refused(Error::InconsistentLimits);
    let rows = [
        (unfit, "InconsistentLimits\n", 1),
        (Refused(Error::MinimumNotMet), "MinimumNotMet\n", 1),
        (Refused(Error::ModuleRefused), "ModuleRefused\n", 1),
        (Refused(Error::TooLong), "TooLong\n", 1),
        (Refused(Error::OutOfMemory), "OutOfMemory\n", 1),
        (Refused(Error::PartsDisagree), "PartsDisagree\n", 1),
        (ReadFault, "ReadFault\n", 2),
        (InputTooLong, "InputTooLong\n", 2),
        (WriteFault, "WriteFault\n", 2),
    ];
    for (error, line, status) in rows {
        let mut errors = Vec::new(rt.alloc());
        assert_eq!(rt; report(&mut errors, Err(error)), status, "{line}");
        assert_eq!(rt; errors.as_slice(), line.as_bytes());
    }
    let mut none = Vec::new(rt.alloc());
    assert_eq!(rt; report(&mut none, Ok(())), 0);
    assert!(rt; none.is_empty());
    let mut failing = Sheet::new(rt.alloc(), 1);
    assert_eq!(rt; report(&mut failing, Err(ReadFault)), 2);
    Ok(())
}

// Core module (6) is the component section if no module may be; 8 is finish if no export may be.
#[test]
fn the_filter_runs_within_the_default_limits(rt: HostRuntime) -> Result<(), Fail> {
    let empty: &[u8] = b"00 61 73 6d 0d 00 01 00\nleft 1\n";
    let module: &[u8] = b"00 61 73 6d 0d 00 01 00 01 08 00 61 73 6d 01 00 00 00\nleft 0\n";
    // An input, at which read it fails, the status, the page, and the line of the errors.
    let rows: [(&[u8], usize, u8, &[u8], &[u8]); 3] = [
        (b"\x06", usize::MAX, 0, module, b""),
        (b"\x08\x06", usize::MAX, 0, empty, b""),
        (DEFINED_TYPE, 1, 2, b"", b"ReadFault\n"),
    ];
    for (bytes, fails_at, expected, page, line) in rows {
        let mut reader = Pieces {
            bytes,
            fails_at,
            reads: 0,
        };
        let mut text = Vec::new(rt.alloc());
        let mut errors = Vec::new(rt.alloc());
        let status = convert_by_default(rt.alloc(), &mut reader, &mut text, &mut errors);
        assert_eq!(rt; status, expected);
        assert_eq!(rt; text.as_slice(), page);
        assert_eq!(rt; errors.as_slice(), line);
    }
    Ok(())
}
