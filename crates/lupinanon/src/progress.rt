//! How far a command is that works on many files, on a terminal.

use std::io::IsTerminal;
use std::time::Instant;

// How many seconds there are to the first line, and from one to the next.
const PAUSE: u64 = 1;

/// A line of standard error that says how many of the files are done. There is none within the first second, and none
/// if standard error is not a terminal.
#[derive(Drop)]
pub struct Progress<'a> {
    rt: &'a HostRuntime,
    count: usize,
    done: usize,
    // When the line was written last, or when the work began.
    since: Option<Instant>,
    is_shown: bool,
}

impl<'a> Progress<'a> {
    /// The beginning of work on that many files.
    pub fn new(rt: &'a HostRuntime, count: usize) -> Progress<'a> {
        let since = if rt.stderr().is_terminal() {
            Instant::now(rt).ok()
        } else {
            None
        };
        Progress {
            rt,
            count,
            done: 0,
            since,
            is_shown: false,
        }
    }

    /// The same if each file has a line on standard output, which says enough if that is a terminal.
    pub fn beside_lines(rt: &'a HostRuntime, count: usize) -> Progress<'a> {
        let mut progress = Progress::new(rt, count);
        if rt.stdout().is_terminal() {
            progress.since = None;
        }
        progress
    }

    // Whether it is time for the line.
    fn is_due(&self) -> bool {
        match self.since {
            Some(since) => since
                .elapsed(self.rt)
                .is_ok_and(|passed| passed.as_secs() >= PAUSE),
            None => false,
        }
    }

    /// One more file is done. The cursor is left in front of the line, so that a message overwrites it.
    pub fn step(&mut self) {
        self.done = self.done.saturating_add(1);
        if self.is_due() {
            let (done, count) = (self.done, self.count);
            let _ = eprint!(self.rt; "\r{done} of {count}\r");
            self.since = Instant::now(self.rt).ok();
            self.is_shown = true;
        }
    }

    /// Erases the line.
    pub fn end(self) {
        if self.is_shown {
            let _ = eprint!(self.rt; "\x1b[K");
        }
    }
}
