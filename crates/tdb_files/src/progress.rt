//! How far a long piece of work has come, for a person at a terminal.

use std::io::IsTerminal;
use std::time::{Duration, Instant};

/// For how long nothing is shown, in milliseconds.
const PATIENCE: u64 = 1000;

/// How long a line stands before the next, in milliseconds.
const PAUSE: u64 = 200;

/// How many bytes pass before the clock is read again.
const STRIDE: u64 = 1 << 20;

/// What passes.
#[derive(Clone, Copy, Debug, PartialEq, Eq)]
pub enum Passing {
    /// Bytes that are read.
    Read,
    /// Bytes that are written.
    Written,
}

/// One line on standard error that says how many bytes were read or written. It is first written after a second, then
/// at most five times a second, each time over the one before, and it is cleared at the end. Each copy of it counts for
/// itself.
#[derive(Clone, Copy)]
pub struct Progress {
    rt: HostRuntime,
    start: Instant,

    /// When the line was written last.
    last: Option<Instant>,

    /// How many bytes have passed.
    bytes: u64,

    /// At how many bytes the clock is read next.
    next: u64,
}

impl Progress {
    /// Work that begins now. None where standard error is no terminal, or the clock fails.
    pub fn on_terminal(rt: HostRuntime) -> Option<Progress> {
        if !rt.stderr().is_terminal() {
            return None;
        }
        let start = Instant::now(&rt).ok()?;
        Some(Progress {
            rt,
            start,
            last: None,
            bytes: 0,
            next: STRIDE,
        })
    }

    /// Whether the line is to be written now.
    fn is_due(&self, now: Instant) -> bool {
        match self.last {
            None => now.duration_since(self.start) >= Duration::from_millis(PATIENCE),
            Some(last) => now.duration_since(last) >= Duration::from_millis(PAUSE),
        }
    }

    /// So many bytes more have passed. What can't be written is left out.
    pub(crate) fn pass(&mut self, passing: Passing, count: usize) {
        self.bytes = self.bytes.saturating_add(count as u64);
        if self.bytes < self.next {
            return;
        }
        self.next = self.bytes.saturating_add(STRIDE);
        let Ok(now) = Instant::now(&self.rt) else {
            return;
        };
        if self.is_due(now) {
            self.last = Some(now);
            self.show(passing);
        }
    }

    /// Writes the line over the one that stands there.
    fn show(&self, passing: Passing) {
        let mebibytes = self.bytes >> 20;
        let _ = match passing {
            Passing::Read => eprint!(self.rt; "\r\x1b[Ktdb: {mebibytes} MiB read"),
            Passing::Written => eprint!(self.rt; "\r\x1b[Ktdb: {mebibytes} MiB written"),
        };
    }

    /// Clears the line, where it may have been written.
    pub fn clear(&self) {
        let Ok(now) = Instant::now(&self.rt) else {
            return;
        };
        if now.duration_since(self.start) >= Duration::from_millis(PATIENCE) {
            let _ = eprint!(self.rt; "\r\x1b[K");
        }
    }
}
