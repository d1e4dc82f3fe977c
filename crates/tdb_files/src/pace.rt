//! When a file that is changed is looked at and noted, by the system's clock.

use std::rt::Clock;

/// A file is looked at before a change that begins so long after the last one began, in nanoseconds.
const PAUSE: u64 = 100_000;

/// So many changes without a pause between them are each noted.
const EACH_NOTED: u32 = 64;

/// After those a change is noted that ends so long after the last one that was noted began, in nanoseconds. With a tick
/// of the system's clock it is less than what a look allows for.
const NOTE_PAUSE: u64 = 5_000_000;

/// The time of a clock that never goes back, in nanoseconds; the last one that can be told where it can't be read.
fn now(clock: &impl Clock) -> u64 {
    match clock.monotonic() {
        Ok(time) => time
            .as_secs()
            .saturating_mul(1_000_000_000)
            .saturating_add(u64::from(time.subsec_nanos())),
        Err(_) => u64::MAX,
    }
}

/// How fast changes follow each other. Without a clock each one is looked for and noted.
#[derive(Clone, Copy)]
pub(crate) struct Pace {
    /// How many changes ended since the last pause.
    changes: u32,
    /// When the last change began.
    began: u64,
    /// From when on a pause came before a change.
    look_due: u64,
    /// From when on a change is noted, whatever came before it.
    note_due: u64,
}

impl Pace {
    /// That of a file without changes. The first one is behind a pause.
    pub(crate) fn new() -> Pace {
        Pace {
            changes: 0,
            began: 0,
            look_due: 0,
            note_due: 0,
        }
    }

    /// A change begins; tells whether a pause came before it, or the last one took long. Costs a reading of the clock.
    pub(crate) fn begin(&mut self, clock: &impl Clock) -> bool {
        let now = now(clock);
        let is_paused = now >= self.look_due;
        if is_paused {
            self.changes = 0;
        }
        self.began = now;
        self.look_due = now.saturating_add(PAUSE);
        is_paused
    }

    /// A change has ended; tells whether it is to be noted: it is one of the first after a pause, took long, or the
    /// last that was noted is long ago. Costs a reading of the clock, but for the first.
    pub(crate) fn end(&mut self, clock: &impl Clock) -> bool {
        self.changes = self.changes.saturating_add(1);
        self.changes <= EACH_NOTED || now(clock) >= self.note_due
    }

    /// The last change was noted.
    pub(crate) fn note(&mut self) {
        self.note_due = self.began.saturating_add(NOTE_PAUSE);
    }
}
