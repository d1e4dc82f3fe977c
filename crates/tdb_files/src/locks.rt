//! The lock by which runs of this program keep off each other's files: that of the system on a whole open file.

use crate::reason::Reason;
use std::fs::{File, TryLockError};
use std::rt::Clock;
use std::thread;
use std::time::Duration;

/// What a lock lets other runs of this program do. Programs that don't ask for such a lock, as those of the stock
/// library, aren't held up by it.
#[derive(Clone, Copy, Debug, PartialEq, Eq)]
pub(crate) enum LockKind {
    /// Others may read the file too.
    Shared,
    /// Nobody else may use the file.
    Exclusive,
}

/// The first pauses between two tries, in milliseconds.
const FIRST_PAUSES: [u64; 5] = [1, 2, 4, 10, 33];

/// The pause between two later tries, in milliseconds.
const PAUSE: u64 = 50;

/// The later tries of a second.
const TRIES: u64 = 20;

/// The pause before the try with this number, counted from 0.
fn pause_before(turn: u64) -> Duration {
    let first = FIRST_PAUSES.get(turn as usize);
    Duration::from_millis(first.copied().unwrap_or(PAUSE))
}

/// Locks a file until it is closed. Where another open of the file has a lock that forbids it, it is tried again for
/// about so many seconds, with pauses that grow to 50 ms. Costs one call of the system a try.
pub(crate) fn lock(
    rt: &impl Clock,
    file: &File,
    kind: LockKind,
    seconds: u32,
) -> Result<(), Reason> {
    for turn in 0..u64::from(seconds) * TRIES {
        match try_lock(file, kind) {
            Err(Reason::InUse) => thread::sleep(rt, pause_before(turn)),
            answer => return answer,
        }
    }
    try_lock(file, kind)
}

/// Locks a file where no other open of it has a lock that forbids it.
pub(crate) fn try_lock(file: &File, kind: LockKind) -> Result<(), Reason> {
    let locked = match kind {
        LockKind::Shared => file.try_lock_shared(),
        LockKind::Exclusive => file.try_lock(),
    };
    match locked {
        Ok(()) => Ok(()),
        Err(TryLockError::WouldBlock) => Err(Reason::InUse),
        Err(TryLockError::Error(error)) => Err(Reason::from(error)),
    }
}
