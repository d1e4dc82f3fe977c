// Calls on the disk that fail.

use crate::files::stored;
use crate::owner::plays::{Commands, Course, Word, byte_at, play};
use crate::rows::Row;
use crate::told::{Told, is_told};
use std::alloc::Global;
use tdb_disk::Call;
use tdb_locks::{Reply, Turn};
use tdb_space::Io;

/// How a Start, a Store and a Commit end where the call of this kind with this number fails, and the value then. None
/// where an opener is left.
fn end_with_fault(alloc: Global, call: Call, nth: u64) -> Option<(Course, u8)> {
    let mut disk = stored(alloc)?;
    disk.fail(call, nth).ok()?;
    let commands = Commands {
        numbered: false,
        words: &[Word::Store(b'2'), Word::Commit],
        most: 9,
        from: usize::MAX,
        moments: &[],
    };
    let (course, left) = play(alloc, &mut disk, &commands)?;
    match left {
        Some(holder) => {
            holder.end();
            None
        }
        None => Some((course, byte_at(&disk, 4089))),
    }
}

/// The number of a sync that fails: how many turns there are, what the last of them is told, and the value then. No
/// opener is left.
pub(crate) struct Sync(u64, usize, Told, u8);

// Each sync in turn: that of the Start, three of the plan, and those of the turns that fill, open the gate, sync what
// was written, and shut the gate. The turn in which it fails is told so. The value is the old one up to the turn that
// writes.
pub(crate) static SYNCS: [(&'static str, Sync); 9] = [
    ("the sync of the start", Sync(0, 3, Told::Io, b'1')),
    ("the first sync of the plan", Sync(1, 7, Told::Io, b'1')),
    ("the second sync of the plan", Sync(2, 7, Told::Io, b'1')),
    ("the third sync of the plan", Sync(3, 7, Told::Io, b'1')),
    ("the sync of what is filled in", Sync(4, 8, Told::Io, b'1')),
    ("the sync of the open gate", Sync(5, 9, Told::Io, b'1')),
    ("the sync of what is written", Sync(6, 11, Told::Io, b'2')),
    ("the sync of the shut gate", Sync(7, 12, Told::Io, b'2')),
    ("no further sync", Sync(8, 13, Told::Done, b'2')),
];

impl Row for Sync {
    fn holds(&self, alloc: Global) -> Option<bool> {
        let (course, value) = end_with_fault(alloc, Call::Sync, self.0)?;
        Some(course.count == self.1 && is_told(&self.2, &course.last) && value == self.3)
    }
}

/// A kind of call: each that fails, at most 98, ends a Start, a Store and a Commit, and there are some.
pub(crate) struct Calls(Call);

pub(crate) static CALLS: [(&'static str, Calls); 5] = [
    ("lengths", Calls(Call::Len)),
    ("reads", Calls(Call::Read)),
    ("writes", Calls(Call::Write)),
    ("words", Calls(Call::WriteWord)),
    ("growths", Calls(Call::Grow)),
];

impl Row for Calls {
    fn holds(&self, alloc: Global) -> Option<bool> {
        for nth in 0..99 {
            let (course, _) = end_with_fault(alloc, self.0, nth)?;
            if course.last != Err(Io) {
                let is_done = matches!(&course.last, Ok(Turn::Done(Reply::Ok)));
                return Some(nth > 0 && course.count == 13 && is_done);
            }
        }
        Some(false)
    }
}
