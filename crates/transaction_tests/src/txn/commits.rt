// Commits on a small file in memory, one after the other: what each answers and leaves.

ghost use Rattle.std.specs.Prelude.{◌≡◌};
ghost use Rattle.tdb_txn.specs.CommitStates.{planned_plan, plan_length};

use crate::files::{LIMIT, changed, file_of, put_words, stored};
use crate::rows::Row;
use small_file::{RECORD, Word};
use std::alloc::Global;
use tdb_disk::{Disk, MemDisk};
use tdb_space::Io;
use tdb_txn::{Planned, ToCommit, TxnRefusal};
use tdb_words::{FREE, Order, word_bytes};

/// Brings a plan into its file.
fn bring<D: Disk>(planned: Planned, d: &mut D) -> Result<(), Io>
    requires { D.size d.old ≡ plan_length (planned_plan planned) }
{
    planned
        .fill(d)?
        .open_gate(d)?
        .apply(d)?
        .settle(d)?
        .finish(d)
}

/// Writes bytes at an offset of a file of `len` bytes, which may get `limit` bytes, in a transaction, and commits that.
/// True where it is done, and a refusal where its plan or a later step is refused.
pub(crate) fn change<D: Disk>(
    alloc: Global,
    d: &mut D,
    limit: u64,
    len: u64,
    at: u64,
    bytes: &[u8],
) -> Result<bool, TxnRefusal> {
    let Some(txn) = changed(alloc, d, limit, len, at, bytes) else {
        return Ok(false);
    };
    match txn.plan(d, limit)? {
        ToCommit::Ready(planned) => {
            bring(planned, d)?;
            Ok(true)
        }
        ToCommit::Nothing => Ok(false),
    }
}

/// What a commit leaves: a file of the small one's record with other words, the file as it was, or one of so many bytes
/// with these words.
enum Left {
    File(usize, &'static [Word]),
    Before,
    Longer(usize, &'static [Word]),
}

/// A commit of bytes that are written at an offset of a file of `len` bytes, which may get `limit` bytes. The words
/// that were written to the file before. What the commit is answered: true where it is done, false where nothing is to
/// be committed. What it leaves, and how many syncs were made so far, where they are counted.
pub(crate) struct Step {
    adds: &'static [Word],
    limit: u64,
    len: u64,
    at: u64,
    bytes: &'static [u8],
    answer: Result<bool, TxnRefusal>,
    left: Left,
    syncs: Option<u64>,
}

/// A commit that places a first undo area. Of its syncs one is that of the start.
const FIRST: Step = Step {
    adds: &[],
    limit: LIMIT,
    len: 4096,
    at: 4089,
    bytes: b"9",
    answer: Ok(true),
    left: Left::File(8192, &PLACED),
    syncs: Some(1 + 7),
};

/// The new value, and the undo area at 4096: its room, the old length, the length of the content, the entry with the
/// old value, and the last word.
const PLACED: [Word; 9] = [
    (44, 4096),
    (4088, 0x4242_3961),
    (4100, 4072),
    (4104, 4096),
    (4108, 13),
    (4120, 4089),
    (4124, 1),
    (4128, 0x0010_0031),
    (4132, 0),
];

/// The one after it, which keeps that area.
const SECOND: Step = Step {
    len: 8192,
    bytes: b"8",
    left: Left::File(8192, &KEPT),
    syncs: Some(8 + 1 + 4),
    ..FIRST
};

const KEPT: [Word; 9] = [
    (44, 4096),
    (4088, 0x4242_3861),
    (4100, 4072),
    (4104, 8192),
    (4108, 13),
    (4120, 4089),
    (4124, 1),
    (4128, 0x0010_0039),
    (4132, 0),
];

/// What the third one writes, which is too long for that area.
const LONG: [u8; 5000] = [b'y'; 5000];

/// A free record that makes the file longer, and is the first of its list then.
const FREED: [Word; 5] = [
    (168, 8192),
    (8192, 696),
    (8196, 8168),
    (8212, FREE),
    (16_380, 8192),
];

/// The third one, which replaces that area: it goes to the free list with the free record behind it.
const THIRD: Step = Step {
    adds: &FREED,
    limit: 24_576,
    len: 16_384,
    at: 8216,
    bytes: &LONG,
    answer: Ok(true),
    left: Left::Longer(24_576, &REPLACED),
    syncs: Some(13 + 1 + 9),
};

/// The word that leads to the area, the head of the free list, and the free record there: its next, its length, its
/// magic, what the old area kept, what was written, and its tailer. The area's room, the old length in it, the length
/// of its content, and its gate.
const REPLACED: [Word; 12] = [
    (44, 16_384),
    (168, 4096),
    (4096, 696),
    (4100, 12_264),
    (4116, FREE),
    (4120, 0),
    (8216, 0x7979_7979),
    (16_380, 12_288),
    (16_388, 8168),
    (16_392, 16_384),
    (16_396, 5056),
    (16_404, 0),
];

/// A commit that has no room for its undo area changes nothing.
const FULL_FIRST: Step = Step {
    answer: Err(TxnRefusal::Full {
        len: 4096,
        need: 4096,
    }),
    left: Left::Before,
    syncs: None,
    ..FIRST
};

/// A commit that has no room for a longer area changes nothing.
const FULL_THIRD: Step = Step {
    answer: Err(TxnRefusal::Full {
        len: 16_384,
        need: 8192,
    }),
    left: Left::Before,
    syncs: None,
    ..THIRD
};

/// Commits one after the other, from the small file on.
pub(crate) struct Commits(&'static [Step]);

pub(crate) static COMMITS: [(&'static str, Commits); 7] = [
    (
        "an area that is placed, kept and replaced",
        Commits(&[FIRST, SECOND, THIRD]),
    ),
    // A transaction that wrote what was there leaves nothing to commit.
    (
        "a value that the file has",
        Commits(&[Step {
            bytes: b"1",
            answer: Ok(false),
            left: Left::Before,
            syncs: Some(1),
            ..FIRST
        }]),
    ),
    // A commit that wants a first undo area, or a longer one, is full one byte below the length that the file gets with
    // it.
    (
        "no room behind the file",
        Commits(&[Step {
            limit: 4096,
            ..FULL_FIRST
        }]),
    ),
    (
        "room but for one byte",
        Commits(&[Step {
            limit: 8191,
            ..FULL_FIRST
        }]),
    ),
    (
        "room for a first area, and for no more",
        Commits(&[
            Step {
                limit: 8192,
                syncs: None,
                ..FIRST
            },
            Step {
                limit: 8192,
                syncs: None,
                ..SECOND
            },
        ]),
    ),
    (
        "no room for a longer area",
        Commits(&[
            FIRST,
            SECOND,
            Step {
                limit: 16_384,
                ..FULL_THIRD
            },
        ]),
    ),
    (
        "room for a longer area but for one byte",
        Commits(&[
            FIRST,
            SECOND,
            Step {
                limit: 24_575,
                ..FULL_THIRD
            },
        ]),
    ),
];

impl Step {
    /// Writes the words that come first, in a file that gets long enough for them.
    fn add(&self, disk: &mut MemDisk) -> Option<()> {
        let len = disk.len().ok()?;
        if len < self.len && !self.adds.is_empty() {
            disk.grow(self.len).ok()?;
        }
        for (at, word) in self.adds {
            let at = *at as u64;
            let len = disk.len().ok()?;
            if at <= len && len - at >= 4 {
                disk.write(at, &word_bytes(*word, Order::Little)).ok()?;
            }
        }
        Some(())
    }

    /// Takes the step, and says whether it goes so.
    fn goes(&self, alloc: Global, disk: &mut MemDisk) -> Option<bool> {
        self.add(disk)?;
        let before = Vec::from_slice(alloc, disk.as_slice()).ok()?;
        let answer = change(alloc, disk, self.limit, self.len, self.at, self.bytes);
        let want = match &self.left {
            Left::File(len, words) => file_of(alloc, Order::Little, 131, *len, &RECORD, *words)?,
            Left::Before => before,
            Left::Longer(len, words) => {
                let mut want = Vec::from_slice(alloc, disk.as_slice()).ok()?;
                want.resize(*len, 0).ok()?;
                put_words(&mut want, Order::Little, *words);
                want
            }
        };
        let syncs = self.syncs.unwrap_or(disk.syncs());
        let is_left = disk.as_slice() == want.as_slice();
        Some(answer == self.answer && is_left && syncs == disk.syncs())
    }
}

impl Row for Commits {
    fn holds(&self, alloc: Global) -> Option<bool> {
        let mut disk = stored(alloc)?;
        for step in self.0 {
            if !step.goes(alloc, &mut disk)? {
                return Some(false);
            }
        }
        Some(true)
    }
}
