// Views that a transaction gives of a file in memory, and transactions within one.

use crate::rows::Row;
use std::alloc::Global;
use tdb_disk::{Call, MemDisk};
use tdb_space::{Io, Space};
use tdb_txn::{OverlayOn, Txn, TxnRefusal};
use tdb_words::{HashKind, Header, Order};

const HEADER: Header = Header {
    order: Order::Big,
    hash: HashKind::Jenkins,
    hash_size: 7,
    recovery_start: 0,
    sequence: 0,
};

/// A call on a view, and what it has to answer. A read gives these bytes where it isn't answered by an error.
enum Look {
    Grow(u64),
    Write(u64, &'static [u8], Result<(), Io>),
    Word(u64, [u8; 4]),
    Read(u64, &'static [u8], Result<(), Io>),
    /// The form of the header, and this length.
    Form(u64),
}

/// Makes a call on a view that has room for a write, and says whether it goes so.
fn goes<S: Space>(view: &mut S, look: &Look) -> Option<bool> {
    let len = view.len().ok()?;
    view.ready(1, 16).ok()?;
    Some(match look {
        Look::Grow(to) if len <= *to && *to - len <= 4096 => view.grow(*to) == Ok(()),
        Look::Write(at, bytes, answer)
            if bytes.len() <= 16 && *at <= len && len - *at >= bytes.len() as u64 => {
            view.write(*at, *bytes) == *answer
        }
        Look::Word(at, word) if *at % 4 == 0 && *at <= len && len - *at >= 4 => {
            view.write_word(*at, *word) == Ok(())
        }
        Look::Read(at, bytes, answer)
            if bytes.len() <= 12 && *at <= len && len - *at >= bytes.len() as u64 => {
            let mut got = [0; 12];
            let told = view.read(*at, &mut got[..bytes.len()]);
            told == *answer && (told.is_err() || &got[..bytes.len()] == *bytes)
        }
        Look::Form(want) => {
            len == *want
                && view.order() == HEADER.order
                && view.hash() == HEADER.hash
                && view.hash_size() == HEADER.hash_size
        }
        _ => false,
    })
}

/// A file of so many bytes, of which these reads fail. What is called on a view in turn; then how many pages the
/// transaction has, and how many bytes of the disk were read, where that is known. No call reaches the file.
pub(crate) struct View {
    len: usize,
    fails: &'static [u64],
    looks: &'static [Look],
    left: Option<(usize, u64)>,
}

pub(crate) static VIEWS: [(&'static str, View); 2] = [
    (
        "a file that is longer than two pages",
        View {
            len: 9000,
            fails: &[],
            looks: &[
                Look::Grow(13_000),
                // In two pages, at the end of the file, and behind it.
                Look::Write(4_090, b"1234567890", Ok(())),
                Look::Word(8_996, *b"word"),
                Look::Write(12_998, b"!?", Ok(())),
                Look::Read(4_089, b"Z1234567890Z", Ok(())),
                Look::Read(8_995, b"Zword\0\0\0", Ok(())),
                Look::Read(12_997, b"\0!?", Ok(())),
                Look::Read(10, b"ZZZZ", Ok(())),
                Look::Form(13_000),
            ],
            left: Some((4, 9_000)),
        },
    ),
    (
        "a file of which the second read and the third fail",
        View {
            len: 8200,
            fails: &[1, 2],
            looks: &[
                // It has to read two pages.
                Look::Write(4_090, b"1234567890", Err(Io)),
                Look::Read(4_094, b"56ZZZZZZ", Err(Io)),
                Look::Read(4_094, b"56ZZZZZZ", Ok(())),
                Look::Write(4_096, b"789", Ok(())),
                Look::Read(4_094, b"56789ZZZ", Ok(())),
            ],
            left: None,
        },
    ),
];

impl Row for View {
    fn holds(&self, alloc: Global) -> Option<bool> {
        let bytes = vec![in alloc; 0x5Au8; self.len].ok()?;
        let mut disk = MemDisk::new(alloc, &bytes).ok()?;
        for nth in self.fails {
            disk.fail(Call::Read, *nth).ok()?;
        }
        let mut txn = Txn::start(alloc, &mut disk, &HEADER).ok()?;
        let mut is_so = (txn.pages(), disk.syncs(), disk.bytes_read()) == (0, 1, 0);
        let mut view = OverlayOn::new(&mut txn, &mut disk);
        for look in self.looks {
            is_so = is_so && goes(&mut view, look)?;
        }
        let found = (txn.pages(), disk.bytes_read());
        let is_left = disk.as_slice() == bytes.as_slice() && found == self.left.unwrap_or(found);
        disk.fail(Call::Sync, 1).ok()?;
        let is_told = Txn::start(alloc, &mut disk, &HEADER).err() == Some(TxnRefusal::Io);
        Some(is_so && is_left && is_told)
    }
}

/// How a transaction within one begins or ends.
enum Inner {
    Start,
    Commit,
    Cancel,
}

/// Transactions within one that begin or end one after the other: how many are open then, and whether the whole can't
/// be committed.
pub(crate) struct Nested(&'static [(Inner, u32, bool)]);

pub(crate) static NESTED: [(&'static str, Nested); 1] = [(
    "a commit and a cancel within",
    Nested(&[
        (Inner::Start, 1, false),
        (Inner::Start, 2, false),
        (Inner::Commit, 1, false),
        (Inner::Cancel, 0, true),
    ]),
)];

impl Row for Nested {
    fn holds(&self, alloc: Global) -> Option<bool> {
        let mut disk = MemDisk::new(alloc, b"").ok()?;
        let mut txn = Txn::start(alloc, &mut disk, &HEADER).ok()?;
        for (inner, depth, doomed) in self.0 {
            match inner {
                Inner::Start if txn.depth() < u32::MAX => txn.nest(),
                Inner::Commit if txn.depth() > 0 => txn.inner_commit(),
                Inner::Cancel if txn.depth() > 0 => txn.inner_cancel(),
                _ => return Some(false),
            }
            if txn.depth() != *depth || txn.doomed() != *doomed {
                return Some(false);
            }
        }
        Some(true)
    }
}
