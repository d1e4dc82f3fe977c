//! Tests of hashes, headers, names of faults and byte strings, over the public calls of `tdb_words`: values from the
//! format and from files of the stock library, and what no clause says.

use crate::rows::{Row, failing};
use std::collections::HashMap;
use tdb_words::{
    Bytes, HashKind, HashRun, HeaderFault, Order, What, chain_of, hash_of, header_bytes, header_of,
    word_bytes,
};

const FOOD: [u8; 10] = *b"TDB file\n\0";

/// A hash, a key, what is known of it, and its chain of 131, where that is known.
struct Hash(HashKind, &'static [u8], u32, Option<u32>);

static HASHES: [(&'static str, Hash); 11] = [
    ("the food", Hash(HashKind::Old, &FOOD, 0xF67D_9F0D, None)),
    ("a", Hash(HashKind::Old, b"a", 0x094A_72E9, Some(7))),
    ("b", Hash(HashKind::Old, b"b", 0x4B10_C154, Some(70))),
    ("nothing", Hash(HashKind::Old, b"", 12345, None)),
    (
        "the magic in big order",
        Hash(HashKind::Old, &[0x26, 0x01, 0x19, 0x99], 0x566F_1E0F, None),
    ),
    (
        "the magic in little order",
        Hash(HashKind::Old, &[0x99, 0x19, 0x01, 0x26], 0x3AFE_F920, None),
    ),
    (
        "nothing, by Jenkins",
        Hash(HashKind::Jenkins, b"", 0xDEAD_BEEF, None),
    ),
    (
        "thirty bytes, by Jenkins",
        Hash(
            HashKind::Jenkins,
            b"Four score and seven years ago",
            0x1777_0551,
            None,
        ),
    ),
    (
        "the food, by Jenkins",
        Hash(HashKind::Jenkins, &FOOD, 0xD7B6_94E5, None),
    ),
    (
        "the magic in big order, by Jenkins",
        Hash(
            HashKind::Jenkins,
            &[0x26, 0x01, 0x19, 0x99],
            0x123C_1283,
            None,
        ),
    ),
    (
        "twelve bytes, by Jenkins",
        Hash(HashKind::Jenkins, b"twelve bytes", 0x597B_94CE, None),
    ),
];

impl Row for Hash {
    // The key has the hash whole and cut at each place.
    fn holds(&self, _rt: HostRuntime) -> Option<bool> {
        let key = self.1;
        if key.len() >= 1000 || hash_of(self.0, key) != self.2 {
            return Some(false);
        }
        for at in 0..=key.len() {
            let mut run = HashRun::new(self.0, key.len() as u32);
            run.feed(&key[..at]);
            run.feed(&key[at..]);
            if run.end() != self.2 {
                return Some(false);
            }
        }
        let chain = chain_of(self.2, 131);
        Some(chain == self.3.unwrap_or(chain))
    }
}

/// The byte order and the hash of a file, and the bytes of its header from the version on.
struct Front(Order, HashKind, [u8; 28]);

// Of two files of the stock library.
static FRONTS: [(&'static str, Front); 2] = [
    (
        "a header in little order",
        Front(
            Order::Little,
            HashKind::Old,
            [
                0x6D, 0x19, 0x01, 0x26, 0x83, 0, 0, 0, 0, 0, 0, 0, 0, 0, 0, 0, 0, 0, 0, 0, 0x0D,
                0x9F, 0x7D, 0xF6, 0x20, 0xF9, 0xFE, 0x3A,
            ],
        ),
    ),
    (
        "a header in big order",
        Front(
            Order::Big,
            HashKind::Jenkins,
            [
                0x26, 0x01, 0x19, 0x6D, 0, 0, 0, 0x83, 0x0B, 0xAD, 0x1A, 0x51, 0, 0, 0, 0, 0, 0, 0,
                0, 0xD7, 0xB6, 0x94, 0xE5, 0x12, 0x3C, 0x12, 0x83,
            ],
        ),
    ),
];

impl Row for Front {
    fn holds(&self, _rt: HostRuntime) -> Option<bool> {
        let bytes = header_bytes(131, self.0, self.1);
        Some(
            bytes[..10] == FOOD[..]
                && bytes[10..32] == [0; 22][..]
                && bytes[32..60] == self.2[..]
                && bytes[60..] == [0; 108][..],
        )
    }
}

/// A fault of a header, its place in the order in which they are told, its name, and the words that make it: one, and
/// another one at 60, or 0.
struct Fault(HeaderFault, usize, &'static str, (u8, u32), u32);

static FAULTS: [(&'static str, Fault); 6] = [
    ("NotTdb", Fault(HeaderFault::NotTdb, 0, "NotTdb", (0, 0), 0)),
    (
        "Version",
        Fault(HeaderFault::Version, 1, "Version", (32, 0x2601_1967), 0),
    ),
    (
        "OldLocks",
        Fault(HeaderFault::OldLocks, 2, "OldLocks", (40, 1), 0),
    ),
    (
        "Mutexes",
        Fault(HeaderFault::Mutexes, 3, "Mutexes", (40, 0x0BAD_1A52), 1),
    ),
    (
        "UnknownHash",
        Fault(HeaderFault::UnknownHash, 4, "UnknownHash", (52, 1), 0),
    ),
    (
        "NoBuckets",
        Fault(HeaderFault::NoBuckets, 5, "NoBuckets", (36, 0), 0),
    ),
];

impl Fault {
    /// Writes what makes the fault into a header.
    fn spoil(&self, bytes: &mut [u8; 168], order: Order) {
        let (at, word) = self.3;
        let at = at as usize;
        if at <= 56 {
            bytes[at..at + 4].copy_from_slice(&word_bytes(word, order));
        }
        if self.4 != 0 {
            bytes[60..64].copy_from_slice(&word_bytes(self.4, order));
        }
    }

    /// Whether it is told in front of itself and each that stands behind it.
    fn is_told_first(&self, order: Order) -> bool {
        for i in self.1..6 {
            let mut bytes = header_bytes(131, order, HashKind::Jenkins);
            FAULTS[i].1.spoil(&mut bytes, order);
            self.spoil(&mut bytes, order);
            if header_of(&bytes) != Err(self.0) {
                return false;
            }
        }
        true
    }
}

impl Row for Fault {
    fn holds(&self, rt: HostRuntime) -> Option<bool> {
        let is_first = self.is_told_first(Order::Little) && self.is_told_first(Order::Big);
        Some(is_first && self.0.to_string(rt.alloc()).ok()?.as_str() == self.2)
    }
}

/// What is wrong with a file, and its name.
struct Text(What, &'static str);

static WHATS: [(&'static str, Text); 14] = [
    ("Short", Text(What::Short, "Short")),
    ("Header", Text(What::Header, "Header")),
    ("AreaBad", Text(What::AreaBad, "AreaBad")),
    ("UndoBad", Text(What::UndoBad, "UndoBad")),
    ("ChainOut", Text(What::ChainOut, "ChainOut")),
    ("ChainLoop", Text(What::ChainLoop, "ChainLoop")),
    ("BadRecord", Text(What::BadRecord, "BadRecord")),
    ("Tailer", Text(What::Tailer, "Tailer")),
    ("WrongHash", Text(What::WrongHash, "WrongHash")),
    ("TwiceKey", Text(What::TwiceKey, "TwiceKey")),
    ("FreeOut", Text(What::FreeOut, "FreeOut")),
    ("FreeLoop", Text(What::FreeLoop, "FreeLoop")),
    ("Overlap", Text(What::Overlap, "Overlap")),
    ("Stray", Text(What::Stray, "Stray")),
];

impl Row for Text {
    fn holds(&self, rt: HostRuntime) -> Option<bool> {
        Some(self.0.to_string(rt.alloc()).ok()?.as_str() == self.1)
    }
}

/// Bytes that are pushed to a byte string.
struct Pushed(&'static [u8]);

static PUSHED: [(&'static str, Pushed); 1] = [("byte strings and a map of them", Pushed(b"c"))];

impl Row for Pushed {
    // A longer string comes later, and the empty one comes first.
    fn holds(&self, rt: HostRuntime) -> Option<bool> {
        let alloc = rt.alloc();
        let mut bytes = Bytes::copy(alloc, b"ab").ok()?;
        let shorter = Bytes::copy(alloc, bytes.as_slice()).ok()?;
        bytes.push_all(self.0).ok()?;
        let same = Bytes::from(bytes.as_slice().to_vec(alloc).ok()?);
        let is_pushed = bytes.as_slice() == b"abc".as_slice() && same == bytes;
        let is_sorted = shorter < bytes && Bytes::new(alloc) < shorter;
        let mut places = HashMap::new(alloc);
        places.insert(bytes, 7).ok()?;
        let is_found = places.get(&same).copied() == Some(7) && places.get(&shorter).is_none();
        Some(is_pushed && is_sorted && is_found && same.into_vec().as_slice() == b"abc".as_slice())
    }
}

#[test]
fn words_are_those_of_the_format(rt: HostRuntime) {
    for (table, failing) in [
        ("hashes", failing(rt, &HASHES)),
        ("headers", failing(rt, &FRONTS)),
        ("faults of headers", failing(rt, &FAULTS)),
        ("faults of files", failing(rt, &WHATS)),
        ("byte strings", failing(rt, &PUSHED)),
    ] {
        assert_eq!(rt; failing, None, "{table}");
    }
}
