//! Tests of lock tables, counts of explicit locks and lists of offsets, over the public calls of `tdb_locks`: worked
//! examples of the lock table, and each call on its happy path.

use crate::rows::{Row, failing};
use std::alloc::Global;
use tdb_locks::{Held, Kind, Len, LockRefusal, Locks, Piece, Spots};

/// A call of a lock table, with its answer.
enum Ask {
    /// An owner wants a range, from a byte on, of at most 100 bytes or to the end.
    Lock(u32, u64, Len, Kind, Result<(), LockRefusal>),
    /// It lets so many bytes go.
    Unlock(u32, u64, u64),
    /// It lets go of all.
    Drop(u32),
    /// It holds a byte so.
    Holds(u32, u64, Option<Kind>),
    /// There are so many pieces.
    Count(u32),
    /// The piece at a place.
    Piece(u32, Piece),
}

/// Whether a call is answered so.
fn goes(locks: &mut Locks, ask: &Ask) -> bool {
    match ask {
        Ask::Lock(owner, start, Len::Bytes(count), kind, answer)
            if *start <= 1000 && 0 < *count && *count <= 100 => {
            locks.try_lock(*owner, *start, Len::Bytes(*count), *kind) == *answer
        }
        Ask::Lock(owner, start, Len::ToEnd, kind, answer) if *start <= 1000 => {
            locks.try_lock(*owner, *start, Len::ToEnd, *kind) == *answer
        }
        Ask::Unlock(owner, start, count) if *start <= 1000 && 0 < *count && *count <= 100 => {
            locks.unlock(*owner, *start, Len::Bytes(*count)).is_ok()
        }
        Ask::Drop(owner) => {
            locks.drop_owner(*owner);
            true
        }
        Ask::Holds(owner, byte, kind) => locks.kind_of(*owner, *byte) == *kind,
        Ask::Count(count) => locks.piece_count() == *count && locks.piece(*count).is_none(),
        Ask::Piece(at, piece) => locks.piece(*at) == Some(*piece),
        _ => false,
    }
}

/// Calls of one table, one after the other.
struct Asks(&'static [Ask]);

static ASKS: [(&'static str, Asks); 12] = [
    (
        "an unlock in the middle",
        Asks(&[
            Ask::Lock(1, 200, Len::Bytes(100), Kind::Write, Ok(())),
            Ask::Unlock(1, 240, 10),
            Ask::Count(2),
            Ask::Piece(
                0,
                Piece {
                    owner: 1,
                    start: 200,
                    end: 240,
                    kind: Kind::Write,
                },
            ),
            Ask::Piece(
                1,
                Piece {
                    owner: 1,
                    start: 250,
                    end: 300,
                    kind: Kind::Write,
                },
            ),
            Ask::Holds(1, 239, Some(Kind::Write)),
            Ask::Holds(1, 245, None),
            Ask::Holds(1, 250, Some(Kind::Write)),
            Ask::Lock(2, 245, Len::Bytes(1), Kind::Write, Ok(())),
            Ask::Holds(2, 245, Some(Kind::Write)),
        ]),
    ),
    // An owner replaces its own locks.
    (
        "own locks",
        Asks(&[
            Ask::Lock(1, 200, Len::Bytes(100), Kind::Read, Ok(())),
            Ask::Lock(1, 250, Len::Bytes(10), Kind::Write, Ok(())),
            Ask::Holds(1, 249, Some(Kind::Read)),
            Ask::Holds(1, 250, Some(Kind::Write)),
            Ask::Holds(1, 259, Some(Kind::Write)),
            Ask::Holds(1, 260, Some(Kind::Read)),
            Ask::Count(3),
            Ask::Lock(1, 168, Len::ToEnd, Kind::Read, Ok(())),
            Ask::Count(1),
            Ask::Drop(1),
            Ask::Count(0),
        ]),
    ),
    // Of three owners that stand in the way the one at the least byte is named, and there the least.
    (
        "the least byte and owner",
        Asks(&[
            Ask::Lock(4, 900, Len::Bytes(1), Kind::Read, Ok(())),
            Ask::Lock(3, 900, Len::Bytes(1), Kind::Read, Ok(())),
            Ask::Lock(2, 950, Len::Bytes(1), Kind::Write, Ok(())),
            Ask::Lock(1, 168, Len::ToEnd, Kind::Write, Err(LEAST)),
        ]),
    ),
    // Owner 2 wants bytes beside those of owner 1, over and in them.
    (
        "a read beside a read",
        Asks(&[
            Ask::Lock(1, 200, Len::Bytes(100), Kind::Read, Ok(())),
            Ask::Lock(2, 250, Len::Bytes(100), Kind::Read, Ok(())),
        ]),
    ),
    (
        "a write over a read",
        Asks(&[
            Ask::Lock(1, 200, Len::Bytes(100), Kind::Read, Ok(())),
            Ask::Lock(
                2,
                250,
                Len::Bytes(100),
                Kind::Write,
                Err(LockRefusal::Conflict {
                    owner: 1,
                    byte: 250,
                    kind: Kind::Read,
                }),
            ),
        ]),
    ),
    (
        "a read over a write",
        Asks(&[
            Ask::Lock(1, 200, Len::Bytes(100), Kind::Write, Ok(())),
            Ask::Lock(
                2,
                250,
                Len::Bytes(100),
                Kind::Read,
                Err(LockRefusal::Conflict {
                    owner: 1,
                    byte: 250,
                    kind: Kind::Write,
                }),
            ),
        ]),
    ),
    (
        "a write over a write",
        Asks(&[
            Ask::Lock(1, 200, Len::Bytes(100), Kind::Write, Ok(())),
            Ask::Lock(
                2,
                250,
                Len::Bytes(100),
                Kind::Write,
                Err(LockRefusal::Conflict {
                    owner: 1,
                    byte: 250,
                    kind: Kind::Write,
                }),
            ),
        ]),
    ),
    (
        "over the first byte",
        Asks(&[
            Ask::Lock(1, 200, Len::Bytes(100), Kind::Write, Ok(())),
            Ask::Lock(
                2,
                150,
                Len::Bytes(51),
                Kind::Write,
                Err(LockRefusal::Conflict {
                    owner: 1,
                    byte: 200,
                    kind: Kind::Write,
                }),
            ),
        ]),
    ),
    (
        "within",
        Asks(&[
            Ask::Lock(1, 200, Len::Bytes(100), Kind::Write, Ok(())),
            Ask::Lock(
                2,
                240,
                Len::Bytes(10),
                Kind::Write,
                Err(LockRefusal::Conflict {
                    owner: 1,
                    byte: 240,
                    kind: Kind::Write,
                }),
            ),
        ]),
    ),
    (
        "over the last byte",
        Asks(&[
            Ask::Lock(1, 200, Len::Bytes(100), Kind::Write, Ok(())),
            Ask::Lock(
                2,
                299,
                Len::Bytes(1),
                Kind::Write,
                Err(LockRefusal::Conflict {
                    owner: 1,
                    byte: 299,
                    kind: Kind::Write,
                }),
            ),
        ]),
    ),
    (
        "in front",
        Asks(&[
            Ask::Lock(1, 200, Len::Bytes(100), Kind::Write, Ok(())),
            Ask::Lock(2, 100, Len::Bytes(100), Kind::Write, Ok(())),
        ]),
    ),
    (
        "behind",
        Asks(&[
            Ask::Lock(1, 200, Len::Bytes(100), Kind::Write, Ok(())),
            Ask::Lock(2, 300, Len::Bytes(100), Kind::Write, Ok(())),
        ]),
    ),
];

/// How the third owner's lock of byte 900 is told to who wants to write it.
const LEAST: LockRefusal = LockRefusal::Conflict {
    owner: 3,
    byte: 900,
    kind: Kind::Read,
};

impl Row for Asks {
    fn holds(&self, rt: HostRuntime) -> Option<bool> {
        let mut locks = Locks::new(rt.alloc());
        for ask in self.0 {
            if !goes(&mut locks, ask) {
                return Some(false);
            }
        }
        Some(true)
    }
}

/// A call of counts of explicit locks, with its answer.
enum Count {
    /// A chain is held once more, or once less.
    Raise(u32),
    Lower(u32),
    SetAll(Option<(Kind, u32)>),
    /// So often a chain is held, all records, and all together.
    Chain(u32, u32),
    All(Option<(Kind, u32)>),
    Total(u64),
}

/// A call of a list of offsets, with its answer.
enum Spot {
    Push(u32),
    Remove(u32),
    /// The first entry becomes another one, in a list that has this offset.
    Set(u32, u32),
    Has(u32, bool),
}

/// Calls of counts or of a list, one after the other, or how a refusal is shown.
enum Listed {
    Counts(&'static [Count]),
    Offsets(&'static [Spot]),
    Text(LockRefusal, &'static str),
}

static LISTED: [(&'static str, Listed); 3] = [
    (
        "counts",
        Listed::Counts(&[
            Count::Raise(7),
            Count::Raise(7),
            Count::Raise(3),
            Count::SetAll(Some((Kind::Read, 4))),
            Count::Total(7),
            Count::Chain(7, 2),
            Count::Lower(7),
            Count::Total(6),
            Count::Chain(7, 1),
            Count::Lower(7),
            Count::Chain(7, 0),
            Count::All(Some((Kind::Read, 4))),
        ]),
    ),
    (
        "offsets",
        Listed::Offsets(&[
            Spot::Push(696),
            Spot::Push(696),
            Spot::Remove(696),
            Spot::Has(696, true),
            Spot::Set(696, 4032),
            Spot::Has(696, false),
            Spot::Remove(4032),
            Spot::Has(4032, false),
        ]),
    ),
    (
        "the text of a refusal",
        Listed::Text(LEAST, "owner 3 holds byte 900"),
    ),
];

/// Whether calls of counts are answered so.
fn are_counted(alloc: Global, calls: &[Count]) -> bool {
    let mut held = Held::new(alloc);
    for call in calls {
        let is_so = match call {
            Count::Raise(chain) => held.raise_chain(*chain).is_ok(),
            Count::Lower(chain) if held.chain_count(*chain) > 0 => {
                held.lower_chain(*chain);
                true
            }
            Count::Lower(_) => false,
            Count::SetAll(all) => {
                held.set_all(*all);
                true
            }
            Count::Chain(chain, count) => held.chain_count(*chain) == *count,
            Count::All(all) => held.all() == *all,
            Count::Total(total) => held.total() == *total,
        };
        if !is_so {
            return false;
        }
    }
    true
}

/// Whether calls of a list are answered so.
fn are_listed(alloc: Global, calls: &[Spot]) -> bool {
    let mut spots = Spots::new(alloc);
    for call in calls {
        let is_so = match call {
            Spot::Push(off) => spots.push(*off).is_ok(),
            Spot::Remove(off) => {
                spots.remove(*off);
                true
            }
            Spot::Set(old, new) if spots.has(*old) => {
                spots.set(0, *new);
                true
            }
            Spot::Set(_, _) => false,
            Spot::Has(off, has) => spots.has(*off) == *has,
        };
        if !is_so {
            return false;
        }
    }
    true
}

impl Row for Listed {
    fn holds(&self, rt: HostRuntime) -> Option<bool> {
        Some(match self {
            Listed::Counts(calls) => are_counted(rt.alloc(), calls),
            Listed::Offsets(calls) => are_listed(rt.alloc(), calls),
            Listed::Text(refusal, text) => refusal.to_string(rt.alloc()).ok()?.as_str() == *text,
        })
    }
}

#[test]
fn locks_are_held_and_let_go(rt: HostRuntime) {
    for (table, failing) in [
        ("lock tables", failing(rt, &ASKS)),
        ("counts, offsets and texts", failing(rt, &LISTED)),
    ] {
        assert_eq!(rt; failing, None, "{table}");
    }
}
