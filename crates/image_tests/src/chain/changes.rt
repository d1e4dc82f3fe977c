//! Changes of a chain of three records in a small file in memory, word by word, in both byte orders.

ghost use Rattle.std.specs.Prelude.{◌≡◌};

use crate::chain::files::{Changed, HASH_OF_A, HASH_OF_B, NOTHING, header, image_of};
use crate::files::disk_of;
use std::alloc::{AllocError, Global};
use tdb_chain::{Place, find, link, mark_dead, purge, raise_seq, unlink, update_in_place};
use tdb_disk::{Call, MemDisk};
use tdb_space::{Direct, Hand, Io, Space, content_stands, read_rec};
use tdb_words::{DEAD, Order, USED};

/// What is done to the file. A new record has this key and this value, and so many bytes at 272 behind its header.
enum Change {
    Raise,
    PurgeFirst,
    Unlink(&'static [u8]),
    MarkDead(&'static [u8]),
    Update(&'static [u8]),
    Link(&'static [u8], &'static [u8], u32),
}

// Purges the first record, which is dead.
fn purge_first(s: &mut Direct<MemDisk>) -> Result<Option<Hand>, Io> {
    let len = s.len()?;
    if len < 208 {
        return Ok(None);
    }
    let rec = read_rec(s, 176)?;
    if !content_stands(rec.rec_len, 176, len) || rec.magic != DEAD {
        return Ok(None);
    }
    let place = Place {
        off: 176,
        before: 172,
        rec,
    };
    Ok(Some(purge(s, place)?))
}

// Changes the record of a key, which has at most one byte, or makes it.
fn change_key(s: &mut Direct<MemDisk>, key: &[u8], change: &Change) -> Result<Option<Hand>, Io>
    requires { s.old.header.hash_size ≡ 1 }
{
    if key.len() > 1 {
        return Ok(None);
    }
    let found = find(s, key)?;
    if let Change::Link(_, value, rec_len) = change {
        if value.len() > 3 || *rec_len < 8 || *rec_len % 4 != 0 {
            return Ok(None);
        }
        return link(s, Hand::new(272, *rec_len), key, value, found);
    }
    let Some(place) = found else {
        return Ok(None);
    };
    match change {
        Change::Unlink(_) => return Ok(Some(unlink(s, place)?)),
        Change::MarkDead(_) => mark_dead(s, &place)?,
        _ => {
            if place.rec.key_len == 1 && place.rec.rec_len == 8 {
                update_in_place(s, &place, b"23")?;
            }
        }
    }
    Ok(None)
}

// Makes a change of the file, and answers the hand that it gives, as its offset and its length.
fn make(disk: &mut MemDisk, order: Order, change: &Change) -> Result<Option<(u32, u32)>, Io> {
    let mut s = Direct::new(disk, &header(order));
    let given = match change {
        Change::Raise => {
            raise_seq(&mut s)?;
            None
        }
        Change::PurgeFirst => purge_first(&mut s)?,
        Change::Unlink(key)
        | Change::MarkDead(key)
        | Change::Update(key)
        | Change::Link(key, _, _) => change_key(&mut s, key, change)?,
    };
    let Some(hand) = given else {
        return Ok(None);
    };
    let told = (hand.off(), hand.rec_len());
    hand.end();
    Ok(Some(told))
}

/// A change of the file in so many bytes, the call that fails in it, the hand that it gives, and what it leaves, where
/// that is looked at.
struct Done {
    change: Change,
    len: usize,
    failing: Option<(Call, u64)>,
    given: Result<Option<(u32, u32)>, Io>,
    left: Option<Changed>,
}

/// A change that gives nothing and leaves the file as it is.
const RAISED: Done = Done {
    change: Change::Raise,
    len: 312,
    failing: None,
    given: Ok(None),
    left: Some(NOTHING),
};

/// A piece of a record of more than 4096 bytes that isn't written.
const PIECE: Done = Done {
    change: Change::Link(b"b", b"xyz", 8212),
    len: 8508,
    failing: Some((Call::Write, 0)),
    given: Err(Io),
    left: None,
};

static CHANGES: [(&'static str, Done); 24] = [
    (
        "the sequence number is raised",
        Done {
            left: Some(Changed {
                words: &[(48, 1)],
                ..NOTHING
            }),
            ..RAISED
        },
    ),
    (
        "the first record is purged",
        Done {
            change: Change::PurgeFirst,
            given: Ok(Some((176, 8))),
            left: Some(Changed {
                words: &[(172, 208)],
                ..NOTHING
            }),
            ..RAISED
        },
    ),
    (
        "the empty key is unlinked",
        Done {
            change: Change::Unlink(b""),
            given: Ok(Some((208, 8))),
            left: Some(Changed {
                words: &[(176, 240)],
                ..NOTHING
            }),
            ..RAISED
        },
    ),
    (
        "a record is marked dead",
        Done {
            change: Change::MarkDead(b"a"),
            left: Some(Changed {
                words: &[(260, DEAD)],
                ..NOTHING
            }),
            ..RAISED
        },
    ),
    (
        "a value is updated",
        Done {
            change: Change::Update(b"a"),
            left: Some(Changed {
                words: &[(252, 2)],
                contents: &[(264, *b"a23B")],
                ..NOTHING
            }),
            ..RAISED
        },
    ),
    (
        "a new record",
        Done {
            change: Change::Link(b"b", b"xyz", 16),
            left: Some(Changed {
                words: &[
                    (172, 272),
                    (272, 176),
                    (276, 16),
                    (280, 1),
                    (284, 3),
                    (288, HASH_OF_B),
                    (292, USED),
                    (308, 40),
                ],
                contents: &[(296, *b"bxyz")],
                padding: 8,
            }),
            ..RAISED
        },
    ),
    (
        "a record in place of another",
        Done {
            change: Change::Link(b"a", b"4", 16),
            given: Ok(Some((240, 8))),
            left: Some(Changed {
                words: &[
                    (172, 272),
                    (208, 0),
                    (272, 176),
                    (276, 16),
                    (280, 1),
                    (284, 1),
                    (288, HASH_OF_A),
                    (292, USED),
                    (308, 40),
                ],
                contents: &[(296, *b"a4BB")],
                padding: 8,
            }),
            ..RAISED
        },
    ),
    (
        "a record of more than 4096 bytes",
        Done {
            change: Change::Link(b"b", b"xyz", 8212),
            len: 8508,
            left: Some(Changed {
                words: &[
                    (172, 272),
                    (272, 176),
                    (276, 8212),
                    (280, 1),
                    (284, 3),
                    (288, HASH_OF_B),
                    (292, USED),
                    (8504, 8236),
                ],
                contents: &[(296, *b"bxyz")],
                padding: 8204,
            }),
            ..RAISED
        },
    ),
    // What was written before a fault stands, and the rest is as it was: the value of an update, the record that was
    // led past, and the new record to which no head leads yet.
    (
        "no sequence number",
        Done {
            failing: Some((Call::WriteWord, 0)),
            given: Err(Io),
            ..RAISED
        },
    ),
    (
        "no head past the first record",
        Done {
            change: Change::PurgeFirst,
            failing: Some((Call::WriteWord, 0)),
            given: Err(Io),
            ..RAISED
        },
    ),
    (
        "no head is written",
        Done {
            change: Change::Unlink(b""),
            failing: Some((Call::WriteWord, 0)),
            given: Err(Io),
            ..RAISED
        },
    ),
    (
        "no mark",
        Done {
            change: Change::MarkDead(b"a"),
            failing: Some((Call::WriteWord, 0)),
            given: Err(Io),
            ..RAISED
        },
    ),
    (
        "the value of an update without its length",
        Done {
            change: Change::Update(b"a"),
            failing: Some((Call::WriteWord, 0)),
            given: Err(Io),
            left: Some(Changed {
                contents: &[(264, *b"a23B")],
                ..NOTHING
            }),
            ..RAISED
        },
    ),
    (
        "no new record",
        Done {
            change: Change::Link(b"b", b"xyz", 16),
            failing: Some((Call::Write, 0)),
            given: Err(Io),
            ..RAISED
        },
    ),
    (
        "a new record to which no head leads",
        Done {
            change: Change::Link(b"b", b"xyz", 16),
            failing: Some((Call::WriteWord, 0)),
            given: Err(Io),
            left: Some(Changed {
                words: &[
                    (272, 176),
                    (276, 16),
                    (280, 1),
                    (284, 3),
                    (288, HASH_OF_B),
                    (292, USED),
                    (308, 40),
                ],
                contents: &[(296, *b"bxyz")],
                padding: 8,
            }),
            ..RAISED
        },
    ),
    (
        "no word past the old record",
        Done {
            change: Change::Link(b"a", b"4", 16),
            failing: Some((Call::WriteWord, 0)),
            given: Err(Io),
            ..RAISED
        },
    ),
    (
        "an old record that is led past",
        Done {
            change: Change::Link(b"a", b"4", 16),
            failing: Some((Call::Write, 0)),
            given: Err(Io),
            left: Some(Changed {
                words: &[(208, 0)],
                ..NOTHING
            }),
            ..RAISED
        },
    ),
    (
        "the new record besides",
        Done {
            change: Change::Link(b"a", b"4", 16),
            failing: Some((Call::WriteWord, 1)),
            given: Err(Io),
            left: Some(Changed {
                words: &[
                    (208, 0),
                    (272, 176),
                    (276, 16),
                    (280, 1),
                    (284, 1),
                    (288, HASH_OF_A),
                    (292, USED),
                    (308, 40),
                ],
                contents: &[(296, *b"a4BB")],
                padding: 8,
            }),
            ..RAISED
        },
    ),
    // The six pieces in which a long record is written, of which two are blocks of padding.
    ("the first piece of a long record", PIECE),
    (
        "the second piece of a long record",
        Done {
            failing: Some((Call::Write, 1)),
            ..PIECE
        },
    ),
    (
        "the third piece of a long record",
        Done {
            failing: Some((Call::Write, 2)),
            ..PIECE
        },
    ),
    (
        "the fourth piece of a long record",
        Done {
            failing: Some((Call::Write, 3)),
            ..PIECE
        },
    ),
    (
        "the fifth piece of a long record",
        Done {
            failing: Some((Call::Write, 4)),
            ..PIECE
        },
    ),
    (
        "the sixth piece of a long record",
        Done {
            failing: Some((Call::Write, 5)),
            ..PIECE
        },
    ),
];

/// The first change that gives another hand, or leaves something else.
pub(crate) fn failing_change(
    alloc: Global,
    order: Order,
) -> Result<Option<&'static str>, AllocError> {
    for (name, row) in &CHANGES {
        let file = image_of(alloc, row.len, order, &NOTHING)?;
        let mut disk = disk_of(alloc, &file, row.failing)?;
        let given = make(&mut disk, order, &row.change);
        let is_left = match &row.left {
            Some(left) => disk.as_slice() == image_of(alloc, row.len, order, left)?.as_slice(),
            None => true,
        };
        if given != row.given || !is_left {
            return Ok(Some(*name));
        }
    }
    Ok(None)
}
