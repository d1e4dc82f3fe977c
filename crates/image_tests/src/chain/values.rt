//! Look-ups in a small file of one chain in memory.

use crate::chain::files::{Content, NOTHING, header, image_of};
use crate::files::put;
use std::alloc::{AllocError, Global};
use tdb_chain::{ValueRefusal, find, value};
use tdb_disk::{Call, MemDisk};
use tdb_space::Direct;
use tdb_words::{Bytes, Order};

/// The offset of a key's record, that of the word that leads to it, and its value.
type Pair<B> = Option<(u32, u32, B)>;

// What is found of a key of at most eight bytes.
fn look_up(alloc: Global, disk: &mut MemDisk, key: &[u8]) -> Result<Pair<Bytes>, ValueRefusal> {
    if key.len() > 8 {
        return Ok(None);
    }
    let mut s = Direct::new(disk, &header(Order::Big));
    match find(&mut s, key)? {
        Some(place) => Ok(Some((place.off, place.before, value(alloc, &mut s, &place)?))),
        None => Ok(None),
    }
}

/// Four bytes over those of the file, the read that fails first, a key, and what is found of it.
type Found = (Content, Option<u64>, &'static [u8], Pair<&'static [u8]>);

const AS_IT_IS: Content = (0, [0; 4]);

const LAST: Pair<&'static [u8]> = Some((240, 208, b"1"));

// Of what is no record the chain ends at a head that leads in front of the data, a next word that leads out or back, a
// record that is too long, and one that has no room for its value.
static FOUND: [(&'static str, Found); 18] = [
    ("the last record", (AS_IT_IS, None, b"a", LAST)),
    (
        "the empty key",
        (AS_IT_IS, None, b"", Some((208, 176, b"xy"))),
    ),
    ("a key that isn't there", (AS_IT_IS, None, b"b", None)),
    (
        "a head to the last record",
        ((172, [0, 0, 0, 240]), None, b"a", Some((240, 172, b"1"))),
    ),
    (
        "a head past the empty key",
        ((172, [0, 0, 0, 240]), None, b"", None),
    ),
    ("an empty chain", ((172, [0; 4]), None, b"a", None)),
    ("another hash", ((256, [0; 4]), None, b"a", None)),
    (
        "another key of that hash",
        ((264, *b"b1BB"), None, b"a", None),
    ),
    (
        "a head in front of the data",
        ((172, [0, 0, 0, 100]), None, b"a", None),
    ),
    (
        "a next word that leads out",
        ((208, [0, 0, 1, 16]), None, b"a", None),
    ),
    (
        "a next word that leads back",
        ((208, [0, 0, 0, 208]), None, b"a", None),
    ),
    (
        "a record that is too long",
        ((244, [0, 0, 0, 9]), None, b"a", None),
    ),
    (
        "a value that is too long",
        ((252, [0, 0, 0, 4]), None, b"a", None),
    ),
    // The reads of a look-up, one after another.
    ("a read of the head", (AS_IT_IS, Some(0), b"a", LAST)),
    (
        "a read of the first record",
        (AS_IT_IS, Some(1), b"a", LAST),
    ),
    (
        "a read of the second record",
        (AS_IT_IS, Some(2), b"a", LAST),
    ),
    (
        "a read of the third record",
        (AS_IT_IS, Some(3), b"a", LAST),
    ),
    ("a read of the value", (AS_IT_IS, Some(4), b"a", LAST)),
];

/// Whether a read that fails is told, and the look-up after it finds that.
fn found_holds(alloc: Global, row: &Found) -> Result<bool, AllocError> {
    let (content, failing, key, want) = *row;
    let mut file = image_of(alloc, 272, Order::Big, &NOTHING)?;
    put(&mut file, content.0, &content.1);
    let mut disk = MemDisk::new(alloc, &file)?;
    if let Some(nth) = failing {
        disk.fail(Call::Read, nth)?;
        if !matches!(look_up(alloc, &mut disk, key), Err(ValueRefusal::Io)) {
            return Ok(false);
        }
    }
    Ok(match (look_up(alloc, &mut disk, key), want) {
        (Ok(None), None) => true,
        (Ok(Some((off, before, bytes))), Some((off_want, before_want, bytes_want))) => {
            off == off_want && before == before_want && bytes.as_slice() == bytes_want
        }
        _ => false,
    })
}

/// The first key that isn't found so.
pub(crate) fn failing_look_up(alloc: Global) -> Result<Option<&'static str>, AllocError> {
    for (name, row) in &FOUND {
        if !found_holds(alloc, row)? {
            return Ok(Some(*name));
        }
    }
    Ok(None)
}
