// Damaged undo areas: each damage is refused by its kind and its place, and nothing is written.

use crate::files::put_words;
use crate::undo::acts::{Act, act_on};
use crate::undo::files::{OPEN, bytes_of};
use small_file::Word;
use std::alloc::{AllocError, Global};
use tdb_disk::MemDisk;
use tdb_undo::UndoRefusal;
use tdb_words::{Order, What};

/// A word that damages the file with the open gate, and the kind and the place of the fault that is named.
type Damage = (Word, What, u64);

static DAMAGES: [(&'static str, Damage); 10] = [
    ("an area at no whole word", ((44, 4097), What::AreaBad, 44)),
    (
        "an area of no whole words",
        ((4100, 4073), What::AreaBad, 4100),
    ),
    (
        "an area that passes the end of the file",
        ((4100, 4076), What::AreaBad, 4100),
    ),
    (
        "a gate neither open nor shut",
        ((4116, 1), What::AreaBad, 4116),
    ),
    (
        "an old length in front of the data",
        ((4104, 692), What::UndoBad, 4104),
    ),
    (
        "an old length within the area",
        ((4104, 4100), What::UndoBad, 4104),
    ),
    (
        "an old length behind the end of the file",
        ((4104, 8196), What::UndoBad, 4104),
    ),
    (
        "content that is longer than its room",
        ((4108, 4073), What::UndoBad, 4108),
    ),
    (
        "an entry that is longer than the content",
        ((4136, 0xFFFF_FFFF), What::UndoBad, 4132),
    ),
    (
        "an entry behind the old length",
        ((4132, 4096), What::UndoBad, 4132),
    ),
];

/// The first damage that isn't refused so.
pub(crate) fn failing_damage(alloc: Global) -> Result<Option<&'static str>, AllocError> {
    for (name, (word, what, at)) in &DAMAGES {
        let mut bytes = bytes_of(alloc, &OPEN)?;
        put_words(&mut bytes, Order::Little, &[*word]);
        let mut disk = MemDisk::new(alloc, &bytes)?;
        let refusal = UndoRefusal::UndoBad {
            what: *what,
            at: *at,
        };
        if act_on(alloc, &mut disk, &Act::Recover) != Some(Err(refusal))
            || disk.as_slice() != bytes.as_slice()
            || disk.syncs() != 0
        {
            return Ok(Some(*name));
        }
    }
    Ok(None)
}
