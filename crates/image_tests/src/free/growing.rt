// Takes from a new file in memory, one after the other, and gives back to it.

use crate::free::files::{MOST, Place, Step, answer, bytes_of, has_list};
use crate::free::taking::NEW;
use std::alloc::{AllocError, Global};
use tdb_disk::MemDisk;

/// Takes from a new file and gives to it, one after the other, with the record that each take gives; the free list that
/// is left, and the length of the file.
type Turns = (&'static [(Step, Option<Place>)], &'static [Place], usize);

/// A take of 8 bytes.
const TAKE: Step = Step::Take(8, MOST);

/// The record that the first take gives.
const FIRST: Place = (4064, 8);

static TURNS: [(&'static str, Turns); 4] = [
    (
        "two from one page",
        (
            &[(TAKE, Some(FIRST)), (TAKE, Some((4032, 8)))],
            &[(696, 3312)],
            4096,
        ),
    ),
    (
        "a give of all that was taken",
        (
            &[(TAKE, Some(FIRST)), (Step::Give(FIRST), None)],
            &[(696, 3376)],
            4096,
        ),
    ),
    (
        "a give of the first of two",
        (
            &[
                (TAKE, Some(FIRST)),
                (TAKE, Some((4032, 8))),
                (Step::Give(FIRST), None),
            ],
            &[FIRST, (696, 3312)],
            4096,
        ),
    ),
    (
        "a give in front of a record for which the file grew again",
        (
            &[
                (TAKE, Some(FIRST)),
                (Step::Take(6256, MOST), Some((6008, 6256))),
                (Step::Give(FIRST), None),
            ],
            &[(696, 5288)],
            12288,
        ),
    ),
];

/// Whether turns in a new file go so.
fn turns_hold(alloc: Global, row: &Turns) -> Result<bool, AllocError> {
    let (steps, left, len) = *row;
    let mut disk = MemDisk::new(alloc, &bytes_of(alloc, &NEW)?)?;
    for (step, want) in steps {
        if answer(&mut disk, &NEW.header, step) != Some(Ok(*want)) {
            return Ok(false);
        }
    }
    Ok(has_list(alloc, &mut disk, &NEW.header, left) == Ok(true) && disk.as_slice().len() == len)
}

/// The first turns that don't go so.
pub(crate) fn failing_turns(alloc: Global) -> Result<Option<&'static str>, AllocError> {
    for (name, row) in &TURNS {
        if !turns_hold(alloc, row)? {
            return Ok(Some(*name));
        }
    }
    Ok(None)
}
