// Acts on small files in memory, one after the other: what each answers and leaves.

use crate::undo::acts::{Act, act_on};
use crate::undo::files::{FILE, FILLED, Image, OPEN, ROOM, WHOLE, bytes_of};
use small_file::Word;
use std::alloc::{AllocError, Global};
use tdb_disk::MemDisk;
use tdb_words::{GATE_OPEN, GATE_SHUT};

/// The file that is made for a step, or none where it goes on from the one before. 1 where the file needs recovery, and
/// else 0; an act on it, how many bytes that puts back, the file that it leaves, and how many syncs were made so far.
struct Step {
    file: Option<&'static Image>,
    open: u64,
    act: Act,
    kept: u64,
    left: &'static Image,
    syncs: u64,
}

/// A recovery of a file that doesn't need it, after one that did.
const AGAIN: Step = Step {
    file: None,
    open: 0,
    act: Act::Recover,
    kept: 0,
    left: &FILE,
    syncs: 6,
};

/// An undo area at 5120 of a file that was 6144 bytes long, but for its gate.
const AREA_BELOW: [Word; 10] = [
    (44, 5120),
    (5124, 40),
    (5128, 6144),
    (5132, 35),
    (5144, 5112),
    (5148, 10),
    (5162, 5116),
    (5166, 1),
    (5171, 5184),
    (5175, 0),
];

/// A file with this undo area, whose gate is open.
const BELOW: Image = Image {
    len: 8192,
    words: &AREA_BELOW,
    later: &[(5140, GATE_OPEN)],
    bytes: &[(5152, b"abcdefghij"), (5170, b"X"), (7000, b"behind")],
    ..FILE
};

/// That file, recovered.
const BELOW_SHUT: Image = Image {
    len: 6144,
    later: &[(5140, GATE_SHUT)],
    bytes: &[(5152, b"abcdefghij"), (5170, b"X"), (5112, b"abcdXfgh")],
    ..BELOW
};

/// The file with a first undo area.
const PLACED: Image = Image {
    len: 4192,
    words: &[(44, 4096), (4100, 72)],
    ..FILE
};

/// The file with one in its place, and zeros where the first one stood.
const MOVED: Image = Image {
    len: 4216,
    words: &[(44, 4192)],
    ..FILE
};

static STEPS: [(&'static str, Step); 9] = [
    // The file with an open gate becomes the file before, and then there is nothing more to undo.
    (
        "a recovery",
        Step {
            file: Some(&OPEN),
            open: 1,
            kept: 5,
            ..AGAIN
        },
    ),
    ("a second recovery", AGAIN),
    (
        "a recovery with the header",
        Step {
            file: Some(&WHOLE),
            open: 1,
            kept: 49,
            ..AGAIN
        },
    ),
    ("a second recovery with the header", AGAIN),
    // An area below the old length stays with its gate shut. Of overlapping entries the last counts, and no entry
    // reaches into the area.
    (
        "a recovery below the old length",
        Step {
            file: Some(&BELOW),
            open: 1,
            kept: 11,
            left: &BELOW_SHUT,
            syncs: 3,
            ..AGAIN
        },
    ),
    // The gate is shut and opened by one word and one sync each, and nothing else is written.
    (
        "the gate",
        Step {
            file: Some(&OPEN),
            open: 1,
            act: Act::SetGate,
            left: &OPEN,
            syncs: 2,
            ..AGAIN
        },
    ),
    // A first area, and one in its place, which leaves zeros where the first one stood.
    (
        "a first area",
        Step {
            file: Some(&FILE),
            act: Act::Place(18),
            left: &PLACED,
            syncs: 3,
            ..AGAIN
        },
    ),
    (
        "an area in its place",
        Step {
            act: Act::Place(0),
            left: &MOVED,
            syncs: 8,
            ..AGAIN
        },
    ),
    // The content that is filled in is that of the file with the open gate.
    (
        "the content",
        Step {
            file: Some(&ROOM),
            act: Act::Fill,
            left: &FILLED,
            syncs: 1,
            ..AGAIN
        },
    ),
];

/// The first step that doesn't go so.
pub(crate) fn failing_step(alloc: Global) -> Result<Option<&'static str>, AllocError> {
    let mut disk = MemDisk::new(alloc, &[])?;
    for (name, step) in &STEPS {
        if let Some(file) = step.file {
            disk = MemDisk::new(alloc, &bytes_of(alloc, file)?)?;
        }
        let looked = act_on(alloc, &mut disk, &Act::Look);
        let answer = act_on(alloc, &mut disk, &step.act);
        if looked != Some(Ok(step.open))
            || answer != Some(Ok(step.kept))
            || disk.syncs() != step.syncs
            || disk.as_slice() != bytes_of(alloc, step.left)?.as_slice()
        {
            return Ok(Some(*name));
        }
    }
    Ok(None)
}
