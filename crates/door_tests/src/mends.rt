// New files of what can be read of damaged ones, which keep their bytes.

use crate::images::{GATE, Image, NEW, NEW_BIG, NEW_FILE, ONE, OPEN_GATE, STRAY};
use crate::runs::Failing::{Disk, Files, Nothing, Output};
use crate::runs::{DUMP, USAGE};
use crate::tables::{Left, Table, files_of};
use small_file::{RECORD, Word};
use std::alloc::{AllocError, Global};
use tdb_disk::Call;
use tdb_top::can_be_mended;
use tdb_words::{FREE, USED};

/// The file of one record, with a sequence number.
const NUMBERED: Image = Image {
    words: &[&NEW_FILE, &RECORD, &[(48, 5)]],
    ..ONE
};

/// An entry of the undo area, of a page as the stock library writes them, lies past the length that the file had.
const LONG_ENTRY: Image = Image {
    words: &[&NEW_FILE, &RECORD, &OPEN_GATE, &[(4132, 4096)]],
    ..GATE
};

/// What it is mended to: the value of `a` isn't given back.
const NINE: Image = Image {
    words: &[&NEW_FILE, &RECORD, &[(4088, 0x4242_3961)]],
    ..ONE
};

/// An undo area was placed behind the end, and got no header yet.
const PLACED: [Word; 9] = [
    (44, 4096),
    (4096, 0x4242_4242),
    (4100, 0x4242_4242),
    (4104, 0x4242_4242),
    (4108, 0x4242_4242),
    (4112, 0x4242_4242),
    (4116, 0x4242_4242),
    (4120, 0x4242_4242),
    (4124, 0x4242_4242),
];

const NO_AREA_HEADER: Image = Image {
    words: &[&NEW_FILE, &RECORD, &PLACED],
    len: 4128,
    ..ONE
};

/// Words that an area left before it was moved, behind the free record.
const LEFT_WORDS: Image = Image {
    words: &[&NEW_FILE, &RECORD, &[(4096, 4072), (4100, 0x0010_0031)]],
    len: 4128,
    ..ONE
};

/// The undo area is behind the end.
const AREA_BEHIND: Image = Image {
    words: &[&NEW_FILE, &RECORD, &OPEN_GATE, &[(44, 8176)]],
    ..GATE
};

/// An entry of the undo area passes the end of the entries.
const CUT_ENTRY: Image = Image {
    words: &[&NEW_FILE, &RECORD, &OPEN_GATE, &[(4136, 6)]],
    ..GATE
};

/// The number of chains becomes 0 in the undo.
const NO_CHAINS: Image = Image {
    words: &[&NEW_FILE, &RECORD, &OPEN_GATE, &[(4120, 36)]],
    ..GATE
};

/// The record's tailer says another length.
const BAD_TAILER: Image = Image {
    words: &[&NEW_FILE, &RECORD, &[(4092, 33)]],
    ..ONE
};

/// A header in front of mutexes, which says that the database begins at 4096, and the header there, which says so too.
const FRONT: [Word; 7] = [
    (32, 0x2601_196D),
    (36, 131),
    (40, 0x0BAD_1A52),
    (52, 0xF67D_9F0D),
    (56, 0x3AFE_F920),
    (60, 1),
    (64, 4096),
];

const BEHIND: [Word; 10] = [
    (4096, 0x2042_4454),
    (4100, 0x656C_6966),
    (4104, 10),
    (4128, 0x2601_196D),
    (4132, 131),
    (4136, 0x0BAD_1A52),
    (4148, 0xF67D_9F0D),
    (4152, 0x3AFE_F920),
    (4156, 1),
    (4160, 4096),
];

/// The words of the file of one record, 4096 bytes further on.
const RECORD_BEHIND: [Word; 12] = [
    (4264, 696),
    (4296, 4064),
    (4796, 3344),
    (4812, FREE),
    (8156, 3368),
    (8164, 8),
    (8168, 1),
    (8172, 1),
    (8176, 0x094A_72E9),
    (8180, USED),
    (8184, 0x4242_3161),
    (8188, 32),
];

/// The file of one record behind mutexes.
const MUTEXES: Image = Image {
    words: &[&FRONT, &BEHIND, &RECORD_BEHIND],
    len: 8192,
    ..ONE
};

/// A new file of the other byte order and hash behind mutexes.
const FRONT_BIG: [Word; 7] = [
    (32, 0x2601_196D),
    (36, 131),
    (40, 0x0BAD_1A52),
    (52, 0xD7B6_94E5),
    (56, 0x123C_1283),
    (60, 1),
    (64, 4096),
];

const BEHIND_BIG: [Word; 10] = [
    (4096, 0x5444_4220),
    (4100, 0x6669_6C65),
    (4104, 0x0A00_0000),
    (4128, 0x2601_196D),
    (4132, 131),
    (4136, 0x0BAD_1A52),
    (4148, 0xD7B6_94E5),
    (4152, 0x123C_1283),
    (4156, 1),
    (4160, 4096),
];

const MUTEXES_BIG: Image = Image {
    words: &[&FRONT_BIG, &BEHIND_BIG],
    len: 4792,
    ..NEW_BIG
};

/// An unfinished change behind mutexes. Its entry is the front of the database, so what it gives back of the header
/// tells of mutexes again.
const OPEN_BEHIND: [Word; 12] = [
    (8184, 0x4242_3961),
    (4140, 4096),
    (8192, 0),
    (8196, 104),
    (8200, 4096),
    (8204, 80),
    (8208, 0),
    (8212, 0xF53B_C0E7),
    (8216, 0),
    (8220, 68),
    (8284, 1),
    (8288, 4096),
];

const FRONT_KEPT: [Word; 9] = [
    (8224, 0x2042_4454),
    (8228, 0x656C_6966),
    (8232, 10),
    (8256, 0x2601_196D),
    (8260, 131),
    (8264, 0x0BAD_1A52),
    (8276, 0xF67D_9F0D),
    (8280, 0x3AFE_F920),
    (8316, 128),
];

const MUTEXES_OPEN: Image = Image {
    words: &[&FRONT, &BEHIND, &RECORD_BEHIND, &OPEN_BEHIND, &FRONT_KEPT],
    len: 8320,
    ..ONE
};

/// The header asks for more than mutexes.
const MORE_FEATURES: Image = Image {
    words: &[&FRONT, &BEHIND, &RECORD_BEHIND, &[(60, 3)]],
    ..MUTEXES
};

/// The mutexes reach past the end.
const LONG_MUTEXES: Image = Image {
    words: &[&FRONT, &BEHIND, &RECORD_BEHIND, &[(64, 8196)]],
    ..MUTEXES
};

/// No database begins behind the mutexes.
const NO_TEXT_BEHIND: Image = Image {
    words: &[&FRONT, &BEHIND, &RECORD_BEHIND, &[(4096, 0)]],
    ..MUTEXES
};

/// The header has no version.
const NO_VERSION: Image = Image {
    words: &[&NEW_FILE, &RECORD, &[(32, 0)]],
    ..ONE
};

/// The file ends in its header.
const CUT: Image = Image { len: 164, ..ONE };

const FAULT: &str = "device fault\n";

pub(crate) static TABLES: [Table; 8] = [
    // Nothing is to be mended of a sound file. The new one has its sequence number, and is as a repack makes it.
    Table {
        files: &[("f.tdb", NUMBERED)],
        in_turn: 5,
        lines: &[
            ("mend f.tdb g.tdb", "", Nothing, 0, "mended 0\n"),
            ("mend f.tdb g.tdb", "", Nothing, 9, "there g.tdb\n"),
            ("mend g.tdb h.tdb", "", Nothing, 0, "mended 0\n"),
            ("mend i.tdb k.tdb", "", Nothing, 9, "missing i.tdb\n"),
            ("dump h.tdb", "", Nothing, 0, DUMP),
        ],
        left: &[
            ("f.tdb", Left::Bytes(NUMBERED)),
            ("g.tdb", Left::Bytes(NUMBERED)),
            ("h.tdb", Left::Bytes(NUMBERED)),
            ("k.tdb", Left::Missing),
        ],
    },
    Table {
        files: &[("f.tdb", NEW_BIG)],
        in_turn: 1,
        lines: &[("mend f.tdb g.tdb", "", Nothing, 0, "mended 0\n")],
        left: &[
            ("f.tdb", Left::Bytes(NEW_BIG)),
            ("g.tdb", Left::Bytes(NEW_BIG)),
        ],
    },
    Table {
        files: &[("f.tdb", ONE)],
        in_turn: 1,
        lines: &[
            ("mend f.tdb f.tdb", "", Nothing, 2, USAGE),
            ("mend f.tdb", "", Nothing, 2, USAGE),
            ("mend", "", Nothing, 2, USAGE),
            ("mend f.tdb g.tdb h.tdb", "", Nothing, 2, USAGE),
            ("mend --limit 4096 f.tdb g.tdb", "", Nothing, 2, USAGE),
            ("mend f.tdb g.tdb", "", Output(0), 8, ""),
        ],
        left: &[("f.tdb", Left::Bytes(ONE)), ("g.tdb", Left::Missing)],
    },
    // What an unfinished change left is undone in memory: the sequence number, the value, and the place of the area.
    Table {
        files: &[("f.tdb", GATE)],
        in_turn: 1,
        lines: &[("mend f.tdb g.tdb", "", Nothing, 0, "mended 3\n")],
        left: &[("f.tdb", Left::Bytes(GATE)), ("g.tdb", Left::Bytes(ONE))],
    },
    // What an entry has for places past the old length is dropped.
    Table {
        files: &[("f.tdb", LONG_ENTRY)],
        in_turn: 2,
        lines: &[
            ("tool f.tdb check", "", Nothing, 3, "corrupt UndoBad 4132\n"),
            ("mend f.tdb g.tdb", "", Nothing, 0, "mended 2\n"),
        ],
        left: &[
            ("f.tdb", Left::Bytes(LONG_ENTRY)),
            ("g.tdb", Left::Bytes(NINE)),
        ],
    },
    // An area without header counts as none: one byte of the word at 44 is another.
    Table {
        files: &[("f.tdb", NO_AREA_HEADER)],
        in_turn: 1,
        lines: &[("mend f.tdb g.tdb", "", Nothing, 0, "mended 1\n")],
        left: &[
            ("f.tdb", Left::Bytes(NO_AREA_HEADER)),
            ("g.tdb", Left::Bytes(ONE)),
        ],
    },
    // Stray bytes count as 0. There are four behind the record, and fourteen of one that stands in no list.
    Table {
        files: &[("f.tdb", LEFT_WORDS)],
        in_turn: 2,
        lines: &[
            ("dump f.tdb", "", Nothing, 3, "corrupt Stray 4096\n"),
            ("mend f.tdb g.tdb", "", Nothing, 0, "mended 4\n"),
        ],
        left: &[
            ("f.tdb", Left::Bytes(LEFT_WORDS)),
            ("g.tdb", Left::Bytes(ONE)),
        ],
    },
    Table {
        files: &[("f.tdb", STRAY)],
        in_turn: 1,
        lines: &[("mend f.tdb g.tdb", "", Nothing, 0, "mended 14\n")],
        left: &[("f.tdb", Left::Bytes(STRAY)), ("g.tdb", Left::Bytes(NEW))],
    },
];

/// Files with mutexes.
pub(crate) static BEHIND_MUTEXES: [Table; 5] = [
    // Behind mutexes the word that tells of them counts as 0. Other commands refuse the file.
    Table {
        files: &[("f.tdb", MUTEXES)],
        in_turn: 2,
        lines: &[
            ("tool f.tdb check", "", Nothing, 3, "header Mutexes\n"),
            ("mend f.tdb g.tdb", "", Nothing, 0, "mended 1\n"),
        ],
        left: &[("f.tdb", Left::Bytes(MUTEXES)), ("g.tdb", Left::Bytes(ONE))],
    },
    Table {
        files: &[("f.tdb", MUTEXES_BIG)],
        in_turn: 1,
        lines: &[("mend f.tdb g.tdb", "", Nothing, 0, "mended 1\n")],
        left: &[
            ("f.tdb", Left::Bytes(MUTEXES_BIG)),
            ("g.tdb", Left::Bytes(NEW_BIG)),
        ],
    },
    // The value isn't given back. The word at 44 and the one that tells of mutexes are others.
    Table {
        files: &[("f.tdb", MUTEXES_OPEN)],
        in_turn: 1,
        lines: &[("mend f.tdb g.tdb", "", Nothing, 0, "mended 2\n")],
        left: &[
            ("f.tdb", Left::Bytes(MUTEXES_OPEN)),
            ("g.tdb", Left::Bytes(NINE)),
        ],
    },
    Table {
        files: &[("f.tdb", MORE_FEATURES)],
        in_turn: 1,
        lines: &[("mend f.tdb g.tdb", "", Nothing, 3, "header Mutexes\n")],
        left: &[
            ("f.tdb", Left::Bytes(MORE_FEATURES)),
            ("g.tdb", Left::Missing),
        ],
    },
    Table {
        files: &[("f.tdb", LONG_MUTEXES)],
        in_turn: 1,
        lines: &[("mend f.tdb g.tdb", "", Nothing, 3, "corrupt Short 0\n")],
        left: &[
            ("f.tdb", Left::Bytes(LONG_MUTEXES)),
            ("g.tdb", Left::Missing),
        ],
    },
];

/// Files that can't be mended, and calls that fail.
pub(crate) static REFUSED: [Table; 8] = [
    // Other faults are refused, and no file is made.
    Table {
        files: &[("f.tdb", AREA_BEHIND)],
        in_turn: 1,
        lines: &[("mend f.tdb g.tdb", "", Nothing, 3, "corrupt AreaBad 44\n")],
        left: &[
            ("f.tdb", Left::Bytes(AREA_BEHIND)),
            ("g.tdb", Left::Missing),
        ],
    },
    Table {
        files: &[("f.tdb", CUT_ENTRY)],
        in_turn: 1,
        lines: &[("mend f.tdb g.tdb", "", Nothing, 3, "corrupt UndoBad 4132\n")],
        left: &[("f.tdb", Left::Bytes(CUT_ENTRY)), ("g.tdb", Left::Missing)],
    },
    Table {
        files: &[("f.tdb", NO_CHAINS)],
        in_turn: 1,
        lines: &[("mend f.tdb g.tdb", "", Nothing, 3, "corrupt Header 0\n")],
        left: &[("f.tdb", Left::Bytes(NO_CHAINS)), ("g.tdb", Left::Missing)],
    },
    Table {
        files: &[("f.tdb", BAD_TAILER)],
        in_turn: 1,
        lines: &[("mend f.tdb g.tdb", "", Nothing, 3, "corrupt Tailer 4064\n")],
        left: &[("f.tdb", Left::Bytes(BAD_TAILER)), ("g.tdb", Left::Missing)],
    },
    Table {
        files: &[("f.tdb", NO_VERSION)],
        in_turn: 1,
        lines: &[("mend f.tdb g.tdb", "", Nothing, 3, "header Version\n")],
        left: &[("f.tdb", Left::Bytes(NO_VERSION)), ("g.tdb", Left::Missing)],
    },
    Table {
        files: &[("f.tdb", CUT)],
        in_turn: 1,
        lines: &[("mend f.tdb g.tdb", "", Nothing, 3, "corrupt Short 164\n")],
        left: &[("f.tdb", Left::Bytes(CUT)), ("g.tdb", Left::Missing)],
    },
    // Whichever call fails, the file stays as it was.
    Table {
        files: &[("f.tdb", GATE)],
        in_turn: 1,
        lines: &[
            ("mend f.tdb g.tdb", "", Files(Call::Take, 0), 4, FAULT),
            ("mend f.tdb g.tdb", "", Files(Call::Take, 1), 4, FAULT),
            (
                "mend f.tdb g.tdb",
                "",
                Disk("f.tdb", Call::Len, 0),
                4,
                FAULT,
            ),
            (
                "mend f.tdb g.tdb",
                "",
                Disk("f.tdb", Call::Read, 0),
                4,
                FAULT,
            ),
            (
                "mend f.tdb g.tdb",
                "",
                Disk("f.tdb", Call::Read, 1),
                4,
                FAULT,
            ),
            (
                "mend f.tdb g.tdb",
                "",
                Disk("f.tdb", Call::Sync, 0),
                4,
                FAULT,
            ),
        ],
        left: &[("f.tdb", Left::Bytes(GATE)), ("g.tdb", Left::Missing)],
    },
    Table {
        files: &[("f.tdb", GATE)],
        in_turn: 1,
        lines: &[
            (
                "mend f.tdb g.tdb",
                "",
                Disk("g.tdb", Call::Grow, 0),
                4,
                FAULT,
            ),
            (
                "mend f.tdb g.tdb",
                "",
                Disk("g.tdb", Call::Write, 0),
                4,
                FAULT,
            ),
            (
                "mend f.tdb g.tdb",
                "",
                Disk("g.tdb", Call::WriteWord, 0),
                4,
                FAULT,
            ),
            (
                "mend f.tdb g.tdb",
                "",
                Disk("g.tdb", Call::Sync, 1),
                4,
                FAULT,
            ),
        ],
        left: &[("f.tdb", Left::Bytes(GATE))],
    },
];

/// Files, and whether they can be mended.
const LOOKS: [(&str, Image, bool); 10] = [
    ("one", ONE, true),
    ("an open gate", GATE, true),
    ("a long entry", LONG_ENTRY, true),
    ("no header of the area", NO_AREA_HEADER, true),
    ("a stray record", STRAY, true),
    ("mutexes", MUTEXES, true),
    ("no text behind mutexes", NO_TEXT_BEHIND, false),
    ("an area behind the end", AREA_BEHIND, false),
    ("a tailer", BAD_TAILER, false),
    ("no version", NO_VERSION, false),
];

/// The first file of which it isn't told rightly whether it can be mended.
pub(crate) fn failing_look(alloc: Global) -> Result<Option<&'static str>, AllocError> {
    for (name, image, wanted) in &LOOKS {
        let mut files = files_of(alloc, &[("f.tdb", *image)])?;
        if can_be_mended(alloc, "f.tdb", &mut files) != Some(*wanted) {
            return Ok(Some(*name));
        }
    }
    let mut files = files_of(alloc, &[("f.tdb", ONE)])?;
    Ok(if can_be_mended(alloc, "g.tdb", &mut files).is_none() {
        None
    } else {
        Some("a missing file")
    })
}
