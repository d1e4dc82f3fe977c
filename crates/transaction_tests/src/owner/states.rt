// How turns leave the file, and what is told of them.

use crate::owner::plays::{FileState, Moment};
use crate::told::Told;
use tdb_locks::Kind;
use tdb_txn_owner::Wants;

/// The row of a turn that wants no lock byte.
pub(crate) const FREE: Moment = Moment {
    wants: Wants::Nothing,
    told: Told::Step,
    file: SMALL,
};

/// The file without an undo area, after the sync of the Start. Its record has the value 1.
pub(crate) const SMALL: FileState = FileState {
    syncs: 1,
    len: 4096,
    value: b'1',
    gate: 0,
};

/// The file with an undo area behind the record, whose gate is shut, and whose length was synced.
pub(crate) const PLACED: FileState = FileState {
    syncs: 4,
    len: 8192,
    value: b'1',
    gate: 0,
};

/// The same with an open gate.
pub(crate) const OPENED: FileState = FileState {
    syncs: 6,
    len: 8192,
    value: b'1',
    gate: 0xE7,
};

/// The rows of the first turns of a Commit or a Prepare that has a change: it takes its locks, places an undo area and
/// fills it.
pub(crate) const TAKES_RECORDS: Moment = Moment {
    wants: Wants::Records(Kind::Write),
    ..FREE
};

pub(crate) const TAKES_OPENING: Moment = Moment {
    wants: Wants::Opening { numbered: false },
    ..FREE
};

pub(crate) const TAKES_NUMBER: Moment = Moment {
    wants: Wants::Opening { numbered: true },
    ..FREE
};

pub(crate) const PLACES_AREA: Moment = Moment {
    file: PLACED,
    ..FREE
};

pub(crate) const FILLS_AREA: Moment = Moment {
    file: FileState { syncs: 5, ..PLACED },
    ..FREE
};

/// It opens the gate.
pub(crate) const OPENS_GATE: Moment = Moment {
    file: OPENED,
    ..FREE
};

/// The rows of the last four turns of a Commit that makes the value 2: it writes, syncs, shuts the gate, and lets go.
pub(crate) const WRITES: Moment = Moment {
    file: FileState {
        value: b'2',
        ..OPENED
    },
    ..FREE
};

pub(crate) const SYNCS: Moment = Moment {
    file: FileState {
        syncs: 7,
        value: b'2',
        ..OPENED
    },
    ..FREE
};

pub(crate) const SHUT: FileState = FileState {
    syncs: 8,
    len: 8192,
    value: b'2',
    gate: 0,
};

pub(crate) const SHUTS_GATE: Moment = Moment { file: SHUT, ..FREE };

pub(crate) const LETS_GO: Moment = Moment {
    told: Told::Done,
    file: SHUT,
    ..FREE
};

/// A turn that is told done, and leaves the file as the Start left it.
pub(crate) const IS_DONE: Moment = Moment {
    told: Told::Done,
    ..FREE
};

pub(crate) const IS_DOOMED: Moment = Moment {
    told: Told::Doomed,
    ..FREE
};

/// A turn of a prepared transaction that shuts its gate and syncs. The value is the old one.
pub(crate) const CANCELED: FileState = FileState { syncs: 7, ..PLACED };
