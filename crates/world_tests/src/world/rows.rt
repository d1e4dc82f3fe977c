// The rows: scripts of plays, and what comes of each.

use crate::files::{NEW, OPTIONS};
use crate::world::files::{LAST_NUMBER, ONE};
use crate::world::tables::{Failing, Row};
use small_file::RECORD;
use tdb_commands::Options;
use tdb_disk::Call;
use tdb_log::{LogRefusal, Notice};
use tdb_world::RunFault;

/// How a file is opened in which changes raise the sequence number.
const COUNTED: Options = Options {
    seqnum: true,
    ..OPTIONS
};

/// A row over the file of one record in which nothing fails, without logs.
const PLAIN: Row = Row {
    what: "",
    image: ONE,
    options: OPTIONS,
    logs: 0,
    failing: Failing::Nothing,
    script: "",
    told: "",
    ends: Ok(Ok(())),
    words: &[],
    left: 0,
    heard: &[],
};

/// A row in which the store of a value in a new file fails.
const FAILS: Row = Row {
    image: NEW,
    script: STORE,
    ends: Err(RunFault::Io),
    ..PLAIN
};

/// A row with two logs over a new file.
const LOGGED: Row = Row {
    image: NEW,
    logs: 2,
    ..PLAIN
};

/// How often the opening of a new file reads, and how often it asks for the length. It doesn't write.
const OPENING_READS: u64 = 6;

const OPENING_LENGTHS: u64 = 5;

const STORE: &str = "open\ndo 1 store a 1\n";

const GREW: Notice = Notice::Grew {
    from: 696,
    to: 4096,
};

pub(crate) static ROWS: [Row; 20] = [
    Row {
        what: "two stores, turn by turn, and where the second one's record stands",
        image: NEW,
        script: "open\nopen\ngive 1 store a 1\ngive 2 store b 2\nturn 1\nturn 2\nturn 1\nturn 2\nturn 1\nturn 2\ngo 1\ngo 2\n",
        told: "1 open\n2 open\n1 step\n2 step\n1 step\n2 step\n1 step\n2 blocked 1 164\n1 step\ngrew 696 4096\n1 step\n1 done ok\n2 step\n2 step\n2 step\n2 done ok\n",
        words: &[(452, 4032), (700, 3312)],
        ..PLAIN
    },
    Row {
        what: "a fetch waits for a store, and sees its value",
        script: "open\nopen\ngive 1 store a 22\nturn 1\ndo 2 fetch a\ngo 1\ngo 2\n",
        told: "1 open\n2 open\n1 step\n2 blocked 1 196\n1 done ok\n2 step\n2 done data(2) = \"22\"\n",
        ..PLAIN
    },
    Row {
        what: "a cursor counts as a lock until it ends",
        script: "open\ndo 1 next\ndo 1 first\ndo 1 wipe\ndo 1 endwalk\ndo 1 wipe\ndo 1 first\n",
        told: "1 open\n1 done end\n1 done key(1) = \"a\" data(1) = \"1\"\n1 done held 1\n1 done ok\n1 step\n1 step\n1 step\n1 done ok\n1 done end\n",
        ..PLAIN
    },
    Row {
        what: "a cursor purges the record on which it stands, where another opener deleted it",
        script: "open\nopen\ndo 1 first\ndo 2 delete a\ndo 2 store a 2\ndo 1 next\ndo 1 fetch a\n",
        told: "1 open\n2 open\n1 done key(1) = \"a\" data(1) = \"1\"\n2 step\n2 done ok\n2 step\n2 step\n2 step\n2 step\n2 step\n2 done ok\n1 step\n1 step\n1 done end\n1 step\n1 done data(1) = \"2\"\n",
        words: &[
            (168, 4064),
            (200, 4032),
            (696, 0),
            (700, 3312),
            (4064, 696),
            (4068, 8),
        ],
        ..PLAIN
    },
    Row {
        what: "a commit waits for a cursor",
        script: "open\nopen\ndo 1 start\ndo 2 first\ndo 1 store a 5\ndo 1 commit\ndo 2 endwalk\ngo 1\n",
        told: "1 open\n2 open\n1 step\n1 step\n1 done ok\n2 done key(1) = \"a\" data(1) = \"1\"\n1 done ok\n1 blocked 2 4064\n2 done ok\n1 step\n1 step\n1 step\ngrew 4096 8192\n1 step\n1 step\n1 step\n1 step\n1 step\n1 done ok\n",
        ..PLAIN
    },
    Row {
        what: "a move beside a commit passes over empty chains, and ends",
        image: NEW,
        script: "open\ndo 1 start\ngive 1 store b 1\ngo 1\nopen\ngive 2 first\ngive 1 commit\nturn 1\nturn 2\n",
        told: "1 open\n1 step\n1 step\n1 done ok\n1 done ok\n2 open\n1 step\n2 done end\n",
        ..PLAIN
    },
    Row {
        what: "it is blocked before the first chain that isn't empty, and goes on from there",
        image: NEW,
        script: "open\ndo 1 store b 1\ndo 1 start\ngive 1 store c 2\ngo 1\nopen\ngive 2 first\ngive 1 commit\nturn 1\nturn 2\ngo 1\ngo 2\n",
        told: "1 open\n1 step\n1 step\n1 step\n1 step\ngrew 696 4096\n1 step\n1 done ok\n1 step\n1 step\n1 done ok\n1 done ok\n2 open\n1 step\n2 blocked 1 448\n1 step\n1 step\ngrew 4096 8192\n1 step\n1 step\n1 step\n1 step\n1 step\n1 done ok\n2 done key(1) = \"b\" data(1) = \"1\"\n",
        ..PLAIN
    },
    Row {
        what: "a walk sees the emptiness of a commit that is then undone",
        script: "open\nopen\ndo 1 start\ndo 1 delete a\ngive 1 commit\nturn 1\nturn 1\nturn 1\nturn 1\nturn 1\nturn 1\ndo 2 first\ndie 1\ndo 2 first\n",
        told: "1 open\n2 open\n1 step\n1 step\n1 done ok\n1 done ok\n1 step\n1 step\n1 step\ngrew 4096 8192\n1 step\n1 step\n1 step\n2 done end\n1 died\nundone 5 4096\n2 done key(1) = \"a\" data(1) = \"1\"\n",
        ..PLAIN
    },
    Row {
        what: "explicit locks",
        script: "open\nopen\ndo 1 lock a\ndo 2 locknb a\ndo 2 fetch a\ndo 1 unlock a\ndo 1 unlock a\ngo 2\ndo 1 lock a\ndo 1 start\nturn 2\nturn 5\n",
        told: "1 open\n2 open\n1 done ok\n2 done busy 1 196\n2 blocked 1 196\n1 done ok\n1 done notlocked\n2 step\n2 done data(1) = \"1\"\n1 done ok\n1 done held 1\n2 idle\n5 absent\n",
        ..PLAIN
    },
    Row {
        what: "another opener gets the lock of one that died",
        script: "open\nopen\ndo 1 lock a\ndo 2 fetch a\ndie 1\ngo 2\n",
        told: "1 open\n2 open\n1 done ok\n2 blocked 1 196\n1 died\n2 step\n2 done data(1) = \"1\"\n",
        ..PLAIN
    },
    Row {
        what: "no room for a commit",
        options: Options {
            limit: 4096,
            ..OPTIONS
        },
        script: "open\ndo 1 start\ndo 1 store a 9\ndo 1 commit\ndo 1 fetch a\n",
        told: "1 open\n1 step\n1 step\n1 done ok\n1 done ok\n1 step\n1 step\n1 done full 4096 4096\n1 step\n1 done data(1) = \"1\"\n",
        words: &RECORD,
        ..PLAIN
    },
    Row {
        what: "no transaction in another one",
        options: Options {
            nesting: false,
            ..OPTIONS
        },
        script: "open\ndo 1 start\ndo 1 start\ndo 1 commit\ndo 1 commit\n",
        told: "1 open\n1 step\n1 step\n1 done ok\n1 done nesting\n1 done ok\n1 done notransaction\n",
        ..PLAIN
    },
    Row {
        what: "the sequence number in a transaction and beside it",
        options: COUNTED,
        script: "open\nopen\ndo 1 seqnum\ndo 1 store a 2\ndo 1 seqnum\ndo 1 start\ndo 1 delete a\ndo 1 seqnum\ndo 2 seqnum\ndo 1 prepare\ndo 2 seqnum\ndo 1 cancel\ngo 2\n",
        told: "1 open\n2 open\n1 done number 0\n1 step\n1 done ok\n1 done number 1\n1 step\n1 step\n1 done ok\n1 done ok\n1 done number 2\n2 done number 1\n1 step\n1 step\n1 step\ngrew 4096 8192\n1 step\n1 done ok\n2 blocked 1 48\n1 done ok\n2 done number 1\n",
        words: &[(48, 1)],
        ..PLAIN
    },
    Row {
        what: "0 comes behind the last sequence number",
        image: LAST_NUMBER,
        options: COUNTED,
        script: "open\ndo 1 store a 2\ndo 1 insert a 3\ndo 1 seqnum\n",
        told: "1 open\n1 step\n1 done ok\n1 step\n1 done exists\n1 done number 0\n",
        words: &[(48, 0)],
        ..PLAIN
    },
    Row {
        what: "the first read behind the opening fails, in the second turn of a store",
        failing: Failing::Disk(Call::Read, OPENING_READS),
        told: "1 open\n1 step\n",
        ..FAILS
    },
    Row {
        what: "the first write fails, in the fourth turn of a store",
        failing: Failing::Disk(Call::Write, 0),
        told: "1 open\n1 step\n1 step\n1 step\n",
        ..FAILS
    },
    Row {
        what: "the length can't be had before the third turn of a store",
        failing: Failing::Disk(Call::Len, OPENING_LENGTHS + 5),
        told: "1 open\n1 step\n1 step\n",
        ..FAILS
    },
    Row {
        what: "of two logs the second is dropped before the file grows: the first is told of that alone",
        script: "open\nsetlog\ndo 1 store a 1\n",
        told: "1 open\nlog 1\n1 step\n1 step\n1 step\n1 step\ngrew 696 4096\n1 step\n1 done ok\n",
        left: 1,
        heard: &[GREW],
        ..LOGGED
    },
    Row {
        what: "where no log is left none is dropped, and none of one is told",
        script: "open\nsetlog\ndo 1 store a 1\nsetlog\nsetlog\n",
        told: "1 open\nlog 1\n1 step\n1 step\n1 step\n1 step\ngrew 696 4096\n1 step\n1 done ok\nlog 0\nlog 0\n",
        ..LOGGED
    },
    Row {
        what: "a log that fails ends the plays behind the one that it is told of, whose lines are told",
        logs: 1,
        failing: Failing::Logs,
        script: "open\ndo 1 store a 1\ndo 1 fetch a\n",
        told: "1 open\n1 step\n1 step\n1 step\n1 step\ngrew 696 4096\n1 step\n1 done ok\n",
        ends: Ok(Err(LogRefusal::Failed)),
        left: 1,
        ..LOGGED
    },
];
