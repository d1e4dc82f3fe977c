//! Tests of sessions, over the public calls of `tdb_tool`: what sessions over a small file in memory print, how they
//! end, and each kind of failing call.

use crate::files::{Image, OPTIONS, disk_of};
use std::alloc::{AllocError, Global};
use tdb_disk::{Call, Disk, MemDisk, MemSink, MemSource, Sink, Source};
use tdb_log::{Log, Logs, MemLog};
use tdb_tool::{SessionEnd, SessionFault, run_session};
use tdb_words::{HashKind, Header, Order};
use tdb_world::World;

/// A new file of seven chains.
const SEVEN: Image = Image {
    header: Header {
        order: Order::Big,
        hash: HashKind::Jenkins,
        hash_size: 7,
        recovery_start: 0,
        sequence: 0,
    },
    len: 200,
    words: &[],
};

/// How a session over a file ends, where that is opened, which the logs aren't told. The disk comes back.
fn session<D: Disk, S: Source, K: Sink, L: Logs>(
    alloc: Global,
    disk: D,
    input: &mut S,
    output: &mut K,
    logs: &mut L,
) -> (D, Option<Result<SessionEnd, SessionFault>>) {
    let mut none: Vec<Box<dyn Log>> = Vec::new(alloc);
    match World::load(alloc, disk, &OPTIONS, &mut none) {
        Ok((world, _)) => {
            let (disk, answer) = run_session(alloc, world, input, output, logs);
            (disk, Some(answer))
        }
        Err((disk, _)) => (disk, None),
    }
}

/// What fails in a session: nothing, a read of the input, a write of the output, or a growth of the file.
enum Failing {
    Nothing,
    Input(u64),
    Output(u64),
    Growth(u64),
}

/// What fails, what is typed, what is printed, and how the session ends.
type Session = (
    Failing,
    &'static str,
    &'static str,
    Result<SessionEnd, SessionFault>,
);

const ENDED: Result<SessionEnd, SessionFault> = Ok(SessionEnd::Ended);

const NOTHING: Failing = Failing::Nothing;

// In seven chains `a` is in the first, and `b` and `c` in the last, with the one in front that came later.
static SESSIONS: [(&'static str, Session); 23] = [
    ("nothing", (NOTHING, "", "", ENDED)),
    (
        "keys that come and go",
        (
            NOTHING,
            "store a 1\nshow a\nshow b\ninsert a 2\ndelete a\ndelete a\ncheck\nquit\nshow",
            "ok\ndata(1) = \"1\"\nnoexist\nexists\nok\nnoexist\nnumber 0\n",
            ENDED,
        ),
    ),
    (
        "bytes in hex",
        (
            NOTHING,
            " \n\tstorehex  61 00fF\n\nshow \\61\ncheck",
            "ok\ndata(2) = \"\\00\\FF\"\nnumber 1\n",
            ENDED,
        ),
    ),
    (
        "the empty key, and an erase",
        (
            NOTHING,
            "insert \"\" x\nerase\nshow \"\"\nquit\n",
            "ok\nok\nnoexist\n",
            ENDED,
        ),
    ),
    (
        "a command that isn't one of a session",
        (
            NOTHING,
            "store a 1\nfetch a\nshow a\n",
            "ok\n",
            Ok(SessionEnd::Malformed { at: 10 }),
        ),
    ),
    (
        "a word too many",
        (
            NOTHING,
            "store a 1\n\nstore a 1 2\n",
            "ok\n",
            Ok(SessionEnd::Malformed { at: 11 }),
        ),
    ),
    (
        "a transaction in another one",
        (
            NOTHING,
            "transaction_start\nstore a 1\ntransaction_start\nstore a 2\ntransaction_cancel\nshow a\ntransaction_commit\nshow a",
            "ok\nok\nok\nok\nok\ndata(1) = \"2\"\ndoomed\nnoexist\n",
            ENDED,
        ),
    ),
    (
        "a transaction, and lists",
        (
            NOTHING,
            "store a 1\ntransaction_start\nstore b 2\ndump\ntransaction_commit\ntransaction_commit\nkeys\ntransaction_start\nerase\nkeys",
            "ok\nok\nok\n{\nkey(1) = \"a\"\ndata(1) = \"1\"\n}\n{\nkey(1) = \"b\"\ndata(1) = \"2\"\n}\nok\nnotransaction\nkey(1) = \"a\"\nkey(1) = \"b\"\nok\nok\n",
            ENDED,
        ),
    ),
    (
        "an odd number of digits",
        (
            NOTHING,
            "storehex 6 00",
            "",
            Ok(SessionEnd::Malformed { at: 0 }),
        ),
    ),
    (
        "half an escape",
        (NOTHING, "show \\6", "", Ok(SessionEnd::Malformed { at: 0 })),
    ),
    (
        "cursors and lists of an empty file",
        (
            NOTHING,
            "first\nnext\ndump\nkeys\nhexkeys\n",
            "end\nend\n",
            ENDED,
        ),
    ),
    (
        "a cursor past the last pair",
        (
            NOTHING,
            "store a 1\nfirst\nnext\nnext",
            "ok\nkey(1) = \"a\" data(1) = \"1\"\nend\nend\n",
            ENDED,
        ),
    ),
    (
        "a dump by chains",
        (
            NOTHING,
            "store c 3\nstore a 1\nstore b \\0A\ndump\nnext\n",
            "ok\nok\nok\n{\nkey(1) = \"a\"\ndata(1) = \"1\"\n}\n{\nkey(1) = \"b\"\ndata(1) = \"\\0A\"\n}\n{\nkey(1) = \"c\"\ndata(1) = \"3\"\n}\nend\n",
            ENDED,
        ),
    ),
    (
        "lists of keys",
        (
            NOTHING,
            "store b 2\nstore INFO/version\\00 \"\"\nkeys\nhexkeys\ncheck\n",
            "ok\nok\nkey(13) = \"INFO/version\\00\"\nkey(1) = \"b\"\nkey(13) = 494E464F2F76657273696F6E00\nkey(1) = 62\nnumber 2\n",
            ENDED,
        ),
    ),
    (
        "an erase that a cursor keeps off",
        (
            NOTHING,
            "store a 1\nstore b 2\nfirst\ncheck\nerase\nkeys\nerase\nfirst\n",
            "ok\nok\nkey(1) = \"a\" data(1) = \"1\"\nheld 1\nheld 1\nkey(1) = \"a\"\nkey(1) = \"b\"\nok\nend\n",
            ENDED,
        ),
    ),
    (
        "a pair that is deleted under the cursor",
        (
            NOTHING,
            "store a 1\nstore b 2\nfirst\ndelete a\nkeys\ncheck\n",
            "ok\nok\nkey(1) = \"a\" data(1) = \"1\"\nok\nkey(1) = \"b\"\nnumber 1\n",
            ENDED,
        ),
    ),
    // A source in memory gives all that is left in one read. So the second read comes once every whole line was replied
    // to.
    (
        "the first read of the input",
        (
            Failing::Input(0),
            "store a 1\nshow a\n",
            "",
            Err(SessionFault::Input),
        ),
    ),
    (
        "a read behind the last line",
        (
            Failing::Input(1),
            "store a 1\nshow a\n",
            "ok\ndata(1) = \"1\"\n",
            Err(SessionFault::Input),
        ),
    ),
    (
        "a read in the midst of a line",
        (
            Failing::Input(1),
            "store a 1\nshow",
            "ok\n",
            Err(SessionFault::Input),
        ),
    ),
    (
        "the second write of the output",
        (
            Failing::Output(1),
            "store a 1\nshow a\n",
            "ok\n",
            Err(SessionFault::Output),
        ),
    ),
    (
        "the write of a list",
        (
            Failing::Output(2),
            "store a 1\nstore b 2\nkeys\n",
            "ok\nok\n",
            Err(SessionFault::Output),
        ),
    ),
    (
        "the write behind that of a list",
        (
            Failing::Output(3),
            "store a 1\nstore b 2\nkeys\ncheck\n",
            "ok\nok\nkey(1) = \"a\"\nkey(1) = \"b\"\n",
            Err(SessionFault::Output),
        ),
    ),
    (
        "the first growth of the file",
        (
            Failing::Growth(0),
            "store a 1\nshow a\n",
            "",
            Err(SessionFault::Device),
        ),
    ),
];

/// Whether a session over a file, with these logs, goes so. The disk comes back.
fn session_holds(
    alloc: Global,
    mut file: MemDisk,
    row: &Session,
    logs: &mut Vec<Box<dyn Log>>,
) -> Result<(MemDisk, bool), AllocError> {
    let (failing, text, printed, end) = row;
    let mut input = MemSource::new(alloc, text.as_bytes())?;
    let mut output = MemSink::new(alloc);
    match failing {
        Failing::Nothing => {}
        Failing::Input(nth) => input.fail(Call::Read, *nth)?,
        Failing::Output(nth) => output.fail(Call::Write, *nth)?,
        Failing::Growth(nth) => file.fail(Call::Grow, *nth)?,
    }
    let (file, answer) = session(alloc, file, &mut input, &mut output, logs);
    let holds = answer == Some(*end) && output.as_slice() == printed.as_bytes();
    Ok((file, holds))
}

/// The first session over a new file that goes otherwise.
fn failing_session(alloc: Global) -> Result<Option<&'static str>, AllocError> {
    for (name, row) in &SESSIONS {
        let file = disk_of(alloc, &SEVEN)?;
        let (_, holds) = session_holds(alloc, file, row, &mut Vec::new(alloc))?;
        if !holds {
            return Ok(Some(*name));
        }
    }
    Ok(None)
}

// Sessions over one file, where the log fails at its first notice. The first store grows the file. Its reply is printed
// behind the log's refusal, and what it stored is there.
static LOGGED: [(&'static str, Session); 2] = [
    (
        "a log that fails",
        (
            NOTHING,
            "store a 1\nshow a\n",
            "ok\n",
            Err(SessionFault::Log),
        ),
    ),
    (
        "what was stored then",
        (NOTHING, "show a\n", "data(1) = \"1\"\n", ENDED),
    ),
];

/// The first session with such a log that goes otherwise.
fn failing_log(alloc: Global) -> Result<Option<&'static str>, AllocError> {
    let mut log = MemLog::new(alloc);
    log.fail(0)?;
    let mut logs: Vec<Box<dyn Log>> = Vec::new(alloc);
    logs.push(Box::new(alloc, log)?)?;
    let mut file = disk_of(alloc, &SEVEN)?;
    for (name, row) in &LOGGED {
        let (given, holds) = session_holds(alloc, file, row, &mut logs)?;
        file = given;
        if !holds {
            return Ok(Some(*name));
        }
    }
    Ok(None)
}

#[test]
fn sessions_answer_and_end(rt: HostRuntime) {
    let alloc = rt.alloc();
    for (table, failing) in [
        ("sessions", failing_session(alloc)),
        ("logs", failing_log(alloc)),
    ] {
        assert_eq!(rt; failing, Ok(None), "{table}");
    }
}
