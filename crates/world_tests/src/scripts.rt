//! Tests of scripts and the lines of reports, over the public calls of `tdb_script`: scripts and their bad places, and
//! the lines of worked reports.

use crate::commands::failing_copy;
use crate::rows::first_false;
use crate::world::worlds::print;
use std::alloc::{AllocError, Global};
use tdb_commands::{Command, Line, Play, Plays, TurnReport};
use tdb_disk::{Call, MemSink};
use tdb_dump::WriteRefusal;
use tdb_locks::{Reply, Turn};
use tdb_script::{ScriptRefusal, read_script, text_of_reply};
use tdb_steps::Flag;
use tdb_words::Bytes;

/// The plays of a script.
fn plays_of(alloc: Global, text: &[u8]) -> Result<Plays, ScriptRefusal> {
    read_script(alloc, text)
}

/// A script, and how many plays it says, or where it is malformed.
type Script = (&'static [u8], Result<usize, u64>);

static SCRIPTS: [(&'static str, Script); 24] = [
    ("nothing", (b"", Ok(0))),
    ("comments and blank lines", (b"# open\n\n \t\nopen", Ok(1))),
    ("blanks around an open", (b" open\t\n#\nsetlog\n", Ok(2))),
    (
        "numbers of openers",
        (b"turn 1\ndie 7\ngo 999999999\n", Ok(3)),
    ),
    ("an empty key", (b"do 1 fetch \"\"\ndo 1 seqnum", Ok(2))),
    ("escapes", (b"give 1 append \\00 \\fF\n", Ok(1))),
    ("a start", (b"do 1 start\n", Ok(1))),
    ("a commit", (b"do 1 commit\n", Ok(1))),
    ("a prepare", (b"give 1 prepare\n", Ok(1))),
    ("a cancel", (b"do 1 cancel", Ok(1))),
    ("a store without a value", (b"open\ngive 1 store a", Err(5))),
    ("a number that begins with 0", (b"turn 01", Err(0))),
    ("opener 0", (b"turn 0", Err(0))),
    ("a sign", (b"turn +1", Err(0))),
    ("a number of ten digits", (b"turn 1000000000", Err(0))),
    ("a bad escape", (b"do 1 fetch \\G1", Err(0))),
    ("the first of two bad lines", (b"#\n\nopen 1\nfrob", Err(3))),
    ("a command without its opener", (b"open\n wipe", Err(5))),
    ("a give without its command", (b"give 1", Err(0))),
    ("a word too many", (b"do 1 store a b c", Err(0))),
    ("a carriage return", (b"open\r\n", Err(0))),
    ("a start with a key", (b"open\ndo 1 start a", Err(5))),
    ("a first with a key", (b"do 1 first a", Err(0))),
    ("a die without its opener", (b"die", Err(0))),
];

/// The first script that says something else.
fn failing_script(alloc: Global) -> Option<&'static str> {
    for (name, (text, want)) in &SCRIPTS {
        let holds = match plays_of(alloc, *text) {
            Ok(plays) => *want == Ok(plays.len()),
            Err(ScriptRefusal::Malformed { at }) => *want == Err(at),
            Err(ScriptRefusal::Memory) => false,
        };
        if !holds {
            return Some(*name);
        }
    }
    None
}

/// The plays of a script of a give and a do.
fn given(alloc: Global) -> Result<Plays, AllocError> {
    let mut plays = Plays::new(alloc);
    plays.push(Play::Give {
        who: 2,
        command: Command::Store {
            key: Bytes::copy(alloc, b"a b")?,
            value: Bytes::copy(alloc, b"1")?,
            flag: Flag::Modify,
        },
    })?;
    plays.push(Play::Do {
        who: 12,
        command: Command::LockAllRead,
    })?;
    Ok(plays)
}

/// What is otherwise with the plays of a script.
fn failing_plays(alloc: Global) -> Result<Option<&'static str>, AllocError> {
    let want = given(alloc)?;
    let read = plays_of(alloc, b"give 2 modify a\\20b 1\ndo 12 lockallread\n");
    let is_so = match read {
        Ok(plays) => plays.as_slice() == want.as_slice(),
        Err(_error) => false,
    };
    Ok((!is_so).then_some("a give and a do"))
}

/// The lines of a value and of a pair.
const VALUES: &[u8] = b"2 done data(1) = \"1\"\n1 done key(1) = \"a\" data(1) = \"1\"\n";

/// Lines, and how each is printed: first those of an opening, a step and a check that is done.
const LINES: [(&'static str, Line); 15] = [
    ("1 open\n", Line::Joined { who: 1 }),
    (
        "1 step\n",
        Line::Took {
            who: 1,
            command: Command::Check,
            turn: Turn::Step,
        },
    ),
    (
        "1 done ok\n",
        Line::Took {
            who: 1,
            command: Command::Check,
            turn: Turn::Done(Reply::Ok),
        },
    ),
    (
        "2 blocked 1 164\n",
        Line::Took {
            who: 2,
            command: Command::Check,
            turn: Turn::Blocked {
                owner: 1,
                byte: 164,
            },
        },
    ),
    (
        "grew 696 4096\n",
        Line::Grew {
            from: 696,
            to: 4096,
        },
    ),
    ("2 idle\n", Line::Idle { who: 2 }),
    ("5 absent\n", Line::Absent { who: 5 }),
    ("log 0\n", Line::LogsLeft { count: 0 }),
    ("1 occupied\n", Line::Occupied { who: 1 }),
    ("1 died\n", Line::Died { who: 1 }),
    (
        "1 done end\n",
        Line::Took {
            who: 1,
            command: Command::Check,
            turn: Turn::Done(Reply::End),
        },
    ),
    (
        "2 done busy 1 196\n",
        Line::Took {
            who: 2,
            command: Command::Check,
            turn: Turn::Done(Reply::Busy {
                owner: 1,
                byte: 196,
            }),
        },
    ),
    (
        "1 done notlocked\n",
        Line::Took {
            who: 1,
            command: Command::Check,
            turn: Turn::Done(Reply::NotLocked),
        },
    ),
    (
        "1 done held 1\n",
        Line::Took {
            who: 1,
            command: Command::Check,
            turn: Turn::Done(Reply::HeldLocks { count: 1 }),
        },
    ),
    (
        "1 done full 4096 4096\n",
        Line::Took {
            who: 1,
            command: Command::Check,
            turn: Turn::Done(Reply::Full {
                len: 4096,
                need: 4096,
            }),
        },
    ),
];

/// The first line that isn't printed so behind those before it.
fn failing_line(alloc: Global) -> Result<Option<&'static str>, AllocError> {
    let mut report = TurnReport::new(alloc);
    let mut want = Vec::new(alloc);
    for (text, line) in LINES {
        report.push(line)?;
        want.extend_from_slice(text.as_bytes())?;
        let mut out = MemSink::new(alloc);
        if print(alloc, &mut out, &report) != Ok(()) || out.as_slice() != want.as_slice() {
            return Ok(Some(text));
        }
    }
    Ok(None)
}

/// What is otherwise with lines and texts of replies with a value.
fn failing_reply(alloc: Global) -> Result<Option<&'static str>, AllocError> {
    let key = Bytes::copy(alloc, b"a")?;
    let mut report = TurnReport::new(alloc);
    report.push(Line::Took {
        who: 2,
        command: Command::Check,
        turn: Turn::Done(Reply::Value(Bytes::copy(alloc, b"1")?)),
    })?;
    report.push(Line::Took {
        who: 1,
        command: Command::Check,
        turn: Turn::Done(Reply::Pair(key, Bytes::copy(alloc, b"1")?)),
    })?;
    let mut out = MemSink::new(alloc);
    let printed = print(alloc, &mut out, &report);
    let is_number = match text_of_reply(alloc, &Reply::Number(7)) {
        Ok(text) => text.as_slice() == b"number 7".as_slice(),
        Err(_) => false,
    };
    Ok(first_false(&[
        ("a value and a pair", printed == Ok(())),
        ("their lines", out.as_slice() == VALUES),
        ("the text of a number", is_number),
    ]))
}

/// What is otherwise where the second write of a sink fails.
fn failing_sink(alloc: Global) -> Result<Option<&'static str>, AllocError> {
    let mut report = TurnReport::new(alloc);
    report.push(Line::JoinMany)?;
    report.push(Line::JoinMemory)?;
    let mut out = MemSink::new(alloc);
    out.fail(Call::Write, 1)?;
    let printed = print(alloc, &mut out, &report);
    Ok(first_false(&[
        (
            "the second line fails",
            printed == Err(WriteRefusal::Failed),
        ),
        (
            "one line is written",
            out.as_slice() == b"open many\n".as_slice(),
        ),
    ]))
}

#[test]
fn scripts_are_read_and_lines_written(rt: HostRuntime) {
    let alloc = rt.alloc();
    for (table, failing) in [
        ("scripts", Ok(failing_script(alloc))),
        ("plays of a script", failing_plays(alloc)),
        ("replies", failing_reply(alloc)),
        ("lines", failing_line(alloc)),
        ("a sink that fails", failing_sink(alloc)),
        ("copies", failing_copy(alloc)),
    ] {
        assert_eq!(rt; failing, Ok(None), "{table}");
    }
}
