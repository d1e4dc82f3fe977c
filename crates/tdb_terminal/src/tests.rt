//! Tests of the answers to lines, and of a source over lines that were typed.

use crate::words::WORDS;
use crate::{Answer, TerminalSource, answer_to};
use std::alloc::Global;
use std::test::Fail;
use tdb_disk::{MemSink, MemSource, Source};

/// Lines, and what becomes of each.
static ANSWERS: [(&'static [u8], Answer); 28] = [
    (b"show a", Answer::Command),
    (b"  store\ta \\00 ", Answer::Command),
    (b"storehex 61 \"\"", Answer::Command),
    (b"insert a 1", Answer::Command),
    (b"delete a", Answer::Command),
    (b"transaction_commit", Answer::Command),
    (b"quit", Answer::Command),
    (b"", Answer::Short("next")),
    (b" \t", Answer::Short("next")),
    (b"n", Answer::Short("next")),
    (b" 1 ", Answer::Short("first")),
    (b"q", Answer::Short("quit")),
    (b"1 2", Answer::Unknown(None)),
    (b"help", Answer::Help),
    (b"help show", Answer::Help),
    (b"show", Answer::Miswritten("show KEY")),
    (b"show a b", Answer::Miswritten("show KEY")),
    (b"show \\x", Answer::Miswritten("show KEY")),
    (b"storehex a 1", Answer::Miswritten("storehex KEY DATA")),
    (b"quit now", Answer::Miswritten("quit")),
    (b"shwo a", Answer::Unknown(Some("show"))),
    (b"instert a 1", Answer::Unknown(Some("insert"))),
    (b"Check", Answer::Unknown(Some("check"))),
    (
        b"transaction_stat",
        Answer::Unknown(Some("transaction_start")),
    ),
    (b"transaction_begin", Answer::Unknown(None)),
    (b"exit", Answer::Unknown(Some("quit"))),
    (b"create", Answer::Unknown(None)),
    (b"sh\xffw a", Answer::Unknown(None)),
];

/// The first line to which the answer is another one.
fn first_wrong_answer(alloc: Global) -> Result<Option<&'static [u8]>, Fail> {
    for (line, answer) in &ANSWERS {
        if answer_to(alloc, line)? != *answer {
            return Ok(Some(*line));
        }
    }
    Ok(None)
}

/// The first command of the page that a session wouldn't take if it were written so.
fn first_idle_word(alloc: Global) -> Result<Option<&'static str>, Fail> {
    for word in &WORDS {
        if answer_to(
            alloc,
            word.usage
                .replace(alloc, "KEY", "61")?
                .replace(alloc, "DATA", "62")?
                .as_bytes(),
        )? != Answer::Command
        {
            return Ok(Some(word.name));
        }
    }
    Ok(None)
}

/// What is typed, what the session is handed of it, and what the person is told.
struct Talk {
    typed: &'static [u8],
    handed: &'static [u8],
    told: &'static [u8],
}

/// What is typed, and what comes of it.
static TALKS: [Talk; 7] = [
    Talk {
        typed: b"",
        handed: b"",
        told: b"tdb> \n",
    },
    Talk {
        typed: b"show a\nshow b\n",
        handed: b"show a\nshow b\n",
        told: b"tdb> tdb> \n",
    },
    Talk {
        typed: b"1\n\nn\nq\n",
        handed: b"first\nnext\nnext\nquit\n",
        told: b"tdb> tdb> \n",
    },
    Talk {
        typed: b"shwo a\nshow a\n",
        handed: b"show a\n",
        told: b"tdb> tdb: no command; did you mean show? 'help' lists the commands\ntdb> \n",
    },
    Talk {
        typed: b"show\n",
        handed: b"",
        told: b"tdb> tdb: it is written show KEY\ntdb> \n",
    },
    Talk {
        typed: b"check",
        handed: b"check",
        told: b"tdb> \n",
    },
    Talk {
        typed: b"check\nfrob",
        handed: b"check\n",
        told: b"tdb> \ntdb: no command; 'help' lists the commands\n",
    },
];

/// All that a source gives, by reads of a few bytes.
fn read_all<S: Source>(alloc: Global, source: &mut S) -> Result<Vec<u8>, Fail> {
    let mut all = Vec::new(alloc);
    let mut piece = [0; 3];
    for _ in 0..10000 {
        let count = source.read(&mut piece)?;
        if count == 0 {
            break;
        }
        all.extend_from_slice(&piece[..count])?;
    }
    Ok(all)
}

/// The first talk that goes otherwise.
fn first_wrong_talk(alloc: Global) -> Result<Option<&'static [u8]>, Fail> {
    for talk in &TALKS {
        let source = MemSource::new(alloc, talk.typed)?;
        let mut terminal = TerminalSource::asking(alloc, source, MemSink::new(alloc));
        if read_all(alloc, &mut terminal)?.as_slice() != talk.handed
            || terminal.told.as_slice() != talk.told
        {
            return Ok(Some(talk.typed));
        }
    }
    Ok(None)
}

#[test]
fn lines_are_answered(rt: HostRuntime) -> Result<(), Fail> {
    let alloc = rt.alloc();
    assert_eq!(rt; first_wrong_answer(alloc)?, None);
    assert_eq!(rt; first_idle_word(alloc)?, None);
    assert_eq!(rt; first_wrong_talk(alloc)?, None);
    Ok(())
}
