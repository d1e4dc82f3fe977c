// Sessions through a pipe that is held open: what belongs to a line is printed before more is read.

ghost use Rattle.std.specs.Prelude.{[], false};
ghost use Rattle.tdb_disk.specs.MemSink.{sink_faults};

use crate::images::ONE;
use crate::runs::run_over;
use crate::tables::files_of;
use std::alloc::{AllocError, Global};
use std::cell::Cell;
use tdb_disk::{MemSink, Sink, SinkFault, Source, SourceFault};

/// What one read gives, where nothing is the end, and what is printed of it before the next read.
type Part = (&'static str, &'static str);

/// The end of the pipe at which a session reads. A read fails where not all is printed yet that belongs to what was
/// read, and where no part is left.
#[derive(Drop)]
struct Lines<'a> {
    parts: &'a [Part],
    next: usize,

    /// How many bytes are to be printed before the next read.
    owed: &'a Cell<usize>,
    faults: u64,
}

impl Source for Lines<'_> {
    ghost tells = { false };

    ghost left = { λ _. [] };

    ghost faults = { λ s. s.faults };

    fn read(&mut self, buf: &mut [u8]) -> Result<usize, SourceFault> {
        match self.parts.get(self.next) {
            Some((line, reply)) if self.owed.get() == 0 => {
                let count = line.len().min(buf.len());
                buf[..count].copy_from_slice(&line.as_bytes()[..count]);
                self.owed.set(reply.len());
                self.next += 1;
                Ok(count)
            }
            _ => {
                self.faults = self.faults.saturating_add(1);
                Err(SourceFault)
            }
        }
    }
}

/// Where a session prints.
#[derive(Drop)]
struct Replies<'a> {
    printed: MemSink,
    owed: &'a Cell<usize>,
}

impl Sink for Replies<'_> {
    ghost tells = { false };

    ghost written = { λ _. [] };

    ghost faults = { λ s. sink_faults s.printed };

    fn write(&mut self, bytes: &[u8]) -> Result<(), SinkFault> {
        self.owed.set(self.owed.get().saturating_sub(bytes.len()));
        self.printed.write(bytes)
    }
}

/// Lines of a session over the file of one record, as they are read, and its status.
static SESSIONS: [(&'static str, &'static [Part], u8); 5] = [
    (
        "each kind of line",
        &[
            ("show a\n", "data(1) = \"1\"\n"),
            ("show b\n", "noexist\n"),
            ("insert a 2\n", "exists\n"),
            ("insert b 2\n", "ok\n"),
            ("store a 3\n", "ok\n"),
            ("storehex 63 33\n", "ok\n"),
            ("delete c\n", "ok\n"),
            ("check\n", "number 2\n"),
            ("first\n", "key(1) = \"a\" data(1) = \"3\"\n"),
            ("next\n", "key(1) = \"b\" data(1) = \"2\"\n"),
            ("next\n", "end\n"),
            (
                "dump\n",
                "{\nkey(1) = \"a\"\ndata(1) = \"3\"\n}\n{\nkey(1) = \"b\"\ndata(1) = \"2\"\n}\n",
            ),
            ("keys\n", "key(1) = \"a\"\nkey(1) = \"b\"\n"),
            ("hexkeys\n", "key(1) = 61\nkey(1) = 62\n"),
            ("transaction_start\n", "ok\n"),
            ("erase\n", "ok\n"),
            ("keys\n", ""),
            ("transaction_cancel\n", "ok\n"),
            ("transaction_commit\n", "notransaction\n"),
            ("\n", ""),
            ("erase\n", "ok\n"),
            ("check\n", "number 0\n"),
            ("", ""),
        ],
        0,
    ),
    (
        "lines that aren't read one by one",
        &[
            ("show a\nshow b\n", "data(1) = \"1\"\nnoexist\n"),
            ("sto", ""),
            ("re a 2\nkeys\nsho", "ok\nkey(1) = \"a\"\n"),
            ("w a\n", "data(1) = \"2\"\n"),
            ("", ""),
        ],
        0,
    ),
    (
        "a last line without a newline",
        &[("check\nshow a", "number 1\n"), ("", "data(1) = \"1\"\n")],
        0,
    ),
    (
        "a line that ends the session",
        &[("check\n", "number 1\n"), ("quit\n", "")],
        0,
    ),
    (
        "a line that is no command",
        &[
            ("check\n", "number 1\n"),
            ("frob\n", "input malformed at 6\n"),
        ],
        7,
    ),
];

/// Whether a session that reads these parts ends with this status, behind all of them, and prints what belongs to each.
fn is_prompt(alloc: Global, parts: &[Part], status: u8) -> Result<bool, AllocError> {
    let mut files = files_of(alloc, &[("f.tdb", ONE)])?;
    let owed = Cell::new(0);
    let mut input = Lines {
        parts,
        next: 0,
        owed: &owed,
        faults: 0,
    };
    let mut output = Replies {
        printed: MemSink::new(alloc),
        owed: &owed,
    };
    let logs = &mut Vec::new(alloc);
    let found = run_over(
        alloc,
        "tool f.tdb",
        &mut files,
        &mut input,
        &mut output,
        logs,
    )?;
    let mut wanted = Vec::new(alloc);
    for (_, reply) in parts {
        wanted.extend_from_slice(reply.as_bytes())?;
    }
    let is_read = input.next == parts.len();
    Ok(found == status && is_read && output.printed.as_slice() == wanted.as_slice())
}

/// The first session that reads on too early, or goes otherwise.
pub(crate) fn failing_session(alloc: Global) -> Result<Option<&'static str>, AllocError> {
    for (name, parts, status) in &SESSIONS {
        if !is_prompt(alloc, *parts, *status)? {
            return Ok(Some(*name));
        }
    }
    Ok(None)
}
