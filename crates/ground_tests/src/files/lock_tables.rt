// The system's table of locks, and the names of processes.

use crate::rows::Row;
use tdb_files::{Holder, Identity, LockFamily, ProcessName, find_lock, has_lock};

/// The number of this process, and that of another one.
const OWN: u32 = 77;

const OTHER: u32 = 1234;

/// Whose lock on the file 08:02:393225 is found first in a table.
pub(crate) enum Whose {
    Nobody,
    /// The process `OTHER`.
    Other,
    /// A process that can't be told.
    Unknown,
}

/// A table, and whose lock of each family is found first, but for this process.
pub(crate) struct Found {
    table: &'static str,
    other: Whose,
    whole: Whose,
}

/// Nothing of the file stands in the table.
const NOTHING: Found = Found {
    table: "",
    other: Whose::Nobody,
    whole: Whose::Nobody,
};

pub(crate) static TABLES: [(&'static str, Found); 9] = [
    ("no lines", NOTHING),
    (
        "lines that are none of the table",
        Found {
            table: "\n\n1:\n1: ->\n2: POSIX  ADVISORY  WRITE\n3: POSIX  ADVISORY  WRITE 1234 <none>:0 0 EOF\nPOSIX 1234",
            ..NOTHING
        },
    ),
    (
        "numbers that are none",
        Found {
            table: "1: POSIX  ADVISORY  WRITE 1234 0g:02:393225 0 EOF\n1: POSIX  ADVISORY  WRITE 1234 08:02:-1 0 EOF\n\
                    1: POSIX  ADVISORY  WRITE 1234 08:393225 0 EOF",
            ..NOTHING
        },
    ),
    (
        "other devices, and other files",
        Found {
            table: "1: POSIX  ADVISORY  WRITE 1234 08:03:393225 0 EOF\n2: POSIX  ADVISORY  WRITE 1234 18:02:393225 0 EOF\n\
                    3: POSIX  ADVISORY  WRITE 1234 08:02:39322 0 EOF\n4: POSIX  ADVISORY  WRITE 1234 08:02:3932250 0 EOF",
            ..NOTHING
        },
    ),
    (
        "this process",
        Found {
            table: "1: POSIX  ADVISORY  WRITE 77 08:02:393225 0 EOF\n2: FLOCK  ADVISORY  WRITE 77 08:02:393225 0 EOF\n",
            ..NOTHING
        },
    ),
    (
        "another process, behind other lines",
        Found {
            table: "1: POSIX  ADVISORY  READ 77 08:02:393225 4 4\nodd\n2: POSIX  ADVISORY  WRITE 1234 08:02:393225 168 168",
            other: Whose::Other,
            whole: Whose::Nobody,
        },
    ),
    (
        "a lock that is waited for, and a lease",
        Found {
            table: "9: -> POSIX  ADVISORY  WRITE 1234 08:02:393225 0 EOF\n10: LEASE  ACTIVE    READ  9 08:02:393225 0 EOF",
            other: Whose::Other,
            whole: Whose::Nobody,
        },
    ),
    (
        "locks of no process that is seen",
        Found {
            table: "1: OFDLCK ADVISORY  WRITE -1 08:02:393225 0 EOF\n2: FLOCK  ADVISORY  WRITE 0 08:02:393225 0 EOF\n",
            other: Whose::Unknown,
            whole: Whose::Unknown,
        },
    ),
    (
        "a lock on the whole file",
        Found {
            table: "1: FLOCK  ADVISORY  WRITE 1234 08:02:393225 0 EOF\n",
            other: Whose::Nobody,
            whole: Whose::Other,
        },
    ),
];

impl Row for Found {
    fn holds(&self, _rt: HostRuntime) -> Option<bool> {
        let file = Identity::on_device(8, 2, 393225);
        for (family, whose) in [
            (LockFamily::Other, &self.other),
            (LockFamily::Whole, &self.whole),
        ] {
            let is_so = match (find_lock(self.table, file, family, OWN), whose) {
                (None, Whose::Nobody) => true,
                (Some(entry), Whose::Unknown) => entry.process.is_none(),
                (Some(entry), Whose::Other) => {
                    entry.process == Some(OTHER) && has_lock(self.table, file, family, OTHER)
                }
                _ => false,
            };
            if !is_so {
                return Some(false);
            }
        }
        Some(true)
    }
}

/// The name of a process as the system's file has it, where it can be told, and how its holder is shown.
pub(crate) struct Shown(Option<&'static [u8]>, &'static str);

pub(crate) static HOLDERS: [(&'static str, Shown); 8] = [
    ("a line", Shown(Some(b"smbd\n"), "smbd (process 7)")),
    ("nothing", Shown(Some(b""), " (process 7)")),
    ("an empty line", Shown(Some(b"\n"), " (process 7)")),
    (
        "two words",
        Shown(Some(b"two words\n"), "two words (process 7)"),
    ),
    (
        "two lines",
        Shown(Some(b"two\nlines\n"), "two?lines (process 7)"),
    ),
    (
        "bytes that aren't printed",
        Shown(Some(b"\x1b[2J\xc3\xa9\n"), "?[2J?? (process 7)"),
    ),
    (
        "a long name",
        Shown(
            Some(b"a name that is longer than\n"),
            "a name that is l (process 7)",
        ),
    ),
    ("nobody that can be told", Shown(None, "another program")),
];

impl Row for Shown {
    fn holds(&self, rt: HostRuntime) -> Option<bool> {
        let holder = match self.0 {
            Some(name) => Holder::Named(ProcessName::of_file(name), 7),
            None => Holder::Unknown,
        };
        Some(format!(in rt.alloc(); "{holder}").ok()?.as_str() == self.1)
    }
}
