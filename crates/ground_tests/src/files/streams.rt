// Streams from and to files.

use crate::files::folder::{self, FOLDER, has_all, lay};
use crate::rows::Row;
use std::fs;
use tdb_disk::{Sink, Source, SourceFault};
use tdb_files::{FileSink, InSource, OutSink};

const FILE: &str = "tdb_files_test/stream";

/// The path of a sink, what is laid as the file before, if anything is, whether the sink is made and takes `one two`,
/// and what the file has then.
pub(crate) struct Made {
    path: &'static str,
    laid: Option<&'static [u8]>,
    made: bool,
    left: &'static [u8],
}

pub(crate) static SINKS: [(&'static str, Made); 4] = [
    (
        "where nothing is",
        Made {
            path: FILE,
            laid: None,
            made: true,
            left: b"one two",
        },
    ),
    (
        "over another file",
        Made {
            path: FILE,
            laid: Some(b"no database"),
            made: true,
            left: b"one two",
        },
    ),
    (
        "over a database",
        Made {
            path: FILE,
            laid: Some(b"TDB file\nand more"),
            made: false,
            left: b"TDB file\nand more",
        },
    ),
    (
        "over a folder",
        Made {
            path: FOLDER,
            laid: Some(b"one"),
            made: false,
            left: b"one",
        },
    ),
];

impl Row for Made {
    fn holds(&self, rt: HostRuntime) -> Option<bool> {
        folder::make(rt).ok()?;
        if let Some(content) = self.laid {
            lay(rt, FILE, content, 0o600).ok()?;
        }
        let is_made = match FileSink::create(&rt, self.path) {
            Ok(mut sink) => sink.write(b"one ").is_ok() && sink.write(b"two").is_ok(),
            Err(_) => false,
        };
        Some(is_made == self.made && has_all(rt, &[(FILE, Some(self.left))]))
    }
}

/// A path, and what a source over it gives up to its end; None where it fails.
pub(crate) struct Opened(&'static str, Option<&'static [u8]>);

pub(crate) static SOURCES: [(&'static str, Opened); 2] = [
    ("a file", Opened(FILE, Some(b"one two"))),
    ("a folder", Opened(FOLDER, None)),
];

impl Row for Opened {
    // What is open to be read can't be written.
    fn holds(&self, rt: HostRuntime) -> Option<bool> {
        lay(rt, FILE, b"one two", 0o600).ok()?;
        let mut source = InSource::new(fs::open(&rt, self.0).ok()?);
        let mut buf = [0; 16];
        let first = source.read(&mut buf);
        let is_given = match self.1 {
            Some(bytes) => {
                first == Ok(bytes.len()) && buf.starts_with(bytes) && source.read(&mut buf) == Ok(0)
            }
            None => first == Err(SourceFault),
        };
        let mut sink = OutSink::new(fs::open(&rt, self.0).ok()?);
        Some(is_given && sink.write(b"no").is_err())
    }
}
