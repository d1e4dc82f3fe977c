//! A sink that is a file, made new, or a terminal.
ghost use Rattle.std.specs.Prelude.{◌≡◌, ◌<◌, ◌↔◌, [], false, IfOk, IsSome};

use crate::locks::{LockKind, try_lock};
use crate::opening::above_standard;
use crate::out_sink::OutSink;
use crate::reason::{Reason, is_missing};
use std::fs::{self, File, OpenOptions};
use std::io::IsTerminal;
use std::os::unix::fs::{FileExt, FileTypeExt};
use tdb_disk::{Sink, SinkFault};

/// A file that is written from its beginning on. It tells no content.
#[derive(Drop)]
pub struct FileSink {
    out: OutSink<File>,
}

/// The first bytes of a database.
const DATABASE: [u8; 9] = *b"TDB file\n";

/// A file that is there can be opened without waiting: nothing but a regular file or a device, of which the terminals
/// are some.
fn check_kind(rt: &HostRuntime, path: &str) -> Result<(), Reason> {
    match fs::metadata(rt, path) {
        Ok(found) if found.is_file() || found.file_type().is_char_device() => Ok(()),
        Ok(_) => Err(Reason::NotRegular),
        Err(error) if is_missing(&error) => Ok(()),
        Err(error) => Err(error.into()),
    }
}

/// The file isn't a database, nor locked as one that is open.
fn check_no_database(file: &File) -> Result<(), Reason> {
    if !file.metadata()?.is_file() {
        return Err(Reason::NotRegular);
    }
    try_lock(file, LockKind::Exclusive)?;
    let mut front = [0; DATABASE.len()];
    let len = file.read_at(&mut front, 0)?;
    if &front[..len] == DATABASE.as_slice() {
        return Err(Reason::Database);
    }
    Ok(())
}

impl FileSink {
    ghost use Rattle.tdb_files.specs.FileSink.{file_sink_faults};

    /// Makes the file at a path, or cuts the one that is there to nothing. A terminal is written to as it is. All else
    /// is refused, and so is a database, open or not. A file is locked until it is closed, so that it isn't taken as
    /// one.
    pub fn create(rt: &HostRuntime, path: &str) -> Result<FileSink, Reason>
        ensures { IfOk result (λ s. file_sink_faults s ≡ 0) }
    {
        check_kind(rt, path)?;
        let opened = OpenOptions::new()
            .read(true)
            .write(true)
            .create(true)
            .open(rt, path)?;
        let file = above_standard(opened)?;
        if !file.is_terminal() {
            check_no_database(&file)?;
            file.set_len(0)?;
        }
        Ok(FileSink {
            out: OutSink::new(file),
        })
    }

    /// Why the last write that failed did; None where none did.
    pub fn last_fault(&self) -> Option<Reason>
        ensures { IsSome result ↔ (0 < file_sink_faults self.now) }
    {
        self.out.last_fault()
    }
}

impl Sink for FileSink {
    ghost use Rattle.tdb_files.specs.FileSink.{file_sink_faults};

    ghost tells = { false };

    ghost written = { λ _. [] };

    ghost faults = { λ s. file_sink_faults s };

    fn write(&mut self, bytes: &[u8]) -> Result<(), SinkFault> {
        self.out.write(bytes)
    }
}
