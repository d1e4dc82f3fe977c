//! A disk that is a file of the operating system.
ghost use Rattle.std.specs.Prelude.{◌≡◌, ◌+◌, ◌^◌, ◌<◌, ◌≤◌, ◌↔◌, [], length, false, Ok, IsErr, IsSome, MatchResult};
ghost use Rattle.std.proofs.lemmas.Bool.{false≢true};
ghost use Rattle.tdb_disk.specs.Count.{HasCause};
ghost use Rattle.tdb_disk.specs.History.{began};
ghost use Rattle.tdb_files.specs.Guard.{IsBarred};

use crate::faults::Faults;
use crate::guard::Guard;
use crate::identity::Identity;
use crate::part::Part;
use crate::progress::{Passing, Progress};
use crate::reason::Reason;
use crate::replacing::Access;
use crate::stamp::Stamp;
use std::fs::File;
use std::os::unix::fs::FileExt;
use tdb_disk::{Disk, DiskFault};

/// The zeros that a file grows by, a piece at a time.
static ZEROS: [u8; 65536] = [0; 65536];

/// An open file, and its length as it was when it was opened and as the calls since have made it. It tells no content.
#[derive(Drop)]
pub struct FileDisk {
    file: File,
    identity: Identity,
    guard: Guard,
    /// What it is called until it gets its name; None for one that has it.
    part: Option<Part>,
    len: u64,
    faults: Faults<Reason>,
    syncs: u64,
    bytes_read: u64,

    /// Where a person is told what is read and written.
    progress: Option<Progress>,
    ghost len_fits: { len < 2 ^ 64 },
}

impl FileDisk {
    ghost use Rattle.tdb_files.specs.FileDisk.{file_len, file_faults, file_syncs, file_bytes_read, MayNotBeWritten};

    /// An open file of this length, in bytes, with no calls yet.
    pub(crate) fn new(
        file: File,
        identity: Identity,
        guard: Guard,
        part: Option<Part>,
        len: u64,
    ) -> FileDisk
        ensures len { file_len result ≡ len }
        ensures faults { file_faults result ≡ 0 }
        ensures syncs { file_syncs result ≡ 0 }
        ensures bytes_read { file_bytes_read result ≡ 0 }
        ensures barred { IsBarred guard → MayNotBeWritten result }
    {
        FileDisk {
            file,
            identity,
            guard,
            part,
            len,
            faults: Faults::new(),
            syncs: 0,
            bytes_read: 0,
            progress: None,
        }
    }

    /// The same file, of which a person is told what is read and written, where there is a place for it.
    pub(crate) fn with_progress(mut self, progress: Option<Progress>) -> FileDisk
        ensures { result ≡ record self { progress = progress } }
    {
        self.progress = progress;
        self
    }

    /// So many bytes were read or written.
    fn pass(&mut self, passing: Passing, count: usize)
        ensures { self.new ≡ record self.old { progress = self.new.progress } }
    {
        if let Some(progress) = &mut self.progress {
            progress.pass(passing, count);
        }
    }

    /// Which file it is.
    pub(crate) fn identity(&self) -> Identity {
        self.identity
    }

    /// Who may use the file; None where the system doesn't tell it.
    pub(crate) fn access(&self) -> Option<Access> {
        Some(Access::of(&self.file.metadata().ok()?))
    }

    /// How the file was found, or as this run left it; None where that isn't known.
    pub(crate) fn stamp(&self) -> Option<Stamp> {
        self.guard.stamp()
    }

    /// Why the last call that failed did; None where none did.
    pub(crate) fn last_fault(&self) -> Option<Reason>
        ensures { IsSome result ↔ (0 < file_faults self.now) }
    {
        self.faults.last().copied()
    }

    /// What the file is called until it gets its name; None for one that has it.
    pub(crate) fn part(&self) -> Option<&Part> {
        self.part.as_ref()
    }

    /// Counts a call that failed.
    fn count<T>(&mut self, answer: Result<T, Reason>) -> Result<T, DiskFault>
        ensures answer { MatchResult answer (λ value. result ≡ Ok value) (λ _. IsErr result) }
        ensures rest { self.new ≡ record self.old { faults = self.new.faults } }
        ensures cause { HasCause (file_faults self.old) (file_faults self.new) result }
    {
        match answer {
            Ok(value) => Ok(value),
            Err(reason) => {
                self.faults.raise(reason);
                Err(DiskFault)
            }
        }
    }

    /// Writes all the bytes from an offset on, if the file may be changed.
    fn put(&mut self, off: u64, bytes: &[u8]) -> Result<(), Reason>
        requires { off + length bytes.now < 2 ^ 64 }
        ensures barred { MayNotBeWritten self.old → IsErr result }
        ensures rest { self.new ≡ record self.old { guard = self.new.guard } }
    {
        self.guard.before_change(&self.file)?;
        let answer = put(&self.file, off, bytes);
        self.guard.after_bytes(&self.file);
        answer
    }

    /// Sets the length of the file, if it may be changed.
    fn set_len(&mut self, to: u64) -> Result<(), Reason>
        ensures barred { MayNotBeWritten self.old → IsErr result }
        ensures rest { self.new ≡ record self.old { guard = self.new.guard } }
    {
        self.guard.before_change(&self.file)?;
        let answer = self.file.set_len(to).map_err(Reason::from);
        self.guard.after_length(&self.file);
        answer
    }

    /// Makes the file longer, and writes the zeros, so that no later write there finds the medium full. Where that
    /// fails it gets its old length again.
    fn extend(&mut self, to: u64) -> Result<(), Reason>
        requires { file_len self.old ≤ to }
        ensures barred { MayNotBeWritten self.old → IsErr result }
        ensures rest { self.new ≡ record self.old { guard = self.new.guard } }
    {
        self.guard.before_change(&self.file)?;
        let answer = lengthen(&self.file, self.len, to);
        self.guard.after_length(&self.file);
        answer
    }

    /// Brings the file to the medium. Where it was changed since it was brought there last, it is looked at before.
    fn bring(&mut self) -> Result<(), Reason>
        ensures barred { MayNotBeWritten self.old → MayNotBeWritten self.new }
        ensures rest { self.new ≡ record self.old { guard = self.new.guard } }
    {
        self.guard.before_sync(&self.file)?;
        self.file.sync_all()?;
        self.guard.after_sync(&self.file);
        Ok(())
    }
}

/// Fills `buf` from an offset on. The end of the file before that is a fault.
fn fill(file: &File, off: u64, buf: &mut [u8]) -> Result<(), Reason>
    requires { off + length buf.old < 2 ^ 64 }
    ensures { length buf.new ≡ length buf.old }
{
    let mut done = 0;
    while done < buf.len() {
        match file.read_at(&mut buf[done..], off + done as u64) {
            Ok(0) => return Err(Reason::Shorter),
            Ok(n) => done += n,
            Err(error) => return Err(error.into()),
        }
    }
    Ok(())
}

/// Writes all the bytes from an offset on.
fn put(file: &File, off: u64, bytes: &[u8]) -> Result<(), Reason>
    requires { off + length bytes.now < 2 ^ 64 }
{
    let mut done = 0;
    while done < bytes.len() {
        match file.write_at(&bytes[done..], off + done as u64) {
            Ok(0) => return Err(Reason::NothingWritten),
            Ok(n) => done += n,
            Err(error) => return Err(error.into()),
        }
    }
    Ok(())
}

/// Writes zeros from one offset up to another, in large pieces.
fn put_zeros(file: &File, from: u64, to: u64) -> Result<(), Reason>
    requires { from ≤ to }
{
    let mut at = from;
    while at < to {
        let len = (to - at).min(ZEROS.len() as u64);
        put(file, at, &ZEROS[..len as usize])?;
        at += len;
    }
    Ok(())
}

/// Makes a file longer, and writes the zeros. Where that fails it gets its old length again.
fn lengthen(file: &File, from: u64, to: u64) -> Result<(), Reason>
    requires { from ≤ to }
{
    file.set_len(to)?;
    let answer = put_zeros(file, from, to);
    if answer.is_err() {
        // Where this fails too, the answer is the same.
        let _ = file.set_len(from);
    }
    answer
}

impl Disk for FileDisk {
    ghost use Rattle.tdb_files.specs.FileDisk.{file_len, file_faults, file_syncs, file_bytes_read};

    ghost tells = { false };

    ghost history = { λ _. began [] };

    ghost size = { λ d. file_len d };

    ghost faults = { λ d. file_faults d };

    ghost syncs = { λ d. file_syncs d };

    ghost bytes_read = { λ d. file_bytes_read d };

    fn len(&mut self) -> Result<u64, DiskFault> {
        Ok(self.len)
    }

    fn read(&mut self, off: u64, buf: &mut [u8]) -> Result<(), DiskFault> {
        let answer = fill(&self.file, off, buf);
        self.count(answer)?;
        self.bytes_read = self.bytes_read.saturating_add(buf.len() as u64);
        self.pass(Passing::Read, buf.len());
        Ok(())
    }

    fn write(&mut self, off: u64, bytes: &[u8]) -> Result<(), DiskFault> {
        let answer = self.put(off, bytes);
        self.count(answer)?;
        self.pass(Passing::Written, bytes.len());
        Ok(())
    }

    fn write_word(&mut self, off: u64, w: [u8; 4]) -> Result<(), DiskFault> {
        let answer = self.put(off, &w);
        self.count(answer)
    }

    fn grow(&mut self, to: u64) -> Result<(), DiskFault> {
        let answer = self.extend(to);
        self.count(answer)?;
        self.len = to;
        Ok(())
    }

    fn cut(&mut self, to: u64) -> Result<(), DiskFault> {
        let answer = self.set_len(to);
        self.count(answer)?;
        self.len = to;
        Ok(())
    }

    fn sync(&mut self) -> Result<(), DiskFault> {
        let answer = self.bring();
        self.count(answer)?;
        self.syncs = self.syncs.saturating_add(1);
        Ok(())
    }

    ghost told_size = { λ d told. absurd (false≢true told) };
}
