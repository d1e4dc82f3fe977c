//! What keeps changes off a file that isn't this run's alone.
ghost use Rattle.std.specs.Prelude.{◌≡◌, IsErr, IsSome};

use crate::locks::{LockKind, lock};
use crate::pace::Pace;
use crate::reason::{Reason, is_missing};
use crate::stamp::Stamp;
use std::fs::{self, File};

/// The right to change an open file, and how this run left it. Where the file moved without this run, or its lock can't
/// be had, it isn't changed from there on.
#[derive(Drop)]
pub(crate) struct Guard {
    rt: HostRuntime,
    /// The name by which the file is looked at; None where it hasn't got it yet, or there was no memory for it.
    name: Option<String>,
    /// Why the file may not be changed; None where it may.
    unwritable: Option<Reason>,
    /// The lock that the file has, and how many seconds one for changes is waited for.
    kind: LockKind,
    seconds: u32,

    stamp: Stamp,
    /// The file wasn't changed by this run since the stamp.
    is_exact: bool,
    /// The file was changed by this run since its last sync.
    is_dirty: bool,
    /// How fast the changes follow each other.
    pace: Pace,
}

impl Guard {
    ghost use Rattle.tdb_files.specs.Guard.{IsBarred};

    /// A file as it was found, with this lock, at this name if it has it.
    pub(crate) fn new(
        rt: HostRuntime,
        name: Option<String>,
        stamp: Stamp,
        unwritable: Option<Reason>,
        kind: LockKind,
        seconds: u32,
    ) -> Guard
        ensures { IsSome unwritable → IsBarred result }
    {
        Guard {
            rt,
            name,
            unwritable,
            kind,
            seconds,
            stamp,
            is_exact: true,
            is_dirty: false,
            pace: Pace::new(),
        }
    }

    /// How the file was found, or as this run left it; None where it changed the file and didn't look since.
    pub(crate) fn stamp(&self) -> Option<Stamp> {
        self.is_exact.then_some(self.stamp)
    }

    /// The file may be changed, as far as it is known.
    fn check(&self) -> Result<(), Reason>
        ensures { IsBarred self.now → IsErr result }
    {
        match self.unwritable {
            None => Ok(()),
            Some(reason) => Err(reason),
        }
    }

    /// What is at the name of the file now, or what is open of one without a name.
    fn find(&self, file: &File) -> Result<Stamp, Reason> {
        let found = match &self.name {
            Some(name) => fs::metadata(&self.rt, name),
            None => file.metadata(),
        };
        match found {
            Ok(found) => Ok(Stamp::of(&found)),
            Err(error) if is_missing(&error) => Err(Reason::Changed),
            Err(error) => Err(error.into()),
        }
    }

    /// The file is as this run left it, and its name leads to it. Costs a call of the system.
    fn look(&self, file: &File) -> Result<(), Reason> {
        let found = self.find(file)?;
        let is_same = if self.is_exact {
            found == self.stamp
        } else {
            found.is_soon_after(&self.stamp)
        };
        if is_same {
            Ok(())
        } else {
            Err(Reason::Changed)
        }
    }

    /// Gets the lock for changes, where the file has the one for reading alone, and looks at the file: others may have
    /// changed it in between, or while this run paused.
    fn prepare(&mut self, file: &File) -> Result<(), Reason>
        ensures { self.new ≡ record self.old { kind = self.new.kind } }
    {
        if self.kind != LockKind::Exclusive {
            lock(&self.rt, file, LockKind::Exclusive, self.seconds)?;
            self.kind = LockKind::Exclusive;
        }
        self.look(file)
    }

    /// Passes an answer on. After an Err the file isn't changed any more, for that reason.
    fn settle(&mut self, answer: Result<(), Reason>) -> Result<(), Reason>
        ensures answer { result ≡ answer }
        ensures barred { IsErr answer → IsBarred self.new }
    {
        if let Err(reason) = answer {
            self.unwritable = Some(reason);
        }
        answer
    }

    /// The file may be changed now. After an Err it may not be from there on. Costs a reading of the clock, and after a
    /// pause a call of the system.
    pub(crate) fn before_change(&mut self, file: &File) -> Result<(), Reason>
        ensures barred { IsBarred self.old → IsErr result }
        ensures kept { IsErr result → IsBarred self.new }
    {
        self.is_dirty = true;
        let is_paused = self.pace.begin(&self.rt);
        if self.unwritable.is_none() && self.kind == LockKind::Exclusive && !is_paused {
            return Ok(());
        }
        let answer = match self.check() {
            Ok(()) => self.prepare(file),
            Err(reason) => Err(reason),
        };
        self.settle(answer)
    }

    /// Notes how the file is. Costs a call of the system; where that fails nothing is noted.
    fn note(&mut self, file: &File)
        ensures { self.new.unwritable ≡ self.old.unwritable }
    {
        match file.metadata() {
            Ok(found) => {
                self.stamp = Stamp::of(&found);
                self.is_exact = true;
                self.pace.note();
            }
            Err(_) => self.is_exact = false,
        }
    }

    /// The length of the file was changed.
    pub(crate) fn after_length(&mut self, file: &File)
        ensures { self.new.unwritable ≡ self.old.unwritable }
    {
        self.note(file);
    }

    /// Bytes of the file were changed. Costs a reading of the clock, and a call of the system but for most changes that
    /// come at once.
    pub(crate) fn after_bytes(&mut self, file: &File)
        ensures { self.new.unwritable ≡ self.old.unwritable }
    {
        if self.pace.end(&self.rt) {
            self.note(file);
        } else {
            self.is_exact = false;
        }
    }

    /// What was changed may be made last. Where the file was changed by this run since the last sync, it is looked at.
    pub(crate) fn before_sync(&mut self, file: &File) -> Result<(), Reason>
        ensures { IsBarred self.old → IsBarred self.new }
    {
        if !self.is_dirty {
            return Ok(());
        }
        let answer = match self.check() {
            Ok(()) => self.look(file),
            Err(reason) => Err(reason),
        };
        self.settle(answer)
    }

    /// What was changed is on the medium.
    pub(crate) fn after_sync(&mut self, file: &File)
        ensures { self.new.unwritable ≡ self.old.unwritable }
    {
        if self.is_dirty {
            self.is_dirty = false;
            self.note(file);
        }
    }
}
