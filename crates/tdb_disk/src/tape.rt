//! The bytes of a disk in memory and all that was done to them.
ghost use Rattle.std.specs.Prelude.{◌≡◌, ◌+◌, ◌≤◌, ◌<◌, ◌^◌, [], length, OnOk, OnErr, IfOk};
ghost use Rattle.tdb_disk.specs.History.{wrote, wrote_word, grew, cut, synced, began, called, seen};
ghost use Rattle.tdb_disk.specs.Picked.{synced_image, torn_image};
ghost use Rattle.tdb_disk.specs.Tape.{history_of};

use std::alloc::{AllocError, Global};

/// A call that changed the disk.
#[derive(Drop)]
pub enum Change {
    Write(u64, Vec<u8>),
    WriteWord(u64, [u8; 4]),
    Grow(u64),
    Cut(u64),
    Sync,
}

/// The bytes at first, the changes since, and what follows from them: the bytes as a read gives them, those of the last
/// sync, and those with 0xA5 where a write isn't synced.
#[derive(Drop)]
pub struct Tape {
    pub start: Vec<u8>,
    pub changes: Vec<Change>,
    pub bytes: Vec<u8>,
    pub synced: Vec<u8>,
    pub torn: Vec<u8>,
    pub ghost same: { bytes.items ≡ seen (history_of start.items changes.items) },
    pub ghost same_synced: { synced.items ≡ synced_image (history_of start.items changes.items) },
    pub ghost same_torn: { torn.items ≡ torn_image (history_of start.items changes.items) },
    pub ghost sized: { length torn.items ≡ length bytes.items },
}

impl Tape {
    ghost use Rattle.tdb_disk.specs.MemDisk.{tape_history};

    /// These bytes, synced.
    pub(crate) fn new(alloc: Global, bytes: &[u8]) -> Result<Tape, AllocError>
        ensures { IfOk result (λ tape. tape_history tape ≡ began bytes.now) }
    {
        Ok(Tape {
            start: Vec::from_slice(alloc, bytes)?,
            changes: Vec::new(alloc),
            bytes: Vec::from_slice(alloc, bytes)?,
            synced: Vec::from_slice(alloc, bytes)?,
            torn: Vec::from_slice(alloc, bytes)?,
        })
    }

    pub(crate) fn write(&mut self, alloc: Global, off: u64, bytes: &[u8]) -> Result<(), AllocError>
        requires { off + length bytes.now ≤ length self.old.bytes.items }
        ensures done { OnOk result (tape_history self.new ≡ called (tape_history self.old) (wrote off bytes.now)) }
        ensures kept { OnErr result (tape_history self.new ≡ tape_history self.old) }
        ensures size { length self.new.bytes.items ≡ length self.old.bytes.items }
    {
        let copy = Vec::from_slice(alloc, bytes)?;
        self.changes.push(Change::Write(off, copy))?;
        let at = off as usize;
        self.bytes[at..at + bytes.len()].copy_from_slice(bytes);
        self.torn[at..at + bytes.len()].fill(0xA5);
        Ok(())
    }

    pub(crate) fn write_word(&mut self, off: u64, w: [u8; 4]) -> Result<(), AllocError>
        requires { off + 4 ≤ length self.old.bytes.items }
        ensures done { OnOk result (tape_history self.new ≡ called (tape_history self.old) (wrote_word off w)) }
        ensures kept { OnErr result (tape_history self.new ≡ tape_history self.old) }
        ensures size { length self.new.bytes.items ≡ length self.old.bytes.items }
    {
        self.changes.push(Change::WriteWord(off, w))?;
        let at = off as usize;
        self.bytes[at..at + 4].copy_from_slice(&w);
        self.torn[at..at + 4].copy_from_slice(&w);
        Ok(())
    }

    pub(crate) fn grow(&mut self, to: u64) -> Result<(), AllocError>
        requires { length self.old.bytes.items ≤ to }
        ensures done { OnOk result (tape_history self.new ≡ called (tape_history self.old) (grew to)) }
        ensures kept { OnErr result (tape_history self.new ≡ tape_history self.old) }
        ensures size { OnOk result (length self.new.bytes.items ≡ to) }
        ensures same_size { OnErr result (length self.new.bytes.items ≡ length self.old.bytes.items) }
    {
        let more = to as usize - self.bytes.len();
        self.bytes.reserve(more)?;
        self.torn.reserve(more)?;
        self.changes.push(Change::Grow(to))?;
        self.bytes.resize(to as usize, 0).unwrap();
        self.torn.resize(to as usize, 0).unwrap();
        Ok(())
    }

    pub(crate) fn cut(&mut self, to: u64) -> Result<(), AllocError>
        requires { to ≤ length self.old.bytes.items }
        ensures done { OnOk result (tape_history self.new ≡ called (tape_history self.old) (cut to)) }
        ensures kept { OnErr result (tape_history self.new ≡ tape_history self.old) }
        ensures size { OnOk result (length self.new.bytes.items ≡ to) }
        ensures same_size { OnErr result (length self.new.bytes.items ≡ length self.old.bytes.items) }
    {
        self.changes.push(Change::Cut(to))?;
        self.bytes.truncate(to as usize);
        self.torn.truncate(to as usize);
        Ok(())
    }

    pub(crate) fn sync(&mut self, alloc: Global) -> Result<(), AllocError>
        ensures done { OnOk result (tape_history self.new ≡ called (tape_history self.old) synced) }
        ensures kept { OnErr result (tape_history self.new ≡ tape_history self.old) }
        ensures size { length self.new.bytes.items ≡ length self.old.bytes.items }
    {
        let last = Vec::from_slice(alloc, &self.bytes)?;
        let torn = Vec::from_slice(alloc, &self.bytes)?;
        self.changes.push(Change::Sync)?;
        self.synced = last;
        self.torn = torn;
        Ok(())
    }
}
