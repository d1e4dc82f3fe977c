// The bytes of a file, read in long pieces from its front.

ghost use Rattle.std.specs.Prelude.{◌≡◌, ◌≢◌, ◌+◌, ◌≤◌, List, ℕ, IsTrue, IfErr, OnOk, length, take, drop};
ghost use Rattle.tdb_disk.specs.Count.{HasCause, HasCauseOf};
ghost use Rattle.tdb_words.specs.Record.{rec_at};
ghost use Rattle.tdb_space.specs.Record.{magic_of};
ghost use Rattle.tdb_space.specs.Frame.{Looked};
ghost use Rattle.tdb_rescue.specs.declared.refusal.RescueRefusal.TheVariants.{Io as DiskFailed, OutFailed};

use crate::refusal::RescueRefusal;
use std::alloc::Global;
use tdb_space::{Io, Space, rec_in};
use tdb_words::{Order, Rec, word_in};

/// How many bytes are read at once, where the file has that many.
const ROOM: u64 = 65_536;

/// The length of a record's header, in bytes.
const HEADER: usize = 24;

/// A piece of a file, which goes forward through it.
#[derive(Drop)]
pub(crate) struct Window {
    /// The bytes that are held.
    bytes: Vec<u8>,

    /// The offset of the first of them.
    from: u64,
}

impl Window {
    ghost use Rattle.tdb_rescue.specs.Window.{Shows, Holds};

    /// A window that holds nothing yet. It takes no memory.
    pub fn new(alloc: Global) -> Window
        ensures { (img : List ℕ) → Shows img result }
    {
        Window {
            bytes: Vec::new(alloc),
            from: 0,
        }
    }

    /// Whether so many bytes from an offset on are held.
    fn holds(&self, off: u64, count: usize) -> bool
        ensures { IsTrue result → Holds self.now off count }
    {
        let held = self.bytes.len();
        self.from <= off && count <= held && off - self.from <= (held - count) as u64
    }

    /// Makes the window hold the header of the record at an offset of a file of `len` bytes. Where it doesn't, it goes
    /// there and reads what follows, as far as it has room and the file reaches. Where that fails it's of no use.
    pub fn go_to<S: Space>(&mut self, s: &mut S, len: u64, at: u64) -> Result<(), RescueRefusal>
        requires length { len ≡ S.size s.old }
        requires within { at + 24 ≤ len }
        ensures holds { OnOk result (Holds self.new at 24) }
        ensures shows { OnOk result (IsTrue S.tells → Shows (S.image s.old) self.old → Shows (S.image s.old) self.new) }
        ensures looked { Looked S.Space s.old s.new }
        ensures cause { HasCauseOf DiskFailed (S.faults s.old) (S.faults s.new) result }
        ensures unwritten { IfErr result (λ e. e ≢ OutFailed) }
        ensures bytes_read { S.bytes_read s.old ≤ S.bytes_read s.new }
    {
        if self.holds(at, HEADER) {
            return Ok(());
        }
        self.bytes.resize((len - at).min(ROOM) as usize, 0)?;
        s.read(at, &mut self.bytes)?;
        self.from = at;
        Ok(())
    }

    /// The magic of the record at an offset whose header is held.
    pub fn magic(&self, at: u64, order: Order) -> u32
        requires { Holds self.now at 24 }
        ensures { (img : List ℕ) → Shows img self.now → result ≡ magic_of order img at }
    {
        word_in(&self.bytes, (at - self.from) as usize + 20, order)
    }

    /// The header of the record at an offset, which is held.
    pub fn header(&self, at: u64, order: Order) -> Rec
        requires { Holds self.now at 24 }
        ensures { (img : List ℕ) → Shows img self.now → result ≡ rec_at order img at }
    {
        let start = (at - self.from) as usize;
        rec_in(&self.bytes[start..start + HEADER], order)
    }

    /// Fills `buf` with the bytes of the file from an offset on: those that are held, where all of them are, and else
    /// those that it reads.
    pub fn read<S: Space>(&self, s: &mut S, off: u64, buf: &mut [u8]) -> Result<(), Io>
        requires { off + length buf.old ≤ S.size s.old }
        ensures bytes { OnOk result (IsTrue S.tells → Shows (S.image s.old) self.now → buf.new ≡ take (length buf.old) (drop off (S.image s.old))) }
        ensures looked { Looked S.Space s.old s.new }
        ensures cause { HasCause (S.faults s.old) (S.faults s.new) result }
        ensures bytes_read { S.bytes_read s.old ≤ S.bytes_read s.new }
    {
        if !self.holds(off, buf.len()) {
            return s.read(off, buf);
        }
        let start = (off - self.from) as usize;
        buf.copy_from_slice(&self.bytes[start..start + buf.len()]);
        Ok(())
    }
}
