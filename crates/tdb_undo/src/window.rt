// A window over the content of the undo area, through which the headers of its entries are read a block at a time.

ghost use Rattle.std.specs.Prelude.{◌≡◌, ◌+◌, ◌-◌, ◌^◌, ◌<◌, ◌≤◌, ℕ, List, false, IsTrue, IfOk, OnOk};
ghost use Rattle.tdb_disk.specs.Count.{HasCause, RoseUpTo};
ghost use Rattle.tdb_disk.specs.History.{seen};
ghost use Rattle.tdb_words.specs.Word.{word};
ghost use Rattle.tdb_space.specs.Exchange.{Agree};
ghost use Rattle.tdb_undo.specs.Window.{Holds, MovedOn};

use crate::pieces::BLOCK;
use tdb_disk::Disk;
use tdb_space::Io;
use tdb_words::{Order, word_in};

/// How many bytes an entry begins with: its offset word and its length word.
pub(crate) const ENTRY_LEN: u64 = 8;

/// Some bytes of a file, from an offset on.
#[derive(Drop)]
pub(crate) struct Window {
    /// The bytes; only the first `len` count.
    pub bytes: [u8; BLOCK],

    /// The offset of the first one.
    pub from: u64,

    /// How many there are.
    pub len: usize,
}

impl Window {
    /// A window that holds no byte.
    pub(crate) fn new() -> Self
        ensures empty { (result.from ≡ 0) × (result.len ≡ 0) }
        ensures short { result.len ≤ 4096 }
        ensures holds { (img : List ℕ) → Holds result img }
    {
        Window {
            bytes: [0; BLOCK],
            from: 0,
            len: 0,
        }
    }

    /// Reads a block from an offset on, or less where the end is nearer.
    fn fill<D: Disk>(&mut self, d: &mut D, at: u64, end: u64) -> Result<(), Io>
        requires within { at + 8 ≤ end }
        requires end { end ≤ D.size d.old }
        requires short { self.old.len ≤ 4096 }
        ensures reached { OnOk result ((self.new.from ≡ at) × (8 ≤ self.new.len)) }
        ensures holds { OnOk result (IsTrue D.tells → (img : List ℕ) → Agree img (seen (D.history d.old)) at end → Holds self.new img) }
        ensures short_still { self.new.len ≤ 4096 }
        ensures still { D.history d.new ≡ D.history d.old }
        ensures size { D.size d.new ≡ D.size d.old }
        ensures cause { HasCause (D.faults d.old) (D.faults d.new) result }
        ensures syncs { D.syncs d.new ≡ D.syncs d.old }
        ensures reads { OnOk result ((self.new.from + self.new.len ≤ end) × RoseUpTo self.new.len (D.bytes_read d.old) (D.bytes_read d.new)) }
        ensures bytes_read { RoseUpTo (end - at) (D.bytes_read d.old) (D.bytes_read d.new) }
    {
        let len = (end - at).min(BLOCK as u64) as usize;
        d.read(at, &mut self.bytes[..len])?;
        self.from = at;
        self.len = len;
        Ok(())
    }

    /// Whether the eight bytes from an offset on are in the window.
    fn has(&self, at: u64) -> bool
        requires short { self.now.len ≤ 4096 }
        ensures has { IsTrue result → (self.now.from ≤ at) × (at + 8 ≤ self.now.from + self.now.len) }
        ensures has_not { result ≡ false → self.now.from ≤ at → self.now.from + self.now.len < at + 8 }
    {
        self.from <= at
            && at - self.from <= BLOCK as u64
            && at - self.from + ENTRY_LEN <= self.len as u64
    }

    /// The offset word and the length word of the entry at an offset of a content that ends at `end`.
    pub(crate) fn entry_words<D: Disk>(
        &mut self,
        d: &mut D,
        order: Order,
        at: u64,
        end: u64,
    ) -> Result<(u32, u32), Io>
        requires within { at + 8 ≤ end }
        requires end { end ≤ D.size d.old }
        requires short { self.old.len ≤ 4096 }
        ensures reached { OnOk result (self.new.from ≤ at) }
        ensures words { IfOk result (λ w. IsTrue D.tells → (img : List ℕ) → Agree img (seen (D.history d.old)) at end → Holds self.old img
            → (w.0 ≡ word order img at) × (w.1 ≡ word order img (at + 4))) }
        ensures holds { OnOk result (IsTrue D.tells → (img : List ℕ) → Agree img (seen (D.history d.old)) at end → Holds self.old img → Holds self.new img) }
        ensures short_still { self.new.len ≤ 4096 }
        ensures still { D.history d.new ≡ D.history d.old }
        ensures size { D.size d.new ≡ D.size d.old }
        ensures cause { HasCause (D.faults d.old) (D.faults d.new) result }
        ensures syncs { D.syncs d.new ≡ D.syncs d.old }
        ensures reads { OnOk result (self.old.from ≤ at → self.old.from + self.old.len ≤ end → MovedOn self.old self.new at end (D.bytes_read d.old) (D.bytes_read d.new)) }
        ensures bytes_read { RoseUpTo (end - at) (D.bytes_read d.old) (D.bytes_read d.new) }
    {
        self.reach(d, at, end)?;
        let i = (at - self.from) as usize;
        Ok((
            word_in(&self.bytes, i, order),
            word_in(&self.bytes, i + 4, order),
        ))
    }

    /// Sees to it that the eight bytes from an offset on are in the window.
    fn reach<D: Disk>(&mut self, d: &mut D, at: u64, end: u64) -> Result<(), Io>
        requires within { at + 8 ≤ end }
        requires end { end ≤ D.size d.old }
        requires short { self.old.len ≤ 4096 }
        ensures reached { OnOk result ((self.new.from ≤ at) × (at + 8 ≤ self.new.from + self.new.len)) }
        ensures holds { OnOk result (IsTrue D.tells → (img : List ℕ) → Agree img (seen (D.history d.old)) at end → Holds self.old img → Holds self.new img) }
        ensures short_still { self.new.len ≤ 4096 }
        ensures still { D.history d.new ≡ D.history d.old }
        ensures size { D.size d.new ≡ D.size d.old }
        ensures cause { HasCause (D.faults d.old) (D.faults d.new) result }
        ensures syncs { D.syncs d.new ≡ D.syncs d.old }
        ensures reads { OnOk result (self.old.from ≤ at → self.old.from + self.old.len ≤ end → MovedOn self.old self.new at end (D.bytes_read d.old) (D.bytes_read d.new)) }
        ensures bytes_read { RoseUpTo (end - at) (D.bytes_read d.old) (D.bytes_read d.new) }
    {
        if self.has(at) {
            return Ok(());
        }
        self.fill(d, at, end)
    }
}
