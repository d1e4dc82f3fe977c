// The bytes of a file in the order in which they stand.

ghost use Rattle.std.specs.Prelude.{◌≡◌, ℕ, ◌+◌, ◌-◌, ◌^◌, ◌<◌, ◌≤◌, List, IsTrue, IfOk, OnOk, length, take, drop, min};
ghost use Rattle.tdb_words.specs.Word.{word};
ghost use Rattle.tdb_disk.specs.Count.{HasCause, RoseUpTo};
ghost use Rattle.tdb_space.specs.Frame.{Looked};

use std::alloc::{AllocError, Global};
use tdb_space::{Io, Space};
use tdb_words::{Order, word_in};

/// A piece of a file, which goes forward through the file, so that each byte is read once at most. It has room for a
/// record's header at least.
#[derive(Drop)]
pub(crate) struct Window {
    bytes: Vec<u8>,

    /// The offset of the first byte.
    from: u64,

    /// How many bytes are held.
    held: usize,
    ghost sized: { 24 ≤ length bytes.items },
    ghost fits: { held ≤ length bytes.items },
}

impl Window {
    ghost use Rattle.tdb_check.specs.InSequence.{reach_of, IsWindowOn};

    /// A window with room for so many bytes, which stands at an offset and holds nothing yet.
    pub fn new(alloc: Global, from: u64, room: usize) -> Result<Self, AllocError>
        requires { 24 ≤ room }
        ensures room { IfOk result (λ w. length w.bytes.items ≡ room) }
        ensures shows { IfOk result (λ w. (img : List ℕ) → IsWindowOn img w) }
        ensures at { IfOk result (λ w. (w.from ≡ from) × (reach_of w ≡ from)) }
    {
        let mut bytes = Vec::new(alloc);
        bytes.resize(room, 0)?;
        Ok(Window {
            bytes,
            from,
            held: 0,
        })
    }

    /// The offset behind the last byte that is held.
    pub fn reach(&self) -> u64
        requires { reach_of self.now < 2 ^ 64 }
        ensures { result ≡ reach_of self.now }
    {
        self.from + self.held as u64
    }

    /// The bytes from an offset on, as far as they are held.
    pub fn bytes_from(&self, at: u64) -> &[u8]
        requires back { self.now.from ≤ at }
        requires within { at ≤ reach_of self.now }
        ensures bytes { (img : List ℕ) → IsWindowOn img self.now → result.now ≡ take (length result.now) (drop at img) }
        ensures size { at + length result.now ≡ reach_of self.now }
    {
        &self.bytes[(at - self.from) as usize..self.held]
    }

    /// Whether the header and the key of the record at an offset are held, by the length in its header.
    pub fn holds_key(&self, at: u64, order: Order) -> bool
        requires back { self.now.from ≤ at }
        requires low { reach_of self.now < 2 ^ 64 }
        requires room { at + 24 < 2 ^ 64 }
        ensures { IsTrue result → at + 24 ≤ reach_of self.now }
    {
        if self.reach() < at + 24 {
            return false;
        }
        let bytes = self.bytes_from(at);
        word_in(bytes, 8, order) as usize + 24 <= bytes.len()
    }

    /// The word at an offset that isn't before the first byte. The window goes forward to it, where that isn't held.
    pub fn word<S: Space>(&mut self, s: &mut S, len: u64, at: u64) -> Result<u32, Io>
        requires length { len ≡ S.size s.old }
        requires within { at + 4 ≤ len }
        requires back { self.old.from ≤ at }
        requires reach { reach_of self.old ≤ len }
        ensures value { IfOk result (λ w. IsTrue S.tells → IsWindowOn (S.image s.old) self.old → w ≡ word (S.form s.old).order (S.image s.old) at) }
        ensures shows { OnOk result (IsTrue S.tells → IsWindowOn (S.image s.old) self.old → IsWindowOn (S.image s.old) self.new) }
        ensures from { OnOk result (self.new.from ≤ at) }
        ensures reach { OnOk result ((reach_of self.old ≤ reach_of self.new) × (reach_of self.new ≤ len)) }
        ensures looked { Looked S.Space s.old s.new }
        ensures cause { HasCause (S.faults s.old) (S.faults s.new) result }
        ensures bytes_read { OnOk result (RoseUpTo (reach_of self.new - reach_of self.old) (S.bytes_read s.old) (S.bytes_read s.new)) }
        ensures bytes_in_all { RoseUpTo (len - reach_of self.old) (S.bytes_read s.old) (S.bytes_read s.new) }
    {
        if self.reach() < at + 4 {
            self.move_to(s, len, at)?;
        }
        Ok(word_in(self.bytes_from(at), 0, s.order()))
    }

    /// Makes the window begin at an offset that isn't before its first byte, and holds what follows, as far as it has
    /// room and up to the end of the file. What is held already isn't read again.
    pub fn move_to<S: Space>(&mut self, s: &mut S, len: u64, at: u64) -> Result<(), Io>
        requires length { len ≡ S.size s.old }
        requires within { at ≤ len }
        requires back { self.old.from ≤ at }
        requires reach { reach_of self.old ≤ len }
        ensures shows { OnOk result (IsTrue S.tells → IsWindowOn (S.image s.old) self.old → IsWindowOn (S.image s.old) self.new) }
        ensures at { OnOk result (self.new.from ≡ at) }
        ensures reach { OnOk result (reach_of self.new ≡ min (at + length self.old.bytes.items) len) }
        ensures room { length self.new.bytes.items ≡ length self.old.bytes.items }
        ensures looked { Looked S.Space s.old s.new }
        ensures cause { HasCause (S.faults s.old) (S.faults s.new) result }
        ensures bytes_read { OnOk result (RoseUpTo (reach_of self.new - reach_of self.old) (S.bytes_read s.old) (S.bytes_read s.new)) }
        ensures bytes_in_all { RoseUpTo (len - reach_of self.old) (S.bytes_read s.old) (S.bytes_read s.new) }
    {
        let kept = self.reach().saturating_sub(at) as usize;
        let held = (len - at).min(self.bytes.len() as u64) as usize;
        self.bytes.copy_within(self.held - kept..self.held, 0);
        s.read(at + kept as u64, &mut self.bytes[kept..held])?;
        self.from = at;
        self.held = held;
        Ok(())
    }
}
