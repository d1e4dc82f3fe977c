// The bytes of the record that a traversal read last.

ghost use Rattle.std.specs.Prelude.{◌≡◌, ◌+◌, ◌-◌, ◌^◌, ◌<◌, ◌≤◌, List, ℕ, length, take, drop, min, IsTrue, IfOk, OnOk};
ghost use Rattle.tdb_disk.specs.Count.{HasCause, HasCauseOf, RoseUpTo};
ghost use Rattle.tdb_words.specs.Record.{rec_at};
ghost use Rattle.tdb_space.specs.Frame.{Looked};
ghost use Rattle.tdb_chain.specs.declared.refusal.ValueRefusal.TheVariants.{Io as IoRefusal};

use std::alloc::{AllocError, Global};
use tdb_chain::ValueRefusal;
use tdb_space::{Io, Space, rec_in};
use tdb_words::Rec;

/// How many bytes of a record are read at first.
const WINDOW: u64 = 128;

/// The length of a record's header, in bytes.
const HEADER: usize = 24;

/// The first bytes of a record, as far as they were read, and where in them its key and its value begin. The value goes
/// to their end.
#[derive(Drop)]
pub struct Held {
    /// Room for a record's bytes, which gets longer and never shorter. Behind those that were read it holds others.
    bytes: Vec<u8>,

    /// Where the key begins.
    key_at: usize,

    /// Where the value begins.
    value_at: usize,

    /// How many bytes of the record were read.
    end: usize,
    ghost key_first: { key_at ≤ value_at },
    ghost value_first: { value_at ≤ end },
    ghost within: { end ≤ length bytes.items },
}

impl Held {
    ghost use Rattle.tdb_backup.specs.Held.{IsFront, IsPairOf, Shows, pair_held};

    /// No record's bytes, and an empty pair. It takes no memory.
    pub fn new(alloc: Global) -> Held {
        Held {
            bytes: Vec::new(alloc),
            key_at: 0,
            value_at: 0,
            end: 0,
        }
    }

    /// The key of the pair.
    pub fn key(&self) -> &[u8]
        ensures { result.now ≡ (pair_held self.now).0 }
    {
        &self.bytes[self.key_at..self.value_at]
    }

    /// The value of the pair.
    pub fn value(&self) -> &[u8]
        ensures { result.now ≡ (pair_held self.now).1 }
    {
        &self.bytes[self.value_at..self.end]
    }

    /// Reads the header of the record at an offset of a file of `len` bytes, and what follows it as far as it fits into
    /// the window and the file reaches.
    pub fn read_front<S: Space>(
        &mut self,
        s: &mut S,
        len: u64,
        at: u32,
    ) -> Result<Rec, ValueRefusal>
        requires length { len ≡ S.size s.old }
        requires within { at + 24 ≤ len }
        ensures end { OnOk result (self.new.end ≡ min 128 (len - at)) }
        ensures front { OnOk result (IsFront self.new at len) }
        ensures shows { OnOk result (IsTrue S.tells → Shows self.new (S.image s.old) at) }
        ensures header { IfOk result (λ rec. IsTrue S.tells → rec ≡ rec_at (S.form s.old).order (S.image s.old) at) }
        ensures looked { Looked S.Space s.old s.new }
        ensures cause { HasCauseOf IoRefusal (S.faults s.old) (S.faults s.new) result }
        ensures bytes_read { RoseUpTo (min 128 (len - at)) (S.bytes_read s.old) (S.bytes_read s.new) }
    {
        self.key_at = 0;
        self.value_at = 0;
        self.end = 0;
        let end = WINDOW.min(len - at as u64) as usize;
        read_up_to(s, at as u64, &mut self.bytes, 0, end)?;
        self.end = end;
        Ok(rec_in(&self.bytes[..end], s.order()))
    }

    /// Reads on to the end of the value of the record at an offset, whose front was read and which has this header,
    /// unless that was read already.
    pub fn read_rest<S: Space>(&mut self, s: &mut S, at: u32, rec: &Rec) -> Result<(), ValueRefusal>
        requires front { IsFront self.old at (S.size s.old) }
        requires within { at + 24 + rec.now.key_len + rec.now.data_len ≤ S.size s.old }
        ensures pair { OnOk result (IsTrue S.tells → Shows self.old (S.image s.old) at
            → IsPairOf rec.now (S.image s.old) at (pair_held self.new)) }
        ensures key_length { OnOk result (length (pair_held self.new).0 ≡ rec.now.key_len) }
        ensures value_length { OnOk result (length (pair_held self.new).1 ≡ rec.now.data_len) }
        ensures looked { Looked S.Space s.old s.new }
        ensures cause { HasCauseOf IoRefusal (S.faults s.old) (S.faults s.new) result }
        ensures bytes_read { RoseUpTo (24 + rec.now.key_len + rec.now.data_len - self.old.end) (S.bytes_read s.old) (S.bytes_read s.new) }
    {
        let value_at = HEADER + rec.key_len as usize;
        let end = value_at + rec.data_len as usize;
        read_up_to(s, at as u64, &mut self.bytes, self.end, end)?;
        self.end = end;
        self.value_at = value_at;
        self.key_at = HEADER;
        Ok(())
    }

    /// Reads the key and the value of the record at an offset, which has this header: both by one read, and nothing
    /// else.
    pub fn read_known<S: Space>(
        &mut self,
        s: &mut S,
        at: u32,
        rec: &Rec,
    ) -> Result<(), ValueRefusal>
        requires within { at + 24 + rec.now.key_len + rec.now.data_len ≤ S.size s.old }
        ensures pair { OnOk result (IsTrue S.tells → IsPairOf rec.now (S.image s.old) at (pair_held self.new)) }
        ensures key_length { OnOk result (length (pair_held self.new).0 ≡ rec.now.key_len) }
        ensures value_length { OnOk result (length (pair_held self.new).1 ≡ rec.now.data_len) }
        ensures looked { Looked S.Space s.old s.new }
        ensures cause { HasCauseOf IoRefusal (S.faults s.old) (S.faults s.new) result }
        ensures bytes_read { RoseUpTo (rec.now.key_len + rec.now.data_len) (S.bytes_read s.old) (S.bytes_read s.new) }
    {
        self.key_at = 0;
        self.value_at = 0;
        self.end = 0;
        let value_at = rec.key_len as usize;
        let end = value_at + rec.data_len as usize;
        let begin = at as u64 + HEADER as u64;
        read_up_to(s, begin, &mut self.bytes, 0, end)?;
        self.end = end;
        self.value_at = value_at;
        Ok(())
    }
}

/// Fills the room up to `end` with the bytes from an offset on, of which it has the first `held`: reads what is
/// missing. The room gets longer where it's too short.
fn read_up_to<S: Space>(
    s: &mut S,
    at: u64,
    room: &mut Vec<u8>,
    held: usize,
    end: usize,
) -> Result<(), ValueRefusal>
    requires held { held ≤ length room.old.items }
    requires within { at + end ≤ S.size s.old }
    requires small { at + end < 2 ^ 64 }
    ensures long { OnOk result (end ≤ length room.new.items) }
    ensures no_shorter { length room.old.items ≤ length room.new.items }
    ensures shows { OnOk result (IsTrue S.tells → take held room.old.items ≡ take held (drop at (S.image s.old))
        → take end room.new.items ≡ take end (drop at (S.image s.old))) }
    ensures looked { Looked S.Space s.old s.new }
    ensures cause { HasCauseOf IoRefusal (S.faults s.old) (S.faults s.new) result }
    ensures bytes_read { RoseUpTo (end - held) (S.bytes_read s.old) (S.bytes_read s.new) }
{
    lengthen(room, end)?;
    if held < end {
        read_behind(s, at, held, end, room)?;
    }
    Ok(())
}

/// Makes the room so long at least.
fn lengthen(room: &mut Vec<u8>, len: usize) -> Result<(), AllocError>
    ensures long { OnOk result (len ≤ length room.new.items) }
    ensures kept { take (length room.old.items) room.new.items ≡ room.old.items }
{
    if room.len() < len {
        room.resize(len, 0)?;
    }
    Ok(())
}

/// Fills the bytes from `held` up to `end` with those that stand there from an offset on.
fn read_behind<S: Space>(
    s: &mut S,
    at: u64,
    held: usize,
    end: usize,
    room: &mut [u8],
) -> Result<(), Io>
    requires held { held ≤ end }
    requires end { end ≤ length room.old }
    requires within { at + end ≤ S.size s.old }
    requires small { at + end < 2 ^ 64 }
    ensures shows { OnOk result (IsTrue S.tells → take held room.old ≡ take held (drop at (S.image s.old))
        → take end room.new ≡ take end (drop at (S.image s.old))) }
    ensures looked { Looked S.Space s.old s.new }
    ensures cause { HasCause (S.faults s.old) (S.faults s.new) result }
    ensures bytes_read { RoseUpTo (end - held) (S.bytes_read s.old) (S.bytes_read s.new) }
{
    s.read(at + held as u64, &mut room[held..end])
}
