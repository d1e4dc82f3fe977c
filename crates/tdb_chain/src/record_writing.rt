// The bytes of a record are written.

ghost use Rattle.std.specs.Prelude.{◌≡◌, ◌+◌, ◌*◌, ◌/◌, ◌%◌, ◌≤◌, ◌<◌, ◌^◌, [], ◌∷◌, ◌++◌, length, replicate, IsTrue, OnOk};
ghost use Rattle.tdb_disk.specs.Count.{HasCause, RoseUpTo};
ghost use Rattle.tdb_disk.specs.Image.{overlay};
ghost use Rattle.tdb_words.specs.declared.record.TheConstants.{PADDING};
ghost use Rattle.tdb_words.specs.Word.{bytes_of_word};
ghost use Rattle.tdb_words.specs.Record.{bytes_of_rec};
ghost use Rattle.tdb_space.specs.Frame.{Wrote};
ghost use Rattle.tdb_space.specs.NewRecord.{record_bytes};
ghost use Rattle.tdb_space.specs.Spare.{RoomForAll};
ghost use Rattle.tdb_space.specs.SpareLeft.{LeavesRoom};
ghost use Rattle.tdb_space.specs.Stays.{OnlyIn};
ghost use Rattle.tdb_chain.specs.Changed.{OldOrWord};
ghost use Rattle.tdb_chain.specs.Reads.{write_reads};

use tdb_space::{Io, Space, fill_record};
use tdb_words::{PADDING, Rec, rec_bytes, word_bytes};

/// How many bytes of a record are put together and written at once.
const AT_ONCE: usize = 4096;

/// The most bytes that the last write of a long record has: fewer padding bytes than are written at once, and the
/// tailer.
const LAST: usize = 4100;

/// Writes some bytes.
fn put<S: Space>(s: &mut S, at: u64, bytes: &[u8]) -> Result<(), Io>
    requires within { at + length bytes.now ≤ S.size s.old }
    requires room { RoomForAll (S.spare s.old) 1 (length bytes.now) }
    ensures written { OnOk result (IsTrue S.tells → S.image s.new ≡ overlay (S.image s.old) at bytes.now) }
    ensures only { IsTrue S.tells → OnlyIn ((at, length bytes.now) ∷ []) (S.image s.old) (S.image s.new) }
    ensures size { S.size s.new ≡ S.size s.old }
    ensures wrote { Wrote S.Space s.old s.new }
    ensures cause { HasCause (S.faults s.old) (S.faults s.new) result }
    ensures bytes_read { RoseUpTo (write_reads 1 (length bytes.now)) (S.bytes_read s.old) (S.bytes_read s.new) }
    ensures spare { LeavesRoom 1 (length bytes.now) (S.spare s.old) (S.spare s.new) }
{
    s.write(at, bytes)?;
    Ok(())
}

/// Writes an aligned word. After a fault it is old or new as a whole.
pub(crate) fn put_word<S: Space>(s: &mut S, at: u64, word: u32) -> Result<(), Io>
    requires aligned { at % 4 ≡ 0 }
    requires within { at + 4 ≤ S.size s.old }
    requires room { RoomForAll (S.spare s.old) 1 4 }
    ensures written { OnOk result (IsTrue S.tells → S.image s.new ≡ overlay (S.image s.old) at (bytes_of_word (S.form s.old).order word)) }
    ensures old_or_new { IsTrue S.tells → OldOrWord (S.form s.old).order (S.image s.old) at word (S.image s.new) }
    ensures only { IsTrue S.tells → OnlyIn ((at, 4) ∷ []) (S.image s.old) (S.image s.new) }
    ensures size { S.size s.new ≡ S.size s.old }
    ensures wrote { Wrote S.Space s.old s.new }
    ensures cause { HasCause (S.faults s.old) (S.faults s.new) result }
    ensures bytes_read { RoseUpTo (write_reads 1 4) (S.bytes_read s.old) (S.bytes_read s.new) }
    ensures spare { LeavesRoom 1 4 (S.spare s.old) (S.spare s.new) }
{
    s.write_word(at, word_bytes(word, s.order()))?;
    Ok(())
}

/// Writes the bytes of a record of at most 4096 bytes, at once.
fn write_short<S: Space>(s: &mut S, at: u64, rec: &Rec, key: &[u8], value: &[u8]) -> Result<(), Io>
    requires small { 24 + rec.now.rec_len ≤ 4096 }
    requires fits { length key.now + length value.now + 4 ≤ rec.now.rec_len }
    requires within { at + 24 + rec.now.rec_len ≤ S.size s.old }
    requires room { RoomForAll (S.spare s.old) 1 (24 + rec.now.rec_len) }
    ensures written { OnOk result (IsTrue S.tells
        → S.image s.new ≡ overlay (S.image s.old) at (record_bytes (S.form s.old).order rec.now key.now value.now)) }
    ensures only { IsTrue S.tells → OnlyIn ((at, 24 + rec.now.rec_len) ∷ []) (S.image s.old) (S.image s.new) }
    ensures size { S.size s.new ≡ S.size s.old }
    ensures wrote { Wrote S.Space s.old s.new }
    ensures cause { HasCause (S.faults s.old) (S.faults s.new) result }
    ensures bytes_read { RoseUpTo (write_reads 1 (24 + rec.now.rec_len)) (S.bytes_read s.old) (S.bytes_read s.new) }
    ensures spare { LeavesRoom 1 (24 + rec.now.rec_len) (S.spare s.old) (S.spare s.new) }
{
    let mut buf = [0u8; AT_ONCE];
    let bytes = &mut buf[..24 + rec.rec_len as usize];
    fill_record(bytes, rec, s.order(), key, value);
    put(s, at, bytes)?;
    Ok(())
}

/// Writes a record's header, its key and its value.
fn write_front<S: Space>(s: &mut S, at: u64, rec: &Rec, key: &[u8], value: &[u8]) -> Result<(), Io>
    requires within { at + 24 + length key.now + length value.now ≤ S.size s.old }
    requires short { at + 24 + length key.now + length value.now < 2 ^ 64 }
    requires room { RoomForAll (S.spare s.old) 3 (24 + length key.now + length value.now) }
    ensures written { OnOk result (IsTrue S.tells
        → S.image s.new ≡ overlay (S.image s.old) at (bytes_of_rec (S.form s.old).order rec.now ++ key.now ++ value.now)) }
    ensures only { IsTrue S.tells → OnlyIn ((at, 24 + length key.now + length value.now) ∷ []) (S.image s.old) (S.image s.new) }
    ensures size { S.size s.new ≡ S.size s.old }
    ensures wrote { Wrote S.Space s.old s.new }
    ensures cause { HasCause (S.faults s.old) (S.faults s.new) result }
    ensures bytes_read { RoseUpTo (write_reads 3 (24 + length key.now + length value.now)) (S.bytes_read s.old) (S.bytes_read s.new) }
    ensures spare { LeavesRoom 3 (24 + length key.now + length value.now) (S.spare s.old) (S.spare s.new) }
{
    let header = rec_bytes(rec, s.order());
    put(s, at, &header)?;
    put(s, at + 24, key)?;
    put(s, at + 24 + key.len() as u64, value)?;
    Ok(())
}

/// Writes so many times 4096 padding bytes.
fn write_padding<S: Space>(s: &mut S, at: u64, count: u64) -> Result<(), Io>
    requires within { at + 4096 * count ≤ S.size s.old }
    requires short { at + 4096 * count < 2 ^ 64 }
    requires room { RoomForAll (S.spare s.old) count (4096 * count) }
    ensures written { OnOk result (IsTrue S.tells → S.image s.new ≡ overlay (S.image s.old) at (replicate (4096 * count) PADDING)) }
    ensures only { IsTrue S.tells → OnlyIn ((at, 4096 * count) ∷ []) (S.image s.old) (S.image s.new) }
    ensures size { S.size s.new ≡ S.size s.old }
    ensures wrote { Wrote S.Space s.old s.new }
    ensures cause { HasCause (S.faults s.old) (S.faults s.new) result }
    ensures bytes_read { RoseUpTo (write_reads count (4096 * count)) (S.bytes_read s.old) (S.bytes_read s.new) }
    ensures spare { LeavesRoom count (4096 * count) (S.spare s.old) (S.spare s.new) }
{
    let padding = [PADDING; AT_ONCE];
    for i in 0..count {
        put(s, at + 4096 * i, &padding)?;
    }
    Ok(())
}

/// Writes the last padding bytes of a record, fewer than 4096, and its tailer.
fn write_end<S: Space>(s: &mut S, at: u64, padding: usize, rec_len: u32) -> Result<(), Io>
    requires few { padding < 4096 }
    requires short { 24 + rec_len < 2 ^ 32 }
    requires within { at + padding + 4 ≤ S.size s.old }
    requires room { RoomForAll (S.spare s.old) 1 (padding + 4) }
    ensures written { OnOk result (IsTrue S.tells
        → S.image s.new ≡ overlay (S.image s.old) at (replicate padding PADDING ++ bytes_of_word (S.form s.old).order (24 + rec_len))) }
    ensures only { IsTrue S.tells → OnlyIn ((at, padding + 4) ∷ []) (S.image s.old) (S.image s.new) }
    ensures size { S.size s.new ≡ S.size s.old }
    ensures wrote { Wrote S.Space s.old s.new }
    ensures cause { HasCause (S.faults s.old) (S.faults s.new) result }
    ensures bytes_read { RoseUpTo (write_reads 1 (padding + 4)) (S.bytes_read s.old) (S.bytes_read s.new) }
    ensures spare { LeavesRoom 1 (padding + 4) (S.spare s.old) (S.spare s.new) }
{
    let mut buf = [PADDING; LAST];
    let bytes = &mut buf[..padding + 4];
    let (front, tailer) = bytes.split_at_mut(padding);
    front.fill(PADDING);
    tailer.copy_from_slice(&word_bytes(24 + rec_len, s.order()));
    put(s, at, bytes)?;
    Ok(())
}

/// Writes the bytes of a record: one after the other its header, its key, its value, padding, and at last the padding
/// that is left with its tailer.
fn write_long<S: Space>(s: &mut S, at: u64, rec: &Rec, key: &[u8], value: &[u8]) -> Result<(), Io>
    requires fits { length key.now + length value.now + 4 ≤ rec.now.rec_len }
    requires short { 24 + rec.now.rec_len < 2 ^ 32 }
    requires within { at + 24 + rec.now.rec_len ≤ S.size s.old }
    requires low { at + 24 + rec.now.rec_len < 2 ^ 64 }
    requires room { RoomForAll (S.spare s.old) (4 + rec.now.rec_len / 4096) (24 + rec.now.rec_len) }
    ensures written { OnOk result (IsTrue S.tells
        → S.image s.new ≡ overlay (S.image s.old) at (record_bytes (S.form s.old).order rec.now key.now value.now)) }
    ensures only { IsTrue S.tells → OnlyIn ((at, 24 + rec.now.rec_len) ∷ []) (S.image s.old) (S.image s.new) }
    ensures size { S.size s.new ≡ S.size s.old }
    ensures wrote { Wrote S.Space s.old s.new }
    ensures cause { HasCause (S.faults s.old) (S.faults s.new) result }
    ensures bytes_read { RoseUpTo (write_reads (4 + rec.now.rec_len / 4096) (24 + rec.now.rec_len)) (S.bytes_read s.old) (S.bytes_read s.new) }
    ensures spare { LeavesRoom (4 + rec.now.rec_len / 4096) (24 + rec.now.rec_len) (S.spare s.old) (S.spare s.new) }
{
    let held = key.len() as u64 + value.len() as u64;
    let padding = rec.rec_len as u64 - held - 4;
    let behind = at + 24 + held;
    let whole = padding / 4096;
    write_front(s, at, rec, key, value)?;
    write_padding(s, behind, whole)?;
    write_end(
        s,
        behind + 4096 * whole,
        (padding % 4096) as usize,
        rec.rec_len,
    )?;
    Ok(())
}

/// Writes the bytes of a record: its header, its key, its value, padding, and its tailer. A record of at most 4096
/// bytes is written at once.
pub(crate) fn write_record<S: Space>(
    s: &mut S,
    at: u64,
    rec: &Rec,
    key: &[u8],
    value: &[u8],
) -> Result<(), Io>
    requires fits { length key.now + length value.now + 4 ≤ rec.now.rec_len }
    requires short { 24 + rec.now.rec_len < 2 ^ 32 }
    requires within { at + 24 + rec.now.rec_len ≤ S.size s.old }
    requires low { at + 24 + rec.now.rec_len < 2 ^ 64 }
    requires room { RoomForAll (S.spare s.old) (4 + rec.now.rec_len / 4096) (24 + rec.now.rec_len) }
    ensures written { OnOk result (IsTrue S.tells
        → S.image s.new ≡ overlay (S.image s.old) at (record_bytes (S.form s.old).order rec.now key.now value.now)) }
    ensures only { IsTrue S.tells → OnlyIn ((at, 24 + rec.now.rec_len) ∷ []) (S.image s.old) (S.image s.new) }
    ensures size { S.size s.new ≡ S.size s.old }
    ensures wrote { Wrote S.Space s.old s.new }
    ensures cause { HasCause (S.faults s.old) (S.faults s.new) result }
    ensures bytes_read { RoseUpTo (write_reads (4 + rec.now.rec_len / 4096) (24 + rec.now.rec_len)) (S.bytes_read s.old) (S.bytes_read s.new) }
    ensures spare { LeavesRoom (4 + rec.now.rec_len / 4096) (24 + rec.now.rec_len) (S.spare s.old) (S.spare s.new) }
{
    if rec.rec_len as usize + 24 <= AT_ONCE {
        write_short(s, at, rec, key, value)
    } else {
        write_long(s, at, rec, key, value)
    }
}
