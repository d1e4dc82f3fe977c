// The wipe of a whole file.

ghost use Rattle.std.specs.Prelude.{◌≡◌, ◌≤◌, ◌<◌, ◌+◌, ◌-◌, ◌*◌, ◌/◌, ◌%◌, ◌^◌, ◌⊎◌, ℕ, [], IsTrue, IfOk, IfSome, MatchOption, OnOk, OnErr};
ghost use Rattle.tdb_disk.specs.Count.{HasCause, RoseUpTo};
ghost use Rattle.tdb_disk.specs.Stop.{Torn};
ghost use Rattle.tdb_words.specs.Word.{word};
ghost use Rattle.tdb_space.specs.Frame.{Wrote, Looked};
ghost use Rattle.tdb_space.specs.Form.{data_start, free_head};
ghost use Rattle.tdb_space.specs.Accepted.{AcceptWith, AreaOk};
ghost use Rattle.tdb_space.specs.Spare.{RoomForAll};
ghost use Rattle.tdb_space.specs.SpareLeft.{LeavesRoom};
ghost use Rattle.tdb_chain.specs.Reads.{write_reads};
ghost use Rattle.tdb_steps.specs.Wiped.{Wiped, WipeStopped, FrontSame, IsArea, BoundsStand, MadeFree, HeadsZeroed, FreedAround, AroundStays, wipe_writes, wipe_bytes};
ghost use Rattle.tdb_steps.specs.Reads.{wipe_reads};

use tdb_space::{FREE_HEAD, Io, Space, data_start, header_stands, read_word};
use tdb_words::{FREE, Rec, rec_bytes, word_bytes};

/// The offset of the word that says where the undo area stands, or 0.
const RECOVERY_START: u64 = 44;

/// How many bytes the header of a record has.
const HEADER_LEN: u32 = 24;

/// The least length of a free record: its header and its tailer.
const LEAST: u32 = HEADER_LEN + 4;

/// How many bytes are made zero at once.
const BLOCK: usize = 4096;

/// How many writes a wipe of a file of so many chains makes at most.
pub fn wipe_writes(chains: u32) -> u32
    ensures { result ≡ wipe_writes chains }
{
    chains / 1024 + 6
}

/// How many bytes these writes have in all, at most.
pub fn wipe_bytes(chains: u32) -> u64
    ensures { result ≡ wipe_bytes chains }
{
    4 * chains as u64 + 64
}

/// Where the undo area of a file stands: from an offset up to another, both in bytes. Where there is none both are the
/// file's length.
#[derive(Clone, Copy)]
pub(crate) struct AreaBounds {
    /// The offset of its header.
    pub from: u32,

    /// The offset behind its last byte.
    pub to: u32,
}

/// Where the undo area of a file of `len` bytes stands, or nothing where none can stand at the place that the header
/// says. It reads 8 bytes at most.
fn area_bounds<S: Space>(s: &mut S, len: u32) -> Result<Option<AreaBounds>, Io>
    requires length { len ≡ S.size s.old }
    requires whole_words { len % 4 ≡ 0 }
    requires heads { data_start (S.form s.old) ≤ len }
    ensures found { IfOk result (λ found. IsTrue S.tells → AreaOk (S.form s.old) (S.image s.old) → MatchOption found ⊥ (IsArea (S.form s.old) (S.image s.old))) }
    ensures stands { IfOk result (λ found. IfSome found (BoundsStand (S.form s.old) len)) }
    ensures looked { Looked S.Space s.old s.new }
    ensures cause { HasCause (S.faults s.old) (S.faults s.new) result }
    ensures bytes_read { RoseUpTo 8 (S.bytes_read s.old) (S.bytes_read s.new) }
{
    let from = read_word(s, RECOVERY_START)?;
    if from == 0 {
        return Ok(Some(AreaBounds { from: len, to: len }));
    }
    if !header_stands(from, len as u64, s.hash_size()) {
        return Ok(None);
    }
    let rec_len = read_word(s, from as u64 + 4)?;
    if rec_len % 4 != 0 || len - from - HEADER_LEN < rec_len {
        return Ok(None);
    }
    Ok(Some(AreaBounds {
        from,
        to: from + HEADER_LEN + rec_len,
    }))
}

/// Makes the heads of the free list and of all chains 0, in large blocks.
fn zero_heads<S: Space>(s: &mut S) -> Result<(), Io>
    requires heads { data_start (S.form s.old) ≤ S.size s.old }
    requires room { RoomForAll (S.spare s.old) ((S.form s.old).chains / 1024 + 1) (4 * (S.form s.old).chains + 4) }
    ensures zeroed { OnOk result (IsTrue S.tells → HeadsZeroed (S.form s.old) (S.image s.old) (S.image s.new)) }
    ensures only { IsTrue S.tells → Torn free_head (4 * ((S.form s.old).chains + 1)) (S.image s.old) (S.image s.new) }
    ensures size { S.size s.new ≡ S.size s.old }
    ensures wrote { Wrote S.Space s.old s.new }
    ensures cause { HasCause (S.faults s.old) (S.faults s.new) result }
    ensures bytes_read { RoseUpTo (write_reads ((S.form s.old).chains / 1024 + 1) (4 * (S.form s.old).chains + 4)) (S.bytes_read s.old) (S.bytes_read s.new) }
    ensures spare { LeavesRoom ((S.form s.old).chains / 1024 + 1) (4 * (S.form s.old).chains + 4) (S.spare s.old) (S.spare s.new) }
{
    let zeros = [0u8; BLOCK];
    let end = data_start(s.hash_size());
    let mut at = FREE_HEAD as u64;
    while at < end {
        let count = (end - at).min(BLOCK as u64);
        s.write(at, &zeros[..count as usize])?;
        at += count;
    }
    Ok(())
}

/// Makes `count` bytes from an offset on zero. They are fewer than a record has.
fn blank<S: Space>(s: &mut S, from: u32, count: u32) -> Result<(), Io>
    requires short { count < 28 }
    requires within { from + count ≤ S.size s.old }
    requires room { RoomForAll (S.spare s.old) 1 28 }
    ensures zeros { OnOk result (IsTrue S.tells → (next : ℕ) → MadeFree (S.form s.old) (S.image s.old) (S.image s.new) from count next next) }
    ensures only { IsTrue S.tells → Torn from count (S.image s.old) (S.image s.new) }
    ensures size { S.size s.new ≡ S.size s.old }
    ensures wrote { Wrote S.Space s.old s.new }
    ensures cause { HasCause (S.faults s.old) (S.faults s.new) result }
    ensures bytes_read { RoseUpTo (write_reads 2 28) (S.bytes_read s.old) (S.bytes_read s.new) }
    ensures spare { LeavesRoom 2 28 (S.spare s.old) (S.spare s.new) }
{
    if count == 0 {
        return Ok(());
    }
    let zeros = [0u8; LEAST as usize];
    s.write(from as u64, &zeros[..count as usize])?;
    Ok(())
}

/// Makes `count` bytes from an offset on one free record that leads to `next`. It writes the record's header and
/// tailer.
fn free_record<S: Space>(s: &mut S, from: u32, count: u32, next: u32) -> Result<(), Io>
    requires long { 28 ≤ count }
    requires within { from + count ≤ S.size s.old }
    requires room { RoomForAll (S.spare s.old) 2 28 }
    ensures freed { OnOk result (IsTrue S.tells → MadeFree (S.form s.old) (S.image s.old) (S.image s.new) from count next from) }
    ensures only { IsTrue S.tells → Torn from count (S.image s.old) (S.image s.new) }
    ensures size { S.size s.new ≡ S.size s.old }
    ensures wrote { Wrote S.Space s.old s.new }
    ensures cause { HasCause (S.faults s.old) (S.faults s.new) result }
    ensures bytes_read { RoseUpTo (write_reads 2 28) (S.bytes_read s.old) (S.bytes_read s.new) }
    ensures spare { LeavesRoom 2 28 (S.spare s.old) (S.spare s.new) }
{
    let order = s.order();
    let rec = Rec {
        next,
        rec_len: count - HEADER_LEN,
        key_len: 0,
        data_len: 0,
        full_hash: 0,
        magic: FREE,
    };
    s.write(from as u64, &rec_bytes(&rec, order))?;
    let tailer = word_bytes(count, order);
    s.write(from as u64 + count as u64 - 4, &tailer)?;
    Ok(())
}

/// Makes a stretch of the file free, in front of a list that begins at `next`: one record where it is long enough, and
/// else zeros. It answers where the list begins then.
fn free_stretch<S: Space>(s: &mut S, from: u32, count: u32, next: u32) -> Result<u32, Io>
    requires within { from + count ≤ S.size s.old }
    requires room { RoomForAll (S.spare s.old) 2 28 }
    ensures freed { IfOk result (λ first. IsTrue S.tells → MadeFree (S.form s.old) (S.image s.old) (S.image s.new) from count next first) }
    ensures only { IsTrue S.tells → Torn from count (S.image s.old) (S.image s.new) }
    ensures size { S.size s.new ≡ S.size s.old }
    ensures wrote { Wrote S.Space s.old s.new }
    ensures cause { HasCause (S.faults s.old) (S.faults s.new) result }
    ensures bytes_read { RoseUpTo (write_reads 2 28) (S.bytes_read s.old) (S.bytes_read s.new) }
    ensures spare { LeavesRoom 2 28 (S.spare s.old) (S.spare s.new) }
{
    if count < LEAST {
        blank(s, from, count)?;
        Ok(next)
    } else {
        free_record(s, from, count, next)?;
        Ok(from)
    }
}

/// Makes what lies before and behind the undo area of a file of `len` bytes free, and leads the free list there.
fn free_around<S: Space>(s: &mut S, len: u32, area: AreaBounds) -> Result<(), Io>
    requires length { len ≡ S.size s.old }
    requires stands { BoundsStand (S.form s.old) len area }
    requires room { RoomForAll (S.spare s.old) 5 60 }
    ensures freed { OnOk result (IsTrue S.tells → FreedAround (S.form s.old) (S.image s.old) (S.image s.new) area) }
    ensures stopped { OnErr result (IsTrue S.tells → (word (S.form s.old).order (S.image s.new) free_head ≡ word (S.form s.old).order (S.image s.old) free_head)
        ⊎ FreedAround (S.form s.old) (S.image s.old) (S.image s.new) area) }
    ensures stays { IsTrue S.tells → AroundStays (S.form s.old) (S.image s.old) (S.image s.new) area }
    ensures size { S.size s.new ≡ S.size s.old }
    ensures wrote { Wrote S.Space s.old s.new }
    ensures cause { HasCause (S.faults s.old) (S.faults s.new) result }
    ensures bytes_read { RoseUpTo (write_reads 5 60) (S.bytes_read s.old) (S.bytes_read s.new) }
    ensures spare { LeavesRoom 5 60 (S.spare s.old) (S.spare s.new) }
{
    let start = data_start(s.hash_size()) as u32;
    let behind = free_stretch(s, area.to, len - area.to, 0)?;
    let first = free_stretch(s, start, area.from - start, behind)?;
    let order = s.order();
    s.write_word(FREE_HEAD as u64, word_bytes(first, order))?;
    Ok(())
}

/// Wipes a file: afterwards all chains are empty, and what the undo area doesn't hold is free. Each greatest stretch of
/// it is one record of the free list where it has 28 bytes or more, and else zeros; the records stand in the list in
/// order of place. The header, the undo area and the length stay.
///
/// It reads 8 bytes at most, and no record. It makes the heads of all lists 0, in blocks of 4096 bytes, then writes the
/// records of the free list, and leads to them last. So after `Io` no list leads to a record that was half written:
/// either heads alone have changed, or all lists are empty, or the file is wiped. What the empty lists held is lost
/// then. The caller makes room for all writes first, by `wipe_writes` and `wipe_bytes`. Over bytes that are no accepted
/// file, nothing is written where the length is none of a file, or where no undo area can stand where the header says.
pub fn wipe<S: Space>(s: &mut S) -> Result<(), Io>
    requires room { RoomForAll (S.spare s.old) (wipe_writes (S.form s.old).chains) (wipe_bytes (S.form s.old).chains) }
    ensures wiped { OnOk result (IsTrue S.tells → S.size s.old < 2 ^ 32 → AcceptWith (S.form s.old) (S.image s.old) [] → Wiped (S.form s.old) (S.image s.old) (S.image s.new)) }
    ensures stopped { OnErr result (IsTrue S.tells → AcceptWith (S.form s.old) (S.image s.old) [] → WipeStopped (S.form s.old) (S.image s.old) (S.image s.new)) }
    ensures stays { IsTrue S.tells → AcceptWith (S.form s.old) (S.image s.old) [] → FrontSame (S.form s.old) (S.image s.old) (S.image s.new) }
    ensures left_out { (S.size s.old < data_start (S.form s.old)) ⊎ (2 ^ 32 ≤ S.size s.old) → S.image s.new ≡ S.image s.old }
    ensures size { S.size s.new ≡ S.size s.old }
    ensures wrote { Wrote S.Space s.old s.new }
    ensures cause { HasCause (S.faults s.old) (S.faults s.new) result }
    ensures bytes_read { RoseUpTo (wipe_reads (S.form s.old).chains) (S.bytes_read s.old) (S.bytes_read s.new) }
    ensures spare { LeavesRoom (wipe_writes (S.form s.old).chains) (wipe_bytes (S.form s.old).chains) (S.spare s.old) (S.spare s.new) }
{
    let len = s.len()?;
    if len < data_start(s.hash_size()) || len > u32::MAX as u64 || len % 4 != 0 {
        return Ok(());
    }
    let Some(area) = area_bounds(s, len as u32)? else {
        return Ok(());
    };
    zero_heads(s)?;
    free_around(s, len as u32, area)
}
