// All pairs of a dump text are added to a file.

ghost use Rattle.std.specs.Prelude.{◌≡◌, ◌≢◌, ◌^◌, ◌<◌, ◌≤◌, ◌↔◌, max, ℕ, List, [], ◌++◌, length, take};
ghost use Rattle.std.specs.Prelude.{IsTrue, IfOk, IfErr, OnOk};
ghost use Rattle.std.specs.List.{All, IsDistinct};
ghost use Rattle.std.specs.Map.{keys_of};
ghost use Rattle.tdb_disk.specs.Count.{HasCauseOf};
ghost use Rattle.tdb_log.specs.Logs.{Logged, ToldAll};
ghost use Rattle.tdb_dump.specs.declared.pairs.Pair.{Pair};
ghost use Rattle.tdb_dump.specs.Taken.{Took};
ghost use Rattle.tdb_space.specs.Frame.{Wrote};
ghost use Rattle.tdb_space.specs.Pairs.{same_key};
ghost use Rattle.tdb_backup.specs.Building.{HoldsPairs, BackupRefused, of_added};
ghost use Rattle.tdb_backup.specs.Growths.{CarriesTold, CopyHeard, growths_of};
ghost use Rattle.tdb_backup.specs.Restoring.{keys_and_values, Restored, RestoreCause, TextTold, TextHeard};
ghost use Rattle.tdb_backup.specs.Restoring.{IsShort, IsReading, WentOn, PieceAdded, PieceCause, PieceHeard};
ghost use Rattle.tdb_backup.specs.declared.refusal.AddRefusal.TheVariants.{Insert};
ghost use Rattle.tdb_backup.specs.declared.refusal.InsertRefusal.TheVariants.{Io as InsertIo};
ghost use Rattle.tdb_backup.specs.declared.refusal.RestoreRefusal.TheVariants.{Input, Io};

use crate::refusal::{AddRefusal, RestoreRefusal};
use crate::telling::insert_and_tell;
use std::alloc::Global;
use tdb_disk::Source;
use tdb_dump::{Pair, Reader};
use tdb_log::Logs;
use tdb_space::Space;

/// How many bytes of a text `restore_pairs` reads at most. A longer one is malformed at this place.
pub const LONGEST_TEXT: u64 = 17_179_869_184;

/// The limit above is the number 2 ^ 34.
pub fn longest_text_law()
    ensures { LONGEST_TEXT ≡ 17179869184 }
{}

/// How many bytes of text are read at once at most.
const PIECE: usize = 65536;

/// Adds pairs, in their order, and tells the last log each growth of the file.
fn add_pairs<T: Space, L: Logs>(
    to: &mut T,
    pairs: &[Pair],
    limit: u64,
    logs: &mut L,
) -> Result<(), AddRefusal>
    requires short { All IsShort pairs.now }
    requires chains { 0 < (T.form to.old).chains }
    requires limit { limit ≤ 4294963200 }
    ensures added { OnOk result (IsTrue T.tells → T.size to.old < 2 ^ 32 → (before : List Pair)
        → IsDistinct same_key (keys_of (keys_and_values (before ++ pairs.now)))
        → (first : List ℕ) → HoldsPairs limit first (T.form to.old) (T.image to.old) (keys_and_values before)
        → HoldsPairs limit first (T.form to.old) (T.image to.new) (keys_and_values (before ++ pairs.now))) }
    ensures refused { IfErr result (λ e. IsTrue T.tells → T.size to.old < 2 ^ 32 → (before : List Pair)
        → IsDistinct same_key (keys_of (keys_and_values (before ++ pairs.now)))
        → (first : List ℕ) → HoldsPairs limit first (T.form to.old) (T.image to.old) (keys_and_values before)
        → BackupRefused first (T.form to.old) (T.image to.new) (keys_and_values (before ++ pairs.now)) limit (of_added e)) }
    ensures told { OnOk result (IsTrue T.tells → T.size to.old < 2 ^ 32 → (before : List Pair)
        → IsDistinct same_key (keys_of (keys_and_values (before ++ pairs.now)))
        → (first : List ℕ) → HoldsPairs limit first (T.form to.old) (T.image to.old) (keys_and_values before)
        → CarriesTold limit (T.form to.old) first (keys_and_values before) (keys_and_values (before ++ pairs.now)) (L.logs logs.old) (L.logs logs.new)) }
    ensures heard { IfErr result (λ e. IsTrue T.tells → T.size to.old < 2 ^ 32 → (before : List Pair)
        → IsDistinct same_key (keys_of (keys_and_values (before ++ pairs.now)))
        → (first : List ℕ) → HoldsPairs limit first (T.form to.old) (T.image to.old) (keys_and_values before)
        → (start : List Logged) → ToldAll (growths_of limit (T.form to.old) first (keys_and_values before)) start (L.logs logs.old)
        → CopyHeard limit (T.form to.old) first (keys_and_values (before ++ pairs.now)) start (L.logs logs.new) (of_added e)) }
    ensures within { T.size to.new ≤ max (T.size to.old) limit }
    ensures wrote { Wrote T.Space to.old to.new }
    ensures cause { HasCauseOf (Insert InsertIo) (T.faults to.old) (T.faults to.new) result }
{
    for pair in pairs {
        insert_and_tell(to, pair.key.as_slice(), pair.value.as_slice(), limit, logs)?;
    }
    Ok(())
}

/// Reads a piece of the text, and adds the pairs that became whole. A fault behind such pairs is told by the next call.
fn add_whole<T: Space, L: Logs>(
    reader: &mut Reader,
    piece: &[u8],
    to: &mut T,
    limit: u64,
    logs: &mut L,
) -> Result<(), RestoreRefusal>
    requires reading { IsReading reader.old }
    requires chains { 0 < (T.form to.old).chains }
    requires limit { limit ≤ 4294963200 }
    ensures added { let told = IsTrue T.tells × (T.size to.old < 2 ^ 32) in let f = T.form to.old in
        OnOk result (PieceAdded limit told f (T.image to.old) (T.image to.new) reader.old reader.new piece.now (L.logs logs.old) (L.logs logs.new)) }
    ensures refused { let told = IsTrue T.tells × (T.size to.old < 2 ^ 32) in let f = T.form to.old in
        IfErr result (PieceCause told f (T.image to.old) (T.image to.new) reader.old piece.now limit) }
    ensures heard { let told = IsTrue T.tells × (T.size to.old < 2 ^ 32) in let f = T.form to.old in
        IfErr result (PieceHeard told f (T.image to.old) reader.old piece.now limit (L.logs logs.old) (L.logs logs.new)) }
    ensures no_input { IfErr result (λ e. e ≢ Input) }
    ensures within { T.size to.new ≤ max (T.size to.old) limit }
    ensures wrote { Wrote T.Space to.old to.new }
    ensures cause { HasCauseOf Io (T.faults to.old) (T.faults to.new) result }
{
    let pairs = reader.feed(piece)?.into_vec();
    add_pairs(to, &pairs, limit, logs)?;
    Ok(())
}

/// Reads a piece of the text, adds the pairs that became whole, and tells a fault behind them.
fn add_piece<T: Space, L: Logs>(
    reader: &mut Reader,
    piece: &[u8],
    to: &mut T,
    limit: u64,
    logs: &mut L,
) -> Result<(), RestoreRefusal>
    requires reading { IsReading reader.old }
    requires chains { 0 < (T.form to.old).chains }
    requires limit { limit ≤ 4294963200 }
    ensures added { let told = IsTrue T.tells × (T.size to.old < 2 ^ 32) in let f = T.form to.old in
        OnOk result (PieceAdded limit told f (T.image to.old) (T.image to.new) reader.old reader.new piece.now (L.logs logs.old) (L.logs logs.new)) }
    ensures refused { let told = IsTrue T.tells × (T.size to.old < 2 ^ 32) in let f = T.form to.old in
        IfErr result (PieceCause told f (T.image to.old) (T.image to.new) reader.old piece.now limit) }
    ensures heard { let told = IsTrue T.tells × (T.size to.old < 2 ^ 32) in let f = T.form to.old in
        IfErr result (PieceHeard told f (T.image to.old) reader.old piece.now limit (L.logs logs.old) (L.logs logs.new)) }
    ensures no_input { IfErr result (λ e. e ≢ Input) }
    ensures within { T.size to.new ≤ max (T.size to.old) limit }
    ensures wrote { Wrote T.Space to.old to.new }
    ensures cause { HasCauseOf Io (T.faults to.old) (T.faults to.new) result }
{
    add_whole(reader, piece, to, limit, logs)?;
    add_whole(reader, &[], to, limit, logs)
}

/// Reads the text to its end, or the most that is read of it, and adds the pairs that became whole. Answers whether the
/// text goes on.
fn add_text<S: Source, T: Space, L: Logs>(
    input: &mut S,
    reader: &mut Reader,
    piece: &mut [u8],
    to: &mut T,
    limit: u64,
    logs: &mut L,
) -> Result<bool, RestoreRefusal>
    requires began { Took [] [] reader.old }
    requires room { 0 < length piece.old }
    requires chains { 0 < (T.form to.old).chains }
    requires limit { limit ≤ 4294963200 }
    ensures read { let told = IsTrue T.tells × (T.size to.old < 2 ^ 32) in let f = T.form to.old in
        let whole = S.left input.old in
        IfOk result (λ longer. (text : List ℕ) × WentOn limit told f (T.image to.old) (T.image to.new) [] [] text reader.new (L.logs logs.old) (L.logs logs.new)
        × (IsTrue S.tells → (text ≡ take LONGEST_TEXT whole) × (IsTrue longer ↔ LONGEST_TEXT < length whole))) }
    ensures refused { let f = T.form to.old in
        IfErr result (λ e. IsTrue S.tells → IsTrue T.tells → T.size to.old < 2 ^ 32 → (first : List ℕ) → HoldsPairs limit first f (T.image to.old) []
        → RestoreCause first f (T.image to.new) (S.left input.old) limit e) }
    ensures heard { let f = T.form to.old in
        IfErr result (λ e. IsTrue S.tells → IsTrue T.tells → T.size to.old < 2 ^ 32 → (first : List ℕ) → HoldsPairs limit first f (T.image to.old) []
        → TextHeard limit f first (S.left input.old) (L.logs logs.old) (L.logs logs.new) e) }
    ensures within { T.size to.new ≤ max (T.size to.old) limit }
    ensures wrote { Wrote T.Space to.old to.new }
    ensures read_cause { HasCauseOf Input (S.faults input.old) (S.faults input.new) result }
    ensures write_cause { HasCauseOf Io (T.faults to.old) (T.faults to.new) result }
{
    let mut left = LONGEST_TEXT;
    while left > 0 {
        let room = left.min(piece.len() as u64) as usize;
        let count = input.read(&mut piece[..room])?;
        if count == 0 {
            return Ok(false);
        }
        add_piece(reader, &piece[..count], to, limit, logs)?;
        left -= count as u64;
    }
    Ok(input.read(&mut piece[..1])? > 0)
}

/// Reads a dump text to its end, and adds all its pairs to a file without pairs, which may be up to `limit` bytes long
/// and then has the map of the pairs. The last log is told each growth of the file, right behind the pair by which it
/// grew.
///
/// It reads pieces of up to 64 KiB, and holds one piece, the pairs that end in it, and all keys, so as to refuse a
/// second one. It looks no key up in the file: time is that of the reader for the text, and linear in the length of the
/// file. After a refusal the file holds the pairs up to the one that was refused, unless it was the file's disk that
/// failed.
///
/// `Input` where the source failed, `Io` where the disk did, `Full` where the file has no room for the next pair.
/// `Malformed` where the text isn't dump text, or is longer than `LONGEST_TEXT`: all pairs in front of that place were
/// added then. `Memory` where that is wanting. `Log` where the last log refused a growth: the pair by which the file
/// grew is added then.
pub fn restore_pairs<S: Source, T: Space, L: Logs>(
    alloc: Global,
    input: &mut S,
    to: &mut T,
    limit: u64,
    logs: &mut L,
) -> Result<(), RestoreRefusal>
    requires chains { 0 < (T.form to.old).chains }
    requires limit { limit ≤ 4294963200 }
    ensures restored { let f = T.form to.old in
        OnOk result (IsTrue S.tells → IsTrue T.tells → T.size to.old < 2 ^ 32 → (first : List ℕ) → HoldsPairs limit first f (T.image to.old) []
        → Restored limit first f (T.image to.new) (S.left input.old)) }
    ensures refused { let f = T.form to.old in
        IfErr result (λ e. IsTrue S.tells → IsTrue T.tells → T.size to.old < 2 ^ 32 → (first : List ℕ) → HoldsPairs limit first f (T.image to.old) []
        → RestoreCause first f (T.image to.new) (S.left input.old) limit e) }
    ensures told { let f = T.form to.old in
        OnOk result (IsTrue S.tells → IsTrue T.tells → T.size to.old < 2 ^ 32 → (first : List ℕ) → HoldsPairs limit first f (T.image to.old) []
        → TextTold limit f first (S.left input.old) (L.logs logs.old) (L.logs logs.new)) }
    ensures heard { let f = T.form to.old in
        IfErr result (λ e. IsTrue S.tells → IsTrue T.tells → T.size to.old < 2 ^ 32 → (first : List ℕ) → HoldsPairs limit first f (T.image to.old) []
        → TextHeard limit f first (S.left input.old) (L.logs logs.old) (L.logs logs.new) e) }
    ensures within { T.size to.new ≤ max (T.size to.old) limit }
    ensures wrote { Wrote T.Space to.old to.new }
    ensures read_cause { HasCauseOf Input (S.faults input.old) (S.faults input.new) result }
    ensures write_cause { HasCauseOf Io (T.faults to.old) (T.faults to.new) result }
{
    let mut reader = Reader::new(alloc);
    let mut piece = vec![in alloc; 0u8; PIECE]?;
    let longer = add_text(input, &mut reader, &mut piece, to, limit, logs)?;
    reader.end()?;
    if longer {
        return Err(RestoreRefusal::Malformed { at: LONGEST_TEXT });
    }
    Ok(())
}
