// What a file holds is written: its summary, its chains with their records, or its free list.

ghost use Rattle.std.specs.Prelude.{◌≡◌, ◌+◌, ◌++◌, ◌<◌, ◌≤◌, List, length, IsTrue, IfOk, OnOk, OnErr, IsErrOf};
ghost use Rattle.std.specs.List.{flat_map};
ghost use Rattle.tdb_disk.specs.Count.{HasCause, HasCauseOf};
ghost use Rattle.tdb_words.specs.Word.{word};
ghost use Rattle.tdb_words.specs.Header.{sequence_at};
ghost use Rattle.tdb_space.specs.Frame.{Looked};
ghost use Rattle.tdb_space.specs.Extents.{HandPair};
ghost use Rattle.tdb_space.specs.Accepted.{Accept, AcceptWith};
ghost use Rattle.tdb_check.specs.Report.{Counted, IsFormOf};
ghost use Rattle.tdb_backup.specs.Dump.{HandedOn, WroteFront};
ghost use Rattle.tdb_rewrite.specs.Text.{chains_text, free_line, free_text, info_text};
ghost use Rattle.tdb_rewrite.specs.declared.refusal.ShowRefusal.TheVariants.{Io, Failed};

use crate::lines::chain_lines;
use crate::refusal::ShowRefusal;
use crate::summing::sum_up;
use crate::text::{push_free, push_spots, summary_text};
use std::alloc::Global;
use tdb_check::Report;
use tdb_disk::{Sink, SinkFault};
use tdb_free::{FreeRecs, list};
use tdb_space::{Io as SpaceIo, Space, read_word};

/// Where the sequence number stands in a file.
const SEQUENCE_AT: u64 = 48;

/// How many bytes of text are written at once, or more.
const PIECE: usize = 65536;

/// Writes the text where it has at least `least` bytes, and empties it then.
fn hand_on<K: Sink>(out: &mut K, text: &mut Vec<u8>, least: usize) -> Result<(), SinkFault>
    ensures done { OnOk result (IsTrue K.tells → HandedOn (K.written out.old) text.old.items (K.written out.new) text.new.items) }
    ensures left { OnOk result (0 < least → length text.new.items < least) }
    ensures failed { OnErr result (IsTrue K.tells → WroteFront (K.written out.old) text.old.items (K.written out.new)) }
    ensures cause { HasCause (K.faults out.old) (K.faults out.new) result }
{
    if text.len() < least {
        return Ok(());
    }
    out.write(text)?;
    text.clear();
    Ok(())
}

/// The sequence number of a file of `len` bytes, or 0 where it doesn't reach so far.
fn sequence_number<S: Space>(s: &mut S, len: u64) -> Result<u32, SpaceIo>
    requires length { len ≡ S.size s.old }
    ensures number { IfOk result (λ n. IsTrue S.tells → sequence_at + 4 ≤ len → n ≡ word (S.form s.old).order (S.image s.old) sequence_at) }
    ensures looked { Looked S.Space s.old s.new }
    ensures cause { HasCause (S.faults s.old) (S.faults s.new) result }
    ensures bytes_read { S.bytes_read s.old ≤ S.bytes_read s.new }
{
    if len < SEQUENCE_AT + 4 {
        return Ok(0);
    }
    read_word(s, SEQUENCE_AT)
}

/// Writes the chains of a file that aren't empty, each by a line and a line for each of its records.
///
/// It reads 4 bytes of each chain and 24 of each record, holds the lines of one chain, and writes in pieces of at least
/// 64 KiB. Where it is refused some of the text was written, from its beginning on: `Io` where the disk failed,
/// `Failed` where the sink did, and `Memory` where that is wanting for the lines of a chain or the text.
pub fn write_chains<S: Space, K: Sink>(
    alloc: Global,
    s: &mut S,
    out: &mut K,
) -> Result<(), ShowRefusal>
    ensures written { OnOk result (IsTrue S.tells → IsTrue K.tells → (hands : List HandPair) → AcceptWith (S.form s.old) (S.image s.old) hands
        → K.written out.new ≡ K.written out.old ++ chains_text (S.form s.old) (S.image s.old)) }
    ensures front { OnErr result (IsTrue S.tells → IsTrue K.tells → (hands : List HandPair) → AcceptWith (S.form s.old) (S.image s.old) hands
        → WroteFront (K.written out.old) (chains_text (S.form s.old) (S.image s.old)) (K.written out.new)) }
    ensures looked { Looked S.Space s.old s.new }
    ensures cause { HasCauseOf Io (S.faults s.old) (S.faults s.new) result }
    ensures sink_cause { HasCauseOf Failed (K.faults out.old) (K.faults out.new) result }
    ensures bytes_read { S.bytes_read s.old ≤ S.bytes_read s.new }
{
    let mut text = Vec::new(alloc);
    for chain in 0..s.hash_size() {
        let shown = chain_lines(alloc, s, chain)?;
        push_spots(&mut text, shown.as_slice())?;
        hand_on(out, &mut text, PIECE)?;
    }
    hand_on(out, &mut text, 1)?;
    Ok(())
}

/// Writes a line for each of these free records.
fn write_records<K: Sink>(alloc: Global, records: &FreeRecs, out: &mut K) -> Result<(), ShowRefusal>
    ensures written { OnOk result (IsTrue K.tells → K.written out.new ≡ K.written out.old ++ flat_map free_line records.now) }
    ensures front { OnErr result (IsTrue K.tells → WroteFront (K.written out.old) (flat_map free_line records.now) (K.written out.new)) }
    ensures no_read { IsErrOf result Io → ⊥ }
    ensures sink_cause { HasCauseOf Failed (K.faults out.old) (K.faults out.new) result }
{
    let mut text = Vec::new(alloc);
    for index in 0..records.len() {
        push_free(&mut text, records, index)?;
        hand_on(out, &mut text, PIECE)?;
    }
    hand_on(out, &mut text, 1)?;
    Ok(())
}

/// Writes the free records of a file by a line for each, from the head of the free list on.
///
/// It reads 24 bytes of each record, holds 8 for each, and writes in pieces of at least 64 KiB. Where it is refused
/// some of the text was written, from its beginning on: `Io` where the disk failed, `Failed` where the sink did, and
/// `Memory` where that is wanting for the list or the text.
pub fn write_free_list<S: Space, K: Sink>(
    alloc: Global,
    s: &mut S,
    out: &mut K,
) -> Result<(), ShowRefusal>
    ensures written { OnOk result (IsTrue S.tells → IsTrue K.tells → (hands : List HandPair) → AcceptWith (S.form s.old) (S.image s.old) hands
        → K.written out.new ≡ K.written out.old ++ free_text (S.form s.old) (S.image s.old)) }
    ensures front { OnErr result (IsTrue S.tells → IsTrue K.tells → (hands : List HandPair) → AcceptWith (S.form s.old) (S.image s.old) hands
        → WroteFront (K.written out.old) (free_text (S.form s.old) (S.image s.old)) (K.written out.new)) }
    ensures looked { Looked S.Space s.old s.new }
    ensures cause { HasCauseOf Io (S.faults s.old) (S.faults s.new) result }
    ensures sink_cause { HasCauseOf Failed (K.faults out.old) (K.faults out.new) result }
    ensures bytes_read { S.bytes_read s.old ≤ S.bytes_read s.new }
{
    let records = list(alloc, s)?;
    write_records(alloc, &records, out)
}

/// Writes the summary of an accepted file, in which a check counted this: a line for each number.
///
/// It reads 24 bytes of each record. Where it is refused some of the text was written, from its beginning on: `Io`
/// where the disk failed, `Failed` where the sink did, and `Memory` where that is wanting for the text, which is
/// shorter than 400 bytes.
pub fn write_summary<S: Space, K: Sink>(
    alloc: Global,
    s: &mut S,
    report: &Report,
    out: &mut K,
) -> Result<(), ShowRefusal>
    ensures written { OnOk result (IsTrue S.tells → IsTrue K.tells → IsFormOf (S.form s.old) (S.image s.old) → Accept (S.image s.old)
        → Counted (S.image s.old) report.now → K.written out.new ≡ K.written out.old ++ info_text (S.image s.old)) }
    ensures front { OnErr result (IsTrue S.tells → IsTrue K.tells → IsFormOf (S.form s.old) (S.image s.old) → Accept (S.image s.old)
        → Counted (S.image s.old) report.now → WroteFront (K.written out.old) (info_text (S.image s.old)) (K.written out.new)) }
    ensures looked { Looked S.Space s.old s.new }
    ensures cause { HasCauseOf Io (S.faults s.old) (S.faults s.new) result }
    ensures sink_cause { HasCauseOf Failed (K.faults out.old) (K.faults out.new) result }
    ensures bytes_read { S.bytes_read s.old ≤ S.bytes_read s.new }
{
    let sum = sum_up(s, report)?;
    let len = s.len()?;
    let sequence = sequence_number(s, len)?;
    let text = summary_text(alloc, s, len, sequence, &sum)?;
    out.write(&text)?;
    Ok(())
}
