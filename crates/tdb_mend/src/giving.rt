// The entries of an undo area are given back to a view.

ghost use Rattle.std.specs.Prelude.{◌≡◌, ◌+◌, ◌-◌, ◌^◌, ◌<◌, ◌≤◌, ◌⊎◌, IsTrue, IfOk, IfErr, OnOk, None, Some, slice_index};
ghost use Rattle.tdb_disk.specs.Count.{HasCause, HasCauseOf};
ghost use Rattle.tdb_words.specs.Word.{word};
ghost use Rattle.tdb_space.specs.Frame.{Looked, Wrote};
ghost use Rattle.tdb_space.specs.Opening.{lies_in};
ghost use Rattle.tdb_undo.specs.Torn.{Put};
ghost use Rattle.tdb_check.specs.Seen.{Names};
ghost use Rattle.tdb_check.specs.declared.refusal.CheckRefusal.TheVariants.{Io as DiskFailed};
ghost use Rattle.tdb_mend.specs.WideUndo.{unparsed};
ghost use Rattle.tdb_mend.specs.Giving.{content_end_of, entries_of, gives, GivenBack};

use crate::area::UndoArea;
use crate::copy_on_write::CopyOnWrite;
use tdb_check::CheckRefusal;
use tdb_space::{Io, Space};
use tdb_words::{What, word_in};

/// How many bytes an entry begins with: its offset word and its length word.
const ENTRY_LEN: u64 = 8;

/// How many bytes are copied at once: a page of what is kept over a file.
const BLOCK: usize = 4096;

/// The offset word and the length word of the entry at a place. It reads 8 bytes.
fn entry_words<S: Space>(s: &mut S, place: u64) -> Result<(u32, u32), Io>
    requires within { place + 8 ≤ S.size s.old }
    ensures words { IfOk result (λ w. IsTrue S.tells → (w.0 ≡ word (S.form s.old).order (S.image s.old) place)
        × (w.1 ≡ word (S.form s.old).order (S.image s.old) (place + 4))) }
    ensures looked { Looked S.Space s.old s.new }
    ensures cause { HasCause (S.faults s.old) (S.faults s.new) result }
{
    let mut words = [0u8; 8];
    s.read(place, &mut words)?;
    let order = s.order();
    Ok((word_in(&words, 0, order), word_in(&words, 4, order)))
}

/// Copies what an entry keeps of the bytes from one offset up to another. Its old bytes, the first of them for `off`,
/// stand at `source`, and none of them among the bytes that are written. A block serves for the copy.
fn give_piece<S: CopyOnWrite>(
    s: &mut S,
    source: u64,
    off: u64,
    from: u64,
    to: u64,
    block: &mut [u8; BLOCK],
) -> Result<(), CheckRefusal>
    requires above { off ≤ from }
    requires source_within { source + (to - off) ≤ S.size s.old }
    requires target_within { to ≤ S.size s.old }
    requires apart { (source + (to - off) ≤ from) ⊎ (to ≤ source) }
    requires short { S.size s.old < 2 ^ 64 }
    ensures put { OnOk result (IsTrue S.tells
        → Put (lies_in from (to - from)) (λ i. slice_index (S.image s.old) (source + (i - off))) (S.image s.old) (S.image s.new)) }
    ensures refusal { IfErr result (λ e. Names e (λ _. ⊥)) }
    ensures wrote { Wrote S.Space s.old s.new }
    ensures size { S.size s.new ≡ S.size s.old }
    ensures cause { HasCauseOf DiskFailed (S.faults s.old) (S.faults s.new) result }
{
    let mut at = from;
    while at < to {
        let size = (to - at).min(BLOCK as u64);
        let piece = &mut block[..size as usize];
        s.read(source + (at - off), piece)?;
        s.put(at, piece)?;
        at += size;
    }
    Ok(())
}

/// Gives back what an entry keeps: its old bytes stand at `source`, within the undo area. Left out are the undo area
/// itself and all from the old length of the file on.
fn give_entry<S: CopyOnWrite>(
    s: &mut S,
    area: &UndoArea,
    source: u64,
    off: u32,
    len: u32,
    block: &mut [u8; BLOCK],
) -> Result<(), CheckRefusal>
    requires area { area.now.at + 24 + area.now.header.rec_len ≤ S.size s.old }
    requires old_length { area.now.header.key_len ≤ S.size s.old }
    requires above { area.now.at ≤ source }
    requires within { source + len ≤ area.now.at + 24 + area.now.header.rec_len }
    requires short { S.size s.old < 2 ^ 64 }
    ensures put { OnOk result (IsTrue S.tells
        → Put (gives area.now off len) (λ i. slice_index (S.image s.old) (source + (i - off))) (S.image s.old) (S.image s.new)) }
    ensures refusal { IfErr result (λ e. Names e (λ _. ⊥)) }
    ensures wrote { Wrote S.Space s.old s.new }
    ensures size { S.size s.new ≡ S.size s.old }
    ensures cause { HasCauseOf DiskFailed (S.faults s.old) (S.faults s.new) result }
{
    let off = off as u64;
    let to = (off + len as u64).min(area.old_len());
    let behind = off.max(area.end());
    give_piece(s, source, off, off, to.min(area.at as u64), block)?;
    give_piece(s, source, off, behind, to, block)?;
    Ok(())
}

/// Gives back what the entries of the undo area keep, one after the other, below the old length of the file and beside
/// the area; a later one over an earlier one. An entry that passes the end of the content is refused, and those behind
/// it aren't looked at; what was given back before it stays.
pub(crate) fn give_back<S: CopyOnWrite>(s: &mut S, area: &UndoArea) -> Result<(), CheckRefusal>
    requires room { area.now.at + 24 + area.now.header.rec_len ≤ S.size s.old }
    requires content { area.now.header.data_len ≤ area.now.header.rec_len }
    requires old_length { area.now.header.key_len ≤ S.size s.old }
    requires short { S.size s.old < 2 ^ 64 }
    ensures given { OnOk result (IsTrue S.tells → let es = entries_of (S.form s.old).order (S.image s.old) area.now in
        (unparsed (content_end_of area.now) es ≡ None) × GivenBack area.now es (S.image s.old) (S.image s.new)) }
    ensures bad { IfErr result (λ e. IsTrue S.tells
        → Names e (λ fault. unparsed (content_end_of area.now) (entries_of (S.form s.old).order (S.image s.old) area.now) ≡ Some fault)) }
    ensures wrote { Wrote S.Space s.old s.new }
    ensures size { S.size s.new ≡ S.size s.old }
    ensures cause { HasCauseOf DiskFailed (S.faults s.old) (S.faults s.new) result }
{
    let end = area.content_end();
    let mut block = [0u8; BLOCK];
    let mut place = area.content();
    while place + ENTRY_LEN < end {
        let (off, len) = entry_words(s, place)?;
        let next = place + ENTRY_LEN + len as u64;
        if end < next {
            return Err(CheckRefusal::Corrupt {
                what: What::UndoBad,
                at: place,
            });
        }
        give_entry(s, area, place + ENTRY_LEN, off, len, &mut block)?;
        place = next;
    }
    Ok(())
}
