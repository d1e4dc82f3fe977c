// The walk along the chain of a key.

ghost use Rattle.std.specs.Prelude.{◌≡◌, ◌+◌, ◌-◌, ◌*◌, ◌^◌, ◌<◌, ◌≤◌, List, IsTrue, length, take, drop, min, IfOk, IfSome, MatchBool};
ghost use Rattle.tdb_disk.specs.Count.{HasCause, RoseUpTo};
ghost use Rattle.tdb_words.specs.Hash.{h_of};
ghost use Rattle.tdb_words.specs.Record.{rec_at};
ghost use Rattle.tdb_space.specs.Frame.{Looked};
ghost use Rattle.tdb_space.specs.Form.{data_start, chain_head};
ghost use Rattle.tdb_space.specs.Extents.{HandPair};
ghost use Rattle.tdb_space.specs.Accepted.{AcceptWith};
ghost use Rattle.tdb_chain.specs.Place.{LiesWithin, StandsWithin, IsFound};
ghost use Rattle.tdb_chain.specs.Wanted.{IsWanted};
ghost use Rattle.tdb_chain.specs.Reads.{long_key_reads, find_reads};

use crate::place::Place;
use tdb_space::{
    Io, Space, chain_head, content_stands, header_stands, key_equals, read_word, rec_in,
};
use tdb_words::{Rec, USED, chain_of, hash_of};

/// How many bytes are read of a record at once.
const WINDOW: usize = 512;

/// Whether a record can stand at an offset of a file of this length, where its header can, and has room for what it
/// holds where it is used.
fn lies_within(rec: &Rec, at: u32, len: u64) -> bool
    ensures { MatchBool result (LiesWithin rec.now at len) (LiesWithin rec.now at len → ⊥) }
{
    let held = rec.key_len as u64 + rec.data_len as u64 + 4;
    content_stands(rec.rec_len, at, len) && (rec.magic != USED || held <= rec.rec_len as u64)
}

/// The first bytes of a record that were read: how many they are, and the header with which they begin.
#[derive(Clone, Copy)]
struct Front {
    held: usize,
    rec: Rec,
}

/// Reads the first bytes of the record at an offset: its header, and a key of so many bytes as far as it fits into the
/// window and the file reaches.
fn read_front<S: Space>(
    s: &mut S,
    len: u64,
    at: u32,
    key_len: usize,
    window: &mut [u8; 512],
) -> Result<Front, Io>
    requires length { len ≡ S.size s.old }
    requires within { at + 24 ≤ len }
    requires short { key_len < 2 ^ 32 }
    ensures held { IfOk result (λ front. (24 ≤ front.held) × (front.held ≤ 512)) }
    ensures whole { IfOk result (λ front. min (min (24 + key_len) 512) (len - at) ≤ front.held) }
    ensures long { length window.new ≡ 512 }
    ensures shows { IfOk result (λ front. IsTrue S.tells → take front.held window.new ≡ take front.held (drop at (S.image s.old))) }
    ensures header { IfOk result (λ front. IsTrue S.tells → front.rec ≡ rec_at (S.form s.old).order (S.image s.old) at) }
    ensures looked { Looked S.Space s.old s.new }
    ensures cause { HasCause (S.faults s.old) (S.faults s.new) result }
    ensures bytes_read { RoseUpTo (min (24 + key_len) 512) (S.bytes_read s.old) (S.bytes_read s.new) }
{
    let held = (24 + key_len).min(WINDOW).min((len - at as u64) as usize);
    let front = &mut window[..held];
    s.read(at as u64, front)?;
    let rec = rec_in(front, s.order());
    Ok(Front { held, rec })
}

/// Whether the record at an offset, whose first bytes were read, is a used one with this hash and this key. The key is
/// compared only where the header has its hash and its length, and read only where it isn't among those bytes.
fn is_wanted<S: Space>(
    s: &mut S,
    rec: &Rec,
    front: &[u8],
    at: u32,
    hash: u32,
    key: &[u8],
) -> Result<bool, Io>
    requires lies { LiesWithin rec.now at (S.size s.old) }
    requires whole { min (min (24 + length key.now) 512) (S.size s.old - at) ≤ length front.now }
    ensures wanted { IfOk result (λ wanted. IsTrue S.tells → front.now ≡ take (length front.now) (drop at (S.image s.old))
        → MatchBool wanted (IsWanted rec.now hash (S.image s.old) at key.now) (IsWanted rec.now hash (S.image s.old) at key.now → ⊥)) }
    ensures used { IfOk result (λ wanted. IsTrue wanted → rec.now.magic ≡ USED) }
    ensures looked { Looked S.Space s.old s.new }
    ensures cause { HasCause (S.faults s.old) (S.faults s.new) result }
    ensures bytes_read { RoseUpTo (long_key_reads rec.now hash (length key.now)) (S.bytes_read s.old) (S.bytes_read s.new) }
{
    if rec.magic != USED || rec.full_hash != hash || rec.key_len as usize != key.len() {
        return Ok(false);
    }
    let end = 24 + key.len();
    if end <= front.len() {
        let there = &front[24..end];
        return Ok(*there == *key);
    }
    key_equals(s, at as u64 + 24, key)
}

/// The one used record with this key, if there is one, and the word that leads to it.
///
/// It reads the head of the key's chain, and each record up to that one in one read: the header, and the key as far as
/// both are at most 512 bytes. A longer key is read in pieces, only where the record has its hash and its length. Where
/// the file's bytes aren't those of an accepted file, these end the chain as a 0 does: a word that leads in front of
/// the data, to no whole word, or to fewer than 24 bytes of the file, a record that isn't of whole words, has no room
/// for its tailer or doesn't end within the file, and a used one without room for what it holds. A chain also ends
/// after as many records as the file has words. So it answers a place that can be used in a file of this length, or
/// none, or `Io` where the disk failed, whatever the bytes are.
pub fn find<S: Space>(s: &mut S, key: &[u8]) -> Result<Option<Place>, Io>
    requires short { length key.now < 2 ^ 32 }
    requires chains { 0 < (S.form s.old).chains }
    ensures found { IfOk result (λ found. IsTrue S.tells → (hands : List HandPair) → AcceptWith (S.form s.old) (S.image s.old) hands
        → IsFound (S.form s.old) (S.image s.old) key.now found) }
    ensures within { IfOk result (λ found. IfSome found (λ p. StandsWithin p (S.size s.old))) }
    ensures behind { IfOk result (λ found. IfSome found (λ p. data_start (S.form s.old) ≤ p.off)) }
    ensures used { IfOk result (λ found. IfSome found (λ p. p.rec.magic ≡ USED)) }
    ensures looked { Looked S.Space s.old s.new }
    ensures cause { HasCause (S.faults s.old) (S.faults s.new) result }
    ensures bytes_read { S.bytes_read s.old ≤ S.bytes_read s.new }
    ensures reads { IsTrue S.tells → RoseUpTo (find_reads (S.form s.old) (S.image s.old) key.now) (S.bytes_read s.old) (S.bytes_read s.new) }
{
    let len = s.len()?;
    let hash = hash_of(s.hash(), key);
    let mut before = chain_head(chain_of(hash, s.hash_size()));
    if len < before + 4 {
        return Ok(None);
    }
    let mut at = read_word(s, before)?;
    let mut window = [0u8; WINDOW];
    for _turn in 0..len / 4 {
        if !header_stands(at, len, s.hash_size()) {
            return Ok(None);
        }
        let front = read_front(s, len, at, key.len(), &mut window)?;
        if !lies_within(&front.rec, at, len) {
            return Ok(None);
        }
        if is_wanted(s, &front.rec, &window[..front.held], at, hash, key)? {
            return Ok(Some(Place {
                off: at,
                before: before as u32,
                rec: front.rec,
            }));
        }
        before = at as u64;
        at = front.rec.next;
    }
    Ok(None)
}
