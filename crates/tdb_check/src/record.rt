// One record, read and tested by itself.

ghost use Rattle.std.specs.Prelude.{◌≡◌, ◌+◌, ◌≤◌, ◌<◌, ◌^◌, IsTrue, length, take, drop, IfOk, IfErr, None, Some, false};
ghost use Rattle.tdb_disk.specs.Count.{HasCause, HasCauseOf, RoseUpTo};
ghost use Rattle.tdb_words.specs.Word.{word};
ghost use Rattle.tdb_words.specs.Record.{rec_at};
ghost use Rattle.tdb_check.specs.Hashes.{AreHashesOf};
ghost use Rattle.tdb_check.specs.Seen.{kind_of, is_bad_header, is_misfiled_header, own_fault, Names, FoundAt};
ghost use Rattle.tdb_check.specs.Reads.{record_reads};
ghost use Rattle.tdb_space.specs.Frame.{Looked};
ghost use Rattle.tdb_check.specs.declared.refusal.CheckRefusal.TheVariants.{Io as DiskFailed};

use crate::hashes::{KeyHashes, KeyRun, hashes_of};
use crate::list_kind::ListKind;
use crate::refusal::CheckRefusal;
use tdb_space::{Io, Space};
use tdb_words::{Order, Rec, USED, What, chain_of, rec_of, word_at};

/// How many bytes are read of a record at once.
const WINDOW: usize = 128;

/// How many bytes of a long key are read at once.
const PIECE: usize = 4096;

/// A record that was read.
#[derive(Clone, Copy, Debug)]
pub struct Found {
    /// Its header.
    pub header: Rec,

    /// Jenkins' hash of the key, where the record is used, whatever the file's own hash is. Of another record it says
    /// nothing.
    pub mark: u32,
}

/// Whether a header makes a record bad.
pub(crate) fn is_bad(kind: ListKind, r: &Rec, at: u32, len: u64) -> bool
    requires { at + 24 ≤ len }
    ensures { result ≡ is_bad_header (kind_of kind) r.now at len }
{
    let held = r.key_len as u64 + r.data_len as u64 + 4;
    let rec_len = r.rec_len as u64;
    !kind.takes(r.magic)
        || (rec_len % 4 != 0 || len < at as u64 + 24 + rec_len)
        || rec_len < 4
        || (r.magic == USED && rec_len < held)
}

/// Fills the front of the window with the bytes from an offset on, as far as it and the file reach, and answers how
/// many they are.
fn fill<S: Space>(s: &mut S, len: u64, at: u32, buf: &mut [u8; 128]) -> Result<usize, Io>
    requires length { len ≡ S.size s.old }
    requires within { at + 24 ≤ len }
    ensures held { IfOk result (λ held. (24 ≤ held) × (held ≤ 128)) }
    ensures shows { IfOk result (λ held. IsTrue S.tells → take held buf.new ≡ take held (drop at (S.image s.old))) }
    ensures long { length buf.new ≡ 128 }
    ensures looked { Looked S.Space s.old s.new }
    ensures cause { HasCause (S.faults s.old) (S.faults s.new) result }
    ensures bytes_read { RoseUpTo 128 (S.bytes_read s.old) (S.bytes_read s.new) }
{
    let held = (len - at as u64).min(WINDOW as u64) as usize;
    s.read(at as u64, &mut buf[..held])?;
    Ok(held)
}

/// The header that a window begins with.
pub(crate) fn header_in(window: &[u8], order: Order) -> Rec
    requires { 24 ≤ length window.now }
    ensures { result ≡ rec_at order window.now 0 }
{
    let mut bytes = [0u8; 24];
    bytes.copy_from_slice(&window[..24]);
    rec_of(&bytes, order)
}

/// The tailer of a record whose first bytes were read.
fn tailer_of<S: Space>(s: &mut S, at: u32, rec_len: u32, window: &[u8]) -> Result<u32, Io>
    requires within { at + 24 + rec_len ≤ S.size s.old }
    requires header { 24 ≤ length window.now }
    ensures value { IfOk result (λ t. IsTrue S.tells → window.now ≡ take (length window.now) (drop at (S.image s.old))
        → t ≡ word (S.form s.old).order (S.image s.old) (at + 20 + rec_len)) }
    ensures looked { Looked S.Space s.old s.new }
    ensures cause { HasCause (S.faults s.old) (S.faults s.new) result }
    ensures bytes_read { RoseUpTo 4 (S.bytes_read s.old) (S.bytes_read s.new) }
{
    let mut bytes = [0u8; 4];
    let place = rec_len as usize + 20;
    if place + 4 <= window.len() {
        bytes.copy_from_slice(&window[place..place + 4]);
        return Ok(word_at(&bytes, s.order()));
    }
    s.read(at as u64 + 20 + rec_len as u64, &mut bytes)?;
    Ok(word_at(&bytes, s.order()))
}

/// The hashes of a key that stands at an offset, read in pieces.
fn long_hashes<S: Space>(s: &mut S, off: u64, key_len: u32) -> Result<KeyHashes, Io>
    requires within { off + key_len ≤ S.size s.old }
    requires small { off + key_len < 2 ^ 64 }
    ensures value { IfOk result (λ hashes. IsTrue S.tells → AreHashesOf (S.form s.old).hash (take key_len (drop off (S.image s.old))) hashes) }
    ensures looked { Looked S.Space s.old s.new }
    ensures cause { HasCause (S.faults s.old) (S.faults s.new) result }
    ensures bytes_read { RoseUpTo key_len (S.bytes_read s.old) (S.bytes_read s.new) }
{
    let mut buf = [0u8; PIECE];
    let mut run = KeyRun::new(s.hash(), key_len);
    let mut done = 0;
    while done < key_len as usize {
        let count = PIECE.min(key_len as usize - done);
        let piece = &mut buf[..count];
        s.read(off + done as u64, piece)?;
        run.feed(piece);
        done += count;
    }
    Ok(run.end())
}

/// The hashes of the key of a record whose first bytes were read.
fn key_hashes<S: Space>(s: &mut S, at: u32, key_len: u32, window: &[u8]) -> Result<KeyHashes, Io>
    requires within { at + 24 + key_len ≤ S.size s.old }
    requires header { 24 ≤ length window.now }
    ensures value { IfOk result (λ hashes. IsTrue S.tells → window.now ≡ take (length window.now) (drop at (S.image s.old))
        → AreHashesOf (S.form s.old).hash (take key_len (drop (at + 24) (S.image s.old))) hashes) }
    ensures looked { Looked S.Space s.old s.new }
    ensures cause { HasCause (S.faults s.old) (S.faults s.new) result }
    ensures bytes_read { RoseUpTo key_len (S.bytes_read s.old) (S.bytes_read s.new) }
{
    let end = key_len as usize + 24;
    if end <= window.len() {
        return Ok(hashes_of(s.hash(), &window[24..end]));
    }
    long_hashes(s, at as u64 + 24, key_len)
}

/// Whether the hash of a used record isn't that of its key, or is that of another chain.
fn is_misfiled(kind: ListKind, r: &Rec, own_hash: u32, chains: u32) -> bool
    requires { 0 < chains }
    ensures { result ≡ is_misfiled_header (kind_of kind) r.now own_hash chains }
{
    match kind {
        ListKind::Chain(j) => r.full_hash != own_hash || chain_of(r.full_hash, chains) != j,
        ListKind::Free => false,
    }
}

/// The record at an offset where one can stand, or what is wrong with it by itself. One read serves where header, key
/// and tailer stand within 128 bytes.
pub fn read_record<S: Space>(
    s: &mut S,
    len: u64,
    kind: ListKind,
    at: u32,
) -> Result<Found, CheckRefusal>
    requires length { len ≡ S.size s.old }
    requires within { at + 24 ≤ len }
    requires chains { 0 < (S.form s.old).chains }
    ensures good { IfOk result (λ found. IsTrue S.tells → length (S.image s.old) ≡ len
        → (own_fault (S.form s.old) (kind_of kind) (S.image s.old) at ≡ None) × FoundAt (S.form s.old) (S.image s.old) at found) }
    ensures fits { IfOk result (λ found. is_bad_header (kind_of kind) found.header at len ≡ false) }
    ensures bad { IfErr result (λ e. IsTrue S.tells → length (S.image s.old) ≡ len
        → Names e (λ fault. own_fault (S.form s.old) (kind_of kind) (S.image s.old) at ≡ Some fault)) }
    ensures looked { Looked S.Space s.old s.new }
    ensures cause { HasCauseOf DiskFailed (S.faults s.old) (S.faults s.new) result }
    ensures bytes_read { IsTrue S.tells → length (S.image s.old) ≡ len → RoseUpTo (record_reads (S.form s.old) (S.image s.old) at) (S.bytes_read s.old) (S.bytes_read s.new) }
{
    let mut buf = [0u8; WINDOW];
    let held = fill(s, len, at, &mut buf)?;
    let window = &buf[..held];
    let r = header_in(window, s.order());
    if is_bad(kind, &r, at, len) {
        return Err(CheckRefusal::Corrupt {
            what: What::BadRecord,
            at: at as u64,
        });
    }
    let tailer = tailer_of(s, at, r.rec_len, window)?;
    if tailer as u64 != 24 + r.rec_len as u64 {
        return Err(CheckRefusal::Corrupt {
            what: What::Tailer,
            at: at as u64,
        });
    }
    if r.magic != USED {
        return Ok(Found { header: r, mark: 0 });
    }
    let hashes = key_hashes(s, at, r.key_len, window)?;
    if is_misfiled(kind, &r, hashes.own, s.hash_size()) {
        return Err(CheckRefusal::Corrupt {
            what: What::WrongHash,
            at: at as u64,
        });
    }
    Ok(Found {
        header: r,
        mark: hashes.mark,
    })
}
