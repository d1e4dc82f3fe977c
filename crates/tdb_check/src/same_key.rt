// What is read of keys once two may be the same: a digest of one, and whether two are the same.

ghost use Rattle.std.specs.Prelude.{◌≡◌, ℕ, ◌+◌, ◌*◌, ◌==◌, if◌then◌else◌, ◌<◌, ◌≤◌, ◌^◌, List, IsTrue, length, take, drop, IfOk, IfErr, MatchBool};
ghost use Rattle.sha2.specs.Sha256.{sha256};
ghost use Rattle.tdb_disk.specs.Count.{HasCause, HasCauseOf, RoseUpTo};
ghost use Rattle.tdb_check.specs.Seen.{Names};
ghost use Rattle.tdb_check.specs.Keys.{key_of_noted, digest_mark, IsNoted};
ghost use Rattle.tdb_space.specs.Frame.{Looked};
ghost use Rattle.tdb_check.specs.declared.refusal.CheckRefusal.TheVariants.{Io as DiskFailed};

use crate::keys::Noted;
use crate::refusal::CheckRefusal;
use sha2::{Digest, Sha256};
use tdb_space::{Io, Space, key_equals};
use tdb_words::{Order, What, word_in};

/// How many bytes of two keys are compared at once.
const PIECE: usize = 4096;

/// Whether two records have the same key. Where the keys have one length, they are read in pieces of 4096 bytes, up to
/// the first that differs. A key that passes the end of the file makes its record bad.
pub fn same_key<S: Space>(s: &mut S, len: u64, a: &Noted, b: &Noted) -> Result<bool, CheckRefusal>
    requires length { len ≡ S.size s.old }
    ensures same { IfOk result (λ same. IsTrue S.tells → (mark : List ℕ → ℕ) → IsNoted mark (S.form s.old) (S.image s.old) a.now → IsNoted mark (S.form s.old) (S.image s.old) b.now
        → MatchBool same (key_of_noted (S.form s.old) (S.image s.old) a.now ≡ key_of_noted (S.form s.old) (S.image s.old) b.now)
        (key_of_noted (S.form s.old) (S.image s.old) a.now ≡ key_of_noted (S.form s.old) (S.image s.old) b.now → ⊥)) }
    ensures no_fault { IfErr result (λ e. IsTrue S.tells → length (S.image s.old) ≡ len → (mark : List ℕ → ℕ) → IsNoted mark (S.form s.old) (S.image s.old) a.now → IsNoted mark (S.form s.old) (S.image s.old) b.now → Names e (λ _. ⊥)) }
    ensures looked { Looked S.Space s.old s.new }
    ensures cause { HasCauseOf DiskFailed (S.faults s.old) (S.faults s.new) result }
    ensures bytes_read { RoseUpTo (2 * (if a.now.key_len == b.now.key_len then a.now.key_len else 0)) (S.bytes_read s.old) (S.bytes_read s.new) }
{
    if a.key_len != b.key_len {
        return Ok(false);
    }
    let count = a.key_len as u64;
    let first = a.at as u64 + 24;
    let second = b.at as u64 + 24;
    if len < first + count {
        return Err(CheckRefusal::Corrupt {
            what: What::BadRecord,
            at: a.at as u64,
        });
    }
    if len < second + count {
        return Err(CheckRefusal::Corrupt {
            what: What::BadRecord,
            at: b.at as u64,
        });
    }
    Ok(same_bytes(s, first, second, count)?)
}

/// Whether as many bytes from two offsets on are the same.
fn same_bytes<S: Space>(s: &mut S, first: u64, second: u64, count: u64) -> Result<bool, Io>
    requires first { first + count ≤ S.size s.old }
    requires second { second + count ≤ S.size s.old }
    requires small_first { first + count < 2 ^ 64 }
    requires small_second { second + count < 2 ^ 64 }
    ensures same { IfOk result (λ same. IsTrue S.tells → MatchBool same (take count (drop first (S.image s.old)) ≡ take count (drop second (S.image s.old)))
        (take count (drop first (S.image s.old)) ≡ take count (drop second (S.image s.old)) → ⊥)) }
    ensures looked { Looked S.Space s.old s.new }
    ensures cause { HasCause (S.faults s.old) (S.faults s.new) result }
    ensures bytes_read { RoseUpTo (2 * count) (S.bytes_read s.old) (S.bytes_read s.new) }
{
    let mut buf = [0u8; PIECE];
    let mut done = 0u64;
    while done < count {
        let piece = &mut buf[..(count - done).min(PIECE as u64) as usize];
        s.read(first + done, piece)?;
        if !key_equals(s, second + done, piece)? {
            return Ok(false);
        }
        done += piece.len() as u64;
    }
    Ok(true)
}

/// The first word of the SHA-256 digest of a record's key, which is read in pieces of 4096 bytes. A key that passes the
/// end of the file makes its record bad.
pub fn key_digest<S: Space>(s: &mut S, len: u64, noted: &Noted) -> Result<u32, CheckRefusal>
    requires length { len ≡ S.size s.old }
    ensures mark { IfOk result (λ mark. IsTrue S.tells → (other : List ℕ → ℕ) → IsNoted other (S.form s.old) (S.image s.old) noted.now
        → mark ≡ digest_mark (key_of_noted (S.form s.old) (S.image s.old) noted.now)) }
    ensures no_fault { IfErr result (λ e. IsTrue S.tells → length (S.image s.old) ≡ len → (other : List ℕ → ℕ) → IsNoted other (S.form s.old) (S.image s.old) noted.now → Names e (λ _. ⊥)) }
    ensures looked { Looked S.Space s.old s.new }
    ensures cause { HasCauseOf DiskFailed (S.faults s.old) (S.faults s.new) result }
    ensures bytes_read { RoseUpTo noted.now.key_len (S.bytes_read s.old) (S.bytes_read s.new) }
{
    let from = noted.at as u64 + 24;
    let count = noted.key_len as u64;
    if len < from + count {
        return Err(CheckRefusal::Corrupt {
            what: What::BadRecord,
            at: noted.at as u64,
        });
    }
    let digest = bytes_digest(s, from, count)?;
    Ok(word_in(&digest, 0, Order::Little))
}

/// The SHA-256 digest of so many bytes from an offset on.
fn bytes_digest<S: Space>(s: &mut S, from: u64, count: u64) -> Result<[u8; 32], Io>
    requires within { from + count ≤ S.size s.old }
    requires small { from + count < 2 ^ 64 }
    ensures digest { IfOk result (λ digest. IsTrue S.tells → digest ≡ sha256 (take count (drop from (S.image s.old)))) }
    ensures looked { Looked S.Space s.old s.new }
    ensures cause { HasCause (S.faults s.old) (S.faults s.new) result }
    ensures bytes_read { RoseUpTo count (S.bytes_read s.old) (S.bytes_read s.new) }
{
    let mut buf = [0u8; PIECE];
    let mut hasher = Sha256::new();
    let mut done = 0u64;
    while done < count {
        let piece = &mut buf[..(count - done).min(PIECE as u64) as usize];
        s.read(from + done, piece)?;
        hasher.update(&*piece);
        done += piece.len() as u64;
    }
    Ok(hasher.finalize())
}
