// The records of one chain.

ghost use Rattle.std.specs.Prelude.{◌≡◌, ◌/◌, ◌≤◌, ◌<◌, IsTrue, List, ℕ, IfOk, IfSome, length};
ghost use Rattle.tdb_disk.specs.Count.{HasCause, RoseUpTo};
ghost use Rattle.tdb_words.specs.declared.record.TheConstants.{USED};
ghost use Rattle.tdb_space.specs.Frame.{Looked};
ghost use Rattle.tdb_space.specs.Chain.{Chain, Member, offsets};
ghost use Rattle.tdb_space.specs.Accepted.{AllFiled};
ghost use Rattle.tdb_law.specs.Layout.{cells, behind};
ghost use Rattle.tdb_walk.specs.NextLive.{first_live, live_at, IsWithin};
ghost use Rattle.tdb_walk.specs.Reads.{records_reads, rest_reads};

use crate::live::Live;
use tdb_space::{Io, Space, read_listed};
use tdb_words::USED;

/// The first live record of a chain from a record on, whose offset is given. It reads 24 bytes of each record up to
/// that one.
///
/// Where the file's bytes aren't those of an accepted file, a word that leads to no place where a record can stand ends
/// the chain as a 0 does, and so do a used record without room for what it holds, and as many records as the file has
/// words.
pub(crate) fn live_from<S: Space>(
    s: &mut S,
    len: u64,
    chain: u32,
    first: u32,
) -> Result<Option<Live>, Io>
    requires length { len ≡ S.size s.old }
    requires below { chain < (S.form s.old).chains }
    ensures found { IfOk result (λ found. IsTrue S.tells → (offs : List ℕ) → Chain (S.form s.old) (S.image s.old) first offs
        → AllFiled (S.form s.old) (S.image s.old) chain offs
        → found ≡ live_at (S.form s.old) (S.image s.old) chain (first_live (cells (S.form s.old) (S.image s.old) offs))) }
    ensures within { IfOk result (λ found. IfSome found (λ live. IsWithin (S.form s.old) (S.size s.old) live)) }
    ensures chain { IfOk result (λ found. IfSome found (λ live. live.chain ≡ chain)) }
    ensures looked { Looked S.Space s.old s.new }
    ensures cause { HasCause (S.faults s.old) (S.faults s.new) result }
    ensures bytes_read { S.bytes_read s.old ≤ S.bytes_read s.new }
    ensures reads { IsTrue S.tells → RoseUpTo (records_reads (S.form s.old) (S.image s.old) (offsets (S.form s.old).order (S.image s.old) (length (S.image s.old) / 4) first)) (S.bytes_read s.old) (S.bytes_read s.new) }
{
    let mut at = first;
    for _turn in 0..len / 4 {
        let Some(rec) = read_listed(s, len, at)? else {
            return Ok(None);
        };
        if rec.magic == USED {
            let held = rec.key_len as u64 + rec.data_len as u64 + 4;
            if held > rec.rec_len as u64 {
                return Ok(None);
            }
            return Ok(Some(Live {
                chain,
                off: at,
                rec,
            }));
        }
        at = rec.next;
    }
    Ok(None)
}

/// The first live record of a chain behind a record, whose offset is given.
pub(crate) fn live_behind<S: Space>(
    s: &mut S,
    len: u64,
    chain: u32,
    off: u32,
) -> Result<Option<Live>, Io>
    requires length { len ≡ S.size s.old }
    requires below { chain < (S.form s.old).chains }
    ensures found { IfOk result (λ found. IsTrue S.tells → (first : ℕ) (offs : List ℕ) → Chain (S.form s.old) (S.image s.old) first offs
        → AllFiled (S.form s.old) (S.image s.old) chain offs → Member off offs
        → found ≡ live_at (S.form s.old) (S.image s.old) chain (first_live (behind (cells (S.form s.old) (S.image s.old) offs) off))) }
    ensures within { IfOk result (λ found. IfSome found (λ live. IsWithin (S.form s.old) (S.size s.old) live)) }
    ensures chain { IfOk result (λ found. IfSome found (λ live. live.chain ≡ chain)) }
    ensures looked { Looked S.Space s.old s.new }
    ensures cause { HasCause (S.faults s.old) (S.faults s.new) result }
    ensures bytes_read { S.bytes_read s.old ≤ S.bytes_read s.new }
    ensures reads { IsTrue S.tells → RoseUpTo (rest_reads (S.form s.old) (S.image s.old) off) (S.bytes_read s.old) (S.bytes_read s.new) }
{
    let Some(rec) = read_listed(s, len, off)? else {
        return Ok(None);
    };
    live_from(s, len, chain, rec.next)
}
