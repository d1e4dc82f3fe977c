// The walk along all chains.

ghost use Rattle.std.specs.Prelude.{◌≡◌, ℕ, ◌+◌, ◌*◌, ◌^◌, ◌<◌, ◌≤◌, List, IsTrue, length, take, drop, IfOk, IfErr, OnOk};
ghost use Rattle.tdb_disk.specs.Count.{HasCauseOf, RoseUpTo};
ghost use Rattle.tdb_space.specs.Form.{data_start, chain_head};
ghost use Rattle.tdb_check.specs.Seen.{Names};
ghost use Rattle.tdb_check.specs.Extent.{extents_seen};
ghost use Rattle.tdb_check.specs.Tails.{TailsOf};
ghost use Rattle.tdb_check.specs.Chains.{ChainsTo, ChainsFollowed, FirstInChains};
ghost use Rattle.tdb_check.specs.Reads.{chains_reads};
ghost use Rattle.tdb_space.specs.Frame.{Looked};
ghost use Rattle.tdb_check.specs.declared.refusal.CheckRefusal.TheVariants.{Io};
ghost use Rattle.tdb_check.specs.declared.extent.Extent.{Extent};

use crate::chain::{Notes, follow_chain};
use crate::extent::Extent;
use crate::refusal::CheckRefusal;
use std::alloc::Global;
use tdb_space::Space;
use tdb_words::word_in;

/// How many heads are read at once.
const HEADS: u32 = 1024;

/// Follows the chains whose heads are the words of a block, from number `first` on, puts the extents of their records
/// behind those that are there, and answers how many of the records are used; or answers what is first wrong with one
/// of the chains.
fn follow_block<S: Space>(
    s: &mut S,
    len: u64,
    first: u32,
    count: u32,
    heads: &[u8],
    notes: &mut Notes,
    extents: &mut Vec<Extent>,
) -> Result<u64, CheckRefusal>
    requires length { len ≡ S.size s.old }
    requires heads { data_start (S.form s.old) ≤ len }
    requires chains { first + count ≤ (S.form s.old).chains }
    requires numbers { first + count < 2 ^ 32 }
    requires block { length heads.now ≡ 4 * count }
    ensures sound { IfOk result (λ live. IsTrue S.tells → length (S.image s.old) ≡ len → heads.now ≡ take (4 * count) (drop (chain_head first) (S.image s.old))
        → (before : List Extent) (n : ℕ) → ChainsTo (S.form s.old) (S.image s.old) first before extents.old.items n
        → TailsOf (S.form s.old) (S.image s.old) (extents_seen extents.old.items) notes.old.tails
        → ChainsTo (S.form s.old) (S.image s.old) (first + count) before extents.new.items (n + live)
        × TailsOf (S.form s.old) (S.image s.old) (extents_seen extents.new.items) notes.new.tails) }
    ensures bad { IfErr result (λ e. IsTrue S.tells → length (S.image s.old) ≡ len → heads.now ≡ take (4 * count) (drop (chain_head first) (S.image s.old))
        → (before : List Extent) (n : ℕ) → ChainsTo (S.form s.old) (S.image s.old) first before extents.old.items n
        → TailsOf (S.form s.old) (S.image s.old) (extents_seen extents.old.items) notes.old.tails
        → Names e (FirstInChains (S.form s.old) (S.image s.old))) }
    ensures count { IfOk result (λ live. live + length extents.old.items ≤ length extents.new.items) }
    ensures looked { Looked S.Space s.old s.new }
    ensures cause { HasCauseOf Io (S.faults s.old) (S.faults s.new) result }
    ensures bytes_read { OnOk result (IsTrue S.tells → length (S.image s.old) ≡ len → heads.now ≡ take (4 * count) (drop (chain_head first) (S.image s.old))
        → RoseUpTo (chains_reads 1 (S.form s.old) (S.image s.old) first count) (S.bytes_read s.old) (S.bytes_read s.new)) }
    ensures bytes_in_all { IsTrue S.tells → length (S.image s.old) ≡ len → heads.now ≡ take (4 * count) (drop (chain_head first) (S.image s.old))
        → RoseUpTo (chains_reads 65 (S.form s.old) (S.image s.old) first count) (S.bytes_read s.old) (S.bytes_read s.new) }
{
    let order = s.order();
    let mut live = 0u64;
    for i in 0..count {
        let head = word_in(heads, 4 * i as usize, order);
        let used = match follow_chain(s, len, first + i, head, notes, extents) {
            Ok(used) => used,
            Err(e) => return Err(e),
        };
        live += used;
    }
    Ok(live)
}

/// Follows chains 0, 1, 2 and so on to their ends, puts the extents of their records behind those that are there, and
/// answers how many of the records are used; or answers what is first wrong with a chain. Where a chain leads to dead
/// records at the end of an earlier one, only the least of their extents is put down once more. The heads are read 4096
/// bytes at a time; a head of 0 costs nothing more. Of each record an extent of 8 bytes is kept, of the longest chain
/// its offsets and 24 bytes a used record besides, and an extent for each dead record behind the last used one of its
/// chain. For n records in all it takes n log n steps, whatever the chains share. Keys are read again only where two of
/// a chain may have one hash and one length, and none is kept.
pub fn follow_chains<S: Space>(
    alloc: Global,
    s: &mut S,
    len: u64,
    extents: &mut Vec<Extent>,
) -> Result<u64, CheckRefusal>
    requires length { len ≡ S.size s.old }
    requires heads { data_start (S.form s.old) ≤ len }
    requires chains { 0 < (S.form s.old).chains }
    ensures sound { IfOk result (λ live. IsTrue S.tells → length (S.image s.old) ≡ len → ChainsFollowed (S.form s.old) (S.image s.old) extents.old.items extents.new.items live) }
    ensures bad { IfErr result (λ e. IsTrue S.tells → length (S.image s.old) ≡ len → Names e (FirstInChains (S.form s.old) (S.image s.old))) }
    ensures looked { Looked S.Space s.old s.new }
    ensures cause { HasCauseOf Io (S.faults s.old) (S.faults s.new) result }
    ensures bytes_read { OnOk result (IsTrue S.tells → length (S.image s.old) ≡ len → RoseUpTo (4 * (S.form s.old).chains + chains_reads 1 (S.form s.old) (S.image s.old) 0 (S.form s.old).chains) (S.bytes_read s.old) (S.bytes_read s.new)) }
    ensures bytes_in_all { IsTrue S.tells → length (S.image s.old) ≡ len → RoseUpTo (4 * (S.form s.old).chains + chains_reads 65 (S.form s.old) (S.image s.old) 0 (S.form s.old).chains) (S.bytes_read s.old) (S.bytes_read s.new) }
{
    let chains = s.hash_size();
    let mut notes = Notes::new(alloc);
    let mut block = [0u8; 4096];
    let mut live = 0u64;
    let mut first = 0u32;
    while first < chains {
        let count = HEADS.min(chains - first);
        let heads = &mut block[..4 * count as usize];
        s.read(172 + 4 * first as u64, heads)?;
        let used = match follow_block(s, len, first, count, heads, &mut notes, extents) {
            Ok(used) => used,
            Err(e) => return Err(e),
        };
        live += used;
        first += count;
    }
    Ok(live)
}
