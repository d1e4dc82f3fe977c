// A file is written anew.

ghost use Rattle.std.specs.Prelude.{◌≡◌, ◌++◌, ◌∷◌, ◌^◌, ◌<◌, ◌≤◌, [], max, List, ℕ, IsTrue, IfOk, IfErr, OnOk, length, if◌then◌else◌};
ghost use Rattle.tdb_chain.specs.declared.refusal.ValueRefusal.TheVariants.{Io as Unread};
ghost use Rattle.tdb_disk.specs.Count.{HasCauseOf};
ghost use Rattle.tdb_space.specs.Frame.{Looked, Wrote};
ghost use Rattle.tdb_space.specs.Pairs.{order_of, pair_of};
ghost use Rattle.tdb_rewrite.specs.Readable.{Readable};
ghost use Rattle.tdb_backup.specs.Held.{pair_held};
ghost use Rattle.tdb_backup.specs.declared.refusal.CopyRefusal.TheVariants.{Read, Write};
ghost use Rattle.tdb_rewrite.specs.Rewritten.{AreNew, IsBare, Rewritten, RewriteCause, StandsRead, chosen};

use crate::places::Places;
use crate::walk::Listed;
use std::alloc::Global;
use tdb_backup::{CopyRefusal, Held, insert_new};
use tdb_chain::ValueRefusal;
use tdb_space::Space;
use tdb_words::USED;

/// Reads the pair of a record, whose header was read, of a file of `len` bytes. Answers whether it is used, and lies
/// within the file.
fn read_pair<S: Space>(
    held: &mut Held,
    s: &mut S,
    len: u64,
    found: Listed,
) -> Result<bool, ValueRefusal>
    requires length { len ≡ S.size s.old }
    ensures pair { IfOk result (λ used. IsTrue S.tells → StandsRead (S.form s.old) (S.image s.old) found
        → pair_of (S.form s.old).order (S.image s.old) found.off ≡ (if used then pair_held held.new ∷ [] else [])) }
    ensures key_short { IfOk result (λ used. IsTrue used → length (pair_held held.new).0 < 2 ^ 32) }
    ensures value_short { IfOk result (λ used. IsTrue used → length (pair_held held.new).1 < 2 ^ 32) }
    ensures looked { Looked S.Space s.old s.new }
    ensures cause { HasCauseOf Unread (S.faults s.old) (S.faults s.new) result }
{
    let rec = found.rec;
    let end = found.off as u64 + 24 + rec.key_len as u64 + rec.data_len as u64;
    if rec.magic != USED || len < end {
        return Ok(false);
    }
    held.read_known(s, found.off, &rec)?;
    Ok(true)
}

/// Adds the pair of a record to another file, where the record is used and its key begins with `prefix`.
fn copy_record<S: Space, T: Space>(
    held: &mut Held,
    from: &mut S,
    len: u64,
    found: Listed,
    to: &mut T,
    prefix: &[u8],
    limit: u64,
) -> Result<(), CopyRefusal>
    requires length { len ≡ S.size from.old }
    requires chains { 0 < (T.form to.old).chains }
    requires limit { limit ≤ 4294963200 }
    ensures copied { OnOk result (IsTrue S.tells → IsTrue T.tells → T.size to.old < 2 ^ 32 → StandsRead (S.form from.old) (S.image from.old) found
        → (done : List (List ℕ × List ℕ)) → Rewritten (T.form to.old) (T.image to.old) done
        → AreNew (chosen prefix.now (pair_of (S.form from.old).order (S.image from.old) found.off)) done
        → Rewritten (T.form to.old) (T.image to.new) (chosen prefix.now (pair_of (S.form from.old).order (S.image from.old) found.off) ++ done)) }
    ensures refused { IfErr result (λ e. IsTrue S.tells → IsTrue T.tells → T.size to.old < 2 ^ 32 → StandsRead (S.form from.old) (S.image from.old) found
        → (done : List (List ℕ × List ℕ)) → Rewritten (T.form to.old) (T.image to.old) done
        → AreNew (chosen prefix.now (pair_of (S.form from.old).order (S.image from.old) found.off)) done
        → RewriteCause (T.form to.old) (T.image to.new) (chosen prefix.now (pair_of (S.form from.old).order (S.image from.old) found.off) ++ done) limit e) }
    ensures within { (first : ℕ) → T.size to.old ≤ max first limit → T.size to.new ≤ max first limit }
    ensures grows { T.size to.old ≤ T.size to.new }
    ensures looked { Looked S.Space from.old from.new }
    ensures wrote { Wrote T.Space to.old to.new }
    ensures read_cause { HasCauseOf Read (S.faults from.old) (S.faults from.new) result }
    ensures write_cause { HasCauseOf Write (T.faults to.old) (T.faults to.new) result }
{
    let used = read_pair(held, from, len, found)?;
    if !used {
        return Ok(());
    }
    let key = held.key();
    if !key.starts_with(prefix) {
        return Ok(());
    }
    insert_new(to, key, held.value(), limit)?;
    Ok(())
}

/// Adds the pairs of a file whose key begins with `prefix` to a file that ends where its data start, which may be up to
/// `limit` bytes long. The two may differ in byte order, hash and number of chains. The new file then has no dead
/// record and no undo area, each of its bytes from the data start on lies in a record, and each of its chains has its
/// pairs in the order in which the file that is read has them. That file needn't be accepted: it is enough that its
/// pairs can be read (`Readable`), whatever stands beside the records of its chains.
///
/// A pair is put in front of its chain, so the pairs are added from the last one to the first, without a look-up: time
/// is linear in the length of the file that is read. It walks along each chain right before it copies that chain's
/// records, and holds one pair, and 28 bytes for each record of a chain. After a refusal the new file holds the last
/// pairs, down to the one that was refused, unless it was the new file's disk that failed: `Read` where the disk that
/// is read failed, `Write` where the other did, `Full` where no room is left within the limit, and `Memory` where that
/// is wanting.
pub fn rewrite<S: Space, T: Space>(
    alloc: Global,
    from: &mut S,
    to: &mut T,
    prefix: &[u8],
    limit: u64,
) -> Result<(), CopyRefusal>
    requires chains { 0 < (T.form to.old).chains }
    requires limit { limit ≤ 4294963200 }
    ensures rewritten { OnOk result (IsTrue S.tells → IsTrue T.tells → T.size to.old < 2 ^ 32
        → Readable (S.form from.old) (S.image from.old) → IsBare (T.form to.old) (T.image to.old)
        → Rewritten (T.form to.old) (T.image to.new) (chosen prefix.now (order_of (S.form from.old) (S.image from.old)))) }
    ensures refused { IfErr result (λ e. IsTrue S.tells → IsTrue T.tells → T.size to.old < 2 ^ 32
        → Readable (S.form from.old) (S.image from.old) → IsBare (T.form to.old) (T.image to.old)
        → RewriteCause (T.form to.old) (T.image to.new) (chosen prefix.now (order_of (S.form from.old) (S.image from.old))) limit e) }
    ensures within { T.size to.new ≤ max (T.size to.old) limit }
    ensures grows { T.size to.old ≤ T.size to.new }
    ensures looked { Looked S.Space from.old from.new }
    ensures wrote { Wrote T.Space to.old to.new }
    ensures read_cause { HasCauseOf Read (S.faults from.old) (S.faults from.new) result }
    ensures write_cause { HasCauseOf Write (T.faults to.old) (T.faults to.new) result }
{
    let mut places = Places::of(alloc, from)?;
    let mut held = Held::new(alloc);
    while let Some(found) = places.next(from)? {
        copy_record(&mut held, from, places.len, found, to, prefix, limit)?;
    }
    Ok(())
}
