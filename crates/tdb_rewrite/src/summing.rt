// A file is summed up.

ghost use Rattle.std.specs.Prelude.{◌≡◌, ◌≤◌, List, IsTrue, IfOk, IfErr};
ghost use Rattle.tdb_disk.specs.Count.{HasCause, HasCauseOf};
ghost use Rattle.tdb_space.specs.Frame.{Looked};
ghost use Rattle.tdb_space.specs.Extents.{HandPair};
ghost use Rattle.tdb_space.specs.Pairs.{order_of};
ghost use Rattle.tdb_space.specs.Accepted.{Accept, AcceptWith};
ghost use Rattle.tdb_space.specs.FirstFault.{IsFirstFault};
ghost use Rattle.tdb_check.specs.Report.{IsFormOf, Counted};
ghost use Rattle.tdb_rewrite.specs.Refusal.{Names};
ghost use Rattle.tdb_rewrite.specs.Sums.{Sums};
ghost use Rattle.tdb_rewrite.specs.Summary.{SumsUp, greatest_free};
ghost use Rattle.tdb_rewrite.specs.declared.refusal.SummaryRefusal.TheVariants.{Io as IoRefusal};

use crate::numbers::Summary;
use crate::refusal::SummaryRefusal;
use crate::sums::PairBytes;
use crate::walk::ListWalk;
use std::alloc::Global;
use tdb_check::{Report, check};
use tdb_space::{FREE_HEAD, Io, Space};

/// How many bytes keys and values of a file of `len` bytes have.
fn pair_bytes<S: Space>(s: &mut S, len: u64) -> Result<PairBytes, Io>
    requires length { len ≡ S.size s.old }
    ensures sums { IfOk result (λ sums. IsTrue S.tells → (hands : List HandPair) → AcceptWith (S.form s.old) (S.image s.old) hands
        → Sums (order_of (S.form s.old) (S.image s.old)) sums) }
    ensures looked { Looked S.Space s.old s.new }
    ensures cause { HasCause (S.faults s.old) (S.faults s.new) result }
    ensures bytes_read { S.bytes_read s.old ≤ S.bytes_read s.new }
{
    let mut sums = PairBytes::none();
    for chain in 0..s.hash_size() {
        sums.add_chain(s, len, chain)?;
    }
    Ok(sums)
}

/// The greatest `rec_len` of a free record of a file of `len` bytes, or 0 where there is none.
fn largest_free<S: Space>(s: &mut S, len: u64) -> Result<u64, Io>
    requires length { len ≡ S.size s.old }
    ensures largest { IfOk result (λ largest. IsTrue S.tells → (hands : List HandPair) → AcceptWith (S.form s.old) (S.image s.old) hands
        → largest ≡ greatest_free (S.form s.old) (S.image s.old)) }
    ensures looked { Looked S.Space s.old s.new }
    ensures cause { HasCause (S.faults s.old) (S.faults s.new) result }
    ensures bytes_read { S.bytes_read s.old ≤ S.bytes_read s.new }
{
    let mut walk = ListWalk::from_head(s, len, FREE_HEAD as u64)?;
    let mut largest = 0u64;
    while let Some(found) = walk.next(s, len)? {
        largest = largest.max(found.rec.rec_len as u64);
    }
    Ok(largest)
}

/// The summary of an accepted file in which a check counted this.
///
/// It reads 24 bytes of each record of the chains and of the free list, and holds no more than these few numbers. It
/// changes nothing. `Io` where the disk failed.
pub fn sum_up<S: Space>(s: &mut S, report: &Report) -> Result<Summary, Io>
    ensures summed_up { IfOk result (λ sum. IsTrue S.tells → IsFormOf (S.form s.old) (S.image s.old) → Accept (S.image s.old)
        → Counted (S.image s.old) report.now → SumsUp (S.image s.old) sum) }
    ensures looked { Looked S.Space s.old s.new }
    ensures cause { HasCause (S.faults s.old) (S.faults s.new) result }
    ensures bytes_read { S.bytes_read s.old ≤ S.bytes_read s.new }
{
    let len = s.len()?;
    let sums = pair_bytes(s, len)?;
    let largest_free = largest_free(s, len)?;
    Ok(Summary {
        report: *report,
        key_bytes: sums.keys,
        data_bytes: sums.values,
        largest_free,
    })
}

/// The summary of an accepted file. Where it isn't accepted, its first fault.
///
/// It checks the file, and then sums it up. But for what the check keeps it holds no more than a few numbers: the lines
/// of the records are those of `chain_lines`. It changes nothing. `Io` where the disk failed, and `Memory` where that
/// is wanting for the check.
pub fn summary<S: Space>(alloc: Global, s: &mut S) -> Result<Summary, SummaryRefusal>
    ensures summed_up { IfOk result (λ sum. IsTrue S.tells → IsFormOf (S.form s.old) (S.image s.old) → Accept (S.image s.old) × SumsUp (S.image s.old) sum) }
    ensures first_fault { IfErr result (λ e. IsTrue S.tells → IsFormOf (S.form s.old) (S.image s.old) → Names e (IsFirstFault (S.image s.old))) }
    ensures looked { Looked S.Space s.old s.new }
    ensures cause { HasCauseOf IoRefusal (S.faults s.old) (S.faults s.new) result }
{
    let report = check(alloc, s)?;
    Ok(sum_up(s, &report)?)
}
