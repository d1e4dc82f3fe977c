// The way of a move through the chains.

ghost use Rattle.std.specs.Prelude.{◌≡◌, ◌-◌, ◌≤◌, IsTrue, List, ℕ, IfOk};
ghost use Rattle.tdb_disk.specs.Count.{HasCauseOf, RoseUpTo};
ghost use Rattle.tdb_space.specs.Frame.{Looked};
ghost use Rattle.tdb_space.specs.Form.{data_start};
ghost use Rattle.tdb_space.specs.Extents.{HandPair};
ghost use Rattle.tdb_space.specs.Accepted.{AcceptWith};
ghost use Rattle.tdb_law.specs.Layout.Place.{before_chain};
ghost use Rattle.tdb_walk.specs.NextLive.{StandsIn, place_of};
ghost use Rattle.tdb_walk.specs.Way.{IsWay, MeetsWithin, SameLocks, next_chain};
ghost use Rattle.tdb_walk.specs.Reads.{chains_reads, move_reads, way_end};
ghost use Rattle.tdb_walk.specs.declared.refusal.WalkRefusal.TheVariants.{Io};

use crate::heads::first_filled;
use crate::live::Live;
use crate::looking::{Look, look_along};
use crate::records::live_behind;
use crate::refusal::WalkRefusal;
use crate::standing::Standing;
use tdb_locks::{Held, Locks};
use tdb_space::{Space, data_start};

/// Where a move comes to.
#[derive(Clone, Copy, Debug, PartialEq, Eq)]
pub enum Way {
    /// The next live record.
    Met(Live),

    /// A chain that can't be read: another opener holds this byte for writing.
    Blocked { chain: u32, owner: u32, byte: u64 },

    /// Past the last chain.
    End,
}

/// Goes from chain to chain, from a number on, to the first live record.
fn pass_chains<S: Space>(
    s: &mut S,
    len: u64,
    locks: &mut Locks,
    owner: u32,
    own: &Held,
    from: u32,
) -> Result<Way, WalkRefusal>
    requires length { len ≡ S.size s.old }
    requires heads { data_start (S.form s.old) ≤ len }
    ensures way { IfOk result (λ way. IsTrue S.tells → (hands : List HandPair) → AcceptWith (S.form s.old) (S.image s.old) hands
        → IsWay (S.form s.old) (S.image s.old) locks.old owner own.now (before_chain from) from way) }
    ensures within { IfOk result (MeetsWithin (S.form s.old) (S.size s.old)) }
    ensures locks { SameLocks locks.old locks.new }
    ensures looked { Looked S.Space s.old s.new }
    ensures cause { HasCauseOf Io (S.faults s.old) (S.faults s.new) result }
    ensures reads { IfOk result (λ way. IsTrue S.tells → RoseUpTo (chains_reads (S.form s.old) (S.image s.old) from (way_end (S.form s.old) way - from)) (S.bytes_read s.old) (S.bytes_read s.new)) }
    ensures reads_at_most { IsTrue S.tells → RoseUpTo (chains_reads (S.form s.old) (S.image s.old) from ((S.form s.old).chains - from)) (S.bytes_read s.old) (S.bytes_read s.new) }
    ensures bytes_read { S.bytes_read s.old ≤ S.bytes_read s.new }
{
    let chains = s.hash_size();
    let mut chain = from;
    while chain < chains {
        let Some(head) = first_filled(s, len, chain)? else {
            return Ok(Way::End);
        };
        match look_along(s, len, locks, owner, own, head)? {
            Look::Seen(Some(live)) => return Ok(Way::Met(live)),
            Look::Seen(None) => chain = head.chain + 1,
            Look::Stopped { owner, byte } => {
                return Ok(Way::Blocked {
                    chain: head.chain,
                    owner,
                    byte,
                });
            }
        }
    }
    Ok(Way::End)
}

/// Goes from a place to the next live record: along the chain in which the cursor stands, whose lock is the caller's,
/// and then chain by chain. Dead records and chains without records are passed over.
///
/// A chain with records is held for reading while it is looked at, unless the opener's explicit locks let it or it
/// holds the chain already; where another opener holds it for writing the move is blocked before that chain. It leaves
/// the lock table as it was. The heads of chains are read in blocks of 1024, so a move through chains without records
/// costs one read for each block; of each record up to the one that it answers 24 bytes are read. Where the file's
/// bytes aren't those of an accepted file, it answers a record that lies within the file, or none.
pub fn move_on<S: Space>(
    s: &mut S,
    locks: &mut Locks,
    owner: u32,
    own: &Held,
    place: Standing,
) -> Result<Way, WalkRefusal>
    ensures way { IfOk result (λ way. IsTrue S.tells → (hands : List HandPair) → AcceptWith (S.form s.old) (S.image s.old) hands → StandsIn (S.form s.old) (S.image s.old) place
        → IsWay (S.form s.old) (S.image s.old) locks.old owner own.now (place_of place) (next_chain (S.form s.old) place) way) }
    ensures within { IfOk result (MeetsWithin (S.form s.old) (S.size s.old)) }
    ensures locks { SameLocks locks.old locks.new }
    ensures looked { Looked S.Space s.old s.new }
    ensures cause { HasCauseOf Io (S.faults s.old) (S.faults s.new) result }
    ensures reads { IfOk result (λ way. IsTrue S.tells → RoseUpTo (move_reads (S.form s.old) (S.image s.old) place (way_end (S.form s.old) way)) (S.bytes_read s.old) (S.bytes_read s.new)) }
    ensures reads_at_most { IsTrue S.tells → RoseUpTo (move_reads (S.form s.old) (S.image s.old) place (S.form s.old).chains) (S.bytes_read s.old) (S.bytes_read s.new) }
    ensures bytes_read { S.bytes_read s.old ≤ S.bytes_read s.new }
{
    let len = s.len()?;
    let chains = s.hash_size();
    if len < data_start(chains) {
        return Ok(Way::End);
    }
    match place {
        Standing::Before(chain) => pass_chains(s, len, locks, owner, own, chain),
        Standing::On(chain, off) => {
            if chain >= chains {
                return Ok(Way::End);
            }
            if let Some(live) = live_behind(s, len, chain, off)? {
                return Ok(Way::Met(live));
            }
            pass_chains(s, len, locks, owner, own, chain + 1)
        }
        Standing::Past => Ok(Way::End),
    }
}
