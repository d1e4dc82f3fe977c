// A look at one chain, which is held for reading meanwhile.

ghost use Rattle.std.specs.Prelude.{◌≡◌, ◌≤◌, ◌<◌, ◌+◌, ◌*◌, ◌/◌, IsTrue, List, ℕ, IfOk, length};
ghost use Rattle.tdb_disk.specs.Count.{HasCauseOf, RoseUpTo};
ghost use Rattle.tdb_space.specs.Frame.{Looked};
ghost use Rattle.tdb_space.specs.Chain.{offsets};
ghost use Rattle.tdb_walk.specs.Way.{lock_byte, reads_chain, LooksRightly, SameLocks};
ghost use Rattle.tdb_walk.specs.Looks.{Shows, ShowsOf, LooksWithin};
ghost use Rattle.tdb_walk.specs.Reads.{records_reads};
ghost use Rattle.tdb_walk.specs.declared.refusal.WalkRefusal.TheVariants.{Io};

use crate::heads::Head;
use crate::live::Live;
use crate::records::live_from;
use crate::refusal::WalkRefusal;
use tdb_locks::{Held, Kind, Len, LockRefusal, Locks};
use tdb_space::Space;

/// What a look at a chain shows.
#[derive(Clone, Copy)]
pub enum Look {
    /// Its first live record, if it has one.
    Seen(Option<Live>),

    /// Nothing: another opener holds this byte for writing.
    Stopped { owner: u32, byte: u64 },
}

/// The byte by which a chain is locked.
pub(crate) fn lock_byte(chain: u32) -> u64
    ensures { result ≡ lock_byte chain }
{
    168 + 4 * chain as u64
}

/// Whether an opener's explicit locks let it read a chain.
pub(crate) fn may_read(own: &Held, chain: u32) -> bool
    ensures { result ≡ reads_chain own.now chain }
{
    own.chain_count(chain) > 0 || own.all().is_some()
}

/// Looks along a chain from its first record, and holds the chain for reading meanwhile, unless the opener's explicit
/// locks let it, or it holds the chain already.
pub(crate) fn look_along<S: Space>(
    s: &mut S,
    len: u64,
    locks: &mut Locks,
    owner: u32,
    own: &Held,
    head: Head,
) -> Result<Look, WalkRefusal>
    requires length { len ≡ S.size s.old }
    requires below { head.chain < (S.form s.old).chains }
    ensures shows { IfOk result (λ look. IsTrue S.tells → Shows (S.form s.old) (S.image s.old) head look) }
    ensures within { IfOk result (λ look. LooksWithin (S.form s.old) (S.size s.old) look) }
    ensures chain { IfOk result (ShowsOf head.chain) }
    ensures rightly { IfOk result (LooksRightly locks.old owner own.now head.chain) }
    ensures locks { SameLocks locks.old locks.new }
    ensures looked { Looked S.Space s.old s.new }
    ensures cause { HasCauseOf Io (S.faults s.old) (S.faults s.new) result }
    ensures bytes_read { S.bytes_read s.old ≤ S.bytes_read s.new }
    ensures reads { IsTrue S.tells → RoseUpTo (records_reads (S.form s.old) (S.image s.old) (offsets (S.form s.old).order (S.image s.old) (length (S.image s.old) / 4) head.first)) (S.bytes_read s.old) (S.bytes_read s.new) }
{
    let byte = lock_byte(head.chain);
    if may_read(own, head.chain) || locks.kind_of(owner, byte).is_some() {
        return Ok(Look::Seen(live_from(s, len, head.chain, head.first)?));
    }
    match locks.try_lock(owner, byte, Len::Bytes(1), Kind::Read) {
        Ok(()) => {}
        Err(LockRefusal::Conflict { owner, byte, .. }) => {
            return Ok(Look::Stopped { owner, byte });
        }
        Err(LockRefusal::Memory) => return Err(WalkRefusal::Memory),
    }
    let live = live_from(s, len, head.chain, head.first);
    locks.unlock(owner, byte, Len::Bytes(1)).unwrap();
    Ok(Look::Seen(live?))
}
