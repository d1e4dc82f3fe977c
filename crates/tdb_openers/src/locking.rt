// The turn of a command on explicit locks.

ghost use Rattle.std.specs.Prelude.{◌≡◌, ◌+◌, ◌<◌, ◌^◌, ℕ, Bool, length, MatchResult};
ghost use Rattle.tdb_space.specs.Form.{form_in};
ghost use Rattle.tdb_space.specs.Pairs.{home};
ghost use Rattle.tdb_commands.specs.InLaw.{law_turn};
ghost use Rattle.tdb_openers.specs.Openers.{AtRest, locking_command};
ghost use Rattle.tdb_openers.specs.Given.{IsShortLocking, IsWellHeld};
ghost use Rattle.tdb_openers.specs.Locked.{MayLock, LockingTurned, waiting, at_once};
ghost use Rattle.tdb_commands.specs.declared.options.Options.{Options};

use crate::holding::{hold_all, hold_chain, release_all, release_chain};
use crate::job::Locking;
use tdb_locks::{Held, Kind, LockRefusal, Locks, Reply, Turn};
use tdb_words::{Bytes, Header, chain_of, hash_of};

/// The chain of a key, in a file with this header.
pub(crate) fn chain_in(header: &Header, key: &Bytes) -> u32
    requires chains { 0 < header.now.hash_size }
    requires key { length key.now < 2 ^ 32 }
    ensures { result ≡ home (form_in header.now) key.now }
{
    chain_of(hash_of(header.hash, key.as_slice()), header.hash_size)
}

/// The turn of a command that waits for its lock.
fn waited(taken: Result<(), LockRefusal>) -> Turn
    ensures { MatchResult taken (λ _. result ≡ Turn.Done Reply.Ok) (λ e. result ≡ waiting e) }
{
    match taken {
        Ok(()) => Turn::Done(Reply::Ok),
        Err(LockRefusal::Conflict { owner, byte, .. }) => Turn::Blocked { owner, byte },
        Err(LockRefusal::Memory) => Turn::Done(Reply::Memory),
    }
}

/// The turn of a command that is told at once that its lock is busy.
fn told_at_once(taken: Result<(), LockRefusal>) -> Turn
    ensures { MatchResult taken (λ _. result ≡ Turn.Done Reply.Ok) (λ e. result ≡ at_once e) }
{
    match taken {
        Ok(()) => Turn::Done(Reply::Ok),
        Err(LockRefusal::Conflict { owner, byte, .. }) => Turn::Done(Reply::Busy { owner, byte }),
        Err(LockRefusal::Memory) => Turn::Done(Reply::Memory),
    }
}

/// Takes the turn of a command on explicit locks. `owner` is the number of its opener in the lock table, and `held` are
/// the locks that it has taken explicitly.
///
/// A lock that the opener's explicit locks cover is only counted, and so is an unlock of one that they still cover. A
/// lock of all records keeps the kind of its first time. Where another opener's lock is in the way, `Chain`, `All` and
/// `AllRead` are blocked by the first conflict, and `ChainNb` is told that it is busy. `Memory` where that is wanting,
/// or where a count is at its greatest. Then nothing changes. An unlock takes no memory.
///
/// Cost: a hash of the key, a look-up among the chains that are held, and a pass over the lock table.
pub(crate) fn locking_turn(
    locks: &mut Locks,
    owner: u32,
    held: &mut Held,
    header: &Header,
    locking: &Locking,
) -> Turn
    requires chains { 0 < header.now.hash_size }
    requires short { IsShortLocking locking.now }
    requires well { IsWellHeld held.old }
    requires may { (options : Options) × (live : Bool) × (rest : AtRest) × (who : ℕ) × (owner ≡ who + 1) × MayLock (form_in header.now) options live held.old rest (locking_command locking.now) who locks.old }
    ensures turned { (options : Options) (live : Bool) (rest : AtRest) (who : ℕ) → owner ≡ who + 1 → MayLock (form_in header.now) options live held.old rest (locking_command locking.now) who locks.old
        → LockingTurned (form_in header.now) options live held.old held.new rest (locking_command locking.now) who locks.old locks.new (law_turn result) }
    ensures well { IsWellHeld held.new }
{
    match locking {
        Locking::Chain { key } => {
            let chain = chain_in(header, key);
            waited(hold_chain(locks, owner, held, chain))
        }
        Locking::ChainNb { key } => {
            let chain = chain_in(header, key);
            told_at_once(hold_chain(locks, owner, held, chain))
        }
        Locking::Unchain { key } => {
            release_chain(locks, owner, held, chain_in(header, key));
            Turn::Done(Reply::Ok)
        }
        Locking::All => waited(hold_all(locks, owner, held, Kind::Write)),
        Locking::AllRead => waited(hold_all(locks, owner, held, Kind::Read)),
        Locking::UnlockAll => {
            release_all(locks, owner, held);
            Turn::Done(Reply::Ok)
        }
    }
}
