//! The commands on explicit locks inside a transaction, which are only counted: nothing comes into the lock table.
ghost use Rattle.std.specs.Prelude.{◌≡◌, ◌≤◌, ◌+◌, ℕ, List, IfSome};
ghost use Rattle.tdb_locks.specs.HeldLocks.{total_of, AreCounts};
ghost use Rattle.tdb_space.specs.Form.{Form};
ghost use Rattle.tdb_space.specs.Pairs.{home};
ghost use Rattle.tdb_law.specs.Commands.LockCommand.{ChainLock, ChainLockNb, ChainUnlock, UnlockAll};
ghost use Rattle.tdb_law.specs.Openers.{Own, Txn};
ghost use Rattle.tdb_steps.specs.PlainCommands.{reply_of};
ghost use Rattle.tdb_txn_turns.specs.InsideTxn.Counted.{lock_all_of, one_less, one_more, IsCounted, IsInside, CountsInside};

use tdb_locks::{Held, Kind, Reply};

/// Counts a lock of a chain once more. `Memory` where that is wanting, or where the count is at its greatest; then
/// the counts are as they were. Cost: a look-up among the chains that are held.
pub fn count_chain(held: &mut Held, chain: u32) -> Reply
    requires counts { AreCounts held.old.chains }
    ensures turned { (f : Form) (x : Own) (t : Txn) (key : List ℕ) → home f key ≡ chain → IsInside x t → IsCounted held.old x → CountsInside f x (ChainLock key) held.new (reply_of result) }
    ensures at_once { (f : Form) (x : Own) (t : Txn) (key : List ℕ) → home f key ≡ chain → IsInside x t → IsCounted held.old x → CountsInside f x (ChainLockNb key) held.new (reply_of result) }
    ensures counts { AreCounts held.new.chains }
    ensures total { total_of held.new ≤ total_of held.old + 1 }
{
    if held.chain_count(chain) == u32::MAX {
        return Reply::Memory;
    }
    match held.raise_chain(chain) {
        Ok(()) => Reply::Ok,
        Err(_) => Reply::Memory,
    }
}

/// Counts a lock of a chain once less. `NotLocked` where the count is 0. It takes no memory. Cost: a look-up among
/// the chains that are held.
pub fn uncount_chain(held: &mut Held, chain: u32) -> Reply
    requires counts { AreCounts held.old.chains }
    ensures turned { (f : Form) (x : Own) (t : Txn) (key : List ℕ) → home f key ≡ chain → IsInside x t → IsCounted held.old x → CountsInside f x (ChainUnlock key) held.new (reply_of result) }
    ensures counts { AreCounts held.new.chains }
    ensures total { total_of held.new ≤ total_of held.old }
{
    if held.chain_count(chain) == 0 {
        return Reply::NotLocked;
    }
    held.lower_chain(chain);
    Reply::Ok
}

/// The lock of all records once more, where its count isn't at its greatest.
fn more_of(all: Option<(Kind, u32)>, kind: Kind) -> Option<(Kind, u32)>
    ensures { IfSome result (λ now. now ≡ one_more all kind) }
{
    match all {
        None => Some((kind, 1)),
        Some((first, count)) => Some((first, count.checked_add(1)?)),
    }
}

/// The lock of all records once less.
fn less_of(all: (Kind, u32)) -> Option<(Kind, u32)>
    ensures { result ≡ one_less all }
{
    if all.1 <= 1 {
        return None;
    }
    Some((all.0, all.1 - 1))
}

/// Counts a lock of all records once more. Its kind is that of the first time. `Memory` where the count is at its
/// greatest.
pub fn count_all(held: &mut Held, kind: Kind) -> Reply
    ensures turned { (f : Form) (x : Own) (t : Txn) → IsInside x t → IsCounted held.old x → CountsInside f x (lock_all_of kind) held.new (reply_of result) }
    ensures chains { held.new.chains ≡ held.old.chains }
    ensures total { total_of held.new ≤ total_of held.old + 1 }
{
    let Some(now) = more_of(held.all(), kind) else {
        return Reply::Memory;
    };
    held.set_all(Some(now));
    Reply::Ok
}

/// Counts a lock of all records once less. `NotLocked` where there is none. It takes no memory.
pub fn uncount_all(held: &mut Held) -> Reply
    ensures turned { (f : Form) (x : Own) (t : Txn) → IsInside x t → IsCounted held.old x → CountsInside f x UnlockAll held.new (reply_of result) }
    ensures chains { held.new.chains ≡ held.old.chains }
    ensures total { total_of held.new ≤ total_of held.old }
{
    let Some(all) = held.all() else {
        return Reply::NotLocked;
    };
    held.set_all(less_of(all));
    Reply::Ok
}
