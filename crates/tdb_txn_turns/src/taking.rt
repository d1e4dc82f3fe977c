//! A turn takes what it wants of the lock table.
ghost use Rattle.std.specs.Prelude.{◌≡◌, None};
ghost use Rattle.tdb_locks.specs.LockTable.{ChangesRange, IsRange, stop};
ghost use Rattle.tdb_law.specs.Held.{locked_next};
ghost use Rattle.tdb_law.specs.Rows.{lock, commit_locks};
ghost use Rattle.tdb_steps.specs.Holdings.{table_of};
ghost use Rattle.tdb_steps.specs.LockRows.{strength_of};
ghost use Rattle.tdb_txn_turns.specs.Holding.{first_next, want_of, MayRaise, OthersHold, AttemptMade, NumberMade};

use tdb_locks::{Kind, Len, LockRefusal, Locks};

/// The lock byte of opening a file, which a commit holds for writing.
pub(crate) const OPENING_BYTE: u64 = 0;

/// The lock byte of transactions.
pub(crate) const TXN_BYTE: u64 = 8;

/// The lock byte of the sequence number.
pub(crate) const NUMBER_BYTE: u64 = 48;

/// The first lock byte of the chains and the records, which reach to the end.
pub(crate) const ALL_RECORDS: u64 = 168;

/// What an attempt to take a lock led to.
#[derive(Clone, Copy)]
pub(crate) enum Attempt {
    Taken,

    /// Another opener's lock on a byte is in the way: the opener holds what it held.
    Blocked { owner: u32, byte: u64 },

    /// There was no memory, and the opener has let go of everything. Nothing was in the way of what it tried.
    Starved,
}

/// Takes a range for an opener. Where memory is wanting, it lets go of all that the opener holds.
pub(crate) fn take(locks: &mut Locks, owner: u32, start: u64, len: Len, kind: Kind) -> Attempt
    requires range { IsRange start len }
    ensures others { OthersHold owner locks.old locks.new }
    ensures made { MayRaise (want_of (lock 0 start (stop start len) (strength_of kind))) owner locks.old
        → AttemptMade (want_of (lock 0 start (stop start len) (strength_of kind))) (want_of (lock 0 start (stop start len) (strength_of kind))) owner locks.old locks.new result }
{
    match locks.try_lock(owner, start, len, kind) {
        Ok(()) => Attempt::Taken,
        Err(LockRefusal::Conflict { owner, byte, .. }) => Attempt::Blocked { owner, byte },
        Err(LockRefusal::Memory) => {
            locks.drop_owner(owner);
            Attempt::Starved
        }
    }
}

/// Lets go of the opening lock. It takes no memory, since no piece begins before that byte.
fn let_go_of_opening(locks: &mut Locks, owner: u32)
    ensures { ChangesRange locks.old locks.new owner 0 1 None }
{
    match locks.unlock(owner, OPENING_BYTE, Len::Bytes(1)) {
        Ok(()) => {}
        Err(_) => unreachable!(),
    }
}

/// Takes the sequence number's lock byte for writing, beside the opening lock, which is let go where another opener's
/// lock is in the way.
fn take_number(locks: &mut Locks, owner: u32) -> Attempt
    ensures others { OthersHold owner locks.old locks.new }
    ensures made { NumberMade owner locks.old locks.new result }
{
    let attempt = take(locks, owner, NUMBER_BYTE, Len::Bytes(1), Kind::Write);
    if let Attempt::Blocked { .. } = attempt {
        let_go_of_opening(locks, owner);
    }
    attempt
}

/// Takes the opening lock for writing, and the sequence number's where the changes of a transaction raise that. Before,
/// the opener holds nothing of the first.
pub(crate) fn take_opening(locks: &mut Locks, owner: u32, numbered: bool) -> Attempt
    ensures others { OthersHold owner locks.old locks.new }
    ensures made { table_of locks.old owner 0 ≡ 0 → AttemptMade (locked_next (commit_locks numbered) 1) (first_next (commit_locks numbered) 1) owner locks.old locks.new result }
{
    let opening = take(locks, owner, OPENING_BYTE, Len::Bytes(1), Kind::Write);
    if !numbered {
        return opening;
    }
    match opening {
        Attempt::Taken => take_number(locks, owner),
        Attempt::Blocked { .. } | Attempt::Starved => opening,
    }
}
