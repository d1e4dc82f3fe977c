//! The turns of an outer Start.
ghost use Rattle.std.specs.Prelude.{◌≡◌, ◌+◌, true, ℕ, IsTrue, IfOk, OnErr};
ghost use Rattle.tdb_disk.specs.Count.{HasCause, RoseBy, RoseUpTo};
ghost use Rattle.tdb_disk.specs.Stop.{LeavesOnly, Leaves};
ghost use Rattle.tdb_space.specs.Form.{Form, form_in};
ghost use Rattle.tdb_law.specs.Rows.{start_locks};
ghost use Rattle.tdb_txn_turns.specs.Holding.{attempt_turn, HoldsRow, RowTurned};
ghost use Rattle.tdb_txn_turns.specs.Starts.{start_steps, start_turn, IsNewTxn, BegunOn, StartLeads, StartMade};

use crate::taking::{ALL_RECORDS, Attempt, TXN_BYTE, take};
use std::alloc::Global;
use tdb_disk::Disk;
use tdb_locks::{Kind, Len, Locks};
use tdb_space::Io;
use tdb_txn::Txn;
use tdb_words::Header;

/// How far an outer Start is.
#[derive(Clone, Copy, Debug, PartialEq, Eq)]
pub enum Starting {
    Begun,

    /// It holds the lock byte of transactions for writing.
    Claimed,

    /// It holds all records for reading too.
    Reading,
}

/// What a turn of a Start led to.
#[derive(Drop)]
pub enum StartTurn {
    Step(Starting),

    /// Another opener holds this byte. Nothing was done, and the next turn tries again.
    Blocked { owner: u32, byte: u64 },

    /// There was no memory: the opener holds nothing, and there is no transaction.
    Memory,

    /// The transaction has begun, and keeps its locks.
    Done(Txn),
}

/// The turn that an attempt to take a lock makes, after which the Start is so far.
fn go_on(attempt: Attempt, next: Starting) -> StartTurn
    ensures turn { start_turn result ≡ attempt_turn attempt }
    ensures leads { (f : Form) (size : ℕ) (s : Starting) → start_steps next ≡ start_steps s + 1 → StartLeads f size s result }
{
    match attempt {
        Attempt::Taken => StartTurn::Step(next),
        Attempt::Blocked { owner, byte } => StartTurn::Blocked { owner, byte },
        Attempt::Starved => StartTurn::Memory,
    }
}

/// The first turn takes the lock byte of transactions for writing.
fn claim(locks: &mut Locks, owner: u32) -> StartTurn
    ensures locks { HoldsRow start_locks (λ b. 0) owner 0 locks.old → RowTurned true start_locks (λ b. 0) owner 0 locks.old locks.new (start_turn result) }
    ensures leads { (f : Form) (size : ℕ) → StartLeads f size Starting.Begun result }
{
    let attempt = take(locks, owner, TXN_BYTE, Len::Bytes(1), Kind::Write);
    go_on(attempt, Starting::Claimed)
}

/// The second takes all records for reading.
fn read_all(locks: &mut Locks, owner: u32) -> StartTurn
    ensures locks { HoldsRow start_locks (λ b. 0) owner 1 locks.old → RowTurned true start_locks (λ b. 0) owner 1 locks.old locks.new (start_turn result) }
    ensures leads { (f : Form) (size : ℕ) → StartLeads f size Starting.Claimed result }
{
    let attempt = take(locks, owner, ALL_RECORDS, Len::ToEnd, Kind::Read);
    go_on(attempt, Starting::Reading)
}

/// The third begins the transaction, after a sync.
fn begin<D: Disk>(alloc: Global, d: &mut D, h: &Header) -> Result<Txn, Io>
    ensures new { IfOk result (IsNewTxn (form_in h.now) (D.size d.old)) }
    ensures begun { IfOk result (λ txn. IsTrue D.tells → BegunOn (D.history d.old) (D.history d.new) txn) }
    ensures stops { LeavesOnly (D.history d.old) (D.history d.new) (Leaves (D.history d.old)) }
    ensures size { D.size d.new ≡ D.size d.old }
    ensures cause { HasCause (D.faults d.old) (D.faults d.new) result }
    ensures syncs { RoseUpTo 1 (D.syncs d.old) (D.syncs d.new) }
    ensures bytes_read { D.bytes_read d.new ≡ D.bytes_read d.old }
{
    match Txn::start(alloc, d, h) {
        Ok(txn) => Ok(txn),
        Err(_) => Err(Io),
    }
}

impl Starting {
    /// Takes one turn of an outer Start of the opener with the number `owner` in the lock table, on a file with this
    /// header.
    ///
    /// The first turn takes the lock byte of transactions for writing, the second all records for reading, and the
    /// third syncs the file, after which the transaction is there. `Blocked` by the first conflict: then nothing
    /// changes. `Memory` where that is wanting in the lock table, and no other opener's lock is in the way: then the
    /// opener holds nothing. `Io` where the disk failed: then it keeps its locks.
    ///
    /// Cost: a pass over the lock table, or a sync.
    pub fn step<D: Disk>(
        self,
        alloc: Global,
        d: &mut D,
        h: &Header,
        locks: &mut Locks,
        owner: u32,
    ) -> Result<StartTurn, Io>
        ensures locks { IfOk result (λ turn. HoldsRow start_locks (λ b. 0) owner (start_steps self) locks.old
            → RowTurned true start_locks (λ b. 0) owner (start_steps self) locks.old locks.new (start_turn turn)) }
        ensures leads { IfOk result (StartLeads (form_in h.now) (D.size d.old) self) }
        ensures made { IfOk result (λ turn. IsTrue D.tells → StartMade (D.history d.old) (D.history d.new) turn) }
        ensures stops { LeavesOnly (D.history d.old) (D.history d.new) (Leaves (D.history d.old)) }
        ensures err { OnErr result (locks.new ≡ locks.old) }
        ensures size { D.size d.new ≡ D.size d.old }
        ensures cause { HasCause (D.faults d.old) (D.faults d.new) result }
        ensures syncs { RoseUpTo 1 (D.syncs d.old) (D.syncs d.new) }
        ensures bytes_read { D.bytes_read d.new ≡ D.bytes_read d.old }
    {
        match self {
            Starting::Begun => Ok(claim(locks, owner)),
            Starting::Claimed => Ok(read_all(locks, owner)),
            Starting::Reading => Ok(StartTurn::Done(begin(alloc, d, h)?)),
        }
    }
}
