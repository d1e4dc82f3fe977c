// The turns of a check.

ghost use Rattle.std.specs.Prelude.{◌≡◌, ◌≤◌, ℕ, List, [], IsTrue, IfOk, OnOk, OnErr, IfSome, length};
ghost use Rattle.tdb_disk.specs.Count.{HasCause};
ghost use Rattle.tdb_space.specs.Form.{Form};
ghost use Rattle.tdb_space.specs.Accepted.{AcceptWith};
ghost use Rattle.tdb_space.specs.Pairs.{order_of};
ghost use Rattle.tdb_law.specs.Commands.Command.{OnMap};
ghost use Rattle.tdb_law.specs.Commands.MapCommand.{Check};
ghost use Rattle.tdb_law.specs.Openers.{Map};
ghost use Rattle.tdb_steps.specs.Machines.{MapRow, MapTurned};
ghost use Rattle.tdb_steps.specs.Memory.{StarvesOutside};
ghost use Rattle.tdb_space.specs.Frame.{Looked};
ghost use Rattle.tdb_steps.specs.LockRows.{AllStandAlone, locks_in};
ghost use Rattle.tdb_steps.specs.Holdings.{HoldsBefore, LocksTurned};
ghost use Rattle.tdb_steps.specs.PlainCommands.{turn_of, IsMapOf};
ghost use Rattle.tdb_openers.specs.Openers.{CheckAfter};
ghost use Rattle.tdb_openers.specs.Checked.{check_locks, all_lock, free_lock, CheckLocks, CheckLeaves, MovesOn, HasCounted, HasKeys};

use crate::job::Checking;
use std::alloc::Global;
use tdb_check::{CheckRefusal, check};
use tdb_locks::{Held, Kind, LockRefusal, Locks, Reply, Turn};
use tdb_space::{Io, Space};
use tdb_steps::{LockRow, Region, Rows, let_go, take_lock};

/// The lock of all records for reading, which comes first.
fn all_row() -> LockRow
    ensures { result ≡ all_lock }
{
    LockRow {
        turn: 0,
        region: Region::AllRecords,
        kind: Kind::Read,
    }
}

/// The lock of the free list for reading, which comes next.
fn free_row() -> LockRow
    ensures { result ≡ free_lock }
{
    LockRow {
        turn: 1,
        region: Region::FreeList,
        kind: Kind::Read,
    }
}

/// The locks of a check.
fn check_rows() -> Rows
    ensures { result ≡ check_locks }
{
    Rows {
        first: all_row(),
        second: Some(free_row()),
    }
}

/// A turn that takes a lock of a check, which goes on as `next` then.
fn take_row(
    locks: &mut Locks,
    owner: u32,
    held: &Held,
    row: LockRow,
    checking: &mut Checking,
    next: Checking,
) -> Turn
    requires alone { AllStandAlone held.now owner locks.old check_locks }
    ensures locks { CheckLocks held.now owner locks.old locks.new row result }
    ensures moved { MovesOn checking.old next checking.new result }
{
    match take_lock(locks, owner, held, row) {
        Ok(()) => {
            *checking = next;
            Turn::Step
        }
        Err(LockRefusal::Conflict { owner, byte, .. }) => Turn::Blocked { owner, byte },
        Err(LockRefusal::Memory) => {
            let_go(locks, owner, held, &check_rows());
            Turn::Done(Reply::Memory)
        }
    }
}

/// The count of a check, which has both its locks: it is told, or memory is wanting.
///
/// `Io` where the disk failed, and where the file has a fault, which no command leaves: so over an accepted file the
/// disk failed.
fn count<S: Space>(alloc: Global, s: &mut S) -> Result<Option<u64>, Io>
    ensures counted { IfOk result (λ live. IsTrue S.tells → AcceptWith (S.form s.old) (S.image s.old) [] → IfSome live (λ keys. keys ≡ length (order_of (S.form s.old) (S.image s.old)))) }
    ensures cause { IsTrue S.tells → AcceptWith (S.form s.old) (S.image s.old) [] → HasCause (S.faults s.old) (S.faults s.new) result }
    ensures looked { Looked S.Space s.old s.new }
    ensures rises { S.faults s.old ≤ S.faults s.new }
    ensures done { OnOk result (S.faults s.new ≡ S.faults s.old) }
{
    match check(alloc, s) {
        Ok(report) => Ok(Some(report.live)),
        Err(CheckRefusal::Memory) => Ok(None),
        Err(CheckRefusal::Io) => Err(Io),
        Err(CheckRefusal::Corrupt { .. }) => Err(Io),
    }
}

/// Takes one turn of a check. `owner` is the number of its opener in the lock table, and `held` are the locks that it
/// has taken explicitly.
///
/// All records are locked for reading, and then the free list; then the keys are counted, and the reply is their
/// number. A lock that the explicit ones cover is neither taken nor let go. Blocked by the first conflict: then nothing
/// changes. With its reply the check lets go of what it took, for which it asks for no memory. `Memory` where that is
/// wanting for a lock or for the count. `Io` where the disk failed, and where the file has a fault, which no command
/// leaves: then it keeps its locks.
///
/// Cost: a pass over the lock table where a lock is taken; else a check of the whole file.
pub(crate) fn check_turn<S: Space>(
    alloc: Global,
    s: &mut S,
    locks: &mut Locks,
    owner: u32,
    held: &Held,
    checking: &mut Checking,
) -> Result<Turn, Io>
    requires alone { AllStandAlone held.now owner locks.old check_locks }
    ensures locks { IfOk result (λ turn. (n : ℕ) (kept : ℕ → ℕ) → CheckAfter checking.old n → HoldsBefore held.now kept owner n locks.old check_locks
        → LocksTurned (locks_in check_locks) kept owner n locks.old locks.new (turn_of turn)) }
    ensures row { IfOk result (λ turn. (n : ℕ) → CheckAfter checking.old n → MapRow Check n (turn_of turn)) }
    ensures map { IfOk result (λ turn. (n : ℕ) (f : Form) (img : List ℕ) (m : Map) → CheckAfter checking.old n → IsMapOf f img m → HasKeys checking.old m
        → MapTurned f img Check n m (turn_of turn)) }
    ensures leaves { IfOk result (CheckLeaves checking.old checking.new) }
    ensures starves { IfOk result (λ turn. (f : Form) (n : ℕ) → CheckAfter checking.old n → StarvesOutside f (record { command = OnMap Check; steps = n }) (turn_of turn)) }
    ensures counted { IfOk result (λ turn. IsTrue S.tells → AcceptWith (S.form s.old) (S.image s.old) [] → checking.old ≡ Checking.FreeList → HasCounted (S.form s.old) (S.image s.old) checking.new) }
    ensures looked { Looked S.Space s.old s.new }
    ensures cause { IsTrue S.tells → (checking.old ≡ Checking.FreeList → AcceptWith (S.form s.old) (S.image s.old) []) → HasCause (S.faults s.old) (S.faults s.new) result }
    ensures rises { S.faults s.old ≤ S.faults s.new }
    ensures done { OnOk result (S.faults s.new ≡ S.faults s.old) }
    ensures err { OnErr result (locks.new ≡ locks.old) }
{
    match *checking {
        Checking::Begun => {
            Ok(take_row(locks, owner, held, all_row(), checking, Checking::Records))
        }
        Checking::Records => {
            Ok(take_row(locks, owner, held, free_row(), checking, Checking::FreeList))
        }
        Checking::FreeList => match count(alloc, s)? {
            Some(keys) => {
                *checking = Checking::Counted(keys);
                Ok(Turn::Step)
            }
            None => {
                let_go(locks, owner, held, &check_rows());
                Ok(Turn::Done(Reply::Memory))
            }
        },
        Checking::Counted(keys) => {
            let_go(locks, owner, held, &check_rows());
            Ok(Turn::Done(Reply::Number(keys)))
        }
    }
}
