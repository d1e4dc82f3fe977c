//! Locks that are taken and let go of in a table of a thousand owners.

ghost use Rattle.std.specs.Prelude.{◌<◌, ◌^◌};

use std::alloc::Global;
use tdb_locks::{Kind, Len, LockRefusal, Locks};

const OWNERS: u32 = 1000;

/// A table in which each owner holds a chain for writing and two records for reading.
fn filled(alloc: Global) -> Result<Locks, LockRefusal> {
    let mut locks = Locks::new(alloc);
    for owner in 0..OWNERS {
        let place = owner as u64;
        locks.try_lock(owner, 168 + 4 * place, Len::Bytes(1), Kind::Write)?;
        locks.try_lock(owner, 8192 + 64 * place, Len::Bytes(1), Kind::Read)?;
        locks.try_lock(owner, 1_000_000 + 128 * place, Len::Bytes(24), Kind::Read)?;
    }
    Ok(locks)
}

/// The first byte that is wanted in this round: in each eighth the chain of some owner, and in the
/// others a place where nobody holds a byte.
fn wanted(round: u32) -> u64
    ensures { result < 2 ^ 32 }
{
    if round % 8 == 0 {
        168 + 4 * (round as u64 * 31 % 1000)
    } else {
        200_000 + 8 * (round as u64 * 104_729 % 5000)
    }
}

/// One owner after another locks four bytes for writing and lets go of them. It answers how many locks were refused.
fn run(locks: &mut Locks, rounds: u32) -> Result<u32, LockRefusal> {
    let mut refused = 0;
    for round in 0..rounds {
        let owner = (round as u64 * 7919 % 1000) as u32;
        let start = wanted(round);
        match locks.try_lock(owner, start, Len::Bytes(4), Kind::Write) {
            Ok(()) => locks.unlock(owner, start, Len::Bytes(4))?,
            Err(LockRefusal::Conflict { .. }) => refused += 1,
            Err(LockRefusal::Memory) => return Err(LockRefusal::Memory),
        }
    }
    Ok(refused)
}

/// Takes and lets go of so many locks, 1,000 unless a count is asked for, and prints how many were granted and refused.
pub(crate) fn measure(rt: HostRuntime, asked: Option<u32>) -> anyhow::Result<()> {
    let mut locks = filled(rt.alloc())?;
    let rounds = asked.unwrap_or(1000);
    let refused = run(&mut locks, rounds)?;
    println!(rt;
        "granted {} refused {refused} pieces {}",
        rounds.saturating_sub(refused),
        locks.piece_count()
    )?;
    Ok(())
}
