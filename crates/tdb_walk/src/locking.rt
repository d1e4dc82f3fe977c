// One byte of the lock table is taken, or let go.

ghost use Rattle.std.specs.Prelude.{◌≡◌, ◌+◌, ◌<◌, ◌^◌, ℕ, Some, None, false, IfErr, OnErr, OnOk};
ghost use Rattle.tdb_locks.specs.LockTable.{held};
ghost use Rattle.tdb_locks.specs.Refusal.{IsRefusal};
ghost use Rattle.tdb_walk.specs.ByteLocks.{with_byte, reads_all, only_reads, CanHold};

use tdb_locks::{Held, Kind, Len, LockRefusal, Locks};

/// Whether an opener's explicit locks let it read each record.
pub(crate) fn may_read_all(own: &Held) -> bool
    ensures { result ≡ reads_all own.now }
{
    own.all().is_some()
}

/// Whether an opener holds all records explicitly, and for reading alone.
pub(crate) fn only_reads(own: &Held) -> bool
    ensures { result ≡ only_reads own.now }
{
    match own.all() {
        Some((Kind::Read, _)) => true,
        Some((Kind::Write, _)) | None => false,
    }
}

/// Takes a byte, unless it is covered.
pub(crate) fn take_byte(
    locks: &mut Locks,
    owner: u32,
    covered: bool,
    byte: u64,
    kind: Kind,
) -> Result<(), LockRefusal>
    requires range { byte + 1 < 2 ^ 63 }
    ensures taken { OnOk result ((o b : ℕ) → held locks.new o b ≡ with_byte covered owner byte (Some kind) (held locks.old) o b) }
    ensures granted { OnOk result (CanHold covered locks.old owner byte kind) }
    ensures refused { IfErr result (λ e. IsRefusal locks.old owner byte (byte + 1) kind e) }
    ensures bare { OnErr result (covered ≡ false) }
    ensures err { OnErr result (locks.new ≡ locks.old) }
{
    if covered {
        return Ok(());
    }
    locks.try_lock(owner, byte, Len::Bytes(1), kind)
}

/// Lets go of a byte, whether it was taken or not, unless it is covered. It takes no memory.
pub(crate) fn let_go_byte(locks: &mut Locks, owner: u32, covered: bool, byte: u64)
    requires range { byte + 1 < 2 ^ 63 }
    requires alone { covered ≡ false → (b : ℕ) → b + 1 ≡ byte → held locks.old owner b ≡ None }
    ensures { (o b : ℕ) → held locks.new o b ≡ with_byte covered owner byte None (held locks.old) o b }
{
    if covered {
        return;
    }
    match locks.unlock(owner, byte, Len::Bytes(1)) {
        Ok(()) => {}
        Err(_) => unreachable!(),
    }
}
