// Pairs of a file that are merged into another.

ghost use Rattle.std.specs.Prelude.{◌≡◌, ◌≤◌, [], List, IsTrue, OnOk, false};
ghost use Rattle.tdb_disk.specs.Count.{HasCauseOf, Rose};
ghost use Rattle.tdb_disk.specs.History.{seen};
ghost use Rattle.tdb_space.specs.Accepted.{AcceptWith};
ghost use Rattle.tdb_space.specs.Extents.{HandPair};
ghost use Rattle.tdb_space.specs.Frame.{Looked};
ghost use Rattle.tdb_space.specs.Pairs.{order_of};
ghost use Rattle.tdb_law.specs.Openers.{Map};
ghost use Rattle.tdb_law.specs.World.{State};
ghost use Rattle.tdb_rewrite.specs.Rewritten.{chosen};
ghost use Rattle.tdb_world.specs.Loaded.{IsJustLoaded};
ghost use Rattle.tdb_world.specs.Stops.{IsSafe};
ghost use Rattle.tdb_world.specs.Whole.{form_at};
ghost use Rattle.tdb_merge.specs.Faults.{OnDevice, UnlessDevice};
ghost use Rattle.tdb_merge.specs.Merged.{Merges};
ghost use Rattle.tdb_merge.specs.Parts.{AtRest, Committed, Led, Outside, Ran, stored};
ghost use Rattle.tdb_merge.specs.declared.fault.MergeFault.TheVariants as FaultIs;

use crate::fault::MergeFault;
use crate::playing::{do_command, join};
use crate::storing::store_pairs;
use std::alloc::Global;
use tdb_commands::Command;
use tdb_disk::Disk;
use tdb_log::Logs;
use tdb_space::Space;
use tdb_world::World;

/// An opener joins, begins a transaction, stores the pairs whose key begins with `prefix`, and commits.
fn merge_in<S: Space, D: Disk, L: Logs>(
    alloc: Global,
    from: &mut S,
    prefix: &[u8],
    world: &mut World<D>,
    logs: &mut L,
) -> Result<(), MergeFault>
    requires unspent { world.old.spent ≡ false }
    ensures ran { Ran world.old world.new result }
    ensures led { IsTrue S.tells → (hands : List HandPair) → AcceptWith (S.form from.old) (S.image from.old) hands → (m : Map)
        → let n = stored m (chosen prefix.now (order_of (S.form from.old) (S.image from.old))) in Led D.tells m n Outside n Committed world.old world.new result }
    ensures safe { OnOk result (IsTrue S.tells → IsTrue D.tells → (hands : List HandPair) → AcceptWith (S.form from.old) (S.image from.old) hands → (m : Map)
        → AtRest m Outside world.old → IsSafe (form_at world.old.world) world.new.history) }
    ensures looked { Looked S.Space from.old from.new }
    ensures cause { HasCauseOf FaultIs.Read (S.faults from.old) (S.faults from.new) result }
{
    join(world)?;
    do_command(alloc, world, Command::Start, logs)?;
    store_pairs(alloc, from, prefix, world, logs)?;
    do_command(alloc, world, Command::Commit, logs)
}

/// Stores the pairs of a file whose key begins with `prefix` into the file of a world in which nobody has joined, in
/// one transaction; then the world is given up, and its disk comes back. A key that the file has gets the new value;
/// its other keys stay. The file that is read stays as it is. The last log is told what the commands do to the file:
/// that it grows.
///
/// The pairs are read one by one, in the order of a dump. All that the transaction changes is kept in memory up to its
/// commit, in pages of the file; so where it breaks off before that the file isn't written.
///
/// `Full` where a pair, or the commit, finds no room within the limit of the world, and `Starved` where a command finds
/// no memory: then the transaction is given up, and the file is read as before. `Read` where the disk failed from which
/// the pairs are read, `Device` where the other did, or a check found a fault that no turn leaves. `Log` where a log
/// failed, and `Memory` where that was wanting for a pair, a report or a log; then the commit may be done.
///
/// Cost: one pass over the file that is read; of each pair a copy or two, and a walk along the chain of its key in the
/// other file; a commit of the pages that were changed, with nine syncs at most.
pub fn merge<S: Space, D: Disk, L: Logs>(
    alloc: Global,
    from: &mut S,
    prefix: &[u8],
    mut world: World<D>,
    logs: &mut L,
) -> (D, Result<(), MergeFault>)
    requires unspent { world.spent ≡ false }
    requires accepted { IsTrue D.tells → AcceptWith (form_at world.world) (seen world.history) [] }
    ensures merged { IsTrue S.tells → IsTrue D.tells → (hands : List HandPair) → AcceptWith (S.form from.old) (S.image from.old) hands
        → (state : State) → IsJustLoaded world.world world.history state
        → Merges (form_at world.world) (chosen prefix.now (order_of (S.form from.old) (S.image from.old))) world.history (D.history result.0) result.1 }
    ensures rises { world.faults ≤ D.faults result.0 }
    ensures quiet { UnlessDevice result.1 (D.faults result.0 ≡ world.faults) }
    ensures rose { IsTrue S.tells → IsTrue D.tells → (hands : List HandPair) → AcceptWith (S.form from.old) (S.image from.old) hands
        → (state : State) → IsJustLoaded world.world world.history state → OnDevice result.1 (Rose world.faults (D.faults result.0)) }
    ensures looked { Looked S.Space from.old from.new }
    ensures cause { HasCauseOf FaultIs.Read (S.faults from.old) (S.faults from.new) result.1 }
{
    let answer = merge_in(alloc, from, prefix, &mut world, logs);
    (world.close(), answer)
}
