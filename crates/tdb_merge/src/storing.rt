// Pairs that are stored one by one in a transaction.

ghost use Rattle.std.specs.Prelude.{◌≡◌, ◌≢◌, ◌<◌, ◌^◌, ◌∷◌, [], List, IsTrue, IfErr, IfOk, false, length};
ghost use Rattle.tdb_disk.specs.Count.{HasCauseOf};
ghost use Rattle.tdb_space.specs.Accepted.{AcceptWith};
ghost use Rattle.tdb_space.specs.Extents.{HandPair};
ghost use Rattle.tdb_space.specs.Frame.{Looked};
ghost use Rattle.tdb_space.specs.Pairs.{order_of};
ghost use Rattle.tdb_law.specs.Openers.{Map};
ghost use Rattle.tdb_steps.specs.declared.flag.Flag.TheVariants.{Replace};
ghost use Rattle.tdb_backup.specs.Traversal.{pair_at_hand};
ghost use Rattle.tdb_commands.specs.declared.command.Command.TheVariants.{Store};
ghost use Rattle.tdb_rewrite.specs.Rewritten.{chosen};
ghost use Rattle.tdb_merge.specs.Parts.{Inside, Led, Ran, stored};
ghost use Rattle.tdb_merge.specs.declared.fault.MergeFault.TheVariants as FaultIs;

use crate::fault::MergeFault;
use crate::playing::do_command;
use std::alloc::{AllocError, Global};
use tdb_backup::Traversal;
use tdb_commands::Command;
use tdb_disk::Disk;
use tdb_log::Logs;
use tdb_space::Space;
use tdb_steps::Flag;
use tdb_words::Bytes;
use tdb_world::World;

/// The command that stores the pair at hand, in place of the value that its key has.
fn store_of(alloc: Global, traversal: &Traversal) -> Result<Command, AllocError>
    ensures { IfOk result (λ command. command ≡ Store (pair_at_hand traversal.now).0 (pair_at_hand traversal.now).1 Replace) }
{
    let key = Bytes::copy(alloc, traversal.key())?;
    let value = Bytes::copy(alloc, traversal.value())?;
    let flag = Flag::Replace;
    Ok(Command::Store { key, value, flag })
}

/// Stores the pair at hand in the transaction of the opener, where its key begins with `prefix`.
fn store_pair<D: Disk, L: Logs>(
    alloc: Global,
    traversal: &Traversal,
    prefix: &[u8],
    world: &mut World<D>,
    logs: &mut L,
) -> Result<(), MergeFault>
    requires unspent { world.old.spent ≡ false }
    requires key_short { length (pair_at_hand traversal.now).0 < 2 ^ 32 }
    requires value_short { length (pair_at_hand traversal.now).1 < 2 ^ 32 }
    ensures ran { Ran world.old world.new result }
    ensures led { (m : Map) (n : Map) (b : Map) → Led D.tells m n (Inside b) m (Inside (stored b (chosen prefix.now (pair_at_hand traversal.now ∷ [])))) world.old world.new result }
    ensures fault { IfErr result (λ e. e ≢ FaultIs.Read) }
{
    if !traversal.key().starts_with(prefix) {
        return Ok(());
    }
    let command = store_of(alloc, traversal)?;
    do_command(alloc, world, command, logs)
}

/// Stores the pairs of a file whose key begins with `prefix` in the transaction of the opener, in their order.
pub(crate) fn store_pairs<S: Space, D: Disk, L: Logs>(
    alloc: Global,
    from: &mut S,
    prefix: &[u8],
    world: &mut World<D>,
    logs: &mut L,
) -> Result<(), MergeFault>
    requires unspent { world.old.spent ≡ false }
    ensures ran { Ran world.old world.new result }
    ensures led { IsTrue S.tells → (hands : List HandPair) → AcceptWith (S.form from.old) (S.image from.old) hands → (m : Map) (n : Map)
        → Led D.tells m n (Inside m) m (Inside (stored m (chosen prefix.now (order_of (S.form from.old) (S.image from.old))))) world.old world.new result }
    ensures looked { Looked S.Space from.old from.new }
    ensures cause { HasCauseOf FaultIs.Read (S.faults from.old) (S.faults from.new) result }
{
    let mut traversal = Traversal::new(alloc);
    while traversal.advance(from)? {
        store_pair(alloc, &traversal, prefix, world, logs)?;
    }
    Ok(())
}
