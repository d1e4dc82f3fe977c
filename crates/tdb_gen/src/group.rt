// The joins of the openers, and the gifts of a group's commands, of which no report tells.

ghost use Rattle.std.specs.Prelude.{◌≡◌, ◌<◌, ◌≤◌, ◌∷◌, ◌+◌, ◌-◌, ◌^◌, [], ℕ, false, min, OnOk};
ghost use Rattle.tdb_commands.specs.declared.play.Play.TheVariants.{Join};
ghost use Rattle.tdb_gen.specs.Numbers.{IsFrom};
ghost use Rattle.tdb_gen.specs.Plays.{joins, gift, gifts};
ghost use Rattle.tdb_gen.specs.Taking.{HaveJoined, TakenUncounted};

use crate::fault::GenFault;
use crate::generator::{Generator, OPENERS};
use std::alloc::Global;
use tdb_disk::Disk;
use tdb_world::World;

/// The next opener joins. `Memory` where it is refused: while few have joined and nobody commits, only memory can be
/// wanting.
fn join<D: Disk>(world: &mut World<D>) -> Result<(), GenFault>
    requires unspent { world.old.spent ≡ false }
    ensures taken { TakenUncounted D.tells world.old world.new (Join ∷ []) result }
    ensures joined { OnOk result (HaveJoined world.old.world world.new.world 1) }
{
    match world.join() {
        Ok(_) => Ok(()),
        Err(_) => Err(GenFault::Memory),
    }
}

/// The three openers join, one after the other, as `join` says.
pub(crate) fn join_openers<D: Disk>(world: &mut World<D>) -> Result<(), GenFault>
    requires unspent { world.old.spent ≡ false }
    ensures taken { TakenUncounted D.tells world.old world.new joins result }
    ensures joined { OnOk result (HaveJoined world.old.world world.new.world 3) }
{
    join(world)?;
    join(world)?;
    join(world)
}

/// Gives the next command to its opener.
fn give_next<D: Disk>(
    alloc: Global,
    generator: &mut Generator,
    world: &mut World<D>,
) -> Result<(), GenFault>
    requires few { generator.old.index < 2 ^ 32 - 1 }
    requires unspent { world.old.spent ≡ false }
    ensures taken { (seed : ℕ) → IsFrom seed generator.old → TakenUncounted D.tells world.old world.new (gift seed generator.old.index ∷ []) result }
    ensures unspent { world.new.spent ≡ false }
    ensures index { generator.new.index ≡ generator.old.index + 1 }
    ensures from { (seed : ℕ) → IsFrom seed generator.old → IsFrom seed generator.new }
{
    let who = generator.owner();
    let command = generator.next_command(alloc)?;
    world.give_unreported(who, command)?;
    Ok(())
}

/// Gives the next commands, up to this index, each to its opener.
fn give_up_to<D: Disk>(
    alloc: Global,
    generator: &mut Generator,
    end: u32,
    world: &mut World<D>,
) -> Result<(), GenFault>
    requires left { generator.old.index ≤ end }
    requires unspent { world.old.spent ≡ false }
    ensures taken { (seed : ℕ) → IsFrom seed generator.old → TakenUncounted D.tells world.old world.new (gifts seed generator.old.index (end - generator.old.index)) result }
    ensures unspent { world.new.spent ≡ false }
    ensures index { OnOk result (generator.new.index ≡ end) }
    ensures from { OnOk result ((seed : ℕ) → IsFrom seed generator.old → IsFrom seed generator.new) }
{
    for _ in generator.index()..end {
        give_next(alloc, generator, world)?;
    }
    Ok(())
}

/// Gives the commands of the next group, of so many commands in all, each to its opener.
pub(crate) fn give_group<D: Disk>(
    alloc: Global,
    generator: &mut Generator,
    commands: u32,
    world: &mut World<D>,
) -> Result<(), GenFault>
    requires left { generator.old.index ≤ commands }
    requires unspent { world.old.spent ≡ false }
    ensures taken { (seed : ℕ) → IsFrom seed generator.old → TakenUncounted D.tells world.old world.new (gifts seed generator.old.index (min 3 (commands - generator.old.index))) result }
    ensures unspent { world.new.spent ≡ false }
    ensures index { OnOk result (generator.new.index ≡ min commands (generator.old.index + 3)) }
    ensures from { OnOk result ((seed : ℕ) → IsFrom seed generator.old → IsFrom seed generator.new) }
{
    let left = commands - generator.index();
    let end = generator.index() + left.min(OPENERS);
    give_up_to(alloc, generator, end, world)
}
