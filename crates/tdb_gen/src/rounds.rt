// Rounds of turns of the openers.

ghost use Rattle.std.specs.Prelude.{◌≡◌, ◌≤◌, ◌∷◌, [], false, IfOk};
ghost use Rattle.tdb_commands.specs.declared.play.Play.TheVariants.{Turn as TurnOf};
ghost use Rattle.tdb_gen.specs.Plays.{round, rounds};
ghost use Rattle.tdb_gen.specs.Taking.{end_only, place, Rests, Taken};

use crate::counts::Counts;
use crate::fault::GenFault;
use tdb_disk::Disk;
use tdb_log::Logs;
use tdb_world::World;

/// How many rounds of turns a group has.
const ROUNDS: u32 = 24;

/// An opener takes a turn of its command, where it has one. The turn is counted, and the last log is told what became
/// of the file. Whether the opener had a command.
fn take_turn<D: Disk, L: Logs>(
    world: &mut World<D>,
    who: u32,
    counts: &mut Counts,
    logs: &mut L,
) -> Result<bool, GenFault>
    requires named { 1 ≤ who }
    requires unspent { world.old.spent ≡ false }
    ensures taken { Taken D.tells (place world.old counts.old (L.logs logs.old))
        (place world.new counts.new (L.logs logs.new)) (TurnOf who ∷ []) (end_only result) }
    ensures rests { IfOk result (λ busy. busy ≡ false → Rests D.tells (place world.old counts.old (L.logs logs.old))
        (place world.new counts.new (L.logs logs.new)) (TurnOf who ∷ [])) }
{
    let Some(turn) = world.turn_unreported(who, logs)?? else {
        return Ok(false);
    };
    counts.count_turn(&turn);
    Ok(true)
}

/// Each opener takes a turn, as `take_turn` says. Whether one of them had a command.
fn take_round<D: Disk, L: Logs>(
    world: &mut World<D>,
    counts: &mut Counts,
    logs: &mut L,
) -> Result<bool, GenFault>
    requires unspent { world.old.spent ≡ false }
    ensures taken { Taken D.tells (place world.old counts.old (L.logs logs.old))
        (place world.new counts.new (L.logs logs.new)) round (end_only result) }
    ensures rests { IfOk result (λ busy. busy ≡ false → Rests D.tells (place world.old counts.old (L.logs logs.old))
        (place world.new counts.new (L.logs logs.new)) round) }
{
    let first = take_turn(world, 1, counts, logs)?;
    let second = take_turn(world, 2, counts, logs)?;
    let third = take_turn(world, 3, counts, logs)?;
    Ok(first || second || third)
}

/// Takes the rounds of a group, up to the first in which nobody has a command: those behind it would change nothing,
/// and there would be nothing to count in them.
pub(crate) fn take_rounds<D: Disk, L: Logs>(
    world: &mut World<D>,
    counts: &mut Counts,
    logs: &mut L,
) -> Result<(), GenFault>
    requires unspent { world.old.spent ≡ false }
    ensures taken { Taken D.tells (place world.old counts.old (L.logs logs.old))
        (place world.new counts.new (L.logs logs.new)) (rounds 24) result }
{
    for _ in 0..ROUNDS {
        if !take_round(world, counts, logs)? {
            return Ok(());
        }
    }
    Ok(())
}
