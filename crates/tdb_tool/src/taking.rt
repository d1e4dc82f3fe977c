// The parts of a session, as the one opener takes them.

ghost use Rattle.std.specs.Prelude.{◌≡◌, ◌≢◌, ◌∷◌, ◌++◌, [], ℕ, Bool, List, IfErr, false};
ghost use Rattle.tdb_disk.specs.Count.{HasCauseOf};
ghost use Rattle.tdb_commands.specs.Short.{IsShortCommand};
ghost use Rattle.tdb_world.specs.Courses.Playable.{IsPlayable};
ghost use Rattle.tdb_tool.specs.declared.fault.SessionFault.TheVariants as FaultIs;
ghost use Rattle.tdb_tool.specs.Parts.{Silent, Told, Listed, doing as doing_of, move as move_of, part_of, IsServedOrder};
ghost use Rattle.tdb_world.specs.Courses.Scene.{scene};
ghost use Rattle.tdb_tool.specs.Serving.{fault_of, Ran, Played};

use crate::fault::SessionFault;
use crate::limits::MOST_MOVES;
use crate::order::Order;
use crate::printing::{end_part, hold};
use crate::replies::{has_pair, push_replies};
use std::alloc::Global;
use tdb_commands::{Command, Play, TurnReport};
use tdb_disk::{Disk, Sink};
use tdb_dump::Listing;
use tdb_log::Logs;
use tdb_world::World;

/// The number of the opener that takes the commands.
pub(crate) const OPENER: u32 = 1;

/// The play by which it takes a command.
pub(crate) fn doing(command: Command) -> Play
    ensures { result ≡ doing_of command }
{
    let who = OPENER;
    Play::Do { who, command }
}

/// Takes a play, of which nothing is printed, and tells the logs what became of the file.
pub(crate) fn take_silently<D: Disk, L: Logs>(
    alloc: Global,
    world: &mut World<D>,
    play: Play,
    logs: &mut L,
) -> Result<(), SessionFault>
    requires unspent { world.old.spent ≡ false }
    requires playable { IsPlayable play }
    ensures ran { (told : Bool) (written : List ℕ) → Ran D.tells told (scene world.old written (L.logs logs.old))
        (scene world.new written (L.logs logs.new)) (Silent play ∷ []) (fault_of result) }
    ensures fault { IfErr result (λ e. (e ≢ FaultIs.Input) × (e ≢ FaultIs.Output)) }
{
    let mut report = TurnReport::new(alloc);
    let heard = world.play(&play, &mut report, logs)?;
    heard?;
    Ok(())
}

/// Takes a play, tells the logs what became of the file, and puts what is to be printed of its reply, where pairs are
/// listed so or aren't, in the place of a text; that too where a log refused. Whether it gave a pair.
fn take_play<D: Disk, L: Logs>(
    alloc: Global,
    world: &mut World<D>,
    play: Play,
    listing: Option<Listing>,
    text: &mut Vec<u8>,
    logs: &mut L,
) -> Result<bool, SessionFault>
    requires unspent { world.old.spent ≡ false }
    requires playable { IsPlayable play }
    ensures played { (told : Bool) (written : List ℕ) → Played D.tells told (scene world.old written (L.logs logs.old))
        (scene world.new (written ++ text.new.items) (L.logs logs.new)) play listing result }
    ensures fault { IfErr result (λ e. (e ≢ FaultIs.Input) × (e ≢ FaultIs.Output)) }
{
    text.clear();
    let mut report = TurnReport::new(alloc);
    let told = world.play(&play, &mut report, logs)?;
    push_replies(alloc, text, &report, listing)?;
    told?;
    Ok(has_pair(&report))
}

/// Takes a command, and prints its reply in one write.
fn take_command<D: Disk, K: Sink, L: Logs>(
    alloc: Global,
    world: &mut World<D>,
    command: Command,
    output: &mut K,
    logs: &mut L,
) -> Result<(), SessionFault>
    requires unspent { world.old.spent ≡ false }
    requires short { IsShortCommand command }
    ensures ran { Ran D.tells K.tells (scene world.old (K.written output.old) (L.logs logs.old))
        (scene world.new (K.written output.new) (L.logs logs.new)) (Told (doing_of command) ∷ []) (fault_of result) }
    ensures fault { IfErr result (λ e. e ≢ FaultIs.Input) }
    ensures cause { HasCauseOf FaultIs.Output (K.faults output.old) (K.faults output.new) result }
{
    let mut held = Vec::new(alloc);
    let mut text = Vec::new(alloc);
    let play = doing(command);
    match take_play(alloc, world, play, None, &mut text, logs) {
        Ok(_) => end_part(output, &mut held, &mut text, Ok(())),
        Err(fault) => end_part(output, &mut held, &mut text, Err(fault)),
    }
}

/// The move of a list that comes behind so many others.
fn list_move(moves: u32) -> Play
    ensures { result ≡ move_of moves }
{
    doing(if moves == 0 {
        Command::First
    } else {
        Command::Next
    })
}

/// Lists all pairs: takes First, and then Next up to a move that gives no pair. What is printed of them is held, and
/// written where it would be a piece, and behind the last move; but not where the disk fails. Where the bytes of the
/// file change by themselves a walk might never end: the list is cut off then.
fn take_list<D: Disk, K: Sink, L: Logs>(
    alloc: Global,
    world: &mut World<D>,
    listing: Listing,
    output: &mut K,
    logs: &mut L,
) -> Result<(), SessionFault>
    requires unspent { world.old.spent ≡ false }
    ensures ran { Ran D.tells K.tells (scene world.old (K.written output.old) (L.logs logs.old))
        (scene world.new (K.written output.new) (L.logs logs.new)) (Listed listing ∷ []) (fault_of result) }
    ensures fault { IfErr result (λ e. e ≢ FaultIs.Input) }
    ensures cause { HasCauseOf FaultIs.Output (K.faults output.old) (K.faults output.new) result }
{
    world.stands();
    let mut held = Vec::new(alloc);
    let mut text = Vec::new(alloc);
    for moves in 0..MOST_MOVES {
        let next = list_move(moves);
        match take_play(alloc, world, next, Some(listing), &mut text, logs) {
            Ok(true) => hold(output, &mut held, &mut text)?,
            Ok(false) => return end_part(output, &mut held, &mut text, Ok(())),
            Err(fault) => return end_part(output, &mut held, &mut text, Err(fault)),
        }
    }
    end_part(output, &mut held, &mut Vec::new(alloc), Ok(()))
}

/// Does what is ordered, and prints what is to be printed of it.
pub(crate) fn take_order<D: Disk, K: Sink, L: Logs>(
    alloc: Global,
    world: &mut World<D>,
    order: Order,
    output: &mut K,
    logs: &mut L,
) -> Result<(), SessionFault>
    requires unspent { world.old.spent ≡ false }
    requires served { IsServedOrder order }
    ensures ran { Ran D.tells K.tells (scene world.old (K.written output.old) (L.logs logs.old))
        (scene world.new (K.written output.new) (L.logs logs.new)) (part_of order) (fault_of result) }
    ensures fault { IfErr result (λ e. e ≢ FaultIs.Input) }
    ensures cause { HasCauseOf FaultIs.Output (K.faults output.old) (K.faults output.new) result }
{
    match order {
        Order::Take(command) => take_command(alloc, world, command, output, logs),
        Order::List(listing) => take_list(alloc, world, listing, output, logs),
        Order::Quit => Ok(()),
    }
}
