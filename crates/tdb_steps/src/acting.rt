// A turn of a command without its locks.

ghost use Rattle.std.specs.Prelude.{◌≡◌, ◌≤◌, ◌<◌, ◌^◌, true, false, IsTrue, IfOk, OnErr, List};
ghost use Rattle.tdb_disk.specs.Count.{HasCause};
ghost use Rattle.tdb_space.specs.Frame.{Looked, Wrote};
ghost use Rattle.tdb_steps.specs.Stages.{Leads, IsIdle, CanCount};
ghost use Rattle.tdb_law.specs.MapCommands.{map_changes};
ghost use Rattle.tdb_steps.specs.PlainCommands.{command_of};
ghost use Rattle.tdb_steps.specs.Order.{InOrder};
ghost use Rattle.tdb_steps.specs.Memory.{StarvesRightly};
ghost use Rattle.tdb_steps.specs.Machines.{IsShort, IsShortWhole, IsFit, CommandMakes, CommandStops, CommandRightly};
ghost use Rattle.tdb_steps.specs.Reads.{TurnReads, costs_of};
ghost use Rattle.tdb_space.specs.Extents.{HandPair};
ghost use Rattle.tdb_space.specs.Accepted.{AcceptWith};

use crate::append_turns::append_turn;
use crate::deleting::delete_turn;
use crate::looks::{fetch_turn, has_turn};
use crate::plain::Plain;
use crate::stage::{Next, Stage};
use crate::storing::store_turn;
use crate::wipe_turns::wipe_turn;
use std::alloc::Global;
use tdb_locks::Spots;
use tdb_space::{Io, Space};
use tdb_words::Bytes;

/// A turn of a command without its locks. `whole` has the bytes that an append has joined.
pub(crate) fn act<S: Space>(
    alloc: Global,
    s: &mut S,
    command: &Plain,
    whole: &mut Option<Bytes>,
    stage: Stage,
    stood_on: &Spots,
    limit: u64,
) -> Result<Next, Io>
    requires short { IsShort command.now }
    requires whole { IsShortWhole whole.old }
    requires chains { 0 < (S.form s.old).chains }
    requires limit { limit ≤ 4294963200 }
    requires fit { IsFit command.now whole.old stage (S.size s.old) (S.spare s.old) }
    ensures made { IfOk result (λ next. IsTrue S.tells → S.size s.old < 2 ^ 32
        → CommandMakes (S.form s.old) (S.image s.old) (S.image s.new) command.now whole.old whole.new stage next) }
    ensures rightly { IfOk result (λ next. IsTrue S.tells → S.size s.old < 2 ^ 32
        → CommandRightly (S.form s.old) (S.image s.old) (S.image s.new) command.now whole.old limit stood_on.now stage next) }
    ensures order { IfOk result (InOrder command.now stage) }
    ensures starves { IfOk result (StarvesRightly (S.spare s.old) command.now stage) }
    ensures fit { IfOk result (Leads (λ then. IsFit command.now whole.new then (S.size s.new) (S.spare s.new))) }
    ensures stopped { OnErr result (IsTrue S.tells → S.size s.old < 2 ^ 32 → CommandStops (S.form s.old) (S.image s.old) (S.image s.new) command.now stage) }
    ensures whole { IsShortWhole whole.new }
    ensures room { IfOk result (λ next. map_changes (command_of command.now) ≡ true → CanCount (S.spare s.new) next) }
    ensures idle { IsIdle stage → Looked S.Space s.old s.new }
    ensures looked { map_changes (command_of command.now) ≡ false → Looked S.Space s.old s.new }
    ensures longer { S.size s.old ≤ S.size s.new }
    ensures within { S.size s.old ≤ limit → S.size s.new ≤ limit }
    ensures wrote { Wrote S.Space s.old s.new }
    ensures cause { HasCause (S.faults s.old) (S.faults s.new) result }
    ensures bytes_read { S.bytes_read s.old ≤ S.bytes_read s.new }
    ensures reads { IsTrue S.tells → S.size s.old < 2 ^ 32 → (hands : List HandPair) → AcceptWith (S.form s.old) (S.image s.old) hands
        → TurnReads (costs_of (S.form s.old) (S.image s.old) command.now whole.old) 0 stage (S.bytes_read s.old) (S.bytes_read s.new) }
{
    match command {
        Plain::Fetch { key } => fetch_turn(alloc, stage, s, key.as_slice()),
        Plain::Has { key } => has_turn(stage, s, key.as_slice()),
        Plain::Store { key, value, flag } => {
            store_turn(
                stage,
                s,
                key.as_slice(),
                value.as_slice(),
                *flag,
                stood_on,
                limit,
            )
        }
        Plain::Append { key, value } => {
            append_turn(
                alloc,
                stage,
                s,
                key.as_slice(),
                value.as_slice(),
                whole,
                stood_on,
                limit,
            )
        }
        Plain::Delete { key } => delete_turn(stage, s, key.as_slice(), stood_on),
        Plain::Wipe => wipe_turn(stage, s),
    }
}
