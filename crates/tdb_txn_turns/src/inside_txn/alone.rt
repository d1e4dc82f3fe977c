//! A plain command that is done from its first step to its reply, over a view that nobody else uses.
ghost use Rattle.std.specs.Prelude.{◌≡◌, ◌≤◌, ◌<◌, ◌^◌, ◌++◌, ℕ, List, [], true, Contains, IsTrue, IfOk};
ghost use Rattle.tdb_disk.specs.Count.{HasCause};
ghost use Rattle.tdb_space.specs.Accepted.{AcceptWith};
ghost use Rattle.tdb_space.specs.Frame.{Wrote};
ghost use Rattle.tdb_law.specs.Commands.Command.{OnMap};
ghost use Rattle.tdb_law.specs.Commands.Turn.{Ends};
ghost use Rattle.tdb_law.specs.MapCommands.{map_fills};
ghost use Rattle.tdb_steps.specs.Order.{IsAfter};
ghost use Rattle.tdb_steps.specs.Room.{FullExactly, FullAtTake};
ghost use Rattle.tdb_steps.specs.PlainCommands.{IsKeyed, command_of, reply_of, turn_of};
ghost use Rattle.tdb_steps.specs.Stages.{hands_in, MayBeOut};
ghost use Rattle.tdb_steps.specs.Machines.{begun, Fits, DoingKnows, Leaves, MachineTurned, MapRow};
ghost use Rattle.tdb_walk.specs.declared.standing.Standing.TheVariants.{On};
ghost use Rattle.tdb_walk.specs.NextLive.{StandsIn};
ghost use Rattle.tdb_txn_turns.specs.InsideTxn.Done.{ImageDone};
ghost use Rattle.tdb_txn_turns.specs.InsideTxn.Spared.{StageSpares, TurnSpares, WalkKept};

use std::alloc::Global;
use tdb_locks::{Held, Locks, Reply, Spots, Turn};
use tdb_space::{Io, Space};
use tdb_steps::Machine;

/// The number of the opener in a lock table in which nobody else holds a byte.
pub(crate) const OWNER: u32 = 1;

/// Takes one turn of a command where nobody else holds a lock: it isn't blocked. The locks that it takes are let go
/// at once.
fn turn_alone<S: Space>(
    alloc: Global,
    s: &mut S,
    machine: &mut Machine,
    stood_on: &Spots,
    limit: u64,
) -> Result<Turn, Io>
    requires chains { 0 < (S.form s.old).chains }
    requires limit { limit ≤ 4294963200 }
    requires fits { Fits machine.old (S.size s.old) (S.spare s.old) }
    ensures made { IfOk result (λ turn. IsTrue S.tells → S.size s.old < 2 ^ 32 → (n : ℕ) → IsAfter machine.old.command machine.old.stage n
        → MayBeOut machine.old.stage [] → AcceptWith (S.form s.old) (S.image s.old) (hands_in machine.old.stage ++ []) → DoingKnows (S.form s.old) (S.image s.old) machine.old
        → MachineTurned (S.form s.old) (S.image s.old) (S.image s.new) machine.old machine.new n (turn_of turn) []) }
    ensures row { IfOk result (λ turn. (n : ℕ) → IsAfter machine.old.command machine.old.stage n → MapRow (command_of machine.old.command) n (turn_of turn)) }
    ensures leaves { IfOk result (λ turn. (n : ℕ) → IsAfter machine.old.command machine.old.stage n → Leaves machine.old machine.new n (turn_of turn)) }
    ensures fits { IfOk result (λ turn. Fits machine.new (S.size s.new) (S.spare s.new)) }
    ensures spares { IfOk result (λ turn. IsTrue S.tells → S.size s.old < 2 ^ 32 → (n : ℕ) → IsAfter machine.old.command machine.old.stage n
        → AcceptWith (S.form s.old) (S.image s.old) (hands_in machine.old.stage ++ []) → DoingKnows (S.form s.old) (S.image s.old) machine.old
        → StageSpares stood_on.now machine.old.stage machine.old.command → TurnSpares stood_on.now machine.new (turn_of turn)) }
    ensures full { IfOk result (λ turn. IsTrue S.tells → S.size s.old < 2 ^ 32 → (n : ℕ) → IsAfter machine.old.command machine.old.stage n
        → AcceptWith (S.form s.old) (S.image s.old) (hands_in machine.old.stage ++ []) → DoingKnows (S.form s.old) (S.image s.old) machine.old
        → FullAtTake (S.form s.old) (S.image s.old) limit (record { command = OnMap (command_of machine.old.command); steps = n }) (turn_of turn)) }
    ensures still { IfOk result (λ turn. IsTrue S.tells → S.size s.old < 2 ^ 32 → (n : ℕ) → IsAfter machine.old.command machine.old.stage n → n < 3
        → AcceptWith (S.form s.old) (S.image s.old) (hands_in machine.old.stage ++ []) → map_fills (command_of machine.old.command) ≡ true → turn ≡ Turn.Step → S.image s.new ≡ S.image s.old) }
    ensures free { IfOk result (λ turn. (other byte : ℕ) → turn ≡ Turn.Blocked other byte → ⊥) }
    ensures longer { S.size s.old ≤ S.size s.new }
    ensures within { S.size s.old ≤ limit → S.size s.new ≤ limit }
    ensures wrote { Wrote S.Space s.old s.new }
    ensures cause { HasCause (S.faults s.old) (S.faults s.new) result }
    ensures bytes_read { S.bytes_read s.old ≤ S.bytes_read s.new }
{
    let rows = machine.rows();
    if let Some(row) = machine.wanted(&rows) {
        let mut locks = Locks::new(alloc);
        let held = Held::new(alloc);
        return Ok(machine.lock_turn(&mut locks, OWNER, &held, &rows, row));
    }
    machine.act_turn(alloc, s, stood_on, limit)
}

/// Takes all turns of a command that has had none, in a view that may grow to `limit` bytes. The reply is that of the
/// command on the map, or says that memory or space is wanting; then the map is as it was. `Full` comes exactly where
/// the view has no room, up to the limit, for what the command stores. A record on which a cursor stands stays in its
/// chain. `Io` where the disk failed.
pub(crate) fn take_turns<S: Space>(
    alloc: Global,
    s: &mut S,
    machine: &mut Machine,
    stood_on: &Spots,
    limit: u64,
) -> Result<Reply, Io>
    requires chains { 0 < (S.form s.old).chains }
    requires limit { limit ≤ 4294963200 }
    requires within { S.size s.old ≤ limit }
    requires begun { machine.old ≡ begun machine.old.command machine.old.chain machine.old.seqnum }
    requires fits { Fits machine.old (S.size s.old) (S.spare s.old) }
    ensures done { IfOk result (λ reply. IsTrue S.tells → AcceptWith (S.form s.old) (S.image s.old) []
        → ImageDone (S.form s.old) (S.image s.old) (S.image s.new) (command_of machine.old.command) machine.old.seqnum (reply_of reply)) }
    ensures full { IfOk result (λ reply. IsTrue S.tells → AcceptWith (S.form s.old) (S.image s.old) []
        → FullExactly (S.form s.old) (S.image s.old) limit (OnMap (command_of machine.old.command)) (Ends (reply_of reply))) }
    ensures walks { IfOk result (λ reply. IsTrue S.tells → AcceptWith (S.form s.old) (S.image s.old) [] → IsKeyed machine.old.command → (chain off : ℕ) → Contains stood_on.now off → StandsIn (S.form s.old) (S.image s.old) (On chain off)
        → WalkKept (S.form s.old) (S.image s.old) (S.image s.new) chain off (command_of machine.old.command) (reply_of reply)) }
    ensures longer { S.size s.old ≤ S.size s.new }
    ensures within { S.size s.new ≤ limit }
    ensures wrote { Wrote S.Space s.old s.new }
    ensures cause { HasCause (S.faults s.old) (S.faults s.new) result }
    ensures bytes_read { S.bytes_read s.old ≤ S.bytes_read s.new }
{
    for _taken in 0..8u32 {
        let turn = turn_alone(alloc, s, machine, stood_on, limit)?;
        match turn {
            Turn::Step => {}
            Turn::Done(reply) => return Ok(reply),
            Turn::Blocked { .. } => unreachable!(),
        }
    }
    unreachable!()
}
