// One turn of a plain command.

ghost use Rattle.std.specs.Prelude.{◌≡◌, ◌≤◌, ◌<◌, ◌^◌, ℕ, Bool, List, IsTrue, IfOk, OnErr};
ghost use Rattle.tdb_disk.specs.Count.{HasCause};
ghost use Rattle.tdb_space.specs.Extents.{HandPair};
ghost use Rattle.tdb_space.specs.Frame.{Wrote};
ghost use Rattle.tdb_space.specs.Spare.{without_bound};
ghost use Rattle.tdb_law.specs.World.{HasFewChains};
ghost use Rattle.tdb_law.specs.Openers.{View};
ghost use Rattle.tdb_commands.specs.InLaw.{law_turn};
ghost use Rattle.tdb_steps.specs.Stages.{IsIdle};
ghost use Rattle.tdb_steps.specs.Machines.{begun, MachineStopped};
ghost use Rattle.tdb_steps.specs.LockTurns.{ActRightly};
ghost use Rattle.tdb_steps.specs.Memory.{StarvesOutside};
ghost use Rattle.tdb_steps.specs.Room.{FullOutside};
ghost use Rattle.tdb_openers.specs.Given.{IsWellHeld};
ghost use Rattle.tdb_openers.specs.Openers.{AtRest, own_with, command_in};
ghost use Rattle.tdb_openers.specs.Turning.{TurnsFile, TurnsImage, ImageBefore, resting};
ghost use Rattle.tdb_openers.specs.Calm.{IsCalm, IsSparing};
ghost use Rattle.tdb_openers.specs.Cursors.{is_stood, CursorsBeside, LeavesCursors};
ghost use Rattle.tdb_openers.specs.Jobs.{JobIsReady, JobTurned, task_after};
ghost use Rattle.tdb_commands.specs.declared.options.Options.{Options};
ghost use Rattle.tdb_openers.specs.declared.job.Job.TheVariants.{Plain};

use std::alloc::Global;
use tdb_locks::{Held, Locks, Reply, Spots, Turn};
use tdb_space::{Io, Space};
use tdb_steps::Machine;

/// Takes one turn of a plain command, in a file that may grow to `limit` bytes, where cursors stand on the records at
/// `stood_on`. `owner` is the number of its opener in the lock table, and `held` are the locks that it has taken
/// explicitly.
///
/// A turn takes a lock of the command's row, or looks or changes the file. `Blocked` where another opener's lock
/// conflicts: nothing changes then. With its reply the command lets go of what it took, and a change that it made
/// raises the sequence number where the options say so. `Io` where the disk failed: then it keeps its locks. After a
/// reply or `Io` the machine is before its first turn. The reply is `Full` exactly where the file has no room, up to
/// the limit, for what the command stores. It is `Memory` only where the turn takes a lock, or the value that a fetch
/// tells or an append joins.
///
/// Cost: a pass over the lock table where a lock is taken; else the chain of the key, the free list, or the writes,
/// once each.
pub(crate) fn plain_turn<S: Space>(
    alloc: Global,
    s: &mut S,
    locks: &mut Locks,
    owner: u32,
    held: &Held,
    stood_on: &Spots,
    machine: &mut Machine,
    limit: u64,
) -> Result<Turn, Io>
    requires few { HasFewChains (S.form s.old) }
    requires limit { limit ≤ 4294963200 }
    requires spare { S.spare s.old ≡ without_bound }
    requires well { IsWellHeld held.now }
    requires ready { (options : Options) × (live : Bool) × (rest : AtRest) × (n : ℕ) × (who : ℕ)
        × JobIsReady (S.form s.old) (own_with options live held.now rest) (resting rest) (Plain machine.old) n who owner (S.size s.old) locks.old }
    ensures turned { IfOk result (λ turn. (options : Options) (live : Bool) (rest : AtRest) (n who : ℕ)
        → JobIsReady (S.form s.old) (own_with options live held.now rest) (resting rest) (Plain machine.old) n who owner (S.size s.old) locks.old
        → JobTurned (S.form s.old) (own_with options live held.now rest) (own_with options live held.now rest) (resting rest) (Plain machine.old) (Plain machine.new) n who (S.size s.new)
        locks.old locks.new (law_turn turn)) }
    ensures file { IfOk result (λ turn. IsTrue S.tells → S.size s.old < 2 ^ 32 → (options : Options) (live : Bool) (rest : AtRest) (v : View) (n who : ℕ) (others : List HandPair)
        → JobIsReady (S.form s.old) (own_with options live held.now rest) (resting rest) (Plain machine.old) n who owner (S.size s.old) locks.old
        → ImageBefore (S.form s.old) (Plain machine.old) (S.image s.old) others
        → TurnsFile (S.form s.old) (own_with options live held.now rest) (own_with options live held.now rest) (resting rest) v (command_in (Plain machine.old)) n who locks.old
        (S.image s.old) (S.image s.new) (law_turn turn)) }
    ensures image { IfOk result (λ turn. IsTrue S.tells → S.size s.old < 2 ^ 32 → (options : Options) (live : Bool) (rest : AtRest) (n who : ℕ) (others : List HandPair)
        → JobIsReady (S.form s.old) (own_with options live held.now rest) (resting rest) (Plain machine.old) n who owner (S.size s.old) locks.old
        → ImageBefore (S.form s.old) (Plain machine.old) (S.image s.old) others
        → TurnsImage (S.form s.old) (record { steps = n; job = Plain machine.old }) (task_after (Plain machine.new) n (law_turn turn)) (S.image s.old) (S.image s.new) others) }
    ensures cursors { IfOk result (λ turn. IsTrue S.tells → S.size s.old < 2 ^ 32 → (options : Options) (live : Bool) (rest : AtRest) (n who : ℕ) (others : List HandPair)
        → JobIsReady (S.form s.old) (own_with options live held.now rest) (resting rest) (Plain machine.old) n who owner (S.size s.old) locks.old
        → ImageBefore (S.form s.old) (Plain machine.old) (S.image s.old) others → CursorsBeside (S.form s.old) (S.image s.old) (is_stood stood_on.now) (record { steps = n; job = Plain machine.old })
        → LeavesCursors (S.form s.old) (own_with options live held.now rest) (record { steps = n; job = Plain machine.old }) (task_after (Plain machine.new) n (law_turn turn)) (law_turn turn)
        (S.image s.old) (S.image s.new) (is_stood stood_on.now)) }
    ensures rightly { IfOk result (λ turn. IsTrue S.tells → S.size s.old < 2 ^ 32 → (IsIdle machine.old.stage → ⊥)
        → ActRightly (S.form s.old) (S.image s.old) (S.image s.new) machine.old machine.new limit stood_on.now turn) }
    ensures full { IfOk result (λ turn. IsTrue S.tells → S.size s.old < 2 ^ 32 → (options : Options) (live : Bool) (rest : AtRest) (n who : ℕ) (others : List HandPair)
        → JobIsReady (S.form s.old) (own_with options live held.now rest) (resting rest) (Plain machine.old) n who owner (S.size s.old) locks.old
        → ImageBefore (S.form s.old) (Plain machine.old) (S.image s.old) others
        → FullOutside (S.form s.old) (S.image s.old) limit (record { command = command_in (Plain machine.old); steps = n }) (law_turn turn)) }
    ensures starves { IfOk result (λ turn. (options : Options) (live : Bool) (rest : AtRest) (n who : ℕ)
        → JobIsReady (S.form s.old) (own_with options live held.now rest) (resting rest) (Plain machine.old) n who owner (S.size s.old) locks.old
        → StarvesOutside (S.form s.old) (record { command = command_in (Plain machine.old); steps = n }) (law_turn turn)) }
    ensures stopped { OnErr result (IsTrue S.tells → S.size s.old < 2 ^ 32 → (options : Options) (live : Bool) (rest : AtRest) (n who : ℕ) (others : List HandPair)
        → JobIsReady (S.form s.old) (own_with options live held.now rest) (resting rest) (Plain machine.old) n who owner (S.size s.old) locks.old
        → ImageBefore (S.form s.old) (Plain machine.old) (S.image s.old) others
        → MachineStopped (S.form s.old) (S.image s.old) (S.image s.new) machine.old n others) }
    ensures ended { IfOk result (λ turn. (reply : Reply) → turn ≡ Turn.Done reply → machine.new ≡ begun machine.old.command machine.old.chain machine.old.seqnum) }
    ensures same { machine.new.command ≡ machine.old.command }
    ensures calm { (options : Options) (live : Bool) (rest : AtRest) (n who : ℕ)
        → JobIsReady (S.form s.old) (own_with options live held.now rest) (resting rest) (Plain machine.old) n who owner (S.size s.old) locks.old → IsCalm S.Space s.old s.new locks.old who }
    ensures spared { (options : Options) (live : Bool) (rest : AtRest) (n who : ℕ)
        → JobIsReady (S.form s.old) (own_with options live held.now rest) (resting rest) (Plain machine.old) n who owner (S.size s.old) locks.old
        → IsSparing S.Space s.old s.new (S.form s.old) (own_with options live held.now rest) (record { command = command_in (Plain machine.old); steps = n }) }
    ensures err { OnErr result (locks.new ≡ locks.old) }
    ensures given_up { OnErr result (machine.new ≡ begun machine.old.command machine.old.chain machine.old.seqnum) }
    ensures longer { S.size s.old ≤ S.size s.new }
    ensures within { S.size s.old ≤ limit → S.size s.new ≤ limit }
    ensures wrote { Wrote S.Space s.old s.new }
    ensures cause { HasCause (S.faults s.old) (S.faults s.new) result }
    ensures bytes_read { S.bytes_read s.old ≤ S.bytes_read s.new }
{
    machine.step(alloc, s, locks, owner, held, stood_on, limit)
}
