// A plain command that is done turn by turn, and as a report tells it.

ghost use Rattle.std.specs.Prelude.{◌≡◌, ◌<◌, ◌≤◌, ◌^◌, ℕ, Bool, List, IsTrue, IfOk, OnErr};
ghost use Rattle.tdb_disk.specs.Count.{HasCause};
ghost use Rattle.tdb_space.specs.Form.{form_in};
ghost use Rattle.tdb_space.specs.Pairs.{home};
ghost use Rattle.tdb_space.specs.Extents.{HandPair};
ghost use Rattle.tdb_space.specs.Frame.{Wrote};
ghost use Rattle.tdb_space.specs.Spare.{without_bound};
ghost use Rattle.tdb_law.specs.World.{HasFewChains};
ghost use Rattle.tdb_law.specs.Commands.Command.{OnMap};
ghost use Rattle.tdb_law.specs.Openers.{View};
ghost use Rattle.tdb_commands.specs.InLaw.{law_command, law_turn};
ghost use Rattle.tdb_steps.specs.LockRows.{rows_of};
ghost use Rattle.tdb_steps.specs.PlainCommands.{key_of, command_of};
ghost use Rattle.tdb_steps.specs.Machines.{begun, IsShort, MachineStopped};
ghost use Rattle.tdb_steps.specs.Memory.{StarvesOutside};
ghost use Rattle.tdb_steps.specs.Room.{FullOutside};
ghost use Rattle.tdb_openers.specs.Calm.{IsCalm, IsSparing};
ghost use Rattle.tdb_openers.specs.Given.{IsWellHeld};
ghost use Rattle.tdb_openers.specs.Openers.{AtRest, own_with, command_in};
ghost use Rattle.tdb_openers.specs.Turning.{ImageBefore, resting};
ghost use Rattle.tdb_openers.specs.Jobs.{JobIsReady, JobTurned, JobFiled};
ghost use Rattle.tdb_commands.specs.declared.options.Options.{Options};
ghost use Rattle.tdb_openers.specs.declared.job.Job.TheVariants.{Plain};

use crate::plain::plain_turn;
use std::alloc::{AllocError, Global};
use std::marker::Model;
use tdb_commands::Command;
use tdb_locks::{Held, Locks, Spots, Turn};
use tdb_space::{Io, Space};
use tdb_steps::{Machine, Plain as PlainCommand, Rows};
use tdb_words::Header;

/// A plain command that is done turn by turn, and the same command as a report tells it. Contracts see its machine
/// alone.
pub(crate) struct PlainJob {
    machine: Machine,
    told: Command,
}

impl Model for PlainJob {
    ghost use Rattle.std.specs.Prelude.{◌≡◌};
    ghost use Rattle.tdb_law.specs.Commands.Command.{OnMap};
    ghost use Rattle.tdb_commands.specs.InLaw.{law_command};
    ghost use Rattle.tdb_steps.specs.PlainCommands.{command_of};
    ghost use Rattle.tdb_steps.specs.Machines.{Doing};

    ghost Value = { Doing };

    ghost view = { λ p. p.machine };

    ghost invariant = { λ p. law_command p.told ≡ OnMap (command_of p.machine.command) };
}

impl PlainJob {
    /// A command before its first turn. `told` is the same command. It takes no memory.
    pub(crate) fn new(
        command: PlainCommand,
        told: Command,
        header: &Header,
        seqnum: bool,
    ) -> PlainJob
        requires short { IsShort command }
        requires chains { 0 < header.now.hash_size }
        requires told { law_command told ≡ OnMap (command_of command) }
        ensures { result ≡ begun command (home (form_in header.now) (key_of command)) seqnum }
    {
        PlainJob {
            machine: Machine::new(command, header, seqnum),
            told,
        }
    }

    /// Takes one turn of the command, as its machine does.
    pub(crate) fn turn<S: Space>(
        &mut self,
        alloc: Global,
        s: &mut S,
        locks: &mut Locks,
        owner: u32,
        held: &Held,
        stood_on: &Spots,
        limit: u64,
    ) -> Result<Turn, Io>
        requires few { HasFewChains (S.form s.old) }
        requires limit { limit ≤ 4294963200 }
        requires spare { S.spare s.old ≡ without_bound }
        requires well { IsWellHeld held.now }
        requires ready { (options : Options) × (live : Bool) × (rest : AtRest) × (n : ℕ) × (who : ℕ)
            × JobIsReady (S.form s.old) (own_with options live held.now rest) (resting rest) (Plain self.old) n who owner (S.size s.old) locks.old }
        ensures turned { IfOk result (λ turn. (options : Options) (live : Bool) (rest : AtRest) (n who : ℕ)
            → JobIsReady (S.form s.old) (own_with options live held.now rest) (resting rest) (Plain self.old) n who owner (S.size s.old) locks.old
            → JobTurned (S.form s.old) (own_with options live held.now rest) (own_with options live held.now rest) (resting rest) (Plain self.old) (Plain self.new) n who (S.size s.new)
            locks.old locks.new (law_turn turn)) }
        ensures filed { IfOk result (λ turn. IsTrue S.tells → S.size s.old < 2 ^ 32 → (options : Options) (live : Bool) (rest : AtRest) (v : View) (n who : ℕ) (others : List HandPair)
            → JobIsReady (S.form s.old) (own_with options live held.now rest) (resting rest) (Plain self.old) n who owner (S.size s.old) locks.old
            → ImageBefore (S.form s.old) (Plain self.old) (S.image s.old) others
            → JobFiled (S.form s.old) (own_with options live held.now rest) (own_with options live held.now rest) (resting rest) v (Plain self.old) (Plain self.new) n who locks.old
            (S.image s.old) (S.image s.new) others stood_on.now (law_turn turn)) }
        ensures full { IfOk result (λ turn. IsTrue S.tells → S.size s.old < 2 ^ 32 → (options : Options) (live : Bool) (rest : AtRest) (n who : ℕ) (others : List HandPair)
            → JobIsReady (S.form s.old) (own_with options live held.now rest) (resting rest) (Plain self.old) n who owner (S.size s.old) locks.old
            → ImageBefore (S.form s.old) (Plain self.old) (S.image s.old) others
            → FullOutside (S.form s.old) (S.image s.old) limit (record { command = command_in (Plain self.old); steps = n }) (law_turn turn)) }
        ensures starves { IfOk result (λ turn. (options : Options) (live : Bool) (rest : AtRest) (n who : ℕ)
            → JobIsReady (S.form s.old) (own_with options live held.now rest) (resting rest) (Plain self.old) n who owner (S.size s.old) locks.old
            → StarvesOutside (S.form s.old) (record { command = command_in (Plain self.old); steps = n }) (law_turn turn)) }
        ensures stopped { OnErr result (IsTrue S.tells → S.size s.old < 2 ^ 32 → (options : Options) (live : Bool) (rest : AtRest) (n who : ℕ) (others : List HandPair)
            → JobIsReady (S.form s.old) (own_with options live held.now rest) (resting rest) (Plain self.old) n who owner (S.size s.old) locks.old
            → ImageBefore (S.form s.old) (Plain self.old) (S.image s.old) others
            → MachineStopped (S.form s.old) (S.image s.old) (S.image s.new) self.old n others) }
        ensures calm { (options : Options) (live : Bool) (rest : AtRest) (n who : ℕ)
            → JobIsReady (S.form s.old) (own_with options live held.now rest) (resting rest) (Plain self.old) n who owner (S.size s.old) locks.old → IsCalm S.Space s.old s.new locks.old who }
        ensures spared { (options : Options) (live : Bool) (rest : AtRest) (n who : ℕ)
            → JobIsReady (S.form s.old) (own_with options live held.now rest) (resting rest) (Plain self.old) n who owner (S.size s.old) locks.old
            → IsSparing S.Space s.old s.new (S.form s.old) (own_with options live held.now rest) (record { command = command_in (Plain self.old); steps = n }) }
        ensures longer { S.size s.old ≤ S.size s.new }
        ensures within { S.size s.old ≤ limit → S.size s.new ≤ limit }
        ensures wrote { Wrote S.Space s.old s.new }
        ensures cause { HasCause (S.faults s.old) (S.faults s.new) result }
    {
        plain_turn(
            alloc,
            s,
            locks,
            owner,
            held,
            stood_on,
            &mut self.machine,
            limit,
        )
    }

    /// The locks of the command.
    pub(crate) fn rows(&self) -> Rows
        ensures { result ≡ rows_of self.now.command self.now.chain }
    {
        self.machine.rows()
    }

    /// Gives the command up, with the record that it may hold. It takes no memory and makes no call on a disk.
    pub(crate) fn end(self) {
        let PlainJob { machine, told: _ } = self;
        machine.end();
    }

    /// The command as a report tells it, at the cost of the key's and the value's length.
    pub(crate) fn told(&self, alloc: Global) -> Result<Command, AllocError>
        ensures { IfOk result (λ command. law_command command ≡ OnMap (command_of self.now.command)) }
    {
        self.told.copy(alloc)
    }
}
