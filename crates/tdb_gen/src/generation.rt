// Generated commands that the openers of a world do, group by group.

ghost use Rattle.std.specs.Prelude.{◌≡◌, ◌≢◌, ◌≤◌, ◌+◌, ◌*◌, [], ℕ, IsTrue, IfOk, IfErr, OnOk, false, length, min};
ghost use Rattle.tdb_disk.specs.Count.{HasCauseOf};
ghost use Rattle.tdb_disk.specs.History.{seen};
ghost use Rattle.tdb_space.specs.Form.{form_in};
ghost use Rattle.tdb_space.specs.Accepted.{AcceptWith};
ghost use Rattle.tdb_space.specs.Pairs.{order_of};
ghost use Rattle.tdb_gen.specs.Counts.{counts_of};
ghost use Rattle.tdb_gen.specs.Numbers.{IsFrom};
ghost use Rattle.tdb_gen.specs.Plays.{groups, group_plays, group_list, together};
ghost use Rattle.tdb_gen.specs.Taking.{place, AllTaken, Taken, UnlessIo};
ghost use Rattle.tdb_gen.specs.declared.fault.GenFault.TheVariants as Faults;

use crate::counts::Counts;
use crate::fault::GenFault;
use crate::generator::{Generator, OPENERS};
use crate::group::{give_group, join_openers};
use crate::keys::{keys_on_disk, length_of};
use crate::rounds::take_rounds;
use crate::summary::Summary;
use std::alloc::Global;
use tdb_disk::Disk;
use tdb_log::Logs;
use tdb_words::Header;
use tdb_world::World;

/// The commands that are made for the openers of a world, and what was counted of their turns.
#[derive(Drop)]
pub(crate) struct Generation {
    alloc: Global,
    generator: Generator,
    counts: Counts,
}

impl Generation {
    /// Nothing was made or counted.
    pub(crate) fn new(alloc: Global, seed: u32) -> Generation
        ensures index { result.generator.index ≡ 0 }
        ensures from { IsFrom seed result.generator }
        ensures counts { result.counts ≡ counts_of [] }
    {
        Generation {
            alloc,
            generator: Generator::new(seed),
            counts: Counts::new(),
        }
    }

    /// Takes the plays of the next group, of so many commands in all.
    fn take_group<D: Disk, L: Logs>(
        &mut self,
        world: &mut World<D>,
        commands: u32,
        logs: &mut L,
    ) -> Result<(), GenFault>
        requires left { self.old.generator.index ≤ commands }
        requires unspent { world.old.spent ≡ false }
        ensures taken { (seed group : ℕ) → IsFrom seed self.old.generator → self.old.generator.index ≡ 3 * group
            → Taken D.tells (place world.old self.old.counts (L.logs logs.old))
            (place world.new self.new.counts (L.logs logs.new)) (group_plays commands seed group) result }
        ensures index { OnOk result (self.new.generator.index ≡ min commands (self.old.generator.index + 3)) }
        ensures from { OnOk result ((seed : ℕ) → IsFrom seed self.old.generator → IsFrom seed self.new.generator) }
    {
        give_group(self.alloc, &mut self.generator, commands, world)?;
        take_rounds(world, &mut self.counts, logs)
    }

    /// Takes the plays of all groups, of so many commands in all.
    fn take_groups<D: Disk, L: Logs>(
        &mut self,
        world: &mut World<D>,
        commands: u32,
        logs: &mut L,
    ) -> Result<(), GenFault>
        requires first { self.old.generator.index ≡ 0 }
        requires seed { (seed : ℕ) × IsFrom seed self.old.generator }
        requires unspent { world.old.spent ≡ false }
        ensures taken { (seed : ℕ) → IsFrom seed self.old.generator
            → Taken D.tells (place world.old self.old.counts (L.logs logs.old))
            (place world.new self.new.counts (L.logs logs.new)) (together (group_list commands seed (groups commands))) result }
    {
        for _ in 0..commands.div_ceil(OPENERS) {
            self.take_group(world, commands, logs)?;
        }
        Ok(())
    }

    /// Lets three openers join a world in which nobody has joined, and takes the plays of all groups, of so many
    /// commands in all.
    pub(crate) fn take_all<D: Disk, L: Logs>(
        &mut self,
        world: &mut World<D>,
        commands: u32,
        logs: &mut L,
    ) -> Result<(), GenFault>
        requires first { self.old.generator.index ≡ 0 }
        requires seed { (seed : ℕ) × IsFrom seed self.old.generator }
        requires unspent { world.old.spent ≡ false }
        ensures taken { (seed : ℕ) → IsFrom seed self.old.generator
            → AllTaken D.tells commands seed (place world.old self.old.counts (L.logs logs.old)) (place world.new self.new.counts (L.logs logs.new)) result }
    {
        join_openers(world)?;
        self.take_groups(world, commands, logs)
    }

    /// What is told of so many commands, which were all.
    pub(crate) fn summary<D: Disk>(
        &self,
        disk: &mut D,
        header: &Header,
        commands: u32,
    ) -> Result<Summary, GenFault>
        ensures commands { IfOk result (λ s. s.commands ≡ commands) }
        ensures counts { IfOk result (λ s. s.counts ≡ self.now.counts) }
        ensures live { IfOk result (λ s. IsTrue D.tells → let f = form_in header.now in let img = seen (D.history disk.old) in AcceptWith f img [] → s.live ≡ length (order_of f img)) }
        ensures length { IfOk result (λ s. s.length ≡ D.size disk.old) }
        ensures size { D.size disk.new ≡ D.size disk.old }
        ensures history { D.history disk.new ≡ D.history disk.old }
        ensures fault { IfErr result (λ e. e ≢ Faults.Log) }
        ensures cause { IsTrue D.tells → AcceptWith (form_in header.now) (seen (D.history disk.old)) [] → HasCauseOf Faults.Io (D.faults disk.old) (D.faults disk.new) result }
        ensures rises { D.faults disk.old ≤ D.faults disk.new }
        ensures quiet { UnlessIo result (D.faults disk.new ≡ D.faults disk.old) }
    {
        let live = keys_on_disk(self.alloc, disk, header)?;
        let length = length_of(disk)?;
        Ok(Summary {
            commands,
            counts: self.counts,
            live,
            length,
        })
    }
}
