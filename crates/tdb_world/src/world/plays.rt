//! Plays in a world that has its disk, with their report and without.
ghost use Rattle.std.specs.Prelude.{◌≡◌, ◌≤◌, ◌++◌, [], List, IfErr, OnOk, OnErr, false};
ghost use Rattle.tdb_law.specs.Plays.{Play as LawPlay};
ghost use Rattle.tdb_commands.specs.InLaw.{law_opener, law_command};
ghost use Rattle.tdb_commands.specs.Short.{IsShortCommand};
ghost use Rattle.tdb_commands.specs.declared.line.Line.{Line};
ghost use Rattle.tdb_world.specs.OverFile.{moment_of, OnlyInMemory};
ghost use Rattle.tdb_world.specs.OverFiles.Plays.{is_io, TookPlay, TookPlays};
ghost use Rattle.tdb_world.specs.Courses.Playable.{ArePlayable, IsPlayable};
ghost use Rattle.tdb_world.specs.Courses.Told.{PlayLed};
ghost use Rattle.tdb_world.specs.Courses.Unfinished.{IsEnd};
ghost use Rattle.tdb_world.specs.Courses.Unreported.{gift_lines, Unreported};

use crate::course::ending::finish_report;
use crate::course::playing::{play, run};
use crate::course::unreported::{give_unreported, turn_unreported};
use crate::world::World;
use crate::{OpenerStanding, RunFault};
use std::alloc::AllocError;
use tdb_commands::{Command, Play, TurnReport};
use tdb_disk::Disk;
use tdb_locks::Turn;
use tdb_log::{LogRefusal, Logs};

/// Whether plays broke off because the disk failed.
fn is_io<V>(answer: &Result<V, RunFault>) -> bool
    ensures { result ≡ is_io answer.now }
{
    match answer {
        Err(RunFault::Io) => true,
        Ok(_) | Err(RunFault::Memory) => false,
    }
}

impl<D: Disk> World<D> {
    /// Takes one play, adds what it gives to the report, and tells the last log what became of the file: the growth of
    /// each turn, the death of an opener, and the undo of a gate. A log that refuses doesn't undo the play.
    ///
    /// In a stale world the open gate is undone before a turn. Room for a line, and for the copy of a command, is made
    /// before anything is done: so after `Memory` all that was done has its lines. After `Io` the world is spent.
    ///
    /// Cost: that of its turns, of which there are nine at most, and of the copies of the command, one for each turn.
    pub fn play<L: Logs>(
        &mut self,
        next: &Play,
        report: &mut TurnReport,
        logs: &mut L,
    ) -> Result<Result<(), LogRefusal>, RunFault>
        requires playable { IsPlayable next.now }
        requires unspent { self.old.spent ≡ false }
        ensures taken { TookPlay D.tells (moment_of self.old report.old.lines) (moment_of self.new report.new.lines) (L.logs logs.old) (L.logs logs.new) next.now result }
        ensures spent { self.new.spent ≡ is_io result }
    {
        let taken = play(&mut self.openers, &mut self.disk, next, report, logs);
        self.spent = is_io(&taken);
        taken
    }

    /// Takes plays in their order, adds what they give to the report, and tells the logs, up to the first play that
    /// finds no memory, at which the disk fails, or of which a log refuses a notice; `play` says more.
    ///
    /// Cost: that of its turns, of which a play has nine at most, and of the copies of the commands, one for each turn.
    pub fn run<L: Logs>(
        &mut self,
        plays: &[Play],
        report: &mut TurnReport,
        logs: &mut L,
    ) -> Result<Result<(), LogRefusal>, RunFault>
        requires playable { ArePlayable plays.now }
        requires unspent { self.old.spent ≡ false }
        ensures taken { TookPlays D.tells (moment_of self.old report.old.lines) (moment_of self.new report.new.lines) (L.logs logs.old) (L.logs logs.new) plays.now result }
        ensures spent { self.new.spent ≡ is_io result }
    {
        let taken = run(&mut self.openers, &mut self.disk, plays, report, logs);
        self.spent = is_io(&taken);
        taken
    }

    /// Tells, in the order of their numbers, which openers have a command that isn't done. Where memory was wanting the
    /// first of these lines were added.
    pub fn finish_report(&self, report: &mut TurnReport) -> Result<(), AllocError>
        requires unspent { self.now.spent ≡ false }
        ensures ok { OnOk result ((lines : List Line) × (report.new.lines ≡ report.old.lines ++ lines) × IsEnd self.now.world lines) }
        ensures err { OnErr result ((told : List Line) × (left : List Line) × (report.new.lines ≡ report.old.lines ++ told) × IsEnd self.now.world (told ++ left)) }
    {
        finish_report(&self.openers, report)
    }

    /// An opener takes a turn of its command, where it has one, and nothing is put into a report. In a stale world the
    /// open gate is undone before. The last log is told what becomes of the file, as `play` tells it; a log that
    /// refuses doesn't undo the turn. The turn, or `None` where the opener has no command or isn't live. `Memory` never
    /// comes, and after `Io` the world is spent.
    ///
    /// Cost: that of the turn, of two looks at the file's length, and of the undo where one is made. It copies nothing.
    pub fn turn_unreported<L: Logs>(
        &mut self,
        who: u32,
        logs: &mut L,
    ) -> Result<Result<Option<Turn>, LogRefusal>, RunFault>
        requires named { 1 ≤ who }
        requires unspent { self.old.spent ≡ false }
        ensures led { Unreported D.tells (moment_of self.old []) (moment_of self.new []) (L.logs logs.old) (L.logs logs.new) who result }
        ensures fault { IfErr result (λ fault. fault ≡ RunFault.Io) }
        ensures spent { self.new.spent ≡ is_io result }
    {
        let turned = turn_unreported(&mut self.openers, &mut self.disk, who, logs);
        self.spent = is_io(&turned);
        turned
    }

    /// Gives this command to an opener, where it is live and has none, and nothing is put into a report. Of a gift no
    /// log is told. How the opener stood: it has the command where it was idle, and else nothing has changed.
    ///
    /// `Memory` where there is none for a copy of the command, or where a transaction would begin within too many
    /// others: then nothing has changed. `Io` never comes.
    ///
    /// Cost: one copy of the command, a hash of its key, and a look-up among the chains that the opener holds.
    pub fn give_unreported(
        &mut self,
        who: u32,
        command: Command,
    ) -> Result<OpenerStanding, RunFault>
        requires named { 1 ≤ who }
        requires short { IsShortCommand command }
        requires unspent { self.old.spent ≡ false }
        ensures led { PlayLed D.tells (moment_of self.old []) (moment_of self.new (gift_lines who result)) result (LawPlay.Give (law_opener who) (law_command command)) }
        ensures memory { OnlyInMemory self.old self.new }
        ensures err { OnErr result (self.new ≡ self.old) }
        ensures fault { IfErr result (λ fault. fault ≡ RunFault.Memory) }
    {
        give_unreported(&mut self.openers, who, command)
    }
}
