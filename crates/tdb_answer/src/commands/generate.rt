// The command that makes a new file, has generated commands done on it, and tells their summary.

ghost use Rattle.std.specs.Prelude.{◌≡◌, ◌≢◌, ◌≤◌, ℕ, List, false, IsTrue, IfErr, IfOk, OnOk};
ghost use Rattle.tdb_disk.specs.Count.{HasCauseOf};
ghost use Rattle.tdb_disk.specs.History.{called, synced};
ghost use Rattle.tdb_disk.specs.Names.{SameBut};
ghost use Rattle.tdb_gen.specs.Summary.{summary_text};
ghost use Rattle.tdb_gen.specs.Taking.{UnlessIo};
ghost use Rattle.tdb_gen.specs.declared.fault.GenFault.TheVariants.{Io, Log};
ghost use Rattle.tdb_answer.specs.declared.ending.Ending.TheVariants.{Usage};
ghost use Rattle.tdb_answer.specs.Commands.Generate as G;
ghost use Rattle.tdb_answer.specs.Commands.Restore.{of_input};
ghost use Rattle.tdb_answer.specs.Ending.{CountedIf};
ghost use Rattle.tdb_answer.specs.Reads.{GenCause};
ghost use Rattle.tdb_disk.specs.declared.files.Take.TheVariants as Way;

use crate::commands::restore::{HEADER, NEW_FORM};
use crate::ending::{Ending, Reply};
use std::alloc::Global;
use tdb_commands::Options;
use tdb_disk::{Disk, Files, Take};
use tdb_gen::{GenFault, Summary, generate};
use tdb_log::Logs;
use tdb_open::LONGEST_FILE;
use tdb_words::Bytes;
use tdb_world::World;

/// How the openers of the commands open their file.
const OPTIONS: Options = Options {
    limit: LONGEST_FILE,
    nesting: true,
    read_only: false,
    seqnum: false,
};

impl From<GenFault> for Ending {
    ghost from_gives = { λ fault ending. ending ≡ G.of_gen fault };

    fn from(fault: GenFault) -> Self {
        match fault {
            GenFault::Io => Ending::DeviceFault,
            GenFault::Memory => Ending::NoMemory,
            GenFault::Log => Ending::LogFault,
        }
    }
}

/// Syncs the file that commands have filled, and gives the text of their summary.
fn finish<D: Disk>(alloc: Global, summary: &Summary, disk: &mut D) -> Result<Bytes, GenFault>
    ensures text { IfOk result (λ text. text ≡ summary_text summary.now) }
    ensures done { IsTrue D.tells → OnOk result (D.history disk.new ≡ called (D.history disk.old) synced) }
    ensures fault { IfErr result (λ e. e ≢ Log) }
    ensures cause { HasCauseOf Io (D.faults disk.old) (D.faults disk.new) result }
{
    let text = summary.text(alloc)?;
    match disk.sync() {
        Ok(()) => Ok(text),
        Err(_) => Err(GenFault::Io),
    }
}

/// Makes an empty disk a new file of 131 chains, has so many generated commands done on it, of which the last log is
/// told each growth of the file, and syncs. It gives the text of their summary, and the disk back.
fn fill<D: Disk, L: Logs>(
    alloc: Global,
    disk: D,
    commands: u32,
    seed: u32,
    logs: &mut L,
) -> (D, Result<Bytes, GenFault>)
    requires empty { D.size disk ≡ 0 }
    ensures generated { IsTrue D.tells → G.FilledSo commands seed (D.history result.0) (L.logs logs.old) (L.logs logs.new) result.1 }
    ensures cause { IsTrue D.tells → HasCauseOf Io (D.faults disk) (D.faults result.0) result.1 }
    ensures rises { D.faults disk ≤ D.faults result.0 }
    ensures quiet { UnlessIo result.1 (D.faults result.0 ≡ D.faults disk) }
{
    let world = match World::create(alloc, disk, NEW_FORM, &OPTIONS) {
        Ok(world) => world,
        Err((disk, _)) => return (disk, Err(GenFault::Io)),
    };
    let (mut disk, made) = generate(alloc, world, &HEADER, commands, seed, logs);
    match made {
        Ok(summary) => {
            let text = finish(alloc, &summary, &mut disk);
            (disk, text)
        }
        Err(fault) => (disk, Err(fault)),
    }
}

/// Makes a file of this name, where there is none, and has so many generated commands done on it, of which the last log
/// is told each growth of the file. Where memory was wanting, or a log failed, there is none again.
pub(crate) fn generate_file<F: Files, L: Logs>(
    alloc: Global,
    name: &str,
    commands: u32,
    seed: u32,
    files: &mut F,
    logs: &mut L,
) -> Ending
    requires free { (other : List ℕ) → F.is_taken files.old other ≡ false }
    requires take { F.may_take name.now Way.New }
    ensures cause { IsTrue F.D.tells → GenCause commands seed name.now (F.held files.old name.now) (F.faults files.old) (F.faults files.new) result }
    ensures left { IsTrue F.D.tells → G.GenLeaves commands seed (F.held files.old name.now) result (F.held files.new name.now) }
    ensures others { SameBut name.now (F.held files.old) (F.held files.new) }
    ensures given_back { (other : List ℕ) → F.is_taken files.new other ≡ false }
    ensures counted { CountedIf F.D.tells (F.faults files.old) (F.faults files.new) result }
    ensures asked { result ≡ Usage → ⊥ }
    ensures unread { of_input result ≡ false }
    ensures told { IsTrue F.D.tells → G.GenHeard commands seed (F.held files.new name.now) result (L.logs logs.old) (L.logs logs.new) }
{
    let disk = match files.take(alloc, name, Take::New) {
        Ok(disk) => disk,
        Err(refusal) => return Ending::untaken(alloc, name, refusal),
    };
    let (disk, filled) = fill(alloc, disk, commands, seed, logs);
    files.give(name, disk);
    match filled {
        Ok(text) => Ending::Replied(Reply::Generated(text)),
        Err(GenFault::Io) => Ending::DeviceFault,
        Err(fault) => match files.remove(name) {
            Ok(()) => Ending::from(fault),
            Err(_) => Ending::DeviceFault,
        },
    }
}
