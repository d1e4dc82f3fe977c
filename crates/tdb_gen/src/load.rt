// A load of generated commands on a file.

ghost use Rattle.std.specs.Prelude.{◌≡◌, ◌≤◌, IsTrue, IfOk};
ghost use Rattle.tdb_disk.specs.Count.{HasCauseOf};
ghost use Rattle.tdb_disk.specs.History.{seen};
ghost use Rattle.tdb_commands.specs.declared.options.Options.{Options};
ghost use Rattle.tdb_world.specs.OverFiles.Opening.{IsBegun};
ghost use Rattle.tdb_world.specs.Whole.{form_at, options_at};
ghost use Rattle.tdb_gen.specs.Generated.{GeneratedOver};
ghost use Rattle.tdb_gen.specs.Taking.{UnlessIo};
ghost use Rattle.tdb_gen.specs.declared.fault.GenFault.TheVariants as Faults;

use crate::fault::GenFault;
use crate::generation::Generation;
use crate::summary::Summary;
use std::alloc::Global;
use tdb_disk::Disk;
use tdb_log::Logs;
use tdb_words::Header;
use tdb_world::World;

/// Lets three openers join a world that was just made or loaded, and do so many generated commands in it, in groups of
/// three; then the world is given up, and what came of them is told, with the disk. The same numbers, on the same
/// bytes, give the same bytes and the same summary. The last log is told each growth of the file.
///
/// `Io` where the disk failed, and where a check at the end finds a fault, which no command leaves; then nothing is
/// said of the file. `Log` where a log failed to take a notice, and `Memory` where that was wanting; then the commands
/// were done as far as they came.
///
/// Cost: that of the commands, of which each is copied once, and of one check of the file. It makes no plays and no
/// lines, and holds one command of each opener with its copy.
pub fn generate<D: Disk, L: Logs>(
    alloc: Global,
    mut world: World<D>,
    header: &Header,
    commands: u32,
    seed: u32,
    logs: &mut L,
) -> (D, Result<Summary, GenFault>)
    requires header { world.world.openers.header ≡ header.now }
    requires begun { (asked : Options) × IsBegun D.tells asked world }
    ensures generated { IsTrue D.tells → GeneratedOver (form_at world.world) (options_at world.world) (seen world.history) commands seed (seen (D.history result.0)) (L.logs logs.old) (L.logs logs.new) result.1 }
    ensures size { IfOk result.1 (λ s. s.length ≡ D.size result.0) }
    ensures cause { IsTrue D.tells → HasCauseOf Faults.Io world.faults (D.faults result.0) result.1 }
    ensures rises { world.faults ≤ D.faults result.0 }
    ensures quiet { UnlessIo result.1 (D.faults result.0 ≡ world.faults) }
{
    let mut generation = Generation::new(alloc, seed);
    match generation.take_all(&mut world, commands, logs) {
        Ok(()) => {
            let mut disk = world.close();
            let told = generation.summary(&mut disk, header, commands);
            (disk, told)
        }
        Err(fault) => (world.close(), Err(fault)),
    }
}
