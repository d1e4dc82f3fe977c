//! A file that is made or opened, and the world over it.
ghost use Rattle.std.specs.Prelude.{◌≡◌, ◌≤◌, ◌<◌, IfOk, IfErr, Ok, Err, false};
ghost use Rattle.tdb_open.specs.declared.halt.Halt.TheVariants.{Device};
ghost use Rattle.tdb_world.specs.OverFiles.Opening.{IsCauseOf, IsLoadedWorld, IsNewWorld, IsNotMade, OpenedSo};

use crate::creating::{CreateRefusal, create};
use crate::loading::load;
use crate::world::World;
use std::alloc::Global;
use tdb_commands::Options;
use tdb_disk::Disk;
use tdb_log::Logs;
use tdb_open::{Halt, NewForm, Opened};

impl<D: Disk> World<D> {
    /// Makes an empty disk a new file, and a world over it, with these options, in which nobody has joined. The
    /// options' limit is the most bytes that the file may have. A refusal gives the disk back.
    ///
    /// `TooLong` where the new file would have more; the disk is empty then, and no call is made on it. `Device` where
    /// a call of the disk failed: the file is empty then, or has its full length. No memory is taken.
    ///
    /// Cost: one call each to grow, to write the header and to sync.
    pub fn create(
        alloc: Global,
        mut disk: D,
        form: NewForm,
        options: &Options,
    ) -> Result<World<D>, (D, CreateRefusal)>
        requires empty { D.size disk ≡ 0 }
        requires some { 0 < form.size }
        requires writes { options.now.read_only ≡ false }
        requires limit { options.now.limit ≤ 4294963200 }
        ensures made { IfOk result (λ w. IsNewWorld D.tells form options.now (D.faults disk) w) }
        ensures refused { IfErr result (λ e. IsNotMade D.Disk form options.now disk e.0 e.1) }
    {
        match create(alloc, &mut disk, form, options) {
            Ok(openers) => Ok(World {
                openers,
                disk,
                spent: false,
            }),
            Err(refusal) => Err((disk, refusal)),
        }
    }

    /// Opens the file on a disk for openers with these options, and makes a world over it in which nobody has joined.
    /// It tests the length against the options' limit, undoes an unfinished change where the file isn't to be read
    /// alone, and checks the whole file. The last log is told what the opening finds, but nothing of a file that is too
    /// long. A refusal gives the disk back.
    ///
    /// `Refused` where the file isn't opened: it is longer than the limit or than `LONGEST_FILE`, it has a fault, or it
    /// is to be read alone and would have to be undone first; `Device` where a call of the disk failed; `Log` where a
    /// log failed; `Memory` where that was wanting for the check or for a log.
    ///
    /// Cost: one pass over the file. The memory that it takes is that of the check and of the log; the world takes
    /// none.
    pub fn load<L: Logs>(
        alloc: Global,
        mut disk: D,
        options: &Options,
        logs: &mut L,
    ) -> Result<(World<D>, Opened), (D, Halt)>
        requires limit { options.now.limit ≤ 4294963200 }
        ensures loaded { IfOk result (λ x. IsLoadedWorld D.tells options.now x.0 x.1) }
        ensures opened { IfOk result (λ x. OpenedSo D.tells options.now (D.history disk) x.0.history (L.logs logs.old) (L.logs logs.new) (Ok x.1)) }
        ensures halted { IfErr result (λ e. OpenedSo D.tells options.now (D.history disk) (D.history e.0) (L.logs logs.old) (L.logs logs.new) (Err e.1)) }
        ensures done { IfOk result (λ x. x.0.faults ≡ D.faults disk) }
        ensures cause { IfErr result (λ e. IsCauseOf Device (D.faults disk) (D.faults e.0) e.1) }
    {
        match load(alloc, &mut disk, options, logs) {
            Ok((openers, opened)) => {
                let loaded = World {
                    openers,
                    disk,
                    spent: false,
                };
                Ok((loaded, opened))
            }
            Err(halt) => Err((disk, halt)),
        }
    }
}
