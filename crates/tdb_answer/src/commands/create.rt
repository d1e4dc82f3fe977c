// The command that makes a new file.

ghost use Rattle.std.specs.Prelude.{◌≡◌, ◌<◌, ◌≤◌, ℕ, List, false, IsTrue};
ghost use Rattle.tdb_disk.specs.Count.{Rose};
ghost use Rattle.tdb_disk.specs.Names.{SameBut};
ghost use Rattle.tdb_answer.specs.Commands.Create.{CreateCause, CreateLeaves};
ghost use Rattle.tdb_answer.specs.declared.commands.create.Creation.TheVariants.{Device as IsDevice};
ghost use Rattle.tdb_disk.specs.declared.files.Take.TheVariants as Way;

use std::alloc::Global;
use tdb_cmdline::NewFile;
use tdb_disk::{Files, Take, TakeRefusal};
use tdb_open::make;

/// How the making of a file ends.
#[derive(Clone, Copy)]
pub(crate) enum Creation {
    /// The file was made, and is on the medium.
    Made,

    /// There is a file of this name.
    There,

    /// The file would have so many bytes, which are more than it may; an empty one is left.
    TooLong { len: u64 },

    /// A call of the files or of the disk failed.
    Device,
    Memory,
}

/// Makes a file of this name where there is none. Where it would have more bytes than it may, it is left empty.
pub(crate) fn create_file<F: Files>(
    alloc: Global,
    name: &str,
    file: NewFile,
    files: &mut F,
) -> Creation
    requires some { 0 < file.form.size }
    requires free { (other : List ℕ) → F.is_taken files.old other ≡ false }
    requires take { F.may_take name.now Way.New }
    ensures cause { IsTrue F.D.tells → CreateCause file (F.held files.old name.now) (F.faults files.old) (F.faults files.new) result }
    ensures device { result ≡ IsDevice → Rose (F.faults files.old) (F.faults files.new) }
    ensures sound { (result ≡ IsDevice → ⊥) → F.faults files.new ≡ F.faults files.old }
    ensures given_back { (other : List ℕ) → F.is_taken files.new other ≡ false }
    ensures others { SameBut name.now (F.held files.old) (F.held files.new) }
    ensures left { IsTrue F.D.tells → CreateLeaves file.form (F.held files.old name.now) result (F.held files.new name.now) }
    ensures faults { F.faults files.old ≤ F.faults files.new }
{
    match files.take(alloc, name, Take::New) {
        Ok(disk) if file.form.file_len() > file.limit => {
            files.give(name, disk);
            Creation::TooLong {
                len: file.form.file_len(),
            }
        }
        Ok(mut disk) => {
            let made = make(&mut disk, file.form);
            files.give(name, disk);
            match made {
                Ok(()) => Creation::Made,
                Err(_) => Creation::Device,
            }
        }
        Err(TakeRefusal::There) => Creation::There,
        Err(TakeRefusal::Failed) => Creation::Device,
        Err(TakeRefusal::Memory) => Creation::Memory,
        Err(TakeRefusal::Missing) => unreachable!(),
    }
}
