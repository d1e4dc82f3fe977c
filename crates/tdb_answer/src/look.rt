// The commands that read a file alone: how it is taken, opened, looked into and given back, once for all of them.

ghost use Rattle.std.specs.Prelude.{◌≡◌, ◌≢◌, ℕ, List, [], Some, false, IsTrue};
ghost use Rattle.tdb_disk.specs.Count.{HasCause};
ghost use Rattle.tdb_disk.specs.History.{seen};
ghost use Rattle.tdb_disk.specs.Names.{SameBut};
ghost use Rattle.tdb_cmdline.specs.declared.ask.Task.TheVariants.{Read as ReadIs};
ghost use Rattle.tdb_answer.specs.declared.ending.Ending.TheVariants.{Usage, LogFault};
ghost use Rattle.tdb_answer.specs.Commands.Restore.{of_input};
ghost use Rattle.tdb_answer.specs.Ending.{TaskCause, CountedBy};
ghost use Rattle.tdb_cmdline.specs.Ask.{LookFits};
ghost use Rattle.tdb_open.specs.Notices.{ReadingHeard};
ghost use Rattle.tdb_answer.specs.Heard.{FileHeard, LookHeard, ToldFor};
ghost use Rattle.tdb_answer.specs.Looks.{LookEnds, LookText, look_tells, ending_of, Began};
ghost use Rattle.tdb_open.specs.Opening.{CanRead, IsCheckedOn};
ghost use Rattle.tdb_disk.specs.declared.files.Take.TheVariants as Way;

use crate::commands::dump::value;
use crate::commands::print::print_opened;
use crate::ending::{Ending, Unprinted};
use std::alloc::Global;
use tdb_cmdline::{Look, Printout};
use tdb_disk::{Disk, Files, Sink, Take};
use tdb_dump::Listing;
use tdb_log::Logs;
use tdb_open::Opened;

/// Looks into an opened file. What a dump prints is written to the output; where that fails, the rest isn't.
fn look_into<D: Disk, K: Sink>(
    alloc: Global,
    look: &Look,
    disk: &mut D,
    opened: &Opened,
    output: &mut K,
) -> Result<Ending, Unprinted>
    requires fits { LookFits look.now }
    requires can_read { IsTrue D.tells → CanRead (seen (D.history disk.old)) }
    requires opened { IsTrue D.tells → IsCheckedOn (seen (D.history disk.old)) opened.now }
    ensures ends { IsTrue D.tells → LookEnds look.now (seen (D.history disk.old)) (ending_of result) }
    ensures history { D.history disk.new ≡ D.history disk.old }
    ensures counted { CountedBy (D.faults disk.old) (D.faults disk.new) (ending_of result) }
    ensures began { IsTrue (look_tells look.now D.tells K.tells) → Began (LookText look.now (Some (D.history disk.old))) (K.written output.old) (K.written output.new) result }
    ensures output_cause { HasCause (K.faults output.old) (K.faults output.new) result }
    ensures asked { ending_of result ≡ Usage → ⊥ }
    ensures unread { of_input (ending_of result) ≡ false }
    ensures unlogged { ending_of result ≢ LogFault }
{
    match look {
        Look::Dump => print_opened(alloc, disk, opened, Printout::Pairs(Listing::Pairs), output),
        Look::Value { key } => Ok(value(alloc, disk, opened, key.as_slice())),
    }
}

/// Opens the file on a disk, and looks into it.
fn look_on_disk<D: Disk, K: Sink, L: Logs>(
    alloc: Global,
    look: &Look,
    disk: &mut D,
    output: &mut K,
    logs: &mut L,
) -> Result<Ending, Unprinted>
    requires fits { LookFits look.now }
    ensures ends { IsTrue D.tells → LookEnds look.now (seen (D.history disk.old)) (ending_of result) }
    ensures history { D.history disk.new ≡ D.history disk.old }
    ensures counted { CountedBy (D.faults disk.old) (D.faults disk.new) (ending_of result) }
    ensures began { IsTrue (look_tells look.now D.tells K.tells) → Began (LookText look.now (Some (D.history disk.old))) (K.written output.old) (K.written output.new) result }
    ensures output_cause { HasCause (K.faults output.old) (K.faults output.new) result }
    ensures asked { ending_of result ≡ Usage → ⊥ }
    ensures unread { of_input (ending_of result) ≡ false }
    ensures heard { IsTrue D.tells → FileHeard (seen (D.history disk.old)) (ReadingHeard (seen (D.history disk.old))) (ending_of result) (ToldFor (ending_of result) []) (L.logs logs.old) (L.logs logs.new) }
{
    match Opened::open_to_read(alloc, disk, logs) {
        Ok(opened) => look_into(alloc, look, disk, &opened, output),
        Err(halt) => Ok(Ending::from(halt)),
    }
}

/// Looks into the file of this name, which stays as it is.
pub(crate) fn look_on_file<F: Files, K: Sink, L: Logs>(
    alloc: Global,
    name: &str,
    look: &Look,
    files: &mut F,
    output: &mut K,
    logs: &mut L,
) -> Result<Ending, Unprinted>
    requires fits { LookFits look.now }
    requires free { (other : List ℕ) → F.is_taken files.old other ≡ false }
    requires take { F.may_take name.now Way.ReadOnly }
    ensures cause { IsTrue F.D.tells → TaskCause (ReadIs look.now) name.now (F.held files.old name.now) (F.faults files.old) (F.faults files.new) (ending_of result) }
    ensures left { IsTrue F.D.tells → F.held files.new name.now ≡ F.held files.old name.now }
    ensures others { SameBut name.now (F.held files.old) (F.held files.new) }
    ensures given_back { (other : List ℕ) → F.is_taken files.new other ≡ false }
    ensures counted { CountedBy (F.faults files.old) (F.faults files.new) (ending_of result) }
    ensures began { IsTrue (look_tells look.now F.D.tells K.tells) → Began (LookText look.now (F.held files.old name.now)) (K.written output.old) (K.written output.new) result }
    ensures output_cause { HasCause (K.faults output.old) (K.faults output.new) result }
    ensures asked { ending_of result ≡ Usage → ⊥ }
    ensures unread { of_input (ending_of result) ≡ false }
    ensures heard { IsTrue F.D.tells → LookHeard (F.held files.old name.now) (ending_of result) (L.logs logs.old) (L.logs logs.new) }
{
    match files.take(alloc, name, Take::ReadOnly) {
        Ok(mut disk) => {
            let looked = look_on_disk(alloc, look, &mut disk, output, logs);
            files.give(name, disk);
            looked
        }
        Err(refusal) => Ok(Ending::untaken(alloc, name, refusal)),
    }
}
