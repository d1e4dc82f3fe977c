// The commands that print what a file holds: its pairs or its keys, its summary, its chains or its free list.

ghost use Rattle.std.specs.Prelude.{◌≡◌, ◌++◌, ◌&&◌, ℕ, List, [], Some, false, IsTrue, OnOk, OnErr};
ghost use Rattle.tdb_backup.specs.Dump.{WroteFront};
ghost use Rattle.tdb_check.specs.Report.{Counted, IsFormOf};
ghost use Rattle.tdb_disk.specs.Count.{HasCause, HasCauseOf};
ghost use Rattle.tdb_disk.specs.History.{seen};
ghost use Rattle.tdb_disk.specs.Names.{SameBut};
ghost use Rattle.tdb_cmdline.specs.declared.ask.Task.TheVariants.{Print};
ghost use Rattle.tdb_answer.specs.declared.ending.Ending.TheVariants.{Usage};
ghost use Rattle.tdb_rewrite.specs.declared.refusal.ShowRefusal.TheVariants.{Io, Failed};
ghost use Rattle.tdb_space.specs.Accepted.{AcceptWith};
ghost use Rattle.tdb_space.specs.Frame.{Looked};
ghost use Rattle.tdb_answer.specs.Commands.Print.{PrintEnds, PrintLeft, PrintLeaves, PrintText, printout_text};
ghost use Rattle.tdb_answer.specs.Commands.Restore.{of_input};
ghost use Rattle.tdb_answer.specs.Ending.{TaskCause, CountedBy};
ghost use Rattle.tdb_open.specs.Notices.{BelowHeard};
ghost use Rattle.tdb_answer.specs.Heard.{FileHeard, PrintHeard, ToldFor};
ghost use Rattle.tdb_answer.specs.Looks.{StandsBefore, ending_of, Began};
ghost use Rattle.tdb_open.specs.Opening.{IsCheckedOn, opened_bytes};
ghost use Rattle.tdb_disk.specs.declared.files.Take.TheVariants as Way;

use crate::ending::{Ending, Reply, Unprinted};
use std::alloc::Global;
use tdb_backup::write_pairs;
use tdb_check::Report;
use tdb_cmdline::Printout;
use tdb_disk::{Disk, Files, Sink, Take};
use tdb_log::Logs;
use tdb_open::Opened;
use tdb_rewrite::{ShowRefusal, write_chains, write_free_list, write_summary};
use tdb_space::{Direct, Space};

/// Writes this of a file in which a check counted that.
fn write_printout<S: Space, K: Sink>(
    alloc: Global,
    s: &mut S,
    printout: Printout,
    report: &Report,
    output: &mut K,
) -> Result<(), ShowRefusal>
    ensures written { OnOk result (IsTrue S.tells → IsTrue K.tells → AcceptWith (S.form s.old) (S.image s.old) [] → IsFormOf (S.form s.old) (S.image s.old)
        → Counted (S.image s.old) report.now → K.written output.new ≡ K.written output.old ++ printout_text printout (S.image s.old)) }
    ensures front { OnErr result (IsTrue S.tells → IsTrue K.tells → AcceptWith (S.form s.old) (S.image s.old) [] → IsFormOf (S.form s.old) (S.image s.old)
        → Counted (S.image s.old) report.now → WroteFront (K.written output.old) (printout_text printout (S.image s.old)) (K.written output.new)) }
    ensures looked { Looked S.Space s.old s.new }
    ensures cause { HasCauseOf Io (S.faults s.old) (S.faults s.new) result }
    ensures sink_cause { HasCauseOf Failed (K.faults output.old) (K.faults output.new) result }
{
    match printout {
        Printout::Pairs(listing) => Ok(write_pairs(alloc, s, listing, output)?),
        Printout::Summary => write_summary(alloc, s, report, output),
        Printout::Chains => write_chains(alloc, s, output),
        Printout::FreeList => write_free_list(alloc, s, output),
    }
}

/// Prints this of an opened file. It reads the file once, holds one pair or the lines of one chain or the free list,
/// and writes in pieces of 64 KiB or more.
pub(crate) fn print_opened<D: Disk, K: Sink>(
    alloc: Global,
    disk: &mut D,
    opened: &Opened,
    printout: Printout,
    output: &mut K,
) -> Result<Ending, Unprinted>
    requires opened { IsTrue D.tells → IsCheckedOn (seen (D.history disk.old)) opened.now }
    ensures ends { PrintEnds (ending_of result) }
    ensures history { D.history disk.new ≡ D.history disk.old }
    ensures counted { CountedBy (D.faults disk.old) (D.faults disk.new) (ending_of result) }
    ensures began { IsTrue D.tells → IsTrue K.tells → Began (StandsBefore (printout_text printout (seen (D.history disk.old)))) (K.written output.old) (K.written output.new) result }
    ensures output_cause { HasCause (K.faults output.old) (K.faults output.new) result }
    ensures asked { ending_of result ≡ Usage → ⊥ }
    ensures unread { of_input (ending_of result) ≡ false }
{
    let mut space = Direct::new(disk, &opened.header);
    match write_printout(alloc, &mut space, printout, &opened.report, output) {
        Ok(()) => Ok(Ending::Replied(Reply::Dumped)),
        Err(ShowRefusal::Io) => Ok(Ending::DeviceFault),
        Err(ShowRefusal::Memory) => Ok(Ending::NoMemory),
        Err(ShowRefusal::Failed) => Err(Unprinted::Pairs),
    }
}

/// Opens the file on a disk, unless it has more than so many bytes, and prints this of it.
fn print_on_disk<D: Disk, K: Sink, L: Logs>(
    alloc: Global,
    printout: Printout,
    limit: u64,
    disk: &mut D,
    output: &mut K,
    logs: &mut L,
) -> Result<Ending, Unprinted>
    ensures left { IsTrue D.tells → PrintLeft limit (D.history disk.old) (ending_of result) (D.history disk.new) }
    ensures counted { CountedBy (D.faults disk.old) (D.faults disk.new) (ending_of result) }
    ensures began { IsTrue D.tells → IsTrue K.tells → Began (PrintText printout (Some (D.history disk.old))) (K.written output.old) (K.written output.new) result }
    ensures output_cause { HasCause (K.faults output.old) (K.faults output.new) result }
    ensures asked { ending_of result ≡ Usage → ⊥ }
    ensures unread { of_input (ending_of result) ≡ false }
    ensures heard { IsTrue D.tells → FileHeard (opened_bytes (seen (D.history disk.old))) (BelowHeard limit (seen (D.history disk.old))) (ending_of result) (ToldFor (ending_of result) []) (L.logs logs.old) (L.logs logs.new) }
{
    match Opened::open_below(alloc, disk, limit, logs) {
        Ok(opened) => print_opened(alloc, disk, &opened, printout, output),
        Err(halt) => Ok(Ending::from(halt)),
    }
}

/// Opens the file of this name, unless it has more than so many bytes, and prints this of it. What an unfinished change
/// left is undone first; else the file stays as it is.
pub(crate) fn print_on_file<F: Files, K: Sink, L: Logs>(
    alloc: Global,
    name: &str,
    printout: Printout,
    limit: u64,
    files: &mut F,
    output: &mut K,
    logs: &mut L,
) -> Result<Ending, Unprinted>
    requires free { (other : List ℕ) → F.is_taken files.old other ≡ false }
    requires take { F.may_take name.now Way.Existing }
    ensures cause { IsTrue F.D.tells → TaskCause (Print printout limit) name.now (F.held files.old name.now) (F.faults files.old) (F.faults files.new) (ending_of result) }
    ensures left { IsTrue F.D.tells → PrintLeaves limit (F.held files.old name.now) (ending_of result) (F.held files.new name.now) }
    ensures others { SameBut name.now (F.held files.old) (F.held files.new) }
    ensures given_back { (other : List ℕ) → F.is_taken files.new other ≡ false }
    ensures counted { CountedBy (F.faults files.old) (F.faults files.new) (ending_of result) }
    ensures began { IsTrue (K.tells && F.D.tells) → Began (PrintText printout (F.held files.old name.now)) (K.written output.old) (K.written output.new) result }
    ensures output_cause { HasCause (K.faults output.old) (K.faults output.new) result }
    ensures asked { ending_of result ≡ Usage → ⊥ }
    ensures unread { of_input (ending_of result) ≡ false }
    ensures heard { IsTrue F.D.tells → PrintHeard limit (F.held files.old name.now) (ending_of result) (L.logs logs.old) (L.logs logs.new) }
{
    match files.take(alloc, name, Take::Existing) {
        Ok(mut disk) => {
            let printed = print_on_disk(alloc, printout, limit, &mut disk, output, logs);
            files.give(name, disk);
            printed
        }
        Err(refusal) => Ok(Ending::untaken(alloc, name, refusal)),
    }
}
