// The commands on a file that is there: how a file is taken, opened, acted on and given back, once for all of them.

ghost use Rattle.std.specs.Prelude.{◌≡◌, ◌⊎◌, ◌<◌, ◌^◌, ℕ, List, false, length, IsTrue, IfErr};
ghost use Rattle.tdb_disk.specs.Count.{HasCauseOf};
ghost use Rattle.tdb_disk.specs.History.{seen};
ghost use Rattle.tdb_disk.specs.Names.{SameBut};
ghost use Rattle.tdb_cmdline.specs.declared.ask.Task.TheVariants.{On};
ghost use Rattle.tdb_answer.specs.declared.ending.Ending.TheVariants.{Usage};
ghost use Rattle.tdb_open.specs.declared.halt.Fault.TheVariants as FaultIs;
ghost use Rattle.tdb_open.specs.declared.halt.Halt.TheVariants as HaltIs;
ghost use Rattle.tdb_answer.specs.Acts.{Acted, ActedAndTold, OpenedAndActed};
ghost use Rattle.tdb_cmdline.specs.Ask.{ActFits};
ghost use Rattle.tdb_answer.specs.Commands.Restore.{of_input};
ghost use Rattle.tdb_answer.specs.Ending.{TaskCause, CountedBy};
ghost use Rattle.tdb_answer.specs.Heard.{GrowthHeard, ActedHeard, ActHeard, acted_ending};
ghost use Rattle.tdb_answer.specs.Left.{OnLeaves};
ghost use Rattle.tdb_open.specs.Opening.{IsCheckedOn};
ghost use Rattle.tdb_disk.specs.declared.files.Take.TheVariants as Way;

use crate::commands::check::check;
use crate::commands::delete::delete;
use crate::commands::erase::erase;
use crate::commands::first::{first, next};
use crate::commands::insert::insert;
use crate::commands::quit::quit;
use crate::commands::show::show;
use crate::commands::store::store;
use crate::commands::transaction::{cancel, commit, start};
use crate::ending::{Ending, Reply};
use std::alloc::Global;
use tdb_cmdline::{Act, Verb};
use tdb_disk::{Disk, Files, Take};
use tdb_log::{Logs, tell_growth};
use tdb_open::{Fault, Halt, Opened};

/// Acts on an opened file.
fn perform<D: Disk>(alloc: Global, act: &Act, disk: &mut D, opened: &Opened) -> Result<Reply, Fault>
    requires fits { ActFits act.now }
    requires length { opened.now.len ≡ D.size disk.old }
    requires within { IsTrue D.tells → length (seen (D.history disk.old)) < 2 ^ 32 }
    requires opened { IsTrue D.tells → IsCheckedOn (seen (D.history disk.old)) opened.now }
    ensures acted { IsTrue D.tells → Acted act.now.limit act.now.verb (D.history disk.old) (D.history disk.new) result }
    ensures cause { HasCauseOf FaultIs.Device (D.faults disk.old) (D.faults disk.new) result }
{
    match &act.verb {
        Verb::Show { key } => show(alloc, disk, opened, key.as_slice()),
        Verb::Insert { key, value } => {
            insert(
                alloc,
                disk,
                opened,
                key.as_slice(),
                value.as_slice(),
                act.limit,
            )
        }
        Verb::Store { key, value } => {
            store(
                alloc,
                disk,
                opened,
                key.as_slice(),
                value.as_slice(),
                act.limit,
            )
        }
        Verb::Delete { key } => delete(disk, opened, key.as_slice()),
        Verb::Erase => erase(disk, opened),
        Verb::Check => Ok(check(opened)),
        Verb::First => first(alloc, disk, opened),
        Verb::Next => Ok(next()),
        Verb::TransactionStart => Ok(start()),
        Verb::TransactionCommit => Ok(commit()),
        Verb::TransactionCancel => Ok(cancel()),
        Verb::Quit => Ok(quit()),
    }
}

/// Tells the last log that the file on a disk has grown since it had so many bytes, if it has. A log that doesn't take
/// that has failed, also where it wants memory: what was done stands.
fn tell_grown<D: Disk, L: Logs>(disk: &mut D, from: u64, logs: &mut L) -> Result<(), Fault>
    ensures history { D.history disk.new ≡ D.history disk.old }
    ensures known { IfErr result (λ fault. (fault ≡ FaultIs.Device) ⊎ (fault ≡ FaultIs.Log)) }
    ensures cause { HasCauseOf FaultIs.Device (D.faults disk.old) (D.faults disk.new) result }
    ensures heard { GrowthHeard from (D.size disk.old) (L.logs logs.old) (L.logs logs.new) result }
{
    let to = disk.len()?;
    match tell_growth(from, to, logs) {
        Ok(()) => Ok(()),
        Err(_) => Err(Fault::Log),
    }
}

/// Acts on an opened file. Where it is done, and made the file grow, the last log is told that.
fn perform_and_tell<D: Disk, L: Logs>(
    alloc: Global,
    act: &Act,
    disk: &mut D,
    opened: &Opened,
    logs: &mut L,
) -> Result<Reply, Fault>
    requires fits { ActFits act.now }
    requires length { opened.now.len ≡ D.size disk.old }
    requires within { IsTrue D.tells → length (seen (D.history disk.old)) < 2 ^ 32 }
    requires opened { IsTrue D.tells → IsCheckedOn (seen (D.history disk.old)) opened.now }
    ensures acted { IsTrue D.tells → ActedAndTold act.now.limit act.now.verb (D.history disk.old) (D.history disk.new) result }
    ensures cause { HasCauseOf FaultIs.Device (D.faults disk.old) (D.faults disk.new) result }
    ensures heard { IsTrue D.tells → GrowthHeard (length (seen (D.history disk.old))) (length (seen (D.history disk.new))) (L.logs logs.old) (L.logs logs.new) result }
{
    match perform(alloc, act, disk, opened)? {
        Reply::Done => {
            tell_grown(disk, opened.len, logs)?;
            Ok(Reply::Done)
        }
        reply => Ok(reply),
    }
}

/// Opens the file on a disk, unless it has more bytes than it may, and acts on it.
fn act_on_disk<D: Disk, L: Logs>(
    alloc: Global,
    act: &Act,
    disk: &mut D,
    logs: &mut L,
) -> Result<Reply, Halt>
    requires fits { ActFits act.now }
    ensures acted { IsTrue D.tells → OpenedAndActed act.now (D.history disk.old) (D.history disk.new) result }
    ensures cause { HasCauseOf HaltIs.Device (D.faults disk.old) (D.faults disk.new) result }
    ensures heard { IsTrue D.tells → ActedHeard act.now.limit (seen (D.history disk.old)) (length (seen (D.history disk.new))) (acted_ending result) (L.logs logs.old) (L.logs logs.new) }
{
    let opened = Opened::open_below(alloc, disk, act.limit, logs)?;
    let reply = perform_and_tell(alloc, act, disk, &opened, logs)?;
    Ok(reply)
}

/// Acts on the file of this name.
pub(crate) fn act_on_file<F: Files, L: Logs>(
    alloc: Global,
    name: &str,
    act: &Act,
    files: &mut F,
    logs: &mut L,
) -> Ending
    requires fits { ActFits act.now }
    requires free { (other : List ℕ) → F.is_taken files.old other ≡ false }
    requires take { F.may_take name.now Way.Existing }
    ensures cause { IsTrue F.D.tells → TaskCause (On act.now) name.now (F.held files.old name.now) (F.faults files.old) (F.faults files.new) result }
    ensures left { IsTrue F.D.tells → OnLeaves act.now (F.held files.old name.now) result (F.held files.new name.now) }
    ensures others { SameBut name.now (F.held files.old) (F.held files.new) }
    ensures given_back { (other : List ℕ) → F.is_taken files.new other ≡ false }
    ensures counted { CountedBy (F.faults files.old) (F.faults files.new) result }
    ensures asked { result ≡ Usage → ⊥ }
    ensures unread { of_input result ≡ false }
    ensures heard { IsTrue F.D.tells → ActHeard act.now.limit (F.held files.old name.now) (F.held files.new name.now) result (L.logs logs.old) (L.logs logs.new) }
{
    match files.take(alloc, name, Take::Existing) {
        Ok(mut disk) => {
            let acted = act_on_disk(alloc, act, &mut disk, logs);
            files.give(name, disk);
            match acted {
                Ok(reply) => Ending::Replied(reply),
                Err(halt) => Ending::from(halt),
            }
        }
        Err(refusal) => Ending::untaken(alloc, name, refusal),
    }
}
