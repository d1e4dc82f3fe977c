// The command that makes a new file of the pairs of a dump text.

ghost use Rattle.std.specs.Prelude.{◌≡◌, ◌≢◌, ◌≤◌, ℕ, List, false, IsTrue, IfErr, OnOk};
ghost use Rattle.tdb_disk.specs.Count.{HasCauseOf};
ghost use Rattle.tdb_disk.specs.History.{seen};
ghost use Rattle.tdb_disk.specs.Names.{SameBut};
ghost use Rattle.tdb_words.specs.declared.word.Order.TheVariants.{Little};
ghost use Rattle.tdb_words.specs.declared.hash.HashKind.TheVariants.{Old};
ghost use Rattle.tdb_backup.specs.Restoring.{Restored, TextHeard, TextTold};
ghost use Rattle.tdb_answer.specs.Commands.Create.{new_file_of};
ghost use Rattle.tdb_backup.specs.declared.refusal.RestoreRefusal.TheVariants.{Input as InputFails, Io as DiskFails};
ghost use Rattle.tdb_cmdline.specs.declared.ask.Task.TheVariants.{Restore};
ghost use Rattle.tdb_answer.specs.declared.ending.Ending.TheVariants.{Usage};
ghost use Rattle.tdb_open.specs.Creating.{IsNewFile};
ghost use Rattle.tdb_cmdline.specs.declared.limits.TheConstants.{DEFAULT_SIZE};
ghost use Rattle.tdb_answer.specs.Commands.Restore.{new_form, of_restore, IsRestored, TextRefused, HeardBy, RestoreHeard};
ghost use Rattle.tdb_answer.specs.Ending.{CountedBy};
ghost use Rattle.tdb_answer.specs.Input.{input_by};
ghost use Rattle.tdb_answer.specs.Left.{RestoreLeaves};
ghost use Rattle.tdb_answer.specs.Reads.{AskCause};
ghost use Rattle.tdb_disk.specs.declared.files.Take.TheVariants as Way;

use crate::ending::{Ending, Reply};
use std::alloc::Global;
use tdb_backup::{RestoreRefusal, restore_pairs};
use tdb_cmdline::DEFAULT_SIZE;
use tdb_disk::{Disk, Files, Source, Take};
use tdb_log::Logs;
use tdb_open::{Halt, NewForm, make};
use tdb_space::Direct;
use tdb_words::{HashKind, Header, Order};

impl From<RestoreRefusal> for Ending {
    ghost from_gives = { λ refusal ending. ending ≡ of_restore refusal };

    fn from(refusal: RestoreRefusal) -> Self {
        match refusal {
            RestoreRefusal::Input => Ending::InputFault,
            RestoreRefusal::Io => Ending::DeviceFault,
            RestoreRefusal::Malformed { at } => Ending::Malformed { at },
            RestoreRefusal::Full { len, need } => Ending::Replied(Reply::Full { len, need }),
            RestoreRefusal::Memory => Ending::NoMemory,
            RestoreRefusal::Log(refusal) => Ending::from(Halt::from(refusal)),
        }
    }
}

/// What the header of a new file says where nothing else is asked for.
pub(crate) const HEADER: Header = Header {
    order: Order::Little,
    hash: HashKind::Old,
    hash_size: DEFAULT_SIZE,
    recovery_start: 0,
    sequence: 0,
};

/// What such a file is made with.
pub(crate) const NEW_FORM: NewForm = NewForm {
    size: DEFAULT_SIZE,
    hash: HashKind::Old,
    order: Order::Little,
};

/// Adds the pairs of the text on the input to a new file on a disk, and tells the last log each growth of it.
fn add_all<S: Source, D: Disk, L: Logs>(
    alloc: Global,
    input: &mut S,
    disk: &mut D,
    limit: u64,
    logs: &mut L,
) -> Result<(), RestoreRefusal>
    requires limit { limit ≤ 4294963200 }
    requires new { IsTrue D.tells → IsNewFile DEFAULT_SIZE Little Old (seen (D.history disk.old)) }
    ensures restored { OnOk result (IsTrue S.tells → IsTrue D.tells → Restored limit (new_file_of new_form) new_form (seen (D.history disk.new)) (S.left input.old)) }
    ensures refused { IfErr result (λ e. IsTrue S.tells → IsTrue D.tells → TextRefused (S.left input.old) limit e) }
    ensures told { OnOk result (IsTrue S.tells → IsTrue D.tells → TextTold limit new_form (new_file_of new_form) (S.left input.old) (L.logs logs.old) (L.logs logs.new)) }
    ensures heard { IfErr result (λ e. IsTrue S.tells → IsTrue D.tells → TextHeard limit new_form (new_file_of new_form) (S.left input.old) (L.logs logs.old) (L.logs logs.new) e) }
    ensures read_cause { HasCauseOf InputFails (S.faults input.old) (S.faults input.new) result }
    ensures write_cause { HasCauseOf DiskFails (D.faults disk.old) (D.faults disk.new) result }
{
    let mut space = Direct::new(disk, &HEADER);
    restore_pairs(alloc, input, &mut space, limit, logs)
}

/// Makes an empty disk a new file of 131 chains, adds the pairs of the text on the input, of which the last log is told
/// each growth of the file, and syncs.
fn fill<S: Source, D: Disk, L: Logs>(
    alloc: Global,
    input: &mut S,
    disk: &mut D,
    limit: u64,
    logs: &mut L,
) -> Result<(), RestoreRefusal>
    requires empty { D.size disk.old ≡ 0 }
    requires limit { limit ≤ 4294963200 }
    ensures restored { OnOk result (IsTrue S.tells → IsTrue D.tells → IsRestored limit (S.left input.old) (D.history disk.new)) }
    ensures refused { IfErr result (λ e. IsTrue S.tells → IsTrue D.tells → TextRefused (S.left input.old) limit e) }
    ensures told { OnOk result (IsTrue S.tells → IsTrue D.tells → TextTold limit new_form (new_file_of new_form) (S.left input.old) (L.logs logs.old) (L.logs logs.new)) }
    ensures heard { IfErr result (λ e. IsTrue S.tells → IsTrue D.tells → TextHeard limit new_form (new_file_of new_form) (S.left input.old) (L.logs logs.old) (L.logs logs.new) e) }
    ensures read_cause { HasCauseOf InputFails (S.faults input.old) (S.faults input.new) result }
    ensures write_cause { HasCauseOf DiskFails (D.faults disk.old) (D.faults disk.new) result }
{
    let Ok(()) = make(disk, NEW_FORM) else {
        return Err(RestoreRefusal::Io);
    };
    add_all(alloc, input, disk, limit, logs)?;
    match disk.sync() {
        Ok(()) => Ok(()),
        Err(_) => Err(RestoreRefusal::Io),
    }
}

/// Makes a file of this name, where there is none, of the pairs of the text on the input; it may be up to `limit` bytes
/// long. The last log is told each growth of it. Where not all pairs come into it, or a log failed, and no call of the
/// files did, there is none again.
pub(crate) fn restore_file<F: Files, S: Source, L: Logs>(
    alloc: Global,
    name: &str,
    limit: u64,
    files: &mut F,
    input: &mut S,
    logs: &mut L,
) -> Ending
    requires limit { limit ≤ 4294963200 }
    requires free { (other : List ℕ) → F.is_taken files.old other ≡ false }
    requires take { F.may_take name.now Way.New }
    ensures cause { IsTrue F.D.tells → AskCause (input_by S.tells (S.left input.old) (S.faults input.old) (S.faults input.new)) (Restore limit) name.now (F.held files.old name.now) (F.faults files.old) (F.faults files.new) result }
    ensures left { IsTrue F.D.tells → RestoreLeaves limit (input_by S.tells (S.left input.old) (S.faults input.old) (S.faults input.new)) (F.held files.old name.now) result (F.held files.new name.now) }
    ensures others { SameBut name.now (F.held files.old) (F.held files.new) }
    ensures given_back { (other : List ℕ) → F.is_taken files.new other ≡ false }
    ensures counted { CountedBy (F.faults files.old) (F.faults files.new) result }
    ensures heard { HeardBy (S.faults input.old) (S.faults input.new) result }
    ensures asked { result ≡ Usage → ⊥ }
    ensures told { IsTrue F.D.tells → RestoreHeard limit (input_by S.tells (S.left input.old) (S.faults input.old) (S.faults input.new)) (F.held files.old name.now) result (L.logs logs.old) (L.logs logs.new) }
{
    let mut disk = match files.take(alloc, name, Take::New) {
        Ok(disk) => disk,
        Err(refusal) => return Ending::untaken(alloc, name, refusal),
    };
    let filled = fill(alloc, input, &mut disk, limit, logs);
    files.give(name, disk);
    match filled {
        Ok(()) => Ending::Replied(Reply::Restored),
        Err(RestoreRefusal::Io) => Ending::DeviceFault,
        Err(refusal) => match files.remove(name) {
            Ok(()) => Ending::from(refusal),
            Err(_) => Ending::DeviceFault,
        },
    }
}
