// The command that copies files, each to a name beside its own.

ghost use Rattle.std.specs.Prelude.{◌≡◌, ◌≢◌, ◌⊎◌, ◌<◌, ◌^◌, ℕ, List, [], ◌∷◌, length, false, true, IsTrue, IfOk, IfErr, OnOk, OnErr};
ghost use Rattle.tdb_disk.specs.Count.{HasCause, HasCauseOf, Rose};
ghost use Rattle.tdb_disk.specs.History.{seen};
ghost use Rattle.tdb_disk.specs.Names.{SameBut};
ghost use Rattle.tdb_space.specs.Form.{form_of};
ghost use Rattle.tdb_space.specs.Pairs.{order_of};
ghost use Rattle.tdb_backup.specs.Building.{HoldsPairs};
ghost use Rattle.tdb_answer.specs.Commands.Create.{new_file_of};
ghost use Rattle.tdb_open.specs.declared.limits.TheConstants.{LONGEST_FILE};
ghost use Rattle.tdb_backup.specs.declared.refusal.BackupRefusal.TheVariants.{Copy};
ghost use Rattle.tdb_backup.specs.declared.refusal.CopyRefusal.TheVariants.{Read as ReadFails, Write as WriteFails};
ghost use Rattle.tdb_answer.specs.declared.ending.Ending.TheVariants.{Replied};
ghost use Rattle.tdb_answer.specs.declared.ending.Reply.TheVariants.{Copied};
ghost use Rattle.tdb_cmdline.specs.CopyNames.{copy_name, new_name, IsNameOf, IsNameAmong, BackupFits};
ghost use Rattle.tdb_answer.specs.Commands.Backup.{copy_ending, copy_growths, CopyingHeard, HasKeys, IsCopyOf, IsNotBackedUp, RefusalHeard, of_backup, of_copy, IsLeftOf, IsUntakenNew, CopyMade, DiskCopied, FileCopied, BackedUpOne, BackedUp, EndsBackup, CountedBoth};
ghost use Rattle.tdb_answer.specs.Commands.Check.{keys_in};
ghost use Rattle.tdb_open.specs.Creating.{IsNewFile};
ghost use Rattle.tdb_answer.specs.Ending.{CountedBy};
ghost use Rattle.tdb_answer.specs.Heard.{FileHeard, CopiedHeard, BackupHeard};
ghost use Rattle.tdb_log.specs.Logs.{ToldAll};
ghost use Rattle.tdb_open.specs.Notices.{OpeningHeard};
ghost use Rattle.tdb_open.specs.Opening.{opened_bytes, IsCheckedOn};
ghost use Rattle.tdb_disk.specs.declared.files.Take.TheVariants as Way;
ghost use Rattle.tdb_answer.specs.Takes.{MayTakeEach, copies_take};

use crate::ending::{Ending, Reply};
use std::alloc::Global;
use tdb_backup::{BackupRefusal, CopyRefusal, copy_pairs};
use tdb_cmdline::Text;
use tdb_disk::{Disk, Files, Take};
use tdb_log::Logs;
use tdb_open::{Halt, LONGEST_FILE, NewForm, Opened, make};
use tdb_space::Direct;

impl From<CopyRefusal> for Ending {
    ghost from_gives = { λ refusal ending. ending ≡ of_copy refusal };

    fn from(refusal: CopyRefusal) -> Self {
        match refusal {
            CopyRefusal::Read => Ending::DeviceFault,
            CopyRefusal::Write => Ending::DeviceFault,
            CopyRefusal::Full { len, need } => Ending::Replied(Reply::Full { len, need }),
            CopyRefusal::Memory => Ending::NoMemory,
        }
    }
}

impl From<BackupRefusal> for Ending {
    ghost from_gives = { λ refusal ending. ending ≡ of_backup refusal };

    fn from(refusal: BackupRefusal) -> Self {
        match refusal {
            BackupRefusal::Copy(refusal) => Ending::from(refusal),
            BackupRefusal::Log(refusal) => Ending::from(Halt::from(refusal)),
        }
    }
}

/// Adds all pairs of an opened file on a disk to a new file of its form on another, and tells the last log each growth
/// of that.
fn add_all<D: Disk, L: Logs>(
    alloc: Global,
    from: &mut D,
    opened: &Opened,
    to: &mut D,
    logs: &mut L,
) -> Result<(), BackupRefusal>
    requires opened { IsTrue D.tells → IsCheckedOn (seen (D.history from.old)) opened.now }
    requires short { IsTrue D.tells → length (seen (D.history from.old)) < 2 ^ 32 }
    requires new { IsTrue D.tells → IsNewFile opened.now.header.hash_size opened.now.header.order opened.now.header.hash (seen (D.history to.old)) }
    ensures copied { OnOk result (IsTrue D.tells → let img = seen (D.history from.old) in HoldsPairs LONGEST_FILE (new_file_of (form_of img)) (form_of img) (seen (D.history to.new)) (order_of (form_of img) img)) }
    ensures refused { IfErr result (λ e. IsTrue D.tells → IsNotBackedUp (seen (D.history from.old)) e) }
    ensures told { OnOk result (IsTrue D.tells → ToldAll (copy_growths (seen (D.history from.old))) (L.logs logs.old) (L.logs logs.new)) }
    ensures heard { IfErr result (λ e. IsTrue D.tells → RefusalHeard (seen (D.history from.old)) (L.logs logs.old) (L.logs logs.new) e) }
    ensures kept { D.history from.new ≡ D.history from.old }
    ensures read_cause { HasCauseOf (Copy ReadFails) (D.faults from.old) (D.faults from.new) result }
    ensures write_cause { HasCauseOf (Copy WriteFails) (D.faults to.old) (D.faults to.new) result }
{
    let mut source = Direct::new(from, &opened.header);
    let mut copy = Direct::new(to, &opened.header);
    copy_pairs(alloc, &mut source, &mut copy, LONGEST_FILE, logs)
}

/// Makes an empty disk a copy of an opened file on another one: a new file of its form, to which all its pairs are
/// added, and of which the last log is told each growth. It is synced.
fn copy_file<D: Disk, L: Logs>(
    alloc: Global,
    from: &mut D,
    opened: &Opened,
    to: &mut D,
    logs: &mut L,
) -> Result<(), BackupRefusal>
    requires opened { IsTrue D.tells → IsCheckedOn (seen (D.history from.old)) opened.now }
    requires short { IsTrue D.tells → length (seen (D.history from.old)) < 2 ^ 32 }
    requires empty { D.size to.old ≡ 0 }
    ensures copied { OnOk result (IsTrue D.tells → IsCopyOf (seen (D.history from.old)) (D.history to.new)) }
    ensures refused { IfErr result (λ e. IsTrue D.tells → IsNotBackedUp (seen (D.history from.old)) e) }
    ensures told { OnOk result (IsTrue D.tells → ToldAll (copy_growths (seen (D.history from.old))) (L.logs logs.old) (L.logs logs.new)) }
    ensures heard { IfErr result (λ e. IsTrue D.tells → RefusalHeard (seen (D.history from.old)) (L.logs logs.old) (L.logs logs.new) e) }
    ensures kept { D.history from.new ≡ D.history from.old }
    ensures read_cause { HasCauseOf (Copy ReadFails) (D.faults from.old) (D.faults from.new) result }
    ensures write_cause { HasCauseOf (Copy WriteFails) (D.faults to.old) (D.faults to.new) result }
{
    let form = NewForm {
        size: opened.header.hash_size,
        hash: opened.header.hash,
        order: opened.header.order,
    };
    let Ok(()) = make(to, form) else {
        return Err(BackupRefusal::Copy(CopyRefusal::Write));
    };
    add_all(alloc, from, opened, to, logs)?;
    match to.sync() {
        Ok(()) => Ok(()),
        Err(_) => Err(BackupRefusal::Copy(CopyRefusal::Write)),
    }
}

/// Takes a new file of this name, after it removed the one that stands there, if there is one.
pub(crate) fn take_anew<F: Files>(alloc: Global, name: &str, files: &mut F) -> Result<F::D, Ending>
    requires free { F.is_taken files.old name.now ≡ false }
    requires take { F.may_take name.now Way.New }
    ensures empty { IfOk result (λ disk. F.D.size disk ≡ 0) }
    ensures sound { IfOk result (λ disk. F.D.faults disk ≡ 0) }
    ensures taken { OnOk result (F.is_taken files.new name.now ≡ true) }
    ensures not_taken { OnErr result (F.is_taken files.new name.now ≡ false) }
    ensures left { OnErr result (IsTrue F.D.tells → IsLeftOf (F.held files.old name.now) (F.held files.new name.now)) }
    ensures known { IfErr result (λ e. IsUntakenNew F.D.tells e) }
    ensures kept { OnOk result (F.faults files.new ≡ F.faults files.old) }
    ensures counted { IfErr result (λ e. CountedBy (F.faults files.old) (F.faults files.new) e) }
    ensures others { SameBut name.now (F.held files.old) (F.held files.new) }
    ensures taken_others { SameBut name.now (F.is_taken files.old) (F.is_taken files.new) }
{
    let Ok(()) = files.remove(name) else {
        return Err(Ending::DeviceFault);
    };
    match files.take(alloc, name, Take::New) {
        Ok(disk) => Ok(disk),
        Err(refusal) => Err(Ending::untaken(alloc, name, refusal)),
    }
}

/// Makes a new file of this name a copy of an opened one on a disk. Where not all pairs come into it, or a log failed,
/// and no call did, there is none.
fn copy_to<F: Files, L: Logs>(
    alloc: Global,
    from: &mut F::D,
    opened: &Opened,
    name: &str,
    files: &mut F,
    logs: &mut L,
) -> Ending
    requires opened { IsTrue F.D.tells → IsCheckedOn (seen (F.D.history from.old)) opened.now }
    requires short { IsTrue F.D.tells → length (seen (F.D.history from.old)) < 2 ^ 32 }
    requires free { F.is_taken files.old name.now ≡ false }
    requires take { F.may_take name.now Way.New }
    ensures left { IsTrue F.D.tells → CopyMade (seen (F.D.history from.old)) (F.held files.old name.now) (F.held files.new name.now) result }
    ensures known { EndsBackup result }
    ensures kept { F.D.history from.new ≡ F.D.history from.old }
    ensures counted { CountedBoth (F.D.faults from.old) (F.D.faults from.new) (F.faults files.old) (F.faults files.new) result }
    ensures others { SameBut name.now (F.held files.old) (F.held files.new) }
    ensures taken { (other : List ℕ) → F.is_taken files.new other ≡ F.is_taken files.old other }
    ensures heard { IsTrue F.D.tells → CopyingHeard (seen (F.D.history from.old)) result (L.logs logs.old) (L.logs logs.new) }
{
    let mut to = match take_anew(alloc, name, files) {
        Ok(disk) => disk,
        Err(ending) => return ending,
    };
    let copied = copy_file(alloc, from, opened, &mut to, logs);
    files.give(name, to);
    match copied {
        Ok(()) => Ending::Replied(Reply::Copied),
        Err(BackupRefusal::Copy(CopyRefusal::Read | CopyRefusal::Write)) => Ending::DeviceFault,
        Err(refusal) => match files.remove(name) {
            Ok(()) => Ending::from(refusal),
            Err(_) => Ending::DeviceFault,
        },
    }
}

/// Opens the file on a disk, and makes a new file of this name a copy of it. It gives the number of its keys.
fn copy_disk<F: Files, L: Logs>(
    alloc: Global,
    from: &mut F::D,
    name: &str,
    files: &mut F,
    logs: &mut L,
) -> Result<u64, Ending>
    requires free { F.is_taken files.old name.now ≡ false }
    requires take { F.may_take name.now Way.New }
    ensures copied { IsTrue F.D.tells → DiskCopied (F.D.history from.old) (F.D.history from.new) (F.held files.old name.now) (F.held files.new name.now) (copy_ending result) }
    ensures keys { IfOk result (λ n. IsTrue F.D.tells → n ≡ keys_in (opened_bytes (seen (F.D.history from.old)))) }
    ensures refused { IfErr result (λ e. e ≢ Replied Copied) }
    ensures known { EndsBackup (copy_ending result) }
    ensures counted { CountedBoth (F.D.faults from.old) (F.D.faults from.new) (F.faults files.old) (F.faults files.new) (copy_ending result) }
    ensures others { SameBut name.now (F.held files.old) (F.held files.new) }
    ensures taken { (other : List ℕ) → F.is_taken files.new other ≡ F.is_taken files.old other }
    ensures heard { IsTrue F.D.tells → FileHeard (opened_bytes (seen (F.D.history from.old))) (OpeningHeard (seen (F.D.history from.old))) (copy_ending result) (CopyingHeard (opened_bytes (seen (F.D.history from.old))) (copy_ending result)) (L.logs logs.old) (L.logs logs.new) }
{
    let opened = match Opened::open(alloc, from, logs) {
        Ok(opened) => opened,
        Err(halt) => return Err(Ending::from(halt)),
    };
    let ending = copy_to(alloc, from, &opened, name, files, logs);
    if ending.is_copied() {
        Ok(opened.report.live)
    } else {
        Err(ending)
    }
}

/// Opens the file of this name, and makes a new file of another name a copy of it. It gives the number of its keys.
fn copy_opened<F: Files, L: Logs>(
    alloc: Global,
    file: &str,
    name: &str,
    files: &mut F,
    logs: &mut L,
) -> Result<u64, Ending>
    requires differ { name.now ≢ file.now }
    requires free { (other : List ℕ) → F.is_taken files.old other ≡ false }
    requires take_file { F.may_take file.now Way.Existing }
    requires take_name { F.may_take name.now Way.New }
    ensures copied { IsTrue F.D.tells → FileCopied file.now (F.held files.old file.now) (F.held files.new file.now) (F.held files.old name.now) (F.held files.new name.now) (copy_ending result) }
    ensures keys { IfOk result (λ n. IsTrue F.D.tells → HasKeys (F.held files.old file.now) n) }
    ensures refused { IfErr result (λ e. e ≢ Replied Copied) }
    ensures known { EndsBackup (copy_ending result) }
    ensures counted { CountedBy (F.faults files.old) (F.faults files.new) (copy_ending result) }
    ensures others { (other : List ℕ) → other ≢ file.now → other ≢ name.now → F.held files.new other ≡ F.held files.old other }
    ensures given_back { (other : List ℕ) → F.is_taken files.new other ≡ false }
    ensures heard { IsTrue F.D.tells → CopiedHeard (F.held files.old file.now) (copy_ending result) (L.logs logs.old) (L.logs logs.new) }
{
    let mut disk = match files.take(alloc, file, Take::Existing) {
        Ok(disk) => disk,
        Err(refusal) => return Err(Ending::untaken(alloc, file, refusal)),
    };
    let copied = copy_disk(alloc, &mut disk, name, files, logs);
    files.give(file, disk);
    copied
}

/// Copies the file of this name: the copy is made at `new`, and then renamed to `copy`. It gives the number of its
/// keys.
pub(crate) fn back_up_as<F: Files, L: Logs>(
    alloc: Global,
    file: &str,
    copy: &str,
    new: &str,
    files: &mut F,
    logs: &mut L,
) -> Result<u64, Ending>
    requires copy_differs { copy.now ≢ file.now }
    requires new_differs { new.now ≢ file.now }
    requires both_differ { new.now ≢ copy.now }
    requires free { (other : List ℕ) → F.is_taken files.old other ≡ false }
    requires take_file { F.may_take file.now Way.Existing }
    requires take_new { F.may_take new.now Way.New }
    ensures done { IsTrue F.D.tells → BackedUpOne file.now copy.now new.now (F.held files.old) (F.held files.new) (F.faults files.old) (F.faults files.new) (copy_ending result) }
    ensures keys { IfOk result (λ n. IsTrue F.D.tells → HasKeys (F.held files.old file.now) n) }
    ensures refused { IfErr result (λ e. e ≢ Replied Copied) }
    ensures known { EndsBackup (copy_ending result) }
    ensures counted { CountedBy (F.faults files.old) (F.faults files.new) (copy_ending result) }
    ensures others { (other : List ℕ) → other ≢ file.now → other ≢ copy.now → other ≢ new.now → F.held files.new other ≡ F.held files.old other }
    ensures given_back { (other : List ℕ) → F.is_taken files.new other ≡ false }
    ensures heard { IsTrue F.D.tells → CopiedHeard (F.held files.old file.now) (copy_ending result) (L.logs logs.old) (L.logs logs.new) }
{
    let keys = match copy_opened(alloc, file, new, files, logs) {
        Ok(keys) => keys,
        Err(ending) => return Err(ending),
    };
    match files.rename(new, copy) {
        Ok(()) => Ok(keys),
        Err(_) => Err(Ending::DeviceFault),
    }
}

/// Copies the file of this name to that name and the suffix.
fn back_up_file<F: Files, L: Logs>(
    alloc: Global,
    file: &str,
    suffix: &str,
    files: &mut F,
    logs: &mut L,
) -> Ending
    requires suffix { suffix.now ≢ [] }
    requires free { (other : List ℕ) → F.is_taken files.old other ≡ false }
    requires take { MayTakeEach F.may_take (copies_take suffix.now (file.now ∷ [])) }
    ensures done { IsTrue F.D.tells → BackedUpOne file.now (copy_name suffix.now file.now) (new_name suffix.now file.now) (F.held files.old) (F.held files.new) (F.faults files.old) (F.faults files.new) result }
    ensures known { EndsBackup result }
    ensures counted { CountedBy (F.faults files.old) (F.faults files.new) result }
    ensures others { (other : List ℕ) → (IsNameOf false suffix.now file.now other → ⊥) → F.held files.new other ≡ F.held files.old other }
    ensures given_back { (other : List ℕ) → F.is_taken files.new other ≡ false }
    ensures heard { IsTrue F.D.tells → CopiedHeard (F.held files.old file.now) result (L.logs logs.old) (L.logs logs.new) }
{
    let Ok(copy) = Text::joined(alloc, file, suffix) else {
        return Ending::NoMemory;
    };
    let Ok(new) = Text::joined(alloc, copy.as_str(), ".tmp") else {
        return Ending::NoMemory;
    };
    match back_up_as(alloc, file, copy.as_str(), new.as_str(), files, logs) {
        Ok(_) => Ending::Replied(Reply::Copied),
        Err(ending) => ending,
    }
}

/// Copies the file of this name and more ones, each to its name and the suffix. The first one that isn't copied ends
/// it.
pub(crate) fn back_up<F: Files, L: Logs>(
    alloc: Global,
    file: &str,
    more: &[Text],
    suffix: &str,
    files: &mut F,
    logs: &mut L,
) -> Ending
    requires fits { BackupFits suffix.now (file.now ∷ more.now) }
    requires free { (other : List ℕ) → F.is_taken files.old other ≡ false }
    requires take { MayTakeEach F.may_take (copies_take suffix.now (file.now ∷ more.now)) }
    ensures done { IsTrue F.D.tells → BackedUp suffix.now (file.now ∷ more.now) (F.held files.old) (F.held files.new) (F.faults files.old) (F.faults files.new) result }
    ensures known { EndsBackup result }
    ensures counted { CountedBy (F.faults files.old) (F.faults files.new) result }
    ensures others { (other : List ℕ) → (IsNameAmong false suffix.now (file.now ∷ more.now) other → ⊥) → F.held files.new other ≡ F.held files.old other }
    ensures given_back { (other : List ℕ) → F.is_taken files.new other ≡ false }
    ensures heard { IsTrue F.D.tells → BackupHeard (file.now ∷ more.now) (F.held files.old) result (L.logs logs.old) (L.logs logs.new) }
{
    let ending = back_up_file(alloc, file, suffix, files, logs);
    if !ending.is_copied() {
        return ending;
    }
    for name in more {
        let ending = back_up_file(alloc, name.as_str(), suffix, files, logs);
        if !ending.is_copied() {
            return ending;
        }
    }
    Ending::Replied(Reply::Copied)
}
