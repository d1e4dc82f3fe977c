// The command that writes a file anew.

ghost use Rattle.std.specs.Prelude.{◌≡◌, ◌≢◌, ◌<◌, ◌≤◌, ◌^◌, ℕ, List, [], length, false, IsTrue, IfErr, OnOk};
ghost use Rattle.tdb_cmdline.specs.CopyNames.{temporary_name};
ghost use Rattle.tdb_disk.specs.History.{seen};
ghost use Rattle.tdb_disk.specs.Names.{SameBut};
ghost use Rattle.tdb_space.specs.Form.{form_of};
ghost use Rattle.tdb_open.specs.Notices.{BelowHeard};
ghost use Rattle.tdb_open.specs.Opening.{opened_bytes, IsCheckedOn};
ghost use Rattle.tdb_answer.specs.declared.ending.Ending.TheVariants.{Usage};
ghost use Rattle.tdb_answer.specs.Commands.Backup.{CountedBoth};
ghost use Rattle.tdb_answer.specs.Commands.Repack.{NewStands, NewUnmade, NotRepacked, NewHeld, RepackStopped, RepackLeft, RepackLeaves};
ghost use Rattle.tdb_answer.specs.Commands.Restore.{of_input};
ghost use Rattle.tdb_answer.specs.Commands.Rewriting.{HoldsAnew, anew_ending};
ghost use Rattle.tdb_answer.specs.Ending.{CountedBy};
ghost use Rattle.tdb_answer.specs.Heard.{FileHeard, PrintHeard, ToldFor};
ghost use Rattle.tdb_disk.specs.declared.files.Take.TheVariants as Way;

use crate::commands::backup::take_anew;
use crate::commands::rewriting::write_to;
use crate::ending::{Ending, Reply};
use std::alloc::Global;
use tdb_cmdline::{NewFile, Text};
use tdb_disk::{Files, Take};
use tdb_log::Logs;
use tdb_open::{NewForm, Opened};

/// Writes an opened file on a disk anew, in its own form, to a new file of this name, which may be up to `limit` bytes
/// long. What stood at the name is removed before.
fn repack_to<F: Files>(
    alloc: Global,
    from: &mut F::D,
    opened: &Opened,
    limit: u64,
    name: &str,
    files: &mut F,
) -> Result<(), Ending>
    requires opened { IsTrue F.D.tells → IsCheckedOn (seen (F.D.history from.old)) opened.now }
    requires short { IsTrue F.D.tells → length (seen (F.D.history from.old)) < 2 ^ 32 }
    requires limit { limit ≤ 4294963200 }
    requires free { F.is_taken files.old name.now ≡ false }
    requires take { F.may_take name.now Way.New }
    ensures made { OnOk result (IsTrue F.D.tells → let img = seen (F.D.history from.old) in HoldsAnew img [] (form_of img) (F.held files.new name.now)) }
    ensures refused { IfErr result (λ e. IsTrue F.D.tells → NewUnmade limit (seen (F.D.history from.old)) e (F.held files.old name.now) (F.held files.new name.now)) }
    ensures asked { IfErr result (λ e. e ≢ Usage) }
    ensures unread { IfErr result (λ e. of_input e ≡ false) }
    ensures kept { F.D.history from.new ≡ F.D.history from.old }
    ensures counted { CountedBoth (F.D.faults from.old) (F.D.faults from.new) (F.faults files.old) (F.faults files.new) (anew_ending result) }
    ensures others { SameBut name.now (F.held files.old) (F.held files.new) }
    ensures taken { (other : List ℕ) → F.is_taken files.new other ≡ F.is_taken files.old other }
{
    let form = NewForm {
        size: opened.header.hash_size,
        hash: opened.header.hash,
        order: opened.header.order,
    };
    let to = match take_anew(alloc, name, files) {
        Ok(disk) => disk,
        Err(ending) => return Err(ending),
    };
    write_to(
        alloc,
        from,
        opened,
        to,
        NewFile { form, limit },
        b"",
        name,
        files,
    )
}

/// Opens the file on a disk, unless it has more than so many bytes, and writes it anew to a new file of this name.
fn repack_disk<F: Files, L: Logs>(
    alloc: Global,
    from: &mut F::D,
    limit: u64,
    name: &str,
    files: &mut F,
    logs: &mut L,
) -> Result<(), Ending>
    requires limit { limit ≤ 4294963200 }
    requires free { F.is_taken files.old name.now ≡ false }
    requires take { F.may_take name.now Way.New }
    ensures made { OnOk result (IsTrue F.D.tells → NewStands limit (F.D.history from.old) (F.D.history from.new) (F.held files.new name.now)) }
    ensures refused { IfErr result (λ e. IsTrue F.D.tells → NotRepacked limit (F.D.history from.old) e (F.D.history from.new) (F.held files.old name.now) (F.held files.new name.now)) }
    ensures asked { IfErr result (λ e. e ≢ Usage) }
    ensures unread { IfErr result (λ e. of_input e ≡ false) }
    ensures counted { CountedBoth (F.D.faults from.old) (F.D.faults from.new) (F.faults files.old) (F.faults files.new) (anew_ending result) }
    ensures others { SameBut name.now (F.held files.old) (F.held files.new) }
    ensures taken { (other : List ℕ) → F.is_taken files.new other ≡ F.is_taken files.old other }
    ensures heard { IsTrue F.D.tells → FileHeard (opened_bytes (seen (F.D.history from.old))) (BelowHeard limit (seen (F.D.history from.old))) (anew_ending result) (ToldFor (anew_ending result) []) (L.logs logs.old) (L.logs logs.new) }
{
    match Opened::open_below(alloc, from, limit, logs) {
        Ok(opened) => repack_to(alloc, from, &opened, limit, name, files),
        Err(halt) => Err(Ending::from(halt)),
    }
}

/// Opens the file of this name, unless it has more than so many bytes, and writes it anew to a new file of another
/// name.
fn repack_opened<F: Files, L: Logs>(
    alloc: Global,
    file: &str,
    new: &str,
    limit: u64,
    files: &mut F,
    logs: &mut L,
) -> Result<(), Ending>
    requires differ { new.now ≢ file.now }
    requires limit { limit ≤ 4294963200 }
    requires free { (other : List ℕ) → F.is_taken files.old other ≡ false }
    requires take_file { F.may_take file.now Way.Existing }
    requires take_new { F.may_take new.now Way.New }
    ensures made { OnOk result (IsTrue F.D.tells → NewHeld limit (F.held files.old file.now) (F.held files.new file.now) (F.held files.new new.now)) }
    ensures refused { IfErr result (λ e. IsTrue F.D.tells → RepackStopped limit file.now (F.held files.old file.now) (F.held files.new file.now) (F.held files.old new.now) (F.held files.new new.now) e) }
    ensures asked { IfErr result (λ e. e ≢ Usage) }
    ensures unread { IfErr result (λ e. of_input e ≡ false) }
    ensures counted { CountedBy (F.faults files.old) (F.faults files.new) (anew_ending result) }
    ensures others { (other : List ℕ) → other ≢ file.now → other ≢ new.now → F.held files.new other ≡ F.held files.old other }
    ensures given_back { (other : List ℕ) → F.is_taken files.new other ≡ false }
    ensures heard { IsTrue F.D.tells → PrintHeard limit (F.held files.old file.now) (anew_ending result) (L.logs logs.old) (L.logs logs.new) }
{
    let mut disk = match files.take(alloc, file, Take::Existing) {
        Ok(disk) => disk,
        Err(refusal) => return Err(Ending::untaken(alloc, file, refusal)),
    };
    let written = repack_disk(alloc, &mut disk, limit, new, files, logs);
    files.give(file, disk);
    written
}

/// Writes the file of this name anew: the new one is made at `new`, and then renamed to the file's own name.
fn repack_at<F: Files, L: Logs>(
    alloc: Global,
    file: &str,
    new: &str,
    limit: u64,
    files: &mut F,
    logs: &mut L,
) -> Ending
    requires differ { new.now ≢ file.now }
    requires limit { limit ≤ 4294963200 }
    requires free { (other : List ℕ) → F.is_taken files.old other ≡ false }
    requires take_file { F.may_take file.now Way.Existing }
    requires take_new { F.may_take new.now Way.New }
    ensures left { IsTrue F.D.tells → RepackLeft limit file.now (F.held files.old file.now) (F.held files.new file.now) (F.held files.old new.now) (F.held files.new new.now) result }
    ensures asked { result ≢ Usage }
    ensures unread { of_input result ≡ false }
    ensures counted { CountedBy (F.faults files.old) (F.faults files.new) result }
    ensures others { (other : List ℕ) → other ≢ file.now → other ≢ new.now → F.held files.new other ≡ F.held files.old other }
    ensures given_back { (other : List ℕ) → F.is_taken files.new other ≡ false }
    ensures heard { IsTrue F.D.tells → PrintHeard limit (F.held files.old file.now) result (L.logs logs.old) (L.logs logs.new) }
{
    match repack_opened(alloc, file, new, limit, files, logs) {
        Ok(()) => match files.rename(new, file) {
            Ok(()) => Ending::Replied(Reply::Done),
            Err(_) => Ending::DeviceFault,
        },
        Err(ending) => ending,
    }
}

/// Opens the file of this name, unless it has more than so many bytes, and writes it anew in its own form, without dead
/// records and without an undo area. It may be no longer than that then. The new file is made at its name and `.tmp`,
/// and takes its place when all of it is on the medium.
pub(crate) fn repack<F: Files, L: Logs>(
    alloc: Global,
    file: &str,
    limit: u64,
    files: &mut F,
    logs: &mut L,
) -> Ending
    requires limit { limit ≤ 4294963200 }
    requires free { (other : List ℕ) → F.is_taken files.old other ≡ false }
    requires take_file { F.may_take file.now Way.Existing }
    requires take_new { F.may_take (temporary_name file.now) Way.New }
    ensures left { IsTrue F.D.tells → RepackLeaves limit file.now (F.held files.old) result (F.held files.new) }
    ensures asked { result ≢ Usage }
    ensures unread { of_input result ≡ false }
    ensures counted { CountedBy (F.faults files.old) (F.faults files.new) result }
    ensures others { (other : List ℕ) → other ≢ file.now → other ≢ temporary_name file.now → F.held files.new other ≡ F.held files.old other }
    ensures given_back { (other : List ℕ) → F.is_taken files.new other ≡ false }
    ensures heard { IsTrue F.D.tells → PrintHeard limit (F.held files.old file.now) result (L.logs logs.old) (L.logs logs.new) }
{
    match Text::joined(alloc, file, ".tmp") {
        Ok(new) => repack_at(alloc, file, new.as_str(), limit, files, logs),
        Err(_) => Ending::NoMemory,
    }
}
