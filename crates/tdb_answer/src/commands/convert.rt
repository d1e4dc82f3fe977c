// The command that makes another file of the pairs of one.

ghost use Rattle.std.specs.Prelude.{◌≡◌, ◌≢◌, ◌<◌, ◌≤◌, ℕ, List, [], false, IsTrue, IfErr, OnOk};
ghost use Rattle.tdb_disk.specs.Count.{HasCause};
ghost use Rattle.tdb_disk.specs.History.{seen};
ghost use Rattle.tdb_disk.specs.Names.{SameBut};
ghost use Rattle.tdb_open.specs.Notices.{ReadingBelowHeard};
ghost use Rattle.tdb_open.specs.Opening.{IsCheckedOn};
ghost use Rattle.tdb_answer.specs.declared.ending.Ending.TheVariants.{Usage, LogFault};
ghost use Rattle.tdb_answer.specs.Commands.Backup.{CountedBoth};
ghost use Rattle.tdb_answer.specs.Commands.Convert.{CanConvert, IsConverted, WasConverted, ConvertLeft, ConvertLeaves, EndsUnconverted, ToldLeft, converted_line};
ghost use Rattle.tdb_answer.specs.Commands.Restore.{of_input};
ghost use Rattle.tdb_answer.specs.Commands.Rewriting.{anew_ending};
ghost use Rattle.tdb_answer.specs.Ending.{CountedBy};
ghost use Rattle.tdb_answer.specs.Heard.{FileHeard, ConvertHeard, ToldFor};
ghost use Rattle.tdb_answer.specs.Looks.{ending_of, Began, StandsBefore};
ghost use Rattle.tdb_disk.specs.declared.files.Take.TheVariants as Way;

use crate::commands::rewriting::write_to;
use crate::ending::{Ending, Reply, Unprinted};
use std::alloc::Global;
use tdb_cmdline::NewFile;
use tdb_disk::{Files, Sink, Take};
use tdb_log::Logs;
use tdb_open::{Opened, Refusal};

/// Makes a new file of this name of the pairs of an opened one on a disk whose key begins with `prefix`. What stands at
/// the name stays, and no file is left that isn't whole, unless a call failed.
fn convert_to<F: Files>(
    alloc: Global,
    from: &mut F::D,
    opened: &Opened,
    new: &str,
    made: NewFile,
    prefix: &[u8],
    files: &mut F,
) -> Result<(), Ending>
    requires opened { IsTrue F.D.tells → IsCheckedOn (seen (F.D.history from.old)) opened.now }
    requires can_read { IsTrue F.D.tells → CanConvert made (seen (F.D.history from.old)) }
    requires some { 0 < made.form.size }
    requires limit { made.limit ≤ 4294963200 }
    requires free { F.is_taken files.old new.now ≡ false }
    requires take { F.may_take new.now Way.New }
    ensures made { OnOk result (IsTrue F.D.tells → IsConverted made prefix.now (seen (F.D.history from.old)) (F.held files.old new.now) (F.held files.new new.now)) }
    ensures refused { IfErr result (λ e. IsTrue F.D.tells → ConvertLeft made prefix.now (seen (F.D.history from.old)) new.now (F.held files.old new.now) e (F.held files.new new.now)) }
    ensures known { IfErr result EndsUnconverted }
    ensures unlogged { IfErr result (λ e. e ≢ LogFault) }
    ensures kept { F.D.history from.new ≡ F.D.history from.old }
    ensures counted { CountedBoth (F.D.faults from.old) (F.D.faults from.new) (F.faults files.old) (F.faults files.new) (anew_ending result) }
    ensures others { SameBut new.now (F.held files.old) (F.held files.new) }
    ensures taken { (other : List ℕ) → F.is_taken files.new other ≡ F.is_taken files.old other }
{
    let to = match files.take(alloc, new, Take::New) {
        Ok(disk) => disk,
        Err(refusal) => return Err(Ending::untaken(alloc, new, refusal)),
    };
    let len = made.form.file_len();
    if len <= made.limit {
        return write_to(alloc, from, opened, to, made, prefix, new, files);
    }
    files.give(new, to);
    match files.remove(new) {
        Ok(()) => Err(Ending::Refused(Refusal::TooLong { len })),
        Err(_) => Err(Ending::DeviceFault),
    }
}

/// Opens the file on a disk to read it alone, unless it has more bytes than the new one may have, and makes a new one
/// of its pairs whose key begins with `prefix`.
fn convert_disk<F: Files, L: Logs>(
    alloc: Global,
    from: &mut F::D,
    new: &str,
    made: NewFile,
    prefix: &[u8],
    files: &mut F,
    logs: &mut L,
) -> Result<(), Ending>
    requires some { 0 < made.form.size }
    requires limit { made.limit ≤ 4294963200 }
    requires free { F.is_taken files.old new.now ≡ false }
    requires take { F.may_take new.now Way.New }
    ensures made { OnOk result (IsTrue F.D.tells → IsConverted made prefix.now (seen (F.D.history from.old)) (F.held files.old new.now) (F.held files.new new.now)) }
    ensures refused { IfErr result (λ e. IsTrue F.D.tells → ConvertLeft made prefix.now (seen (F.D.history from.old)) new.now (F.held files.old new.now) e (F.held files.new new.now)) }
    ensures known { IfErr result EndsUnconverted }
    ensures kept { F.D.history from.new ≡ F.D.history from.old }
    ensures counted { CountedBoth (F.D.faults from.old) (F.D.faults from.new) (F.faults files.old) (F.faults files.new) (anew_ending result) }
    ensures others { SameBut new.now (F.held files.old) (F.held files.new) }
    ensures taken { (other : List ℕ) → F.is_taken files.new other ≡ F.is_taken files.old other }
    ensures heard { IsTrue F.D.tells → FileHeard (seen (F.D.history from.old)) (ReadingBelowHeard made.limit (seen (F.D.history from.old))) (anew_ending result) (ToldFor (anew_ending result) []) (L.logs logs.old) (L.logs logs.new) }
{
    match Opened::open_to_read_below(alloc, from, made.limit, logs) {
        Ok(opened) => convert_to(alloc, from, &opened, new, made, prefix, files),
        Err(halt) => Err(Ending::from(halt)),
    }
}

/// Opens the file of this name to read it alone, unless it has more bytes than the new one may have, and makes a new
/// one of its pairs whose key begins with `prefix`.
fn convert_file<F: Files, L: Logs>(
    alloc: Global,
    file: &str,
    new: &str,
    made: NewFile,
    prefix: &[u8],
    files: &mut F,
    logs: &mut L,
) -> Result<(), Ending>
    requires differ { new.now ≢ file.now }
    requires some { 0 < made.form.size }
    requires limit { made.limit ≤ 4294963200 }
    requires free { (other : List ℕ) → F.is_taken files.old other ≡ false }
    requires take_file { F.may_take file.now Way.ReadOnly }
    requires take_new { F.may_take new.now Way.New }
    ensures made { OnOk result (IsTrue F.D.tells → WasConverted made prefix.now (F.held files.old file.now) (F.held files.old new.now) (F.held files.new new.now)) }
    ensures refused { IfErr result (λ e. IsTrue F.D.tells → ConvertLeaves made prefix.now file.now new.now (F.held files.old file.now) (F.held files.old new.now) e (F.held files.new new.now)) }
    ensures kept { IsTrue F.D.tells → F.held files.new file.now ≡ F.held files.old file.now }
    ensures known { IfErr result EndsUnconverted }
    ensures counted { CountedBy (F.faults files.old) (F.faults files.new) (anew_ending result) }
    ensures others { (other : List ℕ) → other ≢ file.now → other ≢ new.now → F.held files.new other ≡ F.held files.old other }
    ensures given_back { (other : List ℕ) → F.is_taken files.new other ≡ false }
    ensures heard { IsTrue F.D.tells → ConvertHeard made.limit (F.held files.old file.now) (anew_ending result) (L.logs logs.old) (L.logs logs.new) }
{
    let mut disk = match files.take(alloc, file, Take::ReadOnly) {
        Ok(disk) => disk,
        Err(refusal) => return Err(Ending::untaken(alloc, file, refusal)),
    };
    let converted = convert_disk(alloc, &mut disk, new, made, prefix, files, logs);
    files.give(file, disk);
    converted
}

/// Prints that the new file of this name is made. Where the output fails it is removed.
fn tell_converted<F: Files, K: Sink>(
    new: &str,
    files: &mut F,
    output: &mut K,
) -> Result<Ending, Unprinted>
    requires free { (other : List ℕ) → F.is_taken files.old other ≡ false }
    ensures left { IsTrue F.D.tells → ToldLeft (F.held files.old new.now) result (F.held files.new new.now) }
    ensures asked { ending_of result ≢ Usage }
    ensures unread { of_input (ending_of result) ≡ false }
    ensures unlogged { ending_of result ≢ LogFault }
    ensures others { SameBut new.now (F.held files.old) (F.held files.new) }
    ensures given_back { (other : List ℕ) → F.is_taken files.new other ≡ false }
    ensures counted { CountedBy (F.faults files.old) (F.faults files.new) (ending_of result) }
    ensures began { IsTrue K.tells → Began (StandsBefore converted_line) (K.written output.old) (K.written output.new) result }
    ensures output_cause { HasCause (K.faults output.old) (K.faults output.new) result }
{
    match output.write(b"ok\n") {
        Ok(()) => Ok(Ending::Replied(Reply::Copied)),
        Err(_) => match files.remove(new) {
            Ok(()) => Err(Unprinted::Files),
            Err(_) => Err(Unprinted::Fault),
        },
    }
}

/// Makes a new file of the pairs of the file of this name whose key begins with `prefix`, and prints that it is made.
/// The file stays as it is, and so does what stands at the name of the new one.
pub(crate) fn convert<F: Files, K: Sink, L: Logs>(
    alloc: Global,
    file: &str,
    new: &str,
    made: NewFile,
    prefix: &[u8],
    files: &mut F,
    output: &mut K,
    logs: &mut L,
) -> Result<Ending, Unprinted>
    requires differ { new.now ≢ file.now }
    requires some { 0 < made.form.size }
    requires limit { made.limit ≤ 4294963200 }
    requires free { (other : List ℕ) → F.is_taken files.old other ≡ false }
    requires take_file { F.may_take file.now Way.ReadOnly }
    requires take_new { F.may_take new.now Way.New }
    ensures left { IsTrue F.D.tells → ConvertLeaves made prefix.now file.now new.now (F.held files.old file.now) (F.held files.old new.now) (ending_of result) (F.held files.new new.now) }
    ensures kept { IsTrue F.D.tells → F.held files.new file.now ≡ F.held files.old file.now }
    ensures asked { ending_of result ≢ Usage }
    ensures unread { of_input (ending_of result) ≡ false }
    ensures counted { CountedBy (F.faults files.old) (F.faults files.new) (ending_of result) }
    ensures others { (other : List ℕ) → other ≢ file.now → other ≢ new.now → F.held files.new other ≡ F.held files.old other }
    ensures given_back { (other : List ℕ) → F.is_taken files.new other ≡ false }
    ensures began { IsTrue K.tells → Began (StandsBefore converted_line) (K.written output.old) (K.written output.new) result }
    ensures output_cause { HasCause (K.faults output.old) (K.faults output.new) result }
    ensures heard { IsTrue F.D.tells → ConvertHeard made.limit (F.held files.old file.now) (ending_of result) (L.logs logs.old) (L.logs logs.new) }
{
    match convert_file(alloc, file, new, made, prefix, files, logs) {
        Ok(()) => tell_converted(new, files, output),
        Err(ending) => Ok(ending),
    }
}
