// The command that makes a new file of what can be read of one that may be damaged.

ghost use Rattle.std.specs.Prelude.{◌≡◌, ◌≢◌, ◌⊎◌, ◌<◌, ◌≤◌, ◌+◌, ◌*◌, ◌^◌, ℕ, List, [], false, true, Ok, Some, IsTrue, IfOk, IfErr, IfSome, OnOk};
ghost use Rattle.tdb_disk.specs.Count.{HasCause, HasCauseOf};
ghost use Rattle.tdb_disk.specs.History.{History, Tried, seen, synced};
ghost use Rattle.tdb_disk.specs.Names.{SameBut};
ghost use Rattle.tdb_words.specs.Header.{sequence_of};
ghost use Rattle.tdb_space.specs.Pairs.{order_of};
ghost use Rattle.tdb_backup.specs.declared.refusal.CopyRefusal.TheVariants.{Read as ReadFails, Write as WriteFails};
ghost use Rattle.tdb_rewrite.specs.Rewritten.{Rewritten, chosen};
ghost use Rattle.tdb_mend.specs.Files.{file_mended as mended, file_bytes_mended as bytes_mended};
ghost use Rattle.tdb_mend.specs.View.{file_length, mended_header};
ghost use Rattle.tdb_open.specs.Creating.{IsNewFile};
ghost use Rattle.tdb_open.specs.declared.halt.Halt.TheVariants.{Device, Log};
ghost use Rattle.tdb_answer.specs.declared.ending.Ending.TheVariants.{Usage, LogFault, NoMemory as WantsMemory, DeviceFault as DeviceFails};
ghost use Rattle.tdb_answer.specs.Commands.Backup.{CountedBoth};
ghost use Rattle.tdb_answer.specs.declared.ending.Ending.{Ending as EndingIs};
ghost use Rattle.tdb_answer.specs.Damaged.{CanMend, MendHalts, MendsSo};
ghost use Rattle.tdb_answer.specs.Commands.Mend.{IsReadAs, IsMended, WasMended, MendLeft, MendLeaves, MendToldLeft, MendText, StaysSynced, EndsUnmended, mended_line, mend_ending, new_form};
ghost use Rattle.tdb_answer.specs.Commands.Restore.{of_input};
ghost use Rattle.tdb_answer.specs.Commands.Rewriting.{made_form, IsNotWritten, IsWrittenAnew, HoldsAnew, NotWrittenTo, EndsUnwritten, anew_ending};
ghost use Rattle.tdb_answer.specs.Ending.{CountedBy};
ghost use Rattle.tdb_answer.specs.Looks.{ending_of, Began, StandsBefore};
ghost use Rattle.tdb_disk.specs.declared.files.Take.TheVariants as Way;

use crate::commands::rewriting::set_sequence;
use crate::ending::{Ending, Reply, Unprinted};
use itoa::Buffer;
use std::alloc::{AllocError, Global};
use tdb_backup::CopyRefusal;
use tdb_disk::{Disk, Files, Sink, Take};
use tdb_mend::{MendedFile, MendedView, find_database};
use tdb_open::{Halt, LONGEST_FILE, NewForm, Refusal, make};
use tdb_rewrite::rewrite;
use tdb_space::Direct;
use tdb_words::Bytes;

/// What the file on a disk is read as, unless it is longer than the longest.
fn read_damaged<D: Disk>(alloc: Global, disk: &mut D) -> Result<MendedFile, Halt>
    ensures can_mend { OnOk result (IsTrue D.tells → CanMend (seen (D.history disk.old))) }
    ensures read { IfOk result (λ m. IsTrue D.tells → IsReadAs m (seen (D.history disk.old))) }
    ensures chains { IfOk result (λ m. 0 < (mended_header m).hash_size) }
    ensures length { IfOk result (λ m. file_length m ≡ D.size disk.old) }
    ensures most { IfOk result (λ m. file_length m ≤ 4294963200) }
    ensures refused { IfErr result (λ halt. IsTrue D.tells → MendHalts (seen (D.history disk.old)) halt) }
    ensures no_log { IfErr result (λ halt. halt ≢ Log) }
    ensures tried { Tried synced (D.history disk.old) (D.history disk.new) }
    ensures size { D.size disk.new ≡ D.size disk.old }
    ensures cause { HasCauseOf Device (D.faults disk.old) (D.faults disk.new) result }
{
    let len = disk.len()?;
    if len > LONGEST_FILE {
        return Err(Halt::Refused {
            refusal: Refusal::TooLong { len },
        });
    }
    let database = find_database(disk)?;
    let file = tdb_mend::mend(alloc, disk, &database)?;
    Ok(file)
}

/// Adds the pairs of a mended file on a disk to a new file on another one, of this form.
fn add_mended<D: Disk>(
    alloc: Global,
    from: &mut D,
    damaged: &mut MendedFile,
    to: &mut D,
    form: NewForm,
) -> Result<(), CopyRefusal>
    requires sized { D.size from.old ≡ file_length damaged.old }
    requires read { IsTrue D.tells → IsReadAs damaged.old (seen (D.history from.old)) }
    requires some { 0 < form.size }
    requires short { IsTrue D.tells → 172 + 4 * form.size < 2 ^ 32 }
    requires new { IsTrue D.tells → IsNewFile form.size form.order form.hash (seen (D.history to.old)) }
    ensures rewritten { OnOk result (IsTrue D.tells → let img = seen (D.history from.old) in Rewritten (made_form form) (seen (D.history to.new)) (chosen [] (order_of (new_form img) (mended img)))) }
    ensures refused { IfErr result (λ e. IsTrue D.tells → IsNotWritten (mended (seen (D.history from.old))) [] (made_form form) 4294963200 e) }
    ensures grows { D.size to.old ≤ D.size to.new }
    ensures kept { D.history from.new ≡ D.history from.old }
    ensures read_cause { HasCauseOf ReadFails (D.faults from.old) (D.faults from.new) result }
    ensures write_cause { HasCauseOf WriteFails (D.faults to.old) (D.faults to.new) result }
{
    let mut source = MendedView::new(damaged, from);
    let mut copy = Direct::new(to, &form.header());
    rewrite(alloc, &mut source, &mut copy, b"", LONGEST_FILE)
}

/// Writes a mended file on a disk to another disk, which is empty: a new file of this form with its pairs. The new one
/// gets this sequence number, and is synced.
fn write_mended<D: Disk>(
    alloc: Global,
    from: &mut D,
    damaged: &mut MendedFile,
    to: &mut D,
    form: NewForm,
    number: u32,
) -> Result<(), CopyRefusal>
    requires sized { D.size from.old ≡ file_length damaged.old }
    requires read { IsTrue D.tells → IsReadAs damaged.old (seen (D.history from.old)) }
    requires number { IsTrue D.tells → number ≡ sequence_of (mended (seen (D.history from.old))) }
    requires some { 0 < form.size }
    requires short { IsTrue D.tells → 172 + 4 * form.size < 2 ^ 32 }
    requires empty { D.size to.old ≡ 0 }
    ensures written { OnOk result (IsTrue D.tells → IsWrittenAnew (mended (seen (D.history from.old))) [] (made_form form) (D.history to.new)) }
    ensures refused { IfErr result (λ e. IsTrue D.tells → IsNotWritten (mended (seen (D.history from.old))) [] (made_form form) 4294963200 e) }
    ensures kept { D.history from.new ≡ D.history from.old }
    ensures read_cause { HasCauseOf ReadFails (D.faults from.old) (D.faults from.new) result }
    ensures write_cause { HasCauseOf WriteFails (D.faults to.old) (D.faults to.new) result }
{
    let Ok(()) = make(to, form) else {
        return Err(CopyRefusal::Write);
    };
    add_mended(alloc, from, damaged, to, form)?;
    match set_sequence(to, number, form.order) {
        Ok(()) => Ok(()),
        Err(_) => Err(CopyRefusal::Write),
    }
}

/// Writes a mended file on a disk to an empty one, which was taken at this name, and gives that back. Where it isn't
/// written to its end and no call failed, it is removed.
fn write_mended_to<F: Files>(
    alloc: Global,
    from: &mut F::D,
    damaged: &mut MendedFile,
    to: F::D,
    form: NewForm,
    number: u32,
    name: &str,
    files: &mut F,
) -> Result<(), Ending>
    requires sized { F.D.size from.old ≡ file_length damaged.old }
    requires read { IsTrue F.D.tells → IsReadAs damaged.old (seen (F.D.history from.old)) }
    requires number { IsTrue F.D.tells → number ≡ sequence_of (mended (seen (F.D.history from.old))) }
    requires some { 0 < form.size }
    requires short { IsTrue F.D.tells → 172 + 4 * form.size < 2 ^ 32 }
    requires empty { F.D.size to ≡ 0 }
    requires sound { F.D.faults to ≡ 0 }
    requires taken { F.is_taken files.old name.now ≡ true }
    ensures written { OnOk result (IsTrue F.D.tells → HoldsAnew (mended (seen (F.D.history from.old))) [] (made_form form) (F.held files.new name.now)) }
    ensures refused { IfErr result (λ e. IsTrue F.D.tells → NotWrittenTo (mended (seen (F.D.history from.old))) [] (made_form form) 4294963200 e (F.held files.new name.now)) }
    ensures known { IfErr result EndsUnwritten }
    ensures kept { F.D.history from.new ≡ F.D.history from.old }
    ensures counted { CountedBoth (F.D.faults from.old) (F.D.faults from.new) (F.faults files.old) (F.faults files.new) (anew_ending result) }
    ensures others { SameBut name.now (F.held files.old) (F.held files.new) }
    ensures free { F.is_taken files.new name.now ≡ false }
    ensures taken_others { SameBut name.now (F.is_taken files.old) (F.is_taken files.new) }
{
    let mut to = to;
    let written = write_mended(alloc, from, damaged, &mut to, form, number);
    files.give(name, to);
    match written {
        Ok(()) => Ok(()),
        Err(CopyRefusal::Read | CopyRefusal::Write) => Err(Ending::DeviceFault),
        Err(refusal) => match files.remove(name) {
            Ok(()) => Err(Ending::from(refusal)),
            Err(_) => Err(Ending::DeviceFault),
        },
    }
}

/// Makes a new file of this name of a mended one on a disk, in its form. What stands at the name stays, and no file is
/// left that isn't whole, unless a call failed.
fn mend_to<F: Files>(
    alloc: Global,
    from: &mut F::D,
    damaged: &mut MendedFile,
    new: &str,
    files: &mut F,
) -> Result<(), Ending>
    requires sized { F.D.size from.old ≡ file_length damaged.old }
    requires can_mend { IsTrue F.D.tells → CanMend (seen (F.D.history from.old)) }
    requires read { IsTrue F.D.tells → IsReadAs damaged.old (seen (F.D.history from.old)) }
    requires chains { 0 < (mended_header damaged.old).hash_size }
    requires most { file_length damaged.old ≤ 4294963200 }
    requires free { F.is_taken files.old new.now ≡ false }
    requires take { F.may_take new.now Way.New }
    ensures made { OnOk result (IsTrue F.D.tells → IsMended (seen (F.D.history from.old)) (F.held files.old new.now) (F.held files.new new.now)) }
    ensures refused { IfErr result (λ e. IsTrue F.D.tells → MendLeft (seen (F.D.history from.old)) new.now (F.held files.old new.now) e (F.held files.new new.now)) }
    ensures known { IfErr result EndsUnmended }
    ensures kept { F.D.history from.new ≡ F.D.history from.old }
    ensures counted { CountedBoth (F.D.faults from.old) (F.D.faults from.new) (F.faults files.old) (F.faults files.new) (anew_ending result) }
    ensures others { SameBut new.now (F.held files.old) (F.held files.new) }
    ensures taken { (other : List ℕ) → F.is_taken files.new other ≡ F.is_taken files.old other }
{
    let header = damaged.header();
    let form = NewForm {
        size: header.hash_size,
        hash: header.hash,
        order: header.order,
    };
    let to = match files.take(alloc, new, Take::New) {
        Ok(disk) => disk,
        Err(refusal) => return Err(Ending::untaken(alloc, new, refusal)),
    };
    write_mended_to(alloc, from, damaged, to, form, header.sequence, new, files)
}

/// Mends the file on a disk in memory, makes a new one of it, and answers how many bytes were changed to read it.
fn mend_disk<F: Files>(
    alloc: Global,
    from: &mut F::D,
    new: &str,
    files: &mut F,
) -> Result<u64, Ending>
    requires free { F.is_taken files.old new.now ≡ false }
    requires take { F.may_take new.now Way.New }
    ensures made { OnOk result (IsTrue F.D.tells → IsMended (seen (F.D.history from.old)) (F.held files.old new.now) (F.held files.new new.now)) }
    ensures changed { IfOk result (λ n. IsTrue F.D.tells → n ≡ bytes_mended (seen (F.D.history from.old))) }
    ensures refused { IfErr result (λ e. IsTrue F.D.tells → MendLeft (seen (F.D.history from.old)) new.now (F.held files.old new.now) e (F.held files.new new.now)) }
    ensures known { IfErr result EndsUnmended }
    ensures tried { Tried synced (F.D.history from.old) (F.D.history from.new) }
    ensures counted { CountedBoth (F.D.faults from.old) (F.D.faults from.new) (F.faults files.old) (F.faults files.new) (mend_ending result) }
    ensures others { SameBut new.now (F.held files.old) (F.held files.new) }
    ensures taken { (other : List ℕ) → F.is_taken files.new other ≡ F.is_taken files.old other }
{
    match read_damaged(alloc, from) {
        Ok(read) => {
            let mut damaged = read;
            let changed = damaged.bytes_changed();
            match mend_to(alloc, from, &mut damaged, new, files) {
                Ok(()) => Ok(changed),
                Err(ending) => Err(ending),
            }
        }
        Err(halt) => Err(Ending::from(halt)),
    }
}

/// Mends the file of this name in memory, makes a new one of it, and answers how many bytes were changed to read it.
fn mend_file<F: Files>(alloc: Global, file: &str, new: &str, files: &mut F) -> Result<u64, Ending>
    requires differ { new.now ≢ file.now }
    requires free { (other : List ℕ) → F.is_taken files.old other ≡ false }
    requires take_file { F.may_take file.now Way.ReadOnly }
    requires take_new { F.may_take new.now Way.New }
    ensures made { OnOk result (IsTrue F.D.tells → WasMended (F.held files.old file.now) (F.held files.old new.now) (F.held files.new new.now)) }
    ensures told { IfOk result (λ n. IsTrue F.D.tells → (e : EndingIs) (text : List ℕ) → StandsBefore (mended_line n) e text → MendText (F.held files.old file.now) e text) }
    ensures refused { IfErr result (λ e. IsTrue F.D.tells → MendLeaves file.now new.now (F.held files.old file.now) (F.held files.old new.now) e (F.held files.new new.now)) }
    ensures kept { IsTrue F.D.tells → StaysSynced (F.held files.old file.now) (F.held files.new file.now) }
    ensures known { IfErr result EndsUnmended }
    ensures counted { CountedBy (F.faults files.old) (F.faults files.new) (mend_ending result) }
    ensures others { (other : List ℕ) → other ≢ file.now → other ≢ new.now → F.held files.new other ≡ F.held files.old other }
    ensures given_back { (other : List ℕ) → F.is_taken files.new other ≡ false }
{
    let mut disk = match files.take(alloc, file, Take::ReadOnly) {
        Ok(disk) => disk,
        Err(refusal) => return Err(Ending::untaken(alloc, file, refusal)),
    };
    let mended = mend_disk(alloc, &mut disk, new, files);
    files.give(file, disk);
    mended
}

/// The line that tells how many bytes were changed to read a file.
fn line_of(alloc: Global, changed: u64) -> Result<Bytes, AllocError>
    ensures { IfOk result (λ line. line ≡ mended_line changed) }
{
    let mut line = Bytes::copy(alloc, b"mended ")?;
    line.push_all(Buffer::new().format(changed).as_bytes())?;
    line.push_all(b"\n")?;
    Ok(line)
}

/// Removes the new file of this name, where there is no memory for the line that tells of it.
fn untold<F: Files>(new: &str, files: &mut F) -> Ending
    requires free { (other : List ℕ) → F.is_taken files.old other ≡ false }
    ensures left { IsTrue F.D.tells → MendToldLeft (F.held files.old new.now) (Ok result) (F.held files.new new.now) }
    ensures known { (result ≡ WantsMemory) ⊎ (result ≡ DeviceFails) }
    ensures others { SameBut new.now (F.held files.old) (F.held files.new) }
    ensures given_back { (other : List ℕ) → F.is_taken files.new other ≡ false }
    ensures counted { CountedBy (F.faults files.old) (F.faults files.new) result }
{
    match files.remove(new) {
        Ok(()) => Ending::NoMemory,
        Err(_) => Ending::DeviceFault,
    }
}

/// Prints a line that tells of the new file of this name. Where the output fails the file is removed.
fn tell_line<F: Files, K: Sink>(
    line: &[u8],
    new: &str,
    files: &mut F,
    output: &mut K,
) -> Result<Ending, Unprinted>
    requires free { (other : List ℕ) → F.is_taken files.old other ≡ false }
    ensures left { IsTrue F.D.tells → MendToldLeft (F.held files.old new.now) result (F.held files.new new.now) }
    ensures asked { ending_of result ≢ Usage }
    ensures unread { of_input (ending_of result) ≡ false }
    ensures unlogged { ending_of result ≢ LogFault }
    ensures others { SameBut new.now (F.held files.old) (F.held files.new) }
    ensures given_back { (other : List ℕ) → F.is_taken files.new other ≡ false }
    ensures counted { CountedBy (F.faults files.old) (F.faults files.new) (ending_of result) }
    ensures began { IsTrue K.tells → Began (StandsBefore line.now) (K.written output.old) (K.written output.new) result }
    ensures output_cause { HasCause (K.faults output.old) (K.faults output.new) result }
{
    match output.write(line) {
        Ok(()) => Ok(Ending::Replied(Reply::Copied)),
        Err(_) => match files.remove(new) {
            Ok(()) => Err(Unprinted::Files),
            Err(_) => Err(Unprinted::Fault),
        },
    }
}

/// Prints how many bytes of a file were changed to read it. Where there is no memory for that, or the output fails, the
/// new file is removed.
fn tell_mended<F: Files, K: Sink>(
    alloc: Global,
    changed: u64,
    new: &str,
    files: &mut F,
    output: &mut K,
) -> Result<Ending, Unprinted>
    requires free { (other : List ℕ) → F.is_taken files.old other ≡ false }
    ensures left { IsTrue F.D.tells → MendToldLeft (F.held files.old new.now) result (F.held files.new new.now) }
    ensures asked { ending_of result ≢ Usage }
    ensures unread { of_input (ending_of result) ≡ false }
    ensures unlogged { ending_of result ≢ LogFault }
    ensures others { SameBut new.now (F.held files.old) (F.held files.new) }
    ensures given_back { (other : List ℕ) → F.is_taken files.new other ≡ false }
    ensures counted { CountedBy (F.faults files.old) (F.faults files.new) (ending_of result) }
    ensures began { IsTrue K.tells → Began (StandsBefore (mended_line changed)) (K.written output.old) (K.written output.new) result }
    ensures output_cause { HasCause (K.faults output.old) (K.faults output.new) result }
{
    match line_of(alloc, changed) {
        Ok(line) => tell_line(line.as_slice(), new, files, output),
        Err(_) => Ok(untold(new, files)),
    }
}

/// Makes a new file of what can be read of the file of this name, as the stock library would read it, and prints how
/// many bytes were changed to read it. The file stays as it is, byte for byte, and so does what stands at the name of
/// the new one. No log is told of it.
pub(crate) fn mend<F: Files, K: Sink>(
    alloc: Global,
    file: &str,
    new: &str,
    files: &mut F,
    output: &mut K,
) -> Result<Ending, Unprinted>
    requires differ { new.now ≢ file.now }
    requires free { (other : List ℕ) → F.is_taken files.old other ≡ false }
    requires take_file { F.may_take file.now Way.ReadOnly }
    requires take_new { F.may_take new.now Way.New }
    ensures left { IsTrue F.D.tells → MendLeaves file.now new.now (F.held files.old file.now) (F.held files.old new.now) (ending_of result) (F.held files.new new.now) }
    ensures kept { IsTrue F.D.tells → StaysSynced (F.held files.old file.now) (F.held files.new file.now) }
    ensures asked { ending_of result ≢ Usage }
    ensures unread { of_input (ending_of result) ≡ false }
    ensures unlogged { ending_of result ≢ LogFault }
    ensures counted { CountedBy (F.faults files.old) (F.faults files.new) (ending_of result) }
    ensures others { (other : List ℕ) → other ≢ file.now → other ≢ new.now → F.held files.new other ≡ F.held files.old other }
    ensures given_back { (other : List ℕ) → F.is_taken files.new other ≡ false }
    ensures began { IsTrue F.D.tells → IsTrue K.tells → Began (MendText (F.held files.old file.now)) (K.written output.old) (K.written output.new) result }
    ensures output_cause { HasCause (K.faults output.old) (K.faults output.new) result }
{
    match mend_file(alloc, file, new, files) {
        Ok(changed) => tell_mended(alloc, changed, new, files, output),
        Err(ending) => Ok(ending),
    }
}

/// Whether the file on a disk can be mended; None where that isn't known, since a call failed or memory was wanting.
fn look_damaged<D: Disk>(alloc: Global, disk: &mut D) -> Option<bool>
    ensures mends { IfSome result (λ b. IsTrue D.tells → MendsSo (seen (D.history disk.old)) b) }
    ensures tried { Tried synced (D.history disk.old) (D.history disk.new) }
{
    match read_damaged(alloc, disk) {
        Ok(_) => Some(true),
        Err(Halt::Refused { refusal: _ }) => Some(false),
        Err(_) => None,
    }
}

/// Whether the file of this name can be mended; None where that isn't known, since it isn't there, a call failed or
/// memory was wanting. The file stays as it is, byte for byte, and is synced.
pub fn can_be_mended<F: Files>(alloc: Global, file: &str, files: &mut F) -> Option<bool>
    requires free { (other : List ℕ) → F.is_taken files.old other ≡ false }
    requires take { F.may_take file.now Way.ReadOnly }
    ensures mends { IfSome result (λ b. IsTrue F.D.tells → (h : History) × (F.held files.old file.now ≡ Some h) × MendsSo (seen h) b) }
    ensures kept { IsTrue F.D.tells → StaysSynced (F.held files.old file.now) (F.held files.new file.now) }
    ensures others { SameBut file.now (F.held files.old) (F.held files.new) }
    ensures given_back { (other : List ℕ) → F.is_taken files.new other ≡ false }
{
    let mut disk = match files.take(alloc, file, Take::ReadOnly) {
        Ok(disk) => disk,
        Err(_) => return None,
    };
    let mends = look_damaged(alloc, &mut disk);
    files.give(file, disk);
    mends
}
