// A file is written anew from the pairs of an opened one.

ghost use Rattle.std.specs.Prelude.{◌≡◌, ◌<◌, ◌≤◌, ◌+◌, ◌*◌, ◌^◌, false, true, IsTrue, IfErr, OnOk};
ghost use Rattle.tdb_disk.specs.Count.{HasCause, HasCauseOf};
ghost use Rattle.tdb_disk.specs.History.{seen};
ghost use Rattle.tdb_disk.specs.Names.{SameBut};
ghost use Rattle.tdb_space.specs.Form.{form_of};
ghost use Rattle.tdb_space.specs.Pairs.{order_of};
ghost use Rattle.tdb_backup.specs.declared.refusal.CopyRefusal.TheVariants.{Read as ReadFails, Write as WriteFails};
ghost use Rattle.tdb_rewrite.specs.Rewritten.{Rewritten, chosen};
ghost use Rattle.tdb_open.specs.Creating.{IsNewFile};
ghost use Rattle.tdb_open.specs.Opening.{IsCheckedOn};
ghost use Rattle.tdb_answer.specs.Commands.Backup.{CountedBoth};
ghost use Rattle.tdb_answer.specs.Commands.Rewriting.{made_form, IsNotWritten, GotSequence, IsWrittenAnew, HoldsAnew, NotWrittenTo, EndsUnwritten, anew_ending};

use crate::ending::Ending;
use std::alloc::Global;
use tdb_backup::CopyRefusal;
use tdb_cmdline::NewFile;
use tdb_disk::{Disk, DiskFault, Files};
use tdb_open::{Opened, make};
use tdb_rewrite::rewrite;
use tdb_space::Direct;
use tdb_words::{Order, word_bytes};

/// The offset in bytes of the sequence number, a word of the header.
const SEQUENCE_AT: u64 = 48;

/// Adds the pairs of an opened file on a disk whose key begins with `prefix` to a new file on another one.
fn add_chosen<D: Disk>(
    alloc: Global,
    from: &mut D,
    opened: &Opened,
    to: &mut D,
    file: NewFile,
    prefix: &[u8],
) -> Result<(), CopyRefusal>
    requires opened { IsTrue D.tells → IsCheckedOn (seen (D.history from.old)) opened.now }
    requires some { 0 < file.form.size }
    requires limit { file.limit ≤ 4294963200 }
    requires short { IsTrue D.tells → 172 + 4 * file.form.size < 2 ^ 32 }
    requires new { IsTrue D.tells → IsNewFile file.form.size file.form.order file.form.hash (seen (D.history to.old)) }
    ensures rewritten { OnOk result (IsTrue D.tells → let img = seen (D.history from.old) in Rewritten (made_form file.form) (seen (D.history to.new)) (chosen prefix.now (order_of (form_of img) img))) }
    ensures refused { IfErr result (λ e. IsTrue D.tells → IsNotWritten (seen (D.history from.old)) prefix.now (made_form file.form) file.limit e) }
    ensures grows { D.size to.old ≤ D.size to.new }
    ensures kept { D.history from.new ≡ D.history from.old }
    ensures read_cause { HasCauseOf ReadFails (D.faults from.old) (D.faults from.new) result }
    ensures write_cause { HasCauseOf WriteFails (D.faults to.old) (D.faults to.new) result }
{
    let mut source = Direct::new(from, &opened.header);
    let mut copy = Direct::new(to, &file.form.header());
    rewrite(alloc, &mut source, &mut copy, prefix, file.limit)
}

/// Sets the sequence number of the file on a disk, whose words have this order, and syncs.
pub(crate) fn set_sequence<D: Disk>(
    disk: &mut D,
    number: u32,
    order: Order,
) -> Result<(), DiskFault>
    requires reaches { 52 ≤ D.size disk.old }
    ensures got { OnOk result (IsTrue D.tells → GotSequence order number (D.history disk.old) (D.history disk.new)) }
    ensures cause { HasCause (D.faults disk.old) (D.faults disk.new) result }
{
    disk.write_word(SEQUENCE_AT, word_bytes(number, order))?;
    disk.sync()
}

/// Writes an opened file on a disk anew to another disk, which is empty: a new file to which its pairs are added whose
/// key begins with `prefix`. The new one gets the sequence number of the opened one, and is synced.
fn write_anew<D: Disk>(
    alloc: Global,
    from: &mut D,
    opened: &Opened,
    to: &mut D,
    file: NewFile,
    prefix: &[u8],
) -> Result<(), CopyRefusal>
    requires opened { IsTrue D.tells → IsCheckedOn (seen (D.history from.old)) opened.now }
    requires some { 0 < file.form.size }
    requires limit { file.limit ≤ 4294963200 }
    requires short { IsTrue D.tells → 172 + 4 * file.form.size < 2 ^ 32 }
    requires empty { D.size to.old ≡ 0 }
    ensures written { OnOk result (IsTrue D.tells → IsWrittenAnew (seen (D.history from.old)) prefix.now (made_form file.form) (D.history to.new)) }
    ensures refused { IfErr result (λ e. IsTrue D.tells → IsNotWritten (seen (D.history from.old)) prefix.now (made_form file.form) file.limit e) }
    ensures kept { D.history from.new ≡ D.history from.old }
    ensures read_cause { HasCauseOf ReadFails (D.faults from.old) (D.faults from.new) result }
    ensures write_cause { HasCauseOf WriteFails (D.faults to.old) (D.faults to.new) result }
{
    let Ok(()) = make(to, file.form) else {
        return Err(CopyRefusal::Write);
    };
    add_chosen(alloc, from, opened, to, file, prefix)?;
    match set_sequence(to, opened.header.sequence, file.form.order) {
        Ok(()) => Ok(()),
        Err(_) => Err(CopyRefusal::Write),
    }
}

/// Writes an opened file on a disk anew to an empty one, which was taken at this name, and gives that back. Where it
/// isn't written to its end and no call failed, it is removed.
pub(crate) fn write_to<F: Files>(
    alloc: Global,
    from: &mut F::D,
    opened: &Opened,
    to: F::D,
    file: NewFile,
    prefix: &[u8],
    name: &str,
    files: &mut F,
) -> Result<(), Ending>
    requires opened { IsTrue F.D.tells → IsCheckedOn (seen (F.D.history from.old)) opened.now }
    requires some { 0 < file.form.size }
    requires limit { file.limit ≤ 4294963200 }
    requires short { IsTrue F.D.tells → 172 + 4 * file.form.size < 2 ^ 32 }
    requires empty { F.D.size to ≡ 0 }
    requires sound { F.D.faults to ≡ 0 }
    requires taken { F.is_taken files.old name.now ≡ true }
    ensures written { OnOk result (IsTrue F.D.tells → HoldsAnew (seen (F.D.history from.old)) prefix.now (made_form file.form) (F.held files.new name.now)) }
    ensures refused { IfErr result (λ e. IsTrue F.D.tells → NotWrittenTo (seen (F.D.history from.old)) prefix.now (made_form file.form) file.limit e (F.held files.new name.now)) }
    ensures known { IfErr result EndsUnwritten }
    ensures kept { F.D.history from.new ≡ F.D.history from.old }
    ensures counted { CountedBoth (F.D.faults from.old) (F.D.faults from.new) (F.faults files.old) (F.faults files.new) (anew_ending result) }
    ensures others { SameBut name.now (F.held files.old) (F.held files.new) }
    ensures free { F.is_taken files.new name.now ≡ false }
    ensures taken_others { SameBut name.now (F.is_taken files.old) (F.is_taken files.new) }
{
    let mut to = to;
    let written = write_anew(alloc, from, opened, &mut to, file, prefix);
    files.give(name, to);
    match written {
        Ok(()) => Ok(()),
        Err(CopyRefusal::Read | CopyRefusal::Write) => Err(Ending::DeviceFault),
        Err(refusal) => match files.remove(name) {
            Ok(()) => Err(Ending::from(refusal)),
            Err(_) => Err(Ending::DeviceFault),
        },
    }
}
