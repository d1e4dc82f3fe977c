// The command that prints what can still be read of a file that may be damaged.

ghost use Rattle.std.specs.Prelude.{◌≡◌, ◌≢◌, ◌&&◌, ℕ, List, Some, false, IsTrue, IfOk, IfErr};
ghost use Rattle.tdb_disk.specs.Count.{HasCause, HasCauseOf};
ghost use Rattle.tdb_disk.specs.History.{seen};
ghost use Rattle.tdb_disk.specs.Names.{SameBut};
ghost use Rattle.tdb_words.specs.Header.{header_at};
ghost use Rattle.tdb_space.specs.Form.{form_in};
ghost use Rattle.tdb_rescue.specs.Text.{rescued_text};
ghost use Rattle.tdb_cmdline.specs.declared.ask.Task.TheVariants.{Rescue};
ghost use Rattle.tdb_open.specs.declared.halt.Halt.TheVariants.{Device};
ghost use Rattle.tdb_answer.specs.declared.ending.Ending.TheVariants.{Usage, LogFault};
ghost use Rattle.tdb_answer.specs.Commands.Print.{PrintEnds};
ghost use Rattle.tdb_answer.specs.Commands.Rescue.{CanRescue, RescueHalts, RescueEnds, RescueText};
ghost use Rattle.tdb_answer.specs.Commands.Restore.{of_input};
ghost use Rattle.tdb_answer.specs.Ending.{TaskCause, CountedBy};
ghost use Rattle.tdb_answer.specs.Looks.{StandsBefore, ending_of, Began};
ghost use Rattle.tdb_disk.specs.declared.files.Take.TheVariants as Way;

use crate::ending::{Ending, Reply, Unprinted};
use std::alloc::Global;
use tdb_disk::{Disk, Files, Sink, Take};
use tdb_open::{Halt, LONGEST_FILE, Refusal};
use tdb_rescue::{RescueRefusal, rescue};
use tdb_space::Direct;
use tdb_words::{Header, What, header_of};

/// What the header of the file on a disk says. The file is refused where it is too long or too short for a header, or
/// where its header has a fault. Nothing else is tested.
fn read_header<D: Disk>(disk: &mut D) -> Result<Header, Halt>
    ensures header { IfOk result (λ h. IsTrue D.tells → CanRescue (seen (D.history disk.old)) × (h ≡ header_at (seen (D.history disk.old)))) }
    ensures refused { IfErr result (λ halt. IsTrue D.tells → RescueHalts (seen (D.history disk.old)) halt) }
    ensures history { D.history disk.new ≡ D.history disk.old }
    ensures cause { HasCauseOf Device (D.faults disk.old) (D.faults disk.new) result }
{
    let len = disk.len()?;
    if len > LONGEST_FILE {
        return Err(Halt::Refused {
            refusal: Refusal::TooLong { len },
        });
    }
    if len < 168 {
        return Err(Halt::Refused {
            refusal: Refusal::Corrupt {
                what: What::Short,
                at: len,
            },
        });
    }
    let mut bytes = [0u8; 168];
    disk.read(0, &mut bytes)?;
    match header_of(&bytes) {
        Ok(header) => Ok(header),
        Err(fault) => Err(Halt::Refused {
            refusal: Refusal::Header { fault },
        }),
    }
}

/// Prints what can be read of the file on a disk, whose header says this.
fn print_rescued<D: Disk, K: Sink>(
    alloc: Global,
    disk: &mut D,
    header: &Header,
    output: &mut K,
) -> Result<Ending, Unprinted>
    ensures ends { PrintEnds (ending_of result) }
    ensures history { D.history disk.new ≡ D.history disk.old }
    ensures counted { CountedBy (D.faults disk.old) (D.faults disk.new) (ending_of result) }
    ensures began { IsTrue D.tells → IsTrue K.tells → Began (StandsBefore (rescued_text (form_in header.now) (seen (D.history disk.old)))) (K.written output.old) (K.written output.new) result }
    ensures output_cause { HasCause (K.faults output.old) (K.faults output.new) result }
    ensures asked { ending_of result ≡ Usage → ⊥ }
    ensures unread { of_input (ending_of result) ≡ false }
{
    let mut space = Direct::new(disk, header);
    match rescue(alloc, &mut space, output) {
        Ok(_) => Ok(Ending::Replied(Reply::Dumped)),
        Err(RescueRefusal::Io) => Ok(Ending::DeviceFault),
        Err(RescueRefusal::Memory) => Ok(Ending::NoMemory),
        Err(RescueRefusal::OutFailed) => Err(Unprinted::Pairs),
    }
}

/// Tests the header of the file on a disk, and prints what can be read of the file.
fn rescue_on_disk<D: Disk, K: Sink>(
    alloc: Global,
    disk: &mut D,
    output: &mut K,
) -> Result<Ending, Unprinted>
    ensures ends { IsTrue D.tells → RescueEnds (seen (D.history disk.old)) (ending_of result) }
    ensures history { D.history disk.new ≡ D.history disk.old }
    ensures counted { CountedBy (D.faults disk.old) (D.faults disk.new) (ending_of result) }
    ensures began { IsTrue D.tells → IsTrue K.tells → Began (RescueText (Some (D.history disk.old))) (K.written output.old) (K.written output.new) result }
    ensures output_cause { HasCause (K.faults output.old) (K.faults output.new) result }
    ensures asked { ending_of result ≡ Usage → ⊥ }
    ensures unread { of_input (ending_of result) ≡ false }
{
    match read_header(disk) {
        Ok(header) => print_rescued(alloc, disk, &header, output),
        Err(halt) => Ok(Ending::from(halt)),
    }
}

/// Prints what can be read of the file of this name, which stays as it is. No log is told of it.
pub(crate) fn rescue_on_file<F: Files, K: Sink>(
    alloc: Global,
    name: &str,
    files: &mut F,
    output: &mut K,
) -> Result<Ending, Unprinted>
    requires free { (other : List ℕ) → F.is_taken files.old other ≡ false }
    requires take { F.may_take name.now Way.ReadOnly }
    ensures cause { IsTrue F.D.tells → TaskCause Rescue name.now (F.held files.old name.now) (F.faults files.old) (F.faults files.new) (ending_of result) }
    ensures left { IsTrue F.D.tells → F.held files.new name.now ≡ F.held files.old name.now }
    ensures others { SameBut name.now (F.held files.old) (F.held files.new) }
    ensures given_back { (other : List ℕ) → F.is_taken files.new other ≡ false }
    ensures counted { CountedBy (F.faults files.old) (F.faults files.new) (ending_of result) }
    ensures began { IsTrue (K.tells && F.D.tells) → Began (RescueText (F.held files.old name.now)) (K.written output.old) (K.written output.new) result }
    ensures output_cause { HasCause (K.faults output.old) (K.faults output.new) result }
    ensures asked { ending_of result ≡ Usage → ⊥ }
    ensures unread { of_input (ending_of result) ≡ false }
    ensures unlogged { IsTrue F.D.tells → ending_of result ≢ LogFault }
{
    match files.take(alloc, name, Take::ReadOnly) {
        Ok(mut disk) => {
            let printed = rescue_on_disk(alloc, &mut disk, output);
            files.give(name, disk);
            printed
        }
        Err(refusal) => Ok(Ending::untaken(alloc, name, refusal)),
    }
}
