// The opening of a file: an unfinished change is undone, and no file is used before the whole of it is checked.

ghost use Rattle.std.specs.Prelude.{◌≡◌, ◌≢◌, ◌+◌, ◌*◌, ◌<◌, ◌≤◌, true, length, IsTrue, IfOk, IfErr, OnOk};
ghost use Rattle.tdb_disk.specs.Count.{HasCauseOf};
ghost use Rattle.tdb_disk.specs.History.{seen};
ghost use Rattle.tdb_space.specs.Form.{form_in};
ghost use Rattle.tdb_space.specs.Accepted.{Accept};
ghost use Rattle.tdb_space.specs.FirstFault.{IsFirstFault};
ghost use Rattle.tdb_check.specs.declared.refusal.CheckRefusal.TheVariants.{Io};
ghost use Rattle.tdb_check.specs.Seen.{Names};
ghost use Rattle.tdb_check.specs.Report.{IsFormOf, Counted};

use crate::halt::{Halt, Refusal};
use crate::limits::LONGEST_FILE;
use crate::verdict::tell_verdict;
use std::alloc::Global;
use tdb_check::{CheckRefusal, Report, check, read_front};
use tdb_disk::Disk;
use tdb_log::{Logs, Notice};
use tdb_space::Direct;
use tdb_undo::{needs_recovery, recover};
use tdb_words::Header;

/// What is known of a file that was opened.
#[derive(Clone, Copy, Debug)]
pub struct Opened {
    pub header: Header,

    /// The length of the file, in bytes.
    pub len: u64,

    /// What the check counted.
    pub report: Report,
    ghost some: { 0 < header.hash_size },
    ghost reaches: { 168 + 4 * (header.hash_size + 1) ≤ len },
}

/// Checks the whole file on a disk, whose header says this.
fn check_disk<D: Disk>(alloc: Global, disk: &mut D, header: &Header) -> Result<Report, CheckRefusal>
    requires { 0 < header.now.hash_size }
    ensures accepted { IfOk result (λ r. IsTrue D.tells → IsFormOf (form_in header.now) (seen (D.history disk.old)) → Accept (seen (D.history disk.old)) × Counted (seen (D.history disk.old)) r) }
    ensures first_fault { IfErr result (λ e. IsTrue D.tells → IsFormOf (form_in header.now) (seen (D.history disk.old)) → Names e (IsFirstFault (seen (D.history disk.old)))) }
    ensures size { D.size disk.new ≡ D.size disk.old }
    ensures history { D.history disk.new ≡ D.history disk.old }
    ensures cause { HasCauseOf Io (D.faults disk.old) (D.faults disk.new) result }
{
    let mut space = Direct::new(disk, header);
    check(alloc, &mut space)
}

impl Opened {
    ghost use Rattle.tdb_open.specs.declared.halt.Halt.TheVariants.{Device, Log};
    ghost use Rattle.tdb_open.specs.declared.limits.TheConstants.{LONGEST_FILE as LONGEST};
    ghost use Rattle.tdb_open.specs.Opening.{opened_bytes, CanRead, HasOpenGate, asks_for_undo, HaltsRightly, ReadHaltsRightly, HaltsAtFault, HaltLeaves, HaltsBelow, LeavesBelow, ReadHaltsBelow, UndoneIfOpen, IsOpenedOn, IsCheckedOn};
    ghost use Rattle.tdb_open.specs.Opening.{OpensSafely};
    ghost use Rattle.tdb_open.specs.Notices.{UndoHeard, OpeningHeard, ReadingHeard, BelowHeard, ReadingBelowHeard};

    /// Opens the file on a disk after it was undone: its header is read again, and the whole file is checked. It
    /// changes nothing.
    fn undone<D: Disk>(alloc: Global, disk: &mut D) -> Result<Opened, Halt>
        ensures checked { IfOk result (λ o. IsTrue D.tells → IsCheckedOn (seen (D.history disk.old)) o) }
        ensures length { IfOk result (λ o. o.len ≡ D.size disk.old) }
        ensures refused { IfErr result (λ halt. IsTrue D.tells → HaltsAtFault (seen (D.history disk.old)) halt) }
        ensures size { D.size disk.new ≡ D.size disk.old }
        ensures history { D.history disk.new ≡ D.history disk.old }
        ensures cause { HasCauseOf Device (D.faults disk.old) (D.faults disk.new) result }
    {
        let len = disk.len()?;
        let header = match read_front(disk) {
            Ok(header) => header,
            Err(front) => return Err(Halt::after_undo(front)),
        };
        let report = check_disk(alloc, disk, &header)?;
        Ok(Opened {
            header,
            len,
            report,
        })
    }

    /// Opens the file on a disk as it is. It tests the length, then the header and the place of the undo area, and then
    /// checks the whole file. Where the gate of the undo area is open the file is refused. It changes nothing.
    fn inspect<D: Disk>(alloc: Global, disk: &mut D) -> Result<Opened, Halt>
        ensures can_read { IfOk result (λ o. IsTrue D.tells → CanRead (seen (D.history disk.old))) }
        ensures checked { IfOk result (λ o. IsTrue D.tells → IsCheckedOn (seen (D.history disk.old)) o) }
        ensures length { IfOk result (λ o. o.len ≡ D.size disk.old) }
        ensures refused { IfErr result (λ halt. IsTrue D.tells → ReadHaltsRightly (seen (D.history disk.old)) halt) }
        ensures size { D.size disk.new ≡ D.size disk.old }
        ensures history { D.history disk.new ≡ D.history disk.old }
        ensures short { IfErr result (λ halt. asks_for_undo halt ≡ true → D.size disk.old ≤ LONGEST) }
        ensures no_log { IfErr result (λ halt. halt ≢ Log) }
        ensures cause { HasCauseOf Device (D.faults disk.old) (D.faults disk.new) result }
    {
        let len = disk.len()?;
        if len > LONGEST_FILE {
            return Err(Halt::Refused {
                refusal: Refusal::TooLong { len },
            });
        }
        let header = read_front(disk)?;
        if needs_recovery(disk, &header)? {
            return Err(Halt::Refused {
                refusal: Refusal::NeedsRecovery,
            });
        }
        let report = check_disk(alloc, disk, &header)?;
        Ok(Opened {
            header,
            len,
            report,
        })
    }

    /// Undoes what the undo area of the file on a disk keeps, whose gate is open, tells the last log how many bytes
    /// were put back, and opens it then.
    fn recovered<D: Disk, L: Logs>(
        alloc: Global,
        disk: &mut D,
        logs: &mut L,
    ) -> Result<Opened, Halt>
        requires short { D.size disk.old ≤ LONGEST }
        requires gate { IsTrue D.tells → HasOpenGate (seen (D.history disk.old)) }
        ensures opened { IfOk result (λ o. IsTrue D.tells → IsOpenedOn (seen (D.history disk.old)) o) }
        ensures checked { IfOk result (λ o. IsTrue D.tells → IsCheckedOn (seen (D.history disk.new)) o) }
        ensures length { IfOk result (λ o. o.len ≡ D.size disk.new) }
        ensures reads { OnOk result (IsTrue D.tells → seen (D.history disk.new) ≡ opened_bytes (seen (D.history disk.old))) }
        ensures left { OnOk result (IsTrue D.tells → UndoneIfOpen (D.history disk.old) (D.history disk.new)) }
        ensures refused { IfErr result (λ halt. IsTrue D.tells → HaltsRightly (seen (D.history disk.old)) halt) }
        ensures halted { IfErr result (λ halt. IsTrue D.tells → HaltLeaves halt (D.history disk.old) (D.history disk.new)) }
        ensures stops { IsTrue D.tells → OpensSafely (D.history disk.old) (D.history disk.new) }
        ensures heard { IsTrue D.tells → UndoHeard (seen (D.history disk.old)) (L.logs logs.old) (L.logs logs.new) result }
        ensures cause { HasCauseOf Device (D.faults disk.old) (D.faults disk.new) result }
    {
        let header = read_front(disk)?;
        let bytes = recover(disk, &header)?;
        logs.note(&Notice::Recovered { bytes })?;
        Opened::undone(alloc, disk)
    }

    /// Opens the file on a disk, and undoes what the undo area keeps first, where its gate is open. The last log is
    /// told of the undo alone.
    fn found<D: Disk, L: Logs>(alloc: Global, disk: &mut D, logs: &mut L) -> Result<Opened, Halt>
        ensures opened { IfOk result (λ o. IsTrue D.tells → IsOpenedOn (seen (D.history disk.old)) o) }
        ensures checked { IfOk result (λ o. IsTrue D.tells → IsCheckedOn (seen (D.history disk.new)) o) }
        ensures length { IfOk result (λ o. o.len ≡ D.size disk.new) }
        ensures reads { OnOk result (IsTrue D.tells → seen (D.history disk.new) ≡ opened_bytes (seen (D.history disk.old))) }
        ensures left { OnOk result (IsTrue D.tells → UndoneIfOpen (D.history disk.old) (D.history disk.new)) }
        ensures refused { IfErr result (λ halt. IsTrue D.tells → HaltsRightly (seen (D.history disk.old)) halt) }
        ensures halted { IfErr result (λ halt. IsTrue D.tells → HaltLeaves halt (D.history disk.old) (D.history disk.new)) }
        ensures stops { IsTrue D.tells → OpensSafely (D.history disk.old) (D.history disk.new) }
        ensures heard { IsTrue D.tells → UndoHeard (seen (D.history disk.old)) (L.logs logs.old) (L.logs logs.new) result }
        ensures cause { HasCauseOf Device (D.faults disk.old) (D.faults disk.new) result }
    {
        let halt = match Opened::inspect(alloc, disk) {
            Ok(opened) => return Ok(opened),
            Err(halt) => halt,
        };
        if halt.asks_for_undo() {
            return Opened::recovered(alloc, disk, logs);
        }
        Err(halt)
    }

    /// Opens the file on a disk to read it alone. It tests the length, then the header and the place of the undo area,
    /// and then checks the whole file. Where the gate of the undo area is open the file is refused. It changes
    /// nothing. The last log is told what the check counted, or the fault for which the file is refused; where it
    /// refuses that, its refusal is the answer. The memory that it takes is that of the check and of the log.
    pub fn open_to_read<D: Disk, L: Logs>(
        alloc: Global,
        disk: &mut D,
        logs: &mut L,
    ) -> Result<Opened, Halt>
        ensures can_read { IfOk result (λ o. IsTrue D.tells → CanRead (seen (D.history disk.old))) }
        ensures checked { IfOk result (λ o. IsTrue D.tells → IsCheckedOn (seen (D.history disk.old)) o) }
        ensures length { IfOk result (λ o. o.len ≡ D.size disk.old) }
        ensures refused { IfErr result (λ halt. IsTrue D.tells → ReadHaltsRightly (seen (D.history disk.old)) halt) }
        ensures size { D.size disk.new ≡ D.size disk.old }
        ensures history { D.history disk.new ≡ D.history disk.old }
        ensures short { IfErr result (λ halt. asks_for_undo halt ≡ true → D.size disk.old ≤ LONGEST) }
        ensures heard { IsTrue D.tells → ReadingHeard (seen (D.history disk.old)) (L.logs logs.old) (L.logs logs.new) result }
        ensures cause { HasCauseOf Device (D.faults disk.old) (D.faults disk.new) result }
    {
        let answer = Opened::inspect(alloc, disk);
        tell_verdict(logs, &answer)?;
        answer
    }

    /// Opens the file on a disk. It tests the length and then the header, undoes what the undo area keeps where its
    /// gate is open, and then checks the whole file. Where nothing has to be undone it changes nothing. The last log is
    /// told of the undo, and then what the check counted, or the fault for which the file is refused; where it refuses
    /// one of these, its refusal is the answer. The memory that it takes is that of the check and of the log.
    pub fn open<D: Disk, L: Logs>(alloc: Global, disk: &mut D, logs: &mut L) -> Result<Opened, Halt>
        ensures opened { IfOk result (λ o. IsTrue D.tells → IsOpenedOn (seen (D.history disk.old)) o) }
        ensures checked { IfOk result (λ o. IsTrue D.tells → IsCheckedOn (seen (D.history disk.new)) o) }
        ensures length { IfOk result (λ o. o.len ≡ D.size disk.new) }
        ensures reads { OnOk result (IsTrue D.tells → seen (D.history disk.new) ≡ opened_bytes (seen (D.history disk.old))) }
        ensures left { OnOk result (IsTrue D.tells → UndoneIfOpen (D.history disk.old) (D.history disk.new)) }
        ensures refused { IfErr result (λ halt. IsTrue D.tells → HaltsRightly (seen (D.history disk.old)) halt) }
        ensures halted { IfErr result (λ halt. IsTrue D.tells → HaltLeaves halt (D.history disk.old) (D.history disk.new)) }
        ensures stops { IsTrue D.tells → OpensSafely (D.history disk.old) (D.history disk.new) }
        ensures heard { IsTrue D.tells → OpeningHeard (seen (D.history disk.old)) (L.logs logs.old) (L.logs logs.new) result }
        ensures cause { HasCauseOf Device (D.faults disk.old) (D.faults disk.new) result }
    {
        let answer = Opened::found(alloc, disk, logs);
        tell_verdict(logs, &answer)?;
        answer
    }

    /// Opens it so unless it has more than so many bytes, and then leaves it as it is and tells no log.
    pub fn open_below<D: Disk, L: Logs>(
        alloc: Global,
        disk: &mut D,
        limit: u64,
        logs: &mut L,
    ) -> Result<Opened, Halt>
        ensures within { OnOk result (IsTrue D.tells → length (seen (D.history disk.old)) ≤ limit) }
        ensures opened { IfOk result (λ o. IsTrue D.tells → IsOpenedOn (seen (D.history disk.old)) o) }
        ensures checked { IfOk result (λ o. IsTrue D.tells → IsCheckedOn (seen (D.history disk.new)) o) }
        ensures length { IfOk result (λ o. o.len ≡ D.size disk.new) }
        ensures reads { OnOk result (IsTrue D.tells → seen (D.history disk.new) ≡ opened_bytes (seen (D.history disk.old))) }
        ensures left { OnOk result (IsTrue D.tells → UndoneIfOpen (D.history disk.old) (D.history disk.new)) }
        ensures refused { IfErr result (λ halt. IsTrue D.tells → HaltsBelow limit (seen (D.history disk.old)) halt) }
        ensures halted { IfErr result (λ halt. IsTrue D.tells → LeavesBelow limit halt (D.history disk.old) (D.history disk.new)) }
        ensures heard { IsTrue D.tells → BelowHeard limit (seen (D.history disk.old)) (L.logs logs.old) (L.logs logs.new) result }
        ensures cause { HasCauseOf Device (D.faults disk.old) (D.faults disk.new) result }
    {
        let len = disk.len()?;
        if len > limit {
            return Err(Halt::Refused {
                refusal: Refusal::TooLong { len },
            });
        }
        Opened::open(alloc, disk, logs)
    }

    /// Opens it as `open_to_read` does unless it has more than so many bytes, and then tells no log.
    pub fn open_to_read_below<D: Disk, L: Logs>(
        alloc: Global,
        disk: &mut D,
        limit: u64,
        logs: &mut L,
    ) -> Result<Opened, Halt>
        ensures within { OnOk result (IsTrue D.tells → length (seen (D.history disk.old)) ≤ limit) }
        ensures can_read { IfOk result (λ o. IsTrue D.tells → CanRead (seen (D.history disk.old))) }
        ensures checked { IfOk result (λ o. IsTrue D.tells → IsCheckedOn (seen (D.history disk.old)) o) }
        ensures refused { IfErr result (λ halt. IsTrue D.tells → ReadHaltsBelow limit (seen (D.history disk.old)) halt) }
        ensures history { D.history disk.new ≡ D.history disk.old }
        ensures heard { IsTrue D.tells → ReadingBelowHeard limit (seen (D.history disk.old)) (L.logs logs.old) (L.logs logs.new) result }
        ensures cause { HasCauseOf Device (D.faults disk.old) (D.faults disk.new) result }
    {
        let len = disk.len()?;
        if len > limit {
            return Err(Halt::Refused {
                refusal: Refusal::TooLong { len },
            });
        }
        Opened::open_to_read(alloc, disk, logs)
    }
}
