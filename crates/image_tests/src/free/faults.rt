// Calls that fail in gives, in takes and in walks along free lists.

use crate::files::disk_of;
use crate::free::files::{File, MOST, Step, answer, bytes_of, has_list};
use crate::free::giving::LIST;
use crate::free::taking::{NEW, THREE};
use std::alloc::{AllocError, Global};
use tdb_disk::Call;
use tdb_free::{FreeRefusal, ListRefusal};
use tdb_words::USED;

/// The file with a list where no free record stands beside the one from 272 to 304.
const ALONE: File = File {
    later: &[(168, 176), (324, USED), (260, USED)],
    ..LIST
};

/// A file, a step, or a walk along the free list, and how many calls of a kind that makes at least, each of which is
/// answered where it fails.
type Fault = (&'static File, Option<Step>, Call, u64);

// A take reads the head and the headers up to the record, whose front is written in two parts.
static FAULTS: [(&'static str, Fault); 13] = [
    (
        "reads between free records",
        (&LIST, Some(Step::Give((208, 8))), Call::Read, 9),
    ),
    (
        "writes between free records",
        (&LIST, Some(Step::Give((208, 8))), Call::Write, 2),
    ),
    (
        "words between free records",
        (&LIST, Some(Step::Give((208, 8))), Call::WriteWord, 3),
    ),
    (
        "reads beside none",
        (&ALONE, Some(Step::Give((272, 8))), Call::Read, 4),
    ),
    (
        "writes beside none",
        (&ALONE, Some(Step::Give((272, 8))), Call::Write, 2),
    ),
    (
        "words beside none",
        (&ALONE, Some(Step::Give((272, 8))), Call::WriteWord, 1),
    ),
    (
        "reads of a growth",
        (&NEW, Some(Step::Take(8, MOST)), Call::Read, 5),
    ),
    (
        "the growth",
        (&NEW, Some(Step::Take(8, MOST)), Call::Grow, 1),
    ),
    (
        "writes of a growth",
        (&NEW, Some(Step::Take(8, MOST)), Call::Write, 4),
    ),
    (
        "words of a growth",
        (&NEW, Some(Step::Take(8, MOST)), Call::WriteWord, 1),
    ),
    (
        "reads of a take",
        (&THREE, Some(Step::TakeFit(40)), Call::Read, 3),
    ),
    (
        "writes of a take",
        (&THREE, Some(Step::TakeFit(40)), Call::Write, 2),
    ),
    ("reads of a list", (&THREE, None, Call::Read, 4)),
];

/// Whether each of so many calls ends a step, or a walk along the list, where it fails.
fn fault_holds(alloc: Global, row: &Fault) -> Result<bool, AllocError> {
    let (file, step, call, count) = row;
    let bytes = bytes_of(alloc, file)?;
    for nth in 0..*count {
        let mut disk = disk_of(alloc, &bytes, Some((*call, nth)))?;
        let is_told = match step {
            Some(step) => answer(&mut disk, &file.header, step) == Some(Err(FreeRefusal::Io)),
            None => has_list(alloc, &mut disk, &file.header, &[]) == Err(ListRefusal::Io),
        };
        if !is_told {
            return Ok(false);
        }
    }
    Ok(true)
}

/// The first calls that don't end what makes them where they fail.
pub(crate) fn failing_fault(alloc: Global) -> Result<Option<&'static str>, AllocError> {
    for (name, row) in &FAULTS {
        if !fault_holds(alloc, row)? {
            return Ok(Some(*name));
        }
    }
    Ok(None)
}
