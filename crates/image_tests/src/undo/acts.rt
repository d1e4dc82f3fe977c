// What is done to a file with an undo area.

ghost use Rattle.std.specs.Prelude.{◌≡◌, ◌%◌, ◌≤◌, ◌<◌};

use small_file::HEADER;
use std::alloc::Global;
use tdb_disk::Disk;
use tdb_undo::{
    Runs, UndoRefusal, ensure, needs_recovery, open_gate, put_content, recover, shut_gate,
};

pub(crate) enum Act {
    /// Looks whether the file needs recovery, which is answered by 1, and else by 0.
    Look,
    /// Recovers the file, which is answered by how many bytes were put back.
    Recover,
    /// Shuts the gate and opens it again.
    SetGate,
    /// Replaces the undo area by one at the end of the file with room for so many words.
    Place(u16),
    /// Fills the undo area with the sequence number and the value.
    Fill,
}

/// What an act on a file of this length answers.
fn acted<D: Disk>(d: &mut D, act: &Act, len: u64, runs: &Runs) -> Result<u64, UndoRefusal>
    requires long { len ≡ D.size d.old }
    requires heads { 48 ≤ len }
    requires aligned { len % 4 ≡ 0 }
    requires short { len < 1048576 }
{
    match act {
        Act::Look => return Ok(u64::from(needs_recovery(d, &HEADER)?)),
        Act::Recover => return recover(d, &HEADER),
        Act::SetGate => {
            shut_gate(d, &HEADER)?;
            open_gate(d, &HEADER)?;
        }
        Act::Place(words) => ensure(d, &HEADER, 4 * u32::from(*words), len)?,
        Act::Fill => put_content(d, &HEADER, 4096, runs)?,
    }
    Ok(0)
}

/// What an act on a file answers. None where the length of the file is none for it or isn't told, or memory is wanting.
pub(crate) fn act_on<D: Disk>(
    alloc: Global,
    d: &mut D,
    act: &Act,
) -> Option<Result<u64, UndoRefusal>> {
    let len = d.len().ok()?;
    if len < 48 || len >= 1 << 20 || len % 4 != 0 {
        return None;
    }
    let mut runs = Runs::new(alloc);
    runs.push((48, 4)).ok()?;
    runs.push((4089, 1)).ok()?;
    Some(acted(d, act, len, &runs))
}
