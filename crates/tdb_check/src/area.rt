// The undo area: where a file has one, and whether it can stand there.

ghost use Rattle.std.specs.Prelude.{◌≡◌, ◌+◌, ◌≤◌, ◌++◌, not, IsTrue, length, sum_by, OnOk, IfOk, IfErr, None, Some};
ghost use Rattle.tdb_disk.specs.Count.{HasCauseOf, RoseUpTo};
ghost use Rattle.tdb_space.specs.Form.{data_start};
ghost use Rattle.tdb_space.specs.Extents.{area};
ghost use Rattle.tdb_space.specs.FirstFault.{area_fault};
ghost use Rattle.tdb_check.specs.Seen.{Names};
ghost use Rattle.tdb_check.specs.Extent.{extents_seen};
ghost use Rattle.tdb_check.specs.Area.{is_out_at, header_area_fault, area_seen};
ghost use Rattle.tdb_space.specs.Frame.{Looked};
ghost use Rattle.tdb_check.specs.declared.refusal.CheckRefusal.TheVariants.{Io};

use crate::extent::Extent;
use crate::front::records_start;
use crate::refusal::CheckRefusal;
use std::alloc::AllocError;
use tdb_space::{Space, read_rec};
use tdb_words::{GATE_OPEN, GATE_SHUT, Rec, What, word_at};

/// Whether the header of a record can stand at an offset of a file of this length and of so many chains.
pub fn can_stand(at: u32, len: u64, chains: u32) -> bool
    ensures { result ≡ not (is_out_at chains len at) }
{
    !(at % 4 != 0 || (at as u64) < records_start(chains) || len < at as u64 + 24)
}

/// What is wrong with the undo area that has this header, if anything.
fn fault_in(at: u32, r: &Rec, len: u64) -> Option<(What, u64)>
    ensures { result ≡ header_area_fault r.now at len }
{
    let at = at as u64;
    let rec_len = r.rec_len as u64;
    if rec_len % 4 != 0 || len < at + 24 + rec_len {
        Some((What::AreaBad, at + 4))
    } else if r.magic == GATE_OPEN {
        Some((What::UndoBad, at + 20))
    } else if r.magic != GATE_SHUT {
        Some((What::AreaBad, at + 20))
    } else {
        None
    }
}

/// The undo area of a file of `len` bytes, if it has one, or what is wrong with it. An open gate is a fault here:
/// whatever the area holds has to be undone first. It reads 28 bytes.
pub fn read_area<S: Space>(s: &mut S, len: u64) -> Result<Option<Extent>, CheckRefusal>
    requires length { len ≡ S.size s.old }
    requires heads { data_start (S.form s.old) ≤ len }
    ensures sound { IfOk result (λ a. IsTrue S.tells → length (S.image s.old) ≡ len
        → (area_fault (S.form s.old) (S.image s.old) ≡ None) × (area_seen a ≡ area (S.form s.old).order (S.image s.old))) }
    ensures bad { IfErr result (λ e. IsTrue S.tells → length (S.image s.old) ≡ len
        → Names e (λ fault. area_fault (S.form s.old) (S.image s.old) ≡ Some fault)) }
    ensures bytes_read { RoseUpTo 28 (S.bytes_read s.old) (S.bytes_read s.new) }
    ensures looked { Looked S.Space s.old s.new }
    ensures cause { HasCauseOf Io (S.faults s.old) (S.faults s.new) result }
{
    let mut word = [0u8; 4];
    s.read(44, &mut word)?;
    let at = word_at(&word, s.order());
    if at == 0 {
        return Ok(None);
    }
    if !can_stand(at, len, s.hash_size()) {
        return Err(CheckRefusal::Corrupt {
            what: What::AreaBad,
            at: 44,
        });
    }
    let r = read_rec(s, at as u64)?;
    match fault_in(at, &r, len) {
        Some((what, at)) => Err(CheckRefusal::Corrupt { what, at }),
        None => Ok(Some(Extent {
            off: at,
            rec_len: r.rec_len,
        })),
    }
}

/// Puts the extent of the undo area at the end, where there is one.
pub(crate) fn put_area(extents: &mut Vec<Extent>, area: Option<Extent>) -> Result<(), AllocError>
    ensures { OnOk result (extents_seen extents.new.items ≡ extents_seen extents.old.items ++ area_seen area) }
{
    if let Some(e) = area {
        extents.push(e)?;
    }
    Ok(())
}

/// The length of the undo area with its header, in bytes, or 0 where there is none.
pub(crate) fn area_len(area: Option<Extent>) -> u64
    ensures { result ≡ sum_by (λ e. e.1) (area_seen area) }
{
    match area {
        Some(e) => 24 + e.rec_len as u64,
        None => 0,
    }
}
