// A view of a damaged file is made what the file is read as, before its stray bytes are looked at.

ghost use Rattle.std.specs.Prelude.{◌≡◌, ◌+◌, ◌<◌, ◌≤◌, ℕ, nat_le, IsTrue, IfOk, IfErr, OnOk, None, Some, length, slice_index, take, if◌then◌else◌};
ghost use Rattle.tdb_disk.specs.Count.{HasCause, HasCauseOf};
ghost use Rattle.tdb_space.specs.Form.{form_of, data_start};
ghost use Rattle.tdb_space.specs.Frame.{Looked, Wrote};
ghost use Rattle.tdb_check.specs.Seen.{Names};
ghost use Rattle.tdb_check.specs.declared.refusal.CheckRefusal.TheVariants.{Io as DiskFailed};
ghost use Rattle.tdb_mend.specs.WideUndo.{wide_fault_at, widely_undone};
ghost use Rattle.tdb_mend.specs.Mended.{mend_fault, undone_as, read_as};
ghost use Rattle.tdb_mend.specs.Mutexes.{without_mutexes};
ghost use Rattle.tdb_mend.specs.Area.{area_of, wide_len_of, Stands};

use crate::area::{AREA_HEAD, AreaState, UndoArea, read_state};
use crate::copy_on_write::CopyOnWrite;
use crate::giving::give_back;
use crate::mutexes::{FEATURES, HEADER_LEN, database_at};
use tdb_check::CheckRefusal;
use tdb_space::{Io, Space};
use tdb_words::{GATE_SHUT, word_bytes};

/// The word at 44 as an undo leaves it: as it is where the area stays, and else 0.
fn area_head_left<S: Space>(s: &mut S, area: &UndoArea) -> Result<[u8; 4], Io>
    requires within { 48 ≤ S.size s.old }
    ensures four { IfOk result (λ bytes. length bytes ≡ 4) }
    ensures bytes { IfOk result (λ bytes. IsTrue S.tells → (k : ℕ) → k < 4
        → slice_index bytes k ≡ (if nat_le area.now.header.key_len area.now.at then 0 else slice_index (S.image s.old) (44 + k))) }
    ensures looked { Looked S.Space s.old s.new }
    ensures cause { HasCause (S.faults s.old) (S.faults s.new) result }
{
    if !area.stays() {
        return Ok(word_bytes(0, s.order()));
    }
    let mut bytes = [0u8; 4];
    s.read(AREA_HEAD, &mut bytes)?;
    Ok(bytes)
}

/// Undoes what an undo area keeps whose gate is open, in a view of `len` bytes. Answers how many of them are left. The
/// word at 44 leads to the area where that stays, and is 0 otherwise; its gate is shut.
fn undo_widely<S: CopyOnWrite>(s: &mut S, area: &UndoArea, len: u64) -> Result<u64, CheckRefusal>
    requires length { len ≡ S.size s.old }
    requires heads { data_start (S.form s.old) ≤ len }
    requires stands { Stands (data_start (S.form s.old)) len area.now }
    ensures left { IfOk result (λ left. left ≡ wide_len_of area.now) }
    ensures within { IfOk result (λ left. left ≤ len) }
    ensures reaches { IfOk result (λ left. data_start (S.form s.old) ≤ left) }
    ensures undone { IfOk result (λ left. IsTrue S.tells → area.now ≡ area_of (S.form s.old).order (S.image s.old)
        → (wide_fault_at (S.form s.old) (S.image s.old) area.now.at ≡ None) × (take left (S.image s.new) ≡ widely_undone (S.form s.old) (S.image s.old))) }
    ensures bad { IfErr result (λ e. IsTrue S.tells → area.now ≡ area_of (S.form s.old).order (S.image s.old)
        → Names e (λ fault. wide_fault_at (S.form s.old) (S.image s.old) area.now.at ≡ Some fault)) }
    ensures wrote { Wrote S.Space s.old s.new }
    ensures size { S.size s.new ≡ S.size s.old }
    ensures cause { HasCauseOf DiskFailed (S.faults s.old) (S.faults s.new) result }
{
    if let Some((what, at)) = area.content_fault(len, s.hash_size()) {
        return Err(CheckRefusal::Corrupt { what, at });
    }
    let head = area_head_left(s, area)?;
    give_back(s, area)?;
    s.put(AREA_HEAD, &head)?;
    let shut = word_bytes(GATE_SHUT, s.order());
    s.put(area.gate(), &shut)?;
    Ok(area.wide_len())
}

/// Makes a view what its undo area leaves of it: what an open gate keeps is given back, and an area without a header
/// counts as none. Answers how many bytes are left. After a refusal the view is of no use.
fn undo_area<S: CopyOnWrite>(s: &mut S) -> Result<u64, CheckRefusal>
    requires heads { data_start (S.form s.old) ≤ S.size s.old }
    ensures within { IfOk result (λ left. left ≤ S.size s.old) }
    ensures reaches { IfOk result (λ left. data_start (S.form s.old) ≤ left) }
    ensures undone { IfOk result (λ left. IsTrue S.tells → S.form s.old ≡ form_of (S.image s.old)
        → (mend_fault (S.form s.old) (S.image s.old) ≡ None) × (take left (S.image s.new) ≡ undone_as (S.image s.old))) }
    ensures bad { IfErr result (λ e. IsTrue S.tells → S.form s.old ≡ form_of (S.image s.old)
        → Names e (λ fault. mend_fault (S.form s.old) (S.image s.old) ≡ Some fault)) }
    ensures wrote { Wrote S.Space s.old s.new }
    ensures size { S.size s.new ≡ S.size s.old }
    ensures cause { HasCauseOf DiskFailed (S.faults s.old) (S.faults s.new) result }
{
    let len = s.len()?;
    match read_state(s, len)? {
        AreaState::Still => Ok(len),
        AreaState::WithoutHeader => {
            let none = word_bytes(0, s.order());
            s.put(AREA_HEAD, &none)?;
            Ok(len)
        }
        AreaState::Open(area) => undo_widely(s, &area, len),
    }
}

/// Makes the word for features 0 where the header of a view says that it has mutexes and no other feature.
fn unlock<S: CopyOnWrite>(s: &mut S) -> Result<(), CheckRefusal>
    requires heads { 168 ≤ S.size s.old }
    ensures set { OnOk result (IsTrue S.tells → (n : ℕ) → 168 ≤ n → n ≤ S.size s.old → take n (S.image s.new) ≡ without_mutexes (take n (S.image s.old))) }
    ensures refusal { IfErr result (λ e. Names e (λ _. ⊥)) }
    ensures wrote { Wrote S.Space s.old s.new }
    ensures size { S.size s.new ≡ S.size s.old }
    ensures cause { HasCauseOf DiskFailed (S.faults s.old) (S.faults s.new) result }
{
    let mut bytes = [0u8; HEADER_LEN];
    s.read(0, &mut bytes)?;
    if database_at(&bytes) != 0 {
        s.put(FEATURES as u64, &[0; 4])?;
    }
    Ok(())
}

/// Makes a view what its database is read as, as far as its undo area (`undo_area`) and the word for features tell.
/// Answers how many bytes are left. After a refusal the view is of no use.
pub(crate) fn undo_in<S: CopyOnWrite>(s: &mut S) -> Result<u64, CheckRefusal>
    requires heads { data_start (S.form s.old) ≤ S.size s.old }
    ensures within { IfOk result (λ left. left ≤ S.size s.old) }
    ensures reaches { IfOk result (λ left. data_start (S.form s.old) ≤ left) }
    ensures read { IfOk result (λ left. IsTrue S.tells → S.form s.old ≡ form_of (S.image s.old)
        → (mend_fault (S.form s.old) (S.image s.old) ≡ None) × (take left (S.image s.new) ≡ read_as (S.image s.old))) }
    ensures bad { IfErr result (λ e. IsTrue S.tells → S.form s.old ≡ form_of (S.image s.old)
        → Names e (λ fault. mend_fault (S.form s.old) (S.image s.old) ≡ Some fault)) }
    ensures wrote { Wrote S.Space s.old s.new }
    ensures size { S.size s.new ≡ S.size s.old }
    ensures cause { HasCauseOf DiskFailed (S.faults s.old) (S.faults s.new) result }
{
    let left = undo_area(s)?;
    unlock(s)?;
    Ok(left)
}
