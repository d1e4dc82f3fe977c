// A damaged file is read as the stock library would read it.

ghost use Rattle.std.specs.Prelude.{◌≡◌, ◌+◌, ◌%◌, ◌^◌, ◌<◌, ◌≤◌, IsTrue, IfOk, IfErr, None, Some, take, drop};
ghost use Rattle.tdb_disk.specs.Count.{HasCauseOf, RoseUpTo};
ghost use Rattle.tdb_disk.specs.History.{Tried, seen, synced};
ghost use Rattle.tdb_words.specs.Header.{header_at, HeaderOk};
ghost use Rattle.tdb_space.specs.Accepted.{Accept};
ghost use Rattle.tdb_space.specs.DiskState.{disk_state};
ghost use Rattle.tdb_space.specs.Form.{form_in, form_of, data_start};
ghost use Rattle.tdb_space.specs.FirstFault.{front_fault};
ghost use Rattle.tdb_space.specs.Pairs.{order_of};
ghost use Rattle.tdb_rewrite.specs.Readable.{Readable};
ghost use Rattle.tdb_check.specs.Report.{IsFormOf};
ghost use Rattle.tdb_check.specs.Seen.{Names};
ghost use Rattle.tdb_check.specs.declared.refusal.CheckRefusal.TheVariants.{Io};
ghost use Rattle.tdb_mend.specs.Mended.{mend_fault, read_as, mended, bytes_changed, strays, bytes_mended, HasHeader, IsFirstButStrays, IsSoundButStrays, CanBeMended, IsMendFault};
ghost use Rattle.tdb_mend.specs.View.{file_length, mended_length, mended_start, mended_view, mended_header, mended_form, mended_bytes, SameFile};

use crate::counting::count_changed;
use crate::file::MendedFile;
use crate::mutexes::{Database, HEADER_LEN};
use crate::surveying::survey;
use crate::undoing::undo_in;
use crate::view::MendedView;
use std::alloc::Global;
use tdb_check::CheckRefusal;
use tdb_disk::Disk;
use tdb_txn::Txn;
use tdb_words::{Header, What, header_of};

/// Makes a file what its database is read as, before its stray bytes are looked at, and answers how many bytes of it
/// are left (`undo_in`).
fn undo_file<D: Disk>(file: &mut MendedFile, d: &mut D) -> Result<u64, CheckRefusal>
    requires sized { D.size d.old ≡ file_length file.old }
    requires heads { data_start (mended_form file.old) ≤ mended_length file.old }
    ensures within { IfOk result (λ left. left ≤ mended_length file.old) }
    ensures reaches { IfOk result (λ left. data_start (mended_form file.old) ≤ left) }
    ensures read { IfOk result (λ left. IsTrue D.tells → let base = seen (D.history d.old) in let a = mended_view file.old base in mended_form file.old ≡ form_of a
        → (mend_fault (mended_form file.old) a ≡ None) × (take left (mended_view file.new base) ≡ read_as a)) }
    ensures bad { IfErr result (λ e. IsTrue D.tells → let a = mended_view file.old (seen (D.history d.old)) in mended_form file.old ≡ form_of a
        → Names e (λ fault. mend_fault (mended_form file.old) a ≡ Some fault)) }
    ensures file { file_length file.new ≡ file_length file.old }
    ensures start { mended_start file.new ≡ mended_start file.old }
    ensures length { mended_length file.new ≡ mended_length file.old }
    ensures disk { disk_state (D.history d.new) (D.size d.new) (D.syncs d.new) ≡ disk_state (D.history d.old) (D.size d.old) (D.syncs d.old) }
    ensures cause { HasCauseOf Io (D.faults d.old) (D.faults d.new) result }
{
    let mut view = MendedView::new(file, d);
    undo_in(&mut view)
}

/// What the header says with which a file begins, whatever the file says of it. It reads 168 bytes.
fn shown_header<D: Disk>(file: &mut MendedFile, d: &mut D) -> Result<Header, CheckRefusal>
    requires sized { D.size d.old ≡ file_length file.old }
    requires long { 168 ≤ mended_length file.old }
    ensures header { IfOk result (λ h. IsTrue D.tells → let b = mended_view file.old (seen (D.history d.old)) in HeaderOk b × (h ≡ header_at b)) }
    ensures chains { IfOk result (λ h. 0 < h.hash_size) }
    ensures refused { IfErr result (λ e. IsTrue D.tells → Names e (λ fault. front_fault (mended_view file.old (seen (D.history d.old))) ≡ Some fault)) }
    ensures same { SameFile (seen (D.history d.old)) file.old file.new }
    ensures disk { disk_state (D.history d.new) (D.size d.new) (D.syncs d.new) ≡ disk_state (D.history d.old) (D.size d.old) (D.syncs d.old) }
    ensures cause { HasCauseOf Io (D.faults d.old) (D.faults d.new) result }
{
    let mut bytes = [0u8; HEADER_LEN];
    file.read(d, 0, &mut bytes)?;
    match header_of(&bytes) {
        Ok(header) => Ok(header),
        Err(_fault) => Err(CheckRefusal::Corrupt {
            what: What::Header,
            at: 0,
        }),
    }
}

/// What the database of a damaged file is read as: pages over the file that hold what its undo area gives back. They
/// lie in memory, and the file isn't written.
fn read_mended<D: Disk>(
    alloc: Global,
    d: &mut D,
    database: &Database,
) -> Result<MendedFile, CheckRefusal>
    requires heads { database.now.start + data_start (form_in database.now.header) ≤ D.size d.old }
    requires aligned { database.now.start % 4 ≡ 0 }
    requires short { D.size d.old < 2 ^ 63 }
    ensures read { IfOk result (λ m. IsTrue D.tells → let file = seen (D.history d.old) in let a = drop database.now.start file in HasHeader a database.now.header
        → (mend_fault (form_of a) a ≡ None) × HeaderOk (read_as a) × (mended_view m file ≡ read_as a) × (mended_header m ≡ header_at (read_as a))) }
    ensures refused { IfErr result (λ e. IsTrue D.tells → let a = drop database.now.start (seen (D.history d.old)) in HasHeader a database.now.header → Names e (IsMendFault a)) }
    ensures chains { IfOk result (λ m. 0 < (mended_header m).hash_size) }
    ensures start { IfOk result (λ m. mended_start m ≡ database.now.start) }
    ensures length { IfOk result (λ m. file_length m ≡ D.size d.old) }
    ensures tried { Tried synced (D.history d.old) (D.history d.new) }
    ensures size { D.size d.new ≡ D.size d.old }
    ensures cause { HasCauseOf Io (D.faults d.old) (D.faults d.new) result }
    ensures syncs { RoseUpTo 1 (D.syncs d.old) (D.syncs d.new) }
{
    let Ok(pages) = Txn::start(alloc, d, &database.header) else {
        return Err(CheckRefusal::Io);
    };
    let len = pages.length() - database.start;
    let mut file = MendedFile {
        pages,
        start: database.start,
        header: database.header,
        len,
        changed: 0,
    };
    let left = undo_file(&mut file, d)?;
    file.len = left;
    let header = shown_header(&mut file, d)?;
    file.header = header;
    Ok(file)
}

/// Checks what a file is read as, but for its stray bytes, and answers how many of these there are (`survey`).
fn survey_file<D: Disk>(
    alloc: Global,
    file: &mut MendedFile,
    d: &mut D,
) -> Result<u64, CheckRefusal>
    requires sized { D.size d.old ≡ file_length file.old }
    ensures sound { IfOk result (λ n. IsTrue D.tells → let b = mended_view file.old (seen (D.history d.old)) in IsFormOf (mended_form file.old) b
        → IsSoundButStrays b × (n ≡ strays b)) }
    ensures first_fault { IfErr result (λ e. IsTrue D.tells → let b = mended_view file.old (seen (D.history d.old)) in IsFormOf (mended_form file.old) b
        → Names e (IsFirstButStrays b)) }
    ensures most { IfOk result (λ n. n ≤ mended_length file.old) }
    ensures same { SameFile (seen (D.history d.old)) file.old file.new }
    ensures disk { disk_state (D.history d.new) (D.size d.new) (D.syncs d.new) ≡ disk_state (D.history d.old) (D.size d.old) (D.syncs d.old) }
    ensures cause { HasCauseOf Io (D.faults d.old) (D.faults d.new) result }
{
    let mut view = MendedView::new(file, d);
    survey(alloc, &mut view)
}

/// Checks what a file is read as, but for its stray bytes, and answers how many bytes were changed to read it: those
/// that differ from the file's, and those that are stray.
fn count_mended<D: Disk>(
    alloc: Global,
    file: &mut MendedFile,
    d: &mut D,
) -> Result<u64, CheckRefusal>
    requires sized { D.size d.old ≡ file_length file.old }
    requires short { D.size d.old < 2 ^ 63 }
    ensures sound { IfOk result (λ n. IsTrue D.tells → let a = seen (D.history d.old) in let b = mended_view file.old a in IsFormOf (mended_form file.old) b
        → IsSoundButStrays b × (n ≡ bytes_changed (drop (mended_start file.old) a) b + strays b)) }
    ensures first_fault { IfErr result (λ e. IsTrue D.tells → let b = mended_view file.old (seen (D.history d.old)) in IsFormOf (mended_form file.old) b
        → Names e (IsFirstButStrays b)) }
    ensures same { SameFile (seen (D.history d.old)) file.old file.new }
    ensures disk { disk_state (D.history d.new) (D.size d.new) (D.syncs d.new) ≡ disk_state (D.history d.old) (D.size d.old) (D.syncs d.old) }
    ensures cause { HasCauseOf Io (D.faults d.old) (D.faults d.new) result }
{
    let stray = survey_file(alloc, file, d)?;
    let changed = count_changed(file, d)?;
    Ok(changed + stray)
}

/// Mends in memory the database of a file, which begins there and has this header: it answers what it is read as, as
/// the stock library would read it, or the first fault that keeps it from that. The file is never written; it is synced
/// once.
///
/// Where the gate of its undo area is open, what the area keeps is given back: an entry may pass the length that the
/// file had, and its rest is dropped; and where that length lies inside the area, the area is kept whole. An area that
/// has no header yet counts as none. Bytes that lie in no record of a list and not in the undo area count for nothing,
/// whatever they are. A word for features that tells of mutexes counts as 0. A file that opens is read as opening it
/// reads it.
///
/// `Corrupt` has the first of: a fault of the undo area's place or header, `AreaBad`; of what it keeps, `UndoBad`; and
/// a fault that a check finds in what is so read, but for stray bytes. Its place counts from where the database begins.
/// `Io` says that the disk failed, and `Memory` that an allocation did.
///
/// It takes time n log n in the number n of records, and linear in the length of the file besides, where the entries of
/// the undo area stand in the order of what they cover. It holds a page of 4096 bytes for each page of the file that an
/// entry covers, and what a check holds.
pub fn mend<D: Disk>(
    alloc: Global,
    d: &mut D,
    database: &Database,
) -> Result<MendedFile, CheckRefusal>
    requires heads { database.now.start + data_start (form_in database.now.header) ≤ D.size d.old }
    requires aligned { database.now.start % 4 ≡ 0 }
    requires short { D.size d.old < 2 ^ 63 }
    ensures accepted { IfOk result (λ m. IsTrue D.tells → let a = drop database.now.start (seen (D.history d.old)) in HasHeader a database.now.header → CanBeMended a × Accept (mended a)) }
    ensures shown { IfOk result (λ m. IsTrue D.tells → let file = seen (D.history d.old) in let a = drop database.now.start file in HasHeader a database.now.header
        → (mended_view m file ≡ read_as a) × (mended_header m ≡ header_at (mended a))) }
    ensures same_pairs { IfOk result (λ m. IsTrue D.tells → let file = seen (D.history d.old) in let a = drop database.now.start file in HasHeader a database.now.header
        → Readable (mended_form m) (mended_view m file) × (order_of (mended_form m) (mended_view m file) ≡ order_of (form_of (mended a)) (mended a))) }
    ensures bytes { IfOk result (λ m. IsTrue D.tells → let a = drop database.now.start (seen (D.history d.old)) in HasHeader a database.now.header → mended_bytes m ≡ bytes_mended a) }
    ensures refused { IfErr result (λ e. IsTrue D.tells → let a = drop database.now.start (seen (D.history d.old)) in HasHeader a database.now.header → Names e (IsMendFault a)) }
    ensures chains { IfOk result (λ m. 0 < (mended_header m).hash_size) }
    ensures length { IfOk result (λ m. file_length m ≡ D.size d.old) }
    ensures tried { Tried synced (D.history d.old) (D.history d.new) }
    ensures size { D.size d.new ≡ D.size d.old }
    ensures cause { HasCauseOf Io (D.faults d.old) (D.faults d.new) result }
    ensures syncs { RoseUpTo 1 (D.syncs d.old) (D.syncs d.new) }
{
    let mut file = read_mended(alloc, d, database)?;
    let header = file.header();
    let changed = count_mended(alloc, &mut file, d)?;
    file.header = header;
    file.changed = changed;
    Ok(file)
}
