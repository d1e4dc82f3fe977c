//! Comparing the pages of a transaction with the file.
ghost use Rattle.std.specs.Prelude.{◌≡◌, ◌+◌, ◌*◌, ◌<◌, ◌≤◌, ◌^◌, ℕ, List, IsTrue, IfOk, IfErr, OnOk, MatchBool, length, slice_index, ◌⊎◌};
ghost use Rattle.tdb_txn.specs.declared.comparing.RunsRefusal.TheVariants.{Io as IoIs};
ghost use Rattle.tdb_disk.specs.Count.{HasCause, HasCauseOf, RoseUpTo};
ghost use Rattle.tdb_disk.specs.History.{seen};
ghost use Rattle.tdb_space.specs.Extents.{Extent, once};
ghost use Rattle.tdb_space.specs.Runs.{ChangedRuns};
ghost use Rattle.tdb_txn.specs.EndBelow.{EndBelow};
ghost use Rattle.tdb_txn.specs.Found.{FoundSoFar, HasRuns, InPlace, Counts, StandsAt, Blanked, WhereStarved};
ghost use Rattle.tdb_txn.specs.Pages.{page_size, byte_over};
ghost use Rattle.tdb_txn.specs.Stock.{page_list};

use crate::found::Found;
use crate::page::{PAGE_SIZE, Page};
use crate::pages::Pages;
use std::alloc::Global;
use tdb_disk::{Disk, DiskFault};
use tdb_undo::Runs;

/// Where the word stands that leads to the undo area, and where it ends.
const AREA_WORD: u32 = 44;

const AREA_WORD_END: u32 = 48;

/// Which bytes of a file are compared, and with what: those below `old_length`, outside the extent `skip`. Those in the
/// extent `hole` count as zero in the file. An extent is an offset and a length; all are in bytes.
#[derive(Clone, Copy)]
pub(crate) struct Comparison {
    pub(crate) old_length: u32,
    pub(crate) skip: (u32, u32),
    pub(crate) hole: (u32, u32),
}

/// Why the runs of the bytes that change aren't known.
#[derive(Clone, Copy)]
pub(crate) enum RunsRefusal {
    /// The disk failed.
    Io,

    /// Memory was wanting for one. The content of an undo area has so many bytes for all of them.
    Memory { content: u64 },
}

impl From<DiskFault> for RunsRefusal {
    ghost from_gives = { λ _ e. e ≡ IoIs };

    fn from(_fault: DiskFault) -> Self {
        RunsRefusal::Io
    }
}

/// Whether a byte at a place counts where it is another one.
fn counts(skip: (u32, u32), at: u32) -> bool
    ensures { MatchBool result (Counts skip at) (Counts skip at → ⊥) }
{
    let beside = at < AREA_WORD || AREA_WORD_END <= at;
    let inside = skip.0 <= at && (at as u64) < skip.0 as u64 + skip.1 as u64;
    beside && !inside
}

/// Compares bytes of a page, from the place on up to which all was looked at, with those that the file has there.
fn scan_bytes(found: &mut Found, skip: (u32, u32), page: &[u8], file: &[u8])
    requires place { InPlace found.old }
    requires inside { length file.now ≤ length page.now }
    requires short { found.old.next + length file.now < 2 ^ 32 }
    ensures place { InPlace found.new }
    ensures next { found.new.next ≡ found.old.next + length file.now }
    ensures found { (a b : List ℕ) (old : ℕ) → found.old.next + length file.now ≤ old → StandsAt file.now (length file.now) found.old.next a
        → StandsAt page.now (length file.now) found.old.next b → FoundSoFar a b old skip found.old → FoundSoFar a b old skip found.new }
{
    for k in 0..file.len() {
        if page[k] != file[k] && counts(skip, found.next) {
            found.add();
        } else {
            found.next += 1;
        }
    }
}

/// Makes bytes zero, from one place up to another.
fn blank(buf: &mut [u8], from: usize, to: usize)
    requires order { from ≤ to }
    requires within { to ≤ length buf.old }
    ensures inside { (k : ℕ) → from ≤ k → k < to → slice_index buf.new k ≡ 0 }
    ensures beside { (k : ℕ) → (k < from) ⊎ (to ≤ k) → slice_index buf.new k ≡ slice_index buf.old k }
    ensures length { length buf.new ≡ length buf.old }
{
    buf[from..to].fill(0);
}

/// Fills `buf` with the bytes of the file from a place on, and with zeros where they lie in the hole.
fn read_old<D: Disk>(d: &mut D, at: u32, buf: &mut [u8], hole: (u32, u32)) -> Result<(), DiskFault>
    requires { at + length buf.old ≤ D.size d.old }
    ensures bytes { OnOk result (IsTrue D.tells → (c : List ℕ) → Blanked hole (seen (D.history d.old)) c → StandsAt buf.new (length buf.new) at c) }
    ensures size { D.size d.new ≡ D.size d.old }
    ensures history { D.history d.new ≡ D.history d.old }
    ensures cause { HasCause (D.faults d.old) (D.faults d.new) result }
    ensures syncs { D.syncs d.new ≡ D.syncs d.old }
    ensures bytes_read { RoseUpTo (length buf.old) (D.bytes_read d.old) (D.bytes_read d.new) }
{
    d.read(at as u64, buf)?;
    let count = buf.len() as u64;
    let from = (hole.0 as u64).saturating_sub(at as u64).min(count);
    let to = (hole.0 as u64 + hole.1 as u64)
        .saturating_sub(at as u64)
        .min(count);
    blank(buf, from as usize, to as usize);
    Ok(())
}

/// Compares a page with the file, as far as that reached.
fn scan_page<D: Disk>(
    d: &mut D,
    comparison: &Comparison,
    page: &Page,
    found: &mut Found,
    block: &mut [u8; PAGE_SIZE],
) -> Result<(), DiskFault>
    requires place { InPlace found.old }
    requires inside { comparison.now.old_length ≤ D.size d.old }
    requires behind { found.old.next ≤ page.now.number * page_size }
    requires low { page.now.number * page_size < comparison.now.old_length }
    ensures place { OnOk result (InPlace found.new) }
    ensures low { OnOk result (found.new.next ≤ page.now.number * page_size + page_size) }
    ensures within { OnOk result (found.new.next ≤ comparison.now.old_length) }
    ensures next { OnOk result ((found.new.next ≡ page.now.number * page_size + page_size) ⊎ (found.new.next ≡ comparison.now.old_length)) }
    ensures found { OnOk result (IsTrue D.tells → (c b : List ℕ) → Blanked comparison.now.hole (seen (D.history d.old)) c
        → ((k : ℕ) → k < page_size → page.now.number * page_size + k < comparison.now.old_length → slice_index page.now.bytes.items k ≡ slice_index b (page.now.number * page_size + k))
        → ((i : ℕ) → found.old.next ≤ i → i < page.now.number * page_size → slice_index b i ≡ slice_index c i)
        → FoundSoFar c b comparison.now.old_length comparison.now.skip found.old → FoundSoFar c b comparison.now.old_length comparison.now.skip found.new) }
    ensures size { D.size d.new ≡ D.size d.old }
    ensures history { D.history d.new ≡ D.history d.old }
    ensures cause { HasCause (D.faults d.old) (D.faults d.new) result }
    ensures syncs { D.syncs d.new ≡ D.syncs d.old }
    ensures bytes_read { RoseUpTo page_size (D.bytes_read d.old) (D.bytes_read d.new) }
{
    let old_length = comparison.old_length;
    let at = page.number as u32 * PAGE_SIZE as u32;
    let count = ((old_length - at) as usize).min(PAGE_SIZE);
    let file = &mut block[..count];
    found.next = at;
    read_old(d, at, file, comparison.hole)?;
    scan_bytes(found, comparison.skip, &page.bytes, file);
    Ok(())
}

/// The runs of the bytes that change from the file to what the pages make of it: the greatest ones, with at most 8
/// bytes that stay between two that change in one run. It reads the file where there are pages, and only there: at most
/// 4096 bytes for each. Where memory is wanting for them it tells how long their content is.
pub(crate) fn find_runs<D: Disk>(
    alloc: Global,
    d: &mut D,
    pages: &Pages,
    comparison: &Comparison,
) -> Result<Runs, RunsRefusal>
    requires { comparison.now.old_length ≤ D.size d.old }
    ensures runs { IfOk result (λ runs. IsTrue D.tells → (c b : List ℕ) → Blanked comparison.now.hole (seen (D.history d.old)) c
        → ((i : ℕ) → i < comparison.now.old_length → slice_index b i ≡ byte_over (page_list pages.now) c i)
        → ChangedRuns c b comparison.now.old_length comparison.now.skip runs) }
    ensures starved { IfErr result (WhereStarved (λ content. IsTrue D.tells → (c b : List ℕ) → Blanked comparison.now.hole (seen (D.history d.old)) c
        → ((i : ℕ) → i < comparison.now.old_length → slice_index b i ≡ byte_over (page_list pages.now) c i)
        → HasRuns c b comparison.now.old_length comparison.now.skip content)) }
    ensures ends { IfOk result (λ runs. EndBelow comparison.now.old_length runs) }
    ensures size { D.size d.new ≡ D.size d.old }
    ensures history { D.history d.new ≡ D.history d.old }
    ensures cause { HasCauseOf RunsRefusal.Io (D.faults d.old) (D.faults d.new) result }
    ensures syncs { D.syncs d.new ≡ D.syncs d.old }
    ensures bytes_read { RoseUpTo (length (page_list pages.now) * page_size) (D.bytes_read d.old) (D.bytes_read d.new) }
{
    let mut block = [0u8; PAGE_SIZE];
    let mut found = Found::new(alloc);
    let end = (comparison.old_length as u64 + PAGE_SIZE as u64 - 1) / PAGE_SIZE as u64;
    let count = pages.position(end);
    for index in 0..count {
        scan_page(d, comparison, pages.page(index), &mut found, &mut block)?;
    }
    match found.finish() {
        Ok(runs) => Ok(runs),
        Err(content) => Err(RunsRefusal::Memory { content }),
    }
}
