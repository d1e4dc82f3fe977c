//! Writing pages out to the file.
ghost use Rattle.std.specs.Prelude.{◌≡◌, ℕ, ◌+◌, ◌*◌, ◌<◌, ◌≤◌, ◌^◌, List, IsTrue, OnOk, length, slice_index};
ghost use Rattle.tdb_disk.specs.Count.{HasCause};
ghost use Rattle.tdb_disk.specs.History.{seen};
ghost use Rattle.tdb_disk.specs.Stop.{Leaves, LeavesOnly};
ghost use Rattle.tdb_space.specs.Extents.{times};
ghost use Rattle.tdb_space.specs.Scheme.{Scheme, Within, IsClear, MayWrite};
ghost use Rattle.tdb_space.specs.Planned.{PutRange, PutRuns};
ghost use Rattle.tdb_txn.specs.EndBelow.{EndBelow};
ghost use Rattle.tdb_txn.specs.Pages.{page_size, byte_over};
ghost use Rattle.tdb_txn.specs.Stock.{page_list};

use crate::page::PAGE_SIZE;
use crate::pages::Pages;
use crate::part::Part;
use tdb_disk::{Disk, DiskFault};
use tdb_undo::Runs;

/// Writes bytes of a page to the file, where the page is there.
fn write_part<D: Disk>(
    d: &mut D,
    pages: &Pages,
    number: u64,
    within: usize,
    count: usize,
) -> Result<(), DiskFault>
    requires one_page { within + count ≤ page_size }
    requires inside { number * page_size + within + count ≤ D.size d.old }
    requires short { number * page_size + within + count < 2 ^ 34 }
    ensures stops { IsTrue D.tells → (p : Scheme) (base : List ℕ) → MayWrite p (number * page_size + within) (number * page_size + within + count)
        → ((c : List ℕ) → Leaves (D.history d.old) c → Within p base c) → LeavesOnly (D.history d.old) (D.history d.new) (Within p base) }
    ensures put { OnOk result (IsTrue D.tells → (b : List ℕ)
        → ((i : ℕ) → number * page_size + within ≤ i → i < number * page_size + within + count → byte_over (page_list pages.now) (seen (D.history d.old)) i ≡ slice_index b i)
        → PutRange b (number * page_size + within) (number * page_size + within + count) (seen (D.history d.old)) (seen (D.history d.new))) }
    ensures size { D.size d.new ≡ D.size d.old }
    ensures cause { HasCause (D.faults d.old) (D.faults d.new) result }
    ensures syncs { D.syncs d.new ≡ D.syncs d.old }
    ensures bytes_read { D.bytes_read d.new ≡ D.bytes_read d.old }
{
    match pages.bytes(number) {
        Some(page) => d.write(
            number * PAGE_SIZE as u64 + within as u64,
            &page[within..within + count],
        ),
        None => Ok(()),
    }
}

/// Writes the pages that are there to the file, from one offset up to another.
pub(crate) fn write_range<D: Disk>(
    d: &mut D,
    pages: &Pages,
    from: u64,
    to: u64,
) -> Result<(), DiskFault>
    requires order { from ≤ to }
    requires inside { to ≤ D.size d.old }
    requires short { to < 2 ^ 33 }
    ensures stops { IsTrue D.tells → (p : Scheme) (base : List ℕ) → MayWrite p from to
        → ((c : List ℕ) → Leaves (D.history d.old) c → Within p base c) → LeavesOnly (D.history d.old) (D.history d.new) (Within p base) }
    ensures put { OnOk result (IsTrue D.tells → (b : List ℕ)
        → ((i : ℕ) → from ≤ i → i < to → byte_over (page_list pages.now) (seen (D.history d.old)) i ≡ slice_index b i)
        → PutRange b from to (seen (D.history d.old)) (seen (D.history d.new))) }
    ensures size { D.size d.new ≡ D.size d.old }
    ensures cause { HasCause (D.faults d.old) (D.faults d.new) result }
    ensures syncs { D.syncs d.new ≡ D.syncs d.old }
    ensures bytes_read { D.bytes_read d.new ≡ D.bytes_read d.old }
{
    let count = (to - from) as usize;
    let mut done = 0;
    while done < count {
        let part = Part::after(from, done, count);
        write_part(d, pages, part.number, part.within, part.end - done)?;
        done = part.end;
    }
    Ok(())
}

/// Writes the pages that are there to the file, in these runs, which end below a length.
pub(crate) fn write_runs<D: Disk>(
    d: &mut D,
    pages: &Pages,
    runs: &Runs,
    below: u32,
) -> Result<(), DiskFault>
    requires runs_end { EndBelow below runs.now }
    requires inside { below ≤ D.size d.old }
    ensures stops { IsTrue D.tells → (p : Scheme) (base : List ℕ) → p.runs ≡ runs.now → IsClear p
        → ((c : List ℕ) → Leaves (D.history d.old) c → Within p base c) → LeavesOnly (D.history d.old) (D.history d.new) (Within p base) }
    ensures put { OnOk result (IsTrue D.tells → (b : List ℕ)
        → ((i : ℕ) → 1 ≤ times runs.now i → byte_over (page_list pages.now) (seen (D.history d.old)) i ≡ slice_index b i)
        → PutRuns b runs.now (seen (D.history d.old)) (seen (D.history d.new))) }
    ensures size { D.size d.new ≡ D.size d.old }
    ensures cause { HasCause (D.faults d.old) (D.faults d.new) result }
    ensures syncs { D.syncs d.new ≡ D.syncs d.old }
    ensures bytes_read { D.bytes_read d.new ≡ D.bytes_read d.old }
{
    for i in 0..runs.len() {
        let Some(run) = runs.get(i) else {
            return Ok(());
        };
        write_range(d, pages, run.0 as u64, run.0 as u64 + run.1 as u64)?;
    }
    Ok(())
}
