//! The blocks of a file that are kept in memory.
ghost use Rattle.std.specs.Prelude.{◌≡◌, ◌≢◌, ◌+◌, ◌-◌, ◌%◌, ◌≤◌, ◌<◌, ◌↔◌, ℕ, List, Some, None, IfSome, IfNone, IfOk, OnSome, OnOk, OnErr, IsSome, IsTrue, slice_index, get_or, is_some, count_by, length, take, drop, option_map};
ghost use Rattle.tdb_disk.specs.Count.{HasCause};
ghost use Rattle.tdb_disk.specs.History.{clock, seen};
ghost use Rattle.tdb_disk.specs.Image.{overlay};

use crate::piece::Piece;
use std::alloc::{AllocError, Global};
use tdb_disk::{Disk, DiskFault};

/// How many bytes a block has. The last block of a file may be shorter.
pub(crate) const BLOCK_SIZE: usize = 65_536;

/// The most blocks that are kept, 256 MiB.
pub(crate) const MOST_KEPT: usize = 4_096;

/// The blocks with smaller numbers have a place in the table: the first 4 GiB of a file.
pub(crate) const MOST_PLACES: usize = 65_536;

/// Of so many blocks the last is never kept, so that a long file takes less than its length in memory.
const GROUP: usize = 100;

/// The blocks that are kept, by number.
#[derive(Drop)]
pub struct Blocks {
    alloc: Global,
    places: Vec<Option<Vec<u8>>>,
    kept: usize,
    starved: u64,
    ghost counted: { kept ≡ count_by is_some places.items },
    ghost bounded: { kept ≤ 4096 },
    ghost sparing: { (number : ℕ) → number % 100 ≡ 99 → get_or places.items number None ≡ None },
}

impl Blocks {
    ghost use Rattle.tdb_cache.specs.Blocks.{block_at, block_start, kept_count, block_size, AllShown, AllSized, starved_count, AllStay, HasRoom, IsLeftOut, KeepsFront, OthersStay, Reaches, Refused, SameKept};
    ghost use Rattle.tdb_cache.specs.Laid.{byte_at, laid, NoneKept};

    /// No block is kept. It takes no memory.
    pub(crate) fn new(alloc: Global) -> Blocks
        ensures none { (number : ℕ) → block_at result number ≡ None }
        ensures count { kept_count result ≡ 0 }
        ensures starved { starved_count result ≡ 0 }
    {
        Blocks {
            alloc,
            places: Vec::new(alloc),
            kept: 0,
            starved: 0,
        }
    }

    /// How many blocks are kept.
    pub(crate) fn kept(&self) -> usize
        ensures count { result ≡ kept_count self.now }
        ensures bound { result ≤ 4096 }
        ensures sparing { (number : ℕ) → number % 100 ≡ 99 → block_at self.now number ≡ None }
    {
        self.kept
    }

    /// How many times a block wasn't kept for want of memory.
    pub(crate) fn starved(&self) -> u64
        ensures { result ≡ starved_count self.now }
    {
        self.starved
    }

    /// Whether a block is kept.
    pub(crate) fn keeps(&self, number: usize) -> bool
        ensures { IsTrue result ↔ IsSome (block_at self.now number) }
    {
        matches!(self.places.get(number), Some(Some(_)))
    }

    /// Copies bytes of a block, if it is kept. Whether it is.
    pub(crate) fn copy_out(&self, number: usize, within: usize, buf: &mut [u8]) -> bool
        requires { (block : List ℕ) → block_at self.now number ≡ Some block → within + length buf.old ≤ length block }
        ensures kept { IsTrue result ↔ IsSome (block_at self.now number) }
        ensures copied { (block : List ℕ) → block_at self.now number ≡ Some block → buf.new ≡ take (length buf.old) (drop within block) }
        ensures rest { block_at self.now number ≡ None → buf.new ≡ buf.old }
    {
        if let Some(Some(block)) = self.places.get(number) {
            buf.copy_from_slice(&block[within..within + buf.len()]);
            return true;
        }
        false
    }

    /// Lays the bytes of the blocks that are kept over those of a range.
    pub(crate) fn lay_over(&self, off: u64, buf: &mut [u8])
        requires { Reaches self.now (off + length buf.old) }
        ensures { (at : ℕ) → at < length buf.old → slice_index buf.new at ≡ byte_at self.now (off + at) (slice_index buf.old at) }
    {
        let mut done = 0;
        while done < buf.len() {
            let piece = Piece::after(off, done, buf.len());
            self.copy_out(piece.number, piece.within, &mut buf[done..piece.end]);
            done = piece.end;
        }
    }

    /// Writes over bytes of a block, if it is kept.
    pub(crate) fn patch(&mut self, number: usize, within: usize, piece: &[u8])
        requires { (block : List ℕ) → block_at self.old number ≡ Some block → within + length piece.now ≤ length block }
        ensures patched { block_at self.new number ≡ option_map (λ block. overlay block within piece.now) (block_at self.old number) }
        ensures others { OthersStay number self.old self.new }
        ensures count { kept_count self.new ≡ kept_count self.old }
    {
        if number < self.places.len() {
            if let Some(block) = &mut self.places[number] {
                block[within..within + piece.len()].copy_from_slice(piece);
            }
        }
    }

    /// Writes over the bytes of the blocks that are kept. Which are kept stays.
    pub(crate) fn overwrite(&mut self, off: u64, bytes: &[u8])
        requires { Reaches self.old (off + length bytes.now) }
        ensures sized { (size : ℕ) → AllSized self.old size → AllSized self.new size }
        ensures shown { (image : List ℕ) → off + length bytes.now ≤ length image → AllSized self.old (length image) → AllShown self.old image → AllShown self.new (overlay image off bytes.now) }
        ensures same { SameKept self.old self.new }
        ensures count { kept_count self.new ≡ kept_count self.old }
    {
        let mut done = 0;
        while done < bytes.len() {
            let piece = Piece::after(off, done, bytes.len());
            self.patch(piece.number, piece.within, &bytes[done..piece.end]);
            done = piece.end;
        }
    }

    /// Whether a block is never kept: it has no place in the table, or is the last of its group.
    fn is_left_out(number: usize) -> bool
        ensures { IsTrue result ↔ IsLeftOut number }
    {
        number >= MOST_PLACES || number % GROUP == GROUP - 1
    }

    /// A block that is to be kept, of zeros yet, with a place for it. None where it isn't to be kept.
    pub(crate) fn room(&mut self, number: usize, len: usize) -> Option<Vec<u8>>
        ensures same { AllStay self.old self.new }
        ensures count { kept_count self.new ≡ kept_count self.old }
        ensures starved { starved_count self.old ≤ starved_count self.new }
        ensures room { OnSome result (HasRoom self.new number) }
        ensures refused { IfNone result (Refused self.old self.new number) }
        ensures len { IfSome result (λ block. length block.items ≡ len) }
    {
        if self.kept >= MOST_KEPT || Self::is_left_out(number) {
            return None;
        }
        match self.zeros(number, len) {
            Ok(block) => Some(block),
            Err(AllocError) => {
                self.starved = self.starved.saturating_add(1);
                None
            }
        }
    }

    /// A block of zeros, with a place for it.
    fn zeros(&mut self, number: usize, len: usize) -> Result<Vec<u8>, AllocError>
        ensures same { AllStay self.old self.new }
        ensures count { kept_count self.new ≡ kept_count self.old }
        ensures starved { starved_count self.new ≡ starved_count self.old }
        ensures place { OnOk result (number < length self.new.places.items) }
        ensures len { IfOk result (λ block. length block.items ≡ len) }
    {
        reach(&mut self.places, number)?;
        vec![in self.alloc; 0; len]
    }

    /// Keeps a block that wasn't kept.
    pub(crate) fn keep(&mut self, number: usize, block: Vec<u8>)
        requires room { HasRoom self.old number }
        requires new { block_at self.old number ≡ None }
        ensures kept { block_at self.new number ≡ Some block.items }
        ensures others { OthersStay number self.old self.new }
        ensures count { kept_count self.new ≡ kept_count self.old + 1 }
        ensures starved { starved_count self.new ≡ starved_count self.old }
    {
        self.places[number] = Some(block);
        self.kept += 1;
    }

    /// Drops the blocks from this number on.
    pub(crate) fn forget_from(&mut self, number: usize)
        ensures { KeepsFront number self.old self.new }
    {
        while self.places.len() > number {
            self.forget_last();
        }
    }

    /// Writes a block to a disk, if it is kept.
    fn write_out<D: Disk>(&self, d: &mut D, number: usize) -> Result<(), DiskFault>
        requires { AllSized self.now (D.size d.old) }
        ensures view { IsTrue D.tells → laid self.now (seen (D.history d.new)) ≡ laid self.now (seen (D.history d.old)) }
        ensures shown { OnOk result (IsTrue D.tells → (block : List ℕ) → block_at self.now number ≡ Some block → block ≡ take (length block) (drop (block_start number) (seen (D.history d.new)))) }
        ensures unkept { block_at self.now number ≡ None → D.history d.new ≡ D.history d.old }
        ensures calls { clock (D.history d.new) ≤ clock (D.history d.old) + 1 }
        ensures size { D.size d.new ≡ D.size d.old }
        ensures syncs { D.syncs d.new ≡ D.syncs d.old }
        ensures cause { HasCause (D.faults d.old) (D.faults d.new) result }
    {
        // The length fits 64 bits, and so does the place of each block.
        let _size = d.len()?;
        match self.places.get(number) {
            Some(Some(block)) => d.write(number as u64 * BLOCK_SIZE as u64, block),
            _ => Ok(()),
        }
    }

    /// Drops the block at the end of the table.
    fn forget_last(&mut self)
        requires { 0 < length self.old.places.items }
        ensures front { KeepsFront (length self.old.places.items - 1) self.old self.new }
        ensures shorter { length self.new.places.items + 1 ≡ length self.old.places.items }
        ensures fewer { kept_count self.new ≤ kept_count self.old }
        ensures gone { IsSome (block_at self.old (length self.old.places.items - 1)) → kept_count self.new + 1 ≡ kept_count self.old }
    {
        if self.places.pop().flatten().is_some() {
            self.kept -= 1;
        }
    }

    /// Writes the block at the end of the table to a disk and drops it. After an Err it is still kept.
    fn flush_last<D: Disk>(&mut self, d: &mut D) -> Result<(), DiskFault>
        requires some { 0 < length self.old.places.items }
        requires sized { AllSized self.old (D.size d.old) }
        ensures view { IsTrue D.tells → laid self.new (seen (D.history d.new)) ≡ laid self.old (seen (D.history d.old)) }
        ensures sized { AllSized self.new (D.size d.new) }
        ensures shorter { OnOk result (length self.new.places.items < length self.old.places.items) }
        ensures fewer { kept_count self.new ≤ kept_count self.old }
        ensures calls { OnOk result (clock (D.history d.new) + kept_count self.new ≤ clock (D.history d.old) + kept_count self.old) }
        ensures tried { clock (D.history d.new) ≤ clock (D.history d.old) + kept_count self.old }
        ensures size { D.size d.new ≡ D.size d.old }
        ensures syncs { D.syncs d.new ≡ D.syncs d.old }
        ensures cause { HasCause (D.faults d.old) (D.faults d.new) result }
    {
        self.write_out(d, self.places.len() - 1)?;
        self.forget_last();
        Ok(())
    }

    /// Writes the blocks to a disk, by a call each, and drops them. After an Err those that weren't written are kept.
    pub(crate) fn flush<D: Disk>(&mut self, d: &mut D) -> Result<(), DiskFault>
        requires { AllSized self.old (D.size d.old) }
        ensures view { IsTrue D.tells → laid self.new (seen (D.history d.new)) ≡ laid self.old (seen (D.history d.old)) }
        ensures sized { AllSized self.new (D.size d.new) }
        ensures none { OnOk result (NoneKept self.new) }
        ensures count { OnOk result (kept_count self.new ≡ 0) }
        ensures fewer { kept_count self.new ≤ kept_count self.old }
        ensures calls { clock (D.history d.new) ≤ clock (D.history d.old) + kept_count self.old }
        ensures size { D.size d.new ≡ D.size d.old }
        ensures syncs { D.syncs d.new ≡ D.syncs d.old }
        ensures cause { HasCause (D.faults d.old) (D.faults d.new) result }
    {
        while !self.places.is_empty() {
            self.flush_last(d)?;
        }
        Ok(())
    }

    /// Passes on the answer of a call that may have changed the disk, and drops all blocks where it failed.
    pub(crate) fn settle(&mut self, answer: Result<(), DiskFault>) -> Result<(), DiskFault>
        ensures answer { result ≡ answer }
        ensures failed { OnErr answer ((number : ℕ) → block_at self.new number ≡ None) }
        ensures done { OnOk answer (self.new ≡ self.old) }
    {
        if answer.is_err() {
            self.forget_from(0);
        }
        answer
    }
}

/// Makes the table so long that the block with this number has a place.
fn reach(places: &mut Vec<Option<Vec<u8>>>, number: usize) -> Result<(), AllocError>
    ensures same { (other : ℕ) → get_or places.new.items other None ≡ get_or places.old.items other None }
    ensures count { count_by is_some places.new.items ≡ count_by is_some places.old.items }
    ensures long { OnOk result (number < length places.new.items) }
{
    while places.len() <= number {
        places.push(None)?;
    }
    Ok(())
}
