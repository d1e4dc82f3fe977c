//! The blocks of a file to which was written, and which the file lacks.
ghost use Rattle.std.specs.Prelude.{◌≡◌, ◌+◌, ◌^◌, ◌%◌, ◌≤◌, ◌<◌, ◌↔◌, None, IsTrue, IsSome, IsOk, OnOk, length, take, drop};
ghost use Rattle.tdb_disk.specs.Count.{HasCause};
ghost use Rattle.tdb_disk.specs.History.{clock, seen, wrote_word};
ghost use Rattle.tdb_disk.specs.Image.{overlay};
ghost use Rattle.tdb_cache.specs.Blocks.{block_at, block_start, kept_count, AllSized};
ghost use Rattle.tdb_cache.specs.Laid.{laid, LiesInKept, NoneKept};

use crate::blocks::{BLOCK_SIZE, Blocks};
use std::alloc::Global;
use tdb_disk::{Disk, DiskFault};

/// The most blocks that are pending, 2 MiB.
const MOST_PENDING: usize = 32;

/// So many writes beside the blocks are passed on before all blocks go out for others.
const MOST_MISSES: u32 = 256;

/// The blocks of a file to which was written, and which the file lacks: 32 at most. A block is read whole when a byte
/// of it is first written. Where 32 are pending a write beside them is passed on, and the 256th first writes them all,
/// so that others take their places.
#[derive(Drop)]
pub struct Pending {
    blocks: Blocks,
    /// How many writes were passed on beside the most blocks.
    misses: u32,
    ghost few: { kept_count blocks ≤ 32 },
}

impl Pending {
    ghost use Rattle.tdb_cache.specs.View.{ViewTried, ViewTriedOver};

    /// No block. It takes no memory.
    pub(crate) fn new(alloc: Global) -> Pending
        ensures { NoneKept result.blocks }
    {
        Pending {
            blocks: Blocks::new(alloc),
            misses: 0,
        }
    }

    /// Writes the blocks to the disk, by a call each. After an Err those that weren't written are still pending.
    pub(crate) fn flush<D: Disk>(&mut self, d: &mut D) -> Result<(), DiskFault>
        requires { AllSized self.old.blocks (D.size d.old) }
        ensures view { IsTrue D.tells → laid self.new.blocks (seen (D.history d.new)) ≡ laid self.old.blocks (seen (D.history d.old)) }
        ensures sized { AllSized self.new.blocks (D.size d.new) }
        ensures none { OnOk result (NoneKept self.new.blocks) }
        ensures count { OnOk result (kept_count self.new.blocks ≡ 0) }
        ensures calls { clock (D.history d.new) ≤ clock (D.history d.old) + kept_count self.old.blocks }
        ensures few { kept_count self.old.blocks ≤ 32 }
        ensures size { D.size d.new ≡ D.size d.old }
        ensures syncs { D.syncs d.new ≡ D.syncs d.old }
        ensures cause { HasCause (D.faults d.old) (D.faults d.new) result }
    {
        self.misses = 0;
        self.blocks.flush(d)
    }

    /// Whether a range of bytes lies in one block that is pending.
    fn holds(&self, off: u64, len: usize) -> bool
        requires { len < 2 ^ 63 }
        ensures { IsTrue result ↔ LiesInKept self.now.blocks off len }
    {
        self.blocks.keeps((off / BLOCK_SIZE as u64) as usize)
            && (off % BLOCK_SIZE as u64) as usize + len <= BLOCK_SIZE
    }

    /// Reads a block that isn't pending, and keeps it as one that is, if it is one that is kept and there is memory for
    /// it.
    fn load<D: Disk>(&mut self, d: &mut D, number: usize) -> Result<(), DiskFault>
        requires sized { AllSized self.old.blocks (D.size d.old) }
        requires below { block_start number ≤ D.size d.old }
        requires new { block_at self.old.blocks number ≡ None }
        requires room { kept_count self.old.blocks < 32 }
        ensures view { IsTrue D.tells → laid self.new.blocks (seen (D.history d.new)) ≡ laid self.old.blocks (seen (D.history d.old)) }
        ensures sized { AllSized self.new.blocks (D.size d.new) }
        ensures history { D.history d.new ≡ D.history d.old }
        ensures size { D.size d.new ≡ D.size d.old }
        ensures syncs { D.syncs d.new ≡ D.syncs d.old }
        ensures cause { HasCause (D.faults d.old) (D.faults d.new) result }
    {
        let size = d.len()?;
        let start = number as u64 * BLOCK_SIZE as u64;
        let len = (size - start).min(BLOCK_SIZE as u64) as usize;
        let Some(mut block) = self.blocks.room(number, len) else {
            return Ok(());
        };
        d.read(start, &mut block)?;
        self.blocks.keep(number, block);
        Ok(())
    }

    /// Makes the block of this number pending, if there is room for it. Where the most are, and enough writes were
    /// passed on, they are flushed first.
    fn gather<D: Disk>(&mut self, d: &mut D, number: usize) -> Result<(), DiskFault>
        requires sized { AllSized self.old.blocks (D.size d.old) }
        requires below { block_start number ≤ D.size d.old }
        ensures view { IsTrue D.tells → laid self.new.blocks (seen (D.history d.new)) ≡ laid self.old.blocks (seen (D.history d.old)) }
        ensures sized { AllSized self.new.blocks (D.size d.new) }
        ensures kept { IsSome (block_at self.old.blocks number) → (self.new ≡ self.old) × (d.new ≡ d.old) × IsOk result }
        ensures size { D.size d.new ≡ D.size d.old }
        ensures syncs { D.syncs d.new ≡ D.syncs d.old }
        ensures cause { HasCause (D.faults d.old) (D.faults d.new) result }
    {
        if self.blocks.keeps(number) {
            return Ok(());
        }
        if self.blocks.kept() >= MOST_PENDING {
            if self.misses < MOST_MISSES {
                self.misses += 1;
                return Ok(());
            }
            self.flush(d)?;
        }
        self.load(d, number)
    }

    /// Writes over bytes of the file: those of blocks that are pending in memory, and where they don't lie in one block
    /// that is, on the disk too.
    pub(crate) fn write<D: Disk>(
        &mut self,
        d: &mut D,
        off: u64,
        bytes: &[u8],
    ) -> Result<(), DiskFault>
        requires sized { AllSized self.old.blocks (D.size d.old) }
        requires range { off + length bytes.now ≤ D.size d.old }
        ensures view { OnOk result (IsTrue D.tells → laid self.new.blocks (seen (D.history d.new)) ≡ overlay (laid self.old.blocks (seen (D.history d.old))) off bytes.now) }
        ensures tried { IsTrue D.tells → ViewTriedOver off (length bytes.now) (laid self.old.blocks (seen (D.history d.old))) (laid self.new.blocks (seen (D.history d.new))) }
        ensures sized { AllSized self.new.blocks (D.size d.new) }
        ensures held { LiesInKept self.old.blocks off (length bytes.now) → (d.new ≡ d.old) × IsOk result }
        ensures size { D.size d.new ≡ D.size d.old }
        ensures syncs { D.syncs d.new ≡ D.syncs d.old }
        ensures cause { HasCause (D.faults d.old) (D.faults d.new) result }
    {
        self.gather(d, (off / BLOCK_SIZE as u64) as usize)?;
        if self.holds(off, bytes.len()) {
            self.blocks.overwrite(off, bytes);
            return Ok(());
        }
        d.write(off, bytes)?;
        self.blocks.overwrite(off, bytes);
        Ok(())
    }

    /// Writes an aligned word: in memory where its block is pending, and else on the disk, old or new as a whole.
    pub(crate) fn write_word<D: Disk>(
        &mut self,
        d: &mut D,
        off: u64,
        w: [u8; 4],
    ) -> Result<(), DiskFault>
        requires sized { AllSized self.old.blocks (D.size d.old) }
        requires aligned { off % 4 ≡ 0 }
        requires range { off + 4 ≤ D.size d.old }
        ensures view { OnOk result (IsTrue D.tells → laid self.new.blocks (seen (D.history d.new)) ≡ overlay (laid self.old.blocks (seen (D.history d.old))) off w) }
        ensures tried { IsTrue D.tells → ViewTried (wrote_word off w) (laid self.old.blocks (seen (D.history d.old))) (laid self.new.blocks (seen (D.history d.new))) }
        ensures sized { AllSized self.new.blocks (D.size d.new) }
        ensures held { LiesInKept self.old.blocks off 4 → (d.new ≡ d.old) × IsOk result }
        ensures size { D.size d.new ≡ D.size d.old }
        ensures syncs { D.syncs d.new ≡ D.syncs d.old }
        ensures cause { HasCause (D.faults d.old) (D.faults d.new) result }
    {
        self.gather(d, (off / BLOCK_SIZE as u64) as usize)?;
        if self.holds(off, 4) {
            self.blocks.overwrite(off, &w);
            return Ok(());
        }
        d.write_word(off, w)
    }

    /// Reads bytes of the file: from memory where they lie in one block that is pending, and else from the disk, with
    /// what is pending laid over them.
    pub(crate) fn read<D: Disk>(&self, d: &mut D, off: u64, buf: &mut [u8]) -> Result<(), DiskFault>
        requires sized { AllSized self.now.blocks (D.size d.old) }
        requires range { off + length buf.old ≤ D.size d.old }
        ensures bytes { OnOk result (IsTrue D.tells → buf.new ≡ take (length buf.old) (drop off (laid self.now.blocks (seen (D.history d.old))))) }
        ensures history { D.history d.new ≡ D.history d.old }
        ensures held { LiesInKept self.now.blocks off (length buf.old) → (d.new ≡ d.old) × IsOk result }
        ensures size { D.size d.new ≡ D.size d.old }
        ensures syncs { D.syncs d.new ≡ D.syncs d.old }
        ensures cause { HasCause (D.faults d.old) (D.faults d.new) result }
    {
        if self.holds(off, buf.len()) {
            self.blocks.lay_over(off, buf);
            return Ok(());
        }
        d.read(off, buf)?;
        self.blocks.lay_over(off, buf);
        Ok(())
    }
}
