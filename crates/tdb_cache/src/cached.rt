//! A disk that keeps blocks of the disk within.
ghost use Rattle.std.specs.Prelude.{◌≡◌, ◌≢◌, ◌+◌, ◌-◌, ◌*◌, ◌/◌, ◌%◌, ◌≤◌, ◌<◌, ◌⊎◌, ◌↔◌, ◌^◌, ℕ, List, Some, None, IsTrue, IsFalse, IsSome, IfOk, OnOk, MatchResult, length, take, drop};
ghost use Rattle.tdb_disk.specs.Count.{HasCause, RoseBy, RoseUpTo};
ghost use Rattle.tdb_disk.specs.History.{wrote, wrote_word, grew, cut, synced, called, seen, Tried, TriedOver};
ghost use Rattle.tdb_disk.specs.Image.{overlay};
ghost use Rattle.tdb_cache.specs.Blocks.{block_at, block_start, block_size, most_kept, AllSized, AllShown};

use crate::blocks::{BLOCK_SIZE, Blocks};
use crate::piece::Piece;
use std::alloc::Global;
use tdb_disk::{Disk, DiskFault};

/// A disk that keeps blocks of the disk within, read when they are first asked for and written through. A read as long
/// as a block that ends in none of them goes past them.
#[derive(Drop)]
pub struct Cached<D: Disk> {
    inner: D,
    blocks: Blocks,
    asked: u64,
    ghost sized: { AllSized blocks (D.size inner) },
    ghost shown: { IsTrue D.tells → AllShown blocks (seen (D.history inner)) },
}

impl<D: Disk> Cached<D> {
    ghost use Rattle.tdb_cache.specs.Cached.{cached_inner, cached_asked, cached_count, cached_starved, cached_block, IsKept, KeepsRange, Looked, WasRefused};

    /// The disk `d`, of which no block is kept yet. It takes no memory.
    pub fn new(alloc: Global, d: D) -> Cached<D>
        ensures inner { cached_inner result ≡ d }
        ensures asked { cached_asked result ≡ 0 }
        ensures kept { cached_count result ≡ 0 }
        ensures starved { cached_starved result ≡ 0 }
    {
        Cached {
            inner: d,
            blocks: Blocks::new(alloc),
            asked: 0,
        }
    }

    /// The disk within.
    pub fn into_inner(self) -> D
        ensures { result ≡ cached_inner self }
    {
        let Cached {
            inner,
            blocks: _,
            asked: _,
        } = self;
        inner
    }

    /// The disk within, to look at.
    pub fn inner(&self) -> &D
        ensures { result.now ≡ cached_inner self.now }
    {
        &self.inner
    }

    /// How many blocks are kept.
    pub fn kept(&self) -> usize
        ensures count { result ≡ cached_count self.now }
        ensures bound { result ≤ 4096 }
        ensures sparing { (number : ℕ) → number % 100 ≡ 99 → cached_block self.now number ≡ None }
    {
        self.blocks.kept()
    }

    /// How many times a block wasn't kept for want of memory.
    pub fn starved(&self) -> u64
        ensures { result ≡ cached_starved self.now }
    {
        self.blocks.starved()
    }

    /// Whether a read of so many bytes goes past the blocks: it is as long as a block, and its last byte lies in none
    /// that is kept.
    fn goes_past(&self, off: u64, len: usize) -> bool
        requires { len < 2 ^ 63 }
        ensures { IsTrue result ↔ (block_size ≤ len) × (IsKept self.now (off + len - 1) → ⊥) }
    {
        len >= BLOCK_SIZE && !self.blocks.keeps(Piece::after(off, len - 1, len).number)
    }

    /// Reads bytes that lie in one block that is kept. False where they don't, and then nothing was read.
    fn read_kept(&self, off: u64, buf: &mut [u8]) -> bool
        requires { off + length buf.old ≤ D.size (cached_inner self.now) }
        ensures bytes { IsTrue result → IsTrue D.tells → buf.new ≡ take (length buf.old) (drop off (seen (D.history (cached_inner self.now)))) }
        ensures kept { IsTrue result → KeepsRange self.now off (length buf.old) }
    {
        let number = (off / BLOCK_SIZE as u64) as usize;
        let within = (off % BLOCK_SIZE as u64) as usize;
        within + buf.len() <= BLOCK_SIZE && self.blocks.copy_out(number, within, buf)
    }

    /// Reads the bytes from offset `off` on, block after block.
    fn read_pieces(&mut self, off: u64, buf: &mut [u8]) -> Result<(), DiskFault>
        requires { off + length buf.old ≤ D.size (cached_inner self.old) }
        ensures bytes { OnOk result (IsTrue D.tells → buf.new ≡ take (length buf.old) (drop off (seen (D.history (cached_inner self.old))))) }
        ensures looked { Looked self.old self.new }
        ensures cause { HasCause (D.faults (cached_inner self.old)) (D.faults (cached_inner self.new)) result }
        ensures bytes_read { RoseUpTo (length buf.old + 2 * block_size) (D.bytes_read (cached_inner self.old)) (D.bytes_read (cached_inner self.new)) }
        ensures full { most_kept ≤ cached_count self.old → RoseUpTo (length buf.old) (D.bytes_read (cached_inner self.old)) (D.bytes_read (cached_inner self.new)) }
        ensures there { KeepsRange self.old off (length buf.old) → cached_inner self.new ≡ cached_inner self.old }
        ensures filled { OnOk result ((at : ℕ) → off ≤ at → at < off + length buf.old → IsKept self.new at ⊎ WasRefused self.old self.new (at / block_size)) }
        ensures asked { cached_asked self.new ≡ cached_asked self.old }
    {
        let mut done = 0;
        while done < buf.len() {
            let piece = Piece::after(off, done, buf.len());
            self.read_piece(piece.number, piece.within, &mut buf[done..piece.end])?;
            done = piece.end;
        }
        Ok(())
    }

    /// Reads bytes that lie in one block.
    fn read_piece(&mut self, number: usize, within: usize, buf: &mut [u8]) -> Result<(), DiskFault>
        requires range { block_start number + within + length buf.old ≤ D.size (cached_inner self.old) }
        requires one_block { within + length buf.old ≤ block_size }
        ensures bytes { OnOk result (IsTrue D.tells → buf.new ≡ take (length buf.old) (drop (block_start number + within) (seen (D.history (cached_inner self.old))))) }
        ensures looked { Looked self.old self.new }
        ensures cause { HasCause (D.faults (cached_inner self.old)) (D.faults (cached_inner self.new)) result }
        ensures bytes_read { RoseUpTo block_size (D.bytes_read (cached_inner self.old)) (D.bytes_read (cached_inner self.new)) }
        ensures full { most_kept ≤ cached_count self.old → RoseUpTo (length buf.old) (D.bytes_read (cached_inner self.old)) (D.bytes_read (cached_inner self.new)) }
        ensures there { IsSome (cached_block self.old number) → self.new ≡ self.old }
        ensures filled { OnOk result (IsSome (cached_block self.new number) ⊎ WasRefused self.old self.new number) }
        ensures asked { cached_asked self.new ≡ cached_asked self.old }
    {
        if self.blocks.copy_out(number, within, buf) {
            return Ok(());
        }
        let size = self.inner.len()?;
        let start = number as u64 * BLOCK_SIZE as u64;
        if self.fill(number, start, size)? {
            self.blocks.copy_out(number, within, buf);
            return Ok(());
        }
        self.inner.read(start + within as u64, buf)
    }

    /// Reads a block and keeps it. False where it isn't to be kept, and then nothing was read.
    fn fill(&mut self, number: usize, start: u64, size: u64) -> Result<bool, DiskFault>
        requires start { start ≡ block_start number }
        requires below { start ≤ size }
        requires size { size ≡ D.size (cached_inner self.old) }
        requires new { cached_block self.old number ≡ None }
        ensures looked { Looked self.old self.new }
        ensures cause { HasCause (D.faults (cached_inner self.old)) (D.faults (cached_inner self.new)) result }
        ensures filled { IfOk result (λ filled. IsTrue filled → IsSome (cached_block self.new number)) }
        ensures room { cached_count self.old < most_kept ⊎ (D.bytes_read (cached_inner self.new) ≡ D.bytes_read (cached_inner self.old)) }
        ensures refused { IfOk result (λ filled. IsFalse filled → WasRefused self.old self.new number) }
        ensures unread { IfOk result (λ filled. IsFalse filled → D.bytes_read (cached_inner self.new) ≡ D.bytes_read (cached_inner self.old)) }
        ensures bytes_read { RoseUpTo block_size (D.bytes_read (cached_inner self.old)) (D.bytes_read (cached_inner self.new)) }
        ensures asked { cached_asked self.new ≡ cached_asked self.old }
    {
        let len = (size - start).min(BLOCK_SIZE as u64) as usize;
        let Some(mut block) = self.blocks.room(number, len) else {
            return Ok(false);
        };
        self.inner.read(start, &mut block)?;
        self.blocks.keep(number, block);
        Ok(true)
    }
}

impl<D: Disk> Disk for Cached<D> {
    ghost use Rattle.tdb_cache.specs.Cached.{cached_inner, cached_asked, cached_count, IsKept, KeepsAll, KeepsRange, WasRefused, WentPast};

    ghost tells = { D.tells };

    ghost history = { λ c. D.history (cached_inner c) };

    ghost size = { λ c. D.size (cached_inner c) };

    ghost faults = { λ c. D.faults (cached_inner c) };

    ghost syncs = { λ c. D.syncs (cached_inner c) };

    ghost bytes_read = { λ c. cached_asked c };

    fn len(&mut self) -> Result<u64, DiskFault>
        ensures length { IfOk result (λ n. n ≡ D.size (cached_inner self.old)) }
        ensures size { D.size (cached_inner self.new) ≡ D.size (cached_inner self.old) }
        ensures history { D.history (cached_inner self.new) ≡ D.history (cached_inner self.old) }
        ensures cause { HasCause (D.faults (cached_inner self.old)) (D.faults (cached_inner self.new)) result }
        ensures syncs { D.syncs (cached_inner self.new) ≡ D.syncs (cached_inner self.old) }
        ensures bytes_read { cached_asked self.new ≡ cached_asked self.old }
        ensures unread { D.bytes_read (cached_inner self.new) ≡ D.bytes_read (cached_inner self.old) }
        ensures kept { KeepsAll self.old self.new }
    {
        self.inner.len()
    }

    fn read(&mut self, off: u64, buf: &mut [u8]) -> Result<(), DiskFault>
        requires { off + length buf.old ≤ D.size (cached_inner self.old) }
        ensures bytes { OnOk result (IsTrue D.tells → buf.new ≡ take (length buf.old) (drop off (seen (D.history (cached_inner self.old))))) }
        ensures size { D.size (cached_inner self.new) ≡ D.size (cached_inner self.old) }
        ensures history { D.history (cached_inner self.new) ≡ D.history (cached_inner self.old) }
        ensures cause { HasCause (D.faults (cached_inner self.old)) (D.faults (cached_inner self.new)) result }
        ensures syncs { D.syncs (cached_inner self.new) ≡ D.syncs (cached_inner self.old) }
        ensures bytes_read { RoseUpTo (length buf.old) (cached_asked self.old) (cached_asked self.new) }
        ensures all_read { OnOk result (RoseBy (length buf.old) (cached_asked self.old) (cached_asked self.new)) }
        ensures inner_read { RoseUpTo (length buf.old + 2 * block_size) (D.bytes_read (cached_inner self.old)) (D.bytes_read (cached_inner self.new)) }
        ensures full { most_kept ≤ cached_count self.old → RoseUpTo (length buf.old) (D.bytes_read (cached_inner self.old)) (D.bytes_read (cached_inner self.new)) }
        ensures there { KeepsRange self.old off (length buf.old) → cached_inner self.new ≡ cached_inner self.old }
        ensures filled { OnOk result ((length buf.old < block_size) ⊎ IsKept self.old (off + length buf.old - 1) → (at : ℕ) → off ≤ at → at < off + length buf.old → IsKept self.new at ⊎ WasRefused self.old self.new (at / block_size)) }
        ensures past { block_size ≤ length buf.old → (IsKept self.old (off + length buf.old - 1) → ⊥) → WentPast (length buf.old) self.old self.new }
        ensures kept { KeepsAll self.old self.new }
    {
        if self.goes_past(off, buf.len()) {
            self.inner.read(off, buf)?;
        } else if !self.read_kept(off, buf) {
            self.read_pieces(off, buf)?;
        }
        self.asked = self.asked.saturating_add(buf.len() as u64);
        Ok(())
    }

    fn write(&mut self, off: u64, bytes: &[u8]) -> Result<(), DiskFault>
        requires { off + length bytes.now ≤ D.size (cached_inner self.old) }
        ensures tried { TriedOver off (length bytes.now) (D.history (cached_inner self.old)) (D.history (cached_inner self.new)) }
        ensures done { OnOk result (IsTrue D.tells → D.history (cached_inner self.new) ≡ called (D.history (cached_inner self.old)) (wrote off bytes.now)) }
        ensures size { D.size (cached_inner self.new) ≡ D.size (cached_inner self.old) }
        ensures cause { HasCause (D.faults (cached_inner self.old)) (D.faults (cached_inner self.new)) result }
        ensures syncs { D.syncs (cached_inner self.new) ≡ D.syncs (cached_inner self.old) }
        ensures bytes_read { cached_asked self.new ≡ cached_asked self.old }
        ensures unread { D.bytes_read (cached_inner self.new) ≡ D.bytes_read (cached_inner self.old) }
        ensures kept { OnOk result (KeepsAll self.old self.new) }
    {
        self.blocks.settle(self.inner.write(off, bytes))?;
        self.blocks.overwrite(off, bytes);
        Ok(())
    }

    fn write_word(&mut self, off: u64, w: [u8; 4]) -> Result<(), DiskFault>
        requires aligned { off % 4 ≡ 0 }
        requires within { off + 4 ≤ D.size (cached_inner self.old) }
        ensures tried { Tried (wrote_word off w) (D.history (cached_inner self.old)) (D.history (cached_inner self.new)) }
        ensures done { OnOk result (IsTrue D.tells → D.history (cached_inner self.new) ≡ called (D.history (cached_inner self.old)) (wrote_word off w)) }
        ensures size { D.size (cached_inner self.new) ≡ D.size (cached_inner self.old) }
        ensures cause { HasCause (D.faults (cached_inner self.old)) (D.faults (cached_inner self.new)) result }
        ensures syncs { D.syncs (cached_inner self.new) ≡ D.syncs (cached_inner self.old) }
        ensures bytes_read { cached_asked self.new ≡ cached_asked self.old }
        ensures unread { D.bytes_read (cached_inner self.new) ≡ D.bytes_read (cached_inner self.old) }
        ensures kept { OnOk result (KeepsAll self.old self.new) }
    {
        self.blocks.settle(self.inner.write_word(off, w))?;
        self.blocks.overwrite(off, &w);
        Ok(())
    }

    fn grow(&mut self, to: u64) -> Result<(), DiskFault>
        requires { D.size (cached_inner self.old) ≤ to }
        ensures tried { Tried (grew to) (D.history (cached_inner self.old)) (D.history (cached_inner self.new)) }
        ensures done { OnOk result (IsTrue D.tells → D.history (cached_inner self.new) ≡ called (D.history (cached_inner self.old)) (grew to)) }
        ensures size { (D.size (cached_inner self.new) ≡ D.size (cached_inner self.old)) ⊎ (D.size (cached_inner self.new) ≡ to) }
        ensures grown { OnOk result (D.size (cached_inner self.new) ≡ to) }
        ensures cause { HasCause (D.faults (cached_inner self.old)) (D.faults (cached_inner self.new)) result }
        ensures syncs { D.syncs (cached_inner self.new) ≡ D.syncs (cached_inner self.old) }
        ensures bytes_read { cached_asked self.new ≡ cached_asked self.old }
        ensures unread { D.bytes_read (cached_inner self.new) ≡ D.bytes_read (cached_inner self.old) }
        ensures kept { OnOk result ((at : ℕ) → at / block_size < D.size (cached_inner self.old) / block_size → IsKept self.old at → IsKept self.new at) }
    {
        let from = self.inner.len()?;
        self.blocks.forget_from((from / BLOCK_SIZE as u64) as usize);
        self.blocks.settle(self.inner.grow(to))
    }

    fn cut(&mut self, to: u64) -> Result<(), DiskFault>
        requires { to ≤ D.size (cached_inner self.old) }
        ensures tried { Tried (cut to) (D.history (cached_inner self.old)) (D.history (cached_inner self.new)) }
        ensures done { OnOk result (IsTrue D.tells → D.history (cached_inner self.new) ≡ called (D.history (cached_inner self.old)) (cut to)) }
        ensures size { (D.size (cached_inner self.new) ≡ D.size (cached_inner self.old)) ⊎ (D.size (cached_inner self.new) ≡ to) }
        ensures shortened { OnOk result (D.size (cached_inner self.new) ≡ to) }
        ensures cause { HasCause (D.faults (cached_inner self.old)) (D.faults (cached_inner self.new)) result }
        ensures syncs { D.syncs (cached_inner self.new) ≡ D.syncs (cached_inner self.old) }
        ensures bytes_read { cached_asked self.new ≡ cached_asked self.old }
        ensures unread { D.bytes_read (cached_inner self.new) ≡ D.bytes_read (cached_inner self.old) }
        ensures kept { OnOk result ((at : ℕ) → at / block_size < to / block_size → IsKept self.old at → IsKept self.new at) }
    {
        self.blocks.forget_from((to / BLOCK_SIZE as u64) as usize);
        self.blocks.settle(self.inner.cut(to))
    }

    fn sync(&mut self) -> Result<(), DiskFault>
        ensures tried { Tried synced (D.history (cached_inner self.old)) (D.history (cached_inner self.new)) }
        ensures done { OnOk result (IsTrue D.tells → D.history (cached_inner self.new) ≡ called (D.history (cached_inner self.old)) synced) }
        ensures size { D.size (cached_inner self.new) ≡ D.size (cached_inner self.old) }
        ensures cause { HasCause (D.faults (cached_inner self.old)) (D.faults (cached_inner self.new)) result }
        ensures syncs { MatchResult result (λ _. RoseBy 1 (D.syncs (cached_inner self.old)) (D.syncs (cached_inner self.new))) (λ _. D.syncs (cached_inner self.new) ≡ D.syncs (cached_inner self.old)) }
        ensures bytes_read { cached_asked self.new ≡ cached_asked self.old }
        ensures unread { D.bytes_read (cached_inner self.new) ≡ D.bytes_read (cached_inner self.old) }
        ensures kept { OnOk result (KeepsAll self.old self.new) }
    {
        self.blocks.settle(self.inner.sync())
    }

    ghost told_size = { λ c told. D.told_size (cached_inner c) told };
}
