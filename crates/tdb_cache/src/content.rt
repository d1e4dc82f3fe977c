//! The content of a file that is kept in memory, and which part of it isn't written yet.
ghost use Rattle.std.specs.Prelude.{◌≡◌, ◌+◌, ◌≤◌, ◌<◌, ◌⊎◌, ℕ, [], IsTrue, OnOk, length, take, drop};
ghost use Rattle.std.specs.Bool.{OnTrue, OnFalse};
ghost use Rattle.tdb_disk.specs.Count.{HasCause};
ghost use Rattle.tdb_disk.specs.History.{clock, seen};
ghost use Rattle.tdb_disk.specs.Image.{overlay, padded};

use std::alloc::Global;
use tdb_disk::{Disk, DiskFault};

/// The longest content that is kept, 1 MiB.
const MOST_CONTENT: u64 = 1_048_576;

/// The bytes of a content from `start` up to `end`.
#[derive(Clone, Copy)]
struct Stretch {
    start: usize,
    end: usize,
}

/// A stretch of no bytes.
const NOTHING: Stretch = Stretch { start: 0, end: 0 };

/// The content of a file, and the stretch from the first to the last byte that was written to it and not yet to the
/// file. It may be longer than the file; only its front counts then.
#[derive(Drop)]
pub struct Content {
    alloc: Global,
    bytes: Vec<u8>,
    pending: Stretch,
    ghost short: { length bytes.items ≤ 1048576 },
}

impl Content {
    ghost use Rattle.tdb_cache.specs.Content.{content_bytes, IsWritten, SameWritten};

    /// No bytes. It takes no memory.
    pub(crate) fn new(alloc: Global) -> Content
        ensures { content_bytes result ≡ [] }
    {
        Content {
            alloc,
            bytes: Vec::new(alloc),
            pending: NOTHING,
        }
    }

    /// Where its memory is from.
    pub(crate) fn alloc(&self) -> Global {
        self.alloc
    }

    /// Copies bytes of the content.
    pub(crate) fn copy_out(&self, off: usize, buf: &mut [u8])
        requires { off + length buf.old ≤ length (content_bytes self.now) }
        ensures { buf.new ≡ take (length buf.old) (drop off (content_bytes self.now)) }
    {
        buf.copy_from_slice(&self.bytes[off..off + buf.len()]);
    }

    /// Writes over bytes of the content. The next flush writes them, and what lies between them and what was written
    /// before.
    pub(crate) fn write(&mut self, off: usize, bytes: &[u8])
        requires { off + length bytes.now ≤ length (content_bytes self.old) }
        ensures bytes { content_bytes self.new ≡ overlay (content_bytes self.old) off bytes.now }
        ensures before { (at : ℕ) → IsWritten self.new at → IsWritten self.old at }
        ensures apart { (at : ℕ) → IsWritten self.new at → (at < off) ⊎ (off + length bytes.now ≤ at) }
    {
        let end = off + bytes.len();
        self.bytes[off..end].copy_from_slice(bytes);
        let Stretch { start, end: last } = self.pending;
        self.pending = if start < last {
            Stretch {
                start: start.min(off),
                end: last.max(end),
            }
        } else {
            Stretch { start: off, end }
        };
    }

    /// Cuts the content to the file's length and makes it as long as the file is to be, by zeros. False where that is
    /// too long or there is no memory for it; it is only cut then.
    pub(crate) fn lengthen(&mut self, from: usize, to: usize) -> bool
        requires reaches { from ≤ length (content_bytes self.old) }
        requires longer { from ≤ to }
        ensures longer { OnTrue result (content_bytes self.new ≡ padded (take from (content_bytes self.old)) to) }
        ensures as_long { OnFalse result (content_bytes self.new ≡ take from (content_bytes self.old)) }
        ensures written { (at : ℕ) → IsWritten self.new at → IsWritten self.old at }
    {
        self.bytes.truncate(from);
        to as u64 <= MOST_CONTENT && self.bytes.resize(to, 0).is_ok()
    }

    /// Writes the stretch to the disk, by one call, as far as the disk reaches. After an Err it is still to be written.
    pub(crate) fn flush<D: Disk>(&mut self, d: &mut D) -> Result<(), DiskFault>
        requires reaches { D.size d.old ≤ length (content_bytes self.old) }
        requires same { IsTrue D.tells → SameWritten self.old (seen (D.history d.old)) }
        ensures bytes { content_bytes self.new ≡ content_bytes self.old }
        ensures same { IsTrue D.tells → SameWritten self.new (seen (D.history d.new)) }
        ensures written { OnOk result (IsTrue D.tells → seen (D.history d.new) ≡ take (D.size d.old) (content_bytes self.old)) }
        ensures calls { clock (D.history d.new) ≤ clock (D.history d.old) + 1 }
        ensures size { D.size d.new ≡ D.size d.old }
        ensures cause { HasCause (D.faults d.old) (D.faults d.new) result }
        ensures syncs { D.syncs d.new ≡ D.syncs d.old }
        ensures bytes_read { D.bytes_read d.new ≡ D.bytes_read d.old }
    {
        let size = d.len()? as usize;
        let Stretch { start, end } = self.pending;
        let end = end.min(size);
        if start < end {
            d.write(start as u64, &self.bytes[start..end])?;
        }
        self.pending = NOTHING;
        Ok(())
    }
}
