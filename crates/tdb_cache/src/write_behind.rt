//! A disk whose content is kept in memory while it is short, and written behind.
ghost use Rattle.std.specs.Prelude.{◌≡◌, ◌+◌, ◌%◌, ◌≤◌, ◌<◌, ◌⊎◌, [], IsTrue, IsOk, IfOk, OnOk, MatchResult, length, take, drop, true, false};
ghost use Rattle.std.proofs.lemmas.Bool.{false≢true};
ghost use Rattle.tdb_disk.specs.Count.{HasCause, Rose, RoseBy, RoseUpTo};
ghost use Rattle.tdb_disk.specs.History.{wrote, wrote_word, grew, cut, synced, began, called, seen, clock};
ghost use Rattle.tdb_disk.specs.Image.{overlay, padded};
ghost use Rattle.tdb_disk.specs.Stop.{Quiet};
ghost use Rattle.tdb_cache.specs.Blocks.{AllSized};
ghost use Rattle.tdb_cache.specs.Content.{content_bytes, most_content, SameWritten};
ghost use Rattle.tdb_cache.specs.Kept.{ForGathered, ForWhole};

use crate::content::Content;
use crate::kept::Kept;
use crate::pending::Pending;
use std::alloc::Global;
use tdb_disk::{Disk, DiskFault};

/// A disk that is written behind, as a new file is. Its content is kept in memory while it is short, up to 1 MiB: a
/// write costs a copy of its bytes, and reaches the disk within at the next sync, which writes all by one call. Past
/// that blocks of 64 KiB are gathered, 32 at most, and reach it at the next sync, growth or cut, or when others take
/// their places. Where nothing is kept each call is passed on.
///
/// The length is that of the disk within at any time: a growth and a cut are passed on at once. Between two syncs a
/// stop leaves what the disk within has, which is less than what a read gives, so no history is told.
#[derive(Drop)]
pub struct WriteBehind<D: Disk> {
    inner: D,
    kept: Kept,
    asked: u64,
    ghost reaches: { ForWhole kept (λ content. D.size inner ≤ length (content_bytes content)) },
    ghost sized: { ForGathered kept (λ pending. AllSized pending.blocks (D.size inner)) },
    ghost same: { IsTrue D.tells → ForWhole kept (λ content. SameWritten content (seen (D.history inner))) },
}

impl<D: Disk> WriteBehind<D> {
    ghost use Rattle.tdb_cache.specs.Laid.{NoneKept};
    ghost use Rattle.tdb_cache.specs.WriteBehind.{behind_inner, behind_asked, behind_view, keeps_content, owed, passes_on};

    /// The disk `d`, to which each call is passed on.
    pub fn through(d: D) -> WriteBehind<D>
        ensures inner { behind_inner result ≡ d }
        ensures asked { behind_asked result ≡ 0 }
        ensures keeps { keeps_content result ≡ false }
        ensures passes { passes_on result ≡ true }
        ensures view { behind_view result ≡ seen (D.history d) }
    {
        WriteBehind {
            inner: d,
            kept: Kept::Nothing,
            asked: 0,
        }
    }

    /// The empty disk `d`, whose content is kept up to 1 MiB. It takes no memory yet.
    pub fn of_empty(alloc: Global, d: D) -> WriteBehind<D>
        requires { D.size d ≡ 0 }
        ensures inner { behind_inner result ≡ d }
        ensures asked { behind_asked result ≡ 0 }
        ensures keeps { keeps_content result ≡ true }
        ensures view { behind_view result ≡ [] }
    {
        WriteBehind {
            inner: d,
            kept: Kept::Whole(Content::new(alloc)),
            asked: 0,
        }
    }

    /// The disk within. It lacks what was written since the last sync, if that is kept.
    pub fn inner(&self) -> &D
        ensures { result.now ≡ behind_inner self.now }
    {
        &self.inner
    }

    /// Writes to the disk within what it lacks: of a content by one call the stretch from the first to the last byte
    /// that was written since the last flush, and each block that is gathered by a call. After an Err nothing is lost,
    /// and the next flush writes it.
    pub fn flush(&mut self) -> Result<(), DiskFault>
        ensures view { IsTrue D.tells → behind_view self.new ≡ behind_view self.old }
        ensures shown { OnOk result (IsTrue D.tells → seen (D.history (behind_inner self.new)) ≡ behind_view self.old) }
        ensures calls { clock (D.history (behind_inner self.new)) ≤ clock (D.history (behind_inner self.old)) + owed self.old }
        ensures few { owed self.old ≤ 32 }
        ensures passed { passes_on self.old ≡ true → behind_inner self.new ≡ behind_inner self.old }
        ensures keeps { keeps_content self.new ≡ keeps_content self.old }
        ensures passes { passes_on self.new ≡ passes_on self.old }
        ensures size { D.size (behind_inner self.new) ≡ D.size (behind_inner self.old) }
        ensures cause { HasCause (D.faults (behind_inner self.old)) (D.faults (behind_inner self.new)) result }
        ensures syncs { D.syncs (behind_inner self.new) ≡ D.syncs (behind_inner self.old) }
        ensures asked { behind_asked self.new ≡ behind_asked self.old }
    {
        match &mut self.kept {
            Kept::Nothing => Ok(()),
            Kept::Whole(content) => content.flush(&mut self.inner),
            Kept::Gathered(pending) => pending.flush(&mut self.inner),
        }
    }

    /// The disk within, after a flush. Where that fails the disk within has counted a fault, and lacks what was written
    /// since the last flush that didn't.
    pub fn finish(mut self) -> D
        ensures view { IsTrue D.tells → (seen (D.history result) ≡ behind_view self) ⊎ Rose (D.faults (behind_inner self)) (D.faults result) }
        ensures size { D.size result ≡ D.size (behind_inner self) }
    {
        let _ = self.flush();
        let WriteBehind {
            inner,
            kept: _,
            asked: _,
        } = self;
        inner
    }

    /// Makes the content as long as the file is to be. Where that is too long, or there is no memory for it, the
    /// content is flushed, and blocks are gathered from now on. Those that are go out.
    fn lengthen(&mut self, to: u64) -> Result<(), DiskFault>
        requires { D.size (behind_inner self.old) ≤ to }
        ensures view { IsTrue D.tells → behind_view self.new ≡ behind_view self.old }
        ensures longer { OnOk result (ForWhole self.new.kept (λ content. content_bytes content ≡ padded (behind_view self.new) to)) }
        ensures none { OnOk result (ForGathered self.new.kept (λ pending. NoneKept pending.blocks)) }
        ensures past { most_content < to → OnOk result (keeps_content self.new ≡ false) }
        ensures passed { passes_on self.old ≡ true → behind_inner self.new ≡ behind_inner self.old }
        ensures keeps { keeps_content self.old ≡ false → keeps_content self.new ≡ false }
        ensures passes { passes_on self.new ≡ passes_on self.old }
        ensures size { D.size (behind_inner self.new) ≡ D.size (behind_inner self.old) }
        ensures cause { HasCause (D.faults (behind_inner self.old)) (D.faults (behind_inner self.new)) result }
        ensures syncs { D.syncs (behind_inner self.new) ≡ D.syncs (behind_inner self.old) }
        ensures asked { behind_asked self.new ≡ behind_asked self.old }
    {
        match &mut self.kept {
            Kept::Nothing => {}
            Kept::Whole(content) => {
                let from = self.inner.len()?;
                if !content.lengthen(from as usize, to as usize) {
                    content.flush(&mut self.inner)?;
                    self.kept = Kept::Gathered(Pending::new(content.alloc()));
                }
            }
            Kept::Gathered(pending) => pending.flush(&mut self.inner)?,
        }
        Ok(())
    }

    /// Writes the blocks that are gathered, if any are, before a cut.
    fn shorten(&mut self) -> Result<(), DiskFault>
        ensures view { IsTrue D.tells → behind_view self.new ≡ behind_view self.old }
        ensures none { OnOk result (ForGathered self.new.kept (λ pending. NoneKept pending.blocks)) }
        ensures passed { passes_on self.old ≡ true → behind_inner self.new ≡ behind_inner self.old }
        ensures keeps { keeps_content self.new ≡ keeps_content self.old }
        ensures passes { passes_on self.new ≡ passes_on self.old }
        ensures size { D.size (behind_inner self.new) ≡ D.size (behind_inner self.old) }
        ensures cause { HasCause (D.faults (behind_inner self.old)) (D.faults (behind_inner self.new)) result }
        ensures syncs { D.syncs (behind_inner self.new) ≡ D.syncs (behind_inner self.old) }
        ensures asked { behind_asked self.new ≡ behind_asked self.old }
    {
        match &mut self.kept {
            Kept::Nothing | Kept::Whole(_) => Ok(()),
            Kept::Gathered(pending) => pending.flush(&mut self.inner),
        }
    }
}

impl<D: Disk> Disk for WriteBehind<D> {
    ghost use Rattle.tdb_cache.specs.WriteBehind.{behind_inner, behind_asked, behind_view, keeps_content, owed, passes_on, HasInMemory};
    ghost use Rattle.tdb_cache.specs.View.{ViewTried, ViewTriedOver};

    ghost tells = { false };

    ghost history = { λ _. began [] };

    ghost size = { λ w. D.size (behind_inner w) };

    ghost faults = { λ w. D.faults (behind_inner w) };

    ghost syncs = { λ w. D.syncs (behind_inner w) };

    ghost bytes_read = { λ w. behind_asked w };

    fn len(&mut self) -> Result<u64, DiskFault>
        ensures length { IfOk result (λ n. n ≡ D.size (behind_inner self.old)) }
        ensures view { behind_view self.new ≡ behind_view self.old }
        ensures history { D.history (behind_inner self.new) ≡ D.history (behind_inner self.old) }
        ensures keeps { keeps_content self.new ≡ keeps_content self.old }
        ensures passes { passes_on self.new ≡ passes_on self.old }
        ensures size { D.size (behind_inner self.new) ≡ D.size (behind_inner self.old) }
        ensures cause { HasCause (D.faults (behind_inner self.old)) (D.faults (behind_inner self.new)) result }
        ensures syncs { D.syncs (behind_inner self.new) ≡ D.syncs (behind_inner self.old) }
        ensures bytes_read { behind_asked self.new ≡ behind_asked self.old }
    {
        self.inner.len()
    }

    fn read(&mut self, off: u64, buf: &mut [u8]) -> Result<(), DiskFault>
        requires { off + length buf.old ≤ D.size (behind_inner self.old) }
        ensures bytes { OnOk result (IsTrue D.tells → buf.new ≡ take (length buf.old) (drop off (behind_view self.old))) }
        ensures view { behind_view self.new ≡ behind_view self.old }
        ensures behind { keeps_content self.old ≡ true → behind_inner self.new ≡ behind_inner self.old }
        ensures answer { keeps_content self.old ≡ true → IsOk result }
        ensures pending { HasInMemory self.old off (length buf.old) → (behind_inner self.new ≡ behind_inner self.old) × IsOk result }
        ensures history { D.history (behind_inner self.new) ≡ D.history (behind_inner self.old) }
        ensures keeps { keeps_content self.new ≡ keeps_content self.old }
        ensures passes { passes_on self.new ≡ passes_on self.old }
        ensures size { D.size (behind_inner self.new) ≡ D.size (behind_inner self.old) }
        ensures cause { HasCause (D.faults (behind_inner self.old)) (D.faults (behind_inner self.new)) result }
        ensures syncs { D.syncs (behind_inner self.new) ≡ D.syncs (behind_inner self.old) }
        ensures bytes_read { RoseUpTo (length buf.old) (behind_asked self.old) (behind_asked self.new) }
        ensures all_read { OnOk result (RoseBy (length buf.old) (behind_asked self.old) (behind_asked self.new)) }
    {
        match &self.kept {
            Kept::Nothing => self.inner.read(off, buf)?,
            Kept::Whole(content) => content.copy_out(off as usize, buf),
            Kept::Gathered(pending) => pending.read(&mut self.inner, off, buf)?,
        }
        self.asked = self.asked.saturating_add(buf.len() as u64);
        Ok(())
    }

    fn write(&mut self, off: u64, bytes: &[u8]) -> Result<(), DiskFault>
        requires { off + length bytes.now ≤ D.size (behind_inner self.old) }
        ensures view { OnOk result (IsTrue D.tells → behind_view self.new ≡ overlay (behind_view self.old) off bytes.now) }
        ensures tried { IsTrue D.tells → ViewTriedOver off (length bytes.now) (behind_view self.old) (behind_view self.new) }
        ensures behind { keeps_content self.old ≡ true → behind_inner self.new ≡ behind_inner self.old }
        ensures answer { keeps_content self.old ≡ true → IsOk result }
        ensures pending { HasInMemory self.old off (length bytes.now) → (behind_inner self.new ≡ behind_inner self.old) × IsOk result }
        ensures passed { passes_on self.old ≡ true → OnOk result (IsTrue D.tells → D.history (behind_inner self.new) ≡ called (D.history (behind_inner self.old)) (wrote off bytes.now)) }
        ensures keeps { keeps_content self.new ≡ keeps_content self.old }
        ensures passes { passes_on self.new ≡ passes_on self.old }
        ensures size { D.size (behind_inner self.new) ≡ D.size (behind_inner self.old) }
        ensures cause { HasCause (D.faults (behind_inner self.old)) (D.faults (behind_inner self.new)) result }
        ensures syncs { D.syncs (behind_inner self.new) ≡ D.syncs (behind_inner self.old) }
        ensures bytes_read { behind_asked self.new ≡ behind_asked self.old }
    {
        match &mut self.kept {
            Kept::Nothing => self.inner.write(off, bytes),
            Kept::Whole(content) => {
                content.write(off as usize, bytes);
                Ok(())
            }
            Kept::Gathered(pending) => pending.write(&mut self.inner, off, bytes),
        }
    }

    fn write_word(&mut self, off: u64, w: [u8; 4]) -> Result<(), DiskFault>
        requires aligned { off % 4 ≡ 0 }
        requires within { off + 4 ≤ D.size (behind_inner self.old) }
        ensures view { OnOk result (IsTrue D.tells → behind_view self.new ≡ overlay (behind_view self.old) off w) }
        ensures tried { IsTrue D.tells → ViewTried (wrote_word off w) (behind_view self.old) (behind_view self.new) }
        ensures behind { keeps_content self.old ≡ true → behind_inner self.new ≡ behind_inner self.old }
        ensures answer { keeps_content self.old ≡ true → IsOk result }
        ensures pending { HasInMemory self.old off 4 → (behind_inner self.new ≡ behind_inner self.old) × IsOk result }
        ensures passed { passes_on self.old ≡ true → OnOk result (IsTrue D.tells → D.history (behind_inner self.new) ≡ called (D.history (behind_inner self.old)) (wrote_word off w)) }
        ensures keeps { keeps_content self.new ≡ keeps_content self.old }
        ensures passes { passes_on self.new ≡ passes_on self.old }
        ensures size { D.size (behind_inner self.new) ≡ D.size (behind_inner self.old) }
        ensures cause { HasCause (D.faults (behind_inner self.old)) (D.faults (behind_inner self.new)) result }
        ensures syncs { D.syncs (behind_inner self.new) ≡ D.syncs (behind_inner self.old) }
        ensures bytes_read { behind_asked self.new ≡ behind_asked self.old }
    {
        match &mut self.kept {
            Kept::Nothing => self.inner.write_word(off, w),
            Kept::Whole(content) => {
                content.write(off as usize, &w);
                Ok(())
            }
            Kept::Gathered(pending) => pending.write_word(&mut self.inner, off, w),
        }
    }

    fn grow(&mut self, to: u64) -> Result<(), DiskFault>
        requires { D.size (behind_inner self.old) ≤ to }
        ensures view { OnOk result (IsTrue D.tells → behind_view self.new ≡ padded (behind_view self.old) to) }
        ensures tried { IsTrue D.tells → ViewTried (grew to) (behind_view self.old) (behind_view self.new) }
        ensures passed { passes_on self.old ≡ true → OnOk result (IsTrue D.tells → D.history (behind_inner self.new) ≡ called (D.history (behind_inner self.old)) (grew to)) }
        ensures past { most_content < to → OnOk result (keeps_content self.new ≡ false) }
        ensures keeps { keeps_content self.old ≡ false → keeps_content self.new ≡ false }
        ensures passes { passes_on self.new ≡ passes_on self.old }
        ensures size { (D.size (behind_inner self.new) ≡ D.size (behind_inner self.old)) ⊎ (D.size (behind_inner self.new) ≡ to) }
        ensures grown { OnOk result (D.size (behind_inner self.new) ≡ to) }
        ensures cause { HasCause (D.faults (behind_inner self.old)) (D.faults (behind_inner self.new)) result }
        ensures syncs { D.syncs (behind_inner self.new) ≡ D.syncs (behind_inner self.old) }
        ensures bytes_read { behind_asked self.new ≡ behind_asked self.old }
    {
        self.lengthen(to)?;
        self.inner.grow(to)
    }

    fn cut(&mut self, to: u64) -> Result<(), DiskFault>
        requires { to ≤ D.size (behind_inner self.old) }
        ensures view { OnOk result (IsTrue D.tells → behind_view self.new ≡ take to (behind_view self.old)) }
        ensures tried { IsTrue D.tells → ViewTried (cut to) (behind_view self.old) (behind_view self.new) }
        ensures passed { passes_on self.old ≡ true → OnOk result (IsTrue D.tells → D.history (behind_inner self.new) ≡ called (D.history (behind_inner self.old)) (cut to)) }
        ensures keeps { keeps_content self.new ≡ keeps_content self.old }
        ensures passes { passes_on self.new ≡ passes_on self.old }
        ensures size { (D.size (behind_inner self.new) ≡ D.size (behind_inner self.old)) ⊎ (D.size (behind_inner self.new) ≡ to) }
        ensures shortened { OnOk result (D.size (behind_inner self.new) ≡ to) }
        ensures cause { HasCause (D.faults (behind_inner self.old)) (D.faults (behind_inner self.new)) result }
        ensures syncs { D.syncs (behind_inner self.new) ≡ D.syncs (behind_inner self.old) }
        ensures bytes_read { behind_asked self.new ≡ behind_asked self.old }
    {
        self.shorten()?;
        self.inner.cut(to)
    }

    fn sync(&mut self) -> Result<(), DiskFault>
        ensures view { IsTrue D.tells → behind_view self.new ≡ behind_view self.old }
        ensures shown { OnOk result (IsTrue D.tells → seen (D.history (behind_inner self.new)) ≡ behind_view self.old) }
        ensures quiet { OnOk result (IsTrue D.tells → Quiet (D.history (behind_inner self.new))) }
        ensures calls { clock (D.history (behind_inner self.new)) ≤ clock (D.history (behind_inner self.old)) + owed self.old + 1 }
        ensures few { owed self.old ≤ 32 }
        ensures passed { passes_on self.old ≡ true → OnOk result (IsTrue D.tells → D.history (behind_inner self.new) ≡ called (D.history (behind_inner self.old)) synced) }
        ensures keeps { keeps_content self.new ≡ keeps_content self.old }
        ensures passes { passes_on self.new ≡ passes_on self.old }
        ensures size { D.size (behind_inner self.new) ≡ D.size (behind_inner self.old) }
        ensures cause { HasCause (D.faults (behind_inner self.old)) (D.faults (behind_inner self.new)) result }
        ensures syncs { MatchResult result (λ _. RoseBy 1 (D.syncs (behind_inner self.old)) (D.syncs (behind_inner self.new))) (λ _. D.syncs (behind_inner self.new) ≡ D.syncs (behind_inner self.old)) }
        ensures bytes_read { behind_asked self.new ≡ behind_asked self.old }
    {
        self.flush()?;
        self.inner.sync()
    }

    ghost told_size = { λ _ told. absurd (false≢true told) };
}
