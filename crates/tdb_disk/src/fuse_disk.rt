//! A disk that passes some calls on and then fails, as at a stop of the machine.
ghost use Rattle.std.specs.Prelude.{◌≡◌, ◌+◌, ◌-◌, ◌%◌, ◌≤◌, ◌<◌, ◌⊎◌, IsTrue, IsErr, length, take, drop, IfOk, OnOk, OnErr, MatchResult};
ghost use Rattle.tdb_disk.specs.Count.{HasCause, RoseBy, RoseUpTo};
ghost use Rattle.tdb_disk.specs.FuseDisk.{fuse_inner, fuse_left, fuse_stopped};
ghost use Rattle.tdb_disk.specs.History.{wrote, wrote_word, grew, cut, synced, called, seen, Tried, TriedOver};

use crate::disk::{Disk, DiskFault};
use crate::script::raise;

/// A disk that passes a number of calls to the disk within, and fails every later one.
pub struct FuseDisk<D> {
    inner: D,
    left: u64,
    stopped: u64,
}

impl<D: Disk> FuseDisk<D> {
    /// The disk `d`, of which `k` calls are passed on.
    pub fn new(d: D, k: u64) -> FuseDisk<D>
        ensures inner { fuse_inner result ≡ d }
        ensures left { fuse_left result ≡ k }
        ensures stopped { fuse_stopped result ≡ 0 }
    {
        FuseDisk {
            inner: d,
            left: k,
            stopped: 0,
        }
    }

    /// The disk within.
    pub fn inner(self) -> D
        ensures { result ≡ fuse_inner self }
    {
        let FuseDisk {
            inner,
            left: _,
            stopped: _,
        } = self;
        inner
    }

    /// Counts a call, and fails where it isn't to be passed on.
    fn burn(&mut self) -> Result<(), DiskFault>
        ensures inner { fuse_inner self.new ≡ fuse_inner self.old }
        ensures left { fuse_left self.new ≡ fuse_left self.old - 1 }
        ensures passed { OnOk result (0 < fuse_left self.old) }
        ensures blown { OnErr result (fuse_left self.old ≡ 0) }
        ensures cause { HasCause (fuse_stopped self.old) (fuse_stopped self.new) result }
        ensures same { OnOk result (fuse_stopped self.new ≡ fuse_stopped self.old) }
    {
        if self.left == 0 {
            raise(&mut self.stopped);
            return Err(DiskFault);
        }
        self.left -= 1;
        Ok(())
    }
}

impl<D: Disk> Disk for FuseDisk<D> {
    ghost tells = { D.tells };

    ghost history = { λ f. D.history f.inner };

    ghost size = { λ f. D.size f.inner };

    ghost faults = { λ f. D.faults f.inner + f.stopped };

    ghost syncs = { λ f. D.syncs f.inner };

    ghost bytes_read = { λ f. D.bytes_read f.inner };

    fn len(&mut self) -> Result<u64, DiskFault>
        ensures burns { fuse_left self.new ≡ fuse_left self.old - 1 }
        ensures blown { fuse_left self.old ≡ 0 → IsErr result }
        ensures not_passed { fuse_left self.old ≡ 0 → fuse_inner self.new ≡ fuse_inner self.old }
        ensures passed { 0 < fuse_left self.old → HasCause (D.faults (fuse_inner self.old)) (D.faults (fuse_inner self.new)) result }
        ensures length { IfOk result (λ n. n ≡ D.size (fuse_inner self.old)) }
        ensures size { D.size (fuse_inner self.new) ≡ D.size (fuse_inner self.old) }
        ensures history { D.history (fuse_inner self.new) ≡ D.history (fuse_inner self.old) }
        ensures cause { HasCause (D.faults (fuse_inner self.old) + fuse_stopped self.old) (D.faults (fuse_inner self.new) + fuse_stopped self.new) result }
        ensures syncs { D.syncs (fuse_inner self.new) ≡ D.syncs (fuse_inner self.old) }
        ensures bytes_read { D.bytes_read (fuse_inner self.new) ≡ D.bytes_read (fuse_inner self.old) }
    {
        self.burn()?;
        self.inner.len()
    }

    fn read(&mut self, off: u64, buf: &mut [u8]) -> Result<(), DiskFault>
        requires { off + length buf.old ≤ D.size (fuse_inner self.old) }
        ensures burns { fuse_left self.new ≡ fuse_left self.old - 1 }
        ensures blown { fuse_left self.old ≡ 0 → IsErr result }
        ensures not_passed { fuse_left self.old ≡ 0 → fuse_inner self.new ≡ fuse_inner self.old }
        ensures passed { 0 < fuse_left self.old → HasCause (D.faults (fuse_inner self.old)) (D.faults (fuse_inner self.new)) result }
        ensures bytes { OnOk result (IsTrue D.tells → buf.new ≡ take (length buf.old) (drop off (seen (D.history (fuse_inner self.old))))) }
        ensures size { D.size (fuse_inner self.new) ≡ D.size (fuse_inner self.old) }
        ensures history { D.history (fuse_inner self.new) ≡ D.history (fuse_inner self.old) }
        ensures cause { HasCause (D.faults (fuse_inner self.old) + fuse_stopped self.old) (D.faults (fuse_inner self.new) + fuse_stopped self.new) result }
        ensures syncs { D.syncs (fuse_inner self.new) ≡ D.syncs (fuse_inner self.old) }
        ensures bytes_read { RoseUpTo (length buf.old) (D.bytes_read (fuse_inner self.old)) (D.bytes_read (fuse_inner self.new)) }
        ensures all_read { OnOk result (RoseBy (length buf.old) (D.bytes_read (fuse_inner self.old)) (D.bytes_read (fuse_inner self.new))) }
    {
        self.burn()?;
        self.inner.read(off, buf)
    }

    fn write(&mut self, off: u64, bytes: &[u8]) -> Result<(), DiskFault>
        requires { off + length bytes.now ≤ D.size (fuse_inner self.old) }
        ensures burns { fuse_left self.new ≡ fuse_left self.old - 1 }
        ensures blown { fuse_left self.old ≡ 0 → IsErr result }
        ensures not_passed { fuse_left self.old ≡ 0 → fuse_inner self.new ≡ fuse_inner self.old }
        ensures passed { 0 < fuse_left self.old → HasCause (D.faults (fuse_inner self.old)) (D.faults (fuse_inner self.new)) result }
        ensures tried { TriedOver off (length bytes.now) (D.history (fuse_inner self.old)) (D.history (fuse_inner self.new)) }
        ensures done { OnOk result (IsTrue D.tells → D.history (fuse_inner self.new) ≡ called (D.history (fuse_inner self.old)) (wrote off bytes.now)) }
        ensures size { D.size (fuse_inner self.new) ≡ D.size (fuse_inner self.old) }
        ensures cause { HasCause (D.faults (fuse_inner self.old) + fuse_stopped self.old) (D.faults (fuse_inner self.new) + fuse_stopped self.new) result }
        ensures syncs { D.syncs (fuse_inner self.new) ≡ D.syncs (fuse_inner self.old) }
        ensures bytes_read { D.bytes_read (fuse_inner self.new) ≡ D.bytes_read (fuse_inner self.old) }
    {
        self.burn()?;
        self.inner.write(off, bytes)
    }

    fn write_word(&mut self, off: u64, w: [u8; 4]) -> Result<(), DiskFault>
        requires aligned { off % 4 ≡ 0 }
        requires within { off + 4 ≤ D.size (fuse_inner self.old) }
        ensures burns { fuse_left self.new ≡ fuse_left self.old - 1 }
        ensures blown { fuse_left self.old ≡ 0 → IsErr result }
        ensures not_passed { fuse_left self.old ≡ 0 → fuse_inner self.new ≡ fuse_inner self.old }
        ensures passed { 0 < fuse_left self.old → HasCause (D.faults (fuse_inner self.old)) (D.faults (fuse_inner self.new)) result }
        ensures tried { Tried (wrote_word off w) (D.history (fuse_inner self.old)) (D.history (fuse_inner self.new)) }
        ensures done { OnOk result (IsTrue D.tells → D.history (fuse_inner self.new) ≡ called (D.history (fuse_inner self.old)) (wrote_word off w)) }
        ensures size { D.size (fuse_inner self.new) ≡ D.size (fuse_inner self.old) }
        ensures cause { HasCause (D.faults (fuse_inner self.old) + fuse_stopped self.old) (D.faults (fuse_inner self.new) + fuse_stopped self.new) result }
        ensures syncs { D.syncs (fuse_inner self.new) ≡ D.syncs (fuse_inner self.old) }
        ensures bytes_read { D.bytes_read (fuse_inner self.new) ≡ D.bytes_read (fuse_inner self.old) }
    {
        self.burn()?;
        self.inner.write_word(off, w)
    }

    fn grow(&mut self, to: u64) -> Result<(), DiskFault>
        requires { D.size (fuse_inner self.old) ≤ to }
        ensures burns { fuse_left self.new ≡ fuse_left self.old - 1 }
        ensures blown { fuse_left self.old ≡ 0 → IsErr result }
        ensures not_passed { fuse_left self.old ≡ 0 → fuse_inner self.new ≡ fuse_inner self.old }
        ensures passed { 0 < fuse_left self.old → HasCause (D.faults (fuse_inner self.old)) (D.faults (fuse_inner self.new)) result }
        ensures tried { Tried (grew to) (D.history (fuse_inner self.old)) (D.history (fuse_inner self.new)) }
        ensures done { OnOk result (IsTrue D.tells → D.history (fuse_inner self.new) ≡ called (D.history (fuse_inner self.old)) (grew to)) }
        ensures size { (D.size (fuse_inner self.new) ≡ D.size (fuse_inner self.old)) ⊎ (D.size (fuse_inner self.new) ≡ to) }
        ensures grown { OnOk result (D.size (fuse_inner self.new) ≡ to) }
        ensures cause { HasCause (D.faults (fuse_inner self.old) + fuse_stopped self.old) (D.faults (fuse_inner self.new) + fuse_stopped self.new) result }
        ensures syncs { D.syncs (fuse_inner self.new) ≡ D.syncs (fuse_inner self.old) }
        ensures bytes_read { D.bytes_read (fuse_inner self.new) ≡ D.bytes_read (fuse_inner self.old) }
    {
        self.burn()?;
        self.inner.grow(to)
    }

    fn cut(&mut self, to: u64) -> Result<(), DiskFault>
        requires { to ≤ D.size (fuse_inner self.old) }
        ensures burns { fuse_left self.new ≡ fuse_left self.old - 1 }
        ensures blown { fuse_left self.old ≡ 0 → IsErr result }
        ensures not_passed { fuse_left self.old ≡ 0 → fuse_inner self.new ≡ fuse_inner self.old }
        ensures passed { 0 < fuse_left self.old → HasCause (D.faults (fuse_inner self.old)) (D.faults (fuse_inner self.new)) result }
        ensures tried { Tried (cut to) (D.history (fuse_inner self.old)) (D.history (fuse_inner self.new)) }
        ensures done { OnOk result (IsTrue D.tells → D.history (fuse_inner self.new) ≡ called (D.history (fuse_inner self.old)) (cut to)) }
        ensures size { (D.size (fuse_inner self.new) ≡ D.size (fuse_inner self.old)) ⊎ (D.size (fuse_inner self.new) ≡ to) }
        ensures shortened { OnOk result (D.size (fuse_inner self.new) ≡ to) }
        ensures cause { HasCause (D.faults (fuse_inner self.old) + fuse_stopped self.old) (D.faults (fuse_inner self.new) + fuse_stopped self.new) result }
        ensures syncs { D.syncs (fuse_inner self.new) ≡ D.syncs (fuse_inner self.old) }
        ensures bytes_read { D.bytes_read (fuse_inner self.new) ≡ D.bytes_read (fuse_inner self.old) }
    {
        self.burn()?;
        self.inner.cut(to)
    }

    fn sync(&mut self) -> Result<(), DiskFault>
        ensures burns { fuse_left self.new ≡ fuse_left self.old - 1 }
        ensures blown { fuse_left self.old ≡ 0 → IsErr result }
        ensures not_passed { fuse_left self.old ≡ 0 → fuse_inner self.new ≡ fuse_inner self.old }
        ensures passed { 0 < fuse_left self.old → HasCause (D.faults (fuse_inner self.old)) (D.faults (fuse_inner self.new)) result }
        ensures tried { Tried synced (D.history (fuse_inner self.old)) (D.history (fuse_inner self.new)) }
        ensures done { OnOk result (IsTrue D.tells → D.history (fuse_inner self.new) ≡ called (D.history (fuse_inner self.old)) synced) }
        ensures size { D.size (fuse_inner self.new) ≡ D.size (fuse_inner self.old) }
        ensures cause { HasCause (D.faults (fuse_inner self.old) + fuse_stopped self.old) (D.faults (fuse_inner self.new) + fuse_stopped self.new) result }
        ensures syncs { MatchResult result (λ _. RoseBy 1 (D.syncs (fuse_inner self.old)) (D.syncs (fuse_inner self.new))) (λ _. D.syncs (fuse_inner self.new) ≡ D.syncs (fuse_inner self.old)) }
        ensures bytes_read { D.bytes_read (fuse_inner self.new) ≡ D.bytes_read (fuse_inner self.old) }
    {
        self.burn()?;
        self.inner.sync()
    }

    ghost told_size = { λ f. D.told_size f.inner };
}
