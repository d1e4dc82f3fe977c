// What is counted in a file that is mended: stray bytes, and bytes that an undo changed.

ghost use Rattle.std.specs.Prelude.{◌≡◌, ◌-◌, ◌≤◌, IsTrue, IfOk, count_by, drop, length, zip};
ghost use Rattle.std.specs.List.Sorted.{IsNonDecreasingBy};
ghost use Rattle.tdb_disk.specs.Count.{HasCause};
ghost use Rattle.tdb_disk.specs.History.{seen};
ghost use Rattle.tdb_space.specs.DiskState.{disk_state};
ghost use Rattle.tdb_space.specs.Form.{data_start as records_from};
ghost use Rattle.tdb_space.specs.Frame.{Looked};
ghost use Rattle.tdb_check.specs.Extent.{extents_seen, off_of};
ghost use Rattle.tdb_check.specs.Stray.{is_content as has_content};
ghost use Rattle.tdb_mend.specs.Counting.{content_between, differs, strays_among};
ghost use Rattle.tdb_mend.specs.Mended.{bytes_changed};
ghost use Rattle.tdb_mend.specs.View.{file_length, mended_length, mended_start, mended_view, SameFile};

use crate::file::MendedFile;
use tdb_check::Extent;
use tdb_disk::Disk;
use tdb_space::{Io, Space, data_start};
use tdb_words::PADDING;

/// How many bytes are read at once where they are counted: as many as a disk that keeps blocks reads past them, so that
/// long stretches that no record holds aren't kept.
const BLOCK: usize = 65536;

/// Whether a byte is neither 0 nor padding.
fn is_content(byte: u8) -> bool
    ensures { result ≡ has_content byte }
{
    byte != 0 && byte != PADDING
}

/// How many of these bytes are neither 0 nor padding.
fn content_in(bytes: &[u8]) -> u64
    ensures count { result ≡ count_by has_content bytes.now }
    ensures most { result ≤ length bytes.now }
{
    bytes.iter().filter(|byte| is_content(**byte)).count() as u64
}

/// How many bytes from one offset up to another are neither 0 nor padding. A block serves for the reads.
fn count_content<S: Space>(
    s: &mut S,
    from: u64,
    to: u64,
    block: &mut [u8; BLOCK],
) -> Result<u64, Io>
    requires within { to ≤ S.size s.old }
    ensures count { IfOk result (λ n. IsTrue S.tells → n ≡ content_between (S.image s.old) from to) }
    ensures most { IfOk result (λ n. n ≤ to - from) }
    ensures looked { Looked S.Space s.old s.new }
    ensures cause { HasCause (S.faults s.old) (S.faults s.new) result }
{
    let mut at = from;
    let mut count = 0u64;
    while at < to {
        let size = (to - at).min(BLOCK as u64) as usize;
        let piece = &mut block[..size];
        s.read(at, piece)?;
        count += content_in(piece);
        at += size as u64;
    }
    Ok(count)
}

/// How many bytes of a file of `len` bytes are stray: from where its records begin they lie in none of these extents,
/// and are neither 0 nor padding. The extents stand in the order of their offsets. Only what lies in none of them is
/// read.
pub(crate) fn count_strays<S: Space>(s: &mut S, len: u64, extents: &[Extent]) -> Result<u64, Io>
    requires length { len ≡ S.size s.old }
    requires heads { records_from (S.form s.old) ≤ len }
    requires ordered { IsNonDecreasingBy off_of extents.now }
    ensures count { IfOk result (λ n. IsTrue S.tells → n ≡ strays_among (extents_seen extents.now) (records_from (S.form s.old)) (S.image s.old)) }
    ensures most { IfOk result (λ n. n ≤ len) }
    ensures looked { Looked S.Space s.old s.new }
    ensures cause { HasCause (S.faults s.old) (S.faults s.new) result }
{
    let mut block = [0u8; BLOCK];
    let mut from = data_start(s.hash_size());
    let mut strays = 0u64;
    for e in extents {
        let to = (e.off as u64).min(len);
        let found = count_content(s, from, to, &mut block)?;
        strays += found;
        from = from.max(e.end().min(len));
    }
    let last = count_content(s, from, len, &mut block)?;
    Ok(strays + last)
}

/// At how many places two pieces of one length differ.
fn count_differences(before: &[u8], now: &[u8]) -> u64
    requires { length before.now ≡ length now.now }
    ensures count { result ≡ count_by differs (zip before.now now.now) }
    ensures most { result ≤ length now.now }
{
    before.iter().zip(now).filter(|(a, b)| **a != **b).count() as u64
}

/// How many bytes of a mended file differ from those of the file itself. It reads both once; nothing, where no page
/// lies over the file.
pub(crate) fn count_changed<D: Disk>(file: &mut MendedFile, d: &mut D) -> Result<u64, Io>
    requires sized { D.size d.old ≡ file_length file.old }
    ensures count { IfOk result (λ n. IsTrue D.tells → let a = seen (D.history d.old) in n ≡ bytes_changed (drop (mended_start file.old) a) (mended_view file.old a)) }
    ensures most { IfOk result (λ n. n ≤ mended_length file.old) }
    ensures same { SameFile (seen (D.history d.old)) file.old file.new }
    ensures disk { disk_state (D.history d.new) (D.size d.new) (D.syncs d.new) ≡ disk_state (D.history d.old) (D.size d.old) (D.syncs d.old) }
    ensures cause { HasCause (D.faults d.old) (D.faults d.new) result }
{
    if file.pages.pages() == 0 {
        return Ok(0);
    }
    let len = file.len;
    let start = file.start;
    let mut now = [0u8; BLOCK];
    let mut before = [0u8; BLOCK];
    let mut at = 0u64;
    let mut changed = 0u64;
    while at < len {
        let size = (len - at).min(BLOCK as u64) as usize;
        let shown = &mut now[..size];
        file.read(d, at, shown)?;
        let stored = &mut before[..size];
        d.read(start + at, stored)?;
        changed += count_differences(stored, shown);
        at += size as u64;
    }
    Ok(changed)
}
