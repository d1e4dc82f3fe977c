//! Calls of disks, as data, and calls of files.
ghost use Rattle.std.specs.Prelude.{◌≡◌, ◌≢◌, false};
ghost use Rattle.tdb_disk.specs.Names.{SameAll, SameBut};

use std::alloc::Global;
use tdb_disk::{Call, Disk, Files, MemDisk, Take, TakeRefusal};

/// A disk with these bytes, of which these calls are to fail, each with its number. None where memory is wanting.
pub(crate) fn failing_disk(alloc: Global, bytes: &[u8], fails: &[(Call, u64)]) -> Option<MemDisk> {
    let mut disk = MemDisk::new(alloc, bytes).ok()?;
    for (call, nth) in fails {
        disk.fail(*call, *nth).ok()?;
    }
    Some(disk)
}

/// A call of a disk.
pub(crate) enum Edit {
    Len(u64),
    /// It gives these bytes, at most twelve.
    Read(u64, &'static [u8]),
    Write(u64, &'static [u8]),
    Word(u64, [u8; 4]),
    Grow(u64),
    Cut(u64),
    Sync,
}

/// Makes a call, which asks for the length first, and says whether all is done. None where it has no place in the file,
/// or gives something else.
pub(crate) fn is_done<D: Disk>(disk: &mut D, edit: &Edit) -> Option<bool> {
    let Ok(len) = disk.len() else {
        return Some(false);
    };
    let answer = match edit {
        Edit::Len(want) if len == *want => Ok(()),
        Edit::Read(at, want) if want.len() <= 12 && *at <= len && want.len() as u64 <= len - *at =>
            {
                let mut bytes = [0; 12];
                let answer = disk.read(*at, &mut bytes[..want.len()]);
                if answer.is_ok() && &bytes[..want.len()] != *want {
                    return None;
                }
                answer
            }
        Edit::Write(at, bytes) if *at <= len && bytes.len() as u64 <= len - *at => {
            disk.write(*at, bytes)
        }
        Edit::Word(at, word) if *at % 4 == 0 && *at <= len && 4 <= len - *at => {
            disk.write_word(*at, *word)
        }
        Edit::Grow(to) if len <= *to => disk.grow(*to),
        Edit::Cut(to) if *to <= len => disk.cut(*to),
        Edit::Sync => disk.sync(),
        _ => return None,
    };
    Some(answer.is_ok())
}

/// Takes a file and gives it back. The refusal, where it isn't taken.
pub(crate) fn take_and_give<F: Files>(
    files: &mut F,
    alloc: Global,
    name: &str,
    how: Take,
) -> Option<TakeRefusal>
    requires free { F.is_taken files.old name.now ≡ false }
    requires way { F.may_take name.now how }
    ensures free { F.is_taken files.new name.now ≡ false }
    ensures others { SameBut name.now (F.is_taken files.old) (F.is_taken files.new) }
{
    match files.take(alloc, name, how) {
        Ok(disk) => {
            files.give(name, disk);
            None
        }
        Err(refusal) => Some(refusal),
    }
}

/// Renames a file, and says whether that is done.
pub(crate) fn renames<F: Files>(files: &mut F, from: &str, to: &str) -> bool
    requires differ { from.now ≢ to.now }
    requires from_free { F.is_taken files.old from.now ≡ false }
    requires to_free { F.is_taken files.old to.now ≡ false }
    ensures { SameAll (F.is_taken files.old) (F.is_taken files.new) }
{
    files.rename(from, to).is_ok()
}

/// Removes a file, and says whether that is done.
pub(crate) fn removes<F: Files>(files: &mut F, name: &str) -> bool
    requires { F.is_taken files.old name.now ≡ false }
    ensures { SameAll (F.is_taken files.old) (F.is_taken files.new) }
{
    files.remove(name).is_ok()
}
