//! What the system tells of a file that another program's changes move.
ghost use Rattle.std.specs.Prelude.{◌≡◌, ◌↔◌, IsTrue};

use crate::identity::Identity;
use std::fs::Metadata;
use std::os::unix::fs::MetadataExt;

/// By how much the time of a change may stand behind the last one that was noted, where this run changed the file
/// since, in nanoseconds: the clock of a file system ticks every 10 ms or faster.
const LATEST: i64 = 20_000_000;

/// The length of a file, when its content was changed, which file it is, and how many names it has.
#[derive(Clone, Copy, Debug, PartialEq, Eq)]
pub(crate) struct Stamp {
    len: u64,
    seconds: i64,
    nanos: i64,
    identity: Identity,
    links: u64,
}

impl Stamp {
    /// What was found of a file.
    pub(crate) fn of(found: &Metadata) -> Stamp {
        Stamp {
            len: found.len(),
            seconds: found.mtime(),
            nanos: found.mtime_nsec(),
            identity: Identity::of(found),
            links: found.nlink(),
        }
    }

    /// How many nanoseconds after another the content was changed; None where that is a second or more, or before it.
    fn nanos_after(&self, other: &Stamp) -> Option<i64> {
        let seconds = self.seconds.checked_sub(other.seconds)?;
        let nanos = self.nanos.checked_sub(other.nanos)?;
        let after = seconds.checked_mul(1_000_000_000)?.checked_add(nanos)?;
        (after >= 0).then_some(after)
    }

    /// The file is as it was at another stamp, but for changes of its bytes within a few milliseconds of that.
    pub(crate) fn is_soon_after(&self, other: &Stamp) -> bool {
        let aligned = Stamp {
            seconds: other.seconds,
            nanos: other.nanos,
            ..*self
        };
        aligned == *other && self.nanos_after(other).is_some_and(|after| after <= LATEST)
    }
}
