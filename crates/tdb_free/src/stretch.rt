// A stretch of the file that is to be one free record.

ghost use Rattle.std.specs.Prelude.{◌≡◌, ◌+◌, ◌^◌, ◌<◌, IfSome};
ghost use Rattle.tdb_free.specs.FreeList.{end_of, with_next, with_previous};
ghost use Rattle.tdb_free.specs.Stretch.{pair, found_pair};

use crate::search::Spot;

/// A stretch of the file that is to be one free record.
#[derive(Clone, Copy, Debug, PartialEq, Eq)]
pub(crate) struct Stretch {
    /// Its offset.
    pub off: u32,

    /// How many bytes follow the header that stands at its offset.
    pub rec_len: u32,
}

impl Stretch {
    /// The place behind its last byte.
    pub(crate) fn end(&self) -> u64
        ensures { result ≡ end_of (pair self.now) }
    {
        self.off as u64 + 24 + self.rec_len as u64
    }

    /// It and what starts where it ends, as one.
    pub(crate) fn with_next(self, next: Option<Spot>) -> Stretch
        requires short { IfSome next (λ n. self.rec_len + (24 + n.rec_len) < 2 ^ 32) }
        ensures { pair result ≡ with_next (pair self) (found_pair next) }
    {
        match next {
            Some(n) => Stretch {
                off: self.off,
                rec_len: self.rec_len + (24 + n.rec_len),
            },
            None => self,
        }
    }

    /// It and what ends where it starts, as one.
    pub(crate) fn with_previous(self, previous: Option<Spot>) -> Stretch
        requires short { IfSome previous (λ p. p.rec_len + (24 + self.rec_len) < 2 ^ 32) }
        ensures { pair result ≡ with_previous (pair self) (found_pair previous) }
    {
        match previous {
            Some(p) => Stretch {
                off: p.off,
                rec_len: p.rec_len + (24 + self.rec_len),
            },
            None => self,
        }
    }
}
