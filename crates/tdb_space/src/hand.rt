// A record that stands in no list.

ghost use Rattle.std.specs.Prelude.{◌≡◌, ℕ, ◌%◌, ◌≤◌};

use std::marker::Model;

/// A record that was taken out of its list, or that the file has grown by, and that is in no list yet.
///
/// It can't be dropped: whoever holds it puts it into a list, or ends it. A contract sees it as its offset and its
/// `rec_len`.
#[derive(Debug)]
pub struct Hand {
    off: u32,
    rec_len: u32,
}

impl Model for Hand {
    ghost use Rattle.std.specs.Prelude.{◌≡◌, ◌%◌, ◌≤◌};
    ghost use Rattle.tdb_space.specs.Extents.{HandPair};

    ghost Value = { HandPair };

    ghost view = { λ h. (h.off, h.rec_len) };

    ghost invariant = { λ h. (h.off % 4 ≡ 0) × (h.rec_len % 4 ≡ 0) × (4 ≤ h.rec_len) };
}

impl Hand {
    /// The record at `off` with `rec_len` bytes behind its header.
    pub fn new(off: u32, rec_len: u32) -> Hand
        requires aligned { off % 4 ≡ 0 }
        requires whole_words { rec_len % 4 ≡ 0 }
        requires least { 4 ≤ rec_len }
        ensures { result ≡ (off, rec_len) }
    {
        Hand { off, rec_len }
    }

    /// The offset of the record in the file.
    pub fn off(&self) -> u32
        ensures value { result ≡ self.now.0 }
        ensures aligned { result % 4 ≡ 0 }
    {
        self.off
    }

    /// How many bytes follow the record's header.
    pub fn rec_len(&self) -> u32
        ensures value { result ≡ self.now.1 }
        ensures whole_words { result % 4 ≡ 0 }
        ensures least { 4 ≤ result }
    {
        self.rec_len
    }

    /// Gives the record up. It changes nothing.
    pub fn end(self) {
        let Hand { off: _, rec_len: _ } = self;
    }
}
