// The lists of records, and what a check names in them.

ghost use Rattle.std.specs.Prelude.{◌≡◌};
ghost use Rattle.tdb_space.specs.FirstFault.{out_of, loop_of, has_magic};
ghost use Rattle.tdb_check.specs.Seen.{kind_of};

use tdb_words::{DEAD, FREE, USED, What};

/// A list of records: the chain of a number, or the free list.
#[derive(Clone, Copy, Debug)]
pub enum ListKind {
    /// The chain of this number.
    Chain(u32),

    /// The free list.
    Free,
}

impl ListKind {
    /// What a word is that leads to no place of a record.
    pub fn leads_out(self) -> What
        ensures { result ≡ out_of (kind_of self) }
    {
        match self {
            ListKind::Chain(_) => What::ChainOut,
            ListKind::Free => What::FreeOut,
        }
    }

    /// What a word is that leads back.
    pub fn leads_back(self) -> What
        ensures { result ≡ loop_of (kind_of self) }
    {
        match self {
            ListKind::Chain(_) => What::ChainLoop,
            ListKind::Free => What::FreeLoop,
        }
    }

    /// Whether a record with this magic may stand in the list.
    pub fn takes(self, magic: u32) -> bool
        ensures { result ≡ has_magic (kind_of self) magic }
    {
        match self {
            ListKind::Chain(_) => magic == USED || magic == DEAD,
            ListKind::Free => magic == FREE,
        }
    }
}
