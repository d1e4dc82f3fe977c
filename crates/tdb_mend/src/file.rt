// A file as it is read once it is mended. Its methods stand beside the view of it: their contracts cite definitions
// that name this struct.

ghost use Rattle.std.specs.Prelude.{◌≡◌, ◌+◌, ◌-◌, ◌%◌, ◌^◌, ◌<◌, ◌≤◌};
ghost use Rattle.tdb_txn.specs.Txn.{txn_size, txn_start};

use tdb_txn::Txn;
use tdb_words::Header;

/// What a damaged file is read as: pages over the file, in memory, where its database begins and where it ends. The
/// file itself isn't held.
#[derive(Drop)]
pub struct MendedFile {
    /// The pages.
    pub(crate) pages: Txn,

    /// Where the database begins in the file.
    pub(crate) start: u64,

    /// What the header says that is so read.
    pub(crate) header: Header,

    /// How many bytes there are, from there on.
    pub(crate) len: u64,

    /// How many bytes were changed to read it.
    pub(crate) changed: u64,
    ghost aligned: { start % 4 ≡ 0 },
    ghost within: { len ≤ txn_start pages },
    ghost behind: { start + len ≤ txn_start pages },
    ghost short: { start + len < 2 ^ 64 },
    ghost shown: { len ≤ txn_size pages - start },
}
