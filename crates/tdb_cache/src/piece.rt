//! The parts of a range of bytes that lie in one block each.
ghost use Rattle.std.specs.Prelude.{◌<◌, ◌≤◌, ◌+◌, ◌^◌};
ghost use Rattle.tdb_cache.specs.Piece.{IsPiece};

use crate::blocks::BLOCK_SIZE;

/// The part of a range that lies in one block.
#[derive(Clone, Copy)]
pub(crate) struct Piece {
    /// The number of the block.
    pub number: usize,

    /// Where the part begins within the block.
    pub within: usize,

    /// Where the part ends within the range.
    pub end: usize,
}

impl Piece {
    /// The part that follows the first `done` bytes of the range of `len` bytes from offset `off` on.
    pub(crate) fn after(off: u64, done: usize, len: usize) -> Piece
        requires more { done < len }
        requires len { len < 2 ^ 63 }
        ensures { IsPiece off done len result }
    {
        let lead = (off % BLOCK_SIZE as u64) as usize + done;
        let within = lead % BLOCK_SIZE;
        Piece {
            number: (off / BLOCK_SIZE as u64) as usize + lead / BLOCK_SIZE,
            within,
            end: done + (BLOCK_SIZE - within).min(len - done),
        }
    }
}
