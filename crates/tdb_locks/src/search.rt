// Where an owner's pieces stand in a sorted table, and which of them a range meets.
ghost use Rattle.std.specs.Prelude.{◌≡◌};
ghost use Rattle.tdb_locks.specs.LockTable.{IsTable, held};
ghost use Rattle.tdb_locks.specs.Search.{IsSplitBy, ends_by, starts_before};

use crate::kind::Kind;
use crate::piece::Piece;

/// The index of the first piece that is no earlier owner's and isn't one of `owner`'s that end by
/// `byte`. Cost: a binary search.
pub(crate) fn first_past(pieces: &[Piece], owner: u32, byte: u64) -> usize
    requires { IsTable pieces.now }
    ensures { IsSplitBy (ends_by owner byte) pieces.now result }
{
    pieces.partition_point(|p| p.owner < owner || p.owner == owner && p.end <= byte)
}

/// The index of the first piece that is no earlier owner's and isn't one of `owner`'s that start
/// before `byte`. Cost: a binary search.
pub(crate) fn first_from(pieces: &[Piece], owner: u32, byte: u64) -> usize
    requires { IsTable pieces.now }
    ensures { IsSplitBy (starts_before owner byte) pieces.now result }
{
    pieces.partition_point(|p| p.owner < owner || p.owner == owner && p.start < byte)
}

/// What `owner` holds at the byte. Cost: a binary search.
pub(crate) fn kind_at(pieces: &[Piece], owner: u32, byte: u64) -> Option<Kind>
    requires { IsTable pieces.now }
    ensures { result ≡ held pieces.now owner byte }
{
    match pieces.get(first_past(pieces, owner, byte)) {
        Some(piece) if piece.owner == owner && piece.start <= byte => Some(piece.kind),
        _ => None,
    }
}
