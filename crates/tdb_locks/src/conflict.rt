// The first conflict that a wanted range has with another owner's pieces.
ghost use Rattle.std.specs.Prelude.{◌≡◌, ◌<◌, MatchOption};
ghost use Rattle.tdb_locks.specs.LockTable.{IsFirstConflict, IsFree, IsTable};
ghost use Rattle.tdb_locks.specs.Conflict.{clashing, sooner};

use crate::kind::Kind;
use crate::piece::Piece;

/// A byte that another owner holds so that a wanted lock can't have it.
#[derive(Clone, Copy)]
pub(crate) struct Conflict {
    pub owner: u32,
    pub byte: u64,
    pub kind: Kind,
}

/// The bytes that an owner wants, from `start` up to `end`, and the kind of lock.
#[derive(Clone, Copy)]
pub(crate) struct Want {
    pub owner: u32,
    pub start: u64,
    pub end: u64,
    pub kind: Kind,
}

/// The conflict at the least byte, and of the least owner there. Cost: one pass over all pieces.
pub(crate) fn first_conflict(pieces: &[Piece], want: Want) -> Option<Conflict>
    requires table { IsTable pieces.now }
    requires range { want.start < want.end }
    ensures { MatchOption result (IsFree pieces.now want.owner want.start want.end want.kind) (λ c. IsFirstConflict pieces.now want.owner want.start want.end want.kind c.owner c.byte c.kind) }
{
    let mut first = None;
    for piece in pieces {
        if clashes(piece, want) {
            first = soonest(first, piece, want);
        }
    }
    first
}

/// Whether the piece has a byte that conflicts with what is wanted.
fn clashes(piece: &Piece, want: Want) -> bool
    ensures { result ≡ clashing piece.now want }
{
    piece.owner != want.owner
        && piece.start < want.end
        && want.start < piece.end
        && piece.kind.conflicts_with(want.kind)
}

/// The conflict with this piece, unless one was found at the same byte or an earlier one.
fn soonest(first: Option<Conflict>, piece: &Piece, want: Want) -> Option<Conflict>
    ensures { result ≡ sooner first piece.now want }
{
    let byte = piece.start.max(want.start);
    match first {
        Some(found) if found.byte <= byte => first,
        _ => Some(Conflict {
            owner: piece.owner,
            byte,
            kind: piece.kind,
        }),
    }
}
