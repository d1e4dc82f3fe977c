// What a range leaves standing of its owner's pieces.
ghost use Rattle.std.specs.Option.{option_to_list};
ghost use Rattle.std.specs.Prelude.{◌≡◌, ◌<◌, ◌++◌, OnSome, drop, take};
ghost use Rattle.tdb_locks.specs.LockTable.{IsTable, before, from};
ghost use Rattle.tdb_locks.specs.Search.{IsSplitBy, ends_by, starts_before};
ghost use Rattle.tdb_locks.specs.Cut.{BeginsBefore, GoesOn, IsCut};

use crate::piece::Piece;
use crate::search::{first_from, first_past};

/// The pieces from index `from` up to `to` meet the range, and what of them lies before it and
/// after it.
#[derive(Clone, Copy)]
pub(crate) struct Cut {
    pub from: usize,
    pub to: usize,
    pub left: Option<Piece>,
    pub right: Option<Piece>,
}

impl Cut {
    /// Where the bytes of `owner` from `start` up to `end` stand in the table. Cost: two binary
    /// searches.
    pub(crate) fn of_range(pieces: &[Piece], owner: u32, start: u64, end: u64) -> Cut
        requires table { IsTable pieces.now }
        requires range { start < end }
        ensures { IsCut pieces.now owner start end result }
    {
        let from = first_past(pieces, owner, start);
        let to = first_from(pieces, owner, end);
        Cut {
            from,
            to,
            left: left_part(pieces, from, owner, start),
            right: right_part(pieces, to, owner, end),
        }
    }
}

/// What the piece at `from` has before the byte, if it is the owner's.
fn left_part(pieces: &[Piece], from: usize, owner: u32, byte: u64) -> Option<Piece>
    requires table { IsTable pieces.now }
    requires split { IsSplitBy (ends_by owner byte) pieces.now from }
    ensures left { before owner byte pieces.now ≡ take from pieces.now ++ option_to_list result }
    ensures some { OnSome result (BeginsBefore pieces.now from owner byte) }
{
    match pieces.get(from) {
        Some(piece) if piece.owner == owner && piece.start < byte => Some(Piece {
            end: byte,
            ..*piece
        }),
        _ => None,
    }
}

/// What the piece before `to` has from the byte on, if it is the owner's.
fn right_part(pieces: &[Piece], to: usize, owner: u32, byte: u64) -> Option<Piece>
    requires table { IsTable pieces.now }
    requires split { IsSplitBy (starts_before owner byte) pieces.now to }
    ensures right { from owner byte pieces.now ≡ option_to_list result ++ drop to pieces.now }
    ensures some { OnSome result (GoesOn pieces.now to owner byte) }
{
    match pieces[..to].last() {
        Some(piece) if piece.owner == owner && byte < piece.end => Some(Piece {
            start: byte,
            ..*piece
        }),
        _ => None,
    }
}
