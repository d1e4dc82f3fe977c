// The lock table.
ghost use Rattle.std.specs.Prelude.{◌≡◌, ◌≢◌, ◌<◌, ◌^◌, ◌==◌, [], Contains, IfErr, IsOk, OnErr, OnOk, filter, length, not, slice_get, vec_len, ℕ};
ghost use Rattle.tdb_locks.specs.LockTable.{ChangesRange, HeldByPieces, IsFree, IsInsidePiece, IsPiece, IsRange, IsTable, IsWhole, held, stop, with_piece, without};
ghost use Rattle.tdb_locks.specs.Refusal.{IsRefusal};

use crate::conflict::{Want, first_conflict};
use crate::cut::Cut;
use crate::kind::Kind;
use crate::len::Len;
use crate::piece::Piece;
use crate::replace::replace;
use crate::search::kind_at;
use std::alloc::{AllocError, Global};
use std::marker::Model;
use thiserror::Error;

/// Why a lock was not granted, or not let go.
#[derive(Clone, Copy, Debug, PartialEq, Eq, Error)]
pub enum LockRefusal {
    /// Another owner holds `byte` of the range with this kind, and one of the two kinds is Write.
    #[error("owner {owner} holds byte {byte}")]
    Conflict { owner: u32, byte: u64, kind: Kind },
    #[error("out of memory")]
    Memory,
}

impl From<AllocError> for LockRefusal {
    ghost use Rattle.std.specs.Prelude.{◌≡◌};
    ghost use Rattle.tdb_locks.specs.declared.locks.LockRefusal.TheVariants.{Memory};

    ghost from_gives = { λ _ e. e ≡ Memory };

    fn from(_: AllocError) -> LockRefusal {
        LockRefusal::Memory
    }
}

/// What each owner holds, as pieces in the order of owners and then of bytes. The pieces of one
/// owner are apart, and neighbours are not joined.
#[derive(Drop)]
pub struct Locks {
    pieces: Vec<Piece>,
}

impl Model for Locks {
    ghost use Rattle.std.specs.Prelude.{List, ◌<◌, ◌^◌, vec_len};
    ghost use Rattle.tdb_locks.specs.LockTable.{IsTable};
    ghost use Rattle.tdb_locks.specs.declared.piece.Piece.{Piece};

    ghost Value = { List Piece };

    ghost view = { λ a. a.pieces.items };

    ghost invariant = { λ a. IsTable a.pieces.items × (vec_len a.pieces < 2 ^ 32) };
}

impl Locks {
    /// A table in which nobody holds a byte. It takes no memory.
    pub fn new(alloc: Global) -> Locks
        ensures { result ≡ [] }
    {
        Locks {
            pieces: Vec::new(alloc),
        }
    }

    /// Gives `owner` each byte of the range with this kind, whatever it held there before.
    ///
    /// Cost: one pass over all pieces to find a conflict, two binary searches, and the pieces that
    /// follow the owner's are moved by one place.
    pub fn try_lock(
        &mut self,
        owner: u32,
        start: u64,
        len: Len,
        kind: Kind,
    ) -> Result<(), LockRefusal>
        requires { IsRange start len }
        ensures table { OnOk result (self.new ≡ with_piece self.old owner start (stop start len) kind) }
        ensures held { OnOk result (ChangesRange self.old self.new owner start (stop start len) (Some kind)) }
        ensures granted { OnOk result (IsFree self.old owner start (stop start len) kind) }
        ensures refused { IfErr result (IsRefusal self.old owner start (stop start len) kind) }
        ensures err { OnErr result (self.new ≡ self.old) }
    {
        let end = len.end_from(start);
        let want = Want {
            owner,
            start,
            end,
            kind,
        };
        if let Some(found) = first_conflict(&self.pieces, want) {
            return Err(LockRefusal::Conflict {
                owner: found.owner,
                byte: found.byte,
                kind: found.kind,
            });
        }
        put(
            &mut self.pieces,
            Piece {
                owner,
                start,
                end,
                kind,
            },
        )?;
        Ok(())
    }

    /// Lets go of each byte of the range that `owner` holds. It asks for memory only where the
    /// range lies inside a longer piece of the owner.
    ///
    /// Cost: two binary searches, and the pieces that follow the owner's are moved by one place.
    pub fn unlock(&mut self, owner: u32, start: u64, len: Len) -> Result<(), LockRefusal>
        requires { IsRange start len }
        ensures table { OnOk result (self.new ≡ without self.old owner start (stop start len)) }
        ensures held { OnOk result (ChangesRange self.old self.new owner start (stop start len) None) }
        ensures whole { (p : Piece) → Contains self.old p → IsWhole p owner start (stop start len) → IsOk result }
        ensures memory { IfErr result (λ e. (e ≡ LockRefusal.Memory) × (p : Piece) × IsInsidePiece self.old owner start (stop start len) p) }
        ensures err { OnErr result (self.new ≡ self.old) }
    {
        let end = len.end_from(start);
        take_out(&mut self.pieces, owner, start, end)?;
        Ok(())
    }

    /// Lets go of all that `owner` holds. Cost: one pass over the pieces.
    pub fn drop_owner(&mut self, owner: u32)
        ensures table { self.new ≡ filter (λ p. not (p.owner == owner)) self.old }
        ensures gone { (byte : ℕ) → held self.new owner byte ≡ None }
        ensures others { (other byte : ℕ) → other ≢ owner → held self.new other byte ≡ held self.old other byte }
    {
        self.pieces.retain(|piece| piece.owner != owner);
    }

    /// What `owner` holds at the byte. Cost: a binary search.
    pub fn kind_of(&self, owner: u32, byte: u64) -> Option<Kind>
        ensures { result ≡ held self.now owner byte }
    {
        kind_at(&self.pieces, owner, byte)
    }

    /// How many pieces the table has.
    pub fn piece_count(&self) -> u32
        ensures count { result ≡ length self.now }
        ensures table { IsTable self.now }
        ensures held { HeldByPieces self.now }
    {
        self.pieces.len() as u32
    }

    /// The piece at place `i` of the table, or None from the count on.
    pub fn piece(&self, i: u32) -> Option<Piece>
        ensures { result ≡ slice_get self.now i }
    {
        self.pieces.get(i as usize).copied()
    }
}

/// Puts the piece in place of all that its owner holds of its bytes.
fn put(pieces: &mut Vec<Piece>, piece: Piece) -> Result<(), AllocError>
    requires table { IsTable pieces.old.items }
    requires piece { IsPiece piece }
    requires count { vec_len pieces.old < 2 ^ 32 }
    ensures ok { OnOk result (pieces.new.items ≡ with_piece pieces.old.items piece.owner piece.start piece.end piece.kind) }
    ensures count { vec_len pieces.new < 2 ^ 32 }
    ensures err { OnErr result (pieces.new.items ≡ pieces.old.items) }
{
    let place = Cut::of_range(pieces, piece.owner, piece.start, piece.end);
    match (place.left, place.right) {
        (None, None) => replace(pieces, place.from, place.to, &[piece]),
        (Some(left), None) => replace(pieces, place.from, place.to, &[left, piece]),
        (None, Some(right)) => replace(pieces, place.from, place.to, &[piece, right]),
        (Some(left), Some(right)) => {
            replace(pieces, place.from, place.to, &[left, piece, right])
        }
    }
}

/// Takes the owner's bytes from `start` up to `end` out.
fn take_out(pieces: &mut Vec<Piece>, owner: u32, start: u64, end: u64) -> Result<(), AllocError>
    requires table { IsTable pieces.old.items }
    requires range { start < end }
    requires count { vec_len pieces.old < 2 ^ 32 }
    ensures ok { OnOk result (pieces.new.items ≡ without pieces.old.items owner start end) }
    ensures count { vec_len pieces.new < 2 ^ 32 }
    ensures memory { OnErr result ((p : Piece) × IsInsidePiece pieces.old.items owner start end p) }
    ensures err { OnErr result (pieces.new.items ≡ pieces.old.items) }
{
    let place = Cut::of_range(pieces, owner, start, end);
    match (place.left, place.right) {
        (None, None) => replace(pieces, place.from, place.to, &[]),
        (Some(left), None) => replace(pieces, place.from, place.to, &[left]),
        (None, Some(right)) => replace(pieces, place.from, place.to, &[right]),
        (Some(left), Some(right)) => replace(pieces, place.from, place.to, &[left, right]),
    }
}
