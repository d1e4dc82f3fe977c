// Putting pieces in the place of others.
ghost use Rattle.std.specs.Prelude.{◌≡◌, ◌+◌, ◌-◌, ◌<◌, ◌≤◌, ◌^◌, ◌++◌, OnErr, OnOk, drop, length, take, vec_len};

use crate::piece::Piece;
use std::alloc::AllocError;

/// Puts `with` in the place of the pieces from index `from` up to `to`. It asks for memory only
/// where that makes the table longer, and refuses a table of 2^32 pieces. Cost: the pieces that
/// follow are moved once.
pub(crate) fn replace(
    pieces: &mut Vec<Piece>,
    from: usize,
    to: usize,
    with: &[Piece],
) -> Result<(), AllocError>
    requires in_order { from ≤ to }
    requires in_bounds { to ≤ vec_len pieces.old }
    requires count { vec_len pieces.old < 2 ^ 32 }
    requires few { length with.now ≤ 3 }
    ensures ok { OnOk result (pieces.new.items ≡ take from pieces.old.items ++ with.now ++ drop to pieces.old.items) }
    ensures count { vec_len pieces.new < 2 ^ 32 }
    ensures err { OnErr result (pieces.new.items ≡ pieces.old.items) }
    ensures grows { OnErr result (to - from < length with.now) }
{
    let count = pieces.len();
    make_room(pieces, to - from, with)?;
    let rest = from + with.len();
    if rest != to {
        pieces.copy_within(to..count, rest);
    }
    pieces[from..rest].copy_from_slice(with);
    pieces.truncate(rest + (count - to));
    Ok(())
}

/// Makes the table longer by as many pieces as `with` has more than `gone`.
fn make_room(pieces: &mut Vec<Piece>, gone: usize, with: &[Piece]) -> Result<(), AllocError>
    requires gone { gone ≤ vec_len pieces.old }
    requires count { vec_len pieces.old < 2 ^ 32 }
    requires few { length with.now ≤ 3 }
    ensures ok { OnOk result (pieces.new.items ≡ pieces.old.items ++ drop gone with.now) }
    ensures count { OnOk result (vec_len pieces.old + (length with.now - gone) < 2 ^ 32) }
    ensures err { OnErr result (pieces.new.items ≡ pieces.old.items) }
    ensures grows { OnErr result (gone < length with.now) }
{
    if with.len() <= gone {
        return Ok(());
    }
    if pieces.len() + (with.len() - gone) > u32::MAX as usize {
        return Err(AllocError);
    }
    pieces.extend_from_slice(&with[gone..])?;
    Ok(())
}
