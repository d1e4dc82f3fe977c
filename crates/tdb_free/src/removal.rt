// Taking a record out of the free list.

ghost use Rattle.std.specs.Prelude.{◌≡◌, ◌⊎◌, ◌≤◌, IsTrue, OnOk, OnErr, IfSome, false};
ghost use Rattle.tdb_disk.specs.Count.{HasCause, RoseUpTo};
ghost use Rattle.tdb_space.specs.Frame.{Wrote};
ghost use Rattle.tdb_space.specs.Spare.{RoomForAll};
ghost use Rattle.tdb_space.specs.SpareLeft.{LeavesRoom};
ghost use Rattle.tdb_free.specs.Search.{SpotWithin};
ghost use Rattle.tdb_free.specs.Removal.{LeftOut};
ghost use Rattle.tdb_free.specs.Reads.{write_reads};

use crate::link_word::write_link;
use crate::search::Spot;
use tdb_space::{Io, Space};

/// Takes a record that was found out of the free list, if one was. One word is written: the one that led to the record
/// leads past it.
pub(crate) fn take_out<S: Space>(s: &mut S, found: Option<Spot>) -> Result<(), Io>
    requires within { IfSome found (λ p. SpotWithin p (S.form s.old) (S.size s.old)) }
    requires room { RoomForAll (S.spare s.old) 1 4 }
    ensures left { OnOk result (IsTrue S.tells → LeftOut (S.form s.old) (S.image s.old) (S.image s.new) found) }
    ensures stopped { OnErr result (IsTrue S.tells → (S.image s.new ≡ S.image s.old) ⊎ LeftOut (S.form s.old) (S.image s.old) (S.image s.new) found) }
    ensures size { S.size s.new ≡ S.size s.old }
    ensures wrote { Wrote S.Space s.old s.new }
    ensures cause { HasCause (S.faults s.old) (S.faults s.new) result }
    ensures bytes_read { RoseUpTo (write_reads 1 4) (S.bytes_read s.old) (S.bytes_read s.new) }
    ensures spare { LeavesRoom 1 4 (S.spare s.old) (S.spare s.new) }
{
    match found {
        Some(spot) => write_link(s, spot.before, spot.next),
        None => Ok(()),
    }
}
