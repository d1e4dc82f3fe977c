// The sequence number at the end of a command.

ghost use Rattle.std.specs.Prelude.{◌≡◌, ◌≤◌, ℕ, List, true, false, IsTrue, OnOk, OnErr};
ghost use Rattle.tdb_disk.specs.Count.{HasCause, RoseUpTo};
ghost use Rattle.tdb_space.specs.Frame.{Looked, Wrote};
ghost use Rattle.tdb_space.specs.Spare.{RoomForAll};
ghost use Rattle.tdb_space.specs.Extents.{HandPair};
ghost use Rattle.tdb_space.specs.Accepted.{AcceptWith};
ghost use Rattle.tdb_space.specs.Stays.{ChainsStay};
ghost use Rattle.tdb_steps.specs.Machines.{Counted};
ghost use Rattle.tdb_steps.specs.Reads.{number_reads};

use tdb_chain::raise_seq;
use tdb_space::{Io, Space};

/// Raises the sequence number where a change counts, and else leaves the file. It takes no memory.
pub(crate) fn count<S: Space>(s: &mut S, counts: bool) -> Result<(), Io>
    requires room { counts ≡ true → RoomForAll (S.spare s.old) 1 4 }
    ensures counted { OnOk result (IsTrue S.tells → (hands : List HandPair) → AcceptWith (S.form s.old) (S.image s.old) hands
        → Counted (S.form s.old) (S.image s.old) (S.image s.new) counts hands) }
    ensures stopped { OnErr result (IsTrue S.tells → (hands : List HandPair) → AcceptWith (S.form s.old) (S.image s.old) hands
        → ChainsStay (S.form s.old) (S.image s.old) (S.image s.new) hands) }
    ensures idle { counts ≡ false → Looked S.Space s.old s.new }
    ensures size { S.size s.new ≡ S.size s.old }
    ensures wrote { Wrote S.Space s.old s.new }
    ensures cause { HasCause (S.faults s.old) (S.faults s.new) result }
    ensures bytes_read { RoseUpTo (number_reads) (S.bytes_read s.old) (S.bytes_read s.new) }
{
    if counts {
        return raise_seq(s);
    }
    Ok(())
}
