// A key is deleted.

ghost use Rattle.std.specs.Prelude.{◌≡◌, ◌≤◌, ◌<◌, ◌^◌, ℕ, List, [], None, false, length, IsTrue, IfOk, OnOk, OnErr};
ghost use Rattle.tdb_disk.specs.Count.{HasCause};
ghost use Rattle.tdb_space.specs.Frame.{Looked, Wrote};
ghost use Rattle.tdb_space.specs.Accepted.{AcceptWith};
ghost use Rattle.tdb_space.specs.Spare.{without_bound};
ghost use Rattle.tdb_chain.specs.Place.{StandsWithin, HoldsKey};
ghost use Rattle.tdb_edit.specs.Edited.{Deleted, KeyChanged, BrokenOff};

use tdb_chain::{Place, find, unlink};
use tdb_free::give;
use tdb_space::{Io, Space};

/// Takes the record of a place out of its chain, and gives it to the free list.
fn free<S: Space>(s: &mut S, place: Place) -> Result<(), Io>
    requires within { StandsWithin place (S.size s.old) }
    requires spare { (view : S) → S.spare view ≡ without_bound }
    ensures freed { OnOk result (IsTrue S.tells → S.size s.old < 2 ^ 32 → AcceptWith (S.form s.old) (S.image s.old) []
        → (key : List ℕ) → HoldsKey (S.form s.old) (S.image s.old) key place → KeyChanged (S.form s.old) (S.image s.old) (S.image s.new) key None) }
    ensures broken { OnErr result (IsTrue S.tells → S.size s.old < 2 ^ 32 → AcceptWith (S.form s.old) (S.image s.old) []
        → (key : List ℕ) → HoldsKey (S.form s.old) (S.image s.old) key place → BrokenOff (S.form s.old) (S.image s.old) (S.image s.new) key None) }
    ensures size { S.size s.new ≡ S.size s.old }
    ensures wrote { Wrote S.Space s.old s.new }
    ensures cause { HasCause (S.faults s.old) (S.faults s.new) result }
    ensures bytes_read { S.bytes_read s.old ≤ S.bytes_read s.new }
{
    let hand = unlink(s, place)?;
    match give(s, hand) {
        Ok(()) => Ok(()),
        Err(_) => Err(Io),
    }
}

/// Deletes a key with its value, and says whether it was there. Its record goes to the free list.
///
/// It reads the chain of the key up to its record, and the free list. It takes no memory. `Io` where the disk failed:
/// then the map has the key or hasn't, and the record may stand in no list; at most the key's chain has changed, the
/// free list, their heads, and bytes that no record holds.
pub fn delete<S: Space>(s: &mut S, key: &[u8]) -> Result<bool, Io>
    requires short { length key.now < 2 ^ 32 }
    requires chains { 0 < (S.form s.old).chains }
    requires spare { (view : S) → S.spare view ≡ without_bound }
    ensures deleted { IfOk result (λ there. IsTrue S.tells → S.size s.old < 2 ^ 32 → AcceptWith (S.form s.old) (S.image s.old) []
        → Deleted (S.form s.old) (S.image s.old) (S.image s.new) key.now there) }
    ensures absent { IfOk result (λ there. there ≡ false → Looked S.Space s.old s.new) }
    ensures broken { OnErr result (IsTrue S.tells → S.size s.old < 2 ^ 32 → AcceptWith (S.form s.old) (S.image s.old) []
        → BrokenOff (S.form s.old) (S.image s.old) (S.image s.new) key.now None) }
    ensures size { S.size s.new ≡ S.size s.old }
    ensures wrote { Wrote S.Space s.old s.new }
    ensures cause { HasCause (S.faults s.old) (S.faults s.new) result }
    ensures bytes_read { S.bytes_read s.old ≤ S.bytes_read s.new }
{
    let Some(place) = find(s, key)? else {
        return Ok(false);
    };
    free(s, place)?;
    Ok(true)
}
