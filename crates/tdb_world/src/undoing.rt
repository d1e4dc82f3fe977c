//! The gate that an opener left open by dying.
ghost use Rattle.std.specs.Prelude.{◌≡◌, ◌≢◌, ◌≤◌, ◌<◌, ◌+◌, ◌^◌, ◌⊎◌, ℕ, IsTrue, IfOk, OnOk, true, false, if◌then◌else◌};
ghost use Rattle.tdb_disk.specs.Count.{HasCause, RoseBy};
ghost use Rattle.tdb_disk.specs.History.{seen};
ghost use Rattle.tdb_disk.specs.Stop.{LeavesOnly, Quiet};
ghost use Rattle.tdb_law.specs.World.{State};
ghost use Rattle.tdb_space.specs.Accepted.{Shut};
ghost use Rattle.tdb_space.specs.Form.{form_in, form_of};
ghost use Rattle.tdb_space.specs.Opening.{entries, is_open, restored, Mild, Opens};
ghost use Rattle.tdb_space.specs.Undoing.{Reopens};
ghost use Rattle.tdb_undo.specs.Entries.{lengths};
ghost use Rattle.tdb_undo.specs.Recovery.{recovery_syncs};
ghost use Rattle.tdb_world.specs.Whole.{form_at, WorldFits};
ghost use Rattle.tdb_world.specs.States.{IsStateOf};
ghost use Rattle.tdb_world.specs.Steps.{UndoLeads};
ghost use Rattle.tdb_world.specs.Stops.{IsSafe, OpensToState};

use crate::all_openers::AllOpeners;
use tdb_disk::Disk;
use tdb_space::Io;
use tdb_undo::{UndoRefusal, recover};
use tdb_words::Header;

/// A file that is shorter has no word that says where its undo area is.
const SHORTEST: u64 = 48;

/// What an undo did: how many bytes were put back, and the length of the file afterwards.
#[derive(Clone, Copy, Debug, PartialEq, Eq)]
pub struct Undone {
    pub bytes: u64,
    pub to: u64,
}

/// Puts back what the undo area of a file of this length keeps, and tells how many bytes those are. An undo area that
/// is none puts back nothing.
fn put_back<D: Disk>(d: &mut D, header: &Header, len: u64) -> Result<u64, Io>
    requires length { len ≡ D.size d.old }
    requires short { len < 2 ^ 63 }
    ensures stops { IsTrue D.tells → let a = seen (D.history d.old) in Quiet (D.history d.old) → Opens a → Shut (form_of a) a ⊎ Mild a → form_of a ≡ form_in header.now
        → LeavesOnly (D.history d.old) (D.history d.new) (Reopens (restored (form_in header.now) a)) }
    ensures quiet { OnOk result (IsTrue D.tells → Quiet (D.history d.old) → Quiet (D.history d.new)) }
    ensures restored { OnOk result (IsTrue D.tells → let a = seen (D.history d.old) in form_of a ≡ form_in header.now → Opens a → seen (D.history d.new) ≡ restored (form_in header.now) a) }
    ensures bytes { IfOk result (λ bytes. IsTrue D.tells → let f = form_in header.now in let a = seen (D.history d.old) in form_of a ≡ f → Opens a → bytes ≡ (if is_open f a then lengths (entries f a) else 0)) }
    ensures syncs { OnOk result (IsTrue D.tells → let f = form_in header.now in let a = seen (D.history d.old) in form_of a ≡ f → Opens a → RoseBy (recovery_syncs f a) (D.syncs d.old) (D.syncs d.new)) }
    ensures made { IfOk result (λ bytes. bytes ≢ 0 → RoseBy 3 (D.syncs d.old) (D.syncs d.new) ⊎ RoseBy 6 (D.syncs d.old) (D.syncs d.new)) }
    ensures cause { HasCause (D.faults d.old) (D.faults d.new) result }
{
    if len < SHORTEST {
        return Ok(0);
    }
    match recover(d, header) {
        Ok(bytes) => Ok(bytes),
        Err(UndoRefusal::UndoBad { .. }) => Ok(0),
        Err(UndoRefusal::Io) => Err(Io),
    }
}

/// Makes a file no longer than it was before an undo, and tells its length.
fn cut_back<D: Disk>(d: &mut D, most: u64) -> Result<u64, Io>
    ensures length { IfOk result (λ len. len ≡ D.size d.new) }
    ensures within { OnOk result (D.size d.new ≤ most) }
    ensures still { D.size d.old ≤ most → D.history d.new ≡ D.history d.old }
    ensures syncs { D.syncs d.new ≡ D.syncs d.old }
    ensures cause { HasCause (D.faults d.old) (D.faults d.new) result }
{
    let len = d.len()?;
    if len <= most {
        return Ok(len);
    }
    d.cut(most)?;
    Ok(most)
}

/// Syncs, and puts back what the undo area keeps.
fn undo<D: Disk>(d: &mut D, header: &Header) -> Result<Undone, Io>
    requires short { D.size d.old < 2 ^ 63 }
    ensures stops { IsTrue D.tells → let f = form_in header.now in let a = seen (D.history d.old) in IsSafe f (D.history d.old) → form_of a ≡ f → Opens a → Shut (form_of a) a ⊎ Mild a
        → LeavesOnly (D.history d.old) (D.history d.new) (Reopens (restored f a)) }
    ensures quiet { OnOk result (IsTrue D.tells → let a = seen (D.history d.old) in form_of a ≡ form_in header.now → Opens a → Quiet (D.history d.new)) }
    ensures restored { OnOk result (IsTrue D.tells → let a = seen (D.history d.old) in form_of a ≡ form_in header.now → Opens a → seen (D.history d.new) ≡ restored (form_in header.now) a) }
    ensures bytes { IfOk result (λ undone. IsTrue D.tells → let f = form_in header.now in let a = seen (D.history d.old) in form_of a ≡ f → Opens a → undone.bytes ≡ (if is_open f a then lengths (entries f a) else 0)) }
    ensures syncs { OnOk result (IsTrue D.tells → let f = form_in header.now in let a = seen (D.history d.old) in form_of a ≡ f → Opens a → RoseBy (1 + recovery_syncs f a) (D.syncs d.old) (D.syncs d.new)) }
    ensures made { IfOk result (λ undone. undone.bytes ≢ 0 → RoseBy 4 (D.syncs d.old) (D.syncs d.new) ⊎ RoseBy 7 (D.syncs d.old) (D.syncs d.new)) }
    ensures length { IfOk result (λ undone. undone.to ≡ D.size d.new) }
    ensures shorter { OnOk result (D.size d.new ≤ D.size d.old) }
    ensures cause { HasCause (D.faults d.old) (D.faults d.new) result }
{
    let len = d.len()?;
    d.sync()?;
    let bytes = put_back(d, header, len)?;
    let to = cut_back(d, len)?;
    Ok(Undone { bytes, to })
}

impl AllOpeners {
    /// Whether a gate stands open that an opener left by dying.
    pub(crate) fn is_stale(&self) -> bool
        ensures { result ≡ self.now.stale }
    {
        self.stale
    }

    /// Undoes the gate that an opener left open: syncs, and puts the old bytes back. No turn is taken in a stale world
    /// before that. After `Io` no turn may be taken any more.
    ///
    /// Where the file doesn't tell its bytes, an undo area that is none puts back nothing. Bytes are told only where an
    /// undo was made.
    ///
    /// Cost: a read and a write of each entry, and at most 7 syncs. It takes no memory.
    pub(crate) fn undo_stale<D: Disk>(&mut self, d: &mut D) -> Result<Undone, Io>
        requires stale { self.old.stale ≡ true }
        requires fits { WorldFits self.old (seen (D.history d.old)) (D.size d.old) }
        ensures fits { OnOk result (WorldFits self.new (seen (D.history d.new)) (D.size d.new)) }
        ensures undoes { OnOk result (IsTrue D.tells → UndoLeads self.old self.new (D.history d.old) (D.history d.new)) }
        ensures bytes { IfOk result (λ undone. IsTrue D.tells → (state : State) → IsStateOf self.old (D.history d.old) state
            → let f = form_at self.old in let a = seen (D.history d.old) in undone.bytes ≡ (if is_open f a then lengths (entries f a) else 0)) }
        ensures stops { IsTrue D.tells → (state : State) → let f = form_at self.old in IsStateOf self.old (D.history d.old) state → IsSafe f (D.history d.old)
            → LeavesOnly (D.history d.old) (D.history d.new) (OpensToState f state) }
        ensures safe { OnOk result (IsTrue D.tells → (state : State) → let f = form_at self.old in IsStateOf self.old (D.history d.old) state → IsSafe f (D.history d.new)) }
        ensures length { IfOk result (λ undone. undone.to ≡ D.size d.new) }
        ensures shorter { OnOk result (D.size d.new ≤ D.size d.old) }
        ensures world { OnOk result (self.new ≡ record self.old { stale = false }) }
        ensures syncs { OnOk result (IsTrue D.tells → (state : State) → IsStateOf self.old (D.history d.old) state
            → RoseBy (1 + recovery_syncs (form_at self.old) (seen (D.history d.old))) (D.syncs d.old) (D.syncs d.new)) }
        ensures made { IfOk result (λ undone. undone.bytes ≢ 0 → RoseBy 4 (D.syncs d.old) (D.syncs d.new) ⊎ RoseBy 7 (D.syncs d.old) (D.syncs d.new)) }
        ensures cause { HasCause (D.faults d.old) (D.faults d.new) result }
    {
        let header = *self.openers.header();
        let undone = undo(d, &header)?;
        self.stale = false;
        Ok(undone)
    }
}
