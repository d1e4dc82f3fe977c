//! The commands on the opener's cursor inside a transaction.
ghost use Rattle.std.specs.Prelude.{◌≡◌, ◌<◌, ◌^◌, [], ℕ, IsTrue, IfOk, OnOk, OnErr};
ghost use Rattle.tdb_disk.specs.Count.{HasCause};
ghost use Rattle.tdb_disk.specs.History.{seen};
ghost use Rattle.tdb_space.specs.Accepted.{AcceptWith};
ghost use Rattle.tdb_law.specs.Commands.Command.{OnWalk};
ghost use Rattle.tdb_law.specs.Openers.{Own};
ghost use Rattle.tdb_steps.specs.PlainCommands.{reply_of};
ghost use Rattle.tdb_steps.specs.Turns.{number_of};
ghost use Rattle.tdb_txn.specs.Committing.{MayCommit};
ghost use Rattle.tdb_txn.specs.Txn.{txn_form, txn_image, txn_start, txn_size, txn_depth, txn_doomed};
ghost use Rattle.tdb_walk.specs.Again.{RestsAt};
ghost use Rattle.tdb_txn_turns.specs.InsideTxn.Done.{ImageKept};
ghost use Rattle.tdb_txn_turns.specs.InsideTxn.OwnTxns.{form_of, image_of, own_inside, SameTxn};
ghost use Rattle.tdb_txn_turns.specs.InsideTxn.Turns.{TurnsInside};
ghost use Rattle.tdb_txn_turns.specs.InsideTxn.Walks.{command_for, shown_by, with_cursor, CursorDone, PurgesDead, RestsIn, RestsInside, WalksInside};

use crate::inside_txn::own_txn::OwnTxn;
use crate::inside_txn::walk_alone::take_walk;
use std::alloc::Global;
use tdb_disk::Disk;
use tdb_locks::Reply;
use tdb_space::Io;
use tdb_txn::{OverlayOn, Txn};
use tdb_walk::{Goal, Walk};

/// Takes all turns of a cursor in the pages of a transaction.
fn walk_in_pages<D: Disk>(
    txn: &mut Txn,
    alloc: Global,
    d: &mut D,
    walk: &mut Walk,
    goal: Goal,
) -> Result<Reply, Io>
    requires sized { D.size d.old ≡ txn_start txn.old }
    requires short { txn_size txn.old < 2 ^ 32 }
    ensures done { IfOk result (λ reply. IsTrue D.tells → let base = seen (D.history d.old) in AcceptWith (txn_form txn.old) (txn_image txn.old base) [] → RestsIn (txn_form txn.old) (txn_image txn.old base) walk.old
        → CursorDone (txn_form txn.old) (txn_image txn.old base) (txn_image txn.new base) goal walk.old walk.new (reply_of reply)) }
    ensures rests { IfOk result (λ reply. RestsAt (txn_form txn.old) walk.old.shown walk.old.cursor.place walk.old.cursor.stage → RestsAt (txn_form txn.old) walk.new.shown walk.new.cursor.place walk.new.cursor.stage) }
    ensures shown { IfOk result (λ reply. walk.new.shown ≡ shown_by goal (reply_of reply) walk.old.shown) }
    ensures stands { OnErr result ((walk.new.cursor.place ≡ walk.old.cursor.place) × (walk.new.shown ≡ walk.old.shown)) }
    ensures form { txn_form txn.new ≡ txn_form txn.old }
    ensures start { txn_start txn.new ≡ txn_start txn.old }
    ensures depth { txn_depth txn.new ≡ txn_depth txn.old }
    ensures doomed { txn_doomed txn.new ≡ txn_doomed txn.old }
    ensures length { txn_size txn.new ≡ txn_size txn.old }
    ensures history { D.history d.new ≡ D.history d.old }
    ensures size { D.size d.new ≡ D.size d.old }
    ensures syncs { D.syncs d.new ≡ D.syncs d.old }
    ensures cause { HasCause (D.faults d.old) (D.faults d.new) result }
{
    let mut view = OverlayOn::new(txn, d);
    take_walk(alloc, &mut view, walk, goal)
}

impl OwnTxn {
    /// Does a First, a Next or an EndWalk of the opener's cursor in one turn, over the image of the transaction: so a
    /// walk sees what was changed there. The cursor rests before and after it, and keeps the key that it shows.
    ///
    /// First and Next are told the pair of the next live record, on which the cursor stands then, or `End` where none
    /// is left, or `Memory`; then it has ended. A Next without a cursor is told `End`. An EndWalk is told `Ok`, and the
    /// cursor has ended, or `Memory`, and it stays. A dead record that the cursor leaves is purged, but with `Memory`;
    /// the map stays. Nothing is written to the disk, and no lock is taken. `Io` only where the disk failed: then the
    /// cursor stands where it stood.
    ///
    /// Cost: the heads of the chains on the way, 24 bytes of each record up to the next live one, and its pair; and
    /// where a dead record is left its chain, and the free list.
    pub fn walk<D: Disk>(
        &mut self,
        alloc: Global,
        d: &mut D,
        walk: &mut Walk,
        goal: Goal,
    ) -> Result<Reply, Io>
        requires sized { D.size d.old ≡ txn_start self.old.txn }
        requires short { txn_size self.old.txn < 2 ^ 32 }
        ensures turned { IfOk result (λ reply. IsTrue D.tells → let base = seen (D.history d.old) in RestsInside self.old base walk.old → (x : Own)
            → TurnsInside (form_of self.old) (own_inside (with_cursor x walk.old) self.old base) (own_inside (with_cursor x walk.new) self.new base) (OnWalk (command_for goal))
            (number_of (form_of self.old) base) (number_of (form_of self.old) (image_of self.old base)) (number_of (form_of self.old) (image_of self.new base)) (reply_of reply)) }
        ensures walks { IfOk result (λ reply. IsTrue D.tells → let base = seen (D.history d.old) in RestsInside self.old base walk.old → (x : Own)
            → WalksInside x self.old self.new base walk.old walk.new (OnWalk (command_for goal)) (reply_of reply)) }
        ensures purges { IfOk result (λ reply. IsTrue D.tells → let base = seen (D.history d.old) in RestsInside self.old base walk.old
            → PurgesDead (form_of self.old) (image_of self.old base) (image_of self.new base) walk.old.cursor.place (reply_of reply)) }
        ensures image { OnOk result (IsTrue D.tells → let base = seen (D.history d.old) in RestsInside self.old base walk.old → ImageKept (form_of self.old) (image_of self.old base) (image_of self.new base)) }
        ensures commits { OnOk result (IsTrue D.tells → let base = seen (D.history d.old) in RestsInside self.old base walk.old → MayCommit self.old.txn base → MayCommit self.new.txn base) }
        ensures rests { OnOk result (RestsAt (form_of self.old) walk.old.shown walk.old.cursor.place walk.old.cursor.stage → RestsAt (form_of self.old) walk.new.shown walk.new.cursor.place walk.new.cursor.stage) }
        ensures shown { IfOk result (λ reply. walk.new.shown ≡ shown_by goal (reply_of reply) walk.old.shown) }
        ensures stands { OnErr result ((walk.new.cursor.place ≡ walk.old.cursor.place) × (walk.new.shown ≡ walk.old.shown)) }
        ensures same { SameTxn self.old self.new }
        ensures changed { self.new.changed ≡ self.old.changed }
        ensures length { txn_size self.new.txn ≡ txn_size self.old.txn }
        ensures history { D.history d.new ≡ D.history d.old }
        ensures size { D.size d.new ≡ D.size d.old }
        ensures syncs { D.syncs d.new ≡ D.syncs d.old }
        ensures cause { HasCause (D.faults d.old) (D.faults d.new) result }
    {
        if goal == Goal::Next && walk.shown.is_none() {
            return Ok(Reply::End);
        }
        walk_in_pages(&mut self.txn, alloc, d, walk, goal)
    }
}
