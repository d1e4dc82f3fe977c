//! A plain command inside a transaction.
ghost use Rattle.std.specs.Prelude.{◌≡◌, ◌≤◌, ◌<◌, ◌&&◌, ◌||◌, List, ℕ, [], Contains, None, IsTrue, IfOk, OnOk};
ghost use Rattle.tdb_disk.specs.Count.{HasCause};
ghost use Rattle.tdb_disk.specs.History.{seen};
ghost use Rattle.tdb_space.specs.Form.{form_in};
ghost use Rattle.tdb_space.specs.Accepted.{AcceptWith};
ghost use Rattle.tdb_law.specs.Commands.{is_done};
ghost use Rattle.tdb_law.specs.Commands.Command.{OnMap};
ghost use Rattle.tdb_law.specs.Commands.Turn.{Ends};
ghost use Rattle.tdb_law.specs.MapCommands.{map_changes};
ghost use Rattle.tdb_law.specs.Openers.{Own};
ghost use Rattle.tdb_law.specs.Refusals.{refusal};
ghost use Rattle.tdb_steps.specs.Machines.{begun, IsShort, Fits};
ghost use Rattle.tdb_steps.specs.PlainCommands.{IsKeyed, command_of, reply_of};
ghost use Rattle.tdb_steps.specs.Turns.{number_of};
ghost use Rattle.tdb_steps.specs.Room.{FullExactly};
ghost use Rattle.tdb_txn.specs.Committing.{MayCommit};
ghost use Rattle.tdb_txn.specs.Txn.{txn_form, txn_image, txn_start, txn_size, txn_spare, txn_depth, txn_doomed};
ghost use Rattle.tdb_walk.specs.declared.standing.Standing.TheVariants.{On};
ghost use Rattle.tdb_walk.specs.NextLive.{StandsIn};
ghost use Rattle.tdb_walk.specs.declared.walk.Walk.{Walk};
ghost use Rattle.tdb_txn_turns.specs.InsideTxn.Done.{ImageDone};
ghost use Rattle.tdb_txn_turns.specs.InsideTxn.OwnTxns.{form_of, image_of, own_inside, SameTxn};
ghost use Rattle.tdb_txn_turns.specs.InsideTxn.Spared.{WalkKept};
ghost use Rattle.tdb_txn_turns.specs.InsideTxn.Turns.{TurnsInside};
ghost use Rattle.tdb_txn_turns.specs.InsideTxn.Walks.{with_cursor, IsEntered, RestsInside, WalksInside};

use crate::inside_txn::alone::take_turns;
use crate::inside_txn::own_txn::OwnTxn;
use std::alloc::Global;
use tdb_disk::Disk;
use tdb_locks::{Reply, Spots};
use tdb_space::Io;
use tdb_steps::{Machine, Plain};
use tdb_txn::{OverlayOn, Txn};
use tdb_words::Header;

/// Whether a command that may change the map, or not, has done so by this reply.
fn has_changed(changes: bool, reply: &Reply) -> bool
    ensures { result ≡ (changes && is_done (reply_of reply.now)) }
{
    match reply {
        Reply::Ok => changes,
        _ => false,
    }
}

/// Takes all turns of a command in the pages of a transaction.
fn take_in_pages<D: Disk>(
    txn: &mut Txn,
    alloc: Global,
    d: &mut D,
    machine: &mut Machine,
    stood_on: &Spots,
    limit: u64,
) -> Result<Reply, Io>
    requires sized { D.size d.old ≡ txn_start txn.old }
    requires chains { 0 < (txn_form txn.old).chains }
    requires limit { limit ≤ 4294963200 }
    requires within { txn_size txn.old ≤ limit }
    requires begun { machine.old ≡ begun machine.old.command machine.old.chain machine.old.seqnum }
    requires fits { Fits machine.old (txn_size txn.old) (txn_spare txn.old) }
    ensures done { IfOk result (λ reply. IsTrue D.tells → let base = seen (D.history d.old) in AcceptWith (txn_form txn.old) (txn_image txn.old base) []
        → ImageDone (txn_form txn.old) (txn_image txn.old base) (txn_image txn.new base) (command_of machine.old.command) machine.old.seqnum (reply_of reply)) }
    ensures full { IfOk result (λ reply. IsTrue D.tells → let base = seen (D.history d.old) in AcceptWith (txn_form txn.old) (txn_image txn.old base) []
        → FullExactly (txn_form txn.old) (txn_image txn.old base) limit (OnMap (command_of machine.old.command)) (Ends (reply_of reply))) }
    ensures walks { IfOk result (λ reply. IsTrue D.tells → let base = seen (D.history d.old) in AcceptWith (txn_form txn.old) (txn_image txn.old base) []
        → IsKeyed machine.old.command → (chain off : ℕ) → Contains stood_on.now off → StandsIn (txn_form txn.old) (txn_image txn.old base) (On chain off)
        → WalkKept (txn_form txn.old) (txn_image txn.old base) (txn_image txn.new base) chain off (command_of machine.old.command) (reply_of reply)) }
    ensures form { txn_form txn.new ≡ txn_form txn.old }
    ensures start { txn_start txn.new ≡ txn_start txn.old }
    ensures depth { txn_depth txn.new ≡ txn_depth txn.old }
    ensures doomed { txn_doomed txn.new ≡ txn_doomed txn.old }
    ensures longer { txn_size txn.old ≤ txn_size txn.new }
    ensures within { txn_size txn.new ≤ limit }
    ensures history { D.history d.new ≡ D.history d.old }
    ensures size { D.size d.new ≡ D.size d.old }
    ensures syncs { D.syncs d.new ≡ D.syncs d.old }
    ensures cause { HasCause (D.faults d.old) (D.faults d.new) result }
    ensures bytes_read { D.bytes_read d.old ≤ D.bytes_read d.new }
{
    let mut view = OverlayOn::new(txn, d);
    take_turns(alloc, &mut view, machine, stood_on, limit)
}

impl OwnTxn {
    /// Does a plain command in one turn, in a file that may grow to `limit` bytes, where the opener's own cursor
    /// stands on a record at `stood_on` if it stands on one. `h` is the header of the file.
    ///
    /// The reply is that of the command on the map of the transaction, or says that memory or space is wanting, and
    /// then that map is as it was. `Full` comes exactly where the image of the transaction has no room, up to the
    /// limit, for what the command stores, with the length of that image and what the record needs. Nothing is written
    /// to the disk, and no lock is taken. With `Ok` of a command that may change the map there is something to commit,
    /// and the sequence number is raised where changes count. `Io` only where the disk failed.
    ///
    /// The cursor rests where it did: its record is marked as dead where the command deletes it or links another one
    /// in its place, and stays in its chain.
    ///
    /// Cost: the chain of the key, the free list, or the writes, once each.
    pub fn run<D: Disk>(
        &mut self,
        alloc: Global,
        d: &mut D,
        h: &Header,
        command: Plain,
        stood_on: &Spots,
        limit: u64,
    ) -> Result<Reply, Io>
        requires sized { D.size d.old ≡ txn_start self.old.txn }
        requires header { form_in h.now ≡ form_of self.old }
        requires chains { 0 < h.now.hash_size }
        requires short { IsShort command }
        requires limit { limit ≤ 4294963200 }
        requires within { txn_size self.old.txn ≤ limit }
        ensures turned { IfOk result (λ reply. IsTrue D.tells → let base = seen (D.history d.old) in AcceptWith (form_of self.old) (image_of self.old base) []
            → (x : Own) → refusal (form_of self.old) (OnMap (command_of command)) (own_inside x self.old base) ≡ None
            → TurnsInside (form_of self.old) (own_inside x self.old base) (own_inside x self.new base) (OnMap (command_of command))
            (number_of (form_of self.old) base) (number_of (form_of self.old) (image_of self.old base)) (number_of (form_of self.old) (image_of self.new base)) (reply_of reply)) }
        ensures done { IfOk result (λ reply. IsTrue D.tells → let base = seen (D.history d.old) in AcceptWith (form_of self.old) (image_of self.old base) []
            → ImageDone (form_of self.old) (image_of self.old base) (image_of self.new base) (command_of command) self.old.numbered (reply_of reply)) }
        ensures full { IfOk result (λ reply. IsTrue D.tells → let base = seen (D.history d.old) in AcceptWith (form_of self.old) (image_of self.old base) []
            → FullExactly (form_of self.old) (image_of self.old base) limit (OnMap (command_of command)) (Ends (reply_of reply))) }
        ensures walks { IfOk result (λ reply. IsTrue D.tells → let base = seen (D.history d.old) in (walk : Walk) → RestsInside self.old base walk → IsEntered stood_on.now walk.cursor.place
            → (x : Own) → refusal (form_of self.old) (OnMap (command_of command)) (own_inside (with_cursor x walk) self.old base) ≡ None
            → WalksInside x self.old self.new base walk walk (OnMap (command_of command)) (reply_of reply)) }
        ensures commits { OnOk result (IsTrue D.tells → let base = seen (D.history d.old) in MayCommit self.old.txn base → MayCommit self.new.txn base) }
        ensures changed { IfOk result (λ reply. self.new.changed ≡ (self.old.changed || (map_changes (command_of command) && is_done (reply_of reply)))) }
        ensures same { SameTxn self.old self.new }
        ensures longer { txn_size self.old.txn ≤ txn_size self.new.txn }
        ensures within { txn_size self.new.txn ≤ limit }
        ensures history { D.history d.new ≡ D.history d.old }
        ensures size { D.size d.new ≡ D.size d.old }
        ensures syncs { D.syncs d.new ≡ D.syncs d.old }
        ensures cause { HasCause (D.faults d.old) (D.faults d.new) result }
        ensures bytes_read { D.bytes_read d.old ≤ D.bytes_read d.new }
    {
        let changes = command.changes();
        let mut machine = Machine::new(command, h, self.numbered);
        let reply = take_in_pages(&mut self.txn, alloc, d, &mut machine, stood_on, limit);
        machine.end();
        let reply = reply?;
        self.changed |= has_changed(changes, &reply);
        Ok(reply)
    }
}
