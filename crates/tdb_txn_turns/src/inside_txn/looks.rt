//! The commands that look at a transaction as a whole: its check, and its sequence number.
ghost use Rattle.std.specs.Prelude.{◌≡◌, ◌≤◌, [], None, IsTrue, IfOk, OnOk, if◌then◌else◌};
ghost use Rattle.tdb_disk.specs.Count.{HasCause};
ghost use Rattle.tdb_disk.specs.History.{seen};
ghost use Rattle.tdb_space.specs.Form.{form_in};
ghost use Rattle.tdb_space.specs.Frame.{Looked};
ghost use Rattle.tdb_space.specs.Accepted.{AcceptWith};
ghost use Rattle.tdb_law.specs.Commands.MapCommand.{Check};
ghost use Rattle.tdb_law.specs.Commands.Command.{OnMap, Seqnum};
ghost use Rattle.tdb_law.specs.Images.{image_map};
ghost use Rattle.tdb_law.specs.Openers.{Own};
ghost use Rattle.tdb_law.specs.Refusals.{refusal};
ghost use Rattle.tdb_steps.specs.PlainCommands.{reply_of};
ghost use Rattle.tdb_steps.specs.Turns.{number_of};
ghost use Rattle.tdb_txn.specs.Txn.{txn_form, txn_image, txn_start, txn_size, txn_depth, txn_doomed};
ghost use Rattle.tdb_txn_turns.specs.InsideTxn.Done.{MapDone};
ghost use Rattle.tdb_txn_turns.specs.InsideTxn.OwnTxns.{form_of, image_of, own_inside, SameTxn};
ghost use Rattle.tdb_txn_turns.specs.InsideTxn.Turns.{TurnsInside};

use crate::inside_txn::own_txn::OwnTxn;
use std::alloc::Global;
use tdb_check::{CheckRefusal, check};
use tdb_disk::Disk;
use tdb_locks::Reply;
use tdb_space::{Direct, Io, Space, read_word};
use tdb_txn::{OverlayOn, Txn};
use tdb_words::Header;

/// The offset of the sequence number.
const SEQUENCE_AT: u64 = 48;

/// Counts the keys of an image.
///
/// `Io` where the disk failed, and where the image has a fault, which no command leaves: so over an accepted image
/// the disk failed.
fn count_keys<S: Space>(alloc: Global, s: &mut S) -> Result<Reply, Io>
    ensures done { IfOk result (λ reply. IsTrue S.tells → AcceptWith (S.form s.old) (S.image s.old) []
        → MapDone Check (image_map (S.form s.old) (S.image s.old)) (image_map (S.form s.old) (S.image s.old)) (reply_of reply)) }
    ensures looked { Looked S.Space s.old s.new }
    ensures cause { IsTrue S.tells → AcceptWith (S.form s.old) (S.image s.old) [] → HasCause (S.faults s.old) (S.faults s.new) result }
    ensures quiet { OnOk result (S.faults s.new ≡ S.faults s.old) }
    ensures rises { S.faults s.old ≤ S.faults s.new }
{
    match check(alloc, s) {
        Ok(report) => Ok(Reply::Number(report.live)),
        Err(CheckRefusal::Memory) => Ok(Reply::Memory),
        Err(CheckRefusal::Io) => Err(Io),
        Err(CheckRefusal::Corrupt { .. }) => Err(Io),
    }
}

/// The sequence number of a view: the word at 48, and 0 where the view ends before it.
fn number_in<S: Space>(s: &mut S) -> Result<u32, Io>
    ensures value { IfOk result (λ w. IsTrue S.tells → 52 ≤ S.size s.old → w ≡ number_of (S.form s.old) (S.image s.old)) }
    ensures looked { Looked S.Space s.old s.new }
    ensures cause { HasCause (S.faults s.old) (S.faults s.new) result }
{
    if s.len()? < SEQUENCE_AT + 4 {
        return Ok(0);
    }
    read_word(s, SEQUENCE_AT)
}

/// Counts the keys of a transaction.
fn count_in_pages<D: Disk>(txn: &mut Txn, alloc: Global, d: &mut D) -> Result<Reply, Io>
    requires sized { D.size d.old ≡ txn_start txn.old }
    ensures done { IfOk result (λ reply. IsTrue D.tells → let base = seen (D.history d.old) in AcceptWith (txn_form txn.old) (txn_image txn.old base) []
        → MapDone Check (image_map (txn_form txn.old) (txn_image txn.old base)) (image_map (txn_form txn.old) (txn_image txn.old base)) (reply_of reply)) }
    ensures image { let base = seen (D.history d.old) in txn_image txn.new base ≡ txn_image txn.old base }
    ensures form { txn_form txn.new ≡ txn_form txn.old }
    ensures start { txn_start txn.new ≡ txn_start txn.old }
    ensures depth { txn_depth txn.new ≡ txn_depth txn.old }
    ensures doomed { txn_doomed txn.new ≡ txn_doomed txn.old }
    ensures length { txn_size txn.new ≡ txn_size txn.old }
    ensures history { D.history d.new ≡ D.history d.old }
    ensures size { D.size d.new ≡ D.size d.old }
    ensures syncs { D.syncs d.new ≡ D.syncs d.old }
    ensures cause { IsTrue D.tells → AcceptWith (txn_form txn.old) (txn_image txn.old (seen (D.history d.old))) [] → HasCause (D.faults d.old) (D.faults d.new) result }
    ensures quiet { OnOk result (D.faults d.new ≡ D.faults d.old) }
    ensures rises { D.faults d.old ≤ D.faults d.new }
{
    let mut view = OverlayOn::new(txn, d);
    count_keys(alloc, &mut view)
}

/// The sequence number of a transaction's image, and 0 where that has none.
fn number_in_pages<D: Disk>(txn: &mut Txn, d: &mut D) -> Result<u32, Io>
    requires sized { D.size d.old ≡ txn_start txn.old }
    ensures value { IfOk result (λ w. IsTrue D.tells → 52 ≤ txn_size txn.old → w ≡ number_of (txn_form txn.old) (txn_image txn.old (seen (D.history d.old)))) }
    ensures image { let base = seen (D.history d.old) in txn_image txn.new base ≡ txn_image txn.old base }
    ensures form { txn_form txn.new ≡ txn_form txn.old }
    ensures start { txn_start txn.new ≡ txn_start txn.old }
    ensures depth { txn_depth txn.new ≡ txn_depth txn.old }
    ensures doomed { txn_doomed txn.new ≡ txn_doomed txn.old }
    ensures length { txn_size txn.new ≡ txn_size txn.old }
    ensures history { D.history d.new ≡ D.history d.old }
    ensures size { D.size d.new ≡ D.size d.old }
    ensures syncs { D.syncs d.new ≡ D.syncs d.old }
    ensures cause { HasCause (D.faults d.old) (D.faults d.new) result }
{
    let mut view = OverlayOn::new(txn, d);
    number_in(&mut view)
}

/// The sequence number of the file itself, and 0 where it has none.
fn number_on_disk<D: Disk>(d: &mut D, h: &Header) -> Result<u32, Io>
    ensures value { IfOk result (λ w. IsTrue D.tells → 52 ≤ D.size d.old → w ≡ number_of (form_in h.now) (seen (D.history d.old))) }
    ensures history { D.history d.new ≡ D.history d.old }
    ensures size { D.size d.new ≡ D.size d.old }
    ensures syncs { D.syncs d.new ≡ D.syncs d.old }
    ensures cause { HasCause (D.faults d.old) (D.faults d.new) result }
{
    let mut view = Direct::new(d, h);
    number_in(&mut view)
}

/// The sequence number that the opener of a transaction sees: that of the image where its changes raise it, and else
/// that of the file.
fn number_seen<D: Disk>(txn: &mut Txn, numbered: bool, d: &mut D, h: &Header) -> Result<u32, Io>
    requires sized { D.size d.old ≡ txn_start txn.old }
    requires header { form_in h.now ≡ txn_form txn.old }
    ensures value { IfOk result (λ w. IsTrue D.tells → 52 ≤ txn_start txn.old → txn_start txn.old ≤ txn_size txn.old → let base = seen (D.history d.old) in
        w ≡ (if numbered then number_of (txn_form txn.old) (txn_image txn.old base) else number_of (txn_form txn.old) base)) }
    ensures image { let base = seen (D.history d.old) in txn_image txn.new base ≡ txn_image txn.old base }
    ensures form { txn_form txn.new ≡ txn_form txn.old }
    ensures start { txn_start txn.new ≡ txn_start txn.old }
    ensures depth { txn_depth txn.new ≡ txn_depth txn.old }
    ensures doomed { txn_doomed txn.new ≡ txn_doomed txn.old }
    ensures length { txn_size txn.new ≡ txn_size txn.old }
    ensures history { D.history d.new ≡ D.history d.old }
    ensures size { D.size d.new ≡ D.size d.old }
    ensures syncs { D.syncs d.new ≡ D.syncs d.old }
    ensures cause { HasCause (D.faults d.old) (D.faults d.new) result }
{
    if numbered {
        return number_in_pages(txn, d);
    }
    number_on_disk(d, h)
}

impl OwnTxn {
    /// Checks the transaction in one turn: the reply is the number of its keys, or `Memory`. No lock is taken.
    ///
    /// `Io` where the disk failed, and where the image has a fault, which no command leaves: so over an accepted
    /// image the disk failed.
    ///
    /// Cost: a check of the whole image.
    pub fn check<D: Disk>(&mut self, alloc: Global, d: &mut D) -> Result<Reply, Io>
        requires sized { D.size d.old ≡ txn_start self.old.txn }
        ensures turned { IfOk result (λ reply. IsTrue D.tells → let base = seen (D.history d.old) in AcceptWith (form_of self.old) (image_of self.old base) []
            → (x : Own) → refusal (form_of self.old) (OnMap Check) (own_inside x self.old base) ≡ None
            → let p = number_of (form_of self.old) (image_of self.old base) in
            TurnsInside (form_of self.old) (own_inside x self.old base) (own_inside x self.new base) (OnMap Check) (number_of (form_of self.old) base) p p (reply_of reply)) }
        ensures image { let base = seen (D.history d.old) in image_of self.new base ≡ image_of self.old base }
        ensures same { SameTxn self.old self.new }
        ensures changed { self.new.changed ≡ self.old.changed }
        ensures length { txn_size self.new.txn ≡ txn_size self.old.txn }
        ensures history { D.history d.new ≡ D.history d.old }
        ensures size { D.size d.new ≡ D.size d.old }
        ensures syncs { D.syncs d.new ≡ D.syncs d.old }
        ensures cause { IsTrue D.tells → AcceptWith (form_of self.old) (image_of self.old (seen (D.history d.old))) [] → HasCause (D.faults d.old) (D.faults d.new) result }
        ensures quiet { OnOk result (D.faults d.new ≡ D.faults d.old) }
        ensures rises { D.faults d.old ≤ D.faults d.new }
    {
        count_in_pages(&mut self.txn, alloc, d)
    }

    /// Tells the sequence number in one turn: that of the transaction's image where its changes raise it, and else
    /// that of the file. No lock is taken, and no memory. `h` is the header of the file. `Io` only where the disk
    /// failed.
    pub fn sequence<D: Disk>(&mut self, d: &mut D, h: &Header) -> Result<Reply, Io>
        requires sized { D.size d.old ≡ txn_start self.old.txn }
        requires header { form_in h.now ≡ form_of self.old }
        ensures turned { IfOk result (λ reply. IsTrue D.tells → 52 ≤ txn_start self.old.txn → txn_start self.old.txn ≤ txn_size self.old.txn → (x : Own)
            → let base = seen (D.history d.old) in let p = number_of (form_of self.old) (image_of self.old base) in
            refusal (form_of self.old) Seqnum (own_inside x self.old base) ≡ None
            → TurnsInside (form_of self.old) (own_inside x self.old base) (own_inside x self.new base) Seqnum (number_of (form_of self.old) base) p p (reply_of reply)) }
        ensures image { let base = seen (D.history d.old) in image_of self.new base ≡ image_of self.old base }
        ensures same { SameTxn self.old self.new }
        ensures changed { self.new.changed ≡ self.old.changed }
        ensures length { txn_size self.new.txn ≡ txn_size self.old.txn }
        ensures history { D.history d.new ≡ D.history d.old }
        ensures size { D.size d.new ≡ D.size d.old }
        ensures syncs { D.syncs d.new ≡ D.syncs d.old }
        ensures cause { HasCause (D.faults d.old) (D.faults d.new) result }
    {
        let number = number_seen(&mut self.txn, self.numbered, d, h)?;
        Ok(Reply::Number(u64::from(number)))
    }
}
