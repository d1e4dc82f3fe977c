//! The commands on transactions within a transaction.
ghost use Rattle.std.specs.Prelude.{◌≡◌, ◌+◌, ◌-◌, ◌<◌, ◌^◌, ℕ, List, true, None, if◌then◌else◌};
ghost use Rattle.tdb_law.specs.Commands.GroupCommand.{Start, Commit, Cancel};
ghost use Rattle.tdb_law.specs.Commands.Command.{OnGroup};
ghost use Rattle.tdb_law.specs.Openers.{Own};
ghost use Rattle.tdb_law.specs.Refusals.{refusal};
ghost use Rattle.tdb_space.specs.Form.{Form};
ghost use Rattle.tdb_steps.specs.PlainCommands.{reply_of};
ghost use Rattle.tdb_txn.specs.Txn.{txn_depth, txn_doomed, SameView};
ghost use Rattle.tdb_txn_turns.specs.InsideTxn.OwnTxns.{own_inside};
ghost use Rattle.tdb_txn_turns.specs.InsideTxn.Turns.{TurnsInside};

use crate::inside_txn::own_txn::OwnTxn;
use tdb_locks::Reply;

impl OwnTxn {
    /// An inner Start, which is done at once.
    pub fn start_inner(&mut self)
        requires { txn_depth self.old.txn < 2 ^ 32 - 1 }
        ensures turned { (f : Form) (base : List ℕ) (x : Own) (n p : ℕ) → refusal f (OnGroup Start) (own_inside x self.old base) ≡ None
            → TurnsInside f (own_inside x self.old base) (own_inside x self.new base) (OnGroup Start) n p p (reply_of Reply.Ok) }
        ensures depth { txn_depth self.new.txn ≡ txn_depth self.old.txn + 1 }
        ensures doomed { txn_doomed self.new.txn ≡ txn_doomed self.old.txn }
        ensures view { SameView self.old.txn self.new.txn }
        ensures changed { self.new.changed ≡ self.old.changed }
        ensures numbered { self.new.numbered ≡ self.old.numbered }
    {
        self.txn.nest();
    }

    /// An inner Commit, which is done at once: what was written since its Start is part of the transaction around it.
    /// The reply is `Doomed` after an inner Cancel.
    pub fn commit_inner(&mut self) -> Reply
        requires { 0 < txn_depth self.old.txn }
        ensures turned { (f : Form) (base : List ℕ) (x : Own) (n p : ℕ)
            → TurnsInside f (own_inside x self.old base) (own_inside x self.new base) (OnGroup Commit) n p p (reply_of result) }
        ensures told { result ≡ (if txn_doomed self.old.txn then Reply.Doomed else Reply.Ok) }
        ensures depth { txn_depth self.new.txn + 1 ≡ txn_depth self.old.txn }
        ensures doomed { txn_doomed self.new.txn ≡ txn_doomed self.old.txn }
        ensures view { SameView self.old.txn self.new.txn }
        ensures changed { self.new.changed ≡ self.old.changed }
        ensures numbered { self.new.numbered ≡ self.old.numbered }
    {
        self.txn.inner_commit();
        if self.txn.doomed() {
            Reply::Doomed
        } else {
            Reply::Ok
        }
    }

    /// An inner Cancel, which is done at once. What was written since its Start stays, and so the transaction can't
    /// be committed any more.
    pub fn cancel_inner(&mut self)
        requires { 0 < txn_depth self.old.txn }
        ensures turned { (f : Form) (base : List ℕ) (x : Own) (n p : ℕ)
            → TurnsInside f (own_inside x self.old base) (own_inside x self.new base) (OnGroup Cancel) n p p (reply_of Reply.Ok) }
        ensures depth { txn_depth self.new.txn + 1 ≡ txn_depth self.old.txn }
        ensures doomed { txn_doomed self.new.txn ≡ true }
        ensures view { SameView self.old.txn self.new.txn }
        ensures changed { self.new.changed ≡ self.old.changed }
        ensures numbered { self.new.numbered ≡ self.old.numbered }
    {
        self.txn.inner_cancel();
    }
}
