//! The transaction of an opener.
ghost use Rattle.std.specs.Prelude.{◌≡◌, ◌≢◌, ℕ, List, None, Some, false};
ghost use Rattle.tdb_locks.specs.HeldLocks.{nothing_held};
ghost use Rattle.tdb_law.specs.Commands.{Command};
ghost use Rattle.tdb_law.specs.Commands.GroupCommand.{Cancel};
ghost use Rattle.tdb_law.specs.Commands.Command.{OnGroup};
ghost use Rattle.tdb_law.specs.Commands.Reply.{Done};
ghost use Rattle.tdb_law.specs.Openers.{Own};
ghost use Rattle.tdb_law.specs.Refusals.{Refusal, refusal, says};
ghost use Rattle.tdb_space.specs.Form.{Form};
ghost use Rattle.tdb_steps.specs.Holdings.{table_of};
ghost use Rattle.tdb_txn.specs.Txn.{txn_depth};
ghost use Rattle.tdb_walk.specs.declared.standing.Standing.TheVariants.{Past};
ghost use Rattle.tdb_walk.specs.Cursors.{rested};
ghost use Rattle.tdb_txn_turns.specs.InsideTxn.Laws.{IsEnd};
ghost use Rattle.tdb_txn_turns.specs.InsideTxn.OwnTxns.{own_inside};
ghost use Rattle.tdb_txn_turns.specs.InsideTxn.Turns.{ClosesInside, EndsInside};

use std::alloc::Global;
use tdb_locks::{Held, Locks};
use tdb_txn::Txn;
use tdb_walk::Walk;

/// The transaction of an opener: its pages, and what is known of it besides.
#[derive(Drop)]
pub struct OwnTxn {
    /// Its pages, and the transactions within it.
    pub txn: Txn,

    /// Whether a command was done in it that may change the map.
    pub changed: bool,

    /// Whether its changes raise the sequence number.
    pub numbered: bool,
}

/// Lets go of all that an opener holds, and of its explicit locks, which are counted no more.
fn let_go(alloc: Global, locks: &mut Locks, owner: u32, held: &mut Held)
    ensures gone { (b : ℕ) → table_of locks.new owner b ≡ 0 }
    ensures others { (o b : ℕ) → o ≢ owner → table_of locks.new o b ≡ table_of locks.old o b }
    ensures held { held.new ≡ nothing_held }
{
    locks.drop_owner(owner);
    *held = Held::new(alloc);
}

impl OwnTxn {
    /// A transaction that has just begun.
    pub fn new(txn: Txn, numbered: bool) -> OwnTxn
        ensures { result ≡ record { txn = txn; changed = false; numbered = numbered } }
    {
        OwnTxn {
            txn,
            changed: false,
            numbered,
        }
    }

    /// Ends the outer transaction without a commit, in one turn: so does an outer Cancel, and an outer Commit or
    /// Prepare that is refused. `owner` is the number of the opener in the lock table, and `held` are its explicit
    /// locks: it lets go of all that it holds, and its locks aren't counted any more. No call is made on the disk.
    pub fn cancel(self, alloc: Global, locks: &mut Locks, owner: u32, held: &mut Held)
        requires outer { txn_depth self.txn ≡ 0 }
        ensures ends { (f : Form) (base : List ℕ) (x : Own) (n p : ℕ) → EndsInside f (own_inside x self base) (OnGroup Cancel) n p Done }
        ensures refused { (f : Form) (base : List ℕ) (x : Own) (c : Command) (why : Refusal) (n p : ℕ) → IsEnd c → refusal f c (own_inside x self base) ≡ Some why
            → EndsInside f (own_inside x self base) c n p (says (own_inside x self base) why) }
        ensures gone { (b : ℕ) → table_of locks.new owner b ≡ 0 }
        ensures others { (o b : ℕ) → o ≢ owner → table_of locks.new o b ≡ table_of locks.old o b }
        ensures held { held.new ≡ nothing_held }
    {
        let_go(alloc, locks, owner, held);
    }

    /// Ends the opener, and with it its transaction and its cursor, in one turn: so does a Close. `owner` is the number
    /// of the opener in the lock table, and `held` are its explicit locks: it lets go of all that it holds, and isn't
    /// live any more. A dead record on which the cursor stood goes with the transaction. No call is made on the disk.
    pub fn close(
        self,
        alloc: Global,
        locks: &mut Locks,
        owner: u32,
        live: &mut bool,
        held: &mut Held,
        walk: &mut Walk,
    )
        ensures closes { (f : Form) (base : List ℕ) (x : Own) (n p : ℕ) → ClosesInside f (own_inside x self base) n p }
        ensures gone { (b : ℕ) → table_of locks.new owner b ≡ 0 }
        ensures others { (o b : ℕ) → o ≢ owner → table_of locks.new o b ≡ table_of locks.old o b }
        ensures live { live.new ≡ false }
        ensures held { held.new ≡ nothing_held }
        ensures cursor { walk.new.cursor ≡ rested Past }
        ensures shown { walk.new.shown ≡ None }
    {
        let_go(alloc, locks, owner, held);
        *live = false;
        *walk = Walk::new();
    }
}
