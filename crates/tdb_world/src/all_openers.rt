//! A world, who joins it, and how its openers stand.
ghost use Rattle.std.specs.Prelude.{◌≡◌, ◌≤◌, ◌+◌, ◌<◌, [], ℕ, List, None, length, IsTrue, IfOk, IfErr, OnErr, OnOk, Some, ◌↔◌, false};
ghost use Rattle.tdb_disk.specs.History.{History, seen};
ghost use Rattle.tdb_space.specs.Accepted.{AcceptWith};
ghost use Rattle.tdb_space.specs.Form.{form_in};
ghost use Rattle.tdb_law.specs.Beginning.{IsLoaded};
ghost use Rattle.tdb_law.specs.Images.{image_map};
ghost use Rattle.tdb_law.specs.World.{State, HasFewChains};
ghost use Rattle.tdb_commands.specs.InLaw.{law_opener, options_of};
ghost use Rattle.tdb_steps.specs.Turns.{number_of};
ghost use Rattle.tdb_txn_owner.specs.Holders.{HolderState};
ghost use Rattle.tdb_world.specs.Whole.{is_starting, WorldFits};
ghost use Rattle.tdb_world.specs.States.{IsStateOf};
ghost use Rattle.tdb_world.specs.Steps.{JoinLeads};

use std::alloc::Global;
use std::marker::Model;
use tdb_commands::Options;
use tdb_openers::{MOST_OPENERS, Openers};
use tdb_txn_owner::TxnOwner;
use tdb_words::Header;
use thiserror::Error;

/// Why no opener joined.
#[derive(Clone, Copy, Debug, PartialEq, Eq, Error)]
pub enum JoinRefusal {
    /// The opener with this number commits a transaction, and holds the lock of those that open.
    #[error("opener {owner} commits")]
    Blocked { owner: u32 },
    /// So many have joined that no more may.
    #[error("{count} openers have joined")]
    Many { count: u32 },
    #[error("out of memory")]
    Memory,
}

/// The openers of one file, one of which may have a transaction. Their numbers are counted from 1 on, and none is used
/// twice. It can't be dropped: `end` gives it up.
pub(crate) struct AllOpeners {
    pub(crate) openers: Openers,

    /// For each opener whether it has a Start that has had no turn.
    pub(crate) starts: Vec<bool>,

    /// The opener that has a transaction, or a Start that has had a turn.
    pub(crate) aside: Option<TxnOwner>,

    /// The sequence number of the file, while the one aside holds all records for writing.
    pub(crate) number: u32,

    /// Whether a gate stands open that an opener left by dying.
    pub(crate) stale: bool,
}

impl Model for AllOpeners {
    ghost use Rattle.std.specs.Coded.{codes};
    ghost use Rattle.tdb_txn_owner.specs.contracts.txn_owner.TxnOwner as e;
    ghost use Rattle.tdb_world.specs.Whole.{Whole};

    ghost Value = { Whole };

    ghost coded = { Prim.hlevel (codes, e.the_row.coded) };

    ghost view = { λ w. record { openers = w.openers; starts = w.starts.items; aside = w.aside; number = w.number; stale = w.stale } };
}

impl AllOpeners {
    /// Nobody has joined. It takes no memory.
    pub(crate) fn new(alloc: Global, header: &Header, options: &Options) -> AllOpeners
        ensures header { result.openers.header ≡ header.now }
        ensures options { result.openers.options ≡ options.now }
        ensures openers { result.openers.openers ≡ [] }
        ensures aside { result.aside ≡ None }
        ensures fresh { result.stale ≡ false }
        ensures fits { (img : List ℕ) (size : ℕ) → HasFewChains (form_in header.now) → options.now.limit ≤ 4294963200 → size ≤ options.now.limit → WorldFits result img size }
        ensures state { (h : History) → let f = form_in header.now in HasFewChains f → options.now.limit ≤ 4294963200 → AcceptWith f (seen h) []
            → (state : State) × IsStateOf result h state × IsLoaded f state (options_of options.now) × (state.file ≡ image_map f (seen h)) × (state.number ≡ number_of f (seen h)) }
    {
        AllOpeners {
            openers: Openers::new(alloc, header, options),
            starts: Vec::new(alloc),
            aside: None,
            number: 0,
            stale: false,
        }
    }

    /// Gives it up, with the transaction of the one aside, which isn't committed. No call is made on the disk.
    pub(crate) fn end(self) {
        let AllOpeners {
            openers: _,
            starts: _,
            aside,
            number: _,
            stale: _,
        } = self;
        match aside {
            Some(holder) => holder.end(),
            None => {}
        }
    }

    /// Its allocator, of which copies of commands are made.
    pub(crate) fn alloc(&self) -> Global {
        self.openers.alloc()
    }

    /// How many openers have joined.
    pub(crate) fn joined(&self) -> u32
        requires fits { (img : List ℕ) × (size : ℕ) × WorldFits self.now img size }
        ensures { result ≡ length self.now.openers.openers }
    {
        self.openers.joined()
    }

    /// The number of the opener that holds the lock of those that open, if one does: it commits.
    fn barred_by(&self) -> Option<u32>
        requires fits { (img : List ℕ) × (size : ℕ) × WorldFits self.now img size }
        ensures none { result ≡ None → (h : History) (state : State) → IsStateOf self.now h state → (o : ℕ) → state.table o 0 ≡ 0 }
        ensures some { (owner : ℕ) → result ≡ Some owner → (h : History) (state : State) → IsStateOf self.now h state → 1 ≤ state.table (law_opener owner) 0 }
    {
        match &self.aside {
            Some(holder) if holder.holds(0) => Some(holder.owner()),
            _ => None,
        }
    }

    /// A new opener joins, and gets the next number. After a refusal nothing has changed.
    pub(crate) fn join(&mut self) -> Result<u32, JoinRefusal>
        requires fits { (img : List ℕ) × (size : ℕ) × WorldFits self.old img size }
        ensures number { IfOk result (λ who. who ≡ length self.old.openers.openers + 1) }
        ensures fits { (img : List ℕ) (size : ℕ) → WorldFits self.old img size → WorldFits self.new img size }
        ensures header { self.new.openers.header ≡ self.old.openers.header }
        ensures options { self.new.openers.options ≡ self.old.openers.options }
        ensures stale { self.new.stale ≡ self.old.stale }
        ensures joins { IfOk result (λ who. (h : History) → JoinLeads self.old self.new h who) }
        ensures blocked { IfErr result (λ e. (owner : ℕ) → e ≡ JoinRefusal.Blocked owner → (length self.old.openers.openers < 1000)
            × ((h : History) (state : State) → IsStateOf self.old h state → 1 ≤ state.table (law_opener owner) 0)) }
        ensures many { IfErr result (λ e. (count : ℕ) → e ≡ JoinRefusal.Many count → (count ≡ 1000) × (length self.old.openers.openers ≡ 1000)) }
        ensures err { OnErr result (self.new ≡ self.old) }
    {
        let count = self.joined();
        if count == MOST_OPENERS {
            return Err(JoinRefusal::Many { count });
        }
        if let Some(owner) = self.barred_by() {
            return Err(JoinRefusal::Blocked { owner });
        }
        if self.starts.push(false).is_err() {
            return Err(JoinRefusal::Memory);
        }
        match self.openers.join() {
            Ok(who) => Ok(who),
            Err(_) => {
                self.starts.pop();
                Err(JoinRefusal::Memory)
            }
        }
    }
}
