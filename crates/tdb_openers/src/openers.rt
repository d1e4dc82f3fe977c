// The openers of one file.

ghost use Rattle.std.specs.Prelude.{◌≡◌, ◌≢◌, ◌<◌, ◌≤◌, ◌+◌, ◌++◌, ◌∷◌, [], ℕ, List, length, IsTrue, MatchBool, IfSome, IfNone, IfOk, IfErr, OnOk, OnErr, None, false, ◌-◌, ◌↔◌, slice_get};
ghost use Rattle.tdb_disk.specs.Count.{HasCause};
ghost use Rattle.tdb_space.specs.Form.{form_in};
ghost use Rattle.tdb_space.specs.Frame.{Looked, Wrote};
ghost use Rattle.tdb_space.specs.Spare.{without_bound};
ghost use Rattle.tdb_space.specs.Accepted.{AcceptWith};
ghost use Rattle.tdb_law.specs.World.{HasFewChains};
ghost use Rattle.tdb_law.specs.Beginning.{IsLoaded};
ghost use Rattle.tdb_law.specs.Events.{Joins, Given};
ghost use Rattle.tdb_law.specs.Turned.{Turned};
ghost use Rattle.tdb_steps.specs.Memory.{StarvesOutside};
ghost use Rattle.tdb_steps.specs.Room.{FullOutside};
ghost use Rattle.tdb_walk.specs.Cursors.{spot_of};
ghost use Rattle.tdb_openers.specs.Openers.{own_of, command_in};
ghost use Rattle.tdb_openers.specs.Died.{HasDied};
ghost use Rattle.tdb_commands.specs.InLaw.{law_opener, law_command, law_turn, options_of};
ghost use Rattle.tdb_commands.specs.Short.{IsShortCommand};
ghost use Rattle.tdb_openers.specs.declared.job.Task.{Task};
ghost use Rattle.tdb_openers.specs.declared.opener.Opener.{Opener};
ghost use Rattle.tdb_openers.specs.Calm.{IsCalm, IsSparing, OnlyMoves};
ghost use Rattle.tdb_openers.specs.Aside.{IsBare, HoldsRecords, AreFree, AreBarred};
ghost use Rattle.tdb_openers.specs.Given.{IsBeginning, IsShortLocking, IsWellHeld};
ghost use Rattle.tdb_openers.specs.declared.job.Job.TheVariants as Jobs;
ghost use Rattle.tdb_openers.specs.declared.job.Locking.{Locking};
ghost use Rattle.tdb_openers.specs.ShutOut.{IsPassed, IsReplaced, JobMeets, MayMeet, opener_after};
ghost use Rattle.tdb_openers.specs.Laws.{other_hands};
ghost use Rattle.tdb_openers.specs.Stopped.{JobStopped};
ghost use Rattle.tdb_openers.specs.Worlds.{fresh, state_in, law_of_task, Stands, BytesStand, IsNumber, IsFree, IsBusy, IsAssigned};

use crate::job::Task;
use crate::opener::Opener;
use std::alloc::{AllocError, Global};
use std::marker::Model;
use tdb_commands::{Command, Options};
use tdb_locks::{Kind, LockRefusal, Locks, Spots, Turn};
use tdb_space::{Io, Space};
use tdb_words::Header;
use thiserror::Error;

/// How many openers may join.
pub const MOST_OPENERS: u32 = 1000;

/// How many turns of a command there are at most that aren't blocked.
pub const MOST_TURNS: u32 = 9;

/// Why no opener joined.
#[derive(Clone, Copy, Debug, PartialEq, Eq, Error)]
pub enum JoinRefusal {
    /// So many have joined that no more may.
    #[error("{count} openers have joined")]
    Many { count: u32 },
    #[error("out of memory")]
    Memory,
}

/// The openers of one file, and the locks that they hold. Their numbers are counted from 1 on, and none is used twice.
#[derive(Drop)]
pub struct Openers {
    alloc: Global,
    header: Header,
    options: Options,
    locks: Locks,
    list: Vec<Opener>,
    /// The records on which their cursors stand: an entry for each opener, which is 0 where its cursor stands on none.
    spots: Spots,
}

impl Model for Openers {
    ghost use Rattle.std.specs.Prelude.{◌≡◌};
    ghost use Rattle.tdb_openers.specs.Openers.{spots_of};
    ghost use Rattle.tdb_openers.specs.Worlds.{World};

    ghost Value = { World };

    ghost view = { λ w. record { header = w.header; options = w.options; openers = w.list.items; table = w.locks } };

    ghost invariant = { λ w. w.spots ≡ spots_of w.list.items };
}

impl Openers {
    /// Nobody has joined. It takes no memory.
    pub fn new(alloc: Global, header: &Header, options: &Options) -> Openers
        ensures header { result.header ≡ header.now }
        ensures options { result.options ≡ options.now }
        ensures openers { result.openers ≡ [] }
        ensures table { result.table ≡ [] }
        ensures stands { (img : List ℕ) (size : ℕ) → HasFewChains (form_in header.now) → options.now.limit ≤ 4294963200 → size ≤ options.now.limit → Stands result img size }
        ensures bytes { (img : List ℕ) → AcceptWith (form_in header.now) img [] → BytesStand result img }
        ensures loaded { (img : List ℕ) → HasFewChains (form_in header.now) → IsLoaded (form_in header.now) (state_in result img) (options_of options.now) }
    {
        Openers {
            alloc,
            header: *header,
            options: *options,
            locks: Locks::new(alloc),
            list: Vec::new(alloc),
            spots: Spots::new(alloc),
        }
    }

    /// The opener with this number, if one has it.
    pub(crate) fn opener(&self, who: u32) -> Option<&Opener>
        ensures number { IfSome result (λ x. IsNumber self.now who x.now) }
        ensures none { IfNone result (1 ≤ who → slice_get self.now.openers (who - 1) ≡ None) }
    {
        if who == 0 {
            return None;
        }
        let Some(opener) = self.list.get(who as usize - 1) else {
            return None;
        };
        Some(opener)
    }

    /// Where it takes its memory.
    pub fn alloc(&self) -> Global {
        self.alloc
    }

    /// The header of the file.
    pub fn header(&self) -> &Header
        ensures { result.now ≡ self.now.header }
    {
        &self.header
    }

    /// How the file is used.
    pub fn options(&self) -> &Options
        ensures { result.now ≡ self.now.options }
    {
        &self.options
    }

    /// How many openers have joined.
    pub fn joined(&self) -> u32
        requires { (img : List ℕ) × (size : ℕ) × Stands self.now img size }
        ensures { result ≡ length self.now.openers }
    {
        self.list.len() as u32
    }

    /// The command of an opener as a report tells it. `AllocError` where there is no memory for the copies of its key
    /// and its value. Cost: their length.
    pub fn told(&self, who: u32) -> Result<Command, AllocError>
        requires { (x : Opener) × (t : Task) × IsBusy self.now who x t }
        ensures { IfOk result (λ command. (x : Opener) (t : Task) → IsBusy self.now who x t → law_command command ≡ command_in t.job) }
    {
        match self.opener(who) {
            Some(
                Opener {
                    task: Some(task),
                    ..
                },
            ) => task.job.told(self.alloc),
            _ => unreachable!(),
        }
    }

    /// Puts a new opener behind the others, whose cursor stands on no record.
    fn push_opener(&mut self) -> Result<u32, JoinRefusal>
        requires { length self.old.openers ≤ 1000 }
        ensures number { IfOk result (λ who. who ≡ length self.old.openers + 1) }
        ensures joined { IfOk result (λ who. self.new ≡ record self.old { openers = self.old.openers ++ fresh ∷ [] }) }
        ensures few { IfOk result (λ who. length self.old.openers < 1000) }
        ensures header { self.new.header ≡ self.old.header }
        ensures many { IfErr result (λ e. (count : ℕ) → e ≡ JoinRefusal.Many count → (count ≡ 1000) × (length self.old.openers ≡ 1000)) }
        ensures memory { IfErr result (λ e. e ≡ JoinRefusal.Memory → length self.old.openers < 1000) }
        ensures err { OnErr result (self.new ≡ self.old) }
    {
        let count = self.list.len() as u32;
        if count == MOST_OPENERS {
            return Err(JoinRefusal::Many { count });
        }
        let Ok(()) = self.list.push(Opener::bare(self.alloc, true)) else {
            return Err(JoinRefusal::Memory);
        };
        if self.spots.push(0).is_err() {
            self.list.pop();
            return Err(JoinRefusal::Memory);
        }
        Ok(count + 1)
    }

    /// Takes all from the opener with this number: it isn't live any more, and holds no lock, and its cursor stands on
    /// no record. Cost: one pass over the lock table.
    pub(crate) fn strip(&mut self, who: u32)
        requires { (x : Opener) × IsNumber self.old who x }
        ensures { HasDied self.old who self.new }
    {
        let place = who as usize - 1;
        self.list[place] = Opener::bare(self.alloc, false);
        self.spots.set(place, 0);
        self.locks.drop_owner(who);
    }

    /// A new opener joins, and gets the next number. After a refusal nothing has changed.
    pub fn join(&mut self) -> Result<u32, JoinRefusal>
        requires { length self.old.openers ≤ 1000 }
        ensures number { IfOk result (λ who. who ≡ length self.old.openers + 1) }
        ensures joined { IfOk result (λ who. self.new ≡ record self.old { openers = self.old.openers ++ fresh ∷ [] }) }
        ensures few { IfOk result (λ who. length self.old.openers < 1000) }
        ensures stands { OnOk result ((img : List ℕ) (size : ℕ) → Stands self.old img size → Stands self.new img size) }
        ensures header { self.new.header ≡ self.old.header }
        ensures bytes { OnOk result ((img : List ℕ) → BytesStand self.old img → BytesStand self.new img) }
        ensures joins { IfOk result (λ who. (img : List ℕ) (size : ℕ) → Stands self.old img size
            → Joins (form_in self.old.header) (state_in self.old img) (law_opener who) (state_in self.new img)) }
        ensures many { IfErr result (λ e. (count : ℕ) → e ≡ JoinRefusal.Many count → (count ≡ 1000) × (length self.old.openers ≡ 1000)) }
        ensures memory { IfErr result (λ e. e ≡ JoinRefusal.Memory → length self.old.openers < 1000) }
        ensures err { OnErr result (self.new ≡ self.old) }
    {
        self.push_opener()
    }

    /// Whether the command begins a transaction of the opener with this number: it is a Start, and the opener's own
    /// state doesn't refuse it. It begins none where no opener has the number.
    pub fn begins(&self, who: u32, command: &Command) -> bool
        requires stands { (img : List ℕ) × (size : ℕ) × Stands self.now img size }
        ensures opener { (x : Opener) → IsNumber self.now who x → let own = own_of self.now.options x in
            MatchBool result (IsBeginning (form_in self.now.header) own command.now) (IsBeginning (form_in self.now.header) own command.now → ⊥) }
        ensures nobody { ((x : Opener) → IsNumber self.now who x → ⊥) → result ≡ false }
    {
        match self.opener(who) {
            Some(opener) => opener.begins(&self.options, command, &self.header),
            None => false,
        }
    }

    /// Gives a live opener that has no command this one. `told` is the same command.
    fn give(&mut self, who: u32, command: Command, told: Command)
        requires same { told ≡ command }
        requires free { (x : Opener) × IsFree self.old who x }
        requires chains { 0 < self.old.header.hash_size }
        requires held { (x : Opener) → IsFree self.old who x → IsWellHeld x.held }
        requires begun { (x : Opener) → IsFree self.old who x → IsBeginning (form_in self.old.header) (own_of self.old.options x) command → ⊥ }
        requires short { IsShortCommand command }
        ensures { (size : ℕ) (x : Opener) → IsFree self.old who x → IsAssigned self.old who x command size self.new }
    {
        let Openers {
            header,
            options,
            list,
            ..
        } = self;
        let Some(opener) = list.get_mut(who as usize - 1) else {
            unreachable!();
        };
        let job = opener.job(options, command, told, header);
        opener.task = Some(Task { steps: 0, job });
    }

    /// Gives a live opener that has no command this one, of which it then takes turns. `told` is the same command, of
    /// which a report's lines are copies. A command on a transaction is one that the opener's own state refuses, since
    /// the opener has none here. It takes no memory.
    ///
    /// Cost: a hash of the key, and a look-up among the chains that the opener holds.
    pub fn assign(&mut self, who: u32, command: Command, told: Command)
        requires same { told ≡ command }
        requires free { (x : Opener) × IsFree self.old who x }
        requires chains { 0 < self.old.header.hash_size }
        requires stands { (img : List ℕ) × (size : ℕ) × Stands self.old img size }
        requires begun { (x : Opener) → IsFree self.old who x → IsBeginning (form_in self.old.header) (own_of self.old.options x) command → ⊥ }
        requires short { IsShortCommand command }
        ensures assigned { (size : ℕ) (x : Opener) → IsFree self.old who x → IsAssigned self.old who x command size self.new }
        ensures header { self.new.header ≡ self.old.header }
        ensures options { self.new.options ≡ self.old.options }
        ensures stands { (img : List ℕ) (size : ℕ) → Stands self.old img size → Stands self.new img size }
        ensures bytes { (img : List ℕ) → BytesStand self.old img → BytesStand self.new img }
        ensures given { (img : List ℕ) → Given (state_in self.old img) (law_opener who) (law_command command) (state_in self.new img) }
    {
        self.give(who, command, told);
    }

    /// Takes one turn of the opener's command, on the bytes of the file. After `Io` the command is given up, and no
    /// other turn may be taken in the world: the disk failed, or a check found a fault in the file, which no turn
    /// leaves.
    ///
    /// An opener that holds no record for writing before the turn only looks at the file, and so do one that isn't in
    /// the middle of a change, and one whose command is on its cursor and doesn't purge a record. The reply is `Full`
    /// exactly where the file has no room, up to the limit, for what the command stores: at the turn in which it takes
    /// a record, with the length of the file and what it needs. Of a command on the map it is `Memory` only where the
    /// turn takes a lock, the value that a fetch tells or an append joins, or the count of a check.
    ///
    /// Cost: that of the command's turn, and a search in the lock table; nothing is passed over that doesn't belong to
    /// it.
    pub fn turn<S: Space>(&mut self, s: &mut S, who: u32) -> Result<Turn, Io>
        requires busy { (x : Opener) × (t : Task) × IsBusy self.old who x t }
        requires form { S.form s.old ≡ form_in self.old.header }
        requires stands { Stands self.old (S.image s.old) (S.size s.old) }
        requires spare { S.spare s.old ≡ without_bound }
        ensures stands { OnOk result (Stands self.new (S.image s.new) (S.size s.new)) }
        ensures bytes { OnOk result (IsTrue S.tells → BytesStand self.old (S.image s.old) → BytesStand self.new (S.image s.new)) }
        ensures turned { IfOk result (λ turn. IsTrue S.tells → BytesStand self.old (S.image s.old) → (x : Opener) (t : Task) → IsBusy self.old who x t
            → Turned (form_in self.old.header) (state_in self.old (S.image s.old)) (law_opener who) (law_of_task t) (law_turn turn) (state_in self.new (S.image s.new))) }
        ensures full { IfOk result (λ turn. IsTrue S.tells → BytesStand self.old (S.image s.old) → (x : Opener) (t : Task) → IsBusy self.old who x t
            → FullOutside (form_in self.old.header) (S.image s.old) self.old.options.limit (law_of_task t) (law_turn turn)) }
        ensures starves { IfOk result (λ turn. (x : Opener) (t : Task) → IsBusy self.old who x t → StarvesOutside (form_in self.old.header) (law_of_task t) (law_turn turn)) }
        ensures stopped { OnErr result (IsTrue S.tells → BytesStand self.old (S.image s.old) → (x : Opener) (t : Task) → IsBusy self.old who x t
            → JobStopped (form_in self.old.header) (S.image s.old) (S.image s.new) x.walk.cursor t.job t.steps (other_hands self.old.openers (law_opener who))) }
        ensures calm { IsCalm S.Space s.old s.new self.old.table (law_opener who) }
        ensures spared { (x : Opener) (t : Task) → IsBusy self.old who x t → IsSparing S.Space s.old s.new (form_in self.old.header) (own_of self.old.options x) (law_of_task t) }
        ensures moves { (x : Opener) (t : Task) → IsBusy self.old who x t → OnlyMoves x t → Looked S.Space s.old s.new }
        ensures busy { IfOk result (λ turn. turn ≡ Turn.Step → (x : Opener) × (t : Task) × IsBusy self.new who x t) }
        ensures joined { length self.new.openers ≡ length self.old.openers }
        ensures others { (o : ℕ) → o ≢ law_opener who → slice_get self.new.openers o ≡ slice_get self.old.openers o }
        ensures header { self.new.header ≡ self.old.header }
        ensures options { self.new.options ≡ self.old.options }
        ensures longer { S.size s.old ≤ S.size s.new }
        ensures wrote { Wrote S.Space s.old s.new }
        ensures cause { IsTrue S.tells → BytesStand self.old (S.image s.old) → HasCause (S.faults s.old) (S.faults s.new) result }
        ensures rises { S.faults s.old ≤ S.faults s.new }
        ensures done { OnOk result (S.faults s.new ≡ S.faults s.old) }
    {
        let Openers {
            alloc,
            header,
            options,
            locks,
            list,
            spots,
        } = self;
        let Some(opener) = list.get_mut(who as usize - 1) else {
            unreachable!();
        };
        if let Some(walking) = opener.walking() {
            return opener.walk_turn(*alloc, s, locks, who, spots, walking, options.read_only);
        }
        opener.turn(*alloc, s, locks, who, spots, options, header)
    }

    /// Whether the opener with this number is live, and has no command, no cursor, and no explicit lock but one of all
    /// records.
    pub fn is_bare(&self, who: u32) -> bool
        ensures { IsTrue result ↔ ((x : Opener) × IsNumber self.now who x × IsBare x) }
    {
        match self.opener(who) {
            Some(opener) => opener.is_bare(),
            None => false,
        }
    }

    /// Locks all records for an opener, as `lock_records` does.
    fn claim_records(&mut self, who: u32, kind: Kind) -> Result<(), LockRefusal>
        requires bare { (x : Opener) × IsNumber self.old who x × IsBare x }
        requires stands { (img : List ℕ) × (size : ℕ) × Stands self.old img size }
        ensures taken { OnOk result ((x : Opener) → IsNumber self.old who x → HoldsRecords self.old who x (Some (kind, 1)) self.new) }
        ensures free { OnOk result (AreFree self.old who kind) }
        ensures barred { IfErr result (AreBarred self.old who kind) }
        ensures err { OnErr result (self.new ≡ self.old) }
        ensures header { self.new.header ≡ self.old.header }
        ensures options { self.new.options ≡ self.old.options }
    {
        let Openers { locks, list, .. } = self;
        let Some(opener) = list.get_mut(who as usize - 1) else {
            unreachable!();
        };
        opener.lock_records(locks, who, kind)
    }

    /// Locks all records for an opener that has no command, no cursor, and no explicit lock but that of all records,
    /// whose kind is this one then; it was taken once. So a second call raises or lowers it.
    ///
    /// `Conflict` is the first one, and `Memory` says that it is wanting. After both nothing has changed.
    ///
    /// Cost: a pass over the lock table.
    pub fn lock_records(&mut self, who: u32, kind: Kind) -> Result<(), LockRefusal>
        requires bare { (x : Opener) × IsNumber self.old who x × IsBare x }
        requires stands { (img : List ℕ) × (size : ℕ) × Stands self.old img size }
        ensures taken { OnOk result ((x : Opener) → IsNumber self.old who x → HoldsRecords self.old who x (Some (kind, 1)) self.new) }
        ensures free { OnOk result (AreFree self.old who kind) }
        ensures barred { IfErr result (AreBarred self.old who kind) }
        ensures err { OnErr result (self.new ≡ self.old) }
        ensures stands { (img : List ℕ) (size : ℕ) → Stands self.old img size → Stands self.new img size }
        ensures bytes { (img : List ℕ) → BytesStand self.old img → BytesStand self.new img }
        ensures header { self.new.header ≡ self.old.header }
        ensures options { self.new.options ≡ self.old.options }
    {
        self.claim_records(who, kind)
    }

    /// Lets go of all records for an opener that has no command, no cursor, and no explicit lock but that of all
    /// records. It takes no memory.
    ///
    /// Cost: a search in the lock table.
    pub fn let_go_of_records(&mut self, who: u32)
        requires bare { (x : Opener) × IsNumber self.old who x × IsBare x }
        requires stands { (img : List ℕ) × (size : ℕ) × Stands self.old img size }
        ensures let_go { (x : Opener) → IsNumber self.old who x → HoldsRecords self.old who x None self.new }
        ensures stands { (img : List ℕ) (size : ℕ) → Stands self.old img size → Stands self.new img size }
        ensures bytes { (img : List ℕ) → BytesStand self.old img → BytesStand self.new img }
        ensures header { self.new.header ≡ self.old.header }
        ensures options { self.new.options ≡ self.old.options }
    {
        let Openers { locks, list, .. } = self;
        let Some(opener) = list.get_mut(who as usize - 1) else {
            unreachable!();
        };
        opener.let_go_of_records(locks, who);
    }

    /// Takes a turn of the opener's command, which isn't one that asks for the sequence number, while the opener
    /// `holder` holds all records for writing.
    pub(crate) fn meet(&mut self, who: u32, holder: u32) -> Turn
        requires busy { (x : Opener) × (t : Task) × IsBusy self.old who x t }
        requires chains { 0 < self.old.header.hash_size }
        requires short { (x : Opener) (t : Task) (locking : Locking) → IsBusy self.old who x t → t.job ≡ Jobs.Locking locking → IsShortLocking locking }
        requires meets { (x : Opener) (t : Task) → IsBusy self.old who x t → MayMeet t.job }
        ensures meets { (x : Opener) (t : Task) → IsBusy self.old who x t → JobMeets (form_in self.old.header) t.job holder result }
        ensures replaced { (x : Opener) (t : Task) → IsBusy self.old who x t → IsReplaced self.old who (opener_after result t.job x) self.new }
    {
        let Openers {
            alloc,
            header,
            list,
            ..
        } = self;
        let Some(opener) = list.get_mut(who as usize - 1) else {
            unreachable!();
        };
        opener.turn_shut_out(*alloc, header, holder)
    }

    /// Takes a turn of the opener's command, which moves its cursor, while the opener `holder` holds all records for
    /// writing.
    pub(crate) fn pass<S: Space>(&mut self, s: &mut S, who: u32, holder: u32) -> Result<Turn, Io>
        requires there { (x : Opener) × IsNumber self.old who x }
        requires off { (x : Opener) → IsNumber self.old who x → spot_of x.walk.cursor.place ≡ None }
        ensures passed { IfOk result (λ turn. (x : Opener) → IsNumber self.old who x → IsPassed (IsTrue S.tells) (S.form s.old) (S.image s.old) (S.size s.old) self.old who holder x self.new turn) }
        ensures stays { OnErr result (self.new ≡ self.old) }
        ensures looked { Looked S.Space s.old s.new }
        ensures cause { HasCause (S.faults s.old) (S.faults s.new) result }
    {
        let Some(opener) = self.list.get_mut(who as usize - 1) else {
            unreachable!();
        };
        opener.move_shut_out(s, holder)
    }

    /// Takes its command from the opener with this number.
    pub(crate) fn drop_task(&mut self, who: u32)
        requires { (x : Opener) × IsNumber self.old who x }
        ensures { (x : Opener) → IsNumber self.old who x → IsReplaced self.old who (record x { task = None }) self.new }
    {
        let Some(opener) = self.list.get_mut(who as usize - 1) else {
            unreachable!();
        };
        opener.task = None;
    }
}
