//! Turns of the openers that aren't aside.
ghost use Rattle.std.specs.Prelude.{◌≡◌, ◌≤◌, ℕ, ◌≢◌, List, length, slice_get, true, IsTrue, IfOk, IfSome, IfNone, OnOk, OnErr, false};
ghost use Rattle.tdb_disk.specs.Count.{HasCause};
ghost use Rattle.tdb_disk.specs.History.{seen};
ghost use Rattle.tdb_disk.specs.Stop.{LeavesOnly};
ghost use Rattle.tdb_law.specs.Turned.{Turned};
ghost use Rattle.tdb_law.specs.World.{State};
ghost use Rattle.tdb_commands.specs.InLaw.{law_opener, law_turn};
ghost use Rattle.tdb_space.specs.Form.{form_in};
ghost use Rattle.tdb_steps.specs.Turns.{number_of};
ghost use Rattle.tdb_law.specs.OneAside.Sides.{Past, Side};
ghost use Rattle.tdb_openers.specs.ShutOut.{HeadsShow, HoldsAll, IsMove, IsTurnBeside, ShutsOut};
ghost use Rattle.tdb_openers.specs.Calm.{IsMidway, OnlyMoves, WritesNoRecord};
ghost use Rattle.tdb_openers.specs.Laws.{other_hands};
ghost use Rattle.tdb_openers.specs.Openers.{own_of};
ghost use Rattle.tdb_openers.specs.Stopped.{JobStopped};
ghost use Rattle.tdb_openers.specs.Worlds.{law_of_task, state_in, BytesStand, IsBusy, Stands};
ghost use Rattle.tdb_openers.specs.declared.job.Task.{Task};
ghost use Rattle.tdb_openers.specs.declared.opener.Opener.{Opener};
ghost use Rattle.tdb_world.specs.Shut.{IsOpen, IsShutBy};
ghost use Rattle.tdb_world.specs.Looks.{MayWrite};
ghost use Rattle.tdb_world.specs.Room.{FullOfTurn, StarvesInFile};
ghost use Rattle.tdb_world.specs.Stopped.{StopsRightly};
ghost use Rattle.tdb_steps.specs.Memory.{StarvesOutside};
ghost use Rattle.tdb_steps.specs.Room.{FullOutside};
ghost use Rattle.tdb_world.specs.Whole.{form_at, is_starting, WorldFits};
ghost use Rattle.tdb_world.specs.States.{IsStateOf};
ghost use Rattle.tdb_world.specs.Steps.{HasCommand, IsAmong, TurnLeads};
ghost use Rattle.tdb_world.specs.Stops.{IsChanging, IsSafe, TurnMayLeave};

use crate::all_openers::AllOpeners;
use tdb_disk::Disk;
use tdb_locks::{Kind, Reply, Turn};
use tdb_space::{Direct, Io};

/// The lock byte of the sequence number.
const NUMBER_BYTE: u64 = 48;

/// The one aside while it holds all records for writing, and with them shuts all others out: its number, and whether it
/// stands in the way of the sequence number too.
struct Shutter {
    owner: u32,
    bars: bool,
}

impl AllOpeners {
    /// Who shuts all others out, if somebody does. Cost: a binary search in its lock table.
    fn shutter(&self) -> Option<Shutter>
        ensures some { IfSome result (λ z. IsShutBy self.now z.owner z.bars) }
        ensures none { IfNone result (IsOpen self.now) }
    {
        let Some(holder) = &self.aside else {
            return None;
        };
        match holder.records() {
            Some(Kind::Write) => Some(Shutter {
                owner: holder.owner(),
                bars: holder.holds(NUMBER_BYTE),
            }),
            Some(Kind::Read) | None => None,
        }
    }

    /// Takes a turn of an opener that isn't aside on the bytes of the file. One that writes no record only looks at
    /// them.
    fn turn_in_file<D: Disk>(&mut self, d: &mut D, who: u32) -> Result<Turn, Io>
        requires busy { (x : Opener) × (t : Task) × IsBusy self.old.openers who x t }
        requires stands { Stands self.old.openers (seen (D.history d.old)) (D.size d.old) }
        ensures rest { record self.new { openers = self.old.openers } ≡ self.old }
        ensures stands { OnOk result (Stands self.new.openers (seen (D.history d.new)) (D.size d.new)) }
        ensures bytes { OnOk result (IsTrue D.tells → BytesStand self.old.openers (seen (D.history d.old)) → BytesStand self.new.openers (seen (D.history d.new))) }
        ensures turned { IfOk result (λ turn. IsTrue D.tells → BytesStand self.old.openers (seen (D.history d.old)) → (x : Opener) (t : Task) → IsBusy self.old.openers who x t
            → Turned (form_in self.old.openers.header) (state_in self.old.openers (seen (D.history d.old))) (law_opener who) (law_of_task t) (law_turn turn) (state_in self.new.openers (seen (D.history d.new)))) }
        ensures full { IfOk result (λ turn. IsTrue D.tells → BytesStand self.old.openers (seen (D.history d.old)) → (x : Opener) (t : Task) → IsBusy self.old.openers who x t
            → FullOutside (form_in self.old.openers.header) (seen (D.history d.old)) self.old.openers.options.limit (law_of_task t) (law_turn turn)) }
        ensures starves { IfOk result (λ turn. (x : Opener) (t : Task) → IsBusy self.old.openers who x t → StarvesOutside (form_in self.old.openers.header) (law_of_task t) (law_turn turn)) }
        ensures stopped { OnErr result (IsTrue D.tells → BytesStand self.old.openers (seen (D.history d.old)) → (x : Opener) (t : Task) → IsBusy self.old.openers who x t
            → JobStopped (form_in self.old.openers.header) (seen (D.history d.old)) (seen (D.history d.new)) x.walk.cursor t.job t.steps (other_hands self.old.openers.openers (law_opener who))) }
        ensures calm { WritesNoRecord self.old.openers.table (law_opener who) → (D.history d.new ≡ D.history d.old) × (D.size d.new ≡ D.size d.old) }
        ensures spared { (x : Opener) (t : Task) → IsBusy self.old.openers who x t → (IsMidway (form_in self.old.openers.header) (own_of self.old.openers.options x) (law_of_task t) → ⊥)
            → D.history d.new ≡ D.history d.old }
        ensures no_sync { (x : Opener) (t : Task) → IsBusy self.old.openers who x t → (IsMidway (form_in self.old.openers.header) (own_of self.old.openers.options x) (law_of_task t) → ⊥)
            → D.syncs d.new ≡ D.syncs d.old }
        ensures moves { (x : Opener) (t : Task) → IsBusy self.old.openers who x t → OnlyMoves x t → D.history d.new ≡ D.history d.old }
        ensures busy { IfOk result (λ turn. turn ≡ Turn.Step → (x : Opener) × (t : Task) × IsBusy self.new.openers who x t) }
        ensures joined { length self.new.openers.openers ≡ length self.old.openers.openers }
        ensures others { (o : ℕ) → o ≢ law_opener who → slice_get self.new.openers.openers o ≡ slice_get self.old.openers.openers o }
        ensures header { self.new.openers.header ≡ self.old.openers.header }
        ensures options { self.new.openers.options ≡ self.old.openers.options }
        ensures cause { IsTrue D.tells → BytesStand self.old.openers (seen (D.history d.old)) → HasCause (D.faults d.old) (D.faults d.new) result }
        ensures done { OnOk result (D.faults d.new ≡ D.faults d.old) }
        ensures rises { D.faults d.old ≤ D.faults d.new }
        ensures longer { OnOk result (D.size d.old ≤ D.size d.new) }
    {
        let header = *self.openers.header();
        let mut view = Direct::new(d, &header);
        self.openers.turn(&mut view, who)
    }

    /// Takes a turn of an opener, whose command doesn't move a cursor, while the one aside, which has the number
    /// `holder` and stands in the way of the sequence number or not, holds all records for writing. No call is made on
    /// the file: the number is the one that the file had when the records were locked.
    fn shut_out_turn(&mut self, who: u32, holder: u32, bars: bool) -> Turn
        requires busy { (x : Opener) × (t : Task) × IsBusy self.old.openers who x t }
        requires still { (x : Opener) (t : Task) → IsBusy self.old.openers who x t → IsMove t.job → ⊥ }
        requires other { holder ≢ who }
        requires stands { (img : List ℕ) × (size : ℕ) × Stands self.old.openers img size }
        requires shut { HoldsAll self.old.openers holder }
        ensures openers { (img : List ℕ) (size : ℕ) → Stands self.old.openers img size → Stands self.new.openers img size }
        ensures bytes { (img : List ℕ) → BytesStand self.old.openers img → BytesStand self.new.openers img }
        ensures rest { record self.new { openers = self.old.openers } ≡ self.old }
        ensures joined { length self.new.openers.openers ≡ length self.old.openers.openers }
        ensures others { (o : ℕ) → o ≢ law_opener who → slice_get self.new.openers.openers o ≡ slice_get self.old.openers.openers o }
        ensures header { self.new.openers.header ≡ self.old.openers.header }
        ensures options { self.new.openers.options ≡ self.old.openers.options }
        ensures step { result ≡ Turn.Step → ⊥ }
        ensures turned { (img : List ℕ) (past : Past) (s : Side) (x : Opener) (t : Task) → IsBusy self.old.openers who x t → ShutsOut self.old.openers img past s holder → (bars ≡ true → 2 ≤ s.table 48) → (bars ≡ false → (s.table 48 ≡ 0) × (self.old.number ≡ number_of (form_in self.old.openers.header) img))
            → IsTurnBeside self.old.openers self.new.openers img past s (law_opener who) (law_of_task t) (law_turn result) }
    {
        if let Some(turn) = self.openers.turn_shut_out(who, holder) {
            return turn;
        }
        if bars {
            return Turn::Blocked {
                owner: holder,
                byte: NUMBER_BYTE,
            };
        }
        self.openers.end_seqnum(who);
        Turn::Done(Reply::Number(u64::from(self.number)))
    }

    /// Takes a turn of an opener whose command moves its cursor, while the one aside, which has the number `holder`,
    /// holds all records for writing. Of the file it reads the heads of the chains alone.
    fn passing_turn<D: Disk>(&mut self, d: &mut D, who: u32, holder: u32) -> Result<Turn, Io>
        requires busy { (x : Opener) × (t : Task) × IsBusy self.old.openers who x t × IsMove t.job }
        requires other { holder ≢ who }
        requires stands { (img : List ℕ) × (size : ℕ) × Stands self.old.openers img size }
        requires shut { HoldsAll self.old.openers holder }
        ensures openers { (img : List ℕ) (size : ℕ) → Stands self.old.openers img size → Stands self.new.openers img size }
        ensures bytes { (img : List ℕ) → BytesStand self.old.openers img → BytesStand self.new.openers img }
        ensures rest { record self.new { openers = self.old.openers } ≡ self.old }
        ensures joined { length self.new.openers.openers ≡ length self.old.openers.openers }
        ensures others { (o : ℕ) → o ≢ law_opener who → slice_get self.new.openers.openers o ≡ slice_get self.old.openers.openers o }
        ensures header { self.new.openers.header ≡ self.old.openers.header }
        ensures options { self.new.openers.options ≡ self.old.openers.options }
        ensures step { IfOk result (λ turn. turn ≡ Turn.Step → ⊥) }
        ensures turned { IfOk result (λ turn. IsTrue D.tells → (img : List ℕ) (past : Past) (s : Side) (x : Opener) (t : Task) → IsBusy self.old.openers who x t → ShutsOut self.old.openers img past s holder
            → HeadsShow self.old.openers img (seen (D.history d.old)) s → IsTurnBeside self.old.openers self.new.openers img past s (law_opener who) (law_of_task t) (law_turn turn)) }
        ensures history { D.history d.new ≡ D.history d.old }
        ensures size { D.size d.new ≡ D.size d.old }
        ensures no_sync { D.syncs d.new ≡ D.syncs d.old }
        ensures cause { HasCause (D.faults d.old) (D.faults d.new) result }
    {
        let header = *self.openers.header();
        let mut view = Direct::new(d, &header);
        self.openers.move_shut_out(&mut view, who, holder)
    }

    /// Takes a turn of an opener while the one aside holds all records for writing: its number is `holder`, and it
    /// stands in the way of the sequence number or not.
    fn turn_beside<D: Disk>(
        &mut self,
        d: &mut D,
        who: u32,
        holder: u32,
        bars: bool,
    ) -> Result<Turn, Io>
        requires busy { (x : Opener) × (t : Task) × IsBusy self.old.openers who x t }
        requires other { holder ≢ who }
        requires stands { (img : List ℕ) × (size : ℕ) × Stands self.old.openers img size }
        requires shut { HoldsAll self.old.openers holder }
        ensures openers { (img : List ℕ) (size : ℕ) → Stands self.old.openers img size → Stands self.new.openers img size }
        ensures bytes { (img : List ℕ) → BytesStand self.old.openers img → BytesStand self.new.openers img }
        ensures rest { record self.new { openers = self.old.openers } ≡ self.old }
        ensures joined { length self.new.openers.openers ≡ length self.old.openers.openers }
        ensures others { (o : ℕ) → o ≢ law_opener who → slice_get self.new.openers.openers o ≡ slice_get self.old.openers.openers o }
        ensures header { self.new.openers.header ≡ self.old.openers.header }
        ensures options { self.new.openers.options ≡ self.old.openers.options }
        ensures step { IfOk result (λ turn. turn ≡ Turn.Step → ⊥) }
        ensures turned { IfOk result (λ turn. IsTrue D.tells → (img : List ℕ) (past : Past) (s : Side) (x : Opener) (t : Task) → IsBusy self.old.openers who x t → ShutsOut self.old.openers img past s holder
            → (bars ≡ true → 2 ≤ s.table 48) → (bars ≡ false → (s.table 48 ≡ 0) × (self.old.number ≡ number_of (form_in self.old.openers.header) img)) → HeadsShow self.old.openers img (seen (D.history d.old)) s
            → IsTurnBeside self.old.openers self.new.openers img past s (law_opener who) (law_of_task t) (law_turn turn)) }
        ensures history { D.history d.new ≡ D.history d.old }
        ensures size { D.size d.new ≡ D.size d.old }
        ensures no_sync { D.syncs d.new ≡ D.syncs d.old }
        ensures cause { HasCause (D.faults d.old) (D.faults d.new) result }
    {
        if self.openers.moves(who) {
            return self.passing_turn(d, who, holder);
        }
        Ok(self.shut_out_turn(who, holder, bars))
    }

    /// Takes one turn of an opener that isn't aside, and has no Start without a turn.
    pub(crate) fn other_turn<D: Disk>(&mut self, d: &mut D, who: u32) -> Result<Turn, Io>
        requires named { 1 ≤ who }
        requires busy { (x : Opener) × (t : Task) × IsBusy self.old.openers who x t }
        requires among { IsAmong self.old who }
        requires begun { is_starting self.old.starts (law_opener who) ≡ false }
        requires fresh { self.old.stale ≡ false }
        requires fits { WorldFits self.old (seen (D.history d.old)) (D.size d.old) }
        ensures fits { OnOk result (WorldFits self.new (seen (D.history d.new)) (D.size d.new)) }
        ensures fresh { OnOk result (self.new.stale ≡ false) }
        ensures turned { IfOk result (λ turn. IsTrue D.tells → TurnLeads self.old self.new (D.history d.old) (D.history d.new) who (law_turn turn)) }
        ensures full { IfOk result (λ turn. IsTrue D.tells → FullOfTurn self.old (D.history d.old) who (law_turn turn)) }
        ensures starves { IfOk result (λ turn. StarvesInFile self.old who (law_turn turn)) }
        ensures stopped { OnErr result (IsTrue D.tells → StopsRightly self.old (D.history d.old) (D.history d.new) who) }
        ensures stops { IsTrue D.tells → (state : State) → let f = form_at self.old in IsStateOf self.old (D.history d.old) state → IsSafe f (D.history d.old) → (IsChanging f state (law_opener who) → ⊥)
            → LeavesOnly (D.history d.old) (D.history d.new) (TurnMayLeave f state (law_opener who)) }
        ensures safe { OnOk result (IsTrue D.tells → (state : State) → let f = form_at self.old in IsStateOf self.old (D.history d.old) state → IsSafe f (D.history d.old) → (IsChanging f state (law_opener who) → ⊥)
            → IsSafe f (D.history d.new)) }
        ensures no_sync { (state : State) → IsStateOf self.old (D.history d.old) state → (IsChanging (form_at self.old) state (law_opener who) → ⊥) → D.syncs d.new ≡ D.syncs d.old }
        ensures still { (state : State) → IsStateOf self.old (D.history d.old) state → (MayWrite (form_at self.old) state (law_opener who) → ⊥) → D.history d.new ≡ D.history d.old }
        ensures busy { IfOk result (λ turn. turn ≡ Turn.Step → HasCommand self.new who) }
        ensures header { OnOk result (self.new.openers.header ≡ self.old.openers.header) }
        ensures options { OnOk result (self.new.openers.options ≡ self.old.openers.options) }
        ensures cause { IsTrue D.tells → (state : State) → IsStateOf self.old (D.history d.old) state → HasCause (D.faults d.old) (D.faults d.new) result }
        ensures done { OnOk result (D.faults d.new ≡ D.faults d.old) }
        ensures rises { D.faults d.old ≤ D.faults d.new }
        ensures longer { OnOk result (D.size d.old ≤ D.size d.new) }
    {
        match self.shutter() {
            Some(Shutter { owner, bars }) => self.turn_beside(d, who, owner, bars),
            None => self.turn_in_file(d, who),
        }
    }
}
