//! Turns of the one aside.
ghost use Rattle.std.specs.Prelude.{◌≡◌, ◌≤◌, ℕ, List, None, Some, IsTrue, IfOk, OnOk, OnErr, false, true};
ghost use Rattle.tdb_disk.specs.Count.{HasCause};
ghost use Rattle.tdb_disk.specs.History.{seen};
ghost use Rattle.tdb_disk.specs.Stop.{LeavesOnly};
ghost use Rattle.tdb_law.specs.World.{State};
ghost use Rattle.tdb_commands.specs.InLaw.{law_opener, law_turn};
ghost use Rattle.tdb_space.specs.Form.{form_in};
ghost use Rattle.tdb_locks.specs.declared.kind.Kind.{Kind};
ghost use Rattle.tdb_locks.specs.declared.kind.Kind.TheVariants.{Write};
ghost use Rattle.tdb_steps.specs.Turns.{number_of};
ghost use Rattle.tdb_txn_owner.specs.Holders.{is_idle, HolderState};
ghost use Rattle.tdb_txn_owner.specs.declared.wanting.Wants.TheVariants as Wants;
ghost use Rattle.tdb_openers.specs.Aside.{IsBare};
ghost use Rattle.tdb_openers.specs.Worlds.{IsNumber, Stands, BytesStand};
ghost use Rattle.tdb_openers.specs.Worlds.{World as Openers};
ghost use Rattle.tdb_openers.specs.declared.opener.Opener.{Opener};
ghost use Rattle.tdb_world.specs.Claims.{Claimed, ClaimStands, IsBarred, IsSettled};
ghost use Rattle.tdb_world.specs.Whole.{form_at, WorldFits};
ghost use Rattle.tdb_world.specs.States.{IsStateOf};
ghost use Rattle.tdb_world.specs.Steps.{with_aside, HasCommand, TurnLeads};
ghost use Rattle.tdb_world.specs.Room.{FullAside, FullOfTurn};
ghost use Rattle.tdb_world.specs.Stopped.{StoppedAside, StopsRightly};
ghost use Rattle.tdb_world.specs.Stops.{IsSafe, TurnMayLeave};
ghost use Rattle.tdb_world.specs.declared.aside.Claim.TheVariants as Claim;
ghost use Rattle.tdb_txn_owner.specs.Syncs.{HolderSyncs};
ghost use Rattle.tdb_world.specs.Syncs.{PlansAside, SyncsByStage};

use crate::all_openers::AllOpeners;
use std::mem;
use tdb_disk::Disk;
use tdb_locks::{Kind, LockRefusal, Turn};
use tdb_openers::{Openers, number_in};
use tdb_space::{Direct, Io};
use tdb_txn_owner::{Moved, TxnOwner, Wants};

/// What a lock of all records among the openers has come to.
#[derive(Clone, Copy)]
enum Claim {
    /// The opener has what its next turn wants of it.
    Taken,

    /// Another opener's lock on a byte is in the way.
    Blocked { owner: u32, byte: u64 },

    /// There was no memory.
    Starved,
}

/// Locks all records among the openers as the next turn of the one aside does in its own lock table.
fn claim_records(openers: &mut Openers, who: u32, wants: Wants) -> Claim
    requires bare { (x : Opener) × IsNumber openers.old who x × IsBare x }
    requires stands { (img : List ℕ) × (size : ℕ) × Stands openers.old img size }
    ensures taken { result ≡ Claim.Taken → (x : Opener) → IsNumber openers.old who x → Claimed openers.old who x wants openers.new }
    ensures blocked { (owner byte : ℕ) → result ≡ Claim.Blocked owner byte → IsBarred openers.old who wants owner byte }
    ensures starved { result ≡ Claim.Starved → (kind : Kind) × (wants ≡ Wants.Records kind) }
    ensures kept { (result ≡ Claim.Taken → ⊥) → openers.new ≡ openers.old }
    ensures stands { (img : List ℕ) (size : ℕ) → Stands openers.old img size → Stands openers.new img size }
    ensures bytes { (img : List ℕ) → BytesStand openers.old img → BytesStand openers.new img }
    ensures header { openers.new.header ≡ openers.old.header }
    ensures options { openers.new.options ≡ openers.old.options }
{
    let Wants::Records(kind) = wants else {
        return Claim::Taken;
    };
    match openers.lock_records(who, kind) {
        Ok(()) => Claim::Taken,
        Err(LockRefusal::Conflict { owner, byte, .. }) => Claim::Blocked { owner, byte },
        Err(LockRefusal::Memory) => Claim::Starved,
    }
}

impl AllOpeners {
    /// Keeps the sequence number of the file, where the next turn of the one aside shuts the others out.
    fn keep_number<D: Disk>(&mut self, d: &mut D, wants: Wants) -> Result<(), Io>
        ensures number { OnOk result (IsTrue D.tells → wants ≡ Wants.Records Write → 52 ≤ D.size d.old → self.new.number ≡ number_of (form_in self.old.openers.header) (seen (D.history d.old))) }
        ensures kept { (wants ≡ Wants.Records Write → ⊥) → self.new ≡ self.old }
        ensures rest { record self.new { number = self.old.number } ≡ self.old }
        ensures history { D.history d.new ≡ D.history d.old }
        ensures size { D.size d.new ≡ D.size d.old }
        ensures syncs { D.syncs d.new ≡ D.syncs d.old }
        ensures cause { HasCause (D.faults d.old) (D.faults d.new) result }
    {
        if wants == Wants::Records(Kind::Write) {
            let header = *self.openers.header();
            self.number = number_in(&mut Direct::new(d, &header))?;
        }
        Ok(())
    }

    /// Takes one turn of an opener that is aside, or goes aside by it, and has a command.
    pub(crate) fn step_aside<D: Disk>(&mut self, d: &mut D, holder: TxnOwner) -> Result<Turn, Io>
        requires none { self.old.aside ≡ None }
        requires busy { is_idle holder.stage ≡ false }
        requires fresh { self.old.stale ≡ false }
        requires fits { WorldFits (with_aside self.old holder) (seen (D.history d.old)) (D.size d.old) }
        ensures fits { OnOk result (WorldFits self.new (seen (D.history d.new)) (D.size d.new)) }
        ensures fresh { OnOk result (self.new.stale ≡ false) }
        ensures turned { IfOk result (λ turn. IsTrue D.tells → TurnLeads (with_aside self.old holder) self.new (D.history d.old) (D.history d.new) holder.owner (law_turn turn)) }
        ensures full { IfOk result (λ turn. IsTrue D.tells → FullAside (with_aside self.old holder) holder (D.history d.old) (law_turn turn)) }
        ensures stopped { OnErr result (IsTrue D.tells → StoppedAside (with_aside self.old holder) holder (D.history d.old) (D.history d.new)) }
        ensures stops { IsTrue D.tells → (state : State) → let f = form_at self.old in IsStateOf (with_aside self.old holder) (D.history d.old) state → IsSafe f (D.history d.old)
            → LeavesOnly (D.history d.old) (D.history d.new) (TurnMayLeave f state (law_opener holder.owner)) }
        ensures safe { OnOk result (IsTrue D.tells → (state : State) → let f = form_at self.old in IsStateOf (with_aside self.old holder) (D.history d.old) state → IsSafe f (D.history d.old)
            → IsSafe f (D.history d.new)) }
        ensures syncs { IfOk result (λ turn. HolderSyncs holder.stage turn (D.syncs d.old) (D.syncs d.new)) }
        ensures plans { IfOk result (λ turn. IsTrue D.tells → PlansAside (with_aside self.old holder) holder (D.history d.old) turn (D.syncs d.old) (D.syncs d.new)) }
        ensures busy { IfOk result (λ turn. turn ≡ Turn.Step → HasCommand self.new holder.owner) }
        ensures header { OnOk result (self.new.openers.header ≡ self.old.openers.header) }
        ensures options { OnOk result (self.new.openers.options ≡ self.old.openers.options) }
        ensures cause { IsTrue D.tells → (state : State) → IsStateOf (with_aside self.old holder) (D.history d.old) state → HasCause (D.faults d.old) (D.faults d.new) result }
        ensures done { OnOk result (D.faults d.new ≡ D.faults d.old) }
        ensures rises { D.faults d.old ≤ D.faults d.new }
        ensures longer { OnOk result (D.size d.old ≤ D.size d.new) }
    {
        let who = holder.owner();
        let wants = holder.wants();
        match claim_records(&mut self.openers, who, wants) {
            Claim::Taken => self.claimed_turn(d, holder),
            Claim::Blocked { owner, byte } => {
                self.put_aside(Some(holder));
                Ok(Turn::Blocked { owner, byte })
            }
            Claim::Starved => {
                self.openers.let_go_of_records(who);
                Ok(holder.starve())
            }
        }
    }

    /// Takes the turn, for which the lock of all records among the openers is taken.
    fn claimed_turn<D: Disk>(&mut self, d: &mut D, holder: TxnOwner) -> Result<Turn, Io>
        requires none { self.old.aside ≡ None }
        requires busy { is_idle holder.stage ≡ false }
        requires fresh { self.old.stale ≡ false }
        requires claimed { (before : Openers) × (x : Opener) × ClaimStands self.old holder (seen (D.history d.old)) (D.size d.old) before x }
        ensures fits { OnOk result (WorldFits self.new (seen (D.history d.new)) (D.size d.new)) }
        ensures fresh { OnOk result (self.new.stale ≡ false) }
        ensures turned { IfOk result (λ turn. IsTrue D.tells → (before : Openers) (x : Opener) → ClaimStands self.old holder (seen (D.history d.old)) (D.size d.old) before x
            → TurnLeads (record self.old { openers = before; aside = Some holder }) self.new (D.history d.old) (D.history d.new) holder.owner (law_turn turn)) }
        ensures full { IfOk result (λ turn. IsTrue D.tells → (before : Openers) (x : Opener) → ClaimStands self.old holder (seen (D.history d.old)) (D.size d.old) before x
            → FullAside (record self.old { openers = before; aside = Some holder }) holder (D.history d.old) (law_turn turn)) }
        ensures stopped { OnErr result (IsTrue D.tells → (before : Openers) (x : Opener) → ClaimStands self.old holder (seen (D.history d.old)) (D.size d.old) before x
            → StoppedAside (record self.old { openers = before; aside = Some holder }) holder (D.history d.old) (D.history d.new)) }
        ensures stops { IsTrue D.tells → (before : Openers) (x : Opener) (state : State) → let f = form_in before.header in
            ClaimStands self.old holder (seen (D.history d.old)) (D.size d.old) before x
            → IsStateOf (record self.old { openers = before; aside = Some holder }) (D.history d.old) state → IsSafe f (D.history d.old)
            → LeavesOnly (D.history d.old) (D.history d.new) (TurnMayLeave f state (law_opener holder.owner)) }
        ensures safe { OnOk result (IsTrue D.tells → (before : Openers) (x : Opener) (state : State) → let f = form_in before.header in
            ClaimStands self.old holder (seen (D.history d.old)) (D.size d.old) before x
            → IsStateOf (record self.old { openers = before; aside = Some holder }) (D.history d.old) state → IsSafe f (D.history d.old) → IsSafe f (D.history d.new)) }
        ensures syncs { IfOk result (λ turn. HolderSyncs holder.stage turn (D.syncs d.old) (D.syncs d.new)) }
        ensures plans { IfOk result (λ turn. IsTrue D.tells → (before : Openers) (x : Opener) → ClaimStands self.old holder (seen (D.history d.old)) (D.size d.old) before x
            → PlansAside (record self.old { openers = before; aside = Some holder }) holder (D.history d.old) turn (D.syncs d.old) (D.syncs d.new)) }
        ensures busy { IfOk result (λ turn. turn ≡ Turn.Step → HasCommand self.new holder.owner) }
        ensures header { OnOk result (self.new.openers.header ≡ self.old.openers.header) }
        ensures options { OnOk result (self.new.openers.options ≡ self.old.openers.options) }
        ensures cause { IsTrue D.tells → (before : Openers) (x : Opener) (state : State) → ClaimStands self.old holder (seen (D.history d.old)) (D.size d.old) before x
            → IsStateOf (record self.old { openers = before; aside = Some holder }) (D.history d.old) state → HasCause (D.faults d.old) (D.faults d.new) result }
        ensures done { OnOk result (D.faults d.new ≡ D.faults d.old) }
        ensures rises { D.faults d.old ≤ D.faults d.new }
        ensures longer { OnOk result (D.size d.old ≤ D.size d.new) }
    {
        let who = holder.owner();
        let closes = holder.closes();
        if let Err(fault) = self.keep_number(d, holder.wants()) {
            holder.end();
            return Err(fault);
        }
        let (header, options) = (*self.openers.header(), *self.openers.options());
        let moved = holder.turn(self.openers.alloc(), d, &header, &options)?;
        Ok(self.settle(who, closes, moved))
    }

    /// Puts an opener aside, or nobody, where nobody is.
    fn put_aside(&mut self, holder: Option<TxnOwner>)
        requires none { self.old.aside ≡ None }
        ensures { self.new ≡ record self.old { aside = holder } }
    {
        match mem::replace(&mut self.aside, holder) {
            None => {}
            Some(before) => before.end(),
        }
    }

    /// What a turn leaves: the opener is aside still, or is back among the others and holds no record any more.
    fn settle(&mut self, who: u32, closes: bool, moved: Moved) -> Turn
        requires none { self.old.aside ≡ None }
        requires bare { (x : Opener) × IsNumber self.old.openers who x × IsBare x }
        requires stands { (img : List ℕ) × (size : ℕ) × Stands self.old.openers img size }
        ensures turn { result ≡ moved.turn }
        ensures aside { self.new.aside ≡ moved.holder }
        ensures settled { (x : Opener) → IsNumber self.old.openers who x → IsSettled self.old.openers who x closes moved.holder self.new.openers }
        ensures stands { (img : List ℕ) (size : ℕ) → Stands self.old.openers img size → Stands self.new.openers img size }
        ensures bytes { (img : List ℕ) → BytesStand self.old.openers img → BytesStand self.new.openers img }
        ensures rest { record self.new { openers = self.old.openers; aside = self.old.aside } ≡ self.old }
        ensures header { self.new.openers.header ≡ self.old.openers.header }
        ensures options { self.new.openers.options ≡ self.old.openers.options }
    {
        let Moved { turn, holder } = moved;
        if holder.is_none() {
            self.openers.let_go_of_records(who);
            if closes {
                self.openers.close(who);
            }
        }
        self.put_aside(holder);
        turn
    }

    /// Takes one turn of the one aside.
    pub(crate) fn aside_turn<D: Disk>(&mut self, d: &mut D, who: u32) -> Result<Turn, Io>
        requires aside { (h : HolderState) × (self.old.aside ≡ Some h) × (who ≡ h.owner) }
        requires busy { HasCommand self.old who }
        requires fresh { self.old.stale ≡ false }
        requires fits { WorldFits self.old (seen (D.history d.old)) (D.size d.old) }
        ensures fits { OnOk result (WorldFits self.new (seen (D.history d.new)) (D.size d.new)) }
        ensures fresh { OnOk result (self.new.stale ≡ false) }
        ensures turned { IfOk result (λ turn. IsTrue D.tells → TurnLeads self.old self.new (D.history d.old) (D.history d.new) who (law_turn turn)) }
        ensures full { IfOk result (λ turn. IsTrue D.tells → FullOfTurn self.old (D.history d.old) who (law_turn turn)) }
        ensures stopped { OnErr result (IsTrue D.tells → StopsRightly self.old (D.history d.old) (D.history d.new) who) }
        ensures stops { IsTrue D.tells → (state : State) → let f = form_at self.old in IsStateOf self.old (D.history d.old) state → IsSafe f (D.history d.old)
            → LeavesOnly (D.history d.old) (D.history d.new) (TurnMayLeave f state (law_opener who)) }
        ensures safe { OnOk result (IsTrue D.tells → (state : State) → let f = form_at self.old in IsStateOf self.old (D.history d.old) state → IsSafe f (D.history d.old)
            → IsSafe f (D.history d.new)) }
        ensures syncs { IfOk result (λ turn. SyncsByStage D.tells self.old (D.history d.old) who turn (D.syncs d.old) (D.syncs d.new)) }
        ensures busy { IfOk result (λ turn. turn ≡ Turn.Step → HasCommand self.new who) }
        ensures header { OnOk result (self.new.openers.header ≡ self.old.openers.header) }
        ensures options { OnOk result (self.new.openers.options ≡ self.old.openers.options) }
        ensures cause { IsTrue D.tells → (state : State) → IsStateOf self.old (D.history d.old) state → HasCause (D.faults d.old) (D.faults d.new) result }
        ensures done { OnOk result (D.faults d.new ≡ D.faults d.old) }
        ensures rises { D.faults d.old ≤ D.faults d.new }
        ensures longer { OnOk result (D.size d.old ≤ D.size d.new) }
    {
        let Some(holder) = self.aside.take() else {
            unreachable!();
        };
        self.step_aside(d, holder)
    }
}
