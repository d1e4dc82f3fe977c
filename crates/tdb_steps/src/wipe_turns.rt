// The turns of a wipe.

ghost use Rattle.std.specs.Prelude.{◌≡◌, ◌≤◌, ◌<◌, ◌^◌, ◌++◌, [], None, List, IsTrue, IfOk, OnErr};
ghost use Rattle.tdb_disk.specs.Count.{HasCause, RoseUpTo};
ghost use Rattle.tdb_space.specs.Frame.{Looked, Wrote};
ghost use Rattle.tdb_space.specs.Accepted.{AcceptWith};
ghost use Rattle.tdb_space.specs.Extents.{HandPair};
ghost use Rattle.tdb_steps.specs.Wiped.{WipeStopped};
ghost use Rattle.tdb_steps.specs.Stages.{hands_in, MayBeOut, OfWipe, Leads, IsIdle, CanCount};
ghost use Rattle.tdb_steps.specs.Turns.{WipeMakes, WipesRightly};
ghost use Rattle.tdb_steps.specs.Order.{WipeOrder};
ghost use Rattle.tdb_steps.specs.Memory.{StarvesBounded};
ghost use Rattle.tdb_steps.specs.declared.plain.Plain.TheVariants as Plain;
ghost use Rattle.tdb_steps.specs.declared.stage.Stage.TheVariants as Stage;
ghost use Rattle.tdb_steps.specs.declared.stage.WipeStage.TheVariants as WipeStage;
ghost use Rattle.tdb_steps.specs.Reads.{TurnReads, costs_of, wipe_reads};

use crate::stage::{Next, Stage, WipeStage};
use crate::wiping::{wipe, wipe_bytes, wipe_writes};
use tdb_locks::Reply;
use tdb_space::{Io, Space};

/// A turn of a wipe. The reply is `Ok`, or `Memory` where that is wanting before the first write, as it never is over
/// a disk.
///
/// The first turn stands for the lock of all records, the second for that of the free list, and the last lets go of
/// both: these make no call on the file. The third makes room for all writes of the wipe and one of the sequence
/// number, and wipes the file, if no other hand is out. `Io` where the disk failed: then the command is given up.
pub fn wipe_turn<S: Space>(stage: Stage, s: &mut S) -> Result<Next, Io>
    requires stage { OfWipe stage (S.spare s.old) }
    ensures made { IfOk result (λ next. IsTrue S.tells → S.size s.old < 2 ^ 32 → WipeMakes (S.form s.old) (S.image s.old) (S.image s.new) stage next) }
    ensures rightly { IfOk result (λ next. IsTrue S.tells → S.size s.old < 2 ^ 32 → WipesRightly (S.form s.old) (S.image s.old) (S.image s.new) stage next) }
    ensures stopped { OnErr result (IsTrue S.tells → (others : List HandPair) → MayBeOut stage others → AcceptWith (S.form s.old) (S.image s.old) (hands_in stage ++ others)
        → WipeStopped (S.form s.old) (S.image s.old) (S.image s.new)) }
    ensures order { IfOk result (WipeOrder stage) }
    ensures starves { IfOk result (StarvesBounded (S.spare s.old)) }
    ensures leads { IfOk result (Leads (λ then. OfWipe then (S.spare s.new))) }
    ensures room { IfOk result (CanCount (S.spare s.new)) }
    ensures idle { IsIdle stage → Looked S.Space s.old s.new }
    ensures size { S.size s.new ≡ S.size s.old }
    ensures wrote { Wrote S.Space s.old s.new }
    ensures cause { HasCause (S.faults s.old) (S.faults s.new) result }
    ensures bytes_read { S.bytes_read s.old ≤ S.bytes_read s.new }
    ensures reads { TurnReads (costs_of (S.form s.old) (S.image s.old) Plain.Wipe None) 0 stage (S.bytes_read s.old) (S.bytes_read s.new) }
{
    match stage {
        Stage::Begun => Ok(Next::Step(Stage::Wiping(WipeStage::Records))),
        Stage::Wiping(locked) => match locked {
            WipeStage::Records => Ok(Next::Step(Stage::Wiping(WipeStage::FreeList))),
            WipeStage::FreeList => wipe_all(s),
        },
        Stage::Ending => Ok(Next::Done(Reply::Ok)),
        Stage::Chained | Stage::Looked(_) | Stage::Listed(_) => unreachable!(),
        Stage::Taken(_, hand) | Stage::Changed(hand) => {
            hand.end();
            unreachable!()
        }
    }
}

/// Makes room for all writes of a wipe, and wipes the file. The reply is `Memory` where that is wanting, and then
/// nothing is written.
fn wipe_all<S: Space>(s: &mut S) -> Result<Next, Io>
    ensures made { IfOk result (λ next. IsTrue S.tells → S.size s.old < 2 ^ 32 → WipeMakes (S.form s.old) (S.image s.old) (S.image s.new) (Stage.Wiping WipeStage.FreeList) next) }
    ensures rightly { IfOk result (λ next. IsTrue S.tells → S.size s.old < 2 ^ 32 → WipesRightly (S.form s.old) (S.image s.old) (S.image s.new) (Stage.Wiping WipeStage.FreeList) next) }
    ensures stopped { OnErr result (IsTrue S.tells → AcceptWith (S.form s.old) (S.image s.old) [] → WipeStopped (S.form s.old) (S.image s.old) (S.image s.new)) }
    ensures order { IfOk result (WipeOrder (Stage.Wiping WipeStage.FreeList)) }
    ensures starves { IfOk result (StarvesBounded (S.spare s.old)) }
    ensures leads { IfOk result (Leads (λ then. OfWipe then (S.spare s.new))) }
    ensures size { S.size s.new ≡ S.size s.old }
    ensures wrote { Wrote S.Space s.old s.new }
    ensures cause { HasCause (S.faults s.old) (S.faults s.new) result }
    ensures bytes_read { RoseUpTo (wipe_reads (S.form s.old).chains) (S.bytes_read s.old) (S.bytes_read s.new) }
{
    let chains = s.hash_size();
    let Ok(()) = s.ready(wipe_writes(chains) + 1, wipe_bytes(chains) + 4) else {
        return Ok(Next::Done(Reply::Memory));
    };
    wipe(s)?;
    Ok(Next::Step(Stage::Ending))
}
