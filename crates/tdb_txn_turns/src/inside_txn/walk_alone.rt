//! A command on a cursor that is done from its first turn to its reply, over a view that nobody else uses.
ghost use Rattle.std.specs.Prelude.{◌≡◌, ◌<◌, ◌^◌, List, [], None, false, IsTrue, IfOk, OnErr};
ghost use Rattle.tdb_disk.specs.Count.{HasCause};
ghost use Rattle.tdb_space.specs.Accepted.{AcceptWith};
ghost use Rattle.tdb_space.specs.Extents.{HandPair};
ghost use Rattle.tdb_space.specs.Frame.{Looked, Wrote};
ghost use Rattle.tdb_locks.specs.declared.piece.Piece.{Piece};
ghost use Rattle.tdb_steps.specs.PlainCommands.{reply_of};
ghost use Rattle.tdb_walk.specs.Cursors.{Knows, StepTaken, StepMade, dead_of};
ghost use Rattle.tdb_walk.specs.Again.{RestsAt, cursor_after};
ghost use Rattle.tdb_txn_turns.specs.InsideTxn.Walks.{all_written, shown_by, CursorDone, RestsIn};

use crate::inside_txn::alone::OWNER;
use std::alloc::Global;
use tdb_locks::{Held, Kind, Locks, Reply, Spots, Turn};
use tdb_space::{Io, Space};
use tdb_walk::{Goal, Walk};

/// Takes one turn of what a cursor is asked for where nobody else holds a lock, and no other cursor counts. It is as if
/// the cursor's opener held all records for writing: so no chain and no record is locked, and a dead record is purged.
fn step_alone<S: Space>(alloc: Global, s: &mut S, walk: &mut Walk, goal: Goal) -> Result<Turn, Io>
    ensures taken { IfOk result (λ turn. (now : List Piece) × StepTaken (IsTrue S.tells) (S.form s.old) (S.image s.old) [] now 1 all_written [] goal false walk.old.cursor walk.new.cursor turn) }
    ensures made { IfOk result (λ turn. IsTrue S.tells → S.size s.old < 2 ^ 32 → (hands : List HandPair) → AcceptWith (S.form s.old) (S.image s.old) hands
        → Knows (S.form s.old) (S.image s.old) walk.old.cursor.place walk.old.cursor.stage → StepMade (S.form s.old) (S.image s.old) (S.image s.new) hands walk.old.cursor walk.new.cursor turn) }
    ensures knows { IfOk result (λ turn. IsTrue S.tells → S.size s.old < 2 ^ 32 → (hands : List HandPair) → AcceptWith (S.form s.old) (S.image s.old) hands
        → Knows (S.form s.old) (S.image s.old) walk.old.cursor.place walk.old.cursor.stage → Knows (S.form s.old) (S.image s.new) walk.new.cursor.place walk.new.cursor.stage) }
    ensures shown { IfOk result (λ turn. walk.new.shown ≡ cursor_after turn walk.new.cursor.place walk.old.shown) }
    ensures stands { OnErr result (walk.new ≡ walk.old) }
    ensures idle { dead_of walk.old.cursor.place walk.old.cursor.stage ≡ None → Looked S.Space s.old s.new }
    ensures size { S.size s.new ≡ S.size s.old }
    ensures wrote { Wrote S.Space s.old s.new }
    ensures cause { HasCause (S.faults s.old) (S.faults s.new) result }
{
    let mut locks = Locks::new(alloc);
    let mut held = Held::new(alloc);
    held.set_all(Some((Kind::Write, 1)));
    let stood_on = Spots::new(alloc);
    walk.step(alloc, s, &mut locks, OWNER, &held, &stood_on, goal, false)
}

/// Takes all turns of what a cursor is asked for that rests. The reply is `Pair`, `End` or `Ok`, or `Memory` where that
/// is wanting. `Io` where the disk failed: then the cursor stands where it stood.
///
/// No turn is blocked, since nobody else holds a lock. The contract of a move says so only where the bytes of the file
/// are told; for others a block would end the cursor, as want of memory does.
pub(crate) fn take_walk<S: Space>(
    alloc: Global,
    s: &mut S,
    walk: &mut Walk,
    goal: Goal,
) -> Result<Reply, Io>
    ensures done { IfOk result (λ reply. IsTrue S.tells → S.size s.old < 2 ^ 32 → AcceptWith (S.form s.old) (S.image s.old) [] → RestsIn (S.form s.old) (S.image s.old) walk.old
        → CursorDone (S.form s.old) (S.image s.old) (S.image s.new) goal walk.old walk.new (reply_of reply)) }
    ensures rests { IfOk result (λ reply. RestsAt (S.form s.old) walk.old.shown walk.old.cursor.place walk.old.cursor.stage → RestsAt (S.form s.old) walk.new.shown walk.new.cursor.place walk.new.cursor.stage) }
    ensures shown { IfOk result (λ reply. walk.new.shown ≡ shown_by goal (reply_of reply) walk.old.shown) }
    ensures stands { OnErr result ((walk.new.cursor.place ≡ walk.old.cursor.place) × (walk.new.shown ≡ walk.old.shown)) }
    ensures size { S.size s.new ≡ S.size s.old }
    ensures wrote { Wrote S.Space s.old s.new }
    ensures cause { HasCause (S.faults s.old) (S.faults s.new) result }
{
    for _taken in 0..3u32 {
        let turn = step_alone(alloc, s, walk, goal)?;
        match turn {
            Turn::Step => {}
            Turn::Done(reply) => return Ok(reply),
            Turn::Blocked { .. } => {
                *walk = Walk::new();
                return Ok(Reply::Memory);
            }
        }
    }
    unreachable!()
}
