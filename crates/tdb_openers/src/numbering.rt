// The turn that asks for the sequence number.

ghost use Rattle.std.specs.Prelude.{◌≡◌, ◌+◌, ◌<◌, ◌≤◌, ℕ, Bool, None, IsTrue, IfOk};
ghost use Rattle.tdb_words.specs.Word.{word};
ghost use Rattle.tdb_disk.specs.Count.{HasCause};
ghost use Rattle.tdb_space.specs.Form.{Form};
ghost use Rattle.tdb_space.specs.Frame.{Looked};
ghost use Rattle.tdb_locks.specs.HeldLocks.{HeldLocks};
ghost use Rattle.tdb_locks.specs.LockTable.{ChangesRange, held};
ghost use Rattle.tdb_law.specs.Commands.Command.{Seqnum};
ghost use Rattle.tdb_law.specs.Effects.{task_left};
ghost use Rattle.tdb_commands.specs.InLaw.{law_turn};
ghost use Rattle.tdb_law.specs.Openers.{View};
ghost use Rattle.tdb_openers.specs.Openers.{AtRest, own_with};
ghost use Rattle.tdb_openers.specs.Turning.{TurnsLocks, TurnsFile, resting};
ghost use Rattle.tdb_openers.specs.Ended.{MayCount};
ghost use Rattle.tdb_commands.specs.declared.options.Options.{Options};

use tdb_locks::{Kind, Len, LockRefusal, Locks, Reply, Turn};
use tdb_space::{Io, Space, read_word};

/// The sequence number of a file: the word at 48, and 0 where the file ends before it. `Io` where the disk failed.
pub fn number_in<S: Space>(s: &mut S) -> Result<u32, Io>
    ensures value { IfOk result (λ w. IsTrue S.tells → 52 ≤ S.size s.old → w ≡ word (S.form s.old).order (S.image s.old) 48) }
    ensures short { IfOk result (λ w. S.size s.old < 52 → w ≡ 0) }
    ensures looked { Looked S.Space s.old s.new }
    ensures cause { HasCause (S.faults s.old) (S.faults s.new) result }
{
    if s.len()? < 52 {
        return Ok(0);
    }
    read_word(s, 48)
}

/// Lets go of the lock byte of the sequence number, before which the owner holds nothing. It takes no memory.
fn let_go_of_number(locks: &mut Locks, owner: u32)
    requires alone { held locks.old owner 47 ≡ None }
    ensures { ChangesRange locks.old locks.new owner 48 49 None }
{
    match locks.unlock(owner, 48, Len::Bytes(1)) {
        Ok(()) => {}
        Err(_) => unreachable!(),
    }
}

/// Takes the turn that asks for the sequence number. `owner` is the number of its opener in the lock table.
///
/// The lock byte of the number is locked for reading while it is read. Blocked by the first conflict where another
/// opener writes it, and `Memory` where that is wanting. Then, as after the reply, the opener holds what it held. `Io`
/// where the disk failed.
///
/// Cost: a pass over the lock table, and a read of 4 bytes.
pub(crate) fn seqnum_turn<S: Space>(s: &mut S, locks: &mut Locks, owner: u32) -> Result<Turn, Io>
    requires alone { held locks.old owner 47 ≡ None }
    ensures locks { IfOk result (λ turn. (f : Form) (options : Options) (live : Bool) (held : HeldLocks) (rest : AtRest) (who : ℕ) → owner ≡ who + 1 → MayCount f options live held rest who locks.old
        → TurnsLocks f (own_with options live held rest) (own_with options live held rest) (resting rest) Seqnum 0 (task_left Seqnum 0 (law_turn turn)) who locks.old locks.new (law_turn turn)) }
    ensures file { IfOk result (λ turn. IsTrue S.tells → 52 ≤ S.size s.old → (options : Options) (live : Bool) (held : HeldLocks) (rest : AtRest) (who : ℕ) → owner ≡ who + 1
        → (v : View) → MayCount (S.form s.old) options live held rest who locks.old
        → TurnsFile (S.form s.old) (own_with options live held rest) (own_with options live held rest) (resting rest) v Seqnum 0 who locks.old (S.image s.old) (S.image s.new) (law_turn turn)) }
    ensures looked { Looked S.Space s.old s.new }
    ensures cause { HasCause (S.faults s.old) (S.faults s.new) result }
{
    match locks.try_lock(owner, 48, Len::Bytes(1), Kind::Read) {
        Ok(()) => {}
        Err(LockRefusal::Conflict { owner, byte, .. }) => {
            return Ok(Turn::Blocked { owner, byte });
        }
        Err(LockRefusal::Memory) => return Ok(Turn::Done(Reply::Memory)),
    }
    let number = number_in(s);
    let_go_of_number(locks, owner);
    Ok(Turn::Done(Reply::Number(u64::from(number?))))
}
