// A cursor that passes over empty chains, and reads their heads alone.

ghost use Rattle.std.specs.Prelude.{◌≡◌, ◌≤◌, None, IsTrue, IfOk, OnErr};
ghost use Rattle.tdb_disk.specs.Count.{HasCause};
ghost use Rattle.tdb_space.specs.Frame.{Looked};
ghost use Rattle.tdb_space.specs.Form.{data_start};
ghost use Rattle.tdb_walk.specs.Cursors.{spot_of};
ghost use Rattle.tdb_walk.specs.Passing.{PassesTo, PassesWithin, enters, walk_passed};

use crate::heads::first_filled;
use crate::{Cursor, Walk};
use tdb_space::{Io, Space, data_start};

/// The first chain from a number on whose head isn't 0. A file that is too short to have the heads has none.
fn next_filled<S: Space>(s: &mut S, from: u32) -> Result<Option<u32>, Io>
    ensures found { IfOk result (λ found. IsTrue S.tells → data_start (S.form s.old) ≤ S.size s.old → PassesTo (S.form s.old) (S.image s.old) from found) }
    ensures within { IfOk result (PassesWithin (S.form s.old) from) }
    ensures looked { Looked S.Space s.old s.new }
    ensures cause { HasCause (S.faults s.old) (S.faults s.new) result }
{
    let len = s.len()?;
    if len < data_start(s.hash_size()) {
        return Ok(None);
    }
    let found = first_filled(s, len, from)?;
    Ok(match found {
        Some(head) => Some(head.chain),
        None => None,
    })
}

impl Walk {
    /// Passes over the chains whose heads are 0, where it stands on no record: from the chain before which it stands
    /// on, and from the first one where it stands before none. It stands before the first other chain then, whose
    /// number is the answer; where there is none it has ended.
    ///
    /// It locks nothing, and reads nothing but the heads, 1024 of them at once: where another opener holds all records
    /// for writing, a move can go so far. `Io` where the disk failed, and then it stands where it stood.
    pub fn pass_empty<S: Space>(&mut self, s: &mut S) -> Result<Option<u32>, Io>
        requires off { spot_of self.old.cursor.place ≡ None }
        ensures passed { IfOk result (λ found. IsTrue S.tells → data_start (S.form s.old) ≤ S.size s.old → PassesTo (S.form s.old) (S.image s.old) (enters self.old.cursor.place) found) }
        ensures within { IfOk result (PassesWithin (S.form s.old) (enters self.old.cursor.place)) }
        ensures stands { IfOk result (λ found. self.new ≡ walk_passed found self.old) }
        ensures stays { OnErr result (self.new ≡ self.old) }
        ensures looked { Looked S.Space s.old s.new }
        ensures cause { HasCause (S.faults s.old) (S.faults s.new) result }
    {
        let found = next_filled(s, self.cursor.enters())?;
        match found {
            Some(chain) => self.cursor = Cursor::before(chain),
            None => *self = Walk::new(),
        }
        Ok(found)
    }
}
