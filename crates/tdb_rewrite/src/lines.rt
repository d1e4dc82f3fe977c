// The records of a chain, line by line.

ghost use Rattle.std.specs.Prelude.{◌≡◌, ◌<◌, ◌≤◌, List, IsTrue, IfOk};
ghost use Rattle.tdb_disk.specs.Count.{HasCauseOf};
ghost use Rattle.tdb_space.specs.Frame.{Looked};
ghost use Rattle.tdb_space.specs.Extents.{HandPair};
ghost use Rattle.tdb_space.specs.Accepted.{AcceptWith};
ghost use Rattle.tdb_rewrite.specs.Lines.{lines_of};
ghost use Rattle.tdb_rewrite.specs.declared.refusal.LinesRefusal.TheVariants.{Io};

use crate::refusal::LinesRefusal;
use crate::spot::{Shown, Spot};
use crate::walk::ListWalk;
use std::alloc::Global;
use tdb_space::{Space, chain_head};

/// The lines of one chain of an accepted file: how many records it has, and each of them in its order. A chain without
/// records has no line. All lines of the file are those of chain 0, of chain 1 and so on.
///
/// It reads the head of the chain and 24 bytes of each record, and holds 24 bytes for each line of this chain, so that
/// a list of the whole file holds one chain at a time. Where the file's bytes aren't those of an accepted one, a word
/// that leads to no place where a record can stand ends the chain as a 0 does, and so do as many records as the file
/// has words. `Memory` where that is wanting, and `Io` where the disk failed.
pub fn chain_lines<S: Space>(alloc: Global, s: &mut S, chain: u32) -> Result<Shown, LinesRefusal>
    ensures shown { IfOk result (λ shown. IsTrue S.tells → chain < (S.form s.old).chains → (hands : List HandPair)
        → AcceptWith (S.form s.old) (S.image s.old) hands → shown ≡ lines_of (S.form s.old) (S.image s.old) chain) }
    ensures looked { Looked S.Space s.old s.new }
    ensures cause { HasCauseOf Io (S.faults s.old) (S.faults s.new) result }
    ensures bytes_read { S.bytes_read s.old ≤ S.bytes_read s.new }
{
    let len = s.len()?;
    let mut walk = ListWalk::from_head(s, len, chain_head(chain))?;
    let mut shown = Shown::new(alloc);
    while let Some(found) = walk.next(s, len)? {
        shown.push(Spot::of(found.off, &found.rec))?;
    }
    shown.put_head(chain)?;
    Ok(shown)
}
