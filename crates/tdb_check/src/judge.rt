// What is wrong with the extents of a file.

ghost use Rattle.std.specs.Prelude.{◌≡◌, ◌≤◌, IsTrue, length, IfOk, IfErr};
ghost use Rattle.tdb_disk.specs.Count.{HasCauseOf, RoseUpTo};
ghost use Rattle.tdb_space.specs.Form.{data_start};
ghost use Rattle.tdb_check.specs.Seen.{Names};
ghost use Rattle.tdb_check.specs.Extent.{extents_seen};
ghost use Rattle.tdb_check.specs.Stray.{FirstAmong, NoFaultAmong};
ghost use Rattle.tdb_space.specs.Frame.{Looked};
ghost use Rattle.tdb_check.specs.declared.refusal.CheckRefusal.TheVariants.{Io};

use crate::extent::{Extent, first_overlap, sort_extents};
use crate::refusal::CheckRefusal;
use crate::stray::scan;
use tdb_space::Space;
use tdb_words::What;

/// How many bytes lie in none of the extents of a file of `len` bytes, from where its records begin; or what is first
/// wrong with the extents: the least byte that two of them share, or else the least byte outside them that is neither 0
/// nor padding. It puts them into the order of their offsets.
pub(crate) fn judge_extents<S: Space>(
    s: &mut S,
    len: u64,
    extents: &mut Vec<Extent>,
) -> Result<u64, CheckRefusal>
    requires length { len ≡ S.size s.old }
    requires heads { data_start (S.form s.old) ≤ len }
    ensures clean { IfOk result (λ n. IsTrue S.tells → length (S.image s.old) ≡ len → NoFaultAmong (extents_seen extents.old.items) (data_start (S.form s.old)) (S.image s.old) n) }
    ensures bad { IfErr result (λ e. IsTrue S.tells → length (S.image s.old) ≡ len → Names e (FirstAmong (extents_seen extents.old.items) (data_start (S.form s.old)) (S.image s.old))) }
    ensures bytes_read { RoseUpTo len (S.bytes_read s.old) (S.bytes_read s.new) }
    ensures looked { Looked S.Space s.old s.new }
    ensures cause { HasCauseOf Io (S.faults s.old) (S.faults s.new) result }
{
    sort_extents(extents);
    if let Some(at) = first_overlap(extents) {
        return Err(CheckRefusal::Corrupt {
            what: What::Overlap,
            at: at as u64,
        });
    }
    scan(s, len, extents)
}
