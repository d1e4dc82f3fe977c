// What a record of a chain holds.

ghost use Rattle.std.specs.Prelude.{◌≡◌, IsTrue, length, IfOk};
ghost use Rattle.tdb_disk.specs.Count.{HasCauseOf, RoseUpTo};
ghost use Rattle.tdb_words.specs.declared.record.TheConstants.{USED};
ghost use Rattle.tdb_words.specs.Record.{rec_at};
ghost use Rattle.tdb_space.specs.Frame.{Looked};
ghost use Rattle.tdb_space.specs.Record.{data_at};
ghost use Rattle.tdb_chain.specs.Place.{StandsWithin};
ghost use Rattle.tdb_chain.specs.declared.refusal.ValueRefusal.TheVariants.{Io};

use crate::place::Place;
use crate::refusal::ValueRefusal;
use std::alloc::Global;
use tdb_space::Space;
use tdb_words::Bytes;

/// The value of the used record at a place, read at once into memory of its length. `Memory` where that is wanting, and
/// `Io` where the disk failed.
pub fn value<S: Space>(alloc: Global, s: &mut S, p: &Place) -> Result<Bytes, ValueRefusal>
    requires within { StandsWithin p.now (S.size s.old) }
    requires used { p.now.rec.magic ≡ USED }
    ensures value { IfOk result (λ v. IsTrue S.tells → p.now.rec ≡ rec_at (S.form s.old).order (S.image s.old) p.now.off
        → v ≡ data_at (S.form s.old).order (S.image s.old) p.now.off) }
    ensures as_long { IfOk result (λ v. length v ≡ p.now.rec.data_len) }
    ensures looked { Looked S.Space s.old s.new }
    ensures cause { HasCauseOf Io (S.faults s.old) (S.faults s.new) result }
    ensures bytes_read { RoseUpTo p.now.rec.data_len (S.bytes_read s.old) (S.bytes_read s.new) }
{
    let mut bytes = vec![in alloc; 0u8; p.rec.data_len as usize]?;
    let off = p.off as u64 + 24 + p.rec.key_len as u64;
    s.read(off, bytes.as_mut_slice())?;
    Ok(Bytes::from(bytes))
}
