// The front of a file as a view shows it.

ghost use Rattle.std.specs.Prelude.{◌≡◌, ◌<◌, ◌≤◌, IsTrue, IfOk, IfErr, None, Some};
ghost use Rattle.tdb_disk.specs.Count.{HasCauseOf, RoseUpTo};
ghost use Rattle.tdb_space.specs.Form.{form_of, data_start};
ghost use Rattle.tdb_space.specs.FirstFault.{front_fault};
ghost use Rattle.tdb_check.specs.Seen.{Names};
ghost use Rattle.tdb_check.specs.Report.{IsFormOf};
ghost use Rattle.tdb_space.specs.Frame.{Looked};
ghost use Rattle.tdb_check.specs.declared.refusal.CheckRefusal.TheVariants.{Io};

use crate::front::is_short;
use crate::refusal::CheckRefusal;
use tdb_space::Space;
use tdb_words::{What, header_of};

/// The length of the file in bytes, where its front has no fault; else the first of too few bytes for a header, a fault
/// of the header, and a length that is no multiple of 4 or ends before the records of the view begin. A view without a
/// chain has no header of a file. It reads 168 bytes.
pub fn check_front<S: Space>(s: &mut S) -> Result<u64, CheckRefusal>
    ensures sound { IfOk result (λ len. IsTrue S.tells → IsFormOf (S.form s.old) (S.image s.old)
        → (front_fault (S.image s.old) ≡ None) × (S.form s.old ≡ form_of (S.image s.old))) }
    ensures length { IfOk result (λ len. len ≡ S.size s.old) }
    ensures heads { IfOk result (λ len. data_start (S.form s.old) ≤ len) }
    ensures chains { IfOk result (λ len. 0 < (S.form s.old).chains) }
    ensures bytes_read { RoseUpTo 168 (S.bytes_read s.old) (S.bytes_read s.new) }
    ensures bad { IfErr result (λ e. IsTrue S.tells → IsFormOf (S.form s.old) (S.image s.old)
        → Names e (λ fault. front_fault (S.image s.old) ≡ Some fault)) }
    ensures looked { Looked S.Space s.old s.new }
    ensures cause { HasCauseOf Io (S.faults s.old) (S.faults s.new) result }
{
    let len = s.len()?;
    if len < 168 {
        return Err(CheckRefusal::Corrupt {
            what: What::Short,
            at: len,
        });
    }
    let mut bytes = [0u8; 168];
    s.read(0, &mut bytes)?;
    if let Err(_fault) = header_of(&bytes) {
        return Err(CheckRefusal::Corrupt {
            what: What::Header,
            at: 0,
        });
    }
    let chains = s.hash_size();
    if chains == 0 {
        return Err(CheckRefusal::Corrupt {
            what: What::Header,
            at: 0,
        });
    }
    if is_short(len, chains) {
        return Err(CheckRefusal::Corrupt {
            what: What::Short,
            at: len,
        });
    }
    Ok(len)
}
