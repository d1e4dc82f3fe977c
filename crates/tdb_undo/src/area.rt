// The undo area of a file: where it stands, and what its header says.

ghost use Rattle.std.specs.Prelude.{◌≡◌, ◌+◌, ◌*◌, ◌≤◌, ◌||◌, not, nat_lt, IsTrue, IfOk, IfErr, IfSome, None, Some};
ghost use Rattle.tdb_disk.specs.Count.{HasCauseOf, RoseUpTo};
ghost use Rattle.tdb_disk.specs.History.{seen};
ghost use Rattle.tdb_space.specs.Form.{form_in};
ghost use Rattle.tdb_undo.specs.Refusal.{Names};
ghost use Rattle.tdb_undo.specs.Entries.{entries_stop};
ghost use Rattle.tdb_undo.specs.Area.{is_out_at, place_fault, header_fault_at, content_fault_at, AreaSeen, Stands};

use crate::refusal::UndoRefusal;
use tdb_disk::Disk;
use tdb_space::data_start;
use tdb_words::{GATE_OPEN, GATE_SHUT, Header, Rec, What, rec_of, word_at};

/// The offset of the word that says where the undo area stands, or 0.
pub(crate) const RECOVERY_START: u64 = 44;

/// How many bytes the header of the undo area has.
pub(crate) const HEADER_LEN: u64 = 24;

/// Where the old length of the file stands in that header, and behind it the length of the content.
pub(crate) const OLD_LEN: u64 = 8;

/// Where the gate word stands in that header.
pub(crate) const GATE: u64 = 20;

/// The undo area of a file.
#[derive(Clone, Copy)]
pub(crate) struct Area {
    /// The offset at which it stands.
    pub at: u32,

    /// Its header. `rec_len` is how many bytes it has for its content, `key_len` the length that the file had,
    /// `data_len` the length of its content, and `magic` its gate word.
    pub header: Rec,
}

/// Whether the header of a record can stand at an offset of a file of this length and of so many chains.
fn can_stand(at: u32, len: u64, chains: u32) -> bool
    ensures { result ≡ not (is_out_at chains len at) }
{
    !(at % 4 != 0 || (at as u64) < data_start(chains) || len < at as u64 + HEADER_LEN)
}

impl Area {
    /// The offset behind its extent.
    pub(crate) fn end(&self) -> u64
        ensures { result ≡ self.now.at + 24 + self.now.header.rec_len }
    {
        self.at as u64 + HEADER_LEN + self.header.rec_len as u64
    }

    /// What is wrong with the header of the area in a file of `len` bytes, whatever it keeps.
    fn header_fault(&self, len: u64) -> Option<(What, u64)>
        ensures { result ≡ header_fault_at self.now.header self.now.at len }
    {
        let at = self.at as u64;
        let rec_len = self.header.rec_len as u64;
        if rec_len % 4 != 0 || len < at + HEADER_LEN + rec_len {
            Some((What::AreaBad, at + 4))
        } else if self.header.magic != GATE_OPEN && self.header.magic != GATE_SHUT {
            Some((What::AreaBad, at + 20))
        } else {
            None
        }
    }

    /// What is wrong with the old length and the length of the content, in a file of `len` bytes and of so many chains.
    pub(crate) fn content_fault(&self, len: u64, chains: u32) -> Option<(What, u64)>
        ensures { result ≡ content_fault_at self.now.header self.now.at (168 + 4 * (chains + 1)) len }
    {
        let at = self.at as u64;
        let old = self.header.key_len as u64;
        let end = at + HEADER_LEN + self.header.rec_len as u64;
        if old < data_start(chains) || len < old || at < old && old < end {
            Some((What::UndoBad, at + 8))
        } else if self.header.rec_len < self.header.data_len {
            Some((What::UndoBad, at + 12))
        } else {
            None
        }
    }
}

impl Area {
    /// Whether an entry that ends at `next` passes the end of the content, or what it covers passes the file's old
    /// length.
    pub(crate) fn is_bad_entry(&self, next: u64, off: u32, len: u32) -> bool
        ensures { result ≡ (nat_lt (entries_stop self.now) next || nat_lt self.now.header.key_len (off + len)) }
    {
        let end = self.at as u64 + HEADER_LEN + self.header.data_len as u64;
        end < next || (self.header.key_len as u64) < off as u64 + len as u64
    }
}

/// The undo area of a file with this header, if it has one, or what is wrong with its place and its header. It reads 28
/// bytes.
pub(crate) fn read_area<D: Disk>(d: &mut D, h: &Header) -> Result<Option<Area>, UndoRefusal>
    requires heads { 48 ≤ D.size d.old }
    ensures found { IfOk result (λ a. IsTrue D.tells → (place_fault (form_in h.now) (seen (D.history d.old)) ≡ None) × AreaSeen h.now.order (seen (D.history d.old)) a) }
    ensures stands { IfOk result (λ a. IfSome a (λ area. Stands (form_in h.now) (D.size d.old) area)) }
    ensures bad { IfErr result (λ e. IsTrue D.tells → Names e (λ fault. place_fault (form_in h.now) (seen (D.history d.old)) ≡ Some fault)) }
    ensures still { D.history d.new ≡ D.history d.old }
    ensures size { D.size d.new ≡ D.size d.old }
    ensures cause { HasCauseOf UndoRefusal.Io (D.faults d.old) (D.faults d.new) result }
    ensures syncs { D.syncs d.new ≡ D.syncs d.old }
    ensures bytes_read { RoseUpTo 28 (D.bytes_read d.old) (D.bytes_read d.new) }
{
    let len = d.len()?;
    let mut word = [0u8; 4];
    d.read(RECOVERY_START, &mut word)?;
    let at = word_at(&word, h.order);
    if at == 0 {
        return Ok(None);
    }
    if !can_stand(at, len, h.hash_size) {
        return Err(UndoRefusal::UndoBad {
            what: What::AreaBad,
            at: RECOVERY_START,
        });
    }
    let mut bytes = [0u8; 24];
    d.read(at as u64, &mut bytes)?;
    let area = Area {
        at,
        header: rec_of(&bytes, h.order),
    };
    match area.header_fault(len) {
        Some((what, at)) => Err(UndoRefusal::UndoBad { what, at }),
        None => Ok(Some(area)),
    }
}
