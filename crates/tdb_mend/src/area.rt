// The undo area of a file that is mended: where it stands, what its header says, and how it stands.

ghost use Rattle.std.specs.Prelude.{◌≡◌, ◌+◌, ◌*◌, ◌^◌, ◌<◌, ◌≤◌, nat_lt, IsTrue, IfOk, IfErr, None, Some, length};
ghost use Rattle.tdb_disk.specs.Count.{HasCauseOf};
ghost use Rattle.tdb_space.specs.Form.{data_start as records_from};
ghost use Rattle.tdb_space.specs.Frame.{Looked};
ghost use Rattle.tdb_check.specs.Seen.{Names};
ghost use Rattle.tdb_check.specs.declared.refusal.CheckRefusal.TheVariants.{Io};
ghost use Rattle.tdb_mend.specs.Area.{header_fault_in, content_fault_in, state_fault, wide_len_of, StateSeen, OpenStands};
ghost use Rattle.tdb_mend.specs.Giving.{content_end_of};

use tdb_check::{CheckRefusal, can_stand};
use tdb_space::{Space, data_start, read_rec, read_word};
use tdb_words::{GATE_OPEN, GATE_SHUT, Rec, What};

/// The offset of the word that says where the undo area stands, or 0.
pub(crate) const AREA_HEAD: u64 = 44;

/// How many bytes the header of the undo area has.
const HEADER_LEN: u64 = 24;

/// The gate word of an area that was placed and has no header yet: padding.
const PADDING_WORD: u32 = 0x4242_4242;

/// The undo area of a file.
#[derive(Clone, Copy)]
pub(crate) struct UndoArea {
    /// The offset at which it stands.
    pub at: u32,

    /// Its header. `rec_len` is how many bytes it has for its content, `key_len` the length that the file had,
    /// `data_len` the length of its content, and `magic` its gate word.
    pub header: Rec,
}

/// How the undo area of a file stands.
#[derive(Clone, Copy)]
pub(crate) enum AreaState {
    /// There is none, or its gate is shut: nothing has to be undone.
    Still,

    /// It was placed, and its header wasn't written yet.
    WithoutHeader,

    /// Its gate is open.
    Open(UndoArea),
}

impl UndoArea {
    /// The offset of its gate word.
    pub fn gate(&self) -> u64
        ensures { result ≡ self.now.at + 20 }
    {
        self.at as u64 + 20
    }

    /// The offset of its content.
    pub fn content(&self) -> u64
        ensures { result ≡ self.now.at + 24 }
    {
        self.at as u64 + HEADER_LEN
    }

    /// The offset behind its content.
    pub fn content_end(&self) -> u64
        ensures end { result ≡ content_end_of self.now }
        ensures low { result < 2 ^ 34 }
    {
        self.content() + self.header.data_len as u64
    }

    /// The offset behind its extent.
    pub fn end(&self) -> u64
        ensures { result ≡ self.now.at + 24 + self.now.header.rec_len }
    {
        self.content() + self.header.rec_len as u64
    }

    /// The length that the file had, in bytes.
    pub fn old_len(&self) -> u64
        ensures { result ≡ self.now.header.key_len }
    {
        self.header.key_len as u64
    }

    /// Whether it begins below that length, so that it stays.
    pub fn stays(&self) -> bool
        ensures { result ≡ nat_lt self.now.at self.now.header.key_len }
    {
        self.at < self.header.key_len
    }

    /// How many bytes the undo leaves: as many as the file had, and the area whole where that length lies inside it.
    pub fn wide_len(&self) -> u64
        ensures left { result ≡ wide_len_of self.now }
    {
        if self.stays() {
            self.old_len().max(self.end())
        } else {
            self.old_len()
        }
    }

    /// What is wrong with its header in a file of `len` bytes, whatever it keeps.
    fn header_fault(&self, len: u64) -> Option<(What, u64)>
        ensures { result ≡ header_fault_in self.now len }
    {
        if self.header.rec_len % 4 != 0 || len < self.end() {
            Some((What::AreaBad, self.at as u64 + 4))
        } else if self.header.magic != GATE_OPEN && self.header.magic != GATE_SHUT {
            Some((What::AreaBad, self.gate()))
        } else {
            None
        }
    }

    /// What is wrong with its old length and the length of its content, in a file of `len` bytes and of so many chains.
    pub fn content_fault(&self, len: u64, chains: u32) -> Option<(What, u64)>
        ensures { result ≡ content_fault_in self.now (168 + 4 * (chains + 1)) len }
    {
        if self.old_len() < data_start(chains) || len < self.old_len() {
            Some((What::UndoBad, self.at as u64 + 8))
        } else if self.header.rec_len < self.header.data_len {
            Some((What::UndoBad, self.at as u64 + 12))
        } else {
            None
        }
    }
}

/// How the undo area of a file of `len` bytes stands, or what is wrong with its place and its header. It reads at most
/// 28 bytes.
pub(crate) fn read_state<S: Space>(s: &mut S, len: u64) -> Result<AreaState, CheckRefusal>
    requires length { len ≡ S.size s.old }
    requires heads { records_from (S.form s.old) ≤ len }
    ensures state { IfOk result (λ state. IsTrue S.tells → length (S.image s.old) ≡ len
        → (state_fault (S.form s.old) (S.image s.old) ≡ None) × StateSeen (S.form s.old) (S.image s.old) state) }
    ensures stands { IfOk result (OpenStands (records_from (S.form s.old)) len) }
    ensures bad { IfErr result (λ e. IsTrue S.tells → length (S.image s.old) ≡ len
        → Names e (λ fault. state_fault (S.form s.old) (S.image s.old) ≡ Some fault)) }
    ensures looked { Looked S.Space s.old s.new }
    ensures cause { HasCauseOf Io (S.faults s.old) (S.faults s.new) result }
{
    let at = read_word(s, AREA_HEAD)?;
    if at == 0 {
        return Ok(AreaState::Still);
    }
    if !can_stand(at, len, s.hash_size()) {
        return Err(CheckRefusal::Corrupt {
            what: What::AreaBad,
            at: AREA_HEAD,
        });
    }
    let header = read_rec(s, at as u64)?;
    if header.magic == PADDING_WORD {
        return Ok(AreaState::WithoutHeader);
    }
    let area = UndoArea { at, header };
    if let Some((what, at)) = area.header_fault(len) {
        return Err(CheckRefusal::Corrupt { what, at });
    }
    if header.magic == GATE_OPEN {
        return Ok(AreaState::Open(area));
    }
    Ok(AreaState::Still)
}
