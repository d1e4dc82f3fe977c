// The header of a record: six words, the last of which says what the record is.

ghost use Rattle.std.specs.Prelude.{◌≡◌, ℕ, ◌++◌};
ghost use Rattle.tdb_words.specs.Word.{word, bytes_of_word};
ghost use Rattle.tdb_words.specs.Magics.{AreMagics};
ghost use Rattle.tdb_words.specs.Record.{rec_at, bytes_of_rec, RecordWords};

use crate::word::{Order, word_bytes, word_in};

/// The magic of a record that holds a key and a value.
pub const USED: u32 = 0x2601_1999;

/// The magic of a record on the free list.
pub const FREE: u32 = 0xD9FE_E666;

/// The magic of a record that was deleted while a cursor stood on it.
pub const DEAD: u32 = 0xFEE1_DEAD;

/// The gate word of an undo area that holds the bytes of an unfinished commit.
pub const GATE_OPEN: u32 = 0xF53B_C0E7;

/// The gate word of an undo area that holds nothing to undo.
pub const GATE_SHUT: u32 = 0;

/// The byte that fills the spare room of a record.
pub const PADDING: u8 = 0x42;

/// The magics, the gate words and the padding byte above are those of the public format.
pub fn magics_law()
    ensures { AreMagics }
{}

/// The header of a record: the 24 bytes that it begins with.
#[derive(Clone, Copy, Debug, PartialEq, Eq)]
pub struct Rec {
    /// The offset of the next record of the chain or the free list, or 0 at its end.
    pub next: u32,

    /// How many bytes follow the header, the tailer among them.
    pub rec_len: u32,

    /// How many bytes the key has.
    pub key_len: u32,

    /// How many bytes the value has.
    pub data_len: u32,

    /// The hash of the key.
    pub full_hash: u32,

    /// What the record is: `USED`, `FREE` or `DEAD`, or the gate word of an undo area.
    pub magic: u32,
}

/// The record header that 24 bytes stand for.
pub fn rec_of(bytes: &[u8; 24], o: Order) -> Rec
    ensures header { result ≡ rec_at o bytes.now 0 }
    ensures words { RecordWords o bytes.now 0 result }
{
    Rec {
        next: word_in(bytes, 0, o),
        rec_len: word_in(bytes, 4, o),
        key_len: word_in(bytes, 8, o),
        data_len: word_in(bytes, 12, o),
        full_hash: word_in(bytes, 16, o),
        magic: word_in(bytes, 20, o),
    }
}

/// The 24 bytes that stand for a record header.
pub fn rec_bytes(r: &Rec, o: Order) -> [u8; 24]
    ensures bytes { result ≡ bytes_of_rec o r.now }
    ensures read_back { rec_at o result 0 ≡ r.now }
{
    let mut bytes = [0; 24];
    bytes[..4].copy_from_slice(&word_bytes(r.next, o));
    bytes[4..8].copy_from_slice(&word_bytes(r.rec_len, o));
    bytes[8..12].copy_from_slice(&word_bytes(r.key_len, o));
    bytes[12..16].copy_from_slice(&word_bytes(r.data_len, o));
    bytes[16..20].copy_from_slice(&word_bytes(r.full_hash, o));
    bytes[20..].copy_from_slice(&word_bytes(r.magic, o));
    bytes
}
