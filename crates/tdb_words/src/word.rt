// The 32-bit words of a file, in the file's byte order.

ghost use Rattle.std.specs.Prelude.{◌≡◌, ◌+◌, ◌≤◌, length};
ghost use Rattle.tdb_words.specs.Word.{word, bytes_of_word};

use byteorder::{BigEndian, ByteOrder, LittleEndian};

/// The byte order of a file's words.
#[derive(Clone, Copy, Debug, PartialEq, Eq)]
pub enum Order {
    /// The lowest byte first.
    Little,

    /// The highest byte first.
    Big,
}

/// The number that the four bytes of a word stand for.
#[tactic(auto, unfolding(crate::specs::Word::word))]
pub fn word_at(bytes: &[u8; 4], o: Order) -> u32
    ensures { result ≡ word o bytes.now 0 }
{
    match o {
        Order::Little => LittleEndian::read_u32(bytes),
        Order::Big => BigEndian::read_u32(bytes),
    }
}

/// The four bytes that stand for a number.
#[tactic(auto, unfolding(crate::specs::Word::word))]
pub fn word_bytes(w: u32, o: Order) -> [u8; 4]
    ensures bytes { result ≡ bytes_of_word o w }
    ensures read_back { word o result 0 ≡ w }
{
    let mut bytes = [0; 4];
    match o {
        Order::Little => LittleEndian::write_u32(&mut bytes, w),
        Order::Big => BigEndian::write_u32(&mut bytes, w),
    }
    bytes
}

/// The word at an offset of some bytes, of which four stand there.
#[tactic(auto, unfolding(crate::specs::Word::word))]
pub fn word_in(bytes: &[u8], at: usize, o: Order) -> u32
    requires { at + 4 ≤ length bytes.now }
    ensures { result ≡ word o bytes.now at }
{
    word_at(&[bytes[at], bytes[at + 1], bytes[at + 2], bytes[at + 3]], o)
}
