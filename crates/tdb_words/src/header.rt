// The header of a file: its first 168 bytes.

ghost use Rattle.std.specs.Prelude.{◌≡◌, ℕ, ◌<◌, ◌≤◌, ◌==◌, ◌↔◌, IsTrue, IfOk, IfErr, Some, None};
ghost use Rattle.tdb_words.specs.Word.{word, bytes_of_word};
ghost use Rattle.tdb_words.specs.Hash.{h_of};
ghost use Rattle.tdb_words.specs.Header.{food, order_named, hash_named, header_at, header_fault, HeaderOk, fault_text, locks_of, header_with, new_header};

use crate::hash::{HashKind, hash_of};
use crate::record::USED;
use crate::word::{Order, word_bytes, word_in};
use std::fmt;
use thiserror::Error;

/// The text that a file begins with.
const FOOD: [u8; 10] = *b"TDB file\n\0";

/// The version of the format.
const VERSION: u32 = 0x2601_196D;

/// The locks word of a file with Jenkins' hash: older programs refuse such a file by it.
const JENKINS_LOCKS: u32 = 0x0BAD_1A51;

/// The locks word of a file whose features are told by the word at 60.
const MUTEX_LOCKS: u32 = 0x0BAD_1A52;

/// What the header of a file says.
#[derive(Clone, Copy, Debug, PartialEq, Eq)]
pub struct Header {
    /// The byte order of all words of the file.
    pub order: Order,

    /// The hash of keys.
    pub hash: HashKind,

    /// The number of chains, at least 1.
    pub hash_size: u32,

    /// The offset of the undo area, or 0 where there is none.
    pub recovery_start: u32,

    /// The sequence number, which counts changes where that is asked for.
    pub sequence: u32,
}

/// Why 168 bytes are no header, in the order in which it is tested.
#[derive(Clone, Copy, Debug, PartialEq, Eq, Error)]
pub enum HeaderFault {
    /// The first ten bytes are another text.
    NotTdb,

    /// The version word is another in both byte orders.
    Version,

    /// The locks word is that of an old format.
    OldLocks,

    /// The file asks for features that aren't known, as mutexes.
    Mutexes,

    /// The two hash words are those of neither hash.
    UnknownHash,

    /// The file has no chain.
    NoBuckets,
}

impl HeaderFault {
    /// The word that is printed.
    pub fn as_str(self) -> &'static str
        ensures { result.now ≡ fault_text self }
    {
        match self {
            HeaderFault::NotTdb => "NotTdb",
            HeaderFault::Version => "Version",
            HeaderFault::OldLocks => "OldLocks",
            HeaderFault::Mutexes => "Mutexes",
            HeaderFault::UnknownHash => "UnknownHash",
            HeaderFault::NoBuckets => "NoBuckets",
        }
    }
}

impl fmt::Display for HeaderFault {
    fn fmt<W: fmt::Write>(&self, f: &mut fmt::Formatter<W>) -> fmt::Result {
        f.write_str(self.as_str())
    }
}

/// The byte order in which the version word is right.
fn order_of(bytes: &[u8; 168]) -> Option<Order>
    ensures { result ≡ order_named bytes.now }
{
    if word_in(bytes, 32, Order::Little) == VERSION {
        return Some(Order::Little);
    }
    if word_in(bytes, 32, Order::Big) == VERSION {
        return Some(Order::Big);
    }
    None
}

/// The two words that name a hash in a header: the hashes of the text and of the used magic.
fn hash_words(kind: HashKind, order: Order) -> (u32, u32)
    ensures first { result.0 ≡ h_of kind food }
    ensures second { result.1 ≡ h_of kind (bytes_of_word order USED) }
{
    (
        hash_of(kind, &FOOD),
        hash_of(kind, &word_bytes(USED, order)),
    )
}

/// The hash that two words name.
fn kind_of(order: Order, first: u32, second: u32) -> Option<HashKind>
    ensures { result ≡ hash_named order first second }
{
    if first == 0 && second == 0 {
        return Some(HashKind::Old);
    }
    if (first, second) == hash_words(HashKind::Old, order) {
        return Some(HashKind::Old);
    }
    if (first, second) == hash_words(HashKind::Jenkins, order) {
        return Some(HashKind::Jenkins);
    }
    None
}

/// What the first 168 bytes of a file say, or the first of the six faults that they have. The two
/// hash words are computed anew in each call.
#[tactic(auto, unfolding(crate::specs::Header::header_fault, crate::specs::Header::header_order, crate::specs::Header::header_hash))]
pub fn header_of(bytes: &[u8; 168]) -> Result<Header, HeaderFault>
    ensures header { IfOk result (λ h. HeaderOk bytes.now × (h ≡ header_at bytes.now)) }
    ensures fault { IfErr result (λ f. header_fault bytes.now ≡ Some f) }
{
    if !bytes.starts_with(&FOOD) {
        return Err(HeaderFault::NotTdb);
    }
    let Some(order) = order_of(bytes) else {
        return Err(HeaderFault::Version);
    };
    let locks = word_in(bytes, 40, order);
    if locks != 0 && locks != JENKINS_LOCKS && locks != MUTEX_LOCKS {
        return Err(HeaderFault::OldLocks);
    }
    if locks == MUTEX_LOCKS && word_in(bytes, 60, order) != 0 {
        return Err(HeaderFault::Mutexes);
    }
    let Some(hash) = kind_of(order, word_in(bytes, 52, order), word_in(bytes, 56, order)) else {
        return Err(HeaderFault::UnknownHash);
    };
    let hash_size = word_in(bytes, 36, order);
    if hash_size == 0 {
        return Err(HeaderFault::NoBuckets);
    }
    Ok(Header {
        order,
        hash,
        hash_size,
        recovery_start: word_in(bytes, 44, order),
        sequence: word_in(bytes, 48, order),
    })
}

/// The locks word of a new file.
fn locks_for(h: HashKind) -> u32
    ensures { result ≡ locks_of h }
{
    match h {
        HashKind::Old => 0,
        HashKind::Jenkins => JENKINS_LOCKS,
    }
}

/// A header with these words, and else 0.
fn header_with(o: Order, hash_size: u32, locks: u32, first: u32, second: u32) -> [u8; 168]
    ensures { result ≡ header_with o hash_size locks first second }
{
    let mut bytes = [0; 168];
    bytes[..10].copy_from_slice(&FOOD);
    bytes[32..36].copy_from_slice(&word_bytes(VERSION, o));
    bytes[36..40].copy_from_slice(&word_bytes(hash_size, o));
    bytes[40..44].copy_from_slice(&word_bytes(locks, o));
    bytes[52..56].copy_from_slice(&word_bytes(first, o));
    bytes[56..60].copy_from_slice(&word_bytes(second, o));
    bytes
}

/// The first 168 bytes of a new file, with no undo area and the sequence number 0.
pub fn header_bytes(hash_size: u32, o: Order, h: HashKind) -> [u8; 168]
    requires { 0 < hash_size }
    ensures bytes { result ≡ new_header hash_size o h }
    ensures no_fault { header_fault result ≡ None }
    ensures read_back { header_at result
        ≡ record { order = o; hash = h; hash_size = hash_size; recovery_start = 0; sequence = 0 } }
{
    let (first, second) = hash_words(h, o);
    header_with(o, hash_size, locks_for(h), first, second)
}
