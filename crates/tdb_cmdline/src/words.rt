// What single words of a command line stand for.

ghost use Rattle.std.specs.Prelude.{◌≡◌, ◌≤◌, ℕ, None, IfOk, IfSome, length};
ghost use Rattle.tdb_cmdline.specs.declared.limits.TheConstants.{LONGEST_WORD as longest};
ghost use Rattle.tdb_cmdline.specs.Words as W;

use crate::hex::hex_bytes_of;
use crate::limits::{LONGEST_NUMBER, LONGEST_WORD, MOST_CHAINS};
use std::alloc::{AllocError, Global};
use tdb_dump::{WordRefusal, word_bytes_of};
use tdb_open::LONGEST_FILE;
use tdb_words::Bytes;

/// The least length that a file may be limited to.
const LEAST_LIMIT: u32 = 696;

/// How many commands may be generated.
const MOST_COMMANDS: u32 = 1_000_000;

/// Whether a word isn't too long.
pub(crate) fn is_short(word: &str) -> bool
    ensures { result ≡ W.is_short word.now }
{
    word.len() <= LONGEST_WORD
}

/// Whether a word is an option, where options may stand.
pub(crate) fn is_option(word: &str) -> bool
    ensures { result ≡ W.is_option word.now }
{
    let bytes = word.as_bytes();
    bytes.len() > 1 && bytes[0] == b'-'
}

/// The bytes that a word stands for, where it has a reading.
fn bytes_of(alloc: Global, word: &[u8]) -> Result<Option<Bytes>, AllocError>
    ensures read { IfOk result (λ bytes. bytes ≡ W.bytes_of word.now) }
    ensures short { IfOk result (λ bytes. IfSome bytes (λ b. length b ≤ length word.now)) }
{
    match word_bytes_of(alloc, word) {
        Ok(bytes) => Ok(Some(bytes)),
        Err(WordRefusal::BadEscape { at: _ }) => Ok(None),
        Err(WordRefusal::Memory) => Err(AllocError),
    }
}

/// The key or the value that a word stands for, where it has a reading. It is no longer than the word.
pub(crate) fn value_of(alloc: Global, word: &str) -> Result<Option<Bytes>, AllocError>
    ensures read { IfOk result (λ bytes. bytes ≡ W.value_of word.now) }
    ensures short { IfOk result (λ bytes. IfSome bytes (λ b. length b ≤ longest)) }
{
    if !is_short(word) {
        return Ok(None);
    }
    bytes_of(alloc, word.as_bytes())
}

/// The key or the value that a word of pairs of hexadecimal digits stands for, where it is one. It is no longer than
/// the word.
pub(crate) fn hex_value_of(alloc: Global, word: &str) -> Result<Option<Bytes>, AllocError>
    ensures read { IfOk result (λ bytes. bytes ≡ W.hex_value_of word.now) }
    ensures short { IfOk result (λ bytes. IfSome bytes (λ b. length b ≤ longest)) }
{
    if !is_short(word) {
        return Ok(None);
    }
    hex_bytes_of(alloc, word.as_bytes())
}

/// The number from `least` to `most` that a word writes, from what it parses as.
fn parsed_number(word: &str, least: u32, most: u32) -> Option<u32>
    ensures read { IfSome result (λ n. W.IsNumber least most word.now n) }
    ensures refused { result ≡ None → (n : ℕ) → W.IsNumber least most word.now n → ⊥ }
{
    if word.len() > LONGEST_NUMBER || word.as_bytes().first() == Some(&b'+') {
        return None;
    }
    match word.parse::<u32>() {
        Ok(number) if least <= number && number <= most => Some(number),
        _ => None,
    }
}

/// The number of chains that a word writes.
pub(crate) fn size_of(word: &str) -> Option<u32>
    ensures { result ≡ W.size_of word.now }
{
    parsed_number(word, 1, MOST_CHAINS)
}

/// The length that a file may have at most, which a word writes.
pub(crate) fn limit_of(word: &str) -> Option<u32>
    ensures read { result ≡ W.limit_of word.now }
    ensures fits { IfSome result (λ n. n ≤ 4294963200) }
{
    parsed_number(word, LEAST_LIMIT, LONGEST_FILE as u32)
}

/// How many commands are to be generated, which a word writes.
pub(crate) fn commands_of(word: &str) -> Option<u32>
    ensures { result ≡ W.commands_of word.now }
{
    parsed_number(word, 0, MOST_COMMANDS)
}

/// The number that commands are made of, which a word writes.
pub(crate) fn seed_of(word: &str) -> Option<u32>
    ensures { result ≡ W.seed_of word.now }
{
    parsed_number(word, 0, u32::MAX)
}
