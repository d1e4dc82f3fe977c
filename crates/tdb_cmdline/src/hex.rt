// Words of pairs of hexadecimal digits.

ghost use Rattle.std.specs.Prelude.{◌≡◌, ◌≤◌, length, IfOk, IfSome};
ghost use Rattle.tdb_cmdline.specs.Hex.{byte_in_front, hex_pairs, hex_bytes};

use std::alloc::{AllocError, Global};
use tdb_dump::hex_value;
use tdb_words::Bytes;

/// The byte that the two digits in front write.
fn first_byte(digits: &[u8]) -> Option<u8>
    ensures byte { result ≡ byte_in_front digits.now }
    ensures two { IfSome result (λ byte. 2 ≤ length digits.now) }
{
    if digits.len() < 2 {
        return None;
    }
    match (hex_value(digits[0]), hex_value(digits[1])) {
        (Some(high), Some(low)) => Some(16 * high + low),
        _ => None,
    }
}

/// The bytes that pairs of digits write.
fn pairs_of(alloc: Global, digits: &[u8]) -> Result<Option<Bytes>, AllocError>
    ensures { IfOk result (λ bytes. bytes ≡ hex_pairs digits.now) }
{
    let mut bytes = Vec::with_capacity(alloc, digits.len() / 2)?;
    let mut left = digits;
    while !left.is_empty() {
        let Some(byte) = first_byte(left) else {
            return Ok(None);
        };
        bytes.push(byte)?;
        left = &left[2..];
    }
    Ok(Some(Bytes::from(bytes)))
}

/// The bytes that a word of pairs of hexadecimal digits stands for, where it is one. The two characters `""` are none.
/// They are no more than those of the word.
pub fn hex_bytes_of(alloc: Global, word: &[u8]) -> Result<Option<Bytes>, AllocError>
    ensures read { IfOk result (λ bytes. bytes ≡ hex_bytes word.now) }
    ensures short { IfOk result (λ bytes. IfSome bytes (λ b. length b ≤ length word.now)) }
{
    if word == b"\"\"".as_slice() {
        return Ok(Some(Bytes::new(alloc)));
    }
    pairs_of(alloc, word)
}
