//! Escapes: how a byte stands in a text.

ghost use Rattle.std.specs.Prelude.{◌≡◌, ◌+◌, ◌++◌, ◌<◌, ◌≤◌, [], ◌∷◌, true, length, take, IfOk, OnOk, IfSome};
ghost use Rattle.tdb_dump.specs.Escape.{is_plain, upper_digit, hex_byte, hex, escaped_byte, escaped, hex_value};

use std::alloc::{AllocError, Global};
use tdb_words::Bytes;

/// How many bytes are put at the end of a text at once: their text is at most three times as long.
const RUN: usize = 64;

/// Whether a byte stands as it is: 0x20 to 0x7E, other than `"` and `\`.
#[tactic(auto, unfolding(crate::specs::Escape::is_plain))]
pub(crate) fn is_plain(byte: u8) -> bool
    ensures { result ≡ is_plain byte }
{
    32 <= byte && byte <= 126 && byte != b'"' && byte != b'\\'
}

/// A hexadecimal digit in upper case.
fn upper_digit(value: u8) -> u8
    requires { value < 16 }
    ensures { result ≡ upper_digit value }
{
    if value < 10 {
        b'0' + value
    } else {
        b'A' - 10 + value
    }
}

/// What a hexadecimal digit of either case stands for.
#[tactic(auto, unfolding(crate::specs::Escape::hex_value))]
pub fn hex_value(digit: u8) -> Option<u8>
    ensures value { result ≡ hex_value digit }
    ensures small { IfSome result (λ v. v < 16) }
{
    match digit {
        b'0'..=b'9' => Some(digit - b'0'),
        b'A'..=b'F' => Some(digit - b'A' + 10),
        b'a'..=b'f' => Some(digit - b'a' + 10),
        _ => None,
    }
}

/// Puts the two digits of one byte at the end.
fn push_digits(text: &mut Vec<u8>, byte: u8) -> Result<(), AllocError>
    ensures { OnOk result (text.new.items ≡ text.old.items ++ hex_byte byte) }
{
    text.extend_from_slice(&[upper_digit(byte / 16), upper_digit(byte % 16)])
}

/// Puts the bytes at the end as hexadecimal digits in upper case, two for each.
pub(crate) fn push_all_digits(text: &mut Vec<u8>, bytes: &[u8]) -> Result<(), AllocError>
    ensures { OnOk result (text.new.items ≡ text.old.items ++ hex bytes.now) }
{
    for byte in bytes {
        push_digits(text, *byte)?;
    }
    Ok(())
}

/// Whether all the bytes stand as they are. It looks at each of them and doesn't stop at one that doesn't, so that one
/// instruction looks at several.
fn are_plain(bytes: &[u8]) -> bool
    ensures { result ≡ true → escaped bytes.now ≡ bytes.now }
{
    let mut plain = true;
    for byte in bytes {
        plain = is_plain(*byte) & plain;
    }
    plain
}

/// Writes the text of one byte into a block behind its first `end` bytes, and says where it ends. It writes three bytes
/// in any case, so that no branch depends on the byte.
#[tactic(auto, unfolding(crate::specs::Escape::escaped_byte))]
fn write_escaped(block: &mut [u8], end: usize, byte: u8) -> usize
    requires { end + 3 ≤ length block.old }
    ensures text { take result block.new ≡ take end block.old ++ escaped_byte byte }
    ensures short { result ≤ end + 3 }
{
    let plain = is_plain(byte);
    block[end] = if plain { byte } else { b'\\' };
    block[end + 1] = upper_digit(byte / 16);
    block[end + 2] = upper_digit(byte % 16);
    end + 3 - 2 * plain as usize
}

/// Puts the text of the bytes of a run at the end. It's gathered first, and put there at once.
fn push_gathered(text: &mut Vec<u8>, bytes: &[u8]) -> Result<(), AllocError>
    requires { length bytes.now ≤ RUN }
    ensures { OnOk result (text.new.items ≡ text.old.items ++ escaped bytes.now) }
{
    let mut block = [0; 3 * RUN];
    let mut end = 0;
    for byte in bytes {
        end = write_escaped(&mut block, end, *byte);
    }
    text.extend_from_slice(&block[..end])
}

/// Puts the text of the first bytes at the end, of a run or of all that there are, and says how many they are.
fn push_run(text: &mut Vec<u8>, bytes: &[u8]) -> Result<usize, AllocError>
    requires some { 0 < length bytes.now }
    ensures more { IfOk result (λ count. (0 < count) × (count ≤ length bytes.now)) }
    ensures text { IfOk result (λ count. text.new.items ≡ text.old.items ++ escaped (take count bytes.now)) }
{
    let count = bytes.len().min(RUN);
    let run = &bytes[..count];
    if are_plain(run) {
        text.extend_from_slice(run)?;
    } else {
        push_gathered(text, run)?;
    }
    Ok(count)
}

/// Puts the text of the bytes at the end.
pub(crate) fn push_all_escaped(text: &mut Vec<u8>, bytes: &[u8]) -> Result<(), AllocError>
    ensures { OnOk result (text.new.items ≡ text.old.items ++ escaped bytes.now) }
{
    let mut done = 0;
    while done < bytes.len() {
        done += push_run(text, &bytes[done..])?;
    }
    Ok(())
}

/// The text of the bytes: what isn't plain is `\` and two hexadecimal digits in upper case.
pub fn escape(alloc: Global, bytes: &[u8]) -> Result<Bytes, AllocError>
    ensures { IfOk result (λ text. text ≡ escaped bytes.now) }
{
    let mut text = Vec::with_capacity(alloc, bytes.len())?;
    push_all_escaped(&mut text, bytes)?;
    Ok(Bytes::from(text))
}
