//! The one-line forms of a key and a value.

ghost use Rattle.std.specs.Prelude.{◌≡◌, ◌++◌, length, codes, decimal, IfOk, OnOk};
ghost use Rattle.tdb_dump.specs.Escape.{escaped};
ghost use Rattle.tdb_dump.specs.Line.{key_line, data_line, pair_line, hex_key_line};

use crate::escapes::{push_all_digits, push_all_escaped};
use itoa::Buffer;
use std::alloc::{AllocError, Global};
use tdb_words::Bytes;

/// Puts what stands in front, the number of the bytes, `) = "` and the text of the bytes at the end, without a quote
/// behind it.
pub(crate) fn push_behind(text: &mut Vec<u8>, front: &[u8], bytes: &[u8]) -> Result<(), AllocError>
    ensures { OnOk result (text.new.items ≡ text.old.items ++ front.now ++ decimal (length bytes.now) ++ codes ") = \"" ++ escaped bytes.now) }
{
    text.extend_from_slice(front)?;
    text.extend_from_slice(Buffer::new().format(bytes.len()).as_bytes())?;
    text.extend_from_slice(b") = \"")?;
    push_all_escaped(text, bytes)
}

/// Puts `key(N) = "TEXT"` and a newline at the end.
pub(crate) fn push_key_line(text: &mut Vec<u8>, key: &[u8]) -> Result<(), AllocError>
    ensures { OnOk result (text.new.items ≡ text.old.items ++ key_line key.now ++ codes "\n") }
{
    push_behind(text, b"key(", key)?;
    text.extend_from_slice(b"\"\n")
}

/// Puts `key(N) = HEX` at the end.
pub(crate) fn push_hex_key(text: &mut Vec<u8>, key: &[u8]) -> Result<(), AllocError>
    ensures { OnOk result (text.new.items ≡ text.old.items ++ hex_key_line key.now) }
{
    let mut count = Buffer::new();
    text.extend_from_slice(b"key(")?;
    text.extend_from_slice(count.format(key.len()).as_bytes())?;
    text.extend_from_slice(b") = ")?;
    push_all_digits(text, key)
}

/// `key(N) = "TEXT"`, without a newline: N is the key's length in bytes.
pub fn key_line(alloc: Global, key: &[u8]) -> Result<Bytes, AllocError>
    ensures { IfOk result (λ text. text ≡ key_line key.now) }
{
    let mut text = Vec::new(alloc);
    push_behind(&mut text, b"key(", key)?;
    text.push(b'"')?;
    Ok(Bytes::from(text))
}

/// `data(N) = "TEXT"`, without a newline: N is the value's length in bytes.
pub fn data_line(alloc: Global, value: &[u8]) -> Result<Bytes, AllocError>
    ensures { IfOk result (λ text. text ≡ data_line value.now) }
{
    let mut text = Vec::new(alloc);
    push_behind(&mut text, b"data(", value)?;
    text.push(b'"')?;
    Ok(Bytes::from(text))
}

/// `key(N) = "TEXT" data(N) = "TEXT"`, without a newline.
pub fn pair_line(alloc: Global, key: &[u8], value: &[u8]) -> Result<Bytes, AllocError>
    ensures { IfOk result (λ text. text ≡ pair_line key.now value.now) }
{
    let mut text = Vec::new(alloc);
    push_behind(&mut text, b"key(", key)?;
    push_behind(&mut text, b"\" data(", value)?;
    text.push(b'"')?;
    Ok(Bytes::from(text))
}
