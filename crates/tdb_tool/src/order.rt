// What the words of a line order.

ghost use Rattle.std.specs.Prelude.{◌≡◌, ◌∷◌, [], false, IfOk};
ghost use Rattle.std.specs.Str.{bytes_eq};
ghost use Rattle.tdb_script.specs.Lines.{words_of};
ghost use Rattle.tdb_tool.specs.Orders.{storehex, ReadsAs, BytesRead};

use crate::rows::{bare_order, key_order, value_order};
use std::alloc::{AllocError, Global};
use tdb_cmdline::hex_bytes_of;
use tdb_commands::Command;
use tdb_dump::{Listing, WordRefusal, word_bytes_of};
use tdb_script::first_word;
use tdb_words::Bytes;

/// What a line orders.
#[derive(Debug, Drop, PartialEq, Eq)]
pub enum Order {
    /// To take a command, and to print its reply.
    Take(Command),
    /// To list all pairs of the file so.
    List(Listing),
    /// To end the session.
    Quit,
}

/// Whether the words behind this one are pairs of hexadecimal digits.
fn is_hex(name: &[u8]) -> bool
    ensures { result ≡ bytes_eq name.now storehex }
{
    name == b"storehex".as_slice()
}

/// The bytes that a word of a command stands for, where it has a reading.
fn word_bytes(alloc: Global, word: &[u8]) -> Result<Option<Bytes>, AllocError>
    ensures { IfOk result (λ bytes. BytesRead false word.now bytes) }
{
    match word_bytes_of(alloc, word) {
        Ok(bytes) => Ok(Some(bytes)),
        Err(WordRefusal::BadEscape { at: _ }) => Ok(None),
        Err(WordRefusal::Memory) => Err(AllocError),
    }
}

/// The key or the value that a word behind this name stands for, where it has a reading.
fn bytes_of(alloc: Global, name: &[u8], word: &[u8]) -> Result<Option<Bytes>, AllocError>
    ensures { IfOk result (λ bytes. BytesRead (bytes_eq name.now storehex) word.now bytes) }
{
    if is_hex(name) {
        hex_bytes_of(alloc, word)
    } else {
        word_bytes(alloc, word)
    }
}

/// What a name and the word behind it order.
fn keyed(alloc: Global, name: &[u8], word: &[u8]) -> Result<Option<Order>, AllocError>
    ensures { IfOk result (λ order. ReadsAs (name.now ∷ word.now ∷ []) order) }
{
    match word_bytes(alloc, word)? {
        Some(key) => Ok(key_order(name, key)),
        None => Ok(None),
    }
}

/// What a name and the two words behind it order.
fn valued(alloc: Global, name: &[u8], word: &[u8], more: &[u8]) -> Result<Option<Order>, AllocError>
    ensures { IfOk result (λ order. ReadsAs (name.now ∷ word.now ∷ more.now ∷ []) order) }
{
    let Some(key) = bytes_of(alloc, name, word)? else {
        return Ok(None);
    };
    let Some(value) = bytes_of(alloc, name, more)? else {
        return Ok(None);
    };
    Ok(value_order(name, key, value))
}

/// What the words of a line order, or nothing where they are no order. Cost: one pass over the line, and a copy of the
/// key and the value.
pub fn read_order(alloc: Global, line: &[u8]) -> Result<Option<Order>, AllocError>
    ensures { IfOk result (λ order. ReadsAs (words_of line.now) order) }
{
    let Some((name, rest)) = first_word(line) else {
        return Ok(None);
    };
    let Some((word, rest)) = first_word(rest) else {
        return Ok(bare_order(name));
    };
    let Some((more, rest)) = first_word(rest) else {
        return keyed(alloc, name, word);
    };
    match first_word(rest) {
        Some(_) => Ok(None),
        None => valued(alloc, name, word, more),
    }
}
