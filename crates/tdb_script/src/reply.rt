// The texts of replies and turns.

ghost use Rattle.std.specs.Prelude.{◌≡◌, ◌++◌, decimal, IfOk, OnOk};
ghost use Rattle.tdb_dump.specs.Line.{data_line, pair_line};
ghost use Rattle.tdb_script.specs.Text.{spaced, reply_text, turn_text};

use itoa::Buffer;
use std::alloc::{AllocError, Global};
use tdb_dump::{data_line, pair_line};
use tdb_locks::{Reply, Turn};
use tdb_words::Bytes;

/// Puts a number in decimal at the end.
pub(crate) fn push_number(text: &mut Bytes, number: u64) -> Result<(), AllocError>
    ensures { OnOk result (text.new ≡ text.old ++ decimal number) }
{
    text.push_all(Buffer::new().format(number).as_bytes())
}

/// Puts a word and two numbers at the end, with spaces between.
pub(crate) fn push_numbers(
    text: &mut Bytes,
    word: &[u8],
    one: u64,
    other: u64,
) -> Result<(), AllocError>
    ensures { OnOk result (text.new ≡ text.old ++ spaced word.now (spaced (decimal one) (decimal other))) }
{
    text.push_all(word)?;
    text.push_all(b" ")?;
    push_number(text, one)?;
    text.push_all(b" ")?;
    push_number(text, other)
}

/// Puts a word and a number at the end, with a space between.
pub(crate) fn push_counted(text: &mut Bytes, word: &[u8], number: u64) -> Result<(), AllocError>
    ensures { OnOk result (text.new ≡ text.old ++ spaced word.now (decimal number)) }
{
    text.push_all(word)?;
    text.push_all(b" ")?;
    push_number(text, number)
}

/// Puts `data(N) = "TEXT"` at the end.
fn push_value(alloc: Global, text: &mut Bytes, value: &[u8]) -> Result<(), AllocError>
    ensures { OnOk result (text.new ≡ text.old ++ data_line value.now) }
{
    text.push_all(data_line(alloc, value)?.as_slice())
}

/// Puts `key(N) = "TEXT" data(M) = "TEXT"` at the end.
fn push_pair(alloc: Global, text: &mut Bytes, key: &[u8], value: &[u8]) -> Result<(), AllocError>
    ensures { OnOk result (text.new ≡ text.old ++ pair_line key.now value.now) }
{
    text.push_all(pair_line(alloc, key, value)?.as_slice())
}

/// Puts the text of a reply at the end.
pub(crate) fn push_reply(alloc: Global, text: &mut Bytes, reply: &Reply) -> Result<(), AllocError>
    ensures { OnOk result (text.new ≡ text.old ++ reply_text reply.now) }
{
    match reply {
        Reply::Ok => text.push_all(b"ok"),
        Reply::Value(value) => push_value(alloc, text, value.as_slice()),
        Reply::Pair(key, value) => push_pair(alloc, text, key.as_slice(), value.as_slice()),
        Reply::End => text.push_all(b"end"),
        Reply::KeyMissing => text.push_all(b"noexist"),
        Reply::KeyThere => text.push_all(b"exists"),
        Reply::Busy { owner, byte } => push_numbers(text, b"busy", u64::from(*owner), *byte),
        Reply::ReadOnly => text.push_all(b"rdonly"),
        Reply::NoTransaction => text.push_all(b"notransaction"),
        Reply::InTransaction => text.push_all(b"intransaction"),
        Reply::Nesting => text.push_all(b"nesting"),
        Reply::Doomed => text.push_all(b"doomed"),
        Reply::HeldLocks { count } => push_counted(text, b"held", *count),
        Reply::NotLocked => text.push_all(b"notlocked"),
        Reply::Full { len, need } => push_numbers(text, b"full", *len, *need),
        Reply::Memory => text.push_all(b"memory"),
        Reply::Yes => text.push_all(b"yes"),
        Reply::No => text.push_all(b"no"),
        Reply::Number(number) => push_counted(text, b"number", *number),
    }
}

/// Puts what a turn led to at the end.
pub(crate) fn push_turn(alloc: Global, text: &mut Bytes, turn: &Turn) -> Result<(), AllocError>
    ensures { OnOk result (text.new ≡ text.old ++ turn_text turn.now) }
{
    match turn {
        Turn::Step => text.push_all(b"step"),
        Turn::Blocked { owner, byte } => push_numbers(text, b"blocked", u64::from(*owner), *byte),
        Turn::Done(reply) => {
            text.push_all(b"done ")?;
            push_reply(alloc, text, reply)
        }
    }
}

/// What a reply is printed as, without a newline. It takes memory for the text.
pub fn text_of_reply(alloc: Global, reply: &Reply) -> Result<Bytes, AllocError>
    ensures { IfOk result (λ text. text ≡ reply_text reply.now) }
{
    let mut text = Bytes::new(alloc);
    push_reply(alloc, &mut text, reply)?;
    Ok(text)
}
