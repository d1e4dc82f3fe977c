// The lines of a report as text.

ghost use Rattle.std.specs.Prelude.{◌≡◌, ◌≤◌, ◌++◌, ℕ, length, take, decimal, IsTrue, IfOk, OnOk, OnErr, IsErrOf};
ghost use Rattle.tdb_disk.specs.Count.{HasCauseOf};
ghost use Rattle.tdb_script.specs.Text.{spaced, line_text, printed_line};

use crate::reply::{push_counted, push_number, push_numbers, push_turn};
use std::alloc::{AllocError, Global};
use tdb_commands::Line;
use tdb_disk::Sink;
use tdb_dump::WriteRefusal;
use tdb_words::Bytes;

/// Puts an opener's number and a word at the end, with a space between.
fn push_named(text: &mut Bytes, who: u32, word: &[u8]) -> Result<(), AllocError>
    ensures { OnOk result (text.new ≡ text.old ++ spaced (decimal who) word.now) }
{
    push_number(text, u64::from(who))?;
    text.push_all(b" ")?;
    text.push_all(word)
}

/// Puts the text of a line at the end.
fn push_line(alloc: Global, text: &mut Bytes, line: &Line) -> Result<(), AllocError>
    ensures { OnOk result (text.new ≡ text.old ++ line_text line.now) }
{
    match line {
        Line::Joined { who } => push_named(text, *who, b"open"),
        Line::JoinBlocked { owner } => push_counted(text, b"open blocked", u64::from(*owner)),
        Line::JoinMany => text.push_all(b"open many"),
        Line::JoinMemory => text.push_all(b"open memory"),
        Line::Took {
            who,
            command: _,
            turn,
        } => {
            push_number(text, u64::from(*who))?;
            text.push_all(b" ")?;
            push_turn(alloc, text, turn)
        }
        Line::Grew { from, to } => push_numbers(text, b"grew", *from, *to),
        Line::Absent { who } => push_named(text, *who, b"absent"),
        Line::Idle { who } => push_named(text, *who, b"idle"),
        Line::Occupied { who } => push_named(text, *who, b"occupied"),
        Line::LogsLeft { count } => push_counted(text, b"log", *count),
        Line::Unfinished { who } => push_named(text, *who, b"unfinished"),
        Line::Died { who } => push_named(text, *who, b"died"),
        Line::Undone { bytes, to } => push_numbers(text, b"undone", *bytes, *to),
    }
}

/// The text of a line, with its newline.
fn text_of(alloc: Global, line: &Line) -> Result<Bytes, AllocError>
    ensures { IfOk result (λ text. text ≡ printed_line line.now) }
{
    let mut text = Bytes::new(alloc);
    push_line(alloc, &mut text, line)?;
    text.push_all(b"\n")?;
    Ok(text)
}

/// Writes a line of a report and its newline in one call. Where the sink fails a front of it was written, and where
/// memory is wanting nothing was. It takes memory for the text.
pub fn write_line<K: Sink>(alloc: Global, out: &mut K, line: &Line) -> Result<(), WriteRefusal>
    ensures ok { OnOk result (IsTrue K.tells → K.written out.new ≡ K.written out.old ++ printed_line line.now) }
    ensures err { OnErr result (IsTrue K.tells →
        (n : ℕ) × (n ≤ length (printed_line line.now)) × (K.written out.new ≡ K.written out.old ++ take n (printed_line line.now))) }
    ensures cause { HasCauseOf WriteRefusal.Failed (K.faults out.old) (K.faults out.new) result }
    ensures memory { IsErrOf result WriteRefusal.Memory → out.new ≡ out.old }
{
    let text = match text_of(alloc, line) {
        Ok(text) => text,
        Err(_) => return Err(WriteRefusal::Memory),
    };
    match out.write(text.as_slice()) {
        Ok(()) => Ok(()),
        Err(_) => Err(WriteRefusal::Failed),
    }
}
