// What is printed of the replies that a report tells.

ghost use Rattle.std.specs.Prelude.{◌≡◌, ◌++◌, [], OnOk, OnErr};
ghost use Rattle.tdb_tool.specs.Replies.{printed_reply, told_as, line_text, lines_text, tells_pair, tell_pair};

use std::alloc::{AllocError, Global};
use tdb_commands::{Line, TurnReport};
use tdb_dump::Listing;
use tdb_locks::{Reply, Turn};
use tdb_script::text_of_reply;
use tdb_words::Bytes;

/// Puts bytes at the end of a text. They aren't copied where the text is empty.
fn append(text: &mut Vec<u8>, more: Bytes) -> Result<(), AllocError>
    ensures { OnOk result (text.new.items ≡ text.old.items ++ more) }
{
    if text.is_empty() {
        *text = more.into_vec();
        return Ok(());
    }
    text.extend_from_slice(more.as_slice())
}

/// Puts the text of a reply and a newline at the end of a text.
fn push_printed(alloc: Global, text: &mut Vec<u8>, reply: &Reply) -> Result<(), AllocError>
    ensures { OnOk result (text.new.items ≡ text.old.items ++ printed_reply reply.now) }
{
    append(text, text_of_reply(alloc, reply)?)?;
    text.extend_from_slice(b"\n")
}

/// Puts what is printed of a reply, where pairs are listed so or aren't, at the end of a text.
fn push_reply(
    alloc: Global,
    text: &mut Vec<u8>,
    reply: &Reply,
    listing: Option<Listing>,
) -> Result<(), AllocError>
    ensures { OnOk result (text.new.items ≡ text.old.items ++ told_as listing reply.now) }
{
    match (reply, listing) {
        (Reply::Pair(key, value), Some(listing)) => {
            listing.push(text, key.as_slice(), value.as_slice())
        }
        (Reply::End, Some(_)) => Ok(()),
        _ => push_printed(alloc, text, reply),
    }
}

/// Puts what is printed of the reply that a line tells, if it tells one, at the end of a text.
fn push_line(
    alloc: Global,
    text: &mut Vec<u8>,
    line: &Line,
    listing: Option<Listing>,
) -> Result<(), AllocError>
    ensures { OnOk result (text.new.items ≡ text.old.items ++ line_text listing line.now) }
{
    match line {
        Line::Took {
            turn: Turn::Done(reply),
            ..
        } => push_reply(alloc, text, reply, listing),
        _ => Ok(()),
    }
}

/// Puts what is printed of the replies that a report tells at the end of a text.
fn push_lines(
    alloc: Global,
    text: &mut Vec<u8>,
    report: &TurnReport,
    listing: Option<Listing>,
) -> Result<(), AllocError>
    ensures { OnOk result (text.new.items ≡ text.old.items ++ lines_text listing report.now.lines) }
{
    for i in 0..report.len() {
        let Some(line) = report.get(i) else {
            unreachable!();
        };
        push_line(alloc, text, line, listing)?;
    }
    Ok(())
}

/// Puts what is printed of the replies that a report tells at the end of a text: the text of each and a newline; but
/// where pairs are listed what a list writes of a pair, and nothing of the end. Where memory is wanting the text is
/// emptied.
pub(crate) fn push_replies(
    alloc: Global,
    text: &mut Vec<u8>,
    report: &TurnReport,
    listing: Option<Listing>,
) -> Result<(), AllocError>
    ensures whole { OnOk result (text.new.items ≡ text.old.items ++ lines_text listing report.now.lines) }
    ensures emptied { OnErr result (text.new.items ≡ []) }
{
    match push_lines(alloc, text, report, listing) {
        Ok(()) => Ok(()),
        Err(AllocError) => {
            text.clear();
            Err(AllocError)
        }
    }
}

/// Whether a line tells a pair.
fn is_pair(line: &Line) -> bool
    ensures { result ≡ tells_pair line.now }
{
    match line {
        Line::Took {
            turn: Turn::Done(Reply::Pair(_, _)),
            ..
        } => true,
        _ => false,
    }
}

/// Whether a report tells a pair.
pub(crate) fn has_pair(report: &TurnReport) -> bool
    ensures { result ≡ tell_pair report.now.lines }
{
    for i in 0..report.len() {
        let Some(line) = report.get(i) else {
            unreachable!();
        };
        if is_pair(line) {
            return true;
        }
    }
    false
}
