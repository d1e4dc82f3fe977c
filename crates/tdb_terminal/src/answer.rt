//! What becomes of a line that a person typed.
ghost use Rattle.std.specs.Prelude.{IfOk};
ghost use Rattle.tdb_terminal.specs.Answers.{Answers, IsNoCommand};

use crate::nearest::nearest_to;
use std::alloc::{AllocError, Global};
use tdb_script::{first_word, text_of};
use tdb_tool::read_order;

/// What becomes of a line.
#[derive(Clone, Copy, Debug, PartialEq, Eq)]
pub enum Answer {
    /// It is a command, and handed on as it is.
    Command,

    /// It is short for this command, which is handed on in its place.
    Short(&'static str),

    /// It asks for the page.
    Help,

    /// It begins as this command does, which is written so.
    Miswritten(&'static str),

    /// It begins as no command does. This is the nearest name, where one is near.
    Unknown(Option<&'static str>),
}

/// The command for which a word is short, as users of the stock tool know it.
fn long_form(word: &str) -> Option<&'static str> {
    match word {
        "1" => Some("first"),
        "n" => Some("next"),
        "q" => Some("quit"),
        _ => None,
    }
}

/// The answer to a line that is short for this command.
fn short_for(alloc: Global, line: &[u8], long: &'static str) -> Result<Answer, AllocError>
    requires { IsNoCommand line.now }
    ensures { IfOk result (Answers line.now) }
{
    match read_order(alloc, long.as_bytes())? {
        Some(_) => Ok(Answer::Short(long)),
        None => Ok(Answer::Unknown(None)),
    }
}

/// The answer to a line that is neither a command nor short for one, by its first word.
fn mistake(alloc: Global, line: &[u8], word: &str) -> Result<Answer, AllocError>
    requires { IsNoCommand line.now }
    ensures { IfOk result (Answers line.now) }
{
    match nearest_to(alloc, word)? {
        Some((known, 0)) => Ok(Answer::Miswritten(known.usage)),
        Some((known, _)) => Ok(Answer::Unknown(Some(known.name))),
        None => Ok(Answer::Unknown(None)),
    }
}

/// The answer to a line that is no command.
fn answer_to_other(alloc: Global, line: &[u8]) -> Result<Answer, AllocError>
    requires { IsNoCommand line.now }
    ensures { IfOk result (Answers line.now) }
{
    let Some((first, rest)) = first_word(line) else {
        return short_for(alloc, line, "next");
    };
    let Some(word) = text_of(first) else {
        return Ok(Answer::Unknown(None));
    };
    if word == "help" {
        return Ok(Answer::Help);
    }
    match long_form(word) {
        Some(long) if first_word(rest).is_none() => short_for(alloc, line, long),
        _ => mistake(alloc, line, word),
    }
}

/// What becomes of a line, without its newline. It is a command exactly where the session takes it as one.
pub fn answer_to(alloc: Global, line: &[u8]) -> Result<Answer, AllocError>
    ensures { IfOk result (Answers line.now) }
{
    match read_order(alloc, line)? {
        Some(_) => Ok(Answer::Command),
        None => answer_to_other(alloc, line),
    }
}
