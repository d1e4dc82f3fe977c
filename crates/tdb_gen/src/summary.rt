// What is told of generated commands at their end.

ghost use Rattle.std.specs.Prelude.{◌≡◌, ◌++◌, IfOk, OnOk};
ghost use Rattle.tdb_gen.specs.Summary.{number_line, summary_text};

use crate::counts::Counts;
use itoa::Buffer;
use std::alloc::{AllocError, Global};
use tdb_words::Bytes;

/// What is told of generated commands at their end.
#[derive(Clone, Copy, Debug, PartialEq, Eq)]
pub struct Summary {
    /// How many commands there were.
    pub commands: u32,
    /// Their replies, and the turns that were blocked.
    pub counts: Counts,
    /// How many keys the file has at the end.
    pub live: u64,
    /// The length of the file at the end, in bytes.
    pub length: u64,
}

/// Puts a word and a number with a space between and a newline at the end.
fn push_number(text: &mut Bytes, word: &[u8], number: u64) -> Result<(), AllocError>
    ensures { OnOk result (text.new ≡ text.old ++ number_line word.now number) }
{
    text.push_all(word)?;
    text.push_all(b" ")?;
    text.push_all(Buffer::new().format(number).as_bytes())?;
    text.push_all(b"\n")
}

impl Summary {
    /// The text of the summary: a line for each number, of a word, a space and the number in decimal. It takes memory
    /// for the text, which is shorter than 400 bytes.
    pub fn text(&self, alloc: Global) -> Result<Bytes, AllocError>
        ensures { IfOk result (λ text. text ≡ summary_text self.now) }
    {
        let Counts {
            ok,
            values,
            missing,
            yes,
            no,
            full,
            memory,
            blocked,
        } = self.counts;
        let mut text = Bytes::new(alloc);
        push_number(&mut text, b"commands", u64::from(self.commands))?;
        push_number(&mut text, b"ok", ok)?;
        push_number(&mut text, b"data", values)?;
        push_number(&mut text, b"noexist", missing)?;
        push_number(&mut text, b"yes", yes)?;
        push_number(&mut text, b"no", no)?;
        push_number(&mut text, b"full", full)?;
        push_number(&mut text, b"memory", memory)?;
        push_number(&mut text, b"blocked", blocked)?;
        push_number(&mut text, b"live", self.live)?;
        push_number(&mut text, b"length", self.length)?;
        Ok(text)
    }
}
