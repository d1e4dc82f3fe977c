//! A source for a session at a terminal.
ghost use Rattle.std.specs.Prelude.{◌≡◌, ◌+◌, ◌≤◌, [], false, length, vec_len};
ghost use Rattle.tdb_disk.specs.Count.{HasCause};

use crate::answer::{Answer, answer_to};
use crate::page::write_page;
use std::alloc::{AllocError, Global};
use tdb_disk::{Sink, Source, SourceFault};
use tdb_script::line_end;
use tdb_tool::LONGEST_LINE;

/// What a person is shown before a line is read.
const PROMPT: &[u8] = b"tdb> ";

/// How much is read at once at most, in bytes.
const PIECE: usize = 65536;

/// What a person is shown before a read, where so many bytes of the line were typed already.
fn shown_before(typed: usize) -> &'static [u8] {
    if typed == 0 { PROMPT } else { b"" }
}

/// How the source is read.
#[derive(Clone, Copy, Debug, PartialEq, Eq)]
enum Mode {
    /// Line for line, each with a prompt and an answer.
    Asking,

    /// As it is, from here on.
    Passing,

    /// Not any more: its end was read.
    Over,
}

/// A source over the lines that a person types. It shows a prompt before a line is read, and hands on only lines that
/// are commands, or commands in the place of their short forms. Of every other line it says what is wrong, and goes on.
/// Lines that are too long for a session are handed on as they are, and so are those for which there is no memory. It
/// tells no content, and its faults are those of the source that it reads. What can't be said is left out.
#[derive(Drop)]
pub struct TerminalSource<S, K> {
    alloc: Global,
    source: S,

    /// Where a person is told.
    pub(crate) told: K,
    mode: Mode,

    /// The rest of a command that is handed on next, in the place of its short form.
    instead: &'static [u8],

    /// What was read and isn't handed on yet.
    typed: Vec<u8>,

    /// How many of those bytes are handed on, from the first on.
    ready: usize,

    ghost within: { ready ≤ vec_len typed },
}

impl<S: Source, K: Sink> TerminalSource<S, K> {
    ghost use Rattle.tdb_terminal.specs.TerminalSource.{source_of};

    /// A source of this mode that has read nothing.
    fn of_mode(alloc: Global, source: S, told: K, mode: Mode) -> TerminalSource<S, K>
        ensures { source_of result ≡ source }
    {
        TerminalSource {
            alloc,
            source,
            told,
            mode,
            instead: b"",
            typed: Vec::new(alloc),
            ready: 0,
        }
    }

    /// The lines of this source for a session, whose person is told here.
    pub fn asking(alloc: Global, source: S, told: K) -> TerminalSource<S, K>
        ensures { source_of result ≡ source }
    {
        TerminalSource::of_mode(alloc, source, told, Mode::Asking)
    }

    /// This source as it is. Nothing is told.
    pub fn passing(alloc: Global, source: S, told: K) -> TerminalSource<S, K>
        ensures { source_of result ≡ source }
    {
        TerminalSource::of_mode(alloc, source, told, Mode::Passing)
    }

    /// The source that is read.
    pub fn source(&self) -> &S
        ensures { result.now ≡ source_of self.now }
    {
        &self.source
    }

    /// Tells a text.
    fn tell(&mut self, text: &[u8])
        ensures source { source_of self.new ≡ source_of self.old }
    {
        let _ = self.told.write(text);
    }

    /// Tells the parts of a line.
    fn tell_parts(&mut self, front: &str, name: &str, back: &str)
        ensures source { source_of self.new ≡ source_of self.old }
    {
        if let Ok(text) = format!(in self.alloc; "{front}{name}{back}") {
            self.tell(text.as_bytes());
        }
    }

    /// Whether there are bytes to be handed on.
    fn is_ready(&self) -> bool
        ensures { result ≡ false → self.now.ready ≡ 0 }
    {
        !self.instead.is_empty() || self.ready > 0
    }

    /// Takes so many bytes from the front of what was typed.
    fn take_front(&mut self, count: usize)
        requires { count ≤ vec_len self.old.typed }
        ensures source { source_of self.new ≡ source_of self.old }
        ensures len { vec_len self.new.typed + count ≡ vec_len self.old.typed }
        ensures ready { self.new.ready ≡ 0 }
    {
        self.ready = 0;
        let _ = self.typed.drain(..count);
    }

    /// Hands on as many bytes as fit.
    fn hand(&mut self, buf: &mut [u8]) -> usize
        ensures within { result ≤ length buf.old }
        ensures source { source_of self.new ≡ source_of self.old }
    {
        if !self.instead.is_empty() {
            let count = self.instead.len().min(buf.len());
            buf[..count].copy_from_slice(&self.instead[..count]);
            self.instead = &self.instead[count..];
            return count;
        }
        let count = self.ready.min(buf.len());
        buf[..count].copy_from_slice(&self.typed[..count]);
        let rest = self.ready - count;
        self.take_front(count);
        self.ready = rest;
        count
    }

    /// Tells what is wrong with a line, or the page.
    fn tell_answer(&mut self, answer: Answer)
        ensures source { source_of self.new ≡ source_of self.old }
    {
        match answer {
            Answer::Command | Answer::Short(_) => {}
            Answer::Help => write_page(self.alloc, &mut self.told),
            Answer::Miswritten(usage) => self.tell_parts("tdb: it is written ", usage, "\n"),
            Answer::Unknown(Some(name)) => self.tell_parts(
                "tdb: no command; did you mean ",
                name,
                "? 'help' lists the commands\n",
            ),
            Answer::Unknown(None) => self.tell(b"tdb: no command; 'help' lists the commands\n"),
        }
    }

    /// Answers the line of this length at the front of what was typed, and its newline, where it has one.
    fn settle(&mut self, len: usize)
        requires { len ≤ vec_len self.old.typed }
        ensures source { source_of self.new ≡ source_of self.old }
    {
        let end = if len < self.typed.len() { len + 1 } else { len };
        match answer_to(self.alloc, &self.typed[..len]) {
            Ok(Answer::Command) | Err(AllocError) => self.ready = end,
            Ok(Answer::Short(long)) => {
                self.take_front(len);
                self.instead = long.as_bytes();
                self.ready = end - len;
            }
            Ok(answer) => {
                self.take_front(end);
                self.tell_answer(answer);
            }
        }
    }

    /// Comes to the end of the source. What was typed before it is the last line.
    fn end(&mut self)
        requires { self.old.ready ≡ 0 }
        ensures source { source_of self.new ≡ source_of self.old }
    {
        self.mode = Mode::Over;
        self.tell(b"\n");
        let len = self.typed.len();
        if len > 0 {
            self.settle(len);
        }
    }

    /// Reads on, behind a prompt where nothing of the line was typed yet.
    fn gather(&mut self) -> Result<(), SourceFault>
        requires { self.old.ready ≡ 0 }
        ensures cause { HasCause (S.faults (source_of self.old)) (S.faults (source_of self.new)) result }
    {
        let len = self.typed.len();
        if len > LONGEST_LINE || self.typed.resize(len + PIECE, 0).is_err() {
            self.mode = Mode::Passing;
            self.ready = len;
            return Ok(());
        }
        let _ = self.told.write(shown_before(len));
        let answer = self.source.read(&mut self.typed[len..]);
        self.typed.truncate(len + answer.unwrap_or(0));
        match answer {
            Ok(0) => {
                self.end();
                Ok(())
            }
            Ok(_) => Ok(()),
            Err(SourceFault) => Err(SourceFault),
        }
    }

    /// Goes on until there are bytes to be handed on, or lines aren't asked for any more.
    fn prepare(&mut self) -> Result<(), SourceFault>
        ensures cause { HasCause (S.faults (source_of self.old)) (S.faults (source_of self.new)) result }
    {
        for _ in 0..u64::MAX {
            if self.mode != Mode::Asking || self.is_ready() {
                break;
            }
            match line_end(&self.typed) {
                Some(len) => self.settle(len),
                None => self.gather()?,
            }
        }
        Ok(())
    }
}

impl<S: Source, K: Sink> Source for TerminalSource<S, K> {
    ghost use Rattle.tdb_terminal.specs.TerminalSource.{source_of};

    ghost tells = { false };

    ghost left = { λ _. [] };

    ghost faults = { λ t. S.faults (source_of t) };

    fn read(&mut self, buf: &mut [u8]) -> Result<usize, SourceFault> {
        self.prepare()?;
        if self.is_ready() {
            return Ok(self.hand(buf));
        }
        match self.mode {
            Mode::Passing => self.source.read(buf),
            Mode::Asking | Mode::Over => Ok(0),
        }
    }
}
