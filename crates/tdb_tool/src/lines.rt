// The lines of a source, which is read in pieces.

ghost use Rattle.std.specs.Prelude.{◌≡◌, ◌↔◌, ◌+◌, ◌<◌, ◌≤◌, ◌++◌, ◌∷◌, [], ℕ, List, true, false, length, vec_len, Ok, Err, IsTrue, IfOk, IfErr, OnOk, MatchOption};
ghost use Rattle.tdb_disk.specs.Count.{HasCause, HasCauseOf};
ghost use Rattle.tdb_script.specs.Lines.{lines_of};
ghost use Rattle.tdb_tool.specs.declared.limits.TheConstants.{LONGEST_LINE as LONGEST};
ghost use Rattle.tdb_tool.specs.declared.lines.LineFault.TheVariants as FaultIs;
ghost use Rattle.tdb_tool.specs.Asking.{Fits};
ghost use Rattle.tdb_tool.specs.Lines.{IsBare, NeedsNoMore, unread, lines_left, IsFresh, MovedOn, FirstLine};

use crate::limits::{LONGEST_LINE, LONGEST_SESSION};
use crate::reader::LineReader;
use std::alloc::{AllocError, Global};
use tdb_disk::{Source, SourceFault};
use tdb_script::line_end;
use tdb_words::Bytes;

/// How much of a source is read at once at most, in bytes.
const PIECE: usize = 65536;

/// Why there is no next line.
#[derive(Clone, Copy)]
pub(crate) enum LineFault {
    /// A read of the source failed.
    Input,
    /// The line or the whole text is too long.
    TooLong,
    Memory,
}

impl From<SourceFault> for LineFault {
    ghost from_gives = { λ _ e. e ≡ FaultIs.Input };

    fn from(_: SourceFault) -> Self {
        LineFault::Input
    }
}

impl From<AllocError> for LineFault {
    ghost from_gives = { λ _ e. e ≡ FaultIs.Memory };

    fn from(_: AllocError) -> Self {
        LineFault::Memory
    }
}

impl LineReader {
    /// A reader that has read nothing.
    pub(crate) fn new(alloc: Global) -> Result<LineReader, AllocError>
        ensures { IfOk result (λ reader. IsFresh reader) }
    {
        Ok(LineReader {
            alloc,
            piece: vec![in alloc; 0u8; PIECE]?,
            start: 0,
            end: 0,
            at: 0,
            over: false,
        })
    }

    /// Moves the bytes at hand, up to the first newline, to the end of a line. Answers whether it was there.
    fn take_front(&mut self, line: &mut Bytes) -> Result<bool, AllocError>
        ensures moved { IfOk result (λ found. MovedOn self.old self.new line.old line.new found) }
        ensures len { OnOk result (length line.new ≤ length line.old + 65536) }
        ensures place { self.new.at ≡ self.old.at }
        ensures over { self.new.over ≡ self.old.over }
    {
        let left = &self.piece[self.start..self.end];
        match line_end(left) {
            Some(end) => {
                line.push_all(&left[..end])?;
                self.start += end + 1;
                Ok(true)
            }
            None => {
                line.push_all(left)?;
                self.start = self.end;
                Ok(false)
            }
        }
    }

    /// Reads the next piece, where no byte is at hand. False where the source is at its end.
    fn refill<S: Source>(&mut self, input: &mut S) -> Result<bool, SourceFault>
        requires used { self.old.start ≡ self.old.end }
        ensures bytes { OnOk result (IsTrue S.tells → S.left input.old ≡ unread self.new ++ S.left input.new) }
        ensures some { result ≡ Ok true → self.new.start < self.new.end }
        ensures none { result ≡ Ok false → self.new.start ≡ self.new.end }
        ensures end { result ≡ Ok false → IsTrue S.tells → S.left input.new ≡ [] }
        ensures place { self.new.at ≡ self.old.at }
        ensures over { self.new.over ≡ self.old.over }
        ensures cause { HasCause (S.faults input.old) (S.faults input.new) result }
    {
        let count = input.read(&mut self.piece)?;
        self.start = 0;
        self.end = count;
        Ok(count > 0)
    }

    /// Reads a line up to its newline or the end of the source, or so far that it is too long.
    fn read_line<S: Source>(&mut self, input: &mut S, line: &mut Bytes) -> Result<(), LineFault>
        requires empty { line.old ≡ [] }
        requires more { self.old.over ≡ false }
        ensures first { OnOk result (IsTrue S.tells → FirstLine (unread self.old ++ S.left input.old) line.new (lines_left self.new (S.left input.new))) }
        ensures no_sooner { NeedsNoMore self.old → input.new ≡ input.old }
        ensures len { OnOk result (length line.new ≤ LONGEST + 65536) }
        ensures place { self.new.at ≡ self.old.at }
        ensures fault { IfErr result (λ e. e ≡ FaultIs.TooLong → ⊥) }
        ensures cause { HasCauseOf FaultIs.Input (S.faults input.old) (S.faults input.new) result }
    {
        while line.len() <= LONGEST_LINE {
            if self.take_front(line)? {
                return Ok(());
            }
            if !self.refill(input)? {
                self.over = true;
                return Ok(());
            }
        }
        Ok(())
    }

    /// Whether a line isn't too long.
    fn fits(&self, line: &Bytes) -> bool
        requires { length line.now ≤ LONGEST + 65536 }
        ensures { IsTrue result ↔ Fits self.now.at line.now }
    {
        line.len() <= LONGEST_LINE && self.at + (line.len() as u64) < LONGEST_SESSION
    }

    /// The next line, without its newline, or none behind the last one. Its bytes are copied once. Where the line is at
    /// hand with its newline, nothing is read: who waits for the answer to it before the next line isn't kept waiting.
    pub(crate) fn next_line<S: Source>(&mut self, input: &mut S) -> Result<Option<Bytes>, LineFault>
        ensures next { let before = lines_left self.old (S.left input.old) in let after = lines_left self.new (S.left input.new) in
            IfOk result (λ next. MatchOption next (IsTrue S.tells → before ≡ [])
            (λ line. (IsTrue S.tells → before ≡ line ∷ after) × Fits self.old.at line × (self.new.at ≡ self.old.at + length line + 1))) }
        ensures long { IfErr result (λ e. e ≡ FaultIs.TooLong → IsTrue S.tells →
            (line : List ℕ) × (rest : List (List ℕ)) × (lines_left self.old (S.left input.old) ≡ line ∷ rest) × (Fits self.old.at line → ⊥)) }
        ensures no_sooner { NeedsNoMore self.old → input.new ≡ input.old }
        ensures cause { HasCauseOf FaultIs.Input (S.faults input.old) (S.faults input.new) result }
    {
        if self.over {
            return Ok(None);
        }
        let mut line = Bytes::new(self.alloc);
        self.read_line(input, &mut line)?;
        if !self.fits(&line) {
            return Err(LineFault::TooLong);
        }
        self.at += line.len() as u64 + 1;
        Ok(Some(line))
    }
}
