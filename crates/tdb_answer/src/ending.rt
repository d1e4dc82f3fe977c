// How a run ends: its status and the line that it prints.

ghost use Rattle.std.specs.Prelude.{◌≡◌, ◌⊎◌, ◌++◌, ◌∷◌, [], codes, decimal, false, None, Some, IsTrue, IfOk, IfSome};
ghost use Rattle.tdb_answer.specs.declared.ending.Ending.TheVariants.{Replied, Refused, There, NoMemory};
ghost use Rattle.tdb_answer.specs.declared.ending.Reply.TheVariants.{Copied};
ghost use Rattle.tdb_answer.specs.declared.ending.Ending.{Ending as EndingIs};
ghost use Rattle.tdb_words.specs.What.{what_text};
ghost use Rattle.tdb_answer.specs.Commands.Verify.{tells_fault};
ghost use Rattle.tdb_answer.specs.Ending.{status_of, text_of, TakesMemory, PrintedFor, Prints, of_halt, Untaken, MadeSo};
ghost use Rattle.tdb_answer.specs.Output.{output_by};

use crate::commands::create::Creation;
use itoa::Buffer;
use std::alloc::{AllocError, Global};
use tdb_disk::{Sink, TakeRefusal};
use tdb_dump::{data_line, escape, pair_line};
use tdb_open::{Halt, Refusal};
use tdb_words::{Bytes, What};
use thiserror::Error;

/// The status that the program exits with.
#[derive(Clone, Copy, Debug, PartialEq, Eq)]
pub struct Status(pub u8);

impl Status {
    /// A call of the files or of a disk failed.
    pub const DEVICE_FAULT: Status = Status(4);

    /// Memory was wanting.
    pub const NO_MEMORY: Status = Status(5);

    /// A read of the input failed. The number is that of a failed output.
    pub const INPUT_FAULT: Status = Status(8);

    /// The output failed.
    pub const OUTPUT_FAULT: Status = Status(8);

    /// A log failed.
    pub const LOG_FAULT: Status = Status(10);
}

/// What a command replies over its file.
#[derive(Drop)]
pub enum Reply {
    /// What was asked for was done.
    Done,

    /// The value of the key.
    Value(Bytes),

    /// The value of the key, which is printed without a length.
    Escaped(Bytes),

    /// All was printed that was asked for of a file. No line tells it.
    Dumped,

    /// A file was made of the pairs on the input. No line tells it.
    Restored,

    /// All files were copied. No line tells it.
    Copied,

    /// All files were verified, and it was told how many keys they have. No line tells more.
    Verified,

    /// A file was opened and given back. No line tells it.
    Closed,

    /// All plays of a script were taken, and their report was printed; or all commands of a session, and their replies.
    /// No line tells it.
    Played,

    /// All generated commands were done, and this text tells the summary of that.
    Generated(Bytes),

    /// So many keys.
    Number(u64),

    /// A key and its value.
    Pair { key: Bytes, value: Bytes },

    /// No pair is left.
    End,

    /// The key isn't there.
    KeyMissing,

    /// The key is there, which was to be added.
    KeyThere,

    /// The opener has no transaction.
    NoTransaction,

    /// The file has `len` bytes, and with the `need` bytes of the record it would be longer than it may be.
    Full { len: u64, need: u64 },
}

/// How a run ends.
#[derive(Drop)]
pub enum Ending {
    /// The command replied.
    Replied(Reply),

    /// The file is refused.
    Refused(Refusal),

    /// There is no file of this name.
    Missing(Bytes),

    /// There is a file of this name, which was to be made.
    There(Bytes),

    /// The words ask for nothing.
    Usage,

    /// A call of the files or of a disk failed.
    DeviceFault,

    /// A log failed.
    LogFault,

    /// A read of the input failed.
    InputFault,

    /// The input isn't dump text, or no script, or has a line that is no command, or is too long, from the byte `at`
    /// on.
    Malformed { at: u64 },
    NoMemory,
}

/// What was left to be told where the output failed.
#[derive(Clone, Copy, Debug, PartialEq, Eq, Error)]
pub enum Unprinted {
    /// The rest of what is printed of a file: of its pairs, or of what it holds.
    #[error("pairs aren't printed")]
    Pairs,

    /// The rest of the report of plays, or of the replies of a session.
    #[error("a report isn't printed")]
    Report,

    /// That a call of a disk failed, behind a report.
    #[error("a fault isn't told")]
    Fault,

    /// How many keys the files have that are still to be verified: that isn't known yet. Or that a new file is made of
    /// the pairs of another one: it is removed again.
    #[error("files aren't told")]
    Files,
}

impl From<Halt> for Ending {
    ghost from_gives = { λ halt ending. ending ≡ of_halt halt };

    fn from(halt: Halt) -> Self {
        match halt {
            Halt::Refused { refusal } => Ending::Refused(refusal),
            Halt::Device => Ending::DeviceFault,
            Halt::Memory => Ending::NoMemory,
            Halt::Log => Ending::LogFault,
        }
    }
}

/// What is printed of a file that would be too long.
fn full_line(alloc: Global, len: u64, need: u64) -> Result<Bytes, AllocError>
    ensures { IfOk result (λ text. text ≡ codes "full " ++ decimal len ++ codes " " ++ decimal need) }
{
    let mut number = Buffer::new();
    let mut text = Bytes::copy(alloc, b"full ")?;
    text.push_all(number.format(len).as_bytes())?;
    text.push_all(b" ")?;
    text.push_all(number.format(need).as_bytes())?;
    Ok(text)
}

/// A word, and a text behind it.
fn joined(alloc: Global, word: &[u8], rest: &[u8]) -> Result<Bytes, AllocError>
    ensures { IfOk result (λ text. text ≡ word.now ++ rest.now) }
{
    let mut text = Bytes::copy(alloc, word)?;
    text.push_all(rest)?;
    Ok(text)
}

/// What is printed of a fault at a place.
fn corrupt_line(alloc: Global, what: What, at: u64) -> Result<Bytes, AllocError>
    ensures { IfOk result (λ text. text ≡ codes "corrupt " ++ what_text what ++ codes " " ++ decimal at) }
{
    let mut number = Buffer::new();
    let mut text = joined(alloc, b"corrupt ", what.as_str().as_bytes())?;
    text.push_all(b" ")?;
    text.push_all(number.format(at).as_bytes())?;
    Ok(text)
}

/// What is printed of a file that is refused, without a newline.
fn refusal_line(alloc: Global, refusal: Refusal) -> Result<Bytes, AllocError>
    ensures { IfOk result (λ text. text ++ 10 ∷ [] ≡ text_of (Refused refusal)) }
{
    let mut number = Buffer::new();
    match refusal {
        Refusal::TooLong { len } => joined(alloc, b"toolong ", number.format(len).as_bytes()),
        Refusal::Header { fault } => joined(alloc, b"header ", fault.as_str().as_bytes()),
        Refusal::Corrupt { what, at } => corrupt_line(alloc, what, at),
        Refusal::NeedsRecovery => Bytes::copy(alloc, b"needs recovery"),
    }
}

impl Ending {
    /// The ending where there is a file of a name, which was to be made.
    fn is_there(alloc: Global, name: &str) -> Ending
        ensures { (result ≡ There name.now) ⊎ (result ≡ NoMemory) }
    {
        match Bytes::copy(alloc, name.as_bytes()) {
            Ok(name) => Ending::There(name),
            Err(_) => Ending::NoMemory,
        }
    }

    /// The ending where the file of a name wasn't taken.
    pub(crate) fn untaken(alloc: Global, name: &str, refusal: TakeRefusal) -> Ending
        ensures { Untaken name.now refusal result }
    {
        match refusal {
            TakeRefusal::Missing => match Bytes::copy(alloc, name.as_bytes()) {
                Ok(name) => Ending::Missing(name),
                Err(_) => Ending::NoMemory,
            },
            TakeRefusal::There => Ending::is_there(alloc, name),
            TakeRefusal::Failed => Ending::DeviceFault,
            TakeRefusal::Memory => Ending::NoMemory,
        }
    }

    /// The ending where the file of a name was to be made.
    pub(crate) fn made(alloc: Global, name: &str, creation: Creation) -> Ending
        ensures { MadeSo name.now creation result }
    {
        match creation {
            Creation::Made => Ending::Replied(Reply::Done),
            Creation::There => Ending::is_there(alloc, name),
            Creation::TooLong { len } => Ending::Refused(Refusal::TooLong { len }),
            Creation::Device => Ending::DeviceFault,
            Creation::Memory => Ending::NoMemory,
        }
    }

    /// Whether all files were copied.
    pub(crate) fn is_copied(&self) -> bool
        ensures copied { IsTrue result → self.now ≡ Replied Copied }
        ensures other { result ≡ false → self.now ≡ Replied Copied → ⊥ }
    {
        match self {
            Ending::Replied(Reply::Copied) => true,
            _ => false,
        }
    }

    /// Whether a file is refused for a fault, and not because it is too long.
    pub(crate) fn tells_fault(&self) -> bool
        ensures { result ≡ tells_fault self.now }
    {
        match self {
            Ending::Refused(Refusal::Header { fault: _ } | Refusal::Corrupt { what: _, at: _ }) => {
                true
            }
            _ => false,
        }
    }

    /// The status that tells it.
    pub(crate) fn status(&self) -> Status
        ensures { result.0 ≡ status_of self.now }
    {
        match self {
            Ending::Replied(Reply::Done | Reply::Value(_) | Reply::Escaped(_)) => Status(0),
            Ending::Replied(Reply::Dumped | Reply::Restored) => Status(0),
            Ending::Replied(Reply::Copied | Reply::Verified | Reply::Played) => Status(0),
            Ending::Replied(Reply::Closed) => Status(0),
            Ending::Replied(Reply::Generated(_)) => Status(0),
            Ending::Replied(Reply::Number(_) | Reply::Pair { key: _, value: _ } | Reply::End) =>
                Status(0),
            Ending::Replied(Reply::KeyMissing | Reply::KeyThere | Reply::NoTransaction) => Status(
                1,
            ),
            Ending::Usage => Status(2),
            Ending::Refused(Refusal::Header { fault: _ } | Refusal::Corrupt { what: _, at: _ }) => {
                Status(3)
            }
            Ending::Refused(Refusal::NeedsRecovery) => Status(3),
            Ending::DeviceFault => Status::DEVICE_FAULT,
            Ending::NoMemory => Status::NO_MEMORY,
            Ending::Replied(Reply::Full { len: _, need: _ }) => Status(6),
            Ending::Refused(Refusal::TooLong { len: _ }) => Status(6),
            Ending::Malformed { at: _ } => Status(7),
            Ending::InputFault => Status::INPUT_FAULT,
            Ending::Missing(_) | Ending::There(_) => Status(9),
            Ending::LogFault => Status::LOG_FAULT,
        }
    }

    /// The text that tells it, or nothing where none does, if that is the same in each run or at hand. Else it takes
    /// memory.
    fn ready_text(&self) -> Option<&[u8]>
        ensures ready { IfSome result (λ text. text.now ≡ text_of self.now) }
        ensures other { result ≡ None → TakesMemory self.now }
    {
        match self {
            Ending::Replied(Reply::Done) => Some(b"ok\n"),
            Ending::Replied(Reply::Dumped | Reply::Restored) => Some(b""),
            Ending::Replied(Reply::Copied | Reply::Verified | Reply::Played) => Some(b""),
            Ending::Replied(Reply::Closed) => Some(b""),
            Ending::Replied(Reply::End) => Some(b"end\n"),
            Ending::Replied(Reply::KeyMissing) => Some(b"noexist\n"),
            Ending::Replied(Reply::KeyThere) => Some(b"exists\n"),
            Ending::Replied(Reply::NoTransaction) => Some(b"notransaction\n"),
            Ending::Replied(Reply::Generated(text)) => Some(text.as_slice()),
            Ending::Usage => Some(b"usage: tdb COMMAND [OPTIONS] FILE [WORDS]\n"),
            Ending::Refused(Refusal::NeedsRecovery) => Some(b"needs recovery\n"),
            Ending::DeviceFault => Some(b"device fault\n"),
            Ending::InputFault => Some(b"input fault\n"),
            Ending::LogFault => Some(b"log fault\n"),
            Ending::NoMemory => Some(b"memory\n"),
            _ => None,
        }
    }

    /// The line that tells a value, a number or a name, without a newline.
    fn line(&self, alloc: Global) -> Result<Bytes, AllocError>
        requires { TakesMemory self.now }
        ensures { IfOk result (λ text. text ++ 10 ∷ [] ≡ text_of self.now) }
    {
        match self {
            Ending::Replied(Reply::Value(value)) => data_line(alloc, value.as_slice()),
            Ending::Replied(Reply::Escaped(value)) => escape(alloc, value.as_slice()),
            Ending::Replied(Reply::Number(number)) => {
                joined(alloc, b"number ", Buffer::new().format(*number).as_bytes())
            }
            Ending::Replied(Reply::Pair { key, value }) => {
                pair_line(alloc, key.as_slice(), value.as_slice())
            }
            Ending::Replied(Reply::Full { len, need }) => full_line(alloc, *len, *need),
            Ending::Refused(refusal) => refusal_line(alloc, *refusal),
            Ending::Malformed { at } => {
                let mut number = Buffer::new();
                joined(alloc, b"input malformed at ", number.format(*at).as_bytes())
            }
            Ending::Missing(name) => joined(alloc, b"missing ", name.as_slice()),
            Ending::There(name) => joined(alloc, b"there ", name.as_slice()),
            _ => unreachable!(),
        }
    }

    /// The line that tells a value, a number or a name, with its newline.
    pub(crate) fn text(&self, alloc: Global) -> Result<Bytes, AllocError>
        requires { TakesMemory self.now }
        ensures { IfOk result (λ text. text ≡ text_of self.now) }
    {
        let mut text = self.line(alloc)?;
        text.push_all(b"\n")?;
        Ok(text)
    }
}

/// Writes a line to the output, and says the status: this one, or that of a failed output. No line is no write.
fn put<K: Sink>(output: &mut K, text: &[u8], status: Status) -> Status
    ensures { (e : EndingIs) → text.now ≡ text_of e → status.0 ≡ status_of e
        → Prints (output_by K.tells (K.written output.old) (K.written output.new) (K.faults output.old) (K.faults output.new)) e result.0 }
{
    if text.is_empty() {
        return status;
    }
    match output.write(text) {
        Ok(()) => status,
        Err(_) => Status::OUTPUT_FAULT,
    }
}

/// Prints the line of an ending, and says the run's status. Where there is no memory for a line that takes some, that
/// is what is told.
pub fn print<K: Sink>(alloc: Global, ending: &Ending, output: &mut K) -> Status
    ensures { (e : EndingIs) × PrintedFor e ending.now
        × Prints (output_by K.tells (K.written output.old) (K.written output.new) (K.faults output.old) (K.faults output.new)) e result.0 }
{
    if let Some(text) = ending.ready_text() {
        return put(output, text, ending.status());
    }
    match ending.text(alloc) {
        Ok(text) => put(output, text.as_slice(), ending.status()),
        Err(_) => put(output, b"memory\n", Status::NO_MEMORY),
    }
}
