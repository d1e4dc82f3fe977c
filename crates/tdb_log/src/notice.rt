// What a log is told.

ghost use Rattle.std.specs.Prelude.{◌≡◌, ◌+◌, ◌≤◌, ◌++◌, codes, decimal, length};
ghost use Rattle.arrayvec.specs.ArrayString.{array_string_len};
ghost use Rattle.tdb_words.specs.What.{what_text};
ghost use Rattle.tdb_log.specs.Texts.{notice_line, spaced};

use arrayvec::ArrayString;
use itoa::Buffer;
use tdb_words::What;

/// What a log is told of a file. Lengths and offsets are in bytes.
#[derive(Clone, Copy, Debug, PartialEq, Eq)]
pub enum Notice {
    /// An open gate was undone: so many bytes were put back.
    Recovered { bytes: u64 },
    /// The whole file was checked and accepted: its live records, and the bytes that no record holds.
    Checked { live: u64, dead_bytes: u64 },
    /// The file was refused for this fault, its first, at this offset.
    Refused { what: What, at: u64 },
    /// The file grew. Both are lengths.
    Grew { from: u64, to: u64 },
    /// The opener died.
    Died { opener: u32 },
}

/// The longest line.
pub(crate) const LONGEST_LINE: usize = 64;

/// Puts a space and a number in decimal at the end.
fn push_number(line: &mut ArrayString<LONGEST_LINE>, number: u64)
    requires { array_string_len line.old + 21 ≤ 64 }
    ensures bytes { line.new.bytes ≡ spaced line.old.bytes (decimal number) }
    ensures len { array_string_len line.new ≤ array_string_len line.old + 21 }
{
    line.push_str(" ");
    line.push_str(Buffer::new().format(number));
}

/// A word and a number.
fn counted(word: &str, number: u64) -> ArrayString<LONGEST_LINE>
    requires { length word.now ≤ 20 }
    ensures bytes { result.bytes ≡ spaced word.now (decimal number) }
    ensures len { array_string_len result ≤ length word.now + 21 }
{
    let mut line = ArrayString::new();
    line.push_str(word);
    push_number(&mut line, number);
    line
}

/// A word and two numbers.
fn counted_twice(word: &str, one: u64, other: u64) -> ArrayString<LONGEST_LINE>
    requires { length word.now ≤ 20 }
    ensures bytes { result.bytes ≡ spaced (spaced word.now (decimal one)) (decimal other) }
    ensures len { array_string_len result ≤ 62 }
{
    let mut line = counted(word, one);
    push_number(&mut line, other);
    line
}

/// The first fault of a file, and its offset.
fn refused(what: What, at: u64) -> ArrayString<LONGEST_LINE>
    ensures bytes { result.bytes ≡ spaced (spaced (codes "refused") (what_text what)) (decimal at) }
    ensures len { array_string_len result ≤ 62 }
{
    let mut line = ArrayString::new();
    line.push_str("refused ");
    line.push_str(what.as_str());
    push_number(&mut line, at);
    line
}

impl Notice {
    /// The words of the line that tells it.
    fn words(&self) -> ArrayString<LONGEST_LINE>
        ensures bytes { result.bytes ++ codes "\n" ≡ notice_line self.now }
        ensures len { array_string_len result ≤ 62 }
    {
        match *self {
            Notice::Recovered { bytes } => counted("recovered", bytes),
            Notice::Checked { live, dead_bytes } => counted_twice("checked", live, dead_bytes),
            Notice::Refused { what, at } => refused(what, at),
            Notice::Grew { from, to } => counted_twice("grew", from, to),
            Notice::Died { opener } => counted("died", u64::from(opener)),
        }
    }

    /// The line that tells it, with a newline at its end.
    pub(crate) fn line(&self) -> ArrayString<LONGEST_LINE>
        ensures { result.bytes ≡ notice_line self.now }
    {
        let mut line = self.words();
        line.push_str("\n");
        line
    }
}
