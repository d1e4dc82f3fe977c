//! The record at hand of a dump text that comes in pieces.

ghost use Rattle.std.specs.Prelude.{◌≡◌, ℕ, ◌+◌, ◌*◌, ◌^◌, ◌<◌, ◌≤◌, ◌⊎◌, ◌↔◌, [], ◌∷◌, length, take, slice_index, true, IsTrue, IfOk, OnOk, OnErr, MatchOption};
ghost use Rattle.tdb_dump.specs.Escape.{is_plain};
ghost use Rattle.tdb_dump.specs.Expected.{at_step, Moves, moved, taken_of, with_bytes, TakesByte, LeadsAll};

use crate::escapes::{hex_value, is_plain};
use crate::pairs::Pair;
use std::alloc::{AllocError, Global};
use std::mem;
use tdb_words::Bytes;

/// A field of a record.
#[derive(Clone, Copy)]
pub(crate) enum Field {
    Key,
    Data,
}

/// What comes behind the fixed bytes.
#[derive(Clone, Copy, PartialEq, Eq)]
pub(crate) enum Step {
    /// A record, or the end of the text.
    Between,
    /// The rest of a count, and a parenthesis. The number is that of the digits so far.
    Count(Option<u32>),
    /// Letters for so many bytes, and a quote.
    Text(u32),
    /// The two digits of an escape, and letters for so many bytes.
    Escape(u32),
    /// The second digit of an escape, behind letters for so many bytes and the first digit.
    SecondDigit(u32, u8),
    /// The newline that ends the record.
    Close,
}

/// What a byte does.
#[derive(Clone, Copy)]
pub(crate) enum Move {
    /// No text goes on with this byte.
    Refuse,
    /// A record begins.
    Open,
    /// Another step of the field comes.
    Go(Step),
    /// A byte of the field came, and another step comes.
    Put(u8, Step),
    /// The count ends, and the letters for so many bytes begin behind a quote.
    StartText(u32),
    /// The quote that ends a field came.
    EndField,
    /// The record is whole.
    Whole,
}

/// The count with one digit more, where it has no leading zero and fits.
fn more_digits(count: u32, digit: u8) -> Option<u32>
    requires { digit < 10 }
    ensures { MatchOption result ((count ≡ 0) ⊎ (2 ^ 32 ≤ 10 * count + digit)) (λ n. (0 < count) × (n ≡ 10 * count + digit)) }
{
    if count == 0 {
        return None;
    }
    let tens = count.checked_mul(10)?;
    tens.checked_add(u32::from(digit))
}

/// What a byte does in a count.
fn count_move(count: Option<u32>, field: Field, byte: u8) -> Move
    ensures { Moves (Step.Count count) field byte result }
{
    if byte < b'0' || byte > b'9' {
        return match count {
            Some(n) if byte == b')' => Move::StartText(n),
            _ => Move::Refuse,
        };
    }
    let digit = byte - b'0';
    match count {
        None => Move::Go(Step::Count(Some(u32::from(digit)))),
        Some(n) => match more_digits(n, digit) {
            Some(m) => Move::Go(Step::Count(Some(m))),
            None => Move::Refuse,
        },
    }
}

/// What a byte does where letters for so many bytes, and a quote, are to come.
fn text_move(left: u32, field: Field, byte: u8) -> Move
    ensures { Moves (Step.Text left) field byte result }
{
    if left == 0 {
        return if byte == b'"' {
            Move::EndField
        } else {
            Move::Refuse
        };
    }
    if is_plain(byte) {
        Move::Put(byte, Step::Text(left - 1))
    } else if byte == b'\\' {
        Move::Go(Step::Escape(left - 1))
    } else {
        Move::Refuse
    }
}

/// What the second digit of an escape does.
fn second_digit_move(left: u32, first: u8, field: Field, byte: u8) -> Move
    ensures { Moves (Step.SecondDigit left first) field byte result }
{
    match (hex_value(first), hex_value(byte)) {
        (Some(high), Some(low)) => Move::Put(16 * high + low, Step::Text(left)),
        _ => Move::Refuse,
    }
}

/// What a byte does at a step.
fn next_move(step: Step, field: Field, byte: u8) -> Move
    ensures { Moves step field byte result }
{
    match step {
        Step::Between if byte == b'{' => Move::Open,
        Step::Between => Move::Refuse,
        Step::Count(count) => count_move(count, field, byte),
        Step::Text(left) => text_move(left, field, byte),
        Step::Escape(left) => match hex_value(byte) {
            Some(_) => Move::Go(Step::SecondDigit(left, byte)),
            None => Move::Refuse,
        },
        Step::SecondDigit(left, first) => second_digit_move(left, first, field, byte),
        Step::Close if byte == b'\n' => Move::Whole,
        Step::Close => Move::Refuse,
    }
}

/// What has come of the record at hand.
#[derive(Clone, Copy)]
pub(crate) enum Taken {
    /// A byte more of it.
    More,
    /// Its last byte.
    Ended,
    /// A byte that doesn't belong there.
    Refused,
}

/// The record at hand: fixed bytes that must come, the step behind them, and the bytes that came.
#[derive(Drop)]
pub(crate) struct Partial {
    fixed: &'static [u8],
    step: Step,
    field: Field,
    key: Vec<u8>,
    value: Vec<u8>,
}

impl Partial {
    ghost use Rattle.tdb_dump.specs.Partial.{state_of};

    /// Nothing of a record.
    pub(crate) fn new(alloc: Global) -> Self
        ensures { state_of result ≡ at_step Step.Between Field.Key [] [] }
    {
        Partial {
            fixed: b"",
            step: Step::Between,
            field: Field::Key,
            key: Vec::new(alloc),
            value: Vec::new(alloc),
        }
    }

    /// Whether nothing of a record has come.
    pub(crate) fn is_between(&self) -> bool
        ensures { IsTrue result ↔ ((state_of self.now).step ≡ Step.Between) }
    {
        self.step == Step::Between
    }

    /// Puts bytes at the end of the field.
    fn put(&mut self, bytes: &[u8]) -> Result<(), AllocError>
        ensures ok { OnOk result (state_of self.new ≡ with_bytes (state_of self.old) bytes.now) }
        ensures err { OnErr result (state_of self.new ≡ state_of self.old) }
    {
        match self.field {
            Field::Key => self.key.extend_from_slice(bytes),
            Field::Data => self.value.extend_from_slice(bytes),
        }
    }

    /// Makes a move.
    fn make(&mut self, next: Move) -> Result<Taken, AllocError>
        ensures state { OnOk result (state_of self.new ≡ moved next (state_of self.old)) }
        ensures taken { IfOk result (λ taken. taken ≡ taken_of next) }
        ensures err { OnErr result (state_of self.new ≡ state_of self.old) }
    {
        match next {
            Move::Refuse => return Ok(Taken::Refused),
            Move::Open => {
                self.key.clear();
                self.value.clear();
                self.fixed = b"\nkey(";
                self.step = Step::Count(None);
                self.field = Field::Key;
            }
            Move::Go(step) => self.step = step,
            Move::Put(byte, step) => {
                self.put(&[byte])?;
                self.step = step;
            }
            Move::StartText(left) => {
                self.fixed = b" = \"";
                self.step = Step::Text(left);
            }
            Move::EndField => self.end_field(),
            Move::Whole => return Ok(Taken::Ended),
        }
        Ok(Taken::More)
    }

    /// Goes on behind the quote that ends a field.
    fn end_field(&mut self)
        ensures { state_of self.new ≡ moved Move.EndField (state_of self.old) }
    {
        match self.field {
            Field::Key => {
                self.fixed = b"\ndata(";
                self.step = Step::Count(None);
                self.field = Field::Data;
            }
            Field::Data => {
                self.fixed = b"\n}";
                self.step = Step::Close;
            }
        }
    }

    /// Takes one byte, or where memory is wanting nothing.
    pub(crate) fn take_byte(&mut self, byte: u8) -> Result<Taken, AllocError>
        ensures ok { IfOk result (λ taken. TakesByte (state_of self.old) byte (state_of self.new) taken) }
        ensures err { OnErr result (state_of self.new ≡ state_of self.old) }
    {
        match self.fixed.split_first() {
            Some((first, _)) if *first != byte => Ok(Taken::Refused),
            Some((_, rest)) => {
                self.fixed = rest;
                Ok(Taken::More)
            }
            None => {
                let taken = self.make(next_move(self.step, self.field, byte))?;
                Ok(taken)
            }
        }
    }

    /// Takes the plain bytes of the field that stand at the front of a text, and answers how many they are. Where
    /// memory is wanting it takes none.
    pub(crate) fn take_run(&mut self, text: &[u8]) -> Result<usize, AllocError>
        ensures within { IfOk result (λ n. n ≤ length text.now) }
        ensures leads { IfOk result (λ n. LeadsAll (state_of self.old) (take n text.now) (state_of self.new)) }
        ensures err { OnErr result (state_of self.new ≡ state_of self.old) }
    {
        let left = match self.step {
            Step::Text(left) if self.fixed.is_empty() => left,
            _ => return Ok(0),
        };
        let run = plain_run(text, left);
        self.put(&text[..run as usize])?;
        self.step = Step::Text(left - run);
        Ok(run as usize)
    }

    /// The pair of the record that ended. Nothing of a record is left.
    pub(crate) fn finish(&mut self, alloc: Global) -> Pair
        ensures pair { (result.key ≡ (state_of self.old).key) × (result.value ≡ (state_of self.old).value) }
        ensures state { state_of self.new ≡ at_step Step.Between Field.Key [] [] }
    {
        let key = mem::replace(&mut self.key, Vec::new(alloc));
        let value = mem::replace(&mut self.value, Vec::new(alloc));
        self.fixed = b"";
        self.step = Step::Between;
        self.field = Field::Key;
        Pair {
            key: Bytes::from(key),
            value: Bytes::from(value),
        }
    }

    /// The key of the record at hand.
    pub(crate) fn key(&self) -> &[u8]
        ensures { result.now ≡ (state_of self.now).key }
    {
        self.key.as_slice()
    }
}

/// How many plain bytes, at most so many, stand at the front of a text.
fn plain_run(text: &[u8], most: u32) -> u32
    ensures within { result ≤ length text.now }
    ensures few { result ≤ most }
    ensures plain { (k : ℕ) → k < result → is_plain (slice_index text.now k) ≡ true }
{
    let mut run = 0;
    for byte in text {
        if run == most || !is_plain(*byte) {
            break;
        }
        run += 1;
    }
    run
}
