// The commands that are made of numbers.

ghost use Rattle.std.specs.Prelude.{◌≡◌, ◌<◌, ◌≤◌, ◌+◌, ◌-◌, ◌%◌, ◌^◌, ℕ, IfOk, length};
ghost use Rattle.tdb_commands.specs.Short.{IsShortCommand};
ghost use Rattle.tdb_gen.specs.Numbers.{next_number, number_at, IsFrom};
ghost use Rattle.tdb_gen.specs.Commands.{key_number, key_of, value_of, value_length, kind_of, command_of};

use itoa::Buffer;
use std::alloc::{AllocError, Global};
use tdb_commands::Command;
use tdb_steps::Flag;
use tdb_words::Bytes;

/// How many openers there are.
pub(crate) const OPENERS: u32 = 3;

/// How many keys there are.
const KEYS: u32 = 1000;

/// The longest key, in bytes.
const LONGEST_KEY: usize = 4;

/// The longest value of a store, in bytes.
const LONGEST_VALUE: usize = 255;

/// How many bytes are appended.
const APPENDED: usize = 4;

/// A sequence of numbers, of which commands are made.
#[derive(Clone, Copy)]
pub(crate) struct Generator {
    /// The last number.
    number: u32,

    /// How many commands were made.
    index: u32,
}

/// The number behind another.
fn number_behind(number: u32) -> u32
    ensures { result ≡ next_number number }
{
    number.wrapping_mul(1_664_525).wrapping_add(1_013_904_223)
}

/// Which key a number is about.
fn key_in(number: u32) -> u32
    ensures { result ≡ key_number number }
{
    (number >> 16) % KEYS
}

/// The key: the letter `k` and its number in decimal.
fn key(alloc: Global, number: u32) -> Result<Bytes, AllocError>
    ensures key { IfOk result (λ key. key ≡ key_of number) }
    ensures short { IfOk result (λ key. length key < 2 ^ 32) }
{
    let mut key = Vec::with_capacity(alloc, LONGEST_KEY)?;
    key.push(b'k')?;
    key.extend_from_slice(Buffer::new().format(key_in(number)).as_bytes())?;
    Ok(Bytes::from(key))
}

/// A value of so many bytes, each the small letter of the key.
fn value(alloc: Global, number: u32, len: usize) -> Result<Bytes, AllocError>
    requires { len ≤ 255 }
    ensures value { IfOk result (λ value. value ≡ value_of number len) }
    ensures short { IfOk result (λ value. length value < 2 ^ 32) }
{
    let letter = b'a' + (key_in(number) % 26) as u8;
    let row = [letter; LONGEST_VALUE];
    Bytes::copy(alloc, &row[..len])
}

/// The command that is made of a number.
fn command(alloc: Global, number: u32) -> Result<Command, AllocError>
    ensures made { IfOk result (λ command. command ≡ command_of number) }
    ensures short { IfOk result IsShortCommand }
{
    let key = key(alloc, number)?;
    Ok(match (number >> 8) % 8 {
        0..=3 => Command::Store {
            key,
            value: value(alloc, number, ((number >> 4) % 256) as usize)?,
            flag: Flag::Replace,
        },
        4 => Command::Delete { key },
        5 => Command::Append {
            key,
            value: value(alloc, number, APPENDED)?,
        },
        6 => Command::Fetch { key },
        _ => Command::Has { key },
    })
}

impl Generator {
    /// Before the first command.
    pub(crate) fn new(seed: u32) -> Generator
        ensures index { result.index ≡ 0 }
        ensures from { IsFrom seed result }
    {
        Generator {
            number: seed,
            index: 0,
        }
    }

    /// How many commands were made.
    pub(crate) fn index(&self) -> u32
        ensures { result ≡ self.now.index }
    {
        self.index
    }

    /// Which opener gets the next command. Openers are counted from 1.
    pub(crate) fn owner(&self) -> u32
        ensures { result ≡ 1 + self.now.index % 3 }
    {
        1 + self.index % OPENERS
    }

    /// The next command.
    pub(crate) fn next_command(&mut self, alloc: Global) -> Result<Command, AllocError>
        requires { self.old.index < 2 ^ 32 - 1 }
        ensures index { self.new.index ≡ self.old.index + 1 }
        ensures from { (seed : ℕ) → IsFrom seed self.old → IsFrom seed self.new }
        ensures made { IfOk result (λ command. (seed : ℕ) → IsFrom seed self.old → command ≡ command_of (number_at seed self.old.index)) }
        ensures short { IfOk result IsShortCommand }
    {
        self.number = number_behind(self.number);
        self.index += 1;
        command(alloc, self.number)
    }
}
