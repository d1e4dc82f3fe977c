// The command that words are.

ghost use Rattle.std.specs.Prelude.{◌≡◌, ℕ, List, [], ◌∷◌, IfOk};
ghost use Rattle.tdb_dump.specs.Word.{IsWord};
ghost use Rattle.tdb_commands.specs.declared.command.Command.{Command as Means};
ghost use Rattle.tdb_script.specs.Lines.{words_of};
ghost use Rattle.tdb_script.specs.Script.{IsCommand};
ghost use Rattle.tdb_script.specs.declared.unread.Unread.TheVariants.{NoReading};

use crate::cut::first_word;
use crate::rows::{bare_command, key_command, value_command};
use crate::unread::Unread;
use std::alloc::Global;
use tdb_commands::Command;
use tdb_dump::{WordRefusal, word_bytes_of};
use tdb_words::Bytes;

/// The bytes that a word stands for.
fn bytes_of(alloc: Global, word: &[u8]) -> Result<Bytes, Unread>
    ensures read { IfOk result (λ bytes. IsWord word.now bytes) }
    ensures refused { result ≡ Err NoReading → (bytes : List ℕ) → IsWord word.now bytes → ⊥ }
{
    match word_bytes_of(alloc, word) {
        Ok(bytes) => Ok(bytes),
        Err(WordRefusal::BadEscape { at: _ }) => Err(Unread::NoReading),
        Err(WordRefusal::Memory) => Err(Unread::Memory),
    }
}

/// A command of one word.
fn bare(name: &[u8]) -> Result<Command, Unread>
    ensures read { IfOk result (λ command. IsCommand (name.now ∷ []) command) }
    ensures refused { result ≡ Err NoReading → (command : Means) → IsCommand (name.now ∷ []) command → ⊥ }
{
    match bare_command(name) {
        Some(command) => Ok(command),
        None => Err(Unread::NoReading),
    }
}

/// A command on the key that a word stands for.
fn keyed(alloc: Global, name: &[u8], word: &[u8]) -> Result<Command, Unread>
    ensures read { IfOk result (λ command. IsCommand (name.now ∷ word.now ∷ []) command) }
    ensures refused { result ≡ Err NoReading → (command : Means) → IsCommand (name.now ∷ word.now ∷ []) command → ⊥ }
{
    let key = bytes_of(alloc, word)?;
    match key_command(name, key) {
        Some(command) => Ok(command),
        None => Err(Unread::NoReading),
    }
}

/// A command on the key and the value that two words stand for.
fn valued(alloc: Global, name: &[u8], word: &[u8], more: &[u8]) -> Result<Command, Unread>
    ensures read { IfOk result (λ command. IsCommand (name.now ∷ word.now ∷ more.now ∷ []) command) }
    ensures refused { result ≡ Err NoReading → (command : Means) → IsCommand (name.now ∷ word.now ∷ more.now ∷ []) command → ⊥ }
{
    let key = bytes_of(alloc, word)?;
    let value = bytes_of(alloc, more)?;
    match value_command(name, key, value) {
        Some(command) => Ok(command),
        None => Err(Unread::NoReading),
    }
}

/// The command that the words of a line are.
pub(crate) fn command_of(alloc: Global, line: &[u8]) -> Result<Command, Unread>
    ensures read { IfOk result (λ command. IsCommand (words_of line.now) command) }
    ensures refused { result ≡ Err NoReading → (command : Means) → IsCommand (words_of line.now) command → ⊥ }
{
    let Some((name, rest)) = first_word(line) else {
        return Err(Unread::NoReading);
    };
    let Some((word, rest)) = first_word(rest) else {
        return bare(name);
    };
    let Some((more, rest)) = first_word(rest) else {
        return keyed(alloc, name, word);
    };
    match first_word(rest) {
        Some(_) => Err(Unread::NoReading),
        None => valued(alloc, name, word, more),
    }
}
