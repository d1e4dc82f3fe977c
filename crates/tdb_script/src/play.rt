// The play that a line says.

ghost use Rattle.std.specs.Prelude.{◌≡◌, ◌==◌, [], ◌∷◌, false, slice_index, IfOk};
ghost use Rattle.tdb_commands.specs.declared.play.Play.{Play as Means};
ghost use Rattle.tdb_script.specs.Lines.{words_of};
ghost use Rattle.tdb_script.specs.Script.{is_skipped, IsPlay, IsOpenerPlay, Says, SaysNothing};
ghost use Rattle.tdb_script.specs.declared.unread.Unread.TheVariants.{NoReading, Memory};

use crate::command::command_of;
use crate::cut::first_word;
use crate::number::number_of;
use crate::rows::{bare_play, command_play, opener_play};
use crate::unread::Unread;
use std::alloc::Global;
use tdb_commands::Play;

/// A play of one word.
fn bare(name: &[u8]) -> Result<Play, Unread>
    ensures read { IfOk result (λ play. IsPlay (name.now ∷ []) play) }
    ensures refused { result ≡ Err NoReading → (play : Means) → IsPlay (name.now ∷ []) play → ⊥ }
{
    match bare_play(name) {
        Some(play) => Ok(play),
        None => Err(Unread::NoReading),
    }
}

/// A play of an opener without a command.
fn alone(name: &[u8], who: u32) -> Result<Play, Unread>
    ensures read { IfOk result (λ play. IsOpenerPlay name.now who [] play) }
    ensures refused { result ≡ Err NoReading → (play : Means) → IsOpenerPlay name.now who [] play → ⊥ }
{
    match opener_play(name, who) {
        Some(play) => Ok(play),
        None => Err(Unread::NoReading),
    }
}

/// A play of an opener, with the command that the words of the rest are.
fn of_opener(alloc: Global, name: &[u8], who: u32, rest: &[u8]) -> Result<Play, Unread>
    ensures read { IfOk result (λ play. IsOpenerPlay name.now who (words_of rest.now) play) }
    ensures refused { result ≡ Err NoReading → (play : Means) → IsOpenerPlay name.now who (words_of rest.now) play → ⊥ }
{
    match first_word(rest) {
        None => return alone(name, who),
        Some(_) => {}
    }
    let command = command_of(alloc, rest)?;
    match command_play(name, who, command) {
        Some(play) => Ok(play),
        None => Err(Unread::NoReading),
    }
}

/// The play that a first word and those of the rest are.
fn named(alloc: Global, name: &[u8], rest: &[u8]) -> Result<Play, Unread>
    ensures read { IfOk result (λ play. IsPlay (name.now ∷ words_of rest.now) play) }
    ensures refused { result ≡ Err NoReading → (play : Means) → IsPlay (name.now ∷ words_of rest.now) play → ⊥ }
{
    let Some((number, rest)) = first_word(rest) else {
        return bare(name);
    };
    match number_of(number) {
        Some(who) => of_opener(alloc, name, who, rest),
        None => Err(Unread::NoReading),
    }
}

/// Whether a first word makes its line one that is skipped.
fn is_comment(name: &[u8]) -> bool
    ensures { result ≡ (slice_index name.now 0 == 35) }
{
    !name.is_empty() && name[0] == b'#'
}

/// The play that a line says, or nothing where it is skipped; then it takes no memory.
pub(crate) fn said_by(alloc: Global, line: &[u8]) -> Result<Option<Play>, Unread>
    ensures read { IfOk result (λ said. Says (words_of line.now) said) }
    ensures refused { result ≡ Err NoReading → SaysNothing (words_of line.now) }
    ensures wanting { result ≡ Err Memory → is_skipped (words_of line.now) ≡ false }
{
    let Some((name, rest)) = first_word(line) else {
        return Ok(None);
    };
    if is_comment(name) {
        return Ok(None);
    }
    match named(alloc, name, rest) {
        Ok(play) => Ok(Some(play)),
        Err(unread) => Err(unread),
    }
}
