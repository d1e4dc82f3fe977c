// The script on the input.

ghost use Rattle.std.specs.Prelude.{◌≡◌, ◌⊎◌, ◌<◌, ◌++◌, [], ℕ, List, length, IsTrue, IfOk, IfErr, OnOk};
ghost use Rattle.tdb_disk.specs.Count.{HasCauseOf};
ghost use Rattle.tdb_script.specs.Script.{Script};
ghost use Rattle.tdb_script.specs.declared.limits.TheConstants.{LONGEST_SCRIPT as LONGEST};
ghost use Rattle.tdb_answer.specs.Scripts.{IsUnscripted, of_script, unscripted};
ghost use Rattle.tdb_answer.specs.declared.scripts.ScriptFault.TheVariants as FaultIs;
ghost use Rattle.tdb_world.specs.Courses.Playable.{ArePlayable};

use crate::ending::Ending;
use std::alloc::{AllocError, Global};
use tdb_commands::Plays;
use tdb_disk::{Source, SourceFault};
use tdb_script::{LONGEST_SCRIPT, ScriptRefusal, read_script};
use tdb_words::Bytes;
use thiserror::Error;

/// How much of the input is read at once, in bytes.
const PIECE: usize = 65536;

/// Why the input gives no plays.
#[derive(Clone, Copy, Debug, PartialEq, Eq, Error)]
pub(crate) enum ScriptFault {
    /// A read of it failed.
    #[error("the input failed")]
    Input,

    /// It isn't a script from the byte `at` on, or is too long there.
    #[error("malformed at {at}")]
    Malformed { at: u64 },
    #[error("out of memory")]
    Memory,
}

impl From<SourceFault> for ScriptFault {
    ghost from_gives = { λ _ e. e ≡ FaultIs.Input };

    fn from(_: SourceFault) -> Self {
        ScriptFault::Input
    }
}

impl From<AllocError> for ScriptFault {
    ghost from_gives = { λ _ e. e ≡ FaultIs.Memory };

    fn from(_: AllocError) -> Self {
        ScriptFault::Memory
    }
}

impl From<ScriptRefusal> for ScriptFault {
    ghost from_gives = { λ refusal e. e ≡ of_script refusal };

    fn from(refusal: ScriptRefusal) -> Self {
        match refusal {
            ScriptRefusal::Malformed { at } => ScriptFault::Malformed { at },
            ScriptRefusal::Memory => ScriptFault::Memory,
        }
    }
}

impl From<ScriptFault> for Ending {
    ghost from_gives = { λ fault ending. ending ≡ unscripted fault };

    fn from(fault: ScriptFault) -> Self {
        match fault {
            ScriptFault::Input => Ending::InputFault,
            ScriptFault::Malformed { at } => Ending::Malformed { at },
            ScriptFault::Memory => Ending::NoMemory,
        }
    }
}

/// Reads the input to its end, or so far that the text is too long for a script.
fn read_text<S: Source>(
    input: &mut S,
    piece: &mut [u8],
    text: &mut Bytes,
) -> Result<(), ScriptFault>
    requires room { 0 < length piece.old }
    requires empty { text.old ≡ [] }
    ensures text { OnOk result (IsTrue S.tells → (more : List ℕ) × (S.left input.old ≡ text.new ++ more) × ((more ≡ []) ⊎ (LONGEST < length text.new))) }
    ensures fault { IfErr result (λ e. (text : List ℕ) → IsUnscripted text e) }
    ensures cause { HasCauseOf FaultIs.Input (S.faults input.old) (S.faults input.new) result }
{
    while text.len() <= LONGEST_SCRIPT {
        let count = input.read(piece)?;
        if count == 0 {
            return Ok(());
        }
        text.push_all(&piece[..count])?;
    }
    Ok(())
}

/// The text on the input, read to its end, or a front of it that is too long for a script.
fn text_on<S: Source>(alloc: Global, input: &mut S) -> Result<Bytes, ScriptFault>
    ensures text { IfOk result (λ text. IsTrue S.tells → (more : List ℕ) × (S.left input.old ≡ text ++ more) × ((more ≡ []) ⊎ (LONGEST < length text))) }
    ensures fault { IfErr result (λ e. (text : List ℕ) → IsUnscripted text e) }
    ensures cause { HasCauseOf FaultIs.Input (S.faults input.old) (S.faults input.new) result }
{
    let mut piece = vec![in alloc; 0u8; PIECE]?;
    let mut text = Bytes::new(alloc);
    read_text(input, &mut piece, &mut text)?;
    Ok(text)
}

/// The plays of the script on the input, which is read whole.
pub(crate) fn plays_on<S: Source>(alloc: Global, input: &mut S) -> Result<Plays, ScriptFault>
    ensures script { IfOk result (λ plays. IsTrue S.tells → Script (S.left input.old) plays) }
    ensures playable { IfOk result ArePlayable }
    ensures refused { IfErr result (λ e. IsTrue S.tells → IsUnscripted (S.left input.old) e) }
    ensures cause { HasCauseOf FaultIs.Input (S.faults input.old) (S.faults input.new) result }
{
    let text = text_on(alloc, input)?;
    let plays = read_script(alloc, text.as_slice())?;
    Ok(plays)
}
