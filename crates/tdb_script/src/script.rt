// Scripts.

ghost use Rattle.std.specs.Prelude.{◌≡◌, ◌++◌, [], false, Option, IfOk, IfErr, OnOk};
ghost use Rattle.tdb_commands.specs.declared.play.Play.{Play as Means};
ghost use Rattle.tdb_script.specs.Lines.{words_of};
ghost use Rattle.tdb_script.specs.Script.{is_skipped, Says, SaysNothing, with_said, Script, IsRefused};
ghost use Rattle.tdb_script.specs.declared.unread.Unread.TheVariants.{NoReading, Memory};

use crate::cut::first_line;
use crate::limits::LONGEST_SCRIPT;
use crate::play::said_by;
use crate::unread::Unread;
use std::alloc::Global;
use tdb_commands::Plays;
use thiserror::Error;

/// Why a text is no script.
#[derive(Clone, Copy, Debug, PartialEq, Eq, Error)]
pub enum ScriptRefusal {
    /// The place at which it stops being one, in bytes from 0.
    #[error("malformed at {at}")]
    Malformed { at: u64 },
    #[error("out of memory")]
    Memory,
}

/// Adds what a line says to the plays.
fn add_line(alloc: Global, plays: &mut Plays, line: &[u8]) -> Result<(), Unread>
    ensures read { OnOk result ((said : Option Means) × Says (words_of line.now) said × (plays.new ≡ plays.old ++ with_said said [])) }
    ensures refused { result ≡ Err NoReading → SaysNothing (words_of line.now) }
    ensures wanting { result ≡ Err Memory → is_skipped (words_of line.now) ≡ false }
{
    match said_by(alloc, line)? {
        None => {}
        Some(play) => plays.push(play)?,
    }
    Ok(())
}

/// The plays that a script says: its lines in order. A text of more than 16,777,216 bytes is malformed at that place,
/// where no line before is. Memory may be wanting for a line that isn't skipped, once those before it were read. Cost:
/// one pass over the text, and a copy of each key and value.
pub fn read_script(alloc: Global, text: &[u8]) -> Result<Plays, ScriptRefusal>
    ensures read { IfOk result (λ plays. Script text.now plays) }
    ensures refused { IfErr result (λ refusal. IsRefused text.now refusal) }
{
    let is_long = text.len() > LONGEST_SCRIPT;
    let mut plays = Plays::new(alloc);
    let mut at: usize = 0;
    let mut left = Some(text);
    while let Some(rest) = left {
        let (line, more) = first_line(rest);
        let end = at + line.len();
        if is_long && LONGEST_SCRIPT <= end {
            return Err(ScriptRefusal::Malformed {
                at: LONGEST_SCRIPT as u64,
            });
        }
        match add_line(alloc, &mut plays, line) {
            Ok(()) => {}
            Err(Unread::NoReading) => return Err(ScriptRefusal::Malformed { at: at as u64 }),
            Err(Unread::Memory) => return Err(ScriptRefusal::Memory),
        }
        at = end + 1;
        left = more;
    }
    Ok(plays)
}
