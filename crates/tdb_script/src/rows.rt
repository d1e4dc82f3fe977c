// The words of a script: one arm for each.

ghost use Rattle.std.specs.Prelude.{◌≡◌};
ghost use Rattle.tdb_script.specs.Rows.{row_of, walking_commands, holding_commands, group_commands, bare_commands, key_commands, value_commands, bare_plays, opener_plays, command_plays};

use crate::text::text_of;
use tdb_commands::{Command, Play};
use tdb_steps::Flag;
use tdb_words::Bytes;

/// The command on the opener's cursor that is this one word.
fn walking_named(text: &str) -> Option<Command>
    ensures { result ≡ row_of walking_commands text.now }
{
    match text {
        "first" => Some(Command::First),
        "next" => Some(Command::Next),
        "endwalk" => Some(Command::EndWalk),
        _ => None,
    }
}

/// The command on all records, or on the opener's cursor, that is this one word.
fn holding_named(text: &str) -> Option<Command>
    ensures { result ≡ row_of holding_commands text.now }
{
    match text {
        "lockall" => Some(Command::LockAll),
        "lockallread" => Some(Command::LockAllRead),
        "unlockall" => Some(Command::UnlockAll),
        _ => walking_named(text),
    }
}

/// The command of transactions, on all records, or on the opener's cursor, that is this one word.
fn group_named(text: &str) -> Option<Command>
    ensures { result ≡ row_of group_commands text.now }
{
    match text {
        "start" => Some(Command::Start),
        "commit" => Some(Command::Commit),
        "prepare" => Some(Command::Prepare),
        "cancel" => Some(Command::Cancel),
        _ => holding_named(text),
    }
}

/// The command that is this one word.
fn bare_named(text: &str) -> Option<Command>
    ensures { result ≡ row_of bare_commands text.now }
{
    match text {
        "wipe" => Some(Command::Wipe),
        "check" => Some(Command::Check),
        "seqnum" => Some(Command::Seqnum),
        "close" => Some(Command::Close),
        _ => group_named(text),
    }
}

/// The command that is one word.
pub(crate) fn bare_command(name: &[u8]) -> Option<Command>
    ensures { result ≡ row_of bare_commands name.now }
{
    match text_of(name) {
        Some(text) => bare_named(text),
        None => None,
    }
}

/// The command of this name on a key.
fn key_named(text: &str, key: Bytes) -> Option<Command>
    ensures { result ≡ row_of (key_commands key) text.now }
{
    match text {
        "fetch" => Some(Command::Fetch { key }),
        "has" => Some(Command::Has { key }),
        "delete" => Some(Command::Delete { key }),
        "lock" => Some(Command::ChainLock { key }),
        "locknb" => Some(Command::ChainLockNb { key }),
        "unlock" => Some(Command::ChainUnlock { key }),
        _ => None,
    }
}

/// The command on a key.
pub(crate) fn key_command(name: &[u8], key: Bytes) -> Option<Command>
    ensures { result ≡ row_of (key_commands key) name.now }
{
    match text_of(name) {
        Some(text) => key_named(text, key),
        None => None,
    }
}

/// The command on a key and a value.
pub(crate) fn value_command(name: &[u8], key: Bytes, value: Bytes) -> Option<Command>
    ensures { result ≡ row_of (value_commands key value) name.now }
{
    let Some(text) = text_of(name) else {
        return None;
    };
    let flag = match text {
        "store" => Flag::Replace,
        "insert" => Flag::Insert,
        "modify" => Flag::Modify,
        "append" => return Some(Command::Append { key, value }),
        _ => return None,
    };
    Some(Command::Store { key, value, flag })
}

/// The play that is one word.
pub(crate) fn bare_play(name: &[u8]) -> Option<Play>
    ensures { result ≡ row_of bare_plays name.now }
{
    let Some(text) = text_of(name) else {
        return None;
    };
    match text {
        "open" => Some(Play::Join),
        "setlog" => Some(Play::SetLog),
        _ => None,
    }
}

/// The play of an opener.
pub(crate) fn opener_play(name: &[u8], who: u32) -> Option<Play>
    ensures { result ≡ row_of (opener_plays who) name.now }
{
    let Some(text) = text_of(name) else {
        return None;
    };
    match text {
        "turn" => Some(Play::Turn { who }),
        "go" => Some(Play::Go { who }),
        "die" => Some(Play::Die { who }),
        _ => None,
    }
}

/// The play of an opener with a command.
pub(crate) fn command_play(name: &[u8], who: u32, command: Command) -> Option<Play>
    ensures { result ≡ row_of (command_plays who command) name.now }
{
    let Some(text) = text_of(name) else {
        return None;
    };
    match text {
        "give" => Some(Play::Give { who, command }),
        "do" => Some(Play::Do { who, command }),
        _ => None,
    }
}
