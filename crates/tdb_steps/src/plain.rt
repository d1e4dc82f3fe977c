// The plain commands.

ghost use Rattle.std.specs.Prelude.{◌≡◌};
ghost use Rattle.tdb_law.specs.MapCommands.{map_changes};
ghost use Rattle.tdb_steps.specs.PlainCommands.{key_of, command_of};

use crate::flag::Flag;
use tdb_words::Bytes;

/// A command on the map of a file that needs no transaction, with its key and its value if it has them.
#[derive(Drop)]
pub enum Plain {
    /// Asks for the value of a key.
    Fetch {
        key: Bytes,
    },
    /// Asks whether a key is there.
    Has {
        key: Bytes,
    },
    /// Stores a value.
    Store {
        key: Bytes,
        value: Bytes,
        flag: Flag,
    },
    /// Puts a value behind the one that a key has, or stores it where the key isn't there.
    Append {
        key: Bytes,
        value: Bytes,
    },
    /// Takes a key out.
    Delete {
        key: Bytes,
    },
    /// Takes all keys out.
    Wipe,
}

impl Plain {
    /// The key that the command is on. A wipe is on none: then there are no bytes.
    pub fn key(&self) -> &[u8]
        ensures { result.now ≡ key_of self.now }
    {
        match self {
            Plain::Fetch { key }
            | Plain::Has { key }
            | Plain::Store { key, .. }
            | Plain::Append { key, .. }
            | Plain::Delete { key } => key.as_slice(),
            Plain::Wipe => &[],
        }
    }

    /// Whether the command may change the map.
    pub fn changes(&self) -> bool
        ensures { result ≡ map_changes (command_of self.now) }
    {
        match self {
            Plain::Fetch { .. } | Plain::Has { .. } => false,
            Plain::Store { .. } | Plain::Append { .. } | Plain::Delete { .. } | Plain::Wipe => true,
        }
    }
}
