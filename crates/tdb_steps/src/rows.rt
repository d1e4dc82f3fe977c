// The locks of a command's row, as data.

ghost use Rattle.std.specs.Prelude.{◌≡◌};
ghost use Rattle.tdb_space.specs.Form.{Form};
ghost use Rattle.tdb_space.specs.Pairs.{home};
ghost use Rattle.tdb_locks.specs.LockTable.{IsRange, stop};
ghost use Rattle.tdb_law.specs.Rows.{map_locks};
ghost use Rattle.tdb_steps.specs.PlainCommands.{key_of, command_of};
ghost use Rattle.tdb_steps.specs.LockRows.{start_of, end_of, locks_in, rows_of};

use crate::plain::Plain;
use tdb_locks::{Kind, Len};

/// What a lock of a row is of.
#[derive(Clone, Copy, Debug, PartialEq, Eq)]
pub enum Region {
    /// The lock byte of the chain with this number.
    Chain(u32),
    /// The lock byte of the free list.
    FreeList,
    /// The lock bytes of all chains and of all records.
    AllRecords,
}

impl Region {
    /// Its first lock byte.
    pub fn start(self) -> u64
        ensures { result ≡ start_of self }
    {
        match self {
            Region::Chain(chain) => 168 + 4 * u64::from(chain),
            Region::FreeList => 164,
            Region::AllRecords => 168,
        }
    }

    /// How many lock bytes it has.
    pub fn len(self) -> Len
        ensures range { IsRange (start_of self) result }
        ensures reaches { stop (start_of self) result ≡ end_of self }
    {
        match self {
            Region::Chain(_) | Region::FreeList => Len::Bytes(1),
            Region::AllRecords => Len::ToEnd,
        }
    }
}

/// A lock of a row: how many steps the command has had before the turn that takes it, what it is of, and its kind.
#[derive(Clone, Copy, Debug, PartialEq, Eq)]
pub struct LockRow {
    pub turn: u32,
    pub region: Region,
    pub kind: Kind,
}

/// The locks of a command: one that its first turn takes, and for a change another one before it changes the free list.
#[derive(Clone, Copy, Debug, PartialEq, Eq)]
pub struct Rows {
    pub first: LockRow,
    pub second: Option<LockRow>,
}

impl Rows {
    /// The locks of a command whose key is filed in this chain: a look takes the chain for reading; a change takes it
    /// for writing, and then the free list. A wipe, which is on no key, takes all records for writing, and then the
    /// free list.
    pub fn of(command: &Plain, chain: u32) -> Rows
        ensures rows { result ≡ rows_of command.now chain }
        ensures locks { (f : Form) → home f (key_of command.now) ≡ chain → locks_in result ≡ map_locks f (command_of command.now) }
    {
        match command {
            Plain::Fetch { .. } | Plain::Has { .. } => Rows {
                first: LockRow {
                    turn: 0,
                    region: Region::Chain(chain),
                    kind: Kind::Read,
                },
                second: None,
            },
            Plain::Store { .. } | Plain::Append { .. } | Plain::Delete { .. } => Rows {
                first: LockRow {
                    turn: 0,
                    region: Region::Chain(chain),
                    kind: Kind::Write,
                },
                second: Some(LockRow {
                    turn: 2,
                    region: Region::FreeList,
                    kind: Kind::Write,
                }),
            },
            Plain::Wipe => Rows {
                first: LockRow {
                    turn: 0,
                    region: Region::AllRecords,
                    kind: Kind::Write,
                },
                second: Some(LockRow {
                    turn: 1,
                    region: Region::FreeList,
                    kind: Kind::Write,
                }),
            },
        }
    }
}
