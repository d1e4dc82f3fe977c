//! The refusals of a command by the state of an opener that has a transaction.
ghost use Rattle.std.specs.Prelude.{◌≡◌, ◌<◌, ◌-◌, ◌^◌, ◌&&◌, not, length};
ghost use Rattle.std.specs.Option.{option_map};
ghost use Rattle.tdb_space.specs.Form.{form_in};
ghost use Rattle.tdb_space.specs.Pairs.{home};
ghost use Rattle.tdb_locks.specs.HeldLocks.{total_of, AreCounts};
ghost use Rattle.tdb_law.specs.Openers.{Own};
ghost use Rattle.tdb_law.specs.Refusals.{refusal, says};
ghost use Rattle.tdb_commands.specs.InLaw.{law_command, law_reply};
ghost use Rattle.tdb_txn_owner.specs.Refusing.{commit_told, counted_with, inside_told, is_writer, passes_prepared, StandsAt};
ghost use Rattle.tdb_commands.specs.Short.{IsShortCommand};

use tdb_commands::{Command, Options};
use tdb_locks::{Held, Reply};
use tdb_words::{Bytes, Header, chain_of, hash_of};

/// What of an opener's transaction, and of its cursor, decides which of its commands are refused.
#[derive(Clone, Copy)]
pub(crate) struct Level {
    /// Whether its transaction is prepared.
    pub(crate) prepared: bool,

    /// Whether a transaction is open within it.
    pub(crate) nested: bool,

    /// Whether a transaction within it was cancelled.
    pub(crate) doomed: bool,

    /// Whether it has a cursor.
    pub(crate) walks: bool,
}

/// Whether the command changes the file, or begins a transaction, in which commands do.
fn writes(command: &Command) -> bool
    ensures { result ≡ is_writer command.now }
{
    matches!(
        command,
        Command::Store { .. }
            | Command::Append { .. }
            | Command::Delete { .. }
            | Command::Wipe
            | Command::Start
    )
}

/// Whether the file is only read, and the command changes it.
fn is_forbidden(options: &Options, command: &Command) -> bool
    ensures { result ≡ (options.now.read_only && is_writer command.now) }
{
    options.read_only && writes(command)
}

/// Whether a prepared transaction takes the command, which ends it.
fn ends_prepared(command: &Command) -> bool
    ensures { result ≡ passes_prepared command.now }
{
    matches!(command, Command::Commit | Command::Cancel | Command::Close)
}

/// The chain of a key, in a file with this header.
pub(crate) fn chain_in(header: &Header, key: &Bytes) -> u32
    requires chains { 0 < header.now.hash_size }
    requires key { length key.now < 2 ^ 32 }
    ensures { result ≡ home (form_in header.now) key.now }
{
    chain_of(hash_of(header.hash, key.as_slice()), header.hash_size)
}

impl Level {
    /// Whether its transaction is prepared, and doesn't take the command.
    fn is_closed(self, command: &Command) -> bool
        ensures { result ≡ (self.prepared && not (passes_prepared command.now)) }
    {
        self.prepared && !ends_prepared(command)
    }

    /// The reply that locks or a cursor stand in the way: how many, where a cursor counts as one.
    fn held(self, held: &Held) -> Reply
        requires few { total_of held.now < 2 ^ 64 - 1 }
        ensures { result ≡ Reply.HeldLocks (counted_with held.now self.walks) }
    {
        Reply::HeldLocks {
            count: held.total() + u64::from(self.walks),
        }
    }

    /// The reply to a Commit, or to a Prepare of the outer transaction, that is refused.
    pub(crate) fn commit_refusal(self, held: &Held) -> Option<Reply>
        requires few { total_of held.now < 2 ^ 64 - 1 }
        ensures { result ≡ commit_told self held.now }
    {
        if self.doomed {
            return Some(Reply::Doomed);
        }
        if !self.nested && held.total() > 0 {
            return Some(self.held(held));
        }
        None
    }

    /// The reply to a command that is refused, of a transaction that isn't prepared, in a file that may be changed.
    /// Cost: a look-up among the chains that are held.
    fn refusal_inside(
        self,
        nesting: bool,
        held: &Held,
        command: &Command,
        header: &Header,
    ) -> Option<Reply>
        requires few { total_of held.now < 2 ^ 64 - 1 }
        requires chains { 0 < header.now.hash_size }
        requires short { IsShortCommand command.now }
        ensures { result ≡ inside_told (form_in header.now) self nesting held.now command.now }
    {
        match command {
            Command::Wipe if self.walks => Some(self.held(held)),
            Command::ChainUnlock { key } if held.chain_count(chain_in(header, key)) == 0 => {
                Some(Reply::NotLocked)
            }
            Command::UnlockAll if held.all().is_none() => Some(Reply::NotLocked),
            Command::Start if !nesting => Some(Reply::Nesting),
            Command::Commit => self.commit_refusal(held),
            Command::Prepare if !self.nested => self.commit_refusal(held),
            _ => None,
        }
    }

    /// The reply with which the state of an opener that has a transaction refuses a command on a file with this
    /// header, if it does: it is the first of the command's table that applies. `held` are the locks that it has taken
    /// explicitly. Cost: a look-up among the chains that are held.
    pub(crate) fn refusal(
        self,
        options: &Options,
        held: &Held,
        command: &Command,
        header: &Header,
    ) -> Option<Reply>
        requires counts { AreCounts held.now.chains }
        requires few { total_of held.now < 2 ^ 64 - 1 }
        requires chains { 0 < header.now.hash_size }
        requires short { IsShortCommand command.now }
        ensures { (x : Own) → StandsAt options.now self held.now x
            → option_map law_reply result ≡ option_map (says x) (refusal (form_in header.now) (law_command command.now) x) }
    {
        if is_forbidden(options, command) {
            return Some(Reply::ReadOnly);
        }
        if self.is_closed(command) {
            return Some(Reply::InTransaction);
        }
        self.refusal_inside(options.nesting, held, command, header)
    }
}
