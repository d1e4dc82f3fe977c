// The refusals of a command by its opener's own state: its explicit locks, and whether it has a cursor.

ghost use Rattle.std.specs.Prelude.{◌≡◌, ◌<◌, ◌-◌, ◌^◌, ◌==◌, ◌&&◌, ◌||◌, Bool, is_none, is_some, length, nat_lt, true, if◌then◌else◌};
ghost use Rattle.std.specs.Option.{option_map};
ghost use Rattle.tdb_space.specs.Form.{form_in};
ghost use Rattle.tdb_space.specs.Pairs.{home};
ghost use Rattle.tdb_locks.specs.HeldLocks.{count_of, total_of, AreCounts};
ghost use Rattle.tdb_law.specs.Refusals.{refusal, says};
ghost use Rattle.tdb_commands.specs.InLaw.{law_command, law_reply};
ghost use Rattle.tdb_commands.specs.Short.{IsShortCommand};
ghost use Rattle.tdb_openers.specs.Openers.{AtRest, own_of, own_with};
ghost use Rattle.tdb_openers.specs.Given.{held_count, holds_chains, reads_records, unlock_all_told, IsWellHeld};

use crate::locking::chain_in;
use crate::opener::Opener;
use tdb_commands::{Command, Options};
use tdb_locks::{Held, Kind, Reply};
use tdb_words::{Bytes, Header};

/// Whether a chain is held explicitly.
pub(crate) fn has_chains(held: &Held) -> bool
    ensures { result ≡ holds_chains held.now }
{
    let all = match held.all() {
        Some((_, count)) => u64::from(count),
        None => 0,
    };
    held.total() > all
}

/// Whether a chain is held explicitly, or there is a cursor.
fn has_chains_or_cursor(held: &Held, walks: bool) -> bool
    ensures { result ≡ (holds_chains held.now || walks) }
{
    has_chains(held) || walks
}

/// Whether all records are held for reading.
fn has_read_all(held: &Held) -> bool
    ensures { result ≡ reads_records held.now.all }
{
    matches!(held.all(), Some((Kind::Read, _)))
}

/// Whether locks or a cursor stand in the way of a wipe.
fn stops_wipe(held: &Held, walks: bool) -> bool
    ensures { result ≡ (walks || holds_chains held.now || reads_records held.now.all) }
{
    walks || has_chains(held) || has_read_all(held)
}

/// Whether locks or a cursor stand in the way of a lock of all records for reading.
fn stops_lock_all_read(held: &Held, walks: bool) -> bool
    ensures { result ≡ (is_none held.now.all && (holds_chains held.now || walks)) }
{
    held.all().is_none() && has_chains_or_cursor(held, walks)
}

/// Whether locks or a cursor stand in the way of a lock of all records for writing.
fn stops_lock_all(held: &Held, walks: bool) -> bool
    ensures { result ≡ (reads_records held.now.all || (is_none held.now.all && (holds_chains held.now || walks))) }
{
    has_read_all(held) || stops_lock_all_read(held, walks)
}

/// Whether locks or a cursor stand in the way of a transaction.
fn stops_start(held: &Held, walks: bool) -> bool
    ensures { result ≡ (nat_lt 0 (total_of held.now) || walks) }
{
    held.total() > 0 || walks
}

/// How many locks are held: the explicit ones, and one more for a cursor.
fn count_held(held: &Held, walks: bool) -> u64
    requires few { walks ≡ true → total_of held.now < 2 ^ 64 - 1 }
    ensures { result ≡ held_count held.now walks }
{
    held.total() + u64::from(walks)
}

/// The reply that so many locks are held, where they or a cursor stand in the way.
fn held_if(held: &Held, walks: bool, stand: bool) -> Option<Reply>
    requires few { walks ≡ true → total_of held.now < 2 ^ 64 - 1 }
    ensures { result ≡ (if stand then Some (Reply.HeldLocks (held_count held.now walks)) else None) }
{
    if stand {
        Some(Reply::HeldLocks {
            count: count_held(held, walks),
        })
    } else {
        None
    }
}

/// The reply to a command that changes the file, where nobody may change it, or where locks or a cursor stand in the
/// way.
fn change_refusal(options: &Options, held: &Held, walks: bool, stand: bool) -> Option<Reply>
    requires few { walks ≡ true → total_of held.now < 2 ^ 64 - 1 }
    ensures { result ≡ (if options.now.read_only then Some Reply.ReadOnly else (if stand then Some (Reply.HeldLocks (held_count held.now walks)) else None)) }
{
    if options.read_only {
        return Some(Reply::ReadOnly);
    }
    held_if(held, walks, stand)
}

/// The reply to the unlock of a chain, where it isn't held. Cost: a hash of the key, and a look-up.
fn unlock_refusal(held: &Held, key: &Bytes, header: &Header) -> Option<Reply>
    requires chains { 0 < header.now.hash_size }
    requires key { length key.now < 2 ^ 32 }
    ensures { result ≡ (if count_of held.now (home (form_in header.now) key.now) == 0 then Some Reply.NotLocked else None) }
{
    if held.chain_count(chain_in(header, key)) == 0 {
        Some(Reply::NotLocked)
    } else {
        None
    }
}

/// The reply to the unlock of all records, where they aren't held, or where a chain is held or a cursor stands that
/// only the last lock of them covers.
fn unlock_all_refusal(held: &Held, walks: bool) -> Option<Reply>
    requires few { walks ≡ true → total_of held.now < 2 ^ 64 - 1 }
    ensures { result ≡ unlock_all_told held.now walks }
{
    match held.all() {
        None => Some(Reply::NotLocked),
        Some((_, count)) => held_if(held, walks, count == 1 && has_chains_or_cursor(held, walks)),
    }
}

/// The reply with which the state of an opener without a transaction refuses a command on a file with this header, if
/// it does: it is the first of the command's table that applies. `held` are the locks that the opener has taken
/// explicitly, and `walks` tells whether it has a cursor. Cost: a look-up among the chains that are held.
fn refusal_by(
    options: &Options,
    held: &Held,
    walks: bool,
    command: &Command,
    header: &Header,
) -> Option<Reply>
    requires counts { AreCounts held.now.chains }
    requires few { walks ≡ true → total_of held.now < 2 ^ 64 - 1 }
    requires chains { 0 < header.now.hash_size }
    requires short { IsShortCommand command.now }
    ensures { (live : Bool) (rest : AtRest) → walks ≡ is_some rest.shown
        → option_map law_reply result ≡ option_map (says (own_with options.now live held.now rest)) (refusal (form_in header.now) (law_command command.now) (own_with options.now live held.now rest)) }
{
    match command {
        Command::Fetch { .. }
        | Command::Has { .. }
        | Command::Seqnum
        | Command::First
        | Command::Next
        | Command::EndWalk
        | Command::Close => None,
        Command::Store { .. } | Command::Append { .. } | Command::Delete { .. } => {
            change_refusal(options, held, walks, has_read_all(held))
        }
        Command::Wipe => change_refusal(options, held, walks, stops_wipe(held, walks)),
        Command::Check => held_if(held, walks, has_chains_or_cursor(held, walks)),
        Command::ChainLock { .. } | Command::ChainLockNb { .. } => {
            held_if(held, walks, has_read_all(held))
        }
        Command::ChainUnlock { key } => unlock_refusal(held, key, header),
        Command::LockAll => held_if(held, walks, stops_lock_all(held, walks)),
        Command::LockAllRead => held_if(held, walks, stops_lock_all_read(held, walks)),
        Command::UnlockAll => unlock_all_refusal(held, walks),
        Command::Start => change_refusal(options, held, walks, stops_start(held, walks)),
        Command::Commit | Command::Prepare | Command::Cancel => Some(Reply::NoTransaction),
    }
}

impl Opener {
    /// The reply with which the opener's own state refuses a command on a file with this header, if it does: it is the
    /// first of the command's table that applies. Nobody has a transaction. Cost: a look-up among the chains that are
    /// held.
    pub(crate) fn refusal(
        &self,
        options: &Options,
        command: &Command,
        header: &Header,
    ) -> Option<Reply>
        requires well { IsWellHeld self.now.held }
        requires chains { 0 < header.now.hash_size }
        requires short { IsShortCommand command.now }
        ensures { let own = own_of options.now self.now in
            option_map law_reply result ≡ option_map (says own) (refusal (form_in header.now) (law_command command.now) own) }
    {
        refusal_by(
            options,
            &self.held,
            self.walk.shown.is_some(),
            command,
            header,
        )
    }
}
