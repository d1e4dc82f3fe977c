// A command is given to an opener.

ghost use Rattle.std.specs.Prelude.{◌≡◌, ◌<◌, ℕ, None, is_some, MatchBool};
ghost use Rattle.tdb_space.specs.Form.{Form, form_in};
ghost use Rattle.tdb_law.specs.Commands.Command.{OnWalk};
ghost use Rattle.tdb_law.specs.Commands.WalkCommand.{Next};
ghost use Rattle.tdb_commands.specs.InLaw.{law_command};
ghost use Rattle.tdb_commands.specs.Short.{IsShortCommand};
ghost use Rattle.tdb_law.specs.Openers.{Own};
ghost use Rattle.tdb_law.specs.Refusals.{refusal};
ghost use Rattle.tdb_openers.specs.Given.{IsBeginning, IsServed, IsWellHeld};
ghost use Rattle.tdb_openers.specs.Openers.{own_of, command_in, JobStands};

use crate::job::{Checking, Job, Locking, Walking};
use crate::opener::Opener;
use crate::told::PlainJob;
use tdb_commands::{Command, Options};
use tdb_locks::Reply;
use tdb_steps::Plain;
use tdb_words::Header;

/// The job of a Next: without a cursor it is told the end. It takes no memory.
fn next_job(walks: bool) -> Job
    ensures command { command_in result ≡ OnWalk Next }
    ensures begun { (f : Form) (x : Own) (size : ℕ) → x.txn ≡ None → is_some x.cursor ≡ walks → JobStands f x result 0 size }
{
    if walks {
        Job::Walk(Walking::Next)
    } else {
        Job::Refused {
            command: Command::Next,
            reply: Reply::End,
        }
    }
}

/// The job of a command that its opener's own state doesn't refuse. `told` is the same command, and `walks` tells
/// whether the opener has a cursor. It takes no memory.
fn job_of(command: Command, told: Command, header: &Header, seqnum: bool, walks: bool) -> Job
    requires same { told ≡ command }
    requires served { IsServed command }
    requires short { IsShortCommand command }
    requires chains { 0 < header.now.hash_size }
    ensures command { command_in result ≡ law_command command }
    ensures begun { (x : Own) (size : ℕ) → refusal (form_in header.now) (law_command command) x ≡ None → x.options.seqnum ≡ seqnum → x.txn ≡ None → is_some x.cursor ≡ walks → JobStands (form_in header.now) x result 0 size }
{
    match command {
        Command::Fetch { key } => Job::Plain(PlainJob::new(
            Plain::Fetch { key },
            told,
            header,
            seqnum,
        )),
        Command::Has { key } => Job::Plain(PlainJob::new(Plain::Has { key }, told, header, seqnum)),
        Command::Store { key, value, flag } => {
            Job::Plain(PlainJob::new(Plain::Store { key, value, flag }, told, header, seqnum))
        }
        Command::Append { key, value } => {
            Job::Plain(PlainJob::new(Plain::Append { key, value }, told, header, seqnum))
        }
        Command::Delete { key } => Job::Plain(PlainJob::new(
            Plain::Delete { key },
            told,
            header,
            seqnum,
        )),
        Command::Wipe => Job::Plain(PlainJob::new(Plain::Wipe, told, header, seqnum)),
        Command::Check => Job::Check(Checking::Begun),
        Command::ChainLock { key } => Job::Locking(Locking::Chain { key }),
        Command::ChainLockNb { key } => Job::Locking(Locking::ChainNb { key }),
        Command::ChainUnlock { key } => Job::Locking(Locking::Unchain { key }),
        Command::LockAll => Job::Locking(Locking::All),
        Command::LockAllRead => Job::Locking(Locking::AllRead),
        Command::UnlockAll => Job::Locking(Locking::UnlockAll),
        Command::Seqnum => Job::Seqnum,
        Command::First => Job::Walk(Walking::First),
        Command::Next => next_job(walks),
        Command::EndWalk => Job::Walk(Walking::EndWalk),
        Command::Close => Job::Walk(Walking::Close),
        Command::Commit | Command::Prepare | Command::Cancel | Command::Start => unreachable!(),
    }
}

impl Opener {
    /// Whether the command begins a transaction: it is a Start, and the opener's own state doesn't refuse it.
    pub(crate) fn begins(&self, options: &Options, command: &Command, header: &Header) -> bool
        requires well { IsWellHeld self.now.held }
        requires chains { 0 < header.now.hash_size }
        ensures { let own = own_of options.now self.now in
            MatchBool result (IsBeginning (form_in header.now) own command.now) (IsBeginning (form_in header.now) own command.now → ⊥) }
    {
        if let Command::Start = command {
            return self.refusal(options, command, header).is_none();
        }
        false
    }

    /// The job of a command that doesn't begin a transaction: it is refused where the opener's own state says so, and a
    /// Next without a cursor is told the end. `told` is the same command. It takes no memory.
    pub(crate) fn job(
        &self,
        options: &Options,
        command: Command,
        told: Command,
        header: &Header,
    ) -> Job
        requires same { told ≡ command }
        requires well { IsWellHeld self.now.held }
        requires begun { IsBeginning (form_in header.now) (own_of options.now self.now) command → ⊥ }
        requires short { IsShortCommand command }
        requires chains { 0 < header.now.hash_size }
        ensures command { command_in result ≡ law_command command }
        ensures stands { (size : ℕ) → JobStands (form_in header.now) (own_of options.now self.now) result 0 size }
    {
        match self.refusal(options, &command, header) {
            Some(reply) => Job::Refused { command, reply },
            None => job_of(
                command,
                told,
                header,
                options.seqnum,
                self.walk.shown.is_some(),
            ),
        }
    }
}
