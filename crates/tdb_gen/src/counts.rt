// What is counted of turns.

ghost use Rattle.std.specs.Prelude.{◌≡◌, ℕ, ◌+◌, [], min};
ghost use Rattle.tdb_disk.specs.Count.{last_count};
ghost use Rattle.tdb_commands.specs.declared.command.Command.{Command};
ghost use Rattle.tdb_commands.specs.declared.line.Line.TheVariants as Lines;
ghost use Rattle.tdb_gen.specs.Counts.{counts_of, counts_with};

use tdb_locks::{Reply, Turn};

/// How many commands ended with each reply, and how many turns were blocked. A count stands still at its greatest.
#[derive(Clone, Copy, Debug, PartialEq, Eq)]
pub struct Counts {
    /// The replies `ok`.
    pub ok: u64,
    /// The replies with a value.
    pub values: u64,
    /// The replies `noexist`: the key isn't there.
    pub missing: u64,
    /// The replies `yes`.
    pub yes: u64,
    /// The replies `no`.
    pub no: u64,
    /// The replies `full`: the file may not grow so far.
    pub full: u64,
    /// The replies `memory`.
    pub memory: u64,
    /// The turns that another opener's lock blocked.
    pub blocked: u64,
}

/// Counts one more.
fn raise(count: &mut u64)
    ensures { count.new ≡ min (count.old + 1) last_count }
{
    *count = count.saturating_add(1);
}

impl Counts {
    /// Nothing was counted.
    pub(crate) fn new() -> Counts
        ensures { result ≡ counts_of [] }
    {
        Counts {
            ok: 0,
            values: 0,
            missing: 0,
            yes: 0,
            no: 0,
            full: 0,
            memory: 0,
            blocked: 0,
        }
    }

    /// Counts a turn.
    pub(crate) fn count_turn(&mut self, turn: &Turn)
        ensures { (who : ℕ) (command : Command) → self.new ≡ counts_with self.old (Lines.Took who command turn.now) }
    {
        match turn {
            Turn::Blocked { .. } => raise(&mut self.blocked),
            Turn::Done(Reply::Ok) => raise(&mut self.ok),
            Turn::Done(Reply::Value(_)) => raise(&mut self.values),
            Turn::Done(Reply::KeyMissing) => raise(&mut self.missing),
            Turn::Done(Reply::Yes) => raise(&mut self.yes),
            Turn::Done(Reply::No) => raise(&mut self.no),
            Turn::Done(Reply::Full { .. }) => raise(&mut self.full),
            Turn::Done(Reply::Memory) => raise(&mut self.memory),
            Turn::Step | Turn::Done(_) => {}
        }
    }
}
