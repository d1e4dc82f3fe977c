// The turn of a command that the opener's own state answers at once.

ghost use Rattle.std.specs.Prelude.{◌≡◌, ℕ, List, None};
ghost use Rattle.tdb_space.specs.Form.{Form};
ghost use Rattle.tdb_locks.specs.declared.piece.Piece.{Piece};
ghost use Rattle.tdb_law.specs.Openers.{Own, View};
ghost use Rattle.tdb_commands.specs.InLaw.{law_command, law_reply};
ghost use Rattle.tdb_commands.specs.declared.command.Command.{Command};
ghost use Rattle.tdb_openers.specs.Openers.{AtRest, IsRefused};
ghost use Rattle.tdb_openers.specs.Turning.{OpenerHolds, resting};
ghost use Rattle.tdb_openers.specs.Ended.{EndTurned};

use tdb_locks::{Reply, Turn};

/// Takes the turn of a command that its opener's own state answers with this reply: a refusal, or the end to a Next
/// without a cursor. It takes no lock and touches no file.
pub(crate) fn refused_turn(reply: Reply) -> Turn
    ensures turn { result ≡ Turn.Done reply }
    ensures turned { (f : Form) (x : Own) (rest : AtRest) (v : View) (c : Command) (who : ℕ) (ps : List Piece) → x.txn ≡ None → IsRefused f x (law_command c) (law_reply reply)
        → OpenerHolds f x (resting rest) (law_command c) 0 who ps → EndTurned f x x (resting rest) v (law_command c) who ps ps (law_reply reply) }
{
    Turn::Done(reply)
}
