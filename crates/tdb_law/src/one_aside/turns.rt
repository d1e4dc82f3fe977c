// The laws of turns that change nothing of the file, and of turns of the openers that aren't aside.

ghost use Rattle.tdb_law.specs.OneAside.Laws.{WaitingIsTurned, EndIsTurned, LeavingIsTurned, AloneTurns, BesideTurns};

/// A command that meets a conflict and waits has taken a turn of the law by being blocked. The law is over all worlds;
/// the function does nothing.
pub fn waiting_is_turned()
    ensures law { WaitingIsTurned }
{}

/// A command that ends at its first turn and changes nothing has taken a turn of the law: it is refused, its lock is
/// held and it doesn't wait, it tells the file's sequence number, or it is a Next without a cursor. The law is over all
/// worlds; the function does nothing.
pub fn end_is_turned()
    ensures law { EndIsTurned }
{}

/// An EndWalk or a Close that is done at its first turn, where the cursor stands on no record, has taken a turn of the
/// law: the cursor has ended, and by a Close the opener. The law is over all worlds; the function does nothing.
pub fn leaving_is_turned()
    ensures law { LeavingIsTurned }
{}

/// Where nobody is aside, a turn in a plain state, of a command that is on no transaction, is one of the whole world.
/// The law is over all states; the function does nothing.
pub fn alone_turns()
    ensures law { AloneTurns }
{}

/// So it is beside an opener that is no matter to the command, which stands aside of the others afterwards too. The law
/// is over all states; the function does nothing.
pub fn beside_turns()
    ensures law { BesideTurns }
{}
