// The laws of what happens besides turns.

ghost use Rattle.tdb_law.specs.OneAside.Laws.{JoinsBeside, GivenBeside, DiesBeside};

/// An opener that joins the plain world, one that is given a command there and one that dies there does so in the
/// whole world, whoever is aside; who is aside goes on to stand so. The law is over all states; the function does
/// nothing.
pub fn events_beside()
    ensures join { JoinsBeside }
    ensures gift { GivenBeside }
    ensures death { DiesBeside }
{}
