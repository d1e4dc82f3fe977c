// What may be written into a shut undo area, and when its gate may be opened.

ghost use Rattle.tdb_space.specs.Gate.{ContentIsFree, OpenGateKeepsMap};

/// What stands in a shut undo area counts for nothing; and an accepted file that is ready keeps its map when the gate
/// is opened. The law is over all lists of bytes; the function does nothing.
pub fn gate_law()
    ensures content { ContentIsFree }
    ensures open_gate { OpenGateKeepsMap }
{}
