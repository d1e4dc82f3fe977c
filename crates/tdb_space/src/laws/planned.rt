// What the plan of a commit leads to.

ghost use Rattle.tdb_space.specs.Planned.{PlanFills, SettledIs};

/// Where the undo area keeps what the plan will write over, the file reopens to its map while the gate is open,
/// whatever was written, and to that of the transaction once all is written and the gate is shut. The law is over all
/// lists of bytes; the function does nothing.
pub fn planned_law()
    ensures fills { PlanFills }
    ensures settled { SettledIs }
{}
