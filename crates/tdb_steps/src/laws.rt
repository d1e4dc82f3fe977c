// The laws of what a command knows between two turns, and of what its turns do to walks.

ghost use Rattle.tdb_steps.specs.Shifts.{StoodStay, TurnsShift};
ghost use Rattle.tdb_steps.specs.Turns.{KnowledgeStays};
ghost use Rattle.tdb_steps.specs.Machines.{MachineKnowledgeStays};

/// What a command knows between two of its turns stays so after any change that leaves the chain of its key. The law is
/// over all images and stages; the function does nothing.
pub fn knowledge_stays()
    ensures law { KnowledgeStays }
    ensures machine { MachineKnowledgeStays }
{}

/// Each turn of a machine outside a transaction shifts every walk as the law says, wherever cursors stand; and each
/// record on which one stands is one of its chain still. The law is over all turns and places; the function does
/// nothing.
pub fn turns_shift()
    ensures law { TurnsShift }
    ensures stood { StoodStay }
{}
