// What the definitions of opening have to do with each other.

ghost use Rattle.tdb_space.specs.Opening.{ReadAsItIs, ReadUndone, UndoneOnce, AcceptedOpens};

/// A file with nothing to undo is read as it is, one that can be undone as what the undo gives, after which there is
/// nothing more to undo; and an accepted file opens to its own map. The law is over all lists of bytes; the function
/// does nothing.
pub fn opening_law()
    ensures as_it_is { ReadAsItIs }
    ensures undone { ReadUndone }
    ensures once { UndoneOnce }
    ensures accepted { AcceptedOpens }
{}
