// The first fault that opening a file meets, and where there is none.

ghost use Rattle.tdb_space.specs.OpeningFault.{OpensOrFault, OneOpeningFault, NeverBoth, SameWhereShut, HeaderFaultIs};

/// A file opens, or opening it meets one first fault, and never both; where there is nothing to undo that is the first
/// fault of a check. One of the kind Header is of the file's own header, or of the one that an undo gives. The law is
/// over all lists of bytes; the function does nothing.
pub fn opening_fault_law()
    ensures some { OpensOrFault }
    ensures one { OneOpeningFault }
    ensures never { NeverBoth }
    ensures shut { SameWhereShut }
    ensures header { HeaderFaultIs }
{}
