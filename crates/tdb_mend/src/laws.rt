// The laws of mending.

ghost use Rattle.tdb_mend.specs.Laws.{OpensAndMendsAlike, OpensAtFront, AcceptedIsAsItIs, StraysCountForNothing, MendsOrFault, OneMendFault};

/// A file that opens is read as opening it reads it, from its front on, and an accepted one as it is. Stray bytes count
/// for nothing. A file can be mended, or has one fault that keeps it from that. The law is over all lists of bytes; the
/// function does nothing.
pub fn mended_law()
    ensures opens { OpensAndMendsAlike }
    ensures at_front { OpensAtFront }
    ensures accepted { AcceptedIsAsItIs }
    ensures strays { StraysCountForNothing }
    ensures mends_or_fault { MendsOrFault }
    ensures one_fault { OneMendFault }
{}
