// A file that grows by zeros and gets another undo area holds the same pairs.

ghost use Rattle.tdb_space.specs.NewArea.{LongerStays, GrownIsLonger, BareHeaderStays, AreaSetStays, AreaDroppedStays, AreaIsHand};

/// An accepted file stays accepted and holds the same pairs when it grows by zeros, as far as a stop lets it; when the
/// header of an empty undo area becomes another; and when its undo area is set anew or dropped. One that is given up is
/// a hand. The law is over all lists of bytes; the function does nothing.
pub fn new_area_law()
    ensures longer { LongerStays }
    ensures grown { GrownIsLonger }
    ensures bare { BareHeaderStays }
    ensures set { AreaSetStays }
    ensures dropped { AreaDroppedStays }
    ensures hand { AreaIsHand }
{}
