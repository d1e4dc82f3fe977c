// The laws of the pairs that can be read.

ghost use Rattle.tdb_rescue.specs.Laws.{RescuedStand, AcceptedRescued};

/// A pair is rescued exactly where a used record stands whole and holds it, with the hash of its key; and each pair of
/// an accepted file is rescued. The law is over all lists of bytes; the function does nothing.
pub fn rescued_law()
    ensures stand { RescuedStand }
    ensures accepted { AcceptedRescued }
{}
