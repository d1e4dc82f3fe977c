// What the sequence number counts for: nothing but itself.

ghost use Rattle.tdb_space.specs.Sequence.{WhateverSequence, SameFront, SameRecords, SameLists, SameVerdict, SameOpening};

/// Two images that differ at most in the sequence number, the word at 48, have the same front, records, lists, pairs
/// and map, are accepted alike with the same first fault, and open alike. The law is over all lists of bytes; the
/// function does nothing.
pub fn sequence_law()
    ensures front { WhateverSequence SameFront }
    ensures records { WhateverSequence SameRecords }
    ensures lists { WhateverSequence SameLists }
    ensures verdict { WhateverSequence SameVerdict }
    ensures opening { WhateverSequence SameOpening }
{}
