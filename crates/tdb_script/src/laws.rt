// The laws of scripts, over the definitions alone.

ghost use Rattle.tdb_script.specs.Laws.{HasOneReading, HasOneBadPlace, HasNoBadPlace, StaysBad};

/// A text is a script of one list of plays at most; it stops being one at one place at most, and a script at none. One
/// that is too long stops at that place whatever stands behind it.
pub fn script_law()
    ensures reading { HasOneReading }
    ensures place { HasOneBadPlace }
    ensures no { HasNoBadPlace }
    ensures stays { StaysBad }
{}
