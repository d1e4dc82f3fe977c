// What a stop of a recovery may leave opens to the map of the restored file.

ghost use Rattle.tdb_space.specs.Moved.{MovedStays, StaysThen};
ghost use Rattle.tdb_space.specs.Undoing.{SameUndoRestores, AlikeRestores, AlikeOpens, ReopensAlike, ReopensAgain, AlikeReopens, TailReopens, ExactReopens, StaysReopens};
ghost use Rattle.tdb_space.specs.RecoverySteps.{FirstStepsAreAlike, EachStepIsTail, EachStepGoesOn, LowIsExact, HighIsTail};

/// Images that are undone alike are read as the same file, and so they reopen where one of them does; an accepted file
/// with a shut undo area or zeros behind it reopens, and as it is too. A file of which just the undo area or the length
/// becomes another holds the same pairs. The law is over all lists of bytes; the function does nothing.
pub fn undoing_law()
    ensures same_undo { SameUndoRestores }
    ensures alike { AlikeRestores }
    ensures alike_opens { AlikeOpens }
    ensures still_again { ReopensAlike }
    ensures once_more { ReopensAgain }
    ensures alike_again { AlikeReopens }
    ensures tail_again { TailReopens }
    ensures exact_again { ExactReopens }
    ensures moved { MovedStays }
    ensures moved_then { StaysThen }
    ensures moved_again { StaysReopens }
{}

/// What each step of a recovery leaves: at first what is undone alike; then, where the undo area stands behind the old
/// length, the restored file with a shut area or zeros behind it; where it stands below, just the restored file. The
/// function does nothing.
pub fn recovery_steps_law()
    ensures first { FirstStepsAreAlike }
    ensures tails { EachStepIsTail }
    ensures goes_on { EachStepGoesOn }
    ensures low { LowIsExact }
    ensures high { HighIsTail }
{}
