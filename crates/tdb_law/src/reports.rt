// Small reports that the definitions take, and small ones that they refuse.

ghost use Rattle.tdb_law.specs.Reports.{IsRight, IsWrong, FetchLocks, at_first, at_group, row_of_two, row_of_commit};
ghost use Rattle.tdb_law.specs.Reports.{seen_early, blocked_by_nobody, done_unlocked, second_start, shown_twice};

/// What the definitions say of a small world and of small reports. The first turn of a fetch is a turn. A row of
/// two openers and a commit in nine turns with a blocked store are lawful. A fetch that sees a value before its
/// commit is done, a turn blocked by an opener who holds nothing, a store that is done before it took its lock, a
/// second transaction and a pair that is shown twice are not. The function does nothing.
pub fn worked_reports()
    ensures turn { FetchLocks }
    ensures two_openers { IsRight at_first row_of_two }
    ensures nine_turns { IsRight at_group row_of_commit }
    ensures early { IsWrong at_group seen_early }
    ensures nobody { IsWrong at_first blocked_by_nobody }
    ensures unlocked { IsWrong at_first done_unlocked }
    ensures second { IsWrong at_group second_start }
    ensures twice { IsWrong at_first shown_twice }
{}
