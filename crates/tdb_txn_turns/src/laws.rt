//! The turns in the words of a world.
ghost use Rattle.tdb_txn_turns.specs.Laws.{StartHolds, StartKeeps, CommitHolds, PrepareKeeps, FinishHolds, StartRow, PrepareRow, CommitRow, FinishRow};

/// What the opener of a Start, a Commit or a Prepare holds and wants is what its rows say; and each turn is one that
/// the row of its command allows. The laws are over all openers and transactions; the function does nothing.
pub fn turns_are_of_rows()
    ensures start_holds { StartHolds }
    ensures start_keeps { StartKeeps }
    ensures commit_holds { CommitHolds }
    ensures prepare_keeps { PrepareKeeps }
    ensures finish_holds { FinishHolds }
    ensures start_row { StartRow }
    ensures prepare_row { PrepareRow }
    ensures commit_row { CommitRow }
    ensures finish_row { FinishRow }
{}
