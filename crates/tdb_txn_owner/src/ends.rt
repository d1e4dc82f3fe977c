//! The turns of the opener aside, in the words of the law.
ghost use Rattle.tdb_txn_owner.specs.Ends.{StartIsOwn, CommitIsOwn, PrepareIsOwn, FinishIsOwn, NothingIsOwn};
ghost use Rattle.tdb_txn_owner.specs.Ends.{EndIsOwn, CancelEnds, RefusalEnds, CloseIsOwn, InsideIsOwn, WalkShifts};

/// What the machines of `tdb_txn_turns` promise of a turn that isn't blocked makes it a turn of the law for the opener
/// aside: each turn of a Start, of an outer Commit and Prepare, and of a Commit after a Prepare, which is done at once
/// where that found nothing to commit. The laws are over all openers and transactions; the function does nothing.
pub fn machines_are_own()
    ensures start { StartIsOwn }
    ensures commit { CommitIsOwn }
    ensures prepare { PrepareIsOwn }
    ensures finish { FinishIsOwn }
    ensures nothing { NothingIsOwn }
{}

/// So is the one turn by which a transaction ends without a commit: an outer Cancel, a refused outer Commit or Prepare,
/// whether the transaction is prepared or not, and a Close. The laws are over all openers and transactions; the
/// function does nothing.
pub fn ends_are_own()
    ensures end { EndIsOwn }
    ensures cancel { CancelEnds }
    ensures refusal { RefusalEnds }
    ensures close { CloseIsOwn }
{}

/// So is the one turn of each other command inside a transaction, by what `tdb_txn_turns` says of it, where it does to
/// the walk of the opener's own cursor what the law wants; one that is no move does so where the walk shifts. The laws
/// are over all openers and commands; the function does nothing.
pub fn inside_is_own()
    ensures turned { InsideIsOwn }
    ensures walks { WalkShifts }
{}
