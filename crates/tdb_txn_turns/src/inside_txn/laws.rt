//! The laws of what is done inside a transaction without a call on it, and of walks there.
ghost use Rattle.tdb_txn_turns.specs.InsideTxn.Laws.{PreparesInside, RefusesInside, WalksAreLawful, WalksStay, WalksEnd};

/// An inner Prepare does nothing, and neither does a command that the opener's own state refuses, but for a Commit
/// and a Prepare. The laws are over all openers; the function does nothing.
pub fn nothing_is_done()
    ensures prepares { PreparesInside }
    ensures refuses { RefusesInside }
{}

/// What the commands inside a transaction do to the walk of their opener's cursor is what the law of several openers
/// asks of their turns. The laws are over all states; the function does nothing.
pub fn walks_are_lawful()
    ensures lawful { WalksAreLawful }
    ensures stay { WalksStay }
    ensures end { WalksEnd }
{}
