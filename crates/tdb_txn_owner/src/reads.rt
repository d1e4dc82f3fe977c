//! As what the file is read while a transaction is committed into it.
ghost use Rattle.tdb_txn_owner.specs.Reads.{PrepareReads, CommitReads, ShutCommitReads, FinishReads, ShutFinishReads};
ghost use Rattle.tdb_txn_owner.specs.Reads.{PreparedReads, RestReads, EndReads};

/// By what `tdb_txn_turns` knows of the file at a stage, the file, undone where its gate is open, has the map and the
/// sequence number that it had before: at each stage of a Prepare, of a Commit until the turn that shuts the gate, and
/// of a prepared transaction, and where nothing is committed. From that turn on it has those of the transaction's
/// image. The laws are over all stages and images; the function does nothing.
pub fn files_are_read()
    ensures prepare { PrepareReads }
    ensures commit { CommitReads }
    ensures commit_shut { ShutCommitReads }
    ensures finish { FinishReads }
    ensures finish_shut { ShutFinishReads }
    ensures prepared { PreparedReads }
    ensures rest { RestReads }
    ensures end { EndReads }
{}
