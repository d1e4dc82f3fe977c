//! What the states of a world say of its file, of a transaction that is prepared, and how often a Commit syncs.
ghost use Rattle.tdb_world.specs.Died.{StatesAreRead};
ghost use Rattle.tdb_world.specs.Prepared.{PreparedCommitGoesOn, PreparedCommitIsShort};
ghost use Rattle.tdb_world.specs.Stops.{TransactionsAreSafe};
ghost use Rattle.tdb_world.specs.Syncs.{CommitsSyncExactly, CommitsSyncSeldom};

/// The file, undone where its gate is open, has the map and the sequence number of each state that the world may have:
/// between the turns of a commit too, and in a stale world. The law is over all worlds and histories; the function
/// does nothing.
pub fn states_are_read()
    ensures law { StatesAreRead }
{}

/// While an opener has a transaction every stop leaves a file that opens to the map and the number that it has. The law
/// is over all worlds and histories; the function does nothing.
pub fn transactions_are_safe()
    ensures law { TransactionsAreSafe }
{}

/// A Commit of a prepared transaction ends: by the law each turn of it is a step, or after the last step its end with
/// Done, in every state that a world may have, whatever the others did. It has three steps where its Prepare opened the
/// gate, and else none. The laws are over all worlds and transactions; the function does nothing.
pub fn prepared_commits_go_on()
    ensures turn { PreparedCommitGoesOn }
    ensures steps { PreparedCommitIsShort }
{}

/// By what each turn of a Commit makes (`SyncsByStage`), a whole Commit makes nine syncs at most, and one of a prepared
/// transaction two. Over a file that tells its bytes it makes none where nothing changes, and else four where the undo
/// area has room for all that changes, seven where there is none yet, and nine where another takes its place. The laws
/// are over all Commits; the function does nothing.
pub fn commits_sync_seldom()
    ensures seldom { CommitsSyncSeldom }
    ensures exactly { CommitsSyncExactly }
{}
