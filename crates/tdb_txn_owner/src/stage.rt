//! How far an opener with a transaction is, and what one turn leads to.
ghost use Rattle.std.specs.Prelude.{◌≡◌};
ghost use Rattle.tdb_txn_owner.specs.Wents.{goes_on, is_over};

use crate::open_txn::OpenTxn;
use tdb_commands::Command;
use tdb_locks::{Reply, Turn};
use tdb_txn::Prepared;
use tdb_txn_turns::{Committing, Finishing, Preparing, Starting};

/// What a Prepare has left of a transaction. It can't be dropped.
pub enum PreparedTxn {
    /// The gate of the undo area is open, and nothing is written.
    Opened(Prepared),

    /// Nothing is to be committed; `changed` tells whether a command of it changed anything.
    Nothing { changed: bool },
}

/// How far an opener with a transaction is. It can't be dropped.
pub enum Stage {
    /// In a Start.
    Starting(Starting),

    /// Inside its transaction, maybe with a command that has had no turn.
    Open {
        txn: OpenTxn,
        command: Option<Command>,
    },

    /// In an outer Commit that has had a step.
    Committing(Committing),

    /// In an outer Prepare that has had a step.
    Preparing(Preparing),

    /// Its transaction is prepared. It may have a command that has had no turn.
    Prepared {
        left: PreparedTxn,
        command: Option<Command>,
    },

    /// In a Commit of its prepared transaction that has had a step.
    Finishing(Finishing),
}

/// What a turn led to, and the stage after it; none where the opener has no transaction any more.
pub(crate) struct Went {
    pub(crate) turn: Turn,
    pub(crate) stage: Option<Stage>,
}

impl Went {
    /// A command that is done, with which the transaction has ended.
    pub(crate) fn over(reply: Reply) -> Went
        ensures { result ≡ is_over reply }
    {
        Went {
            turn: Turn::Done(reply),
            stage: None,
        }
    }

    /// A turn after which the opener is at this stage.
    pub(crate) fn on(turn: Turn, stage: Stage) -> Went
        ensures { result ≡ goes_on turn stage }
    {
        Went {
            turn,
            stage: Some(stage),
        }
    }
}

impl PreparedTxn {
    /// Gives it up, with no call on the disk.
    pub(crate) fn end(self) {
        match self {
            PreparedTxn::Opened(state) => state.end(),
            PreparedTxn::Nothing { changed: _ } => {}
        }
    }
}

impl Stage {
    /// Gives it up, with no call on the disk.
    pub(crate) fn end(self) {
        match self {
            Stage::Starting(_) => {}
            Stage::Open { txn: _, command: _ } => {}
            Stage::Committing(committing) => committing.end(),
            Stage::Preparing(preparing) => preparing.end(),
            Stage::Prepared { left, command: _ } => left.end(),
            Stage::Finishing(finishing) => finishing.end(),
        }
    }
}
