//! Memory that was made ready for the next commands of an open transaction, and is given back.
ghost use Rattle.std.specs.Prelude.{◌≡◌};
ghost use Rattle.tdb_txn.specs.Txn.{txn_left};
ghost use Rattle.tdb_txn_owner.specs.ButRoom.{stage_left, OpenButRoom, StageButRoom};

use crate::open_txn::OpenTxn;
use crate::stage::Stage;

impl OpenTxn {
    /// Gives back the memory that was made ready for the next commands. Nothing else changes.
    fn shrink_to_fit(&mut self)
        ensures room { OpenButRoom self.old self.new }
        ensures left { txn_left self.new.own.txn ≡ 0 }
    {
        self.own.txn.shrink_to_fit();
    }
}

impl Stage {
    /// Gives back the memory that was made ready for the next commands, where the transaction is open.
    pub(crate) fn shrink_to_fit(&mut self)
        ensures room { StageButRoom self.old self.new }
        ensures left { stage_left self.new ≡ 0 }
    {
        match self {
            Stage::Open { txn, .. } => txn.shrink_to_fit(),
            Stage::Starting(_)
            | Stage::Committing(_)
            | Stage::Preparing(_)
            | Stage::Prepared { .. }
            | Stage::Finishing(_) => {}
        }
    }
}
