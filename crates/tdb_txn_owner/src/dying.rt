//! Whether the opener aside may die at a stage, and whether it would leave an open gate.
ghost use Rattle.std.specs.Prelude.{◌≡◌, MatchBool};
ghost use Rattle.tdb_law.specs.Lines.{MayDie};
ghost use Rattle.tdb_txn_owner.specs.Holders as Spec;
ghost use Rattle.tdb_txn_owner.specs.Stages.{given_task, stage_task};

use crate::stage::{PreparedTxn, Stage};
use tdb_commands::Command;
use tdb_txn_turns::{Committing, Finishing};

/// Whether an opener with this command may die: it has none, or one that would end a transaction.
fn may_die(command: &Option<Command>) -> bool
    ensures { MatchBool result (MayDie (given_task command.now)) (MayDie (given_task command.now) → ⊥) }
{
    match command {
        None | Some(Command::Commit | Command::Prepare) => true,
        Some(_) => false,
    }
}

/// Whether the gate that a commit has opened stands open still.
fn leaves_gate(finishing: &Finishing) -> bool
    ensures { result ≡ Spec.finish_gate finishing.now }
{
    !matches!(finishing, Finishing::Shut)
}

impl Stage {
    /// Whether the opener may die: it has no command, or a Commit or a Prepare.
    pub(crate) fn may_die(&self) -> bool
        ensures { MatchBool result (MayDie (stage_task self.now)) (MayDie (stage_task self.now) → ⊥) }
    {
        match self {
            Stage::Open { command, .. } | Stage::Prepared { command, .. } => may_die(command),
            Stage::Starting(_) => false,
            Stage::Committing(_) | Stage::Preparing(_) | Stage::Finishing(_) => true,
        }
    }

    /// Whether the opener would leave an open gate.
    pub(crate) fn leaves_gate(&self) -> bool
        ensures { result ≡ Spec.stage_gate self.now }
    {
        match self {
            Stage::Committing(Committing::Finishing(finishing)) | Stage::Finishing(finishing) => {
                leaves_gate(finishing)
            }
            Stage::Prepared { left, .. } => matches!(left, PreparedTxn::Opened(_)),
            Stage::Committing(Committing::Preparing(_))
            | Stage::Starting(_)
            | Stage::Open { .. }
            | Stage::Preparing(_) => false,
        }
    }
}
