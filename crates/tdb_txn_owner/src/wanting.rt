//! What the next turn of the opener aside wants of the lock bytes, and how it holds all records.
ghost use Rattle.std.specs.Prelude.{◌≡◌, Some};
ghost use Rattle.tdb_txn_owner.specs.Stages as Stages;
ghost use Rattle.tdb_txn_owner.specs.Wanting as Spec;

use crate::open_txn::OpenTxn;
use crate::stage::{PreparedTxn, Stage};
use tdb_commands::Command;
use tdb_locks::Kind;
use tdb_txn_turns::{Committing, PrepareStage, Preparing, Starting};

/// What the next turn wants of the lock bytes that its opener doesn't hold yet.
#[derive(Clone, Copy, Debug, PartialEq, Eq)]
pub enum Wants {
    Nothing,

    /// The byte of transactions, for writing.
    Transaction,

    /// The bytes of all chains and records.
    Records(Kind),

    /// The byte of opening, and where changes raise the sequence number that of it too, for writing.
    Opening { numbered: bool },
}

fn start_wants(starting: Starting) -> Wants
    ensures { result ≡ Spec.start_wants starting }
{
    match starting {
        Starting::Begun => Wants::Transaction,
        Starting::Claimed => Wants::Records(Kind::Read),
        Starting::Reading => Wants::Nothing,
    }
}

fn open_wants(txn: &OpenTxn) -> Wants
    ensures { result ≡ Spec.open_wants txn.now }
{
    let own = &txn.own;
    if !own.txn.doomed() && own.txn.depth() == 0 && txn.held.total() == 0 && own.changed {
        return Wants::Records(Kind::Write);
    }
    Wants::Nothing
}

/// Whether the command commits or prepares.
fn may_plan(command: &Command) -> bool
    ensures { result ≡ Spec.may_plan command.now }
{
    matches!(command, Command::Commit | Command::Prepare)
}

fn given_wants(txn: &OpenTxn, command: &Command) -> Wants
    ensures { result ≡ Spec.given_wants txn.now (Some command.now) }
{
    if may_plan(command) {
        return open_wants(txn);
    }
    Wants::Nothing
}

fn plan_wants(preparing: &Preparing) -> Wants
    ensures { result ≡ Spec.plan_wants preparing.now.numbered preparing.now.stage }
{
    match &preparing.stage {
        PrepareStage::Begun(_) => Wants::Records(Kind::Write),
        PrepareStage::Records(_) => Wants::Opening {
            numbered: preparing.numbered,
        },
        _ => Wants::Nothing,
    }
}

fn start_records(starting: Starting) -> Option<Kind>
    ensures { result ≡ Stages.start_records starting }
{
    match starting {
        Starting::Begun | Starting::Claimed => None,
        Starting::Reading => Some(Kind::Read),
    }
}

fn plan_records(stage: &PrepareStage) -> Kind
    ensures { result ≡ Stages.plan_records stage.now }
{
    match stage {
        PrepareStage::Unchanged | PrepareStage::Begun(_) => Kind::Read,
        _ => Kind::Write,
    }
}

fn prepared_records(left: &PreparedTxn) -> Kind
    ensures { result ≡ Stages.prepared_records left.now }
{
    match left {
        PreparedTxn::Nothing { changed: false } => Kind::Read,
        _ => Kind::Write,
    }
}

impl Stage {
    /// What the next turn wants of the lock bytes that the opener doesn't hold yet.
    pub(crate) fn wants(&self) -> Wants
        ensures { result ≡ Spec.stage_wants self.now }
    {
        match self {
            Stage::Starting(starting) => start_wants(*starting),
            Stage::Open {
                txn,
                command: Some(command),
            } => given_wants(txn, command),
            Stage::Committing(Committing::Preparing(preparing)) | Stage::Preparing(preparing) => {
                plan_wants(preparing)
            }
            Stage::Open { command: None, .. }
            | Stage::Committing(Committing::Finishing(_))
            | Stage::Prepared { .. }
            | Stage::Finishing(_) => Wants::Nothing,
        }
    }

    /// How the opener holds all records, where it does.
    pub(crate) fn records(&self) -> Option<Kind>
        ensures { result ≡ Stages.stage_records self.now }
    {
        match self {
            Stage::Starting(starting) => start_records(*starting),
            Stage::Open { .. } => Some(Kind::Read),
            Stage::Committing(Committing::Preparing(preparing)) | Stage::Preparing(preparing) => {
                Some(plan_records(&preparing.stage))
            }
            Stage::Committing(Committing::Finishing(_)) | Stage::Finishing(_) => Some(Kind::Write),
            Stage::Prepared { left, .. } => Some(prepared_records(left)),
        }
    }
}
