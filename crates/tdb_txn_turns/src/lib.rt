//! The turns of a transaction: of the commands that begin and end it, over a disk and a lock table, and of those of its
//! opener within it.
#![tactic(auto)]

mod committing;
mod finishing;
mod inside_txn;
mod laws;
mod preparing;
mod starting;
mod taking;

pub use crate::committing::{CommitTurn, Committing};
pub use crate::finishing::{FinishTurn, Finishing, undo_prepared};
pub use crate::inside_txn::counting::{count_all, count_chain, uncount_all, uncount_chain};
pub use crate::inside_txn::laws::{nothing_is_done, walks_are_lawful};
pub use crate::inside_txn::own_txn::OwnTxn;
pub use crate::laws::turns_are_of_rows;
pub use crate::preparing::{PrepareStage, PrepareTurn, Preparing};
pub use crate::starting::{StartTurn, Starting};
