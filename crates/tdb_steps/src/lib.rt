//! The turns of a plain command on a tdb file.
#![tactic(auto)]

mod acting;
mod append_turns;
mod appending;
mod counting;
mod deleting;
mod flag;
mod giving;
mod laws;
mod linking;
mod locking;
mod look;
mod looking;
mod looks;
mod machine;
mod plain;
mod rows;
mod stage;
mod storing;
mod taking;
mod unlinking;
mod wipe_turns;
mod wiping;

pub use crate::append_turns::append_turn;
pub use crate::appending::look_to_append;
pub use crate::deleting::delete_turn;
pub use crate::flag::Flag;
pub use crate::laws::{knowledge_stays, turns_shift};
pub use crate::locking::{covers, let_go, let_go_of, take_lock};
pub use crate::looks::{fetch_turn, has_turn};
pub use crate::machine::Machine;
pub use crate::plain::Plain;
pub use crate::rows::{LockRow, Region, Rows};
pub use crate::stage::{Next, Stage, WipeStage};
pub use crate::storing::store_turn;
pub use crate::wipe_turns::wipe_turn;
pub use crate::wiping::{wipe, wipe_bytes, wipe_writes};
