//! A transaction: pages of a file that are changed in memory, and transactions within it.
#![tactic(auto)]

mod applying;
mod area_found;
mod area_kept;
mod area_placed;
mod area_room;
mod changes;
mod comparing;
mod filling;
mod found;
mod gate_word;
mod giving_up;
mod keeping;
mod overlay_on;
mod page;
mod pages;
mod part;
mod planned;
mod planning;
mod reading;
mod refusal;
mod states;
mod txn;
mod writing;

pub use crate::overlay_on::OverlayOn;
pub use crate::planning::ToCommit;
pub use crate::refusal::TxnRefusal;
pub use crate::states::{Applied, Filled, Planned, Prepared, Settled};
pub use crate::txn::Txn;
