//! The opener aside, which has a transaction: the laws that make its turns those of a world.
#![tactic(auto)]

mod committing;
mod dying;
mod ends;
mod finishing;
mod heads;
mod inside;
mod lifts;
mod open_txn;
mod prepared;
mod preparing;
mod reads;
mod refusing;
mod shrinking;
mod stage;
mod starting;
mod txn_owner;
mod waits;
mod wanting;

pub use crate::ends::{ends_are_own, inside_is_own, machines_are_own};
pub use crate::heads::heads_are_there;
pub use crate::lifts::side_turns;
pub use crate::reads::files_are_read;
pub use crate::txn_owner::{Moved, TxnOwner};
pub use crate::waits::blocks_are_own;
pub use crate::wanting::Wants;
pub use tdb_commands::Options;
