//! Sessions of `tool`: the lines of an input are commands, which one opener of a file takes, one after the other.
#![tactic(auto)]

mod asking;
mod fault;
mod limits;
mod lines;
mod order;
mod printing;
mod reader;
mod replies;
mod rows;
mod serving;
mod session;
mod taking;

pub use crate::fault::{SessionEnd, SessionFault};
pub use crate::limits::{LONGEST_LINE, LONGEST_SESSION, MOST_MOVES, limits_law};
pub use crate::order::{Order, read_order};
pub use crate::session::run_session;
