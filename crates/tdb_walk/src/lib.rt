//! Cursors: walks from record to record through the chains of a tdb file.
#![tactic(auto)]

mod cursor;
mod heads;
mod laws;
mod live;
mod locking;
mod looking;
mod pair;
mod passing;
mod purging;
mod records;
mod refusal;
mod spots_apart;
mod stage;
mod standing;
mod walk;
mod walking;
mod way;

pub use crate::cursor::Cursor;
pub use crate::laws::{cursors_are_lawful, cursors_go_on, cursors_hold, moves_are_walks};
pub use crate::live::Live;
pub use crate::pair::pair_at;
pub use crate::purging::purge_dead;
pub use crate::refusal::WalkRefusal;
pub use crate::spots_apart::cursors_keep_apart;
pub use crate::stage::Goal;
pub use crate::standing::Standing;
pub use crate::walk::Walk;
pub use crate::walking::close_turn;
pub use crate::way::{Way, move_on};
