//! One tdb file and its openers, who take turns.
#![tactic(auto)]

mod assigning;
mod checking;
mod claiming;
mod closing;
mod dying;
mod ending;
mod fault;
mod holding;
mod job;
mod laws;
mod locking;
mod numbering;
mod opener;
mod openers;
mod passing;
mod plain;
mod refusing;
mod shut_out;
mod standings;
mod taking;
mod telling;
mod told;
mod walking;

pub use crate::fault::RunFault;
pub use crate::laws::{
    broken_is_lawful, cursors_are_beside, empty_stands, gift_stands, image_is_ready,
    image_is_replaced, join_stands, keys_are_counted, low_is_free, opener_is_ready,
    records_are_free, turn_is_turned, turn_keeps_file, turn_keeps_world, walk_is_turned,
    walk_keeps_file, walk_keeps_world,
};
pub use crate::numbering::number_in;
pub use crate::openers::{JoinRefusal, MOST_OPENERS, MOST_TURNS, Openers};
pub use crate::standings::OpenerStanding;
pub use crate::telling::{put_line, tell, tell_growth, was_step};
pub use tdb_commands::Options;
