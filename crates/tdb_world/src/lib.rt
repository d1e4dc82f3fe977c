//! The world: all openers of one tdb file, the one that has a transaction among them, over a file that is opened or
//! made; and plays in it, with the report of them.
#![tactic(auto)]

mod all_openers;
mod aside;
mod assigning;
mod beginning;
mod course;
mod creating;
mod dying;
mod laws;
mod loading;
mod others;
mod shrinking;
mod turning;
mod undoing;
mod world;

pub use crate::all_openers::JoinRefusal;
pub use crate::course::laws::{
    ended_files_open, prepared_commits_end, read_only_files_stay, report_is_lawful,
    steps_tell_changes,
};
pub use crate::creating::CreateRefusal;
pub use crate::laws::{
    commits_sync_seldom, prepared_commits_go_on, states_are_read, transactions_are_safe,
};
pub use crate::undoing::Undone;
pub use crate::world::World;
pub use tdb_openers::{OpenerStanding, RunFault};
