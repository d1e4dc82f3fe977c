//! The chains of a tdb file: where the record of a key stands, and the value that it holds.
#![tactic(auto)]

mod content;
mod in_place;
mod linking;
mod place;
mod record_writing;
mod refusal;
mod removal;
mod sequence;
mod walk;

pub use crate::content::value;
pub use crate::in_place::{mark_dead, update_in_place};
pub use crate::linking::link;
pub use crate::place::Place;
pub use crate::refusal::ValueRefusal;
pub use crate::removal::{purge, unlink};
pub use crate::sequence::raise_seq;
pub use crate::walk::find;
