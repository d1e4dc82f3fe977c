//! The free list of a tdb file: the records that hold nothing, from which the records to come are taken.
#![tactic(auto)]

mod free_recs;
mod giving;
mod growing;
mod link_word;
mod list_refusal;
mod listing;
mod look;
mod neighbours;
mod record;
mod refusal;
mod removal;
mod search;
mod stretch;
mod taking;
mod walk;

pub use crate::free_recs::FreeRecs;
pub use crate::giving::give;
pub use crate::growing::take;
pub use crate::list_refusal::ListRefusal;
pub use crate::listing::list;
pub use crate::refusal::FreeRefusal;
pub use crate::taking::take_fit;
