//! The check of a file: whether its image is accepted, and what its first fault is.
#![tactic(auto)]

mod all_links;
mod area;
mod chain;
mod chains;
mod extent;
mod free_list;
mod front;
mod hashes;
mod in_sequence;
mod judge;
mod keys;
mod laws;
mod links;
mod list_kind;
mod lists;
mod next_record;
mod record;
mod refusal;
mod report;
mod same_key;
mod stray;
mod tails;
mod trail;
mod view_front;
mod whole_file;
mod window;

pub use crate::area::{can_stand, read_area};
pub use crate::chains::follow_chains;
pub use crate::extent::{Extent, first_overlap, sort_extents};
pub use crate::free_list::follow_free_list;
pub use crate::front::{FrontRefusal, read_front};
pub use crate::laws::reads_law;
pub use crate::list_kind::ListKind;
pub use crate::record::{Found, read_record};
pub use crate::refusal::CheckRefusal;
pub use crate::report::Report;
pub use crate::stray::scan;
pub use crate::view_front::check_front;
pub use crate::whole_file::check;
