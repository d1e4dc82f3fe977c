//! Commits over several files: a transaction on each file of a group, prepared together and finished in their order.
#![tactic(auto)]

mod group;
mod member;
mod stop;
mod turns;
mod worlds;

pub use crate::group::Group;
pub use crate::stop::GroupStop;
pub use crate::worlds::Worlds;
