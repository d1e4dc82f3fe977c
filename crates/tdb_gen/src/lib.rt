//! Generated commands for three openers of one file: a load whose plays follow from two numbers.
#![tactic(auto)]

mod counts;
mod fault;
mod generation;
mod generator;
mod group;
mod keys;
mod laws;
mod load;
mod rounds;
mod summary;

pub use crate::counts::Counts;
pub use crate::fault::GenFault;
pub use crate::laws::groups_end;
pub use crate::load::generate;
pub use crate::summary::Summary;
